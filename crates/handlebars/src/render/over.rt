//! Rendering a tree with others overlaid on those of a registry.

ghost use Rattle.std.specs.Prelude.{◌≡◌, ◌≢◌, IfOk, IfErr, IsErrAnd, OnErr, OnOk, string_bytes, true, false};
ghost use Rattle.handlebars_base.specs.Reasons.{out_of_memory, failed};
ghost use Rattle.handlebars_base.specs.RenderRefusals.{refusal_of, plain_refusal, reason_in};
ghost use Rattle.handlebars_template.specs.TreeView.{tree_view};
ghost use Rattle.handlebars_scope.specs.Contexts.{data_of};
ghost use Rattle.handlebars_semantics.specs.Means.{render_tree};
ghost use Rattle.handlebars_context.specs.View.{state_of, root_of, has_failed};
ghost use Rattle.handlebars_context.specs.View.{without_partials};
ghost use Rattle.handlebars_write.specs.View.{RefinesSteps, GivesString, StringFails};
ghost use Rattle.handlebars.specs.Moments.{first_moment};
ghost use Rattle.handlebars.specs.Over.{setting_with};

use crate::registry::RegistryOf;
use crate::render::logging::{Logging, Trees};
use handlebars_base::error::RenderError;
use handlebars_base::output::{Output, StringOutput};
use handlebars_context::context::RenderContext;
use handlebars_context::failure::{fail_after, ready};
use handlebars_entry::entry::render_into;
use handlebars_helpers::entries::UserParts;
use handlebars_scope::context::Context;
use handlebars_template::template::Template;
use log::Log;
use std::alloc::Global;

/// Renders a tree into an output, as `Renderable::render` does, with these trees instead of those that are registered
/// under the same names.
pub fn render_over<E: UserParts, T: Trees, L: Log, O: Output>(
    template: &Template,
    alloc: Global,
    registry: &RegistryOf<E>,
    read: &T,
    data: &Context,
    rc: &mut RenderContext,
    out: &mut O,
    log: &L,
) -> Result<(), RenderError>
    ensures renders { has_failed rc.old ≡ false
        → RefinesSteps (setting_with E.registered E.user (T.trees read.now) registry.now (data_of «data».now))
        (render_tree (tree_view template.now)) O.may_give (first_moment rc.old (O.held out.old)) result
        (first_moment rc.new (O.held out.new)) }
    ensures failed { has_failed rc.old ≡ true → IsErrAnd result (λ e. refusal_of e ≡ plain_refusal failed)
        × (rc.new ≡ rc.old) × (O.held out.new ≡ O.held out.old) }
    ensures root { root_of rc.new ≡ root_of rc.old }
    ensures blocks { without_partials (state_of rc.new).blocks ≡ without_partials (state_of rc.old).blocks }
    ensures recursive { (state_of rc.new).recursive ≡ (state_of rc.old).recursive }
    ensures escapes { (state_of rc.new).escapes ≡ (state_of rc.old).escapes }
    ensures ok { OnOk result (has_failed rc.new ≡ false) }
    ensures err { OnErr result (has_failed rc.new ≡ true) }
{
    ready(rc)?;
    let parts = &Logging {
        registry,
        read,
        log,
    };
    match render_into(template, alloc, parts, data, rc, out) {
        Ok(()) => Ok(()),
        Err(e) => fail_after(rc, Err(e.into_error())),
    }
}

/// Renders a tree as `render_over` does, and returns the text.
pub fn renders_over<E: UserParts, T: Trees, L: Log>(
    template: &Template,
    alloc: Global,
    registry: &RegistryOf<E>,
    read: &T,
    data: &Context,
    rc: &mut RenderContext,
    log: &L,
) -> Result<String, RenderError>
    ensures ok { IfOk result (λ text. (has_failed rc.old ≡ false)
        × GivesString (setting_with E.registered E.user (T.trees read.now) registry.now (data_of «data».now))
        (render_tree (tree_view template.now))
        (state_of rc.old) (state_of rc.new) (string_bytes text)) }
    ensures err { IfErr result (λ e. has_failed rc.old ≡ false → reason_in e ≢ out_of_memory
        → StringFails (setting_with E.registered E.user (T.trees read.now) registry.now (data_of «data».now))
        (render_tree (tree_view template.now))
        (state_of rc.old) (refusal_of e)) }
{
    let mut out = StringOutput::new(alloc);
    match render_over(template, alloc, registry, read, data, rc, &mut out, log) {
        Ok(()) => Ok(out.into_string()),
        Err(e) => Err(e),
    }
}
