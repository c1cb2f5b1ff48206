//! Rendering with a registry: executing what a template means.

ghost use Rattle.std.specs.Prelude.{◌≡◌, ◌≢◌, IfOk, IfErr, IsErrAnd, OnErr, OnOk, string_bytes, true, false};
ghost use Rattle.handlebars_base.specs.Reasons.{out_of_memory, failed};
ghost use Rattle.handlebars_base.specs.RenderRefusals.{refusal_of, plain_refusal, reason_in};
ghost use Rattle.handlebars_template.specs.TreeView.{tree_view, element_view};
ghost use Rattle.handlebars_semantics.specs.Steps.{Steps};
ghost use Rattle.handlebars_semantics.specs.Means.{render_tree, render_alone};
ghost use Rattle.handlebars_context.specs.View.{state_of, root_of, has_failed};
ghost use Rattle.handlebars_context.specs.View.{without_partials};
ghost use Rattle.handlebars_write.specs.View.{RefinesSteps, GivesString, StringFails};
ghost use Rattle.handlebars.specs.Moments.{first_moment};
ghost use Rattle.handlebars.specs.View.{setting_of};

mod evaluable;
mod expand;
pub mod indent_aware;
pub(crate) mod logging;
pub mod over;
pub mod partial;

use crate::registry::RegistryOf;
use crate::render::logging::{Logging, NoTrees};
use crate::render::over::render_over;
pub use evaluable::Evaluable;
pub use expand::Expand;
use handlebars_base::error::RenderError;
use handlebars_base::output::{Output, StringOutput};
use handlebars_context::context::RenderContext;
use handlebars_context::failure::{fail_after, ready};
use handlebars_entry::entry::render_element_into;
use handlebars_helpers::entries::UserParts;
use handlebars_scope::context::Context;
use handlebars_template::template::{Template, TemplateElement};
use log::Log;
use std::alloc::Global;

/// What can be rendered.
pub trait Renderable {
    // The steps of rendering it.
    ghost steps: { Self → Steps };

    /// Renders over the data into an output.
    ///
    /// # Errors
    ///
    /// Fails with the error that the definition gives, with a write error of the output, or when memory runs out. The
    /// render context has failed then: later calls with it fail with `Failed` and write nothing. Its line and its
    /// current template are unspecified then.
    fn render<E: UserParts, L: Log, O: Output>(
        &self,
        alloc: Global,
        registry: &RegistryOf<E>,
        data: &Context,
        rc: &mut RenderContext,
        out: &mut O,
        log: &L,
    ) -> Result<(), RenderError>
        ensures renders { has_failed rc.old ≡ false
            → RefinesSteps (setting_of E.registered E.user registry.now «data».now) (steps self.now)
            O.may_give (first_moment rc.old (O.held out.old)) result (first_moment rc.new (O.held out.new)) }
        ensures failed { has_failed rc.old ≡ true → IsErrAnd result (λ e. refusal_of e ≡ plain_refusal failed)
            × (rc.new ≡ rc.old) × (O.held out.new ≡ O.held out.old) }
        ensures root { root_of rc.new ≡ root_of rc.old }
        ensures blocks { without_partials (state_of rc.new).blocks ≡ without_partials (state_of rc.old).blocks }
        ensures recursive { (state_of rc.new).recursive ≡ (state_of rc.old).recursive }
        ensures escapes { (state_of rc.new).escapes ≡ (state_of rc.old).escapes }
        ensures ok { OnOk result (has_failed rc.new ≡ false) }
        ensures err { OnErr result (has_failed rc.new ≡ true) };

    /// Renders over the data and returns the text.
    ///
    /// # Errors
    ///
    /// Fails as `render` does, except that no write fails.
    fn renders<E: UserParts, L: Log>(
        &self,
        alloc: Global,
        registry: &RegistryOf<E>,
        data: &Context,
        rc: &mut RenderContext,
        log: &L,
    ) -> Result<String, RenderError>
        ensures ok { IfOk result (λ text. (has_failed rc.old ≡ false)
            × GivesString (setting_of E.registered E.user registry.now «data».now) (steps self.now)
            (state_of rc.old) (state_of rc.new) (string_bytes text)) }
        ensures err { IfErr result (λ e. has_failed rc.old ≡ false → reason_in e ≢ out_of_memory
            → StringFails (setting_of E.registered E.user registry.now «data».now) (steps self.now) (state_of rc.old)
            (refusal_of e)) }
        ensures failed { has_failed rc.old ≡ true
            → IsErrAnd result (λ e. refusal_of e ≡ plain_refusal failed) × (rc.new ≡ rc.old) }
        ensures root { root_of rc.new ≡ root_of rc.old }
        ensures blocks { without_partials (state_of rc.new).blocks ≡ without_partials (state_of rc.old).blocks }
        ensures recursive { (state_of rc.new).recursive ≡ (state_of rc.old).recursive }
        ensures escapes { (state_of rc.new).escapes ≡ (state_of rc.old).escapes }
        ensures unchanged { OnOk result (has_failed rc.new ≡ false) }
        ensures fails { OnErr result (has_failed rc.new ≡ true) }
    {
        let mut out = StringOutput::new(alloc);
        match self.render(alloc, registry, data, rc, &mut out, log) {
            Ok(()) => Ok(out.into_string()),
            Err(e) => Err(e),
        }
    }
}

impl Renderable for Template {
    ghost steps = { λ t. render_tree (tree_view t) };

    fn render<E: UserParts, L: Log, O: Output>(
        &self,
        alloc: Global,
        registry: &RegistryOf<E>,
        data: &Context,
        rc: &mut RenderContext,
        out: &mut O,
        log: &L,
    ) -> Result<(), RenderError> {
        render_over(self, alloc, registry, &NoTrees, data, rc, out, log)
    }
}

/// An element alone has no position of its own: an error has the position that it comes with, as one from a body of the
/// element has.
impl Renderable for TemplateElement {
    ghost steps = { λ e. render_alone (element_view e) };

    fn render<E: UserParts, L: Log, O: Output>(
        &self,
        alloc: Global,
        registry: &RegistryOf<E>,
        data: &Context,
        rc: &mut RenderContext,
        out: &mut O,
        log: &L,
    ) -> Result<(), RenderError> {
        ready(rc)?;
        let parts = &Logging {
            registry,
            read: &NoTrees,
            log,
        };
        match render_element_into(self, alloc, parts, data, rc, out) {
            Ok(()) => Ok(()),
            Err(e) => fail_after(rc, Err(e.into_error())),
        }
    }
}
