//! Partials, for callers.

ghost use Rattle.std.specs.Prelude.{◌≡◌, IsErrAnd, OnErr, OnOk, true, false};
ghost use Rattle.handlebars_base.specs.Reasons.{failed};
ghost use Rattle.handlebars_base.specs.RenderRefusals.{refusal_of, plain_refusal};
ghost use Rattle.handlebars_helpers.specs.DecoratorsView.{tag_view};
ghost use Rattle.handlebars_semantics.specs.Including.{include};
ghost use Rattle.handlebars_semantics.specs.Occurrences.{Occurrence};
ghost use Rattle.handlebars_semantics.specs.Steps.{run};
ghost use Rattle.handlebars_context.specs.View.{state_of, root_of, has_failed};
ghost use Rattle.handlebars_context.specs.View.{without_partials};
ghost use Rattle.handlebars_write.specs.View.{RefinesSteps};
ghost use Rattle.handlebars.specs.Moments.{first_moment};
ghost use Rattle.handlebars.specs.View.{setting_of};

use crate::registry::RegistryOf;
use crate::render::logging::{Logging, NoTrees};
use handlebars_base::error::RenderError;
use handlebars_base::output::Output;
use handlebars_context::context::RenderContext;
use handlebars_context::failure::{fail_after, ready};
use handlebars_entry::entry::include_into;
use handlebars_helpers::decorators::view::Decorator;
use handlebars_helpers::entries::UserParts;
use handlebars_scope::context::Context;
use log::Log;
use std::alloc::Global;

/// Renders the partial that a tag of this view includes into an output: the template that is found by its name, under
/// the view's indentation.
///
/// # Errors
///
/// Fails with the error that the definition gives, with a write error of the output, or when memory runs out. The
/// render context has failed then: later calls with it fail with `Failed` and write nothing.
pub fn expand_partial<E: UserParts, L: Log, O: Output>(
    alloc: Global,
    d: &Decorator,
    registry: &RegistryOf<E>,
    data: &Context,
    rc: &mut RenderContext,
    out: &mut O,
    log: &L,
) -> Result<(), RenderError>
    ensures includes { (occurrence : Occurrence) → has_failed rc.old ≡ false
        → RefinesSteps (setting_of E.registered E.user registry.now «data».now) (run (include occurrence (tag_view d.now)))
        O.may_give (first_moment rc.old (O.held out.old)) result (first_moment rc.new (O.held out.new)) }
    ensures failed { has_failed rc.old ≡ true → IsErrAnd result (λ e. refusal_of e ≡ plain_refusal failed)
        × (rc.new ≡ rc.old) × (O.held out.new ≡ O.held out.old) }
    ensures root { root_of rc.new ≡ root_of rc.old }
    ensures blocks { without_partials (state_of rc.new).blocks ≡ without_partials (state_of rc.old).blocks }
    ensures recursive { (state_of rc.new).recursive ≡ (state_of rc.old).recursive }
    ensures escapes { (state_of rc.new).escapes ≡ (state_of rc.old).escapes }
    ensures ok { OnOk result (has_failed rc.new ≡ false) }
    ensures err { OnErr result (has_failed rc.new ≡ true) }
{
    ready(rc)?;
    let parts = &Logging {
        registry,
        read: &NoTrees,
        log,
    };
    match include_into(d, alloc, parts, data, rc, out) {
        Ok(()) => Ok(()),
        Err(e) => fail_after(rc, Err(e.into_error())),
    }
}
