//! Whether a rendering in a context has failed.

ghost use Rattle.std.specs.Prelude.{◌≡◌, IfErr, IfOk, OnErr, OnOk, false, true};
ghost use Rattle.handlebars_base.specs.Reasons.{failed};
ghost use Rattle.handlebars_base.specs.RenderRefusals.{plain_refusal, refusal_of};
ghost use Rattle.handlebars_context.specs.View.{has_failed};

use crate::context::RenderContext;
use handlebars_base::error::{RenderError, RenderErrorReason};

/// Checks that a context has not failed.
///
/// # Errors
///
/// Fails with `Failed` if a rendering in this context has failed.
pub fn ready(rc: &RenderContext) -> Result<(), RenderError>
    ensures ok { IfOk result (λ _. has_failed rc.now ≡ false) }
    ensures err { IfErr result (λ e. (has_failed rc.now ≡ true) × (refusal_of e ≡ plain_refusal failed)) }
{
    if rc.has_failed() {
        Err(RenderErrorReason::Failed.into())
    } else {
        Ok(())
    }
}

/// Marks the context as failed if `answer` is an error. Returns `answer`.
pub fn fail_after<T>(
    rc: &mut RenderContext,
    answer: Result<T, RenderError>,
) -> Result<T, RenderError>
    ensures answer { result ≡ answer }
    ensures ok { OnOk result (rc.new ≡ rc.old) }
    ensures err { OnErr result (rc.new ≡ record rc.old { failed = true }) }
{
    if answer.is_err() {
        rc.fail();
    }
    answer
}
