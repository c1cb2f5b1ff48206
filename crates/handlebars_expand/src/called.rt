//! The error for a call by a name that no helper has.

ghost use Rattle.handlebars_base.specs.Answers.{IsRefusal};
ghost use Rattle.handlebars_base.specs.Reasons.{helper_not_found};
ghost use Rattle.handlebars_base.specs.RenderRefusals.{plain_refusal};
ghost use Rattle.handlebars_expand.specs.Boxed.{error_of};

use crate::boxed::BoxedError;
use handlebars_base::error::RenderErrorReason;
use std::alloc::{AllocError, Global};

/// Returns the `HelperNotFound` error for a name, or out of memory.
#[cold]
#[inline(never)]
pub fn helper_not_found(alloc: Global, name: &str) -> BoxedError
    ensures { IsRefusal (plain_refusal (helper_not_found name.now)) (error_of result) }
{
    match String::from_str(alloc, name) {
        Ok(name) => BoxedError::new(alloc, RenderErrorReason::HelperNotFound(name).into()),
        Err(AllocError) => BoxedError::OutOfMemory,
    }
}
