//! What the names of a path reach, before an error is created.

ghost use Rattle.handlebars_base.specs.Answers.{IsRefusal};
ghost use Rattle.handlebars_base.specs.Reasons.{invalid_json_index};
ghost use Rattle.handlebars_base.specs.RenderRefusals.{plain_refusal};

use handlebars_base::error::{RenderError, RenderErrorReason};
use handlebars_base::json::value::Json;
use std::alloc::{AllocError, Global};

/// What names reach. It is passed on at each name, so it is small. A `RenderError` is large, and is created once, at the
/// end.
#[derive(Clone, Copy)]
pub enum Reached<'v, 'n> {
    Value(&'v Json),
    Nothing,
    /// This name isn't an index, and it was looked up in an array.
    NoIndex(&'n str),
}

/// Creates the error for a name that isn't an index: `InvalidJsonIndex`, or `OutOfMemory` if memory runs out.
pub fn wrong_index(alloc: Global, name: &str) -> RenderError
    ensures { IsRefusal (plain_refusal (invalid_json_index name.now)) result }
{
    match String::from_str(alloc, name) {
        Ok(name) => RenderErrorReason::InvalidJsonIndex(name).into(),
        Err(AllocError) => RenderErrorReason::OutOfMemory.into(),
    }
}
