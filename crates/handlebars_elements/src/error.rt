//! Errors of rendering.

ghost use Rattle.std.specs.Prelude.{◌≡◌, ◌≢◌, IfOk, None, option_map, string_bytes};
ghost use Rattle.handlebars_base.specs.Answers.{IsRefusal};
ghost use Rattle.handlebars_base.specs.Reasons.{decorator_not_found, missing_variable, out_of_memory, partial_not_found};
ghost use Rattle.handlebars_base.specs.RenderRefusals.{cause_of, location_of, plain_refusal, reason_in, reason_of};
ghost use Rattle.handlebars_template.specs.Tree.{as_name};
ghost use Rattle.handlebars_template.specs.TreeView.{param_view, position_of};
ghost use Rattle.handlebars_semantics.specs.Runs.{named_as, positioned_at};
ghost use Rattle.handlebars_expand.specs.Boxed.{error_of};

use handlebars_base::error::RenderErrorReason;
use handlebars_expand::boxed::BoxedError;
use handlebars_template::template::{Parameter, TemplateMapping};
use std::alloc::{AllocError, Global};

/// Returns an error for this reason.
#[cold]
#[inline(never)]
pub(crate) fn failed(alloc: Global, reason: RenderErrorReason) -> BoxedError
    ensures { IsRefusal (plain_refusal (reason_of reason)) (error_of result) }
{
    BoxedError::new(alloc, reason.into())
}

/// Returns the `PartialNotFound` error for a name.
#[cold]
#[inline(never)]
pub(crate) fn partial_not_found(alloc: Global, name: &str) -> BoxedError
    ensures { IsRefusal (plain_refusal (partial_not_found name.now)) (error_of result) }
{
    match String::from_str(alloc, name) {
        Ok(name) => BoxedError::new(alloc, RenderErrorReason::PartialNotFound(name).into()),
        Err(AllocError) => BoxedError::OutOfMemory,
    }
}

/// Returns the `DecoratorNotFound` error for a name.
#[cold]
#[inline(never)]
pub(crate) fn decorator_not_found(alloc: Global, name: &str) -> BoxedError
    ensures { IsRefusal (plain_refusal (decorator_not_found name.now)) (error_of result) }
{
    match String::from_str(alloc, name) {
        Ok(name) => BoxedError::new(alloc, RenderErrorReason::DecoratorNotFound(name).into()),
        Err(AllocError) => BoxedError::OutOfMemory,
    }
}

/// Returns the `MissingVariable` error for a parameter, with its text as written, if it has one.
#[cold]
#[inline(never)]
pub(crate) fn missing_variable(alloc: Global, name: &Parameter) -> BoxedError
    ensures { IsRefusal (plain_refusal (missing_variable (as_name (param_view name.now)))) (error_of result) }
{
    match written(alloc, name) {
        Ok(text) => BoxedError::new(alloc, RenderErrorReason::MissingVariable(text).into()),
        Err(AllocError) => BoxedError::OutOfMemory,
    }
}

// Returns a copy of a parameter's text as written, if it is a name or a path.
fn written(alloc: Global, name: &Parameter) -> Result<Option<String>, AllocError>
    ensures { IfOk result (λ text. option_map string_bytes text ≡ as_name (param_view name.now)) }
{
    match name.as_name() {
        Some(text) => Ok(Some(String::from_str(alloc, text)?)),
        None => Ok(None),
    }
}

/// Adds the position of an element, if it has one and the error has none yet.
#[cold]
#[inline(never)]
pub(crate) fn positioned(error: BoxedError, position: Option<&TemplateMapping>) -> BoxedError
    ensures location { reason_in (error_of result) ≢ out_of_memory
        → location_of (error_of result) ≡ positioned_at (option_map (λ m. position_of m.now) position.entry) (location_of (error_of error)) }
    ensures cause { cause_of (error_of result) ≡ cause_of (error_of error) }
{
    match position {
        Some(position) => error.at(position.0, position.1),
        None => error,
    }
}

/// Adds the name of a template, if it has one and the error has none yet.
#[cold]
#[inline(never)]
pub(crate) fn named(alloc: Global, error: BoxedError, name: &Option<String>) -> BoxedError
    ensures location { reason_in (error_of result) ≢ out_of_memory
        → location_of (error_of result) ≡ named_as (option_map string_bytes name.now) (location_of (error_of error)) }
    ensures cause { reason_in (error_of result) ≢ out_of_memory → cause_of (error_of result) ≡ cause_of (error_of error) }
    ensures memory { reason_in (error_of error) ≡ out_of_memory → reason_in (error_of result) ≡ out_of_memory }
    ensures nameless { name.now ≡ None → result ≡ error }
{
    match name {
        Some(name) => error.in_template(alloc, name),
        None => error,
    }
}
