//! An error that is propagated through a rendering.

ghost use Rattle.std.specs.Prelude.{◌≡◌, ◌≢◌, IfOk, option_map, string_bytes};
ghost use Rattle.handlebars_base.specs.Reasons.{out_of_memory};
ghost use Rattle.handlebars_base.specs.RenderRefusals.{reason_in, location_of, cause_of, name_if_none, position_if_none};
ghost use Rattle.handlebars_expand.specs.Boxed.{error_of, IsPropagated};

use handlebars_base::error::{RenderError, RenderErrorReason};
use std::alloc::{AllocError, AllocFailed, Global};

/// An error that takes one or two machine words of a call's result, so that results without an error cost little. If the box
/// cannot be allocated, the error is out of memory.
#[derive(Drop)]
pub enum BoxedError {
    OutOfMemory,
    Error(Box<RenderError>),
}

impl BoxedError {
    /// Boxes an error. Returns `OutOfMemory` if the box cannot be allocated. Callers reserve no stack space for an error until
    /// there is one.
    #[cold]
    #[inline(never)]
    pub fn new(alloc: Global, error: RenderError) -> BoxedError
        ensures { IsPropagated error (error_of result) }
    {
        match Box::new(alloc, error) {
            Ok(error) => BoxedError::Error(error),
            Err(_) => BoxedError::OutOfMemory,
        }
    }

    /// Returns the error out of its box.
    pub fn into_error(self) -> RenderError
        ensures { IsPropagated (error_of self) result }
    {
        match self {
            BoxedError::OutOfMemory => RenderErrorReason::OutOfMemory.into(),
            BoxedError::Error(error) => Box::into_inner(error),
        }
    }

    /// Adds the line and column of an element, if the error has no line yet.
    pub fn at(self, line: usize, column: usize) -> BoxedError
        ensures location { reason_in (error_of result) ≢ out_of_memory
            → location_of (error_of result) ≡ position_if_none line column (location_of (error_of self)) }
        ensures cause { cause_of (error_of result) ≡ cause_of (error_of self) }
    {
        match self {
            BoxedError::OutOfMemory => BoxedError::OutOfMemory,
            BoxedError::Error(mut error) => {
                if error.line_no.is_none() {
                    error.line_no = Some(line);
                    error.column_no = Some(column);
                }
                BoxedError::Error(error)
            }
        }
    }

    /// Replaces the template name of the error by `name`, which may be none. If `name` cannot be copied, the error becomes out
    /// of memory.
    pub fn renamed(self, name: &Option<String>) -> BoxedError
        ensures location { reason_in (error_of result) ≢ out_of_memory → location_of (error_of result)
            ≡ record (location_of (error_of self)) { name = option_map string_bytes name.now } }
        ensures cause { reason_in (error_of result) ≢ out_of_memory → cause_of (error_of result) ≡ cause_of (error_of self) }
        ensures memory { reason_in (error_of self) ≡ out_of_memory → reason_in (error_of result) ≡ out_of_memory }
    {
        match self {
            BoxedError::OutOfMemory => BoxedError::OutOfMemory,
            BoxedError::Error(mut error) => match copied(name) {
                Ok(name) => {
                    error.template_name = name;
                    BoxedError::Error(error)
                }
                Err(AllocError) => BoxedError::OutOfMemory,
            },
        }
    }

    /// Adds the name of a template, if the error has none yet. If the name cannot be copied, the error becomes out of memory.
    pub fn in_template(self, alloc: Global, name: &String) -> BoxedError
        ensures location { reason_in (error_of result) ≢ out_of_memory
            → location_of (error_of result) ≡ name_if_none (string_bytes name.now) (location_of (error_of self)) }
        ensures cause { reason_in (error_of result) ≢ out_of_memory → cause_of (error_of result) ≡ cause_of (error_of self) }
        ensures memory { reason_in (error_of self) ≡ out_of_memory → reason_in (error_of result) ≡ out_of_memory }
    {
        match self {
            BoxedError::OutOfMemory => BoxedError::OutOfMemory,
            BoxedError::Error(mut error) => {
                if error.template_name.is_none() {
                    match String::from_str(alloc, name.as_str()) {
                        Ok(name) => error.template_name = Some(name),
                        Err(AllocError) => return BoxedError::OutOfMemory,
                    }
                }
                BoxedError::Error(error)
            }
        }
    }
}

// Copies a name, if there is one.
fn copied(name: &Option<String>) -> Result<Option<String>, AllocError>
    ensures { IfOk result (λ copy. option_map string_bytes copy ≡ option_map string_bytes name.now) }
{
    match name {
        Some(name) => Ok(Some(name.clone()?)),
        None => Ok(None),
    }
}

impl From<AllocError> for BoxedError {
    ghost from_gives = { λ _ e. reason_in (error_of e) ≡ out_of_memory };

    fn from(_e: AllocError) -> BoxedError {
        BoxedError::OutOfMemory
    }
}

// A push or another allocation that fails returns the value that it could not store.
impl<T: Drop> From<AllocFailed<T>> for BoxedError {
    ghost from_gives = { λ _ e. reason_in (error_of e) ≡ out_of_memory };

    fn from(_e: AllocFailed<T>) -> BoxedError {
        BoxedError::OutOfMemory
    }
}
