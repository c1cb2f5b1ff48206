//! Errors of functions that are helpers or decorators.

ghost use Rattle.std.specs.Prelude.{◌≡◌};
ghost use Rattle.handlebars_base.specs.Reasons.{out_of_memory};
ghost use Rattle.handlebars_base.specs.RenderRefusals.{cause_of, plain_refusal, reason_of, refusal_of};
ghost use Rattle.handlebars_helpers.specs.FnErrors.{fn_reason};

use handlebars_base::error::{RenderError, RenderErrorReason, TemplateError};
use std::alloc::{AllocError, AllocFailed};
use std::io;
use std::string::FromUtf8Error;

/// The reason for which a function that is a helper or a decorator fails: that of `RenderErrorReason` with the
/// same name. The reasons that hold a `&'static str` are left out, because a call of a `dyn Fn` cannot return
/// one.
#[derive(Drop)]
pub enum FnError {
    TemplateNotFound(String),
    TemplateError(TemplateError),
    MissingVariable(Option<String>),
    PartialNotFound(String),
    PartialBlockNotFound,
    HelperNotFound(String),
    DecoratorNotFound(String),
    CannotIncludeSelf,
    InvalidLoggingLevel(String),
    BlockContentRequired,
    InvalidJsonPath(String),
    InvalidJsonIndex(String),
    SerdeError(serde_json::Error),
    IOError(io::Error),
    Utf8Error(FromUtf8Error),
    NestedError(String),
    Unimplemented,
    Other(String),
    InclusionLimit(u16),
    InvalidNumber,
    Failed,
    OutOfMemory,
}

impl From<FnError> for RenderError {
    ghost from_gives = { λ r e. refusal_of e ≡ plain_refusal (fn_reason r) };

    fn from(error: FnError) -> RenderError
        ensures refusal { refusal_of result ≡ plain_refusal (fn_reason error) }

        // A cause that comes from outside is preserved.
        ensures json { (cause : _) → error ≡ FnError.SerdeError cause → cause_of result ≡ RenderErrorReason.SerdeError cause }
        ensures io { (cause : _) → error ≡ FnError.IOError cause → cause_of result ≡ RenderErrorReason.IOError cause }
        ensures utf8 { (cause : _) → error ≡ FnError.Utf8Error cause → cause_of result ≡ RenderErrorReason.Utf8Error cause }
    {
        RenderError::from(reason(error))
    }
}

fn reason(error: FnError) -> RenderErrorReason
    ensures reason { reason_of result ≡ fn_reason error }
    ensures json { (cause : _) → error ≡ FnError.SerdeError cause → result ≡ RenderErrorReason.SerdeError cause }
    ensures io { (cause : _) → error ≡ FnError.IOError cause → result ≡ RenderErrorReason.IOError cause }
    ensures utf8 { (cause : _) → error ≡ FnError.Utf8Error cause → result ≡ RenderErrorReason.Utf8Error cause }
{
    match error {
        FnError::TemplateNotFound(name) => RenderErrorReason::TemplateNotFound(name),
        // Out of memory isn't wrapped.
        FnError::TemplateError(cause) => cause.into(),
        FnError::MissingVariable(path) => RenderErrorReason::MissingVariable(path),
        FnError::PartialNotFound(name) => RenderErrorReason::PartialNotFound(name),
        FnError::PartialBlockNotFound => RenderErrorReason::PartialBlockNotFound,
        FnError::HelperNotFound(name) => RenderErrorReason::HelperNotFound(name),
        FnError::DecoratorNotFound(name) => RenderErrorReason::DecoratorNotFound(name),
        FnError::CannotIncludeSelf => RenderErrorReason::CannotIncludeSelf,
        FnError::InvalidLoggingLevel(level) => RenderErrorReason::InvalidLoggingLevel(level),
        FnError::BlockContentRequired => RenderErrorReason::BlockContentRequired,
        FnError::InvalidJsonPath(path) => RenderErrorReason::InvalidJsonPath(path),
        FnError::InvalidJsonIndex(index) => RenderErrorReason::InvalidJsonIndex(index),
        FnError::SerdeError(cause) => RenderErrorReason::SerdeError(cause),
        FnError::IOError(cause) => RenderErrorReason::IOError(cause),
        FnError::Utf8Error(cause) => RenderErrorReason::Utf8Error(cause),
        FnError::NestedError(cause) => RenderErrorReason::NestedError(cause),
        FnError::Unimplemented => RenderErrorReason::Unimplemented,
        FnError::Other(text) => RenderErrorReason::Other(text),
        FnError::InclusionLimit(limit) => RenderErrorReason::InclusionLimit(limit),
        FnError::InvalidNumber => RenderErrorReason::InvalidNumber,
        FnError::Failed => RenderErrorReason::Failed,
        FnError::OutOfMemory => RenderErrorReason::OutOfMemory,
    }
}

impl From<AllocError> for FnError {
    ghost from_gives = { λ _ r. fn_reason r ≡ out_of_memory };

    fn from(_e: AllocError) -> FnError
        ensures { fn_reason result ≡ out_of_memory }
    {
        FnError::OutOfMemory
    }
}

impl<T: Drop> From<AllocFailed<T>> for FnError {
    ghost from_gives = { λ _ r. fn_reason r ≡ out_of_memory };

    fn from(_e: AllocFailed<T>) -> FnError
        ensures { fn_reason result ≡ out_of_memory }
    {
        FnError::OutOfMemory
    }
}
