//! Why a rendering, a registration or a read fails, and where.

ghost use Rattle.std.specs.Prelude.{◌≡◌, ◌≢◌, Some, None, option_map, string_bytes, IfOk, IfSome};
ghost use Rattle.std.specs.IoError.{error_kind};
ghost use Rattle.handlebars_base.specs.Bytes.{Text};
ghost use Rattle.handlebars_base.specs.Reasons.{Reason, nowhere, out_of_memory, io_error, utf8_error, serde_error, of_template, other, missing_variable, nested_error};

use crate::error::{TemplateError, TemplateErrorReason};
use std::alloc::{AllocError, AllocFailed, Global};
use std::string::FromUtf8Error;
use std::{fmt, io};
use thiserror::Error;

/// The reason why a rendering, a registration or a read fails.
#[derive(Debug, Drop, Error)]
pub enum RenderErrorReason {
    #[error("Template not found {0}")]
    TemplateNotFound(String),
    #[error("Failed to parse template {0}")]
    TemplateError(TemplateError),
    #[error("Failed to access variable in strict mode {0:?}")]
    MissingVariable(Option<String>),
    #[error("Partial not found {0}")]
    PartialNotFound(String),
    #[error("Partial block cound not be found")]
    PartialBlockNotFound,
    #[error("Helper not found {0}")]
    HelperNotFound(String),
    #[error("Helper/Decorator {0} param at index {1} required but not found")]
    ParamNotFoundForIndex(&'static str, usize),
    #[error("Helper/Decorator {0} param with name {1} required but not found")]
    ParamNotFoundForName(&'static str, String),
    /// For callers: the engine never creates it.
    #[error("Helper/Decorator {0} param with name {1} type mismatch for {2}")]
    ParamTypeMismatchForName(&'static str, String, String),
    /// For callers: the engine never creates it.
    #[error("Helper/Decorator {0} hash with name {1} type mismatch for {2}")]
    HashTypeMismatchForName(&'static str, String, String),
    #[error("Decorator not found {0}")]
    DecoratorNotFound(String),
    #[error("Can not include current template in partial")]
    CannotIncludeSelf,
    #[error("Invalid logging level: {0}")]
    InvalidLoggingLevel(String),
    #[error("Invalid param type, {0} expected")]
    InvalidParamType(&'static str),
    #[error("Block content required")]
    BlockContentRequired,
    #[error("Invalid json path {0}")]
    InvalidJsonPath(String),
    #[error("Cannot access array/vector with string index, {0}")]
    InvalidJsonIndex(String),
    #[error("Failed to access JSON data: {0}")]
    SerdeError(serde_json::Error),
    #[error("IO Error: {0}")]
    IOError(io::Error),
    /// For callers: the engine never creates it.
    #[error("FromUtf8Error: {0}")]
    Utf8Error(FromUtf8Error),
    /// For callers: the engine never creates it.
    #[error("Nested error: {0}")]
    NestedError(String),
    /// For callers: the engine never creates it.
    #[error("Unimplemented")]
    Unimplemented,
    #[error("{0}")]
    Other(String),
    #[error("Inclusions nest deeper than {0}")]
    InclusionLimit(u16),
    #[error("Number outside the kept range")]
    InvalidNumber,
    #[error("Render context has failed")]
    Failed,
    #[error("Out of memory")]
    OutOfMemory,
}

impl RenderErrorReason {
    ghost use Rattle.handlebars_base.specs.RenderRefusals.{reason_of};

    fn of_text(alloc: Global, text: &str) -> Result<RenderErrorReason, AllocError>
        ensures { IfOk result (λ r. reason_of r ≡ other text.now) }
    {
        Ok(RenderErrorReason::Other(String::from_str(alloc, text)?))
    }

    fn of_variable(alloc: Global, path: Option<&String>) -> Result<RenderErrorReason, AllocError>
        ensures { IfOk result (λ r. reason_of r ≡ missing_variable (option_map (λ s. string_bytes s.now) path.entry)) }
    {
        let path = match path {
            Some(text) => Some(String::from_str(alloc, text.as_str())?),
            None => None,
        };
        Ok(RenderErrorReason::MissingVariable(path))
    }

    fn of_cause<E: fmt::Display>(alloc: Global, cause: &E) -> Result<RenderErrorReason, AllocError>
        ensures nested { IfOk result (λ r. (text : Text) × (reason_of r ≡ nested_error text)) }
        ensures text { IfOk result (λ r. IfSome (E.output cause.now) (λ text. reason_of r ≡ nested_error text)) }
    {
        Ok(RenderErrorReason::NestedError(cause.to_string(alloc)?))
    }
}

/// An error: its reason, its template, and its line and column, which are 1-based. Columns count characters.
#[derive(Debug)]
pub struct RenderError {
    pub template_name: Option<String>,
    pub line_no: Option<usize>,
    pub column_no: Option<usize>,
    reason: RenderErrorReason,
}

// Not derived, so that each drop of one is a single call.
impl Drop for RenderError {
    fn drop(self) {
        let RenderError {
            template_name: _,
            line_no: _,
            column_no: _,
            reason: _,
        } = self;
    }
}

impl RenderError {
    ghost use Rattle.handlebars_base.specs.RenderRefusals.{reason_of, reason_in, cause_of, plain_refusal, refusal_of, location_of, name_if_none, position_if_none};

    /// Creates a user-defined error, with the reason `Other` of the text. If there is no memory for the text, the reason
    /// is `OutOfMemory`.
    pub fn new(alloc: Global, text: &str) -> RenderError
        ensures plain { refusal_of result ≡ plain_refusal (reason_in result) }
        ensures reason { reason_in result ≢ out_of_memory → reason_in result ≡ other text.now }
    {
        RenderErrorReason::of_text(alloc, text).into()
    }

    /// Creates an error with the reason `MissingVariable` of the path. If there is no memory for a copy of it, the reason
    /// is `OutOfMemory`.
    pub fn strict_error(alloc: Global, path: Option<&String>) -> RenderError
        ensures plain { refusal_of result ≡ plain_refusal (reason_in result) }
        ensures reason { reason_in result ≢ out_of_memory
            → reason_in result ≡ missing_variable (option_map (λ s. string_bytes s.now) path.entry) }
    {
        RenderErrorReason::of_variable(alloc, path).into()
    }

    /// Creates an error with the reason `NestedError` of the cause's text. `info` is ignored. If there is no memory for
    /// the text, the reason is `OutOfMemory`.
    pub fn from_error<E: fmt::Display>(alloc: Global, _info: &str, cause: &E) -> RenderError
        ensures plain { refusal_of result ≡ plain_refusal (reason_in result) }
        ensures reason { reason_in result ≢ out_of_memory → (text : Text) × (reason_in result ≡ nested_error text) }
        ensures text { IfSome (E.output cause.now) (λ text. reason_in result ≢ out_of_memory → reason_in result ≡ nested_error text) }
    {
        RenderErrorReason::of_cause(alloc, cause).into()
    }

    /// Returns the reason.
    pub fn reason(&self) -> &RenderErrorReason
        ensures reason { reason_of result.now ≡ reason_in self.now }
        ensures cause { result.now ≡ cause_of self.now }
    {
        &self.reason
    }

    /// Sets the position of an element, if no line is known yet.
    pub fn at(self, line: usize, column: usize) -> RenderError
        ensures positioned { location_of result ≡ position_if_none line column (location_of self) }
        ensures cause { cause_of result ≡ cause_of self }
    {
        if self.line_no.is_some() {
            return self;
        }
        let mut error = self;
        error.line_no = Some(line);
        error.column_no = Some(column);
        error
    }

    /// Sets the name of a template, if none is known yet. If there is no memory for a copy of it, the reason becomes
    /// `OutOfMemory`, and the error has no position and no name.
    pub fn in_template(self, alloc: Global, name: &String) -> RenderError
        ensures named { reason_in result ≢ out_of_memory
            → location_of result ≡ name_if_none (string_bytes name.now) (location_of self) }
        ensures cause { reason_in result ≢ out_of_memory → cause_of result ≡ cause_of self }
        ensures memory { reason_in self ≡ out_of_memory → reason_in result ≡ out_of_memory }
        ensures bare { reason_in self ≢ out_of_memory → reason_in result ≡ out_of_memory → location_of result ≡ nowhere }
    {
        if self.template_name.is_some() {
            return self;
        }
        let mut error = self;
        match String::from_str(alloc, name.as_str()) {
            Ok(name) => {
                error.template_name = Some(name);
                error
            }
            Err(AllocError) => RenderErrorReason::OutOfMemory.into(),
        }
    }

    fn into_reason(self) -> RenderErrorReason
        ensures { result ≡ cause_of self }
    {
        let RenderError {
            template_name: _,
            line_no: _,
            column_no: _,
            reason: cause,
        } = self;
        cause
    }
}

/// Writes the name (`Unnamed template` if there is none), the position and the reason, if line and column are known;
/// otherwise the reason alone.
impl fmt::Display for RenderError {
    fn fmt<W: fmt::Write>(&self, f: &mut fmt::Formatter<W>) -> fmt::Result {
        let reason = &self.reason;
        match (self.line_no, self.column_no) {
            (Some(line), Some(column)) => {
                let name = match &self.template_name {
                    Some(name) => name.as_str(),
                    None => "Unnamed template",
                };
                write!(
                    f,
                    "Error rendering \"{name}\" line {line}, col {column}: {reason}"
                )
            }
            _ => write!(f, "{reason}"),
        }
    }
}

impl std::error::Error for RenderError {}

impl From<RenderErrorReason> for RenderError {
    ghost use Rattle.handlebars_base.specs.RenderRefusals.{reason_of, cause_of, plain_refusal, refusal_of};

    ghost from_gives = { λ r e. refusal_of e ≡ plain_refusal (reason_of r) };

    fn from(reason: RenderErrorReason) -> RenderError
        ensures refusal { refusal_of result ≡ plain_refusal (reason_of reason) }
        ensures cause { cause_of result ≡ reason }
    {
        RenderError {
            template_name: None,
            line_no: None,
            column_no: None,
            reason,
        }
    }
}

/// Converts the reason, or `OutOfMemory` if there was no memory for its text.
impl From<Result<RenderErrorReason, AllocError>> for RenderError {
    ghost use Rattle.handlebars_base.specs.RenderRefusals.{reason_or_memory, cause_of, plain_refusal, refusal_of};

    ghost from_gives = { λ r e. refusal_of e ≡ plain_refusal (reason_or_memory r) };

    fn from(reason: Result<RenderErrorReason, AllocError>) -> RenderError
        ensures refusal { refusal_of result ≡ plain_refusal (reason_or_memory reason) }
        ensures cause { IfOk reason (λ r. cause_of result ≡ r) }
    {
        match reason {
            Ok(reason) => RenderError::from(reason),
            Err(AllocError) => RenderErrorReason::OutOfMemory.into(),
        }
    }
}

impl From<TemplateError> for RenderError {
    ghost use Rattle.handlebars_base.specs.RenderRefusals.{reason_in, cause_of, refusal_within, plain_refusal, refusal_of};
    ghost use Rattle.handlebars_base.specs.TemplateRefusals.{template_refusal_of};

    ghost from_gives = { λ t e. refusal_of e ≡ plain_refusal (of_template (template_refusal_of t)) };

    fn from(cause: TemplateError) -> RenderError
        ensures refusal { refusal_of result ≡ plain_refusal (of_template (template_refusal_of cause)) }

        // Out of memory isn't wrapped.
        ensures memory { reason_in result ≡ out_of_memory → refusal_within (cause_of result) ≡ None }
        ensures cause { reason_in result ≢ out_of_memory → cause_of result ≡ RenderErrorReason.TemplateError cause }
    {
        RenderError::from(RenderErrorReason::from(cause))
    }
}

impl From<io::Error> for RenderError {
    ghost use Rattle.handlebars_base.specs.RenderRefusals.{cause_of, plain_refusal, refusal_of};

    ghost from_gives = { λ cause e. refusal_of e ≡ plain_refusal (io_error (error_kind cause)) };

    fn from(cause: io::Error) -> RenderError
        ensures refusal { refusal_of result ≡ plain_refusal (io_error (error_kind cause)) }
        ensures cause { cause_of result ≡ RenderErrorReason.IOError cause }
    {
        RenderError::from(RenderErrorReason::IOError(cause))
    }
}

impl From<FromUtf8Error> for RenderError {
    ghost use Rattle.handlebars_base.specs.RenderRefusals.{cause_of, plain_refusal, refusal_of};

    ghost from_gives = { λ _ e. refusal_of e ≡ plain_refusal utf8_error };

    fn from(cause: FromUtf8Error) -> RenderError
        ensures refusal { refusal_of result ≡ plain_refusal utf8_error }
        ensures cause { cause_of result ≡ RenderErrorReason.Utf8Error cause }
    {
        RenderError::from(RenderErrorReason::Utf8Error(cause))
    }
}

impl From<AllocError> for RenderError {
    ghost use Rattle.handlebars_base.specs.RenderRefusals.{cause_of, plain_refusal, refusal_of};

    ghost from_gives = { λ _ e. refusal_of e ≡ plain_refusal out_of_memory };

    fn from(_e: AllocError) -> RenderError
        ensures refusal { refusal_of result ≡ plain_refusal out_of_memory }
        ensures cause { cause_of result ≡ RenderErrorReason.OutOfMemory }
    {
        RenderError::from(RenderErrorReason::OutOfMemory)
    }
}

impl<T: Drop> From<AllocFailed<T>> for RenderError {
    ghost use Rattle.handlebars_base.specs.RenderRefusals.{cause_of, plain_refusal, refusal_of};

    ghost from_gives = { λ _ e. refusal_of e ≡ plain_refusal out_of_memory };

    fn from(_e: AllocFailed<T>) -> RenderError
        ensures refusal { refusal_of result ≡ plain_refusal out_of_memory }
        ensures cause { cause_of result ≡ RenderErrorReason.OutOfMemory }
    {
        RenderError::from(AllocError)
    }
}

impl From<RenderError> for RenderErrorReason {
    ghost use Rattle.handlebars_base.specs.RenderRefusals.{reason_of, reason_in, cause_of};

    ghost from_gives = { λ e r. reason_of r ≡ reason_in e };

    fn from(error: RenderError) -> RenderErrorReason
        ensures reason { reason_of result ≡ reason_in error }
        ensures cause { result ≡ cause_of error }
    {
        error.into_reason()
    }
}

impl From<TemplateError> for RenderErrorReason {
    ghost use Rattle.handlebars_base.specs.RenderRefusals.{reason_of, refusal_within};
    ghost use Rattle.handlebars_base.specs.TemplateRefusals.{template_refusal_of};

    ghost from_gives = { λ e r. reason_of r ≡ of_template (template_refusal_of e) };

    fn from(cause: TemplateError) -> RenderErrorReason
        ensures reason { reason_of result ≡ of_template (template_refusal_of cause) }

        // Out of memory isn't wrapped.
        ensures memory { reason_of result ≡ out_of_memory → refusal_within result ≡ None }
        ensures cause { reason_of result ≢ out_of_memory → result ≡ RenderErrorReason.TemplateError cause }
    {
        match cause.reason() {
            TemplateErrorReason::OutOfMemory => RenderErrorReason::OutOfMemory,
            _ => RenderErrorReason::TemplateError(cause),
        }
    }
}

impl From<io::Error> for RenderErrorReason {
    ghost use Rattle.handlebars_base.specs.RenderRefusals.{reason_of};

    ghost from_gives = { λ cause r. reason_of r ≡ io_error (error_kind cause) };

    fn from(cause: io::Error) -> RenderErrorReason
        ensures reason { reason_of result ≡ io_error (error_kind cause) }
        ensures cause { result ≡ RenderErrorReason.IOError cause }
    {
        RenderErrorReason::IOError(cause)
    }
}

impl From<FromUtf8Error> for RenderErrorReason {
    ghost use Rattle.handlebars_base.specs.RenderRefusals.{reason_of};

    ghost from_gives = { λ _ r. reason_of r ≡ utf8_error };

    fn from(cause: FromUtf8Error) -> RenderErrorReason
        ensures reason { reason_of result ≡ utf8_error }
        ensures cause { result ≡ RenderErrorReason.Utf8Error cause }
    {
        RenderErrorReason::Utf8Error(cause)
    }
}

impl From<serde_json::Error> for RenderErrorReason {
    ghost use Rattle.handlebars_base.specs.RenderRefusals.{reason_of};

    ghost from_gives = { λ _ r. reason_of r ≡ serde_error };

    fn from(cause: serde_json::Error) -> RenderErrorReason
        ensures reason { reason_of result ≡ serde_error }
        ensures cause { result ≡ RenderErrorReason.SerdeError cause }
    {
        RenderErrorReason::SerdeError(cause)
    }
}
