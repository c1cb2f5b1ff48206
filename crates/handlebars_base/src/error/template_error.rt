//! Why a template is rejected, and where.

ghost use Rattle.std.specs.Prelude.{◌≡◌, ◌≢◌, Some, None, IsSome, option_map, string_bytes};
ghost use Rattle.handlebars_base.specs.Reasons.{template_out_of_memory, template_io_error};

use std::alloc::{AllocError, Global};
use std::fmt::Write;
use std::{fmt, io};
use thiserror::Error;

/// The reason why a template is rejected.
#[derive(Debug, Drop, Error)]
pub enum TemplateErrorReason {
    /// The names of the block that was opened, and of the tag that closes it.
    #[error("helper {0:?} was opened, but {1:?} is closing")]
    MismatchingClosedHelper(String, String),
    /// The names of the decorator block that was opened, and of the tag that closes it.
    #[error("decorator {0:?} was opened, but {1:?} is closing")]
    MismatchingClosedDecorator(String, String),
    /// What is wrong with the source.
    #[error("invalid handlebars syntax: {0}")]
    InvalidSyntax(String),
    /// The text that isn't a parameter.
    #[error("invalid parameter {0:?}")]
    InvalidParam(String),
    /// For callers: the engine never creates it.
    #[error("nested subexpression is not supported")]
    NestedSubexpression,
    /// A file could not be read; the text is the template's name.
    #[error("Template \"{1}\": {0}")]
    IoError(io::Error, String),
    /// For callers: the engine never creates it.
    #[error("Walk dir error: {0}")]
    WalkdirError(String),
    #[error("Out of memory")]
    OutOfMemory,
}

/// An error of a template: its reason, the template's name, and its line and column, which are 1-based. Columns count
/// characters.
#[derive(Debug)]
pub struct TemplateError {
    reason: TemplateErrorReason,
    template_name: Option<String>,
    line_no: Option<usize>,
    column_no: Option<usize>,
    segment: Option<String>,
}

// Not derived, so that each drop of one is a single call.
impl Drop for TemplateError {
    fn drop(self) {
        let TemplateError {
            reason: _,
            template_name: _,
            line_no: _,
            column_no: _,
            segment: _,
        } = self;
    }
}

impl TemplateError {
    ghost use Rattle.handlebars_base.specs.TemplateRefusals.{template_reason_of, template_cause_of, template_refusal_of, shown_lines};

    /// Creates an error with no name and no position.
    pub fn of(reason: TemplateErrorReason) -> TemplateError
        ensures refusal { template_refusal_of result ≡ record { reason = template_reason_of reason; name = None; position = None } }
        ensures cause { template_cause_of result ≡ reason }
        ensures shown { shown_lines result ≡ None }
    {
        TemplateError {
            reason,
            template_name: None,
            line_no: None,
            column_no: None,
            segment: None,
        }
    }

    /// Sets the position, and the lines of the source around it. If there is no memory for these lines, the reason becomes
    /// `OutOfMemory`, and the error has no position and no name.
    pub fn at(self, alloc: Global, source: &str, line_no: usize, column_no: usize) -> TemplateError
        ensures at { (template_refusal_of result).reason ≢ template_out_of_memory
            → template_refusal_of result ≡ record (template_refusal_of self) { position = Some (line_no, column_no) } }
        ensures cause { (template_refusal_of result).reason ≢ template_out_of_memory → template_cause_of result ≡ template_cause_of self }
        ensures shown { (template_refusal_of result).reason ≢ template_out_of_memory → IsSome (shown_lines result) }
        ensures bare { (template_refusal_of self).reason ≢ template_out_of_memory → (template_refusal_of result).reason ≡ template_out_of_memory
            → template_refusal_of result ≡ record { reason = template_out_of_memory; name = None; position = None } }
        ensures memory { (template_refusal_of self).reason ≡ template_out_of_memory → (template_refusal_of result).reason ≡ template_out_of_memory }
    {
        let mut error = self;
        match template_segment(alloc, source, line_no, column_no) {
            Ok(segment) => {
                error.line_no = Some(line_no);
                error.column_no = Some(column_no);
                error.segment = Some(segment);
                error
            }
            Err(AllocError) => TemplateError::of(TemplateErrorReason::OutOfMemory),
        }
    }

    /// Sets the name of its template.
    pub fn in_template(self, name: String) -> TemplateError
        ensures named { template_refusal_of result ≡ record (template_refusal_of self) { name = Some (string_bytes name) } }
        ensures cause { template_cause_of result ≡ template_cause_of self }
        ensures shown { shown_lines result ≡ shown_lines self }
    {
        let mut error = self;
        error.template_name = Some(name);
        error
    }

    /// Returns the reason.
    pub fn reason(&self) -> &TemplateErrorReason
        ensures reason { template_reason_of result.now ≡ (template_refusal_of self.now).reason }
        ensures cause { result.now ≡ template_cause_of self.now }
    {
        &self.reason
    }

    /// Returns line and column, if both are known.
    pub fn pos(&self) -> Option<(usize, usize)>
        ensures { result ≡ (template_refusal_of self.now).position }
    {
        match (self.line_no, self.column_no) {
            (Some(line), Some(column)) => Some((line, column)),
            _ => None,
        }
    }

    /// Returns the name of the template, if it has one.
    pub fn name(&self) -> Option<&String>
        ensures { option_map (λ s. string_bytes s.now) result ≡ (template_refusal_of self.now).name }
    {
        self.template_name.as_ref()
    }
}

impl From<(io::Error, String)> for TemplateError {
    ghost use Rattle.handlebars_base.specs.TemplateRefusals.{template_cause_of, template_refusal_of};

    ghost from_gives = { λ p e. template_refusal_of e ≡ record { reason = template_io_error (string_bytes p.1); name = None; position = None } };

    fn from(info: (io::Error, String)) -> TemplateError
        ensures refusal { template_refusal_of result ≡ record { reason = template_io_error (string_bytes info.1); name = None; position = None } }
        ensures cause { template_cause_of result ≡ TemplateErrorReason.IoError info.0 info.1 }
    {
        let (cause, name) = info;
        TemplateError::of(TemplateErrorReason::IoError(cause, name))
    }
}

impl From<AllocError> for TemplateError {
    ghost use Rattle.handlebars_base.specs.TemplateRefusals.{template_refusal_of};

    ghost from_gives = { λ _ e. template_refusal_of e ≡ record { reason = template_out_of_memory; name = None; position = None } };

    fn from(_e: AllocError) -> TemplateError {
        TemplateError::of(TemplateErrorReason::OutOfMemory)
    }
}

// Returns the lines from three before to three after the position, numbered from 0, with a marker below the line of the
// position.
fn template_segment(
    alloc: Global,
    source: &str,
    line: usize,
    column: usize,
) -> Result<String, AllocError> {
    let first = line.saturating_sub(3);
    let last = line.saturating_add(3);
    let mut out = String::new(alloc);
    for (number, content) in source.lines().enumerate() {
        if number > last {
            break;
        }
        if number >= first {
            push_line(&mut out, number, content, line, column)?;
        }
    }
    Ok(out)
}

// Writes one of these lines, with the marker if it is the line of the position.
fn push_line(
    out: &mut String,
    number: usize,
    content: &str,
    line: usize,
    column: usize,
) -> Result<(), AllocError> {
    writeln!(out, "{number:4} | {content}")?;
    if line > 0 && number == line - 1 {
        mark(out, content, column)?;
    }
    Ok(())
}

// Writes one character for each byte of the line, `^` for the byte at the column.
fn mark(out: &mut String, content: &str, column: usize) -> Result<(), AllocError> {
    let before = column.min(content.len());
    write!(out, "     |{:-<before$}", "")?;
    if column < content.len() {
        let after = content.len() - column - 1;
        write!(out, "^{:-<after$}", "")?;
    }
    out.push('\n')
}

/// Writes the reason, the name (`Unnamed template` if there is none) and the lines around the position, if the position
/// is known; otherwise the reason alone.
impl fmt::Display for TemplateError {
    fn fmt<W: fmt::Write>(&self, f: &mut fmt::Formatter<W>) -> fmt::Result {
        let reason = &self.reason;
        match (self.line_no, self.column_no, &self.segment) {
            (Some(line), Some(column), Some(segment)) => {
                let name = match &self.template_name {
                    Some(name) => name.as_str(),
                    None => "Unnamed template",
                };
                write!(
                    f,
                    "Template error: {reason}\n    --> Template error in \"{name}\":{line}:{column}\n     |\n{segment}     |\n     = reason: {reason}\n"
                )
            }
            _ => write!(f, "{reason}"),
        }
    }
}

impl std::error::Error for TemplateError {}
