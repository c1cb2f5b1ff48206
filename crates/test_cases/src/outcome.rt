//! The result of a rendering.

use handlebars_base::error::{RenderError, RenderErrorReason, TemplateError};
use std::alloc::{AllocError, Global};
use std::fmt;

/// The output, and the error that ends it before the end of the template, if one does.
#[derive(Clone, Copy)]
pub struct Outcome<'t> {
    pub text: &'t str,
    pub refusal: Option<Refusal<'t>>,
}

impl Outcome<'_> {
    ghost use Rattle.std.specs.Prelude.{◌≡◌, IsTrue};
    ghost use Rattle.test_cases.specs.Outcomes.{returned_by, outcome_view};

    /// Returns whether both outcomes are equal.
    pub fn equals(&self, other: &Outcome<'_>) -> bool
        ensures { IsTrue result → outcome_view self.now ≡ outcome_view other.now }
    {
        match (&self.refusal, &other.refusal) {
            (None, None) => self.text == other.text,
            (Some(own), Some(others)) => own.equals(others) && self.text == other.text,
            _ => false,
        }
    }

    /// Returns whether calls return the same for both: the whole text, or no text and the error.
    pub fn returns_same(&self, other: &Outcome<'_>) -> bool
        ensures { IsTrue result → returned_by (outcome_view self.now) ≡ returned_by (outcome_view other.now) }
    {
        match (&self.refusal, &other.refusal) {
            (None, None) => self.text == other.text,
            (Some(own), Some(others)) => own.equals(others),
            _ => false,
        }
    }
}

/// Why a rendering ends early, and where.
#[derive(Clone, Copy)]
pub struct Refusal<'t> {
    pub reason: &'t str,
    pub line: Option<usize>,
    pub column: Option<usize>,
    pub template: Option<&'t str>,
}

impl Refusal<'_> {
    ghost use Rattle.std.specs.Prelude.{◌≡◌, IsTrue};
    ghost use Rattle.test_cases.specs.Outcomes.{refusal_view};

    /// Returns whether both errors are equal.
    pub fn equals(&self, other: &Refusal<'_>) -> bool
        ensures { IsTrue result → refusal_view self.now ≡ refusal_view other.now }
    {
        self.reason == other.reason
            && self.line == other.line
            && self.column == other.column
            && are_one_text(self.template, other.template)
    }
}

ghost use Rattle.std.specs.Prelude.{◌≡◌, IsTrue, option_map, string_bytes};
ghost use Rattle.test_cases.specs.Outcomes.{stored_refusal_view, refusal_view};

/// Returns whether both texts are equal, or both are absent.
pub fn are_one_text(own: Option<&str>, other: Option<&str>) -> bool
    ensures { IsTrue result → option_map (λ t. t.now) own.entry ≡ option_map (λ t. t.now) other.entry }
{
    match (own, other) {
        (None, None) => true,
        (Some(own), Some(other)) => own == other,
        _ => false,
    }
}

/// Returns a stored text, if there is one.
pub fn text_of(owned: &Option<String>) -> Option<&str>
    ensures { option_map (λ t. t.now) result ≡ option_map string_bytes owned.now }
{
    match owned {
        Some(text) => Some(text.as_str()),
        None => None,
    }
}

/// A stored error.
pub struct Failed {
    pub reason: String,
    pub line: Option<usize>,
    pub column: Option<usize>,
    pub template: Option<String>,
}

impl Drop for Failed {
    fn drop(self) {
        let Failed {
            reason: _,
            line: _,
            column: _,
            template: _,
        } = self;
    }
}

impl Failed {
    /// Returns the error that a render error reports. If a template doesn't compile, that is the error of the template.
    pub fn of(alloc: Global, error: &RenderError) -> Result<Failed, AllocError> {
        match error.reason() {
            RenderErrorReason::TemplateError(cause) => Failed::of_template(alloc, cause),
            reason => Ok(Failed {
                reason: reason.to_string(alloc)?,
                line: error.line_no,
                column: error.column_no,
                template: copied(error.template_name.as_ref())?,
            }),
        }
    }

    /// Returns the error of a template that can't be read, or doesn't compile.
    pub fn of_template(alloc: Global, error: &TemplateError) -> Result<Failed, AllocError> {
        Ok(Failed {
            reason: error.reason().to_string(alloc)?,
            line: error.pos().map(|position| position.0),
            column: error.pos().map(|position| position.1),
            template: copied(error.name())?,
        })
    }

    /// Returns the error, borrowed.
    pub fn refusal(&self) -> Refusal<'_>
        ensures { refusal_view result ≡ stored_refusal_view self.now }
    {
        Refusal {
            reason: self.reason.as_str(),
            line: self.line,
            column: self.column,
            template: text_of(&self.template),
        }
    }
}

// A copy of a text, if there is one.
fn copied(name: Option<&String>) -> Result<Option<String>, AllocError> {
    match name {
        Some(name) => Ok(Some(name.clone()?)),
        None => Ok(None),
    }
}

/// Returns the stored error, if there is one.
pub fn refusal_in(failed: &Option<Failed>) -> Option<Refusal<'_>>
    ensures { option_map refusal_view result ≡ option_map stored_refusal_view failed.now }
{
    match failed {
        Some(failed) => Some(failed.refusal()),
        None => None,
    }
}

impl fmt::Display for Outcome<'_> {
    fn fmt<W: fmt::Write>(&self, f: &mut fmt::Formatter<W>) -> fmt::Result {
        let text = self.text;
        match &self.refusal {
            Some(refusal) => write!(f, "{text:?}, then {refusal}"),
            None => write!(f, "{text:?}"),
        }
    }
}

impl fmt::Display for Refusal<'_> {
    fn fmt<W: fmt::Write>(&self, f: &mut fmt::Formatter<W>) -> fmt::Result {
        let reason = self.reason;
        write!(f, "refused: {reason:?}")?;
        if let Some(line) = self.line {
            write!(f, ", line {line}")?;
        }
        if let Some(column) = self.column {
            write!(f, ", column {column}")?;
        }
        if let Some(template) = self.template {
            write!(f, ", template {template:?}")?;
        }
        Ok(())
    }
}
