//! What a problem says, and where.

ghost use Rattle.std.specs.Prelude.{◌≡◌, All, IfOk};
ghost use Rattle.handlebars_syntax.specs.Range.{IsNoteIn};

use crate::problem::{SyntaxCode, SyntaxNote, SyntaxProblem};
use crate::range::range_at;
use std::alloc::{AllocError, Global};
use std::ops::Range;

/// The message of a problem, and its help.
#[derive(Drop)]
pub struct Words {
    message: String,
    help: Vec<String>,
}

impl Words {
    /// Creates what says nothing yet.
    pub fn new(alloc: Global) -> Words {
        Words {
            message: String::new(alloc),
            help: Vec::new(alloc),
        }
    }

    /// Sets the message.
    pub fn say(&mut self, message: String) {
        self.message = message;
    }

    /// Adds a line of help, unless it is empty.
    pub fn advise(&mut self, help: String) -> Result<(), AllocError> {
        if help.is_empty() {
            return Ok(());
        }
        self.help.push(help)?;
        Ok(())
    }

    /// Returns the problem that says this.
    pub fn into_problem(
        self,
        code: SyntaxCode,
        range: Range<usize>,
        notes: Vec<SyntaxNote>,
    ) -> SyntaxProblem
        ensures code { result.code ≡ code }
        ensures range { result.range ≡ range }
        ensures notes { result.notes ≡ notes }
    {
        SyntaxProblem {
            code,
            range,
            message: self.message,
            help: self.help,
            notes,
        }
    }
}

/// A part of a source: how many bytes are left where it begins, and how many it has.
#[derive(Clone, Copy)]
pub struct Extent {
    pub left: usize,
    pub len: usize,
}

/// Another place that belongs to a problem.
#[derive(Clone, Copy)]
pub struct Related {
    pub message: &'static str,
    pub extent: Extent,
}

/// Returns the notes of a problem.
///
/// # Errors
///
/// Fails if memory runs out.
pub fn notes_of(
    alloc: Global,
    source: &str,
    related: Option<Related>,
) -> Result<Vec<SyntaxNote>, AllocError>
    ensures { IfOk result (λ notes. All (IsNoteIn source.now) notes.items) }
{
    let mut notes = Vec::new(alloc);
    if let Some(Related { message, extent }) = related {
        notes.push(note(alloc, source, message, extent)?)?;
    }
    Ok(notes)
}

fn note(
    alloc: Global,
    source: &str,
    message: &str,
    extent: Extent,
) -> Result<SyntaxNote, AllocError>
    ensures { IfOk result (IsNoteIn source.now) }
{
    Ok(SyntaxNote {
        message: String::from_str(alloc, message)?,
        range: range_at(source, extent.left, extent.len),
    })
}
