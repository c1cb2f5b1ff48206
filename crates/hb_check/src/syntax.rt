//! Sources that don't compile.

ghost use Rattle.std.specs.Prelude.{IfOk};
ghost use Rattle.handlebars_report.specs.View.{problem_view};
ghost use Rattle.hb_check.specs.Compiled.{IsErrorIn};

use crate::push::copied;
use crate::question::File;
use handlebars_base::error::TemplateError;
use handlebars_report::{Note, Place, Problem, Severity};
use handlebars_syntax::{SyntaxNote, diagnose};
use std::alloc::{AllocError, Global};

/// Returns the problem of a file that doesn't compile for this error.
///
/// # Errors
///
/// Fails if memory runs out.
pub fn syntax_problem(
    alloc: Global,
    file: File<'_>,
    cause: &TemplateError,
) -> Result<Problem, AllocError>
    ensures { IfOk result (λ p. IsErrorIn file.entry (problem_view p)) }
{
    let found = diagnose(alloc, file.text, cause)?;
    Ok(Problem {
        severity: Severity::Error,
        code: String::from_str(alloc, found.code.as_str())?,
        place: Place::in_text(
            alloc,
            file.path,
            file.text,
            found.range.start..found.range.end,
        )?,
        message: String::from_str(alloc, found.message.as_str())?,
        help: copied(alloc, &found.help)?,
        notes: notes_of(alloc, file, &found.notes)?,
    })
}

fn notes_of(alloc: Global, file: File<'_>, found: &[SyntaxNote]) -> Result<Vec<Note>, AllocError> {
    let mut notes = Vec::new(alloc);
    for note in found {
        notes.push(note_of(alloc, file, note)?)?;
    }
    Ok(notes)
}

fn note_of(alloc: Global, file: File<'_>, note: &SyntaxNote) -> Result<Note, AllocError> {
    let place = Place::in_text(
        alloc,
        file.path,
        file.text,
        note.range.start..note.range.end,
    )?;
    Ok(Note {
        message: String::from_str(alloc, note.message.as_str())?,
        place: Some(place),
    })
}
