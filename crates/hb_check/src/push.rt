//! How problems are made and added.

ghost use Rattle.std.specs.Prelude.{◌≡◌, IfOk, OnOk, map};
ghost use Rattle.handlebars_report.specs.View.{note_view, place_view, problem_view};
ghost use Rattle.hb_check.specs.Chains.{HasNotes};
ghost use Rattle.hb_check.specs.Reported.{AddsSome, IsMade, One};

use crate::code::Code;
use handlebars_report::{Note, Place, Problem, Severity};
use std::alloc::{AllocError, Global};

/// What a problem says: how bad it is, of which kind, and what is wrong.
#[derive(Clone, Copy)]
pub struct Said<'s> {
    pub severity: Severity,
    pub code: Code,
    pub message: &'s str,
    /// What to do about it.
    pub help: &'s [String],
}

/// Adds a problem at a place.
///
/// # Errors
///
/// Fails if memory runs out.
pub fn push(
    alloc: Global,
    problems: &mut Vec<Problem>,
    place: Place,
    said: Said<'_>,
    notes: Vec<Note>,
) -> Result<(), AllocError>
    ensures made { OnOk result (AddsSome (One (IsMade said.entry.severity said.entry.code (place_view place)))
        problems.old.items problems.new.items) }
    ensures notes { OnOk result (AddsSome (One (HasNotes (map note_view notes.items))) problems.old.items problems.new.items) }
{
    let problem = made(alloc, place, said, notes)?;
    problems.push(problem)?;
    Ok(())
}

fn made(
    alloc: Global,
    place: Place,
    said: Said<'_>,
    notes: Vec<Note>,
) -> Result<Problem, AllocError>
    ensures made { IfOk result (λ p. IsMade said.entry.severity said.entry.code (place_view place) (problem_view p)) }
    ensures notes { IfOk result (λ p. HasNotes (map note_view notes.items) (problem_view p)) }
{
    Ok(Problem {
        severity: said.severity,
        code: String::from_str(alloc, said.code.as_str())?,
        place,
        message: String::from_str(alloc, said.message)?,
        help: copied(alloc, said.help)?,
        notes,
    })
}

/// Returns copies of texts.
///
/// # Errors
///
/// Fails if memory runs out.
pub fn copied(alloc: Global, texts: &[String]) -> Result<Vec<String>, AllocError> {
    let mut copy = Vec::new(alloc);
    'texts: for text in texts {
        copy.push(String::from_str(alloc, text.as_str())?)?;
    }
    Ok(copy)
}
