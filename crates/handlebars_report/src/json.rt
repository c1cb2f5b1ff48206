//! Problems as JSON, for editors and other programs.

ghost use Rattle.std.specs.Prelude.{◌≡◌, IfOk, map, string_bytes};
ghost use Rattle.serde_json.specs.Data.{array, string};
ghost use Rattle.serde_json.specs.View.{items_of, view};
ghost use Rattle.handlebars_report.specs.Json.{note_json, position_json, problem_json};
ghost use Rattle.handlebars_report.specs.View.{note_view, problem_view};

use crate::position::Position;
use crate::problem::{Note, Problem};
use serde_json::{Value, json};
use std::alloc::{AllocError, Global};

impl Problem {
    /// Returns the problem as a JSON object with the members `severity`, `code`, `message`, `file`, `start`, `end`, `help` and
    /// `notes`.
    ///
    /// `start` and `end` are objects with the members `offset` (in bytes, from 0), `line` and `column` (in characters; both from
    /// 1). `help` is an array of strings. `notes` is an array of objects with the member `message`, and with `file`, `start` and
    /// `end` if the note has a place.
    ///
    /// # Errors
    ///
    /// Fails if memory runs out.
    pub fn to_json(&self, alloc: Global) -> Result<Value, AllocError>
        ensures { IfOk result (λ v. view v ≡ problem_json (problem_view self.now)) }
    {
        let start = position_json(alloc, self.place.start())?;
        let end = position_json(alloc, self.place.end())?;
        let help = help_json(alloc, &self.help)?;
        let notes = notes_json(alloc, &self.notes)?;
        json!(in alloc; {
            "severity": self.severity.as_str(),
            "code": self.code.as_str(),
            "message": self.message.as_str(),
            "file": self.place.path(),
            "start": start,
            "end": end,
            "help": help,
            "notes": notes
        })
    }
}

fn position_json(alloc: Global, position: Position) -> Result<Value, AllocError>
    ensures { IfOk result (λ v. view v ≡ position_json position) }
{
    json!(in alloc; {"offset": position.offset, "line": position.line, "column": position.column})
}

fn help_json(alloc: Global, help: &[String]) -> Result<Value, AllocError>
    ensures { IfOk result (λ v. view v ≡ array (items_of (map string (map string_bytes help.now)))) }
{
    let mut texts = Vec::new(alloc);
    'help: for text in help {
        texts.push(Value::try_from_str(alloc, text.as_str())?)?;
    }
    Ok(Value::Array(texts))
}

fn notes_json(alloc: Global, notes: &[Note]) -> Result<Value, AllocError>
    ensures { IfOk result (λ v. view v ≡ array (items_of (map note_json (map note_view notes.now)))) }
{
    let mut objects = Vec::new(alloc);
    'notes: for note in notes {
        objects.push(note_json(alloc, note)?)?;
    }
    Ok(Value::Array(objects))
}

fn note_json(alloc: Global, note: &Note) -> Result<Value, AllocError>
    ensures { IfOk result (λ v. view v ≡ note_json (note_view note.now)) }
{
    match &note.place {
        None => json!(in alloc; {"message": note.message.as_str()}),
        Some(place) => {
            let start = position_json(alloc, place.start())?;
            let end = position_json(alloc, place.end())?;
            json!(in alloc; {"message": note.message.as_str(), "file": place.path(), "start": start, "end": end})
        }
    }
}
