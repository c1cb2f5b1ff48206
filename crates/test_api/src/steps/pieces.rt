//! Calls that emit pieces to an output.

use crate::state::Given;
use handlebars::{JsonValue, NoFiles, RenderError};
use log::sink::Discard;
use std::alloc::{AllocError, Global};
use std::io::ErrorKind;
use test_pieces::{HeldPiece, HeldPieces};
use test_steps::answer::{Answer, Stop, done, printed, shown, text_answer};
use test_steps::fields::{number_at, text};

/// Returns what a call answers.
pub fn answer(given: Given<'_>, out: &mut HeldPieces, call: &str, step: &JsonValue) -> Answer {
    let Given {
        alloc,
        registry,
        data,
    } = given;
    match call {
        "room" => room(alloc, out, number_at(step, "count")),
        "of_name" => {
            let name = text(step, "name");
            came(
                alloc,
                registry.render_pieces(name, data, out, &Discard, &mut NoFiles),
            )
        }
        "of_source" => {
            let source = text(step, "source");
            came(
                alloc,
                registry.render_template_pieces(source, data, out, &Discard, &mut NoFiles),
            )
        }
        "list" => text_answer(lines(alloc, &out.pieces)),
        "text" => text_answer(out.text()),
        "refused" => shown(alloc, out.failed),
        _ => Err(Stop::Call),
    }
}

// Creates a new output with a capacity of this many pieces, or of any number.
fn room(alloc: Global, out: &mut HeldPieces, count: Option<u64>) -> Answer {
    *out = match count {
        Some(count) => HeldPieces::with_capacity(alloc, count as usize, ErrorKind::BrokenPipe),
        None => HeldPieces::new(alloc),
    };
    done(alloc)
}

fn came(alloc: Global, answer: Result<(), RenderError>) -> Answer {
    match answer {
        Ok(()) => done(alloc),
        Err(error) => printed(alloc, error),
    }
}

// The pieces, one a line.
fn lines(alloc: Global, pieces: &Vec<HeldPiece>) -> Result<String, AllocError> {
    let mut lines = String::new(alloc);
    for piece in pieces {
        writeln!(lines, "{piece}")?;
    }
    Ok(lines)
}
