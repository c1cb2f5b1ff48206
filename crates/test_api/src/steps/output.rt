//! Outputs to writers, without a rendering.

use handlebars::{JsonValue, Output, StringWriter, WriteOutput};
use std::alloc::{AllocError, Global};
use std::io;
use std::io::Write;
use test_steps::answer::{Answer, Stop, text_answer};
use test_steps::fields::{items, number};
use test_steps::made::data::bytes_of;
use test_steps::writer::Slow;

/// Returns what a call answers.
pub fn answer(alloc: Global, call: &str, step: &JsonValue) -> Answer {
    match call {
        "slow" => text_answer(slow(alloc, number(step, "left"), items(step, "texts"))),
        "string" => string(alloc, bytes_of(alloc, items(step, "bytes"))),
        _ => Err(Stop::Call),
    }
}

// The result of writing each text to a writer with this many writes left, and the bytes that it holds after them.
fn slow(alloc: Global, left: u64, texts: &[JsonValue]) -> Result<String, AllocError> {
    let mut writer = Slow {
        taken: Vec::new(alloc),
        left,
    };
    let mut lines = String::new(alloc);
    write_all(&mut writer, texts, &mut lines)?;
    write!(lines, "{:?}", writer.taken)?;
    Ok(lines)
}

fn write_all(writer: &mut Slow, texts: &[JsonValue], lines: &mut String) -> Result<(), AllocError> {
    let mut out = WriteOutput::new(writer);
    for text in texts {
        push_line(lines, out.write(text.as_str().unwrap_or("")))?;
    }
    Ok(())
}

// Appends whether a write succeeded, or its error.
fn push_line(lines: &mut String, answer: io::Result<()>) -> Result<(), AllocError> {
    match answer {
        Ok(()) => lines.push_str("()\n"),
        Err(error) => writeln!(lines, "{:?}", error.kind()),
    }
}

// What a writer of strings holds after these bytes: the text, if they are one.
fn string(alloc: Global, bytes: Result<Vec<u8>, Stop>) -> Answer {
    match bytes {
        Ok(bytes) => written(StringWriter::new(alloc), bytes.as_slice()),
        Err(stop) => Err(stop),
    }
}

fn written(mut writer: StringWriter, bytes: &[u8]) -> Answer {
    match writer.write_all(bytes).is_ok() {
        true => Ok(writer.into_string()),
        false => Err(Stop::OutOfMemory),
    }
}
