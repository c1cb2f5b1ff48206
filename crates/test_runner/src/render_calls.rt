//! The calls that render a test case, each with its own registry, logger and reader.

ghost use Rattle.std.specs.Prelude.{◌≡◌, IfOk, OnOk, string_bytes};
ghost use Rattle.test_cases.specs.Pieces.{text_of};

use crate::calls;
use crate::collector::Collector;
use crate::output::write_template;
use crate::shelf::Shelf;
use handlebars::{JsonValue, RenderError};
use log::sink::Memory;
use std::alloc::{AllocError, Global};
use test_cases::bounded::Bounded;
use test_cases::came::Came;
use test_cases::names::Names;
use test_cases::pen::{Pen, Taking};
use test_cases::pieces::joined;
use test_cases::rendering::{Over, Rendering};

/// Returns the result of the call that returns a text.
pub fn returned(
    alloc: Global,
    test_case: &Rendering<'_>,
    data: &JsonValue,
    over: Over,
) -> Result<Came, AllocError> {
    let mut came = Came::new(alloc);
    let log = Memory::new(alloc);
    let mut files = Shelf::new(alloc);
    let answer = calls::text(
        alloc,
        test_case,
        data,
        over,
        &mut came.text,
        &log,
        &mut files,
    );
    came.end(alloc, &answer, log, files.take_asked())?;
    Ok(came)
}

/// Returns the result of the call that writes to a writer.
pub fn written(
    alloc: Global,
    test_case: &Rendering<'_>,
    data: &JsonValue,
    over: Over,
) -> Result<Came, AllocError> {
    let mut came = Came::new(alloc);
    let log = Memory::new(alloc);
    let mut files = Shelf::new(alloc);
    let mut pen = Pen::new(alloc, test_case.to.unwrap_or(Taking::all()));
    let answer = calls::write(alloc, test_case, data, over, &mut pen, &log, &mut files);
    came.text = pen.text(alloc)?;
    came.end(alloc, &answer, log, files.take_asked())?;
    Ok(came)
}

/// Returns the result of rendering the template to an output, twice.
pub fn written_to_output(
    alloc: Global,
    test_case: &Rendering<'_>,
    data: &JsonValue,
) -> Result<Came, AllocError> {
    let mut came = Came::new(alloc);
    let log = Memory::new(alloc);
    let answer = write_twice(alloc, test_case, data, &mut came.text, &log);
    came.end(alloc, &answer, log, Names::new(alloc))?;
    Ok(came)
}

fn write_twice(
    alloc: Global,
    test_case: &Rendering<'_>,
    data: &JsonValue,
    text: &mut String,
    log: &Memory,
) -> Result<(), RenderError> {
    let takes = test_case.takes.unwrap_or(usize::MAX);
    let mut out = Bounded::new(alloc, takes, test_case.fault());
    let mut again = Bounded::new(alloc, takes, test_case.fault());
    let answer = write_template(alloc, test_case, data, &mut out, &mut again, log);
    *text = out.into_string();
    match *text == again.into_string() {
        true => answer,
        false => Err(RenderError::new(alloc, "has another text when it is rendered again")),
    }
}

/// Returns the result of the call that emits pieces.
pub fn emitted(
    alloc: Global,
    test_case: &Rendering<'_>,
    data: &JsonValue,
) -> Result<Came, AllocError>
    ensures { IfOk result (λ came. string_bytes came.text ≡ text_of came.pieces.items) }
{
    let mut came = Came::new(alloc);
    let log = Memory::new(alloc);
    let mut files = Shelf::new(alloc);
    let mut out = Collector::new(alloc);
    let answer = calls::emit(alloc, test_case, data, &mut out, &log, &mut files);
    came.pieces = out.into_pieces();
    came.text = joined(alloc, came.pieces.as_slice())?;
    came.end(alloc, &answer, log, files.take_asked())?;
    Ok(came)
}
