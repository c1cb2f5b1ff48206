//! Writers that fail, once for each write of a test case.

ghost use Rattle.std.specs.Prelude.{◌≡◌, IfOk, false, is_none, true};

use crate::calls;
use crate::shelf::Shelf;
use handlebars::{JsonValue, RenderError, RenderErrorReason};
use log::sink::Memory;
use std::alloc::{AllocError, Global};
use std::fmt;
use test_cases::fault::Fault;
use test_cases::pen::{Pen, Taking};
use test_cases::rendering::{Over, Rendering};

/// A writer for which the result of a test case differs from the expected one.
#[derive(Clone, Copy)]
pub struct Swept {
    over: Over,
    taking: Taking,
}

/// How a write fails: with an error, which may be an interruption or out of memory, or by taking 0 bytes.
const FAULTS: [Option<Fault>; 4] = [
    Some(Fault::BROKEN_PIPE),
    Some(Fault::INTERRUPTED),
    Some(Fault::OUT_OF_MEMORY),
    None,
];

/// Writes a test case that has `sweep` to writers that take one, two and three bytes a write, by the calls that write.
///
/// For each of these there is one more writer for each write that the rendering reaches, and for each way in which that write
/// may fail. The bytes that were taken before it must stay, and be a prefix of the text of the test case, the writer must not
/// be called again, and the error must be the one of the write.
///
/// Returns the first writer for which the result differs.
pub fn sweep(alloc: Global, test_case: &Rendering<'_>) -> Result<Option<Swept>, AllocError>
    ensures { test_case.now.sweep ≡ false → IfOk result (λ swept. is_none swept ≡ true) }
{
    if !test_case.sweep {
        return Ok(None);
    }
    for over in [Over::Context, Over::Value] {
        for most in [1, 2, 3] {
            let swept = sweep_writes(alloc, test_case, over, most)?;
            if swept.is_some() {
                return Ok(swept);
            }
        }
    }
    Ok(None)
}

fn sweep_writes(
    alloc: Global,
    test_case: &Rendering<'_>,
    over: Over,
    most: usize,
) -> Result<Option<Swept>, AllocError> {
    let taking = Taking {
        most,
        ..Taking::all()
    };
    let Some(writes) = whole_writes(alloc, test_case, over, taking) else {
        return Ok(Some(Swept { over, taking }));
    };
    for write in 0..writes {
        for fault in FAULTS {
            let taking = Taking::failing(most, write.saturating_add(1), fault);
            if !holds(alloc, test_case, over, taking) {
                return Ok(Some(Swept { over, taking }));
            }
        }
    }
    Ok(None)
}

// Returns how many writes a rendering makes, if it writes the expected text.
fn whole_writes(
    alloc: Global,
    test_case: &Rendering<'_>,
    over: Over,
    taking: Taking,
) -> Option<u64> {
    let mut pen = Pen::new(alloc, taking);
    let answer = written(alloc, test_case, over, &mut pen);
    match answer.is_ok() && pen.taken() == test_case.expected.outcome.text.as_bytes() {
        true => Some(pen.writes()),
        false => None,
    }
}

fn holds(alloc: Global, test_case: &Rendering<'_>, over: Over, taking: Taking) -> bool {
    let mut pen = Pen::new(alloc, taking);
    let answer = written(alloc, test_case, over, &mut pen);
    let whole = test_case.expected.outcome.text.as_bytes();
    taking.fails == Some(pen.writes())
        && whole.starts_with(pen.taken())
        && is_fault(&answer, taking.fault)
}

fn written(
    alloc: Global,
    test_case: &Rendering<'_>,
    over: Over,
    pen: &mut Pen,
) -> Result<(), RenderError> {
    let (null, log) = (JsonValue::Null, Memory::new(alloc));
    let mut files = Shelf::new(alloc);
    calls::write(
        alloc,
        test_case,
        test_case.data.unwrap_or(&null),
        over,
        pen,
        &log,
        &mut files,
    )
}

// Whether the error is this one, and has a position.
fn is_fault(answer: &Result<(), RenderError>, fault: Option<Fault>) -> bool {
    let Err(error) = answer else {
        return false;
    };
    error.line_no.is_some() && is_reason(error.reason(), fault.unwrap_or(Fault::WRITE_ZERO))
}

fn is_reason(reason: &RenderErrorReason, fault: Fault) -> bool {
    match reason {
        RenderErrorReason::OutOfMemory => fault == Fault::OUT_OF_MEMORY,
        RenderErrorReason::IOError(cause) => {
            cause.kind() == fault.kind() && fault != Fault::OUT_OF_MEMORY
        }
        _ => false,
    }
}

impl fmt::Display for Swept {
    fn fmt<W: fmt::Write>(&self, f: &mut fmt::Formatter<W>) -> fmt::Result {
        let over = match self.over {
            Over::Context => "writer",
            Over::Value => "converting",
        };
        let Taking { most, fails, fault } = self.taking;
        write!(f, "sweep: {over} with at most {most} bytes a write")?;
        match (fails, fault) {
            (None, _) => write!(f, " differs"),
            (Some(fails), Some(fault)) => {
                write!(f, " differs where write {fails} fails: {}", fault.kind())
            }
            (Some(fails), None) => write!(f, " differs where write {fails} takes nothing"),
        }
    }
}
