//! What is expected of the answer of a step, and the report of a step that answers something else.

use crate::answer::{Answer, Stop};
use crate::calls::lacking;
use crate::fields::{joined, text};
use serde_json::Value as JsonValue;
use std::alloc::{AllocError, Global};

/// Returns whether an answer is the one that the step expects.
pub fn is_expected(alloc: Global, step: &JsonValue, answer: &Answer) -> Result<bool, AllocError> {
    match answer {
        Ok(answer) => is_answer(alloc, step, answer.as_str()),
        Err(_) => Ok(false),
    }
}

// The answer must be the text of `gives`, or begin with the text of `begins`. If both are missing, the call must succeed and
// return nothing.
fn is_answer(alloc: Global, step: &JsonValue, answer: &str) -> Result<bool, AllocError> {
    if step.get("gives").is_some() {
        return Ok(joined(alloc, step, "gives")?.as_str() == answer);
    }
    if step.get("begins").is_some() {
        return Ok(answer.starts_with(joined(alloc, step, "begins")?.as_str()));
    }
    Ok(answer == "()" || answer == "Ok(())")
}

/// Reports the step of this number: what its script shows, its call, what is expected, and what it answers.
pub fn report_step(
    alloc: Global,
    script: &JsonValue,
    number: u64,
    step: &JsonValue,
    answer: &Answer,
    report: &mut String,
) -> Result<(), AllocError> {
    let (what, call) = (text(script, "what"), text(step, "do"));
    writeln!(report, "  {what:?}, step {number}: {call}")?;
    let expected = joined(alloc, step, "gives")?;
    writeln!(report, "    expected: {expected}")?;
    match answer {
        Ok(answer) => writeln!(report, "    answered: {answer}"),
        Err(stop) => report_stop(step, *stop, report),
    }
}

fn report_stop(step: &JsonValue, stop: Stop, report: &mut String) -> Result<(), AllocError> {
    match (stop, lacking(step)) {
        (Stop::Field, Some(field)) => {
            writeln!(report, "    no answer: the field {field:?} is missing")
        }
        _ => {
            let why = stop.text();
            writeln!(report, "    no answer: {why}")
        }
    }
}
