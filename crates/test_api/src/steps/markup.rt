//! Whether markup is fixed, and each location that prevents it.

use handlebars::{JsonValue, MarkupFault, NoFiles, Registry, RenderError};
use std::alloc::{AllocError, Global};
use test_steps::answer::{Answer, Stop, said, shown, text_answer};
use test_steps::fields::text;

/// Returns what a call answers.
pub fn answer(alloc: Global, registry: &Registry, call: &str, step: &JsonValue) -> Answer {
    match call {
        "is_fixed" => shown(alloc, registry.markup_is_fixed(&mut NoFiles)),
        "faults" => lists(alloc, registry.markup_faults(&mut NoFiles)),
        "source_faults" => {
            let source = text(step, "source");
            lists(alloc, registry.template_markup_faults(source, &mut NoFiles))
        }
        _ => Err(Stop::Call),
    }
}

// The markup faults, one a line.
fn lists(alloc: Global, answer: Result<Vec<MarkupFault>, RenderError>) -> Answer {
    match answer {
        Ok(faults) => text_answer(lines(alloc, &faults)),
        Err(error) => said(alloc, &error),
    }
}

fn lines(alloc: Global, faults: &Vec<MarkupFault>) -> Result<String, AllocError> {
    let mut lines = String::new(alloc);
    for fault in faults {
        writeln!(lines, "{fault}")?;
    }
    Ok(lines)
}
