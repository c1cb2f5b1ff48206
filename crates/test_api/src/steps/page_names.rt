//! Whether the names that a page uses are known, and each that may not be.

use handlebars::{JsonValue, NamesVerdict, NoFiles, Registry, RenderError};
use std::alloc::{AllocError, Global};
use test_steps::answer::{Answer, Stop, said, text_answer};
use test_steps::fields::text;

/// Returns what a call answers.
pub fn answer(alloc: Global, registry: &Registry, call: &str, step: &JsonValue) -> Answer {
    match call {
        "of_template" => {
            let name = text(step, "name");
            lists(alloc, registry.names_are_known(name, &mut NoFiles))
        }
        "of_source" => {
            let source = text(step, "source");
            lists(
                alloc,
                registry.template_names_are_known(source, &mut NoFiles),
            )
        }
        _ => Err(Stop::Call),
    }
}

// The verdict: `known`, the faults, one a line, or `undecided`.
fn lists(alloc: Global, answer: Result<NamesVerdict, RenderError>) -> Answer {
    match answer {
        Ok(verdict) => text_answer(lines(alloc, &verdict)),
        Err(error) => said(alloc, &error),
    }
}

fn lines(alloc: Global, verdict: &NamesVerdict) -> Result<String, AllocError> {
    let mut lines = String::new(alloc);
    match verdict {
        NamesVerdict::NoFaults => writeln!(lines, "known")?,
        NamesVerdict::Faults(faults) => {
            for fault in faults {
                writeln!(lines, "{fault}")?;
            }
        }
        NamesVerdict::Undecided => writeln!(lines, "undecided")?,
    }
    Ok(lines)
}
