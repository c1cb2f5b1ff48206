//! Whether data stands only where it is harmless in HTML, and each location where it may stand elsewhere.

use handlebars::{HtmlVerdict, JsonValue, NoFiles, Registry, RenderError};
use std::alloc::{AllocError, Global};
use test_steps::answer::{Answer, Stop, said, shown, text_answer};
use test_steps::fields::text;

/// Returns what a call answers.
pub fn answer(alloc: Global, registry: &Registry, call: &str, step: &JsonValue) -> Answer {
    match call {
        "is_safe" => shown(alloc, registry.html_is_safe(&mut NoFiles)),
        "faults" => lists(alloc, registry.html_faults(&mut NoFiles)),
        "source_is_safe" => {
            let source = text(step, "source");
            shown(alloc, registry.template_html_is_safe(source, &mut NoFiles))
        }
        "source_faults" => {
            let source = text(step, "source");
            lists(alloc, registry.template_html_faults(source, &mut NoFiles))
        }
        _ => Err(Stop::Call),
    }
}

// The verdict: `safe`, the faults, one a line, or `undecided`.
fn lists(alloc: Global, answer: Result<HtmlVerdict, RenderError>) -> Answer {
    match answer {
        Ok(verdict) => text_answer(lines(alloc, &verdict)),
        Err(error) => said(alloc, &error),
    }
}

fn lines(alloc: Global, verdict: &HtmlVerdict) -> Result<String, AllocError> {
    let mut lines = String::new(alloc);
    match verdict {
        HtmlVerdict::NoFaults => writeln!(lines, "safe")?,
        HtmlVerdict::Faults(faults) => {
            for fault in faults {
                writeln!(lines, "{fault}")?;
            }
        }
        HtmlVerdict::Undecided => writeln!(lines, "undecided")?,
    }
    Ok(lines)
}
