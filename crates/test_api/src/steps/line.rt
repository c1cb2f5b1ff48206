//! The output, and the state of the line that is being written.

use handlebars::{JsonValue, Output, RenderContext, StringOutput, indent_aware_write};
use std::alloc::Global;
use test_steps::answer::{Answer, Stop, done, shown};
use test_steps::fields::{flag, text};

/// Returns what a call answers.
pub fn answer(
    alloc: Global,
    rc: &mut RenderContext,
    out: &mut StringOutput,
    call: &str,
    step: &JsonValue,
) -> Answer {
    match call {
        "is" => is(alloc, rc),
        "write" => shown(alloc, out.write(text(step, "text"))),
        "write_aware" => shown(alloc, indent_aware_write(text(step, "text"), rc, out)),
        "out" => Ok(std::mem::replace(out, StringOutput::new(alloc)).into_string()),
        _ => set(alloc, rc, call, flag(step, "on")),
    }
}

// Whether a line has ended, whether content was written, and whether whitespace is to be written first.
fn is(alloc: Global, rc: &RenderContext) -> Answer {
    let newline = rc.get_trailine_newline();
    let content = rc.get_content_produced();
    let indent = rc.get_indent_before_write();
    shown(alloc, (newline, content, indent))
}

fn set(alloc: Global, rc: &mut RenderContext, call: &str, on: bool) -> Answer {
    match call {
        "set_trailing_newline" => rc.set_trailing_newline(on),
        "set_content_produced" => rc.set_content_produced(on),
        "set_indent_before_write" => rc.set_indent_before_write(on),
        _ => return Err(Stop::Call),
    }
    done(alloc)
}
