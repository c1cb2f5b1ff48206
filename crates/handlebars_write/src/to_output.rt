//! Writing texts to an output. The error of a write is boxed at once: an `io::Error` in a `Result` that is passed on is copied
//! each time.

ghost use Rattle.std.specs.Prelude.{false};
ghost use Rattle.serde_json.specs.View.{view};
ghost use Rattle.handlebars_base.specs.Escape.{escaped};
ghost use Rattle.handlebars_base.specs.Shown.{escaped_if, shown};
ghost use Rattle.handlebars_scope.specs.Indentation.{written_in};
ghost use Rattle.handlebars_scope.specs.LineView.{line_of};
ghost use Rattle.handlebars_write.specs.ModeClauses.{TextWritten};

use crate::outcome::Outcome;
use crate::write_error::write_error_outcome;
use handlebars_base::json::value::{Json, write_value};
use handlebars_base::output::Output;
use handlebars_base::support::write_escaped;
use handlebars_scope::indentation::write_in_line;
use handlebars_scope::line::LineState;
use std::alloc::Global;

/// Writes a text: the text of a boolean helper, whose write error is reported as `Other`, or another text.
#[inline(always)]
pub(crate) fn write_to<O: Output>(
    alloc: Global,
    at_boolean_text: bool,
    text: &str,
    out: &mut O,
) -> Outcome
    ensures { TextWritten text.now at_boolean_text O.may_give (O.held out.old) result (O.held out.new) }
{
    match out.write(text) {
        Ok(()) => Outcome::Done,
        Err(write_error) => write_error_outcome(alloc, at_boolean_text, write_error),
    }
}

/// Writes the text that a value is rendered as, with entities or without.
#[inline(always)]
pub(crate) fn show_to<O: Output>(
    alloc: Global,
    entities: bool,
    value: &Json,
    out: &mut O,
) -> Outcome
    ensures { TextWritten (shown entities (view value.now)) false O.may_give (O.held out.old) result (O.held out.new) }
{
    match value {
        Json::String(text) => {
            if entities {
                escape_to(alloc, text.as_str(), out)
            } else {
                write_to(alloc, false, text.as_str(), out)
            }
        }
        _ => match write_value(out, value, entities) {
            Ok(()) => Outcome::Done,
            Err(write_error) => write_error_outcome(alloc, false, write_error),
        },
    }
}

// Writes a text with entities.
#[inline(never)]
pub(crate) fn escape_to<O: Output>(alloc: Global, text: &str, out: &mut O) -> Outcome
    ensures { TextWritten (escaped text.now) false O.may_give (O.held out.old) result (O.held out.new) }
{
    match write_escaped(out, text) {
        Ok(()) => Outcome::Done,
        Err(write_error) => write_error_outcome(alloc, false, write_error),
    }
}

/// Writes a text in a line, under an indentation, with entities or without.
pub(crate) fn indent_to<O: Output>(
    alloc: Global,
    line: LineState,
    indent: &str,
    entities: bool,
    text: &str,
    out: &mut O,
) -> Outcome
    ensures { TextWritten (written_in indent.now (line_of line) (escaped_if entities text.now)) false O.may_give
        (O.held out.old) result (O.held out.new) }
{
    match write_in_line(line, text, indent, entities, out) {
        Ok(()) => Outcome::Done,
        Err(write_error) => write_error_outcome(alloc, false, write_error),
    }
}
