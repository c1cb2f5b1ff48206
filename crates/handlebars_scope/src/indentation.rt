//! Indentation: before a text that begins a line, and between the lines of a text.

ghost use Rattle.std.specs.Prelude.{◌≡◌, IfErr, IfOk, string_bytes};
ghost use Rattle.handlebars_base.specs.Outputs.{Written};
ghost use Rattle.handlebars_base.specs.Shown.{escaped_if};
ghost use Rattle.handlebars_scope.specs.Indentation.{indented, takes_indent, written_in};
ghost use Rattle.handlebars_scope.specs.LineView.{line_of};

use crate::line::LineState;
use handlebars_base::output::{Output, StringOutput};
use handlebars_base::support::write_escaped;
use std::alloc::{AllocError, Global};
use std::io;

/// Returns a copy of the text with the indentation after each newline that isn't its last character.
///
/// # Errors
///
/// Fails if memory runs out.
pub fn with_indent(alloc: Global, text: &str, indent: &str) -> Result<String, AllocError>
    ensures { IfOk result (λ s. string_bytes s ≡ indented indent.now text.now) }
{
    let mut out = StringOutput::new(alloc);
    match write_indented(text, indent, &mut out) {
        Ok(()) => Ok(out.into_string()),
        // An output in memory fails only when memory runs out.
        Err(_) => Err(AllocError),
    }
}

/// Writes the text as `with_indent` returns it. Builds no intermediate text.
///
/// # Errors
///
/// Fails with the output's error if a write fails.
pub fn write_indented<O: Output>(text: &str, indent: &str, out: &mut O) -> Result<(), io::Error>
    ensures written { Written (indented indent.now text.now) (O.held out.old) result (O.held out.new) }
    ensures given { IfErr result O.may_give }
{
    write_lines(text, indent, false, out)
}

/// Writes a text, escaped if `escapes` is set, with the indentation after each newline that isn't its last character.
///
/// # Errors
///
/// Fails with the output's error if a write fails.
pub fn write_lines<O: Output>(
    text: &str,
    indent: &str,
    escapes: bool,
    out: &mut O,
) -> Result<(), io::Error>
    ensures written { Written (indented indent.now (escaped_if escapes text.now)) (O.held out.old) result (O.held out.new) }
    ensures given { IfErr result O.may_give }
{
    let bytes = text.as_bytes();
    let mut written = 0;
    for at in 1..bytes.len() {
        if bytes[at - 1] == b'\n' {
            write_part(&text[written..at], escapes, out)?;
            out.write(indent)?;
            written = at;
        }
    }
    write_part(&text[written..], escapes, out)
}

// Writes a text, escaped if `escapes` is set.
fn write_part<O: Output>(text: &str, escapes: bool, out: &mut O) -> Result<(), io::Error>
    ensures written { Written (escaped_if escapes text.now) (O.held out.old) result (O.held out.new) }
    ensures given { IfErr result O.may_give }
{
    if escapes {
        write_escaped(out, text)
    } else {
        out.write(text)
    }
}

/// Writes a text, escaped if `escapes` is set, in a line with an indentation, which may be empty.
///
/// # Errors
///
/// Fails with the output's error if a write fails.
pub fn write_in_line<O: Output>(
    line: LineState,
    text: &str,
    indent: &str,
    escapes: bool,
    out: &mut O,
) -> Result<(), io::Error>
    ensures written { Written (written_in indent.now (line_of line) (escaped_if escapes text.now)) (O.held out.old) result (O.held out.new) }
    ensures given { IfErr result O.may_give }
{
    if indent.is_empty() {
        return write_part(text, escapes, out);
    }
    if takes_indent(line, text) {
        out.write(indent)?;
    }
    write_lines(text, indent, escapes, out)
}

// Returns whether the indentation is written before a text.
fn takes_indent(line: LineState, text: &str) -> bool
    ensures { result ≡ takes_indent (line_of line) text.now }
{
    match text.as_bytes() {
        [first, ..] => line.before && *first != b'\n' && *first != b'\r',
        [] => false,
    }
}
