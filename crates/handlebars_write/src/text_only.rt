//! The output mode that writes texts alone.

ghost use Rattle.std.specs.Prelude.{Bool, None, Some, false, true};
ghost use Rattle.serde_json.specs.View.{number_view, view};
ghost use Rattle.handlebars_base.specs.Escape.{escaped};
ghost use Rattle.handlebars_base.specs.Shown.{escaped_if, shown};
ghost use Rattle.handlebars_base.specs.Values.{rendered_number};
ghost use Rattle.handlebars_scope.specs.Indentation.{written_in};
ghost use Rattle.handlebars_scope.specs.LineView.{line_of};
ghost use Rattle.handlebars_write.specs.LocationView.{indent_in};
ghost use Rattle.handlebars_write.specs.ModeClauses.{IsLineUnchanged, PutsTextIn, WritesTextTo};
ghost use Rattle.handlebars_write.specs.ModeView.{text_mode};
ghost use Rattle.handlebars_write.specs.View.{IsSame};

use crate::location::ElementLocation;
use crate::outcome::Outcome;
use crate::output_mode::{OutputMode, boolean_text};
use crate::plain::{is_plain, number_text};
use crate::sink::Sink;
use crate::to_output::{escape_to, indent_to, show_to, write_to};
use crate::value_path::ValuePath;
use handlebars_base::json::value::{Json, JsonRender};
use handlebars_base::output::Output;
use handlebars_expand::ahead::Captured;
use handlebars_scope::line::LineState;
use itoa::Buffer;
use serde_json::Number;
use std::alloc::Global;

/// The mode that writes texts alone.
#[derive(Drop)]
pub struct TextOnly {}

// Most texts have no indentation, so that is tested first.
impl<O: Output> OutputMode<O> for TextOnly {
    ghost mode = { text_mode O.held O.may_give };

    #[inline(always)]
    fn put_text(
        at: ElementLocation<'_>,
        text: &str,
        line: &mut LineState,
        sink: &mut Sink<'_, O, TextOnly>,
    ) -> Outcome {
        put(at, text, line, sink)
    }

    #[inline(always)]
    fn put_value<L: ValuePath>(
        at: ElementLocation<'_>,
        entities: bool,
        _escapes: bool,
        value: &Json,
        _path: &L,
        line: &mut LineState,
        sink: &mut Sink<'_, O, TextOnly>,
    ) -> Outcome {
        let placement = at.surroundings.placement;
        match placement.indent {
            None => show(placement.alloc, entities, value, line, sink),
            Some(indent) => show_under(placement.alloc, indent, entities, value, line, sink),
        }
    }

    #[inline(always)]
    fn put_escaped<L: ValuePath>(
        at: ElementLocation<'_>,
        text: &str,
        _path: &L,
        line: &mut LineState,
        sink: &mut Sink<'_, O, TextOnly>,
    ) -> Outcome {
        put(at, text, line, sink)
    }

    #[inline(always)]
    fn put_boolean(
        at: ElementLocation<'_>,
        boolean: bool,
        sink: &mut Sink<'_, O, TextOnly>,
    ) -> Outcome {
        let placement = at.surroundings.placement;
        write_as_is(placement.alloc, true, boolean_text(boolean), sink)
    }

    #[inline(always)]
    fn put_step(at: ElementLocation<'_>, text: &str, sink: &mut Sink<'_, O, TextOnly>) -> Outcome {
        write_as_is(at.surroundings.placement.alloc, false, text, sink)
    }

    #[inline(always)]
    fn put_captured(
        alloc: Global,
        captured: &Captured,
        sink: &mut Sink<'_, O, TextOnly>,
    ) -> Outcome {
        write_as_is(alloc, false, captured.text.as_str(), sink)
    }
}

// ---- under the indentation in force

// Writes a text, and updates the state of the line. It is not inlined: the callers of the mode recurse, and take no stack space
// for what it needs.
#[inline(never)]
fn put<O: Output>(
    at: ElementLocation<'_>,
    text: &str,
    line: &mut LineState,
    sink: &mut Sink<'_, O, TextOnly>,
) -> Outcome
    ensures puts { PutsTextIn (text_mode O.held O.may_give) (indent_in at.entry) text.now line sink result }
    ensures same { IsSame sink.old sink.new }
    ensures unchanged { IsLineUnchanged line result }
{
    let placement = at.surroundings.placement;
    match placement.indent {
        None => put_plain(placement.alloc, text, line, sink),
        Some(indent) => put_under(placement.alloc, indent, false, text, line, sink),
    }
}

// Writes a text with no indentation in force, and updates the state of the line.
#[inline(always)]
fn put_plain<O: Output>(
    alloc: Global,
    text: &str,
    line: &mut LineState,
    sink: &mut Sink<'_, O, TextOnly>,
) -> Outcome
    ensures puts { PutsTextIn (text_mode O.held O.may_give) None text.now line sink result }
    ensures same { IsSame sink.old sink.new }
    ensures unchanged { IsLineUnchanged line result }
{
    match write_inlined(alloc, false, text, sink) {
        Outcome::Done => {
            *line = line.after(text);
            Outcome::Done
        }
        failed => failed,
    }
}

// Writes a text under an indentation, with entities or without, and updates the state of the line.
#[cold]
#[inline(never)]
fn put_under<O: Output>(
    alloc: Global,
    indent: &str,
    entities: bool,
    text: &str,
    line: &mut LineState,
    sink: &mut Sink<'_, O, TextOnly>,
) -> Outcome
    ensures puts { PutsTextIn (text_mode O.held O.may_give) (Some indent.now) (escaped_if entities text.now) line sink result }
    ensures same { IsSame sink.old sink.new }
    ensures unchanged { IsLineUnchanged line result }
{
    match write_indented(alloc, *line, indent, entities, text, sink) {
        Outcome::Done => {
            // No entity ends a line.
            *line = line.after(text);
            Outcome::Done
        }
        failed => failed,
    }
}

// Writes a value, rendered, with entities or without, and updates the state of the line. Texts and numbers are the usual values.
#[inline(always)]
fn show<O: Output>(
    alloc: Global,
    entities: bool,
    value: &Json,
    line: &mut LineState,
    sink: &mut Sink<'_, O, TextOnly>,
) -> Outcome
    ensures puts { PutsTextIn (text_mode O.held O.may_give) None (shown entities (view value.now)) line sink result }
    ensures same { IsSame sink.old sink.new }
    ensures unchanged { IsLineUnchanged line result }
{
    match value {
        Json::String(text) => show_text(alloc, entities, text.as_str(), line, sink),
        Json::Number(number) => show_number(alloc, number, line, sink),
        _ => show_other(alloc, entities, value, line, sink),
    }
}

// Writes a text, with entities or without, and updates the state of the line.
#[inline(never)]
fn show_text<O: Output>(
    alloc: Global,
    entities: bool,
    text: &str,
    line: &mut LineState,
    sink: &mut Sink<'_, O, TextOnly>,
) -> Outcome
    ensures puts { PutsTextIn (text_mode O.held O.may_give) None (escaped_if entities text.now) line sink result }
    ensures same { IsSame sink.old sink.new }
    ensures unchanged { IsLineUnchanged line result }
{
    if entities && !is_plain(text.as_bytes()) {
        show_marked(alloc, text, line, sink)
    } else {
        put_plain(alloc, text, line, sink)
    }
}

// Writes a text with entities, and updates the state of the line.
#[inline(never)]
fn show_marked<O: Output>(
    alloc: Global,
    text: &str,
    line: &mut LineState,
    sink: &mut Sink<'_, O, TextOnly>,
) -> Outcome
    ensures puts { PutsTextIn (text_mode O.held O.may_give) None (escaped text.now) line sink result }
    ensures same { IsSame sink.old sink.new }
    ensures unchanged { IsLineUnchanged line result }
{
    match escape_as_is(alloc, text, sink) {
        Outcome::Done => {
            // No entity ends a line.
            *line = line.after(text);
            Outcome::Done
        }
        failed => failed,
    }
}

// Writes a number, and updates the state of the line.
#[inline(never)]
fn show_number<O: Output>(
    alloc: Global,
    number: &Number,
    line: &mut LineState,
    sink: &mut Sink<'_, O, TextOnly>,
) -> Outcome
    ensures puts { (entities : Bool) → PutsTextIn (text_mode O.held O.may_give) None
        (escaped_if entities (rendered_number (number_view number.now))) line sink result }
    ensures same { IsSame sink.old sink.new }
    ensures unchanged { IsLineUnchanged line result }
{
    let mut digits = Buffer::new();
    put_plain(alloc, number_text(number, &mut digits), line, sink)
}

// Writes another value, and updates the state of the line.
#[inline(never)]
fn show_other<O: Output>(
    alloc: Global,
    entities: bool,
    value: &Json,
    line: &mut LineState,
    sink: &mut Sink<'_, O, TextOnly>,
) -> Outcome
    ensures puts { PutsTextIn (text_mode O.held O.may_give) None (shown entities (view value.now)) line sink result }
    ensures same { IsSame sink.old sink.new }
    ensures unchanged { IsLineUnchanged line result }
{
    match show_as_is(alloc, entities, value, sink) {
        Outcome::Done => {
            *line = line.after_value(value);
            Outcome::Done
        }
        failed => failed,
    }
}

// Writes a value under an indentation: a text line by line, and another value once it is rendered.
#[inline(never)]
fn show_under<O: Output>(
    alloc: Global,
    indent: &str,
    entities: bool,
    value: &Json,
    line: &mut LineState,
    sink: &mut Sink<'_, O, TextOnly>,
) -> Outcome
    ensures puts { PutsTextIn (text_mode O.held O.may_give) (Some indent.now) (shown entities (view value.now)) line sink result }
    ensures same { IsSame sink.old sink.new }
    ensures unchanged { IsLineUnchanged line result }
{
    match value {
        Json::String(text) => put_under(alloc, indent, entities, text.as_str(), line, sink),
        _ => match value.render(alloc) {
            Ok(text) => put_under(alloc, indent, entities, text.as_str(), line, sink),
            Err(_) => Outcome::OutOfMemory,
        },
    }
}

// ---- to one of the two sinks

// Writes a text. It is not inlined: the callers of the mode recurse, and take no stack space for what it needs.
#[inline(never)]
fn write_as_is<O: Output>(
    alloc: Global,
    at_boolean_text: bool,
    text: &str,
    sink: &mut Sink<'_, O, TextOnly>,
) -> Outcome
    ensures writes { WritesTextTo (text_mode O.held O.may_give) text.now at_boolean_text sink result }
    ensures same { IsSame sink.old sink.new }
{
    write_inlined(alloc, at_boolean_text, text, sink)
}

// Writes a text.
#[inline(always)]
fn write_inlined<O: Output>(
    alloc: Global,
    at_boolean_text: bool,
    text: &str,
    sink: &mut Sink<'_, O, TextOnly>,
) -> Outcome
    ensures writes { WritesTextTo (text_mode O.held O.may_give) text.now at_boolean_text sink result }
    ensures same { IsSame sink.old sink.new }
{
    match sink {
        Sink::Out(out, _) => write_to(alloc, at_boolean_text, text, &mut **out),
        Sink::Ahead(ahead) => write_to(alloc, at_boolean_text, text, &mut ahead.text),
    }
}

// Writes a text with entities.
#[inline(always)]
fn escape_as_is<O: Output>(alloc: Global, text: &str, sink: &mut Sink<'_, O, TextOnly>) -> Outcome
    ensures writes { WritesTextTo (text_mode O.held O.may_give) (escaped text.now) false sink result }
    ensures same { IsSame sink.old sink.new }
{
    match sink {
        Sink::Out(out, _) => escape_to(alloc, text, &mut **out),
        Sink::Ahead(ahead) => escape_to(alloc, text, &mut ahead.text),
    }
}

// Writes the text that a value is rendered as, with entities or without.
#[inline(always)]
fn show_as_is<O: Output>(
    alloc: Global,
    entities: bool,
    value: &Json,
    sink: &mut Sink<'_, O, TextOnly>,
) -> Outcome
    ensures writes { WritesTextTo (text_mode O.held O.may_give) (shown entities (view value.now)) false sink result }
    ensures same { IsSame sink.old sink.new }
{
    match sink {
        Sink::Out(out, _) => show_to(alloc, entities, value, &mut **out),
        Sink::Ahead(ahead) => show_to(alloc, entities, value, &mut ahead.text),
    }
}

// Writes a text in a line, under an indentation, with entities or without.
fn write_indented<O: Output>(
    alloc: Global,
    line: LineState,
    indent: &str,
    entities: bool,
    text: &str,
    sink: &mut Sink<'_, O, TextOnly>,
) -> Outcome
    ensures writes { WritesTextTo (text_mode O.held O.may_give)
        (written_in indent.now (line_of line) (escaped_if entities text.now)) false sink result }
    ensures same { IsSame sink.old sink.new }
{
    match sink {
        Sink::Out(out, _) => indent_to(alloc, line, indent, entities, text, &mut **out),
        Sink::Ahead(ahead) => indent_to(alloc, line, indent, entities, text, &mut ahead.text),
    }
}
