//! The output mode that emits each piece with its origin.

ghost use Rattle.std.specs.Prelude.{◌≡◌, List, None, Some, false, map, option_map};
ghost use Rattle.handlebars_base.specs.Shown.{escaped_if};
ghost use Rattle.handlebars_scope.specs.Indentation.{lines_of, takes_indent};
ghost use Rattle.handlebars_scope.specs.LineView.{line_of};
ghost use Rattle.handlebars_semantics.specs.Emitted.{emitted, provenance};
ghost use Rattle.handlebars_semantics.specs.Pieces as meaning;
ghost use Rattle.handlebars_semantics.specs.Pieces.{Piece, indent_pieces, pieces_between, pieces_of, pieces_put};
ghost use Rattle.handlebars_layers.specs.FullPathView.{names_on};
ghost use Rattle.handlebars_expand.specs.PiecesView.{captured_emitted, emitted_seen, kind_seen, location_seen, origin_seen};
ghost use Rattle.handlebars_write.specs.LocationView.{indexes_of, provenance_in, whereabouts_in};
ghost use Rattle.handlebars_write.specs.ModeClauses.{EmitsTo, InLine, IsLineUnchanged, PutsFrom, WritesFrom, WritesTo};
ghost use Rattle.handlebars_write.specs.ModeView.{piece_mode};
ghost use Rattle.handlebars_write.specs.Shows.{value_kind};
ghost use Rattle.handlebars_write.specs.View.{IsSame};
ghost use Rattle.handlebars_write.specs.Writes.{Puts};

use crate::location::ElementLocation;
use crate::outcome::Outcome;
use crate::output_mode::{OutputMode, boolean_text};
use crate::sink::Sink;
use crate::value_path::{NoPath, ValuePath};
use crate::write_error::write_error_outcome;
use handlebars_base::json::value::{Json, JsonRender};
use handlebars_base::support::escape_html;
use handlebars_expand::ahead::Captured;
use handlebars_expand::pieces::{Location, Origin, PieceKind, PieceOutput};
use handlebars_layers::full_path::FullPath;
use handlebars_scope::line::LineState;
use std::alloc::Global;

/// The mode that emits each piece with its origin. Positions and lists of iterations are made only here.
#[derive(Drop)]
pub struct EachPiece {}

impl<O: PieceOutput> OutputMode<O> for EachPiece {
    ghost mode = { piece_mode O.received O.may_give };

    fn put_text(
        at: ElementLocation<'_>,
        text: &str,
        line: &mut LineState,
        sink: &mut Sink<'_, O, EachPiece>,
    ) -> Outcome {
        put(at, PieceKind::TemplateText, text, &NoPath, line, sink)
    }

    fn put_value<L: ValuePath>(
        at: ElementLocation<'_>,
        entities: bool,
        escapes: bool,
        value: &Json,
        path: &L,
        line: &mut LineState,
        sink: &mut Sink<'_, O, EachPiece>,
    ) -> Outcome {
        match value {
            Json::String(text) => put_shown(at, entities, escapes, text.as_str(), path, line, sink),
            _ => match value.render(at.surroundings.placement.alloc) {
                Ok(text) => put_shown(at, entities, escapes, text.as_str(), path, line, sink),
                Err(_) => Outcome::OutOfMemory,
            },
        }
    }

    fn put_escaped<L: ValuePath>(
        at: ElementLocation<'_>,
        text: &str,
        path: &L,
        line: &mut LineState,
        sink: &mut Sink<'_, O, EachPiece>,
    ) -> Outcome {
        put(at, PieceKind::EscapedValue, text, path, line, sink)
    }

    fn put_boolean(
        at: ElementLocation<'_>,
        boolean: bool,
        sink: &mut Sink<'_, O, EachPiece>,
    ) -> Outcome {
        put_piece(
            at,
            PieceKind::HelperBoolean,
            true,
            boolean_text(boolean),
            sink,
        )
    }

    fn put_step(at: ElementLocation<'_>, text: &str, sink: &mut Sink<'_, O, EachPiece>) -> Outcome {
        if text.is_empty() {
            return Outcome::Done;
        }
        put_piece(at, PieceKind::UserText, false, text, sink)
    }

    fn put_captured(
        alloc: Global,
        captured: &Captured,
        sink: &mut Sink<'_, O, EachPiece>,
    ) -> Outcome {
        emit_captured(alloc, captured, sink)
    }
}

// ---- from the location of an element

// Emits the pieces of a text of this kind, under the indentation in force, and updates the state of the line. For an empty text
// nothing is allocated.
#[inline(never)]
fn put<O: PieceOutput, L: ValuePath>(
    at: ElementLocation<'_>,
    kind: PieceKind,
    text: &str,
    path: &L,
    line: &mut LineState,
    sink: &mut Sink<'_, O, EachPiece>,
) -> Outcome
    ensures puts { PutsFrom (piece_mode O.received O.may_give) at.entry (kind_seen kind) (L.names path.now) text.now line sink result }
    ensures same { IsSame sink.old sink.new }
    ensures unchanged { IsLineUnchanged line result }
{
    if text.is_empty() {
        return Outcome::Done;
    }
    match at
        .surroundings
        .iterations
        .indexes(at.surroundings.placement.alloc)
    {
        Ok(iterations) => put_within(at, iterations.as_slice(), kind, text, path, line, sink),
        Err(_) => Outcome::OutOfMemory,
    }
}

// Emits the pieces of a text of this kind within iterations of these indexes. The location, the indexes and the path are borrowed
// for one lifetime, which is that of the origin.
#[inline(always)]
fn put_within<'p, O: PieceOutput, L: ValuePath>(
    at: ElementLocation<'p>,
    iterations: &'p [usize],
    kind: PieceKind,
    text: &str,
    path: &'p L,
    line: &mut LineState,
    sink: &mut Sink<'_, O, EachPiece>,
) -> Outcome
    ensures puts { iterations.now ≡ indexes_of at.entry.surroundings.now.iterations.now
        → PutsFrom (piece_mode O.received O.may_give) at.entry (kind_seen kind) (L.names path.now) text.now line sink result }
    ensures same { IsSame sink.old sink.new }
    ensures unchanged { IsLineUnchanged line result }
{
    let full_path = path.path();
    let origin = origin(at, kind, iterations, full_path);
    let placement = at.surroundings.placement;
    put_from(placement.alloc, placement.indent, text, &origin, line, sink)
}

// Emits the pieces of a text that a value is rendered as. The text with entities is built if they are asked for.
fn put_shown<O: PieceOutput, L: ValuePath>(
    at: ElementLocation<'_>,
    entities: bool,
    escapes: bool,
    text: &str,
    path: &L,
    line: &mut LineState,
    sink: &mut Sink<'_, O, EachPiece>,
) -> Outcome
    ensures puts { PutsFrom (piece_mode O.received O.may_give) at.entry (value_kind escapes) (L.names path.now)
        (escaped_if entities text.now) line sink result }
    ensures same { IsSame sink.old sink.new }
    ensures unchanged { IsLineUnchanged line result }
{
    if !entities {
        return put(at, value_kind(escapes), text, path, line, sink);
    }
    match escape_html(at.surroundings.placement.alloc, text) {
        Ok(escaped) => put(at, value_kind(escapes), escaped.as_str(), path, line, sink),
        Err(_) => Outcome::OutOfMemory,
    }
}

// The kind of a value that is written: escaped if escaping is on.
fn value_kind(escapes: bool) -> PieceKind
    ensures { kind_seen result ≡ value_kind escapes }
{
    if escapes {
        PieceKind::EscapedValue
    } else {
        PieceKind::RawValue
    }
}

// Emits a text of this kind as one piece, whatever the state of the line.
#[inline(never)]
fn put_piece<O: PieceOutput>(
    at: ElementLocation<'_>,
    kind: PieceKind,
    at_boolean_text: bool,
    text: &str,
    sink: &mut Sink<'_, O, EachPiece>,
) -> Outcome
    ensures emits { EmitsTo (piece_mode O.received O.may_give)
        (record { text = text.now; provenance = provenance_in at.entry (kind_seen kind) None }) at_boolean_text sink result }
    ensures same { IsSame sink.old sink.new }
{
    match at
        .surroundings
        .iterations
        .indexes(at.surroundings.placement.alloc)
    {
        Ok(iterations) => {
            put_piece_within(at, iterations.as_slice(), kind, at_boolean_text, text, sink)
        }
        Err(_) => Outcome::OutOfMemory,
    }
}

// Emits a text of this kind as one piece within iterations of these indexes, whatever the state of the line.
#[inline(always)]
fn put_piece_within<'p, O: PieceOutput>(
    at: ElementLocation<'p>,
    iterations: &'p [usize],
    kind: PieceKind,
    at_boolean_text: bool,
    text: &str,
    sink: &mut Sink<'_, O, EachPiece>,
) -> Outcome
    ensures emits { iterations.now ≡ indexes_of at.entry.surroundings.now.iterations.now → EmitsTo (piece_mode O.received O.may_give)
        (record { text = text.now; provenance = provenance_in at.entry (kind_seen kind) None }) at_boolean_text sink result }
    ensures same { IsSame sink.old sink.new }
{
    let origin = origin(at, kind, iterations, None);
    emit(
        at.surroundings.placement.alloc,
        at_boolean_text,
        text,
        &origin,
        sink,
    )
}

// The origin of a piece of this kind and path, with the indexes of the iterations around its element.
fn origin<'p>(
    at: ElementLocation<'p>,
    kind: PieceKind,
    iterations: &'p [usize],
    path: Option<FullPath<'p>>,
) -> Origin<'p>
    ensures { iterations.now ≡ indexes_of at.entry.surroundings.now.iterations.now
        → origin_seen result ≡ provenance_in at.entry (kind_seen kind) (option_map names_on path.entry) }
{
    Origin {
        kind,
        location: location(at, iterations),
        path,
    }
}

// The location of an element, with the indexes of the iterations around it.
fn location<'p>(at: ElementLocation<'p>, iterations: &'p [usize]) -> Location<'p>
    ensures { iterations.now ≡ indexes_of at.entry.surroundings.now.iterations.now → location_seen result ≡ whereabouts_in at.entry }
{
    Location {
        template: at.surroundings.placement.template,
        position: at.surroundings.mapping.get(at.index),
        iterations,
    }
}

// ---- the pieces of a text

// Emits the pieces of a text under an indentation or without one, and updates the state of the line.
fn put_from<O: PieceOutput>(
    alloc: Global,
    indent: Option<&str>,
    text: &str,
    origin: &Origin<'_>,
    line: &mut LineState,
    sink: &mut Sink<'_, O, EachPiece>,
) -> Outcome
    ensures puts { (o : meaning.Origin) → provenance o ≡ origin_seen origin.now
        → InLine (piece_mode O.received O.may_give) (option_map (λ t. t.now) indent.entry) line sink result (Puts o text.now O.may_give) }
    ensures same { IsSame sink.old sink.new }
    ensures unchanged { IsLineUnchanged line result }
{
    match emit_put(alloc, indent, *line, text, origin, sink) {
        Outcome::Done => {
            *line = line.after(text);
            Outcome::Done
        }
        failed => failed,
    }
}

// Emits a text in a line, under an indentation or without one.
fn emit_put<O: PieceOutput>(
    alloc: Global,
    indent: Option<&str>,
    line: LineState,
    text: &str,
    origin: &Origin<'_>,
    sink: &mut Sink<'_, O, EachPiece>,
) -> Outcome
    ensures writes { WritesFrom (piece_mode O.received O.may_give) (origin_seen origin.now)
        (λ o. pieces_put o (option_map (λ t. t.now) indent.entry) text.now (line_of line)) sink result }
    ensures same { IsSame sink.old sink.new }
{
    match indent {
        None => emit_some(alloc, text, origin, sink),
        Some(indent) => emit_under(alloc, indent, line, text, origin, sink),
    }
}

// Emits a text as one piece, or as none if it is empty.
fn emit_some<O: PieceOutput>(
    alloc: Global,
    text: &str,
    origin: &Origin<'_>,
    sink: &mut Sink<'_, O, EachPiece>,
) -> Outcome
    ensures writes { WritesFrom (piece_mode O.received O.may_give) (origin_seen origin.now) (λ o. pieces_of o text.now) sink result }
    ensures same { IsSame sink.old sink.new }
{
    if text.is_empty() {
        return Outcome::Done;
    }
    emit(alloc, false, text, origin, sink)
}

// Emits a text under an indentation, which goes before the text if it is due, and between its lines.
fn emit_under<O: PieceOutput>(
    alloc: Global,
    indent: &str,
    line: LineState,
    text: &str,
    origin: &Origin<'_>,
    sink: &mut Sink<'_, O, EachPiece>,
) -> Outcome
    ensures writes { WritesFrom (piece_mode O.received O.may_give) (origin_seen origin.now)
        (λ o. pieces_put o (Some indent.now) text.now (line_of line)) sink result }
    ensures same { IsSame sink.old sink.new }
{
    let indentation = indentation_by(origin);
    if takes_indent(line, text) {
        match emit_some(alloc, indent, &indentation, sink) {
            Outcome::Done => {}
            failed => return failed,
        }
    }
    emit_lines(alloc, indent, &indentation, text, origin, sink)
}

// Emits the lines of a text, with the indentation between them.
fn emit_lines<O: PieceOutput>(
    alloc: Global,
    indent: &str,
    indentation: &Origin<'_>,
    text: &str,
    origin: &Origin<'_>,
    sink: &mut Sink<'_, O, EachPiece>,
) -> Outcome
    ensures writes { (o : meaning.Origin) → provenance o ≡ origin_seen origin.now
        → provenance (meaning.of_indent (meaning.occurrence_of o)) ≡ origin_seen indentation.now
        → WritesTo (piece_mode O.received O.may_give) (pieces_between o (indent_pieces o indent.now) (lines_of text.now)) false sink result }
    ensures same { IsSame sink.old sink.new }
{
    let bytes = text.as_bytes();
    let mut written = 0;
    'lines: for at in 1..bytes.len() {
        if bytes[at - 1] == b'\n' {
            match emit(alloc, false, &text[written..at], origin, sink) {
                Outcome::Done => {}
                failed => return failed,
            }
            match emit_some(alloc, indent, indentation, sink) {
                Outcome::Done => {}
                failed => return failed,
            }
            written = at;
        }
    }
    emit_some(alloc, &text[written..], origin, sink)
}

// The origin of the indentation, which the element writes that the text comes from.
fn indentation_by<'p>(origin: &Origin<'p>) -> Origin<'p>
    ensures { (o : meaning.Origin) → provenance o ≡ origin_seen origin.now
        → provenance (meaning.of_indent (meaning.occurrence_of o)) ≡ origin_seen result }
{
    Origin {
        kind: PieceKind::Indentation,
        location: origin.location,
        path: None,
    }
}

// Whether the indentation goes before a text.
fn takes_indent(line: LineState, text: &str) -> bool
    ensures { result ≡ takes_indent (line_of line) text.now }
{
    match text.as_bytes() {
        [first, ..] => line.before && *first != b'\n' && *first != b'\r',
        [] => false,
    }
}

// Emits the captured pieces, each with its own origin.
fn emit_captured<O: PieceOutput>(
    alloc: Global,
    captured: &Captured,
    sink: &mut Sink<'_, O, EachPiece>,
) -> Outcome
    ensures writes { (ps : List Piece) → map emitted ps ≡ captured_emitted captured.now
        → WritesTo (piece_mode O.received O.may_give) ps false sink result }
    ensures same { IsSame sink.old sink.new }
{
    'pieces: for piece in captured.pieces.iter() {
        let origin = piece.origin();
        match emit(alloc, false, piece.text(), &origin, sink) {
            Outcome::Done => {}
            failed => return failed,
        }
    }
    Outcome::Done
}

// ---- to one of the two sinks

// Emits a piece: the text of a boolean helper, or another piece. A piece that is rejected is not emitted, and writes nothing;
// its error is counted.
#[inline(always)]
fn emit<O: PieceOutput>(
    alloc: Global,
    at_boolean_text: bool,
    text: &str,
    origin: &Origin<'_>,
    sink: &mut Sink<'_, O, EachPiece>,
) -> Outcome
    ensures emits { EmitsTo (piece_mode O.received O.may_give) (emitted_seen text.now origin.now) at_boolean_text sink result }
    ensures same { IsSame sink.old sink.new }
{
    match sink {
        Sink::Out(out, _) => match out.piece(text, origin) {
            Ok(()) => Outcome::Done,
            Err(write_error) => write_error_outcome(alloc, at_boolean_text, write_error),
        },
        Sink::Ahead(ahead) => match ahead.capture(alloc, text, origin) {
            Ok(()) => Outcome::Done,
            Err(_) => Outcome::OutOfMemory,
        },
    }
}
