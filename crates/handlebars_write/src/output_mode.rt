//! How a rendering writes to an output: texts alone, or each piece with its origin.

ghost use Rattle.std.specs.Prelude.{◌≡◌, ◌∷◌, [], ℕ, List, None, Some, false, true};
ghost use Rattle.serde_json.specs.View.{view};
ghost use Rattle.handlebars_base.specs.Shown.{shown};
ghost use Rattle.handlebars_base.specs.Values as values;
ghost use Rattle.handlebars_semantics.specs.Emitted.{escaped_value, template_text};
ghost use Rattle.handlebars_semantics.specs.Occurrences.{Occurrence};
ghost use Rattle.handlebars_semantics.specs.Pieces.{Piece, of_boolean_text, of_step, pieces_of};
ghost use Rattle.handlebars_expand.specs.View.{AreCaptured};
ghost use Rattle.handlebars_write.specs.LocationView.{IsAt};
ghost use Rattle.handlebars_write.specs.ModeView.{ModeView};
ghost use Rattle.handlebars_write.specs.ModeClauses.{IsLineUnchanged, PutsFrom, WritesTo};
ghost use Rattle.handlebars_write.specs.Shows.{value_kind};
ghost use Rattle.handlebars_write.specs.View.{IsSame};

use crate::location::ElementLocation;
use crate::outcome::Outcome;
use crate::sink::Sink;
use crate::value_path::ValuePath;
use handlebars_base::json::value::Json;
use handlebars_expand::ahead::Captured;
use handlebars_scope::line::LineState;
use std::alloc::Global;

/// How a rendering writes to outputs of a type: as texts alone, or as pieces. Each mode writes the same texts.
///
/// # Errors
///
/// Each method fails if the output does, or if memory runs out; on failure a prefix may have been written, and the line is
/// unchanged.
pub trait OutputMode<O>: Sized {
    ghost mode: { ModeView O };

    /// Writes a text of the template, under the indentation in force.
    fn put_text(
        at: ElementLocation<'_>,
        text: &str,
        line: &mut LineState,
        sink: &mut Sink<'_, O, Self>,
    ) -> Outcome
        ensures puts { PutsFrom mode at.entry template_text None text.now line sink result }
        ensures same { IsSame sink.old sink.new }
        ensures unchanged { IsLineUnchanged line result };

    /// Writes a value, rendered, with entities if `entities` is set, under the indentation in force. Its pieces have the
    /// kind `EscapedValue` if `escapes` is set, otherwise `RawValue`.
    fn put_value<L: ValuePath>(
        at: ElementLocation<'_>,
        entities: bool,
        escapes: bool,
        value: &Json,
        path: &L,
        line: &mut LineState,
        sink: &mut Sink<'_, O, Self>,
    ) -> Outcome
        ensures puts { PutsFrom mode at.entry (value_kind escapes) (L.names path.now) (shown entities (view value.now)) line sink result }
        ensures same { IsSame sink.old sink.new }
        ensures unchanged { IsLineUnchanged line result };

    /// Writes what a user-defined escape function answered for a value, under the indentation in force.
    fn put_escaped<L: ValuePath>(
        at: ElementLocation<'_>,
        text: &str,
        path: &L,
        line: &mut LineState,
        sink: &mut Sink<'_, O, Self>,
    ) -> Outcome
        ensures puts { PutsFrom mode at.entry escaped_value (L.names path.now) text.now line sink result }
        ensures same { IsSame sink.old sink.new }
        ensures unchanged { IsLineUnchanged line result };

    /// Writes the text of a boolean helper as it is, whatever the state of the line. A write error is reported as
    /// `Other`.
    fn put_boolean(at: ElementLocation<'_>, boolean: bool, sink: &mut Sink<'_, O, Self>) -> Outcome
        ensures writes { (occurrence : Occurrence) → IsAt mode.asks at.entry occurrence
            → WritesTo mode (record { origin = of_boolean_text occurrence boolean; text = values.boolean_text boolean } ∷ []) true sink result }
        ensures same { IsSame sink.old sink.new };

    /// Writes a text of a user-defined helper as it is, whatever the state of the line.
    fn put_step(at: ElementLocation<'_>, text: &str, sink: &mut Sink<'_, O, Self>) -> Outcome
        ensures writes { (occurrence : Occurrence) → IsAt mode.asks at.entry occurrence → (i : ℕ)
            → WritesTo mode (pieces_of (of_step occurrence i) text.now) false sink result }
        ensures same { IsSame sink.old sink.new };

    /// Writes what was captured as it is, whatever the state of the line. Each piece has the origin that it was captured with.
    fn put_captured(alloc: Global, captured: &Captured, sink: &mut Sink<'_, O, Self>) -> Outcome
        ensures writes { (ps : List Piece) → AreCaptured mode.asks (Some ps) (Some captured.now) → WritesTo mode ps false sink result }
        ensures same { IsSame sink.old sink.new };
}

/// Returns the text of a boolean helper.
pub(crate) fn boolean_text(boolean: bool) -> &'static str
    ensures { result.now ≡ values.boolean_text boolean }
{
    if boolean { "true" } else { "false" }
}
