//! Writing values, escaped as the registry says, and texts for user-defined helpers.

ghost use Rattle.std.specs.Prelude.{◌≡◌, None, OnErr, string_bytes, true};
ghost use Rattle.serde_json.specs.View.{view};
ghost use Rattle.handlebars_base.specs.Scoped.{present_in};
ghost use Rattle.handlebars_base.specs.Values.{rendered};
ghost use Rattle.handlebars_helpers.specs.EscapeView.{escaping_of};
ghost use Rattle.handlebars_helpers.specs.Escaping.{by_user};
ghost use Rattle.handlebars_helpers.specs.UserView.{IsOneOf};
ghost use Rattle.handlebars_scope.specs.LineView.{line_of};
ghost use Rattle.handlebars_semantics.specs.State.{State};
ghost use Rattle.handlebars_semantics.specs.Writing.{rendered_if_any};
ghost use Rattle.handlebars_expand.specs.View.{with_line};
ghost use Rattle.handlebars_write.specs.ModeClauses.{IsLineUnchanged};
ghost use Rattle.handlebars_write.specs.Shows.{ShowsValue, entities_by};
ghost use Rattle.handlebars_write.specs.View.{IsSame, moment_at, text_only};
ghost use Rattle.handlebars_write.specs.Writes.{PutsText};

use crate::location::ElementLocation;
use crate::outcome::Outcome;
use crate::output_mode::OutputMode;
use crate::sink::Sink;
use crate::value_path::ValuePath;
use handlebars_base::error::RenderError;
use handlebars_base::json::value::{Json, JsonRender};
use handlebars_base::output::{Output, output_error};
use handlebars_expand::boxed::BoxedError;
use handlebars_expand::registered::Registered;
use handlebars_helpers::escape::Escaping;
use handlebars_scope::line::LineState;
use std::alloc::Global;

/// Writes a text with no indentation, and updates the state of the line.
///
/// # Errors
///
/// Fails if the output does, or if memory runs out. The line is then unchanged. A prefix of the text may have been written.
pub fn indent_aware_write<O: Output>(
    text: &str,
    line: &mut LineState,
    out: &mut O,
) -> Result<(), RenderError>
    ensures puts { (s : State) → s.indent ≡ None → s.line ≡ line_of line.old
        → PutsText text.now O.may_give (moment_at s (text_only (O.held out.old))) result
        (moment_at (with_line (line_of line.new) s) (text_only (O.held out.new))) }
    ensures unchanged { OnErr result (line.new ≡ line.old) }
{
    match out.write(text) {
        Ok(()) => {
            *line = line.after(text);
            Ok(())
        }
        Err(write_error) => Err(output_error(write_error)),
    }
}

/// Writes a value under the indentation in force, rendered, and if `escapes` is set escaped as the registry says. A caller
/// passes null for a missing value, and nothing is written for it, unless a user-defined escape function answers otherwise.
///
/// # Errors
///
/// Fails if the user-defined escape function or the output does, or if memory runs out; on failure a prefix may have been
/// written, and the line is unchanged.
#[inline(always)]
pub fn write_value<O, T: OutputMode<O>, P: Registered, L: ValuePath>(
    parts: &P,
    at: ElementLocation<'_>,
    escapes: bool,
    value: &Json,
    path: &L,
    line: &mut LineState,
    sink: &mut Sink<'_, O, T>,
) -> Outcome
    ensures shows { ShowsValue (P.parts parts.now) T.mode at.entry escapes
        (λ found. rendered_if_any (present_in found) ≡ rendered (view value.now)) (L.names path.now) line sink result }
    ensures same { IsSame sink.old sink.new }
    ensures unchanged { IsLineUnchanged line result }
{
    match entities_by(parts.escape(), escapes) {
        Some(entities) => T::put_value(at, entities, escapes, value, path, line, sink),
        None => show_by_user(parts, at, value, path, line, sink),
    }
}

// Whether entities are written, if no escape function has to be asked.
#[inline(always)]
fn entities_by(escaping: Escaping, escapes: bool) -> Option<bool>
    ensures { result ≡ entities_by (escaping_of escaping) escapes }
{
    match escaping {
        Escaping::Html => Some(escapes),
        Escaping::Plain => Some(false),
        Escaping::User => { if escapes { None } else { Some(false) } }
    }
}

// Writes what the user-defined escape function answers for a value.
#[inline(never)]
fn show_by_user<O, T: OutputMode<O>, P: Registered, L: ValuePath>(
    parts: &P,
    at: ElementLocation<'_>,
    value: &Json,
    path: &L,
    line: &mut LineState,
    sink: &mut Sink<'_, O, T>,
) -> Outcome
    ensures shows { by_user ≡ (P.parts parts.now).escape → ShowsValue (P.parts parts.now) T.mode at.entry true
        (λ found. rendered_if_any (present_in found) ≡ rendered (view value.now)) (L.names path.now) line sink result }
    ensures same { IsSame sink.old sink.new }
    ensures unchanged { IsLineUnchanged line result }
{
    match escaped(parts, at.surroundings.placement.alloc, value) {
        Ok(text) => T::put_escaped(at, text.as_str(), path, line, sink),
        Err(e) => Outcome::from(BoxedError::new(at.surroundings.placement.alloc, e)),
    }
}

// What the user-defined escape function answers for the whole text of a value. It is asked once, also where that is empty.
fn escaped<P: Registered>(parts: &P, alloc: Global, value: &Json) -> Result<String, RenderError>
    ensures { IsOneOf ((P.parts parts.now).user_escape (rendered (view value.now))) string_bytes result }
{
    let text = value.render(alloc)?;
    parts.escaped(text.as_str())
}
