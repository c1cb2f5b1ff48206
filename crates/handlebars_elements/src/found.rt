//! Writing what a path leads to.

ghost use Rattle.std.specs.Prelude.{◌≡◌, Err, None, Some};
ghost use Rattle.handlebars_base.specs.PathView.{reference_of};
ghost use Rattle.handlebars_base.specs.Scoped.{missing, present_in};
ghost use Rattle.handlebars_base.specs.Values.{rendered};
ghost use Rattle.handlebars_template.specs.Tree as tree;
ghost use Rattle.handlebars_template.specs.Tree.{Call, call_name};
ghost use Rattle.handlebars_helpers.specs.CallView.{CallView};
ghost use Rattle.handlebars_layers.specs.FrameValues.{value_data};
ghost use Rattle.handlebars_layers.specs.Reached.{reached_names};
ghost use Rattle.handlebars_semantics.specs.Means.{render_found, render_lone_as};
ghost use Rattle.handlebars_semantics.specs.Occurrences.{Occurrence};
ghost use Rattle.handlebars_semantics.specs.Writing.{rendered_if_any};
ghost use Rattle.handlebars_expand.specs.Boxed.{error_of};
ghost use Rattle.handlebars_values.specs.View.{CapturedIn, setting_in, within};
ghost use Rattle.handlebars_write.specs.ModeClauses.{IsLineUnchanged};
ghost use Rattle.handlebars_write.specs.OutcomeView.{outcome_answer};
ghost use Rattle.handlebars_write.specs.Shows.{ShowsValue};
ghost use Rattle.handlebars_write.specs.View.{IsSame, held_in};
ghost use Rattle.handlebars_elements.specs.Judgement.{ComesTo, Stays, written_answer};
ghost use Rattle.handlebars_elements.specs.View.{KnowsLocation, moment};

use handlebars_base::error::RenderError;
use handlebars_base::json::path::Path;
use handlebars_expand::boxed::BoxedError;
use handlebars_expand::registered::Registered;
use handlebars_layers::destination::{Destination, FrameValue, Reached};
use handlebars_layers::full_path::FullPath;
use handlebars_layers::made::json_of;
use handlebars_scope::line::LineState;
use handlebars_values::environment::Environment;
use handlebars_values::find::{look, not_an_index};
use handlebars_values::run::Run;
use handlebars_write::location::ElementLocation;
use handlebars_write::outcome::Outcome;
use handlebars_write::output_mode::OutputMode;
use handlebars_write::sink::Sink;
use handlebars_write::value::write_value;
use handlebars_write::value_path::{NoPath, ValuePath};
use std::alloc::AllocError;

// The path of a value of the data, by how it was reached. Its names are made only where an output asks for them.
#[derive(Clone, Copy)]
struct ReachedPath<'r>(Reached<'r>);

impl<'r> ValuePath for ReachedPath<'r> {
    ghost names = { λ path. Some (reached_names path.0) };

    fn path(&self) -> Option<FullPath<'_>> {
        Some(FullPath::reached(self.0))
    }
}

/// What writing the value of a path came to. It takes two machine words, as an outcome does.
#[derive(Drop)]
pub enum Written {
    Done,
    /// The path leads to no value. Nothing was written.
    Missing,
    OutOfMemory,
    Error(Box<RenderError>),
}

/// Writes what a path leads to. It is only borrowed, even if a scope frame holds it.
#[inline(never)]
pub(crate) fn write_path<'v, O, T: OutputMode<O>, P: Registered>(
    environment: &'v Environment<'v, 'v, P>,
    path: &'v Path,
    at: ElementLocation<'_>,
    run: &mut Run,
    sink: &mut Sink<'_, O, T>,
) -> Written
    ensures writes { (occurrence : Occurrence) → KnowsLocation T.mode.asks environment.now at.entry occurrence → (c : Call) (v : CallView)
        → call_name c ≡ tree.path (reference_of path.now) → (captured : CapturedIn (within environment.now))
        → ComesTo (setting_in P.parts environment.now) T.mode.may_give (render_lone_as occurrence c v None)
        (render_found occurrence c v missing) (moment captured run.old (held_in T.mode sink.old)) (written_answer result)
        (moment captured run.new (held_in T.mode sink.new)) }
    ensures stays { Stays run sink }
{
    let mut line = run.line;
    let written = write_sought(environment, path, at, &*run, &mut line, sink);
    run.line = line;
    written
}

// Writes what a path leads to, in a run that is only read. The state of its line is given apart, and changed there.
#[inline(always)]
fn write_sought<'v, O, T: OutputMode<O>, P: Registered>(
    environment: &'v Environment<'v, 'v, P>,
    path: &'v Path,
    at: ElementLocation<'_>,
    run: &Run,
    line: &mut LineState,
    sink: &mut Sink<'_, O, T>,
) -> Written
    ensures writes { (occurrence : Occurrence) → KnowsLocation T.mode.asks environment.now at.entry occurrence → (c : Call) (v : CallView)
        → call_name c ≡ tree.path (reference_of path.now) → line.old ≡ run.now.line → (captured : CapturedIn (within environment.now))
        → ComesTo (setting_in P.parts environment.now) T.mode.may_give (render_lone_as occurrence c v None)
        (render_found occurrence c v missing) (moment captured run.now (held_in T.mode sink.old)) (written_answer result)
        (moment captured (record run.now { line = line.new }) (held_in T.mode sink.new)) }
    ensures same { IsSame sink.old sink.new }
{
    let parts = environment.inclusion.parts;
    let alloc = environment.inclusion.alloc;
    let escapes = run.escapes;
    match look(environment, run, path) {
        Ok(Destination::Node(value)) => {
            let innermost = &environment.innermost;
            let path = ReachedPath(Reached::new(value, innermost, path, run.recursive_lookup));
            written_by(write_value(parts, at, escapes, value, &path, line, sink))
        }
        Ok(Destination::Value(FrameValue::Json(value))) => {
            written_by(write_value(parts, at, escapes, value, &NoPath, line, sink))
        }
        Ok(Destination::Value(variable)) => {
            written_by(write_variable(environment, variable, at, escapes, line, sink))
        }
        Ok(Destination::Nothing) => Written::Missing,
        Ok(Destination::NoIndex(name)) => failed(not_an_index(alloc, name)),
        Err(e) => failed(e),
    }
}

// Writes a variable of an iteration.
#[inline(never)]
fn write_variable<O, T: OutputMode<O>, P: Registered>(
    environment: &Environment<P>,
    variable: FrameValue<'_>,
    at: ElementLocation<'_>,
    escapes: bool,
    line: &mut LineState,
    sink: &mut Sink<'_, O, T>,
) -> Outcome
    ensures shows { ShowsValue (P.parts environment.now.inclusion.now.parts.now) T.mode at.entry escapes
        (λ found. rendered_if_any (present_in found) ≡ rendered (value_data variable.entry)) None line sink result }
    ensures same { IsSame sink.old sink.new }
    ensures unchanged { IsLineUnchanged line result }
{
    match json_of(variable, environment.inclusion.alloc) {
        Ok(value) => write_value(
            environment.inclusion.parts,
            at,
            escapes,
            &value,
            &NoPath,
            line,
            sink,
        ),
        Err(AllocError) => Outcome::OutOfMemory,
    }
}

#[inline(always)]
fn written_by(outcome: Outcome) -> Written
    ensures { written_answer result ≡ Some (outcome_answer outcome) }
{
    match outcome {
        Outcome::Done => Written::Done,
        Outcome::OutOfMemory => Written::OutOfMemory,
        Outcome::Error(e) => Written::Error(e),
    }
}

#[inline(always)]
fn failed(e: BoxedError) -> Written
    ensures { written_answer result ≡ Some (Err (error_of e)) }
{
    match e {
        BoxedError::OutOfMemory => Written::OutOfMemory,
        BoxedError::Error(e) => Written::Error(e),
    }
}
