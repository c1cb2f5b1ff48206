//! Executing what helpers chose, as far as no body is rendered for it.

ghost use Rattle.std.specs.Prelude.{◌≡◌, Bool, Err, IfErr, IfOk, Ok};
ghost use Rattle.serde_json.specs.Data.{Data, number, unsigned};
ghost use Rattle.serde_json.specs.View.{view};
ghost use Rattle.handlebars_base.specs.Scoped.{data_in, value};
ghost use Rattle.handlebars_template.specs.Tree.{Call};
ghost use Rattle.handlebars_helpers.specs.CallView.{CallView};
ghost use Rattle.handlebars_semantics.specs.Execute.{execute, render_boolean, view_with_bodies};
ghost use Rattle.handlebars_semantics.specs.Occurrences.{Occurrence};
ghost use Rattle.handlebars_semantics.specs.Writing.{write_value};
ghost use Rattle.handlebars_expand.specs.Boxed.{error_of};
ghost use Rattle.handlebars_expand.specs.UserChoice.{user_choice_of};
ghost use Rattle.handlebars_values.specs.ChoiceView.{IsChoiceOf, choice_seen};
ghost use Rattle.handlebars_values.specs.ParamView.{value_found};
ghost use Rattle.handlebars_values.specs.View.{CapturedIn, within};
ghost use Rattle.handlebars_write.specs.OutcomeView.{outcome_answer};
ghost use Rattle.handlebars_elements.specs.Chosen.{IsChosenOf, chosen_of};
ghost use Rattle.handlebars_elements.specs.Judgement.{Leads, RefinesWith, Stays};
ghost use Rattle.handlebars_elements.specs.Left.{IsNextOf, left_of};
ghost use Rattle.handlebars_elements.specs.View.{KnowsLocation};
ghost use Rattle.handlebars_elements.specs.declared.next.Next.TheVariants as next;

use crate::chosen::Chosen;
use crate::next::Next;
use handlebars_base::json::value::Json;
use handlebars_expand::boxed::BoxedError;
use handlebars_expand::registered::Registered;
use handlebars_expand::user::UserChoice;
use handlebars_values::built_in::BuiltInChoice;
use handlebars_values::environment::Environment;
use handlebars_values::param_value::ParamValue;
use handlebars_values::run::Run;
use handlebars_write::location::ElementLocation;
use handlebars_write::outcome::Outcome;
use handlebars_write::output_mode::OutputMode;
use handlebars_write::sink::Sink;
use handlebars_write::value::write_value;
use handlebars_write::value_path::NoPath;
use serde_json::Number;

/// Executes what the callee of a call chose, as far as no body is rendered for it. Returns what is left.
#[inline(always)]
pub(crate) fn execute<'v, O, T: OutputMode<O>, P: Registered>(
    environment: &Environment<'_, '_, P>,
    at: ElementLocation<'_>,
    block: bool,
    chosen: Chosen<'v>,
    run: &mut Run,
    sink: &mut Sink<'_, O, T>,
) -> Result<Next<'v>, BoxedError>
    ensures leads { (occurrence : Occurrence) → KnowsLocation T.mode.asks environment.now at.entry occurrence → (c : Call) (v : CallView)
        → Leads P.parts T.mode environment.now run sink result (execute occurrence (view_with_bodies block c v) (chosen_of chosen.entry))
        (left_of occurrence (view_with_bodies block c v)) }
    ensures given { (d : Data) → IsChosenOf d chosen.entry → IfOk result (IsNextOf d) }
    ensures stays { Stays run sink }
{
    match chosen {
        Chosen::BuiltIn(choice) => execute_built_in(environment, at, block, choice, run, sink),
        Chosen::User(choice) => execute_user(environment, at, choice, run, sink),
    }
}

/// Executes what a built-in helper chose, as far as no body is rendered for it. Returns what is left.
#[inline(always)]
pub(crate) fn execute_built_in<'v, O, T: OutputMode<O>, P: Registered>(
    environment: &Environment<'_, '_, P>,
    at: ElementLocation<'_>,
    block: bool,
    choice: BuiltInChoice<'v>,
    run: &mut Run,
    sink: &mut Sink<'_, O, T>,
) -> Result<Next<'v>, BoxedError>
    ensures leads { (occurrence : Occurrence) → KnowsLocation T.mode.asks environment.now at.entry occurrence → (c : Call) (v : CallView)
        → Leads P.parts T.mode environment.now run sink result (execute occurrence (view_with_bodies block c v) (choice_seen choice.entry))
        (left_of occurrence (view_with_bodies block c v)) }
    ensures given { (d : Data) → IsChoiceOf d choice.entry → IfOk result (IsNextOf d) }
    ensures stays { Stays run sink }
{
    match choice {
        BuiltInChoice::Body => Ok(Next::Body),
        BuiltInChoice::Inverse => Ok(Next::Inverse),
        BuiltInChoice::With(value) => Ok(Next::With(value)),
        BuiltInChoice::Each(value) => Ok(Next::Each(value)),
        BuiltInChoice::Value(value) => done(write_found(environment, at, &value, run, sink)),
        BuiltInChoice::Count(count) => done(write_count(environment, at, count, run, sink)),
        BuiltInChoice::Boolean(boolean) => {
            execute_boolean(environment, at, block, boolean, run, sink)
        }
        BuiltInChoice::Line(level, text) => {
            environment.inclusion.parts.log(level, text.as_str());
            Ok(Next::Nothing)
        }
        BuiltInChoice::Nothing => Ok(Next::Nothing),
    }
}

// Executes what a user-defined helper chose, as far as no body is rendered for it. Returns what is left.
#[inline(never)]
fn execute_user<'v, O, T: OutputMode<O>, P: Registered>(
    environment: &Environment<'_, '_, P>,
    at: ElementLocation<'_>,
    choice: UserChoice,
    run: &mut Run,
    sink: &mut Sink<'_, O, T>,
) -> Result<Next<'v>, BoxedError>
    ensures leads { (occurrence : Occurrence) → KnowsLocation T.mode.asks environment.now at.entry occurrence → (block : Bool) (c : Call) (v : CallView)
        → Leads P.parts T.mode environment.now run sink result (execute occurrence (view_with_bodies block c v) (user_choice_of choice))
        (left_of occurrence (view_with_bodies block c v)) }
    ensures given { (d : Data) → IfOk result (IsNextOf d) }
    ensures stays { Stays run sink }
{
    match choice {
        UserChoice::Steps(steps) => Ok(Next::Steps(steps)),
        UserChoice::Value(value) => done(write_json(environment, at, &value, run, sink)),
        UserChoice::Nothing => Ok(Next::Nothing),
    }
}

// After a write nothing is left to be rendered.
fn done<'v>(outcome: Outcome) -> Result<Next<'v>, BoxedError>
    ensures ok { IfOk result (λ x. (x ≡ next.Nothing) × (outcome_answer outcome ≡ Ok tt)) }
    ensures err { IfErr result (λ e. outcome_answer outcome ≡ Err (error_of e)) }
{
    match outcome {
        Outcome::Done => Ok(Next::Nothing),
        Outcome::OutOfMemory => Err(BoxedError::OutOfMemory),
        Outcome::Error(e) => Err(BoxedError::Error(e)),
    }
}

// Writes a value that a helper chose, or null if it is missing, without its path.
#[inline(never)]
fn write_found<O, T: OutputMode<O>, P: Registered>(
    environment: &Environment<'_, '_, P>,
    at: ElementLocation<'_>,
    found: &ParamValue<'_>,
    run: &mut Run,
    sink: &mut Sink<'_, O, T>,
) -> Outcome
    ensures writes { (occurrence : Occurrence) → KnowsLocation T.mode.asks environment.now at.entry occurrence
        → (captured : CapturedIn (within environment.now))
        → RefinesWith P.parts T.mode environment.now run sink (outcome_answer result) captured (write_value occurrence (value (data_in (value_found found.now)))) }
    ensures stays { Stays run sink }
{
    match found.as_json() {
        Some(json) => write_json(environment, at, json, run, sink),
        None => write_json(
            environment,
            at,
            environment.inclusion.null.value(),
            run,
            sink,
        ),
    }
}

// Writes a number that a helper chose.
#[inline(never)]
fn write_count<O, T: OutputMode<O>, P: Registered>(
    environment: &Environment<'_, '_, P>,
    at: ElementLocation<'_>,
    count: usize,
    run: &mut Run,
    sink: &mut Sink<'_, O, T>,
) -> Outcome
    ensures writes { (occurrence : Occurrence) → KnowsLocation T.mode.asks environment.now at.entry occurrence
        → (captured : CapturedIn (within environment.now))
        → RefinesWith P.parts T.mode environment.now run sink (outcome_answer result) captured (write_value occurrence (value (number (unsigned count)))) }
    ensures stays { Stays run sink }
{
    let json = Json::Number(Number::from(count));
    write_json(environment, at, &json, run, sink)
}

// Writes a value that has no path.
fn write_json<O, T: OutputMode<O>, P: Registered>(
    environment: &Environment<'_, '_, P>,
    at: ElementLocation<'_>,
    json: &Json,
    run: &mut Run,
    sink: &mut Sink<'_, O, T>,
) -> Outcome
    ensures writes { (occurrence : Occurrence) → KnowsLocation T.mode.asks environment.now at.entry occurrence
        → (captured : CapturedIn (within environment.now))
        → RefinesWith P.parts T.mode environment.now run sink (outcome_answer result) captured (write_value occurrence (value (view json.now))) }
    ensures stays { Stays run sink }
{
    let escapes = run.escapes;
    write_value(
        environment.inclusion.parts,
        at,
        escapes,
        json,
        &NoPath,
        &mut run.line,
        sink,
    )
}

// Writes the text of a boolean helper. A block renders its body or its inverse by the boolean instead.
#[inline(never)]
fn execute_boolean<'v, O, T: OutputMode<O>, P: Registered>(
    environment: &Environment<'_, '_, P>,
    at: ElementLocation<'_>,
    block: bool,
    boolean: bool,
    run: &mut Run,
    sink: &mut Sink<'_, O, T>,
) -> Result<Next<'v>, BoxedError>
    ensures leads { (occurrence : Occurrence) → KnowsLocation T.mode.asks environment.now at.entry occurrence → (c : Call) (v : CallView)
        → Leads P.parts T.mode environment.now run sink result (render_boolean occurrence (view_with_bodies block c v) block boolean)
        (left_of occurrence (view_with_bodies block c v)) }
    ensures given { (d : Data) → IfOk result (IsNextOf d) }
    ensures stays { Stays run sink }
{
    if !block {
        return done(T::put_boolean(at, boolean, sink));
    }
    if boolean {
        Ok(Next::Body)
    } else {
        Ok(Next::Inverse)
    }
}
