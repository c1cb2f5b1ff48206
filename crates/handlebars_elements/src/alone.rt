//! Expressions with no parameters and no hash arguments: each calls the helper of its name, or is a value.

ghost use Rattle.std.specs.Prelude.{◌≡◌, IfOk, None, false, true};
ghost use Rattle.std.specs.Cow.{cow_str_bytes};
ghost use Rattle.serde_json.specs.View.{view};
ghost use Rattle.handlebars_base.specs.Answers.{gives};
ghost use Rattle.handlebars_base.specs.PathView.{reference_of};
ghost use Rattle.handlebars_base.specs.Scoped.{missing, path_in};
ghost use Rattle.handlebars_template.specs.Tree as tree;
ghost use Rattle.handlebars_template.specs.Tree.{call_args, call_name, is_value};
ghost use Rattle.handlebars_template.specs.TreeView.{call_view, subexpression_view};
ghost use Rattle.handlebars_scope.specs.Contexts.{data_of};
ghost use Rattle.handlebars_semantics.specs.Execute.{view_with_bodies};
ghost use Rattle.handlebars_semantics.specs.Means.{render_found, render_helped, render_lone};
ghost use Rattle.handlebars_semantics.specs.Occurrences.{Occurrence};
ghost use Rattle.handlebars_semantics.specs.Values.{HasName, HasValue, callee_name};
ghost use Rattle.handlebars_expand.specs.Targets.{target_in};
ghost use Rattle.handlebars_expand.specs.View.{name_alone};
ghost use Rattle.handlebars_values.specs.ParamView.{value_found};
ghost use Rattle.handlebars_values.specs.View.{CapturedIn, setting_in, state_with, within};
ghost use Rattle.handlebars_write.specs.OutcomeView.{outcome_answer};
ghost use Rattle.handlebars_elements.specs.Judgement.{Leads, Refines, RefinesWith, Stays};
ghost use Rattle.handlebars_elements.specs.Left.{IsNextOf, left_of};
ghost use Rattle.handlebars_elements.specs.View.{Captures, KnowsLocation};

use crate::bracket::line_out;
use crate::call::{render_next, settle_target};
use crate::chosen::choose_for;
use crate::error::missing_variable;
use crate::execute::execute;
use crate::found::{Written, write_path};
use crate::next::Next;
use handlebars_base::json::path::Path;
use handlebars_base::json::value::Json;
use handlebars_expand::boxed::BoxedError;
use handlebars_expand::registered::{Registered, Target, hook, hooked};
use handlebars_template::template::{HelperTemplate, Parameter, Subexpression};
use handlebars_values::environment::Environment;
use handlebars_values::expand::inner_value;
use handlebars_values::param_value::ParamValue;
use handlebars_values::run::Run;
use handlebars_values::target::helper_named;
use handlebars_write::location::ElementLocation;
use handlebars_write::outcome::Outcome;
use handlebars_write::output_mode::OutputMode;
use handlebars_write::sink::Sink;
use handlebars_write::value::write_value;
use handlebars_write::value_path::NoPath;
use std::borrow::CowStr;

/// Renders an expression with no parameters and no hash arguments.
#[inline(always)]
#[cycle(render)]
pub fn render_lone_element<'v, O, T: OutputMode<O>, P: Registered>(
    helper: &'v HelperTemplate,
    environment: &'v Environment<'v, 'v, P>,
    fuel: u64,
    at: ElementLocation<'v>,
    run: &mut Run,
    sink: &mut Sink<'_, O, T>,
) -> Outcome
    ensures renders { (occurrence : Occurrence) → KnowsLocation T.mode.asks environment.now at.entry occurrence → is_value (call_view helper.now) ≡ true → Refines P.parts T.mode environment.now run sink result
        (render_lone occurrence (call_view helper.now)) }
    ensures stays { Stays run sink }
{
    match &helper.name {
        Parameter::Path(path) => render_path(helper, environment, fuel, at, path, run, sink),
        Parameter::Name(text) => {
            render_named(
                helper,
                environment,
                fuel,
                at,
                CowStr::Borrowed(text.as_str()),
                run,
                sink,
            )
        }
        Parameter::Literal(value) => {
            render_literal(helper, environment, fuel, at, value, run, sink)
        }
        Parameter::Subexpression(inner) => {
            render_inner(helper, environment, fuel, at, inner, run, sink)
        }
    }
}

// Renders a path. Most paths lead to a value, for which nothing is built.
#[inline(always)]
#[cycle(render)]
fn render_path<'v, O, T: OutputMode<O>, P: Registered>(
    helper: &'v HelperTemplate,
    environment: &'v Environment<'v, 'v, P>,
    fuel: u64,
    at: ElementLocation<'v>,
    path: &'v Path,
    run: &mut Run,
    sink: &mut Sink<'_, O, T>,
) -> Outcome
    ensures renders { (occurrence : Occurrence) → KnowsLocation T.mode.asks environment.now at.entry occurrence → is_value (call_view helper.now) ≡ true → call_name (call_view helper.now) ≡ tree.path (reference_of path.now)
        → Refines P.parts T.mode environment.now run sink result
        (render_lone occurrence (call_view helper.now)) }
    ensures stays { Stays run sink }
{
    let name = path.raw();
    match helper_named(environment.inclusion.parts, run, name) {
        Some(target) => {
            render_target(
                helper,
                environment,
                fuel,
                at,
                target,
                CowStr::Borrowed(name),
                run,
                sink,
            )
        }
        None => match write_path(environment, path, at, run, sink) {
            Written::Done => Outcome::Done,
            Written::Missing => {
                render_missing(
                    helper,
                    environment,
                    fuel,
                    at,
                    CowStr::Borrowed(name),
                    run,
                    sink,
                )
            }
            Written::OutOfMemory => Outcome::OutOfMemory,
            Written::Error(e) => Outcome::Error(e),
        },
    }
}

// Renders a literal. Neither this nor `render_inner` is inlined, so that `render_tree`, which recurses, takes no stack space for
// their locals.
#[inline(never)]
#[cycle(render)]
fn render_literal<'v, O, T: OutputMode<O>, P: Registered>(
    helper: &'v HelperTemplate,
    environment: &'v Environment<'v, 'v, P>,
    fuel: u64,
    at: ElementLocation<'v>,
    value: &'v Json,
    run: &mut Run,
    sink: &mut Sink<'_, O, T>,
) -> Outcome
    ensures renders { (occurrence : Occurrence) → KnowsLocation T.mode.asks environment.now at.entry occurrence → is_value (call_view helper.now) ≡ true → call_name (call_view helper.now) ≡ tree.literal (view value.now)
        → Refines P.parts T.mode environment.now run sink result
        (render_lone occurrence (call_view helper.now)) }
    ensures stays { Stays run sink }
{
    let value = ParamValue::Literal(value);
    render_value(helper, environment, fuel, at, value, run, sink)
}

// Renders a call in parentheses.
#[inline(never)]
#[cycle(render)]
fn render_inner<'v, O, T: OutputMode<O>, P: Registered>(
    helper: &'v HelperTemplate,
    environment: &'v Environment<'v, 'v, P>,
    fuel: u64,
    at: ElementLocation<'v>,
    inner: &'v Subexpression,
    run: &mut Run,
    sink: &mut Sink<'_, O, T>,
) -> Outcome
    ensures renders { (occurrence : Occurrence) → KnowsLocation T.mode.asks environment.now at.entry occurrence → is_value (call_view helper.now) ≡ true → call_name (call_view helper.now) ≡ tree.subexpression (subexpression_view inner.now)
        → Refines P.parts T.mode environment.now run sink result
        (render_lone occurrence (call_view helper.now)) }
    ensures stays { Stays run sink }
{
    match inner_value(environment, run, inner) {
        Ok(value) => render_value(helper, environment, fuel, at, value, run, sink),
        Err(e) => Outcome::from(e),
    }
}

// Renders a name that is no path, and so has no value.
#[inline(never)]
#[cycle(render)]
fn render_named<'v, O, T: OutputMode<O>, P: Registered>(
    helper: &'v HelperTemplate,
    environment: &'v Environment<'v, 'v, P>,
    fuel: u64,
    at: ElementLocation<'v>,
    name: CowStr<'v>,
    run: &mut Run,
    sink: &mut Sink<'_, O, T>,
) -> Outcome
    ensures renders { (occurrence : Occurrence) → KnowsLocation T.mode.asks environment.now at.entry occurrence → is_value (call_view helper.now) ≡ true → call_name (call_view helper.now) ≡ tree.name (cow_str_bytes name.entry)
        → Refines P.parts T.mode environment.now run sink result
        (render_lone occurrence (call_view helper.now)) }
    ensures stays { Stays run sink }
{
    match helper_named(environment.inclusion.parts, run, name.as_str()) {
        Some(target) => render_target(helper, environment, fuel, at, target, name, run, sink),
        None => render_missing(helper, environment, fuel, at, name, run, sink),
    }
}

// Renders a literal, or a call in parentheses that was evaluated once: its text is the name. The value has no path.
#[inline(never)]
#[cycle(render)]
fn render_value<'v, O, T: OutputMode<O>, P: Registered>(
    helper: &'v HelperTemplate,
    environment: &'v Environment<'v, 'v, P>,
    fuel: u64,
    at: ElementLocation<'v>,
    value: ParamValue<'v>,
    run: &mut Run,
    sink: &mut Sink<'_, O, T>,
) -> Outcome
    ensures renders { (occurrence : Occurrence) → KnowsLocation T.mode.asks environment.now at.entry occurrence → is_value (call_view helper.now) ≡ true → (captured : CapturedIn (within environment.now)) → Captures T.mode.asks captured →
        HasName (setting_in P.parts environment.now) (state_with captured run.old) (call_name (call_view helper.now)) (gives (callee_name (value_found value.entry)))
        → HasValue (setting_in P.parts environment.now) (state_with captured run.old) (call_name (call_view helper.now)) (gives (value_found value.entry))
        → path_in (value_found value.entry) ≡ None → RefinesWith P.parts T.mode environment.now run sink (outcome_answer result) captured
        (render_lone occurrence (call_view helper.now)) }
    ensures stays { Stays run sink }
{
    let Ok(name) = value.render(environment.inclusion.alloc) else {
        return Outcome::OutOfMemory;
    };
    match helper_named(environment.inclusion.parts, run, name.as_str()) {
        Some(target) => {
            render_target(
                helper,
                environment,
                fuel,
                at,
                target,
                CowStr::Owned(name),
                run,
                sink,
            )
        }
        None => match value.as_json() {
            Some(json) => {
                let escapes = run.escapes;
                write_value(
                    environment.inclusion.parts,
                    at,
                    escapes,
                    json,
                    &NoPath,
                    &mut run.line,
                    sink,
                )
            }
            None => render_missing(
                helper,
                environment,
                fuel,
                at,
                CowStr::Owned(name),
                run,
                sink,
            ),
        },
    }
}

// Calls the helper of a name, without parameters, in the bracket of a call.
#[inline(never)]
#[cycle(render)]
fn render_target<'v, O, T: OutputMode<O>, P: Registered>(
    helper: &'v HelperTemplate,
    environment: &'v Environment<'v, 'v, P>,
    fuel: u64,
    at: ElementLocation<'v>,
    target: Target,
    name: CowStr<'v>,
    run: &mut Run,
    sink: &mut Sink<'_, O, T>,
) -> Outcome
    ensures renders { (occurrence : Occurrence) → KnowsLocation T.mode.asks environment.now at.entry occurrence
        → is_value (call_view helper.now) ≡ true → (captured : CapturedIn (within environment.now)) → Captures T.mode.asks captured
        → HasName (setting_in P.parts environment.now) (state_with captured run.old) (call_name (call_view helper.now)) (gives (cow_str_bytes name.entry))
        → RefinesWith P.parts T.mode environment.now run sink (outcome_answer result) captured
        (render_helped occurrence false (call_view helper.now) (target_in false (cow_str_bytes name.entry) target) (name_alone (cow_str_bytes name.entry))) }
    ensures stays { Stays run sink }
{
    let before = run.line;
    match settle_target(helper, environment, at, false, target, name, run, sink) {
        Ok(next) => {
            let outcome = render_next(helper, environment, fuel, at, next, run, sink);
            run.line = line_out(before, run.line);
            outcome
        }
        Err(e) => Outcome::from(e),
    }
}

// Renders a missing value. It fails in strict mode; otherwise the hook is called, if there is one, without a bracket.
#[inline(never)]
#[cycle(render)]
fn render_missing<'v, O, T: OutputMode<O>, P: Registered>(
    helper: &'v HelperTemplate,
    environment: &'v Environment<'v, 'v, P>,
    fuel: u64,
    at: ElementLocation<'v>,
    name: CowStr<'v>,
    run: &mut Run,
    sink: &mut Sink<'_, O, T>,
) -> Outcome
    ensures renders { (occurrence : Occurrence) → KnowsLocation T.mode.asks environment.now at.entry occurrence
        → is_value (call_view helper.now) ≡ true → Refines P.parts T.mode environment.now run sink result
        (render_found occurrence (call_view helper.now) (name_alone (cow_str_bytes name.entry)) missing) }
    ensures stays { Stays run sink }
{
    match settle_missing(helper, environment, at, name, run, sink) {
        Ok(next) => render_next(helper, environment, fuel, at, next, run, sink),
        Err(e) => Outcome::from(e),
    }
}

// Calls the hook for a missing value, if there is one, and returns what is left to be rendered. In strict mode it fails with
// `MissingVariable` instead.
#[inline(never)]
fn settle_missing<'v, O, T: OutputMode<O>, P: Registered>(
    helper: &'v HelperTemplate,
    environment: &'v Environment<'v, 'v, P>,
    at: ElementLocation<'_>,
    name: CowStr<'v>,
    run: &mut Run,
    sink: &mut Sink<'_, O, T>,
) -> Result<Next<'v>, BoxedError>
    ensures leads { (occurrence : Occurrence) → KnowsLocation T.mode.asks environment.now at.entry occurrence
        → is_value (call_view helper.now) ≡ true → Leads P.parts T.mode environment.now run sink result
        (render_found occurrence (call_view helper.now) (name_alone (cow_str_bytes name.entry)) missing)
        (left_of occurrence (view_with_bodies false (call_view helper.now) (name_alone (cow_str_bytes name.entry)))) }
    ensures given { IfOk result (IsNextOf (data_of environment.now.innermost.given.now)) }
    ensures stays { Stays run sink }
{
    if environment.inclusion.parts.strict() {
        return Err(missing_variable(environment.inclusion.alloc, &helper.name));
    }
    match environment.inclusion.parts.helper(hook(false)) {
        Some(callee) => {
            let chosen = choose_for(helper, environment, false, hooked(callee), name, run)?;
            execute(environment, at, false, chosen, run, sink)
        }
        None => Ok(Next::Nothing),
    }
}
