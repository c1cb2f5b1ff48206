//! Rendering calls: blocks, and expressions with parameters or hash arguments.

ghost use Rattle.std.specs.Prelude.{◌≡◌, ◌≢◌, ◌&&◌, Bool, IfOk, None, false, is_some, true};
ghost use Rattle.std.specs.Cow.{cow_str_bytes};
ghost use Rattle.handlebars_base.specs.Answers.{gives};
ghost use Rattle.handlebars_template.specs.Tree.{as_name, call_args, call_name, is_value};
ghost use Rattle.handlebars_template.specs.TreeView.{call_view, param_view};
ghost use Rattle.handlebars_scope.specs.Contexts.{data_of};
ghost use Rattle.handlebars_scope.specs.LineView.{line_of};
ghost use Rattle.handlebars_helpers.specs.CallView.{CallView};
ghost use Rattle.handlebars_semantics.specs.Execute.{view_with_bodies};
ghost use Rattle.handlebars_semantics.specs.Means.{render_call};
ghost use Rattle.handlebars_semantics.specs.Occurrences.{Occurrence};
ghost use Rattle.handlebars_semantics.specs.State.{helper_for};
ghost use Rattle.handlebars_semantics.specs.Values.{HasName};
ghost use Rattle.handlebars_expand.specs.Boxed.{answer_of};
ghost use Rattle.handlebars_expand.specs.Targets.{target_in};
ghost use Rattle.handlebars_values.specs.Judgement.{InState};
ghost use Rattle.handlebars_values.specs.View.{CapturedIn, within};
ghost use Rattle.handlebars_elements.specs.Judgement.{LeadsInCall, LeadsWith, Refines, Stays};
ghost use Rattle.handlebars_elements.specs.Left.{IsLeftWithoutHelper, IsNextIfCalled, IsNextOf, IsSectionIfLeft, left_in_call, left_of};
ghost use Rattle.handlebars_elements.specs.View.{KnowsLocation};
ghost use Rattle.handlebars_elements.specs.declared.next.Next.TheVariants.{Section};

use crate::bracket::{line_in, line_out};
use crate::chosen::{choose_for, error_after_arguments};
use crate::execute::execute;
use crate::iteration::{render_each, render_with};
use crate::next::Next;
use crate::section::render_section;
use crate::steps::take_steps;
use crate::tree::render_part;
use handlebars_expand::boxed::BoxedError;
use handlebars_expand::called::helper_not_found;
use handlebars_expand::registered::{Registered, Target};
use handlebars_template::template::{HelperTemplate, Parameter};
use handlebars_values::environment::Environment;
use handlebars_values::expand::expand_as_name;
use handlebars_values::run::Run;
use handlebars_values::target::helper_for;
use handlebars_write::location::ElementLocation;
use handlebars_write::outcome::Outcome;
use handlebars_write::output_mode::OutputMode;
use handlebars_write::sink::Sink;
use std::borrow::CowStr;

/// Renders a block, or an expression with parameters or hash arguments.
#[inline(never)]
#[cycle(render)]
pub fn render_call<'v, O, T: OutputMode<O>, P: Registered>(
    helper: &'v HelperTemplate,
    environment: &'v Environment<'v, 'v, P>,
    fuel: u64,
    at: ElementLocation<'v>,
    block: bool,
    run: &mut Run,
    sink: &mut Sink<'_, O, T>,
) -> Outcome
    ensures renders { (occurrence : Occurrence) → KnowsLocation T.mode.asks environment.now at.entry occurrence
        → Refines P.parts T.mode environment.now run sink result (render_call occurrence block (call_view helper.now)) }
    ensures stays { Stays run sink }
{
    let before = run.line;
    match settle_call(helper, environment, at, block, run, sink) {
        Ok(next) => {
            if is_section(&next) {
                return render_section(helper, environment, fuel, at, run, sink);
            }
            let outcome = render_next(helper, environment, fuel, at, next, run, sink);
            run.line = line_out(before, run.line);
            outcome
        }
        Err(e) => Outcome::from(e),
    }
}

// Returns whether a section is left.
#[inline(always)]
fn is_section(next: &Next<'_>) -> bool
    ensures section { result ≡ true → next.now ≡ Section }
    ensures other { result ≡ false → next.now ≢ Section }
{
    match next {
        Next::Section => true,
        Next::Nothing => false,
        Next::Body => false,
        Next::Inverse => false,
        Next::With(_) => false,
        Next::Each(_) => false,
        Next::Steps(_) => false,
    }
}

// Calls the helper of a block or of an expression, within the bracket of a call, and returns what is left to be rendered in the
// bracket. Of what may be a section all is left. It is not inlined, so that its caller, which recurses, takes no stack space for
// the locals of this function.
#[inline(never)]
fn settle_call<'v, O, T: OutputMode<O>, P: Registered>(
    helper: &'v HelperTemplate,
    environment: &'v Environment<'v, 'v, P>,
    at: ElementLocation<'_>,
    block: bool,
    run: &mut Run,
    sink: &mut Sink<'_, O, T>,
) -> Result<Next<'v>, BoxedError>
    ensures leads { (occurrence : Occurrence) → KnowsLocation T.mode.asks environment.now at.entry occurrence
        → (captured : CapturedIn (within environment.now)) → (v : CallView) × LeadsWith P.parts T.mode environment.now run sink result captured
        (render_call occurrence block (call_view helper.now))
        (left_in_call occurrence block (call_view helper.now) v (line_of run.old.line)) }
    ensures section { InState P.parts environment.now run.new (λ p s. IfOk result (IsSectionIfLeft p s block (call_view helper.now))) }
    ensures given { IfOk result (IsNextIfCalled (data_of environment.now.innermost.given.now)) }
    ensures stays { Stays run sink }
{
    let name = expand_as_name(environment, run, &helper.name)?;
    match helper_for(environment.inclusion.parts, run, block, name.as_str()) {
        Some(target) => settle_target(helper, environment, at, block, target, name, run, sink),
        None => settle_without_helper(helper, environment, block, name, run),
    }
}

/// Calls the target of a call by this name, within the bracket of a call. Returns what is left to be rendered in the bracket.
#[inline(always)]
pub(crate) fn settle_target<'v, O, T: OutputMode<O>, P: Registered>(
    helper: &'v HelperTemplate,
    environment: &'v Environment<'v, 'v, P>,
    at: ElementLocation<'_>,
    block: bool,
    target: Target,
    name: CowStr<'v>,
    run: &mut Run,
    sink: &mut Sink<'_, O, T>,
) -> Result<Next<'v>, BoxedError>
    ensures leads { (occurrence : Occurrence) → KnowsLocation T.mode.asks environment.now at.entry occurrence
        → (captured : CapturedIn (within environment.now))
        → LeadsInCall P.parts T.mode environment.now run sink captured occurrence block (call_view helper.now) (cow_str_bytes name.entry)
        (target_in block (cow_str_bytes name.entry) target) result }
    ensures given { IfOk result (IsNextOf (data_of environment.now.innermost.given.now)) }
    ensures stays { Stays run sink }
{
    let chosen = choose_for(helper, environment, block, target, name, run)?;
    run.line = line_in(run.line, helper.indent_before_write);
    execute(environment, at, block, chosen, run, sink)
}

// A call by a name without a helper may be a section. Otherwise it fails.
#[inline(never)]
fn settle_without_helper<'v, P: Registered>(
    helper: &'v HelperTemplate,
    environment: &'v Environment<'v, 'v, P>,
    block: bool,
    name: CowStr<'v>,
    run: &Run,
) -> Result<Next<'v>, BoxedError>
    ensures { InState P.parts environment.now run.now (λ p s. HasName p s (call_name (call_view helper.now)) (gives (cow_str_bytes name.entry))
        → helper_for p.parts s block (cow_str_bytes name.entry) ≡ None → IsLeftWithoutHelper p s block (call_view helper.now) (answer_of result)) }
{
    if may_be_section(helper, environment.inclusion.parts, block) {
        return Ok(Next::Section);
    }
    let error = helper_not_found(environment.inclusion.alloc, name.as_str());
    Err(error_after_arguments(helper, environment, name, run, error))
}

// Returns whether a call without a helper may be a section: it is one of a block without parameters and hash arguments, by a
// name or a path.
fn may_be_section<P: Registered>(helper: &HelperTemplate, parts: &P, block: bool) -> bool
    ensures { result ≡ ((P.parts parts.now).sections && (block && (is_value (call_view helper.now) && is_some (as_name (call_name (call_view helper.now)))))) }
{
    parts.sections() && block && helper.is_value() && is_named(&helper.name)
}

fn is_named(name: &Parameter) -> bool
    ensures { result ≡ is_some (as_name (param_view name.now)) }
{
    match name {
        Parameter::Name(_) => true,
        Parameter::Path(_) => true,
        Parameter::Literal(_) => false,
        Parameter::Subexpression(_) => false,
    }
}

/// Renders what is left of a call.
#[inline(always)]
#[cycle(render)]
pub fn render_next<'v, O, T: OutputMode<O>, P: Registered>(
    helper: &'v HelperTemplate,
    environment: &'v Environment<'v, 'v, P>,
    fuel: u64,
    at: ElementLocation<'v>,
    next: Next<'v>,
    run: &mut Run,
    sink: &mut Sink<'_, O, T>,
) -> Outcome
    requires given { IsNextOf (data_of environment.now.innermost.given.now) next }
    ensures renders { (occurrence : Occurrence) → KnowsLocation T.mode.asks environment.now at.entry occurrence → (block : Bool) (v : CallView)
        → Refines P.parts T.mode environment.now run sink result
        (left_of occurrence (view_with_bodies block (call_view helper.now) v) next.entry) }
    ensures stays { Stays run sink }
{
    match next {
        Next::Nothing => Outcome::Done,
        Next::Body => render_part(helper.template.as_ref(), environment, fuel, run, sink),
        Next::Inverse => render_part(helper.inverse.as_ref(), environment, fuel, run, sink),
        Next::With(value) => render_with(helper, environment, fuel, value, run, sink),
        Next::Each(value) => render_each(helper, environment, fuel, value, run, sink),
        Next::Steps(steps) => take_steps(helper, environment, fuel, at, steps, run, sink),
        Next::Section => Outcome::Done,
    }
}
