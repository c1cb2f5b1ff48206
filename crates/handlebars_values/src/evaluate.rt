//! The values that built-in helpers are called with, in the order in which they are evaluated. Only what a helper decides by lasts.

ghost use Rattle.std.specs.Prelude.{◌≡◌, [], IfOk, IfSome, drop, map, option_map};
ghost use Rattle.serde_json.specs.View.{view};
ghost use Rattle.handlebars_helpers.specs.CallView.{HelperView};
ghost use Rattle.handlebars_helpers.specs.Choice.{kind_log, kind_raw};
ghost use Rattle.handlebars_helpers.specs.Choice.{includes_zero};
ghost use Rattle.handlebars_scope.specs.Contexts.{data_of};
ghost use Rattle.handlebars_template.specs.Tree.{call_args};
ghost use Rattle.handlebars_template.specs.TreeView.{call_view, hash_view, params_view};
ghost use Rattle.handlebars_semantics.specs.Values.{HashHasValues, HaveValues};
ghost use Rattle.handlebars_expand.specs.Boxed.{answer_of};
ghost use Rattle.handlebars_expand.specs.View.{Yields};
ghost use Rattle.handlebars_values.specs.BuiltIn.{AsksFor, Evaluates, HasBuiltInChoice, HasValueAt, found_in, kind_by_first, kind_by_truth, kind_by_two, passed_call, written_by, written_first};
ghost use Rattle.handlebars_values.specs.ChoiceView.{IsChoiceOf, choice_seen};
ghost use Rattle.handlebars_values.specs.Judgement.{InState};
ghost use Rattle.handlebars_values.specs.ParamView.{IsOf, value_found};
ghost use Rattle.handlebars_values.specs.Truths.{AddsTruths};

use crate::boolean::Truths;
use crate::built_in::{Asked, BuiltInChoice};
use crate::by_first::{ByFirst, decide_by_first, truth};
use crate::by_two::{ByTwo, decide_by_two};
use crate::environment::Environment;
use crate::expand::{expands, hash_values, params_values};
use crate::hash_argument::includes_zero;
use crate::log_line::decide_line;
use crate::param_value::ParamValue;
use crate::run::Run;
use handlebars_base::json::value::Json;
use handlebars_expand::boxed::BoxedError;
use handlebars_expand::registered::Registered;
use handlebars_template::template::{HelperTemplate, Parameter};
use std::collections::BTreeMap;

// ---- one value, and the values that are left

// Evaluates the value at an index among the constants and the parameters after them, if there is one.
#[cycle(value)]
#[inline(always)]
fn value_at<'v, P: Registered>(
    environment: &'v Environment<'v, 'v, P>,
    run: &Run,
    params: &'v Vec<Parameter>,
    constants: &[Json],
    index: usize,
) -> Result<Option<ParamValue<'v>>, BoxedError>
    ensures value { InState P.parts environment.now run.now (λ p s. Evaluates
        (HasValueAt p s (map view constants.now) params.now.items index)
        (λ o found. found_in o ≡ option_map value_found found) (answer_of result)) }
    ensures given { IfOk result (λ found. IfSome found (IsOf (data_of environment.now.innermost.given.now))) }
{
    if let Some(constant) = constants.get(index) {
        return Ok(Some(ParamValue::Computed(constant.clone()?)));
    }
    match params.get(index - constants.len()) {
        Some(parameter) => match expands(environment, run, parameter) {
            Ok(value) => Ok(Some(value)),
            Err(e) => Err(e),
        },
        None => Ok(None),
    }
}

// Evaluates the parameters from an index on, and drops their values.
#[cycle(value)]
#[inline(always)]
fn evaluate_from<'v, P: Registered>(
    environment: &'v Environment<'v, 'v, P>,
    run: &Run,
    params: &'v Vec<Parameter>,
    first: usize,
) -> Result<(), BoxedError>
    ensures { InState P.parts environment.now run.now (λ p s. Evaluates (HaveValues p s (params_view (drop first params.now.items)))
        (λ vs done. Unit {0}) (answer_of result)) }
{
    if first < params.len() {
        return evaluate_rest(environment, run, params, first);
    }
    Ok(())
}

#[cycle(value)]
#[inline(never)]
fn evaluate_rest<'v, P: Registered>(
    environment: &'v Environment<'v, 'v, P>,
    run: &Run,
    params: &'v Vec<Parameter>,
    first: usize,
) -> Result<(), BoxedError>
    ensures { InState P.parts environment.now run.now (λ p s. Evaluates (HaveValues p s (params_view (drop first params.now.items)))
        (λ vs done. Unit {0}) (answer_of result)) }
{
    for position in first..params.len() {
        expands(environment, run, &params[position])?;
    }
    Ok(())
}

// Evaluates the hash arguments. Returns whether 0 counts as true by them.
#[cycle(value)]
#[inline(always)]
fn zero_by<'v, P: Registered>(
    environment: &'v Environment<'v, 'v, P>,
    run: &Run,
    hash: &'v BTreeMap<String, Parameter>,
) -> Result<bool, BoxedError>
    ensures { InState P.parts environment.now run.now (λ p s. Evaluates (HashHasValues p s (hash_view hash.now.entries))
        (λ ws zero. zero ≡ includes_zero (passed_call ([], ws))) (answer_of result)) }
{
    if hash.is_empty() {
        return Ok(false);
    }
    zero_in(environment, run, hash)
}

#[cycle(value)]
#[inline(never)]
fn zero_in<'v, P: Registered>(
    environment: &'v Environment<'v, 'v, P>,
    run: &Run,
    hash: &'v BTreeMap<String, Parameter>,
) -> Result<bool, BoxedError>
    ensures { InState P.parts environment.now run.now (λ p s. Evaluates (HashHasValues p s (hash_view hash.now.entries))
        (λ ws zero. zero ≡ includes_zero (passed_call ([], ws))) (answer_of result)) }
{
    let hash = hash_values(environment, run, hash)?;
    Ok(includes_zero(&hash))
}

// Evaluates all parameters. Returns whether all values count as true, and whether some does, these and those so far.
#[cycle(value)]
fn truths<'v, P: Registered>(
    environment: &'v Environment<'v, 'v, P>,
    run: &Run,
    params: &'v Vec<Parameter>,
    so_far: Truths,
) -> Result<Truths, BoxedError>
    ensures { InState P.parts environment.now run.now (λ p s. Evaluates (HaveValues p s (params_view params.now.items))
        (λ vs all. AddsTruths so_far vs all) (answer_of result)) }
{
    let mut all = so_far;
    for parameter in params {
        let value = expands(environment, run, parameter)?;
        all = all.and(truth(&value, false));
    }
    Ok(all)
}

// ---- what helpers choose

/// Returns what a helper chooses that decides by its first value.
#[cycle(value)]
#[inline(always)]
pub(crate) fn choose_by_first<'v, P: Registered>(
    environment: &'v Environment<'v, 'v, P>,
    run: &Run,
    helper: &'v HelperTemplate,
    asked: Asked<'_>,
    by: ByFirst,
) -> Result<BuiltInChoice<'v>, BoxedError>
    ensures chooses { InState P.parts environment.now run.now (λ p s. (h : HelperView) → AsksFor asked.entry h → Yields
        (HasBuiltInChoice p s (kind_by_first by) (map view asked.entry.constants.now) (call_args (call_view helper.now)) h)
        choice_seen (answer_of result)) }
    ensures given { IfOk result (IsChoiceOf (data_of environment.now.innermost.given.now)) }
{
    let constants = asked.constants;
    let first = value_at(environment, run, &helper.params, constants, 0)?;
    evaluate_from(
        environment,
        run,
        &helper.params,
        1usize.saturating_sub(constants.len()),
    )?;
    let zero = zero_by(environment, run, &helper.hash)?;
    let inclusion = environment.inclusion;
    let written = first_parameter(&helper.params, constants);
    decide_by_first(
        inclusion.alloc,
        inclusion.parts.strict(),
        by,
        asked,
        written,
        zero,
        first,
    )
}

// The parameter that the first value is of. A constant is of none.
#[inline(always)]
fn first_parameter<'v>(params: &'v Vec<Parameter>, constants: &[Json]) -> Option<&'v Parameter>
    ensures { written_by result ≡ written_first (map view constants.now) params.now.items }
{
    if constants.is_empty() {
        params.first()
    } else {
        None
    }
}

/// Returns what a helper chooses that decides by its first two values.
#[cycle(value)]
#[inline(always)]
pub(crate) fn choose_by_two<'v, P: Registered>(
    environment: &'v Environment<'v, 'v, P>,
    run: &Run,
    helper: &'v HelperTemplate,
    asked: Asked<'_>,
    by: ByTwo,
) -> Result<BuiltInChoice<'v>, BoxedError>
    ensures chooses { InState P.parts environment.now run.now (λ p s. (h : HelperView) → Yields
        (HasBuiltInChoice p s (kind_by_two by) (map view asked.entry.constants.now) (call_args (call_view helper.now)) h)
        choice_seen (answer_of result)) }
    ensures given { IfOk result (IsChoiceOf (data_of environment.now.innermost.given.now)) }
{
    let constants = asked.constants;
    let first = value_at(environment, run, &helper.params, constants, 0)?;
    let second = value_at(environment, run, &helper.params, constants, 1)?;
    evaluate_from(
        environment,
        run,
        &helper.params,
        2usize.saturating_sub(constants.len()),
    )?;
    zero_by(environment, run, &helper.hash)?;
    let inclusion = environment.inclusion;
    decide_by_two(
        inclusion.alloc,
        inclusion.parts.strict(),
        by,
        inclusion.null,
        first,
        second,
    )
}

/// Returns what `and` chooses, or `or`.
#[cycle(value)]
pub(crate) fn choose_by_truth<'v, P: Registered>(
    environment: &'v Environment<'v, 'v, P>,
    run: &Run,
    helper: &'v HelperTemplate,
    asked: Asked<'_>,
    all: bool,
) -> Result<BuiltInChoice<'v>, BoxedError>
    ensures chooses { InState P.parts environment.now run.now (λ p s. (h : HelperView) → Yields
        (HasBuiltInChoice p s (kind_by_truth all) (map view asked.entry.constants.now) (call_args (call_view helper.now)) h)
        choice_seen (answer_of result)) }
    ensures given { IfOk result (IsChoiceOf (data_of environment.now.innermost.given.now)) }
{
    let truths = truths(
        environment,
        run,
        &helper.params,
        Truths::of(asked.constants),
    )?;
    zero_by(environment, run, &helper.hash)?;
    Ok(BuiltInChoice::Boolean(truths.holds(all)))
}

/// Returns what `raw` chooses.
#[cycle(value)]
pub(crate) fn choose_body<'v, P: Registered>(
    environment: &'v Environment<'v, 'v, P>,
    run: &Run,
    helper: &'v HelperTemplate,
    asked: Asked<'_>,
) -> Result<BuiltInChoice<'v>, BoxedError>
    ensures chooses { InState P.parts environment.now run.now (λ p s. (h : HelperView) → Yields
        (HasBuiltInChoice p s kind_raw (map view asked.entry.constants.now) (call_args (call_view helper.now)) h)
        choice_seen (answer_of result)) }
    ensures given { IfOk result (IsChoiceOf (data_of environment.now.innermost.given.now)) }
{
    evaluate_from(environment, run, &helper.params, 0)?;
    zero_by(environment, run, &helper.hash)?;
    Ok(BuiltInChoice::Body)
}

/// Returns what `log` chooses.
#[cycle(value)]
pub(crate) fn choose_line<'v, P: Registered>(
    environment: &'v Environment<'v, 'v, P>,
    run: &Run,
    helper: &'v HelperTemplate,
    asked: Asked<'_>,
) -> Result<BuiltInChoice<'v>, BoxedError>
    ensures chooses { InState P.parts environment.now run.now (λ p s. (h : HelperView) → Yields
        (HasBuiltInChoice p s kind_log (map view asked.entry.constants.now) (call_args (call_view helper.now)) h)
        choice_seen (answer_of result)) }
    ensures given { IfOk result (IsChoiceOf (data_of environment.now.innermost.given.now)) }
{
    let params = params_values(environment, run, &helper.params)?;
    let hash = hash_values(environment, run, &helper.hash)?;
    decide_line(
        environment.inclusion.alloc,
        asked.constants,
        params.as_slice(),
        &hash,
    )
}
