//! What built-in helpers decide by their first two values, once all that they are called with is evaluated.

ghost use Rattle.std.specs.Prelude.{◌≡◌, IfOk, None, option_map};
ghost use Rattle.serde_json.specs.Data.{Data};
ghost use Rattle.serde_json.specs.View.{view};
ghost use Rattle.handlebars_base.specs.Answers.{Answers, IsRefusal};
ghost use Rattle.handlebars_base.specs.Reasons.{missing_variable};
ghost use Rattle.handlebars_base.specs.RenderRefusals.{plain_refusal};
ghost use Rattle.handlebars_base.specs.Scoped.{data_in, present_in};
ghost use Rattle.handlebars_helpers.specs.Choice.{looked_up};
ghost use Rattle.handlebars_expand.specs.Boxed.{answer_of, error_of};
ghost use Rattle.handlebars_values.specs.BuiltIn.{data_or_null, decided_by_two, picked_choice, required_data};
ghost use Rattle.handlebars_values.specs.ChoiceView.{IsChoiceOf, choice_seen};
ghost use Rattle.handlebars_values.specs.ParamView.{value_found};
ghost use Rattle.handlebars_values.specs.declared.by_two.ByTwo.TheVariants as by;

use crate::boolean::Test;
use crate::built_in::BuiltInChoice;
use crate::by_first::absent_at;
use crate::null::Null;
use crate::param_value::ParamValue;
use handlebars_base::error::RenderErrorReason;
use handlebars_base::json::value::Json;
use handlebars_expand::boxed::BoxedError;
use std::alloc::{AllocError, Global};

/// The helpers that decide by their first two values.
#[derive(Clone, Copy)]
pub(crate) enum ByTwo {
    Lookup,
    Test(Test),
}

/// Returns what a helper decides by two values, in strict mode or not. A missing value counts as this null.
///
/// # Errors
///
/// As `choose_built_in`, once all is evaluated.
#[inline(always)]
pub(crate) fn decide_by_two<'v>(
    alloc: Global,
    strict: bool,
    by: ByTwo,
    null: &Null,
    first: Option<ParamValue<'v>>,
    second: Option<ParamValue<'v>>,
) -> Result<BuiltInChoice<'v>, BoxedError>
    ensures decides { Answers choice_seen (answer_of result)
        (decided_by_two by strict (option_map value_found first.entry) (option_map value_found second.entry)) }
    ensures given { (d : Data) → IfOk result (IsChoiceOf d) }
{
    match by {
        ByTwo::Lookup => decide_lookup(alloc, strict, first, second),
        ByTwo::Test(test) => decide_test(alloc, strict, test, null, first, second),
    }
}

// ---- `lookup`

#[inline(always)]
fn decide_lookup<'v>(
    alloc: Global,
    strict: bool,
    first: Option<ParamValue<'v>>,
    second: Option<ParamValue<'v>>,
) -> Result<BuiltInChoice<'v>, BoxedError>
    ensures decides { Answers choice_seen (answer_of result)
        (decided_by_two by.Lookup strict (option_map value_found first.entry) (option_map value_found second.entry)) }
    ensures given { (d : Data) → IfOk result (IsChoiceOf d) }
{
    let Some(value) = first else {
        return Err(absent_at(alloc, "lookup", 0));
    };
    let Some(key) = second else {
        return Err(absent_at(alloc, "lookup", 1));
    };
    match looked_up(value, key.as_json()) {
        Ok(found) => found_choice(alloc, strict, found),
        Err(AllocError) => Err(BoxedError::OutOfMemory),
    }
}

// The value that is picked, which in strict mode may not be missing.
#[inline(always)]
fn found_choice<'v>(
    alloc: Global,
    strict: bool,
    found: ParamValue<'v>,
) -> Result<BuiltInChoice<'v>, BoxedError>
    ensures decides { Answers choice_seen (answer_of result) (picked_choice strict (present_in (value_found found.entry))) }
    ensures given { (d : Data) → IfOk result (IsChoiceOf d) }
{
    if strict && found.is_missing() {
        return Err(nothing_found(alloc));
    }
    Ok(BuiltInChoice::Value(found))
}

// The error of `lookup` that finds nothing.
#[cold]
#[inline(never)]
fn nothing_found(alloc: Global) -> BoxedError
    ensures { IsRefusal (plain_refusal (missing_variable None)) (error_of result) }
{
    BoxedError::new(alloc, RenderErrorReason::MissingVariable(None).into())
}

// The member of a value under a key, or of a computed value a copy of the member.
#[inline(always)]
fn looked_up<'v>(value: ParamValue<'v>, key: Option<&Json>) -> Result<ParamValue<'v>, AllocError>
    ensures found { IfOk result (λ found. present_in (value_found found)
        ≡ looked_up (data_in (value_found value.entry)) (data_or_null (option_map (λ k. view k.now) key.entry))) }
{
    match value {
        ParamValue::Node(reached) => Ok(held(member(reached.value, key))),
        ParamValue::Held(json) => Ok(held(member(json, key))),
        ParamValue::Literal(json) => Ok(held(member(json, key))),
        ParamValue::Computed(json) => copied(member(&json, key)),
        ParamValue::Missing => Ok(ParamValue::Missing),
    }
}

fn held<'v>(found: Option<&'v Json>) -> ParamValue<'v>
    ensures found { present_in (value_found result) ≡ option_map (λ v. view v.now) found.entry }
{
    match found {
        Some(value) => ParamValue::Held(value),
        None => ParamValue::Missing,
    }
}

fn copied<'v>(found: Option<&Json>) -> Result<ParamValue<'v>, AllocError>
    ensures found { IfOk result (λ copy. present_in (value_found copy) ≡ option_map (λ v. view v.now) found.entry) }
{
    match found {
        Some(value) => Ok(ParamValue::Computed(value.clone()?)),
        None => Ok(ParamValue::Missing),
    }
}

// The member of an object under a string, or the item of an array at a whole number.
#[inline(always)]
fn member<'h>(value: &'h Json, key: Option<&Json>) -> Option<&'h Json>
    ensures { option_map (λ v. view v.now) result
        ≡ looked_up (view value.now) (data_or_null (option_map (λ k. view k.now) key.entry)) }
{
    match key {
        Some(key) => member_under(value, key),
        None => None,
    }
}

#[inline(always)]
fn member_under<'h>(value: &'h Json, key: &Json) -> Option<&'h Json>
    ensures { option_map (λ v. view v.now) result ≡ looked_up (view value.now) (view key.now) }
{
    match key {
        Json::String(key) => value.get(key.as_str()),
        Json::Number(index) => match index.as_u64() {
            Some(index) => value.get(index as usize),
            None => None,
        },
        Json::Null | Json::Bool(_) | Json::Array(_) | Json::Object(_) => None,
    }
}

// ---- tests

// The test of the first two values. In strict mode neither may be missing.
#[inline(always)]
fn decide_test<'v>(
    alloc: Global,
    strict: bool,
    test: Test,
    null: &Null,
    first: Option<ParamValue<'_>>,
    second: Option<ParamValue<'_>>,
) -> Result<BuiltInChoice<'v>, BoxedError>
    ensures decides { Answers choice_seen (answer_of result)
        (decided_by_two (by.Test test) strict (option_map value_found first.entry) (option_map value_found second.entry)) }
    ensures given { (d : Data) → IfOk result (IsChoiceOf d) }
{
    let Some(left) = required(strict, null, &first) else {
        return Err(absent_at(alloc, test.name(), 0));
    };
    let Some(right) = required(strict, null, &second) else {
        return Err(absent_at(alloc, test.name(), 1));
    };
    Ok(BuiltInChoice::Boolean(test.holds(left, right)))
}

// A value, or this null if it is missing, which it may not be in strict mode.
#[inline(always)]
fn required<'h>(strict: bool, null: &'h Null, value: &'h Option<ParamValue<'_>>) -> Option<&'h Json>
    ensures { option_map (λ v. view v.now) result ≡ required_data strict (option_map value_found value.now) }
{
    match value {
        Some(value) => match value.as_json() {
            Some(json) => Some(json),
            None => { if strict { None } else { Some(null.value()) } }
        },
        None => None,
    }
}
