//! What built-in helpers decide by their first value, once all that they are called with is evaluated.

ghost use Rattle.std.specs.Prelude.{◌≡◌, ◌≢◌, Bool, IfOk, IfSome, Option, codes, option_map, string_bytes};
ghost use Rattle.serde_json.specs.Data.{Data};
ghost use Rattle.serde_json.specs.View.{view};
ghost use Rattle.handlebars_base.specs.Answers.{Answers, IsRefusal, fails};
ghost use Rattle.handlebars_base.specs.Bytes.{Text};
ghost use Rattle.handlebars_base.specs.Reasons.{missing_variable, out_of_memory, param_not_found_for_index, param_not_found_for_name};
ghost use Rattle.handlebars_base.specs.RenderRefusals.{plain_refusal, reason_in, refusal_of};
ghost use Rattle.handlebars_base.specs.Scoped.{data_in};
ghost use Rattle.handlebars_base.specs.Values.{truth};
ghost use Rattle.handlebars_helpers.specs.Choice.{body_if};
ghost use Rattle.handlebars_expand.specs.Boxed.{answer_of, error_of};
ghost use Rattle.handlebars_values.specs.BuiltIn.{absent_first, decided_by_first, decided_by_value, each_of, has_members, inverse_or_error, with_of, written_by};
ghost use Rattle.handlebars_values.specs.ChoiceView.{IsChoiceOf, choice_seen};
ghost use Rattle.handlebars_values.specs.ParamView.{IsOf, value_found};
ghost use Rattle.handlebars_values.specs.declared.built_in.Asked.{Asked};
ghost use Rattle.handlebars_values.specs.declared.by_first.ByFirst.TheVariants as by;

use crate::boolean::size;
use crate::built_in::{Asked, BuiltInChoice};
use crate::param_value::ParamValue;
use handlebars_base::error::RenderErrorReason;
use handlebars_base::json::value::{Json, JsonTruthy};
use handlebars_expand::boxed::BoxedError;
use handlebars_template::template::Parameter;
use std::alloc::{AllocError, Global};
use std::str::FromStr;

/// The helpers that decide by their first value.
#[derive(Clone, Copy)]
pub enum ByFirst {
    If,
    Unless,
    Each,
    With,
    Not,
    Len,
}

/// Returns what a helper decides by its first value, which is of this parameter as written, in strict mode or not. For `if` and
/// `unless` 0 may count as true.
///
/// # Errors
///
/// As `choose_built_in`, once all is evaluated.
#[inline(always)]
pub fn decide_by_first<'v>(
    alloc: Global,
    strict: bool,
    by: ByFirst,
    asked: Asked<'_>,
    written: Option<&Parameter>,
    zero: bool,
    first: Option<ParamValue<'v>>,
) -> Result<BuiltInChoice<'v>, BoxedError>
    ensures decides { Answers choice_seen (answer_of result)
        (decided_by_first by strict asked.entry (written_by written.entry) zero (option_map value_found first.entry)) }
    ensures given { (d : Data) → IfSome first.entry (IsOf d) → IfOk result (IsChoiceOf d) }
{
    match first {
        Some(value) => decide_by_value(alloc, strict, by, asked, written, zero, value),
        None => Err(absent(alloc, by)),
    }
}

#[inline(always)]
fn decide_by_value<'v>(
    alloc: Global,
    strict: bool,
    by: ByFirst,
    asked: Asked<'_>,
    written: Option<&Parameter>,
    zero: bool,
    value: ParamValue<'v>,
) -> Result<BuiltInChoice<'v>, BoxedError>
    ensures decides { Answers choice_seen (answer_of result)
        (decided_by_value by strict asked.entry (written_by written.entry) zero (value_found value.entry)) }
    ensures given { (d : Data) → IsOf d value.entry → IfOk result (IsChoiceOf d) }
{
    match by {
        ByFirst::If => Ok(body_if(truth_of(value, zero))),
        ByFirst::Unless => Ok(body_if(!truth_of(value, zero))),
        ByFirst::Each => decide_each(alloc, strict, asked, written, value),
        ByFirst::With => decide_with(alloc, strict, asked, written, value),
        ByFirst::Not => decide_not(alloc, strict, value),
        ByFirst::Len => decide_len(alloc, strict, value),
    }
}

fn body_if<'v>(truth: bool) -> BuiltInChoice<'v>
    ensures seen { choice_seen result ≡ body_if truth }
    ensures given { (d : Data) → IsChoiceOf d result }
{
    if truth {
        BuiltInChoice::Body
    } else {
        BuiltInChoice::Inverse
    }
}

// ---- `each` and `with`

// The body for each member, if the call has a body and there are members.
#[inline(always)]
fn decide_each<'v>(
    alloc: Global,
    strict: bool,
    asked: Asked<'_>,
    written: Option<&Parameter>,
    value: ParamValue<'v>,
) -> Result<BuiltInChoice<'v>, BoxedError>
    ensures decides { Answers choice_seen (answer_of result) (each_of strict asked.entry (written_by written.entry) (value_found value.entry)) }
    ensures given { (d : Data) → IsOf d value.entry → IfOk result (IsChoiceOf d) }
{
    if !asked.has_body {
        return Ok(BuiltInChoice::Nothing);
    }
    let Some(has_some) = has_members(&value) else {
        return inverse_or_error(alloc, strict, asked, written);
    };
    if !has_some {
        return Ok(BuiltInChoice::Inverse);
    }
    Ok(BuiltInChoice::Each(value))
}

// Whether an array or an object has members. Any other value has none to go over.
#[inline(always)]
fn has_members(value: &ParamValue<'_>) -> Option<bool>
    ensures { result ≡ has_members (data_in (value_found value.now)) }
{
    match value.as_json() {
        Some(json) => members_in(json),
        None => None,
    }
}

#[inline(always)]
fn members_in(value: &Json) -> Option<bool>
    ensures { result ≡ has_members (view value.now) }
{
    match value {
        Json::Array(items) => Some(!items.is_empty()),
        Json::Object(members) => Some(!members.is_empty()),
        Json::Null | Json::Bool(_) | Json::Number(_) | Json::String(_) => None,
    }
}

#[inline(always)]
fn decide_with<'v>(
    alloc: Global,
    strict: bool,
    asked: Asked<'_>,
    written: Option<&Parameter>,
    value: ParamValue<'v>,
) -> Result<BuiltInChoice<'v>, BoxedError>
    ensures decides { Answers choice_seen (answer_of result) (with_of strict asked.entry (written_by written.entry) (value_found value.entry)) }
    ensures given { (d : Data) → IsOf d value.entry → IfOk result (IsChoiceOf d) }
{
    if !truth(&value, false) {
        return inverse_or_error(alloc, strict, asked, written);
    }
    Ok(BuiltInChoice::With(value))
}

// The inverse, which strict mode requires.
#[inline(always)]
fn inverse_or_error<'v>(
    alloc: Global,
    strict: bool,
    asked: Asked<'_>,
    written: Option<&Parameter>,
) -> Result<BuiltInChoice<'v>, BoxedError>
    ensures decides { Answers choice_seen (answer_of result) (inverse_or_error strict asked.entry (written_by written.entry)) }
    ensures given { (d : Data) → IfOk result (IsChoiceOf d) }
{
    if strict && !asked.has_inverse {
        return Err(missing_variable(alloc, written));
    }
    Ok(BuiltInChoice::Inverse)
}

// The error for a missing value, with its parameter as written, if it has one.
#[cold]
#[inline(never)]
fn missing_variable(alloc: Global, written: Option<&Parameter>) -> BoxedError
    ensures { IsRefusal (plain_refusal (missing_variable (written_by written.entry))) (error_of result) }
{
    match copied(alloc, written) {
        Ok(text) => BoxedError::new(alloc, RenderErrorReason::MissingVariable(text).into()),
        Err(AllocError) => BoxedError::OutOfMemory,
    }
}

fn copied(alloc: Global, written: Option<&Parameter>) -> Result<Option<String>, AllocError>
    ensures { IfOk result (λ text. option_map string_bytes text ≡ written_by written.entry) }
{
    match written {
        Some(parameter) => match parameter.as_name() {
            Some(text) => Ok(Some(String::from_str(alloc, text)?)),
            None => Ok(None),
        },
        None => Ok(None),
    }
}

// ---- truth and sizes

// Whether a value counts as true. A missing one does not.
#[inline(always)]
pub(crate) fn truth(value: &ParamValue<'_>, zero: bool) -> bool
    ensures { result ≡ truth zero (data_in (value_found value.now)) }
{
    match value.as_json() {
        Some(json) => json.is_truthy(zero),
        None => false,
    }
}

// Whether a value counts as true, which is dropped.
#[inline(always)]
fn truth_of(value: ParamValue<'_>, zero: bool) -> bool
    ensures { result ≡ truth zero (data_in (value_found value.entry)) }
{
    truth(&value, zero)
}

// In strict mode the value may not be missing.
fn decide_not<'v>(
    alloc: Global,
    strict: bool,
    value: ParamValue<'_>,
) -> Result<BuiltInChoice<'v>, BoxedError>
    ensures decides { (a : Asked) (written : Option Text) (zero : Bool) → Answers choice_seen (answer_of result)
        (decided_by_value by.Not strict a written zero (value_found value.entry)) }
    ensures given { (d : Data) → IfOk result (IsChoiceOf d) }
{
    if strict && value.is_missing() {
        return Err(absent(alloc, ByFirst::Not));
    }
    Ok(BuiltInChoice::Boolean(!truth(&value, false)))
}

// In strict mode the value may not be missing.
fn decide_len<'v>(
    alloc: Global,
    strict: bool,
    value: ParamValue<'_>,
) -> Result<BuiltInChoice<'v>, BoxedError>
    ensures decides { (a : Asked) (written : Option Text) (zero : Bool) → Answers choice_seen (answer_of result)
        (decided_by_value by.Len strict a written zero (value_found value.entry)) }
    ensures given { (d : Data) → IfOk result (IsChoiceOf d) }
{
    match value.as_json() {
        Some(json) => Ok(BuiltInChoice::Count(size(json))),
        None => {
            if strict {
                Err(absent(alloc, ByFirst::Len))
            } else {
                Ok(BuiltInChoice::Count(0))
            }
        }
    }
}

// The error of a call without its parameter.
#[cold]
#[inline(never)]
fn absent(alloc: Global, by: ByFirst) -> BoxedError
    ensures { reason_in (error_of result) ≢ out_of_memory → absent_first by ≡ fails (refusal_of (error_of result)) }
{
    match by {
        ByFirst::If => absent_at(alloc, "if", 0),
        ByFirst::Unless => absent_at(alloc, "if", 0),
        ByFirst::Each => absent_at(alloc, "each", 0),
        ByFirst::With => absent_at(alloc, "with", 0),
        ByFirst::Not => absent_at(alloc, "not", 0),
        ByFirst::Len => no_x(alloc),
    }
}

/// The error of a call without the parameter at this index.
pub(crate) fn absent_at(alloc: Global, name: &'static str, index: usize) -> BoxedError
    ensures { IsRefusal (plain_refusal (param_not_found_for_index name.now index)) (error_of result) }
{
    BoxedError::new(
        alloc,
        RenderErrorReason::ParamNotFoundForIndex(name, index).into(),
    )
}

// The error of `len` without its parameter.
fn no_x(alloc: Global) -> BoxedError
    ensures { IsRefusal (plain_refusal (param_not_found_for_name (codes "len") (codes "x"))) (error_of result) }
{
    match String::from_str(alloc, "x") {
        Ok(name) => BoxedError::new(
            alloc,
            RenderErrorReason::ParamNotFoundForName("len", name).into(),
        ),
        Err(AllocError) => BoxedError::OutOfMemory,
    }
}
