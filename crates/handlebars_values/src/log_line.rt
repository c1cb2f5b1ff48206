//! The line that `log` passes to the logger.

ghost use Rattle.std.specs.Prelude.{◌≡◌, ◌++◌, [], IfOk, OnOk, map, option_map, string_bytes, true};
ghost use Rattle.serde_json.specs.Data.{Data};
ghost use Rattle.serde_json.specs.Find.{as_str};
ghost use Rattle.serde_json.specs.View.{view};
ghost use Rattle.handlebars_base.specs.Answers.{Answers, IsRefusal};
ghost use Rattle.handlebars_base.specs.PathAndData.{PathAndData};
ghost use Rattle.handlebars_base.specs.Reasons.{invalid_logging_level};
ghost use Rattle.handlebars_base.specs.RenderRefusals.{plain_refusal};
ghost use Rattle.handlebars_base.specs.Scoped.{data_in};
ghost use Rattle.handlebars_base.specs.Values.{separator};
ghost use Rattle.handlebars_helpers.specs.CallView.{plain_value};
ghost use Rattle.handlebars_helpers.specs.LogLine.{labelled, level_text, line_text};
ghost use Rattle.handlebars_expand.specs.Boxed.{answer_of, error_of};
ghost use Rattle.handlebars_values.specs.BuiltIn.{logged, passed_call};
ghost use Rattle.handlebars_values.specs.ChoiceView.{IsChoiceOf, choice_seen};
ghost use Rattle.handlebars_values.specs.ParamView.{argument_view};
ghost use Rattle.handlebars_values.specs.View.{arguments_seen};

use crate::built_in::BuiltInChoice;
use crate::hash_argument::argument;
use crate::param_value::{Argument, ParamValue};
use handlebars_base::error::RenderErrorReason;
use handlebars_base::json::value::Json;
use handlebars_expand::boxed::BoxedError;
use log::Level;
use std::alloc::{AllocError, Global};
use std::collections::BTreeMap;
use std::str::FromStr;

/// Returns the line that `log` passes to the logger. Its text is the values that a local helper passes and those of the parameters,
/// each after its text as written, if it has one. The hash argument `level` names the level, ignoring ASCII case; it is `info` if the
/// argument is absent or isn't a string.
///
/// # Errors
///
/// Fails with `InvalidLoggingLevel` if the string names no level, and with `OutOfMemory` if memory runs out.
pub(crate) fn decide_line<'p, 'v>(
    alloc: Global,
    constants: &[Json],
    params: &[Argument<'p>],
    hash: &BTreeMap<&'p str, Argument<'p>>,
) -> Result<BuiltInChoice<'v>, BoxedError>
    ensures decides { Answers choice_seen (answer_of result)
        (logged (map (λ v. plain_value (view v)) constants.now ++ map argument_view params.now) (arguments_seen hash.now.entries)) }
    ensures given { (d : Data) → IfOk result (IsChoiceOf d) }
{
    let text = level_text(hash);
    match Level::from_str(text) {
        Ok(level) => Ok(BuiltInChoice::Line(level, line_text(alloc, constants, params)?)),
        Err(_) => Err(invalid_level(alloc, text)),
    }
}

// The text that names the level.
fn level_text<'h, 'v>(hash: &'h BTreeMap<&'v str, Argument<'v>>) -> &'h str
    ensures { result.now ≡ level_text (passed_call ([], arguments_seen hash.now.entries)) }
{
    match argument(hash, "level") {
        Some(param) => text_in(param).unwrap_or("info"),
        None => "info",
    }
}

// The text that is the value of an argument, if it is one.
fn text_in<'h>(param: &'h Argument<'_>) -> Option<&'h str>
    ensures { option_map (λ s. s.now) result ≡ as_str (data_in (argument_view param.now).found) }
{
    match param.as_json() {
        Some(value) => value.as_str(),
        None => None,
    }
}

fn invalid_level(alloc: Global, text: &str) -> BoxedError
    ensures { IsRefusal (plain_refusal (invalid_logging_level text.now)) (error_of result) }
{
    match String::from_str(alloc, text) {
        Ok(text) => BoxedError::new(alloc, RenderErrorReason::InvalidLoggingLevel(text).into()),
        Err(AllocError) => BoxedError::OutOfMemory,
    }
}

// The values, separated by a comma and a space.
fn line_text(
    alloc: Global,
    constants: &[Json],
    params: &[Argument<'_>],
) -> Result<String, AllocError>
    ensures { IfOk result (λ text. string_bytes text
        ≡ line_text true (map (λ v. plain_value (view v)) constants.now ++ map argument_view params.now)) }
{
    let mut line = String::new(alloc);
    let mut first = true;
    'constants: for constant in constants {
        let param = Argument::new(None, ParamValue::Held(constant));
        push_param(alloc, first, &param, &mut line)?;
        first = false;
    }
    'params: for param in params {
        push_param(alloc, first, param, &mut line)?;
        first = false;
    }
    Ok(line)
}

// A parameter, after its text as written. What isn't the first is after a comma and a space.
fn push_param(
    alloc: Global,
    first: bool,
    param: &Argument<'_>,
    line: &mut String,
) -> Result<(), AllocError>
    ensures { OnOk result (string_bytes line.new ≡ string_bytes line.old ++ (separator first ++ labelled (argument_view param.now))) }
{
    if !first {
        line.push_str(", ")?;
    }
    push_labelled(alloc, param, line)
}

// A parameter, after its text as written.
fn push_labelled(alloc: Global, param: &Argument<'_>, line: &mut String) -> Result<(), AllocError>
    ensures { OnOk result (string_bytes line.new ≡ string_bytes line.old ++ labelled (argument_view param.now)) }
{
    if let Some(text) = param.written() {
        line.push_str(text)?;
        line.push_str(": ")?;
    }
    let value = param.render(alloc)?;
    line.push_str(value.as_str())
}
