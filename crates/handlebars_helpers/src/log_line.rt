//! The line that `log` passes to the logger.

ghost use Rattle.std.specs.Prelude.{◌≡◌, ◌++◌, IfOk, OnOk, map, string_bytes, true};
ghost use Rattle.handlebars_base.specs.Answers.{Answers, IsRefusal};
ghost use Rattle.handlebars_base.specs.PathAndData.{path_and_data};
ghost use Rattle.handlebars_base.specs.Reasons.{invalid_logging_level};
ghost use Rattle.handlebars_base.specs.RenderRefusals.{plain_refusal};
ghost use Rattle.handlebars_helpers.specs.LogLine.{label, labelled, level_text, line_text, log_line};
ghost use Rattle.handlebars_helpers.specs.View.{helper_view, line_seen};

use crate::view::Helper;
use handlebars_base::error::{RenderError, RenderErrorReason};
use handlebars_base::json::value::{JsonRender, PathAndJson};
use log::Level;
use std::alloc::{AllocError, Global};
use std::str::FromStr;

/// Returns the level and the text of the line that a call of `log` passes to the logger. The text is the
/// parameters, each after its text as written, if it has one. The hash argument `level` names the level,
/// ignoring ASCII case; it is `info` if the argument is absent or isn't a string.
///
/// # Errors
///
/// Fails with `InvalidLoggingLevel` if the string names no level, and with `OutOfMemory` if memory runs out.
pub fn log_record(alloc: Global, helper: &Helper) -> Result<(Level, String), RenderError>
    ensures { Answers line_seen result (log_line (helper_view helper.now).call) }
{
    let text = level_text(helper);
    match Level::from_str(text) {
        Ok(level) => Ok((level, line_text(alloc, helper.params())?)),
        Err(_) => Err(invalid_level(alloc, text)),
    }
}

// The text that names the level.
fn level_text<'h>(helper: &'h Helper) -> &'h str
    ensures { result.now ≡ level_text (helper_view helper.now).call }
{
    match helper.hash_get("level") {
        Some(param) => param.value().as_str().unwrap_or("info"),
        None => "info",
    }
}

fn invalid_level(alloc: Global, text: &str) -> RenderError
    ensures { IsRefusal (plain_refusal (invalid_logging_level text.now)) result }
{
    match String::from_str(alloc, text) {
        Ok(text) => RenderErrorReason::InvalidLoggingLevel(text).into(),
        Err(AllocError) => RenderErrorReason::OutOfMemory.into(),
    }
}

// The parameters, separated by a comma and a space.
fn line_text(alloc: Global, params: &Vec<PathAndJson>) -> Result<String, AllocError>
    ensures { IfOk result (λ text. string_bytes text ≡ line_text true (map path_and_data params.now.items)) }
{
    let mut line = String::new(alloc);
    let mut first = true;
    'params: for param in params {
        if !first {
            line.push_str(", ")?;
        }
        push_labelled(alloc, param, &mut line)?;
        first = false;
    }
    Ok(line)
}

// A parameter, after its text as written.
fn push_labelled(alloc: Global, param: &PathAndJson, line: &mut String) -> Result<(), AllocError>
    ensures { OnOk result (string_bytes line.new ≡ string_bytes line.old ++ labelled (path_and_data param.now)) }
{
    if let Some(path) = param.relative_path() {
        line.push_str(path.as_str())?;
        line.push_str(": ")?;
    }
    let value = param.render(alloc)?;
    line.push_str(value.as_str())
}
