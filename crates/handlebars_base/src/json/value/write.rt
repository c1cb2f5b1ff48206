//! Writing of JSON values.

ghost use Rattle.std.specs.Prelude.{Bool, IfErr, true};
ghost use Rattle.serde_json.specs.View.{view, number_view, items_view};
ghost use Rattle.handlebars_base.specs.Values.{rendered, rendered_items, rendered_number, separator};
ghost use Rattle.serde_json.specs.Data.{array};
ghost use Rattle.handlebars_base.specs.Outputs.{Written};
ghost use Rattle.handlebars_base.specs.Shown.{escaped_if, shown};

use super::Json;
use crate::output::Output;
use crate::support::write_escaped;
use itoa::Buffer;
use serde_json::Number;
use std::io;

/// Writes a value as it is rendered, escaped if `escapes` is set. Builds no intermediate text. Only texts need
/// escaping.
///
/// # Errors
///
/// Fails with the output's error if a write fails.
#[cycle(write)]
pub fn write_value<O: Output>(out: &mut O, value: &Json, escapes: bool) -> Result<(), io::Error>
    ensures written { Written (shown escapes (view value.now)) (O.held out.old) result (O.held out.new) }
    ensures given { IfErr result O.may_give }
{
    match value {
        Json::Null => Ok(()),
        Json::Bool(true) => out.write("true"),
        Json::Bool(false) => out.write("false"),
        Json::Number(number) => write_number(out, number),
        Json::String(text) => write_text(out, text.as_str(), escapes),
        Json::Array(items) => write_array(out, items, escapes),
        Json::Object(_) => out.write("[object]"),
    }
}

#[cycle(write)]
fn write_array<O: Output>(out: &mut O, items: &Vec<Json>, escapes: bool) -> Result<(), io::Error>
    ensures written { Written (shown escapes (array (items_view items.now.items)))
        (O.held out.old) result (O.held out.new) }
    ensures given { IfErr result O.may_give }
{
    out.write("[")?;
    write_items(out, items, escapes)?;
    out.write("]")
}

#[cycle(write)]
fn write_items<O: Output>(out: &mut O, items: &Vec<Json>, escapes: bool) -> Result<(), io::Error>
    ensures written { Written (escaped_if escapes (rendered_items true (items_view items.now.items)))
        (O.held out.old) result (O.held out.new) }
    ensures given { IfErr result O.may_give }
{
    let mut first = true;
    for item in items {
        write_separator(out, first)?;
        write_value(out, item, escapes)?;
        first = false;
    }
    Ok(())
}

// Writes a text, escaped if `escapes` is set.
fn write_text<O: Output>(out: &mut O, text: &str, escapes: bool) -> Result<(), io::Error>
    ensures written { Written (escaped_if escapes text.now) (O.held out.old) result (O.held out.new) }
    ensures given { IfErr result O.may_give }
{
    if escapes {
        write_escaped(out, text)
    } else {
        out.write(text)
    }
}

// Writes what separates a member from the one before it.
fn write_separator<O: Output>(out: &mut O, first: bool) -> Result<(), io::Error>
    ensures written { Written (separator first) (O.held out.old) result (O.held out.new) }
    ensures given { IfErr result O.may_give }
{
    if first {
        return Ok(());
    }
    out.write(", ")
}

// Writes a number. A number outside the range counts as null. Digits need no escaping.
fn write_number<O: Output>(out: &mut O, number: &Number) -> Result<(), io::Error>
    ensures written { (escapes : Bool) → Written (escaped_if escapes (rendered_number (number_view number.now)))
        (O.held out.old) result (O.held out.new) }
    ensures given { IfErr result O.may_give }
{
    let mut digits = Buffer::new();
    if let Some(n) = number.as_u64() {
        out.write(digits.format(n))
    } else if let Some(n) = number.as_i64() {
        out.write(digits.format(n))
    } else {
        Ok(())
    }
}
