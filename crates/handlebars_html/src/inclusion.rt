//! Inclusions: their names, their indentations, and the states in which what is included ends.

ghost use Rattle.std.specs.Prelude.{◌≡◌, if◌then◌else◌, ◌∷◌, ◌++◌, [], Some, IfOk, OnOk, map, option_map, string_bytes, unwrap_or};
ghost use Rattle.std.specs.List.{flat_map, list_all};
ghost use Rattle.std.specs.Str.{bytes_eq};
ghost use Rattle.serde_json.specs.View as json;
ghost use Rattle.handlebars_semantics.specs.Including.{partial_block_name};
ghost use Rattle.handlebars_template.specs.Tree.{Hash, Params, args, decorator_marks, literal, param};
ghost use Rattle.handlebars_template.specs.TreeView.{decorator_view, params_view};
ghost use Rattle.handlebars_html.specs.Check as check;
ghost use Rattle.handlebars_html.specs.Faults.{captured_text_in, other_indent, unless};
ghost use Rattle.handlebars_html.specs.FoundView.{AddsFaults, AddsFindings, EndsIn};
ghost use Rattle.handlebars_html.specs.Html as html;
ghost use Rattle.handlebars_html.specs.HtmlView.{html_of};
ghost use Rattle.handlebars_html.specs.Rows as table;
ghost use Rattle.handlebars_html.specs.ReadingView.{rows_at};
ghost use Rattle.handlebars_html.specs.Rule as rule;
ghost use Rattle.handlebars_html.specs.Same as same;

use crate::copies::copy_html;
use crate::fault::HtmlFaultReason;
use crate::found::{Found, Location, push_reason};
use crate::html::{Html, beginning};
use crate::lists::push;
use crate::reading::Reading;
use crate::rows::Row;
use crate::same::is_beginning;
use crate::states::{add_states, copy_states, is_among};
use crate::stop::Stop;
use handlebars_template::template::{DecoratorTemplate, Parameter};
use serde_json::Value;
use std::alloc::{AllocError, Global};

// ---- names

fn is_partial_block(name: &str) -> bool
    ensures { result ≡ bytes_eq partial_block_name name.now }
{
    "@partial-block" == name
}

fn string_in(value: &Value) -> Option<&str>
    ensures { (ps : Params) (hs : Hash) → option_map (λ s. s.now) result
        ≡ rule.inline_name (args (param (literal (json.view value.now)) ps) hs) }
{
    match value {
        Value::Null => None,
        Value::Bool(_) => None,
        Value::Number(_) => None,
        Value::String(text) => Some(text.as_str()),
        Value::Array(_) => None,
        Value::Object(_) => None,
    }
}

/// Returns the name of an inline partial, if it is written.
pub fn inline_name(params: &Vec<Parameter>) -> Option<&str>
    ensures { (hs : Hash) → option_map (λ s. s.now) result ≡ rule.inline_name (args (params_view params.now.items) hs) }
{
    match params.first() {
        Some(Parameter::Literal(value)) => string_in(value),
        Some(Parameter::Name(_)) => None,
        Some(Parameter::Path(_)) => None,
        Some(Parameter::Subexpression(_)) => None,
        None => None,
    }
}

/// Returns whether this may be the name of an inline partial, of which this is written.
pub fn may_name(written: Option<&str>, name: &str) -> bool
    ensures { result ≡ check.may_name (option_map (λ s. s.now) written.entry) name.now }
{
    match written {
        None => true,
        Some(other) => name == other,
    }
}

fn push_captured_text(
    alloc: Global,
    location: Location<'_>,
    state: &Html,
    found: &mut Found,
) -> Result<(), AllocError>
    ensures { OnOk result (AddsFaults found.old found.new location.entry (captured_text_in (html_of state.now) ∷ [])) }
{
    let reason = HtmlFaultReason::CapturedTextIn(copy_html(state)?);
    push_reason(alloc, location, reason, found)
}

fn check_captured_text(
    alloc: Global,
    location: Location<'_>,
    states: &[Html],
    found: &mut Found,
) -> Result<(), AllocError>
    ensures { OnOk result (AddsFaults found.old found.new location.entry
        (flat_map (λ h. unless (same.is_same h html.beginning) (captured_text_in h)) (map html_of states.now))) }
{
    'states: for state in states {
        if !is_beginning(state) {
            push_captured_text(alloc, location, state, found)?;
        }
    }
    Ok(())
}

// Adds what is wrong with the name of an inclusion in these states.
fn check_name(
    alloc: Global,
    location: Location<'_>,
    name: &Option<String>,
    states: &[Html],
    found: &mut Found,
) -> Result<(), AllocError>
    ensures { OnOk result (AddsFaults found.old found.new location.entry
        (check.whys_of_name (option_map string_bytes name.now) (map html_of states.now))) }
{
    match name {
        None => push_reason(alloc, location, HtmlFaultReason::MadeInclusion, found),
        Some(name) => if is_partial_block(name.as_str()) {
            check_captured_text(alloc, location, states, found)
        } else {
            Ok(())
        },
    }
}

// ---- indentations

#[tactic(auto, unfolding(crate::specs::Html::is_blank))]
fn is_blank(byte: u8) -> bool
    ensures { result ≡ html.is_blank byte }
{
    byte == b' ' || byte == b'\t'
}

fn are_blank(text: &[u8]) -> bool
    ensures { result ≡ list_all html.is_blank text.now }
{
    for byte in text {
        if !is_blank(*byte) {
            return false;
        }
    }
    true
}

fn is_indent(indent: &Option<String>) -> bool
    ensures { result ≡ list_all html.is_blank (unwrap_or (option_map string_bytes indent.now) []) }
{
    match indent {
        Some(text) => are_blank(text.as_bytes()),
        None => true,
    }
}

// Adds a fault if an indentation has other bytes than blanks.
fn check_indent(
    alloc: Global,
    location: Location<'_>,
    indent: &Option<String>,
    found: &mut Found,
) -> Result<(), AllocError>
    ensures { OnOk result (AddsFaults found.old found.new location.entry
        (unless (list_all html.is_blank (unwrap_or (option_map string_bytes indent.now) [])) other_indent)) }
{
    if is_indent(indent) {
        return Ok(());
    }
    push_reason(alloc, location, HtmlFaultReason::OtherIndent, found)
}

/// Adds what is wrong with the indentation of an inclusion, and then with its name in these states.
///
/// # Errors
///
/// Fails if memory runs out.
pub fn check_inclusion(
    tag: &DecoratorTemplate,
    reading: Reading<'_>,
    name: &Option<String>,
    states: &[Html],
    found: &mut Found,
) -> Result<(), AllocError>
    ensures { OnOk result (AddsFaults found.old found.new reading.entry.location
        (check.whys_of_indent (decorator_marks (decorator_view tag.now))
        ++ check.whys_of_name (option_map string_bytes name.now) (map html_of states.now))) }
{
    check_indent(reading.alloc, reading.location, &tag.indent, found)?;
    check_name(reading.alloc, reading.location, name, states, found)
}

// ---- ends

/// Adds that something may be included by this name in this state, if the table lacks that, and else the place of the row.
///
/// # Errors
///
/// Fails if memory runs out.
pub fn add_entering(
    name: &str,
    reading: Reading<'_>,
    state: &Html,
    found: &mut Found,
) -> Result<(), AllocError>
    ensures { OnOk result (AddsFindings (rows_at reading.entry) found.old found.new
        (check.found_rows (table.entering name.now (html_of state.now) ∷ []))) }
{
    match reading.table.place_of(name, state) {
        Some(place) => push(&mut found.places, place),
        None => {
            let state = copy_html(state)?;
            let name = String::from_str(reading.alloc, name)?;
            push(&mut found.rows, Row::Entering(name, state))
        }
    }
}

fn named_ends(
    name: &str,
    reading: Reading<'_>,
    states: &[Html],
    found: &mut Found,
) -> Result<Vec<Html>, Stop>
    ensures { IfOk result (λ gs. EndsIn (rows_at reading.entry) found.old found.new gs.items (record {
      states = table.with_states [] (flat_map (table.leaving_states (rows_at reading.entry) name.now) (map html_of states.now));
      findings = check.found_rows (map (λ h. table.entering name.now h) (map html_of states.now));
    })) }
{
    let mut ends = Vec::new(reading.alloc);
    'states: for state in states {
        add_entering(name, reading, state, found)?;
        reading.table.add_leaving_states(&mut ends, name, state)?;
    }
    Ok(ends)
}

fn written_ends(
    name: &str,
    reading: Reading<'_>,
    states: &[Html],
    found: &mut Found,
) -> Result<Vec<Html>, Stop>
    ensures { IfOk result (λ gs. EndsIn (rows_at reading.entry) found.old found.new gs.items
        (check.included_ends (rows_at reading.entry) (Some name.now) (map html_of states.now))) }
{
    if is_partial_block(name) {
        copy_states(states, reading.alloc)
    } else {
        named_ends(name, reading, states, found)
    }
}

/// Returns the states in which what is included by this name in these states ends, and adds the rows for it.
///
/// # Errors
///
/// Fails if memory runs out.
pub fn included_ends(
    name: &Option<String>,
    reading: Reading<'_>,
    states: &[Html],
    found: &mut Found,
) -> Result<Vec<Html>, Stop>
    ensures { IfOk result (λ gs. EndsIn (rows_at reading.entry) found.old found.new gs.items
        (check.included_ends (rows_at reading.entry) (option_map string_bytes name.now) (map html_of states.now))) }
{
    match name {
        None => copy_states(states, reading.alloc),
        Some(name) => written_ends(name.as_str(), reading, states, found),
    }
}

// Adds that what is included by this name in this state may end in another, if the table lacks that.
fn add_leaving(
    name: &str,
    reading: Reading<'_>,
    state: &Html,
    end: &Html,
    found: &mut Found,
) -> Result<(), AllocError>
    ensures { OnOk result (AddsFindings (rows_at reading.entry) found.old found.new
        (check.found_rows (table.leaving name.now (html_of state.now) (html_of end.now) ∷ []))) }
{
    if reading.table.has_leaving(name, state, end) {
        return Ok(());
    }
    let from = copy_html(state)?;
    let to = copy_html(end)?;
    let name = String::from_str(reading.alloc, name)?;
    push(&mut found.rows, Row::Leaving(name, from, to))
}

/// Adds rows for the states in which what is included by this name in this state ends.
///
/// # Errors
///
/// Fails if memory runs out.
pub fn add_leavings(
    name: &str,
    reading: Reading<'_>,
    state: &Html,
    ends: &[Html],
    found: &mut Found,
) -> Result<(), Stop>
    ensures { OnOk result (AddsFindings (rows_at reading.entry) found.old found.new
        (check.found_rows (table.leavings name.now (html_of state.now) (map html_of ends.now)))) }
{
    'ends: for end in ends {
        add_leaving(name, reading, state, end, found)?;
    }
    Ok(())
}

/// Returns all ends of an inclusion in these states: where what is included by its name ends; where captured text would
/// begin, those of its block as it is captured; and those of its block in the other states, in its place.
///
/// # Errors
///
/// Fails if memory runs out.
pub fn all_ends(
    named: Vec<Html>,
    mut ahead: Vec<Html>,
    other: &[Html],
    states: &[Html],
) -> Result<Vec<Html>, Stop>
    ensures { IfOk result (λ gs. map html_of gs.items ≡ table.with_states (map html_of named.items)
        (table.with_states (if table.is_among (map html_of states.now) html.beginning then map html_of ahead.items else [])
        (map html_of other.now))) }
{
    if !is_among(states, &beginning()) {
        ahead.clear();
    }
    add_states(&mut ahead, other)?;
    let mut ends = named;
    add_states(&mut ends, &ahead)?;
    Ok(ends)
}
