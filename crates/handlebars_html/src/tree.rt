//! The states in which trees end, and what is found on the ways through them.

ghost use Rattle.std.specs.Prelude.{◌≡◌, ◌∷◌, [], IfOk, OnOk, map, option_map, string_bytes};
ghost use Rattle.handlebars_template.specs.Tree.{call_bodies, call_body, call_inverse, decorator_args, decorator_body};
ghost use Rattle.handlebars_template.specs.TreeView.{body_view, call_view, decorator_view, element_view, tree_view};
ghost use Rattle.handlebars_html.specs.Check as check;
ghost use Rattle.handlebars_html.specs.EffectView.{effect_view};
ghost use Rattle.handlebars_html.specs.FoundView.{AddsFindings, EndsIn};
ghost use Rattle.handlebars_html.specs.Html.{beginning};
ghost use Rattle.handlebars_html.specs.HtmlView.{html_of};
ghost use Rattle.handlebars_html.specs.ReadingView.{block_ends_at, bodies_ends_at, branch_ends_at, captured_at, decorator_ends_at, element_ends_at, inclusion_ends_at, inline_at, iteration_at, named_inclusion_at, own_ends_at, rows_at, tree_ends_at};
ghost use Rattle.handlebars_html.specs.Rows.{without_state};
ghost use Rattle.handlebars_html.specs.RowsView.{row_of};

use crate::blocks::{check_captured, check_iterations};
use crate::effect::{Effect, block_effect, written_name};
use crate::fault::HtmlFaultReason;
use crate::found::{Found, Location, push_reason};
use crate::html::Html;
use crate::inclusion::{
    add_leavings, all_ends, check_inclusion, included_ends, inline_name, may_name,
};
use crate::reading::Reading;
use crate::rows::Row;
use crate::states::{add_states, copy_states, one_state, only_beginning, without_beginning};
use crate::stop::Stop;
use crate::texts::text_ends;
use crate::values::{expression_ends, html_expression_ends, value_ends};
use handlebars_template::template::{DecoratorTemplate, HelperTemplate, Template, TemplateElement};

/// Returns the states in which a tree ends that begins in these states, each once, and adds what is found in it.
///
/// # Errors
///
/// Fails if memory runs out, or if there are too many states.
#[cycle(tree)]
pub fn tree_ends(
    template: &Template,
    reading: Reading<'_>,
    states: &[Html],
    found: &mut Found,
) -> Result<Vec<Html>, Stop>
    ensures { IfOk result (λ gs. EndsIn (rows_at reading.entry) found.old found.new gs.items
        (tree_ends_at reading.entry (tree_view template.now) (map html_of states.now))) }
{
    let mut ends = copy_states(states, reading.alloc)?;
    'elements: for (index, element) in template.elements.iter().enumerate() {
        if ends.is_empty() {
            return Ok(ends);
        }
        found.count(ends.len())?;
        let here = Reading {
            alloc: reading.alloc,
            user: reading.user,
            table: reading.table,
            location: Location {
                template_name: reading.location.template_name,
                position: template.mapping.get(index).copied(),
            },
        };
        ends = element_ends(element, here, ends.as_slice(), found)?;
    }
    Ok(ends)
}

#[cycle(tree)]
fn element_ends(
    element: &TemplateElement,
    reading: Reading<'_>,
    states: &[Html],
    found: &mut Found,
) -> Result<Vec<Html>, Stop>
    ensures { IfOk result (λ gs. EndsIn (rows_at reading.entry) found.old found.new gs.items
        (element_ends_at reading.entry (element_view element.now) (map html_of states.now))) }
{
    match element {
        TemplateElement::RawString(text) => text_ends(
            text.as_bytes(),
            reading.alloc,
            reading.location,
            states,
            found,
        ),
        TemplateElement::HtmlExpression(_) => {
            html_expression_ends(reading.alloc, reading.location, states, found)
        }
        TemplateElement::Expression(call) => expression_ends(call, reading, states, found),
        TemplateElement::HelperBlock(call) => block_ends(call, reading, states, found),
        TemplateElement::DecoratorExpression(tag) => decorator_ends(tag, reading, states, found),
        TemplateElement::DecoratorBlock(tag) => decorator_ends(tag, reading, states, found),
        TemplateElement::PartialExpression(tag) => inclusion_ends(tag, reading, states, found),
        TemplateElement::PartialBlock(tag) => inclusion_ends(tag, reading, states, found),
        TemplateElement::Comment(_) => copy_states(states, reading.alloc),
    }
}

// ---- blocks

#[cycle(tree)]
fn block_ends(
    call: &HelperTemplate,
    reading: Reading<'_>,
    states: &[Html],
    found: &mut Found,
) -> Result<Vec<Html>, Stop>
    ensures { IfOk result (λ gs. EndsIn (rows_at reading.entry) found.old found.new gs.items
        (block_ends_at reading.entry (call_view call.now) (map html_of states.now))) }
{
    match block_effect(&call.name, reading.alloc, reading.user)? {
        None => {
            let reason = HtmlFaultReason::MadeBlock;
            push_reason(reading.alloc, reading.location, reason, found)?;
            copy_states(states, reading.alloc)
        }
        Some(effect) => bodies_ends(call, effect, reading, states, found),
    }
}

#[cycle(tree)]
fn bodies_ends(
    call: &HelperTemplate,
    effect: Effect,
    reading: Reading<'_>,
    states: &[Html],
    found: &mut Found,
) -> Result<Vec<Html>, Stop>
    ensures { IfOk result (λ gs. EndsIn (rows_at reading.entry) found.old found.new gs.items
        (bodies_ends_at reading.entry (call_bodies (call_view call.now)) (effect_view effect) (map html_of states.now))) }
{
    match effect {
        Effect::OneBranch => {
            let ends = branch_ends(&call.template, reading, states, found)?;
            inverse_ends(call, ends, reading, states, found)
        }
        Effect::Iterations => {
            iterate(call, reading, states, found)?;
            let ends = copy_states(states, reading.alloc)?;
            inverse_ends(call, ends, reading, states, found)
        }
        Effect::Value => value_ends(reading.alloc, reading.location, states, found),
        Effect::NoOutput => copy_states(states, reading.alloc),
    }
}

// These ends, and those of the inverse.
#[cycle(tree)]
fn inverse_ends(
    call: &HelperTemplate,
    mut ends: Vec<Html>,
    reading: Reading<'_>,
    states: &[Html],
    found: &mut Found,
) -> Result<Vec<Html>, Stop>
    ensures { IfOk result (λ gs. EndsIn (rows_at reading.entry) found.old found.new gs.items
        (check.either_ends (check.ends_in (map html_of ends.items))
        (branch_ends_at reading.entry (call_inverse (call_view call.now)) (map html_of states.now)))) }
{
    let others = branch_ends(&call.inverse, reading, states, found)?;
    add_states(&mut ends, &others)?;
    Ok(ends)
}

// One iteration from each of the states.
#[cycle(tree)]
fn iterate(
    call: &HelperTemplate,
    reading: Reading<'_>,
    states: &[Html],
    found: &mut Found,
) -> Result<(), Stop>
    ensures { OnOk result (AddsFindings (rows_at reading.entry) found.old found.new
        (check.findings_of_each (iteration_at reading.entry (call_body (call_view call.now))) (map html_of states.now))) }
{
    'states: for state in states {
        iterate_once(call, reading, state, found)?;
    }
    Ok(())
}

#[cycle(tree)]
fn iterate_once(
    call: &HelperTemplate,
    reading: Reading<'_>,
    state: &Html,
    found: &mut Found,
) -> Result<(), Stop>
    ensures { OnOk result (AddsFindings (rows_at reading.entry) found.old found.new
        (iteration_at reading.entry (call_body (call_view call.now)) (html_of state.now))) }
{
    let start = one_state(state, reading.alloc)?;
    let ends = branch_ends(&call.template, reading, &start, found)?;
    check_iterations(reading.alloc, reading.location, state, &ends, found)
}

#[cycle(tree)]
fn branch_ends(
    body: &Option<Template>,
    reading: Reading<'_>,
    states: &[Html],
    found: &mut Found,
) -> Result<Vec<Html>, Stop>
    ensures { IfOk result (λ gs. EndsIn (rows_at reading.entry) found.old found.new gs.items
        (branch_ends_at reading.entry (body_view body.now) (map html_of states.now))) }
{
    match body {
        Some(template) => tree_ends(template, reading, states, found),
        None => copy_states(states, reading.alloc),
    }
}

#[cycle(tree)]
fn own_ends(
    body: &Option<Template>,
    reading: Reading<'_>,
    states: &[Html],
    found: &mut Found,
) -> Result<Vec<Html>, Stop>
    ensures { IfOk result (λ gs. EndsIn (rows_at reading.entry) found.old found.new gs.items
        (own_ends_at reading.entry (body_view body.now) (map html_of states.now))) }
{
    match body {
        Some(template) => tree_ends(template, reading, states, found),
        None => Ok(Vec::new(reading.alloc)),
    }
}

// ---- inline partials

#[cycle(tree)]
fn decorator_ends(
    tag: &DecoratorTemplate,
    reading: Reading<'_>,
    states: &[Html],
    found: &mut Found,
) -> Result<Vec<Html>, Stop>
    ensures { IfOk result (λ gs. EndsIn (rows_at reading.entry) found.old found.new gs.items
        (decorator_ends_at reading.entry (decorator_view tag.now) (map html_of states.now))) }
{
    let rows = reading.table.rows();
    'rows: for row in rows {
        read_inline(tag, reading, row, found)?;
    }
    found.has_inlines = true;
    copy_states(states, reading.alloc)
}

// Reads the body where its name is included by this row.
#[cycle(tree)]
fn read_inline(
    tag: &DecoratorTemplate,
    reading: Reading<'_>,
    row: &Row,
    found: &mut Found,
) -> Result<(), Stop>
    ensures { OnOk result (AddsFindings (rows_at reading.entry) found.old found.new
        (check.findings_of_row (row_of row.now) (inline_at reading.entry (decorator_view tag.now)))) }
{
    match row {
        Row::Entering(name, state) => if may_name(inline_name(&tag.params), name.as_str()) {
            let start = one_state(state, reading.alloc)?;
            let ends = own_ends(&tag.template, reading, &start, found)?;
            add_leavings(name.as_str(), reading, state, &ends, found)
        } else {
            Ok(())
        },
        Row::Leaving(_, _, _) => Ok(()),
    }
}

// ---- inclusions

#[cycle(tree)]
fn inclusion_ends(
    tag: &DecoratorTemplate,
    reading: Reading<'_>,
    states: &[Html],
    found: &mut Found,
) -> Result<Vec<Html>, Stop>
    ensures { IfOk result (λ gs. EndsIn (rows_at reading.entry) found.old found.new gs.items
        (inclusion_ends_at reading.entry (decorator_view tag.now) (map html_of states.now))) }
{
    let name = written_name(&tag.name, reading.alloc)?;
    named_inclusion_ends(tag, &name, reading, states, found)
}

// The ends of an inclusion of this name.
#[cycle(tree)]
fn named_inclusion_ends(
    tag: &DecoratorTemplate,
    name: &Option<String>,
    reading: Reading<'_>,
    states: &[Html],
    found: &mut Found,
) -> Result<Vec<Html>, Stop>
    ensures { IfOk result (λ gs. EndsIn (rows_at reading.entry) found.old found.new gs.items
        (named_inclusion_at reading.entry (decorator_view tag.now) (option_map string_bytes name.now) (map html_of states.now))) }
{
    check_inclusion(tag, reading, name, states, found)?;
    let ahead = captured_ends(tag, reading, found)?;
    let named = included_ends(name, reading, states, found)?;
    let other = other_ends(tag, reading, states, found)?;
    all_ends(named, ahead, &other, states)
}

// The ends of the block of an inclusion in its place, where it isn't captured.
#[cycle(tree)]
fn other_ends(
    tag: &DecoratorTemplate,
    reading: Reading<'_>,
    states: &[Html],
    found: &mut Found,
) -> Result<Vec<Html>, Stop>
    ensures { IfOk result (λ gs. EndsIn (rows_at reading.entry) found.old found.new gs.items
        (own_ends_at reading.entry (decorator_body (decorator_view tag.now)) (without_state (map html_of states.now) beginning))) }
{
    let others = without_beginning(states, reading.alloc)?;
    own_ends(&tag.template, reading, &others, found)
}

// The ends of the block of an inclusion as it is captured.
#[cycle(tree)]
fn captured_ends(
    tag: &DecoratorTemplate,
    reading: Reading<'_>,
    found: &mut Found,
) -> Result<Vec<Html>, Stop>
    ensures { IfOk result (λ gs. EndsIn (rows_at reading.entry) found.old found.new gs.items
        (captured_at reading.entry (decorator_view tag.now))) }
{
    let start = only_beginning(reading.alloc)?;
    let ends = own_ends(&tag.template, reading, &start, found)?;
    check_captured(reading.alloc, reading.location, &ends, found)?;
    Ok(ends)
}
