//! Texts of templates: in which states they stand, and what they change.

ghost use Rattle.std.specs.Prelude.{◌≡◌, if◌then◌else◌, IfOk, OnOk, map, not};
ghost use Rattle.std.specs.List.{filter, flat_map};
ghost use Rattle.handlebars_base.specs.Bytes.{space};
ghost use Rattle.handlebars_html.specs.Check as check;
ghost use Rattle.handlebars_html.specs.Faults.{changed_text, unless};
ghost use Rattle.handlebars_html.specs.FoundView.{AddsFaults, EndsWith};
ghost use Rattle.handlebars_html.specs.Html as html;
ghost use Rattle.handlebars_html.specs.HtmlView.{html_of, tokenizer_of};
ghost use Rattle.handlebars_html.specs.Rows.{each_state, with_state};
ghost use Rattle.handlebars_html.specs.RowsView.{why_of};
ghost use Rattle.handlebars_html.specs.Same as same;
ghost use Rattle.handlebars_html.specs.Tokenizer as tokenizer;

use crate::copies::copy_html;
use crate::fault::HtmlFaultReason;
use crate::found::{Found, Location, push_reason};
use crate::html::{Html, after, step};
use crate::plain::Plain;
use crate::same::is_same;
use crate::states::add_state;
use crate::stop::Stop;
use crate::tokenizer::{Tokenizer, is_refused};
use std::alloc::{AllocError, Global};

// Whether a text ends in this state also after a blank.
fn is_same_after_blank(
    text: &[u8],
    alloc: Global,
    state: &Html,
    end: &Html,
) -> Result<bool, AllocError>
    ensures { IfOk result (λ b.
        b ≡ same.is_same (html.after (html.step (html_of state.now) space) text.now) (html_of end.now)) }
{
    let blank = step(copy_html(state)?, b' ', alloc)?;
    let other = after(blank, text, alloc)?;
    Ok(is_same(&other, end))
}

// Why no text may lead to this state.
fn refusal(state: &Tokenizer) -> HtmlFaultReason
    ensures { why_of result ≡ check.why_refused (tokenizer_of state.now) }
{
    match state {
        Tokenizer::Plain(Plain::Misled) => HtmlFaultReason::ChangedAddress,
        _ => HtmlFaultReason::LateAttribute,
    }
}

// Adds a fault if a blank before a text in this state would change its end.
fn check_blank(
    text: &[u8],
    alloc: Global,
    location: Location<'_>,
    state: &Html,
    end: &Html,
    found: &mut Found,
) -> Result<(), AllocError>
    ensures { OnOk result (AddsFaults found.old found.new location.entry
        (unless (same.is_same (html.after (html.step (html_of state.now) space) text.now) (html_of end.now))
        (changed_text (html_of state.now)))) }
{
    if is_same_after_blank(text, alloc, state, end)? {
        return Ok(());
    }
    let reason = HtmlFaultReason::ChangedText(copy_html(state)?);
    push_reason(alloc, location, reason, found)
}

// Adds a fault if no text may lead to this state.
fn check_refused(
    alloc: Global,
    location: Location<'_>,
    end: &Html,
    found: &mut Found,
) -> Result<(), AllocError>
    ensures { OnOk result (AddsFaults found.old found.new location.entry
        (unless (not (tokenizer.is_refused (tokenizer_of end.now.tokenizer)))
        (check.why_refused (tokenizer_of end.now.tokenizer)))) }
{
    if !is_refused(&end.tokenizer) {
        return Ok(());
    }
    push_reason(alloc, location, refusal(&end.tokenizer), found)
}

// Adds what is wrong with a text in this state that ends in that one.
fn check_text(
    text: &[u8],
    alloc: Global,
    location: Location<'_>,
    state: &Html,
    end: &Html,
    found: &mut Found,
) -> Result<(), AllocError>
    ensures { OnOk result (html_of end.now ≡ html.after (html_of state.now) text.now
        → AddsFaults found.old found.new location.entry (check.whys_of_text text.now (html_of state.now))) }
{
    check_blank(text, alloc, location, state, end, found)?;
    check_refused(alloc, location, end, found)
}

// The state after a text, with what is wrong with the text in this state.
fn text_end(
    text: &[u8],
    alloc: Global,
    location: Location<'_>,
    state: &Html,
    found: &mut Found,
) -> Result<Html, AllocError>
    ensures is_after { IfOk result (λ g. html_of g ≡ html.after (html_of state.now) text.now) }
    ensures adds { OnOk result (AddsFaults found.old found.new location.entry
        (check.whys_of_text text.now (html_of state.now))) }
{
    let end = after(copy_html(state)?, text, alloc)?;
    check_text(text, alloc, location, state, &end, found)?;
    Ok(end)
}

// Adds a state, unless it says that a text changed what was before.
fn add_in_time(ends: &mut Vec<Html>, end: Html) -> Result<(), AllocError>
    ensures { OnOk result (map html_of ends.new.items ≡ (if tokenizer.is_refused (tokenizer_of end.tokenizer)
        then map html_of ends.old.items else with_state (map html_of ends.old.items) (html_of end))) }
{
    if is_refused(&end.tokenizer) {
        return Ok(());
    }
    add_state(ends, end)
}

/// Returns the states after a text, each once, and adds what is wrong with it in these states. A way on which it changes
/// what was before ends there.
///
/// # Errors
///
/// Fails if memory runs out.
pub fn text_ends(
    text: &[u8],
    alloc: Global,
    location: Location<'_>,
    states: &[Html],
    found: &mut Found,
) -> Result<Vec<Html>, Stop>
    ensures { IfOk result (λ gs. EndsWith found.old found.new gs.items
        (each_state (λ h. html.after h text.now) (filter (check.is_in_time text.now) (map html_of states.now)))
        location.entry (flat_map (check.whys_of_text text.now) (map html_of states.now))) }
{
    let mut ends = Vec::new(alloc);
    'states: for state in states {
        add_in_time(&mut ends, text_end(text, alloc, location, state, found)?)?;
    }
    Ok(ends)
}
