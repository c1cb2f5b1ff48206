//! Lists of states without duplicates.

ghost use Rattle.std.specs.Prelude.{◌≡◌, ◌∷◌, ◌++◌, [], IfOk, OnOk, map};
ghost use Rattle.handlebars_html.specs.Html as html;
ghost use Rattle.handlebars_html.specs.HtmlView.{html_of};
ghost use Rattle.handlebars_html.specs.Rows as rows;

use crate::copies::copy_html;
use crate::html::{Html, after_data, after_url, beginning};
use crate::lists::push;
use crate::same::{is_beginning, is_same};
use crate::stop::Stop;
use std::alloc::{AllocError, Global};

/// Returns whether the state is one of these.
pub fn is_among(states: &[Html], state: &Html) -> bool
    ensures { result ≡ rows.is_among (map html_of states.now) (html_of state.now) }
{
    match states.split_first() {
        None => false,
        Some((first, rest)) => if is_same(first, state) {
            true
        } else {
            is_among(rest, state)
        },
    }
}

/// Adds a state at the end, unless it is among them.
///
/// # Errors
///
/// Fails if memory runs out.
pub fn add_state(states: &mut Vec<Html>, state: Html) -> Result<(), AllocError>
    ensures { OnOk result (map html_of states.new.items ≡ rows.with_state (map html_of states.old.items) (html_of state)) }
{
    if is_among(states, &state) {
        return Ok(());
    }
    push(states, state)
}

fn push_copy(states: &mut Vec<Html>, state: &Html) -> Result<(), AllocError>
    ensures { OnOk result (map html_of states.new.items ≡ map html_of states.old.items ++ html_of state.now ∷ []) }
{
    push(states, copy_html(state)?)
}

/// Adds a copy of a state at the end, unless it is among them.
///
/// # Errors
///
/// Fails if memory runs out.
pub fn add_copy(states: &mut Vec<Html>, state: &Html) -> Result<(), AllocError>
    ensures { OnOk result (map html_of states.new.items ≡ rows.with_state (map html_of states.old.items) (html_of state.now)) }
{
    if is_among(states, state) {
        return Ok(());
    }
    push_copy(states, state)
}

/// Adds each of these states.
///
/// # Errors
///
/// Fails if memory runs out.
pub fn add_states(states: &mut Vec<Html>, others: &[Html]) -> Result<(), AllocError>
    ensures { OnOk result (map html_of states.new.items
        ≡ rows.with_states (map html_of states.old.items) (map html_of others.now)) }
{
    'others: for other in others {
        add_copy(states, other)?;
    }
    Ok(())
}

/// Returns what is known of the states after data, each once.
///
/// # Errors
///
/// Fails if memory runs out.
pub fn states_after_data(states: &[Html], alloc: Global) -> Result<Vec<Html>, Stop>
    ensures { IfOk result (λ gs. map html_of gs.items ≡ rows.each_state html.after_data (map html_of states.now)) }
{
    let mut ends = Vec::new(alloc);
    'states: for state in states {
        add_state(&mut ends, after_data(copy_html(state)?))?;
    }
    Ok(ends)
}

/// Returns what is known of the states after an address that runs no script, each once.
///
/// # Errors
///
/// Fails if memory runs out.
pub fn states_after_url(states: &[Html], alloc: Global) -> Result<Vec<Html>, Stop>
    ensures { IfOk result (λ gs. map html_of gs.items ≡ rows.each_state html.after_url (map html_of states.now)) }
{
    let mut ends = Vec::new(alloc);
    'states: for state in states {
        add_state(&mut ends, after_url(copy_html(state)?))?;
    }
    Ok(ends)
}

/// Returns copies of these states.
///
/// # Errors
///
/// Fails if memory runs out.
pub fn copy_states(states: &[Html], alloc: Global) -> Result<Vec<Html>, Stop>
    ensures { IfOk result (λ gs. map html_of gs.items ≡ map html_of states.now) }
{
    let mut copies = Vec::new(alloc);
    'states: for state in states {
        push_copy(&mut copies, state)?;
    }
    Ok(copies)
}

/// Returns this state alone.
///
/// # Errors
///
/// Fails if memory runs out.
pub fn one_state(state: &Html, alloc: Global) -> Result<Vec<Html>, AllocError>
    ensures { IfOk result (λ gs. map html_of gs.items ≡ html_of state.now ∷ []) }
{
    let mut states = Vec::new(alloc);
    push_copy(&mut states, state)?;
    Ok(states)
}

/// Returns the beginning of a document alone.
///
/// # Errors
///
/// Fails if memory runs out.
pub fn only_beginning(alloc: Global) -> Result<Vec<Html>, AllocError>
    ensures { IfOk result (λ gs. map html_of gs.items ≡ html.beginning ∷ []) }
{
    one_state(&beginning(), alloc)
}

/// Returns copies of all states but the beginning of a document.
///
/// # Errors
///
/// Fails if memory runs out.
pub fn without_beginning(states: &[Html], alloc: Global) -> Result<Vec<Html>, AllocError>
    ensures { IfOk result (λ gs. map html_of gs.items ≡ rows.without_state (map html_of states.now) html.beginning) }
{
    let mut rest = Vec::new(alloc);
    'states: for state in states {
        if !is_beginning(state) {
            push_copy(&mut rest, state)?;
        }
    }
    Ok(rest)
}
