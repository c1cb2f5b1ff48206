//! Blocks: in which states they end, and in which they have to.

ghost use Rattle.std.specs.Prelude.{◌∷◌, [], OnOk, map};
ghost use Rattle.handlebars_html.specs.Check as check;
ghost use Rattle.handlebars_html.specs.Faults.{changed_by_block, changed_by_iteration};
ghost use Rattle.handlebars_html.specs.FoundView.{AddsFaults};
ghost use Rattle.handlebars_html.specs.HtmlView.{html_of};

use crate::copies::copy_html;
use crate::fault::HtmlFaultReason;
use crate::found::{Found, Location, push_reason};
use crate::html::Html;
use crate::same::{is_beginning, is_same};
use crate::stop::Stop;
use std::alloc::{AllocError, Global};

fn push_iteration(
    alloc: Global,
    location: Location<'_>,
    state: &Html,
    end: &Html,
    found: &mut Found,
) -> Result<(), AllocError>
    ensures { OnOk result (AddsFaults found.old found.new location.entry
        (changed_by_iteration (html_of state.now) (html_of end.now) ∷ [])) }
{
    let state = copy_html(state)?;
    let reason = HtmlFaultReason::ChangedByIteration(state, copy_html(end)?);
    push_reason(alloc, location, reason, found)
}

/// Adds a fault for each of these ends of iterations that is not the state in which they begin.
///
/// # Errors
///
/// Fails if memory runs out.
pub fn check_iterations(
    alloc: Global,
    location: Location<'_>,
    state: &Html,
    ends: &[Html],
    found: &mut Found,
) -> Result<(), Stop>
    ensures { OnOk result (AddsFaults found.old found.new location.entry
        (check.whys_of_iterations (html_of state.now) (map html_of ends.now))) }
{
    'ends: for end in ends {
        if !is_same(end, state) {
            push_iteration(alloc, location, state, end, found)?;
        }
    }
    Ok(())
}

fn push_captured(
    alloc: Global,
    location: Location<'_>,
    end: &Html,
    found: &mut Found,
) -> Result<(), AllocError>
    ensures { OnOk result (AddsFaults found.old found.new location.entry (changed_by_block (html_of end.now) ∷ [])) }
{
    let reason = HtmlFaultReason::ChangedByBlock(copy_html(end)?);
    push_reason(alloc, location, reason, found)
}

/// Adds a fault for each of these ends of a block that is not the state in which captured text begins.
///
/// # Errors
///
/// Fails if memory runs out.
pub fn check_captured(
    alloc: Global,
    location: Location<'_>,
    ends: &[Html],
    found: &mut Found,
) -> Result<(), AllocError>
    ensures { OnOk result (AddsFaults found.old found.new location.entry
        (check.whys_of_captured (map html_of ends.now))) }
{
    'ends: for end in ends {
        if !is_beginning(end) {
            push_captured(alloc, location, end, found)?;
        }
    }
    Ok(())
}
