//! Values of templates: in which states they stand.

ghost use Rattle.std.specs.Prelude.{◌≡◌, ◌∷◌, [], IfOk, OnOk, map};
ghost use Rattle.std.specs.List.{flat_map};
ghost use Rattle.handlebars_template.specs.Tree.{call_bodies};
ghost use Rattle.handlebars_template.specs.TreeView.{body_view, call_view};
ghost use Rattle.handlebars_html.specs.Check as check;
ghost use Rattle.handlebars_html.specs.Faults.{unescaped_value};
ghost use Rattle.handlebars_html.specs.FoundView.{AddsFaults, EndsIn, EndsWith};
ghost use Rattle.handlebars_html.specs.Html.{after_data, after_url};
ghost use Rattle.handlebars_html.specs.HtmlView.{html_of};
ghost use Rattle.handlebars_html.specs.ReadingView.{expression_ends_at, rows_at};
ghost use Rattle.handlebars_html.specs.Rows.{each_state};

use crate::effect::writes_url;
use crate::fault::HtmlFaultReason;
use crate::found::{Found, Location, check_urls, check_values, push_reason};
use crate::html::Html;
use crate::reading::Reading;
use crate::states::{states_after_data, states_after_url};
use crate::stop::Stop;
use handlebars_template::template::{HelperTemplate, Template};
use std::alloc::{AllocError, Global};

/// Returns the states after a value, each once, and adds a fault for each of these states in which data may not stand.
///
/// # Errors
///
/// Fails if memory runs out.
pub fn value_ends(
    alloc: Global,
    location: Location<'_>,
    states: &[Html],
    found: &mut Found,
) -> Result<Vec<Html>, Stop>
    ensures { IfOk result (λ gs. EndsWith found.old found.new gs.items
        (each_state after_data (map html_of states.now)) location.entry
        (flat_map check.whys_of_value (map html_of states.now))) }
{
    check_values(alloc, location, states, found)?;
    states_after_data(states, alloc)
}

/// Returns the states after an address that runs no script, each once, and adds a fault for each of these states in which it
/// may not stand.
///
/// # Errors
///
/// Fails if memory runs out.
pub fn url_ends(
    alloc: Global,
    location: Location<'_>,
    states: &[Html],
    found: &mut Found,
) -> Result<Vec<Html>, Stop>
    ensures { IfOk result (λ gs. EndsWith found.old found.new gs.items
        (each_state after_url (map html_of states.now)) location.entry
        (flat_map check.whys_of_url (map html_of states.now))) }
{
    check_urls(alloc, location, states, found)?;
    states_after_url(states, alloc)
}

/// Returns the states after a value that isn't escaped, each once, and adds a fault for it.
///
/// # Errors
///
/// Fails if memory runs out.
pub fn html_expression_ends(
    alloc: Global,
    location: Location<'_>,
    states: &[Html],
    found: &mut Found,
) -> Result<Vec<Html>, Stop>
    ensures { IfOk result (λ gs. EndsWith found.old found.new gs.items
        (each_state after_data (map html_of states.now)) location.entry (unescaped_value ∷ [])) }
{
    push_reason(alloc, location, HtmlFaultReason::UnescapedValue, found)?;
    states_after_data(states, alloc)
}

fn lacks_body(body: &Option<Template>) -> bool
    ensures { result ≡ check.lacks_body (body_view body.now) }
{
    match body {
        None => true,
        Some(_) => false,
    }
}

// Adds a fault if an expression has bodies.
fn check_bodies(
    call: &HelperTemplate,
    alloc: Global,
    location: Location<'_>,
    found: &mut Found,
) -> Result<(), AllocError>
    ensures { OnOk result (AddsFaults found.old found.new location.entry
        (check.whys_of_bodies (call_bodies (call_view call.now)))) }
{
    if lacks_body(&call.template) && lacks_body(&call.inverse) {
        return Ok(());
    }
    push_reason(alloc, location, HtmlFaultReason::ExpressionBodies, found)
}

/// Returns the states after an expression, each once, and adds a fault for each of these states in which data may not stand,
/// and one if the expression has bodies.
///
/// # Errors
///
/// Fails if memory runs out.
pub fn expression_ends(
    call: &HelperTemplate,
    reading: Reading<'_>,
    states: &[Html],
    found: &mut Found,
) -> Result<Vec<Html>, Stop>
    ensures { IfOk result (λ gs. EndsIn (rows_at reading.entry) found.old found.new gs.items
        (expression_ends_at reading.entry (call_view call.now) (map html_of states.now))) }
{
    check_bodies(call, reading.alloc, reading.location, found)?;
    if writes_url(call, reading.alloc, reading.user)? {
        url_ends(reading.alloc, reading.location, states, found)
    } else {
        value_ends(reading.alloc, reading.location, states, found)
    }
}
