//! What is read once by a table: the pages, or a template in a state.

ghost use Rattle.std.specs.Prelude.{◌∷◌, [], OnOk, Some, map};
ghost use Rattle.handlebars_template.specs.TreeView.{tree_view};
ghost use Rattle.handlebars_html.specs.Check as check;
ghost use Rattle.handlebars_html.specs.FoundView.{AddsFindings};
ghost use Rattle.handlebars_html.specs.Html as html;
ghost use Rattle.handlebars_html.specs.HtmlView.{html_of};
ghost use Rattle.handlebars_html.specs.Registry.{registered_in};
ghost use Rattle.handlebars_html.specs.Rows.{entering};
ghost use Rattle.handlebars_html.specs.RowsView.{rows_of};
ghost use Rattle.handlebars_html.specs.Search.{pages_findings};
ghost use Rattle.handlebars_html.specs.SearchView.{pages_at, template_at, templates_at, user_at};

use crate::found::{Found, Location};
use crate::html::{Html, beginning};
use crate::inclusion::{add_entering, add_leavings};
use crate::reading::Reading;
use crate::rows::Table;
use crate::search::{Checked, NamedTemplate, Pages};
use crate::states::{one_state, only_beginning};
use crate::stop::Stop;
use crate::tree::tree_ends;
use handlebars_template::template::Template;

/// Reads a template where it is included in this state.
///
/// # Errors
///
/// Fails if memory runs out, or if there are too many states.
pub fn read_at(
    checked: Checked<'_>,
    named: NamedTemplate<'_>,
    state: &Html,
    table: &Table,
    found: &mut Found,
) -> Result<(), Stop>
    ensures { OnOk result (AddsFindings (rows_of table.now) found.old found.new
        (check.findings_of_entering named.entry.name.now (html_of state.now)
        (template_at checked.entry (rows_of table.now) named.entry (html_of state.now)))) }
{
    let location = Location {
        template_name: Some(named.name),
        position: None,
    };
    let reading = Reading {
        alloc: checked.alloc,
        user: checked.user,
        table,
        location,
    };
    let start = one_state(state, checked.alloc)?;
    let ends = tree_ends(named.template, reading, &start, found)?;
    add_leavings(named.name, reading, state, &ends, found)
}

fn read_source<'t>(
    checked: Checked<'t>,
    source: &Template,
    table: &'t Table,
    found: &mut Found,
) -> Result<(), Stop>
    ensures { OnOk result (AddsFindings (rows_of table.now) found.old found.new
        (check.tree_ends (registered_in (user_at checked.entry)) (rows_of table.now) None (tree_view source.now)
        (html.beginning ∷ [])).findings) }
{
    let location = Location {
        template_name: None,
        position: None,
    };
    let reading = Reading {
        alloc: checked.alloc,
        user: checked.user,
        table,
        location,
    };
    let start = only_beginning(checked.alloc)?;
    tree_ends(source, reading, &start, found)?;
    Ok(())
}

fn enter_templates<'t>(
    checked: Checked<'t>,
    table: &'t Table,
    found: &mut Found,
) -> Result<(), Stop>
    ensures { OnOk result (AddsFindings (rows_of table.now) found.old found.new
        (check.found_rows (map (λ x. entering x.0 html.beginning) (templates_at checked.entry)))) }
{
    let location = Location {
        template_name: None,
        position: None,
    };
    let reading = Reading {
        alloc: checked.alloc,
        user: checked.user,
        table,
        location,
    };
    let start = beginning();
    'templates: for named in checked.templates {
        add_entering(named.name, reading, &start, found)?;
    }
    Ok(())
}

/// Reads the pages.
///
/// # Errors
///
/// Fails if memory runs out, or if there are too many states.
pub fn read_pages<'t>(checked: Checked<'t>, table: &'t Table, found: &mut Found) -> Result<(), Stop>
    ensures { OnOk result (AddsFindings (rows_of table.now) found.old found.new
        (pages_findings (user_at checked.entry) (rows_of table.now) (templates_at checked.entry) (pages_at checked.entry))) }
{
    match checked.pages {
        Pages::Source(source) => read_source(checked, source, table, found),
        Pages::AllTemplates => enter_templates(checked, table, found),
    }
}
