//! A round: the pages, what is user-defined and all templates are read by one table.

ghost use Rattle.std.specs.Prelude.{◌≡◌, ◌∷◌, IfOk, OnOk, map};
ghost use Rattle.handlebars_html.specs.Check as check;
ghost use Rattle.handlebars_html.specs.FoundView.{AddsFindings, Collects, collected, found_of};
ghost use Rattle.handlebars_html.specs.RowsView.{row_of, rows_of};
ghost use Rattle.handlebars_html.specs.Search as search;
ghost use Rattle.handlebars_html.specs.SearchView.{included_at, pages_at, round_at, template_of, templates_at, user_at};

use crate::found::Found;
use crate::parts::add_faults_of_parts;
use crate::rows::{Row, Table};
use crate::search::readings::{read_at, read_pages};
use crate::search::{Checked, NamedTemplate};
use crate::stop::Stop;

// Reads a template where its name is included by this row, if it is.
fn read_by_row(
    checked: Checked<'_>,
    named: NamedTemplate<'_>,
    row: &Row,
    table: &Table,
    found: &mut Found,
) -> Result<(), Stop>
    ensures { OnOk result (AddsFindings (rows_of table.now) found.old found.new
        (check.findings_of_row (row_of row.now) (included_at checked.entry (rows_of table.now) (template_of named.entry)))) }
{
    match row {
        Row::Entering(name, state) => if name.as_str() == named.name {
            read_at(checked, named, state, table, found)
        } else {
            Ok(())
        },
        Row::Leaving(_, _, _) => Ok(()),
    }
}

// Reads a template in each state in which it is included.
fn read_template(
    checked: Checked<'_>,
    named: NamedTemplate<'_>,
    table: &Table,
    found: &mut Found,
) -> Result<(), Stop>
    ensures { OnOk result (AddsFindings (rows_of table.now) found.old found.new
        (search.template_findings (user_at checked.entry) (rows_of table.now) (template_of named.entry))) }
{
    let rows = table.rows();
    'rows: for row in rows {
        read_by_row(checked, named, row, table, found)?;
    }
    Ok(())
}

fn collect_template(
    checked: Checked<'_>,
    named: NamedTemplate<'_>,
    table: &Table,
    found: &mut Found,
) -> Result<(), Stop>
    ensures { OnOk result (Collects (rows_of table.now) found.old found.new
        (check.each_once (search.template_findings (user_at checked.entry) (rows_of table.now) (template_of named.entry)))) }
{
    let mut part = Found::new(checked.alloc);
    read_template(checked, named, table, &mut part)?;
    found.append(part)?;
    Ok(())
}

fn collect_templates(checked: Checked<'_>, table: &Table, found: &mut Found) -> Result<(), Stop>
    ensures { OnOk result (Collects (rows_of table.now) found.old found.new
        (search.templates_findings (user_at checked.entry) (rows_of table.now) (templates_at checked.entry))) }
{
    'templates: for named in checked.templates {
        collect_template(checked, *named, table, found)?;
    }
    Ok(())
}

fn collect_pages(checked: Checked<'_>, table: &Table, found: &mut Found) -> Result<(), Stop>
    ensures { OnOk result (Collects (rows_of table.now) found.old found.new
        (check.each_once (search.pages_findings (user_at checked.entry) (rows_of table.now) (templates_at checked.entry)
        (pages_at checked.entry)))) }
{
    let mut part = Found::new(checked.alloc);
    read_pages(checked, table, &mut part)?;
    found.append(part)?;
    Ok(())
}

/// Returns what a round finds: the rows that the table lacks, and all faults.
///
/// # Errors
///
/// Fails if memory runs out, or if there are too many states.
pub fn round(checked: Checked<'_>, table: &Table) -> Result<Found, Stop>
    ensures { IfOk result (λ f. found_of f
        ≡ collected (rows_of table.now) check.no_findings (round_at checked.entry (rows_of table.now))) }
{
    let mut found = Found::new(checked.alloc);
    collect_pages(checked, table, &mut found)?;
    add_faults_of_parts(checked.user, &mut found)?;
    collect_templates(checked, table, &mut found)?;
    Ok(found)
}
