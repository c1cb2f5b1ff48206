//! The order in which rows are read, so that little is read twice.

ghost use Rattle.std.specs.Prelude.{◌≡◌, IfOk, OnOk, map};
ghost use Rattle.handlebars_html.specs.Rows.{with_rows};
ghost use Rattle.handlebars_html.specs.RowsView.{row_of, rows_of};
ghost use Rattle.handlebars_html.specs.SearchView.{AreNeededAt};

use crate::found::Found;
use crate::rows::{Row, Table};
use crate::search::Checked;
use crate::search::names::Names;
use crate::search::readings::{read_at, read_pages};
use crate::search::work::Work;
use crate::stop::Stop;
use std::alloc::AllocError;

// How often something is read, for each template.
const MOST_READINGS: usize = 1000;

// Decides what is to be read once this row is added.
fn order(row: &Row, reader: usize, table: &Table, work: &mut Work) -> Result<(), AllocError> {
    match row {
        Row::Entering(name, state) => match table.place_of(name.as_str(), state) {
            Some(place) => work.add_reader(place, reader),
            None => {
                work.add_reader(table.len(), reader)?;
                work.add(table.len().saturating_add(1))
            }
        },
        Row::Leaving(name, state, _) => match table.place_of(name.as_str(), state) {
            Some(place) => work.add_readers(place),
            None => Ok(()),
        },
    }
}

/// Adds rows that were found where this was read.
///
/// # Errors
///
/// Fails if memory runs out.
pub fn add_rows(
    rows: Vec<Row>,
    reader: usize,
    table: &mut Table,
    work: &mut Work,
) -> Result<(), AllocError>
    ensures { OnOk result (rows_of table.new ≡ with_rows (rows_of table.old) (map row_of rows.items)) }
{
    'rows: for row in rows {
        order(&row, reader, table, work)?;
        table.add(row)?;
    }
    Ok(())
}

// Reads what the row at this place says is included, if it is a template. If it is none, it may be an inline partial.
fn read_row(
    checked: Checked<'_>,
    names: &Names,
    place: usize,
    table: &Table,
    work: &mut Work,
) -> Result<Found, Stop>
    ensures { IfOk result (λ f. AreNeededAt checked.entry (rows_of table.now)
        → AreNeededAt checked.entry (map row_of f.rows.items)) }
{
    let mut found = Found::new(checked.alloc);
    match table.rows().get(place) {
        Some(Row::Entering(name, state)) => match names.find(checked, name.as_str()) {
            Some(named) => read_at(checked, named, state, table, &mut found)?,
            None => work.add_inlines()?,
        },
        Some(Row::Leaving(_, _, _)) => {}
        None => {}
    }
    Ok(found)
}

// Reads the pages, or what a row says.
fn read_next(
    checked: Checked<'_>,
    names: &Names,
    next: usize,
    table: &Table,
    work: &mut Work,
) -> Result<Found, Stop>
    ensures { IfOk result (λ f. AreNeededAt checked.entry (rows_of table.now)
        → AreNeededAt checked.entry (map row_of f.rows.items)) }
{
    match next.checked_sub(1) {
        Some(place) => read_row(checked, names, place, table, work),
        None => {
            let mut found = Found::new(checked.alloc);
            read_pages(checked, table, &mut found)?;
            Ok(found)
        }
    }
}

/// Reads what waits, and what is to be read again for it, and adds the rows that are found.
///
/// # Errors
///
/// Fails if memory runs out, or if there are too many states.
pub fn explore(
    checked: Checked<'_>,
    names: &Names,
    table: &mut Table,
    work: &mut Work,
) -> Result<(), Stop>
    ensures { OnOk result (AreNeededAt checked.entry (rows_of table.old) → AreNeededAt checked.entry (rows_of table.new)) }
{
    let most = checked
        .templates
        .len()
        .saturating_add(1)
        .saturating_mul(MOST_READINGS);
    'readings: for _ in 0..most {
        let next = match work.take() {
            Some(next) => next,
            None => return Ok(()),
        };
        let found = read_next(checked, names, next, table, work)?;
        work.note(next, &found)?;
        add_rows(found.into_rows(), next, table, work)?;
    }
    Err(Stop::TooManyStates)
}
