//! The search for a table by which pages keep the rule of data, and what it says.

ghost use Rattle.std.specs.Prelude.{◌≡◌, IfOk, map};
ghost use Rattle.handlebars_html.specs.RowsView.{fault_of, rows_of};
ghost use Rattle.handlebars_html.specs.Search as search;
ghost use Rattle.handlebars_html.specs.SearchView.{AreNeededAt, IsVerdictAt, verdict_of};

mod explore;
mod names;
mod readings;
mod rounds;
mod work;

use crate::fault::HtmlFault;
use crate::rows::Table;
use crate::search::explore::{add_rows, explore};
use crate::search::names::Names;
use crate::search::rounds::round;
use crate::search::work::{PAGES, Work};
use crate::stop::Stop;
use crate::user::UserDefined;
use handlebars_template::template::Template;
use std::alloc::{AllocError, Global};

// How often all is read.
const MOST_ROUNDS: usize = 1000;

/// A template, with the name under which it is registered.
#[derive(Clone, Copy)]
pub struct NamedTemplate<'t> {
    pub name: &'t str,
    pub template: &'t Template,
}

/// What is checked, as pages.
#[derive(Clone, Copy)]
pub enum Pages<'t> {
    /// A source.
    Source(&'t Template),
    /// Each template, which may be rendered by its name.
    AllTemplates,
}

/// What is checked, with what is registered.
#[derive(Clone, Copy)]
pub struct Checked<'t> {
    pub alloc: Global,
    pub user: &'t UserDefined,
    /// The registered templates, each name once.
    pub templates: &'t [NamedTemplate<'t>],
    pub pages: Pages<'t>,
}

/// What a check says.
#[derive(Debug, Drop)]
pub enum Verdict {
    /// The pages keep the rule.
    NoFaults,
    /// They don't, for at least one fault.
    Faults(Vec<HtmlFault>),
    /// There are too many states, and nothing is said.
    Undecided,
}

/// Returns what a check says.
///
/// # Errors
///
/// Fails if memory runs out.
pub fn check_pages(checked: Checked<'_>) -> Result<Verdict, AllocError>
    ensures { IfOk result (λ v. IsVerdictAt checked.entry (verdict_of v)) }
{
    match search(checked) {
        Ok(verdict) => Ok(verdict),
        Err(Stop::TooManyStates) => Ok(Verdict::Undecided),
        Err(Stop::OutOfMemory) => Err(AllocError),
    }
}

// What is said where these are all faults.
fn verdict_by(faults: Vec<HtmlFault>) -> Verdict
    ensures { verdict_of result ≡ search.verdict_in (map fault_of faults.items) }
{
    if faults.is_empty() {
        Verdict::NoFaults
    } else {
        Verdict::Faults(faults)
    }
}

// Reads in an order in which little is read twice, and then all once more, until nothing is missing.
fn search(checked: Checked<'_>) -> Result<Verdict, Stop>
    ensures { IfOk result (λ v. IsVerdictAt checked.entry (verdict_of v)) }
{
    let names = Names::new(checked)?;
    let mut table = Table::new(checked.alloc);
    let mut work = Work::new(checked.alloc);
    work.add(PAGES)?;
    search_rounds(checked, &names, &mut table, &mut work)
}

// Searches on from a table with no rows but those that are needed.
fn search_rounds(
    checked: Checked<'_>,
    names: &Names,
    table: &mut Table,
    work: &mut Work,
) -> Result<Verdict, Stop>
    ensures { AreNeededAt checked.entry (rows_of table.old) → IfOk result (λ v. IsVerdictAt checked.entry (verdict_of v)) }
{
    'rounds: for _ in 0..MOST_ROUNDS {
        explore(checked, names, table, work)?;
        let found = round(checked, table)?;
        if found.rows.is_empty() {
            return Ok(verdict_by(found.into_faults()));
        }
        add_rows(found.into_rows(), PAGES, table, work)?;
    }
    Err(Stop::TooManyStates)
}
