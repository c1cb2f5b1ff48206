//! Whether the names of a page are known: the search for a table, and what it says.

ghost use Rattle.std.specs.Prelude.{◌≡◌, IfOk, IfSome, map};
ghost use Rattle.handlebars_html.specs.SearchView.{template_of};
ghost use Rattle.handlebars_names.specs.NamesView.{fault_of, names_in, page_of, verdict_of};
ghost use Rattle.handlebars_names.specs.Search as search;

use crate::fault::{Finding, NameFault};
use crate::known::{Known, Page};
use crate::round::{are_entered, into_faults, round};
use crate::search::extend;
use crate::table::Table;
use crate::templates::Templates;
use handlebars_helpers::entries::UserParts;
use handlebars_html::search::NamedTemplate;
use std::alloc::{AllocError, Global};
use std::collections::{BTreeMap, BTreeSet};

// How often all is read.
const MOST_ROUNDS: usize = 1000;

/// What is checked, with what is registered beside helpers and decorators.
#[derive(Clone, Copy)]
pub struct CheckedNames<'a, 't> {
    pub alloc: Global,
    /// Whether a block that has no helper acts on the value of its name.
    pub sections: bool,
    /// The registered templates, each name once.
    pub templates: &'a [NamedTemplate<'t>],
    pub page: Page<'t>,
}

/// What a check says.
#[derive(Debug, Drop)]
pub enum Verdict {
    /// The names are known.
    NoFaults,
    /// They aren't, for at least one fault.
    Faults(Vec<NameFault>),
    /// The search went too far, and nothing is said.
    Undecided,
}

fn verdict_by(faults: Vec<NameFault>) -> Verdict
    ensures { verdict_of result ≡ search.verdict_in (map fault_of faults.items) }
{
    if faults.is_empty() {
        Verdict::NoFaults
    } else {
        Verdict::Faults(faults)
    }
}

// ---- what is said

// Returns what is said by this table, if it is closed. Otherwise adds what is included to it.
fn decide<'k, 't, E: UserParts>(
    checked: CheckedNames<'_, 't>,
    entries: &E,
    helpers: &'k BTreeSet<String>,
    templates: &'k Templates<'k, 't>,
    table: &mut Table<'t>,
) -> Result<Option<Verdict>, AllocError>
    ensures { IfOk result (λ o. IfSome o (λ v. search.IsVerdict
        (names_in (E.registered entries.now) checked.entry.sections templates.now.list.now)
        (map template_of templates.now.list.now) (page_of checked.entry.page) (verdict_of v))) }
{
    let known = Known {
        alloc: checked.alloc,
        sections: checked.sections,
        helpers: &*helpers,
        templates: &*templates,
        table,
    };
    let findings = round(checked.page, entries, known)?;
    if are_entered(&findings, table) {
        let faults = into_faults(findings, checked.alloc)?;
        return Ok(Some(verdict_by(faults)));
    }
    extend(checked, entries, helpers, templates, &findings, table)?;
    Ok(None)
}

/// Returns what a check says, over these helpers and decorators.
///
/// # Errors
///
/// Fails if memory runs out.
pub fn check_names<E: UserParts>(
    checked: CheckedNames<'_, '_>,
    entries: &E,
) -> Result<Verdict, AllocError>
    ensures { IfOk result (λ v. search.IsVerdict (names_in (E.registered entries.now) checked.entry.sections checked.entry.templates.now)
        (map template_of checked.entry.templates.now) (page_of checked.entry.page) (verdict_of v)) }
{
    let helpers = entries.helper_names()?;
    let templates = Templates::new(checked.alloc, checked.templates)?;
    let mut table = BTreeMap::new(checked.alloc);
    'rounds: for _ in 0..MOST_ROUNDS {
        if let Some(verdict) = decide(checked, entries, &helpers, &templates, &mut table)? {
            return Ok(verdict);
        }
    }
    Ok(Verdict::Undecided)
}
