//! The search for what is known wherever a name is included. A round then decides, so no contract speaks of it.

use crate::check::CheckedNames;
use crate::fault::Finding;
use crate::known::Known;
use crate::scope::Scope;
use crate::table::Table;
use crate::templates::Templates;
use crate::tree::check_tree;
use handlebars_helpers::entries::UserParts;
use std::alloc::{AllocError, Global};
use std::collections::BTreeSet;

// How often a template is read before a round.
const MOST_READINGS: usize = 1_000_000;

// Keeps of the first what is known in the other too.
fn meet<'t>(scope: &mut Scope<'t>, other: &Scope<'_>, alloc: Global) -> Result<(), AllocError> {
    let mut partials = Vec::new(alloc);
    for partial in &scope.partials {
        if other.has_partial(partial) {
            partials.push(*partial)?;
        }
    }
    scope.partials = partials;
    scope.block = scope.block && other.block;
    Ok(())
}

// Enters that a name is included where this is known. Returns whether less is known of it now, or it is new.
fn enter<'t>(
    name: &str,
    scope: &Scope<'t>,
    alloc: Global,
    table: &mut Table<'t>,
) -> Result<bool, AllocError> {
    match table.get_mut(name) {
        Some(entered) if entered.covers(scope) => Ok(false),
        Some(entered) => {
            meet(entered, scope, alloc)?;
            Ok(true)
        }
        None => {
            table.insert(
                String::from_str(alloc, name)?,
                scope.copy(alloc, scope.block)?,
            )?;
            Ok(true)
        }
    }
}

// Enters what is included. Each name of which less is known now waits to be read.
fn enter_all<'t>(
    findings: &[Finding<'t>],
    alloc: Global,
    table: &mut Table<'t>,
    waiting: &mut Vec<String>,
) -> Result<(), AllocError> {
    for finding in findings {
        if let Finding::Includes(name, scope) = finding {
            if enter(name.as_str(), scope, alloc, table)? {
                waiting.push(String::from_str(alloc, name.as_str())?)?;
            }
        }
    }
    Ok(())
}

// What is found in the template of a name of the table, if there is one.
fn findings_at<'t, E: UserParts>(
    name: &str,
    entries: &E,
    known: Known<'_, 't>,
) -> Result<Vec<Finding<'t>>, AllocError> {
    let mut findings = Vec::new(known.alloc);
    if let (Some(scope), Some(named)) = (known.table.get(name), known.templates.find(name)) {
        check_tree(
            named.template,
            scope,
            entries,
            known,
            Some(named.name),
            &mut findings,
        )?;
    }
    Ok(findings)
}

fn read_template<'k, 't, E: UserParts>(
    name: &str,
    checked: CheckedNames<'_, 't>,
    entries: &E,
    helpers: &'k BTreeSet<String>,
    templates: &'k Templates<'k, 't>,
    table: &mut Table<'t>,
    waiting: &mut Vec<String>,
) -> Result<(), AllocError> {
    let known = Known {
        alloc: checked.alloc,
        sections: checked.sections,
        helpers: &*helpers,
        templates: &*templates,
        table,
    };
    let findings = findings_at(name, entries, known)?;
    enter_all(&findings, checked.alloc, table, waiting)
}

/// Adds what a round has found to be included to the table, and what the templates of these names include, each read once and once
/// more whenever less of it is known. Bodies of inline partials are read by rounds alone.
///
/// # Errors
///
/// Fails if memory runs out.
pub fn extend<'k, 't, E: UserParts>(
    checked: CheckedNames<'_, 't>,
    entries: &E,
    helpers: &'k BTreeSet<String>,
    templates: &'k Templates<'k, 't>,
    findings: &[Finding<'t>],
    table: &mut Table<'t>,
) -> Result<(), AllocError> {
    let mut waiting = Vec::new(checked.alloc);
    enter_all(findings, checked.alloc, table, &mut waiting)?;
    for _ in 0..MOST_READINGS {
        match waiting.pop() {
            Some(name) => {
                read_template(
                    name.as_str(),
                    checked,
                    entries,
                    helpers,
                    templates,
                    table,
                    &mut waiting,
                )?;
            }
            None => return Ok(()),
        }
    }
    Ok(())
}
