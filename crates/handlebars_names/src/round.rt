//! A round: the page and all templates are read by one table.

ghost use Rattle.std.specs.Prelude.{◌≡◌, ◌∷◌, ◌++◌, [], if◌then◌else◌, None, IfOk, OnOk, map, option_map};
ghost use Rattle.std.specs.List.{list_all};
ghost use Rattle.handlebars_template.specs.TreeView.{tree_view};
ghost use Rattle.handlebars_html.specs.Ascii as definitions;
ghost use Rattle.handlebars_html.specs.SearchView.{template_of};
ghost use Rattle.handlebars_names.specs.NamesView.{AddsFindings, entry_of, fault_of, finding_of, name_of_template, names_at, page_of, scope_of, table_at};
ghost use Rattle.handlebars_names.specs.Faults as faults;
ghost use Rattle.handlebars_names.specs.Search as search;

use crate::fault::{Finding, NameFault};
use crate::known::{Known, Page};
use crate::location::{Cause, Location, push_fault, push_included};
use crate::scope::Scope;
use crate::table::{Table, scope_at};
use crate::tree::check_tree;
use handlebars_helpers::entries::UserParts;
use handlebars_html::search::NamedTemplate;
use std::alloc::{AllocError, Global};

fn push_missing(
    name: &str,
    known: Known<'_, '_>,
    findings: &mut Vec<Finding<'_>>,
) -> Result<(), AllocError>
    ensures { OnOk result (AddsFindings findings.old.items findings.new.items
        (if definitions.is_one_of (map name_of_template known.entry.templates.now.list.now) name.now then []
        else faults.faults_at None None (faults.missing_partial name.now ∷ []))) }
{
    if known.templates.has(name) {
        return Ok(());
    }
    let nowhere = Location {
        template_name: None,
        position: None,
    };
    push_fault(
        known.alloc,
        nowhere,
        Cause::MissingPartial(name, known.templates.list()),
        findings,
    )
}

fn check_page<'t, E: UserParts>(
    page: Page<'t>,
    entries: &E,
    known: Known<'_, 't>,
    findings: &mut Vec<Finding<'t>>,
) -> Result<(), AllocError>
    ensures { OnOk result (AddsFindings findings.old.items findings.new.items
        (search.page_findings (names_at (E.registered entries.now) known.entry) (table_at known.entry) (page_of page.entry))) }
{
    let scope = Scope::first(known.alloc);
    match page {
        Page::Source(template) => check_tree(template, &scope, entries, known, None, findings),
        Page::Template(name) => {
            push_included(known.alloc, name, scope, findings)?;
            push_missing(name, known, findings)
        }
    }
}

fn check_under<'t, E: UserParts>(
    scope: Option<&Scope<'t>>,
    named: NamedTemplate<'t>,
    entries: &E,
    known: Known<'_, 't>,
    findings: &mut Vec<Finding<'t>>,
) -> Result<(), AllocError>
    ensures { OnOk result (AddsFindings findings.old.items findings.new.items
        (search.findings_under (names_at (E.registered entries.now) known.entry) (table_at known.entry)
        (option_map (λ s. scope_of s.now) scope.entry) named.entry.name.now (tree_view named.entry.template.now))) }
{
    match scope {
        Some(scope) => {
            check_tree(
                named.template,
                scope,
                entries,
                known,
                Some(named.name),
                findings,
            )
        }
        None => Ok(()),
    }
}

fn check_templates<'t, E: UserParts>(
    entries: &E,
    known: Known<'_, 't>,
    findings: &mut Vec<Finding<'t>>,
) -> Result<(), AllocError>
    ensures { OnOk result (AddsFindings findings.old.items findings.new.items
        (search.templates_findings (names_at (E.registered entries.now) known.entry) (table_at known.entry)
        (map template_of known.entry.templates.now.list.now))) }
{
    'templates: for named in known.templates.list() {
        let scope = scope_at(known.table, named.name);
        check_under(scope, *named, entries, known, findings)?;
    }
    Ok(())
}

/// Returns what a round finds.
///
/// # Errors
///
/// Fails if memory runs out.
pub fn round<'t, E: UserParts>(
    page: Page<'t>,
    entries: &E,
    known: Known<'_, 't>,
) -> Result<Vec<Finding<'t>>, AllocError>
    ensures { IfOk result (λ fs. map finding_of fs.items ≡ search.round (names_at (E.registered entries.now) known.entry)
        (table_at known.entry) (map template_of known.entry.templates.now.list.now) (page_of page.entry)) }
{
    let mut findings = Vec::new(known.alloc);
    check_page(page, entries, known, &mut findings)?;
    check_templates(entries, known, &mut findings)?;
    Ok(findings)
}

// ---- what a round says

fn is_entered(finding: &Finding<'_>, table: &Table<'_>) -> bool
    ensures { result ≡ search.is_entered (map entry_of table.now.entries) (finding_of finding.now) }
{
    match finding {
        Finding::Fault(_) => true,
        Finding::Includes(name, scope) => match scope_at(table, name.as_str()) {
            Some(known) => known.covers(scope),
            None => false,
        },
    }
}

/// Returns whether all that is included is in the table, which has no more than is known there.
pub fn are_entered(findings: &[Finding<'_>], table: &Table<'_>) -> bool
    ensures { result ≡ list_all (search.is_entered (map entry_of table.now.entries)) (map finding_of findings.now) }
{
    'findings: for finding in findings {
        if !is_entered(finding, table) {
            return false;
        }
    }
    true
}

/// Returns the faults alone.
///
/// # Errors
///
/// Fails if memory runs out.
pub fn into_faults(findings: Vec<Finding<'_>>, alloc: Global) -> Result<Vec<NameFault>, AllocError>
    ensures { IfOk result (λ fs. map fault_of fs.items ≡ search.faults_among (map finding_of findings.entry.items)) }
{
    let mut faults = Vec::new(alloc);
    'findings: for finding in findings {
        push_if_fault(finding, &mut faults)?;
    }
    Ok(faults)
}

fn push_if_fault(finding: Finding<'_>, faults: &mut Vec<NameFault>) -> Result<(), AllocError>
    ensures { OnOk result (map fault_of faults.new.items
        ≡ map fault_of faults.old.items ++ search.faults_among (finding_of finding.entry ∷ [])) }
{
    match finding {
        Finding::Fault(fault) => {
            faults.push(fault)?;
            Ok(())
        }
        Finding::Includes(_, _) => Ok(()),
    }
}
