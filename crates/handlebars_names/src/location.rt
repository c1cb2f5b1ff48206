//! Where in a template the check is, and how a fault is made there.

ghost use Rattle.std.specs.Prelude.{◌≡◌, ◌∷◌, [], IfOk, OnOk, option_map, string_bytes};
ghost use Rattle.handlebars_names.specs.Faults as faults;
ghost use Rattle.handlebars_names.specs.NamesView.{AddsFindings, cause_why, fault_of, faults_in, scope_of, why_of};

use crate::fault::{Finding, NameFault, NameFaultReason};
use crate::scope::Scope;
use crate::spelling::{nearest_helper, nearest_template};
use handlebars_html::search::NamedTemplate;
use handlebars_template::template::TemplateMapping;
use std::alloc::{AllocError, Global};
use std::collections::BTreeSet;

/// The name of the template, and the position of the element in it.
#[derive(Clone, Copy)]
pub struct Location<'t> {
    pub template_name: Option<&'t str>,
    pub position: Option<TemplateMapping>,
}

/// A reason that borrows its name, and the names among which one may be meant: it owns nothing.
#[derive(Clone, Copy)]
pub enum Cause<'t> {
    MissingHelper(&'t str, &'t BTreeSet<String>),
    MissingParams(&'t str, usize),
    MadeName,
    OtherDecorator(&'t str),
    UnnamedInline,
    EmptyInline(&'t str),
    MissingPartial(&'t str, &'t [NamedTemplate<'t>]),
    IncludesItself(&'t str),
    MissingBlock,
    NamedBody(&'t str),
}

/// Adds a fault at this location.
pub fn push_fault(
    alloc: Global,
    location: Location<'_>,
    cause: Cause<'_>,
    findings: &mut Vec<Finding<'_>>,
) -> Result<(), AllocError>
    ensures { OnOk result (AddsFindings findings.old.items findings.new.items
        (faults_in location.entry (cause_why cause.entry ∷ []))) }
{
    findings.push(Finding::Fault(fault(alloc, location, cause)?))?;
    Ok(())
}

/// Adds that a name is included where this is known.
pub fn push_included<'t>(
    alloc: Global,
    name: &str,
    scope: Scope<'t>,
    findings: &mut Vec<Finding<'t>>,
) -> Result<(), AllocError>
    ensures { OnOk result (AddsFindings findings.old.items findings.new.items (faults.includes name.now (scope_of scope.entry) ∷ [])) }
{
    findings.push(Finding::Includes(String::from_str(alloc, name)?, scope))?;
    Ok(())
}

fn fault(alloc: Global, location: Location<'_>, cause: Cause<'_>) -> Result<NameFault, AllocError>
    ensures { IfOk result (λ f. faults.fault (fault_of f) ∷ [] ≡ faults_in location.entry (cause_why cause.entry ∷ [])) }
{
    let (line_no, column_no) = match location.position {
        Some(position) => (Some(position.0), Some(position.1)),
        None => (None, None),
    };
    Ok(NameFault {
        template_name: owned_name(alloc, location.template_name)?,
        line_no,
        column_no,
        reason: owned_reason(alloc, cause)?,
    })
}

fn owned_name(alloc: Global, name: Option<&str>) -> Result<Option<String>, AllocError>
    ensures { IfOk result (λ copy. option_map string_bytes copy ≡ option_map (λ s. s.now) name.entry) }
{
    match name {
        Some(name) => Ok(Some(String::from_str(alloc, name)?)),
        None => Ok(None),
    }
}

fn owned_reason(alloc: Global, cause: Cause<'_>) -> Result<NameFaultReason, AllocError>
    ensures { IfOk result (λ reason. why_of reason ≡ cause_why cause.entry) }
{
    match cause {
        Cause::MissingHelper(name, helpers) => Ok(NameFaultReason::MissingHelper(
            String::from_str(alloc, name)?,
            nearest_helper(alloc, name, helpers)?,
        )),
        Cause::MissingParams(name, needed) => {
            Ok(NameFaultReason::MissingParams(String::from_str(alloc, name)?, needed))
        }
        Cause::MadeName => Ok(NameFaultReason::MadeName),
        Cause::OtherDecorator(name) => {
            Ok(NameFaultReason::OtherDecorator(String::from_str(alloc, name)?))
        }
        Cause::UnnamedInline => Ok(NameFaultReason::UnnamedInline),
        Cause::EmptyInline(name) => Ok(NameFaultReason::EmptyInline(String::from_str(
            alloc, name,
        )?)),
        Cause::MissingPartial(name, templates) => Ok(NameFaultReason::MissingPartial(
            String::from_str(alloc, name)?,
            nearest_template(alloc, name, templates)?,
        )),
        Cause::IncludesItself(name) => {
            Ok(NameFaultReason::IncludesItself(String::from_str(alloc, name)?))
        }
        Cause::MissingBlock => Ok(NameFaultReason::MissingBlock),
        Cause::NamedBody(name) => Ok(NameFaultReason::NamedBody(String::from_str(alloc, name)?)),
    }
}
