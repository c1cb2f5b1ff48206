//! Names that may not stand for anything.

ghost use Rattle.std.specs.Prelude.{◌≡◌, [], IfOk, OnOk, map};
ghost use Rattle.std.specs.List.{AllZip};
ghost use Rattle.handlebars_includes.specs.View.{name_of};
ghost use Rattle.handlebars_names.specs.NamesView.{fault_of, page_of, why_of};
ghost use Rattle.handlebars_names.specs.NamesView as names;
ghost use Rattle.handlebars_report.specs.declared.problem.Severity.TheVariants.{Error};
ghost use Rattle.hb_check.specs.Chains.{AreChained, HasNotes, IsChained};
ghost use Rattle.hb_check.specs.Codes.{code_of_why, severity_of_why};
ghost use Rattle.hb_check.specs.Says.{SaysNames};
ghost use Rattle.hb_check.specs.Reported.{AddsSome, IsKind, One, ReportsName, ReportsNames};
ghost use Rattle.hb_check.specs.declared.code.Code.TheVariants.{NamesUndecided};

use crate::chains::{Chains, notes_of};
use crate::code::Code;
use crate::place::{Location, place_of};
use crate::push::{Said, push};
use crate::sources::Sources;
use crate::words::{Wrong, help_for};
use handlebars_helpers::entries::UserParts;
use handlebars_includes::NamedTemplate;
use handlebars_names::check::{CheckedNames, Verdict, check_names};
use handlebars_names::fault::{NameFault, NameFaultReason};
use handlebars_names::known::Page;
use handlebars_report::{Place, Problem, Severity};
use std::alloc::{AllocError, Global};

/// Adds a problem for each fault of names, in order, with notes of the tags by which its template is reached from a page.
///
/// # Errors
///
/// Fails if memory runs out.
pub fn add_name_problems(
    alloc: Global,
    sources: &Sources<'_>,
    templates: &[NamedTemplate<'_>],
    chains: &Chains,
    verdict: &Verdict,
    problems: &mut Vec<Problem>,
) -> Result<(), AllocError>
    ensures reported { OnOk result (AddsSome (ReportsNames sources.now (names.verdict_of verdict.now)) problems.old.items problems.new.items) }
    ensures chained { OnOk result (AddsSome (AreChained sources.now (map name_of templates.now) chains.now.ways.items (names.verdict_of verdict.now))
        problems.old.items problems.new.items) }
{
    match verdict {
        Verdict::NoFaults => Ok(()),
        Verdict::Faults(faults) => add_faults(alloc, sources, templates, chains, faults, problems),
        Verdict::Undecided => add_undecided(alloc, problems),
    }
}

/// Returns what the check of names says of a page.
///
/// # Errors
///
/// Fails if memory runs out.
pub fn verdict_of<E: UserParts>(
    alloc: Global,
    entries: &E,
    sources: &Sources<'_>,
    page: Page<'_>,
) -> Result<Verdict, AllocError>
    ensures { IfOk result (λ v. SaysNames (E.registered entries.now) sources.now (page_of page.entry) (names.verdict_of v)) }
{
    let mut templates = Vec::new(alloc);
    sources.list(&mut templates)?;
    let checked = CheckedNames {
        alloc,
        sections: true,
        templates: &templates,
        page,
    };
    check_names(checked, entries)
}

fn add_faults(
    alloc: Global,
    sources: &Sources<'_>,
    templates: &[NamedTemplate<'_>],
    chains: &Chains,
    faults: &[NameFault],
    problems: &mut Vec<Problem>,
) -> Result<(), AllocError>
    ensures reported { OnOk result (AddsSome (AllZip (ReportsName sources.now) (map fault_of faults.now)) problems.old.items problems.new.items) }
    ensures chained { OnOk result (AddsSome (AllZip (IsChained sources.now (map name_of templates.now) chains.now.ways.items) (map fault_of faults.now))
        problems.old.items problems.new.items) }
{
    'faults: for fault in faults {
        add_fault(alloc, sources, templates, chains, fault, problems)?;
    }
    Ok(())
}

fn add_fault(
    alloc: Global,
    sources: &Sources<'_>,
    templates: &[NamedTemplate<'_>],
    chains: &Chains,
    fault: &NameFault,
    problems: &mut Vec<Problem>,
) -> Result<(), AllocError>
    ensures reported { OnOk result (AddsSome (One (ReportsName sources.now (fault_of fault.now))) problems.old.items problems.new.items) }
    ensures chained { OnOk result (AddsSome (One (IsChained sources.now (map name_of templates.now) chains.now.ways.items (fault_of fault.now)))
        problems.old.items problems.new.items) }
{
    let location = Location::of(&fault.template_name, fault.line_no, fault.column_no);
    let place = place_of(alloc, sources, location)?;
    let wrong = Wrong(&fault.reason);
    let message = format!(in alloc; "{wrong}")?;
    let help = help_for(alloc, &fault.reason)?;
    let said = Said {
        severity: severity_of(&fault.reason),
        code: code_of(&fault.reason),
        message: message.as_str(),
        help: help.as_slice(),
    };
    let notes = notes_of(alloc, sources, templates, chains, location.template)?;
    push(alloc, problems, place, said, notes)
}

fn add_undecided(alloc: Global, problems: &mut Vec<Problem>) -> Result<(), AllocError>
    ensures reported { OnOk result (AddsSome (One (IsKind Error NamesUndecided)) problems.old.items problems.new.items) }
    ensures chained { OnOk result (AddsSome (One (HasNotes [])) problems.old.items problems.new.items) }
{
    let place = Place::in_text(alloc, "", "", 0..0)?;
    let said = Said {
        severity: Severity::Error,
        code: Code::NamesUndecided,
        message: "the templates include each other in too many ways to be checked",
        help: &[],
    };
    push(alloc, problems, place, said, Vec::new(alloc))
}

fn severity_of(reason: &NameFaultReason) -> Severity
    ensures { result ≡ severity_of_why (why_of reason.now) }
{
    match reason {
        NameFaultReason::MadeName => Severity::Warning,
        _ => Severity::Error,
    }
}

fn code_of(reason: &NameFaultReason) -> Code
    ensures { result ≡ code_of_why (why_of reason.now) }
{
    match reason {
        NameFaultReason::MissingHelper(_, _) => Code::UnknownHelper,
        NameFaultReason::MissingParams(_, _) => Code::MissingParameter,
        NameFaultReason::MadeName => Code::ComputedName,
        NameFaultReason::OtherDecorator(_) => Code::UnknownDecorator,
        NameFaultReason::UnnamedInline => Code::UnnamedInline,
        NameFaultReason::EmptyInline(_) => Code::EmptyInline,
        NameFaultReason::MissingPartial(_, _) => Code::UnknownPartial,
        NameFaultReason::IncludesItself(_) => Code::IncludesItself,
        NameFaultReason::MissingBlock => Code::MissingBlock,
        NameFaultReason::NamedBody(_) => Code::NamedBody,
    }
}
