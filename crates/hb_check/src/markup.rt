//! Markup that isn't fixed.

ghost use Rattle.std.specs.Prelude.{◌≡◌, ◌++◌, IfOk, OnOk, map};
ghost use Rattle.std.specs.List.{AllZip};
ghost use Rattle.handlebars_markup.specs.FaultsView.{fault_of};
ghost use Rattle.hb_check.specs.Says as says;
ghost use Rattle.hb_check.specs.Reported.{AddsSome, One, ReportsMarkup};

use crate::code::Code;
use crate::place::{Location, place_of};
use crate::push::{Said, push};
use crate::sources::Sources;
use handlebars_helpers::entries::UserParts;
use handlebars_markup::check::{check_parts, check_template};
use handlebars_markup::fault::{MarkupFault, MarkupFaultReason};
use handlebars_report::{Problem, Severity};
use std::alloc::{AllocError, Global};

/// Adds a problem for each location of these templates that keeps markup from being fixed, in their order.
///
/// # Errors
///
/// Fails if memory runs out.
pub fn add_markup_problems<E: UserParts>(
    alloc: Global,
    entries: &E,
    sources: &Sources<'_>,
    problems: &mut Vec<Problem>,
) -> Result<(), AllocError>
    ensures { OnOk result (AddsSome (AllZip (ReportsMarkup sources.now) (says.markup_faults (E.registered entries.now) sources.now))
        problems.old.items problems.new.items) }
{
    let faults = markup_faults(alloc, entries, sources)?;
    'faults: for fault in &faults {
        add_fault(alloc, sources, fault, problems)?;
    }
    Ok(())
}

// The faults of what a new registry has, and those of the templates.
fn markup_faults<E: UserParts>(
    alloc: Global,
    entries: &E,
    sources: &Sources<'_>,
) -> Result<Vec<MarkupFault>, AllocError>
    ensures { IfOk result (λ fs. map fault_of fs.items ≡ says.markup_faults (E.registered entries.now) sources.now) }
{
    let mut templates = Vec::new(alloc);
    sources.list(&mut templates)?;
    let mut faults = Vec::new(alloc);
    check_parts(alloc, entries, &mut faults)?;
    'templates: for named in &templates {
        check_template(
            alloc,
            entries,
            Some(named.name),
            named.template,
            &mut faults,
        )?;
    }
    Ok(faults)
}

fn add_fault(
    alloc: Global,
    sources: &Sources<'_>,
    fault: &MarkupFault,
    problems: &mut Vec<Problem>,
) -> Result<(), AllocError>
    ensures { OnOk result (AddsSome (One (ReportsMarkup sources.now (fault_of fault.now))) problems.old.items problems.new.items) }
{
    let location = Location::of(&fault.template_name, fault.line_no, fault.column_no);
    let place = place_of(alloc, sources, location)?;
    let reason = &fault.reason;
    let message = format!(in alloc; "{reason}")?;
    let mut help = Vec::new(alloc);
    help.push(String::from_str(alloc, help_for(reason))?)?;
    let said = Said {
        severity: Severity::Error,
        code: Code::Markup,
        message: message.as_str(),
        help: help.as_slice(),
    };
    push(alloc, problems, place, said, Vec::new(alloc))
}

fn help_for(reason: &MarkupFaultReason) -> &'static str {
    match reason {
        MarkupFaultReason::HtmlExpression => "write two braces, not three or `&`",
        MarkupFaultReason::MadeName => {
            "write each name out, for example in the branches of `{{#if}}`"
        }
        MarkupFaultReason::ReadingHelper(_) => {
            "let the data have a boolean instead of comparing texts"
        }
        MarkupFaultReason::UserDecorator(_) => "remove the tag",
        MarkupFaultReason::NameFromValue => "write the name in quotes",
        MarkupFaultReason::InclusionHash => {
            "pass an object of the data, {{> name value}}, instead of hash arguments"
        }
        MarkupFaultReason::MarkedIndent => "write blanks alone before the tag",
        MarkupFaultReason::OtherEscape => "escape values for html",
        MarkupFaultReason::ReadingHook(_) => "remove the hook",
    }
}
