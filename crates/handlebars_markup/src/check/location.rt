//! Where in a template the check is, and how a fault is made there.

ghost use Rattle.std.specs.Prelude.{◌≡◌, ◌∷◌, [], IfOk, OnOk, option_map, string_bytes};
ghost use Rattle.handlebars_markup.specs.FaultsView.{AddsFindings, cause_why, fault_of, faults_in, why_of};

use crate::fault::{MarkupFault, MarkupFaultReason};
use handlebars_template::template::TemplateMapping;
use std::alloc::{AllocError, Global};

/// The name of the template, and the position of the element in it.
#[derive(Clone, Copy)]
pub struct Location<'t> {
    pub template_name: Option<&'t str>,
    pub position: Option<TemplateMapping>,
}

/// A reason that borrows its name: it owns nothing.
#[derive(Clone, Copy)]
pub enum Cause<'t> {
    HtmlExpression,
    MadeName,
    ReadingHelper(&'t str),
    UserDecorator(&'t str),
    NameFromValue,
    InclusionHash,
    MarkedIndent,
    OtherEscape,
    ReadingHook(&'t str),
}

/// Adds a fault at this location.
pub fn push_fault(
    alloc: Global,
    location: Location<'_>,
    cause: Cause<'_>,
    faults: &mut Vec<MarkupFault>,
) -> Result<(), AllocError>
    ensures { OnOk result (AddsFindings faults.old.items faults.new.items (faults_in location.entry (cause_why cause.entry ∷ []))) }
{
    faults.push(fault(alloc, location, cause)?)?;
    Ok(())
}

fn fault(alloc: Global, location: Location<'_>, cause: Cause<'_>) -> Result<MarkupFault, AllocError>
    ensures { IfOk result (λ f. fault_of f ∷ [] ≡ faults_in location.entry (cause_why cause.entry ∷ [])) }
{
    let (line_no, column_no) = match location.position {
        Some(position) => (Some(position.0), Some(position.1)),
        None => (None, None),
    };
    Ok(MarkupFault {
        template_name: owned_name(alloc, location.template_name)?,
        line_no,
        column_no,
        reason: owned_reason(alloc, cause)?,
    })
}

fn owned_name(alloc: Global, name: Option<&str>) -> Result<Option<String>, AllocError>
    ensures { IfOk result (λ copy. option_map string_bytes copy ≡ option_map (λ s. s.now) name.entry) }
{
    match name {
        Some(name) => Ok(Some(String::from_str(alloc, name)?)),
        None => Ok(None),
    }
}

fn owned_reason(alloc: Global, cause: Cause<'_>) -> Result<MarkupFaultReason, AllocError>
    ensures { IfOk result (λ reason. why_of reason ≡ cause_why cause.entry) }
{
    match cause {
        Cause::HtmlExpression => Ok(MarkupFaultReason::HtmlExpression),
        Cause::MadeName => Ok(MarkupFaultReason::MadeName),
        Cause::ReadingHelper(name) => {
            Ok(MarkupFaultReason::ReadingHelper(String::from_str(alloc, name)?))
        }
        Cause::UserDecorator(name) => {
            Ok(MarkupFaultReason::UserDecorator(String::from_str(alloc, name)?))
        }
        Cause::NameFromValue => Ok(MarkupFaultReason::NameFromValue),
        Cause::InclusionHash => Ok(MarkupFaultReason::InclusionHash),
        Cause::MarkedIndent => Ok(MarkupFaultReason::MarkedIndent),
        Cause::OtherEscape => Ok(MarkupFaultReason::OtherEscape),
        Cause::ReadingHook(name) => {
            Ok(MarkupFaultReason::ReadingHook(String::from_str(alloc, name)?))
        }
    }
}
