//! What is required of decorators and of inclusions besides their names.

ghost use Rattle.std.specs.Prelude.{[], OnOk, option_map, unwrap_or};
ghost use Rattle.handlebars_base.specs.EscapeLaws.{marks_in};
ghost use Rattle.handlebars_template.specs.Tree.{lacks_hash};
ghost use Rattle.handlebars_template.specs.TreeView.{hash_view, params_view, text};
ghost use Rattle.handlebars_markup.specs.Faults.{inclusion_hash, unless, whys_of_first, whys_of_marks};
ghost use Rattle.handlebars_markup.specs.FaultsView.{AddsFindings, faults_in};

use super::blind::has_marks;
use super::location::{Cause, Location, push_fault};
use crate::fault::MarkupFault;
use handlebars_template::template::Parameter;
use std::alloc::{AllocError, Global};
use std::collections::BTreeMap;

/// Adds what is wrong with the first parameter of a decorator, if there is one: it has to be a literal.
pub fn check_first(
    params: &Vec<Parameter>,
    alloc: Global,
    location: Location<'_>,
    faults: &mut Vec<MarkupFault>,
) -> Result<(), AllocError>
    ensures { OnOk result (AddsFindings faults.old.items faults.new.items
        (faults_in location.entry (whys_of_first (params_view params.now.items)))) }
{
    match params.first() {
        Some(Parameter::Literal(_)) => Ok(()),
        Some(Parameter::Name(_)) => push_fault(alloc, location, Cause::NameFromValue, faults),
        Some(Parameter::Path(_)) => push_fault(alloc, location, Cause::NameFromValue, faults),
        Some(Parameter::Subexpression(_)) => push_fault(
            alloc,
            location,
            Cause::NameFromValue,
            faults,
        ),
        None => Ok(()),
    }
}

/// Adds what is wrong with the hash arguments of an inclusion: there must be none.
pub fn check_no_hash(
    hash: &BTreeMap<String, Parameter>,
    alloc: Global,
    location: Location<'_>,
    faults: &mut Vec<MarkupFault>,
) -> Result<(), AllocError>
    ensures { OnOk result (AddsFindings faults.old.items faults.new.items
        (faults_in location.entry (unless (lacks_hash (hash_view hash.now.entries)) inclusion_hash))) }
{
    if hash.is_empty() {
        return Ok(());
    }
    push_fault(alloc, location, Cause::InclusionHash, faults)
}

/// Adds what is wrong with the indentation of an inclusion, if it has one: it must have no marks.
pub fn check_indent(
    indent: &Option<String>,
    alloc: Global,
    location: Location<'_>,
    faults: &mut Vec<MarkupFault>,
) -> Result<(), AllocError>
    ensures { OnOk result (AddsFindings faults.old.items faults.new.items
        (faults_in location.entry (whys_of_marks (marks_in (unwrap_or (option_map text indent.now) []))))) }
{
    match indent {
        Some(indent) => check_indentation(indent.as_str(), alloc, location, faults),
        None => Ok(()),
    }
}

fn check_indentation(
    indent: &str,
    alloc: Global,
    location: Location<'_>,
    faults: &mut Vec<MarkupFault>,
) -> Result<(), AllocError>
    ensures { OnOk result (AddsFindings faults.old.items faults.new.items
        (faults_in location.entry (whys_of_marks (marks_in indent.now)))) }
{
    if has_marks(indent) {
        return push_fault(alloc, location, Cause::MarkedIndent, faults);
    }
    Ok(())
}
