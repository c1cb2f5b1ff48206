//! What is wrong with the names of tags.

ghost use Rattle.std.specs.Prelude.{[], OnOk};
ghost use Rattle.handlebars_template.specs.TreeView.{param_view};
ghost use Rattle.handlebars_markup.specs.Faults.{whys_of_decorator, whys_of_helper, whys_of_name};
ghost use Rattle.handlebars_markup.specs.FaultsView.{AddsFindings, faults_in};

use super::blind::{calls_blind, decorates_blind};
use super::location::{Cause, Location, push_fault};
use crate::fault::MarkupFault;
use handlebars_base::json::value::JsonRender;
use handlebars_helpers::entries::UserParts;
use handlebars_template::template::Parameter;
use std::alloc::{AllocError, Global};

/// Adds what is wrong with the name of a call.
pub fn check_helper_name<E: UserParts>(
    name: &Parameter,
    alloc: Global,
    entries: &E,
    location: Location<'_>,
    faults: &mut Vec<MarkupFault>,
) -> Result<(), AllocError>
    ensures { OnOk result (AddsFindings faults.old.items faults.new.items
        (faults_in location.entry (whys_of_name (whys_of_helper (E.registered entries.now)) (param_view name.now)))) }
{
    match name {
        Parameter::Name(name) => check_helper(name.as_str(), alloc, entries, location, faults),
        Parameter::Path(path) => check_helper(path.raw(), alloc, entries, location, faults),
        Parameter::Literal(value) => {
            check_helper(&value.render(alloc)?, alloc, entries, location, faults)
        }
        Parameter::Subexpression(_) => push_fault(alloc, location, Cause::MadeName, faults),
    }
}

/// Adds what is wrong with the name of a decorator.
pub fn check_decorator_name<E: UserParts>(
    name: &Parameter,
    alloc: Global,
    entries: &E,
    location: Location<'_>,
    faults: &mut Vec<MarkupFault>,
) -> Result<(), AllocError>
    ensures { OnOk result (AddsFindings faults.old.items faults.new.items
        (faults_in location.entry (whys_of_name (whys_of_decorator (E.registered entries.now)) (param_view name.now)))) }
{
    match name {
        Parameter::Name(name) => check_decorator(name.as_str(), alloc, entries, location, faults),
        Parameter::Path(path) => check_decorator(path.raw(), alloc, entries, location, faults),
        Parameter::Literal(value) => {
            check_decorator(&value.render(alloc)?, alloc, entries, location, faults)
        }
        Parameter::Subexpression(_) => push_fault(alloc, location, Cause::MadeName, faults),
    }
}

/// Adds what is wrong with the name of an inclusion.
pub fn check_inclusion_name(
    name: &Parameter,
    alloc: Global,
    location: Location<'_>,
    faults: &mut Vec<MarkupFault>,
) -> Result<(), AllocError>
    ensures { OnOk result (AddsFindings faults.old.items faults.new.items
        (faults_in location.entry (whys_of_name (λ t. []) (param_view name.now)))) }
{
    match name {
        Parameter::Name(_) => Ok(()),
        Parameter::Path(_) => Ok(()),
        Parameter::Literal(_) => Ok(()),
        Parameter::Subexpression(_) => push_fault(alloc, location, Cause::MadeName, faults),
    }
}

fn check_helper<E: UserParts>(
    name: &str,
    alloc: Global,
    entries: &E,
    location: Location<'_>,
    faults: &mut Vec<MarkupFault>,
) -> Result<(), AllocError>
    ensures { OnOk result (AddsFindings faults.old.items faults.new.items
        (faults_in location.entry (whys_of_helper (E.registered entries.now) name.now))) }
{
    if calls_blind(entries, name) {
        return Ok(());
    }
    push_fault(alloc, location, Cause::ReadingHelper(name), faults)
}

fn check_decorator<E: UserParts>(
    name: &str,
    alloc: Global,
    entries: &E,
    location: Location<'_>,
    faults: &mut Vec<MarkupFault>,
) -> Result<(), AllocError>
    ensures { OnOk result (AddsFindings faults.old.items faults.new.items
        (faults_in location.entry (whys_of_decorator (E.registered entries.now) name.now))) }
{
    if decorates_blind(entries, name) {
        return Ok(());
    }
    push_fault(alloc, location, Cause::UserDecorator(name), faults)
}
