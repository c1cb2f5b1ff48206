//! What is wrong with a tag: with its name, with its arguments, and with its indentation.

ghost use Rattle.std.specs.Prelude.{OnOk};
ghost use Rattle.handlebars_template.specs.TreeView.{call_view, decorator_view, element_view, hash_view, param_view, params_view};
ghost use Rattle.handlebars_markup.specs.Faults.{whys_of_call, whys_of_inclusion, whys_of_inner, whys_of_hash, whys_of_param, whys_of_params, whys_of_tag};
ghost use Rattle.handlebars_markup.specs.FaultsView.{AddsFindings, faults_in};

use super::asked::{check_first, check_indent, check_no_hash};
use super::location::Location;
use super::name::{check_decorator_name, check_helper_name, check_inclusion_name};
use crate::fault::MarkupFault;
use handlebars_helpers::entries::UserParts;
use handlebars_template::template::{
    DecoratorTemplate, HelperTemplate, Parameter, TemplateElement,
};
use std::alloc::{AllocError, Global};
use std::collections::BTreeMap;

/// Adds what is wrong with the tag of a call, which may be a block or a call in parentheses.
#[cycle(call)]
pub fn check_call_tag<E: UserParts>(
    call: &HelperTemplate,
    alloc: Global,
    entries: &E,
    location: Location<'_>,
    faults: &mut Vec<MarkupFault>,
) -> Result<(), AllocError>
    ensures { OnOk result (AddsFindings faults.old.items faults.new.items
        (faults_in location.entry (whys_of_call (E.registered entries.now) (call_view call.now)))) }
{
    check_helper_name(&call.name, alloc, entries, location, faults)?;
    check_params(&call.params, alloc, entries, location, faults)?;
    check_hash(&call.hash, alloc, entries, location, faults)
}

#[cycle(call)]
fn check_params<E: UserParts>(
    params: &Vec<Parameter>,
    alloc: Global,
    entries: &E,
    location: Location<'_>,
    faults: &mut Vec<MarkupFault>,
) -> Result<(), AllocError>
    ensures { OnOk result (AddsFindings faults.old.items faults.new.items
        (faults_in location.entry (whys_of_params (E.registered entries.now) (params_view params.now.items)))) }
{
    'params: for param in params {
        check_param(param, alloc, entries, location, faults)?;
    }
    Ok(())
}

#[cycle(call)]
fn check_hash<E: UserParts>(
    hash: &BTreeMap<String, Parameter>,
    alloc: Global,
    entries: &E,
    location: Location<'_>,
    faults: &mut Vec<MarkupFault>,
) -> Result<(), AllocError>
    ensures { OnOk result (AddsFindings faults.old.items faults.new.items
        (faults_in location.entry (whys_of_hash (E.registered entries.now) (hash_view hash.now.entries)))) }
{
    'hash: for (_key, param) in hash.iter() {
        check_param(param, alloc, entries, location, faults)?;
    }
    Ok(())
}

#[cycle(call)]
fn check_param<E: UserParts>(
    param: &Parameter,
    alloc: Global,
    entries: &E,
    location: Location<'_>,
    faults: &mut Vec<MarkupFault>,
) -> Result<(), AllocError>
    ensures { OnOk result (AddsFindings faults.old.items faults.new.items
        (faults_in location.entry (whys_of_param (E.registered entries.now) (param_view param.now)))) }
{
    match param {
        Parameter::Name(_) => Ok(()),
        Parameter::Path(_) => Ok(()),
        Parameter::Literal(_) => Ok(()),
        Parameter::Subexpression(call) => {
            check_inner(&call.element, alloc, entries, location, faults)
        }
    }
}

// What is wrong with what is in parentheses: only an expression has a value there.
#[cycle(call)]
fn check_inner<E: UserParts>(
    element: &TemplateElement,
    alloc: Global,
    entries: &E,
    location: Location<'_>,
    faults: &mut Vec<MarkupFault>,
) -> Result<(), AllocError>
    ensures { OnOk result (AddsFindings faults.old.items faults.new.items
        (faults_in location.entry (whys_of_inner (E.registered entries.now) (element_view element.now)))) }
{
    match element {
        TemplateElement::Expression(call) => check_call_tag(call, alloc, entries, location, faults),
        TemplateElement::RawString(_) => Ok(()),
        TemplateElement::HtmlExpression(_) => Ok(()),
        TemplateElement::HelperBlock(_) => Ok(()),
        TemplateElement::DecoratorExpression(_) => Ok(()),
        TemplateElement::DecoratorBlock(_) => Ok(()),
        TemplateElement::PartialExpression(_) => Ok(()),
        TemplateElement::PartialBlock(_) => Ok(()),
        TemplateElement::Comment(_) => Ok(()),
    }
}

/// Adds what is wrong with the tag of a decorator.
pub fn check_decorator_tag<E: UserParts>(
    tag: &DecoratorTemplate,
    alloc: Global,
    entries: &E,
    location: Location<'_>,
    faults: &mut Vec<MarkupFault>,
) -> Result<(), AllocError>
    ensures { OnOk result (AddsFindings faults.old.items faults.new.items
        (faults_in location.entry (whys_of_tag (E.registered entries.now) (decorator_view tag.now)))) }
{
    check_decorator_name(&tag.name, alloc, entries, location, faults)?;
    check_first(&tag.params, alloc, location, faults)?;
    check_params(&tag.params, alloc, entries, location, faults)?;
    check_hash(&tag.hash, alloc, entries, location, faults)
}

/// Adds what is wrong with the tag of an inclusion.
pub fn check_inclusion_tag<E: UserParts>(
    tag: &DecoratorTemplate,
    alloc: Global,
    entries: &E,
    location: Location<'_>,
    faults: &mut Vec<MarkupFault>,
) -> Result<(), AllocError>
    ensures { OnOk result (AddsFindings faults.old.items faults.new.items
        (faults_in location.entry (whys_of_inclusion (E.registered entries.now) (decorator_view tag.now)))) }
{
    check_inclusion_name(&tag.name, alloc, location, faults)?;
    check_no_hash(&tag.hash, alloc, location, faults)?;
    check_indent(&tag.indent, alloc, location, faults)?;
    check_params(&tag.params, alloc, entries, location, faults)?;
    check_hash(&tag.hash, alloc, entries, location, faults)
}
