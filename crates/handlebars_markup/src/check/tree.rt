//! What is wrong in a template.

ghost use Rattle.std.specs.Prelude.{OnOk, option_map};
ghost use Rattle.handlebars_template.specs.TreeView.{body_view, call_view, decorator_view, element_view, position_of, tree_view};
ghost use Rattle.handlebars_markup.specs.Faults.{faults_of_body, faults_of_call, faults_of_element, faults_of_inclusion, faults_of_tag, faults_of_tree};
ghost use Rattle.handlebars_markup.specs.FaultsView.{AddsFindings};

use super::location::{Cause, Location, push_fault};
use super::tag::{check_call_tag, check_decorator_tag, check_inclusion_tag};
use crate::fault::MarkupFault;
use handlebars_helpers::entries::UserParts;
use handlebars_template::template::{DecoratorTemplate, HelperTemplate, Template, TemplateElement};
use std::alloc::{AllocError, Global};

/// Adds what is wrong in a tree: for each element first what is wrong with its tag, and then what is wrong in its body
/// and its inverse.
#[cycle(tree)]
pub fn check_tree<E: UserParts>(
    template: &Template,
    alloc: Global,
    entries: &E,
    name: Option<&str>,
    faults: &mut Vec<MarkupFault>,
) -> Result<(), AllocError>
    ensures { OnOk result (AddsFindings faults.old.items faults.new.items
        (faults_of_tree (E.registered entries.now) (option_map (λ s. s.now) name.entry) (tree_view template.now))) }
{
    'elements: for (index, element) in template.elements.iter().enumerate() {
        let location = Location {
            template_name: name,
            position: template.mapping.get(index).copied(),
        };
        check_element(element, alloc, entries, location, faults)?;
    }
    Ok(())
}

#[cycle(tree)]
fn check_element<E: UserParts>(
    element: &TemplateElement,
    alloc: Global,
    entries: &E,
    location: Location<'_>,
    faults: &mut Vec<MarkupFault>,
) -> Result<(), AllocError>
    ensures { OnOk result (AddsFindings faults.old.items faults.new.items
        (faults_of_element (E.registered entries.now) (option_map (λ s. s.now) location.entry.template_name)
        (option_map position_of location.entry.position) (element_view element.now))) }
{
    match element {
        TemplateElement::RawString(_) => Ok(()),
        TemplateElement::HtmlExpression(_) => {
            push_fault(alloc, location, Cause::HtmlExpression, faults)
        }
        TemplateElement::Expression(call) => check_call(call, alloc, entries, location, faults),
        TemplateElement::HelperBlock(call) => check_call(call, alloc, entries, location, faults),
        TemplateElement::DecoratorExpression(tag) => {
            check_decorator(tag, alloc, entries, location, faults)
        }
        TemplateElement::DecoratorBlock(tag) => {
            check_decorator(tag, alloc, entries, location, faults)
        }
        TemplateElement::PartialExpression(tag) => {
            check_inclusion(tag, alloc, entries, location, faults)
        }
        TemplateElement::PartialBlock(tag) => check_inclusion(
            tag, alloc, entries, location, faults,
        ),
        TemplateElement::Comment(_) => Ok(()),
    }
}

#[cycle(tree)]
fn check_call<E: UserParts>(
    call: &HelperTemplate,
    alloc: Global,
    entries: &E,
    location: Location<'_>,
    faults: &mut Vec<MarkupFault>,
) -> Result<(), AllocError>
    ensures { OnOk result (AddsFindings faults.old.items faults.new.items
        (faults_of_call (E.registered entries.now) (option_map (λ s. s.now) location.entry.template_name)
        (option_map position_of location.entry.position) (call_view call.now))) }
{
    check_call_tag(call, alloc, entries, location, faults)?;
    check_body(
        &call.template,
        alloc,
        entries,
        location.template_name,
        faults,
    )?;
    check_body(
        &call.inverse,
        alloc,
        entries,
        location.template_name,
        faults,
    )
}

#[cycle(tree)]
fn check_decorator<E: UserParts>(
    tag: &DecoratorTemplate,
    alloc: Global,
    entries: &E,
    location: Location<'_>,
    faults: &mut Vec<MarkupFault>,
) -> Result<(), AllocError>
    ensures { OnOk result (AddsFindings faults.old.items faults.new.items
        (faults_of_tag (E.registered entries.now) (option_map (λ s. s.now) location.entry.template_name)
        (option_map position_of location.entry.position) (decorator_view tag.now))) }
{
    check_decorator_tag(tag, alloc, entries, location, faults)?;
    check_body(
        &tag.template,
        alloc,
        entries,
        location.template_name,
        faults,
    )
}

#[cycle(tree)]
fn check_inclusion<E: UserParts>(
    tag: &DecoratorTemplate,
    alloc: Global,
    entries: &E,
    location: Location<'_>,
    faults: &mut Vec<MarkupFault>,
) -> Result<(), AllocError>
    ensures { OnOk result (AddsFindings faults.old.items faults.new.items
        (faults_of_inclusion (E.registered entries.now) (option_map (λ s. s.now) location.entry.template_name)
        (option_map position_of location.entry.position) (decorator_view tag.now))) }
{
    check_inclusion_tag(tag, alloc, entries, location, faults)?;
    check_body(
        &tag.template,
        alloc,
        entries,
        location.template_name,
        faults,
    )
}

#[cycle(tree)]
fn check_body<E: UserParts>(
    body: &Option<Template>,
    alloc: Global,
    entries: &E,
    name: Option<&str>,
    faults: &mut Vec<MarkupFault>,
) -> Result<(), AllocError>
    ensures { OnOk result (AddsFindings faults.old.items faults.new.items
        (faults_of_body (E.registered entries.now) (option_map (λ s. s.now) name.entry) (body_view body.now))) }
{
    match body {
        Some(template) => check_tree(template, alloc, entries, name, faults),
        None => Ok(()),
    }
}
