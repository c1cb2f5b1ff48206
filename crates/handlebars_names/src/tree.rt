//! What is found in templates.

ghost use Rattle.std.specs.Prelude.{◌≡◌, OnOk, map, option_and_then, option_map, string_bytes};
ghost use Rattle.handlebars_template.specs.Tree.{decorator_args, tree_name};
ghost use Rattle.handlebars_template.specs.TreeView.{body_view, call_view, decorator_view, element_view, position_of, tree_view};
ghost use Rattle.handlebars_html.specs.Rule as rule;
ghost use Rattle.handlebars_names.specs.Check as check;
ghost use Rattle.handlebars_names.specs.NamesView.{AddsFindings, entry_of, faults_in, included_of, names_at, scope_of, table_at};
ghost use Rattle.handlebars_names.specs.Scopes as scopes;

use crate::args::{check_args, check_call_tag};
use crate::fault::Finding;
use crate::included::{
    Included, add_element, block_scope, check_included, included_by_name, included_scope,
};
use crate::known::Known;
use crate::location::{Cause, Location, push_fault, push_included};
use crate::scope::Scope;
use crate::table::{Table, scope_at};
use crate::tag::check_decorator_tag;
use handlebars_helpers::entries::UserParts;
use handlebars_html::effect::written_name;
use handlebars_html::inclusion::inline_name;
use handlebars_template::template::{DecoratorTemplate, HelperTemplate, Template, TemplateElement};
use std::alloc::{AllocError, Global};

fn name_of(template: &Template) -> Option<&str>
    ensures { option_map (λ s. s.now) result ≡ tree_name (tree_view template.now) }
{
    match &template.name {
        Some(name) => Some(name.as_str()),
        None => None,
    }
}

/// Adds what is found in a tree, where this is known.
#[cycle(tree)]
pub fn check_tree<'t, E: UserParts>(
    template: &'t Template,
    scope: &Scope<'t>,
    entries: &E,
    known: Known<'_, 't>,
    name: Option<&str>,
    findings: &mut Vec<Finding<'t>>,
) -> Result<(), AllocError>
    ensures { OnOk result (AddsFindings findings.old.items findings.new.items
        (check.tree_findings (names_at (E.registered entries.now) known.entry) (table_at known.entry)
        (option_map (λ s. s.now) name.entry) (tree_view template.now) (scope_of scope.now))) }
{
    let current = name_of(template);
    let mut here = scope.copy(known.alloc, scope.block)?;
    'elements: for (index, element) in template.elements.iter().enumerate() {
        let location = Location {
            template_name: name,
            position: template.mapping.get(index).copied(),
        };
        check_element(element, current, &here, entries, known, location, findings)?;
        add_element(element, &mut here)?;
    }
    Ok(())
}

#[cycle(tree)]
fn check_element<'t, E: UserParts>(
    element: &'t TemplateElement,
    current: Option<&str>,
    scope: &Scope<'t>,
    entries: &E,
    known: Known<'_, 't>,
    location: Location<'_>,
    findings: &mut Vec<Finding<'t>>,
) -> Result<(), AllocError>
    ensures { OnOk result (AddsFindings findings.old.items findings.new.items
        (check.element_findings (names_at (E.registered entries.now) known.entry) (table_at known.entry)
        (option_map (λ s. s.now) location.entry.template_name) (option_map (λ s. s.now) current.entry)
        (option_map position_of location.entry.position) (element_view element.now) (scope_of scope.now))) }
{
    match element {
        TemplateElement::RawString(_) => Ok(()),
        TemplateElement::HtmlExpression(call) => {
            check_call(call, false, scope, entries, known, location, findings)
        }
        TemplateElement::Expression(call) => {
            check_call(call, false, scope, entries, known, location, findings)
        }
        TemplateElement::HelperBlock(call) => {
            check_call(call, true, scope, entries, known, location, findings)
        }
        TemplateElement::DecoratorExpression(tag) => {
            check_decorator(tag, entries, known, location, findings)
        }
        TemplateElement::DecoratorBlock(tag) => {
            check_decorator(tag, entries, known, location, findings)
        }
        TemplateElement::PartialExpression(tag) => {
            check_inclusion(tag, current, scope, entries, known, location, findings)
        }
        TemplateElement::PartialBlock(tag) => {
            check_inclusion(tag, current, scope, entries, known, location, findings)
        }
        TemplateElement::Comment(_) => Ok(()),
    }
}

#[cycle(tree)]
fn check_call<'t, E: UserParts>(
    call: &'t HelperTemplate,
    block: bool,
    scope: &Scope<'t>,
    entries: &E,
    known: Known<'_, 't>,
    location: Location<'_>,
    findings: &mut Vec<Finding<'t>>,
) -> Result<(), AllocError>
    ensures { OnOk result (AddsFindings findings.old.items findings.new.items
        (check.call_findings (names_at (E.registered entries.now) known.entry) (table_at known.entry)
        (option_map (λ s. s.now) location.entry.template_name) (option_map position_of location.entry.position) block
        (call_view call.now) (scope_of scope.now))) }
{
    check_call_tag(call, block, entries, known, location, findings)?;
    check_body(&call.template, scope, entries, known, location, findings)?;
    check_body(&call.inverse, scope, entries, known, location, findings)
}

fn check_body_name(
    name: Option<&str>,
    alloc: Global,
    location: Location<'_>,
    findings: &mut Vec<Finding<'_>>,
) -> Result<(), AllocError>
    ensures { OnOk result (AddsFindings findings.old.items findings.new.items
        (faults_in location.entry (check.whys_of_body_name (option_map (λ s. s.now) name.entry)))) }
{
    match name {
        Some(name) => push_fault(alloc, location, Cause::NamedBody(name), findings),
        None => Ok(()),
    }
}

#[cycle(tree)]
fn check_body<'t, E: UserParts>(
    body: &'t Option<Template>,
    scope: &Scope<'t>,
    entries: &E,
    known: Known<'_, 't>,
    location: Location<'_>,
    findings: &mut Vec<Finding<'t>>,
) -> Result<(), AllocError>
    ensures { OnOk result (AddsFindings findings.old.items findings.new.items
        (check.body_findings (names_at (E.registered entries.now) known.entry) (table_at known.entry)
        (option_map (λ s. s.now) location.entry.template_name) (option_map position_of location.entry.position)
        (body_view body.now) (scope_of scope.now))) }
{
    match body {
        Some(template) => {
            check_body_name(name_of(template), known.alloc, location, findings)?;
            check_tree(
                template,
                scope,
                entries,
                known,
                location.template_name,
                findings,
            )
        }
        None => Ok(()),
    }
}

// ---- inline partials

fn inline_scope<'a, 't>(tag: &DecoratorTemplate, table: &'a Table<'t>) -> Option<&'a Scope<'t>>
    ensures { option_map (λ s. scope_of s.now) result
        ≡ option_and_then (scopes.scope_at (map entry_of table.now.entries)) (rule.inline_name (decorator_args (decorator_view tag.now))) }
{
    match inline_name(&tag.params) {
        Some(name) => scope_at(table, name),
        None => None,
    }
}

#[cycle(tree)]
fn check_decorator<'t, E: UserParts>(
    tag: &'t DecoratorTemplate,
    entries: &E,
    known: Known<'_, 't>,
    location: Location<'_>,
    findings: &mut Vec<Finding<'t>>,
) -> Result<(), AllocError>
    ensures { OnOk result (AddsFindings findings.old.items findings.new.items
        (check.decorator_findings (names_at (E.registered entries.now) known.entry) (table_at known.entry)
        (option_map (λ s. s.now) location.entry.template_name) (option_map position_of location.entry.position)
        (decorator_view tag.now))) }
{
    check_decorator_tag(tag, entries, known, location, findings)?;
    check_inline_body(
        &tag.template,
        inline_scope(tag, known.table),
        entries,
        known,
        location.template_name,
        findings,
    )
}

// The body of an inline partial is rendered where its name is included.
#[cycle(tree)]
fn check_inline_body<'t, E: UserParts>(
    body: &'t Option<Template>,
    scope: Option<&Scope<'t>>,
    entries: &E,
    known: Known<'_, 't>,
    name: Option<&str>,
    findings: &mut Vec<Finding<'t>>,
) -> Result<(), AllocError>
    ensures { OnOk result (AddsFindings findings.old.items findings.new.items
        (check.inline_findings (names_at (E.registered entries.now) known.entry) (table_at known.entry)
        (option_map (λ s. s.now) name.entry) (body_view body.now) (option_map (λ s. scope_of s.now) scope.entry))) }
{
    match (body, scope) {
        (Some(template), Some(scope)) => {
            check_tree(template, scope, entries, known, name, findings)
        }
        (Some(_), None) => Ok(()),
        (None, _) => Ok(()),
    }
}

// ---- inclusions

fn included_by<'n>(current: Option<&str>, name: &'n Option<String>) -> Included<'n>
    ensures { included_of result ≡ check.included_by (option_map (λ s. s.now) current.entry) (option_map string_bytes name.now) }
{
    match name {
        Some(name) => included_by_name(current, name.as_str()),
        None => Included::Made,
    }
}

fn enter<'t>(
    included: Included<'_>,
    body: &'t Option<Template>,
    scope: &Scope<'t>,
    alloc: Global,
    findings: &mut Vec<Finding<'t>>,
) -> Result<(), AllocError>
    ensures { OnOk result (AddsFindings findings.old.items findings.new.items
        (check.included_findings (included_of included.entry) (body_view body.now) (scope_of scope.now))) }
{
    match included {
        Included::Made => Ok(()),
        Included::Itself(_) => Ok(()),
        Included::TheBlock => Ok(()),
        Included::Partial(name) => {
            push_included(alloc, name, included_scope(body, scope, alloc)?, findings)
        }
    }
}

#[cycle(tree)]
fn check_inclusion<'t, E: UserParts>(
    tag: &'t DecoratorTemplate,
    current: Option<&str>,
    scope: &Scope<'t>,
    entries: &E,
    known: Known<'_, 't>,
    location: Location<'_>,
    findings: &mut Vec<Finding<'t>>,
) -> Result<(), AllocError>
    ensures { OnOk result (AddsFindings findings.old.items findings.new.items
        (check.inclusion_findings (names_at (E.registered entries.now) known.entry) (table_at known.entry)
        (option_map (λ s. s.now) location.entry.template_name) (option_map (λ s. s.now) current.entry)
        (option_map position_of location.entry.position) (decorator_view tag.now) (scope_of scope.now))) }
{
    check_args(&tag.params, &tag.hash, entries, known, location, findings)?;
    let name = written_name(&tag.name, known.alloc)?;
    let included = included_by(current, &name);
    check_included(included, &tag.template, scope, known, location, findings)?;
    let ahead = block_scope(included, scope, known)?;
    enter(included, &tag.template, &ahead, known.alloc, findings)?;
    check_body(&tag.template, &ahead, entries, known, location, findings)
}
