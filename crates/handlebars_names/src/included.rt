//! What the tags of inclusions include, and what is known there.

ghost use Rattle.std.specs.Prelude.{◌≡◌, [], if◌then◌else◌, IfOk, OnOk, map, option_map};
ghost use Rattle.handlebars_semantics.specs.Inclusion as inclusion;
ghost use Rattle.handlebars_template.specs.TreeView.{body_view, decorator_view, element_view, tree_view};
ghost use Rattle.handlebars_html.specs.Ascii as definitions;
ghost use Rattle.handlebars_names.specs.Check as check;
ghost use Rattle.handlebars_names.specs.NamesView.{AddsFindings, cause_why, faults_in, included_of, name_of_template, scope_of};
ghost use Rattle.handlebars_names.specs.Scopes as scopes;

use crate::fault::Finding;
use crate::known::Known;
use crate::location::{Cause, Location, push_fault};
use crate::scope::Scope;
use handlebars_html::inclusion::inline_name;
use handlebars_template::template::{DecoratorTemplate, Template, TemplateElement};
use std::alloc::{AllocError, Global};

/// What a tag includes.
#[derive(Clone, Copy)]
pub enum Included<'n> {
    /// What, is known when the template is rendered.
    Made,
    /// The template that it is in.
    Itself(&'n str),
    /// The captured block.
    TheBlock,
    /// A partial.
    Partial(&'n str),
}

fn is_current(name: &str, current: Option<&str>) -> bool
    ensures { result ≡ inclusion.is_current name.now (option_map (λ s. s.now) current.entry) }
{
    match current {
        None => false,
        Some(current) => current == name,
    }
}

/// Returns what a tag of this name includes, in a tree of the other name.
pub fn included_by_name<'n>(current: Option<&str>, name: &'n str) -> Included<'n>
    ensures { included_of result ≡ check.included_by_name (option_map (λ s. s.now) current.entry) name.now }
{
    if is_current(name, current) {
        Included::Itself(name)
    } else if "@partial-block" == name {
        Included::TheBlock
    } else {
        Included::Partial(name)
    }
}

fn is_there(name: &str, scope: &Scope<'_>, known: Known<'_, '_>) -> bool
    ensures { result ≡ check.is_there (definitions.is_one_of (map name_of_template known.entry.templates.now.list.now)) (scope_of scope.now) name.now }
{
    scope.has_partial(name) || known.templates.has(name)
}

fn push_unless_body(
    body: &Option<Template>,
    cause: Cause<'_>,
    alloc: Global,
    location: Location<'_>,
    findings: &mut Vec<Finding<'_>>,
) -> Result<(), AllocError>
    ensures { OnOk result (AddsFindings findings.old.items findings.new.items
        (faults_in location.entry (check.unless_body (body_view body.now) (cause_why cause.entry)))) }
{
    match body {
        None => push_fault(alloc, location, cause, findings),
        Some(_) => Ok(()),
    }
}

fn push_unless(
    fine: bool,
    body: &Option<Template>,
    cause: Cause<'_>,
    alloc: Global,
    location: Location<'_>,
    findings: &mut Vec<Finding<'_>>,
) -> Result<(), AllocError>
    ensures { OnOk result (AddsFindings findings.old.items findings.new.items
        (faults_in location.entry (if fine then [] else check.unless_body (body_view body.now) (cause_why cause.entry)))) }
{
    if fine {
        Ok(())
    } else {
        push_unless_body(body, cause, alloc, location, findings)
    }
}

/// Adds what is wrong with what a tag with this body includes.
pub fn check_included(
    included: Included<'_>,
    body: &Option<Template>,
    scope: &Scope<'_>,
    known: Known<'_, '_>,
    location: Location<'_>,
    findings: &mut Vec<Finding<'_>>,
) -> Result<(), AllocError>
    ensures { OnOk result (AddsFindings findings.old.items findings.new.items
        (faults_in location.entry (check.whys_of_included (definitions.is_one_of (map name_of_template known.entry.templates.now.list.now))
        (scope_of scope.now) (included_of included.entry) (body_view body.now)))) }
{
    let alloc = known.alloc;
    match included {
        Included::Made => push_fault(alloc, location, Cause::MadeName, findings),
        Included::Itself(name) => {
            push_fault(alloc, location, Cause::IncludesItself(name), findings)
        }
        Included::TheBlock => push_unless(
            scope.block,
            body,
            Cause::MissingBlock,
            alloc,
            location,
            findings,
        ),
        Included::Partial(name) => push_unless(
            is_there(name, scope, known),
            body,
            Cause::MissingPartial(name, known.templates.list()),
            alloc,
            location,
            findings,
        ),
    }
}

/// Returns what is known where the block of the tag is rendered.
pub fn block_scope<'t>(
    included: Included<'_>,
    scope: &Scope<'t>,
    known: Known<'_, '_>,
) -> Result<Scope<'t>, AllocError>
    ensures { IfOk result (λ s. scope_of s ≡ check.block_scope
        (definitions.is_one_of (map name_of_template known.entry.templates.now.list.now)) (scope_of scope.now) (included_of included.entry)) }
{
    match included {
        Included::Made => scope.copy(known.alloc, scope.block),
        Included::Itself(_) => scope.copy(known.alloc, scope.block),
        Included::TheBlock => scope.copy(known.alloc, scope.block),
        Included::Partial(name) => {
            scope.copy(known.alloc, is_there(name, scope, known) && scope.block)
        }
    }
}

// ---- what is set

fn add_inline<'t>(tag: &'t DecoratorTemplate, scope: &mut Scope<'t>) -> Result<(), AllocError>
    ensures { OnOk result (scope_of scope.new ≡ scopes.after_decorator (decorator_view tag.now) (scope_of scope.old)) }
{
    match inline_name(&tag.params) {
        Some(name) => scope.add(name),
        None => Ok(()),
    }
}

/// Adds what an element sets for what comes after it.
pub fn add_element<'t>(
    element: &'t TemplateElement,
    scope: &mut Scope<'t>,
) -> Result<(), AllocError>
    ensures { OnOk result (scope_of scope.new ≡ scopes.after_element (element_view element.now) (scope_of scope.old)) }
{
    match element {
        TemplateElement::DecoratorExpression(tag) => add_inline(tag, scope),
        TemplateElement::DecoratorBlock(tag) => add_inline(tag, scope),
        TemplateElement::RawString(_) => Ok(()),
        TemplateElement::HtmlExpression(_) => Ok(()),
        TemplateElement::Expression(_) => Ok(()),
        TemplateElement::HelperBlock(_) => Ok(()),
        TemplateElement::PartialExpression(_) => Ok(()),
        TemplateElement::PartialBlock(_) => Ok(()),
        TemplateElement::Comment(_) => Ok(()),
    }
}

/// Adds what the elements of a tree set.
pub fn add_elements<'t>(template: &'t Template, scope: &mut Scope<'t>) -> Result<(), AllocError>
    ensures { OnOk result (scope_of scope.new ≡ scopes.after_tree (tree_view template.now) (scope_of scope.old)) }
{
    'elements: for element in &template.elements {
        add_element(element, scope)?;
    }
    Ok(())
}

/// Returns what is known in what a tag includes whose block begins where this is known.
pub fn included_scope<'t>(
    body: &'t Option<Template>,
    scope: &Scope<'t>,
    alloc: Global,
) -> Result<Scope<'t>, AllocError>
    ensures { IfOk result (λ s. scope_of s ≡ check.included_scope (body_view body.now) (scope_of scope.now)) }
{
    match body {
        None => scope.copy(alloc, false),
        Some(template) => {
            let mut after = scope.copy(alloc, scope.block)?;
            add_elements(template, &mut after)?;
            after.block = true;
            Ok(after)
        }
    }
}
