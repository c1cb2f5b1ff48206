//! What is wrong with the names of arguments, and with the tag of a call.

ghost use Rattle.std.specs.Prelude.{◌≡◌, ◌&&◌, ◌∷◌, [], if◌then◌else◌, OnOk};
ghost use Rattle.handlebars_semantics.specs.Origins.{is_lone};
ghost use Rattle.handlebars_template.specs.Tree.{args, call_name, is_value};
ghost use Rattle.handlebars_template.specs.TreeView.{call_view, element_view, hash_view, param_view, params_view};
ghost use Rattle.handlebars_html.specs.Rule.{written_name};
ghost use Rattle.handlebars_names.specs.Faults.{missing_helper};
ghost use Rattle.handlebars_names.specs.NamesView.{AddsFindings, faults_in, names_at, whys_in};
ghost use Rattle.handlebars_names.specs.Whys as whys;

use crate::callee::check_name;
use crate::fault::Finding;
use crate::known::Known;
use crate::location::{Cause, Location, push_fault};
use handlebars_base::json::path::marks::all_symbols;
use handlebars_base::json::value::JsonRender;
use handlebars_helpers::entries::UserParts;
use handlebars_template::template::{HelperTemplate, Parameter, TemplateElement};
use std::alloc::AllocError;
use std::collections::{BTreeMap, BTreeSet};

// ---- names of calls

fn is_identifier(name: &str) -> bool
    ensures { result ≡ whys.is_identifier name.now }
{
    !name.is_empty() && all_symbols(name)
}

fn leads_to_value(name: &Parameter) -> bool
    ensures { result ≡ whys.leads_to_value (param_view name.now) }
{
    match name {
        Parameter::Name(name) => is_identifier(name.as_str()),
        Parameter::Path(_) => true,
        Parameter::Literal(_) => false,
        Parameter::Subexpression(_) => false,
    }
}

fn is_lone(block: bool, call: &HelperTemplate) -> bool
    ensures { result ≡ is_lone block (call_view call.now) }
{
    !block && call.is_value()
}

fn is_section(block: bool, call: &HelperTemplate, sections: bool) -> bool
    ensures { result ≡ ((sections && (block && is_value (call_view call.now))) && whys.leads_to_value (call_name (call_view call.now))) }
{
    (sections && (block && call.is_value())) && leads_to_value(&call.name)
}

fn needs_helper(block: bool, call: &HelperTemplate, sections: bool) -> bool
    ensures { result ≡ whys.needs_helper sections block (call_view call.now) }
{
    !(is_lone(block, call) || is_section(block, call, sections))
}

fn missing<'n>(
    name: &'n str,
    needs_helper: bool,
    helpers: &'n BTreeSet<String>,
) -> Option<Cause<'n>>
    ensures { whys_in result ≡ (if needs_helper then missing_helper name.now ∷ [] else []) }
{
    if needs_helper {
        Some(Cause::MissingHelper(name, helpers))
    } else {
        None
    }
}

fn check_helped<E: UserParts>(
    name: &str,
    block: bool,
    params: &[Parameter],
    needs_helper: bool,
    entries: &E,
    known: Known<'_, '_>,
    location: Location<'_>,
    findings: &mut Vec<Finding<'_>>,
) -> Result<(), AllocError>
    ensures { OnOk result (AddsFindings findings.old.items findings.new.items
        (faults_in location.entry (whys.whys_of_name (names_at (E.registered entries.now) known.entry) block (params_view params.now)
        (if needs_helper then missing_helper name.now ∷ [] else []) name.now))) }
{
    check_name(
        name,
        block,
        params,
        missing(name, needs_helper, known.helpers),
        entries,
        known,
        location,
        findings,
    )
}

// What is wrong with the name of a call, of a block or not, with these parameters.
fn check_written<E: UserParts>(
    name: &Parameter,
    block: bool,
    params: &[Parameter],
    needs_helper: bool,
    entries: &E,
    known: Known<'_, '_>,
    location: Location<'_>,
    findings: &mut Vec<Finding<'_>>,
) -> Result<(), AllocError>
    ensures { OnOk result (AddsFindings findings.old.items findings.new.items
        (faults_in location.entry (whys.by_written_name (written_name (param_view name.now))
        (λ n. whys.whys_of_name (names_at (E.registered entries.now) known.entry) block (params_view params.now)
        (if needs_helper then missing_helper n ∷ [] else []) n)))) }
{
    match name {
        Parameter::Name(name) => check_helped(
            name.as_str(),
            block,
            params,
            needs_helper,
            entries,
            known,
            location,
            findings,
        ),
        Parameter::Path(path) => check_helped(
            path.raw(),
            block,
            params,
            needs_helper,
            entries,
            known,
            location,
            findings,
        ),
        Parameter::Literal(value) => check_helped(
            &value.render(known.alloc)?,
            block,
            params,
            needs_helper,
            entries,
            known,
            location,
            findings,
        ),
        Parameter::Subexpression(_) => push_fault(known.alloc, location, Cause::MadeName, findings),
    }
}

// ---- arguments

/// Adds what is wrong with arguments.
pub fn check_args<E: UserParts>(
    params: &Vec<Parameter>,
    hash: &BTreeMap<String, Parameter>,
    entries: &E,
    known: Known<'_, '_>,
    location: Location<'_>,
    findings: &mut Vec<Finding<'_>>,
) -> Result<(), AllocError>
    ensures { OnOk result (AddsFindings findings.old.items findings.new.items
        (faults_in location.entry (whys.whys_of_args (names_at (E.registered entries.now) known.entry)
        (args (params_view params.now.items) (hash_view hash.now.entries))))) }
{
    check_params(params, entries, known, location, findings)?;
    check_hash(hash, entries, known, location, findings)
}

#[cycle(call)]
fn check_params<E: UserParts>(
    params: &Vec<Parameter>,
    entries: &E,
    known: Known<'_, '_>,
    location: Location<'_>,
    findings: &mut Vec<Finding<'_>>,
) -> Result<(), AllocError>
    ensures { OnOk result (AddsFindings findings.old.items findings.new.items
        (faults_in location.entry (whys.whys_of_list (names_at (E.registered entries.now) known.entry) (params_view params.now.items)))) }
{
    'params: for param in params {
        check_param(param, entries, known, location, findings)?;
    }
    Ok(())
}

#[cycle(call)]
fn check_hash<E: UserParts>(
    hash: &BTreeMap<String, Parameter>,
    entries: &E,
    known: Known<'_, '_>,
    location: Location<'_>,
    findings: &mut Vec<Finding<'_>>,
) -> Result<(), AllocError>
    ensures { OnOk result (AddsFindings findings.old.items findings.new.items
        (faults_in location.entry (whys.whys_of_hash (names_at (E.registered entries.now) known.entry) (hash_view hash.now.entries)))) }
{
    'hash: for (_key, param) in hash.iter() {
        check_param(param, entries, known, location, findings)?;
    }
    Ok(())
}

#[cycle(call)]
fn check_param<E: UserParts>(
    param: &Parameter,
    entries: &E,
    known: Known<'_, '_>,
    location: Location<'_>,
    findings: &mut Vec<Finding<'_>>,
) -> Result<(), AllocError>
    ensures { OnOk result (AddsFindings findings.old.items findings.new.items
        (faults_in location.entry (whys.whys_of_param (names_at (E.registered entries.now) known.entry) (param_view param.now)))) }
{
    match param {
        Parameter::Name(_) => Ok(()),
        Parameter::Path(_) => Ok(()),
        Parameter::Literal(_) => Ok(()),
        Parameter::Subexpression(inner) => {
            check_inner(&inner.element, entries, known, location, findings)
        }
    }
}

// What is wrong with what is in parentheses: only an expression has a value there.
#[cycle(call)]
fn check_inner<E: UserParts>(
    element: &TemplateElement,
    entries: &E,
    known: Known<'_, '_>,
    location: Location<'_>,
    findings: &mut Vec<Finding<'_>>,
) -> Result<(), AllocError>
    ensures { OnOk result (AddsFindings findings.old.items findings.new.items
        (faults_in location.entry (whys.whys_of_inner (names_at (E.registered entries.now) known.entry) (element_view element.now)))) }
{
    match element {
        TemplateElement::Expression(call) => {
            check_inner_call(call, entries, known, location, findings)
        }
        TemplateElement::RawString(_) => Ok(()),
        TemplateElement::HtmlExpression(_) => Ok(()),
        TemplateElement::HelperBlock(_) => Ok(()),
        TemplateElement::DecoratorExpression(_) => Ok(()),
        TemplateElement::DecoratorBlock(_) => Ok(()),
        TemplateElement::PartialExpression(_) => Ok(()),
        TemplateElement::PartialBlock(_) => Ok(()),
        TemplateElement::Comment(_) => Ok(()),
    }
}

#[cycle(call)]
fn check_inner_call<E: UserParts>(
    call: &HelperTemplate,
    entries: &E,
    known: Known<'_, '_>,
    location: Location<'_>,
    findings: &mut Vec<Finding<'_>>,
) -> Result<(), AllocError>
    ensures { OnOk result (AddsFindings findings.old.items findings.new.items
        (faults_in location.entry (whys.whys_of_inner_call (names_at (E.registered entries.now) known.entry) (call_view call.now)))) }
{
    check_params(&call.params, entries, known, location, findings)?;
    check_hash(&call.hash, entries, known, location, findings)?;
    check_written(
        &call.name,
        false,
        &call.params,
        true,
        entries,
        known,
        location,
        findings,
    )
}

/// Adds what is wrong with the tag of a call, of a block or of an expression.
pub fn check_call_tag<E: UserParts>(
    call: &HelperTemplate,
    block: bool,
    entries: &E,
    known: Known<'_, '_>,
    location: Location<'_>,
    findings: &mut Vec<Finding<'_>>,
) -> Result<(), AllocError>
    ensures { OnOk result (AddsFindings findings.old.items findings.new.items
        (faults_in location.entry (whys.whys_of_call (names_at (E.registered entries.now) known.entry) block (call_view call.now)))) }
{
    check_args(&call.params, &call.hash, entries, known, location, findings)?;
    check_written(
        &call.name,
        block,
        &call.params,
        needs_helper(block, call, known.sections),
        entries,
        known,
        location,
        findings,
    )
}
