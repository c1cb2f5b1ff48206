//! Hand-built trees, without a rendering.

use crate::answer::{Answer, Stop, shown, shown_if};
use crate::fields::{flag, items, text};
use crate::held::{Held, had};
use crate::made::parameter::{hash_of, parameter_at, parameters_of, spec_of};
use crate::made::tree::{compiled, element_at};
use handlebars_template::template::{
    DecoratorTemplate, ExpressionSpec, HelperTemplate, Parameter, Subexpression, Template,
    TemplateElement,
};
use serde_json::Value as JsonValue;
use std::alloc::{AllocError, Global};
use std::collections::BTreeMap;

/// Returns what a call answers.
pub fn answer(alloc: Global, call: &str, step: &JsonValue) -> Answer {
    match call {
        "new" => shown(alloc, Template::new(alloc)),
        "copy" => copy(alloc, compiled(alloc, text(step, "source"))),
        "spec" => shown_if(alloc, spec_of(alloc, step)),
        "decorator" => decorator(
            alloc,
            spec_of(alloc, step),
            flag(step, "indent_before_write"),
        ),
        "helper" => helper(alloc, spec_of(alloc, step), step),
        "call" => call_and_read(
            alloc,
            call_of(alloc, step),
            parameter_at(alloc, step, "reads"),
        ),
        "no_call" => no_call(alloc, element_at(alloc, step)),
        _ => Err(Stop::Call),
    }
}

// Whether a tree and its copy are equal.
fn copy(alloc: Global, tree: Result<Held<Template>, Stop>) -> Answer {
    match tree {
        Ok(tree) => is(alloc, tree.value.clone(alloc), &tree.value),
        Err(stop) => Err(stop),
    }
}

fn is(alloc: Global, copy: Result<Template, AllocError>, tree: &Template) -> Answer {
    match copy {
        Ok(copy) => shown(alloc, copy == *tree),
        Err(AllocError) => Err(Stop::OutOfMemory),
    }
}

fn decorator(alloc: Global, spec: Result<ExpressionSpec, Stop>, indent: bool) -> Answer {
    match spec {
        Ok(spec) => shown(alloc, DecoratorTemplate::new(spec, indent)),
        Err(stop) => Err(stop),
    }
}

// Whether a call is a block, whether it is chained, and whether whitespace precedes it.
fn helper(alloc: Global, spec: Result<ExpressionSpec, Stop>, step: &JsonValue) -> Answer {
    match spec {
        Ok(spec) => marks(alloc, &template_of(spec, step)),
        Err(stop) => Err(stop),
    }
}

fn template_of(spec: ExpressionSpec, step: &JsonValue) -> HelperTemplate {
    let (block, indent) = (flag(step, "is_block"), flag(step, "indent_before_write"));
    match flag(step, "chain") {
        true => HelperTemplate::new_chain(spec, block, indent),
        false => HelperTemplate::new(spec, block, indent),
    }
}

fn marks(alloc: Global, call: &HelperTemplate) -> Answer {
    shown(
        alloc,
        (call.block, call.is_chained(), call.indent_before_write),
    )
}

// A hand-built call.
fn call_of(alloc: Global, step: &JsonValue) -> Result<Subexpression, Stop> {
    called(
        alloc,
        parameter_at(alloc, step, "name"),
        parameters_of(alloc, items(step, "params")),
        hash_of(alloc, step),
    )
}

fn called(
    alloc: Global,
    name: Result<Parameter, Stop>,
    params: Result<Vec<Parameter>, Stop>,
    hash: Result<BTreeMap<String, Parameter>, Stop>,
) -> Result<Subexpression, Stop> {
    match (name, params, hash) {
        (Ok(name), Ok(params), Ok(hash)) => had(Subexpression::new(alloc, name, params, hash)),
        _ => Err(Stop::Field),
    }
}

// Whether a call is a helper's, its name, whether its element is an expression, and whether a text parses to it.
fn call_and_read(
    alloc: Global,
    call: Result<Subexpression, Stop>,
    read: Result<Parameter, Stop>,
) -> Answer {
    match (call, read) {
        (Ok(call), Ok(Parameter::Subexpression(read))) => compared(alloc, &call, &read),
        _ => Err(Stop::Field),
    }
}

fn compared(alloc: Global, call: &Subexpression, read: &Subexpression) -> Answer {
    let is_expression = matches!(call.as_element(), TemplateElement::Expression(_));
    let is_read = *call == *read;
    shown(
        alloc,
        ((call.is_helper(), call.name()), is_expression, is_read),
    )
}

// For an element that is not a call: whether it is a helper's, its name, its parameters and its hash arguments.
fn no_call(alloc: Global, element: Result<TemplateElement, Stop>) -> Answer {
    match element {
        Ok(element) => instead_of_call(alloc, had(Box::new(alloc, element))),
        Err(stop) => Err(stop),
    }
}

fn instead_of_call(alloc: Global, element: Result<Box<TemplateElement>, Stop>) -> Answer {
    match element {
        Ok(element) => described(alloc, &Subexpression { element }),
        Err(stop) => Err(stop),
    }
}

fn described(alloc: Global, call: &Subexpression) -> Answer {
    shown(
        alloc,
        (
            (call.is_helper(), call.name()),
            (call.params(), call.hash()),
        ),
    )
}
