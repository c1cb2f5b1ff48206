//! Trees and their elements.

use crate::answer::Stop;
use crate::fields::{flag, items, owned, text, text_at};
use crate::held::{Held, had, if_made, push, put, taken};
use crate::made::parameter::spec_of;
use handlebars_template::template::{
    DecoratorTemplate, ExpressionSpec, HelperTemplate, Template, TemplateElement, TemplateMapping,
};
use serde_json::Value as JsonValue;
use std::alloc::{AllocError, Global};

/// Compiles a source.
pub fn compiled(alloc: Global, source: &str) -> Result<Held<Template>, Stop> {
    match taken(Template::compile(alloc, source)) {
        Ok(value) => Ok(Held { value }),
        Err(stop) => Err(stop),
    }
}

/// Returns the tree of the field `source`, or the hand-built one of the field `tree`.
pub fn tree_of(alloc: Global, step: &JsonValue) -> Result<Held<Template>, Stop> {
    let mut tree = Held {
        value: Template::new(alloc),
    };
    let made = fill_tree(alloc, &mut tree.value, step);
    if_made(tree, made)
}

fn fill_tree(alloc: Global, tree: &mut Template, step: &JsonValue) -> Result<(), Stop> {
    match step.get("tree") {
        Some(hand_built) => fill_hand_built(alloc, tree, hand_built),
        None => fill_by_source(alloc, tree, step),
    }
}

// If there is a field `indent`, it is the indentation of the partial call that is the first element.
fn fill_by_source(alloc: Global, tree: &mut Template, step: &JsonValue) -> Result<(), Stop> {
    put(tree, taken(Template::compile(alloc, text(step, "source"))))?;
    match step.get("indent") {
        Some(_) => put_indent(&mut tree.elements, owned(alloc, step, "indent")),
        None => Ok(()),
    }
}

fn put_indent(
    elements: &mut Vec<TemplateElement>,
    indent: Result<String, AllocError>,
) -> Result<(), Stop> {
    match elements.get_mut(0) {
        Some(TemplateElement::PartialExpression(tag)) => {
            put(&mut tag.indent, had(indent.map(Some)))
        }
        _ => Err(Stop::Field),
    }
}

fn fill_hand_built(alloc: Global, tree: &mut Template, it: &JsonValue) -> Result<(), Stop> {
    push_elements(alloc, &mut tree.elements, items(it, "elements"))?;
    push_mapping(&mut tree.mapping, items(it, "mapping"))?;
    match it.get("name") {
        Some(_) => put(&mut tree.name, had(owned(alloc, it, "name").map(Some))),
        None => Ok(()),
    }
}

fn push_elements(
    alloc: Global,
    elements: &mut Vec<TemplateElement>,
    all: &[JsonValue],
) -> Result<(), Stop> {
    for it in all {
        push(elements, element_of(alloc, it))?;
    }
    Ok(())
}

fn push_mapping(mapping: &mut Vec<TemplateMapping>, all: &[JsonValue]) -> Result<(), Stop> {
    for position in all {
        push(mapping, position_of(position))?;
    }
    Ok(())
}

// A line and a column.
fn position_of(position: &JsonValue) -> Result<TemplateMapping, Stop> {
    match position.as_array().map(Vec::as_slice) {
        Some([line, column]) => Ok(TemplateMapping(index_of(line), index_of(column))),
        _ => Err(Stop::Field),
    }
}

fn index_of(number: &JsonValue) -> usize {
    number.as_u64().unwrap_or(0) as usize
}

/// Returns a hand-built tree of one element, which is that of the field `element`.
pub fn tree_around(alloc: Global, step: &JsonValue) -> Result<Held<Template>, Stop> {
    let mut tree = Held {
        value: Template::new(alloc),
    };
    let made = push(&mut tree.value.elements, element_at(alloc, step));
    if_made(tree, made)
}

/// Returns the element of the field `element`.
pub fn element_at(alloc: Global, step: &JsonValue) -> Result<TemplateElement, Stop> {
    match step.get("element") {
        Some(element) => element_of(alloc, element),
        None => Err(Stop::Field),
    }
}

// A hand-built element of this `kind`.
fn element_of(alloc: Global, it: &JsonValue) -> Result<TemplateElement, Stop> {
    match text(it, "kind") {
        "comment" => had(owned(alloc, it, "text").map(TemplateElement::Comment)),
        "expression" => call_of(alloc, it).map(TemplateElement::Expression),
        "html" => call_of(alloc, it).map(TemplateElement::HtmlExpression),
        "block" => call_of(alloc, it).map(TemplateElement::HelperBlock),
        "partial" => tag_of(alloc, it).map(TemplateElement::PartialExpression),
        "partial_block" => tag_of(alloc, it).map(TemplateElement::PartialBlock),
        "decorator" => tag_of(alloc, it).map(TemplateElement::DecoratorExpression),
        "decorator_block" => tag_of(alloc, it).map(TemplateElement::DecoratorBlock),
        _ => Err(Stop::Field),
    }
}

// A call. Its field `is_block` says whether it is a block, and its body is compiled from the source `body`.
fn call_of(alloc: Global, it: &JsonValue) -> Result<Box<HelperTemplate>, Stop> {
    let call = boxed(alloc, bare_call(spec_of(alloc, it), flag(it, "is_block")));
    match text_at(it, "body") {
        Some(source) => with_body(call, taken(Template::compile(alloc, source))),
        None => call,
    }
}

fn boxed<T: Drop>(alloc: Global, made: Result<T, Stop>) -> Result<Box<T>, Stop> {
    match made {
        Ok(value) => had(Box::new(alloc, value)),
        Err(stop) => Err(stop),
    }
}

fn bare_call(spec: Result<ExpressionSpec, Stop>, block: bool) -> Result<HelperTemplate, Stop> {
    match spec {
        Ok(spec) => Ok(HelperTemplate::new(spec, block, false)),
        Err(stop) => Err(stop),
    }
}

fn with_body(
    call: Result<Box<HelperTemplate>, Stop>,
    body: Result<Template, Stop>,
) -> Result<Box<HelperTemplate>, Stop> {
    match call {
        Ok(mut call) => {
            let made = put(&mut call.template, body.map(Some));
            if_made(call, made)
        }
        Err(stop) => Err(stop),
    }
}

fn tag_of(alloc: Global, it: &JsonValue) -> Result<Box<DecoratorTemplate>, Stop> {
    boxed(alloc, spec_of(alloc, it).map(unindented))
}

fn unindented(spec: ExpressionSpec) -> DecoratorTemplate {
    DecoratorTemplate::new(spec, false)
}
