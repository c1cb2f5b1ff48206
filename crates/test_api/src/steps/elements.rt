//! Single elements, of a source or hand-built.

use crate::state::Given;
use crate::steps::render::text_of;
use handlebars::{Evaluable, JsonValue, RenderContext, Template, TemplateElement};
use log::sink::Discard;
use std::alloc::Global;
use test_steps::answer::{Answer, Stop, shown};
use test_steps::fields::{number, text};
use test_steps::held::Held;
use test_steps::made::tree::{compiled, tree_around};

/// Returns what a call answers.
pub fn answer(given: Given<'_>, rc: &mut RenderContext, call: &str, step: &JsonValue) -> Answer {
    let source = text(step, "source");
    match call {
        "count" => count(given.alloc, compiled(given.alloc, source)),
        "render" => {
            let index = number(step, "index") as usize;
            render(given, rc, compiled(given.alloc, source), index)
        }
        "eval" => eval(given, rc, compiled(given.alloc, source)),
        "render_made" => render(given, rc, tree_around(given.alloc, step), 0),
        _ => Err(Stop::Call),
    }
}

fn count(alloc: Global, tree: Result<Held<Template>, Stop>) -> Answer {
    match tree {
        Ok(tree) => shown(alloc, tree.value.elements.len()),
        Err(stop) => Err(stop),
    }
}

// The text of the element at this index.
fn render(
    given: Given<'_>,
    rc: &mut RenderContext,
    tree: Result<Held<Template>, Stop>,
    index: usize,
) -> Answer {
    match tree {
        Ok(tree) => match tree.value.elements.get(index) {
            Some(element) => text_of(given, rc, element),
            None => Err(Stop::Field),
        },
        Err(stop) => Err(stop),
    }
}

// The result of evaluating the first element.
fn eval(given: Given<'_>, rc: &mut RenderContext, tree: Result<Held<Template>, Stop>) -> Answer {
    match tree {
        Ok(tree) => match tree.value.elements.first() {
            Some(element) => evaluated(given, rc, element),
            None => Err(Stop::Field),
        },
        Err(stop) => Err(stop),
    }
}

fn evaluated(given: Given<'_>, rc: &mut RenderContext, element: &TemplateElement) -> Answer {
    let Given {
        alloc,
        registry,
        data,
    } = given;
    shown(alloc, element.eval(alloc, registry, data, rc, &Discard))
}
