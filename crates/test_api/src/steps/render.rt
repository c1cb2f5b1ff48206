//! Calls that render.

use crate::caller::rendered_again;
use crate::state::Given;
use crate::steps::functions;
use crate::strangers::{rendered_alike, rendered_safely};
use handlebars::{
    Context, Decorator, Expand, JsonValue, NoFiles, Parameter, Registry, RenderContext,
    RenderError, Renderable, StringOutput, Template, expand_partial,
};
use log::sink::Discard;
use std::alloc::{AllocError, Global};
use std::fmt::Display;
use test_steps::answer::{Answer, Stop, done, error_in, name_in, printed, said, shown};
use test_steps::fields::{text, text_at};
use test_steps::held::Held;
use test_steps::made::data::context_of;
use test_steps::made::parameter::parameter_at;
use test_steps::made::tree::{compiled, tree_of};
use test_steps::made::view::decorator_of;
use test_steps::value::expanded;

/// Returns what a call answers.
pub fn answer(
    given: Given<'_>,
    rc: &mut RenderContext,
    out: &mut StringOutput,
    call: &str,
    step: &JsonValue,
) -> Answer {
    match call {
        "tree" => texts(given, rc, tree_of(given.alloc, step)),
        "write" => writes(given, rc, out, tree_of(given.alloc, step)),
        "partial" => partial(given.alloc, rc, text(step, "name")),
        "include" => include(given, rc, step),
        "expand" => expand(given, rc, parameter_at(given.alloc, step, "parameter")),
        "expand_as_name" => {
            expand_as_name(given, rc, parameter_at(given.alloc, step, "parameter"))
        }
        "with_functions" => functions::rendered(given.alloc, step),
        _ => of_registry(given, call, step),
    }
}

fn of_registry(given: Given<'_>, call: &str, step: &JsonValue) -> Answer {
    let Given {
        alloc,
        registry,
        data,
    } = given;
    let source = text(step, "source");
    match call {
        "source" => shown(alloc, of_source(given, source)),
        "name" => shown(
            alloc,
            registry.render_with_context(text(step, "name"), data, &Discard, &mut NoFiles),
        ),
        "error_name" => name_in(alloc, of_source(given, source)),
        "error" => error_in(alloc, of_source(given, source)),
        "again" => shown(alloc, rendered_again(registry, source, data, &Discard)),
        "alike" => alike(given, source, context_of(step, "other")),
        "safely" => shown(alloc, rendered_safely(registry, source, data, &Discard)),
        _ => Err(Stop::Call),
    }
}

// What the registry returns for a source over the data.
fn of_source(given: Given<'_>, source: &str) -> Result<String, RenderError> {
    given
        .registry
        .render_template_with_context(source, given.data, &Discard, &mut NoFiles)
}

// The texts of a source over the data and over other data, if its markup is fixed.
fn alike(given: Given<'_>, source: &str, other: Result<Context, Stop>) -> Answer {
    match other {
        Ok(other) => shown(
            given.alloc,
            rendered_alike(given.registry, source, given.data, &other, &Discard),
        ),
        Err(stop) => Err(stop),
    }
}

// ---- in the render context

/// Renders a tree or an element in the render context, and prints the text or the error.
pub fn text_of<T: Renderable>(given: Given<'_>, rc: &mut RenderContext, rendered: &T) -> Answer {
    let Given {
        alloc,
        registry,
        data,
    } = given;
    shown(alloc, rendered.renders(alloc, registry, data, rc, &Discard))
}

fn texts(given: Given<'_>, rc: &mut RenderContext, tree: Result<Held<Template>, Stop>) -> Answer {
    match tree {
        Ok(tree) => text_of(given, rc, &tree.value),
        Err(stop) => Err(stop),
    }
}

// The result of writing a tree to the output.
fn writes(
    given: Given<'_>,
    rc: &mut RenderContext,
    out: &mut StringOutput,
    tree: Result<Held<Template>, Stop>,
) -> Answer {
    let Given {
        alloc,
        registry,
        data,
    } = given;
    match tree {
        Ok(tree) => shown(
            alloc,
            tree.value.render(alloc, registry, data, rc, out, &Discard),
        ),
        Err(stop) => Err(stop),
    }
}

// Renders a partial of the render context, with its own registry, data and render context.
fn partial(alloc: Global, rc: &RenderContext, name: &str) -> Answer {
    match rc.get_partial(name) {
        Some(partial) => rendered_alone(alloc, Registry::new(alloc), partial),
        None => done(alloc),
    }
}

fn rendered_alone(
    alloc: Global,
    registry: Result<Registry, AllocError>,
    tree: &Template,
) -> Answer {
    match registry {
        Ok(registry) => rendered_in(alloc, &registry, RenderContext::new(alloc, None), tree),
        Err(AllocError) => Err(Stop::OutOfMemory),
    }
}

fn rendered_in(
    alloc: Global,
    registry: &Registry,
    rc: Result<RenderContext, AllocError>,
    tree: &Template,
) -> Answer {
    let data = Context::null();
    match rc {
        Ok(mut rc) => shown(
            alloc,
            tree.renders(alloc, registry, &data, &mut rc, &Discard),
        ),
        Err(AllocError) => Err(Stop::OutOfMemory),
    }
}

// The result and the output of including by a view, with the block of the source `block`.
fn include(given: Given<'_>, rc: &mut RenderContext, step: &JsonValue) -> Answer {
    match text_at(step, "block") {
        Some(source) => include_with(given, rc, step, compiled(given.alloc, source)),
        None => includes(given, rc, decorator_of(given.alloc, step, None)),
    }
}

fn include_with(
    given: Given<'_>,
    rc: &mut RenderContext,
    step: &JsonValue,
    block: Result<Held<Template>, Stop>,
) -> Answer {
    match block {
        Ok(block) => includes(
            given,
            rc,
            decorator_of(given.alloc, step, Some(&block.value)),
        ),
        Err(stop) => Err(stop),
    }
}

fn includes(given: Given<'_>, rc: &mut RenderContext, view: Result<Decorator<'_>, Stop>) -> Answer {
    match view {
        Ok(view) => included(given, rc, &view),
        Err(stop) => Err(stop),
    }
}

fn included(given: Given<'_>, rc: &mut RenderContext, view: &Decorator<'_>) -> Answer {
    let Given {
        alloc,
        registry,
        data,
    } = given;
    let mut out = StringOutput::new(alloc);
    let answer = expand_partial(alloc, view, registry, data, rc, &mut out, &Discard);
    shown(alloc, (answer, out.into_string()))
}

// The expanded parameter, or the parts of the error.
fn expand(given: Given<'_>, rc: &mut RenderContext, parameter: Result<Parameter, Stop>) -> Answer {
    let Given {
        alloc,
        registry,
        data,
    } = given;
    match parameter {
        Ok(parameter) => expanded(alloc, parameter.expand(alloc, registry, data, rc, &Discard)),
        Err(stop) => Err(stop),
    }
}

// The name that a parameter expands to, or the parts of the error.
fn expand_as_name(
    given: Given<'_>,
    rc: &mut RenderContext,
    parameter: Result<Parameter, Stop>,
) -> Answer {
    let Given {
        alloc,
        registry,
        data,
    } = given;
    match parameter {
        Ok(parameter) => named(
            alloc,
            parameter.expand_as_name(alloc, registry, data, rc, &Discard),
        ),
        Err(stop) => Err(stop),
    }
}

fn named<T: Display + Drop>(alloc: Global, answer: Result<T, RenderError>) -> Answer {
    match answer {
        Ok(name) => printed(alloc, name),
        Err(error) => said(alloc, &error),
    }
}
