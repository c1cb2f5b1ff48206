//! Local variables, block parameters and a scope frame, without a rendering.

use crate::answer::{Answer, Stop, done, shown, shown_if};
use crate::fields::{copied, items, owned, owned_all, text};
use crate::held::{had, push, put, taken};
use crate::scopes::Scopes;
use handlebars_base::error::TemplateError;
use handlebars_scope::block::{BlockContext, BlockParamHolder, BlockParams};
use handlebars_scope::local_vars::LocalVars;
use handlebars_template::template::Template;
use serde_json::Value as JsonValue;
use std::alloc::{AllocError, Global};
use std::rc::Rc;

/// Returns what a call answers.
pub fn answer(alloc: Global, scopes: &mut Scopes, call: &str, step: &JsonValue) -> Answer {
    match call {
        "copy" => shown_if(alloc, copy(&mut scopes.variables)),
        "put" => put_in(alloc, &mut scopes.variables, step),
        "get" => shown(alloc, scopes.variables.get(text(step, "name"))),
        "take_params" => take_params(alloc, scopes),
        "add_path" | "add_value" | "param" => of_params(alloc, &mut scopes.params, call, step),
        _ => of_block(alloc, &mut scopes.block, call, step),
    }
}

fn copy(variables: &mut LocalVars) -> Result<(), Stop> {
    put(variables, had(variables.clone()))
}

// Stores a value under a name.
fn put_in(alloc: Global, variables: &mut LocalVars, step: &JsonValue) -> Answer {
    match copied(step, "value") {
        Ok(value) => shown(alloc, variables.put(text(step, "name"), value)),
        Err(AllocError) => Err(Stop::OutOfMemory),
    }
}

// Moves the names that were added to the scope frame. None are left.
fn take_params(alloc: Global, scopes: &mut Scopes) -> Answer {
    let params = std::mem::replace(&mut scopes.params, BlockParams::new(alloc));
    scopes.block.set_block_params(params);
    done(alloc)
}

fn of_params(alloc: Global, params: &mut BlockParams, call: &str, step: &JsonValue) -> Answer {
    match call {
        "add_path" => add_path(alloc, params, step),
        "add_value" => add_value(alloc, params, step),
        _ => param(alloc, params.get(text(step, "name"))),
    }
}

fn add_path(alloc: Global, params: &mut BlockParams, step: &JsonValue) -> Answer {
    match owned_all(alloc, items(step, "path")) {
        Ok(path) => shown(alloc, params.add_path(text(step, "name"), path)),
        Err(AllocError) => Err(Stop::OutOfMemory),
    }
}

fn add_value(alloc: Global, params: &mut BlockParams, step: &JsonValue) -> Answer {
    match copied(step, "value") {
        Ok(value) => shown(alloc, params.add_value(text(step, "name"), value)),
        Err(AllocError) => Err(Stop::OutOfMemory),
    }
}

// What a name is bound to: a path or a value.
fn param(alloc: Global, holder: Option<&BlockParamHolder>) -> Answer {
    match holder {
        Some(BlockParamHolder::Path(path)) => shown(alloc, (Some(path), None::<&JsonValue>)),
        Some(BlockParamHolder::Value(value)) => shown(alloc, (None::<&str>, Some(value))),
        None => shown(alloc, (None::<&str>, None::<&str>)),
    }
}

// ---- a scope frame

fn of_block(alloc: Global, block: &mut BlockContext, call: &str, step: &JsonValue) -> Answer {
    let name = text(step, "name");
    match call {
        "block_param" => param(alloc, block.get_block_param(name)),
        "block_base" => base(alloc, block),
        "block_var" => shown(alloc, block.get_local_var(name)),
        "block_get" => shown(alloc, block.local_variables().get(name)),
        "block_partial" => shown(alloc, block.get_local_partial(name)),
        _ => change(alloc, block, call, step),
    }
}

fn change(alloc: Global, block: &mut BlockContext, call: &str, step: &JsonValue) -> Answer {
    match call {
        "block_follow" => follow(alloc, block, step),
        "block_bind" => bind(alloc, block, text(step, "name"), holder_of(alloc, step)),
        "block_put" => put_in(alloc, block.local_variables_mut(), step),
        "block_set_base" => set_base(alloc, block, copied(step, "value")),
        "block_set_var" => { set_var(alloc, block, text(step, "name"), copied(step, "value")) }
        "block_set_partial" => set_partial(alloc, block, step),
        _ => Err(Stop::Call),
    }
}

// The path and the value of the frame.
fn base(alloc: Global, block: &BlockContext) -> Answer {
    shown(alloc, (block.base_path(), block.base_value()))
}

// Appends a name to the path of the frame.
fn follow(alloc: Global, block: &mut BlockContext, step: &JsonValue) -> Answer {
    shown_if(
        alloc,
        push(block.base_path_mut(), had(owned(alloc, step, "name"))),
    )
}

// A value, or a path.
fn holder_of(alloc: Global, step: &JsonValue) -> Result<BlockParamHolder, AllocError> {
    match step.get("value") {
        Some(value) => value.clone().map(BlockParamHolder::value),
        None => owned_all(alloc, items(step, "path")).map(BlockParamHolder::path),
    }
}

// Binds a name to a value, or to a path.
fn bind(
    alloc: Global,
    block: &mut BlockContext,
    name: &str,
    holder: Result<BlockParamHolder, AllocError>,
) -> Answer {
    match holder {
        Ok(holder) => shown(alloc, block.set_block_param(name, holder)),
        Err(AllocError) => Err(Stop::OutOfMemory),
    }
}

fn set_base(
    alloc: Global,
    block: &mut BlockContext,
    value: Result<JsonValue, AllocError>,
) -> Answer {
    match value {
        Ok(value) => {
            block.set_base_value(value);
            done(alloc)
        }
        Err(AllocError) => Err(Stop::OutOfMemory),
    }
}

fn set_var(
    alloc: Global,
    block: &mut BlockContext,
    name: &str,
    value: Result<JsonValue, AllocError>,
) -> Answer {
    match value {
        Ok(value) => shown(alloc, block.set_local_var(name, value)),
        Err(AllocError) => Err(Stop::OutOfMemory),
    }
}

fn set_partial(alloc: Global, block: &mut BlockContext, step: &JsonValue) -> Answer {
    let partial = shared(alloc, Template::compile(alloc, text(step, "source")));
    match partial {
        Ok(partial) => shown(alloc, block.set_local_partial(text(step, "name"), partial)),
        Err(stop) => Err(stop),
    }
}

fn shared(alloc: Global, tree: Result<Template, TemplateError>) -> Result<Rc<Template>, Stop> {
    match taken(tree) {
        Ok(tree) => had(Rc::new(alloc, tree)),
        Err(stop) => Err(stop),
    }
}
