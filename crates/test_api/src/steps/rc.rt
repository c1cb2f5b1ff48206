//! The state of the render context.

use handlebars::{Context, JsonValue, RenderContext, RenderError, ScopedJson};
use std::alloc::{AllocError, Global};
use test_steps::answer::{Answer, Stop, done, failed, shown};
use test_steps::fields::{flag, items, owned, text, text_at};
use test_steps::held::{had, put};
use test_steps::made::data::{context_of, copies};

/// Returns what a call answers.
pub fn answer(
    alloc: Global,
    data: &Context,
    rc: &mut RenderContext,
    looked_up: &mut u64,
    call: &str,
    step: &JsonValue,
) -> Answer {
    let name = text(step, "name");
    match call {
        "new" => new(alloc, rc, step),
        "evaluate" => evaluated(alloc, rc.evaluate(data, text(step, "path"))),
        "looked_up" => looked_up_since(alloc, rc, looked_up),
        "evaluation_looked_up" => shown(alloc, rc.evaluation_looked_up()),
        "bind" => bind(alloc, rc, step, copies(alloc, items(step, "constants"))),
        "local_helper" => local_helper(alloc, rc, name),
        "has_partial" => shown(alloc, rc.get_partial(name).is_some()),
        "set_context" => set_context(alloc, rc, context_of(step, "to")),
        "set_current_template_name" => set_name(alloc, rc, name_of(alloc, step, "to")),
        "unbind" => {
            rc.unregister_local_helper(name);
            done(alloc)
        }
        _ => toggle(alloc, rc, call, step),
    }
}

// Values that are set, and read back.
fn toggle(alloc: Global, rc: &mut RenderContext, call: &str, step: &JsonValue) -> Answer {
    match call {
        "has_failed" => shown(alloc, rc.has_failed()),
        "has_context" => shown(alloc, rc.context().is_some()),
        "current_template_name" => shown(alloc, rc.get_current_template_name()),
        "is_disable_escape" => shown(alloc, rc.is_disable_escape()),
        "set_disable_escape" => {
            rc.set_disable_escape(flag(step, "on"));
            done(alloc)
        }
        _ => Err(Stop::Call),
    }
}

// The name in a field, if the field is a text.
fn name_of(alloc: Global, step: &JsonValue, field: &str) -> Result<Option<String>, Stop> {
    match text_at(step, field) {
        Some(_) => had(owned(alloc, step, field).map(Some)),
        None => Ok(None),
    }
}

// Creates a new render context. Its root template has the name `name`, if there is one.
fn new(alloc: Global, rc: &mut RenderContext, step: &JsonValue) -> Answer {
    match name_of(alloc, step, "name") {
        Ok(name) => renew(alloc, rc, RenderContext::new(alloc, name.as_ref())),
        Err(stop) => Err(stop),
    }
}

fn renew(alloc: Global, rc: &mut RenderContext, new: Result<RenderContext, AllocError>) -> Answer {
    match put(rc, had(new)) {
        Ok(()) => done(alloc),
        Err(stop) => Err(stop),
    }
}

// The value that a path leads to, if there is one.
fn evaluated(alloc: Global, answer: Result<ScopedJson<'_>, RenderError>) -> Answer {
    match answer {
        Ok(value) => shown(alloc, value.as_json()),
        Err(error) => failed::<()>(alloc, Err(error)),
    }
}

// Binds a name to the helper that is registered under another one, with constants before the parameters.
fn bind(
    alloc: Global,
    rc: &mut RenderContext,
    step: &JsonValue,
    constants: Result<Vec<JsonValue>, Stop>,
) -> Answer {
    let (name, registered) = (text(step, "name"), text(step, "to"));
    match constants {
        Ok(constants) => shown(alloc, rc.register_local_helper(name, registered, constants)),
        Err(stop) => Err(stop),
    }
}

// The name that the local helper is registered under, and how many constants it has.
fn local_helper(alloc: Global, rc: &RenderContext, name: &str) -> Answer {
    match rc.get_local_helper(name) {
        Some(local) => shown(alloc, (local.registered.as_str(), local.constants.len())),
        None => shown(alloc, None::<&str>),
    }
}

fn set_context(alloc: Global, rc: &mut RenderContext, data: Result<Context, Stop>) -> Answer {
    match data {
        Ok(data) => {
            rc.set_context(data);
            done(alloc)
        }
        Err(stop) => Err(stop),
    }
}

// Sets or removes the name of the current template.
fn set_name(alloc: Global, rc: &mut RenderContext, name: Result<Option<String>, Stop>) -> Answer {
    match name {
        Ok(name) => {
            rc.set_current_template_name(name);
            done(alloc)
        }
        Err(stop) => Err(stop),
    }
}

// How many members were looked up since this was last asked.
fn looked_up_since(alloc: Global, rc: &RenderContext, before: &mut u64) -> Answer {
    let now = rc.looked_up();
    let found = now.saturating_sub(*before);
    *before = now;
    shown(alloc, found)
}
