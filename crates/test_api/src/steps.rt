//! The steps of scripts, by group.

mod blocks;
mod elements;
mod file;
mod functions;
mod html;
mod line;
mod markup;
mod output;
mod page_names;
mod parts;
mod pieces;
mod rc;
mod registry;
mod render;

use crate::state::{Given, State};
use handlebars::JsonValue;
use std::alloc::Global;
use std::rt::Files;
use test_steps::answer::{Answer, Stop};
use test_steps::calls::lacking;
use test_steps::fields::text;
use test_steps::{data, error, reason, scope, tree, value};

/// Returns what the call of a step answers. The field `do` has the group and the name of the call.
pub fn answer<R: Files + AllocGlobal + Clone + Drop>(
    rt: &R,
    state: &mut State,
    step: &JsonValue,
) -> Answer {
    match text(step, "do").split_once('.') {
        Some(_) if lacking(step).is_some() => Err(Stop::Field),
        Some((group, call)) => of_group(rt, state, group, call, step),
        None => Err(Stop::Call),
    }
}

fn of_group<R: Files + AllocGlobal + Clone + Drop>(
    rt: &R,
    state: &mut State,
    group: &str,
    call: &str,
    step: &JsonValue,
) -> Answer {
    let alloc = rt.alloc();
    match group {
        "file" => file::answer(
            rt,
            &mut state.registry,
            &state.data,
            &mut state.files,
            call,
            step,
        ),
        "registry" => registry::answer(alloc, &mut state.registry, call, step),
        "parts" => parts::answer(
            alloc,
            &mut state.registry,
            &mut state.script_parts,
            call,
            step,
        ),
        "scope" => scope::answer(alloc, &mut state.scopes, call, step),
        "data" => data::answer(alloc, &mut state.data, &mut state.copy, call, step),
        "error" => error::answer(alloc, &mut state.error, call, step),
        "line" => line::answer(alloc, &mut state.rc, &mut state.out, call, step),
        "rc" | "blocks" => of_context(alloc, state, group, call, step),
        "render" | "element" | "pieces" | "markup" | "html" | "names" => {
            of_rendering(alloc, state, group, call, step)
        }
        _ => of_values(alloc, group, call, step),
    }
}

fn of_context(
    alloc: Global,
    state: &mut State,
    group: &str,
    call: &str,
    step: &JsonValue,
) -> Answer {
    match group {
        "rc" => rc::answer(
            alloc,
            &state.data,
            &mut state.rc,
            &mut state.looked_up,
            call,
            step,
        ),
        _ => blocks::answer(
            alloc,
            &state.data,
            &mut state.rc,
            &mut state.scopes,
            call,
            step,
        ),
    }
}

fn of_rendering(
    alloc: Global,
    state: &mut State,
    group: &str,
    call: &str,
    step: &JsonValue,
) -> Answer {
    let given = Given {
        alloc,
        registry: &state.registry,
        data: &state.data,
    };
    match group {
        "render" => render::answer(given, &mut state.rc, &mut state.out, call, step),
        "element" => elements::answer(given, &mut state.rc, call, step),
        "pieces" => pieces::answer(given, &mut state.pieces, call, step),
        "html" => html::answer(alloc, given.registry, call, step),
        "names" => page_names::answer(alloc, given.registry, call, step),
        _ => markup::answer(alloc, given.registry, call, step),
    }
}

// The groups whose calls take values that the step describes.
fn of_values(alloc: Global, group: &str, call: &str, step: &JsonValue) -> Answer {
    match group {
        "tree" => tree::answer(alloc, call, step),
        "value" => value::answer(alloc, call, step),
        "output" => output::answer(alloc, call, step),
        "reason" => reason::answer(alloc, call, step),
        _ => Err(Stop::Call),
    }
}
