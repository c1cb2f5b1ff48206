//! Scope frames of the render context, and in a list.

use handlebars::{BlockContext, Context, JsonValue, Path, RenderContext};
use std::alloc::{AllocError, Global};
use std::collections::VecDeque;
use test_steps::answer::{Answer, Stop, done, shown};
use test_steps::fields::{copied, flag, text};
use test_steps::held::taken;
use test_steps::scopes::{Scopes, navigate, push_front, take_block};

/// Returns what a call answers.
pub fn answer(
    alloc: Global,
    data: &Context,
    rc: &mut RenderContext,
    scopes: &mut Scopes,
    call: &str,
    step: &JsonValue,
) -> Answer {
    match call {
        "push" => shown(alloc, rc.push_block(take_block(alloc, &mut scopes.block))),
        "push_front" => push_front(alloc, scopes),
        "replace" => replace(alloc, rc, &mut scopes.blocks),
        "navigate" => {
            let path = taken(Path::parse(alloc, text(step, "path")));
            navigate(alloc, data, &scopes.blocks, path, flag(step, "recursive"))
        }
        _ => of_context(alloc, rc, call, step),
    }
}

fn of_context(alloc: Global, rc: &mut RenderContext, call: &str, step: &JsonValue) -> Answer {
    match call {
        "pop" => {
            rc.pop_block();
            done(alloc)
        }
        "base" => base(alloc, rc.block()),
        "has_block_mut" => shown(alloc, rc.block_mut().is_some()),
        "set_var" => set_var(alloc, rc, text(step, "name"), copied(step, "value")),
        _ => Err(Stop::Call),
    }
}

// The path of the innermost scope frame, if there is one.
fn base(alloc: Global, block: Option<&BlockContext>) -> Answer {
    match block {
        Some(block) => shown(alloc, Some(block.base_path())),
        None => shown(alloc, None::<&str>),
    }
}

// Sets a variable of the innermost scope frame.
fn set_var(
    alloc: Global,
    rc: &mut RenderContext,
    name: &str,
    value: Result<JsonValue, AllocError>,
) -> Answer {
    match (rc.block_mut(), value) {
        (Some(block), Ok(value)) => shown(alloc, block.set_local_var(name, value)),
        (None, _) => Err(Stop::Field),
        (_, Err(AllocError)) => Err(Stop::OutOfMemory),
    }
}

// Exchanges the scope frames of the list and those of the render context. Answers how many the list has after that.
fn replace(alloc: Global, rc: &mut RenderContext, blocks: &mut VecDeque<BlockContext>) -> Answer {
    let list = std::mem::replace(blocks, VecDeque::new(alloc));
    *blocks = rc.replace_blocks(list);
    shown(alloc, blocks.len())
}
