//! Scope frames without a rendering: the one that is being made, and those in a list.

use crate::answer::{Answer, Stop, failed, shown, shown_if};
use crate::held::had;
use handlebars_base::error::RenderError;
use handlebars_base::json::path::{Path, PathSeg};
use handlebars_base::json::value::ScopedJson;
use handlebars_scope::block::{BlockContext, BlockParams};
use handlebars_scope::context::Context;
use handlebars_scope::local_vars::LocalVars;
use std::alloc::Global;
use std::collections::VecDeque;

/// Scope frames, and what they are made from.
pub struct Scopes {
    pub variables: LocalVars,
    pub params: BlockParams,
    pub block: BlockContext,
    pub blocks: VecDeque<BlockContext>,
}

impl Drop for Scopes {
    fn drop(self) {
        let Scopes {
            variables: _,
            params: _,
            block: _,
            blocks: _,
        } = self;
    }
}

impl Scopes {
    /// Creates an empty scope frame and an empty list.
    pub fn new(alloc: Global) -> Scopes {
        Scopes {
            variables: LocalVars::new(alloc),
            params: BlockParams::new(alloc),
            block: BlockContext::new(alloc),
            blocks: VecDeque::new(alloc),
        }
    }
}

/// Returns the scope frame that was made, and replaces it by a new one.
pub fn take_block(alloc: Global, block: &mut BlockContext) -> BlockContext {
    std::mem::replace(block, BlockContext::new(alloc))
}

/// Moves the scope frame that was made to the start of the list.
pub fn push_front(alloc: Global, scopes: &mut Scopes) -> Answer {
    let block = take_block(alloc, &mut scopes.block);
    shown_if(alloc, had(scopes.blocks.push_front(block)))
}

/// Returns the value that a path leads to in the data and the scope frames of the list, and its full path.
pub fn navigate(
    alloc: Global,
    data: &Context,
    blocks: &VecDeque<BlockContext>,
    path: Result<Path, Stop>,
    recursive: bool,
) -> Answer {
    match path {
        Ok(Path::Relative((segments, _))) => {
            along(alloc, data, blocks, segments.as_slice(), recursive)
        }
        Ok(_) => Err(Stop::Field),
        Err(stop) => Err(stop),
    }
}

fn along(
    alloc: Global,
    data: &Context,
    blocks: &VecDeque<BlockContext>,
    segments: &[PathSeg],
    recursive: bool,
) -> Answer {
    found(alloc, data.navigate(alloc, segments, blocks, recursive))
}

fn found(alloc: Global, answer: Result<ScopedJson<'_>, RenderError>) -> Answer {
    match answer {
        Ok(found) => shown(alloc, (found.as_json(), found.context_path())),
        Err(error) => failed::<()>(alloc, Err(error)),
    }
}
