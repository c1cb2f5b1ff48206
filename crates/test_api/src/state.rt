//! The state that the steps of a script change.

use crate::memory::Texts;
use crate::script_parts::ScriptParts;
use handlebars::{Context, Registry, RenderContext, RenderError, StringOutput};
use std::alloc::{AllocError, Global};
use std::collections::BTreeMap;
use test_pieces::HeldPieces;
use test_steps::scopes::Scopes;

/// The state of a script.
pub struct State {
    pub registry: Registry,
    pub data: Context,
    pub rc: RenderContext,
    pub out: StringOutput,
    /// The number of members that had been looked up when this was last asked.
    pub looked_up: u64,
    pub scopes: Scopes,
    pub copy: Context,
    pub error: Option<RenderError>,
    pub pieces: HeldPieces,
    pub files: Texts,
    pub script_parts: ScriptParts,
}

impl Drop for State {
    fn drop(self) {
        let State {
            registry: _,
            data: _,
            rc: _,
            out: _,
            looked_up: _,
            scopes: _,
            copy: _,
            error: _,
            pieces: _,
            files: _,
            script_parts: _,
        } = self;
    }
}

impl State {
    /// Creates a registry and a render context over null data, with the parts that the script registers.
    pub fn new(alloc: Global, script_parts: ScriptParts) -> Result<State, AllocError> {
        let rc = RenderContext::new(alloc, None)?;
        match Registry::new(alloc) {
            Ok(registry) => Ok(State {
                registry,
                data: Context::null(),
                rc,
                out: StringOutput::new(alloc),
                looked_up: 0,
                scopes: Scopes::new(alloc),
                copy: Context::null(),
                error: None,
                pieces: HeldPieces::new(alloc),
                files: Texts {
                    alloc,
                    texts: BTreeMap::new(alloc),
                },
                script_parts,
            }),
            Err(AllocError) => Err(AllocError),
        }
    }
}

/// The arguments of a rendering.
#[derive(Clone, Copy)]
pub struct Given<'s> {
    pub alloc: Global,
    pub registry: &'s Registry,
    pub data: &'s Context,
}
