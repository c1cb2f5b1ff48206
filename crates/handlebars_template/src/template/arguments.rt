//! The arguments of a call: its parameters, and its hash arguments by their keys.

ghost use Rattle.std.specs.Prelude.{◌≡◌, OnOk, option_map, string_bytes};
ghost use Rattle.handlebars_template.specs.Tree.{no_arguments, lacks_arguments};
ghost use Rattle.handlebars_template.specs.TreeView.{param_view, arguments_view};
ghost use Rattle.handlebars_template.specs.Calls.{add_argument};

use crate::template::tree::Parameter;
use std::alloc::{AllocError, Global};
use std::collections::BTreeMap;

/// The arguments of a call.
#[derive(Drop)]
pub struct Arguments {
    pub params: Vec<Parameter>,
    pub hash: BTreeMap<String, Parameter>,
}

impl Arguments {
    pub fn new(alloc: Global) -> Arguments
        ensures { arguments_view result ≡ no_arguments }
    {
        Arguments {
            params: Vec::new(alloc),
            hash: BTreeMap::new(alloc),
        }
    }

    pub fn is_empty(&self) -> bool
        ensures { result ≡ lacks_arguments (arguments_view self.now) }
    {
        self.params.is_empty() && self.hash.is_empty()
    }

    /// Adds an argument: with a key, a hash argument that replaces an earlier one with the same key; without, a parameter.
    #[tactic(auto, using(crate::proofs::ExpressionsBuilt::params_view_push, crate::proofs::ExpressionsBuilt::hash_view_insert))]
    pub fn add(&mut self, key: Option<String>, value: Parameter) -> Result<(), AllocError>
        ensures { OnOk result (arguments_view self.new
            ≡ add_argument (option_map string_bytes key) (param_view value) (arguments_view self.old)) }
    {
        match key {
            None => self.params.push(value)?,
            Some(key) => {
                self.hash.insert(key, value)?;
            }
        }
        Ok(())
    }
}
