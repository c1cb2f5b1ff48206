//! Scope frames that own what they hold: those that callers push, and those in which user-defined helpers render bodies.

ghost use Rattle.std.specs.Prelude.{◌≡◌, IfOk, IsTrue, OnErr, OnOk, Some, false, is_some, map, option_map, string_bytes, true};
ghost use Rattle.std.specs.Borrow.{sem};
ghost use Rattle.serde_json.specs.View.{view};
ghost use Rattle.handlebars_base.specs.Bytes.{Text};
ghost use Rattle.handlebars_template.specs.TreeView.{tree_view};
ghost use Rattle.handlebars_scope.specs.Borrowing.{BorrowsPath, BorrowsVariables};
ghost use Rattle.handlebars_scope.specs.Scopes.{bound_path, bound_value, empty_frame, nothing_at, put_at};
ghost use Rattle.handlebars_scope.specs.ScopeView.{bound_of, bounds_of, frame_of, partials_named, variables_of};

use crate::local_vars::LocalVars;
use handlebars_base::json::value::Json;
use handlebars_template::template::Template;
use std::alloc::{AllocError, Global};
use std::collections::BTreeMap;
use std::mem;
use std::rc::Rc;

/// What a block binds a name to: a path below its base path, or a value.
#[derive(Drop)]
pub enum BlockParamHolder {
    Path(Vec<String>),
    Value(Json),
}

impl BlockParamHolder {
    /// Creates a binding to a value.
    pub fn value(v: Json) -> BlockParamHolder
        ensures { bound_of result ≡ bound_value (view v) }
    {
        BlockParamHolder::Value(v)
    }

    /// Creates a binding to a path below the base path of the block.
    pub fn path(r: Vec<String>) -> BlockParamHolder
        ensures { bound_of result ≡ bound_path (map string_bytes r.items) }
    {
        BlockParamHolder::Path(r)
    }
}

/// The names that a block binds.
pub struct BlockParams {
    data: BTreeMap<String, BlockParamHolder>,
    alloc: Global,
}

// Not derived, so that each drop of one is a single call.
impl Drop for BlockParams {
    fn drop(self) {
        let BlockParams { data: _, alloc: _ } = self;
    }
}

impl BlockParams {
    /// Creates block parameters that bind no name.
    pub fn new(alloc: Global) -> BlockParams
        ensures { bounds_of result ≡ nothing_at }
    {
        BlockParams {
            data: BTreeMap::new(alloc),
            alloc,
        }
    }

    /// Binds a name to a path below the base path of the block.
    ///
    /// # Errors
    ///
    /// Fails if memory runs out. Then nothing is changed.
    pub fn add_path(&mut self, name: &str, path: Vec<String>) -> Result<(), AllocError>
        ensures ok { OnOk result (bounds_of self.new
            ≡ put_at name.now (bound_path (map string_bytes path.items)) (bounds_of self.old)) }
        ensures err { OnErr result (bounds_of self.new ≡ bounds_of self.old) }
    {
        self.add(name, BlockParamHolder::Path(path))
    }

    /// Binds a name to a value.
    ///
    /// # Errors
    ///
    /// Fails if memory runs out. Then nothing is changed.
    pub fn add_value(&mut self, name: &str, value: Json) -> Result<(), AllocError>
        ensures ok { OnOk result (bounds_of self.new
            ≡ put_at name.now (bound_value (view value)) (bounds_of self.old)) }
        ensures err { OnErr result (bounds_of self.new ≡ bounds_of self.old) }
    {
        self.add(name, BlockParamHolder::Value(value))
    }

    /// Returns what a name is bound to, if it is bound.
    pub fn get(&self, name: &str) -> Option<&BlockParamHolder>
        ensures { option_map (λ b. bound_of b.now) result ≡ bounds_of self.now name.now }
    {
        self.data.get(name)
    }

    // Returns whether no name is bound.
    fn is_empty(&self) -> bool
        ensures none { IsTrue result → bounds_of self.now ≡ nothing_at }
        ensures some { result ≡ false → (name : Text) × (is_some (bounds_of self.now name) ≡ true) }
    {
        self.data.is_empty()
    }

    fn add(&mut self, name: &str, holder: BlockParamHolder) -> Result<(), AllocError>
        ensures ok { OnOk result (bounds_of self.new ≡ put_at name.now (bound_of holder) (bounds_of self.old)) }
        ensures err { OnErr result (bounds_of self.new ≡ bounds_of self.old) }
    {
        let name = String::from_str(self.alloc, name)?;
        self.data.insert(name, holder)?;
        Ok(())
    }
}

/// A scope frame. Paths in it lead from its base: a value, if one is set, otherwise a path of the data.
pub struct BlockContext {
    base_path: Vec<String>,
    base_value: Option<Json>,
    block_params: BlockParams,
    local_variables: LocalVars,
    local_partials: BTreeMap<String, Rc<Template>>,
    alloc: Global,
}

// Not derived, so that each drop of one is a single call.
impl Drop for BlockContext {
    fn drop(self) {
        let BlockContext {
            base_path: _,
            base_value: _,
            block_params: _,
            local_variables: _,
            local_partials: _,
            alloc: _,
        } = self;
    }
}

impl BlockContext {
    /// Creates a block at the root of the data, in which nothing is set.
    pub fn new(alloc: Global) -> BlockContext
        ensures { frame_of result ≡ empty_frame }
    {
        BlockContext {
            base_path: Vec::new(alloc),
            base_value: None,
            block_params: BlockParams::new(alloc),
            local_variables: LocalVars::new(alloc),
            local_partials: BTreeMap::new(alloc),
            alloc,
        }
    }

    /// Creates a block at the root of the data, in which only the variables of another block are set.
    ///
    /// # Errors
    ///
    /// Fails if memory runs out.
    pub fn with_variables_of(block: &BlockContext) -> Result<BlockContext, AllocError>
        ensures { IfOk result (λ b. frame_of b ≡ record empty_frame { variable = (frame_of block.now).variable }) }
    {
        let mut copy = BlockContext::new(block.alloc);
        copy.local_variables = block.local_variables.clone()?;
        Ok(copy)
    }

    /// Sets a variable.
    ///
    /// # Errors
    ///
    /// Fails if memory runs out. Then nothing is changed.
    pub fn set_local_var(&mut self, name: &str, value: Json) -> Result<(), AllocError>
        ensures ok { OnOk result (frame_of self.new
            ≡ record (frame_of self.old) { variable = put_at name.now (view value) (frame_of self.old).variable }) }
        ensures err { OnErr result (frame_of self.new ≡ frame_of self.old) }
    {
        self.local_variables.put(name, value)
    }

    /// Returns the variables.
    pub fn local_variables(&self) -> &LocalVars
        ensures { variables_of result.now ≡ (frame_of self.now).variable }
    {
        &self.local_variables
    }

    /// Returns a mutable reference to the variables.
    pub fn local_variables_mut(&mut self) -> &mut LocalVars
        ensures* writes_back { sem 𝓛 (BorrowsVariables self.entry result) }
        ensures value { variables_of result.now ≡ (frame_of self.old).variable }
    {
        &mut self.local_variables
    }

    /// Returns the variable of this name, if it is set.
    pub fn get_local_var(&self, name: &str) -> Option<&Json>
        ensures { option_map (λ v. view v.now) result ≡ (frame_of self.now).variable name.now }
    {
        self.local_variables.get(name)
    }

    /// Returns the path of the data that paths lead from if no base value is set. Paths that names are bound to are below it
    /// in any case.
    pub fn base_path(&self) -> &Vec<String>
        ensures { map string_bytes result.now.items ≡ (frame_of self.now).base_path }
    {
        &self.base_path
    }

    /// Returns a mutable reference to the base path.
    pub fn base_path_mut(&mut self) -> &mut Vec<String>
        ensures* writes_back { sem 𝓛 (BorrowsPath self.entry result) }
        ensures value { map string_bytes result.now.items ≡ (frame_of self.old).base_path }
    {
        &mut self.base_path
    }

    /// Returns the value that paths lead from, if one is set.
    pub fn base_value(&self) -> Option<&Json>
        ensures { option_map (λ v. view v.now) result ≡ (frame_of self.now).base_value }
    {
        self.base_value.as_ref()
    }

    /// Sets the value that paths lead from.
    pub fn set_base_value(&mut self, value: Json)
        ensures { frame_of self.new ≡ record (frame_of self.old) { base_value = Some (view value) } }
    {
        self.base_value = Some(value);
    }

    /// Returns the template that is registered in this block under a name.
    pub fn get_local_partial(&self, name: &str) -> Option<&Rc<Template>>
        ensures { option_map (λ t. tree_view t.now.value) result ≡ (frame_of self.now).partial name.now }
    {
        self.local_partials.get(name)
    }

    /// Returns the templates that are registered in this block by name. None is registered afterwards.
    pub fn take_local_partials(&mut self) -> BTreeMap<String, Rc<Template>>
        ensures taken { partials_named result ≡ (frame_of self.old).partial }
        ensures left { frame_of self.new ≡ record (frame_of self.old) { partial = nothing_at } }
    {
        let none = BTreeMap::new(self.alloc);
        mem::replace(&mut self.local_partials, none)
    }

    /// Registers these templates by name in this block, and no others.
    pub fn set_local_partials(&mut self, partials: BTreeMap<String, Rc<Template>>)
        ensures { frame_of self.new ≡ record (frame_of self.old) { partial = partials_named partials } }
    {
        self.local_partials = partials;
    }

    /// Registers a template under a name in this block.
    ///
    /// # Errors
    ///
    /// Fails if memory runs out. Then nothing is changed.
    pub fn set_local_partial(
        &mut self,
        name: &str,
        template: Rc<Template>,
    ) -> Result<(), AllocError>
        ensures ok { OnOk result (frame_of self.new
            ≡ record (frame_of self.old)
            { partial = put_at name.now (tree_view template.value) (frame_of self.old).partial }) }
        ensures err { OnErr result (frame_of self.new ≡ frame_of self.old) }
    {
        let name = String::from_str(self.alloc, name)?;
        self.local_partials.insert(name, template)?;
        Ok(())
    }

    /// Returns what this block binds a name to, if it binds the name.
    pub fn get_block_param(&self, name: &str) -> Option<&BlockParamHolder>
        ensures { option_map (λ b. bound_of b.now) result ≡ (frame_of self.now).bound name.now }
    {
        self.block_params.get(name)
    }

    /// Returns whether this block binds no name.
    pub fn has_no_bound_names(&self) -> bool
        ensures none { IsTrue result → (frame_of self.now).bound ≡ nothing_at }
        ensures some { result ≡ false → (name : Text) × (is_some ((frame_of self.now).bound name) ≡ true) }
    {
        self.block_params.is_empty()
    }

    /// Binds these names, and no others.
    pub fn set_block_params(&mut self, block_params: BlockParams)
        ensures { frame_of self.new ≡ record (frame_of self.old) { bound = bounds_of block_params } }
    {
        self.block_params = block_params;
    }

    /// Binds a name in addition to those that are bound.
    ///
    /// # Errors
    ///
    /// Fails if memory runs out. Then nothing is changed.
    pub fn set_block_param(&mut self, name: &str, value: BlockParamHolder) -> Result<(), AllocError>
        ensures ok { OnOk result (frame_of self.new
            ≡ record (frame_of self.old) { bound = put_at name.now (bound_of value) (frame_of self.old).bound }) }
        ensures err { OnErr result (frame_of self.new ≡ frame_of self.old) }
    {
        self.block_params.add(name, value)
    }
}
