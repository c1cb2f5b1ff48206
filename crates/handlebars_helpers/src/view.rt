//! What a call passes to the helper that it calls.

ghost use Rattle.std.specs.Prelude.{◌≡◌, option_map, map};
ghost use Rattle.std.specs.Cow.{cow_str_bytes};
ghost use Rattle.handlebars_base.specs.PathAndData.{path_and_data};
ghost use Rattle.handlebars_template.specs.TreeView.{tree_view, binding_view, body_of, binding_of, param_view};
ghost use Rattle.handlebars_helpers.specs.CallView.{has_block_params, both_names, bound_name, hash_at, param_at, single_name};
ghost use Rattle.handlebars_helpers.specs.View.{helper_view};

use handlebars_base::json::value::PathAndJson;
use handlebars_template::template::{BlockParam, Parameter, Template};
use std::borrow::CowStr;
use std::collections::BTreeMap;

/// A call, as its helper sees it: the values of its parameters and hash arguments, and what a block has.
pub struct Helper<'rc> {
    name: CowStr<'rc>,
    params: Vec<PathAndJson<'rc>>,
    hash: BTreeMap<&'rc str, PathAndJson<'rc>>,
    template: Option<&'rc Template>,
    inverse: Option<&'rc Template>,
    block_param: Option<&'rc BlockParam>,
    block: bool,
}

// Not derived, so that every place that drops one makes a single call.
impl Drop for Helper<'_> {
    fn drop(self) {
        let Helper {
            name: _,
            params: _,
            hash: _,
            template: _,
            inverse: _,
            block_param: _,
            block: _,
        } = self;
    }
}

impl<'rc> Helper<'rc> {
    /// Creates the view of a call of these parts.
    pub fn new(
        name: CowStr<'rc>,
        params: Vec<PathAndJson<'rc>>,
        hash: BTreeMap<&'rc str, PathAndJson<'rc>>,
        template: Option<&'rc Template>,
        inverse: Option<&'rc Template>,
        block_param: Option<&'rc BlockParam>,
        block: bool,
    ) -> Helper<'rc>
        ensures { helper_view result ≡ record {
          call = record {
            name = cow_str_bytes name.entry;
            params = map path_and_data params.entry.items;
            hash = map (λ e. (e.0.now, path_and_data e.1)) hash.entry.entries;
          };
          binding = binding_of (option_map (λ b. binding_view b.now) block_param.entry);
          body = body_of (option_map (λ t. tree_view t.now) template.entry);
          inverse = body_of (option_map (λ t. tree_view t.now) inverse.entry);
          block = block;
        } }
    {
        Helper {
            name,
            params,
            hash,
            template,
            inverse,
            block_param,
            block,
        }
    }

    /// Returns the name by which the helper is called.
    pub fn name(&self) -> &str
        ensures { result.now ≡ (helper_view self.now).call.name }
    {
        self.name.as_str()
    }

    /// Returns the values of the parameters, in order.
    pub fn params(&self) -> &Vec<PathAndJson<'rc>>
        ensures { map path_and_data result.now.items ≡ (helper_view self.now).call.params }
    {
        &self.params
    }

    /// Returns the value of a parameter, counted from 0, or `None` if the call has no such parameter.
    pub fn param(&self, idx: usize) -> Option<&PathAndJson<'rc>>
        ensures { option_map (λ p. path_and_data p.now) result ≡ param_at idx (helper_view self.now).call }
    {
        self.params.get(idx)
    }

    /// Returns the values of the hash arguments, by key.
    pub fn hash(&self) -> &BTreeMap<&'rc str, PathAndJson<'rc>>
        ensures { map (λ e. (e.0.now, path_and_data e.1)) result.now.entries ≡ (helper_view self.now).call.hash }
    {
        &self.hash
    }

    /// Returns the value of the hash argument with this key, or `None` if there is none.
    pub fn hash_get(&self, key: &str) -> Option<&PathAndJson<'rc>>
        ensures { option_map (λ p. path_and_data p.now) result ≡ hash_at key.now (helper_view self.now).call }
    {
        self.hash.get(key)
    }

    /// Returns the body of a block.
    pub fn template(&self) -> Option<&'rc Template>
        ensures { body_of (option_map (λ t. tree_view t.now) result) ≡ (helper_view self.now).body }
    {
        self.template
    }

    /// Returns the inverse of a block, which is what follows `else`.
    pub fn inverse(&self) -> Option<&'rc Template>
        ensures { body_of (option_map (λ t. tree_view t.now) result) ≡ (helper_view self.now).inverse }
    {
        self.inverse
    }

    /// Returns whether the call is written as a block.
    pub fn is_block(&self) -> bool
        ensures { result ≡ (helper_view self.now).block }
    {
        self.block
    }

    /// Returns whether the call has block parameters. In a hand-built template, one that is not a name binds
    /// nothing.
    pub fn has_block_param(&self) -> bool
        ensures { result ≡ has_block_params (helper_view self.now).binding }
    {
        self.block_param.is_some()
    }

    /// Returns the name that the block binds, if it binds exactly one.
    pub fn block_param(&self) -> Option<&'rc str>
        ensures { option_map (λ name. name.now) result ≡ single_name (helper_view self.now).binding }
    {
        single_name(self.block_param)
    }

    /// Returns the two names that the block binds, if it binds two.
    pub fn block_param_pair(&self) -> Option<(&'rc str, &'rc str)>
        ensures { option_map (λ names. (names.0.now, names.1.now)) result ≡ both_names (helper_view self.now).binding }
    {
        both_names(self.block_param)
    }
}

// The name that is bound, if exactly one is.
fn single_name<'t>(binding: Option<&'t BlockParam>) -> Option<&'t str>
    ensures { option_map (λ name. name.now) result
        ≡ single_name (binding_of (option_map (λ b. binding_view b.now) binding.entry)) }
{
    match binding {
        Some(BlockParam::Single(name)) => bound_name(name),
        Some(BlockParam::Pair(_)) => None,
        None => None,
    }
}

// The names that are bound, if two are.
fn both_names<'t>(binding: Option<&'t BlockParam>) -> Option<(&'t str, &'t str)>
    ensures { option_map (λ names. (names.0.now, names.1.now)) result
        ≡ both_names (binding_of (option_map (λ b. binding_view b.now) binding.entry)) }
{
    match binding {
        Some(BlockParam::Pair(names)) => match (bound_name(&names.0), bound_name(&names.1)) {
            (Some(first), Some(second)) => Some((first, second)),
            _ => None,
        },
        Some(BlockParam::Single(_)) => None,
        None => None,
    }
}

// The name that a parameter binds.
fn bound_name(parameter: &Parameter) -> Option<&str>
    ensures { option_map (λ name. name.now) result ≡ bound_name (param_view parameter.now) }
{
    match parameter {
        Parameter::Name(name) => Some(name.as_str()),
        Parameter::Path(_) => None,
        Parameter::Literal(_) => None,
        Parameter::Subexpression(_) => None,
    }
}
