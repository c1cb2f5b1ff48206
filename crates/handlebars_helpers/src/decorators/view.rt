//! What a tag passes to its decorator.

ghost use Rattle.std.specs.Prelude.{◌≡◌, option_map, map};
ghost use Rattle.std.specs.Cow.{cow_str_bytes};
ghost use Rattle.handlebars_base.specs.PathAndData.{path_and_data};
ghost use Rattle.handlebars_template.specs.TreeView.{tree_view, body_of};
ghost use Rattle.handlebars_helpers.specs.CallView.{hash_at, param_at};
ghost use Rattle.handlebars_helpers.specs.DecoratorsView.{tag_view};

use handlebars_base::json::value::PathAndJson;
use handlebars_template::template::Template;
use std::borrow::CowStr;
use std::collections::BTreeMap;

/// A tag, as the decorator of its name sees it: the values of its parameters and hash arguments, its body and
/// its indentation.
pub struct Decorator<'rc> {
    name: CowStr<'rc>,
    params: Vec<PathAndJson<'rc>>,
    hash: BTreeMap<&'rc str, PathAndJson<'rc>>,
    template: Option<&'rc Template>,
    indent: Option<CowStr<'rc>>,
}

// Not derived, so that every place that drops one makes a single call.
impl Drop for Decorator<'_> {
    fn drop(self) {
        let Decorator {
            name: _,
            params: _,
            hash: _,
            template: _,
            indent: _,
        } = self;
    }
}

impl<'rc> Decorator<'rc> {
    /// Creates the view of a tag of these parts.
    pub fn new(
        name: CowStr<'rc>,
        params: Vec<PathAndJson<'rc>>,
        hash: BTreeMap<&'rc str, PathAndJson<'rc>>,
        template: Option<&'rc Template>,
        indent: Option<CowStr<'rc>>,
    ) -> Decorator<'rc>
        ensures { tag_view result ≡ record {
          call = record {
            name = cow_str_bytes name.entry;
            params = map path_and_data params.entry.items;
            hash = map (λ e. (e.0.now, path_and_data e.1)) hash.entry.entries;
          };
          body = body_of (option_map (λ t. tree_view t.now) template.entry);
          indent = option_map cow_str_bytes indent.entry;
        } }
    {
        Decorator {
            name,
            params,
            hash,
            template,
            indent,
        }
    }

    /// Returns the name of the decorator.
    pub fn name(&self) -> &str
        ensures { result.now ≡ (tag_view self.now).call.name }
    {
        self.name.as_str()
    }

    /// Returns the values of the parameters, in order.
    pub fn params(&self) -> &Vec<PathAndJson<'rc>>
        ensures { map path_and_data result.now.items ≡ (tag_view self.now).call.params }
    {
        &self.params
    }

    /// Returns the value of a parameter, counted from 0, or `None` if the tag has no such parameter.
    pub fn param(&self, idx: usize) -> Option<&PathAndJson<'rc>>
        ensures { option_map (λ p. path_and_data p.now) result ≡ param_at idx (tag_view self.now).call }
    {
        self.params.get(idx)
    }

    /// Returns the values of the hash arguments, by key.
    pub fn hash(&self) -> &BTreeMap<&'rc str, PathAndJson<'rc>>
        ensures { map (λ e. (e.0.now, path_and_data e.1)) result.now.entries ≡ (tag_view self.now).call.hash }
    {
        &self.hash
    }

    /// Returns the value of the hash argument with this key, or `None` if there is none.
    pub fn hash_get(&self, key: &str) -> Option<&PathAndJson<'rc>>
        ensures { option_map (λ p. path_and_data p.now) result ≡ hash_at key.now (tag_view self.now).call }
    {
        self.hash.get(key)
    }

    /// Returns the body of a block.
    pub fn template(&self) -> Option<&'rc Template>
        ensures { body_of (option_map (λ t. tree_view t.now) result) ≡ (tag_view self.now).body }
    {
        self.template
    }

    /// Returns the indentation in force at the tag, followed by the tag's own, if there is any.
    pub fn indent(&self) -> Option<&str>
        ensures { option_map (λ t. t.now) result ≡ (tag_view self.now).indent }
    {
        match &self.indent {
            Some(indent) => Some(indent.as_str()),
            None => None,
        }
    }
}
