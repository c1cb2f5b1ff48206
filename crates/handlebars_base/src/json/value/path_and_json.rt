//! A value with the path that it was written as.

ghost use Rattle.std.specs.Prelude.{◌≡◌, true, is_some};
ghost use Rattle.serde_json.specs.Find.{as_null};
ghost use Rattle.serde_json.specs.View.{view};

use crate::json::value::ScopedJson;
use serde_json::Value;
use std::alloc::{AllocError, Global};

/// A value with its origin, and with its path as written in the template, if it has one.
pub struct PathAndJson<'rc> {
    relative_path: Option<String>,
    value: ScopedJson<'rc>,
    // What the method `value` borrows if the value is missing.
    null: Value,
    ghost is_null: { is_some (as_null (view null)) ≡ true },
}

// Not derived, so that each drop of one is a single call.
impl<'rc> Drop for PathAndJson<'rc> {
    fn drop(self) {
        let PathAndJson {
            relative_path: _,
            value: _,
            null: _,
        } = self;
    }
}

impl<'rc> PathAndJson<'rc> {
    ghost use Rattle.std.specs.Prelude.{◌≡◌, IfOk, IsTrue, ◌↔◌, string_bytes, option_map, map};
    ghost use Rattle.serde_json.specs.View.{view};
    ghost use Rattle.handlebars_base.specs.Values.{rendered};
    ghost use Rattle.handlebars_base.specs.Scoped.{found_of, is_constant, data_in, path_in, missing};
    ghost use Rattle.handlebars_base.specs.PathAndData.{path_and_data, constant_in};

    /// Creates a value with its path as written in the template.
    pub fn new(relative_path: Option<String>, value: ScopedJson<'rc>) -> PathAndJson<'rc>
        ensures { path_and_data result ≡ record {
          relative_path = option_map string_bytes relative_path;
          found = found_of value.entry;
          is_constant = is_constant value.entry;
        } }
    {
        PathAndJson {
            relative_path,
            value,
            null: Value::Null,
        }
    }

    /// Returns the path as written in the template, or `None` if the template has something else there, such as a
    /// literal.
    pub fn relative_path(&self) -> Option<&String>
        ensures { option_map (λ s. string_bytes s.now) result ≡ (path_and_data self.now).relative_path }
    {
        self.relative_path.as_ref()
    }

    /// Returns the full path if the value is one of the data.
    pub fn context_path(&self) -> Option<&Vec<String>>
        ensures { option_map (λ p. map string_bytes p.now.items) result ≡ path_in (path_and_data self.now).found }
    {
        self.value.context_path()
    }

    /// Returns the value, or null if it is missing.
    pub fn value(&self) -> &Value
        ensures { view result.now ≡ data_in (path_and_data self.now).found }
    {
        match self.value.as_json() {
            Some(value) => value,
            None => &self.null,
        }
    }

    /// Returns the value if it is a constant of the template.
    pub fn try_get_constant_value(&self) -> Option<&'rc Value>
        ensures { option_map (λ v. view v.now) result ≡ constant_in (path_and_data self.now) }
    {
        match &self.value {
            ScopedJson::Constant(value) => Some(*value),
            ScopedJson::Derived(_) => None,
            ScopedJson::Context(_, _) => None,
            ScopedJson::Missing => None,
        }
    }

    /// Returns whether the value is missing.
    pub fn is_value_missing(&self) -> bool
        ensures { IsTrue result ↔ ((path_and_data self.now).found ≡ missing) }
    {
        self.value.is_missing()
    }

    /// Renders the value as a text. A missing value renders as the empty text.
    ///
    /// # Errors
    ///
    /// Fails if memory runs out.
    pub fn render(&self, alloc: Global) -> Result<String, AllocError>
        ensures { IfOk result (λ s. string_bytes s ≡ rendered (data_in (path_and_data self.now).found)) }
    {
        self.value.render(alloc)
    }
}
