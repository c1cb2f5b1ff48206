//! Values of parameters and hash arguments. A value of the given data, of a frame or of a template is borrowed. The path of a
//! value of the data isn't made.

ghost use Rattle.std.specs.Prelude.{◌≡◌, ◌↔◌, IfOk, IsTrue, option_map, string_bytes};
ghost use Rattle.serde_json.specs.View.{view};
ghost use Rattle.handlebars_base.specs.PathAndData.{path_and_data};
ghost use Rattle.handlebars_base.specs.Scoped.{data_in, found_of, is_constant, missing, present_in};
ghost use Rattle.handlebars_base.specs.Values.{rendered};
ghost use Rattle.handlebars_values.specs.ParamView.{argument_view, is_literal_value, value_found};

use crate::null::Null;
use handlebars_base::json::value::{Json, JsonRender, PathAndJson, ScopedJson};
use handlebars_layers::destination::Reached;
use handlebars_layers::made::path_of;
use std::alloc::{AllocError, Global};

/// The value of a parameter. Only a computed value is owned.
#[derive(Drop)]
pub enum ParamValue<'v> {
    /// A value of the data, and how it was reached.
    Node(Reached<'v>),
    /// A borrowed value without a path: a frame holds it, or `lookup` picked it.
    Held(&'v Json),
    /// A literal of the template.
    Literal(&'v Json),
    /// A value that was made or copied for the parameter.
    Computed(Json),
    /// No value.
    Missing,
}

/// The value of a parameter, with its text as written if it is a name or a path.
pub struct Argument<'v> {
    written: Option<&'v str>,
    value: ParamValue<'v>,
}

// Not derived, so that each drop of one is a single call.
impl<'v> Drop for Argument<'v> {
    fn drop(self) {
        let Argument {
            written: _,
            value: _,
        } = self;
    }
}

impl<'v> ParamValue<'v> {
    /// Returns the value, or `None` if it is missing. A missing value counts as null elsewhere.
    pub fn as_json(&self) -> Option<&Json>
        ensures { option_map (λ v. view v.now) result ≡ present_in (value_found self.now) }
    {
        match self {
            ParamValue::Node(reached) => Some(reached.value),
            ParamValue::Held(value) => Some(*value),
            ParamValue::Literal(value) => Some(*value),
            ParamValue::Computed(value) => Some(value),
            ParamValue::Missing => None,
        }
    }

    /// Returns whether the value is missing.
    pub fn is_missing(&self) -> bool
        ensures { IsTrue result ↔ (value_found self.now ≡ missing) }
    {
        matches!(self, ParamValue::Missing)
    }

    /// Renders the value as a text. A missing value renders as the empty text.
    ///
    /// # Errors
    ///
    /// Fails if memory runs out.
    pub fn render(&self, alloc: Global) -> Result<String, AllocError>
        ensures { IfOk result (λ s. string_bytes s ≡ rendered (data_in (value_found self.now))) }
    {
        match self.as_json() {
            Some(value) => value.render(alloc),
            None => Ok(String::new(alloc)),
        }
    }

    /// Converts the value into one that owns its path. A value that is `Held` is copied.
    ///
    /// # Errors
    ///
    /// Fails if memory runs out.
    pub fn into_scoped(self, alloc: Global) -> Result<ScopedJson<'v>, AllocError>
        ensures found { IfOk result (λ s. found_of s ≡ value_found self.entry) }
        ensures constant { IfOk result (λ s. is_constant s ≡ is_literal_value self.entry) }
    {
        match self {
            ParamValue::Node(reached) => Ok(ScopedJson::Context(
                reached.value,
                path_of(reached.route(), alloc)?,
            )),
            ParamValue::Held(value) => Ok(ScopedJson::Derived(value.clone()?)),
            ParamValue::Literal(value) => Ok(ScopedJson::Constant(value)),
            ParamValue::Computed(value) => Ok(ScopedJson::Derived(value)),
            ParamValue::Missing => Ok(ScopedJson::Missing),
        }
    }
}

impl<'v> Argument<'v> {
    /// Creates an argument of this text as written, if it has one, and this value.
    pub fn new(written: Option<&'v str>, value: ParamValue<'v>) -> Argument<'v>
        ensures { argument_view result ≡ record {
          relative_path = option_map (λ t. t.now) written.entry;
          found = value_found value.entry;
          is_constant = is_literal_value value.entry;
        } }
    {
        Argument { written, value }
    }

    /// Returns the text as written, if the parameter is a name or a path.
    pub fn written(&self) -> Option<&'v str>
        ensures { option_map (λ t. t.now) result ≡ (argument_view self.now).relative_path }
    {
        self.written
    }

    /// Returns the value, or `None` if it is missing. A missing value counts as null elsewhere.
    pub fn as_json(&self) -> Option<&Json>
        ensures { option_map (λ v. view v.now) result ≡ present_in (argument_view self.now).found }
    {
        self.value.as_json()
    }

    /// Returns the value, or this null if it is missing.
    pub fn json<'h>(&'h self, null: &'h Null) -> &'h Json
        ensures { view result.now ≡ data_in (argument_view self.now).found }
    {
        match self.value.as_json() {
            Some(value) => value,
            None => null.value(),
        }
    }

    /// Returns a copy of the value, or null if it is missing.
    ///
    /// # Errors
    ///
    /// Fails if memory runs out.
    pub fn to_json(&self) -> Result<Json, AllocError>
        ensures { IfOk result (λ d. view d ≡ data_in (argument_view self.now).found) }
    {
        match self.value.as_json() {
            Some(value) => value.clone(),
            None => Ok(Json::Null),
        }
    }

    /// Renders the value as a text. A missing value renders as the empty text.
    ///
    /// # Errors
    ///
    /// Fails if memory runs out.
    pub fn render(&self, alloc: Global) -> Result<String, AllocError>
        ensures { IfOk result (λ s. string_bytes s ≡ rendered (data_in (argument_view self.now).found)) }
    {
        self.value.render(alloc)
    }

    /// Converts the argument into what a user-defined part is passed.
    ///
    /// # Errors
    ///
    /// Fails if memory runs out.
    pub fn into_path_and_json(self, alloc: Global) -> Result<PathAndJson<'v>, AllocError>
        ensures { IfOk result (λ p. path_and_data p ≡ argument_view self.entry) }
    {
        let Argument { written, value } = self;
        let written = match written {
            Some(text) => Some(String::from_str(alloc, text)?),
            None => None,
        };
        Ok(PathAndJson::new(written, value.into_scoped(alloc)?))
    }
}
