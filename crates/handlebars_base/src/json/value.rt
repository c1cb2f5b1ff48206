//! JSON values: how they are rendered, whether they count as true, and where they come from.

ghost use Rattle.std.specs.Prelude.{◌≡◌, Bool, IfOk, IsTrue, ◌↔◌, string_bytes, false, option_map, map, Some};
ghost use Rattle.handlebars_base.specs.Bytes.{Text};
ghost use Rattle.serde_json.specs.Find.{as_str};
ghost use Rattle.serde_json.specs.View.{view, number_view};
ghost use Rattle.handlebars_base.specs.Values.{rendered, truth, truth_of_number};
ghost use Rattle.handlebars_base.specs.Scoped.{found_of, data_in, present_in, path_in, derived_in, missing, value};

mod convert;
mod equality;
mod order;
mod path_and_json;
mod write;

use crate::output::StringOutput;
pub use convert::to_json;
pub use equality::equal;
pub use order::compare;
pub use path_and_json::PathAndJson;
use serde_json::{Number, Value};
use std::alloc::{AllocError, Global};
pub use write::write_value;

/// A JSON value.
pub type Json = Value;

/// A value with its origin: a value of the template, one made during the rendering, one of the data with its full
/// path, or none.
#[derive(Drop)]
pub enum ScopedJson<'rc> {
    Constant(&'rc Value),
    Derived(Value),
    Context(&'rc Value, Vec<String>),
    Missing,
}

impl<'rc> ScopedJson<'rc> {
    /// Returns the value, or `None` for `Missing`, which counts as null elsewhere.
    pub fn as_json(&self) -> Option<&Value>
        ensures { option_map (λ v. view v.now) result ≡ present_in (found_of self.now) }
    {
        match self {
            ScopedJson::Constant(value) => Some(value),
            ScopedJson::Derived(value) => Some(value),
            ScopedJson::Context(value, _) => Some(value),
            ScopedJson::Missing => None,
        }
    }

    /// Renders the value as a text. `Missing` renders as the empty text.
    ///
    /// # Errors
    ///
    /// Fails if memory runs out.
    pub fn render(&self, alloc: Global) -> Result<String, AllocError>
        ensures { IfOk result (λ s. string_bytes s ≡ rendered (data_in (found_of self.now))) }
    {
        match self.as_json() {
            Some(value) => value.render(alloc),
            None => Ok(String::new(alloc)),
        }
    }

    /// Returns whether the value is `Missing`.
    pub fn is_missing(&self) -> bool
        ensures { IsTrue result ↔ (found_of self.now ≡ missing) }
    {
        matches!(self, ScopedJson::Missing)
    }

    /// Converts the value into a `Derived` one, which has no path in the data. `Missing` becomes null.
    ///
    /// # Errors
    ///
    /// Fails if memory runs out.
    pub fn into_derived(self, _alloc: Global) -> Result<ScopedJson<'rc>, AllocError>
        ensures value { IfOk result (λ s. found_of s ≡ value (data_in (found_of self.entry))) }
        ensures derived { IfOk result (λ s. derived_in s ≡ Some (data_in (found_of self.entry))) }
    {
        match self {
            ScopedJson::Constant(value) => Ok(ScopedJson::Derived(value.clone()?)),
            ScopedJson::Derived(value) => Ok(ScopedJson::Derived(value)),
            ScopedJson::Context(value, _) => Ok(ScopedJson::Derived(value.clone()?)),
            ScopedJson::Missing => Ok(ScopedJson::Derived(Value::Null)),
        }
    }

    /// Returns the full path if the value is one of the data.
    pub fn context_path(&self) -> Option<&Vec<String>>
        ensures { option_map (λ p. map string_bytes p.now.items) result ≡ path_in (found_of self.now) }
    {
        match self {
            ScopedJson::Context(_, path) => Some(path),
            _ => None,
        }
    }
}

impl<'rc> From<Value> for ScopedJson<'rc> {
    ghost from_gives = { λ v s. found_of s ≡ value (view v) };

    fn from(given: Value) -> ScopedJson<'rc>
        ensures found { found_of result ≡ value (view given) }
        ensures derived { derived_in result ≡ Some (view given) }
    {
        ScopedJson::Derived(given)
    }
}

/// Returns the text if the value is one.
pub fn as_string(value: &Json) -> Option<&str>
    ensures { option_map (λ s. s.now) result ≡ as_str (view value.now) }
{
    value.as_str()
}

/// Values that can be rendered as text, as a template writes them.
pub trait JsonRender {
    ghost renders_as: { Self → Text };

    /// Renders the value as a text.
    ///
    /// # Errors
    ///
    /// Fails if memory runs out.
    fn render(&self, alloc: Global) -> Result<String, AllocError>
        ensures { IfOk result (λ s. string_bytes s ≡ renders_as self.now) };
}

impl JsonRender for Value {
    ghost renders_as = { λ v. rendered (view v) };

    fn render(&self, alloc: Global) -> Result<String, AllocError> {
        let mut out = StringOutput::new(alloc);
        match write_value(&mut out, self, false) {
            Ok(()) => Ok(out.into_string()),
            // An output in memory fails only when memory runs out.
            Err(_) => Err(AllocError),
        }
    }
}

/// Values that may count as true.
pub trait JsonTruthy {
    ghost truth_of: { Self → Bool → Bool };

    /// Returns whether the value counts as true. With `include_zero`, 0 counts as true.
    fn is_truthy(&self, include_zero: bool) -> bool
        ensures { result ≡ truth_of self.now include_zero };
}

impl JsonTruthy for Value {
    ghost truth_of = { λ v include_zero. truth include_zero (view v) };

    fn is_truthy(&self, include_zero: bool) -> bool {
        match self {
            Value::Null => false,
            Value::Bool(b) => *b,
            Value::Number(n) => counts(n, include_zero),
            Value::String(s) => !s.is_empty(),
            Value::Array(items) => !items.is_empty(),
            Value::Object(members) => !members.is_empty(),
        }
    }
}

// Returns whether a number counts as true. A number outside the range counts as null.
fn counts(number: &Number, include_zero: bool) -> bool
    ensures { result ≡ truth_of_number include_zero (number_view number.now) }
{
    if number.is_f64() {
        return false;
    }
    include_zero || number.as_u64() != Some(0)
}
