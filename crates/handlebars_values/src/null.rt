//! A null that can be borrowed.

ghost use Rattle.std.specs.Prelude.{◌≡◌, is_some, true};
ghost use Rattle.serde_json.specs.Data.{null};
ghost use Rattle.serde_json.specs.Find.{as_null};
ghost use Rattle.serde_json.specs.View.{view};

use handlebars_base::json::value::Json;

/// The null of JSON, which is borrowed where a value is missing.
#[derive(Drop)]
pub struct Null {
    value: Json,
    ghost is_null: { is_some (as_null (view value)) ≡ true },
}

impl Null {
    /// Returns the null.
    pub fn new() -> Null {
        Null { value: Json::Null }
    }

    /// Borrows the null.
    pub fn value(&self) -> &Json
        ensures { view result.now ≡ null }
    {
        &self.value
    }
}
