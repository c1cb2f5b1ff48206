//! What is registered under the names of helpers, and what user-defined helpers answer.

pub mod def;
pub mod entry;
pub mod function;

use crate::built_in::BuiltIn;
use handlebars_base::error::RenderError;
use handlebars_base::json::value::Json;
use handlebars_scope::block::BlockContext;

/// What is registered under a helper's name.
#[derive(Clone, Copy, Debug, PartialEq, Eq)]
pub enum Callee {
    Built(BuiltIn),
    /// A user-defined helper, which is called by that name.
    User,
}

/// A local helper: the name that its calls go to, and the values that are passed before their parameters.
pub struct LocalHelper {
    pub registered: String,
    pub constants: Vec<Json>,
}

// Not derived, so that every place that drops one makes a single call.
impl Drop for LocalHelper {
    fn drop(self) {
        let LocalHelper {
            registered: _,
            constants: _,
        } = self;
    }
}

/// A step of the answer of a user-defined helper.
#[derive(Drop)]
pub enum HelperStep {
    /// Writes a text as it is: unescaped, and without regard to the state of the line.
    Write(String),
    /// Renders the body, if the call has one.
    Body,
    /// Renders the inverse, if the call has one.
    Inverse,
    /// Renders the body in this scope frame.
    BodyIn(BlockContext),
}

/// What a user-defined helper answers when it is called: its steps, or `None`, and then it is asked for a
/// value.
pub type HelperResult = Result<Option<Vec<HelperStep>>, RenderError>;

/// What a user-defined helper offers as its value.
#[derive(Drop)]
pub enum HelperValue {
    NotOffered,
    Missing,
    Value(Json),
}
