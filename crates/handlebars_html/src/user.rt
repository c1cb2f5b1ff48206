//! What differs in a registry from what every registry begins with.

use handlebars_helpers::escape::Escaping;

/// What is registered under the name of a helper, where it isn't what every registry begins with.
#[derive(Clone, Copy)]
pub enum OtherKind {
    /// A user-defined helper that is known to give values alone, each of which is written as an address that runs no script.
    GivesUrls,
    /// A user-defined helper that is known to give values alone, and no steps.
    GivesValues,
    /// Another user-defined helper.
    MayHaveSteps,
    /// A built-in helper under another name than its own, or nothing under the name of one.
    Misplaced,
}

/// A name under which another helper is registered than every registry begins with.
#[derive(Drop)]
pub struct OtherHelper {
    pub name: String,
    pub kind: OtherKind,
}

/// What differs in a registry from what every registry begins with, and how values are escaped.
#[derive(Drop)]
pub struct UserDefined {
    pub escape: Escaping,
    pub helpers: Vec<OtherHelper>,
    /// The names of decorators.
    pub decorators: Vec<String>,
}
