//! Worked sources and trees, each with what it compiles to or its outcome over some data. Each function does nothing: its
//! contract states the examples.
#![tactic(auto)]

mod actions;
mod decorators;
mod examples;
mod helpers;
mod inclusion_sources;
mod inclusions;
mod laws;
mod markup;
mod pieces;
mod scopes;
mod sections;
mod sources;
mod user;

pub use actions::worked_actions;
pub use decorators::worked_decorators;
pub use examples::worked_examples;
pub use helpers::worked_helpers;
pub use inclusion_sources::worked_inclusion_sources;
pub use inclusions::{worked_captured_texts, worked_inclusions};
pub use laws::worked_laws;
pub use markup::worked_markup;
pub use pieces::worked_pieces;
pub use scopes::worked_scopes;
pub use sections::worked_sections;
pub use sources::worked_sources;
pub use user::worked_user_helpers;
