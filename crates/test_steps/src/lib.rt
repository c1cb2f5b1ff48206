//! The steps of scripts that need neither a registry nor a render context: how their fields are read, what is made from them,
//! what calls answer, and whether that is expected. `docs/SCRIPTS.md` has the format.
#![tactic(auto)]

pub mod answer;
pub mod calls;
pub mod data;
pub mod error;
pub mod expected;
pub mod fields;
pub mod held;
pub mod made;
pub mod reason;
pub mod scope;
pub mod scopes;
pub mod tree;
pub mod value;
pub mod writer;
