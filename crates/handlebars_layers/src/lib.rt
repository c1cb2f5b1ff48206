//! Scope frames as a list on the stack, nearest first, and what paths lead to in them. Names of paths and JSON of variables are
//! made only where they are asked for.
#![tactic(auto)]

pub mod binding;
mod descents;
pub mod destination;
pub mod elsewhere;
mod frame;
pub mod full_path;
pub mod innermost;
pub mod iterations;
pub mod laws;
pub mod layer;
pub mod lookup;
pub mod made;
mod outside;
pub mod partials;
mod prefixes;
mod reached;
mod resolution;
mod route;
pub mod scopes;
