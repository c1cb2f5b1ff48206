//! Templates: their trees, and the compilation of source text to a tree.
#![tactic(auto)]

pub mod laws;
pub mod template;
