//! What is inside tags, read from the start of a text.
#![tactic(auto)]

pub mod binding;
pub mod expression;
pub mod laws;
pub mod literal;
pub mod literal_value;
mod marks;
