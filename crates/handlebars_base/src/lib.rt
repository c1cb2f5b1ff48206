//! The base of the template engine: its errors, JSON as templates see it, and outputs, to which texts and values are
//! written, escaped or unchanged.
#![tactic(auto)]

pub mod error;
pub mod json;
pub mod laws;
pub mod output;
pub mod support;
