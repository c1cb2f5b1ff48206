//! The entry points of a rendering, for callers that have a context: each takes the scope frames and the run out of it, and puts
//! them back.
#![tactic(auto)]

pub mod entry;
mod evaluating;
pub mod expand;
mod outermost;
mod outside;
mod parentheses;
mod viewed;
