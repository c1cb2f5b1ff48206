//! Whether the names that templates use are known: what they call, include and set.
#![tactic(auto)]

mod args;
mod callee;
pub mod check;
pub mod fault;
mod included;
pub mod known;
mod location;
mod parameters;
mod round;
pub mod scope;
mod search;
mod spelling;
mod table;
mod tag;
mod templates;
mod tree;
mod words;
