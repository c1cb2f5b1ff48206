//! What a run reads and changes, and the values of parameters and calls, over layers. Nothing is written here.
#![tactic(auto)]

mod boolean;
pub mod built_in;
pub mod by_first;
mod by_two;
pub mod called;
pub mod dispatch;
pub mod environment;
mod evaluate;
pub mod expand;
pub mod find;
mod hash_argument;
pub mod inclusion;
mod log_line;
mod merge;
pub mod null;
pub mod param_value;
mod parentheses;
mod passed;
pub mod run;
pub mod target;
pub mod user;
