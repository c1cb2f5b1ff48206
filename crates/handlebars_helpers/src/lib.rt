//! The helpers and decorators that templates call by name: what a call passes to them, what user-defined ones
//! answer, and what is registered under names. What the built-in ones choose and do, and how their scope frames are
//! set up, is defined in specs/.
#![tactic(auto)]

pub mod built_in;
pub mod by_name;
pub mod decorators;
pub mod each_iterations;
pub mod entries;
pub mod escape;
mod first;
pub mod fn_error;
pub mod iteration;
pub mod log_line;
pub mod safe_url;
pub mod user;
pub mod view;
