//! User-defined helpers, decorators, functions and an escape function, for tests.
#![tactic(auto)]

pub mod decorators;
pub mod escape;
pub mod failing;
pub mod functions;
pub mod helpers;
pub mod scripted;
