//! Templates whose markup doesn't depend on the texts of their data: when a template is one, and what follows.
#![tactic(auto)]

pub mod check;
pub mod fault;
