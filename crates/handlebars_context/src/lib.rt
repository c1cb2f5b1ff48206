//! The state that callers pass to renderings: scope frames and a run over them. A rendering takes both and puts them back.
#![tactic(auto)]

pub mod context;
pub mod failure;
