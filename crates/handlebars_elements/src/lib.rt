//! Rendering over layers: what each element of a template does, with whatever is registered.
#![tactic(auto)]

mod alone;
mod bracket;
mod call;
mod chosen;
pub mod decorator;
pub mod element;
mod error;
pub mod evaluate;
mod execute;
mod found;
pub mod include;
mod iteration;
mod next;
mod section;
mod steps;
pub mod tree;
