//! What is about several templates at once: which include which, which are to be checked as pages, and which names the hash
//! arguments of a partial call hide in its block.
#![tactic(auto)]

mod calls;
mod circles;
mod frame;
mod hidden;
mod includes;
mod index;
mod mention;
mod pages;
mod reach;
mod template;

pub use circles::Circle;
pub use hidden::{HiddenName, Location, hidden_names};
pub use includes::{Includes, Inclusion};
pub use template::NamedTemplate;
