//! The texts and the tags of a source, one after the other, without a tree.
#![tactic(auto)]

pub mod comment;
pub mod laws;
mod prefix;
pub mod tag;
pub mod text;
pub mod trim;
