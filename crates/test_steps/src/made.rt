//! The values that a script describes: trees and their parts, data, values, and views of calls.

pub mod data;
pub mod parameter;
pub mod scoped;
pub mod tree;
pub mod view;
