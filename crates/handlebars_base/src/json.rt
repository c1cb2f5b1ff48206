//! JSON values as templates render them, and the paths that lead to them.

pub mod path;
pub mod value;
