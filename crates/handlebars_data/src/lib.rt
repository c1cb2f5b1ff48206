//! Reads data for templates.
#![tactic(auto)]

pub mod error;
mod expected;
pub mod format;
mod json_number;
pub mod json_text;
mod json_value;
pub mod laws;
pub mod lines;
mod members;
pub mod merging;
mod position;
mod row_lines;
pub mod rows;
pub mod setting;
mod stopping;
mod toml_floats;
mod toml_place;
pub mod toml_text;
mod utf8;

pub use error::{DataError, DataErrorKind};
pub use format::{Format, read_data};
pub use json_text::{Numbers, read_json};
pub use lines::{Lines, read_lines};
pub use merging::merge;
pub use rows::{Delimiter, Rows, read_rows};
pub use setting::{SettingError, set};
pub use toml_text::read_toml;
