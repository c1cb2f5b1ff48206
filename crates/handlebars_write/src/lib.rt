//! How a rendering writes: texts and values, to an output or to a text that is rendered ahead, as texts alone or as pieces with
//! their origins.
#![tactic(auto)]

pub mod each_piece;
pub mod location;
pub mod outcome;
pub mod output_mode;
mod plain;
pub mod sink;
pub mod text_only;
mod to_output;
pub mod value;
pub mod value_path;
mod write_error;
