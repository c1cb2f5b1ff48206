//! The command line of `hb`: its arguments, what they ask for, the data that is read, the files that are written, and why a run
//! fails. It doesn't render: `hb` does.
#![tactic(auto)]

pub mod arguments;
pub mod command;
pub mod counts;
pub mod failure;
pub mod input;
pub mod message;
pub mod order;
pub mod output;
pub mod report;
pub mod stops;
pub mod store;
pub mod system;
pub mod task;
