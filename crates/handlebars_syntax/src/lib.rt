//! Says of a source that doesn't compile what it lacks, where, and what to write instead.
//!
//! The compiler says of many mistakes that a tag is unreadable. [`diagnose`] finds how far the grammar's own readers get in that
//! tag, and gives a [`SyntaxProblem`]: a message, help in the author's own names, and notes.
//!
//! ```
//! if let Err(error) = Template::compile(alloc, source) {
//!     let problem = diagnose(alloc, source, &error)?;
//!     println!(rt; "{}: {}", problem.code.as_str(), problem.message)?;
//! }
//! ```
#![tactic(auto)]

mod blocks;
mod closing;
mod diagnosis;
mod fault;
mod help;
mod items;
mod literals;
mod message;
mod nesting;
mod opening;
mod operators;
mod paths;
mod problem;
mod range;
mod reading;
mod sentence;
mod tags;
mod unreadable;
mod words;

pub use diagnosis::diagnose;
pub use problem::{SyntaxCode, SyntaxNote, SyntaxProblem};
pub use range::tag_range;
