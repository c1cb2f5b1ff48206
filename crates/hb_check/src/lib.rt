//! Finds what is wrong with templates: those that don't compile, names that may not stand for anything, templates that no page
//! includes, names that hash arguments hide, and, if it is asked for, markup that isn't fixed and data where it may do
//! harm.
//!
//! ```
//! let question = Question { files: &files, pages: &[], markup: false, html: false };
//! let report = check(rt.alloc(), &question)?;
//! println!(rt; "{report}{}", report.summary())?;
//! ```
#![tactic(auto)]

mod chains;
mod circles;
mod code;
mod hidden;
mod html;
pub mod laws;
mod markup;
mod names;
mod page;
mod place;
mod problems;
mod push;
mod question;
mod sources;
mod syntax;
mod unused;
mod words;

pub use code::Code;
pub use problems::check;
pub use question::{File, Question};
