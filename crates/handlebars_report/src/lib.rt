//! Reports what is wrong with text files, as rustc does.
//!
//! A [`Problem`] is at a [`Place`] of a file. It is shown with the line of the file and carets under the range, or as JSON for
//! editors and other programs. A [`Report`] has the problems of some files in order, and their [`Summary`].
//!
//! ```
//! let place = Place::in_text(rt.alloc(), "page.hbs", text, 112..122)?;
//! report.push(Problem { severity: Severity::Error, code, place, message, help, notes })?;
//! println!(rt; "{report}{}", report.summary())?;
//! ```
#![tactic(auto)]

mod json;
mod order;
mod place;
mod position;
mod problem;
mod report;
mod summary;
mod text;

pub use place::Place;
pub use position::Position;
pub use problem::{Note, Problem, Severity};
pub use report::Report;
pub use summary::Summary;
