//! Writes one file for each item: a letter for each row, a page for each article.
//!
//! [`Pages`] says where names and texts come from, [`Store`] where files are written, and [`Report`] receives the outcome of each
//! item. [`build`] goes over the items twice: the first pass checks the names of all files and writes nothing, the second one
//! writes the texts that changed.
//!
//! ```
//! let settings = Settings { shard: Shard::all(), dry_run: false, keep_going: true };
//! let summary = build(rt.alloc(), &mut pages, &mut store, &settings, &mut report)?;
//! ```
#![tactic(auto)]

mod checks;
mod error;
mod files;
mod first;
mod look;
mod name;
mod options;
mod outcome;
mod place;
mod run;
mod second;
mod source;

pub use error::BuildError;
pub use files::{Standing, Store};
pub use name::is_acceptable;
pub use options::{Settings, Shard};
pub use outcome::{Cause, Outcome, Report, Summary};
pub use run::build;
pub use source::{Failure, Pages};
