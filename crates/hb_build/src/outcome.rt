//! What becomes of the items.

ghost use Rattle.std.specs.Prelude.{ℕ, List};
ghost use Rattle.hb_build.specs.declared.outcome.Outcome.{Outcome};

use crate::source::Failure;
use std::{fmt, io};

/// What became of an item's file. In a dry run, what would become of it.
#[derive(Drop)]
pub enum Outcome {
    /// There was no file. It is written now.
    Created,
    /// The file had another text. It is written now.
    Changed,
    /// The file has the text already. It is left untouched.
    Unchanged,
    /// The file is as it was.
    Failed(Cause),
}

/// Why an item failed.
#[derive(Drop)]
pub enum Cause {
    /// It has no text.
    Text(Failure),
    /// A folder, a link or the like stands where its file belongs.
    NotAFile,
    /// A file, a link or the like stands where a folder of its file belongs.
    NotAFolder,
    /// The store fails.
    Store(io::Error),
}

/// Receives the outcome of each item of the shard, in the order of the items.
pub trait Report {
    // From this state the report of the item of this number, out of so many, with this name and this outcome, may lead to that
    // state.
    ghost reports: { Self → ℕ → ℕ → List ℕ → Outcome → Self → Type 0 };

    /// Reports an item. Items are counted from 0, and `items` is how many there are, in all shards.
    fn item(&mut self, item: u64, items: u64, name: &str, outcome: &Outcome)
        ensures { reports self.old item items name.now outcome.now self.new };
}

/// How many files a build has created, changed and left unchanged, and how many items failed. In a dry run, how many there would
/// be. Together they are the items of the shard.
#[derive(Clone, Copy, Debug, PartialEq, Eq)]
pub struct Summary {
    pub created: u64,
    pub changed: u64,
    pub unchanged: u64,
    pub failed: u64,
}

impl Summary {
    ghost use Rattle.std.specs.Prelude.{◌≡◌, ◌+◌, ◌^◌, ◌<◌};
    ghost use Rattle.hb_build.specs.Items.{HasRoom, counted, empty_summary};

    /// Returns the summary of no items.
    pub(crate) fn new() -> Summary
        ensures { result ≡ empty_summary }
    {
        Summary {
            created: 0,
            changed: 0,
            unchanged: 0,
            failed: 0,
        }
    }

    /// Counts an item.
    pub(crate) fn count(&mut self, outcome: &Outcome)
        requires { HasRoom self.old }
        ensures { self.new ≡ counted outcome.now self.old }
    {
        match outcome {
            Outcome::Created => self.created += 1,
            Outcome::Changed => self.changed += 1,
            Outcome::Unchanged => self.unchanged += 1,
            Outcome::Failed(_) => self.failed += 1,
        }
    }
}

impl fmt::Display for Cause {
    fn fmt<W: fmt::Write>(&self, f: &mut fmt::Formatter<W>) -> fmt::Result {
        match self {
            Cause::Text(failure) => write!(f, "{failure}"),
            Cause::NotAFile => f.write_str("something else stands where the file belongs"),
            Cause::NotAFolder => f.write_str("something else stands where a folder of it belongs"),
            Cause::Store(cause) => write!(f, "{cause}"),
        }
    }
}
