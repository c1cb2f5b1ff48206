//! What is reported of the items of a build.

use crate::counts::Grouped;
use crate::order::Part;
use crate::stops::{ItemFault, item_at};
use hb_build::{Cause, Outcome, Report};
use std::cell::Cell;
use std::io;
use std::io::Write;

/// Reports the items: in a dry run which files would be written, and always which items failed; and, if that is asked for, how
/// many are done.
#[derive(Drop)]
pub struct Reporter<'o, 't, 'l, O, E> {
    pub out: &'o mut O,
    pub err: &'o mut E,
    pub folder: &'t str,
    /// The path of the data, if its items are read one at a time, and the line of the current item.
    pub source: Option<&'t str>,
    pub line: &'l Cell<usize>,
    pub part: Part,
    pub dry_run: bool,
    pub progress: bool,
    pub done: u64,
    pub failed: u64,
    /// Whether the line of progress has no end yet.
    pub is_open: bool,
    /// Whether the list of a dry run couldn't be written.
    pub is_broken: bool,
}

impl<O: Write, E: Write> Reporter<'_, '_, '_, O, E> {
    fn list(&mut self, what: &str, name: &str) {
        let folder = self.folder;
        if self.dry_run && writeln!(self.out, "{what} {folder}/{name}").is_err() {
            self.is_broken = true;
        }
    }

    fn report_failed(&mut self, item: u64, name: &str, cause: &Cause) {
        self.end_line();
        self.failed = self.failed.saturating_add(1);
        let at = item_at(self.source, self.line.get(), item);
        let cause = &ItemFault {
            folder: self.folder,
            name,
            cause,
        };
        let _ = writeln!(self.err, "hb: {at}: {cause}");
    }

    fn report_progress(&mut self, all: u64) -> io::Result<()> {
        let (done, all) = (Grouped(self.done), Grouped(all));
        write!(self.err, "\rhb: {done} of {all}")?;
        self.is_open = true;
        self.err.flush()
    }

    /// Ends the line of progress.
    pub fn end_line(&mut self) {
        if self.is_open {
            let _ = writeln!(self.err);
            self.is_open = false;
        }
    }
}

impl<O: Write, E: Write> Report for Reporter<'_, '_, '_, O, E> {
    ghost reports = { λ _ _ _ _ _ _. Unit {0} };

    fn item(&mut self, item: u64, items: u64, name: &str, outcome: &Outcome) {
        match outcome {
            Outcome::Created => self.list("create", name),
            Outcome::Changed => self.list("change", name),
            Outcome::Unchanged => {}
            Outcome::Failed(cause) => self.report_failed(item, name, cause),
        }
        self.done = self.done.saturating_add(1);
        let all = self.part.size(items);
        if self.progress && is_reported(self.done, all) {
            let _ = self.report_progress(all);
        }
    }
}

// Some hundred of the counts are reported, and the last one.
fn is_reported(done: u64, all: u64) -> bool {
    let step = all / 100 + 1;
    done % step == 0 || done == all
}
