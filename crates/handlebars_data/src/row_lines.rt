//! The lines on which the rows of a table begin.

use csv::StringRecord;

/// Counts the lines of rows. The reader of records counts a `\n` where it passes it over: at the end of a row, or before the next
/// one if the rows end with `\r\n`.
#[derive(Clone, Copy, Debug, Drop)]
pub(crate) struct RowLines {
    // Whether a row ends with `\n` alone, as the header does.
    ends_counted: bool,
    // The line on which the last row begins, or 0 before the first one.
    line: u64,
}

impl RowLines {
    /// Returns the lines below a header. `end` is the line that the reader has counted after it.
    pub fn below(names: &StringRecord, end: u64) -> RowLines {
        RowLines {
            ends_counted: end.saturating_sub(newlines_in(names)) > 1,
            line: 0,
        }
    }

    /// Takes a row that was read. The reader has counted these lines before and after it. If the row is the last one, without a
    /// line end, blank lines before it are taken for its own.
    pub fn take(&mut self, row: &StringRecord, before: u64, after: u64) {
        let last = if self.ends_counted {
            after.saturating_sub(1)
        } else {
            after
        };
        // A row on a line of its own needn't be looked through.
        let within = if after.saturating_sub(before) > 1 {
            newlines_in(row)
        } else {
            0
        };
        self.line = before.max(last.saturating_sub(within));
    }

    /// Takes a row that was rejected, whose fields aren't known. Blank lines before it are taken for its own.
    pub fn take_rejected(&mut self, before: u64) {
        self.line = if self.ends_counted {
            before
        } else {
            before.saturating_add(1)
        };
    }

    /// Returns the 1-based line on which the last row begins, or 0 before the first one.
    pub fn last(&self) -> usize {
        self.line as usize
    }
}

fn newlines_in(record: &StringRecord) -> u64 {
    let mut count = 0u64;
    'fields: for i in 0..record.len() {
        if let Some(field) = record.get(i) {
            count = count.saturating_add(newlines_of(field));
        }
    }
    count
}

fn newlines_of(field: &str) -> u64 {
    field.bytes().filter(|byte| *byte == b'\n').count() as u64
}
