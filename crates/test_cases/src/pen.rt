//! A writer that takes a few bytes a write, and can fail.

ghost use Rattle.std.specs.Io.{WritesAtMost};
ghost use Rattle.std.specs.Prelude.{◌≡◌, IfOk};

use crate::fault::Fault;
use crate::fields::Fields;
use serde_json::Value as JsonValue;
use std::alloc::{AllocError, Global};
use std::io;
use std::io::Write;

/// What a writer takes.
#[derive(Clone, Copy)]
pub struct Taking {
    /// The most bytes that a write takes.
    pub most: usize,
    /// The number of the write that fails, from 1, if one does.
    pub fails: Option<u64>,
    /// How it fails: with this error, or by taking 0 bytes.
    pub fault: Option<Fault>,
}

impl Taking {
    /// Describes a writer that takes all bytes at once, and never fails.
    pub fn all() -> Taking {
        Taking {
            most: usize::MAX,
            fails: None,
            fault: Some(Fault::NOT_FOUND),
        }
    }

    /// Describes a writer that takes at most this many bytes a write, and whose write of this number fails so.
    pub fn failing(most: usize, fails: u64, fault: Option<Fault>) -> Taking {
        Taking {
            most,
            fails: Some(fails),
            fault,
        }
    }

    /// Returns what an object describes that has only the fields of a writer.
    pub fn read(value: &JsonValue) -> Option<Taking> {
        let members = value.as_object()?;
        for (name, value) in members.iter() {
            if !is_field(name.as_str(), value) {
                return None;
            }
        }
        Some(Taking::of(Fields(members)))
    }

    fn of(fields: Fields<'_>) -> Taking {
        Taking {
            most: fields.number("most").unwrap_or(usize::MAX),
            fails: fails_of(fields),
            fault: match fields.get("fault") {
                Some(value) => Fault::read(value),
                None => Some(Fault::NOT_FOUND),
            },
        }
    }
}

fn fails_of(fields: Fields<'_>) -> Option<u64> {
    fields.get("fails")?.as_u64()
}

fn is_field(name: &str, value: &JsonValue) -> bool {
    match name {
        "most" | "fails" => value.as_u64().unwrap_or(0) > 0,
        "fault" => value.as_u64() == Some(0) || Fault::read(value).is_some(),
        _ => false,
    }
}

/// Takes a few bytes a write. One write fails. Later writes take bytes again, so that a test notices if there are any.
#[derive(Drop)]
pub struct Pen {
    taking: Taking,
    taken: Vec<u8>,
    writes: u64,
}

impl Pen {
    /// Creates a writer that has taken nothing yet.
    pub fn new(alloc: Global, taking: Taking) -> Pen {
        Pen {
            taking,
            taken: Vec::new(alloc),
            writes: 0,
        }
    }

    /// Returns all bytes that were taken, as a text. Bytes that aren't UTF-8 become U+FFFD.
    pub fn text(&self, alloc: Global) -> Result<String, AllocError> {
        String::from_utf8_lossy(alloc, self.taken.as_slice())
    }

    /// Returns all bytes that were taken.
    pub fn taken(&self) -> &[u8] {
        self.taken.as_slice()
    }

    /// Returns how often it was asked to write.
    pub fn writes(&self) -> u64 {
        self.writes
    }

    fn takes(&mut self, buf: &[u8]) -> io::Result<usize>
        ensures { WritesAtMost result buf.now }
    {
        let count = buf.len().min(self.taking.most);
        self.taken.extend_from_slice(&buf[..count])?;
        Ok(count)
    }

    fn fails(&self) -> io::Result<usize>
        ensures { IfOk result (λ count. count ≡ 0) }
    {
        match self.taking.fault {
            Some(fault) => Err(io::Error::from(fault.kind())),
            None => Ok(0),
        }
    }
}

impl Write for Pen {
    fn write(&mut self, buf: &[u8]) -> io::Result<usize> {
        self.writes = self.writes.saturating_add(1);
        match self.taking.fails {
            Some(at) => match at == self.writes {
                true => self.fails(),
                false => self.takes(buf),
            },
            None => self.takes(buf),
        }
    }

    fn flush(&mut self) -> io::Result<()> {
        Ok(())
    }
}
