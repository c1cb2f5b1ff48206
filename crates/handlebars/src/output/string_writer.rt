//! A writer that stores what is written to it.

ghost use Rattle.std.specs.Prelude.{◌≡◌, string_bytes};
ghost use Rattle.handlebars.specs.Writers.{bytes_in, utf8_or_empty};

use std::alloc::Global;
use std::io;
use std::io::Write;

/// A writer that stores bytes, to make a text of them. A write fails only when memory runs out, and then none of it is
/// stored.
#[derive(Drop)]
pub struct StringWriter {
    alloc: Global,
    bytes: Vec<u8>,
}

impl StringWriter {
    ghost use Rattle.std.specs.Prelude.{[]};

    /// Creates a writer that holds nothing yet. Doesn't allocate.
    pub fn new(alloc: Global) -> StringWriter
        ensures { bytes_in result ≡ [] }
    {
        StringWriter {
            alloc,
            bytes: Vec::new(alloc),
        }
    }

    /// Returns all that was written, if it is UTF-8, and otherwise the empty text.
    pub fn into_string(self) -> String
        ensures { string_bytes result ≡ utf8_or_empty (bytes_in self) }
    {
        match String::from_utf8(self.bytes) {
            Ok(text) => text,
            Err(_) => String::new(self.alloc),
        }
    }
}

impl Write for StringWriter {
    ghost use Rattle.std.specs.Io.{WritesAtMost};
    ghost use Rattle.std.specs.Io.KnownBytes.{WriteAppends};
    ghost use Rattle.std.specs.IoError.{error_kind};
    ghost use Rattle.std.specs.Prelude.{◌≡◌, ◌++◌, IfErr, OnErr, OnOk, Some};
    ghost use Rattle.std.specs.declared.io.ErrorKind.TheVariants.{OutOfMemory};
    ghost use Rattle.handlebars.specs.Writers.{bytes_in};

    ghost contents = { λ w. Some (bytes_in w) };

    fn write(&mut self, buf: &[u8]) -> io::Result<usize>
        ensures bound { WritesAtMost result buf.now }
        ensures bytes { WriteAppends (Some (bytes_in self.old)) (Some (bytes_in self.new)) result buf.now }
        ensures ok { OnOk result (bytes_in self.new ≡ bytes_in self.old ++ buf.now) }
        ensures err { OnErr result (bytes_in self.new ≡ bytes_in self.old) }
        ensures memory { IfErr result (λ e. error_kind e ≡ OutOfMemory) }
    {
        self.bytes.write(buf)
    }

    /// Does nothing: the writer has no buffer to flush. Never fails.
    fn flush(&mut self) -> io::Result<()>
        ensures unchanged { bytes_in self.new ≡ bytes_in self.old }
        ensures done { IfErr result (λ _. ⊥) }
    {
        Ok(())
    }
}
