//! Outputs that write to a writer.

ghost use Rattle.std.specs.Prelude.{◌≡◌, ◌<◌, length, IfErr, OnErr, OnOk};
ghost use Rattle.std.specs.Io.{WritesAtMost};
ghost use Rattle.handlebars_base.specs.Bytes.{Text};
ghost use Rattle.handlebars_base.specs.Outputs.{IsPrefix, Written, empty_output};
ghost use Rattle.handlebars.specs.Writers.{TakesText, held_by, taken_of};

mod named;
mod string_writer;
mod taken;

use crate::output::taken::Taken;
use handlebars_base::output::Output;
pub(crate) use named::{Named, NamedOutput};
use std::io;
use std::io::{ErrorKind, Write};
pub use string_writer::StringWriter;

/// An output that writes to a writer, in as many writes as a segment needs. A write that takes nothing is a write
/// error, `WriteZero`, and so is one that is interrupted. After a write error no more of the segment is written.
#[derive(Drop)]
pub struct WriteOutput<'w, W> {
    pub(crate) writer: &'w mut W,
    pub(crate) taken: Taken,
    pub(crate) write_errors: u64,
}

impl<'w, W: Write> WriteOutput<'w, W> {
    /// Creates an output that has taken nothing yet. Doesn't allocate.
    pub fn new(writer: &'w mut W) -> WriteOutput<'w, W>
        ensures held { held_by result ≡ empty_output }

        // A ghost name distinguishes one borrow from all others: the output writes to this writer.
        ensures same { result.writer.ghost_name ≡ writer.entry.ghost_name }
        ensures writer { result.writer.now ≡ writer.old }
    {
        WriteOutput {
            writer,
            taken: Taken::nothing(),
            write_errors: 0,
        }
    }
}

impl<W: Write> Output for WriteOutput<'_, W> {
    ghost held = { held_by };

    fn write(&mut self, seg: &str) -> Result<(), io::Error>
        ensures written { Written seg.now (held_by self.old) result (held_by self.new) }
        ensures given { IfErr result (λ _. Unit {0}) }

        // What is taken comes after what the writer reported that it holds, if it reports that.
        ensures takes { (t : Text) × TakesText t (W.contents self.old.writer.now) self.old.taken.text
            (W.contents self.new.writer.now) self.new.taken.text }
        ensures same { self.new.writer.ghost_name ≡ self.old.writer.ghost_name }
    {
        match put_all(self.writer, &mut self.taken, seg.as_bytes()) {
            Ok(()) => Ok(()),
            Err(cause) => {
                self.write_errors = self.write_errors.saturating_add(1);
                Err(cause)
            }
        }
    }
}

// In as many writes as the writer needs. A write that takes nothing is a write error, and after a write error there is
// no other write. Only the first write is inlined: it takes everything for the most part.
#[inline(always)]
fn put_all<W: Write>(writer: &mut W, taken: &mut Taken, bytes: &[u8]) -> io::Result<()>
    ensures ok { OnOk result (TakesText bytes.now (W.contents writer.old) taken.old.text
        (W.contents writer.new) taken.new.text) }
    ensures err { OnErr result ((prefix : Text) × IsPrefix prefix bytes.now
        × TakesText prefix (W.contents writer.old) taken.old.text (W.contents writer.new) taken.new.text) }
    ensures some { OnErr result (0 < length bytes.now) }
{
    if bytes.is_empty() {
        return Ok(());
    }
    match put(writer, taken, bytes) {
        Ok(count) if count == bytes.len() => Ok(()),
        Ok(0) => Err(io::Error::from(ErrorKind::WriteZero)),
        Ok(count) => put_rest(writer, taken, &bytes[count..]),
        Err(cause) => Err(cause),
    }
}

// What a first write has left.
#[cold]
#[inline(never)]
fn put_rest<W: Write>(writer: &mut W, taken: &mut Taken, bytes: &[u8]) -> io::Result<()>
    ensures ok { OnOk result (TakesText bytes.now (W.contents writer.old) taken.old.text
        (W.contents writer.new) taken.new.text) }
    ensures err { OnErr result ((prefix : Text) × IsPrefix prefix bytes.now
        × TakesText prefix (W.contents writer.old) taken.old.text (W.contents writer.new) taken.new.text) }
    ensures some { OnErr result (0 < length bytes.now) }
{
    let mut rest = bytes;
    'writes: while !rest.is_empty() {
        let count = put(writer, taken, rest)?;
        if count == 0 {
            return Err(io::Error::from(ErrorKind::WriteZero));
        }
        rest = &rest[count..];
    }
    Ok(())
}

// One write, which records what the writer takes.
#[inline(always)]
fn put<W: Write>(writer: &mut W, taken: &mut Taken, bytes: &[u8]) -> io::Result<usize>
    ensures bound { WritesAtMost result bytes.now }
    ensures takes { TakesText (taken_of bytes.now result) (W.contents writer.old) taken.old.text
        (W.contents writer.new) taken.new.text }
{
    match writer.write(bytes) {
        Ok(count) => {
            *taken = taken.and(&bytes[..count]);
            Ok(count)
        }
        Err(cause) => Err(cause),
    }
}
