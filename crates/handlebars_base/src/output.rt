//! The outputs of a rendering.

ghost use Rattle.std.specs.Prelude.{◌≡◌, ◌≢◌, ◌<◌, ◌≤◌, length, IfErr, IfOk, OnErr, OnOk, string_bytes, string_capacity};
ghost use Rattle.std.specs.IoError.{error_kind};
ghost use Rattle.std.specs.declared.io.Error.{Error};
ghost use Rattle.std.specs.declared.io.ErrorKind.TheVariants.{OutOfMemory};
ghost use Rattle.handlebars_base.specs.RenderRefusals.{cause_of, refusal_of, plain_refusal};
ghost use Rattle.handlebars_base.specs.Outputs.{Held, IsWhole, empty_output, Written, held_of, write_reason};

use crate::error::{RenderError, RenderErrorReason};
use std::alloc::{AllocError, Global};
use std::io;
use std::io::ErrorKind;

/// A destination for the text of a rendering, which is written segment by segment.
pub trait Output {
    // What has been written, and how many writes have failed.
    ghost held: { Self → Held };

    // The errors that a write may return: any, if the output doesn't restrict them.
    ghost may_give: { Error → Type 0 } = { λ _. Unit {0} };

    /// Writes a segment. Writing the empty segment never fails.
    ///
    /// # Errors
    ///
    /// On failure a prefix of the segment may have been written.
    fn write(&mut self, seg: &str) -> Result<(), io::Error>
        ensures written { Written seg.now (held self.old) result (held self.new) }
        ensures given { IfErr result may_give };
}

/// Stores the text in memory. A write fails only when memory runs out, and then stores nothing.
#[derive(Drop)]
pub struct StringOutput {
    text: String,
    write_errors: u64,
}

impl StringOutput {
    /// Creates an empty output. Allocates nothing.
    pub fn new(alloc: Global) -> StringOutput
        ensures { held_of result ≡ empty_output }
    {
        StringOutput {
            text: String::new(alloc),
            write_errors: 0,
        }
    }

    // Creates an empty output with capacity for a text of this many bytes.
    pub(crate) fn with_capacity(alloc: Global, capacity: usize) -> Result<StringOutput, AllocError>
        ensures held { IfOk result (λ o. held_of o ≡ empty_output) }
        ensures reserved { IfOk result (λ o. capacity ≤ string_capacity o.text) }
    {
        Ok(StringOutput {
            text: String::with_capacity(alloc, capacity)?,
            write_errors: 0,
        })
    }

    // Appends a segment, if there is memory for it. The part that is inlined is a copy into the capacity that is left.
    #[inline(always)]
    fn push_segment(&mut self, seg: &str) -> Result<(), AllocError>
        ensures ok { OnOk result (IsWhole seg.now (held_of self.old) (held_of self.new)) }
        ensures err { OnErr result (held_of self.new ≡ held_of self.old) }
        ensures some { OnErr result (0 < length seg.now) }
    {
        if self.text.capacity() - self.text.len() < seg.len() {
            return self.push_growing(seg);
        }
        self.text.push_str(seg)
    }

    // Appends a segment that exceeds the capacity that is left.
    #[inline(never)]
    fn push_growing(&mut self, seg: &str) -> Result<(), AllocError>
        ensures ok { OnOk result (IsWhole seg.now (held_of self.old) (held_of self.new)) }
        ensures err { OnErr result (held_of self.new ≡ held_of self.old) }
    {
        self.text.push_str(seg)
    }

    /// Returns the text that was written.
    pub fn into_string(self) -> String
        ensures { string_bytes result ≡ (held_of self).text }
    {
        self.text
    }
}

impl Output for StringOutput {
    ghost held = { held_of };

    ghost may_give = { λ e. error_kind e ≡ OutOfMemory };

    #[inline(always)]
    fn write(&mut self, seg: &str) -> Result<(), io::Error>
        ensures written { Written seg.now (held_of self.old) result (held_of self.new) }
        ensures given { IfErr result (λ e. error_kind e ≡ OutOfMemory) }
        ensures whole { OnErr result ((held_of self.new).text ≡ (held_of self.old).text) }
    {
        match self.push_segment(seg) {
            Ok(()) => Ok(()),
            Err(cause) => {
                self.write_errors = self.write_errors.saturating_add(1);
                Err(cause.into())
            }
        }
    }
}

/// Returns the error for a write that failed: `OutOfMemory` if memory ran out, otherwise `IOError` of the cause.
pub fn output_error(cause: io::Error) -> RenderError
    ensures refusal { refusal_of result ≡ plain_refusal (write_reason (error_kind cause)) }
    ensures cause { error_kind cause ≢ OutOfMemory → cause_of result ≡ RenderErrorReason.IOError cause }
{
    match cause.kind() {
        ErrorKind::OutOfMemory => RenderErrorReason::OutOfMemory.into(),
        _ => RenderError::from(RenderErrorReason::IOError(cause)),
    }
}
