//! The output that a rendering emits its pieces to.

ghost use Rattle.std.specs.Prelude.{◌≡◌, ◌≢◌, [], ◌++◌, OnOk};
ghost use Rattle.handlebars_expand.specs.PiecesView.{emitted_seen};
ghost use Rattle.handlebars_expand.specs.Received.{nothing_received};
ghost use Rattle.hb_origins.specs.Printed.{PrintsAfter, printed_as};

use crate::form::Form;
use crate::line::add_line;
use crate::marks::brings_mark;
use crate::page::{add_begin, add_end, add_piece};
use handlebars::{Origin, PieceOutput, RenderError, Trace};
use std::alloc::Global;
use std::io;
use std::io::{ErrorKind, Write};

// How many bytes are buffered before they are written.
const FULL: usize = 8192;

/// Prints pieces in the form that is asked for. Whole lines, or whole parts of a page, are buffered and then written at once.
#[derive(Drop)]
pub struct Printer<'p, W> {
    form: Form,
    // What is printed as the name of the rendered template.
    template: &'p str,
    gathered: Vec<u8>,
    out: &'p mut W,
    // The first error of a piece that couldn't be printed.
    failed: Option<ErrorKind>,
    trace: Trace,
}

impl<'p, W: Write> Printer<'p, W> {
    /// Creates a printer that has printed nothing yet. Allocates no memory.
    pub fn new(alloc: Global, form: Form, template: &'p str, out: &'p mut W) -> Printer<'p, W>
        ensures received { result.trace.received ≡ nothing_received }
        ensures form { result.form ≡ form }
        ensures argument { result.template.now ≡ template.now }
        ensures gathered { result.gathered.items ≡ [] }
    {
        Printer {
            form,
            template,
            gathered: Vec::new(alloc),
            out,
            failed: None,
            trace: Trace::nothing(),
        }
    }

    /// Buffers the page up to the pieces. Other forms have no beginning.
    pub fn begin(&mut self) -> io::Result<()>
        ensures lines { self.old.form ≢ Form.Page → self.new ≡ self.old }
    {
        match self.form {
            Form::Lines => Ok(()),
            Form::Marks => Ok(()),
            Form::Page => add_begin(&mut self.gathered, self.template),
        }
    }

    /// Buffers the page after the pieces, with the error that ended the rendering, if one did. Other forms have no end. Then
    /// writes and flushes the buffer.
    pub fn end(&mut self, cause: Option<&RenderError>) -> io::Result<()>
        ensures lines { OnOk result (self.old.form ≢ Form.Page
            → PrintsAfter (W.contents self.old.out.now) self.old.gathered.items []
            (W.contents self.new.out.now) self.new.gathered.items) }
    {
        let added = match self.form {
            Form::Lines => Ok(()),
            Form::Marks => Ok(()),
            Form::Page => self.end_page(cause),
        };
        self.pour()?;
        self.out.flush()?;
        added
    }

    /// Returns the error that ended a rendering because a piece couldn't be printed, if one did.
    pub fn output_error(&self) -> Option<ErrorKind>
        ensures { result ≡ self.now.failed }
    {
        self.failed
    }

    // The buffer is written first. The end then fits into it, even if memory ran out.
    fn end_page(&mut self, cause: Option<&RenderError>) -> io::Result<()> {
        self.pour()?;
        add_end(&mut self.gathered, self.template, cause)
    }

    fn add(&mut self, text: &str, origin: &Origin<'_>) -> io::Result<()>
        ensures trace { self.new.trace ≡ self.old.trace }
        ensures prints { OnOk result (self.old.form ≢ Form.Page
            → PrintsAfter (W.contents self.old.out.now) self.old.gathered.items
            (printed_as self.old.form self.old.template.now (emitted_seen text.now origin.now))
            (W.contents self.new.out.now) self.new.gathered.items) }
    {
        gather(&mut self.gathered, self.form, self.template, text, origin)?;
        if self.gathered.len() < FULL {
            return Ok(());
        }
        Ok(self.pour()?)
    }

    // Bytes that can't be written are dropped, so that no part of them is written twice.
    fn pour(&mut self) -> io::Result<()>
        ensures trace { self.new.trace ≡ self.old.trace }
        ensures prints { OnOk result (PrintsAfter (W.contents self.old.out.now) self.old.gathered.items []
            (W.contents self.new.out.now) self.new.gathered.items) }
        ensures none { self.new.gathered.items ≡ [] }
    {
        let answer = self.out.write_all(self.gathered.as_slice());
        self.gathered.clear();
        answer
    }
}

// Appends a piece to the buffer.
fn gather(
    gathered: &mut Vec<u8>,
    form: Form,
    first: &str,
    text: &str,
    origin: &Origin<'_>,
) -> io::Result<()>
    ensures { OnOk result (form ≢ Form.Page
        → gathered.new.items ≡ gathered.old.items ++ printed_as form first.now (emitted_seen text.now origin.now)) }
{
    match form {
        Form::Lines => Ok(add_line(gathered, first, text, origin)?),
        Form::Marks => {
            if brings_mark(origin.kind, text) {
                add_line(gathered, first, text, origin)?;
            }
            Ok(())
        }
        Form::Page => add_piece(gathered, first, text, origin),
    }
}

impl<W: Write> PieceOutput for Printer<'_, W> {
    ghost received = { λ o. o.trace.received };

    fn piece(&mut self, text: &str, origin: &Origin<'_>) -> Result<(), io::Error> {
        match self.add(text, origin) {
            Ok(()) => {
                self.trace = self.trace.and(text.as_bytes(), origin);
                Ok(())
            }
            Err(cause) => {
                self.failed = Some(cause.kind());
                self.trace = self.trace.and_error();
                Err(cause)
            }
        }
    }
}
