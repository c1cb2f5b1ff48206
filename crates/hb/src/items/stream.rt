//! Items that are read one at a time.

ghost use Rattle.std.specs.Prelude.{◌≡◌, ◌<◌, ◌+◌, ◌-◌, ◌^◌, None, option_map};
ghost use Rattle.handlebars_scope.specs.Contexts.{data_of};
ghost use Rattle.hb.specs.Advances.{ReadsItem, SkipsItem};
ghost use Rattle.hb.specs.Frames.{alone_at};

use crate::frame::with_index;
use crate::items::Items;
use crate::message::out_of_range;
use handlebars::{Context, RenderContext};
use handlebars_data::{DataError, Delimiter, Format, Lines, Rows};
use hb_command::failure::Failure;
use hb_command::input::set_in_item;
use hb_command::message::{not_data, unreadable};
use hb_command::stops::item_at;
use hb_command::system::System;
use hb_command::task::Task;
use serde_json::Value;
use std::alloc::{AllocError, Global};
use std::cell::Cell;
use std::io::{BufReader, Read};
use std::{fs, io};

/// A reader of a file, or of the bytes that were read of one that can be read only once.
#[derive(Drop)]
pub enum Opened<'o, F> {
    File(F),
    Bytes(&'o [u8]),
}

impl<F: Read> Read for Opened<'_, F> {
    fn read(&mut self, buf: &mut [u8]) -> io::Result<usize> {
        match self {
            Opened::File(file) => file.read(buf),
            Opened::Bytes(bytes) => bytes.read(buf),
        }
    }
}

// A reader of items.
#[derive(Drop)]
enum Source<'o, F> {
    Lines(Lines<BufReader<Opened<'o, F>>>),
    Rows(Rows<BufReader<Opened<'o, F>>>),
}

/// The lines of JSON lines, or the rows of CSV or TSV, with what a task sets in them. The templates of an item are rendered over
/// the item alone. One item is held at a time.
pub struct StreamItems<'t, 'o, R: System> {
    rt: &'t R,
    task: &'t Task<'t, 't>,
    path: &'t str,
    format: Format,
    // What was read, if the file can be read only once. Otherwise it is read again after a rewind.
    bytes: Option<&'o [u8]>,
    // The line of the current item, for messages.
    line: &'o Cell<usize>,
    // How many items were read.
    number: u64,
    source: Option<Source<'o, R::File>>,
    current: Option<Context>,
}

// Not derived, so that each drop of one is a single call.
impl<R: System> Drop for StreamItems<'_, '_, R> {
    fn drop(self) {
        let StreamItems {
            rt: _,
            task: _,
            path: _,
            format: _,
            bytes: _,
            line: _,
            number: _,
            source: _,
            current: _,
        } = self;
    }
}

impl<'t, 'o, R: System> StreamItems<'t, 'o, R> {
    /// Returns the items of a file in this format, before the first one. `bytes` is what was read of it, if it can be read only
    /// once. The line of the current item is put into `line`.
    pub fn new(
        rt: &'t R,
        task: &'t Task<'t, 't>,
        path: &'t str,
        format: Format,
        bytes: Option<&'o [u8]>,
        line: &'o Cell<usize>,
    ) -> StreamItems<'t, 'o, R> {
        StreamItems {
            rt,
            task,
            path,
            format,
            bytes,
            line,
            number: 0,
            source: None,
            current: None,
        }
    }

    // Opens the file, and reads the header of a table.
    fn open(&self) -> Result<Source<'o, R::File>, Failure> {
        let alloc = self.rt.alloc();
        let reader = match self.reader() {
            Ok(reader) => reader,
            Err(cause) => return Err(unreadable(alloc, self.path, &cause)),
        };
        let delimiter = match self.format {
            Format::Csv => Delimiter::Comma,
            Format::Tsv => Delimiter::Tab,
            _ => return Ok(Source::Lines(Lines::new(alloc, reader, self.task.numbers))),
        };
        match Rows::new(alloc, reader, delimiter) {
            Ok(rows) => Ok(Source::Rows(rows)),
            Err(cause) => Err(not_data(alloc, self.path, &cause)),
        }
    }

    fn reader(&self) -> io::Result<BufReader<Opened<'o, R::File>>> {
        let opened = match self.bytes {
            None => Opened::File(fs::open(self.rt, self.path)?),
            Some(bytes) => Opened::Bytes(bytes),
        };
        BufReader::new(self.rt.alloc(), opened)
    }

    // Reads the data of the next item. It takes the memory of the current one.
    fn read_next(&mut self) -> Result<Option<Context>, Failure>
        ensures number { self.new.number ≡ self.old.number }
        ensures current { self.new.current ≡ None }
    {
        let alloc = self.rt.alloc();
        let mut data = match self.current.take() {
            Some(context) => context.into_data(),
            None => Value::Null,
        };
        let Some(source) = &mut self.source else {
            return Ok(None);
        };
        match source.read_item(&mut data) {
            Ok(true) => self.line.set(source.line()),
            Ok(false) => return Ok(None),
            Err(cause) => return Err(not_data(alloc, self.path, &cause)),
        }
        let at = item_at(Some(self.path), self.line.get(), self.number);
        set_in_item(alloc, &mut data, self.task, at)?;
        Ok(Some(context_of(alloc, data)?))
    }

    fn skip_next(&mut self) -> Result<bool, Failure>
        ensures number { self.new.number ≡ self.old.number }
        ensures current { self.new.current ≡ self.old.current }
    {
        let Some(source) = &mut self.source else {
            return Ok(false);
        };
        match source.skip_item() {
            Ok(more) => Ok(more),
            Err(cause) => Err(not_data(self.rt.alloc(), self.path, &cause)),
        }
    }

    // Counts an item that was read.
    fn count(&mut self)
        ensures number { self.old.number + 1 < 2 ^ 64 → self.new.number ≡ self.old.number + 1 }
        ensures current { self.new.current ≡ self.old.current }
    {
        self.number = self.number.saturating_add(1);
    }
}

impl<F: Read + Drop> Source<'_, F> {
    // Reads the next item into `data`, and returns whether there was one.
    fn read_item(&mut self, data: &mut Value) -> Result<bool, DataError> {
        match self {
            Source::Rows(rows) => rows.read_row(data),
            Source::Lines(lines) => match lines.next_value()? {
                Some(value) => {
                    *data = value;
                    Ok(true)
                }
                None => Ok(false),
            },
        }
    }

    fn skip_item(&mut self) -> Result<bool, DataError> {
        match self {
            Source::Lines(lines) => lines.skip_value(),
            Source::Rows(rows) => rows.skip_row(),
        }
    }

    // The line on which the last item begins.
    fn line(&self) -> usize {
        match self {
            Source::Lines(lines) => lines.line(),
            Source::Rows(rows) => rows.line(),
        }
    }
}

impl<R: System> Items for StreamItems<'_, '_, R> {
    ghost rewinds = { λ _ _ _. Unit {0} };

    ghost advances = { λ old answer new. ReadsItem old.number answer new.number (option_map data_of new.current) };

    ghost skips = { λ old answer new. SkipsItem old.number answer new.number (option_map data_of new.current) };

    ghost given = { λ s. option_map data_of s.current };

    ghost begins = { λ s. alone_at (s.number - 1) };

    fn rewind(&mut self) -> Result<(), Failure> {
        self.current = None;
        self.number = 0;
        self.source = Some(self.open()?);
        Ok(())
    }

    fn advance(&mut self) -> Result<bool, Failure> {
        let Some(item) = self.read_next()? else {
            return Ok(false);
        };
        self.current = Some(item);
        self.count();
        Ok(true)
    }

    fn skip(&mut self) -> Result<bool, Failure> {
        self.current = None;
        if !self.skip_next()? {
            return Ok(false);
        }
        self.count();
        Ok(true)
    }

    fn data(&self) -> Option<&Context> {
        self.current.as_ref()
    }

    fn context(&self, alloc: Global) -> Result<RenderContext, AllocError> {
        with_index(alloc, self.number.saturating_sub(1))
    }
}

// The data of an item.
fn context_of(alloc: Global, item: Value) -> Result<Context, Failure> {
    match Context::try_from(item) {
        Ok(data) => Ok(data),
        Err(cause) => Err(out_of_range(alloc, &cause)),
    }
}
