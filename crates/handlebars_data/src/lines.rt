//! JSON lines.

ghost use Rattle.std.specs.Prelude.{◌≡◌, ◌⊎◌, ◌+◌, ◌++◌, List, Err, IfErr, IfOk, IfSome, IsUtf8, None, OnOk, Some, false, if◌then◌else◌, map, true};
ghost use Rattle.std.specs.Io.BufRead.{strip_last};
ghost use Rattle.serde_json.specs.Data.{Data};
ghost use Rattle.serde_json.specs.View.{view};
ghost use Rattle.handlebars_data.specs.Counts.{counted};
ghost use Rattle.handlebars_data.specs.Errors.{IsMemory, kind_of, line_of};
ghost use Rattle.handlebars_data.specs.JsonText.{text_data};
ghost use Rattle.handlebars_data.specs.Lines.{HasBadLine, IsNextText, IsNextValue, is_blank, line_values, lines_data};
ghost use Rattle.handlebars_data.specs.LinesView.{TakesLine, lines_failure, lines_taken, lines_text, lines_numbers, lines_reader};
ghost use Rattle.handlebars_data.specs.Stopping.{stops_reading};

use crate::error::DataError;
use crate::json_text::{Numbers, read_json};
use crate::stopping::{endless_reader, reader_failure, stops_reading};
use crate::utf8::text_of;
use serde_json::Value;
use std::alloc::Global;
use std::io::BufRead;

/// The values of JSON lines (https://jsonlines.org), read one after another. A line ends with `\n` or `\r\n`, and each line that
/// isn't blank is one JSON text.
///
/// Memory is needed for one line and its value.
pub struct Lines<R> {
    alloc: Global,
    reader: R,
    numbers: Numbers,
    line: Vec<u8>,
    // How many lines were taken.
    number: usize,
    // The error that stopped the reading.
    failure: Option<DataError>,
}

impl<R: Drop> Drop for Lines<R> {
    fn drop(self) {
        let Lines {
            alloc: _,
            reader: _,
            numbers: _,
            line: _,
            number: _,
            failure: _,
        } = self;
    }
}

impl<R: BufRead> Lines<R> {
    /// Creates a reader of values over a reader of bytes.
    pub fn new(alloc: Global, reader: R, numbers: Numbers) -> Lines<R>
        ensures reader { lines_reader result ≡ reader }
        ensures taken { lines_taken result ≡ 0 }
        ensures numbers { lines_numbers result ≡ numbers }
        ensures failure { lines_failure result ≡ None }
    {
        Lines {
            alloc,
            reader,
            numbers,
            line: Vec::new(alloc),
            number: 0,
            failure: None,
        }
    }

    /// Returns the 1-based number of the line that was read last, or 0 if none was.
    pub fn line(&self) -> usize
        ensures { result ≡ lines_taken self.now }
    {
        self.number
    }

    /// Returns the value of the next line that isn't blank, or `None` at the end.
    ///
    /// Runs in time linear in what is read.
    ///
    /// # Errors
    ///
    /// Fails for a line that is not UTF-8 or no JSON text, with the line's number. The next call goes on with the line after it.
    /// Fails also if the reader does, or if memory runs out. Each later call then fails with the same error.
    pub fn next_value(&mut self) -> Result<Option<Value>, DataError>
        ensures next { lines_failure self.old ≡ None → IfSome (R.remaining (lines_reader self.old))
            (λ bytes. IsNextValue (lines_numbers self.old) bytes (lines_taken self.old) (lines_taken self.new) (R.remaining (lines_reader self.new)) result) }
        ensures line { IfErr result (λ e. lines_failure self.old ≡ None → stops_reading (kind_of e) ≡ false → line_of e ≡ lines_taken self.new) }
        ensures failed { (e : DataError) → lines_failure self.old ≡ Some e → result ≡ Err e }
        ensures stops { IfErr result (λ e. lines_failure self.old ≡ None → lines_failure self.new ≡ (if stops_reading (kind_of e) then Some e else None)) }
        ensures goes_on { OnOk result (lines_failure self.new ≡ None) }
        ensures numbers { lines_numbers self.new ≡ lines_numbers self.old }
    {
        if !self.skip_value()? {
            return Ok(None);
        }
        match self.line_value() {
            Ok(value) => Ok(Some(value)),
            Err(e) => Err(self.stop_at(e)),
        }
    }

    /// Reads past the next line that isn't blank, and returns whether there was one. The line need be neither UTF-8 nor JSON.
    ///
    /// Runs in time linear in what is read.
    ///
    /// # Errors
    ///
    /// Fails if the reader does, or if memory runs out. Each later call then fails with the same error.
    pub fn skip_value(&mut self) -> Result<bool, DataError>
        ensures next { lines_failure self.old ≡ None → IfSome (R.remaining (lines_reader self.old))
            (λ bytes. IsNextText bytes (lines_taken self.old) (lines_taken self.new) (lines_text self.new) (R.remaining (lines_reader self.new)) result) }
        ensures failed { (e : DataError) → lines_failure self.old ≡ Some e → result ≡ Err e }
        ensures stops { IfErr result (λ e. lines_failure self.old ≡ None → (stops_reading (kind_of e) ≡ true) × (lines_failure self.new ≡ Some e)) }
        ensures goes_on { OnOk result (lines_failure self.new ≡ None) }
        ensures numbers { lines_numbers self.new ≡ lines_numbers self.old }
    {
        if let Some(e) = self.failure {
            return Err(e);
        }
        match self.take_text() {
            Ok(found) => Ok(found),
            Err(e) => Err(self.stop_at(e)),
        }
    }

    // Notes an error. If it ends the reading, each later call fails with it.
    fn stop_at(&mut self, e: DataError) -> DataError
        ensures result { result ≡ e }
        ensures failure { lines_failure self.new ≡ (if stops_reading (kind_of e) then Some e else lines_failure self.old) }
        ensures reader { lines_reader self.new ≡ lines_reader self.old }
        ensures numbers { lines_numbers self.new ≡ lines_numbers self.old }
        ensures text { lines_text self.new ≡ lines_text self.old }
        ensures taken { lines_taken self.new ≡ lines_taken self.old }
    {
        if stops_reading(&e) {
            self.failure = Some(e);
        }
        e
    }

    // Takes the next line that isn't blank, if there is one.
    fn take_text(&mut self) -> Result<bool, DataError>
        ensures next { IfSome (R.remaining (lines_reader self.old))
            (λ bytes. IsNextText bytes (lines_taken self.old) (lines_taken self.new) (lines_text self.new) (R.remaining (lines_reader self.new)) result) }
        ensures stops { IfErr result (λ e. stops_reading (kind_of e) ≡ true) }
        ensures failure { lines_failure self.new ≡ lines_failure self.old }
        ensures numbers { lines_numbers self.new ≡ lines_numbers self.old }
    {
        'lines: for _ in 0..u64::MAX {
            if !self.take_line()? {
                return Ok(false);
            }
            if !is_blank(&self.line) {
                return Ok(true);
            }
        }
        // A reader that never ends gives blank lines forever.
        Err(endless_reader())
    }

    // Takes a line without its newline, if there is one.
    fn take_line(&mut self) -> Result<bool, DataError>
        ensures count { IfOk result (λ found. lines_taken self.new ≡ (if found then counted (lines_taken self.old + 1) else lines_taken self.old)) }
        ensures taken { IfOk result (λ found. IfSome (R.remaining (lines_reader self.old))
            (λ bytes. TakesLine found bytes (lines_text self.new) (R.remaining (lines_reader self.new)))) }
        ensures stops { IfErr result (λ e. stops_reading (kind_of e) ≡ true) }
        ensures failure { lines_failure self.new ≡ lines_failure self.old }
        ensures numbers { lines_numbers self.new ≡ lines_numbers self.old }
    {
        self.line.clear();
        match self.reader.read_until(b'\n', &mut self.line) {
            Ok(0) => Ok(false),
            Ok(_) => {
                strip_newline(&mut self.line);
                self.number = self.number.saturating_add(1);
                Ok(true)
            }
            Err(e) => Err(reader_failure(&e)),
        }
    }

    // Reads the value of the line that was taken.
    fn line_value(&self) -> Result<Value, DataError>
        ensures ok { IfOk result (λ v. text_data (lines_numbers self.now) (lines_text self.now) ≡ Some (view v)) }
        ensures err { IfErr result (λ e. stops_reading (kind_of e) ≡ false → ¬ IsUtf8 (lines_text self.now) ⊎ (text_data (lines_numbers self.now) (lines_text self.now) ≡ None)) }
        ensures line { IfErr result (λ e. stops_reading (kind_of e) ≡ false → line_of e ≡ lines_taken self.now) }
    {
        match text_of(&self.line) {
            Ok(line) => read_line(self.alloc, line, self.number, self.numbers),
            Err(e) => Err(on_line(e, self.number)),
        }
    }
}

fn strip_newline(line: &mut Vec<u8>)
    ensures { line.new.items ≡ strip_last 10 line.old.items }
{
    if line.last() == Some(&b'\n') {
        line.pop();
    }
}

/// Reads a text of JSON lines: the array of the values of its lines. Blank lines are passed over.
///
/// # Errors
///
/// Fails for the first line that is neither blank nor a JSON text, with the line's number, and if memory runs out.
pub fn read_lines(alloc: Global, text: &str, numbers: Numbers) -> Result<Value, DataError>
    ensures ok { IfOk result (λ v. lines_data numbers text.now ≡ Some (view v)) }
    ensures err { IfErr result (λ e. ¬ IsMemory e → lines_data numbers text.now ≡ None) }
    ensures line { IfErr result (λ e. ¬ IsMemory e → HasBadLine numbers text.now (line_of e)) }
{
    let mut items = Vec::new(alloc);
    let mut rest = text;
    let mut number = 1usize;
    'lines: while let Some((line, after)) = rest.split_once('\n') {
        push_line(alloc, &mut items, line, number, numbers)?;
        rest = after;
        number = number.saturating_add(1);
    }
    push_line(alloc, &mut items, rest, number, numbers)?;
    Ok(Value::Array(items))
}

// Adds the value of a line. A blank line has none.
fn push_line(
    alloc: Global,
    items: &mut Vec<Value>,
    line: &str,
    number: usize,
    numbers: Numbers,
) -> Result<(), DataError>
    ensures ok { OnOk result ((ds : List Data) × (line_values (text_data numbers) line.now ≡ Some ds) × (map view items.new.items ≡ map view items.old.items ++ ds)) }
    ensures err { IfErr result (λ e. ¬ IsMemory e → (line_values (text_data numbers) line.now ≡ None) × (line_of e ≡ number)) }
{
    if is_blank(line.as_bytes()) {
        return Ok(());
    }
    let value = read_line(alloc, line, number, numbers)?;
    items.push(value)?;
    Ok(())
}

// Whether a line is blank.
fn is_blank(line: &[u8]) -> bool
    ensures { result ≡ is_blank line.now }
{
    line.iter().all(|byte| *byte == b' ' || *byte == b'\t' || *byte == b'\n' || *byte == b'\r')
}

// Reads the JSON text of a line. An error has the line's number.
fn read_line(alloc: Global, line: &str, number: usize, numbers: Numbers) -> Result<Value, DataError>
    ensures ok { IfOk result (λ v. text_data numbers line.now ≡ Some (view v)) }
    ensures err { IfErr result (λ e. ¬ IsMemory e → (text_data numbers line.now ≡ None) × (line_of e ≡ number)) }
{
    match read_json(alloc, line, numbers) {
        Ok(value) => Ok(value),
        Err(e) => Err(on_line(e, number)),
    }
}

// Returns an error within a line as one of the whole file.
fn on_line(e: DataError, number: usize) -> DataError
    ensures kind { kind_of result ≡ kind_of e }
    ensures line { ¬ IsMemory e → line_of result ≡ number }
{
    if e.is_memory() {
        e
    } else {
        DataError::new(e.kind(), number, e.column())
    }
}
