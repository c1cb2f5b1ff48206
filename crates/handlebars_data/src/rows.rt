//! Rows of CSV and TSV.

ghost use Rattle.std.specs.Prelude.{◌≡◌, Err, IfErr, IfOk, MatchResult, None, Ok, OnErr, OnOk, Some, ◌+◌, false, if◌then◌else◌, IsSomeAnd, not, option_map, true};
ghost use Rattle.csv.specs.Reading.{ReadsNext, error_kind, strip_bom};
ghost use Rattle.csv.specs.Records.{AllText, fields_of};
ghost use Rattle.csv.specs.declared.parser.State.TheVariants as state;
ghost use Rattle.serde_json.specs.Data.{put, string};
ghost use Rattle.serde_json.specs.View.{members_view, view};
ghost use Rattle.handlebars_data.specs.Counts.{counted};
ghost use Rattle.handlebars_data.specs.Errors.{IsMemory, kind_of};
ghost use Rattle.handlebars_data.specs.Rows.{HasBadRecord, IsTable, delimiter_byte, row_members, row_of, row_over};
ghost use Rattle.handlebars_data.specs.RowsView.{IsBadHeader, IsHeader, IsNextRow, IsReady, IsRefusal, rows_ended, rows_failure, rows_fields, rows_names, rows_number, rows_reader, with_field};
ghost use Rattle.handlebars_data.specs.Stopping.{stops_reading};

use crate::error::{DataError, DataErrorKind};
use crate::members::put;
use crate::row_lines::RowLines;
use crate::stopping::{endless_reader, reader_failure, stops_reading};
use csv::{Error, ErrorKind, Reader, ReaderBuilder, StringRecord};
use serde_json::Value;
use std::alloc::{AllocError, Global};
use std::collections::BTreeMap;
use std::io::Read;

/// What stands between the fields of a row.
#[derive(Clone, Copy, Debug, Drop, PartialEq, Eq)]
pub enum Delimiter {
    Comma,
    Tab,
}

impl Delimiter {
    fn byte(self) -> u8
        ensures { result ≡ delimiter_byte self }
    {
        match self {
            Delimiter::Comma => b',',
            Delimiter::Tab => b'\t',
        }
    }
}

/// The rows of a table with a header, read one after another: CSV (RFC 4180), or TSV with the same rules. Each row is an object of
/// texts by the names of the header. A byte order mark is dropped.
///
/// Of two columns with the same name, the later one counts. Memory is needed for one row and its object.
pub struct Rows<R> {
    alloc: Global,
    reader: Reader<R>,
    names: StringRecord,
    row: StringRecord,
    // The number of the row that was read last. The header is row 1.
    number: u64,
    lines: RowLines,
    // Whether no record is left.
    ended: bool,
    // The error that stopped the reading.
    failure: Option<DataError>,
}

impl<R: Drop> Drop for Rows<R> {
    fn drop(self) {
        let Rows {
            alloc: _,
            reader: _,
            names: _,
            row: _,
            number: _,
            lines: _,
            ended: _,
            failure: _,
        } = self;
    }
}

impl<R: Read + Drop> Rows<R> {
    /// Creates a reader of rows over a reader of bytes, and reads the header. An empty text has none, and then there are no rows.
    ///
    /// # Errors
    ///
    /// Fails if a name is not UTF-8, if the reader fails, and if memory runs out.
    pub fn new(alloc: Global, reader: R, delimiter: Delimiter) -> Result<Rows<R>, DataError>
        ensures header { IfOk result (λ s. IsHeader R.remaining delimiter (R.remaining reader) s) }
        ensures ready { IfOk result IsReady }
        ensures failure { IfOk result (λ s. rows_failure s ≡ None) }
        ensures number { IfOk result (λ s. rows_number s ≡ (if rows_ended s then 0 else 1)) }
        ensures refused { IfErr result (λ e. stops_reading (kind_of e) ≡ false → (row_of (kind_of e) ≡ Some 1) × IsBadHeader delimiter (R.remaining reader)) }
    {
        let mut reader = ReaderBuilder::new()
            .has_headers(false)
            .delimiter(delimiter.byte())
            .from_reader(alloc, reader);
        let mut names = StringRecord::new(alloc);
        match reader.read_record(&mut names) {
            Ok(found) => Ok(Rows {
                alloc,
                lines: RowLines::below(&names, reader.position().line()),
                reader,
                names,
                row: StringRecord::new(alloc),
                number: u64::from(found),
                ended: !found,
                failure: None,
            }),
            Err(e) => Err(row_failure(&e, 1, 1)),
        }
    }

    /// Returns the 1-based line of the text on which the row begins that was read last, or 0 if none was.
    pub fn line(&self) -> usize {
        self.lines.last()
    }

    /// Reads the next row into an object, and returns whether there was one. Each field goes under the name of its column, where a
    /// text that is there keeps its memory. Other members of the object stay. A value that is no object becomes one.
    ///
    /// At the end, and after an error other than out of memory, the value is unchanged.
    ///
    /// Runs in time linear in the row, with a look-up of each name.
    ///
    /// # Errors
    ///
    /// Fails for a row that has another number of fields than the header, or a field that is not UTF-8. The next call goes on with
    /// the row after it. Fails also if the reader does, or if memory runs out. Each later call then fails with the same error.
    pub fn read_row(&mut self, row: &mut Value) -> Result<bool, DataError>
        ensures row { IfOk result (λ found. found ≡ true → view row.new ≡ row_over (rows_names self.old) (rows_fields self.new) (view row.old)) }
        ensures unchanged { MatchResult result (λ found. found ≡ false → row.new ≡ row.old) (λ e. ¬ IsMemory e → row.new ≡ row.old) }
        ensures next { IsReady self.old → rows_failure self.old ≡ None → rows_ended self.old ≡ false
            → IsNextRow R.remaining (rows_reader self.old) (rows_reader self.new) (rows_names self.old) (rows_fields self.new) result }
        ensures taken { IfOk result (λ found. rows_number self.new ≡ (if found then counted (rows_number self.old + 1) else rows_number self.old)) }
        ensures number { IfErr result (λ e. rows_failure self.old ≡ None → stops_reading (kind_of e) ≡ false
            → (rows_number self.new ≡ counted (rows_number self.old + 1)) × (row_of (kind_of e) ≡ Some (rows_number self.new))) }
        ensures ended { rows_failure self.old ≡ None → rows_ended self.old ≡ true → result ≡ Ok false }
        ensures ends { IfOk result (λ found. rows_ended self.new ≡ not found) }
        ensures ends_not { OnErr result (rows_ended self.new ≡ rows_ended self.old) }
        ensures failed { (e : DataError) → rows_failure self.old ≡ Some e → result ≡ Err e }
        ensures stops { IfErr result (λ e. rows_failure self.old ≡ None → rows_failure self.new ≡ (if stops_reading (kind_of e) then Some e else None)) }
        ensures goes_on { OnOk result (rows_failure self.new ≡ None) }
        ensures names { rows_names self.new ≡ rows_names self.old }
        ensures ready { IsReady self.old → IsReady self.new }
    {
        if !self.skip_row()? {
            return Ok(false);
        }
        match put_row(self.alloc, row, &self.names, &self.row) {
            Ok(()) => Ok(true),
            Err(e) => Err(self.stop_at(e.into())),
        }
    }

    /// Reads past the next row, and returns whether there was one. Needs no memory but for the row's text.
    ///
    /// Runs in time linear in the row.
    ///
    /// # Errors
    ///
    /// Fails for the rows that [`Rows::read_row`] fails for, and goes on in the same way.
    pub fn skip_row(&mut self) -> Result<bool, DataError>
        ensures next { IsReady self.old → rows_failure self.old ≡ None → rows_ended self.old ≡ false
            → IsNextRow R.remaining (rows_reader self.old) (rows_reader self.new) (rows_names self.old) (rows_fields self.new) result }
        ensures taken { IfOk result (λ found. rows_number self.new ≡ (if found then counted (rows_number self.old + 1) else rows_number self.old)) }
        ensures number { IfErr result (λ e. rows_failure self.old ≡ None → stops_reading (kind_of e) ≡ false
            → (rows_number self.new ≡ counted (rows_number self.old + 1)) × (row_of (kind_of e) ≡ Some (rows_number self.new))) }
        ensures ended { rows_failure self.old ≡ None → rows_ended self.old ≡ true → result ≡ Ok false }
        ensures ends { IfOk result (λ found. rows_ended self.new ≡ not found) }
        ensures ends_not { OnErr result (rows_ended self.new ≡ rows_ended self.old) }
        ensures failed { (e : DataError) → rows_failure self.old ≡ Some e → result ≡ Err e }
        ensures stops { IfErr result (λ e. rows_failure self.old ≡ None → rows_failure self.new ≡ (if stops_reading (kind_of e) then Some e else None)) }
        ensures goes_on { OnOk result (rows_failure self.new ≡ None) }
        ensures names { rows_names self.new ≡ rows_names self.old }
        ensures ready { IsReady self.old → IsReady self.new }
    {
        if let Some(e) = self.failure {
            return Err(e);
        }
        if self.ended {
            return Ok(false);
        }
        let number = self.number.saturating_add(1);
        let before = self.reader.position().line();
        match self.reader.read_record(&mut self.row) {
            Ok(true) => {
                self.number = number;
                let after = self.reader.position().line();
                self.lines.take(&self.row, before, after);
                Ok(true)
            }
            Ok(false) => {
                self.ended = true;
                Ok(false)
            }
            Err(e) => {
                self.number = number;
                self.lines.take_rejected(before);
                let line = self.lines.last();
                Err(self.stop_at(row_failure(&e, number, line)))
            }
        }
    }

    // Notes an error. If it ends the reading, each later call fails with it.
    fn stop_at(&mut self, e: DataError) -> DataError
        ensures result { result ≡ e }
        ensures failure { rows_failure self.new ≡ (if stops_reading (kind_of e) then Some e else rows_failure self.old) }
        ensures reader { rows_reader self.new ≡ rows_reader self.old }
        ensures names { rows_names self.new ≡ rows_names self.old }
        ensures fields { rows_fields self.new ≡ rows_fields self.old }
        ensures ended { rows_ended self.new ≡ rows_ended self.old }
        ensures number { rows_number self.new ≡ rows_number self.old }
    {
        if stops_reading(&e) {
            self.failure = Some(e);
        }
        e
    }
}

/// Reads the text of a table with a header: the array of the objects of its rows. A table without a header is an empty array.
///
/// Runs in time linear in the text, with a look-up of each name in each row.
///
/// # Errors
///
/// Fails for the first row that has another number of fields than the header, or a field that is not UTF-8, and if memory runs
/// out. The error names the row's number.
pub fn read_rows(alloc: Global, text: &[u8], delimiter: Delimiter) -> Result<Value, DataError>
    ensures ok { IfOk result (λ v. IsTable delimiter text.now (view v)) }
    ensures refused { IfErr result (λ e. ¬ IsMemory e → IsSomeAnd (row_of (kind_of e)) (HasBadRecord delimiter text.now)) }
{
    match all_rows(alloc, text, delimiter) {
        // A text in memory is a reader that doesn't fail.
        Err(e) if stops_reading(&e) => Err(DataError::from(AllocError)),
        answer => answer,
    }
}

fn all_rows(alloc: Global, text: &[u8], delimiter: Delimiter) -> Result<Value, DataError>
    ensures ok { IfOk result (λ v. IsTable delimiter text.now (view v)) }
    ensures refused { IfErr result (λ e. stops_reading (kind_of e) ≡ false → IsSomeAnd (row_of (kind_of e)) (HasBadRecord delimiter text.now)) }
{
    let mut rows = Rows::new(alloc, text, delimiter)?;
    let mut items = Vec::new(alloc);
    'rows: for _ in 0..u64::MAX {
        let mut row = Value::Null;
        if !rows.read_row(&mut row)? {
            return Ok(Value::Array(items));
        }
        items.push(row)?;
    }
    Err(endless_reader())
}

// Returns the error of a row with this number, which begins on this line.
fn row_failure(e: &Error, number: u64, line: usize) -> DataError
    ensures { IsRefusal number (error_kind e.now) (kind_of result) }
{
    match e.kind() {
        ErrorKind::Io(cause) => reader_failure(cause),
        ErrorKind::UnequalLengths {
            pos: _,
            expected_len,
            len,
        } => {
            let kind = DataErrorKind::RaggedRow {
                row: number,
                header: *expected_len,
                fields: *len,
            };
            DataError::new(kind, line, 1)
        }
        ErrorKind::Utf8 { pos: _, err } => {
            let kind = DataErrorKind::FieldNotUtf8 {
                row: number,
                field: err.field().saturating_add(1),
            };
            DataError::new(kind, line, 1)
        }
        ErrorKind::OutOfMemory => DataError::without_position(DataErrorKind::OutOfMemory),
        // A reader of records has no other errors.
        ErrorKind::Serialize(_) | ErrorKind::Deserialize { .. } => endless_reader(),
    }
}

// Puts a row into an object. A value that is no object becomes one, or stays if memory runs out.
fn put_row(
    alloc: Global,
    row: &mut Value,
    names: &StringRecord,
    fields: &StringRecord,
) -> Result<(), AllocError>
    ensures { OnOk result (view row.new ≡ row_over (fields_of names.now) (fields_of fields.now) (view row.old)) }
{
    if let Value::Object(members) = row {
        return put_fields(alloc, members, names, fields);
    }
    let mut members = BTreeMap::new(alloc);
    put_fields(alloc, &mut members, names, fields)?;
    *row = Value::Object(members);
    Ok(())
}

fn put_fields(
    alloc: Global,
    members: &mut BTreeMap<String, Value>,
    names: &StringRecord,
    fields: &StringRecord,
) -> Result<(), AllocError>
    ensures { OnOk result (members_view members.new.entries
        ≡ row_members (fields_of names.now) (fields_of fields.now) (members_view members.old.entries)) }
{
    'fields: for i in 0..names.len() {
        put_field(alloc, members, names.get(i), fields.get(i))?;
    }
    Ok(())
}

// Puts a field under the name of its column.
fn put_field(
    alloc: Global,
    members: &mut BTreeMap<String, Value>,
    name: Option<&str>,
    field: Option<&str>,
) -> Result<(), AllocError>
    ensures { OnOk result (members_view members.new.entries
        ≡ with_field (option_map (λ s. s.now) name.entry) (option_map (λ s. s.now) field.entry) (members_view members.old.entries)) }
{
    match (name, field) {
        (Some(name), Some(field)) => put_text(alloc, members, name, field),
        _ => Ok(()),
    }
}

// Puts a text under a key.
fn put_text(
    alloc: Global,
    members: &mut BTreeMap<String, Value>,
    key: &str,
    text: &str,
) -> Result<(), AllocError>
    ensures { OnOk result (members_view members.new.entries ≡ put key.now (string text.now) (members_view members.old.entries)) }
{
    match members.get_mut(key) {
        Some(value) => write_text(alloc, value, text),
        None => add_text(alloc, members, key, text),
    }
}

fn add_text(
    alloc: Global,
    members: &mut BTreeMap<String, Value>,
    key: &str,
    text: &str,
) -> Result<(), AllocError>
    ensures { OnOk result (members_view members.new.entries ≡ put key.now (string text.now) (members_view members.old.entries)) }
{
    let key = String::from_str(alloc, key)?;
    let text = String::from_str(alloc, text)?;
    put(members, key, Value::String(text))
}

// Makes a value a text. A text keeps its memory.
fn write_text(alloc: Global, value: &mut Value, text: &str) -> Result<(), AllocError>
    ensures { OnOk result (view value.new ≡ string text.now) }
{
    if let Value::String(written) = value {
        written.clear();
        return written.push_str(text);
    }
    *value = Value::String(String::from_str(alloc, text)?);
    Ok(())
}
