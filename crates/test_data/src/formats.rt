//! Rows that are objects: texts of other formats, sources to merge and members to set.

use handlebars_data::{
    DataError, Delimiter, Format, Lines, Numbers, Rows, SettingError, merge, read_data, set,
};
use serde_json::Value;
use std::alloc::{AllocError, Global};

/// Returns what is printed for a row.
pub fn answer_of(alloc: Global, row: &Value) -> Result<String, AllocError> {
    if let Some(format) = row.get("format").and_then(Value::as_str) {
        return text_answer(alloc, format, row);
    }
    match row.get("merge") {
        Some(sources) => merge_answer(alloc, sources),
        None => set_answer(alloc, row),
    }
}

// The bytes of a row: a text, or numbers.
fn bytes_of(alloc: Global, row: &Value) -> Result<Vec<u8>, AllocError> {
    let mut bytes = Vec::new(alloc);
    if let Some(text) = row.get("text").and_then(Value::as_str) {
        bytes.extend_from_slice(text.as_bytes())?;
    }
    if let Some(items) = row.get("bytes").and_then(Value::as_array) {
        for item in items {
            bytes.push(u8::try_from(item.as_u64().unwrap_or(0)).unwrap_or(0))?;
        }
    }
    Ok(bytes)
}

fn text_answer(alloc: Global, format: &str, row: &Value) -> Result<String, AllocError> {
    let bytes = bytes_of(alloc, row)?;
    let Some(format) = Format::of_name(format) else {
        return String::from_str(alloc, "no format");
    };
    let spelled = shown(alloc, read_data(alloc, format, &bytes, Numbers::Spelled))?;
    let other = match format {
        Format::Json | Format::Toml => shown(
            alloc,
            read_data(alloc, format, &bytes, Numbers::Refused),
        )?,
        Format::JsonLines => each_line(alloc, &bytes)?,
        Format::Csv => each_row(alloc, &bytes, Delimiter::Comma)?,
        Format::Tsv => each_row(alloc, &bytes, Delimiter::Tab)?,
    };
    if other.as_str() == spelled.as_str() {
        Ok(spelled)
    } else {
        format!(in alloc; "{spelled}\t{other}")
    }
}

fn shown(alloc: Global, answer: Result<Value, DataError>) -> Result<String, AllocError> {
    match answer {
        Ok(value) => value.to_string(alloc),
        Err(e) if e.is_memory() => Err(AllocError),
        Err(e) => format!(in alloc; "{e}"),
    }
}

// What is read of lines one after another, also after an error.
fn each_line(alloc: Global, bytes: &[u8]) -> Result<String, AllocError> {
    let mut all = String::new(alloc);
    let mut lines = Lines::new(alloc, bytes, Numbers::Spelled);
    for _ in 0..u64::MAX {
        match lines.next_value() {
            Ok(None) => break,
            Ok(Some(value)) => push(alloc, &mut all, Ok(value))?,
            Err(e) => push(alloc, &mut all, Err(e))?,
        }
    }
    Ok(all)
}

// What is read of rows one after another into the same object, also after an error.
fn each_row(alloc: Global, bytes: &[u8], delimiter: Delimiter) -> Result<String, AllocError> {
    let mut all = String::new(alloc);
    let mut rows = match Rows::new(alloc, bytes, delimiter) {
        Ok(rows) => rows,
        Err(e) => return shown(alloc, Err(e)),
    };
    let mut row = Value::Null;
    for _ in 0..u64::MAX {
        match rows.read_row(&mut row) {
            Ok(false) => break,
            Ok(true) => push(alloc, &mut all, Ok(row.clone()?))?,
            Err(e) => push(alloc, &mut all, Err(e))?,
        }
    }
    Ok(all)
}

fn push(
    alloc: Global,
    all: &mut String,
    answer: Result<Value, DataError>,
) -> Result<(), AllocError> {
    if !all.is_empty() {
        all.push_str(" | ")?;
    }
    let answer = shown(alloc, answer)?;
    all.push_str(&answer)
}

fn merge_answer(alloc: Global, sources: &Value) -> Result<String, AllocError> {
    let mut all = Value::Null;
    if let Some(items) = sources.as_array() {
        for item in items {
            all = merge(all, item.clone()?)?;
        }
    }
    all.to_string(alloc)
}

// The data after each word, and the error of the first word that sets nothing.
fn set_answer(alloc: Global, row: &Value) -> Result<String, AllocError> {
    let mut data = match row.get("base") {
        Some(base) => base.clone()?,
        None => Value::Null,
    };
    let Some(words) = row.get("set").and_then(Value::as_array) else {
        return String::from_str(alloc, "no row");
    };
    for word in words {
        let word = word.as_str().unwrap_or("");
        match set(alloc, &mut data, word, Numbers::Spelled) {
            Ok(()) => {}
            Err(SettingError::OutOfMemory) => return Err(AllocError),
            Err(e) => {
                let after = data.to_string(alloc)?;
                return format!(in alloc; "{e}\t{after}");
            }
        }
    }
    data.to_string(alloc)
}
