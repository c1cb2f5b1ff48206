//! The lines of standard input, and what is printed for them.

use crate::formats::answer_of;
use handlebars_data::{Numbers, read_json};
use serde_json::Value;
use std::alloc::{AllocError, Global};
use std::io;
use std::io::{BufRead, Write};

/// Prints what each line holds as data.
pub fn print_rows<R: BufRead + Drop, W: Write>(
    alloc: Global,
    reader: R,
    out: &mut W,
) -> io::Result<()> {
    for line in reader.lines(alloc) {
        let line = line?;
        print_row(alloc, line.as_str(), out)?;
    }
    Ok(())
}

fn print_row<W: Write>(alloc: Global, line: &str, out: &mut W) -> io::Result<()> {
    if line.as_bytes().first() == Some(&b'#') {
        return writeln!(out, "{line}");
    }
    let row = Value::from_str(alloc, line);
    match &row {
        Ok(Value::String(text)) => print_data(alloc, line, text.as_str(), out),
        Ok(row) => {
            let answer = answer_of(alloc, row)?;
            writeln!(out, "{line}\t{answer}")
        }
        Err(e) if e.is_memory() => Err(io::Error::from(AllocError)),
        Err(e) => writeln!(out, "{line}\tno JSON: {e}"),
    }
}

fn print_data<W: Write>(alloc: Global, line: &str, text: &str, out: &mut W) -> io::Result<()> {
    let spelled = answer(alloc, text, Numbers::Spelled)?;
    let refused = answer(alloc, text, Numbers::Refused)?;
    if refused.as_str() == spelled.as_str() {
        writeln!(out, "{line}\t{spelled}")
    } else {
        writeln!(out, "{line}\t{spelled}\t{refused}")
    }
}

fn answer(alloc: Global, text: &str, numbers: Numbers) -> Result<String, AllocError> {
    match read_json(alloc, text, numbers) {
        Ok(value) => value.to_string(alloc),
        Err(e) if e.is_memory() => Err(AllocError),
        Err(e) => format!(in alloc; "{e}"),
    }
}
