//! `test_data`: prints what JSON texts are as data. Each line of standard input is a JSON string, which holds a text. It is printed
//! with a tab and what `read_json` reads, as JSON, or its error. If the answer is another one where numbers that are no integers
//! of 64 bits are refused, a tab and that answer follow. A line that begins with `#` is printed as it is.
//!
//! A line may also be an object: `format` with `text` or `bytes` is read as that format; of JSON lines and of tables, what is read
//! one after another follows. `merge` has sources to merge, and `set` words that set members of `base`.
#![tactic(auto)]

mod formats;
mod rows;

use rows::print_rows;
use std::io;
use std::io::{BufReader, BufWriter, Write};
use std::process::ExitCode;

fn main(rt: HostRuntime) -> ExitCode {
    match run(&rt) {
        Ok(()) => ExitCode::SUCCESS,
        Err(failure) => {
            // If this can't be printed either, the exit status still reports the failure.
            let _ = eprintln!(rt; "test_data: {failure}");
            ExitCode::FAILURE
        }
    }
}

fn run(rt: &HostRuntime) -> io::Result<()> {
    let mut out = BufWriter::new(rt.alloc(), rt.stdout())?;
    print_rows(
        rt.alloc(),
        BufReader::new(rt.alloc(), rt.stdin())?,
        &mut out,
    )?;
    out.flush()
}
