//! The arguments of `hb render`.

use crate::command::arguments::with_common;
use clap::{Arg, Command};
use std::alloc::{AllocError, Global};

const EXAMPLES: &str = "Examples:
  hb render page.hbs data.json
  hb render -p partials page.hbs site.toml page.json -D title='My page' -o page.html
  sort rows.csv | hb render --format csv table.hbs -

Exit status: 0 if the text was written; 1 if a template or the rendering fails, or the output
can't be written; 2 for wrong arguments, and for files, folders or data that can't be read.";

/// Returns the command `hb render`.
pub fn render<'a>(alloc: Global) -> Result<Command<'a>, AllocError> {
    let command = Command::new(alloc, "render")
        .about("Renders a template over data, and writes the text")
        .after_help(EXAMPLES);
    with_common(alloc, command.arg(output(alloc))?)
}

fn output<'a>(alloc: Global) -> Arg<'a> {
    Arg::new(alloc, "output")
        .short('o')
        .long("output")
        .value_name("FILE")
        .help("Write the text to FILE, and not to standard output")
}
