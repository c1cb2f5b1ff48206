//! The arguments of `hb origins`.

use crate::command::arguments::with_common;
use clap::{Arg, ArgAction, Command};
use std::alloc::{AllocError, Global};

const EXAMPLES: &str = "Examples:
  hb origins page.hbs data.json
  hb origins -p partials --html page.hbs site.toml > origins.html
  hb origins --marks page.hbs data.json

A piece is a text of a template, an indentation, or what a tag writes. Each is a line of JSON: its
text and kind; the template, line and column of its element; the turns of each around it; and the
path of a value in the data. The text of all pieces is what hb render writes.

Exit status: as that of hb render. Pieces that were written before an error stay.";

/// Returns the command `hb origins`.
pub fn origins<'a>(alloc: Global) -> Result<Command<'a>, AllocError> {
    let command = Command::new(alloc, "origins")
        .about("Prints the pieces of the text, each with its origin")
        .after_help(EXAMPLES);
    with_common(alloc, with_forms(alloc, command)?)
}

fn with_forms<'a>(alloc: Global, command: Command<'a>) -> Result<Command<'a>, AllocError> {
    command.arg(marks(alloc)?)?.arg(html(alloc))
}

fn marks<'a>(alloc: Global) -> Result<Arg<'a>, AllocError> {
    Arg::new(alloc, "marks")
        .long("marks")
        .action(ArgAction::SetTrue)
        .help("Print only those pieces by which data brings in one of < > \" ' ` and =")
        .conflicts_with("html")
}

fn html<'a>(alloc: Global) -> Arg<'a> {
    Arg::new(alloc, "html")
        .long("html")
        .action(ArgAction::SetTrue)
        .help("Print a page of html that shows the text and the origin of each piece")
}
