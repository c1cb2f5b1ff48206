//! The arguments of `hb check`.

use clap::{Arg, ArgAction, Command};
use std::alloc::{AllocError, Global};

const FORMATS: [&str; 2] = ["human", "json"];

const EXAMPLES: &str = "Examples:
  hb check -p partials
  hb check -p partials page.hbs other.hbs
  hb check --html -p partials page.hbs
  hb check --message-format json -p partials > problems.jsonl

All templates of the folders are checked, and each TEMPLATE as a page. Without a TEMPLATE the pages
are the templates that no other one includes.

Exit status: 0 if there is no error, 1 if there is one, 2 for wrong arguments, and for files or
folders that can't be read.";

/// Returns the command `hb check`.
pub fn check<'a>(alloc: Global) -> Result<Command<'a>, AllocError> {
    Command::new(alloc, "check")
        .about("Finds everything that is wrong with templates")
        .after_help(EXAMPLES)
        .arg(templates(alloc))?
        .arg(partials(alloc))?
        .arg(markup(alloc))?
        .arg(html(alloc))?
        .arg(message_format(alloc))
}

fn templates<'a>(alloc: Global) -> Arg<'a> {
    Arg::new(alloc, "templates")
        .value_name("TEMPLATE")
        .num_args(0..)
        .action(ArgAction::Append)
        .help("Files of templates that are rendered as pages; - for standard input")
}

fn partials<'a>(alloc: Global) -> Arg<'a> {
    Arg::new(alloc, "partials")
        .short('p')
        .long("partials")
        .value_name("FOLDER")
        .action(ArgAction::Append)
        .help("Check the .hbs files of FOLDER, under their paths in it; the last one wins")
}

fn markup<'a>(alloc: Global) -> Arg<'a> {
    Arg::new(alloc, "markup")
        .long("markup")
        .action(ArgAction::SetTrue)
        .help("Report what lets the texts of the data change the markup")
}

fn html<'a>(alloc: Global) -> Arg<'a> {
    Arg::new(alloc, "html")
        .long("html")
        .action(ArgAction::SetTrue)
        .help("Report where data stands in HTML where it may do harm")
}

fn message_format<'a>(alloc: Global) -> Arg<'a> {
    Arg::new(alloc, "message-format")
        .long("message-format")
        .value_name("FORMAT")
        .value_parser(FORMATS.as_slice())
        .default_value("human")
        .help("Print problems for people, or one JSON object a line")
}
