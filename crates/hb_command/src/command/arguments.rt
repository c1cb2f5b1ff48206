//! The arguments that the subcommands share.

use clap::{Arg, ArgAction, Command, value_parser};
use std::alloc::{AllocError, Global};

const FORMATS: [&str; 5] = ["json", "jsonl", "toml", "csv", "tsv"];

const ESCAPES: [&str; 2] = ["html", "none"];

/// Adds the arguments that the subcommands share.
pub fn with_common<'a>(alloc: Global, command: Command<'a>) -> Result<Command<'a>, AllocError> {
    with_modes(alloc, with_inputs(alloc, with_positional(alloc, command)?)?)
}

fn with_positional<'a>(alloc: Global, command: Command<'a>) -> Result<Command<'a>, AllocError> {
    command.arg(template(alloc))?.arg(data(alloc))
}

fn with_inputs<'a>(alloc: Global, command: Command<'a>) -> Result<Command<'a>, AllocError> {
    command
        .arg(partials(alloc))?
        .arg(define(alloc))?
        .arg(format(alloc))?
        .arg(refuse_fractions(alloc))
}

fn with_modes<'a>(alloc: Global, command: Command<'a>) -> Result<Command<'a>, AllocError> {
    command
        .arg(strict(alloc))?
        .arg(escape(alloc))?
        .arg(limit(alloc))?
        .arg(recursive(alloc))?
        .arg(prevent_indent(alloc))
}

fn template<'a>(alloc: Global) -> Arg<'a> {
    Arg::new(alloc, "template")
        .value_name("TEMPLATE")
        .required(true)
        .help("The file of the template, or - for standard input")
}

fn data<'a>(alloc: Global) -> Arg<'a> {
    Arg::new(alloc, "data")
        .value_name("DATA")
        .num_args(0..)
        .action(ArgAction::Append)
        .help("Files of data, merged by key, the last one wins; - for standard input")
}

fn partials<'a>(alloc: Global) -> Arg<'a> {
    Arg::new(alloc, "partials")
        .short('p')
        .long("partials")
        .value_name("FOLDER")
        .action(ArgAction::Append)
        .help("Register the .hbs files of FOLDER under their paths in it; the last one wins")
}

fn define<'a>(alloc: Global) -> Arg<'a> {
    Arg::new(alloc, "define")
        .short('D')
        .long("define")
        .value_name("KEY=VALUE")
        .action(ArgAction::Append)
        .help("Set KEY in the data to the text VALUE, or to a value by KEY:=JSON")
}

fn format<'a>(alloc: Global) -> Arg<'a> {
    Arg::new(alloc, "format")
        .long("format")
        .value_name("FORMAT")
        .value_parser(FORMATS.as_slice())
        .help("Read DATA in this format, whatever its extension")
}

fn refuse_fractions<'a>(alloc: Global) -> Arg<'a> {
    Arg::new(alloc, "refuse-fractions")
        .long("refuse-fractions")
        .action(ArgAction::SetTrue)
        .help("Fail for numbers that are no integers of 64 bits, and don't keep their spelling")
}

fn strict<'a>(alloc: Global) -> Arg<'a> {
    Arg::new(alloc, "strict")
        .long("strict")
        .action(ArgAction::SetTrue)
        .help("Fail for a value that is missing in the data")
}

fn escape<'a>(alloc: Global) -> Arg<'a> {
    Arg::new(alloc, "escape")
        .long("escape")
        .value_name("KIND")
        .value_parser(ESCAPES.as_slice())
        .default_value("html")
        .help("Escape values for html, or write them as they are")
}

fn limit<'a>(alloc: Global) -> Arg<'a> {
    Arg::new(alloc, "limit")
        .long("limit")
        .value_name("N")
        .value_parser(value_parser!(u16))
        .default_value("64")
        .help("Nest at most N partials")
}

fn recursive<'a>(alloc: Global) -> Arg<'a> {
    Arg::new(alloc, "recursive")
        .long("recursive")
        .action(ArgAction::SetTrue)
        .help("Look up a name that a block lacks in the blocks around it")
}

fn prevent_indent<'a>(alloc: Global) -> Arg<'a> {
    Arg::new(alloc, "prevent-indent")
        .long("prevent-indent")
        .action(ArgAction::SetTrue)
        .help("Add no indentation to partials")
}
