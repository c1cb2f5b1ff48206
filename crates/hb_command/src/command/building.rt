//! The arguments of `hb build`.

use crate::command::arguments::with_common;
use clap::{Arg, ArgAction, Command};
use std::alloc::{AllocError, Global};

const EXAMPLES: &str = "Examples:
  hb build -o letters --to '{{id}}.txt' letter.hbs customers.csv
  hb build -o site --to '{{slug}}/index.html' -p partials --each site.pages page.hbs site.json
  hb build -o out --to '{{@index}}.html' --shard 2/8 --keep-going page.hbs items.jsonl

The items are those of the list that DATA is: the members of a JSON array, the lines of JSON lines,
or the rows of CSV or TSV. With --each they are the members of the list that PATH leads to.
TEMPLATE and NAME are rendered over the item. Both see @index, and with --each the whole data as
@root, and @first and @last. -D sets a key in each item, or with --each in the whole data.

Exit status: 0 if all was built; 1 if a template doesn't compile or an item fails; 2 for wrong
arguments and names, and for files, folders or data that can't be read.";

/// Returns the command `hb build`.
pub fn build<'a>(alloc: Global) -> Result<Command<'a>, AllocError> {
    let command = Command::new(alloc, "build")
        .about("Writes one file for each item of a list")
        .after_help(EXAMPLES);
    with_common(alloc, with_ways(alloc, with_names(alloc, command)?)?)
}

fn with_names<'a>(alloc: Global, command: Command<'a>) -> Result<Command<'a>, AllocError> {
    command.arg(output(alloc))?.arg(to(alloc))?.arg(each(alloc))
}

fn with_ways<'a>(alloc: Global, command: Command<'a>) -> Result<Command<'a>, AllocError> {
    command
        .arg(dry_run(alloc))?
        .arg(keep_going(alloc))?
        .arg(shard(alloc))?
        .arg(progress(alloc))
}

fn output<'a>(alloc: Global) -> Arg<'a> {
    Arg::new(alloc, "output")
        .short('o')
        .long("output")
        .value_name("FOLDER")
        .required(true)
        .help("Write the files below FOLDER, which is made if it isn't there")
}

fn to<'a>(alloc: Global) -> Arg<'a> {
    Arg::new(alloc, "to")
        .long("to")
        .value_name("NAME")
        .required(true)
        .help("Name each file by this template, rendered over its item with no escaping")
}

fn each<'a>(alloc: Global) -> Arg<'a> {
    Arg::new(alloc, "each").long("each").value_name("PATH").help(
        "Take the items of the list at PATH in the data, as site.pages",
    )
}

fn dry_run<'a>(alloc: Global) -> Arg<'a> {
    Arg::new(alloc, "dry-run")
        .long("dry-run")
        .action(ArgAction::SetTrue)
        .help("List the files that would be written, and write none")
}

fn keep_going<'a>(alloc: Global) -> Arg<'a> {
    Arg::new(alloc, "keep-going")
        .long("keep-going")
        .action(ArgAction::SetTrue)
        .help("After an item that fails go on with the next one")
}

fn shard<'a>(alloc: Global) -> Arg<'a> {
    Arg::new(alloc, "shard")
        .long("shard")
        .value_name("I/N")
        .help("Build each N-th item, from the I-th one on; the names of all are checked")
}

fn progress<'a>(alloc: Global) -> Arg<'a> {
    Arg::new(alloc, "progress")
        .long("progress")
        .action(ArgAction::SetTrue)
        .help("Report on standard error how many items are done")
}
