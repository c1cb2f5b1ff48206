//! The arguments that the program takes, with their help.

mod arguments;
mod building;
mod checking;
mod origins;
mod rendering;

use clap::Command;
use std::alloc::{AllocError, Global};

const VERSION: &str = "0.7";

const EXAMPLES: &str = "Examples:
  hb render page.hbs data.json
  hb render -p partials page.hbs site.toml -D draft:=false -o page.html
  hb build -o out --to '{{id}}/index.html' page.hbs pages.jsonl
  hb check -p partials page.hbs
  hb origins page.hbs data.json

Exit status: 0 if all was rendered; 1 if a check finds an error, a template or a rendering fails, or
an output can't be written; 2 for wrong arguments, and for files, folders or data that can't be read.";

/// Returns the command of the program, with its subcommands.
pub fn program<'a>(alloc: Global) -> Result<Command<'a>, AllocError> {
    named(alloc)?
        .subcommand(rendering::render(alloc)?)?
        .subcommand(building::build(alloc)?)?
        .subcommand(checking::check(alloc)?)?
        .subcommand(origins::origins(alloc)?)
}

fn named<'a>(alloc: Global) -> Result<Command<'a>, AllocError> {
    Command::new(alloc, "hb")
        .version(VERSION)
        .about("Renders Handlebars templates over data")
        .after_help(EXAMPLES)
        .no_binary_name(true)
        .subcommand_required(true)
        .bin_name("hb")
}
