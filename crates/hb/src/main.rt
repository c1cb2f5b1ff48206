//! `hb`: renders templates over data. `hb render` writes one text, `hb build` one file for each item of a list, `hb check` what is
//! wrong with templates, and `hb origins` the pieces of a text with their origins.
#![tactic(auto)]

mod build;
mod check;
mod folders;
mod frame;
mod gathering;
mod items;
mod message;
mod origins;
mod pages;
mod render;
mod run;
mod setup;
mod text;

use hb_command::arguments::command_line;
use run::run;
use std::process::ExitCode;

fn main(rt: HostRuntime) -> ExitCode {
    let words = command_line(&rt);
    let status = run(&rt, words, &mut rt.stdout(), &mut rt.stderr());
    ExitCode::from(status)
}
