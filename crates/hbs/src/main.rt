//! `hbs [--strict] TEMPLATE DATA [FOLDER]`: prints a template, rendered over JSON data with the templates of a folder.
#![tactic(auto)]

mod arguments;
mod failure;
mod run;
mod text;

use arguments::command_line;
use handlebars::FileReader;
use run::run;
use std::process::ExitCode;

fn main(rt: HostRuntime) -> ExitCode {
    let arguments = command_line(&rt);
    let mut files = FileReader::new(&rt, rt.alloc());
    let status = run(
        rt.alloc(),
        arguments,
        &mut files,
        &mut rt.stdout(),
        &mut rt.stderr(),
    );
    ExitCode::from(status)
}
