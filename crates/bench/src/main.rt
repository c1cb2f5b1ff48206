//! `bench [times=N] [writer | pieces] WORK[=SIZE] ..`: compiles and renders works in a size, to a text, to a writer or piece by
//! piece. Prints how many bytes they have and, if times are asked for, the shortest time of N runs. `docs/SPEED.md` has the
//! works and their results.
#![tactic(auto)]

mod arguments;
mod clock;
mod counter;
mod failure;
mod measure;
mod pieces;
mod run;
mod work;

use arguments::command_line;
use run::run;
use std::process::ExitCode;

fn main(rt: HostRuntime) -> ExitCode {
    let arguments = command_line(&rt);
    let status = run(
        rt.alloc(),
        &rt,
        arguments,
        &mut rt.stdout(),
        &mut rt.stderr(),
    );
    ExitCode::from(status)
}
