//! `test_runner [FILE ..]`: runs the test cases of files, and reports which differ from what is expected. A folder names its
//! `.json` files. Without arguments the folder `data` is run. `docs/TEST_CASES.md` has the format.
#![tactic(auto)]

mod answer;
mod answers;
mod asked;
mod calls;
mod collector;
mod output;
mod registered;
mod render_calls;
mod run;
mod shelf;
mod sweep;

use run::run;
use std::process::ExitCode;

fn main(rt: HostRuntime) -> ExitCode {
    match run(&rt) {
        Ok(true) => ExitCode::SUCCESS,
        Ok(false) => ExitCode::FAILURE,
        Err(failure) => {
            // If this can't be printed either, the exit status still reports the failure.
            let _ = eprintln!(rt; "test_runner: {failure}");
            ExitCode::FAILURE
        }
    }
}
