//! `test_api [FILE ..]`: runs the scripts of files, and prints which answer something else than is expected. A folder names its
//! `.json` files. Without arguments the folder `data` is run. `docs/SCRIPTS.md` has the format.
#![tactic(auto)]

mod caller;
mod memory;
mod names;
mod pages;
mod part;
mod run;
mod script;
mod script_parts;
mod state;
mod steps;
mod strangers;

use run::run;
use std::process::ExitCode;

fn main(rt: HostRuntime) -> ExitCode {
    match run(&rt) {
        Ok(true) => ExitCode::SUCCESS,
        Ok(false) => ExitCode::FAILURE,
        Err(failure) => {
            // If this can't be printed either, the exit status still reports the failure.
            let _ = eprintln!(rt; "test_api: {failure}");
            ExitCode::FAILURE
        }
    }
}
