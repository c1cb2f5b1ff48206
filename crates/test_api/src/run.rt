//! A run of the program.

use crate::script::differs;
use handlebars::JsonValue;
use std::fs;
use std::rt::{Env, Files};
use test_cases::failure::Failure;
use test_cases::files::{arguments, file_paths};

/// Runs the files that the arguments name. Returns whether all of their scripts answer what is expected.
pub fn run<R: Files + Env + Print + Eprint + AllocGlobal + Clone + Drop>(
    rt: &R,
) -> Result<bool, Failure> {
    let mut passed = true;
    for argument in arguments(rt)? {
        passed = reported(rt, argument.as_str(), run_argument(rt, argument.as_str())) && passed;
    }
    Ok(passed)
}

fn run_argument<R: Files + Print + Eprint + AllocGlobal + Clone + Drop>(
    rt: &R,
    argument: &str,
) -> Result<bool, Failure> {
    let mut passed = true;
    for path in file_paths(rt, argument)? {
        passed = reported(rt, path.as_str(), run_file(rt, path.as_str())) && passed;
    }
    Ok(passed)
}

// Prints a failure, which counts as not passed. If it can't be printed, the exit status still reports it.
fn reported<R: Eprint>(rt: &R, path: &str, passed: Result<bool, Failure>) -> bool {
    match passed {
        Ok(passed) => passed,
        Err(failure) => {
            let _ = eprintln!(rt; "{path}: {failure}");
            false
        }
    }
}

fn run_file<R: Files + Print + AllocGlobal + Clone + Drop>(
    rt: &R,
    path: &str,
) -> Result<bool, Failure> {
    let text = fs::read_to_string(rt, path).map_err(Failure::CannotRead)?;
    let value = JsonValue::from_str(rt.alloc(), text.as_str()).map_err(Failure::NotJson)?;
    match value.as_array() {
        Some(scripts) => run_scripts(rt, path, scripts.as_slice()),
        None => Err(Failure::NoArray),
    }
}

// Prints how many scripts differ, and then each of these.
fn run_scripts<R: Files + Print + AllocGlobal + Clone + Drop>(
    rt: &R,
    path: &str,
    scripts: &[JsonValue],
) -> Result<bool, Failure> {
    let mut differing = 0u64;
    let mut report = String::new(rt.alloc());
    for script in scripts {
        if differs(rt, script, &mut report)? {
            differing = differing.saturating_add(1);
        }
    }
    let count = scripts.len();
    println!(rt; "{path}: {differing} of {count} scripts differ").map_err(Failure::CannotWrite)?;
    print!(rt; "{report}").map_err(Failure::CannotWrite)?;
    Ok(differing == 0)
}
