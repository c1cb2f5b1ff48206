//! A run of the program.

use crate::answers::{Answers, Shown};
use crate::asked::reply;
use handlebars::JsonValue;
use std::alloc::{AllocError, Global};
use std::fs;
use std::rt::{Env, Files};
use test_cases::call::Call;
use test_cases::check::check_test_case;
use test_cases::failure::Failure;
use test_cases::fields::Fields;
use test_cases::files::{arguments, file_paths};
use test_cases::pieces::{pieces_in, read_pieces};
use test_cases::rendering::Rendering;

/// Runs the files that the arguments name. Returns whether the results of all of their test cases are the expected ones.
pub fn run<R: Files + Env + Print + Eprint + AllocGlobal + Clone + Drop>(
    rt: &R,
) -> Result<bool, Failure> {
    let mut passed = true;
    for argument in arguments(rt)? {
        passed = reported(rt, argument.as_str(), run_argument(rt, argument.as_str())) && passed;
    }
    Ok(passed)
}

fn run_argument<R: Files + Print + Eprint + AllocGlobal + Clone + Drop>(
    rt: &R,
    argument: &str,
) -> Result<bool, Failure> {
    let mut passed = true;
    for path in file_paths(rt, argument)? {
        passed = reported(rt, path.as_str(), run_file(rt, path.as_str())) && passed;
    }
    Ok(passed)
}

// Reports a failure, which counts as not passed. If it can't be printed, the exit status still reports it.
fn reported<R: Eprint>(rt: &R, path: &str, passed: Result<bool, Failure>) -> bool {
    match passed {
        Ok(passed) => passed,
        Err(failure) => {
            let _ = eprintln!(rt; "{path}: {failure}");
            false
        }
    }
}

fn run_file<R: Files + Print + AllocGlobal>(rt: &R, path: &str) -> Result<bool, Failure> {
    let text = fs::read_to_string(rt, path).map_err(Failure::CannotRead)?;
    let mut value = JsonValue::from_str(rt.alloc(), text.as_str()).map_err(Failure::NotJson)?;
    check_test_cases(rt.alloc(), &mut value)?;
    match value.as_array() {
        Some(cases) => run_test_cases(rt, path, cases.as_slice()),
        None => Err(Failure::NoArray),
    }
}

fn check_test_cases(alloc: Global, value: &mut JsonValue) -> Result<(), Failure> {
    let Some(cases) = value.as_array_mut() else {
        return Ok(());
    };
    for (index, test_case) in cases.iter_mut().enumerate() {
        if let Err(cause) = check_test_case(alloc, test_case) {
            return Err(Failure::NoTestCase(index.saturating_add(1), cause));
        }
    }
    Ok(())
}

fn run_test_cases<R: Print + AllocGlobal>(
    rt: &R,
    path: &str,
    cases: &[JsonValue],
) -> Result<bool, Failure> {
    let mut shown = String::new(rt.alloc());
    let differing = show_differences(rt.alloc(), cases, &mut shown)?;
    let count = cases.len();
    println!(rt; "{path}: {differing} of {count} test cases differ{shown}").map_err(
        Failure::CannotWrite,
    )?;
    Ok(differing == 0)
}

// Returns how many test cases differ, and appends what to print of them.
fn show_differences(
    alloc: Global,
    cases: &[JsonValue],
    shown: &mut String,
) -> Result<u64, AllocError> {
    let mut differing: u64 = 0;
    for (index, test_case) in cases.iter().enumerate() {
        if let Some(members) = test_case.as_object() {
            let before = shown.len();
            show_difference(alloc, index.saturating_add(1), Fields(members), shown)?;
            if shown.len() > before {
                differing = differing.saturating_add(1);
            }
        }
    }
    Ok(differing)
}

// Prints nothing for a test case whose results are the expected ones.
fn show_difference(
    alloc: Global,
    number: usize,
    fields: Fields<'_>,
    shown: &mut String,
) -> Result<(), AllocError> {
    match Call::of(fields) {
        Some(call) => show_call(alloc, number, &call, shown),
        None => show_rendering(alloc, number, fields, shown),
    }
}

fn show_rendering(
    alloc: Global,
    number: usize,
    fields: Fields<'_>,
    shown: &mut String,
) -> Result<(), AllocError> {
    let pieces = read_pieces(alloc, fields)?;
    let test_case = Rendering::of(Fields(&*fields.0), pieces_in(&pieces));
    show_test_case(alloc, number, &test_case, shown)
}

fn show_test_case(
    alloc: Global,
    number: usize,
    test_case: &Rendering<'_>,
    shown: &mut String,
) -> Result<(), AllocError> {
    let answers = Answers::of(alloc, test_case)?;
    if answers.come_to(test_case) {
        return Ok(());
    }
    let rendered = test_case.rendered;
    write!(
        shown,
        "\n  test case {number}: {rendered}\n{}",
        Shown(&answers, &*test_case)
    )
}

fn show_call(
    alloc: Global,
    number: usize,
    call: &Call<'_>,
    shown: &mut String,
) -> Result<(), AllocError> {
    let reply = reply(alloc, call)?;
    let (reply, expected) = (reply.reply(), &call.expected);
    if reply.equals(expected) {
        return Ok(());
    }
    write!(
        shown,
        "\n  test case {number}: {call}\n    expected: {expected}\n    answered: {reply}"
    )
}
