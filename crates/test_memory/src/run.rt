//! Running the program.

use crate::calls::{self, CALLS, call_named};
use crate::outcome::{Outcome, Stop, status_of, words_for};
use crate::render_calls::{self, RENDER_CALLS, has_render_call, render_call_named};
use crate::test_case::{TEST_CASES, TestCase, test_case_named};
use std::alloc::{AllocError, Global};
use std::rt::Env;
use std::{env, io};

/// Runs the cases of the arguments up to the first that has no answer. Returns the exit status of the program. Without
/// arguments, runs all cases and prints the outcome of each.
pub fn run<R: Env + Print + AllocGlobal>(rt: &R) -> u8 {
    match arguments(rt) {
        Ok(arguments) => match arguments.is_empty() {
            true => run_all(rt).unwrap_or(1),
            false => run_each(rt.alloc(), arguments.as_slice()),
        },
        Err(AllocError) => status_of(Err(Stop::Memory)),
    }
}

// Returns the arguments after the program's name. An argument that isn't UTF-8 counts as none.
fn arguments<R: Env + AllocGlobal>(rt: &R) -> Result<Vec<String>, AllocError> {
    match env::args(rt) {
        Ok(args) => {
            let mut arguments = Vec::new(rt.alloc());
            for argument in args.skip(1) {
                arguments.push(argument)?;
            }
            Ok(arguments)
        }
        Err(_) => Err(AllocError),
    }
}

fn run_each(alloc: Global, arguments: &[String]) -> u8 {
    for argument in arguments {
        let status = status_of(outcome(alloc, argument.as_str()));
        if status != 0 {
            return status;
        }
    }
    0
}

fn outcome(alloc: Global, argument: &str) -> Result<Outcome, Stop> {
    match argument.split_once('/') {
        Some((name, render_call)) => outcome_of_test_case(alloc, name, render_call),
        None => match call_named(argument) {
            Some(call) => calls::outcome(alloc, call),
            None => Err(Stop::NoCase),
        },
    }
}

fn outcome_of_test_case(alloc: Global, name: &str, render_call: &str) -> Result<Outcome, Stop> {
    match (test_case_named(name), render_call_named(render_call)) {
        (Some(test_case), Some(render_call)) if has_render_call(test_case, render_call) =>
            render_calls::outcome(alloc, test_case, render_call),
        _ => Err(Stop::NoCase),
    }
}

// Prints the outcome of every case. Returns the greatest status.
fn run_all<R: Print + AllocGlobal>(rt: &R) -> io::Result<u8> {
    let mut status = 0u8;
    for test_case in &TEST_CASES {
        status = status.max(run_test_case(rt, test_case)?);
    }
    Ok(status.max(run_calls(rt)?))
}

fn run_calls<R: Print + AllocGlobal>(rt: &R) -> io::Result<u8> {
    let mut status = 0u8;
    for (name, call) in &CALLS {
        let outcome = calls::outcome(rt.alloc(), call);
        status = status.max(shown(rt, "", "", name, outcome)?);
    }
    Ok(status)
}

fn run_test_case<R: Print + AllocGlobal>(rt: &R, test_case: &TestCase) -> io::Result<u8> {
    let mut status = 0u8;
    for render_call in &RENDER_CALLS {
        if has_render_call(test_case, render_call) {
            let outcome = render_calls::outcome(rt.alloc(), test_case, render_call);
            status = status.max(shown(rt, test_case.name, "/", render_call.name, outcome)?);
        }
    }
    Ok(status)
}

// Prints the outcome of a case of that name. Returns its status.
fn shown<R: Print>(
    rt: &R,
    test_case: &str,
    mark: &str,
    name: &str,
    outcome: Result<Outcome, Stop>,
) -> io::Result<u8> {
    println!(rt; "{test_case}{mark}{name}: {}", words_for(outcome))?;
    Ok(status_of(outcome))
}
