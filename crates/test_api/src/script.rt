//! A script: steps that are taken one after another, and what is expected of each.

use crate::part::{Part, part_of};
use crate::script_parts::ScriptParts;
use crate::state::State;
use crate::steps::answer;
use handlebars::JsonValue;
use std::alloc::AllocError;
use std::rt::Files;
use test_steps::answer::Answer;
use test_steps::expected::{is_expected, report_step};
use test_steps::fields::items;
use test_steps::held::put;
use test_steps::made::data::context_of;

/// Runs a script, and returns whether a step answers something else than is expected. Reports such a step, and stops there.
pub fn differs<R: Files + AllocGlobal + Clone + Drop>(
    rt: &R,
    script: &JsonValue,
    report: &mut String,
) -> Result<bool, AllocError> {
    let alloc = rt.alloc();
    // A function that boxes a part may not return it, so the parts are boxed here, before any step is taken.
    let mut script_parts = ScriptParts::new(alloc);
    let mut number = 0u64;
    for step in items(script, "steps") {
        number = number.saturating_add(1);
        let added = match part_of(alloc, step) {
            Ok(Some(Part::Helper(part))) => script_parts.add_helper(Box::new(alloc, part)?),
            Ok(Some(Part::Distance(part))) => script_parts.add_helper(Box::new(alloc, part)?),
            Ok(Some(Part::FailingHelper(part))) => script_parts.add_helper(Box::new(alloc, part)?),
            Ok(Some(Part::Decorator(part))) => script_parts.add_decorator(Box::new(alloc, part)?),
            Ok(Some(Part::FailingDecorator(part))) => script_parts.add_decorator(Box::new(
                alloc, part,
            )?),
            Ok(Some(Part::Escape(part))) => script_parts.add_escape(Box::new(alloc, part)?),
            Ok(Some(Part::FailingEscape(part))) => script_parts.add_escape(Box::new(alloc, part)?),
            Ok(None) => Ok(()),
            Err(stop) => Err(stop),
        };
        if let Err(stop) = added {
            report_step(alloc, script, number, step, &Err(stop), report)?;
            return Ok(true);
        }
    }
    takes_all(rt, script, State::new(alloc, script_parts), report)
}

// Takes the steps over the data of the script. They are null if it has none.
fn takes_all<R: Files + AllocGlobal + Clone + Drop>(
    rt: &R,
    script: &JsonValue,
    state: Result<State, AllocError>,
    report: &mut String,
) -> Result<bool, AllocError> {
    match state {
        Ok(mut state) => takes_over(rt, script, &mut state, report),
        Err(AllocError) => Err(AllocError),
    }
}

fn takes_over<R: Files + AllocGlobal + Clone + Drop>(
    rt: &R,
    script: &JsonValue,
    state: &mut State,
    report: &mut String,
) -> Result<bool, AllocError> {
    match put(&mut state.data, context_of(script, "data")) {
        Ok(()) => takes(rt, script, state, report),
        Err(stop) => {
            report_step(rt.alloc(), script, 0, script, &Err(stop), report)?;
            Ok(true)
        }
    }
}

// Takes the steps until one differs.
fn takes<R: Files + AllocGlobal + Clone + Drop>(
    rt: &R,
    script: &JsonValue,
    state: &mut State,
    report: &mut String,
) -> Result<bool, AllocError> {
    let mut number = 0u64;
    for step in items(script, "steps") {
        number = number.saturating_add(1);
        if take_differs(rt, script, number, step, answer(rt, state, step), report)? {
            return Ok(true);
        }
    }
    Ok(false)
}

fn take_differs<R: AllocGlobal>(
    rt: &R,
    script: &JsonValue,
    number: u64,
    step: &JsonValue,
    answer: Answer,
    report: &mut String,
) -> Result<bool, AllocError> {
    match is_expected(rt.alloc(), step, &answer)? {
        true => Ok(false),
        false => {
            report_step(rt.alloc(), script, number, step, &answer, report)?;
            Ok(true)
        }
    }
}
