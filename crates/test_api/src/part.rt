//! User-defined helpers, decorators and escape functions that a script describes.

use handlebars::{HelperValue, JsonValue};
use std::alloc::{AllocError, Global};
use std::io::ErrorKind;
use test_parts::escape::Doubled;
use test_parts::failing::Failing;
use test_parts::helpers::Distance;
use test_parts::scripted::{ScriptedAction, ScriptedDecorator, ScriptedHelper, ScriptedStep};
use test_steps::answer::Stop;
use test_steps::fields::{items, number, owned, text};
use test_steps::held::{had, if_made, push, put};
use test_steps::made::data::context_of;

/// A part that a script registers.
pub enum Part {
    Helper(ScriptedHelper),
    Distance(Distance),
    FailingHelper(Failing),
    Decorator(ScriptedDecorator),
    FailingDecorator(Failing),
    Escape(Doubled),
    FailingEscape(Failing),
}

const FAILING: Failing = Failing {
    kind: ErrorKind::PermissionDenied,
};

/// Returns the user-defined part that a step registers, if it registers one.
pub fn part_of(alloc: Global, step: &JsonValue) -> Result<Option<Part>, Stop> {
    match text(step, "do") {
        "parts.helper" | "parts.value_helper" => helper_part(alloc, step).map(Some),
        "parts.decorator" => decorator_part(alloc, step),
        "parts.escape" => escape_part(alloc, step),
        _ => Ok(None),
    }
}

fn helper_part(alloc: Global, step: &JsonValue) -> Result<Part, Stop> {
    match text(step, "part") {
        "" => helper_of(alloc, step).map(Part::Helper),
        "distance" => Ok(Part::Distance(Distance { alloc })),
        "refusing" => Ok(Part::FailingHelper(FAILING)),
        _ => Err(Stop::Field),
    }
}

fn decorator_part(alloc: Global, step: &JsonValue) -> Result<Option<Part>, Stop> {
    match text(step, "part") {
        "" => decorator_of(alloc, step).map(user_decorator),
        "inline" => Ok(None),
        "refusing" => Ok(Some(Part::FailingDecorator(FAILING))),
        _ => Err(Stop::Field),
    }
}

fn user_decorator(decorator: ScriptedDecorator) -> Option<Part> {
    Some(Part::Decorator(decorator))
}

fn escape_part(alloc: Global, step: &JsonValue) -> Result<Option<Part>, Stop> {
    match text(step, "part") {
        "html" => Ok(None),
        "plain" => Ok(None),
        "doubled" => Ok(Some(Part::Escape(Doubled { alloc }))),
        "refusing" => Ok(Some(Part::FailingEscape(FAILING))),
        _ => Err(Stop::Field),
    }
}

/// Returns the helper of the field `helper`.
pub fn helper_at(alloc: Global, step: &JsonValue) -> Result<ScriptedHelper, Stop> {
    match step.get("helper") {
        Some(helper) => helper_of(alloc, helper),
        None => Err(Stop::Field),
    }
}

// The helper that the value describes.
fn helper_of(alloc: Global, it: &JsonValue) -> Result<ScriptedHelper, Stop> {
    let mut helper = ScriptedHelper {
        alloc,
        steps: None,
        offer: HelperValue::NotOffered,
    };
    let made = fill_helper(alloc, &mut helper, it);
    if_made(helper, made)
}

fn fill_helper(alloc: Global, helper: &mut ScriptedHelper, it: &JsonValue) -> Result<(), Stop> {
    put(&mut helper.steps, steps_of(alloc, it))?;
    put(&mut helper.offer, offer_of(it))
}

// The steps of the field `steps`, if it is present.
fn steps_of(alloc: Global, it: &JsonValue) -> Result<Option<Vec<ScriptedStep>>, Stop> {
    match it.get("steps").and_then(JsonValue::as_array) {
        Some(all) => all_steps(alloc, all.as_slice()).map(Some),
        None => Ok(None),
    }
}

fn all_steps(alloc: Global, all: &[JsonValue]) -> Result<Vec<ScriptedStep>, Stop> {
    let mut steps = Vec::new(alloc);
    let made = push_steps(alloc, &mut steps, all);
    if_made(steps, made)
}

fn push_steps(alloc: Global, steps: &mut Vec<ScriptedStep>, all: &[JsonValue]) -> Result<(), Stop> {
    for it in all {
        push(steps, step_of(alloc, it))?;
    }
    Ok(())
}

fn step_of(alloc: Global, it: &JsonValue) -> Result<ScriptedStep, Stop> {
    if let Some(value) = it.get("body_at") {
        return had(value.clone().map(ScriptedStep::BodyAt));
    }
    if it.get("write").is_some() {
        return had(owned(alloc, it, "write").map(ScriptedStep::Write));
    }
    match it.as_str() {
        Some("body") => Ok(ScriptedStep::Body),
        Some("inverse") => Ok(ScriptedStep::Inverse),
        Some(_) => Err(Stop::Field),
        None => Ok(ScriptedStep::Param(number(it, "param") as usize)),
    }
}

// The value of the field `value`. If it is missing, the field `offer` says `missing`, or nothing.
fn offer_of(it: &JsonValue) -> Result<HelperValue, Stop> {
    if let Some(value) = it.get("value") {
        return had(value.clone().map(HelperValue::Value));
    }
    match text(it, "offer") {
        "missing" => Ok(HelperValue::Missing),
        "" => Ok(HelperValue::NotOffered),
        _ => Err(Stop::Field),
    }
}

fn decorator_of(alloc: Global, it: &JsonValue) -> Result<ScriptedDecorator, Stop> {
    let mut actions = Vec::new(alloc);
    let made = push_actions(alloc, &mut actions, items(it, "actions"));
    if_made(ScriptedDecorator { alloc, actions }, made)
}

fn push_actions(
    alloc: Global,
    actions: &mut Vec<ScriptedAction>,
    all: &[JsonValue],
) -> Result<(), Stop> {
    for it in all {
        push(actions, action_of(alloc, it))?;
    }
    Ok(())
}

fn action_of(alloc: Global, it: &JsonValue) -> Result<ScriptedAction, Stop> {
    match text(it, "do") {
        "set_context" => context_of(it, "data").map(ScriptedAction::SetContext),
        "bind" => binding_of(owned(alloc, it, "name"), owned(alloc, it, "to")),
        "unbind" => had(owned(alloc, it, "name").map(ScriptedAction::Unbind)),
        "set_partial" => had(owned(alloc, it, "name").map(ScriptedAction::SetPartial)),
        _ => Err(Stop::Field),
    }
}

fn binding_of(
    local: Result<String, AllocError>,
    registered: Result<String, AllocError>,
) -> Result<ScriptedAction, Stop> {
    match (local, registered) {
        (Ok(local), Ok(registered)) => Ok(ScriptedAction::Bind { local, registered }),
        _ => Err(Stop::OutOfMemory),
    }
}
