//! Calls that register helpers, decorators and escape functions, and that unregister them.

use crate::script_parts::ScriptParts;
use handlebars::{BuiltIn, DecoratorEntry, EscapeKind, HelperEntry, JsonValue, Registry};
use std::alloc::Global;
use test_cases::helpers::helper_named;
use test_steps::answer::{Answer, Stop, done, shown};
use test_steps::fields::text;

/// Returns what a call answers.
pub fn answer(
    alloc: Global,
    registry: &mut Registry,
    script_parts: &mut ScriptParts,
    call: &str,
    step: &JsonValue,
) -> Answer {
    let name = text(step, "name");
    match call {
        "helper" => user_helper(alloc, registry, script_parts, name),
        "value_helper" => value_helper(alloc, registry, script_parts, name),
        "safe_url" => register(alloc, registry, name, HelperEntry::SafeUrl),
        "built_in" => built_in(
            alloc,
            registry,
            name,
            step.get("kind").and_then(helper_named),
        ),
        "decorator" => decorator(alloc, registry, script_parts, name, text(step, "part")),
        "escape" => escape(alloc, registry, script_parts, text(step, "part")),
        "unregister_helper" => {
            registry.unregister_helper(name);
            done(alloc)
        }
        "unregister_escape" => {
            registry.unregister_escape_fn();
            done(alloc)
        }
        _ => Err(Stop::Call),
    }
}

fn user_helper(
    alloc: Global,
    registry: &mut Registry,
    script_parts: &mut ScriptParts,
    name: &str,
) -> Answer {
    match script_parts.next_helper() {
        Some(helper) => register(alloc, registry, name, HelperEntry::Own(helper)),
        None => Err(Stop::Field),
    }
}

// A user-defined helper that is asked for its value alone.
fn value_helper(
    alloc: Global,
    registry: &mut Registry,
    script_parts: &mut ScriptParts,
    name: &str,
) -> Answer {
    match script_parts.next_helper() {
        Some(helper) => register(alloc, registry, name, HelperEntry::Value(helper)),
        None => Err(Stop::Field),
    }
}

fn built_in(alloc: Global, registry: &mut Registry, name: &str, kind: Option<BuiltIn>) -> Answer {
    match kind {
        Some(kind) => register(alloc, registry, name, HelperEntry::Built(kind)),
        None => Err(Stop::Field),
    }
}

fn register(alloc: Global, registry: &mut Registry, name: &str, helper: HelperEntry) -> Answer {
    shown(alloc, registry.register_helper(name, helper))
}

fn decorator(
    alloc: Global,
    registry: &mut Registry,
    script_parts: &mut ScriptParts,
    name: &str,
    part: &str,
) -> Answer {
    match part {
        "inline" => decorate(alloc, registry, name, DecoratorEntry::Inline),
        _ => match script_parts.next_decorator() {
            Some(decorator) => decorate(alloc, registry, name, DecoratorEntry::Own(decorator)),
            None => Err(Stop::Field),
        },
    }
}

fn decorate(
    alloc: Global,
    registry: &mut Registry,
    name: &str,
    decorator: DecoratorEntry,
) -> Answer {
    shown(alloc, registry.register_decorator(name, decorator))
}

fn escape(
    alloc: Global,
    registry: &mut Registry,
    script_parts: &mut ScriptParts,
    part: &str,
) -> Answer {
    match part {
        "html" => put_escape(alloc, registry, EscapeKind::Html),
        "plain" => put_escape(alloc, registry, EscapeKind::Plain),
        _ => match script_parts.next_escape() {
            Some(escape) => put_escape(alloc, registry, EscapeKind::Own(escape)),
            None => Err(Stop::Field),
        },
    }
}

fn put_escape(alloc: Global, registry: &mut Registry, escape: EscapeKind) -> Answer {
    registry.register_escape_fn(escape);
    done(alloc)
}
