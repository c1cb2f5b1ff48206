//! Calls of a registry, except for those that register parts.

use handlebars::{JsonValue, Registry, Template};
use std::alloc::Global;
use test_steps::answer::{Answer, Stop, done, shown};
use test_steps::fields::{flag, number, text};
use test_steps::held::Held;
use test_steps::made::tree::tree_of;

/// Returns what a call answers.
pub fn answer(alloc: Global, registry: &mut Registry, call: &str, step: &JsonValue) -> Answer {
    let (name, source) = (text(step, "name"), text(step, "source"));
    match call {
        "template" => shown(alloc, registry.register_template_string(name, source)),
        "partial" => shown(alloc, registry.register_partial(name, source)),
        "tree" => put_tree(alloc, registry, name, tree_of(alloc, step)),
        "unregister_template" => {
            registry.unregister_template(name);
            done(alloc)
        }
        "clear_templates" => {
            registry.clear_templates();
            done(alloc)
        }
        "limit" => limit(alloc, registry, number(step, "to")),
        "settings" => settings(alloc, registry),
        _ => mode(alloc, registry, call, flag(step, "on")),
    }
}

fn put_tree(
    alloc: Global,
    registry: &mut Registry,
    name: &str,
    tree: Result<Held<Template>, Stop>,
) -> Answer {
    match tree {
        Ok(tree) => shown(alloc, registry.register_template(name, tree.into_value())),
        Err(stop) => Err(stop),
    }
}

fn limit(alloc: Global, registry: &mut Registry, limit: u64) -> Answer {
    match u16::try_from(limit) {
        Ok(limit) => {
            registry.set_inclusion_limit(limit);
            done(alloc)
        }
        Err(_) => Err(Stop::Field),
    }
}

// Turns a mode on or off.
fn mode(alloc: Global, registry: &mut Registry, call: &str, on: bool) -> Answer {
    match call {
        "strict_mode" => registry.set_strict_mode(on),
        "dev_mode" => registry.set_dev_mode(on),
        "prevent_indent" => registry.set_prevent_indent(on),
        _ => return Err(Stop::Call),
    }
    done(alloc)
}

// Whether the registry is strict, in dev mode, and without indentation, and how deeply partials may nest.
fn settings(alloc: Global, registry: &Registry) -> Answer {
    let modes = (registry.strict_mode(), registry.dev_mode());
    shown(
        alloc,
        (modes, registry.prevent_indent(), registry.inclusion_limit()),
    )
}
