//! Parameters and expressions.

use crate::answer::Stop;
use crate::fields::{flag, items, owned, text};
use crate::held::{had, if_made, let_go, push, put, taken};
use handlebars_base::json::path::Path;
use handlebars_template::template::{BlockParam, ExpressionSpec, Parameter};
use serde_json::Value as JsonValue;
use std::alloc::{AllocError, Global};
use std::collections::BTreeMap;

/// Returns a parameter: a text is parsed; anything else describes a name, a path or a literal.
pub fn parameter_of(alloc: Global, it: &JsonValue) -> Result<Parameter, Stop> {
    match it.as_str() {
        Some(text) => taken(Parameter::parse(alloc, text)),
        None => hand_built_parameter(alloc, it),
    }
}

/// Returns the parameter of a field.
pub fn parameter_at(alloc: Global, it: &JsonValue, name: &str) -> Result<Parameter, Stop> {
    match it.get(name) {
        Some(parameter) => parameter_of(alloc, parameter),
        None => Err(Stop::Field),
    }
}

fn hand_built_parameter(alloc: Global, it: &JsonValue) -> Result<Parameter, Stop> {
    if let Some(literal) = it.get("literal") {
        return had(literal.clone().map(Parameter::Literal));
    }
    match it.get("path") {
        Some(_) => taken(Path::parse(alloc, text(it, "path")).map(Parameter::Path)),
        None => had(owned(alloc, it, "name").map(Parameter::Name)),
    }
}

/// Returns the parameters of an array.
pub fn parameters_of(alloc: Global, all: &[JsonValue]) -> Result<Vec<Parameter>, Stop> {
    let mut parameters = Vec::new(alloc);
    let made = push_parameters(alloc, &mut parameters, all);
    if_made(parameters, made)
}

fn push_parameters(
    alloc: Global,
    parameters: &mut Vec<Parameter>,
    all: &[JsonValue],
) -> Result<(), Stop> {
    for it in all {
        push(parameters, parameter_of(alloc, it))?;
    }
    Ok(())
}

/// Returns the hash arguments of the field `hash`.
pub fn hash_of(alloc: Global, it: &JsonValue) -> Result<BTreeMap<String, Parameter>, Stop> {
    let mut hash = BTreeMap::new(alloc);
    let made = put_hash(alloc, &mut hash, it);
    if_made(hash, made)
}

fn put_hash(
    alloc: Global,
    hash: &mut BTreeMap<String, Parameter>,
    it: &JsonValue,
) -> Result<(), Stop> {
    if let Some(members) = it.get("hash").and_then(JsonValue::as_object) {
        for (key, value) in members.iter() {
            put_hash_pair(hash, key.clone(), parameter_of(alloc, value))?;
        }
    }
    Ok(())
}

fn put_hash_pair(
    hash: &mut BTreeMap<String, Parameter>,
    key: Result<String, AllocError>,
    value: Result<Parameter, Stop>,
) -> Result<(), Stop> {
    match key {
        Ok(key) => put_value(hash, key, value),
        Err(AllocError) => Err(Stop::OutOfMemory),
    }
}

fn put_value(
    hash: &mut BTreeMap<String, Parameter>,
    key: String,
    value: Result<Parameter, Stop>,
) -> Result<(), Stop> {
    match value {
        Ok(value) => had(hash.insert(key, value)).map(let_go),
        Err(stop) => Err(stop),
    }
}

/// Returns an expression: its `name`, `params`, `hash` and the names to `bind`.
pub fn spec_of(alloc: Global, it: &JsonValue) -> Result<ExpressionSpec, Stop> {
    let mut spec = ExpressionSpec {
        name: Parameter::Literal(JsonValue::Null),
        params: Vec::new(alloc),
        hash: BTreeMap::new(alloc),
        block_param: None,
        omit_pre_ws: flag(it, "omit_pre_ws"),
        omit_pro_ws: flag(it, "omit_pro_ws"),
    };
    let made = fill_spec(alloc, &mut spec, it);
    if_made(spec, made)
}

fn fill_spec(alloc: Global, spec: &mut ExpressionSpec, it: &JsonValue) -> Result<(), Stop> {
    put(&mut spec.name, parameter_at(alloc, it, "name"))?;
    push_parameters(alloc, &mut spec.params, items(it, "params"))?;
    put_hash(alloc, &mut spec.hash, it)?;
    put(&mut spec.block_param, binding_of(alloc, items(it, "bind")))
}

// One name, or two.
fn binding_of(alloc: Global, names: &[JsonValue]) -> Result<Option<BlockParam>, Stop> {
    match names {
        [] => Ok(None),
        [name] => parameter_of(alloc, name).map(single),
        [first, second] => pair(parameter_of(alloc, first), parameter_of(alloc, second)),
        _ => Err(Stop::Field),
    }
}

fn single(name: Parameter) -> Option<BlockParam> {
    Some(BlockParam::Single(name))
}

fn pair(
    first: Result<Parameter, Stop>,
    second: Result<Parameter, Stop>,
) -> Result<Option<BlockParam>, Stop> {
    match (first, second) {
        (Ok(first), Ok(second)) => Ok(Some(BlockParam::Pair((first, second)))),
        (Err(stop), _) | (_, Err(stop)) => Err(stop),
    }
}
