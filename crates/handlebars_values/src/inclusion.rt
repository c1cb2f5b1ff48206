//! The base of a partial call's scope frame, and the values of its hash arguments.

ghost use Rattle.std.specs.Prelude.{◌≡◌, [], IfOk};
ghost use Rattle.serde_json.specs.View.{view};
ghost use Rattle.handlebars_base.specs.Scoped.{data_in};
ghost use Rattle.handlebars_scope.specs.Merged.{merge};
ghost use Rattle.handlebars_semantics.specs.Inclusion.{hash_data};
ghost use Rattle.handlebars_expand.specs.Boxed.{answer_of};
ghost use Rattle.handlebars_layers.specs.FrameValues.{hash_values};
ghost use Rattle.handlebars_values.specs.Inclusions.{HasBase, base_data};
ghost use Rattle.handlebars_values.specs.Judgement.{InState};
ghost use Rattle.handlebars_values.specs.ParamView.{value_found};
ghost use Rattle.handlebars_values.specs.View.{arguments_seen, called_view};

use crate::called::Called;
use crate::environment::Environment;
use crate::find::find_current;
use crate::merge::merge_into;
use crate::null::Null;
use crate::param_value::{Argument, ParamValue};
use crate::run::Run;
use handlebars_base::json::value::Json;
use handlebars_expand::boxed::BoxedError;
use handlebars_expand::registered::Registered;
use handlebars_layers::destination::FrameValue;
use std::alloc::{AllocError, Global};
use std::collections::BTreeMap;

/// The value that a partial is at. It is owned where hash arguments are merged with it. So is a value of changed data, since the
/// run can change that while the partial is rendered.
#[derive(Drop)]
pub enum PartialBase<'v> {
    Borrowed(&'v Json),
    Owned(Json),
}

impl<'v> PartialBase<'v> {
    /// Returns the value.
    pub fn value(&self) -> &Json
        ensures { view result.now ≡ base_data self.now }
    {
        match self {
            PartialBase::Borrowed(value) => *value,
            PartialBase::Owned(value) => value,
        }
    }
}

/// Returns the value that a partial is at: the value of the first parameter, or without one the current value, merged with the
/// hash arguments. A missing value counts as null.
///
/// # Errors
///
/// Fails if the current value can't be found, and if memory runs out.
pub fn base<'v, P: Registered>(
    tag: &'v Called<'_>,
    environment: &'v Environment<'v, 'v, P>,
    run: &Run,
) -> Result<PartialBase<'v>, BoxedError>
    ensures { InState P.parts environment.now run.now (λ p s. HasBase p (called_view tag.now) s base_data (answer_of result)) }
{
    let alloc = environment.inclusion.alloc;
    let null = environment.inclusion.null;
    match tag.params.get(0) {
        Some(param) => Ok(merged(alloc, param.json(null), &tag.hash)?),
        None => current(tag, environment, run),
    }
}

// Returns the current value, merged with the hash arguments.
fn current<'v, P: Registered>(
    tag: &'v Called<'_>,
    environment: &'v Environment<'v, 'v, P>,
    run: &Run,
) -> Result<PartialBase<'v>, BoxedError>
    ensures { InState P.parts environment.now run.now (λ p s. (called_view tag.now).params ≡ []
        → HasBase p (called_view tag.now) s base_data (answer_of result)) }
{
    let value = find_current(environment, run)?;
    Ok(merged_value(
        environment.inclusion.alloc,
        environment.inclusion.null,
        value,
        &tag.hash,
    )?)
}

// Returns a value merged with hash arguments. Without any it is passed on. A missing value counts as null.
fn merged_value<'v>(
    alloc: Global,
    null: &'v Null,
    value: ParamValue<'v>,
    hash: &BTreeMap<&str, Argument<'_>>,
) -> Result<PartialBase<'v>, AllocError>
    ensures { IfOk result (λ base. base_data base
        ≡ merge (data_in (value_found value.entry)) (hash_data (arguments_seen hash.now.entries))) }
{
    match value {
        ParamValue::Node(reached) => merged(alloc, reached.value, hash),
        ParamValue::Held(value) => merged(alloc, value, hash),
        ParamValue::Literal(value) => merged(alloc, value, hash),
        ParamValue::Computed(value) => Ok(PartialBase::Owned(merge_into(alloc, value, hash)?)),
        ParamValue::Missing => merged(alloc, null.value(), hash),
    }
}

// Returns a value merged with hash arguments. Without any it is borrowed.
fn merged<'v>(
    alloc: Global,
    value: &'v Json,
    hash: &BTreeMap<&str, Argument<'_>>,
) -> Result<PartialBase<'v>, AllocError>
    ensures { IfOk result (λ base. base_data base ≡ merge (view value.now) (hash_data (arguments_seen hash.now.entries))) }
{
    if hash.is_empty() {
        return Ok(PartialBase::Borrowed(value));
    }
    Ok(PartialBase::Owned(merge_into(alloc, value.clone()?, hash)?))
}

/// Returns the hash arguments as a frame binds them, in order of their keys: each value, or this null if it is missing, with its
/// key.
///
/// # Errors
///
/// Fails if memory runs out.
pub fn bound_hash<'v, 'c: 'v>(
    alloc: Global,
    null: &'v Null,
    hash: &'v BTreeMap<&'c str, Argument<'c>>,
) -> Result<Vec<(&'v str, FrameValue<'v>)>, AllocError>
    ensures { IfOk result (λ bound. hash_values bound.items ≡ hash_data (arguments_seen hash.now.entries)) }
{
    let mut bound = Vec::with_capacity(alloc, hash.len())?;
    'hash: for (key, value) in hash.iter() {
        bound.push((*key, FrameValue::Json(value.json(null))))?;
    }
    Ok(bound)
}
