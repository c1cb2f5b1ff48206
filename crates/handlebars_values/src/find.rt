//! What paths lead to in a run.

ghost use Rattle.std.specs.Prelude.{◌≡◌, [], IfOk, false};
ghost use Rattle.serde_json.specs.Data.{Data};
ghost use Rattle.handlebars_base.specs.Answers.{Answer, Answers, IsRefusal, answer_map};
ghost use Rattle.handlebars_base.specs.Path.{relative};
ghost use Rattle.handlebars_base.specs.PathView.{reference_of};
ghost use Rattle.handlebars_base.specs.Reasons.{invalid_json_index};
ghost use Rattle.handlebars_base.specs.RenderRefusals.{plain_refusal};
ghost use Rattle.handlebars_base.specs.Scoped.{Found, data_in, present_in, value};
ghost use Rattle.handlebars_scope.specs.Contexts.{data_of};
ghost use Rattle.handlebars_scope.specs.Resolve.{resolve};
ghost use Rattle.handlebars_semantics.specs.Asks.{only};
ghost use Rattle.handlebars_semantics.specs.Values.{path_value, without_path};
ghost use Rattle.handlebars_expand.specs.Boxed.{answer_of, error_of};
ghost use Rattle.handlebars_expand.specs.View.{Yields};
ghost use Rattle.handlebars_layers.specs.Destination.{IsDestination, found_in_data};
ghost use Rattle.handlebars_layers.specs.FrameValues.{value_data};
ghost use Rattle.handlebars_layers.specs.Sought.{sought};
ghost use Rattle.handlebars_values.specs.Judgement.{InState, IsNodeOf, LeadsTo};
ghost use Rattle.handlebars_values.specs.ParamView.{IsOf, is_literal_value, value_found};
ghost use Rattle.handlebars_values.specs.View.{scopes_of};

use crate::environment::Environment;
use crate::param_value::ParamValue;
use crate::run::Run;
use handlebars_base::json::path::Path;
use handlebars_base::json::value::Json;
use handlebars_expand::boxed::BoxedError;
use handlebars_expand::registered::Registered;
use handlebars_layers::destination::{Destination, FoundInData, FrameValue, Reached};
use handlebars_layers::elsewhere::{navigate_in, resolve_in};
use handlebars_layers::lookup::{navigate, resolve};
use handlebars_layers::made::json_of;
use handlebars_scope::context::Context;
use handlebars_scope::context::reached::wrong_index;
use std::alloc::{AllocError, Global};

/// Returns what a path leads to. It is borrowed, also from changed data, and so lasts only as long as the run isn't changed. In
/// the given data, a name that was looked up in an array and isn't an index is returned as `Destination::NoIndex`.
///
/// # Errors
///
/// In changed data it fails with `InvalidJsonIndex` for such a name, and if memory runs out.
#[inline(always)]
pub fn look<'c: 'r, 'r, P: Registered>(
    environment: &Environment<'c, 'c, P>,
    run: &'r Run,
    path: &'c Path,
) -> Result<Destination<'r, 'c>, BoxedError>
    ensures found { InState P.parts environment.now run.now (λ p s.
        LeadsTo (path_value p s (reference_of path.now)) (answer_of result)) }
    ensures node { IfOk result (IsNodeOf (sought run.now.recursive_lookup environment.now.innermost path.now)) }
{
    match &run.changed {
        None => Ok(resolve(
            environment.innermost.scopes(),
            run.recursive_lookup,
            path,
            &run.looked_up,
        )),
        Some(context) => look_in(environment, run, context, path),
    }
}

// Returns what a path leads to in changed data, where no value has a path and a missing one is null.
#[inline(never)]
fn look_in<'c: 'r, 'r, P>(
    environment: &Environment<'c, 'c, P>,
    run: &Run,
    context: &'r Context,
    path: &'c Path,
) -> Result<Destination<'r, 'c>, BoxedError>
    ensures found { LeadsTo (answer_map without_path (resolve run.now.recursive_lookup (scopes_of environment.now)
        (reference_of path.now) (data_of context.now))) (answer_of result) }
    ensures node { (a : Answer Found) → IfOk result (IsNodeOf a) }
{
    let alloc = environment.inclusion.alloc;
    match resolve_in(
        alloc,
        environment.innermost.scopes(),
        context.data(),
        run.recursive_lookup,
        path,
        &run.looked_up,
    )? {
        FoundInData::Data(value) => Ok(Destination::Value(FrameValue::Json(value))),
        FoundInData::Frame(value) => Ok(Destination::Value(value)),
        FoundInData::Nothing => Ok(Destination::Value(FrameValue::Json(
            environment.inclusion.null.value(),
        ))),
        FoundInData::NoIndex(name) => Err(not_an_index(alloc, name.as_str())),
    }
}

/// Returns what a path leads to, as the value of a parameter. A value of changed data is copied, since the run may change it
/// while the parameter is used.
///
/// # Errors
///
/// Fails with `InvalidJsonIndex` for a name in the path that isn't an index, and if memory runs out.
pub fn find<'v, P: Registered>(
    environment: &'v Environment<'v, 'v, P>,
    run: &Run,
    path: &'v Path,
) -> Result<ParamValue<'v>, BoxedError>
    ensures value { InState P.parts environment.now run.now (λ p s. Yields
        (only (path_value p s (reference_of path.now))) value_found (answer_of result)) }
    ensures constant { IfOk result (λ found. is_literal_value found ≡ false) }
    ensures given { IfOk result (IsOf (data_of environment.now.innermost.given.now)) }
{
    match &run.changed {
        None => find_in_given(environment, run, path),
        Some(context) => find_in(environment, run, context, path),
    }
}

// Returns what a path leads to in the given data.
#[inline(always)]
fn find_in_given<'v, P>(
    environment: &'v Environment<'v, 'v, P>,
    run: &Run,
    path: &'v Path,
) -> Result<ParamValue<'v>, BoxedError>
    ensures value { Answers value_found (answer_of result) (sought run.now.recursive_lookup environment.now.innermost path.now) }
    ensures constant { IfOk result (λ found. is_literal_value found ≡ false) }
    ensures given { IfOk result (IsOf (data_of environment.now.innermost.given.now)) }
{
    let innermost = &environment.innermost;
    let recursive = run.recursive_lookup;
    match resolve(innermost.scopes(), recursive, path, &run.looked_up) {
        Destination::Node(value) => Ok(ParamValue::Node(Reached::new(
            value, innermost, path, recursive,
        ))),
        Destination::Value(value) => Ok(frame_value(environment.inclusion.alloc, value)?),
        Destination::Nothing => Ok(ParamValue::Missing),
        Destination::NoIndex(name) => Err(not_an_index(environment.inclusion.alloc, name)),
    }
}

// Returns what a path leads to in changed data, where no value has a path and a missing one is null. A value of the data is
// copied.
#[inline(never)]
fn find_in<'v, P>(
    environment: &'v Environment<'v, 'v, P>,
    run: &Run,
    context: &Context,
    path: &'v Path,
) -> Result<ParamValue<'v>, BoxedError>
    ensures value { Answers value_found (answer_of result) (answer_map without_path (resolve run.now.recursive_lookup
        (scopes_of environment.now) (reference_of path.now) (data_of context.now))) }
    ensures constant { IfOk result (λ found. is_literal_value found ≡ false) }
    ensures given { (d : Data) → IfOk result (IsOf d) }
{
    let alloc = environment.inclusion.alloc;
    let found = resolve_in(
        alloc,
        environment.innermost.scopes(),
        context.data(),
        run.recursive_lookup,
        path,
        &run.looked_up,
    )?;
    copied(alloc, found)
}

/// Returns the current value, which the empty path leads to. Its path is not known. A value of changed data is copied.
///
/// # Errors
///
/// Fails with `InvalidJsonIndex` for a name in a base path that isn't an index, and if memory runs out.
pub fn find_current<'v, P: Registered>(
    environment: &'v Environment<'v, 'v, P>,
    run: &Run,
) -> Result<ParamValue<'v>, BoxedError>
    ensures { InState P.parts environment.now run.now (λ p s. Answers (λ found. data_in (value_found found)) (answer_of result)
        (answer_map data_in (path_value p s (relative [] [])))) }
{
    let alloc = environment.inclusion.alloc;
    let scopes = environment.innermost.scopes();
    match &run.changed {
        None => current_value(
            alloc,
            navigate(scopes, run.recursive_lookup, &[], &run.looked_up),
        ),
        Some(context) => copied(
            alloc,
            navigate_in(
                alloc,
                scopes,
                context.data(),
                run.recursive_lookup,
                &[],
                &run.looked_up,
            )?,
        ),
    }
}

// Returns the current value, that was found in the given data, without its path.
fn current_value<'v>(
    alloc: Global,
    found: Destination<'v, 'v>,
) -> Result<ParamValue<'v>, BoxedError>
    ensures { (a : Answer Found) → IsDestination a found.entry → Answers (λ value. data_in (value_found value)) (answer_of result)
        (answer_map data_in a) }
{
    match found {
        Destination::Node(value) => Ok(ParamValue::Held(value)),
        Destination::Value(value) => Ok(frame_value(alloc, value)?),
        Destination::Nothing => Ok(ParamValue::Missing),
        Destination::NoIndex(name) => Err(not_an_index(alloc, name)),
    }
}

// Returns a value of a frame as the value of a parameter. JSON is made of a variable of an iteration.
#[inline(always)]
fn frame_value<'v>(alloc: Global, held: FrameValue<'v>) -> Result<ParamValue<'v>, AllocError>
    ensures value { IfOk result (λ found. value_found found ≡ value (value_data held.entry)) }
    ensures constant { IfOk result (λ found. is_literal_value found ≡ false) }
    ensures given { (d : Data) → IfOk result (IsOf d) }
{
    match held {
        FrameValue::Json(value) => Ok(ParamValue::Held(value)),
        variable => Ok(ParamValue::Computed(json_of(variable, alloc)?)),
    }
}

// Returns what was found in changed data, where no value has a path and a missing one is null. A value of the data is copied.
fn copied<'v>(alloc: Global, found: FoundInData<'v, '_>) -> Result<ParamValue<'v>, BoxedError>
    ensures value { (a : Answer Found) → found_in_data found.entry ≡ answer_map present_in a
        → Answers value_found (answer_of result) (answer_map without_path a) }
    ensures constant { IfOk result (λ found. is_literal_value found ≡ false) }
    ensures given { (d : Data) → IfOk result (IsOf d) }
{
    match found {
        FoundInData::Data(value) => Ok(ParamValue::Computed(value.clone()?)),
        FoundInData::Frame(value) => Ok(frame_value(alloc, value)?),
        FoundInData::Nothing => Ok(ParamValue::Computed(Json::Null)),
        FoundInData::NoIndex(name) => Err(not_an_index(alloc, name.as_str())),
    }
}

/// Returns the `InvalidJsonIndex` error for a name in a path that is not an index.
#[cold]
#[inline(never)]
pub fn not_an_index(alloc: Global, name: &str) -> BoxedError
    ensures { IsRefusal (plain_refusal (invalid_json_index name.now)) (error_of result) }
{
    BoxedError::new(alloc, wrong_index(alloc, name))
}
