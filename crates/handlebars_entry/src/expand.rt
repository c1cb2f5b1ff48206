//! The values of parameters, for callers that have a context.

ghost use Rattle.std.specs.Prelude.{◌≡◌, IfOk, false, option_map, string_bytes};
ghost use Rattle.std.specs.Cow.{cow_str_bytes};
ghost use Rattle.handlebars_base.specs.Answers.{Answers};
ghost use Rattle.handlebars_base.specs.PathAndData.{path_and_data};
ghost use Rattle.handlebars_base.specs.PathView.{reference_of};
ghost use Rattle.handlebars_base.specs.Scoped.{found_of, is_constant};
ghost use Rattle.handlebars_template.specs.Tree.{as_name};
ghost use Rattle.handlebars_template.specs.TreeView.{param_view, subexpression_view};
ghost use Rattle.handlebars_scope.specs.Contexts.{data_of};
ghost use Rattle.handlebars_scope.specs.Resolve.{resolve};
ghost use Rattle.handlebars_semantics.specs.Values.{HasInnerValue, HasName, HasValue, HasWrittenValue, is_literal, without_path};
ghost use Rattle.handlebars_expand.specs.Boxed.{answer_of};
ghost use Rattle.handlebars_expand.specs.View.{Yields};
ghost use Rattle.handlebars_context.specs.View.{state_of};
ghost use Rattle.handlebars_entry.specs.Entry.{HasSameState, over, read_over};

use crate::parentheses::inner_outermost;
use handlebars_base::json::path::Path;
use handlebars_base::json::value::{JsonRender, PathAndJson, ScopedJson};
use handlebars_context::context::RenderContext;
use handlebars_context::context::internal::{find, restore, take};
use handlebars_expand::boxed::BoxedError;
use handlebars_expand::registered::Registered;
use handlebars_scope::context::Context;
use handlebars_template::template::{Parameter, Subexpression};
use serde_json::Value;
use std::alloc::{AllocError, Global};
use std::borrow::CowStr;

/// Returns the value of a parameter, with the parameter's text as written. What the data or the template owns is borrowed, unless
/// a call in parentheses gave it.
///
/// # Errors
///
/// Fails with the error of the path or of the call, and if memory runs out.
pub fn expand<'rc, P: Registered>(
    parameter: &'rc Parameter,
    alloc: Global,
    parts: &P,
    given: &'rc Context,
    rc: &mut RenderContext,
) -> Result<PathAndJson<'rc>, BoxedError>
    ensures value { Yields (HasWrittenValue (over (P.parts parts.now) (data_of given.now)) (state_of rc.old) (param_view parameter.now))
        path_and_data (answer_of result) }
    ensures same { HasSameState rc.old rc.new }
{
    match expands(parameter, alloc, parts, given, rc) {
        Ok(value) => Ok(PathAndJson::new(written(alloc, parameter)?, value)),
        Err(e) => Err(e),
    }
}

/// Returns the text that a parameter is called by. It is borrowed if the template contains it.
///
/// # Errors
///
/// Fails with the error of a call in parentheses, and if memory runs out.
pub fn expand_as_name<'rc, P: Registered>(
    parameter: &'rc Parameter,
    alloc: Global,
    parts: &P,
    given: &'rc Context,
    rc: &mut RenderContext,
) -> Result<CowStr<'rc>, BoxedError>
    ensures value { Yields (HasName (over (P.parts parts.now) (data_of given.now)) (state_of rc.old) (param_view parameter.now))
        cow_str_bytes (answer_of result) }
    ensures same { HasSameState rc.old rc.new }
{
    match parameter {
        Parameter::Name(text) => Ok(CowStr::Borrowed(text.as_str())),
        Parameter::Path(path) => Ok(CowStr::Borrowed(path.raw())),
        Parameter::Literal(value) => Ok(CowStr::Owned(value.render(alloc)?)),
        Parameter::Subexpression(inner) => match inner_value(inner, alloc, parts, given, rc) {
            Ok(value) => Ok(CowStr::Owned(value.render(alloc)?)),
            Err(e) => Err(e),
        },
    }
}

// Returns the value of a parameter.
fn expands<'rc, P: Registered>(
    parameter: &'rc Parameter,
    alloc: Global,
    parts: &P,
    given: &'rc Context,
    rc: &mut RenderContext,
) -> Result<ScopedJson<'rc>, BoxedError>
    ensures value { Yields (HasValue (over (P.parts parts.now) (data_of given.now)) (state_of rc.old) (param_view parameter.now))
        found_of (answer_of result) }
    ensures constant { IfOk result (λ found. is_constant found ≡ is_literal (param_view parameter.now)) }
    ensures same { HasSameState rc.old rc.new }
{
    match parameter {
        Parameter::Name(_) => Ok(ScopedJson::Missing),
        Parameter::Path(path) => path_value(path, alloc, given, rc),
        Parameter::Literal(value) => Ok(ScopedJson::Constant(value)),
        Parameter::Subexpression(inner) => inner_value(inner, alloc, parts, given, rc),
    }
}

// Returns what a path leads to. In changed data no value has a path and a missing one is null. A value of those is copied.
fn path_value<'rc>(
    path: &Path,
    alloc: Global,
    given: &'rc Context,
    rc: &RenderContext,
) -> Result<ScopedJson<'rc>, BoxedError>
    ensures value { Answers found_of (answer_of result) (read_over (data_of given.now) (state_of rc.now) (reference_of path.now)) }
    ensures constant { IfOk result (λ found. is_constant found ≡ false) }
{
    match rc.context() {
        None => found_in(given, alloc, rc, path),
        Some(changed) => Ok(pathless(found_in(changed, alloc, rc, path)?)?),
    }
}

// Returns what a path leads to in the scope frames and this data, whether the data was changed or not.
fn found_in<'r, 'a: 'r>(
    context: &'a Context,
    alloc: Global,
    rc: &'r RenderContext,
    path: &'r Path,
) -> Result<ScopedJson<'a>, BoxedError>
    ensures value { Answers found_of (answer_of result)
        (resolve (state_of rc.now).recursive (state_of rc.now).blocks (reference_of path.now) (data_of context.now)) }
    ensures constant { IfOk result (λ found. is_constant found ≡ false) }
{
    match find(rc, context, path) {
        Ok(found) => Ok(found),
        Err(e) => Err(BoxedError::new(alloc, e)),
    }
}

// Returns a value without its path, copied if it is borrowed. A missing one is null.
fn pathless<'rc>(found: ScopedJson<'_>) -> Result<ScopedJson<'rc>, AllocError>
    ensures value { IfOk result (λ v. found_of v ≡ without_path (found_of found.entry)) }
    ensures constant { IfOk result (λ v. is_constant v ≡ false) }
{
    match found {
        ScopedJson::Constant(value) => Ok(ScopedJson::Derived(value.clone()?)),
        ScopedJson::Derived(value) => Ok(ScopedJson::Derived(value)),
        ScopedJson::Context(value, _) => Ok(ScopedJson::Derived(value.clone()?)),
        ScopedJson::Missing => Ok(ScopedJson::Derived(Value::Null)),
    }
}

// Returns the value of an expression in parentheses, which has no path.
fn inner_value<'rc, P: Registered>(
    inner: &Subexpression,
    alloc: Global,
    parts: &P,
    given: &Context,
    rc: &mut RenderContext,
) -> Result<ScopedJson<'rc>, BoxedError>
    ensures value { Yields (HasInnerValue (over (P.parts parts.now) (data_of given.now)) (state_of rc.old) (subexpression_view inner.now))
        found_of (answer_of result) }
    ensures constant { IfOk result (λ found. is_constant found ≡ false) }
    ensures same { HasSameState rc.old rc.new }
{
    let (blocks, run) = take(rc);
    let answer = inner_outermost(&*inner, alloc, &*parts, &*given, &blocks, &run);
    restore(rc, blocks, run);
    answer
}

// Returns the text of a parameter that is a name or a path.
fn written(alloc: Global, parameter: &Parameter) -> Result<Option<String>, AllocError>
    ensures { IfOk result (λ text. option_map string_bytes text ≡ as_name (param_view parameter.now)) }
{
    match parameter.as_name() {
        Some(text) => Ok(Some(String::from_str(alloc, text)?)),
        None => Ok(None),
    }
}
