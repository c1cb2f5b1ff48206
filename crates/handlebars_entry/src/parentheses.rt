//! Values of expressions in parentheses outside of every inclusion, over the frames from outside.

ghost use Rattle.std.specs.Prelude.{◌≡◌, IfOk, List, None, false};
ghost use Rattle.serde_json.specs.Data.{Data};
ghost use Rattle.handlebars_base.specs.Scoped.{found_of, is_constant, path_in};
ghost use Rattle.handlebars_template.specs.TreeView.{subexpression_view};
ghost use Rattle.handlebars_scope.specs.Contexts.{data_of};
ghost use Rattle.handlebars_scope.specs.declared.block.BlockContext.{BlockContext};
ghost use Rattle.handlebars_semantics.specs.Values.{HasInnerValue};
ghost use Rattle.handlebars_expand.specs.Boxed.{answer_of};
ghost use Rattle.handlebars_expand.specs.View.{Yields};
ghost use Rattle.handlebars_context.specs.View.{state_over};
ghost use Rattle.handlebars_values.specs.ParamView.{value_found};
ghost use Rattle.handlebars_entry.specs.Entry.{IsNoInclusion, IsOutside, over};

use crate::outside::environment_outside;
use handlebars_base::json::value::ScopedJson;
use handlebars_expand::boxed::BoxedError;
use handlebars_expand::pieces::TemplateReference;
use handlebars_expand::registered::Registered;
use handlebars_layers::innermost::{Innermost, binds_any};
use handlebars_layers::layer::Layer;
use handlebars_scope::block::BlockContext;
use handlebars_scope::context::Context;
use handlebars_template::template::Subexpression;
use handlebars_values::environment::Inclusion;
use handlebars_values::expand::inner_value;
use handlebars_values::null::Null;
use handlebars_values::param_value::ParamValue;
use handlebars_values::run::Run;
use handlebars_write::location::{IterationsAround, Placement};
use std::alloc::{AllocError, Global};
use std::collections::VecDeque;

/// Returns the value of an expression in parentheses, which has no path. It is copied if it is borrowed.
pub(crate) fn inner_outermost<'v, 's, P: Registered>(
    inner: &'v Subexpression,
    alloc: Global,
    parts: &'v P,
    given: &'v Context,
    blocks: &'v VecDeque<BlockContext>,
    run: &Run,
) -> Result<ScopedJson<'s>, BoxedError>
    ensures value { Yields (HasInnerValue (over (P.parts parts.now) (data_of given.now)) (state_over blocks.now.items run.now)
        (subexpression_view inner.now)) found_of (answer_of result) }
    ensures constant { IfOk result (λ found. is_constant found ≡ false) }
{
    let null = Null::new();
    inner_over(&*inner, alloc, &*parts, &*given, &*blocks, &null, run)
}

// Returns the value of an expression in parentheses, with a null that is borrowed. Owns the layers outside of every inclusion.
fn inner_over<'v, 's, P: Registered>(
    inner: &'v Subexpression,
    alloc: Global,
    parts: &'v P,
    given: &'v Context,
    blocks: &'v VecDeque<BlockContext>,
    null: &'v Null,
    run: &Run,
) -> Result<ScopedJson<'s>, BoxedError>
    ensures value { Yields (HasInnerValue (over (P.parts parts.now) (data_of given.now)) (state_over blocks.now.items run.now)
        (subexpression_view inner.now)) found_of (answer_of result) }
    ensures constant { IfOk result (λ found. is_constant found ≡ false) }
{
    let root = Layer::root();
    let iterations = IterationsAround::None;
    let frames = Layer::outside(&*blocks);
    let innermost = Innermost::outside(&*given, &frames, &root, binds_any(&*blocks));
    inner_from(&*inner, alloc, &*parts, &*null, innermost, &iterations, run)
}

// Returns the value of an expression in parentheses, from these layers. Owns the inclusion.
fn inner_from<'v, 's, P: Registered>(
    inner: &'v Subexpression,
    alloc: Global,
    parts: &'v P,
    null: &'v Null,
    innermost: Innermost<'v, 'v>,
    iterations: &'v IterationsAround<'v>,
    run: &Run,
) -> Result<ScopedJson<'s>, BoxedError>
    ensures value { (blocks : List BlockContext) (d : Data) → IsOutside blocks d innermost.entry iterations.now → Yields (HasInnerValue (over (P.parts parts.now) d) (state_over blocks run.now)
        (subexpression_view inner.now)) found_of (answer_of result) }
    ensures constant { IfOk result (λ found. is_constant found ≡ false) }
{
    let inclusion = Inclusion {
        alloc,
        parts: &*parts,
        null: &*null,
        inclusions: 0,
        captured: None,
        placement: Placement {
            alloc,
            indent: None,
            template: TemplateReference::First,
        },
    };
    inner_with(&*inner, &inclusion, innermost, iterations, run)
}

// Returns the value of an expression in parentheses, with what is borrowed.
fn inner_with<'v, 's, P: Registered>(
    inner: &'v Subexpression,
    inclusion: &'v Inclusion<'v, P>,
    innermost: Innermost<'v, 'v>,
    iterations: &'v IterationsAround<'v>,
    run: &Run,
) -> Result<ScopedJson<'s>, BoxedError>
    ensures value { (blocks : List BlockContext) (registered : P) (d : Data) → IsOutside blocks d innermost.entry iterations.now → IsNoInclusion registered inclusion.now
        → Yields (HasInnerValue (over (P.parts registered) d) (state_over blocks run.now)
        (subexpression_view inner.now)) found_of (answer_of result) }
    ensures constant { IfOk result (λ found. is_constant found ≡ false) }
{
    let environment = environment_outside(&*inclusion, innermost, iterations);
    match inner_value(&environment, run, &*inner) {
        Ok(value) => Ok(owned(value)?),
        Err(e) => Err(e),
    }
}

// Returns a value that has no path, copied if it is borrowed.
fn owned<'s>(found: ParamValue<'_>) -> Result<ScopedJson<'s>, AllocError>
    ensures value { path_in (value_found found.entry) ≡ None → IfOk result (λ v. found_of v ≡ value_found found.entry) }
    ensures constant { IfOk result (λ v. is_constant v ≡ false) }
{
    match found {
        ParamValue::Node(reached) => Ok(ScopedJson::Derived(reached.value.clone()?)),
        ParamValue::Held(value) => Ok(ScopedJson::Derived(value.clone()?)),
        ParamValue::Literal(value) => Ok(ScopedJson::Derived(value.clone()?)),
        ParamValue::Computed(value) => Ok(ScopedJson::Derived(value)),
        ParamValue::Missing => Ok(ScopedJson::Missing),
    }
}
