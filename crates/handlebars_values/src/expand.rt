//! Values of parameters, and the calls in parentheses among them.

ghost use Rattle.std.specs.Prelude.{◌≡◌, IfOk, OnOk, Option, Some, false, map, option_map, unwrap_or};
ghost use Rattle.std.specs.BTreeMap.{insert_entry};
ghost use Rattle.std.specs.Cmp.Lexicographic.{slice_cmp};
ghost use Rattle.std.specs.Cow.{cow_str_bytes};
ghost use Rattle.std.specs.Ordering.{nat_cmp};
ghost use Rattle.serde_json.specs.Data.{Data};
ghost use Rattle.serde_json.specs.View.{view};
ghost use Rattle.handlebars_base.specs.Answers.{fails};
ghost use Rattle.handlebars_base.specs.Bytes.{Text};
ghost use Rattle.handlebars_base.specs.RenderRefusals.{refusal_of};
ghost use Rattle.handlebars_scope.specs.Contexts.{data_of};
ghost use Rattle.handlebars_template.specs.Tree.{call_args, call_binding, escaped_expression, subexpression};
ghost use Rattle.handlebars_template.specs.TreeView.{call_view, hash_view, param_view, params_view, subexpression_view};
ghost use Rattle.handlebars_helpers.specs.CallView.{with_constants};
ghost use Rattle.handlebars_helpers.specs.Callee.{built, user};
ghost use Rattle.handlebars_helpers.specs.View.{built_in_kind};
ghost use Rattle.handlebars_semantics.specs.Asks.{only};
ghost use Rattle.handlebars_semantics.specs.Values.{HasInnerValue, HasName, HasRegisteredValue, HasValue, HasWrittenValue, HashHasValues, HaveValues, is_literal, view_without_bodies};
ghost use Rattle.handlebars_expand.specs.Boxed.{answer_of, error_of};
ghost use Rattle.handlebars_expand.specs.View.{Yields};
ghost use Rattle.handlebars_values.specs.Dispatch.{HasValueBy, HasViewBy};
ghost use Rattle.handlebars_values.specs.Judgement.{InState};
ghost use Rattle.handlebars_values.specs.ParamView.{IsOf, argument_view, is_literal_value, value_found};
ghost use Rattle.handlebars_values.specs.View.{arguments_seen, called_view};

use crate::built_in::{Asked, choose_built_in};
use crate::called::Called;
use crate::dispatch::{Dispatched, dispatch_in_parentheses};
use crate::environment::Environment;
use crate::find::find;
use crate::param_value::{Argument, ParamValue};
use crate::parentheses::{chosen_value, user_called_value};
use crate::run::Run;
use handlebars_base::json::value::{Json, JsonRender};
use handlebars_expand::boxed::BoxedError;
use handlebars_expand::registered::Registered;
use handlebars_helpers::built_in::BuiltIn;
use handlebars_template::template::{HelperTemplate, Parameter, Subexpression, TemplateElement};
use std::alloc::AllocError;
use std::borrow::CowStr;
use std::collections::BTreeMap;

/// Returns the value of a parameter.
#[cycle(value)]
pub fn expands<'v, P: Registered>(
    environment: &'v Environment<'v, 'v, P>,
    run: &Run,
    parameter: &'v Parameter,
) -> Result<ParamValue<'v>, BoxedError>
    ensures value { InState P.parts environment.now run.now (λ p s. Yields
        (HasValue p s (param_view parameter.now)) value_found (answer_of result)) }
    ensures constant { IfOk result (λ found. is_literal_value found ≡ is_literal (param_view parameter.now)) }
    ensures given { IfOk result (IsOf (data_of environment.now.innermost.given.now)) }
{
    match parameter {
        Parameter::Name(_) => Ok(ParamValue::Missing),
        Parameter::Path(path) => find(environment, run, path),
        Parameter::Literal(value) => Ok(ParamValue::Literal(value)),
        Parameter::Subexpression(inner) => inner_value(environment, run, inner),
    }
}

/// Returns the value of a parameter, with the parameter's text as written.
#[cycle(value)]
pub fn expand<'v, P: Registered>(
    environment: &'v Environment<'v, 'v, P>,
    run: &Run,
    parameter: &'v Parameter,
) -> Result<Argument<'v>, BoxedError>
    ensures { InState P.parts environment.now run.now (λ p s. Yields
        (HasWrittenValue p s (param_view parameter.now)) argument_view (answer_of result)) }
{
    match expands(environment, run, parameter) {
        Ok(value) => Ok(Argument::new(parameter.as_name(), value)),
        Err(e) => Err(e),
    }
}

/// Returns the text that a parameter is called by. It is borrowed if the template contains it.
#[cycle(value)]
#[inline(always)]
pub fn expand_as_name<'v, P: Registered>(
    environment: &'v Environment<'v, 'v, P>,
    run: &Run,
    parameter: &'v Parameter,
) -> Result<CowStr<'v>, BoxedError>
    ensures { InState P.parts environment.now run.now (λ p s. Yields
        (HasName p s (param_view parameter.now)) cow_str_bytes (answer_of result)) }
{
    match parameter {
        Parameter::Name(text) => Ok(CowStr::Borrowed(text.as_str())),
        Parameter::Path(path) => Ok(CowStr::Borrowed(path.raw())),
        Parameter::Literal(value) => Ok(CowStr::Owned(value.render(environment.inclusion.alloc)?)),
        Parameter::Subexpression(inner) => inner_name(environment, run, inner),
    }
}

// Returns the text of the value of an expression in parentheses.
#[cycle(value)]
#[inline(never)]
fn inner_name<'v, P: Registered>(
    environment: &'v Environment<'v, 'v, P>,
    run: &Run,
    inner: &'v Subexpression,
) -> Result<CowStr<'v>, BoxedError>
    ensures { InState P.parts environment.now run.now (λ p s. Yields
        (HasName p s (subexpression (subexpression_view inner.now))) cow_str_bytes (answer_of result)) }
{
    match inner_value(environment, run, inner) {
        Ok(value) => Ok(CowStr::Owned(value.render(environment.inclusion.alloc)?)),
        Err(e) => Err(e),
    }
}

/// Returns the value of an expression in parentheses. Only a call has one.
#[cycle(value)]
pub fn inner_value<'v, P: Registered>(
    environment: &'v Environment<'v, 'v, P>,
    run: &Run,
    inner: &'v Subexpression,
) -> Result<ParamValue<'v>, BoxedError>
    ensures value { InState P.parts environment.now run.now (λ p s. Yields
        (HasInnerValue p s (subexpression_view inner.now)) value_found (answer_of result)) }
    ensures constant { IfOk result (λ found. is_literal_value found ≡ false) }
    ensures given { IfOk result (IsOf (data_of environment.now.innermost.given.now)) }
{
    match &*inner.element {
        TemplateElement::Expression(helper) => call_value(environment, run, helper),
        TemplateElement::RawString(_) => Ok(ParamValue::Missing),
        TemplateElement::HtmlExpression(_) => Ok(ParamValue::Missing),
        TemplateElement::HelperBlock(_) => Ok(ParamValue::Missing),
        TemplateElement::DecoratorExpression(_) => Ok(ParamValue::Missing),
        TemplateElement::DecoratorBlock(_) => Ok(ParamValue::Missing),
        TemplateElement::PartialExpression(_) => Ok(ParamValue::Missing),
        TemplateElement::PartialBlock(_) => Ok(ParamValue::Missing),
        TemplateElement::Comment(_) => Ok(ParamValue::Missing),
    }
}

/// Returns the value of a call in parentheses: the value that its helper chooses or offers, or else the text that a user-defined
/// helper writes. Without any of these it is the empty text. A value that `lookup` picks is borrowed where it lasts longer than
/// the call. A line of `log` goes to the logger.
///
/// # Errors
///
/// Fails if the name, a parameter or a hash argument does, then with `HelperNotFound` if there is neither a helper of the name nor
/// the hook, and otherwise if the helper fails.
#[cycle(value)]
pub fn call_value<'v, P: Registered>(
    environment: &'v Environment<'v, 'v, P>,
    run: &Run,
    helper: &'v HelperTemplate,
) -> Result<ParamValue<'v>, BoxedError>
    ensures value { InState P.parts environment.now run.now (λ p s. Yields
        (HasInnerValue p s (escaped_expression (call_view helper.now))) value_found (answer_of result)) }
    ensures constant { IfOk result (λ found. is_literal_value found ≡ false) }
    ensures given { IfOk result (IsOf (data_of environment.now.innermost.given.now)) }
{
    let name = expand_as_name(environment, run, &helper.name)?;
    match dispatch_in_parentheses(environment, run, name.as_str()) {
        Ok(Dispatched::BuiltIn(kind, constants)) => {
            built_in_value(environment, run, helper, kind, constants)
        }
        Ok(Dispatched::User(asked_by, constants)) => {
            user_defined_value(environment, run, helper, name, asked_by, constants)
        }
        Err(e) => fail_after_arguments(environment, run, helper, name, e),
    }
}

// Returns the value of a call of a built-in helper in parentheses, with these constants before its parameters.
#[cycle(value)]
fn built_in_value<'v, P: Registered>(
    environment: &'v Environment<'v, 'v, P>,
    run: &Run,
    helper: &'v HelperTemplate,
    kind: BuiltIn,
    constants: &[Json],
) -> Result<ParamValue<'v>, BoxedError>
    ensures value { InState P.parts environment.now run.now (λ p s. (name : Text) → Yields
        (HasValueBy p s name (call_args (call_view helper.now)) (λ v. HasRegisteredValue p s (built (built_in_kind kind))
        (with_constants (map view constants.now) (view_without_bodies (call_binding (call_view helper.now)) v)))) value_found (answer_of result)) }
    ensures constant { IfOk result (λ found. is_literal_value found ≡ false) }
    ensures given { (d : Data) → IfOk result (IsOf d) }
{
    let asked = Asked {
        constants,
        has_body: false,
        has_inverse: false,
    };
    match choose_built_in(environment, run, helper, kind, asked) {
        Ok(choice) => Ok(chosen_value(environment, choice)),
        Err(e) => Err(e),
    }
}

// Returns the value of a call of a user-defined helper in parentheses, with these constants before its parameters. The helper is
// asked by `asked_by`, or else by the name of the call.
#[cycle(value)]
#[inline(never)]
fn user_defined_value<'v, P: Registered>(
    environment: &'v Environment<'v, 'v, P>,
    run: &Run,
    helper: &'v HelperTemplate,
    name: CowStr<'v>,
    asked_by: Option<&str>,
    constants: &[Json],
) -> Result<ParamValue<'v>, BoxedError>
    ensures value { InState P.parts environment.now run.now (λ p s. Yields
        (HasValueBy p s (cow_str_bytes name.entry) (call_args (call_view helper.now)) (λ v. HasRegisteredValue p s (user (unwrap_or (option_map (λ t. t.now) asked_by.entry) v.name))
        (with_constants (map view constants.now) (view_without_bodies (call_binding (call_view helper.now)) v)))) value_found (answer_of result)) }
    ensures constant { IfOk result (λ found. is_literal_value found ≡ false) }
    ensures given { (d : Data) → IfOk result (IsOf d) }
{
    let call = called(environment, run, helper, name)?;
    user_called_value(environment, run, helper, asked_by, constants, call)
}

// Fails with the error of a call that has no callee, once its parameters and hash arguments are evaluated, whose errors come
// first.
#[cycle(value)]
#[cold]
#[inline(never)]
fn fail_after_arguments<'v, P: Registered>(
    environment: &'v Environment<'v, 'v, P>,
    run: &Run,
    helper: &'v HelperTemplate,
    name: CowStr<'v>,
    error: BoxedError,
) -> Result<ParamValue<'v>, BoxedError>
    ensures value { InState P.parts environment.now run.now (λ p s. Yields
        (HasValueBy p s (cow_str_bytes name.entry) (call_args (call_view helper.now)) (λ v. only (fails (refusal_of (error_of error))))) value_found (answer_of result)) }
    ensures constant { IfOk result (λ found. is_literal_value found ≡ false) }
    ensures given { (d : Data) → IfOk result (IsOf d) }
{
    match called(environment, run, helper, name) {
        Ok(_call) => Err(error),
        Err(e) => Err(e),
    }
}

/// Returns a call by this name, with the values of its parameters and hash arguments.
#[cycle(value)]
pub fn called<'v, P: Registered>(
    environment: &'v Environment<'v, 'v, P>,
    run: &Run,
    helper: &'v HelperTemplate,
    name: CowStr<'v>,
) -> Result<Called<'v>, BoxedError>
    ensures { InState P.parts environment.now run.now (λ p s. Yields
        (HasViewBy p s (cow_str_bytes name.entry) (call_args (call_view helper.now))) called_view (answer_of result)) }
{
    let params = params_values(environment, run, &helper.params)?;
    let hash = hash_values(environment, run, &helper.hash)?;
    Ok(Called { name, params, hash })
}

/// Returns the values of parameters, in order.
#[cycle(value)]
#[inline(always)]
pub fn params_values<'v, P: Registered>(
    environment: &'v Environment<'v, 'v, P>,
    run: &Run,
    params: &'v Vec<Parameter>,
) -> Result<Vec<Argument<'v>>, BoxedError>
    ensures { InState P.parts environment.now run.now (λ p s. Yields (HaveValues p s (params_view params.now.items))
        (λ vs. map argument_view vs.items) (answer_of result)) }
{
    let mut values = Vec::with_capacity(environment.inclusion.alloc, params.len())?;
    for parameter in params {
        values.push(expand(environment, run, parameter)?)?;
    }
    Ok(values)
}

/// Returns the values of hash arguments, by key.
#[cycle(value)]
#[inline(always)]
pub fn hash_values<'v, P: Registered>(
    environment: &'v Environment<'v, 'v, P>,
    run: &Run,
    hash: &'v BTreeMap<String, Parameter>,
) -> Result<BTreeMap<&'v str, Argument<'v>>, BoxedError>
    ensures { InState P.parts environment.now run.now (λ p s. Yields (HashHasValues p s (hash_view hash.now.entries))
        (λ vs. arguments_seen vs.entries) (answer_of result)) }
{
    let mut values = BTreeMap::new(environment.inclusion.alloc);
    for (key, parameter) in hash.iter() {
        put(
            &mut values,
            key.as_str(),
            expand(environment, run, parameter)?,
        )?;
    }
    Ok(values)
}

// Puts a value under a key.
fn put<'v>(
    values: &mut BTreeMap<&'v str, Argument<'v>>,
    key: &'v str,
    value: Argument<'v>,
) -> Result<(), AllocError>
    ensures { OnOk result (values.new.entries
        ≡ insert_entry (λ a b. slice_cmp nat_cmp a.now b.now) values.old.entries key.entry value.entry) }
{
    values.insert(key, value)?;
    Ok(())
}
