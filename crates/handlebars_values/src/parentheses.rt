//! The values of calls in parentheses, once their parameters are evaluated.

ghost use Rattle.std.specs.Prelude.{◌≡◌, [], IfOk, false, map, option_map, unwrap_or};
ghost use Rattle.serde_json.specs.Data.{Data, string};
ghost use Rattle.serde_json.specs.View.{view};
ghost use Rattle.handlebars_base.specs.Scoped.{data_in, value};
ghost use Rattle.handlebars_template.specs.Tree.{call_binding};
ghost use Rattle.handlebars_template.specs.TreeView.{call_view};
ghost use Rattle.handlebars_helpers.specs.CallView.{with_constants};
ghost use Rattle.handlebars_helpers.specs.Callee.{user};
ghost use Rattle.handlebars_semantics.specs.Values.{HasRegisteredValue, choice_value, view_without_bodies};
ghost use Rattle.handlebars_expand.specs.Boxed.{answer_of};
ghost use Rattle.handlebars_expand.specs.View.{Yields};
ghost use Rattle.handlebars_values.specs.ChoiceView.{choice_seen};
ghost use Rattle.handlebars_values.specs.Judgement.{InState};
ghost use Rattle.handlebars_values.specs.ParamView.{IsOf, is_literal_value, value_found};
ghost use Rattle.handlebars_values.specs.View.{called_view};

use crate::built_in::BuiltInChoice;
use crate::called::Called;
use crate::dispatch::asked_name;
use crate::environment::Environment;
use crate::param_value::ParamValue;
use crate::run::Run;
use crate::user::user_value;
use handlebars_base::json::value::Json;
use handlebars_expand::boxed::BoxedError;
use handlebars_expand::registered::Registered;
use handlebars_template::template::HelperTemplate;
use serde_json::Number;
use std::alloc::Global;

/// Returns the value of a call of a user-defined helper, with these constants before its parameters. The helper is asked by
/// `asked_by`, or else by the name of the call.
///
/// # Errors
///
/// Fails if the helper does, and if memory runs out.
pub(crate) fn user_called_value<'v, P: Registered>(
    environment: &'v Environment<'v, 'v, P>,
    run: &Run,
    helper: &'v HelperTemplate,
    asked_by: Option<&str>,
    constants: &[Json],
    call: Called<'v>,
) -> Result<ParamValue<'v>, BoxedError>
    ensures value { InState P.parts environment.now run.now (λ p s. Yields
        (HasRegisteredValue p s (user (unwrap_or (option_map (λ t. t.now) asked_by.entry) (called_view call.entry).name))
        (with_constants (map view constants.now) (view_without_bodies (call_binding (call_view helper.now)) (called_view call.entry))))
        value_found (answer_of result)) }
    ensures constant { IfOk result (λ found. is_literal_value found ≡ false) }
    ensures given { (d : Data) → IfOk result (IsOf d) }
{
    let alloc = environment.inclusion.alloc;
    let call = call.after(alloc, constants)?;
    let view = call.into_helper_in_parentheses(alloc, helper)?;
    user_value(environment, run, asked_name(asked_by, &view), &view)
}

/// Returns the value that a built-in helper chose, or the empty text for any other choice. A line goes to the logger.
#[inline(always)]
pub(crate) fn chosen_value<'v, P: Registered>(
    environment: &Environment<P>,
    choice: BuiltInChoice<'v>,
) -> ParamValue<'v>
    ensures value { value_found result ≡ choice_value (choice_seen choice.entry) }
    ensures constant { is_literal_value result ≡ false }
    ensures given { (d : Data) → IsOf d result }
{
    let alloc = environment.inclusion.alloc;
    match choice {
        BuiltInChoice::Value(value) => without_path(value),
        BuiltInChoice::Count(count) => ParamValue::Computed(Json::Number(Number::from(count))),
        BuiltInChoice::Boolean(boolean) => ParamValue::Computed(Json::Bool(boolean)),
        BuiltInChoice::Line(level, text) => {
            environment.inclusion.parts.log(level, text.as_str());
            ParamValue::Computed(empty_text(alloc))
        }
        BuiltInChoice::Body => ParamValue::Computed(empty_text(alloc)),
        BuiltInChoice::Inverse => ParamValue::Computed(empty_text(alloc)),
        BuiltInChoice::With(_) => ParamValue::Computed(empty_text(alloc)),
        BuiltInChoice::Each(_) => ParamValue::Computed(empty_text(alloc)),
        BuiltInChoice::Nothing => ParamValue::Computed(empty_text(alloc)),
    }
}

// Returns a value without its path. A missing one is null.
#[inline(always)]
fn without_path<'v>(found: ParamValue<'v>) -> ParamValue<'v>
    ensures value { value_found result ≡ value (data_in (value_found found.entry)) }
    ensures constant { is_literal_value result ≡ false }
    ensures given { (d : Data) → IsOf d result }
{
    match found {
        ParamValue::Node(reached) => ParamValue::Held(reached.value),
        ParamValue::Held(value) => ParamValue::Held(value),
        ParamValue::Literal(value) => ParamValue::Held(value),
        ParamValue::Computed(value) => ParamValue::Computed(value),
        ParamValue::Missing => ParamValue::Computed(Json::Null),
    }
}

/// Returns the value of a call that writes nothing.
pub(crate) fn empty_text(alloc: Global) -> Json
    ensures { view result ≡ string [] }
{
    Json::String(String::new(alloc))
}
