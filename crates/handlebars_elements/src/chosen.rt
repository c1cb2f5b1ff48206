//! What the callees of calls choose. The parameters are evaluated in order, then the hash arguments.

ghost use Rattle.std.specs.Prelude.{IfOk, map, option_map, unwrap_or};
ghost use Rattle.std.specs.Cow.{cow_str_bytes};
ghost use Rattle.serde_json.specs.View.{view};
ghost use Rattle.handlebars_template.specs.TreeView.{call_view};
ghost use Rattle.handlebars_helpers.specs.Callee.{user};
ghost use Rattle.handlebars_scope.specs.Contexts.{data_of};
ghost use Rattle.handlebars_expand.specs.Boxed.{answer_of, error_of};
ghost use Rattle.handlebars_expand.specs.Targets.{target_in};
ghost use Rattle.handlebars_expand.specs.UserChoice.{user_choice_of};
ghost use Rattle.handlebars_expand.specs.View.{Yields};
ghost use Rattle.handlebars_values.specs.Judgement.{InState};
ghost use Rattle.handlebars_elements.specs.Chosen.{FailsFor, HasCalleeChoice, HasTargetChoice, IsChosenOf, chosen_of};

use handlebars_base::json::value::Json;
use handlebars_expand::boxed::BoxedError;
use handlebars_expand::registered::{Registered, Target};
use handlebars_expand::user::UserChoice;
use handlebars_template::template::HelperTemplate;
use handlebars_values::built_in::{Asked, BuiltInChoice, choose_built_in};
use handlebars_values::dispatch::{Dispatched, asked_name, dispatch};
use handlebars_values::environment::Environment;
use handlebars_values::expand::called;
use handlebars_values::run::Run;
use handlebars_values::user::choose_by_user;
use std::borrow::CowStr;

/// What the callee of a call chose.
#[derive(Drop)]
pub enum Chosen<'v> {
    BuiltIn(BuiltInChoice<'v>),
    User(UserChoice),
}

/// Returns what the target of a call by this name chooses, of a block or not.
///
/// # Errors
///
/// Fails if a parameter or a hash argument does, then with `HelperNotFound` if the target is a local helper that doesn't exist, or
/// under whose registered name no helper is registered, and otherwise if the helper fails.
#[inline(always)]
pub(crate) fn choose_for<'v, P: Registered>(
    helper: &'v HelperTemplate,
    environment: &'v Environment<'v, 'v, P>,
    block: bool,
    target: Target,
    name: CowStr<'v>,
    run: &Run,
) -> Result<Chosen<'v>, BoxedError>
    ensures chooses { InState P.parts environment.now run.now (λ p s. Yields (HasTargetChoice p s block (call_view helper.now)
        (cow_str_bytes name.entry) (target_in block (cow_str_bytes name.entry) target)) chosen_of (answer_of result)) }
    ensures given { IfOk result (IsChosenOf (data_of environment.now.innermost.given.now)) }
{
    match dispatch(environment, run, target, block, name.as_str()) {
        Ok(Dispatched::BuiltIn(kind, constants)) => {
            let asked = Asked {
                constants,
                has_body: helper.template.is_some(),
                has_inverse: helper.inverse.is_some(),
            };
            match choose_built_in(environment, run, helper, kind, asked) {
                Ok(choice) => Ok(Chosen::BuiltIn(choice)),
                Err(e) => Err(e),
            }
        }
        Ok(Dispatched::User(asked_by, constants)) => {
            match choose_user_defined(helper, environment, block, name, asked_by, constants, run) {
                Ok(choice) => Ok(Chosen::User(choice)),
                Err(e) => Err(e),
            }
        }
        Err(e) => Err(error_after_arguments(helper, environment, name, run, e)),
    }
}

// Returns what a user-defined helper chooses for a call by this name, with these constants before its parameters. The helper is
// asked by `asked_by`, or else by the name of the call.
#[inline(never)]
fn choose_user_defined<'v, P: Registered>(
    helper: &'v HelperTemplate,
    environment: &'v Environment<'v, 'v, P>,
    block: bool,
    name: CowStr<'v>,
    asked_by: Option<&str>,
    constants: &[Json],
    run: &Run,
) -> Result<UserChoice, BoxedError>
    ensures { InState P.parts environment.now run.now (λ p s. Yields (HasCalleeChoice p s block (call_view helper.now)
        (cow_str_bytes name.entry) (user (unwrap_or (option_map (λ t. t.now) asked_by.entry) (cow_str_bytes name.entry)))
        (map view constants.now)) user_choice_of (answer_of result)) }
{
    let alloc = environment.inclusion.alloc;
    let call = called(environment, run, helper, name)?;
    let view = call
        .after(alloc, constants)?
        .into_helper(alloc, helper, block)?;
    match choose_by_user(environment, run, asked_name(asked_by, &view), &view) {
        Ok(choice) => Ok(choice),
        Err(e) => Err(BoxedError::new(alloc, e)),
    }
}

/// Returns the error of a call by this name that has no callee: that of a parameter or a hash argument, or else this one.
#[cold]
#[inline(never)]
pub(crate) fn error_after_arguments<'v, P: Registered>(
    helper: &'v HelperTemplate,
    environment: &'v Environment<'v, 'v, P>,
    name: CowStr<'v>,
    run: &Run,
    error: BoxedError,
) -> BoxedError
    ensures { InState P.parts environment.now run.now (λ p s. FailsFor p s (call_view helper.now) (cow_str_bytes name.entry)
        (error_of error) (error_of result)) }
{
    match called(environment, run, helper, name) {
        Ok(_call) => error,
        Err(e) => e,
    }
}
