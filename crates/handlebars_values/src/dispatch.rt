//! What calls are dispatched to.

ghost use Rattle.std.specs.Prelude.{◌≡◌, [], false, option_map, unwrap_or};
ghost use Rattle.handlebars_base.specs.Answers.{Answers};
ghost use Rattle.handlebars_helpers.specs.CallView.{HelperView};
ghost use Rattle.handlebars_helpers.specs.UserView.{local_of};
ghost use Rattle.handlebars_helpers.specs.View.{helper_view};
ghost use Rattle.handlebars_semantics.specs.State.{bound_call, helper_for, local_call};
ghost use Rattle.handlebars_expand.specs.Bound.{dispatch};
ghost use Rattle.handlebars_expand.specs.Boxed.{answer_of};
ghost use Rattle.handlebars_expand.specs.Targets.{target_in};
ghost use Rattle.handlebars_values.specs.Dispatch.{HasValueOf, dispatched_of};
ghost use Rattle.handlebars_values.specs.Judgement.{InState};
ghost use Rattle.handlebars_values.specs.RunView.{run_state};

use crate::environment::Environment;
use crate::run::Run;
use crate::target::helper_for;
use handlebars_base::json::value::Json;
use handlebars_expand::boxed::BoxedError;
use handlebars_expand::called::helper_not_found;
use handlebars_expand::registered::{Registered, Target, hook};
use handlebars_helpers::built_in::BuiltIn;
use handlebars_helpers::user::{Callee, LocalHelper};
use handlebars_helpers::view::Helper;

/// The callee of a call, and the constants of a local helper, which come before the parameters of the call.
#[derive(Clone, Copy)]
pub enum Dispatched<'c> {
    BuiltIn(BuiltIn, &'c [Json]),
    /// A user-defined helper. It is asked by this name, or else by the name of the call.
    User(Option<&'c str>, &'c [Json]),
}

/// Returns the callee of a target, for a call by this name, of a block or not.
///
/// # Errors
///
/// Fails with `HelperNotFound` if the target is a local helper that doesn't exist, or under whose registered name no helper is
/// registered.
#[inline(always)]
pub fn dispatch<'c, P: Registered>(
    environment: &Environment<P>,
    run: &'c Run,
    target: Target,
    block: bool,
    name: &str,
) -> Result<Dispatched<'c>, BoxedError>
    ensures { (h : HelperView) → h.call.name ≡ name.now → Answers (dispatched_of h) (answer_of result)
        (dispatch (P.parts environment.now.inclusion.now.parts.now) (run_state [] run.now).local (target_in block name.now target) h) }
{
    match target {
        Target::Built(kind) => Ok(Dispatched::BuiltIn(kind, &[])),
        Target::Named => Ok(Dispatched::User(None, &[])),
        Target::Hooked => Ok(Dispatched::User(Some(hook(block)), &[])),
        Target::Local => dispatch_local(environment, run, name),
    }
}

// Returns the callee of the local helper of a name.
#[inline(never)]
fn dispatch_local<'c, P: Registered>(
    environment: &Environment<P>,
    run: &'c Run,
    name: &str,
) -> Result<Dispatched<'c>, BoxedError>
    ensures { (h : HelperView) → Answers (dispatched_of h) (answer_of result) (local_call (P.parts environment.now.inclusion.now.parts.now)
        ((run_state [] run.now).local name.now) name.now h) }
{
    match run.local_helper(name) {
        Some(helper) => dispatch_to(environment, helper),
        None => Err(helper_not_found(environment.inclusion.alloc, name)),
    }
}

// Returns what is registered under the name that a local helper has, if anything still is.
fn dispatch_to<'c, P: Registered>(
    environment: &Environment<P>,
    helper: &'c LocalHelper,
) -> Result<Dispatched<'c>, BoxedError>
    ensures { (h : HelperView) → Answers (dispatched_of h) (answer_of result) (bound_call (local_of helper.now) h
        ((P.parts environment.now.inclusion.now.parts.now).helper (local_of helper.now).registered)) }
{
    let registered = helper.registered.as_str();
    let constants = helper.constants.as_slice();
    match environment.inclusion.parts.helper(registered) {
        Some(Callee::Built(kind)) => Ok(Dispatched::BuiltIn(kind, constants)),
        Some(Callee::User) => Ok(Dispatched::User(Some(registered), constants)),
        None => Err(helper_not_found(environment.inclusion.alloc, registered)),
    }
}

/// Returns the callee of a call in parentheses by this name.
///
/// # Errors
///
/// Fails with `HelperNotFound` if there is neither a helper of the name nor the hook, and as `dispatch` does.
#[inline(always)]
pub(crate) fn dispatch_in_parentheses<'c, P: Registered>(
    environment: &Environment<P>,
    run: &'c Run,
    name: &str,
) -> Result<Dispatched<'c>, BoxedError>
    ensures { InState P.parts environment.now run.now (λ p s. (h : HelperView) → h.call.name ≡ name.now
        → HasValueOf p s (helper_for p.parts s false name.now) h (answer_of result)) }
{
    match helper_for(environment.inclusion.parts, run, false, name) {
        Some(target) => dispatch(environment, run, target, false, name),
        None => Err(helper_not_found(environment.inclusion.alloc, name)),
    }
}

/// Returns the name that a user-defined helper is asked by: this name, or else the name of the call.
pub fn asked_name<'n>(asked_by: Option<&'n str>, view: &'n Helper) -> &'n str
    ensures { result.now ≡ unwrap_or (option_map (λ t. t.now) asked_by.entry) (helper_view view.now).call.name }
{
    match asked_by {
        Some(name) => name,
        None => view.name(),
    }
}
