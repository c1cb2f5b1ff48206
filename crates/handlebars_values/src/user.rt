//! What user-defined helpers choose, and their values in parentheses.

ghost use Rattle.std.specs.Prelude.{◌≡◌, IfOk, false, map, string_bytes};
ghost use Rattle.serde_json.specs.Data.{Data};
ghost use Rattle.handlebars_base.specs.Answers.{Answers};
ghost use Rattle.handlebars_base.specs.Scoped.{value};
ghost use Rattle.handlebars_helpers.specs.Callee.{user};
ghost use Rattle.handlebars_helpers.specs.UserHelper.{not_offered};
ghost use Rattle.handlebars_helpers.specs.UserView.{offer_of, step_of};
ghost use Rattle.handlebars_helpers.specs.View.{helper_view};
ghost use Rattle.handlebars_semantics.specs.Questions.{HasRegisteredChoice, offer_choice};
ghost use Rattle.handlebars_semantics.specs.Values.{HasRegisteredValue, offer_or_text, step_text, steps_text};
ghost use Rattle.handlebars_expand.specs.Boxed.{answer_of};
ghost use Rattle.handlebars_expand.specs.UserChoice.{user_choice_of};
ghost use Rattle.handlebars_expand.specs.View.{Yields};
ghost use Rattle.handlebars_values.specs.Judgement.{InState};
ghost use Rattle.handlebars_values.specs.ParamView.{IsOf, is_literal_value, value_found};

use crate::environment::Environment;
use crate::param_value::ParamValue;
use crate::parentheses::empty_text;
use crate::run::Run;
use handlebars_base::error::{RenderError, RenderErrorReason};
use handlebars_base::json::value::Json;
use handlebars_expand::boxed::BoxedError;
use handlebars_expand::registered::Registered;
use handlebars_expand::user::UserChoice;
use handlebars_helpers::user::{HelperStep, HelperValue};
use handlebars_helpers::view::Helper;
use std::alloc::{AllocError, Global};

/// Returns what the helper of this name chooses for a call: its steps, or else what it offers.
pub fn choose_by_user<P: Registered>(
    environment: &Environment<P>,
    run: &Run,
    name: &str,
    view: &Helper,
) -> Result<UserChoice, RenderError>
    ensures { InState P.parts environment.now run.now (λ p s. Yields
        (HasRegisteredChoice p s (user name.now) (helper_view view.now)) user_choice_of result) }
{
    match environment.inclusion.parts.steps_of(
        name,
        view,
        environment.innermost.given,
        run.changed.as_ref(),
    ) {
        Ok(Some(steps)) => Ok(UserChoice::Steps(steps)),
        Ok(None) => match environment.inclusion.parts.offer_of(
            name,
            view,
            environment.innermost.given,
            run.changed.as_ref(),
        ) {
            Ok(offer) => choose_offer(environment.inclusion.parts.strict(), offer),
            Err(e) => Err(e),
        },
        Err(e) => Err(e),
    }
}

// What an offer chooses, in strict mode or not.
fn choose_offer(strict: bool, offer: HelperValue) -> Result<UserChoice, RenderError>
    ensures { Answers user_choice_of result (offer_choice strict (offer_of offer)) }
{
    match offer {
        HelperValue::NotOffered => Ok(UserChoice::Nothing),
        HelperValue::Value(value) => Ok(UserChoice::Value(value)),
        HelperValue::Missing => {
            if strict {
                Err(RenderErrorReason::MissingVariable(None).into())
            } else {
                Ok(UserChoice::Value(Json::Null))
            }
        }
    }
}

/// Returns the value of a call of the helper of this name in parentheses: what it offers, or else the text that it writes.
pub fn user_value<'v, P: Registered>(
    environment: &'v Environment<'v, 'v, P>,
    run: &Run,
    name: &str,
    view: &Helper,
) -> Result<ParamValue<'v>, BoxedError>
    ensures value { InState P.parts environment.now run.now (λ p s. Yields
        (HasRegisteredValue p s (user name.now) (helper_view view.now)) value_found (answer_of result)) }
    ensures constant { IfOk result (λ found. is_literal_value found ≡ false) }
    ensures given { (d : Data) → IfOk result (IsOf d) }
{
    match environment.inclusion.parts.offer_of(
        name,
        view,
        environment.innermost.given,
        run.changed.as_ref(),
    ) {
        Ok(HelperValue::Value(value)) => Ok(ParamValue::Computed(value)),
        Ok(HelperValue::Missing) => Ok(ParamValue::Missing),
        Ok(HelperValue::NotOffered) => written_value(environment, run, name, view),
        Err(e) => Err(BoxedError::new(environment.inclusion.alloc, e)),
    }
}

// The text that the helper of this name writes for a call.
fn written_value<'v, P: Registered>(
    environment: &'v Environment<'v, 'v, P>,
    run: &Run,
    name: &str,
    view: &Helper,
) -> Result<ParamValue<'v>, BoxedError>
    ensures value { InState P.parts environment.now run.now (λ p s. Yields
        (offer_or_text p s name.now (helper_view view.now) not_offered) value_found (answer_of result)) }
    ensures constant { IfOk result (λ found. is_literal_value found ≡ false) }
    ensures given { (d : Data) → IfOk result (IsOf d) }
{
    let alloc = environment.inclusion.alloc;
    match environment.inclusion.parts.steps_of(
        name,
        view,
        environment.innermost.given,
        run.changed.as_ref(),
    ) {
        Ok(None) => Ok(ParamValue::Computed(empty_text(alloc))),
        Ok(Some(steps)) => Ok(ParamValue::Computed(Json::String(text_written(alloc, &steps)?))),
        Err(e) => Err(BoxedError::new(alloc, e)),
    }
}

// The texts that the steps write, one after the other.
fn text_written(alloc: Global, steps: &Vec<HelperStep>) -> Result<String, AllocError>
    ensures { IfOk result (λ text. string_bytes text ≡ steps_text (map step_of steps.now.items)) }
{
    let mut text = String::new(alloc);
    'steps: for step in steps {
        text.push_str(written(step))?;
    }
    Ok(text)
}

// What a step writes if there are no bodies.
fn written(step: &HelperStep) -> &str
    ensures { result.now ≡ step_text (step_of step.now) }
{
    match step {
        HelperStep::Write(text) => text.as_str(),
        HelperStep::Body => "",
        HelperStep::Inverse => "",
        HelperStep::BodyIn(_) => "",
    }
}
