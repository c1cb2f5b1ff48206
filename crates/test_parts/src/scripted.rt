//! A helper and a decorator that do what a script describes.

ghost use Rattle.std.specs.Prelude.{◌≡◌, IfOk, Some, map, string_bytes};
ghost use Rattle.std.proofs.Common.{sym, ◌∙◌};
ghost use Rattle.serde_json.specs.View.{view};
ghost use Rattle.handlebars_base.specs.Answers.{gives};
ghost use Rattle.handlebars_helpers.specs.DecoratorsView.{action_of, tag_view};
ghost use Rattle.handlebars_helpers.specs.Decoration.{binds};
ghost use Rattle.handlebars_helpers.specs.UserHelper.{renders_body_in};
ghost use Rattle.handlebars_helpers.specs.UserView.{offer_of, step_of};
ghost use Rattle.handlebars_helpers.specs.View.{helper_view};
ghost use Rattle.handlebars_scope.specs.Scopes.{empty_frame};
ghost use Rattle.test_parts.specs.Parts.{first_values};
ghost use Rattle.test_parts.specs.Scripted.{action_said, step_said, steps_said};

use crate::helpers::shown;
use handlebars_base::error::RenderError;
use handlebars_helpers::decorators::def::DecoratorDef;
use handlebars_helpers::decorators::view::Decorator;
use handlebars_helpers::decorators::{DecoratorResult, DecoratorStep};
use handlebars_helpers::user::def::HelperDef;
use handlebars_helpers::user::{HelperResult, HelperStep, HelperValue};
use handlebars_helpers::view::Helper;
use handlebars_scope::block::BlockContext;
use handlebars_scope::context::Context;
use serde_json::Value as JsonValue;
use std::alloc::{AllocError, Global};

/// A step of a helper.
#[derive(Drop)]
pub enum ScriptedStep {
    Write(String),
    /// Writes the text of a parameter.
    Param(usize),
    Body,
    Inverse,
    /// Renders the body in a scope frame whose base is a value.
    BodyAt(JsonValue),
}

/// A helper that has steps or none, and offers a value or none.
pub struct ScriptedHelper {
    pub alloc: Global,
    pub steps: Option<Vec<ScriptedStep>>,
    pub offer: HelperValue,
}

impl Drop for ScriptedHelper {
    fn drop(self) {
        let ScriptedHelper {
            alloc: _,
            steps: _,
            offer: _,
        } = self;
    }
}

impl HelperDef for ScriptedHelper {
    ghost has_steps = { λ h q a. a ≡ gives (steps_said q.view h.steps) };

    ghost has_offer = { λ h q a. a ≡ gives (offer_of h.offer) };

    fn call_inner(
        &self,
        _h: &Helper,
        _data: &Context,
        _changed: Option<&Context>,
        _strict: bool,
    ) -> Result<HelperValue, RenderError> {
        Ok(offered(&self.offer)?)
    }

    fn call(
        &self,
        h: &Helper,
        _data: &Context,
        _changed: Option<&Context>,
        _strict: bool,
    ) -> HelperResult {
        match &self.steps {
            Some(steps) => Ok(Some(taken(self.alloc, h, steps)?)),
            None => Ok(None),
        }
    }

    ghost one_steps = { λ h q a b i j. ∣ i ∙ sym j ∣₁ };

    ghost one_offer = { λ h q a b i j. ∣ i ∙ sym j ∣₁ };
}

fn offered(offer: &HelperValue) -> Result<HelperValue, AllocError>
    ensures { IfOk result (λ copy. offer_of copy ≡ offer_of offer.now) }
{
    match offer {
        HelperValue::NotOffered => Ok(HelperValue::NotOffered),
        HelperValue::Missing => Ok(HelperValue::Missing),
        HelperValue::Value(value) => Ok(HelperValue::Value(value.clone()?)),
    }
}

fn taken(
    alloc: Global,
    h: &Helper,
    steps: &Vec<ScriptedStep>,
) -> Result<Vec<HelperStep>, AllocError>
    ensures { IfOk result (λ taken. map step_of taken.items ≡ map (step_said (helper_view h.now)) steps.now.items) }
{
    let mut taken = Vec::new(alloc);
    'steps: for step in steps {
        taken.push(step_taken(alloc, h, step)?)?;
    }
    Ok(taken)
}

fn step_taken(alloc: Global, h: &Helper, step: &ScriptedStep) -> Result<HelperStep, AllocError>
    ensures { IfOk result (λ taken. step_of taken ≡ step_said (helper_view h.now) step.now) }
{
    match step {
        ScriptedStep::Write(text) => Ok(HelperStep::Write(text.clone()?)),
        ScriptedStep::Param(index) => Ok(HelperStep::Write(shown(alloc, h, *index)?)),
        ScriptedStep::Body => Ok(HelperStep::Body),
        ScriptedStep::Inverse => Ok(HelperStep::Inverse),
        ScriptedStep::BodyAt(value) => body_at(alloc, value),
    }
}

fn body_at(alloc: Global, value: &JsonValue) -> Result<HelperStep, AllocError>
    ensures { IfOk result (λ taken. step_of taken ≡ renders_body_in (record empty_frame { base_value = Some (view value.now) })) }
{
    let mut block = BlockContext::new(alloc);
    block.set_base_value(value.clone()?);
    Ok(HelperStep::BodyIn(block))
}

/// An action of a decorator.
#[derive(Drop)]
pub enum ScriptedAction {
    SetContext(Context),
    /// Binds a name to a registered helper. The first value of the tag comes before the parameters of its calls.
    Bind { local: String, registered: String },
    Unbind(String),
    SetPartial(String),
}

/// A decorator that does its actions in order.
pub struct ScriptedDecorator {
    pub alloc: Global,
    pub actions: Vec<ScriptedAction>,
}

impl Drop for ScriptedDecorator {
    fn drop(self) {
        let ScriptedDecorator {
            alloc: _,
            actions: _,
        } = self;
    }
}

impl DecoratorDef for ScriptedDecorator {
    ghost has_actions = { λ d q a. a ≡ gives (map (action_said q.view.call) d.actions.items) };

    fn call(
        &self,
        d: &Decorator,
        _data: &Context,
        _changed: Option<&Context>,
        _strict: bool,
    ) -> DecoratorResult {
        Ok(done(self.alloc, d, &self.actions)?)
    }

    ghost one_actions = { λ d q a b i j. ∣ i ∙ sym j ∣₁ };
}

fn done(
    alloc: Global,
    d: &Decorator,
    actions: &Vec<ScriptedAction>,
) -> Result<Vec<DecoratorStep>, AllocError>
    ensures { IfOk result (λ done. map action_of done.items ≡ map (action_said (tag_view d.now).call) actions.now.items) }
{
    let mut done = Vec::new(alloc);
    'actions: for action in actions {
        done.push(action_done(alloc, d, action)?)?;
    }
    Ok(done)
}

fn action_done(
    alloc: Global,
    d: &Decorator,
    action: &ScriptedAction,
) -> Result<DecoratorStep, AllocError>
    ensures { IfOk result (λ done. action_of done ≡ action_said (tag_view d.now).call action.now) }
{
    match action {
        ScriptedAction::SetContext(data) => Ok(DecoratorStep::SetContext(data.clone(alloc)?)),
        ScriptedAction::Bind { local, registered } => bind(alloc, d, local, registered),
        ScriptedAction::Unbind(local) => Ok(DecoratorStep::UnbindHelper(local.clone()?)),
        ScriptedAction::SetPartial(name) => Ok(DecoratorStep::SetLocalPartial(name.clone()?)),
    }
}

fn bind(
    alloc: Global,
    d: &Decorator,
    local: &String,
    registered: &String,
) -> Result<DecoratorStep, AllocError>
    ensures { IfOk result (λ done. action_of done ≡ binds (string_bytes local.now)
        (record { registered = string_bytes registered.now; constants = first_values (tag_view d.now).call })) }
{
    let constants = first_values(alloc, d)?;
    let local = local.clone()?;
    let registered = registered.clone()?;
    Ok(DecoratorStep::BindHelper {
        local,
        registered,
        constants,
    })
}

// A copy of the first value of a tag, if it has one.
fn first_values(alloc: Global, d: &Decorator) -> Result<Vec<JsonValue>, AllocError>
    ensures { IfOk result (λ values. map view values.items ≡ first_values (tag_view d.now).call) }
{
    match d.param(0) {
        Some(param) => Ok(vec![in alloc; param.value().clone()?]?),
        None => Ok(Vec::new(alloc)),
    }
}
