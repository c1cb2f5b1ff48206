//! User-defined helpers. The contract of each states what it answers, and that the answer is unique.

ghost use Rattle.std.specs.Prelude.{◌≡◌, ◌++◌, ◌∷◌, [], IfOk, OnOk, Some, string_bytes};
ghost use Rattle.std.proofs.Common.{sym, ◌∙◌};
ghost use Rattle.serde_json.specs.View.{view};
ghost use Rattle.handlebars_base.specs.Answers.{gives};
ghost use Rattle.handlebars_helpers.specs.UserHelper.{not_offered, offers_missing};
ghost use Rattle.handlebars_helpers.specs.UserHelper.{renders_body, renders_body_in, renders_inverse, writes};
ghost use Rattle.handlebars_helpers.specs.View.{helper_view};
ghost use Rattle.handlebars_scope.specs.ScopeView.{frame_of};
ghost use Rattle.handlebars_scope.specs.Scopes.{empty_frame};
ghost use Rattle.test_parts.specs.Parts.{distance, shown_at};

use handlebars_base::error::RenderError;
use handlebars_helpers::user::def::HelperDef;
use handlebars_helpers::user::{HelperResult, HelperStep, HelperValue};
use handlebars_helpers::view::Helper;
use handlebars_scope::block::BlockContext;
use handlebars_scope::context::Context;
use serde_json::Value as JsonValue;
use std::alloc::{AllocError, Global};

/// Renders its body twice.
#[derive(Drop)]
pub struct Twice {
    pub alloc: Global,
}

impl HelperDef for Twice {
    ghost has_steps = { λ h q a. a ≡ gives (Some (renders_body ∷ renders_body ∷ [])) };

    ghost has_offer = { λ h q a. a ≡ gives offers_missing };

    fn call_inner(
        &self,
        _h: &Helper,
        _data: &Context,
        _changed: Option<&Context>,
        _strict: bool,
    ) -> Result<HelperValue, RenderError> {
        Ok(HelperValue::Missing)
    }

    fn call(
        &self,
        _h: &Helper,
        _data: &Context,
        _changed: Option<&Context>,
        _strict: bool,
    ) -> HelperResult {
        Ok(Some(vec![in self.alloc; HelperStep::Body, HelperStep::Body]?))
    }

    ghost one_steps = { λ h q a b i j. ∣ i ∙ sym j ∣₁ };

    ghost one_offer = { λ h q a b i j. ∣ i ∙ sym j ∣₁ };
}

/// Writes a text, and renders its inverse, its body, and its body in a scope frame whose base is a value.
#[derive(Drop)]
pub struct Stepping {
    pub alloc: Global,
    pub text: String,
    pub value: JsonValue,
}

impl Stepping {
    // A scope frame whose base is the value.
    fn block(&self) -> Result<BlockContext, AllocError>
        ensures { IfOk result (λ b. frame_of b ≡ record empty_frame { base_value = Some (view self.now.value) }) }
    {
        let mut block = BlockContext::new(self.alloc);
        block.set_base_value(self.value.clone()?);
        Ok(block)
    }
}

impl HelperDef for Stepping {
    ghost has_steps = { λ h q a. a ≡ gives (Some (writes (string_bytes h.text) ∷ renders_inverse ∷ renders_body
        ∷ renders_body_in (record empty_frame { base_value = Some (view h.value) }) ∷ [])) };

    ghost has_offer = { λ h q a. a ≡ gives not_offered };

    fn call_inner(
        &self,
        _h: &Helper,
        _data: &Context,
        _changed: Option<&Context>,
        _strict: bool,
    ) -> Result<HelperValue, RenderError> {
        Ok(HelperValue::NotOffered)
    }

    fn call(
        &self,
        _h: &Helper,
        _data: &Context,
        _changed: Option<&Context>,
        _strict: bool,
    ) -> HelperResult {
        let text = self.text.clone()?;
        let block = self.block()?;
        Ok(Some(vec![in self.alloc;
            HelperStep::Write(text),
            HelperStep::Inverse,
            HelperStep::Body,
            HelperStep::BodyIn(block),
        ]?))
    }

    ghost one_steps = { λ h q a b i j. ∣ i ∙ sym j ∣₁ };

    ghost one_offer = { λ h q a b i j. ∣ i ∙ sym j ∣₁ };
}

/// Writes a number of metres, or of the unit that precedes it.
#[derive(Drop)]
pub struct Distance {
    pub alloc: Global,
}

impl HelperDef for Distance {
    ghost has_steps = { λ h q a. a ≡ gives (Some (writes (distance q.view) ∷ [])) };

    ghost has_offer = { λ h q a. a ≡ gives not_offered };

    fn call_inner(
        &self,
        _h: &Helper,
        _data: &Context,
        _changed: Option<&Context>,
        _strict: bool,
    ) -> Result<HelperValue, RenderError> {
        Ok(HelperValue::NotOffered)
    }

    fn call(
        &self,
        h: &Helper,
        _data: &Context,
        _changed: Option<&Context>,
        _strict: bool,
    ) -> HelperResult {
        let text = distance_said(self.alloc, h)?;
        Ok(Some(vec![in self.alloc; HelperStep::Write(text)]?))
    }

    ghost one_steps = { λ h q a b i j. ∣ i ∙ sym j ∣₁ };

    ghost one_offer = { λ h q a b i j. ∣ i ∙ sym j ∣₁ };
}

// The text of a distance.
fn distance_said(alloc: Global, h: &Helper) -> Result<String, AllocError>
    ensures { IfOk result (λ text. string_bytes text ≡ distance (helper_view h.now)) }
{
    if h.param(1).is_some() {
        let mut text = shown(alloc, h, 1)?;
        push_shown(&mut text, alloc, h, 0)?;
        Ok(text)
    } else {
        let mut text = shown(alloc, h, 0)?;
        text.push_str("m")?;
        Ok(text)
    }
}

/// Returns the text of a parameter, or the empty text if there is no such parameter.
pub fn shown(alloc: Global, h: &Helper, index: usize) -> Result<String, AllocError>
    ensures { IfOk result (λ text. string_bytes text ≡ shown_at index (helper_view h.now)) }
{
    match h.param(index) {
        Some(param) => param.render(alloc),
        None => Ok(String::new(alloc)),
    }
}

/// Appends the text of a parameter. Appends nothing if there is no such parameter.
pub fn push_shown(
    text: &mut String,
    alloc: Global,
    h: &Helper,
    index: usize,
) -> Result<(), AllocError>
    ensures { OnOk result (string_bytes text.new ≡ string_bytes text.old ++ shown_at index (helper_view h.now)) }
{
    let shown = shown(alloc, h, index)?;
    text.push_str(shown.as_str())
}
