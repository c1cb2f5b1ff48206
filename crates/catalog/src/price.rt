//! The helper `price`.

ghost use Rattle.std.specs.Prelude.{◌≡◌, IfOk, None, string_bytes};
ghost use Rattle.std.proofs.Common.{sym, ◌∙◌};
ghost use Rattle.handlebars_base.specs.Answers.{gives};
ghost use Rattle.handlebars_helpers.specs.View.{helper_view};
ghost use Rattle.catalog.specs.Price.{amount, euros, price_offered};

use handlebars::{
    Context, Helper, HelperDef, HelperResult, HelperValue, JsonValue, RenderError,
    RenderErrorReason,
};
use std::alloc::{AllocError, Global};

/// `{{price cents}}`: an amount of cents, in euros. It returns a value, which is escaped where it is written, and can be passed
/// on as `(price cents)`. Fails unless the amount is a whole number from 0.
#[derive(Drop)]
pub struct Price {
    pub alloc: Global,
}

impl HelperDef for Price {
    // It has no steps, so it is asked for a value.
    ghost has_steps = { λ h q a. a ≡ gives None };

    ghost has_offer = { λ h q a. a ≡ price_offered q.view };

    fn call(
        &self,
        _h: &Helper,
        _data: &Context,
        _changed: Option<&Context>,
        _strict: bool,
    ) -> HelperResult {
        Ok(None)
    }

    fn call_inner(
        &self,
        h: &Helper,
        _data: &Context,
        _changed: Option<&Context>,
        _strict: bool,
    ) -> Result<HelperValue, RenderError> {
        match amount(h) {
            Some(cents) => Ok(HelperValue::Value(JsonValue::String(euros(self.alloc, cents)?))),
            None => Err(RenderErrorReason::InvalidParamType("cents").into()),
        }
    }

    ghost one_steps = { λ h q a b i j. ∣ i ∙ sym j ∣₁ };

    ghost one_offer = { λ h q a b i j. ∣ i ∙ sym j ∣₁ };
}

// The first parameter of a call, if it is a whole number from 0.
fn amount(h: &Helper) -> Option<u64>
    ensures { result ≡ amount (helper_view h.now) }
{
    match h.param(0) {
        Some(param) => match param.value() {
            JsonValue::Number(number) => number.as_u64(),
            _ => None,
        },
        None => None,
    }
}

fn euros(alloc: Global, cents: u64) -> Result<String, AllocError>
    ensures { IfOk result (λ text. string_bytes text ≡ euros cents) }
{
    let mut text = (cents / 100).to_string(alloc)?;
    text.push_str(".")?;
    text.push_str((cents / 10 % 10).to_string(alloc)?.as_str())?;
    text.push_str((cents % 10).to_string(alloc)?.as_str())?;
    text.push_str(" EUR")?;
    Ok(text)
}
