//! A user-defined escape function.

ghost use Rattle.std.specs.Prelude.{◌≡◌, ◌++◌};
ghost use Rattle.std.proofs.Common.{sym, ◌∙◌};
ghost use Rattle.handlebars_base.specs.Answers.{gives};

use handlebars_base::error::RenderError;
use handlebars_helpers::escape::def::EscapeFn;
use std::alloc::Global;

/// Writes each text twice.
#[derive(Drop)]
pub struct Doubled {
    pub alloc: Global,
}

impl EscapeFn for Doubled {
    ghost has_escaped = { λ e t a. a ≡ gives (t ++ t) };

    fn escape(&self, text: &str) -> Result<String, RenderError> {
        let mut doubled = String::from_str(self.alloc, text)?;
        doubled.push_str(text)?;
        Ok(doubled)
    }

    ghost one_escaped = { λ e t a b i j. ∣ i ∙ sym j ∣₁ };
}
