//! User-defined parts that fail with an I/O error.

ghost use Rattle.std.specs.Prelude.{◌≡◌};
ghost use Rattle.std.proofs.Common.{sym, ◌∙◌};
ghost use Rattle.handlebars_base.specs.Answers.{fails_for};
ghost use Rattle.handlebars_base.specs.Reasons.{io_error};
ghost use Rattle.handlebars_base.specs.RenderRefusals.{plain_refusal, refusal_of};

use handlebars_base::error::RenderError;
use handlebars_helpers::decorators::DecoratorResult;
use handlebars_helpers::decorators::def::DecoratorDef;
use handlebars_helpers::decorators::view::Decorator;
use handlebars_helpers::escape::def::EscapeFn;
use handlebars_helpers::user::def::HelperDef;
use handlebars_helpers::user::{HelperResult, HelperValue};
use handlebars_helpers::view::Helper;
use handlebars_scope::context::Context;
use std::io;
use std::io::ErrorKind;

/// Fails whatever it is asked, with an error of this kind.
#[derive(Drop)]
pub struct Failing {
    pub kind: ErrorKind,
}

impl Failing {
    fn refusal(&self) -> RenderError
        ensures { refusal_of result ≡ plain_refusal (io_error self.now.kind) }
    {
        RenderError::from(io::Error::from(self.kind))
    }
}

impl HelperDef for Failing {
    ghost has_steps = { λ h q a. a ≡ fails_for (io_error h.kind) };

    ghost has_offer = { λ h q a. a ≡ fails_for (io_error h.kind) };

    fn call_inner(
        &self,
        _h: &Helper,
        _data: &Context,
        _changed: Option<&Context>,
        _strict: bool,
    ) -> Result<HelperValue, RenderError> {
        Err(self.refusal())
    }

    fn call(
        &self,
        _h: &Helper,
        _data: &Context,
        _changed: Option<&Context>,
        _strict: bool,
    ) -> HelperResult {
        Err(self.refusal())
    }

    ghost one_steps = { λ h q a b i j. ∣ i ∙ sym j ∣₁ };

    ghost one_offer = { λ h q a b i j. ∣ i ∙ sym j ∣₁ };
}

impl DecoratorDef for Failing {
    ghost has_actions = { λ d q a. a ≡ fails_for (io_error d.kind) };

    fn call(
        &self,
        _d: &Decorator,
        _data: &Context,
        _changed: Option<&Context>,
        _strict: bool,
    ) -> DecoratorResult {
        Err(self.refusal())
    }

    ghost one_actions = { λ d q a b i j. ∣ i ∙ sym j ∣₁ };
}

impl EscapeFn for Failing {
    ghost has_escaped = { λ e t a. a ≡ fails_for (io_error e.kind) };

    fn escape(&self, _text: &str) -> Result<String, RenderError> {
        Err(self.refusal())
    }

    ghost one_escaped = { λ e t a b i j. ∣ i ∙ sym j ∣₁ };
}
