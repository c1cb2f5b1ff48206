//! User-defined decorators.

ghost use Rattle.std.specs.Prelude.{◌≡◌, ◌∷◌, []};
ghost use Rattle.std.proofs.Common.{sym, ◌∙◌};
ghost use Rattle.handlebars_base.specs.Answers.{gives};
ghost use Rattle.handlebars_helpers.specs.Decoration.{sets_data};
ghost use Rattle.handlebars_scope.specs.Contexts.{data_of};

use handlebars_helpers::decorators::def::DecoratorDef;
use handlebars_helpers::decorators::view::Decorator;
use handlebars_helpers::decorators::{DecoratorResult, DecoratorStep};
use handlebars_scope::context::Context;
use std::alloc::Global;

/// Replaces the data.
#[derive(Drop)]
pub struct SettingData {
    pub alloc: Global,
    pub data: Context,
}

impl DecoratorDef for SettingData {
    ghost has_actions = { λ d q a. a ≡ gives (sets_data (data_of d.«data») ∷ []) };

    fn call(
        &self,
        _d: &Decorator,
        _data: &Context,
        _changed: Option<&Context>,
        _strict: bool,
    ) -> DecoratorResult {
        let data = self.data.clone(self.alloc)?;
        Ok(vec![in self.alloc; DecoratorStep::SetContext(data)]?)
    }

    ghost one_actions = { λ d q a b i j. ∣ i ∙ sym j ∣₁ };
}
