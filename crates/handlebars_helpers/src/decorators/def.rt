//! User-defined decorators.

ghost use Rattle.std.specs.Prelude.{List};
ghost use Rattle.handlebars_base.specs.Answers.{Answer};
ghost use Rattle.handlebars_helpers.specs.Decoration.{Action};
ghost use Rattle.handlebars_helpers.specs.DecoratorsView.{actions_view, decorator_question_of};
ghost use Rattle.handlebars_helpers.specs.UserHelper.{HasOne};
ghost use Rattle.handlebars_helpers.specs.UserDecorator.{DecoratorQuestion};
ghost use Rattle.handlebars_helpers.specs.UserView.{IsOneOf};

use crate::decorators::DecoratorResult;
use crate::decorators::view::Decorator;
use handlebars_scope::context::Context;

/// A user-defined decorator.
pub trait DecoratorDef: Drop {
    // The answers that the decorator has for a tag.
    ghost has_actions: { Self → DecoratorQuestion → Answer (List Action) → Type 0 };

    /// Returns the actions of the decorator for a tag with this view. `data` is the given data, and `changed`
    /// the data that replaced it, if it was changed.
    fn call(
        &self,
        d: &Decorator,
        data: &Context,
        changed: Option<&Context>,
        strict: bool,
    ) -> DecoratorResult
        ensures { IsOneOf (has_actions self.now (decorator_question_of d.now «data».now changed.entry strict)) actions_view result };

    // The decorator has at most one answer to each question.
    ghost one_actions: { (d : Self) (q : DecoratorQuestion) → HasOne (has_actions d q) };
}
