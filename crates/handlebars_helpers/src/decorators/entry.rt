//! What is registered under the names of decorators.

ghost use Rattle.std.specs.Prelude.{List};
ghost use Rattle.handlebars_base.specs.Answers.{Answer};
ghost use Rattle.handlebars_helpers.specs.Decoration.{Action};
ghost use Rattle.handlebars_helpers.specs.DecoratorsView.{actions_view, decorator_question_of};
ghost use Rattle.handlebars_helpers.specs.UserHelper.{HasOne};
ghost use Rattle.handlebars_helpers.specs.UserDecorator.{DecoratorQuestion};
ghost use Rattle.handlebars_helpers.specs.UserView.{IsOneOf};

use crate::decorators::DecoratorResult;
use crate::decorators::def::DecoratorDef;
use crate::decorators::function::FnDecorator;
use crate::decorators::view::Decorator;
use handlebars_scope::context::Context;

/// What is registered under a decorator's name. User-defined decorators are stored as `D`, and functions that
/// are decorators as `G`.
#[derive(Drop)]
pub enum DecoratorEntryOf<D, G> {
    /// Makes its body a partial of the nearest scope frame, under the name that its first parameter gives.
    Inline,
    /// A user-defined decorator.
    Own(D),
    /// A function that is a decorator.
    Function(G),
}

/// What is registered under a decorator's name.
pub type DecoratorEntry = DecoratorEntryOf<Box<dyn DecoratorDef>, FnDecorator>;

/// A user-defined decorator, as it is stored under a name and called by it.
pub trait DecoratorPart: Drop {
    ghost has_actions: { Self → DecoratorQuestion → Answer (List Action) → Type 0 };

    /// Returns what the decorator answers for a tag.
    fn actions(
        &self,
        d: &Decorator,
        given: &Context,
        changed: Option<&Context>,
        strict: bool,
    ) -> DecoratorResult
        ensures { IsOneOf (has_actions self.now (decorator_question_of d.now given.now changed.entry strict)) actions_view result };

    /// Guarantees that no decorator stored so has two answers to one question.
    fn satisfies_law(_registered: &Option<Self>)
        ensures { (d : Self) (q : DecoratorQuestion) → HasOne (has_actions d q) };
}

impl DecoratorPart for Box<dyn DecoratorDef> {
    ghost has_actions = { λ b. (DecoratorDef-box b).has_actions b.value };

    fn actions(
        &self,
        d: &Decorator,
        given: &Context,
        changed: Option<&Context>,
        strict: bool,
    ) -> DecoratorResult {
        self.call(d, given, changed, strict)
    }

    fn satisfies_law(_registered: &Option<Box<dyn DecoratorDef>>) {}
}
