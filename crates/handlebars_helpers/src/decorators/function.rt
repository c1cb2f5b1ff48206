//! Functions as decorators.

ghost use Rattle.std.specs.Prelude.{◌≡◌};
ghost use Rattle.handlebars_helpers.specs.DecoratorsView.{actions_view, decorator_question_of};
ghost use Rattle.handlebars_helpers.specs.Functions.{AnswersAt, AnswersOnceAt, AnswersOnceAt_prop};

use crate::decorators::entry::DecoratorPart;
use crate::decorators::view::Decorator;
use crate::decorators::{DecoratorResult, DecoratorStep};
use crate::fn_error::FnError;
use handlebars_scope::context::Context;

/// What a function returns in place of `DecoratorDef::call`.
pub type FnActions = Result<Vec<DecoratorStep>, FnError>;

/// A function in place of `DecoratorDef::call`.
pub type DecoratorFn = Box<dyn Fn(&Decorator, &Context, &Option<&Context>, bool) -> FnActions>;

/// A user-defined decorator that is a function.
#[derive(Drop)]
pub struct FnDecorator {
    f: DecoratorFn,
    ghost callable: { IsAlwaysCallable f },
    ghost once: { AnswersOnceAt decorator_question_of actions_view (post f) } by { AnswersOnceAt_prop _ _ _ },
}

impl FnDecorator {
    /// Creates the decorator of a function. Requires that the function can always be called, and that it has at
    /// most one answer to each question: to two calls that ask the same it answers the same, unless memory runs
    /// out.
    pub fn new(f: DecoratorFn) -> FnDecorator
        requires callable { IsAlwaysCallable f }
        requires once { AnswersOnceAt decorator_question_of actions_view (post f) }
        ensures { result.f ≡ f }
    {
        FnDecorator { f }
    }
}

/// A function answers what it returns.
impl DecoratorPart for FnDecorator {
    ghost has_actions = { λ d. AnswersAt decorator_question_of actions_view (DecoratorFn.post d.f) };

    fn actions(
        &self,
        d: &Decorator,
        given: &Context,
        changed: Option<&Context>,
        strict: bool,
    ) -> DecoratorResult {
        match ask(&self.f, d, given, &changed, strict) {
            Ok(actions) => Ok(actions),
            Err(refusal) => Err(refusal.into()),
        }
    }

    fn satisfies_law(_registered: &Option<FnDecorator>) {}
}

fn ask(
    f: &DecoratorFn,
    d: &Decorator,
    given: &Context,
    changed: &Option<&Context>,
    strict: bool,
) -> FnActions
    requires { IsAlwaysCallable f.now }
    ensures { post f.now d.entry given.entry changed.entry strict result }
{
    f(d, given, changed, strict)
}
