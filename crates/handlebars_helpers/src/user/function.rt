//! Functions as helpers.

ghost use Rattle.std.specs.Prelude.{◌≡◌};
ghost use Rattle.handlebars_base.specs.Answers.{gives};
ghost use Rattle.handlebars_helpers.specs.Functions.{AnswersAt, AnswersOnceAt, AnswersOnceAt_prop};
ghost use Rattle.handlebars_helpers.specs.UserHelper.{not_offered};
ghost use Rattle.handlebars_helpers.specs.UserView.{helper_question_of, steps_of};

use crate::fn_error::FnError;
use crate::user::entry::HelperPart;
use crate::user::{HelperResult, HelperStep, HelperValue};
use crate::view::Helper;
use handlebars_base::error::RenderError;
use handlebars_scope::context::Context;

/// What a function returns in place of `HelperDef::call`.
pub type FnSteps = Result<Option<Vec<HelperStep>>, FnError>;

/// A function in place of `HelperDef::call`.
pub type HelperFn = Box<dyn Fn(&Helper, &Context, &Option<&Context>, bool) -> FnSteps>;

/// A user-defined helper that is a function. It offers no value.
#[derive(Drop)]
pub struct FnHelper {
    f: HelperFn,
    ghost callable: { IsAlwaysCallable f },
    ghost once: { AnswersOnceAt helper_question_of steps_of (post f) } by { AnswersOnceAt_prop _ _ _ },
}

impl FnHelper {
    /// Creates the helper of a function. Requires that the function can always be called, and that it has at
    /// most one answer to each question: to two calls that ask the same it answers the same, unless memory runs
    /// out.
    pub fn new(f: HelperFn) -> FnHelper
        requires callable { IsAlwaysCallable f }
        requires once { AnswersOnceAt helper_question_of steps_of (post f) }
        ensures { result.f ≡ f }
    {
        FnHelper { f }
    }
}

/// A function offers no value, and answers what it returns.
impl HelperPart for FnHelper {
    ghost has_steps = { λ h. AnswersAt helper_question_of steps_of (HelperFn.post h.f) };

    ghost has_offer = { λ h q a. a ≡ gives not_offered };

    fn steps(
        &self,
        h: &Helper,
        given: &Context,
        changed: Option<&Context>,
        strict: bool,
    ) -> HelperResult {
        match ask(&self.f, h, given, &changed, strict) {
            Ok(steps) => Ok(steps),
            Err(refusal) => Err(refusal.into()),
        }
    }

    fn offer(
        &self,
        _h: &Helper,
        _given: &Context,
        _changed: Option<&Context>,
        _strict: bool,
    ) -> Result<HelperValue, RenderError> {
        Ok(HelperValue::NotOffered)
    }

    fn satisfies_law(_registered: &Option<FnHelper>) {}
}

fn ask(
    f: &HelperFn,
    h: &Helper,
    given: &Context,
    changed: &Option<&Context>,
    strict: bool,
) -> FnSteps
    requires { IsAlwaysCallable f.now }
    ensures { post f.now h.entry given.entry changed.entry strict result }
{
    f(h, given, changed, strict)
}
