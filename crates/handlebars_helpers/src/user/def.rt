//! User-defined helpers.

ghost use Rattle.std.specs.Prelude.{List, Option};
ghost use Rattle.handlebars_base.specs.Answers.{Answer};
ghost use Rattle.handlebars_helpers.specs.UserHelper.{HelperQuestion, HasOne, Offer, Step};
ghost use Rattle.handlebars_helpers.specs.UserView.{IsOneOf, helper_question_of, offer_of, steps_of};

use crate::user::{HelperResult, HelperValue};
use crate::view::Helper;
use handlebars_base::error::RenderError;
use handlebars_scope::context::Context;

/// A user-defined helper.
pub trait HelperDef: Drop {
    // The answers that the helper has when it is called, and when it is asked for a value.
    ghost has_steps: { Self → HelperQuestion → Answer (Option (List Step)) → Type 0 };

    ghost has_offer: { Self → HelperQuestion → Answer Offer → Type 0 };

    /// Returns what the helper offers as its value, for a call with this view. `data` is the given data, and
    /// `changed` the data that replaced it, if it was changed. The helper is asked for a value where one is
    /// expected, and if `call` returns no steps.
    fn call_inner(
        &self,
        h: &Helper,
        data: &Context,
        changed: Option<&Context>,
        strict: bool,
    ) -> Result<HelperValue, RenderError>
        ensures { IsOneOf (has_offer self.now (helper_question_of h.now «data».now changed.entry strict)) offer_of result };

    /// Returns what the helper does where something is written: its steps, or `None`, and then it is asked for
    /// a value. In parentheses it is called if it offers no value, and its steps make a text.
    fn call(
        &self,
        h: &Helper,
        data: &Context,
        changed: Option<&Context>,
        strict: bool,
    ) -> HelperResult
        ensures { IsOneOf (has_steps self.now (helper_question_of h.now «data».now changed.entry strict)) steps_of result };

    // The helper has at most one answer to each question.
    ghost one_steps: { (h : Self) (q : HelperQuestion) → HasOne (has_steps h q) };

    ghost one_offer: { (h : Self) (q : HelperQuestion) → HasOne (has_offer h q) };
}
