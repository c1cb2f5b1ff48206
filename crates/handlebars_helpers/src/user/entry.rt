//! What is registered under the names of helpers.

ghost use Rattle.std.specs.Prelude.{List, Option};
ghost use Rattle.handlebars_base.specs.Answers.{Answer};
ghost use Rattle.handlebars_helpers.specs.UserHelper.{HelperQuestion, HasOne, Offer, Step};
ghost use Rattle.handlebars_helpers.specs.UserView.{IsOneOf, helper_question_of, offer_of, steps_of};

use crate::built_in::BuiltIn;
use crate::user::def::HelperDef;
use crate::user::function::FnHelper;
use crate::user::{HelperResult, HelperValue};
use crate::view::Helper;
use handlebars_base::error::RenderError;
use handlebars_scope::context::Context;

/// What is registered under a helper's name. User-defined helpers are stored as `B`, and functions that are
/// helpers as `F`.
#[derive(Drop)]
pub enum HelperEntryOf<B, F> {
    Built(BuiltIn),
    /// A user-defined helper.
    Own(B),
    /// A function that is a helper.
    Function(F),
    /// A user-defined helper that is asked for its value alone. Its `call` is never called, so it writes nothing else.
    Value(B),
    /// The helper that returns its first parameter if that is an address that runs no script, and otherwise `#`.
    SafeUrl,
}

/// What is registered under a helper's name.
pub type HelperEntry = HelperEntryOf<Box<dyn HelperDef>, FnHelper>;

/// A user-defined helper, as it is stored under a name and called by it.
pub trait HelperPart: Drop {
    ghost has_steps: { Self → HelperQuestion → Answer (Option (List Step)) → Type 0 };

    ghost has_offer: { Self → HelperQuestion → Answer Offer → Type 0 };

    /// Returns what the helper answers when it is called with the view of the call, the given data, the data
    /// that replaced it if it was changed, and whether the mode is strict.
    fn steps(
        &self,
        h: &Helper,
        given: &Context,
        changed: Option<&Context>,
        strict: bool,
    ) -> HelperResult
        ensures { IsOneOf (has_steps self.now (helper_question_of h.now given.now changed.entry strict)) steps_of result };

    /// Returns what the helper offers as its value.
    fn offer(
        &self,
        h: &Helper,
        given: &Context,
        changed: Option<&Context>,
        strict: bool,
    ) -> Result<HelperValue, RenderError>
        ensures { IsOneOf (has_offer self.now (helper_question_of h.now given.now changed.entry strict)) offer_of result };

    /// Guarantees that no helper stored so has two answers to one question.
    fn satisfies_law(_registered: &Option<Self>)
        ensures steps { (h : Self) (q : HelperQuestion) → HasOne (has_steps h q) }
        ensures offer { (h : Self) (q : HelperQuestion) → HasOne (has_offer h q) };
}

impl HelperPart for Box<dyn HelperDef> {
    ghost has_steps = { λ b. (HelperDef-box b).has_steps b.value };

    ghost has_offer = { λ b. (HelperDef-box b).has_offer b.value };

    fn steps(
        &self,
        h: &Helper,
        given: &Context,
        changed: Option<&Context>,
        strict: bool,
    ) -> HelperResult {
        self.call(h, given, changed, strict)
    }

    fn offer(
        &self,
        h: &Helper,
        given: &Context,
        changed: Option<&Context>,
        strict: bool,
    ) -> Result<HelperValue, RenderError> {
        self.call_inner(h, given, changed, strict)
    }

    fn satisfies_law(_registered: &Option<Box<dyn HelperDef>>) {}
}
