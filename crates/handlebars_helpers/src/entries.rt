//! What is registered under names, and the calls to it.

ghost use Rattle.std.specs.BTreeSet.{contains_text};
ghost use Rattle.std.specs.Bool.{OnTrue};
ghost use Rattle.std.specs.Prelude.{◌≡◌, IfOk, is_some, option_map, string_bytes};
ghost use Rattle.handlebars_base.specs.Answers.{IsRefusal};
ghost use Rattle.handlebars_base.specs.Bytes.{Text};
ghost use Rattle.handlebars_base.specs.Reasons.{decorator_not_found, helper_not_found};
ghost use Rattle.handlebars_base.specs.RenderRefusals.{plain_refusal};
ghost use Rattle.handlebars_helpers.specs.Callee.{first_callee};
ghost use Rattle.handlebars_helpers.specs.Decoration.{built_in_decorator};
ghost use Rattle.handlebars_helpers.specs.DecoratorsView.{decorator_called, actions_view, decorator_question_of};
ghost use Rattle.handlebars_helpers.specs.EntriesView.{user_answers, registered_in};
ghost use Rattle.handlebars_helpers.specs.EscapeView.{escaping_of};
ghost use Rattle.handlebars_helpers.specs.Escaping.{for_html};
ghost use Rattle.handlebars_helpers.specs.UserAnswers.{HaveOne, UserAnswers, Registrations};
ghost use Rattle.handlebars_helpers.specs.UserHelper.{GivesValues};
ghost use Rattle.handlebars_helpers.specs.SafeUrl.{GivesUrls};
ghost use Rattle.handlebars_helpers.specs.UserView.{IsOneOf, helper_question_of, callee_of, offer_of, steps_of};

use crate::by_name::ByName;
use crate::decorators::def::DecoratorDef;
use crate::decorators::entry::{DecoratorEntryOf, DecoratorPart};
use crate::decorators::function::FnDecorator;
use crate::decorators::view::Decorator;
use crate::decorators::{DecoratorKind, DecoratorResult};
use crate::escape::def::EscapeFn;
use crate::escape::{EscapeKindOf, EscapePart, Escaping};
use crate::first::{built_in_decorators, built_in_helpers};
use crate::safe_url::safe_url_offer;
use crate::user::def::HelperDef;
use crate::user::entry::{HelperEntryOf, HelperPart};
use crate::user::function::FnHelper;
use crate::user::{Callee, HelperResult, HelperValue};
use crate::view::Helper;
use handlebars_base::error::{RenderError, RenderErrorReason};
use handlebars_base::support::escape_html;
use handlebars_scope::context::Context;
use std::alloc::{AllocError, Global};
use std::collections::BTreeSet;

/// Entries of helpers and of decorators by name, and how values are escaped.
#[derive(Drop)]
pub struct Entries<B, F, D, G, X> {
    pub alloc: Global,
    pub helpers: ByName<HelperEntryOf<B, F>>,
    pub decorators: ByName<DecoratorEntryOf<D, G>>,
    pub escape: EscapeKindOf<X>,
}

/// Entries whose user-defined parts are boxed.
pub type BoxedEntries = Entries<
    Box<dyn HelperDef>,
    FnHelper,
    Box<dyn DecoratorDef>,
    FnDecorator,
    Box<dyn EscapeFn>,
>;

// The error for a name that no user-defined helper has.
fn no_helper(alloc: Global, name: &str) -> RenderError
    ensures { IsRefusal (plain_refusal (helper_not_found name.now)) result }
{
    match String::from_str(alloc, name) {
        Ok(name) => RenderErrorReason::HelperNotFound(name).into(),
        Err(AllocError) => RenderErrorReason::OutOfMemory.into(),
    }
}

// The error for a name that no user-defined decorator has.
fn no_decorator(alloc: Global, name: &str) -> RenderError
    ensures { IsRefusal (plain_refusal (decorator_not_found name.now)) result }
{
    match String::from_str(alloc, name) {
        Ok(name) => RenderErrorReason::DecoratorNotFound(name).into(),
        Err(AllocError) => RenderErrorReason::OutOfMemory.into(),
    }
}

/// What is registered, as a rendering calls it. The user-defined parts are called by their names.
pub trait UserParts: Drop {
    // What is registered under names, and the answers that the user-defined parts have.
    ghost registered: { Self → Registrations };

    ghost user: { Self → UserAnswers };

    /// Returns the built-in helpers and decorators, and nothing else. Values are escaped for html.
    ///
    /// # Errors
    ///
    /// Returns `AllocError` if memory runs out.
    fn first(alloc: Global) -> Result<Self, AllocError>
        ensures helpers { IfOk result (λ e. (name : Text) → (registered e).helper name ≡ first_callee name) }
        ensures decorators { IfOk result (λ e. (name : Text) → (registered e).decorator name ≡ built_in_decorator name) }
        ensures escape { IfOk result (λ e. (registered e).escape ≡ for_html) };

    /// Returns what is registered under a helper's name, if anything is.
    fn helper(&self, name: &str) -> Option<Callee>
        ensures { option_map (callee_of name.now) result ≡ (registered self.now).helper name.now };

    /// Returns the decorator under a name, if there is one.
    fn decorator(&self, name: &str) -> Option<DecoratorKind>
        ensures { option_map (decorator_called name.now) result ≡ (registered self.now).decorator name.now };

    /// Returns the names under which helpers are registered.
    ///
    /// # Errors
    ///
    /// Returns `AllocError` if memory runs out.
    fn helper_names(&self) -> Result<BTreeSet<String>, AllocError>
        ensures { IfOk result (λ names. (name : Text) → contains_text names name ≡ is_some ((registered self.now).helper name)) };

    /// Returns the names under which decorators are registered.
    ///
    /// # Errors
    ///
    /// Returns `AllocError` if memory runs out.
    fn decorator_names(&self) -> Result<BTreeSet<String>, AllocError>
        ensures { IfOk result (λ names. (name : Text) → contains_text names name ≡ is_some ((registered self.now).decorator name)) };

    /// Returns whether the user-defined helper under a name is known to give values alone.
    fn gives_values(&self, name: &str) -> bool
        ensures { OnTrue result (GivesValues ((user self.now).helper name.now)) };

    /// Returns whether the user-defined helper under a name is known to give values alone, each of which is written
    /// as an address that runs no script.
    fn gives_urls(&self, name: &str) -> bool
        ensures { OnTrue result (GivesUrls ((user self.now).helper name.now)) };

    /// Returns how values are escaped.
    fn escape(&self) -> Escaping
        ensures { escaping_of result ≡ (registered self.now).escape };

    /// Returns what the user-defined helper under a name answers when it is called with the view of the call,
    /// the given data, the data that replaced it if it was changed, and whether the mode is strict.
    ///
    /// # Errors
    ///
    /// Fails with `HelperNotFound` if no user-defined helper has the name, otherwise with the error that the
    /// helper answers.
    fn steps_of(
        &self,
        name: &str,
        h: &Helper,
        given: &Context,
        changed: Option<&Context>,
        strict: bool,
    ) -> HelperResult
        ensures { IsOneOf (((user self.now).helper name.now).has_steps (helper_question_of h.now given.now changed.entry strict)) steps_of result };

    /// Returns what the user-defined helper under a name offers when it is asked for a value.
    ///
    /// # Errors
    ///
    /// Fails with `HelperNotFound` if no user-defined helper has the name, otherwise with the error that the
    /// helper answers.
    fn offer_of(
        &self,
        name: &str,
        h: &Helper,
        given: &Context,
        changed: Option<&Context>,
        strict: bool,
    ) -> Result<HelperValue, RenderError>
        ensures { IsOneOf (((user self.now).helper name.now).has_offer (helper_question_of h.now given.now changed.entry strict)) offer_of result };

    /// Returns what the user-defined decorator under a name answers for a tag.
    ///
    /// # Errors
    ///
    /// Fails with `DecoratorNotFound` if no user-defined decorator has the name, otherwise with the error that
    /// the decorator answers.
    fn actions_of(
        &self,
        name: &str,
        d: &Decorator,
        given: &Context,
        changed: Option<&Context>,
        strict: bool,
    ) -> DecoratorResult
        ensures { IsOneOf ((user self.now).decorator name.now (decorator_question_of d.now given.now changed.entry strict)) actions_view result };

    /// Returns what is written in place of a text.
    fn escaped(&self, text: &str) -> Result<String, RenderError>
        ensures { IsOneOf ((user self.now).escape text.now) string_bytes result };

    /// Guarantees that no user-defined helper, decorator or escape function has two answers to one question.
    fn satisfies_law(&self)
        ensures { HaveOne (user self.now) };
}

impl<B: HelperPart, F: HelperPart, D: DecoratorPart, G: DecoratorPart, X: EscapePart> UserParts
    for Entries<B, F, D, G, X> {
    ghost registered = { registered_in };

    ghost user = { user_answers B.has_steps B.has_offer F.has_steps F.has_offer D.has_actions G.has_actions X.has_escaped };

    fn first(alloc: Global) -> Result<Entries<B, F, D, G, X>, AllocError> {
        Ok(Entries {
            alloc,
            helpers: built_in_helpers(alloc)?,
            decorators: built_in_decorators(alloc)?,
            escape: EscapeKindOf::Html,
        })
    }

    #[inline(always)]
    fn helper(&self, name: &str) -> Option<Callee> {
        match self.helpers.get(name) {
            Some(HelperEntryOf::Built(kind)) => Some(Callee::Built(*kind)),
            Some(HelperEntryOf::Own(_)) => Some(Callee::User),
            Some(HelperEntryOf::Function(_)) => Some(Callee::User),
            Some(HelperEntryOf::Value(_)) => Some(Callee::User),
            Some(HelperEntryOf::SafeUrl) => Some(Callee::User),
            None => None,
        }
    }

    fn decorator(&self, name: &str) -> Option<DecoratorKind> {
        match self.decorators.get(name) {
            Some(DecoratorEntryOf::Inline) => Some(DecoratorKind::Inline),
            Some(DecoratorEntryOf::Own(_)) => Some(DecoratorKind::User),
            Some(DecoratorEntryOf::Function(_)) => Some(DecoratorKind::User),
            None => None,
        }
    }

    fn helper_names(&self) -> Result<BTreeSet<String>, AllocError> {
        self.helpers.names(self.alloc)
    }

    fn decorator_names(&self) -> Result<BTreeSet<String>, AllocError> {
        self.decorators.names(self.alloc)
    }

    fn gives_values(&self, name: &str) -> bool {
        match self.helpers.get(name) {
            Some(HelperEntryOf::Value(_)) => true,
            Some(HelperEntryOf::SafeUrl) => true,
            Some(HelperEntryOf::Own(_)) => false,
            Some(HelperEntryOf::Function(_)) => false,
            Some(HelperEntryOf::Built(_)) => false,
            None => false,
        }
    }

    fn gives_urls(&self, name: &str) -> bool {
        match self.helpers.get(name) {
            Some(HelperEntryOf::SafeUrl) => true,
            Some(HelperEntryOf::Value(_)) => false,
            Some(HelperEntryOf::Own(_)) => false,
            Some(HelperEntryOf::Function(_)) => false,
            Some(HelperEntryOf::Built(_)) => false,
            None => false,
        }
    }

    fn escape(&self) -> Escaping {
        self.escape.escaping()
    }

    fn steps_of(
        &self,
        name: &str,
        h: &Helper,
        given: &Context,
        changed: Option<&Context>,
        strict: bool,
    ) -> HelperResult {
        match self.helpers.get(name) {
            Some(HelperEntryOf::Own(def)) => def.steps(h, given, changed, strict),
            Some(HelperEntryOf::Function(f)) => f.steps(h, given, changed, strict),
            Some(HelperEntryOf::Value(_)) => Ok(None),
            Some(HelperEntryOf::SafeUrl) => Ok(None),
            Some(HelperEntryOf::Built(_)) => Err(no_helper(self.alloc, name)),
            None => Err(no_helper(self.alloc, name)),
        }
    }

    fn offer_of(
        &self,
        name: &str,
        h: &Helper,
        given: &Context,
        changed: Option<&Context>,
        strict: bool,
    ) -> Result<HelperValue, RenderError> {
        match self.helpers.get(name) {
            Some(HelperEntryOf::Own(def)) => def.offer(h, given, changed, strict),
            Some(HelperEntryOf::Function(f)) => f.offer(h, given, changed, strict),
            Some(HelperEntryOf::Value(def)) => def.offer(h, given, changed, strict),
            Some(HelperEntryOf::SafeUrl) => safe_url_offer(self.alloc, h, strict),
            Some(HelperEntryOf::Built(_)) => Err(no_helper(self.alloc, name)),
            None => Err(no_helper(self.alloc, name)),
        }
    }

    fn actions_of(
        &self,
        name: &str,
        d: &Decorator,
        given: &Context,
        changed: Option<&Context>,
        strict: bool,
    ) -> DecoratorResult {
        match self.decorators.get(name) {
            Some(DecoratorEntryOf::Own(def)) => def.actions(d, given, changed, strict),
            Some(DecoratorEntryOf::Function(f)) => f.actions(d, given, changed, strict),
            Some(DecoratorEntryOf::Inline) => Err(no_decorator(self.alloc, name)),
            None => Err(no_decorator(self.alloc, name)),
        }
    }

    fn escaped(&self, text: &str) -> Result<String, RenderError> {
        match &self.escape {
            EscapeKindOf::Html => Ok(escape_html(self.alloc, text)?),
            EscapeKindOf::Plain => Ok(String::from_str(self.alloc, text)?),
            EscapeKindOf::Own(def) => def.escaped(text),
        }
    }

    fn satisfies_law(&self) {
        B::satisfies_law(&None);
        F::satisfies_law(&None);
        D::satisfies_law(&None);
        G::satisfies_law(&None);
        X::satisfies_law(&None);
    }
}
