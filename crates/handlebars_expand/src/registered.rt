//! What a run reads of a registry and of the logger that it is given.

ghost use Rattle.std.specs.Prelude.{◌≡◌, Bool, map, option_map, string_bytes};
ghost use Rattle.handlebars_base.specs.Bytes.{Text};
ghost use Rattle.handlebars_template.specs.TreeView.{tree_view};
ghost use Rattle.handlebars_helpers.specs.Callee.{calls_registered};
ghost use Rattle.handlebars_helpers.specs.DecoratorsView.{decorator_called, action_of, decorator_question_of};
ghost use Rattle.handlebars_helpers.specs.EscapeView.{escaping_of};
ghost use Rattle.handlebars_helpers.specs.UserView.{helper_question_of, callee_of, offer_of, steps_of, IsOneOf};
ghost use Rattle.handlebars_semantics.specs.State.{IsLawful, Parts, hook};
ghost use Rattle.handlebars_expand.specs.Targets.{target_in};

use handlebars_base::error::RenderError;
use handlebars_helpers::built_in::BuiltIn;
use handlebars_helpers::decorators::view::Decorator;
use handlebars_helpers::decorators::{DecoratorKind, DecoratorResult};
use handlebars_helpers::escape::Escaping;
use handlebars_helpers::user::{Callee, HelperResult, HelperValue};
use handlebars_helpers::view::Helper;
use handlebars_scope::context::Context;
use handlebars_template::template::Template;
use log::Level;

/// What is registered under names.
pub trait Registered {
    // What is registered, as the definitions see it.
    ghost parts: { Self → Parts };

    /// Returns the helper that is registered under a name, if there is one.
    fn helper(&self, name: &str) -> Option<Callee>
        ensures { option_map (callee_of name.now) result ≡ (parts self.now).helper name.now };

    /// Returns what the user-defined helper under a name answers when it is called. It receives the view of the call, the given
    /// data, and the data that replaces it, if it was changed.
    fn steps_of(
        &self,
        name: &str,
        view: &Helper,
        given: &Context,
        changed: Option<&Context>,
    ) -> HelperResult
        ensures { IsOneOf (((parts self.now).user name.now).has_steps
            (helper_question_of view.now given.now changed.entry (parts self.now).strict)) steps_of result };

    /// Returns what the user-defined helper under a name offers when it is asked for a value.
    fn offer_of(
        &self,
        name: &str,
        view: &Helper,
        given: &Context,
        changed: Option<&Context>,
    ) -> Result<HelperValue, RenderError>
        ensures { IsOneOf (((parts self.now).user name.now).has_offer
            (helper_question_of view.now given.now changed.entry (parts self.now).strict)) offer_of result };

    /// Returns the decorator that is registered under a name, if there is one.
    fn decorator(&self, name: &str) -> Option<DecoratorKind>
        ensures { option_map (decorator_called name.now) result ≡ (parts self.now).decorator name.now };

    /// Returns what the user-defined decorator under a name answers for a tag.
    fn actions_of(
        &self,
        name: &str,
        tag: &Decorator,
        given: &Context,
        changed: Option<&Context>,
    ) -> DecoratorResult
        ensures { IsOneOf ((parts self.now).user_decorator name.now
            (decorator_question_of tag.now given.now changed.entry (parts self.now).strict)) (λ v. map action_of v.items) result };

    /// Returns how values are escaped.
    fn escape(&self) -> Escaping
        ensures { escaping_of result ≡ (parts self.now).escape };

    /// Returns what a user-defined escape function answers for a text.
    fn escaped(&self, text: &str) -> Result<String, RenderError>
        ensures { IsOneOf ((parts self.now).user_escape text.now) string_bytes result };

    /// Returns the template that is registered under a name, if there is one.
    fn template(&self, name: &str) -> Option<&Template>
        ensures { option_map (λ t. tree_view t.now) result ≡ (parts self.now).template name.now };

    /// Returns the limit of inclusions: how many may be rendered within one another.
    fn limit(&self) -> u16
        ensures { result ≡ (parts self.now).limit };

    /// Returns whether the mode is strict.
    fn strict(&self) -> bool
        ensures { result ≡ (parts self.now).strict };

    /// Returns whether blocks that call nothing act on the value of their name.
    fn sections(&self) -> bool
        ensures { result ≡ (parts self.now).sections };

    /// Passes a line to the logger.
    fn log(&self, level: Level, text: &str);

    /// States that no user-defined helper, decorator or escape function has two answers to one question.
    fn satisfies_law(&self)
        ensures { IsLawful (parts self.now) };
}

/// The target of a call.
#[derive(Clone, Copy, Debug, PartialEq, Eq)]
pub enum Target {
    Built(BuiltIn),
    /// The user-defined helper that is registered under the call's name.
    Named,
    /// The user-defined helper that is registered under the hook's name.
    Hooked,
    /// The local helper of the call's name.
    Local,
}

/// Returns the target for what is registered under a call's name.
pub fn named(callee: Callee) -> Target
    ensures { (block : Bool) (name : Text) → target_in block name result ≡ calls_registered (callee_of name callee) }
{
    match callee {
        Callee::Built(kind) => Target::Built(kind),
        Callee::User => Target::Named,
    }
}

/// Returns the target for what is registered under the hook's name.
pub fn hooked(callee: Callee) -> Target
    ensures { (block : Bool) (name : Text) → target_in block name result ≡ calls_registered (callee_of (hook block) callee) }
{
    match callee {
        Callee::Built(kind) => Target::Built(kind),
        Callee::User => Target::Hooked,
    }
}

/// Returns the name of the hook, of blocks or of other calls.
pub fn hook(block: bool) -> &'static str
    ensures { result.now ≡ hook block }
{
    if block {
        "blockHelperMissing"
    } else {
        "helperMissing"
    }
}
