//! Callers of the engine, and the contracts that they get from it.

ghost use Rattle.std.specs.Prelude.{◌≡◌, IfOk, List, OnOk, Option, string_bytes};
ghost use Rattle.handlebars_base.specs.Answers.{Answer};
ghost use Rattle.handlebars_base.specs.Bytes.{Text};
ghost use Rattle.handlebars_helpers.specs.Decoration.{Action};
ghost use Rattle.handlebars_helpers.specs.UserHelper.{HelperQuestion, Offer, Step};
ghost use Rattle.handlebars_helpers.specs.UserDecorator.{DecoratorQuestion};
ghost use Rattle.handlebars_semantics.specs.Answer.{FromSource, GivesText};
ghost use Rattle.handlebars.specs.View.{options_of, parts_of, setting_of};

use handlebars::{
    Context, DecoratorEntryOf, DecoratorPart, Entries, EscapeKindOf, EscapePart, HelperEntryOf,
    HelperPart, NoFiles, Registry, RegistryOf, RenderError, UserParts,
};
use log::Log;

/// Renders a source over a context, twice, and returns both texts. They are equal, so a caller may reuse the first one.
pub fn rendered_again<L: Log>(
    registry: &Registry,
    source: &str,
    data: &Context,
    log: &L,
) -> Result<(String, String), RenderError>
    ensures { IfOk result (λ texts. string_bytes texts.1 ≡ string_bytes texts.0) }
{
    let first = registry.render_template_with_context(source, data, log, &mut NoFiles)?;
    let second = registry.render_template_with_context(source, data, log, &mut NoFiles)?;
    Ok((first, second))
}

/// Renders a source over a context, with a user-defined helper registered under a name.
///
/// The text is the one of the definition, where calls of that name are answered as the contract of the helper states.
pub fn rendered_with_helper<
    L: Log,
    B: HelperPart,
    F: HelperPart,
    D: DecoratorPart,
    G: DecoratorPart,
    X: EscapePart,
>(
    registry: &mut RegistryOf<Entries<B, F, D, G, X>>,
    name: &str,
    helper: B,
    source: &str,
    data: &Context,
    log: &L,
) -> Result<String, RenderError>
    ensures text { IfOk result (λ text. GivesText
        (setting_of ⟦<Entries<B, F, D, G, X> as UserParts>⟧.registered ⟦<Entries<B, F, D, G, X> as UserParts>⟧.user
        registry.new «data».now)
        (FromSource (options_of registry.new) source.now) (string_bytes text)) }
    ensures steps { OnOk result ((q : HelperQuestion) (a : Answer (Option (List Step)))
        → ((parts_of ⟦<Entries<B, F, D, G, X> as UserParts>⟧.registered ⟦<Entries<B, F, D, G, X> as UserParts>⟧.user
        registry.new).user name.now).has_steps q a → B.has_steps helper q a) }
    ensures offer { OnOk result ((q : HelperQuestion) (a : Answer Offer)
        → ((parts_of ⟦<Entries<B, F, D, G, X> as UserParts>⟧.registered ⟦<Entries<B, F, D, G, X> as UserParts>⟧.user
        registry.new).user name.now).has_offer q a → B.has_offer helper q a) }
{
    registry.register_helper(name, HelperEntryOf::Own(helper))?;
    registry.render_template_with_context(source, data, log, &mut NoFiles)
}

/// Renders a source over a context, with a user-defined decorator registered under a name. The decorator does the actions that
/// its contract states.
pub fn rendered_with_decorator<
    L: Log,
    B: HelperPart,
    F: HelperPart,
    D: DecoratorPart,
    G: DecoratorPart,
    X: EscapePart,
>(
    registry: &mut RegistryOf<Entries<B, F, D, G, X>>,
    name: &str,
    decorator: D,
    source: &str,
    data: &Context,
    log: &L,
) -> Result<String, RenderError>
    ensures text { IfOk result (λ text. GivesText
        (setting_of ⟦<Entries<B, F, D, G, X> as UserParts>⟧.registered ⟦<Entries<B, F, D, G, X> as UserParts>⟧.user
        registry.new «data».now)
        (FromSource (options_of registry.new) source.now) (string_bytes text)) }
    ensures actions { OnOk result ((q : DecoratorQuestion) (a : Answer (List Action))
        → (parts_of ⟦<Entries<B, F, D, G, X> as UserParts>⟧.registered ⟦<Entries<B, F, D, G, X> as UserParts>⟧.user
        registry.new).user_decorator name.now q a → D.has_actions decorator q a) }
{
    registry.register_decorator(name, DecoratorEntryOf::Own(decorator))?;
    registry.render_template_with_context(source, data, log, &mut NoFiles)
}

/// Renders a source over a context, with a user-defined escape function. It returns the texts that its contract states.
pub fn rendered_with_escape<
    L: Log,
    B: HelperPart,
    F: HelperPart,
    D: DecoratorPart,
    G: DecoratorPart,
    X: EscapePart,
>(
    registry: &mut RegistryOf<Entries<B, F, D, G, X>>,
    escape: X,
    source: &str,
    data: &Context,
    log: &L,
) -> Result<String, RenderError>
    ensures text { IfOk result (λ text. GivesText
        (setting_of ⟦<Entries<B, F, D, G, X> as UserParts>⟧.registered ⟦<Entries<B, F, D, G, X> as UserParts>⟧.user
        registry.new «data».now)
        (FromSource (options_of registry.new) source.now) (string_bytes text)) }
    ensures escaped { (t : Text) (a : Answer Text)
        → (parts_of ⟦<Entries<B, F, D, G, X> as UserParts>⟧.registered ⟦<Entries<B, F, D, G, X> as UserParts>⟧.user
        registry.new).user_escape t a
        → X.has_escaped escape t a }
{
    registry.register_escape_fn(EscapeKindOf::Own(escape));
    registry.render_template_with_context(source, data, log, &mut NoFiles)
}
