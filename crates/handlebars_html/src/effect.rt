//! What a block does, by its name.

ghost use Rattle.std.specs.Prelude.{◌≡◌, IfOk, map, option_map, string_bytes};
ghost use Rattle.std.specs.Map.{lookup};
ghost use Rattle.std.specs.Str.{bytes_eq};
ghost use Rattle.handlebars_helpers.specs.Choice as choice;
ghost use Rattle.handlebars_helpers.specs.View.{built_in_kind};
ghost use Rattle.handlebars_template.specs.TreeView.{call_view, param_view};
ghost use Rattle.handlebars_html.specs.EffectView.{effect_view, registered_view};
ghost use Rattle.handlebars_html.specs.Registry as registry;
ghost use Rattle.handlebars_html.specs.Rule as rule;
ghost use Rattle.handlebars_html.specs.SearchView.{helper_of, kind_of, user_defined_of};

use crate::user::{OtherHelper, OtherKind, UserDefined};
use handlebars_base::json::value::JsonRender;
use handlebars_helpers::built_in::{BuiltIn, table};
use handlebars_template::template::{HelperTemplate, Parameter};
use std::alloc::{AllocError, Global};

/// What a block does.
#[derive(Clone, Copy)]
pub enum Effect {
    /// It renders its body or its inverse, one of them.
    OneBranch,
    /// It renders its body in iterations, or once, or not at all, or its inverse.
    Iterations,
    /// It writes a value.
    Value,
    /// It writes nothing.
    NoOutput,
}

/// Returns the name that is written in a tag, if one is.
///
/// # Errors
///
/// Fails if memory runs out.
pub fn written_name(name: &Parameter, alloc: Global) -> Result<Option<String>, AllocError>
    ensures { IfOk result (λ n. option_map string_bytes n ≡ rule.written_name (param_view name.now)) }
{
    match name {
        Parameter::Name(name) => Ok(Some(name.clone()?)),
        Parameter::Path(path) => Ok(Some(String::from_str(alloc, path.raw())?)),
        Parameter::Literal(value) => Ok(Some(value.render(alloc)?)),
        Parameter::Subexpression(_) => Ok(None),
    }
}

fn effect_of(kind: BuiltIn) -> Effect
    ensures { effect_view result ≡ rule.effect_of (built_in_kind kind) }
{
    match kind {
        BuiltIn::If => Effect::OneBranch,
        BuiltIn::Unless => Effect::OneBranch,
        BuiltIn::Each => Effect::Iterations,
        BuiltIn::With => Effect::OneBranch,
        BuiltIn::Lookup => Effect::Value,
        BuiltIn::Raw => Effect::OneBranch,
        BuiltIn::Log => Effect::NoOutput,
        BuiltIn::Eq => Effect::OneBranch,
        BuiltIn::Ne => Effect::OneBranch,
        BuiltIn::Gt => Effect::OneBranch,
        BuiltIn::Gte => Effect::OneBranch,
        BuiltIn::Lt => Effect::OneBranch,
        BuiltIn::Lte => Effect::OneBranch,
        BuiltIn::And => Effect::OneBranch,
        BuiltIn::Or => Effect::OneBranch,
        BuiltIn::Not => Effect::OneBranch,
        BuiltIn::Len => Effect::Value,
    }
}

/// What is registered under a name.
#[derive(Clone, Copy)]
pub enum Registered {
    /// What every registry begins with.
    AsFirst,
    /// A user-defined helper that gives values.
    UserValues,
    /// A user-defined helper each value of which is written as an address that runs no script.
    UserUrls,
}

fn registered_as(kind: OtherKind) -> Registered
    ensures { registered_view result ≡ registry.registered_as (kind_of kind) }
{
    match kind {
        OtherKind::GivesUrls => Registered::UserUrls,
        OtherKind::GivesValues => Registered::UserValues,
        OtherKind::MayHaveSteps => Registered::UserValues,
        OtherKind::Misplaced => Registered::UserValues,
    }
}

fn registered_among(helpers: &[OtherHelper], name: &str) -> Registered
    ensures { registered_view result ≡ registry.registered_among (map helper_of helpers.now) name.now }
{
    match helpers.split_first() {
        None => Registered::AsFirst,
        Some((first, rest)) => if first.name.as_str() == name {
            registered_as(first.kind)
        } else {
            registered_among(rest, name)
        },
    }
}

/// Returns the built-in helper of a name, if there is one.
pub fn built_in(name: &str) -> Option<BuiltIn>
    ensures { option_map built_in_kind result ≡ choice.built_in name.now }
{
    kind_in(&table(), name)
}

fn kind_in(rows: &[(&str, BuiltIn)], name: &str) -> Option<BuiltIn>
    ensures { option_map built_in_kind result
        ≡ lookup (bytes_eq name.now) (map (λ row. (row.0.now, built_in_kind row.1)) rows.now) }
{
    match rows.split_first() {
        None => None,
        Some((first, rest)) => if first.0 == name {
            Some(first.1)
        } else {
            kind_in(rest, name)
        },
    }
}

/// Returns what a block of this name does.
pub fn effect_named(user: &UserDefined, name: &str) -> Effect
    ensures { effect_view result ≡ rule.effect_named (registry.registered_in (user_defined_of user.now)) name.now }
{
    match registered_among(&user.helpers, name) {
        Registered::AsFirst => first_effect(name),
        Registered::UserValues => Effect::Value,
        Registered::UserUrls => Effect::Value,
    }
}

fn first_effect(name: &str) -> Effect
    ensures { effect_view result ≡ rule.effect_as rule.as_first name.now }
{
    match built_in(name) {
        Some(kind) => effect_of(kind),
        None => Effect::Iterations,
    }
}

fn are_urls(registered: Registered) -> bool
    ensures { result ≡ rule.are_urls (registered_view registered) }
{
    match registered {
        Registered::AsFirst => false,
        Registered::UserValues => false,
        Registered::UserUrls => true,
    }
}

/// Returns whether an expression calls a helper of addresses, by a name that is written, with arguments.
///
/// # Errors
///
/// Fails if memory runs out.
pub fn writes_url(
    call: &HelperTemplate,
    alloc: Global,
    user: &UserDefined,
) -> Result<bool, AllocError>
    ensures { IfOk result (λ b. b ≡ rule.writes_url (registry.registered_in (user_defined_of user.now)) (call_view call.now)) }
{
    if call.is_value() {
        return Ok(false);
    }
    match written_name(&call.name, alloc)? {
        Some(name) => Ok(are_urls(registered_among(&user.helpers, name.as_str()))),
        None => Ok(false),
    }
}

/// Returns what a block does whose tag has this name, if it is written.
///
/// # Errors
///
/// Fails if memory runs out.
pub fn block_effect(
    name: &Parameter,
    alloc: Global,
    user: &UserDefined,
) -> Result<Option<Effect>, AllocError>
    ensures { IfOk result (λ e. option_map effect_view e
        ≡ option_map (rule.effect_named (registry.registered_in (user_defined_of user.now))) (rule.written_name (param_view name.now))) }
{
    match written_name(name, alloc)? {
        Some(name) => Ok(Some(effect_named(user, name.as_str()))),
        None => Ok(None),
    }
}
