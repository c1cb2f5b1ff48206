//! What is registered otherwise than in every registry at the start, listed.

ghost use Rattle.std.specs.BTreeSet.{contains_text};
ghost use Rattle.std.specs.Bool.{OnFalse, OnTrue};
ghost use Rattle.std.specs.Prelude.{◌≡◌, ◌≢◌, ◌||◌, ◌∷◌, ◌++◌, [], IfOk, OnOk, Some, bytes_eq, codes, cond, is_some, map, option_map, string_bytes, true};
ghost use Rattle.handlebars_base.specs.Bytes.{Text};
ghost use Rattle.handlebars_helpers.specs.Callee.{user};
ghost use Rattle.handlebars_helpers.specs.Choice as choice;
ghost use Rattle.handlebars_helpers.specs.Decoration.{built_in_decorator};
ghost use Rattle.handlebars_helpers.specs.View.{built_in_kind};
ghost use Rattle.handlebars_html.specs.Registry.{AddsDecorator, AddsHelper, IsOther, IsOtherOrFirst, ListsDecorators, ListsHelpers, ListsOf};
ghost use Rattle.handlebars_html.specs.SearchView.{helper_of, kind_of, user_defined_of};

use crate::effect::built_in;
use crate::lists::push;
use crate::user::{OtherHelper, OtherKind, UserDefined};
use handlebars_helpers::built_in::{BuiltIn, table};
use handlebars_helpers::decorators::DecoratorKind;
use handlebars_helpers::entries::UserParts;
use handlebars_helpers::user::Callee;
use std::alloc::{AllocError, Global};
use std::collections::BTreeSet;

// ---- helpers

fn is_same_kind(x: BuiltIn, y: BuiltIn) -> bool
    ensures yes { OnTrue result (built_in_kind x ≡ built_in_kind y) }
    ensures no { OnFalse result (built_in_kind x ≢ built_in_kind y) }
{
    x == y
}

// What is known of the user-defined helper under this name.
fn user_kind<E: UserParts>(entries: &E, name: &str) -> OtherKind
    ensures { (E.registered entries.now).helper name.now ≡ Some (user name.now)
        → IsOther (E.registered entries.now).helper (E.user entries.now).helper name.now (kind_of result) }
{
    if entries.gives_urls(name) {
        OtherKind::GivesUrls
    } else if entries.gives_values(name) {
        OtherKind::GivesValues
    } else {
        OtherKind::MayHaveSteps
    }
}

// What is registered under this name, if it isn't what every registry begins with.
fn other_kind<E: UserParts>(entries: &E, name: &str) -> Option<OtherKind>
    ensures { IsOtherOrFirst (E.registered entries.now).helper (E.user entries.now).helper name.now (option_map kind_of result) }
{
    match (entries.helper(name), built_in(name)) {
        (Some(Callee::User), _) => Some(user_kind(entries, name)),
        (Some(Callee::Built(kind)), Some(first)) => if is_same_kind(kind, first) {
            None
        } else {
            Some(OtherKind::Misplaced)
        },
        (Some(Callee::Built(_)), None) => Some(OtherKind::Misplaced),
        (None, Some(_)) => Some(OtherKind::Misplaced),
        (None, None) => None,
    }
}

fn push_helper(
    others: &mut Vec<OtherHelper>,
    name: &String,
    kind: OtherKind,
) -> Result<(), AllocError>
    ensures { OnOk result (map helper_of others.new.items ≡ map helper_of others.old.items
        ++ (string_bytes name.now, kind_of kind) ∷ []) }
{
    let name = name.clone()?;
    push(others, OtherHelper { name, kind })
}

fn push_other_helper<E: UserParts>(
    entries: &E,
    name: &String,
    others: &mut Vec<OtherHelper>,
) -> Result<(), AllocError>
    ensures { OnOk result (AddsHelper (E.registered entries.now).helper (E.user entries.now).helper (string_bytes name.now)
        (map helper_of others.old.items) (map helper_of others.new.items)) }
{
    match other_kind(entries, name.as_str()) {
        Some(kind) => push_helper(others, name, kind),
        None => Ok(()),
    }
}

fn add_built_in_names(alloc: Global, names: &mut BTreeSet<String>) -> Result<(), AllocError>
    ensures { OnOk result ((n : Text) → contains_text names.new n
        ≡ (contains_text names.old n || is_some (choice.built_in n))) }
{
    'rows: for (name, _) in &table() {
        names.insert(String::from_str(alloc, *name)?)?;
    }
    Ok(())
}

// Lists those of these names under which another helper is registered than at the start.
fn listed_helpers<E: UserParts>(
    alloc: Global,
    entries: &E,
    names: &BTreeSet<String>,
) -> Result<Vec<OtherHelper>, AllocError>
    ensures { IfOk result (λ hs. ((n : Text) → contains_text names.now n
        ≡ (is_some ((E.registered entries.now).helper n) || is_some (choice.built_in n)))
        → ListsHelpers (E.registered entries.now).helper (E.user entries.now).helper (map helper_of hs.items)) }
{
    let mut others = Vec::new(alloc);
    'names: for name in names {
        push_other_helper(entries, name, &mut others)?;
    }
    Ok(others)
}

// Lists the helpers that are not those of the start, in byte order of name.
fn other_helpers<E: UserParts>(alloc: Global, entries: &E) -> Result<Vec<OtherHelper>, AllocError>
    ensures { IfOk result (λ hs. ListsHelpers (E.registered entries.now).helper (E.user entries.now).helper (map helper_of hs.items)) }
{
    let mut names = entries.helper_names()?;
    add_built_in_names(alloc, &mut names)?;
    listed_helpers(alloc, entries, &names)
}

// ---- decorators

// Whether the decorator under this name is the one that every registry begins with, or none where that is none.
fn is_first_decorator<E: UserParts>(entries: &E, name: &str) -> bool
    ensures yes { OnTrue result ((E.registered entries.now).decorator name.now ≡ built_in_decorator name.now) }
    ensures no { OnFalse result ((E.registered entries.now).decorator name.now ≢ built_in_decorator name.now) }
{
    let is_inline = name == "inline";
    match entries.decorator(name) {
        Some(DecoratorKind::Inline) => is_inline,
        Some(DecoratorKind::User) => false,
        None => !is_inline,
    }
}

fn push_other_decorator<E: UserParts>(
    entries: &E,
    name: &String,
    others: &mut Vec<String>,
) -> Result<(), AllocError>
    ensures { OnOk result (AddsDecorator (E.registered entries.now).decorator (string_bytes name.now)
        (map string_bytes others.old.items) (map string_bytes others.new.items)) }
{
    if is_first_decorator(entries, name.as_str()) {
        return Ok(());
    }
    push(others, name.clone()?)
}

// Lists those of these names under which another decorator is registered than at the start.
fn listed_decorators<E: UserParts>(
    alloc: Global,
    entries: &E,
    names: &BTreeSet<String>,
) -> Result<Vec<String>, AllocError>
    ensures { IfOk result (λ ns. ((n : Text) → contains_text names.now n
        ≡ cond (bytes_eq (codes "inline") n) true (is_some ((E.registered entries.now).decorator n)))
        → ListsDecorators (E.registered entries.now).decorator (map string_bytes ns.items)) }
{
    let mut others = Vec::new(alloc);
    'names: for name in names {
        push_other_decorator(entries, name, &mut others)?;
    }
    Ok(others)
}

// Lists the names of decorators that are not those of the start, in byte order.
fn other_decorators<E: UserParts>(alloc: Global, entries: &E) -> Result<Vec<String>, AllocError>
    ensures { IfOk result (λ ns. ListsDecorators (E.registered entries.now).decorator (map string_bytes ns.items)) }
{
    let mut names = entries.decorator_names()?;
    names.insert(String::from_str(alloc, "inline")?)?;
    listed_decorators(alloc, entries, &names)
}

/// Lists what is registered otherwise than in every registry at the start, in byte order of name.
///
/// # Errors
///
/// Fails if memory runs out.
pub fn user_defined<E: UserParts>(alloc: Global, entries: &E) -> Result<UserDefined, AllocError>
    ensures { IfOk result (λ u. ListsOf (E.registered entries.now).helper (E.user entries.now).helper
        (E.registered entries.now).decorator (E.registered entries.now).escape (user_defined_of u)) }
{
    Ok(UserDefined {
        escape: entries.escape(),
        helpers: other_helpers(alloc, entries)?,
        decorators: other_decorators(alloc, entries)?,
    })
}
