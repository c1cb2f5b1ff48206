//! Expressions with a path alone, as most are, or with one path after a name. They need no steps.

ghost use Rattle.std.specs.Prelude.{◌≡◌, true, false, IfSome, Some, None};
ghost use Rattle.std.specs.Option.{option_map};
ghost use Rattle.handlebars_base.specs.Bytes.{Text};
ghost use Rattle.handlebars_base.specs.Path.{IsIdentifier};
ghost use Rattle.handlebars_base.specs.PathReading.{path_token_at};
ghost use Rattle.handlebars_base.specs.PathView.{path_token_of};
ghost use Rattle.handlebars_base.specs.Texts.{starts};
ghost use Rattle.handlebars_expressions.specs.Alone.{is_path_mark, IsAlone, IsNamed};
ghost use Rattle.handlebars_expressions.specs.ExpressionView.{enclosure_of};
ghost use Rattle.handlebars_expressions.specs.LiteralReading.{literal_at};
ghost use Rattle.handlebars_expressions.specs.Parameter.{is_reserved};

use super::marks::is_end;
use super::step::{Enclosure, is_reserved};
use crate::literal::starts_name;
use handlebars_base::json::path::marks::{after_white, starts_white, symbols};
use handlebars_base::json::path::{PathToken, split_path};

/// Whether a path may continue with this byte after a name.
fn is_path_mark(byte: u8) -> bool
    ensures { result ≡ is_path_mark byte }
{
    byte == b'.' || byte == b'/' || byte == b'@' || byte == b'['
}

fn starts_path_mark(text: &str) -> bool
    ensures { result ≡ starts is_path_mark text.now }
{
    match text.as_bytes() {
        [first, ..] => is_path_mark(*first),
        [] => false,
    }
}

/// A path that is alone in an expression, whether it is known to be a name alone, and what follows it.
#[derive(Clone, Copy)]
pub struct LonePath<'a> {
    pub raw: &'a str,
    pub is_name: bool,
    pub rest: &'a str,
}

/// A name that is the path at the start. `None` is inconclusive.
#[inline(always)]
pub(super) fn name_prefix(text: &str) -> Option<PathToken<'_>>
    ensures token { IfSome result (λ token. path_token_at text.now ≡ Some (path_token_of token)) }
    ensures name { IfSome result (λ token. IsIdentifier token.raw.now) }
{
    let (raw, rest) = symbols(text);
    if raw.is_empty() {
        return None;
    }
    if starts_path_mark(rest) {
        return None;
    }
    Some(PathToken { raw, rest })
}

/// Returns the path at the start of a text, as `split_path` does. Does not call `split_path` if a name alone is the path.
#[inline(always)]
pub fn path_token(text: &str) -> Option<PathToken<'_>>
    ensures { option_map path_token_of result ≡ path_token_at text.now }
{
    match name_prefix(text) {
        Some(token) => Some(token),
        None => split_path(text),
    }
}

/// Returns the path that is alone in the expression of a value at the start of a text. `None` is inconclusive.
pub fn path_alone(around: Enclosure, text: &str) -> Option<LonePath<'_>>
    ensures alone { IfSome result (λ path. IsAlone (enclosure_of around) text.now path.raw.now path.rest.now) }
    ensures name { IfSome result (λ path. path.is_name ≡ true → IsIdentifier path.raw.now) }
{
    match name_prefix(text) {
        Some(token) => lone(around, token, true),
        None => match split_path(text) {
            Some(token) => lone(around, token, false),
            None => None,
        },
    }
}

/// A name with one path after it, and what follows the path.
#[derive(Clone, Copy)]
pub struct NamedPath<'a> {
    pub name: &'a str,
    pub raw: &'a str,
    pub rest: &'a str,
}

/// The path at the start, if it begins as no literal does and is no reserved word. `None` is inconclusive.
fn free_path(text: &str) -> Option<PathToken<'_>>
    ensures token { IfSome result (λ token. path_token_at text.now ≡ Some (path_token_of token)) }
    ensures literal { IfSome result (λ token. literal_at text.now ≡ None) }
    ensures free { IfSome result (λ token. is_reserved token.raw.now ≡ false) }
{
    if !starts_name(text) {
        return None;
    }
    match path_token(text) {
        Some(token) => {
            if is_reserved(token.raw) {
                None
            } else {
                Some(token)
            }
        }
        None => None,
    }
}

/// Returns the name and the one path after it that are the expression at the start of a text, as in most blocks. `None` is
/// inconclusive.
pub fn path_named(around: Enclosure, text: &str) -> Option<NamedPath<'_>>
    ensures { IfSome result
        (λ found. IsNamed (enclosure_of around) text.now found.name.now found.raw.now found.rest.now) }
{
    let (name, after) = symbols(text);
    if name.is_empty() {
        return None;
    }
    if !starts_white(after) {
        return None;
    }
    match free_path(after_white(after)) {
        Some(token) => {
            if is_end(around, token.rest) {
                Some(NamedPath {
                    name,
                    raw: token.raw,
                    rest: token.rest,
                })
            } else {
                None
            }
        }
        None => None,
    }
}

/// A path, if the expression ends after it.
#[inline(always)]
fn lone<'a>(around: Enclosure, token: PathToken<'a>, is_name: bool) -> Option<LonePath<'a>>
    ensures alone { IfSome result (λ path. (text : Text) → path_token_at text ≡ Some (path_token_of token.entry)
        → IsAlone (enclosure_of around) text path.raw.now path.rest.now) }
    ensures name { IfSome result (λ path. IsIdentifier token.entry.raw.now → IsIdentifier path.raw.now) }
    ensures unchanged { IfSome result (λ path. path.is_name ≡ is_name) }
{
    if is_end(around, token.rest) {
        Some(LonePath {
            raw: token.raw,
            is_name,
            rest: token.rest,
        })
    } else {
        None
    }
}
