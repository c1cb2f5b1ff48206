//! What closes tags.

ghost use Rattle.std.specs.Prelude.{◌≡◌};
ghost use Rattle.std.specs.Option.{option_map};
ghost use Rattle.handlebars_lexer.specs.Kind.{close_by, three_close, brace_tilde_braces, closing_of};
ghost use Rattle.handlebars_lexer.specs.KindView.{kind_of, tilded};

use super::beginning::TagKind;
use crate::prefix::{after_text, tilde_at};
use handlebars_base::json::path::marks::{after_byte, after_white};

/// Returns whether a tilde precedes the braces that close a tag of this kind, and what follows the braces. Returns `None` if
/// the braces are missing. A comment holds its own closing braces.
#[inline(always)]
#[tactic(auto, unfolding(crate::specs::Kind::closing_of))]
pub fn closing_of(kind: TagKind, text: &str) -> Option<(bool, &str)>
    ensures { option_map tilded result ≡ closing_of (kind_of kind) text.now }
{
    match kind {
        TagKind::Expression => close_by("}}", text),
        TagKind::Html => three_close(text),
        TagKind::HtmlSign => close_by("}}", text),
        TagKind::Block => close_by("}}", text),
        TagKind::Close => close_by("}}", text),
        TagKind::Inverse => close_by("}}", text),
        TagKind::Else => close_by("}}", text),
        TagKind::Raw => close_by("}}}}", text),
        TagKind::RawClose => close_by("}}}}", text),
        TagKind::Decorator => close_by("}}", text),
        TagKind::DecoratorBlock => close_by("}}", text),
        TagKind::Partial => close_by("}}", text),
        TagKind::PartialBlock => close_by("}}", text),
        TagKind::Comment => Some((false, text)),
    }
}

/// These braces, after an optional tilde.
fn close_by<'a>(braces: &str, text: &'a str) -> Option<(bool, &'a str)>
    ensures { option_map tilded result ≡ close_by braces.now text.now }
{
    let (tilde, after) = tilde_at(text);
    let rest = after_text(braces, after)?;
    Some((tilde, rest))
}

/// Three braces, after an optional tilde or with a tilde between the first and the others.
fn three_close(text: &str) -> Option<(bool, &str)>
    ensures { option_map tilded result ≡ three_close text.now }
{
    match close_by("}}}", text) {
        Some(read) => Some(read),
        None => brace_tilde_braces(text),
    }
}

/// One brace, a tilde, and two braces.
fn brace_tilde_braces(text: &str) -> Option<(bool, &str)>
    ensures { option_map tilded result ≡ brace_tilde_braces text.now }
{
    let after = after_byte(b'}', after_white(text))?;
    let braces = after_byte(b'~', after_white(after))?;
    let rest = after_text("}}", after_white(braces))?;
    Some((true, rest))
}
