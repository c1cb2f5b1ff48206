//! How tags begin.

ghost use Rattle.std.specs.Prelude.{◌≡◌, ◌||◌, ◌==◌, ◌∷◌, ◌++◌, false, MatchOption, Some, codes, drop};
ghost use Rattle.std.specs.Char.{is_ascii};
ghost use Rattle.std.specs.Option.{option_map};
ghost use Rattle.handlebars_base.specs.Bytes.{is_white, after_white};
ghost use Rattle.handlebars_base.specs.Texts.{starts};
ghost use Rattle.handlebars_lexer.specs.Kind.{escaped_kind, beginning, word, rows, after_sign, ends_word, first_of, beginning_of};
ghost use Rattle.handlebars_lexer.specs.KindView.{kind_of, beginning_view, signed_by};

use crate::prefix::{after_text, tilde_at};
use handlebars_base::json::path::marks::{after_byte, after_white, is_white};

/// The kind of a tag, determined by its beginning.
#[derive(Clone, Copy)]
pub enum TagKind {
    Expression,
    Html,
    HtmlSign,
    Block,
    Close,
    Inverse,
    Else,
    Raw,
    RawClose,
    Decorator,
    DecoratorBlock,
    Partial,
    PartialBlock,
    Comment,
}

/// The kind of a tag, whether a tilde follows its opening braces, and what is inside.
#[derive(Clone, Copy)]
pub struct TagBeginning<'a> {
    pub kind: TagKind,
    pub tilde: bool,
    pub inside: &'a str,
}

/// Returns the beginning of the tag at the start of a source, or `None` if no tag begins there.
pub fn beginning_of(left: &str) -> Option<TagBeginning<'_>>
    ensures { option_map beginning_view result ≡ beginning_of left.now }
{
    let one = after_byte(b'{', left)?;
    let two = after_byte(b'{', one)?;
    Some(after_two(two))
}

/// After two braces: a third, the mark of a comment, or neither.
fn after_two(text: &str) -> TagBeginning<'_>
    ensures { beginning_of (codes "{{" ++ text.now) ≡ Some (beginning_view result) }
{
    let Some((mark, after)) = first_byte(text) else {
        return tilded_at(text);
    };
    match mark {
        b'{' => after_three(after),
        b'!' => TagBeginning {
            kind: TagKind::Comment,
            tilde: false,
            inside: after,
        },
        _ => tilded_at(text),
    }
}

fn after_three(text: &str) -> TagBeginning<'_>
    ensures { beginning_of (codes "{{{" ++ text.now) ≡ Some (beginning_view result) }
{
    if let Some(after) = after_byte(b'{', text) {
        return after_four(after);
    }
    let (tilde, inside) = tilde_at(text);
    TagBeginning {
        kind: TagKind::Html,
        tilde,
        inside,
    }
}

fn after_four(text: &str) -> TagBeginning<'_>
    ensures { beginning_of (codes "{{{{" ++ text.now) ≡ Some (beginning_view result) }
{
    let (tilde, inside) = tilde_at(text);
    match after_byte(b'/', inside) {
        Some(after) => marked(TagKind::RawClose, tilde, after),
        None => TagBeginning {
            kind: TagKind::Raw,
            tilde,
            inside,
        },
    }
}

/// After two braces that no third brace and no mark of a comment follows, so by the rows after these. After a tilde a third
/// brace counts again.
fn tilded_at(text: &str) -> TagBeginning<'_>
    ensures { first_of (drop 4 rows) (codes "{{" ++ text.now) ≡ Some (beginning_view result) }
{
    let (tilde, inside) = tilde_at(text);
    if !tilde {
        return signed_at(false, inside);
    }
    match after_byte(b'{', inside) {
        Some(after) => marked(TagKind::Html, true, after),
        None => signed_at(true, inside),
    }
}

/// After two braces and an optional tilde: by the first byte, and by the rows whose tilde may be missing.
fn signed_at(tilde: bool, text: &str) -> TagBeginning<'_>
    ensures { signed_by (drop 5 rows) tilde text.now ≡ Some (beginning_view result) }
{
    let Some((sign, after)) = first_byte(text) else {
        return unsigned(tilde, text);
    };
    match sign {
        b'&' => marked(TagKind::HtmlSign, tilde, after),
        b'#' => block_at(tilde, after),
        b'/' => marked(TagKind::Close, tilde, after),
        b'^' => marked(TagKind::Inverse, tilde, after),
        b'*' => marked(TagKind::Decorator, tilde, after),
        b'>' => marked(TagKind::Partial, tilde, after),
        b'e' => worded_at(tilde, text),
        _ => unsigned(tilde, text),
    }
}

/// After `#`, which the sign of a decorator or of a partial may follow.
fn block_at(tilde: bool, text: &str) -> TagBeginning<'_>
    ensures { signed_by (drop 5 rows) tilde (codes "#" ++ text.now) ≡ Some (beginning_view result) }
{
    let Some((sign, inside)) = first_byte(text) else {
        return marked(TagKind::Block, tilde, text);
    };
    match sign {
        b'*' => marked(TagKind::DecoratorBlock, tilde, inside),
        b'>' => marked(TagKind::PartialBlock, tilde, inside),
        _ => marked(TagKind::Block, tilde, text),
    }
}

/// Before an `e`, by the rows without a mark: the word, or a value.
fn worded_at(tilde: bool, text: &str) -> TagBeginning<'_>
    ensures { signed_by (drop 13 rows) tilde text.now ≡ Some (beginning_view result) }
{
    match else_at(text) {
        Some(inside) => TagBeginning {
            kind: TagKind::Else,
            tilde,
            inside,
        },
        None => unsigned(tilde, text),
    }
}

fn else_at(text: &str) -> Option<&str>
    ensures { option_map (λ rest. rest.now) result ≡ after_sign (word (codes "else")) text.now }
{
    let after = after_text("else", text)?;
    if ends_word(after) { Some(after) } else { None }
}

/// After a mark, with optional whitespace after it.
fn marked(kind: TagKind, tilde: bool, after: &str) -> TagBeginning<'_>
    ensures { beginning_view result ≡ beginning (kind_of kind) tilde (after_white after.now) }
{
    TagBeginning {
        kind,
        tilde,
        inside: after_white(after),
    }
}

/// Without a mark.
fn unsigned(tilde: bool, inside: &str) -> TagBeginning<'_>
    ensures { beginning_view result ≡ beginning escaped_kind tilde inside.now }
{
    TagBeginning {
        kind: TagKind::Expression,
        tilde,
        inside,
    }
}

/// The first byte, if it is ASCII, and what follows it.
fn first_byte(text: &str) -> Option<(u8, &str)>
    ensures { MatchOption result (starts is_ascii text.now ≡ false) (λ first. text.now ≡ first.0 ∷ first.1.now) }
{
    match text.as_bytes() {
        [first, ..] if *first < 128 => Some((*first, text.split_at(1).1)),
        _ => None,
    }
}

/// Whether a word ends before this.
fn ends_word(text: &str) -> bool
    ensures { result ≡ ends_word text.now }
{
    starts_white_or_tilde(text) || after_text("}}", text).is_some()
}

fn starts_white_or_tilde(text: &str) -> bool
    ensures { result ≡ starts (λ b. is_white b || (b == 126)) text.now }
{
    match text.as_bytes() {
        [first, ..] => is_white(*first) || *first == b'~',
        [] => false,
    }
}
