//! Comments: where a comment ends, and its text.

ghost use Rattle.std.specs.Prelude.{◌≡◌, ◌<◌, ◌++◌, None, IfSome, MatchOption, codes, drop, length, Some};
ghost use Rattle.std.specs.Option.{option_map};
ghost use Rattle.handlebars_base.specs.Bytes.{after_white};
ghost use Rattle.handlebars_base.specs.Texts.{IsSuffix};
ghost use Rattle.handlebars_lexer.specs.Kind.{after_text};
ghost use Rattle.handlebars_lexer.specs.Comment.{after_mark, after_long, long_text, compact_text, HasNoLong, IsComment, NoComment};

use handlebars_base::json::path::marks::after_white;

/// A comment: its text, what follows it, and whether the end of a long comment may still occur there.
#[derive(Clone, Copy)]
pub struct CommentToken<'a> {
    pub text: &'a str,
    pub rest: &'a str,
    pub long_ahead: bool,
}

/// Returns the comment at the start of a source, which begins with `{{!`. Returns `None` if no comment is there.
///
/// If `long_ahead` is false, no long comment ends in the source, and none is searched for. Once such a search has failed, no
/// other is made, so all comments of a source take time linear in it.
pub fn split_comment<'a>(source: &'a str, long_ahead: bool) -> Option<CommentToken<'a>>
    requires begins { after_text (codes "{{!") source.now ≡ Some (drop 3 source.now) }
    requires ahead { HasNoLong long_ahead source.now }
    ensures comment { MatchOption result (NoComment (drop 3 source.now))
        (λ token. IsComment (drop 3 source.now) token.text.now token.rest.now) }
    ensures still { IfSome result (λ token. HasNoLong token.long_ahead token.rest.now) }
{
    let (_mark, inside) = source.split_at(3);
    match after_long(inside, long_ahead) {
        Some(rest) => Some(CommentToken {
            text: long_text(before(source, rest)),
            rest,
            long_ahead,
        }),
        None => compact_comment(source, inside, long_ahead),
    }
}

// The comment, if no long one is there.
fn compact_comment<'a>(
    source: &'a str,
    inside: &'a str,
    long_ahead: bool,
) -> Option<CommentToken<'a>>
    requires begins { after_text (codes "{{!") source.now ≡ Some inside.now }
    requires none { after_long inside.now ≡ None }
    requires ahead { HasNoLong long_ahead inside.now }
    ensures comment { MatchOption result (NoComment inside.now)
        (λ token. IsComment inside.now token.text.now token.rest.now) }
    ensures still { IfSome result (λ token. HasNoLong token.long_ahead token.rest.now) }
{
    match after_mark("}}", inside) {
        Some(rest) => Some(CommentToken {
            text: compact_text(before(source, rest)),
            rest,
            long_ahead: long_ahead && after_dashes(inside).is_none(),
        }),
        None => None,
    }
}

// What follows the long comment at the start.
fn after_long<'a>(inside: &'a str, long_ahead: bool) -> Option<&'a str>
    requires { HasNoLong long_ahead inside.now }
    ensures { option_map (λ rest. rest.now) result ≡ after_long inside.now }
{
    match after_dashes(inside) {
        Some(dashed) => {
            if long_ahead {
                after_mark("--}}", dashed)
            } else {
                None
            }
        }
        None => None,
    }
}

// What follows the dashes that begin a long comment.
fn after_dashes(inside: &str) -> Option<&str>
    ensures { option_map (λ rest. rest.now) result ≡ after_text (codes "--") (after_white inside.now) }
{
    after_white(inside).strip_prefix("--")
}

// What follows the next occurrence of the mark.
fn after_mark<'a>(mark: &str, text: &'a str) -> Option<&'a str>
    requires { 0 < length mark.now }
    ensures { option_map (λ rest. rest.now) result ≡ after_mark mark.now text.now }
{
    match text.split_once(mark) {
        Some((_prefix, rest)) => Some(rest),
        None => None,
    }
}

// What precedes the rest of a source.
fn before<'a>(source: &'a str, rest: &str) -> &'a str
    requires { IsSuffix source.now rest.now }
    ensures { source.now ≡ result.now ++ rest.now }
{
    source.split_at(source.len() - rest.len()).0
}

// The token of a long comment without its marks, as often as they are repeated.
fn long_text(token: &str) -> &str
    ensures { result.now ≡ long_text token.now }
{
    token.trim_start_matches("{{!--").trim_end_matches("--}}")
}

// The token of a compact comment without its marks, as often as they are repeated.
fn compact_text(token: &str) -> &str
    ensures { result.now ≡ compact_text token.now }
{
    token.trim_start_matches("{{!").trim_end_matches("}}")
}
