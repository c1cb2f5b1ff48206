//! Tags: what begins with the braces at the start of a source.

ghost use Rattle.std.specs.Prelude.{true, IfOk, IfSome, MatchOption};
ghost use Rattle.handlebars_lexer.specs.Comment.{HasNoLong};
ghost use Rattle.handlebars_lexer.specs.Tag.{NoTag};
ghost use Rattle.handlebars_lexer.specs.TagView.{HasTag};

use beginning::beginning_of;
use inside::read_inside;
use std::alloc::{AllocError, Global};

mod beginning;
mod closing;
mod inside;

pub use inside::{BlockToken, Content, PathToken};

/// A tag, given by its parts of the source: its content, whether tildes are inside its braces, the greatest number of
/// parentheses and brackets open at once in it, and what follows it.
#[derive(Clone, Copy)]
pub struct TagToken<'a> {
    pub content: Content<'a>,
    pub left: bool,
    pub right: bool,
    pub depth: usize,
    pub rest: &'a str,
    /// Whether a long comment may end in what follows.
    pub long_ahead: bool,
}

/// Returns the tag at the start of what is left of a source, or `None` if no tag is there. A path may name a block.
/// `long_ahead` says whether a long comment may end in what is left, so that only one search for such an end fails.
///
/// # Errors
///
/// Fails with `AllocError` if memory runs out.
pub fn split_tag<'a>(
    alloc: Global,
    left: &'a str,
    long_ahead: bool,
) -> Result<Option<TagToken<'a>>, AllocError>
    requires { HasNoLong long_ahead left.now }
    ensures reads { IfOk result (λ read. MatchOption read (NoTag true left.now) (λ token. HasTag left.now token)) }
    ensures ahead { IfOk result (λ read. IfSome read (λ token. HasNoLong token.long_ahead token.rest.now)) }
{
    let Some(begins) = beginning_of(left) else {
        return Ok(None);
    };
    match read_inside(alloc, begins, left, long_ahead)? {
        Some(read) => Ok(Some(TagToken {
            content: read.content,
            left: begins.tilde,
            right: read.right,
            depth: read.depth,
            rest: read.rest,
            long_ahead: long_ahead && read.long_ahead,
        })),
        None => Ok(None),
    }
}
