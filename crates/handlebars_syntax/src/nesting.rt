//! What is wrong with ends, inverses, and blocks that aren't closed.

use crate::blocks::{Blocks, Mismatch, OpenBlock, Opener};
use crate::tags::{SourceTag, tags_of};
use crate::words::{Extent, Related, Words};
use handlebars_lexer::tag::{Content, split_tag};
use std::alloc::{AllocError, Global};
use std::fmt;

/// The end of a block, as it is to be written.
#[derive(Clone, Copy)]
pub struct EndOf<'a>(pub OpenBlock<'a>);

impl fmt::Display for EndOf<'_> {
    fn fmt<W: fmt::Write>(&self, f: &mut fmt::Formatter<W>) -> fmt::Result {
        let name = self.0.name;
        match self.0.opener {
            Opener::Raw => write!(f, "{{{{{{{{/{name}}}}}}}}}"),
            _ => write!(f, "{{{{/{name}}}}}"),
        }
    }
}

/// The opening of a block, without its parameters.
#[derive(Clone, Copy)]
pub struct OpeningOf<'a>(pub OpenBlock<'a>);

impl fmt::Display for OpeningOf<'_> {
    fn fmt<W: fmt::Write>(&self, f: &mut fmt::Formatter<W>) -> fmt::Result {
        let name = self.0.name;
        match self.0.opener {
            Opener::Helper => write!(f, "{{{{#{name}}}}}"),
            Opener::Raw => write!(f, "{{{{{{{{{name}}}}}}}}}"),
            Opener::Decorator => write!(f, "{{{{#*{name}}}}}"),
            Opener::Partial => write!(f, "{{{{#> {name}}}}}"),
        }
    }
}

/// Returns where a block is opened.
pub fn opened_here(block: OpenBlock<'_>) -> Related {
    related("the block is opened here", block.tag)
}

fn related(message: &'static str, tag: SourceTag<'_>) -> Related {
    Related {
        message,
        extent: Extent {
            left: tag.left.len(),
            len: tag.len(),
        },
    }
}

/// Explains that blocks nest too deep.
pub fn too_deep(alloc: Global, words: &mut Words) -> Result<Option<Related>, AllocError> {
    words.say(String::from_str(
        alloc,
        "blocks, parentheses and brackets are open more than 200 deep here",
    )?);
    words.advise(String::from_str(
        alloc,
        "put an inner part into a template of its own, and write `{{> part}}`",
    )?)?;
    Ok(None)
}

/// Explains why the end or the inverse that is left of a source isn't allowed.
pub fn unexpected(
    alloc: Global,
    source: &str,
    left: &str,
    words: &mut Words,
) -> Result<Option<Related>, AllocError> {
    let tags = tags_of(alloc, source)?;
    let block = Blocks::before(alloc, &tags, left.len())?.innermost();
    let content = match split_tag(alloc, left, true)? {
        Some(tag) => tag.content,
        None => Content::Inverse,
    };
    match content {
        Content::Close(name) | Content::RawClose(name) => wrong_end(alloc, name, block, words)?,
        Content::Chain(token) => wrong_inverse(alloc, token.name, block, words)?,
        _ => wrong_inverse(alloc, "", block, words)?,
    }
    Ok(block.map(opened_here))
}

// An end that closes no block, or not this one.
fn wrong_end(
    alloc: Global,
    name: &str,
    block: Option<OpenBlock<'_>>,
    words: &mut Words,
) -> Result<(), AllocError> {
    match block {
        Some(block) => {
            words.say(format!(in alloc; "this end doesn't close `{}`", OpeningOf(block))?);
            words.advise(format!(in alloc; "write `{}`", EndOf(block))?)
        }
        None => {
            words.say(String::from_str(alloc, "no block is open that this closes")?);
            words.advise(format!(in alloc;
                "remove it, or open the block before it, by `{{{{#{name}}}}}`"
            )?)
        }
    }
}

// An inverse with no block, or with one that has no inverse or has one already.
fn wrong_inverse(
    alloc: Global,
    chained: &str,
    block: Option<OpenBlock<'_>>,
    words: &mut Words,
) -> Result<(), AllocError> {
    let (message, help) = match block {
        None => (
            "`{{else}}` is outside of a block",
            "write it between `{{#if ..}}` and `{{/if}}`",
        ),
        Some(block) if block.has_inverse && chained.is_empty() => (
            "the block has an `{{else}}` already",
            "remove one of the two, or give the first a condition: `{{else if ..}}`",
        ),
        Some(block) if block.has_inverse => (
            "no condition may follow the block's `{{else}}`",
            "move it before `{{else}}`",
        ),
        Some(block) if block.opener == Opener::Partial => (
            "the block of a partial has no `{{else}}`",
            "remove it: the block is what is shown if there is no such partial",
        ),
        Some(_) => (
            "the block of a decorator has no `{{else}}`",
            "remove it, or write `{{#if ..}}` in the block",
        ),
    };
    words.say(String::from_str(alloc, message)?);
    words.advise(String::from_str(alloc, help)?)
}

/// Explains that the block whose opening is left of a source isn't closed.
pub fn not_closed(
    alloc: Global,
    source: &str,
    left: &str,
    words: &mut Words,
) -> Result<Option<Related>, AllocError> {
    let tags = tags_of(alloc, source)?;
    let blocks = Blocks::before(alloc, &tags, 0)?;
    let Some(block) = blocks.at(left.len()) else {
        return Ok(None);
    };
    words.say(format!(in alloc; "`{}` is not closed", OpeningOf(block))?);
    match blocks.mismatch {
        Some(mismatch) => swapped(alloc, mismatch, words),
        None => {
            words.advise(format!(in alloc; "write `{}` at the end of its body", EndOf(block))?)?;
            Ok(None)
        }
    }
}

// An end before that closes another block than the one that it names.
fn swapped(
    alloc: Global,
    mismatch: Mismatch<'_>,
    words: &mut Words,
) -> Result<Option<Related>, AllocError> {
    let Mismatch { open, close, name } = mismatch;
    words.advise(format!(in alloc;
        "write `{}` before `{{{{/{name}}}}}`, which closes `{}` now",
        EndOf(open),
        OpeningOf(open)
    )?)?;
    Ok(Some(related("the end with another name is here", close)))
}

/// Explains that the end that is left of a source has another name than its block.
pub fn mismatched(
    alloc: Global,
    source: &str,
    left: &str,
    words: &mut Words,
) -> Result<Option<Related>, AllocError> {
    let tags = tags_of(alloc, source)?;
    let blocks = Blocks::before(alloc, &tags, left.len())?;
    let Some(block) = blocks.innermost() else {
        return Ok(None);
    };
    words.say(format!(in alloc; "this end doesn't close `{}`", OpeningOf(block))?);
    let name = match split_tag(alloc, left, true)? {
        Some(tag) => end_name(tag.content),
        None => "",
    };
    if blocks.has_outer(name) {
        words.advise(format!(in alloc; "write `{}` before it", EndOf(block))?)?;
    } else {
        words.advise(format!(in alloc; "write `{}`", EndOf(block))?)?;
    }
    Ok(Some(opened_here(block)))
}

fn end_name(content: Content<'_>) -> &str {
    match content {
        Content::Close(name) | Content::RawClose(name) => name,
        _ => "",
    }
}
