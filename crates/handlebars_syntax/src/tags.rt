//! The tags of a source, one after the other.

use handlebars_lexer::tag::{Content, split_tag};
use handlebars_lexer::text::{Braces, text};
use std::alloc::{AllocError, Global};

/// A tag of a source: its content, the source from it on, and from its end on.
#[derive(Clone, Copy)]
pub struct SourceTag<'a> {
    pub content: Content<'a>,
    pub left: &'a str,
    pub rest: &'a str,
}

impl SourceTag<'_> {
    /// Returns how many bytes it has.
    pub fn len(&self) -> usize {
        self.left.len().saturating_sub(self.rest.len())
    }
}

// How the text after a tag ends.
fn braces_after(content: Content<'_>) -> Braces {
    match content {
        Content::RawBlock(_) => Braces::Four,
        _ => Braces::Two,
    }
}

/// Returns the tags of a source in order, up to the first that can't be read. Runs in time linear in the source.
///
/// # Errors
///
/// Fails if memory runs out.
pub fn tags_of<'a>(alloc: Global, source: &'a str) -> Result<Vec<SourceTag<'a>>, AllocError> {
    let mut tags = Vec::new(alloc);
    let mut long_ahead = true;
    let mut prefix = text(alloc, Braces::Two, source)?;
    'tags: while !prefix.rest.is_empty() {
        let left = prefix.rest;
        let Some(tag) = split_tag(alloc, left, long_ahead)? else {
            return Ok(tags);
        };
        tags.push(SourceTag {
            content: tag.content,
            left,
            rest: tag.rest,
        })?;
        long_ahead = tag.long_ahead;
        prefix = text(alloc, braces_after(tag.content), tag.rest)?;
    }
    Ok(tags)
}
