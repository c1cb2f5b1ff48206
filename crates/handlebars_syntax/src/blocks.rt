//! The blocks that are open before a tag.

use crate::tags::SourceTag;
use handlebars_expressions::expression::close_name_at;
use handlebars_lexer::tag::Content;
use std::alloc::{AllocError, Global};

/// What a block is a block of.
#[derive(Clone, Copy, PartialEq, Eq)]
pub enum Opener {
    Helper,
    Raw,
    Decorator,
    Partial,
}

/// A block that is open: its opener, its name as it is written, its opening tag, and whether an inverse was there.
#[derive(Clone, Copy)]
pub struct OpenBlock<'a> {
    pub opener: Opener,
    pub name: &'a str,
    pub tag: SourceTag<'a>,
    pub has_inverse: bool,
}

impl<'a> OpenBlock<'a> {
    // The block that a tag opens, if it opens one.
    fn of(tag: SourceTag<'a>) -> Option<OpenBlock<'a>> {
        let (opener, name) = match tag.content {
            Content::Block(token) => (Opener::Helper, token.name),
            Content::RawBlock(token) => (Opener::Raw, token.name),
            Content::DecoratorBlock(token) => (Opener::Decorator, token.name),
            Content::PartialBlock(text) => (Opener::Partial, close_name_at(text).0),
            _ => return None,
        };
        Some(OpenBlock {
            opener,
            name,
            tag,
            has_inverse: false,
        })
    }

    // Whether an end of this name, possibly empty, is that of the block.
    fn is_closed_by(&self, name: &str) -> bool {
        self.name == name || (name.is_empty() && self.takes_empty_end())
    }

    fn takes_empty_end(&self) -> bool {
        self.opener == Opener::Decorator || self.opener == Opener::Partial
    }
}

/// An end with another name than that of the block that it closes.
#[derive(Clone, Copy)]
pub struct Mismatch<'a> {
    pub open: OpenBlock<'a>,
    pub close: SourceTag<'a>,
    pub name: &'a str,
}

/// The blocks that are open, the innermost last, and the first end before them that has a wrong name.
#[derive(Drop)]
pub struct Blocks<'a> {
    pub open: Vec<OpenBlock<'a>>,
    pub mismatch: Option<Mismatch<'a>>,
}

impl<'a> Blocks<'a> {
    /// Returns the blocks that are open before the tag after which this many bytes and its own are left.
    ///
    /// # Errors
    ///
    /// Fails if memory runs out.
    pub fn before(
        alloc: Global,
        tags: &[SourceTag<'a>],
        left: usize,
    ) -> Result<Blocks<'a>, AllocError> {
        let mut blocks = Blocks {
            open: Vec::new(alloc),
            mismatch: None,
        };
        'tags: for tag in tags {
            if tag.left.len() <= left {
                return Ok(blocks);
            }
            blocks.take(*tag)?;
        }
        Ok(blocks)
    }

    fn take(&mut self, tag: SourceTag<'a>) -> Result<(), AllocError> {
        if let Some(block) = OpenBlock::of(tag) {
            self.open.push(block)?;
            return Ok(());
        }
        match tag.content {
            Content::Close(name) | Content::RawClose(name) => self.close(tag, name),
            Content::Inverse => self.invert(),
            _ => {}
        }
        Ok(())
    }

    fn close(&mut self, close: SourceTag<'a>, name: &'a str) {
        if let Some(open) = self.open.pop()
            && self.mismatch.is_none()
            && !open.is_closed_by(name)
        {
            self.mismatch = Some(Mismatch { open, close, name });
        }
    }

    fn invert(&mut self) {
        if let Some(block) = self.open.last_mut() {
            block.has_inverse = true;
        }
    }

    /// Returns the innermost block.
    pub fn innermost(&self) -> Option<OpenBlock<'a>> {
        self.open.last().copied()
    }

    /// Returns the block at whose opening this many bytes are left of the source.
    pub fn at(&self, left: usize) -> Option<OpenBlock<'a>> {
        self.open
            .iter()
            .find(|block| block.tag.left.len() == left)
            .copied()
    }

    /// Whether a block of this name is open around the innermost one.
    pub fn has_outer(&self, name: &str) -> bool {
        self.open.iter().any(|block| block.name == name)
    }
}
