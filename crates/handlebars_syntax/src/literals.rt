//! Where a literal is.

use crate::opening::TagKind;
use crate::tags::SourceTag;
use handlebars_expressions::expression::{Event, ExpressionState, Step, take_step};
use handlebars_lexer::tag::Content;
use std::alloc::{AllocError, Global};

/// Returns what is left of the source from the first literal of this text on.
///
/// # Errors
///
/// Fails if memory runs out.
pub fn first_literal(
    alloc: Global,
    tags: &[SourceTag<'_>],
    raw: &str,
) -> Result<Option<usize>, AllocError> {
    'tags: for tag in tags {
        if let Some((kind, text)) = expression_of(tag.content) {
            let left = literal_in(alloc, kind, text, raw)?;
            if left.is_some() {
                return Ok(left);
            }
        }
    }
    Ok(None)
}

// The expression of a tag, and how it is read.
fn expression_of(content: Content<'_>) -> Option<(TagKind, &str)> {
    match content {
        Content::Expression(text) | Content::Html(text) => Some((TagKind::Value, text)),
        Content::Block(token) => Some((TagKind::Block, token.expression)),
        Content::Chain(token) => Some((TagKind::Else, token.expression)),
        Content::RawBlock(token) => Some((TagKind::Raw, token.expression)),
        Content::Decorator(token) => Some((TagKind::Decorator, token.expression)),
        Content::DecoratorBlock(token) => Some((TagKind::DecoratorBlock, token.expression)),
        Content::Partial(text) | Content::PartialBlock(text) => Some((TagKind::Partial, text)),
        _ => None,
    }
}

// What is left from the first literal of this text on, in an expression of a tag of this kind.
fn literal_in(
    alloc: Global,
    kind: TagKind,
    text: &str,
    raw: &str,
) -> Result<Option<usize>, AllocError> {
    let mut state = ExpressionState::first(kind.mode());
    let mut rest = text;
    'steps: while state.level <= text.len() {
        match take_step(alloc, kind.enclosure(), state, rest)? {
            Step::Goes(event, next, after) => {
                if is_literal(event, raw) {
                    return Ok(Some(after.len().saturating_add(raw.len())));
                }
                state = next;
                rest = after;
            }
            Step::Ends | Step::Stuck => return Ok(None),
        }
    }
    Ok(None)
}

// Whether a literal of this text is read.
fn is_literal(event: Event<'_>, raw: &str) -> bool {
    match event {
        Event::Literal(_, literal, _) => literal == raw,
        _ => false,
    }
}
