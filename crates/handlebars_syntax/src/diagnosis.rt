//! What is wrong with a source, by the reason why it doesn't compile.

ghost use Rattle.std.specs.Prelude.{◌≡◌, ◌≤◌, All, IfOk, None, Some, true, ℕ};
ghost use Rattle.handlebars_base.specs.TemplateRefusals.{template_reason_of, template_refusal_of};
ghost use Rattle.handlebars_syntax.specs.Code.{code_of, is_of_tag};
ghost use Rattle.handlebars_syntax.specs.Range.{IsNoteIn, IsTagRange, LiesIn};

use crate::blocks::Blocks;
use crate::fault::Fault;
use crate::help::Help;
use crate::literals::first_literal;
use crate::nesting::{mismatched, not_closed, opened_here, too_deep, unexpected};
use crate::problem::{SyntaxCode, SyntaxProblem};
use crate::range::{range_at, tag_range};
use crate::tags::tags_of;
use crate::unreadable::fault_of;
use crate::words::{Extent, Related, Words, notes_of};
use handlebars_base::error::{TemplateError, TemplateErrorReason};
use handlebars_lexer::tag::split_tag;
use std::alloc::{AllocError, Global};
use std::ops::Range;

/// Returns what is wrong with a source for which the compiler gives this error. Runs in time linear in the source.
///
/// # Errors
///
/// Fails if memory runs out, or ran out in the compilation.
pub fn diagnose(
    alloc: Global,
    source: &str,
    error: &TemplateError,
) -> Result<SyntaxProblem, AllocError>
    ensures code { IfOk result (λ problem. problem.code ≡ code_of (template_refusal_of error.now).reason) }
    ensures lies { IfOk result (λ problem. LiesIn source.now problem.range.start problem.range.end) }
    ensures notes { IfOk result (λ problem. All (IsNoteIn source.now) problem.notes.items) }
    ensures tag { IfOk result (λ problem. (line column : ℕ) → (template_refusal_of error.now).position ≡ Some (line, column)
        → is_of_tag problem.code ≡ true → IsTagRange source.now line column problem.range.start problem.range.end) }
{
    let (line, column) = error.pos().unwrap_or((1, 1));
    let tag = tag_range(alloc, source, line, column)?;
    let reason = error.reason();
    let code = SyntaxCode::of(reason);
    let mut words = Words::new(alloc);
    let left = source.split_at(tag.start).1;
    let place = explained(alloc, source, left, reason, code, &mut words)?;
    let notes = notes_of(alloc, source, place.related)?;
    let range = range_of(source, tag, place.extent);
    Ok(words.into_problem(code, range, notes))
}

// Explains a problem of this code, from whose tag on this is left of the source.
fn explained(
    alloc: Global,
    source: &str,
    left: &str,
    reason: &TemplateErrorReason,
    code: SyntaxCode,
    words: &mut Words,
) -> Result<Where, AllocError>
    ensures { IfOk result (λ place. is_of_tag code ≡ true → place.extent ≡ None) }
{
    match code {
        SyntaxCode::UnreadableTag => unreadable(alloc, source, left, words),
        SyntaxCode::InvalidLiteral => invalid_literal(alloc, source, reason, words),
        SyntaxCode::UnexpectedTag => of_tag(unexpected(alloc, source, left, words)),
        SyntaxCode::BlockNotClosed => of_tag(not_closed(alloc, source, left, words)),
        SyntaxCode::MismatchedClose => of_tag(mismatched(alloc, source, left, words)),
        SyntaxCode::NestingTooDeep => of_tag(too_deep(alloc, words)),
        SyntaxCode::InvalidTemplate => of_tag(other(alloc, reason, words)),
    }
}

// Where a problem is, if it is not the whole tag, and another place that belongs to it.
#[derive(Clone, Copy)]
struct Where {
    extent: Option<Extent>,
    related: Option<Related>,
}

// The range of a problem: a part of the source, or the tag.
fn range_of(source: &str, tag: Range<usize>, extent: Option<Extent>) -> Range<usize>
    requires { LiesIn source.now tag.start tag.end }
    ensures lies { LiesIn source.now result.start result.end }
    ensures tag { extent ≡ None → result ≡ tag }
{
    match extent {
        Some(Extent { left, len }) => range_at(source, left, len),
        None => tag,
    }
}

// The whole tag, with what else belongs to it.
fn of_tag(related: Result<Option<Related>, AllocError>) -> Result<Where, AllocError>
    ensures { IfOk result (λ place. place.extent ≡ None) }
{
    Ok(Where {
        extent: None,
        related: related?,
    })
}

// Explains an error that no compilation gives.
fn other(
    alloc: Global,
    reason: &TemplateErrorReason,
    words: &mut Words,
) -> Result<Option<Related>, AllocError> {
    if matches!(reason, TemplateErrorReason::OutOfMemory) {
        return Err(AllocError);
    }
    words.say(format!(in alloc; "{reason}")?);
    Ok(None)
}

// Explains why the tag that is left of a source can't be read.
fn unreadable(
    alloc: Global,
    source: &str,
    left: &str,
    words: &mut Words,
) -> Result<Where, AllocError> {
    if split_tag(alloc, left, true)?.is_some() {
        return in_raw_block(alloc, source, left, words);
    }
    let finding = fault_of(alloc, left)?;
    let fault = finding.fault;
    words.say(format!(in alloc; "{fault}")?);
    words.advise(format!(in alloc; "{}", Help(fault))?)?;
    Ok(Where {
        extent: Some(Extent {
            left: finding.left,
            len: finding.len,
        }),
        related: None,
    })
}

// Explains a tag in a raw block.
fn in_raw_block(
    alloc: Global,
    source: &str,
    left: &str,
    words: &mut Words,
) -> Result<Where, AllocError> {
    let tags = tags_of(alloc, source)?;
    let block = Blocks::before(alloc, &tags, left.len())?.innermost();
    let fault = Fault::TagInRawBlock(block.map_or("", |block| block.name));
    words.say(format!(in alloc; "{fault}")?);
    words.advise(format!(in alloc; "{}", Help(fault))?)?;
    Ok(Where {
        extent: None,
        related: block.map(opened_here),
    })
}

fn invalid_literal(
    alloc: Global,
    source: &str,
    reason: &TemplateErrorReason,
    words: &mut Words,
) -> Result<Where, AllocError> {
    let TemplateErrorReason::InvalidParam(raw) = reason else {
        return Ok(Where {
            extent: None,
            related: None,
        });
    };
    let raw = raw.as_str();
    words.say(format!(in alloc; "`{raw}` has no value")?);
    words.advise(String::from_str(alloc, literal_help(raw))?)?;
    let tags = tags_of(alloc, source)?;
    let left = first_literal(alloc, &tags, raw)?;
    Ok(Where {
        extent: left.map(|left| Extent {
            left,
            len: raw.len(),
        }),
        related: None,
    })
}

fn literal_help(raw: &str) -> &'static str {
    if raw.starts_with('"') || raw.starts_with('\'') {
        "an escape in a text is one of `\\\"`, `\\\\`, `\\/`, `\\b`, `\\f`, `\\n`, `\\r`, `\\t` and `\\u` with four hexadecimal digits"
    } else if raw.contains('[') || raw.contains('{') {
        "write JSON whose numbers are integers from -9223372036854775808 to 18446744073709551615"
    } else if raw.contains('.') || raw.contains('E') {
        "write an integer, or a text, as `\"1.5\"`"
    } else {
        "write an integer from -9223372036854775808 to 18446744073709551615 with no leading zero, or a text, as `\"007\"`"
    }
}
