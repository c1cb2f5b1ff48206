//! Expressions of tags, without recursion: one step after the other, and a count of the open parentheses.

ghost use Rattle.std.specs.Prelude.{IfOk, IfSome, MatchOption};
ghost use Rattle.handlebars_expressions.specs.Expression.{NoExpression};
ghost use Rattle.handlebars_expressions.specs.ExpressionLaws.{HasExpression};
ghost use Rattle.handlebars_expressions.specs.ExpressionView.{mode_of, enclosure_of};

use crate::literal::larger;
use std::alloc::{AllocError, Global};

mod alone;
mod close_name;
mod marks;
mod step;

pub use alone::{LonePath, NamedPath, path_alone, path_named, path_token};
pub use close_name::close_name_at;
pub use step::{Enclosure, Event, ExpressionState, NameMode, Phase, Step, take_step};

/// The greatest number of parentheses and brackets open at once in an expression, and what follows the expression.
#[derive(Clone, Copy, Debug)]
pub struct ExpressionToken<'a> {
    pub depth: usize,
    pub rest: &'a str,
}

/// Returns the expression of this mode at the start of a text, up to what ends it, or `None` if no expression is there.
///
/// # Errors
///
/// Fails with `AllocError` if memory runs out.
pub fn split_expression<'a>(
    alloc: Global,
    mode: NameMode,
    around: Enclosure,
    text: &'a str,
) -> Result<Option<ExpressionToken<'a>>, AllocError>
    ensures { IfOk result (λ read. MatchOption read (NoExpression (mode_of mode) (enclosure_of around) text.now)
        (λ token. HasExpression (mode_of mode) (enclosure_of around) text.now token.depth token.rest.now)) }
{
    match split_alone(mode, around, text) {
        Some(token) => Ok(Some(token)),
        None => split_terms(alloc, mode, around, text),
    }
}

/// The expression, if a path is alone in it, or alone after a name, so that no step is needed. `None` is inconclusive.
#[inline(always)]
fn split_alone(mode: NameMode, around: Enclosure, text: &str) -> Option<ExpressionToken<'_>>
    ensures { IfSome result
        (λ token. HasExpression (mode_of mode) (enclosure_of around) text.now token.depth token.rest.now) }
{
    match mode {
        NameMode::Value => match path_alone(around, text) {
            Some(token) => Some(ExpressionToken {
                depth: 0,
                rest: token.rest,
            }),
            None => None,
        },
        NameMode::Identifier => match path_named(around, text) {
            Some(found) => Some(ExpressionToken {
                depth: 0,
                rest: found.rest,
            }),
            None => None,
        },
        NameMode::Close => None,
        NameMode::Opening => None,
    }
}

/// Returns what `split_expression` returns, step by step. It is for callers that have seen that no path is alone in the
/// expression.
///
/// # Errors
///
/// Fails with `AllocError` if memory runs out.
pub fn split_terms<'a>(
    alloc: Global,
    mode: NameMode,
    around: Enclosure,
    text: &'a str,
) -> Result<Option<ExpressionToken<'a>>, AllocError>
    ensures { IfOk result (λ read. MatchOption read (NoExpression (mode_of mode) (enclosure_of around) text.now)
        (λ token. HasExpression (mode_of mode) (enclosure_of around) text.now token.depth token.rest.now)) }
{
    let mut state = ExpressionState::first(mode);
    let mut rest = text;
    let mut depth = 0;
    'reading: loop {
        match take_step(alloc, around, state, rest)? {
            Step::Goes(event, next, after) => {
                depth = larger(depth, event.height());
                state = next;
                rest = after;
            }
            Step::Ends => return Ok(Some(ExpressionToken { depth, rest })),
            Step::Stuck => return Ok(None),
        }
    }
}
