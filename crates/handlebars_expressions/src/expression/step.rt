//! One step through an expression: what comes next.

ghost use Rattle.std.specs.Prelude.{◌≡◌, ◌<◌, ◌^◌, IfOk};
ghost use Rattle.handlebars_expressions.specs.Parameter.{is_reserved};
ghost use Rattle.handlebars_base.specs.PathView.{path_token_of};
ghost use Rattle.handlebars_expressions.specs.Expression.{opening_name};
ghost use Rattle.handlebars_expressions.specs.ExpressionReading.{at_name, expression_state, after_name, open_step, plain_step, section_step, opening_step, name_step, is_excluded, parameter_step, item_step, next_step, after_step, expression_step};
ghost use Rattle.handlebars_expressions.specs.ExpressionView.{mode_of, enclosure_of, key_of, phase_of, expression_state_of, reading_step_of, height_of};

use super::alone::{name_prefix, path_token};
use super::close_name::{close_name_at, is_close_name};
use super::marks::{is_end, key_and_equals_at};
use crate::literal::literal_at;
use handlebars_base::json::path::marks::{
    after_byte, after_white, all_symbols, starts_white, symbols,
};
use handlebars_base::json::path::{PathToken, split_path};
use std::alloc::{AllocError, Global};

/// Where an expression is: it ends before `~` or `}` in a tag, there or before `as |` in the tag of a block, and before `)` in
/// parentheses.
#[derive(Clone, Copy)]
pub enum Enclosure {
    Tag,
    Block,
    Parentheses,
}

/// What the name of an expression may be: an identifier, as for a raw block; an identifier or, with nothing after it, a path,
/// as for a value; the name in a closing tag; or an identifier or, with nothing after it, a path that a closing tag may name,
/// as for a block. Instead of a value's name or the name in a closing tag, an expression in parentheses is allowed.
#[derive(Clone, Copy)]
pub enum NameMode {
    Identifier,
    Value,
    Close,
    Opening,
}

/// How an expression may continue.
#[derive(Clone, Copy)]
pub enum Phase {
    /// With its name, in this mode.
    Name(NameMode),
    /// With items, or at its end.
    Items,
    /// Only at its end.
    End,
}

/// The phase of the reading, and how many parentheses are open.
#[derive(Clone, Copy)]
pub struct ExpressionState {
    pub phase: Phase,
    pub level: usize,
}

impl ExpressionState {
    /// Returns the state at the beginning of an expression of this mode, outside parentheses.
    pub fn first(mode: NameMode) -> ExpressionState
        ensures { expression_state_of result ≡ expression_state (at_name (mode_of mode)) 0 }
    {
        ExpressionState {
            phase: Phase::Name(mode),
            level: 0,
        }
    }
}

/// What a step takes: an opening parenthesis, or a literal or a path by its text, each after a key or not; a name by its
/// text, outside parentheses; or a closing parenthesis. The numbers say how many parentheses and brackets are then open
/// at once.
#[derive(Clone, Copy)]
pub enum Event<'a> {
    Opened(Option<&'a str>, usize),
    Literal(Option<&'a str>, &'a str, usize),
    Path(Option<&'a str>, &'a str, usize),
    Name(&'a str),
    Closed,
}

impl Event<'_> {
    /// Returns how many parentheses and brackets are then open at once.
    #[inline(always)]
    pub fn height(self) -> usize
        ensures { result ≡ height_of self.entry }
    {
        match self {
            Event::Opened(_, height) => height,
            Event::Literal(_, _, height) => height,
            Event::Path(_, _, height) => height,
            Event::Name(_) => 0,
            Event::Closed => 0,
        }
    }
}

/// What comes next.
#[derive(Clone, Copy)]
pub enum Step<'a> {
    /// What is taken, the state that follows, and the text after it.
    Goes(Event<'a>, ExpressionState, &'a str),
    /// Optional whitespace, and the end of the expression.
    Ends,
    /// Nothing with which an expression may continue.
    Stuck,
}

/// Only an identifier takes items.
#[inline(always)]
fn after_name(raw: &str) -> Phase
    ensures { phase_of result ≡ after_name raw.now }
{
    if all_symbols(raw) {
        Phase::Items
    } else {
        Phase::End
    }
}

/// After an opening parenthesis.
#[inline(always)]
fn open_step<'a>(key: Option<&'a str>, level: usize, rest: &'a str) -> Step<'a>
    requires { level < 2 ^ 63 }
    ensures { reading_step_of result ≡ open_step (key_of key.entry) level rest.now }
{
    let state = ExpressionState {
        phase: Phase::Name(NameMode::Value),
        level: level + 1,
    };
    Step::Goes(Event::Opened(key, level + 1), state, after_white(rest))
}

/// A name by its text, if it isn't empty, and what follows it.
#[inline(always)]
fn plain_step<'a>(level: usize, name: &'a str, rest: &'a str) -> Step<'a>
    ensures { reading_step_of result ≡ plain_step level (name.now, rest.now) }
{
    if name.is_empty() {
        return Step::Stuck;
    }
    let state = ExpressionState {
        phase: Phase::Items,
        level,
    };
    Step::Goes(Event::Name(name), state, rest)
}

/// A path that a closing tag may name, with nothing after it.
fn section_step(level: usize, token: PathToken<'_>) -> Step<'_>
    ensures { reading_step_of result ≡ section_step level (path_token_of token.entry) }
{
    if !is_close_name(token.raw) {
        return Step::Stuck;
    }
    let state = ExpressionState {
        phase: Phase::End,
        level,
    };
    Step::Goes(Event::Path(None, token.raw, level), state, token.rest)
}

/// By the path at the start, and what follows it: an identifier is a name by its text.
fn opening_step(level: usize, token: PathToken<'_>) -> Step<'_>
    ensures { reading_step_of result ≡ opening_step level (path_token_of token.entry) }
{
    if !all_symbols(token.raw) {
        return section_step(level, token);
    }
    let state = ExpressionState {
        phase: Phase::Items,
        level,
    };
    Step::Goes(Event::Name(token.raw), state, token.rest)
}

/// The name of a block, where it isn't known that an identifier is there.
#[inline(never)]
#[tactic(auto, unfolding(crate::specs::ExpressionReading::name_step))]
fn path_step(level: usize, text: &str) -> Step<'_>
    ensures { reading_step_of result ≡ name_step opening_name level text.now }
{
    match split_path(text) {
        Some(token) => opening_step(level, token),
        None => Step::Stuck,
    }
}

#[inline(always)]
#[tactic(auto, unfolding(crate::specs::ExpressionReading::name_step))]
fn name_step(mode: NameMode, level: usize, text: &str) -> Step<'_>
    requires { level < 2 ^ 63 }
    ensures { reading_step_of result ≡ name_step (mode_of mode) level text.now }
{
    match mode {
        NameMode::Identifier => {
            let (name, rest) = symbols(text);
            plain_step(level, name, rest)
        }
        NameMode::Value => match after_byte(b'(', text) {
            Some(rest) => open_step(None, level, rest),
            None => match path_token(text) {
                Some(token) => {
                    let phase = after_name(token.raw);
                    let event = Event::Path(None, token.raw, level);
                    Step::Goes(event, ExpressionState { phase, level }, token.rest)
                }
                None => Step::Stuck,
            },
        },
        NameMode::Close => match after_byte(b'(', text) {
            Some(rest) => open_step(None, level, rest),
            None => {
                let (name, rest) = close_name_at(text);
                plain_step(level, name, rest)
            }
        },
        NameMode::Opening => match name_prefix(text) {
            Some(token) => plain_step(level, token.raw, token.rest),
            None => path_step(level, text),
        },
    }
}

pub(crate) fn is_reserved(raw: &str) -> bool
    ensures { result ≡ is_reserved raw.now }
{
    match raw.as_bytes() {
        [b'a', ..] => raw == "as",
        [b'e', ..] => raw == "else",
        _ => false,
    }
}

/// After a key a reserved word is a path.
#[inline(always)]
fn is_excluded(key: Option<&str>, raw: &str) -> bool
    ensures { result ≡ is_excluded (key_of key.entry) raw.now }
{
    match key {
        Some(_) => false,
        None => is_reserved(raw),
    }
}

#[inline(always)]
#[tactic(auto, unfolding(crate::specs::ExpressionReading::parameter_step))]
fn parameter_step<'a>(
    alloc: Global,
    key: Option<&'a str>,
    level: usize,
    text: &'a str,
) -> Result<Step<'a>, AllocError>
    requires { level < 2 ^ 63 }
    ensures { IfOk result (λ step. reading_step_of step ≡ parameter_step (key_of key.entry) level text.now) }
{
    if let Some(rest) = after_byte(b'(', text) {
        return Ok(open_step(key, level, rest));
    }
    let state = ExpressionState {
        phase: Phase::Items,
        level,
    };
    if let Some(token) = literal_at(alloc, text)? {
        let event = Event::Literal(key, token.raw, level + token.depth);
        return Ok(Step::Goes(event, state, token.rest));
    }
    match path_token(text) {
        Some(token) => {
            if is_excluded(key, token.raw) {
                return Ok(Step::Stuck);
            }
            Ok(Step::Goes(Event::Path(key, token.raw, level), state, token.rest))
        }
        None => Ok(Step::Stuck),
    }
}

#[inline(always)]
#[tactic(auto, unfolding(crate::specs::ExpressionReading::item_step))]
fn item_step(alloc: Global, level: usize, text: &str) -> Result<Step<'_>, AllocError>
    requires { level < 2 ^ 63 }
    ensures { IfOk result (λ step. reading_step_of step ≡ item_step level text.now) }
{
    match key_and_equals_at(text) {
        Some((key, rest)) => parameter_step(alloc, Some(key), level, rest),
        None => parameter_step(alloc, None, level, text),
    }
}

/// An item comes after whitespace, where items may follow.
#[inline(always)]
fn next_step(alloc: Global, phase: Phase, level: usize, text: &str) -> Result<Step<'_>, AllocError>
    requires { level < 2 ^ 63 }
    ensures { IfOk result (λ step. reading_step_of step ≡ next_step (phase_of phase) level text.now) }
{
    match phase {
        Phase::Name(_) | Phase::End => Ok(Step::Stuck),
        Phase::Items => {
            if starts_white(text) {
                item_step(alloc, level, after_white(text))
            } else {
                Ok(Step::Stuck)
            }
        }
    }
}

/// The end, if no parenthesis is open, or a closing one; or an item.
#[tactic(auto, unfolding(crate::specs::ExpressionReading::after_step))]
fn after_step(
    alloc: Global,
    around: Enclosure,
    phase: Phase,
    level: usize,
    text: &str,
) -> Result<Step<'_>, AllocError>
    requires { level < 2 ^ 63 }
    ensures { IfOk result (λ step. reading_step_of step ≡ after_step (enclosure_of around) (phase_of phase) level text.now) }
{
    if level == 0 {
        return if is_end(around, text) {
            Ok(Step::Ends)
        } else {
            next_step(alloc, phase, 0, text)
        };
    }
    match after_byte(b')', after_white(text)) {
        Some(rest) => {
            let state = ExpressionState {
                phase: Phase::Items,
                level: level - 1,
            };
            Ok(Step::Goes(Event::Closed, state, rest))
        }
        None => next_step(alloc, phase, level, text),
    }
}

/// Takes the step from a state.
///
/// # Errors
///
/// Fails with `AllocError` if memory runs out.
#[tactic(auto, unfolding(crate::specs::ExpressionReading::expression_step))]
pub fn take_step(
    alloc: Global,
    around: Enclosure,
    state: ExpressionState,
    text: &str,
) -> Result<Step<'_>, AllocError>
    requires { state.level < 2 ^ 63 }
    ensures { IfOk result (λ step. reading_step_of step ≡ expression_step (enclosure_of around) (expression_state_of state) text.now) }
{
    match state.phase {
        Phase::Name(mode) => Ok(name_step(mode, state.level, text)),
        Phase::Items => after_step(alloc, around, Phase::Items, state.level, text),
        Phase::End => after_step(alloc, around, Phase::End, state.level, text),
    }
}
