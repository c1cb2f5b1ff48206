//! Keys and ends at the start of a text.

ghost use Rattle.std.specs.Prelude.{◌≡◌, ◌==◌};
ghost use Rattle.std.specs.Option.{option_map};
ghost use Rattle.handlebars_base.specs.Texts.{starts};
ghost use Rattle.handlebars_expressions.specs.Parameter.{right_parenthesis};
ghost use Rattle.handlebars_expressions.specs.Expression.{ends_tag, is_end};
ghost use Rattle.handlebars_expressions.specs.ExpressionReading.{key_and_equals_at};
ghost use Rattle.handlebars_expressions.specs.ExpressionView.{enclosure_of, texts_of};

use super::step::Enclosure;
use crate::binding::after_beginning;
use handlebars_base::json::path::marks::{after_byte, after_white, symbols};

fn ends_tag(byte: u8) -> bool
    ensures { result ≡ ends_tag byte }
{
    byte == b'~' || byte == b'}'
}

fn starts_tag_end(text: &str) -> bool
    ensures { result ≡ starts ends_tag text.now }
{
    match text.as_bytes() {
        [first, ..] => ends_tag(*first),
        [] => false,
    }
}

fn starts_parenthesis(text: &str) -> bool
    ensures { result ≡ starts (λ b. b == right_parenthesis) text.now }
{
    match text.as_bytes() {
        [first, ..] => *first == b')',
        [] => false,
    }
}

/// Returns whether an expression ends here, after optional whitespace.
#[inline(always)]
pub fn is_end(around: Enclosure, text: &str) -> bool
    ensures { result ≡ is_end (enclosure_of around) text.now }
{
    match around {
        Enclosure::Tag => starts_tag_end(after_white(text)),
        Enclosure::Block => { starts_tag_end(after_white(text)) || after_beginning(text).is_some() }
        Enclosure::Parentheses => starts_parenthesis(after_white(text)),
    }
}

/// Returns a key, and what follows its `=` and whitespace.
#[inline(always)]
#[tactic(auto, unfolding(crate::specs::ExpressionReading::key_and_equals_at))]
pub fn key_and_equals_at(text: &str) -> Option<(&str, &str)>
    ensures { option_map texts_of result ≡ key_and_equals_at text.now }
{
    let (key, rest) = symbols(text);
    if key.is_empty() {
        return None;
    }
    let rest = after_byte(b'=', after_white(rest))?;
    Some((key, after_white(rest)))
}
