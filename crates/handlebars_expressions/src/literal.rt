//! Literals, without recursion: one token after the other, and the kinds of the open brackets.

ghost use Rattle.std.specs.Prelude.{◌≡◌, ◌<◌, ◌≤◌, ◌++◌, ◌∷◌, [], true, None, length, max, IfOk, OnOk, IfSome, MatchOption};
ghost use Rattle.std.specs.List.{list_all};
ghost use Rattle.std.specs.Char.{is_ascii_digit};
ghost use Rattle.std.specs.Option.{option_map};
ghost use Rattle.handlebars_base.specs.Texts.{IsSuffix, starts};
ghost use Rattle.handlebars_expressions.specs.Literal.{is_digits, is_integer, is_decimal, is_number, number_of, is_in_range_below, is_in_range, is_word, closer};
ghost use Rattle.handlebars_expressions.specs.LiteralReading.{begins_number, begins_name, after_scalar, undoubled_at, unbracketed_at, in_range_at, after_lead, bracket_token, value_token, entry_token, token_at, innermost, literal_token_to, literal_at};
ghost use Rattle.handlebars_expressions.specs.LiteralView.{bracket_of, stack_of, token_of, literal_token_of};
ghost use Rattle.handlebars_expressions.specs.Laws.{HasLiteral, NoLiteral};

use crate::marks::{after_quote, run, starts_run};
use handlebars_base::json::path::marks::{after_byte, after_white};
use std::alloc::{AllocError, Global};

/// A literal's text, what follows it, how many of its brackets are open at once at most, and whether its numbers are in range:
/// integers from -2^63 to 2^64 - 1, and no `-0`.
#[derive(Clone, Copy, Debug)]
pub struct LiteralToken<'a> {
    pub raw: &'a str,
    pub rest: &'a str,
    pub depth: usize,
    pub in_range: bool,
}

/// Returns the literal at the start of a text, or `None` if no literal is there.
///
/// # Errors
///
/// Fails with `AllocError` if memory runs out.
pub fn split_literal(alloc: Global, text: &str) -> Result<Option<LiteralToken<'_>>, AllocError>
    ensures reads { IfOk result (λ read. MatchOption read (NoLiteral text.now)
        (λ literal. HasLiteral text.now (literal_token_of literal))) }
    ensures depth { IfOk result (λ read. IfSome read (λ literal. literal.depth ≤ length text.now)) }
{
    literal_at(alloc, text)
}

/// What opens an array or an object.
#[derive(Clone, Copy)]
enum Bracket {
    Array,
    Object,
}

/// What comes next, with what follows it.
#[derive(Clone, Copy)]
enum Token<'a> {
    /// A literal with no brackets, its number in range or not.
    Unbracketed(bool, &'a str),
    /// Brackets with whitespace alone.
    EmptyBrackets(&'a str),
    /// An opening bracket and what leads to its first entry.
    OpeningBracket(Bracket, &'a str),
    /// A comma and what leads to another entry.
    AnotherEntry(&'a str),
    /// A closing bracket.
    ClosingBracket(&'a str),
    LiteralEnd,
    NoToken,
}

fn all_digits(bytes: &[u8]) -> bool
    ensures { result ≡ list_all is_ascii_digit bytes.now }
{
    bytes.iter().all(|byte| byte.is_ascii_digit())
}

fn is_digits(bytes: &[u8]) -> bool
    ensures { result ≡ is_digits bytes.now }
{
    match bytes {
        [_, ..] => all_digits(bytes),
        [] => false,
    }
}

fn is_integer(bytes: &[u8]) -> bool
    ensures { result ≡ is_integer bytes.now }
{
    match bytes {
        [b'-', rest @ ..] => is_digits(rest),
        _ => is_digits(bytes),
    }
}

fn is_decimal(text: &str) -> bool
    ensures { result ≡ is_decimal text.now }
{
    match text.split_once('.') {
        Some((whole, fraction)) => is_integer(whole.as_bytes()) && is_digits(fraction.as_bytes()),
        None => is_integer(text.as_bytes()),
    }
}

/// Whether a number may begin so. Most texts are names, for which this is the only check.
fn begins_number(text: &str) -> bool
    ensures { result ≡ starts begins_number text.now }
{
    match text.as_bytes() {
        [first, ..] => first.is_ascii_digit() || *first == b'-',
        [] => false,
    }
}

fn is_number(text: &str) -> bool
    ensures { result ≡ is_number text.now }
{
    begins_number(text) && (is_digits(text.as_bytes()) || is_number_throughout(text))
}

fn is_number_throughout(text: &str) -> bool
    ensures { result ≡ is_number text.now }
{
    match text.split_once('E') {
        Some((prefix, exponent)) => is_decimal(prefix) && is_integer(exponent.as_bytes()),
        None => is_decimal(text),
    }
}

/// The number that digits spell, if it is below 2^64.
pub(crate) fn number_of(text: &str) -> Option<u64>
    ensures { result ≡ number_of text.now }
{
    if is_digits(text.as_bytes()) {
        text.parse().ok()
    } else {
        None
    }
}

fn is_in_range_below(number: u64) -> bool
    ensures { result ≡ is_in_range_below number }
{
    0 < number && number <= 9_223_372_036_854_775_808
}

#[tactic(auto, unfolding(crate::specs::Literal::is_in_range))]
fn is_in_range(text: &str) -> bool
    ensures { result ≡ is_in_range text.now }
{
    match after_byte(b'-', text) {
        Some(digits) => match number_of(digits) {
            Some(number) => is_in_range_below(number),
            None => false,
        },
        None => number_of(text).is_some(),
    }
}

fn is_word(text: &str) -> bool
    ensures { result ≡ is_word text.now }
{
    // Most texts are names, which their first byte distinguishes from a word.
    match text.as_bytes() {
        [b'n', ..] => text == "null",
        [b't', ..] => text == "true",
        [b'f', ..] => text == "false",
        _ => false,
    }
}

#[tactic(auto, unfolding(crate::specs::LiteralReading::after_scalar))]
fn plain_at(text: &str) -> Option<&str>
    ensures { option_map (λ rest. rest.now) result ≡ after_scalar text.now }
{
    let (prefix, rest) = run(text);
    if is_number(prefix) || is_word(prefix) {
        Some(rest)
    } else {
        None
    }
}

/// Inside brackets texts are in double quotes only.
#[inline(always)]
#[tactic(auto, unfolding(crate::specs::LiteralReading::undoubled_at))]
fn undoubled_at(inside: bool, text: &str) -> Option<&str>
    ensures { option_map (λ rest. rest.now) result ≡ undoubled_at inside text.now }
{
    if inside {
        return plain_at(text);
    }
    match after_byte(b'\'', text) {
        Some(rest) => after_quote(b'\'', rest),
        None => plain_at(text),
    }
}

#[inline(always)]
#[tactic(auto, unfolding(crate::specs::LiteralReading::unbracketed_at))]
fn unbracketed_at(inside: bool, text: &str) -> Option<&str>
    ensures { option_map (λ rest. rest.now) result ≡ unbracketed_at inside text.now }
{
    match after_byte(b'"', text) {
        Some(rest) => after_quote(b'"', rest),
        None => undoubled_at(inside, text),
    }
}

/// Whether the number at the start is in range, if one is there.
#[tactic(auto, unfolding(crate::specs::LiteralReading::in_range_at))]
fn in_range_at(text: &str) -> bool
    ensures { result ≡ in_range_at text.now }
{
    let prefix = run(text).0;
    is_in_range(prefix) || !is_number(prefix)
}

/// Where the literal of an entry is: in an object after a key, its colon and whitespace.
fn after_lead(bracket: Bracket, text: &str) -> Option<&str>
    ensures { option_map (λ rest. rest.now) result ≡ after_lead (bracket_of bracket) text.now }
{
    match bracket {
        Bracket::Array => Some(text),
        Bracket::Object => {
            let rest = after_quote(b'"', after_byte(b'"', text)?)?;
            let rest = after_byte(b':', after_white(rest))?;
            Some(after_white(rest))
        }
    }
}

fn closer(bracket: Bracket) -> u8
    ensures within { result < 128 }
    ensures is { result ≡ closer (bracket_of bracket) }
{
    match bracket {
        Bracket::Array => b']',
        Bracket::Object => b'}',
    }
}

/// After an opening bracket and whitespace.
#[tactic(auto, unfolding(crate::specs::LiteralReading::bracket_token))]
fn bracket_token(bracket: Bracket, text: &str) -> Token<'_>
    ensures { token_of result ≡ bracket_token (bracket_of bracket) text.now }
{
    if let Some(rest) = after_byte(closer(bracket), text) {
        return Token::EmptyBrackets(rest);
    }
    match after_lead(bracket, text) {
        Some(rest) => Token::OpeningBracket(bracket, rest),
        None => Token::NoToken,
    }
}

/// Where a literal is expected, inside brackets or not.
#[inline(always)]
#[tactic(auto, unfolding(crate::specs::LiteralReading::value_token))]
fn value_token(inside: bool, text: &str) -> Token<'_>
    ensures { token_of result ≡ value_token inside text.now }
{
    if let Some(rest) = after_byte(b'[', text) {
        return bracket_token(Bracket::Array, after_white(rest));
    }
    if let Some(rest) = after_byte(b'{', text) {
        return bracket_token(Bracket::Object, after_white(rest));
    }
    match unbracketed_at(inside, text) {
        Some(rest) => Token::Unbracketed(in_range_at(text), rest),
        None => Token::NoToken,
    }
}

/// After an entry and whitespace.
#[tactic(auto, unfolding(crate::specs::LiteralReading::entry_token))]
fn entry_token(bracket: Bracket, text: &str) -> Token<'_>
    ensures { token_of result ≡ entry_token (bracket_of bracket) text.now }
{
    if let Some(rest) = after_byte(b',', text) {
        return match after_lead(bracket, after_white(rest)) {
            Some(after) => Token::AnotherEntry(after),
            None => Token::NoToken,
        };
    }
    match after_byte(closer(bracket), text) {
        Some(rest) => Token::ClosingBracket(rest),
        None => Token::NoToken,
    }
}

/// What comes next: before a literal or after one, inside this bracket.
#[inline(always)]
#[tactic(auto, unfolding(crate::specs::LiteralReading::token_at))]
fn token_at(ahead: bool, innermost: Option<Bracket>, text: &str) -> Token<'_>
    ensures { token_of result ≡ token_at ahead (option_map bracket_of innermost) text.now }
{
    if ahead {
        return value_token(innermost.is_some(), text);
    }
    match innermost {
        Some(bracket) => entry_token(bracket, after_white(text)),
        None => Token::LiteralEnd,
    }
}

/// What comes next inside these brackets, the outermost first.
#[inline(always)]
fn token_in<'a>(ahead: bool, around: &Vec<Bracket>, text: &'a str) -> Token<'a>
    ensures { token_of result ≡ token_at ahead (innermost (stack_of around.now.items)) text.now }
{
    token_at(ahead, around.last().copied(), text)
}

#[inline(always)]
pub(crate) fn larger(a: usize, b: usize) -> usize
    ensures { result ≡ max a b }
{
    if a < b { b } else { a }
}

/// Opens a bracket. Returns the greatest number of brackets that were open at once.
fn open_bracket(
    around: &mut Vec<Bracket>,
    bracket: Bracket,
    depth: usize,
) -> Result<usize, AllocError>
    ensures around { OnOk result (around.new.items ≡ around.old.items ++ bracket ∷ []) }
    ensures depth { IfOk result (λ deeper. deeper ≡ max depth (length around.new.items)) }
{
    around.push(bracket)?;
    Ok(larger(depth, around.len()))
}

/// The literal that ends before this rest, unless its last word continues there.
fn literal_token_to<'a>(
    text: &'a str,
    rest: &'a str,
    depth: usize,
    in_range: bool,
) -> Option<LiteralToken<'a>>
    requires { IsSuffix text.now rest.now }
    ensures reads { option_map literal_token_of result ≡ literal_token_to text.now rest.now depth in_range }
    ensures depth { IfSome result (λ literal. literal.depth ≡ depth) }
{
    if starts_run(rest) {
        return None;
    }
    let raw = text.split_at(text.len() - rest.len()).0;
    Some(LiteralToken {
        raw,
        rest,
        depth,
        in_range,
    })
}

/// A lowercase letter with which no literal begins.
fn begins_name(byte: u8) -> bool
    ensures { result ≡ begins_name byte }
{
    byte.is_ascii_lowercase() && !(byte == b'n' || byte == b't' || byte == b'f')
}

/// Whether such a letter is at the start, and so no literal.
pub(crate) fn starts_name(text: &str) -> bool
    ensures starts { result ≡ starts begins_name text.now }
    ensures none { result ≡ true → literal_at text.now ≡ None }
{
    match text.as_bytes() {
        [first, ..] => begins_name(*first),
        [] => false,
    }
}

/// The literal at the start. Most texts that are where a literal may be are names, as their first byte shows.
pub(crate) fn literal_at(alloc: Global, text: &str) -> Result<Option<LiteralToken<'_>>, AllocError>
    ensures reads { IfOk result (λ read. option_map literal_token_of read ≡ literal_at text.now) }
    ensures depth { IfOk result (λ read. IfSome read (λ literal. literal.depth ≤ length text.now)) }
{
    if starts_name(text) {
        return Ok(None);
    }
    literal_throughout(alloc, text)
}

/// The literal at the start, by its tokens.
fn literal_throughout(alloc: Global, text: &str) -> Result<Option<LiteralToken<'_>>, AllocError>
    ensures reads { IfOk result (λ read. option_map literal_token_of read ≡ literal_at text.now) }
    ensures depth { IfOk result (λ read. IfSome read (λ literal. literal.depth ≤ length text.now)) }
{
    let mut around: Vec<Bracket> = Vec::new(alloc);
    let mut ahead = true;
    let mut rest = text;
    let mut depth = 0;
    let mut in_range = true;
    'reading: loop {
        match token_in(ahead, &around, rest) {
            Token::Unbracketed(within_range, after) => {
                in_range &= within_range;
                ahead = false;
                rest = after;
            }
            Token::EmptyBrackets(after) => {
                depth = larger(depth, around.len() + 1);
                ahead = false;
                rest = after;
            }
            Token::OpeningBracket(bracket, after) => {
                depth = open_bracket(&mut around, bracket, depth)?;
                ahead = true;
                rest = after;
            }
            Token::AnotherEntry(after) => {
                ahead = true;
                rest = after;
            }
            Token::ClosingBracket(after) => {
                around.pop();
                ahead = false;
                rest = after;
            }
            Token::LiteralEnd => return Ok(literal_token_to(text, rest, depth, in_range)),
            Token::NoToken => return Ok(None),
        }
    }
}
