//! What is wrong, in words.

use crate::fault::Fault;
use crate::opening::TagKind;
use crate::sentence::Sentence;
use std::fmt;

impl fmt::Display for Fault<'_> {
    fn fmt<W: fmt::Write>(&self, f: &mut fmt::Formatter<W>) -> fmt::Result {
        match *self {
            Fault::SplitSign(sign) => write!(f, "no blank may be between `#` and `{sign}`"),
            Fault::Arithmetic(sign) => write!(f, "there is no operator `{sign}`"),
            Fault::Expected(what, found) => expected(f, what, found),
            fault => sentence(fault).fmt(f),
        }
    }
}

fn expected<W: fmt::Write>(
    f: &mut fmt::Formatter<W>,
    what: &str,
    found: Option<char>,
) -> fmt::Result {
    match found {
        Some('\n' | '\r') => write!(f, "expected {what}, found the end of the line"),
        Some(c) => write!(f, "expected {what}, found `{c}`"),
        None => write!(f, "expected {what}, found the end of the source"),
    }
}

fn sentence(fault: Fault<'_>) -> Sentence<'_> {
    match fault {
        Fault::NameMissing(what) => Sentence::with("the name of the ", what, " is missing"),
        Fault::LackingBraces(_, found, braces) => Sentence::with_two(
            "expected `",
            braces,
            "`, found `",
            found,
            "`",
        ),
        Fault::Operator(operator, _, _, _, _) => no_operator(operator),
        Fault::Negation(_, _) => no_operator("!"),
        Fault::Fallback(operator, _, _) => no_operator(operator),
        Fault::Conditional(_) => no_operator("? :"),
        Fault::OptionalChain(_, _) => no_operator("?."),
        Fault::PathWithParameters(_, path, _) => Sentence::with(
            "`",
            path,
            "` is a path and takes no parameters",
        ),
        Fault::KeyWithoutValue(key) => Sentence::with("`", key, "=` has no value"),
        fault => Sentence::plain(of_tag(fault)),
    }
}

fn no_operator(operator: &'static str) -> Sentence<'static> {
    Sentence::with("there is no operator `", operator, "`")
}

// Mistakes in a tag as a whole.
fn of_tag(fault: Fault<'_>) -> &'static str {
    match fault {
        Fault::EmptyTag => "the tag is empty",
        Fault::QuotedName(kind, _) => quoted_name(kind),
        Fault::NoIdentifier(_, _, _) => "the name of a block is a single word here",
        Fault::TildedComment(_) => "a comment takes no tildes",
        Fault::LateComment => "expected a name, found `!`",
        Fault::OpenComment(_) => "the comment is not closed",
        Fault::ForeignComment => "this is no comment",
        Fault::Delimiters => "the delimiters of tags can't be changed",
        Fault::PercentTag => "tags have no `%`",
        Fault::InvertedSection(_) => "`^` takes no name",
        Fault::EndWithMore(_) => "an end takes the name of its block alone",
        Fault::TagInRawBlock(_) => "in a raw block four braces can only be its end",
        Fault::NotClosed(_, _) => "the tag is not closed",
        Fault::TagInTag(_, _) => "a tag can't be inside a tag",
        fault => of_expression(fault),
    }
}

// Mistakes in an expression.
fn of_expression(fault: Fault<'_>) -> &'static str {
    match fault {
        Fault::OpenText(_, _) => "the text is not closed",
        Fault::OpenParenthesis => "the parenthesis is not closed",
        Fault::StrayParenthesis => "no parenthesis is open that `)` closes",
        Fault::Pipe(_, _, _) => "there are no pipes",
        Fault::Index(_, _) => "expected `.` before `[`",
        Fault::CallSyntax(_, _, _) => "a helper is called without parentheses after its name",
        Fault::Method(_) => "a value has no methods",
        Fault::Comma(_) => "parameters are separated by blanks, not by commas",
        Fault::Semicolon => "a tag takes no `;`",
        Fault::LeadingDot(_) => "a path doesn't begin with `.`",
        Fault::DanglingDot(_) => "expected a name after the path's last separator",
        Fault::UnquotedKey(_) => "the key of an object is a text in double quotes",
        Fault::BrokenList => "this list can't be read",
        Fault::BrokenObject => "this object can't be read",
        Fault::AtBlock(_, _) => "a block doesn't begin with `@`",
        Fault::Backquote => "a text is in double or single quotes",
        fault => of_names(fault),
    }
}

// Mistakes in the names that a block binds.
fn of_names(fault: Fault<'_>) -> &'static str {
    match fault {
        Fault::OpenBars(_) => "expected `|` after the block's names",
        Fault::CommaInBars(_, _) => "the block's names are separated by a blank",
        Fault::NamesInBars => "a block binds one name or two",
        Fault::NoBars(_) => "the block's names are between bars",
        Fault::NoNamesHere(kind, _) => binds_none(kind),
        _ => "",
    }
}

fn quoted_name(kind: TagKind) -> &'static str {
    match kind {
        TagKind::Partial | TagKind::PartialBlock => "the name of a partial has no double quotes",
        TagKind::Value | TagKind::Html => "expected a name, found a text",
        _ => "the name of a block has no quotes",
    }
}

fn binds_none(kind: TagKind) -> &'static str {
    match kind {
        TagKind::Partial | TagKind::PartialBlock => "a partial binds no names",
        TagKind::Decorator | TagKind::DecoratorBlock => "a decorator binds no names",
        _ => "only a block binds names",
    }
}
