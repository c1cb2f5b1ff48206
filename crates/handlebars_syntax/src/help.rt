//! What to write instead.

use crate::fault::{Fault, Form, NAME};
use crate::opening::TagKind;
use crate::sentence::Sentence;
use std::fmt;

/// The help for a mistake. It shows nothing if there is none.
#[derive(Clone, Copy)]
pub struct Help<'a>(pub Fault<'a>);

impl fmt::Display for Help<'_> {
    fn fmt<W: fmt::Write>(&self, f: &mut fmt::Formatter<W>) -> fmt::Result {
        match self.0 {
            Fault::QuotedName(kind, name) => unquoted(f, kind, name),
            Fault::SplitSign(sign) => write!(f, "write `{{{{#{sign}`"),
            Fault::OpenText(text, quote) => write!(f, "write `{text}{quote}`"),
            Fault::Pipe(form, value, helper) => {
                write!(f, "call a helper: `{}`", form.call(helper, value, ""))
            }
            Fault::Operator(_, form, helper, left, right) => {
                call_of(f, form, helper, left, right)
            }
            Fault::Negation(form, operand) => call_of(f, form, "not", operand, ""),
            Fault::CallSyntax(form, name, arguments) => call(f, form, name, arguments),
            fault => of_tag(fault).fmt(f),
        }
    }
}

fn unquoted<W: fmt::Write>(f: &mut fmt::Formatter<W>, kind: TagKind, name: &str) -> fmt::Result {
    match kind {
        TagKind::Value | TagKind::Html => write!(
            f,
            "write `{name}` outside of a tag, or pass the text to a helper"
        ),
        _ if name.contains(' ') => write!(f, "write `{}[{name}]}}}}`", kind.sign()),
        _ => write!(f, "write `{}{name}}}}}`", kind.sign()),
    }
}

fn call_of<W: fmt::Write>(
    f: &mut fmt::Formatter<W>,
    form: Form<'_>,
    helper: &str,
    left: &str,
    right: &str,
) -> fmt::Result {
    write!(
        f,
        "call the helper `{helper}`: `{}`",
        form.call(helper, left, right)
    )
}

fn call<W: fmt::Write>(
    f: &mut fmt::Formatter<W>,
    form: Form<'_>,
    name: &str,
    arguments: &str,
) -> fmt::Result {
    if arguments.contains(',') {
        write!(
            f,
            "write `{name}` and its parameters with blanks between them, as `{name} a b`"
        )
    } else if arguments.is_empty() {
        write!(f, "write `{name}`")
    } else {
        write!(f, "write `{}`", form.call(name, arguments, ""))
    }
}

// For mistakes in a tag as a whole.
fn of_tag(fault: Fault<'_>) -> Sentence<'_> {
    match fault {
        Fault::NoIdentifier(kind, name, steps) => identifier(kind, name, steps),
        Fault::TildedComment(text) => Sentence::with("write `{{! ", text, " }}`"),
        Fault::OpenComment(closer) => Sentence::with("write `", closer, "` at its end"),
        Fault::InvertedSection(name) => Sentence::with(
            "write `{{#unless ",
            name,
            "}}..{{/unless}}`; `{{^}}` alone is `{{else}}`",
        ),
        Fault::EndWithMore(name) => Sentence::with("write `{{/", name, "}}`"),
        Fault::TagInRawBlock(name) => Sentence::with(
            "end the block by `{{{{/",
            name,
            "}}}}`, or put `\\` before braces that are text",
        ),
        Fault::NotClosed(read, braces) => Sentence::with_two("write `", read, "", braces, "`"),
        Fault::LackingBraces(read, _, braces) => Sentence::with_two(
            "write `", read, "", braces, "`",
        ),
        Fault::TagInTag(kind, inner) => inner_tag(kind, inner),
        fault => of_expression(fault),
    }
}

// For mistakes in an expression.
fn of_expression(fault: Fault<'_>) -> Sentence<'_> {
    match fault {
        Fault::Fallback(_, left, right) => fallback(left, right),
        Fault::Conditional(left) => Sentence::with("write `{{#if ", left, "}}..{{else}}..{{/if}}`"),
        Fault::Index(path, index) => indexed(path, index),
        Fault::Comma(left) => Sentence::with("remove the comma after `", left, "`"),
        Fault::LeadingDot(name) => Sentence::with(
            "write `",
            name,
            "`; `.` alone is the current value",
        ),
        Fault::OptionalChain(path, name) => Sentence::with_two(
            "write `",
            path,
            ".",
            name,
            "`: what is missing writes nothing",
        ),
        Fault::DanglingDot(path) => Sentence::with("write `", path, "`, or a name after it"),
        Fault::PathWithParameters(kind, path, parameter) => path_alone(kind, path, parameter),
        Fault::KeyWithoutValue(key) => Sentence::with_two(
            "write its value, as `",
            key,
            "=name` or `",
            key,
            "=\"text\"`",
        ),
        Fault::UnquotedKey(key) => Sentence::with_two(
            "write `\"",
            key,
            "\"`, or pass a hash argument: `",
            key,
            "=..`",
        ),
        Fault::AtBlock(name, parameters) => Sentence::with_two(
            "write `{{#",
            name,
            " ",
            parameters,
            "}}`",
        ),
        fault => of_names(fault),
    }
}

// For mistakes in the names that a block binds.
fn of_names(fault: Fault<'_>) -> Sentence<'_> {
    match fault {
        Fault::OpenBars(names) => Sentence::with("write `as |", names, "|`"),
        Fault::CommaInBars(first, second) => Sentence::with_two(
            "write `as |",
            first,
            " ",
            second,
            "|`",
        ),
        Fault::NoBars(name) => Sentence::with("write `as |", name, "|`"),
        fault => Sentence::plain(plain(fault)),
    }
}

// For what needs no name of the source.
fn plain(fault: Fault<'_>) -> &'static str {
    match fault {
        Fault::EmptyTag => "write what the tag shows, as `{{name}}`, or `\\{{` for braces as text",
        Fault::NameMissing(_) =>
            "write its name after the sign, as in `{{#if x}}` and `{{> card}}`",
        Fault::LateComment => {
            "a comment begins with `{{!`, with no blank between; for a negation write `{{not x}}`"
        }
        Fault::ForeignComment => "write a comment as `{{! .. }}` or `{{!-- .. --}}`",
        Fault::Delimiters =>
            "remove this tag; to write braces as text, put `\\` before them: `\\{{`",
        Fault::PercentTag => "write a block as `{{#if x}}..{{/if}}`, and a value as `{{x}}`",
        Fault::OpenParenthesis => "write `)` at the end of the call",
        Fault::StrayParenthesis => "remove it, or write `(` before the helper that it calls",
        Fault::Arithmetic(_) => {
            "compute it in the data, or in a helper; texts are joined by writing them side by side"
        }
        Fault::Method(_) => "put the result into the data, or call a helper that is registered",
        Fault::Semicolon => "remove it",
        Fault::BrokenList => "write a list as `[1, \"a\"]`, and a name in brackets as `[a b]`",
        Fault::BrokenObject => "write an object as `{\"a\": 1}`, or pass hash arguments, as `a=1`",
        Fault::Backquote => "write `\"..\"`; texts are joined by writing them side by side",
        Fault::NamesInBars => "write `as |item|` or `as |item index|`",
        Fault::NoNamesHere(kind, _) => binding(kind),
        Fault::Expected(what, _) => expected(what),
        _ => "",
    }
}

fn identifier<'a>(kind: TagKind, name: &'a str, steps: &'a str) -> Sentence<'a> {
    match kind {
        TagKind::Else => Sentence([
            "write `{{else if ",
            name,
            steps,
            "}}` or `{{else with ",
            name,
            steps,
            "}}`",
            "",
            "",
        ]),
        TagKind::Block => Sentence([
            "write `{{#with ",
            name,
            steps,
            "}}` or `{{#each ",
            name,
            steps,
            "}}`",
            "",
            "",
        ]),
        _ => Sentence::plain("write one word of letters, digits, `_`, `-`, `$` and `:`"),
    }
}

fn inner_tag<'a>(kind: TagKind, inner: &'a str) -> Sentence<'a> {
    match kind {
        TagKind::Partial | TagKind::PartialBlock => Sentence::plain(
            "write a name that is in the data as a call: `{{> (lookup . \"name\")}}`",
        ),
        _ => Sentence::with("write `", inner, "` without braces"),
    }
}

fn fallback<'a>(left: &'a str, right: &'a str) -> Sentence<'a> {
    let (open, text, close) = match unquoted_text(right) {
        Some(text) => ("", text, ""),
        None => ("{{", right, "}}"),
    };
    Sentence([
        "write `{{#if ",
        left,
        "}}{{",
        left,
        "}}{{else}}",
        open,
        text,
        close,
        "{{/if}}`",
    ])
}

// What is between quotes.
fn unquoted_text(text: &str) -> Option<&str> {
    match text.strip_prefix('"') {
        Some(rest) => rest.strip_suffix('"'),
        None => text.strip_prefix('\'')?.strip_suffix('\''),
    }
}

fn indexed<'a>(path: &'a str, index: &'a str) -> Sentence<'a> {
    match unquoted_text(index) {
        Some(name) => Sentence::with_two("write `", path, ".[", name, "]`"),
        None if index.bytes().all(|byte| byte.is_ascii_digit()) => Sentence([
            "write `", path, ".[", index, "]` or `", path, ".", index, "`",
        ]),
        None => Sentence::with_two("write `(lookup ", path, " ", index, ")`"),
    }
}

fn path_alone<'a>(kind: TagKind, path: &'a str, parameter: &'a str) -> Sentence<'a> {
    match kind {
        TagKind::Value | TagKind::Html => Sentence::with_two(
            "write `{{lookup ",
            path,
            " ",
            parameter,
            "}}` for a member of it",
        ),
        _ => Sentence([
            "write `{{#with ",
            path,
            "}}` or `{{#each ",
            path,
            "}}`, or remove what follows `",
            path,
            "`",
            "",
            "",
        ]),
    }
}

fn binding(kind: TagKind) -> &'static str {
    match kind {
        TagKind::Partial | TagKind::PartialBlock => "pass hash arguments: `{{> card title=name}}`",
        TagKind::Decorator | TagKind::DecoratorBlock => "remove what follows `as`, and `as`",
        _ => "a block begins with `#`, as `{{#each xs as |x|}}`",
    }
}

fn expected(what: &str) -> &'static str {
    if what == NAME {
        "a name has letters, digits, `_`, `-`, `$` and `:`; write any other in brackets, as `[a b]`"
    } else {
        "a parameter is a path, a text in quotes, a number, a list, an object, or a call in parentheses"
    }
}
