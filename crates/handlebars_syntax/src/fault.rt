//! Mistakes in tags.

use crate::opening::TagKind;
use std::fmt;

/// What a tag has first.
pub const NAME: &str = "a name";

/// A mistake in a tag, with the parts of the source that its message and its help name.
#[derive(Clone, Copy)]
pub enum Fault<'a> {
    /// `{{}}`.
    EmptyTag,
    /// `{{#}}`, `{{>}}`: what has no name.
    NameMissing(&'static str),
    /// `{{"a"}}`.
    QuotedName(TagKind, &'a str),
    /// `{{#(a)}}`, `{{else a.b}}`: the name, in two parts.
    NoIdentifier(TagKind, &'a str, &'a str),
    /// `{{# > a}}`: the sign that follows.
    SplitSign(char),
    /// `{{~! c ~}}`.
    TildedComment(&'a str),
    /// `{{ ! c}}`.
    LateComment,
    /// `{{!-- c`: what closes the comment.
    OpenComment(&'static str),
    /// `{{/* c */}}`, `{{// c}}`.
    ForeignComment,
    /// `{{=<% %>=}}`.
    Delimiters,
    /// `{{% if x %}}`.
    PercentTag,
    /// `{{^x}}`.
    InvertedSection(&'a str),
    /// `{{/if x}}`, `{{/#if}}`.
    EndWithMore(&'a str),
    /// In a raw block, of this name.
    TagInRawBlock(&'a str),

    /// `{{name` up to another tag or the end: what was read, and what closes it.
    NotClosed(&'a str, &'static str),
    /// `{{name}`: what was read, and what closes it.
    LackingBraces(&'a str, &'static str, &'static str),
    /// `{{f "a}}`: the text, and its quote.
    OpenText(&'a str, char),
    /// `{{f (g a}}`.
    OpenParenthesis,
    /// `{{f a)}}`.
    StrayParenthesis,
    /// `{{#if {{x}}}}`: the inside of the inner tag.
    TagInTag(TagKind, &'a str),

    /// `{{a | b}}`: the value, and the name after the bar.
    Pipe(Form<'a>, &'a str, &'a str),
    /// `{{#if a == b}}`: the operator, the helper for it, and its operands.
    Operator(&'static str, Form<'a>, &'static str, &'a str, &'a str),
    /// `{{#if !a}}`.
    Negation(Form<'a>, &'a str),
    /// `{{a ?? b}}`, `{{a || b}}`.
    Fallback(&'static str, &'a str, &'a str),
    /// `{{a ? b : c}}`.
    Conditional(&'a str),
    /// `{{a + 1}}`.
    Arithmetic(char),

    /// `{{a[0]}}`: the path, and what is in brackets.
    Index(&'a str, &'a str),
    /// `{{f(a)}}`: the name, and what is in parentheses.
    CallSyntax(Form<'a>, &'a str, &'a str),
    /// `{{a.b(c)}}`: the method.
    Method(&'a str),
    /// `{{f a, b}}`: what precedes the comma.
    Comma(&'a str),
    /// `{{f a;}}`.
    Semicolon,
    /// `{{.Name}}`.
    LeadingDot(&'a str),
    /// `{{a?.b}}`: the path before, and the name after.
    OptionalChain(&'a str, &'a str),
    /// `{{a.}}`.
    DanglingDot(&'a str),
    /// `{{a.b c}}`: the path, and the parameter.
    PathWithParameters(TagKind, &'a str, &'a str),
    /// `{{f a=}}`.
    KeyWithoutValue(&'a str),
    /// `{{f {a: 1}}}`: the key.
    UnquotedKey(&'a str),
    /// `{{f [1, 2}}`.
    BrokenList,
    /// `{{f {"a"}}}`.
    BrokenObject,
    /// `{{@if x}}`: the name, and what follows it.
    AtBlock(&'a str, &'a str),
    /// A text in backquotes.
    Backquote,

    /// `{{#each xs as |x}}`.
    OpenBars(&'a str),
    /// `{{#each xs as |x, y|}}`.
    CommaInBars(&'a str, &'a str),
    /// `{{#each xs as ||}}`, `{{#each xs as |x y z|}}`.
    NamesInBars,
    /// `{{#each xs as x}}`.
    NoBars(&'a str),
    /// `{{> p as |x|}}`.
    NoNamesHere(TagKind, &'a str),

    /// What was expected, and what is there instead.
    Expected(&'static str, Option<char>),
}

/// How to write a tag: what begins it, its name, possibly none, and what closes it.
#[derive(Clone, Copy)]
pub struct Form<'a> {
    pub sign: &'static str,
    pub head: &'a str,
    pub braces: &'static str,
}

impl<'a> Form<'a> {
    /// Returns the tag with a call of a helper, as `{{#if (eq a b)}}`. The second operand may be missing.
    pub fn call(self, helper: &'a str, left: &'a str, right: &'a str) -> FormCall<'a> {
        FormCall {
            form: self,
            helper,
            left,
            right,
        }
    }
}

/// A tag with a call of a helper in it.
#[derive(Clone, Copy)]
pub struct FormCall<'a> {
    form: Form<'a>,
    helper: &'a str,
    left: &'a str,
    right: &'a str,
}

impl fmt::Display for FormCall<'_> {
    fn fmt<W: fmt::Write>(&self, f: &mut fmt::Formatter<W>) -> fmt::Result {
        let Form { sign, head, braces } = self.form;
        let (open, close) = if head.is_empty() {
            ("", "")
        } else {
            (" (", ")")
        };
        let blank = if self.right.is_empty() { "" } else { " " };
        write!(
            f,
            "{sign}{head}{open}{} {}{blank}{}{close}{braces}",
            self.helper, self.left, self.right
        )
    }
}

/// A mistake, how many bytes are left in the source where it is, and how many it has.
#[derive(Clone, Copy)]
pub struct Finding<'a> {
    pub fault: Fault<'a>,
    pub left: usize,
    pub len: usize,
}

impl<'a> Finding<'a> {
    /// Creates the finding of a mistake at the start of a text.
    pub fn at(fault: Fault<'a>, text: &str, len: usize) -> Finding<'a> {
        Finding {
            fault,
            left: text.len(),
            len,
        }
    }
}
