//! Faults in words for the author of a template: where data stands, and what to write instead.

use crate::address::Value;
use crate::fault::{HtmlFault, HtmlFaultReason};
use crate::html::Html;
use crate::plain::Plain;
use crate::tokenizer::Tokenizer;
use std::{fmt, str};

// Where something stands: words, and the name of an element if they end with one.
#[derive(Clone, Copy)]
struct Place<'t> {
    words: &'static str,
    element: Option<&'t str>,
}

impl fmt::Display for Place<'_> {
    fn fmt<W: fmt::Write>(&self, f: &mut fmt::Formatter<W>) -> fmt::Result {
        match self.element {
            Some(name) => write!(f, "{} `{}`", self.words, name),
            None => f.write_str(self.words),
        }
    }
}

fn plain_words(state: Plain) -> &'static str {
    match state {
        Plain::Data => "in the text of an element",
        Plain::TagOpen => "where the name of a tag begins",
        Plain::EndTagOpen => "where the name of an end tag begins",
        Plain::Declaration => "in a declaration",
        Plain::DeclarationDash => "in a declaration",
        Plain::Bogus => "in a declaration",
        Plain::Script => "in the text of `script`",
        Plain::ScriptTagOpen => "in the text of `script`",
        Plain::TextEnd => "in an end tag",
        Plain::Late => "after `http-equiv` behind `content`",
        Plain::Misled => "in an address that a value has written",
        Plain::Stuck => "where nothing more is known",
        _ => "in a comment",
    }
}

fn plain_advice(state: Plain) -> &'static str {
    match state {
        Plain::Script => "write it in a `data-` attribute, and let the script read that",
        Plain::ScriptTagOpen => "write it in a `data-` attribute, and let the script read that",
        Plain::TagOpen => "write the name in the template",
        Plain::EndTagOpen => "write the name in the template",
        _ => "write it in the text of an element, or in an attribute in quotes",
    }
}

fn value_words(value: &Value) -> &'static str {
    match value {
        Value::Harmless => "in an attribute in quotes",
        Value::Forbidden => "in an attribute or an address that may be code",
        Value::Followed(text) => if text.is_empty() {
            "at the beginning of an address"
        } else {
            "in an address that may still become a script"
        },
        Value::Loaded(text) => if text.is_empty() {
            "at the beginning of an address that is loaded"
        } else {
            "in an address that is loaded, before its host"
        },
        Value::LoadedSlash => "at the beginning of an address that is loaded",
        Value::LoadedAuthority => "in the host of an address that is loaded",
        Value::LoadedHost => "in the host of an address that is loaded",
    }
}

fn value_advice(value: &Value) -> &'static str {
    match value {
        Value::Harmless => "",
        Value::Forbidden =>
            "write it in another attribute, as in `title` or one that begins with `data-`",
        Value::Followed(text) => if text.is_empty() {
            "begin the address in the template, as with `/` or `https://`, or let the helper `SafeUrl` write it"
        } else {
            "begin the address in the template, as with `/` or `https://`"
        },
        Value::Loaded(_) => "begin the address in the template, with its host",
        Value::LoadedSlash => "begin the address in the template, with its host",
        Value::LoadedAuthority => "write the host in the template, and a `/` after it",
        Value::LoadedHost => "write the host in the template, and a `/` after it",
    }
}

fn words_of(tokenizer: &Tokenizer) -> &'static str {
    match tokenizer {
        Tokenizer::Plain(state) => plain_words(*state),
        Tokenizer::TagName(_, _) => "in the name of a tag",
        Tokenizer::BeforeAttribute(_) => "where the name of an attribute begins",
        Tokenizer::AttributeName(_, _) => "in the name of an attribute",
        Tokenizer::AfterAttribute(_, _) => "where the name of an attribute begins",
        Tokenizer::BeforeValue(_, _) => "in an attribute without quotes",
        Tokenizer::Quoted(_, _, value) => value_words(value),
        Tokenizer::InUrl(_, _) => "in an address that a value has written",
        Tokenizer::Unquoted(_) => "in an attribute without quotes",
        Tokenizer::InText(_, _) => "in the text of",
        Tokenizer::TextTagOpen(_, _) => "in the text of",
        Tokenizer::TextEndName(_) => "in an end tag",
        Tokenizer::ScriptEndName(_) => "in the text of `script`",
    }
}

fn element_of(tokenizer: &Tokenizer) -> Option<&str> {
    let name = match tokenizer {
        Tokenizer::InText(_, name) => name,
        Tokenizer::TextTagOpen(_, name) => name,
        _ => return None,
    };
    match str::from_utf8(name) {
        Ok(name) => Some(name),
        Err(_) => Some("an element"),
    }
}

fn place_of(state: &Html) -> Place<'_> {
    Place {
        words: words_of(&state.tokenizer),
        element: element_of(&state.tokenizer),
    }
}

/// Formats the state in words, since no caller sees its parts.
impl fmt::Debug for Html {
    fn fmt<W: fmt::Write>(&self, f: &mut fmt::Formatter<W>) -> fmt::Result {
        write!(f, "{}", place_of(self))
    }
}

fn advice_at(state: &Html) -> &'static str {
    match &state.tokenizer {
        Tokenizer::Plain(state) => plain_advice(*state),
        Tokenizer::TagName(_, _) => "write the name in the template",
        Tokenizer::BeforeAttribute(_) =>
            "write the name in the template, and data in quotes after `=`",
        Tokenizer::AttributeName(_, _) => "write the name in the template",
        Tokenizer::AfterAttribute(_, _) =>
            "write the name in the template, and data in quotes after `=`",
        Tokenizer::BeforeValue(_, _) => "write quotes around the value",
        Tokenizer::Quoted(_, _, value) => value_advice(value),
        Tokenizer::InUrl(_, _) => "begin the address in the template, as with `/` or `https://`",
        Tokenizer::Unquoted(_) => "write quotes around the value",
        Tokenizer::InText(_, _) => "write it in the text of another element",
        Tokenizer::TextTagOpen(_, _) => "write it in the text of another element",
        Tokenizer::TextEndName(_) => "write the end tag in the template",
        Tokenizer::ScriptEndName(_) =>
            "write it in a `data-` attribute, and let the script read that",
    }
}

impl HtmlFaultReason {
    /// Returns what to write instead, or an empty text if the reason says it.
    pub fn advice(&self) -> &'static str {
        match self {
            HtmlFaultReason::UnsafeValue(state) => advice_at(state),
            HtmlFaultReason::UnreadValue =>
                "write it before that text, or that text without `<!` in a script and tags in `title`",
            HtmlFaultReason::UnescapedValue => "write two braces, not three or `&`",
            HtmlFaultReason::ChangedText(_) =>
                "write the whole name or address in one text, not parts of it in blocks",
            HtmlFaultReason::LateAttribute => "write `http-equiv` first, and no data in `content`",
            HtmlFaultReason::ChangedAddress => "end the address, or go on with `/`, `?` or `#`",
            HtmlFaultReason::ChangedByIteration(_, _) =>
                "close in the body what it opens, and open nothing that it leaves",
            HtmlFaultReason::ChangedByBlock(_) => "close in the block what it opens",
            HtmlFaultReason::CapturedTextIn(_) => "include it in the text of an element",
            HtmlFaultReason::MadeInclusion => "write the name, one in each branch of a block",
            HtmlFaultReason::MadeBlock => "write the name of a helper",
            HtmlFaultReason::OtherIndent => "write blanks before the tag, or text on its line",
            HtmlFaultReason::ExpressionBodies => "",
            HtmlFaultReason::OtherEscape => "register the escape of html",
            HtmlFaultReason::HelperWithSteps(_) => "register it as `HelperEntry::Value`",
            HtmlFaultReason::MisplacedHelper(_) =>
                "register the built-in helper under its own name",
            HtmlFaultReason::UserHook(_) => "register it under another name",
            HtmlFaultReason::UserDecorator(_) => "register `inline` alone",
        }
    }
}

// Writes where something stands, between these words.
fn write_place<W: fmt::Write>(
    f: &mut fmt::Formatter<W>,
    before: &str,
    state: &Html,
    after: &str,
) -> fmt::Result {
    write!(f, "{before} {}{after}", place_of(state))
}

fn write_iteration<W: fmt::Write>(
    f: &mut fmt::Formatter<W>,
    start: &Html,
    end: &Html,
) -> fmt::Result {
    write_place(f, "an iteration begins", start, ",")?;
    write_place(f, " and ends", end, "")
}

// Writes a name between these words.
fn write_name<W: fmt::Write>(
    f: &mut fmt::Formatter<W>,
    before: &str,
    name: &String,
    after: &str,
) -> fmt::Result {
    write!(f, "{before} {name:?} {after}")
}

fn write_misplaced<W: fmt::Write>(f: &mut fmt::Formatter<W>, name: &String) -> fmt::Result {
    write_name(
        f,
        "what is registered under",
        name,
        "is not what a new registry has there",
    )
}

impl HtmlFaultReason {
    // The words of a reason that says nothing more.
    fn fixed_words(&self) -> &'static str {
        match self {
            HtmlFaultReason::UnreadValue =>
                "a value stands after a text of which nothing more is known",
            HtmlFaultReason::UnescapedValue => "an html expression writes its value unescaped",
            HtmlFaultReason::LateAttribute =>
                "`http-equiv` stands after `content`, which may hold data",
            HtmlFaultReason::ChangedAddress =>
                "a text goes on with an address that a value has written, and may make a scheme of it",
            HtmlFaultReason::MadeInclusion => "a call in parentheses makes the name of a partial",
            HtmlFaultReason::MadeBlock => "a call in parentheses makes the name of a block",
            HtmlFaultReason::OtherIndent =>
                "the indentation of a partial call has other bytes than blanks",
            HtmlFaultReason::ExpressionBodies => "an expression has bodies",
            HtmlFaultReason::OtherEscape => "values are not escaped for html",
            _ => "",
        }
    }
}

/// Formats the reason in words for the author of a template.
impl fmt::Display for HtmlFaultReason {
    fn fmt<W: fmt::Write>(&self, f: &mut fmt::Formatter<W>) -> fmt::Result {
        match self {
            HtmlFaultReason::UnsafeValue(state) => write_place(f, "a value stands", state, ""),
            HtmlFaultReason::ChangedText(state) => write_place(
                f,
                "a text stands",
                state,
                ", where a blank before it changes what it means",
            ),
            HtmlFaultReason::ChangedByIteration(start, end) => write_iteration(f, start, end),
            HtmlFaultReason::ChangedByBlock(end) => {
                write_place(f, "the block of a partial call ends", end, "")
            }
            HtmlFaultReason::CapturedTextIn(state) => {
                write_place(f, "`@partial-block` is included", state, "")
            }
            HtmlFaultReason::HelperWithSteps(name) => {
                write_name(f, "the helper", name, "may write more than its value")
            }
            HtmlFaultReason::MisplacedHelper(name) => write_misplaced(f, name),
            HtmlFaultReason::UserHook(name) => write_name(f, "the hook", name, "is user-defined"),
            HtmlFaultReason::UserDecorator(name) => write_misplaced(f, name),
            _ => f.write_str(self.fixed_words()),
        }
    }
}

impl HtmlFaultReason {
    // Whether it is a fault of what is registered beside templates.
    fn is_of_registry(&self) -> bool {
        match self {
            HtmlFaultReason::OtherEscape => true,
            HtmlFaultReason::HelperWithSteps(_) => true,
            HtmlFaultReason::MisplacedHelper(_) => true,
            HtmlFaultReason::UserHook(_) => true,
            HtmlFaultReason::UserDecorator(_) => true,
            _ => false,
        }
    }
}

impl HtmlFault {
    // What has the fault: the template, by its name if it has one, or the registry.
    fn subject(&self) -> &str {
        match &self.template_name {
            Some(name) => name.as_str(),
            None => if self.reason.is_of_registry() {
                "registry"
            } else {
                "template"
            },
        }
    }
}

impl HtmlFault {
    // Writes what has the fault, and the position, if there is one.
    fn write_subject<W: fmt::Write>(&self, f: &mut fmt::Formatter<W>) -> fmt::Result {
        let subject = self.subject();
        match (self.line_no, self.column_no) {
            (Some(line), Some(column)) => write!(f, "{subject} line {line}, col {column}"),
            _ => f.write_str(subject),
        }
    }
}

fn write_advice<W: fmt::Write>(f: &mut fmt::Formatter<W>, advice: &str) -> fmt::Result {
    if advice.is_empty() {
        return Ok(());
    }
    write!(f, ": {advice}")
}

/// Formats one line: the name of the template (`template` if it has none, and `registry` for a fault of the registry), the
/// position, if there is one, the reason, and what to write instead.
impl fmt::Display for HtmlFault {
    fn fmt<W: fmt::Write>(&self, f: &mut fmt::Formatter<W>) -> fmt::Result {
        self.write_subject(f)?;
        write!(f, ": {}", &self.reason)?;
        write_advice(f, self.reason.advice())
    }
}
