//! How a tag begins, and what its inside may be.

use handlebars_base::json::path::marks::{after_byte, after_white, starts_white};
use handlebars_expressions::expression::{Enclosure, NameMode};

/// What a tag is, by its beginning.
#[derive(Clone, Copy, PartialEq, Eq)]
pub enum TagKind {
    Value,
    Html,
    Block,
    Close,
    Inverse,
    Else,
    Raw,
    RawClose,
    Decorator,
    DecoratorBlock,
    Partial,
    PartialBlock,
    Comment,
}

impl TagKind {
    /// Returns what begins such a tag.
    pub fn sign(self) -> &'static str {
        match self {
            TagKind::Value => "{{",
            TagKind::Html => "{{{",
            TagKind::Block => "{{#",
            TagKind::Close => "{{/",
            TagKind::Inverse => "{{^",
            TagKind::Else => "{{else ",
            TagKind::Raw => "{{{{",
            TagKind::RawClose => "{{{{/",
            TagKind::Decorator => "{{*",
            TagKind::DecoratorBlock => "{{#*",
            TagKind::Partial => "{{> ",
            TagKind::PartialBlock => "{{#> ",
            TagKind::Comment => "{{! ",
        }
    }

    /// Returns the braces that close such a tag.
    pub fn braces(self) -> &'static str {
        match self {
            TagKind::Html => "}}}",
            TagKind::Raw | TagKind::RawClose => "}}}}",
            _ => "}}",
        }
    }

    /// Whether such a tag may bind names between bars.
    pub fn binds(self) -> bool {
        matches!(self, TagKind::Block | TagKind::Else | TagKind::Raw)
    }

    /// Returns what the name of its expression may be.
    pub fn mode(self) -> NameMode {
        match self {
            TagKind::Value | TagKind::Html => NameMode::Value,
            TagKind::Block => NameMode::Opening,
            TagKind::Partial | TagKind::PartialBlock => NameMode::Close,
            _ => NameMode::Identifier,
        }
    }

    /// Returns where its expression is.
    pub fn enclosure(self) -> Enclosure {
        match self {
            TagKind::Value | TagKind::Html => Enclosure::Tag,
            TagKind::Partial | TagKind::PartialBlock => Enclosure::Tag,
            _ => Enclosure::Block,
        }
    }
}

/// The kind of a tag, whether a tilde follows its braces, and what is inside.
#[derive(Clone, Copy)]
pub struct Opening<'a> {
    pub kind: TagKind,
    pub tilde: bool,
    pub inside: &'a str,
}

/// The signs after two braces, the longer ones first.
const SIGNS: [(&str, TagKind); 9] = [
    ("{", TagKind::Html),
    ("&", TagKind::Value),
    ("#*", TagKind::DecoratorBlock),
    ("#>", TagKind::PartialBlock),
    ("#", TagKind::Block),
    ("/", TagKind::Close),
    ("^", TagKind::Inverse),
    ("*", TagKind::Decorator),
    (">", TagKind::Partial),
];

/// Returns how a tag begins.
pub fn opening_of(tag: &str) -> Opening<'_> {
    if let Some(after) = tag.strip_prefix("{{{{") {
        let (tilde, inside) = after_tilde(after);
        return raw_opening(tilde, inside);
    }
    if let Some(inside) = tag.strip_prefix("{{!") {
        return Opening {
            kind: TagKind::Comment,
            tilde: false,
            inside,
        };
    }
    let after = tag.strip_prefix("{{").unwrap_or(tag);
    let (tilde, inside) = after_tilde(after);
    signed_opening(tilde, inside)
}

fn raw_opening(tilde: bool, text: &str) -> Opening<'_> {
    match after_byte(b'/', text) {
        Some(after) => Opening {
            kind: TagKind::RawClose,
            tilde,
            inside: after_white(after),
        },
        None => Opening {
            kind: TagKind::Raw,
            tilde,
            inside: text,
        },
    }
}

fn signed_opening(tilde: bool, text: &str) -> Opening<'_> {
    'signs: for (sign, kind) in &SIGNS {
        if let Some(after) = text.strip_prefix(*sign) {
            return Opening {
                kind: *kind,
                tilde,
                inside: after_white(after),
            };
        }
    }
    match after_else(text) {
        Some(inside) => Opening {
            kind: TagKind::Else,
            tilde,
            inside: after_white(inside),
        },
        None => Opening {
            kind: TagKind::Value,
            tilde,
            inside: text,
        },
    }
}

// What follows the word `else`.
fn after_else(text: &str) -> Option<&str> {
    let after = text.strip_prefix("else")?;
    if starts_white(after) || after.starts_with('~') || after.starts_with("}}") {
        Some(after)
    } else {
        None
    }
}

// Whether a tilde follows white space, and what follows it and white space.
fn after_tilde(text: &str) -> (bool, &str) {
    let text = after_white(text);
    match after_byte(b'~', text) {
        Some(after) => (true, after_white(after)),
        None => (false, text),
    }
}
