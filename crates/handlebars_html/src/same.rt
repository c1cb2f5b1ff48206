//! Whether two states are one.

ghost use Rattle.std.specs.Prelude.{◌≡◌, ◌&&◌};
ghost use Rattle.std.specs.Str.{bytes_eq};
ghost use Rattle.handlebars_html.specs.Html as html;
ghost use Rattle.handlebars_html.specs.Same as same;
ghost use Rattle.handlebars_html.specs.HtmlView.{attributes_view, content_view, context_of, foreign_of, html_of, plain_of, tag_view, tokenizer_of, value_of};

use crate::address::Value;
use crate::html::{Context, Foreign, Html, beginning};
use crate::plain::Plain;
use crate::tag::{Attributes, Content, Tag};
use crate::tokenizer::Tokenizer;

fn is_same_bool(x: bool, y: bool) -> bool
    ensures { result ≡ same.is_same_bool x y }
{
    x == y
}

fn is_same_text(x: &Vec<u8>, y: &Vec<u8>) -> bool
    ensures { result ≡ bytes_eq x.now.items y.now.items }
{
    x.as_slice() == y.as_slice()
}

fn is_same_name(x: bool, name: &Vec<u8>, y: bool, other: &Vec<u8>) -> bool
    ensures { result ≡ (same.is_same_bool x y && bytes_eq name.now.items other.now.items) }
{
    is_same_bool(x, y) && is_same_text(name, other)
}

fn is_same_content(x: &Content, y: &Content) -> bool
    ensures { result ≡ same.is_same_content (content_view x.now) (content_view y.now) }
{
    match (x, y) {
        (Content::Markup, Content::Markup) => true,
        (Content::InnerText(safe, name), Content::InnerText(other, text)) => {
            is_same_name(*safe, name, *other, text)
        }
        (Content::ScriptText, Content::ScriptText) => true,
        (Content::SvgBegins, Content::SvgBegins) => true,
        (Content::SvgEnds, Content::SvgEnds) => true,
        (Content::HtmlInSvg, Content::HtmlInSvg) => true,
        (Content::ForeignMarkup, Content::ForeignMarkup) => true,
        (Content::NoscriptBegins, Content::NoscriptBegins) => true,
        (Content::NoscriptEnds, Content::NoscriptEnds) => true,
        (Content::Plaintext, Content::Plaintext) => true,
        _ => false,
    }
}

fn is_same_value(x: &Value, y: &Value) -> bool
    ensures { result ≡ same.is_same_value (value_of x.now) (value_of y.now) }
{
    match (x, y) {
        (Value::Harmless, Value::Harmless) => true,
        (Value::Forbidden, Value::Forbidden) => true,
        (Value::Followed(text), Value::Followed(other)) => is_same_text(text, other),
        (Value::Loaded(text), Value::Loaded(other)) => is_same_text(text, other),
        (Value::LoadedSlash, Value::LoadedSlash) => true,
        (Value::LoadedAuthority, Value::LoadedAuthority) => true,
        (Value::LoadedHost, Value::LoadedHost) => true,
        _ => false,
    }
}

fn is_same_attributes(x: Attributes, y: Attributes) -> bool
    ensures { result ≡ same.is_same_attributes (attributes_view x) (attributes_view y) }
{
    match (x, y) {
        (Attributes::Common, Attributes::Common) => true,
        (Attributes::OfActive, Attributes::OfActive) => true,
        (Attributes::OfShowing, Attributes::OfShowing) => true,
        (Attributes::OfLoading, Attributes::OfLoading) => true,
        (Attributes::OfMeta, Attributes::OfMeta) => true,
        (Attributes::MetaContent, Attributes::MetaContent) => true,
        (Attributes::MetaPragma, Attributes::MetaPragma) => true,
        _ => false,
    }
}

fn is_same_tag(x: &Tag, y: &Tag) -> bool
    ensures { result ≡ same.is_same_tag (tag_view x.now) (tag_view y.now) }
{
    is_same_content(&x.content, &y.content) && is_same_attributes(x.attributes, y.attributes)
}

fn is_same_attribute(x: &Tag, name: &Vec<u8>, y: &Tag, other: &Vec<u8>) -> bool
    ensures { result ≡ (same.is_same_tag (tag_view x.now) (tag_view y.now) && bytes_eq name.now.items other.now.items) }
{
    is_same_tag(x, y) && is_same_text(name, other)
}

fn is_same_unquoted(x: &Tag, value: &Value, y: &Tag, other: &Value) -> bool
    ensures { result ≡ (same.is_same_tag (tag_view x.now) (tag_view y.now) && same.is_same_value (value_of value.now) (value_of other.now)) }
{
    is_same_tag(x, y) && is_same_value(value, other)
}

fn is_same_url(double: bool, x: &Tag, two: bool, y: &Tag) -> bool
    ensures { result ≡ (same.is_same_bool double two && same.is_same_tag (tag_view x.now) (tag_view y.now)) }
{
    is_same_bool(double, two) && is_same_tag(x, y)
}

fn is_same_plain(x: Plain, y: Plain) -> bool
    ensures { result ≡ same.is_same_tokenizer (plain_of x) (plain_of y) }
{
    match x {
        Plain::Data => matches!(y, Plain::Data),
        Plain::TagOpen => matches!(y, Plain::TagOpen),
        Plain::EndTagOpen => matches!(y, Plain::EndTagOpen),
        Plain::Declaration => matches!(y, Plain::Declaration),
        Plain::DeclarationDash => matches!(y, Plain::DeclarationDash),
        Plain::Bogus => matches!(y, Plain::Bogus),
        Plain::CommentStart => matches!(y, Plain::CommentStart),
        Plain::CommentStartDash => matches!(y, Plain::CommentStartDash),
        Plain::Comment => matches!(y, Plain::Comment),
        Plain::CommentDash => matches!(y, Plain::CommentDash),
        Plain::CommentEnd => matches!(y, Plain::CommentEnd),
        Plain::CommentBang => matches!(y, Plain::CommentBang),
        Plain::CommentUnclear => matches!(y, Plain::CommentUnclear),
        Plain::CommentUnclearDash => matches!(y, Plain::CommentUnclearDash),
        Plain::Script => matches!(y, Plain::Script),
        Plain::ScriptTagOpen => matches!(y, Plain::ScriptTagOpen),
        Plain::TextEnd => matches!(y, Plain::TextEnd),
        Plain::Late => matches!(y, Plain::Late),
        Plain::Misled => matches!(y, Plain::Misled),
        Plain::Stuck => matches!(y, Plain::Stuck),
    }
}

fn is_same_tokenizer(x: &Tokenizer, y: &Tokenizer) -> bool
    ensures { result ≡ same.is_same_tokenizer (tokenizer_of x.now) (tokenizer_of y.now) }
{
    match x {
        Tokenizer::Plain(plain) => match y {
            Tokenizer::Plain(other) => is_same_plain(*plain, *other),
            _ => false,
        },
        Tokenizer::TagName(ends, name) => match y {
            Tokenizer::TagName(other, text) => is_same_name(*ends, name, *other, text),
            _ => false,
        },
        Tokenizer::BeforeAttribute(tag) => match y {
            Tokenizer::BeforeAttribute(other) => is_same_tag(tag, other),
            _ => false,
        },
        Tokenizer::AttributeName(tag, name) => match y {
            Tokenizer::AttributeName(other, text) => is_same_attribute(tag, name, other, text),
            _ => false,
        },
        Tokenizer::AfterAttribute(tag, name) => match y {
            Tokenizer::AfterAttribute(other, text) => is_same_attribute(tag, name, other, text),
            _ => false,
        },
        Tokenizer::BeforeValue(tag, value) => match y {
            Tokenizer::BeforeValue(other, held) => is_same_unquoted(tag, value, other, held),
            _ => false,
        },
        Tokenizer::Quoted(double, tag, value) => match y {
            Tokenizer::Quoted(two, other, held) => is_same_bool(*double, *two)
                && is_same_unquoted(tag, value, other, held),
            _ => false,
        },
        Tokenizer::InUrl(double, tag) => match y {
            Tokenizer::InUrl(two, other) => is_same_url(*double, tag, *two, other),
            _ => false,
        },
        Tokenizer::Unquoted(tag) => match y {
            Tokenizer::Unquoted(other) => is_same_tag(tag, other),
            _ => false,
        },
        Tokenizer::InText(safe, name) => match y {
            Tokenizer::InText(other, text) => is_same_name(*safe, name, *other, text),
            _ => false,
        },
        Tokenizer::TextTagOpen(safe, name) => match y {
            Tokenizer::TextTagOpen(other, text) => is_same_name(*safe, name, *other, text),
            _ => false,
        },
        Tokenizer::TextEndName(rest) => match y {
            Tokenizer::TextEndName(text) => is_same_text(rest, text),
            _ => false,
        },
        Tokenizer::ScriptEndName(rest) => match y {
            Tokenizer::ScriptEndName(text) => is_same_text(rest, text),
            _ => false,
        },
    }
}

fn is_same_foreign(x: Foreign, y: Foreign) -> bool
    ensures { result ≡ same.is_same_foreign (foreign_of x) (foreign_of y) }
{
    match (x, y) {
        (Foreign::Outside, Foreign::Outside) => true,
        (Foreign::InSvg, Foreign::InSvg) => true,
        (Foreign::Anywhere, Foreign::Anywhere) => true,
        _ => false,
    }
}

fn is_same_context(x: Context, y: Context) -> bool
    ensures { result ≡ same.is_same_context (context_of x) (context_of y) }
{
    is_same_bool(x.in_noscript, y.in_noscript) && is_same_foreign(x.foreign, y.foreign)
}

/// Returns whether two states are one.
pub fn is_same(x: &Html, y: &Html) -> bool
    ensures { result ≡ same.is_same (html_of x.now) (html_of y.now) }
{
    is_same_context(x.context, y.context) && is_same_tokenizer(&x.tokenizer, &y.tokenizer)
}

/// Returns whether the state is that in which a document begins.
pub fn is_beginning(state: &Html) -> bool
    ensures { result ≡ same.is_same (html_of state.now) html.beginning }
{
    is_same(state, &beginning())
}
