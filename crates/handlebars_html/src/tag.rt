//! What a tag says of what follows it, and of the data in its attributes.

ghost use Rattle.std.specs.Prelude.{◌≡◌};
ghost use Rattle.handlebars_html.specs.Tags as tags;
ghost use Rattle.handlebars_html.specs.HtmlView.{attributes_view, content_view, tag_view, value_of};

use crate::address::Value;
use crate::names::{
    is_active_element, is_address_attribute, is_content, is_foreign_element, is_harmless_attribute,
    is_http_equiv, is_integration_point, is_loaded_attribute, is_loading_element, is_meta,
    is_noscript, is_passive_attribute, is_plaintext, is_raw_text_element, is_rel, is_script,
    is_showing_element, is_shown_attribute, is_svg, is_text_element,
};
use std::alloc::Global;

/// What follows the `>` of a tag.
#[derive(Drop)]
pub enum Content {
    Markup,
    /// The text of the element of this name, in which data may stand or may not.
    InnerText(bool, Vec<u8>),
    ScriptText,
    SvgBegins,
    SvgEnds,
    /// HTML within `svg`.
    HtmlInSvg,
    /// Markup in which a script may be read as markup.
    ForeignMarkup,
    NoscriptBegins,
    NoscriptEnds,
    Plaintext,
}

/// Which attributes of a tag may hold data.
#[derive(Clone, Copy)]
pub enum Attributes {
    Common,
    OfActive,
    OfShowing,
    OfLoading,
    OfMeta,
    MetaContent,
    MetaPragma,
}

/// What a tag says, by the name of its element and by the attributes that are read.
pub struct Tag {
    pub content: Content,
    pub attributes: Attributes,
}

// Not derived, so that each drop of one is a single call.
impl Drop for Tag {
    fn drop(self) {
        let Tag {
            content: _,
            attributes: _,
        } = self;
    }
}

impl Tag {
    /// Returns what follows the `>`.
    pub fn into_content(self) -> Content
        ensures { result ≡ self.content }
    {
        let Tag {
            content,
            attributes: _,
        } = self;
        content
    }
}

fn content_of(name: Vec<u8>) -> Content
    ensures { content_view result ≡ tags.content_of name.items }
{
    if is_text_element(&name) {
        Content::InnerText(true, name)
    } else if is_raw_text_element(&name) {
        Content::InnerText(false, name)
    } else if is_script(&name) {
        Content::ScriptText
    } else if is_svg(&name) {
        Content::SvgBegins
    } else if is_integration_point(&name) {
        Content::HtmlInSvg
    } else if is_foreign_element(&name) {
        Content::ForeignMarkup
    } else if is_noscript(&name) {
        Content::NoscriptBegins
    } else if is_plaintext(&name) {
        Content::Plaintext
    } else {
        Content::Markup
    }
}

fn attributes_of(name: &[u8]) -> Attributes
    ensures { attributes_view result ≡ tags.attributes_of name.now }
{
    if is_active_element(name) {
        Attributes::OfActive
    } else if is_loading_element(name) {
        Attributes::OfLoading
    } else if is_showing_element(name) {
        Attributes::OfShowing
    } else if is_meta(name) {
        Attributes::OfMeta
    } else {
        Attributes::Common
    }
}

fn end_content_of(name: &[u8]) -> Content
    ensures { content_view result ≡ tags.end_content_of name.now }
{
    if is_noscript(name) {
        Content::NoscriptEnds
    } else if is_svg(name) {
        Content::SvgEnds
    } else {
        Content::Markup
    }
}

/// Returns what an end tag or a start tag of this name says.
pub fn tag_of(ends: bool, name: Vec<u8>) -> Tag
    ensures { tag_view result ≡ tags.tag_of ends name.items }
{
    if ends {
        return Tag {
            content: end_content_of(&name),
            attributes: Attributes::OfActive,
        };
    }
    let attributes = attributes_of(&name);
    Tag {
        content: content_of(name),
        attributes,
    }
}

fn common_value(name: &[u8], alloc: Global) -> Value
    ensures { value_of result ≡ tags.common_value name.now }
{
    if is_harmless_attribute(name) {
        Value::Harmless
    } else if is_address_attribute(name) {
        Value::Followed(Vec::new(alloc))
    } else {
        Value::Forbidden
    }
}

fn active_value(name: &[u8]) -> Value
    ensures { value_of result ≡ tags.active_value name.now }
{
    if is_passive_attribute(name) {
        Value::Harmless
    } else {
        Value::Forbidden
    }
}

fn showing_value(name: &[u8], alloc: Global) -> Value
    ensures { value_of result ≡ tags.showing_value name.now }
{
    if is_shown_attribute(name) {
        Value::Harmless
    } else {
        common_value(name, alloc)
    }
}

fn loading_value(name: &[u8], alloc: Global) -> Value
    ensures { value_of result ≡ tags.loading_value name.now }
{
    if is_loaded_attribute(name) {
        Value::Loaded(Vec::new(alloc))
    } else if is_rel(name) {
        Value::Forbidden
    } else if is_harmless_attribute(name) {
        Value::Harmless
    } else {
        Value::Forbidden
    }
}

fn meta_value(name: &[u8]) -> Value
    ensures { value_of result ≡ tags.meta_value name.now }
{
    if is_content(name) {
        Value::Harmless
    } else {
        Value::Forbidden
    }
}

/// Returns the value of an attribute of this name, before its first byte.
pub fn first_value(attributes: Attributes, name: &[u8], alloc: Global) -> Value
    ensures { value_of result ≡ tags.first_value (attributes_view attributes) name.now }
{
    match attributes {
        Attributes::Common => common_value(name, alloc),
        Attributes::OfActive => active_value(name),
        Attributes::OfShowing => showing_value(name, alloc),
        Attributes::OfLoading => loading_value(name, alloc),
        Attributes::OfMeta => meta_value(name),
        Attributes::MetaContent => meta_value(name),
        Attributes::MetaPragma => Value::Forbidden,
    }
}

fn beside_meta(name: &[u8]) -> Attributes
    ensures { attributes_view result ≡ tags.beside_meta name.now }
{
    if is_content(name) {
        Attributes::MetaContent
    } else if is_http_equiv(name) {
        Attributes::MetaPragma
    } else {
        Attributes::OfMeta
    }
}

/// Returns which attributes may hold data beside one of this name.
pub fn beside(attributes: Attributes, name: &[u8]) -> Attributes
    ensures { attributes_view result ≡ tags.beside (attributes_view attributes) name.now }
{
    match attributes {
        Attributes::Common => Attributes::Common,
        Attributes::OfActive => Attributes::OfActive,
        Attributes::OfShowing => Attributes::OfShowing,
        Attributes::OfLoading => Attributes::OfLoading,
        Attributes::OfMeta => beside_meta(name),
        Attributes::MetaContent => Attributes::MetaContent,
        Attributes::MetaPragma => Attributes::MetaPragma,
    }
}

/// Returns whether an attribute of this name would change what one before it means.
pub fn is_late(attributes: Attributes, name: &[u8]) -> bool
    ensures { result ≡ tags.is_late (attributes_view attributes) name.now }
{
    match attributes {
        Attributes::Common => false,
        Attributes::OfActive => false,
        Attributes::OfShowing => false,
        Attributes::OfLoading => false,
        Attributes::OfMeta => false,
        Attributes::MetaContent => is_http_equiv(name),
        Attributes::MetaPragma => false,
    }
}
