//! The states of a tokenizer of HTML, and how a byte changes them.

ghost use Rattle.std.specs.Prelude.{◌≡◌, [], ◌∷◌, IfOk, codes};
ghost use Rattle.handlebars_html.specs.Ascii as ascii;
ghost use Rattle.handlebars_html.specs.Tokenizer as tokenizer;
ghost use Rattle.handlebars_html.specs.HtmlView.{plain_of, tag_view, tokenizer_of, value_of};

use crate::address::{Value, begins_address, is_safe_value, step_value};
use crate::ascii::{begins_query, is_blank_or_control, is_html_white, is_letter, lower};
use crate::lists::push;
use crate::plain::{
    Plain, by_dash, is_plain_comment, is_plain_refused, is_safe_plain, next_comment_end,
    next_declaration, next_script_end, next_text_end, next_unclear, next_unclear_dash, step_script,
};
use crate::tag::{Tag, beside, first_value, is_late, tag_of};
use std::alloc::{AllocError, Global};

/// A state of a tokenizer.
#[derive(Drop)]
pub enum Tokenizer {
    Plain(Plain),
    /// In the name of an end tag or of a start tag.
    TagName(bool, Vec<u8>),
    BeforeAttribute(Tag),
    AttributeName(Tag, Vec<u8>),
    AfterAttribute(Tag, Vec<u8>),
    BeforeValue(Tag, Value),
    /// In a value in double quotes or in single ones.
    Quoted(bool, Tag, Value),
    /// In double quotes or in single ones, after an address that was written as a value.
    InUrl(bool, Tag),
    Unquoted(Tag),
    /// In the text of the element of this name, in which data may stand or may not.
    InText(bool, Vec<u8>),
    TextTagOpen(bool, Vec<u8>),
    /// In the name of the end tag of an element of text, with what is still to come.
    TextEndName(Vec<u8>),
    /// In what may be the name of the end tag of a script, with what is still to come.
    ScriptEndName(Vec<u8>),
}

fn next_plain(state: Plain, byte: u8, alloc: Global) -> Result<Tokenizer, AllocError>
    ensures { IfOk result (λ t. tokenizer_of t ≡ tokenizer.next (plain_of state) byte) }
{
    Ok(Tokenizer::Plain(match state {
        Plain::TagOpen => return tag_open(byte, alloc),
        Plain::EndTagOpen => return end_tag_open(byte, alloc),
        Plain::ScriptTagOpen => return script_tag_open(byte, alloc),
        Plain::Script => step_script(byte),
        Plain::Data => if byte == b'<' {
            Plain::TagOpen
        } else {
            Plain::Data
        },
        Plain::Declaration => next_declaration(byte),
        Plain::DeclarationDash => by_dash(byte, Plain::CommentStart, Plain::Data, Plain::Bogus),
        Plain::Bogus => if byte == b'>' {
            Plain::Data
        } else {
            Plain::Bogus
        },
        Plain::CommentStart => by_dash(byte, Plain::CommentStartDash, Plain::Data, Plain::Comment),
        Plain::CommentStartDash => by_dash(byte, Plain::CommentEnd, Plain::Data, Plain::Comment),
        Plain::Comment => by_dash(byte, Plain::CommentDash, Plain::Comment, Plain::Comment),
        Plain::CommentDash => by_dash(byte, Plain::CommentEnd, Plain::Comment, Plain::Comment),
        Plain::CommentEnd => next_comment_end(byte),
        Plain::CommentBang => by_dash(byte, Plain::CommentDash, Plain::Data, Plain::Comment),
        Plain::CommentUnclear => next_unclear(byte),
        Plain::CommentUnclearDash => next_unclear_dash(byte),
        Plain::TextEnd => next_text_end(byte),
        Plain::Late => Plain::Late,
        Plain::Misled => Plain::Misled,
        Plain::Stuck => Plain::Stuck,
    }))
}

// ---- tags

fn begin_name(ends: bool, byte: u8, alloc: Global) -> Result<Tokenizer, AllocError>
    ensures { IfOk result (λ t. tokenizer_of t ≡ tokenizer.tag_name ends (ascii.lower byte ∷ [])) }
{
    let mut name = Vec::new(alloc);
    push(&mut name, lower(byte))?;
    Ok(Tokenizer::TagName(ends, name))
}

fn tag_open(byte: u8, alloc: Global) -> Result<Tokenizer, AllocError>
    ensures { IfOk result (λ t. tokenizer_of t ≡ tokenizer.next tokenizer.tag_open byte) }
{
    if byte == b'<' {
        Ok(Tokenizer::Plain(Plain::TagOpen))
    } else if byte == b'!' {
        Ok(Tokenizer::Plain(Plain::Declaration))
    } else if byte == b'/' {
        Ok(Tokenizer::Plain(Plain::EndTagOpen))
    } else if byte == b'?' {
        Ok(Tokenizer::Plain(Plain::Bogus))
    } else if is_letter(byte) {
        begin_name(false, byte, alloc)
    } else {
        Ok(Tokenizer::Plain(Plain::Data))
    }
}

fn end_tag_open(byte: u8, alloc: Global) -> Result<Tokenizer, AllocError>
    ensures { IfOk result (λ t. tokenizer_of t ≡ tokenizer.next tokenizer.end_tag_open byte) }
{
    if is_letter(byte) {
        begin_name(true, byte, alloc)
    } else if byte == b'>' {
        Ok(Tokenizer::Plain(Plain::Data))
    } else {
        Ok(Tokenizer::Plain(Plain::Bogus))
    }
}

fn tag_name(ends: bool, mut name: Vec<u8>, byte: u8) -> Result<Tokenizer, AllocError>
    ensures { IfOk result (λ t. tokenizer_of t ≡ tokenizer.next (tokenizer.tag_name ends name.items) byte) }
{
    if is_html_white(byte) || byte == b'/' {
        Ok(Tokenizer::BeforeAttribute(tag_of(ends, name)))
    } else {
        push(&mut name, lower(byte))?;
        Ok(Tokenizer::TagName(ends, name))
    }
}

// ---- attributes

fn step_attribute(tag: Tag, byte: u8, alloc: Global) -> Result<Tokenizer, AllocError>
    ensures { IfOk result (λ t. tokenizer_of t ≡ tokenizer.step_attribute (tag_view tag) byte) }
{
    if is_html_white(byte) || byte == b'/' {
        Ok(Tokenizer::BeforeAttribute(tag))
    } else {
        let mut name = Vec::new(alloc);
        push(&mut name, lower(byte))?;
        Ok(Tokenizer::AttributeName(tag, name))
    }
}

fn begin_value(mut tag: Tag, name: &[u8], alloc: Global) -> Tokenizer
    ensures { tokenizer_of result ≡ tokenizer.begin_value (tag_view tag) name.now }
{
    let attributes = tag.attributes;
    if is_late(attributes, name) {
        return Tokenizer::Plain(Plain::Late);
    }
    let value = first_value(attributes, name, alloc);
    tag.attributes = beside(attributes, name);
    Tokenizer::BeforeValue(tag, value)
}

fn attribute_name(
    tag: Tag,
    mut name: Vec<u8>,
    byte: u8,
    alloc: Global,
) -> Result<Tokenizer, AllocError>
    ensures { IfOk result (λ t. tokenizer_of t ≡ tokenizer.next (tokenizer.attribute_name (tag_view tag) name.items) byte) }
{
    if is_html_white(byte) {
        Ok(Tokenizer::AfterAttribute(tag, name))
    } else if byte == b'/' {
        Ok(Tokenizer::BeforeAttribute(tag))
    } else if byte == b'=' {
        Ok(begin_value(tag, &name, alloc))
    } else {
        push(&mut name, lower(byte))?;
        Ok(Tokenizer::AttributeName(tag, name))
    }
}

fn after_attribute(
    tag: Tag,
    name: Vec<u8>,
    byte: u8,
    alloc: Global,
) -> Result<Tokenizer, AllocError>
    ensures { IfOk result (λ t. tokenizer_of t ≡ tokenizer.next (tokenizer.after_attribute (tag_view tag) name.items) byte) }
{
    if is_html_white(byte) {
        Ok(Tokenizer::AfterAttribute(tag, name))
    } else if byte == b'=' {
        Ok(begin_value(tag, &name, alloc))
    } else {
        step_attribute(tag, byte, alloc)
    }
}

fn before_value(tag: Tag, value: Value, byte: u8) -> Tokenizer
    ensures { tokenizer_of result ≡ tokenizer.next (tokenizer.before_value (tag_view tag) (value_of value)) byte }
{
    if is_html_white(byte) {
        Tokenizer::BeforeValue(tag, value)
    } else if byte == b'"' {
        Tokenizer::Quoted(true, tag, value)
    } else if byte == b'\'' {
        Tokenizer::Quoted(false, tag, value)
    } else {
        Tokenizer::Unquoted(tag)
    }
}

fn quote_of(double: bool) -> u8
    ensures { result ≡ tokenizer.quote_of double }
{
    if double { b'"' } else { b'\'' }
}

fn quoted(double: bool, tag: Tag, value: Value, byte: u8) -> Result<Tokenizer, AllocError>
    ensures { IfOk result (λ t.
        tokenizer_of t ≡ tokenizer.next (tokenizer.quoted double (tag_view tag) (value_of value)) byte) }
{
    if byte == quote_of(double) {
        return Ok(Tokenizer::BeforeAttribute(tag));
    }
    let value = step_value(value, byte)?;
    Ok(Tokenizer::Quoted(double, tag, value))
}

fn in_url(double: bool, tag: Tag, byte: u8) -> Tokenizer
    ensures { tokenizer_of result ≡ tokenizer.next (tokenizer.in_url double (tag_view tag)) byte }
{
    if byte == quote_of(double) {
        Tokenizer::BeforeAttribute(tag)
    } else if is_blank_or_control(byte) {
        Tokenizer::InUrl(double, tag)
    } else if byte == b'/' || begins_query(byte) {
        Tokenizer::Quoted(double, tag, Value::Forbidden)
    } else {
        Tokenizer::Plain(Plain::Misled)
    }
}

fn unquoted(tag: Tag, byte: u8) -> Tokenizer
    ensures { tokenizer_of result ≡ tokenizer.next (tokenizer.unquoted (tag_view tag)) byte }
{
    if is_html_white(byte) {
        Tokenizer::BeforeAttribute(tag)
    } else {
        Tokenizer::Unquoted(tag)
    }
}

// ---- the text of an element

fn in_text(safe: bool, name: Vec<u8>, byte: u8) -> Tokenizer
    ensures { tokenizer_of result ≡ tokenizer.next (tokenizer.in_text safe name.items) byte }
{
    if byte == b'<' {
        Tokenizer::TextTagOpen(safe, name)
    } else {
        Tokenizer::InText(safe, name)
    }
}

fn text_tag_open(safe: bool, name: Vec<u8>, byte: u8) -> Tokenizer
    ensures { tokenizer_of result ≡ tokenizer.next (tokenizer.text_tag_open safe name.items) byte }
{
    if byte == b'<' {
        Tokenizer::TextTagOpen(safe, name)
    } else if byte == b'/' {
        Tokenizer::TextEndName(name)
    } else if byte == b'!' || byte == b'?' || is_letter(byte) {
        Tokenizer::Plain(Plain::Stuck)
    } else {
        Tokenizer::InText(safe, name)
    }
}

fn text_end_name(mut rest: Vec<u8>, byte: u8) -> Tokenizer
    ensures { tokenizer_of result ≡ tokenizer.next (tokenizer.text_end_name rest.items) byte }
{
    if rest.is_empty() {
        Tokenizer::Plain(next_text_end(byte))
    } else if is_html_white(byte) || rest[0] != lower(byte) {
        Tokenizer::Plain(Plain::Stuck)
    } else {
        rest.remove(0);
        Tokenizer::TextEndName(rest)
    }
}

// ---- scripts

/// Returns the name `script`.
///
/// # Errors
///
/// Fails if memory runs out.
pub fn script_name(alloc: Global) -> Result<Vec<u8>, AllocError>
    ensures { IfOk result (λ n. n.items ≡ codes "script") }
{
    let mut name = Vec::new(alloc);
    name.extend_from_slice("script".as_bytes())?;
    Ok(name)
}

fn script_tag_open(byte: u8, alloc: Global) -> Result<Tokenizer, AllocError>
    ensures { IfOk result (λ t. tokenizer_of t ≡ tokenizer.next tokenizer.script_tag_open byte) }
{
    if byte == b'/' {
        let name = script_name(alloc)?;
        Ok(Tokenizer::ScriptEndName(name))
    } else if byte == b'!' {
        Ok(Tokenizer::Plain(Plain::Stuck))
    } else {
        Ok(Tokenizer::Plain(step_script(byte)))
    }
}

fn script_end_name(mut rest: Vec<u8>, byte: u8) -> Tokenizer
    ensures { tokenizer_of result ≡ tokenizer.next (tokenizer.script_end_name rest.items) byte }
{
    if rest.is_empty() {
        Tokenizer::Plain(next_script_end(byte))
    } else if is_html_white(byte) {
        Tokenizer::Plain(Plain::Script)
    } else if rest[0] != lower(byte) {
        Tokenizer::Plain(step_script(byte))
    } else {
        rest.remove(0);
        Tokenizer::ScriptEndName(rest)
    }
}

// ---- all states

/// Returns the state after a byte, if it is no `>` that ends a tag.
///
/// # Errors
///
/// Fails if memory runs out.
pub fn next(state: Tokenizer, byte: u8, alloc: Global) -> Result<Tokenizer, AllocError>
    ensures { IfOk result (λ t. tokenizer_of t ≡ tokenizer.next (tokenizer_of state) byte) }
{
    match state {
        Tokenizer::Plain(plain) => next_plain(plain, byte, alloc),
        Tokenizer::TagName(ends, name) => tag_name(ends, name, byte),
        Tokenizer::BeforeAttribute(tag) => step_attribute(tag, byte, alloc),
        Tokenizer::AttributeName(tag, name) => attribute_name(tag, name, byte, alloc),
        Tokenizer::AfterAttribute(tag, name) => after_attribute(tag, name, byte, alloc),
        Tokenizer::BeforeValue(tag, value) => Ok(before_value(tag, value, byte)),
        Tokenizer::Quoted(double, tag, value) => quoted(double, tag, value, byte),
        Tokenizer::InUrl(double, tag) => Ok(in_url(double, tag, byte)),
        Tokenizer::Unquoted(tag) => Ok(unquoted(tag, byte)),
        Tokenizer::InText(safe, name) => Ok(in_text(safe, name, byte)),
        Tokenizer::TextTagOpen(safe, name) => Ok(text_tag_open(safe, name, byte)),
        Tokenizer::TextEndName(rest) => Ok(text_end_name(rest, byte)),
        Tokenizer::ScriptEndName(rest) => Ok(script_end_name(rest, byte)),
    }
}

/// Returns whether the state is one within a comment.
pub fn is_comment(state: &Tokenizer) -> bool
    ensures { result ≡ tokenizer.is_comment (tokenizer_of state.now) }
{
    match state {
        Tokenizer::Plain(plain) => is_plain_comment(*plain),
        _ => false,
    }
}

/// Returns whether no text of a template may lead there.
pub fn is_refused(state: &Tokenizer) -> bool
    ensures { result ≡ tokenizer.is_refused (tokenizer_of state.now) }
{
    match state {
        Tokenizer::Plain(plain) => is_plain_refused(*plain),
        _ => false,
    }
}

/// Returns whether data may stand there.
pub fn is_safe_tokenizer(state: &Tokenizer) -> bool
    ensures { result ≡ tokenizer.is_safe_tokenizer (tokenizer_of state.now) }
{
    match state {
        Tokenizer::Plain(plain) => is_safe_plain(*plain),
        Tokenizer::InText(safe, _) => *safe,
        Tokenizer::Quoted(_, _, value) => is_safe_value(value),
        _ => false,
    }
}

/// Returns whether an address begins there that is followed.
pub fn begins_url(state: &Tokenizer) -> bool
    ensures { result ≡ tokenizer.begins_url (tokenizer_of state.now) }
{
    match state {
        Tokenizer::Quoted(_, _, value) => begins_address(value),
        _ => false,
    }
}

/// Returns the state after a whole address.
pub fn after_address(state: Tokenizer) -> Tokenizer
    ensures { tokenizer_of result ≡ tokenizer.after_address (tokenizer_of state) }
{
    match state {
        Tokenizer::Quoted(double, tag, _) => Tokenizer::InUrl(double, tag),
        other => other,
    }
}
