//! States of a tokenizer with nothing in them, and how a byte changes those that lead to such states alone.

ghost use Rattle.std.specs.Prelude.{◌≡◌, []};
ghost use Rattle.handlebars_html.specs.Tokenizer as tokenizer;
ghost use Rattle.handlebars_html.specs.HtmlView.{plain_of};

use crate::ascii::is_html_white;

/// A state with nothing in it, by its name in the HTML standard.
#[derive(Clone, Copy)]
pub enum Plain {
    Data,
    TagOpen,
    EndTagOpen,
    /// Markup declaration open state, after `<!`.
    Declaration,
    /// Markup declaration open state, after `<!-`.
    DeclarationDash,
    /// Bogus comment state, or one of a doctype.
    Bogus,
    CommentStart,
    CommentStartDash,
    Comment,
    CommentDash,
    CommentEnd,
    CommentBang,
    /// In a comment, after data.
    CommentUnclear,
    /// In a comment, after data and a dash.
    CommentUnclearDash,
    Script,
    ScriptTagOpen,
    /// In the end tag of a text or of a script, after its name.
    TextEnd,
    /// An attribute changed what one before it means.
    Late,
    /// A text could make a scheme of an address that was written as a value.
    Misled,
    /// Nothing more is said.
    Stuck,
}

/// Returns the first state for a dash, the second for a `>`, and the third for any other byte.
pub fn by_dash(byte: u8, dash: Plain, greater: Plain, other: Plain) -> Plain
    ensures { plain_of result ≡ tokenizer.by_dash byte (plain_of dash) (plain_of greater) (plain_of other) }
{
    if byte == b'-' {
        dash
    } else if byte == b'>' {
        greater
    } else {
        other
    }
}

/// Returns the state after a byte of a markup declaration, after `<!`.
pub fn next_declaration(byte: u8) -> Plain
    ensures { plain_of result ≡ tokenizer.next tokenizer.declaration byte }
{
    if byte == b'[' {
        Plain::Stuck
    } else {
        by_dash(byte, Plain::DeclarationDash, Plain::Data, Plain::Bogus)
    }
}

/// Returns the state after a byte in the comment end state.
pub fn next_comment_end(byte: u8) -> Plain
    ensures { plain_of result ≡ tokenizer.next tokenizer.comment_end byte }
{
    if byte == b'!' {
        Plain::CommentBang
    } else {
        by_dash(byte, Plain::CommentEnd, Plain::Data, Plain::Comment)
    }
}

/// Returns the state after a byte in a comment, after data.
pub fn next_unclear(byte: u8) -> Plain
    ensures { plain_of result ≡ tokenizer.next tokenizer.comment_unclear byte }
{
    if byte == b'!' {
        Plain::CommentUnclear
    } else {
        by_dash(
            byte,
            Plain::CommentUnclearDash,
            Plain::Stuck,
            Plain::Comment,
        )
    }
}

/// Returns the state after a byte in a comment, after data and a dash.
pub fn next_unclear_dash(byte: u8) -> Plain
    ensures { plain_of result ≡ tokenizer.next tokenizer.comment_unclear_dash byte }
{
    if byte == b'!' {
        Plain::CommentUnclear
    } else {
        by_dash(byte, Plain::CommentEnd, Plain::Stuck, Plain::Comment)
    }
}

/// Returns the state after a byte in the end tag of a text or of a script, after its name.
pub fn next_text_end(byte: u8) -> Plain
    ensures { plain_of result ≡ tokenizer.next tokenizer.text_end byte }
{
    if is_html_white(byte) {
        Plain::TextEnd
    } else if byte == b'>' {
        Plain::Data
    } else {
        Plain::Stuck
    }
}

/// Returns the state after a byte of a script.
pub fn step_script(byte: u8) -> Plain
    ensures { plain_of result ≡ tokenizer.step_script byte }
{
    if byte == b'<' {
        Plain::ScriptTagOpen
    } else {
        Plain::Script
    }
}

/// Returns the state after a byte after the name of the end tag of a script.
pub fn next_script_end(byte: u8) -> Plain
    ensures { plain_of result ≡ tokenizer.step_script_end [] byte }
{
    if is_html_white(byte) {
        Plain::TextEnd
    } else if byte == b'>' {
        Plain::Data
    } else if byte == b'/' {
        Plain::Stuck
    } else {
        step_script(byte)
    }
}

/// Returns whether the state is one within a comment.
pub fn is_plain_comment(state: Plain) -> bool
    ensures { result ≡ tokenizer.is_comment (plain_of state) }
{
    match state {
        Plain::CommentStart => true,
        Plain::CommentStartDash => true,
        Plain::Comment => true,
        Plain::CommentDash => true,
        Plain::CommentEnd => true,
        Plain::CommentBang => true,
        Plain::CommentUnclear => true,
        Plain::CommentUnclearDash => true,
        Plain::Data => false,
        Plain::TagOpen => false,
        Plain::EndTagOpen => false,
        Plain::Declaration => false,
        Plain::DeclarationDash => false,
        Plain::Bogus => false,
        Plain::Script => false,
        Plain::ScriptTagOpen => false,
        Plain::TextEnd => false,
        Plain::Late => false,
        Plain::Misled => false,
        Plain::Stuck => false,
    }
}

/// Returns whether data may stand there.
pub fn is_safe_plain(state: Plain) -> bool
    ensures { result ≡ tokenizer.is_safe_tokenizer (plain_of state) }
{
    match state {
        Plain::Data => true,
        _ => is_plain_comment(state),
    }
}

/// Returns whether no text of a template may lead there.
pub fn is_plain_refused(state: Plain) -> bool
    ensures { result ≡ tokenizer.is_refused (plain_of state) }
{
    match state {
        Plain::Late => true,
        Plain::Misled => true,
        _ => false,
    }
}
