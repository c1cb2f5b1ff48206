//! How HTML is read, byte by byte, from the beginning of a document.

ghost use Rattle.std.specs.Prelude.{◌≡◌, ◌≢◌, Option, None, Some, IfOk};
ghost use Rattle.handlebars_base.specs.Bytes.{greater_than_sign};
ghost use Rattle.handlebars_html.specs.Html as html;
ghost use Rattle.handlebars_html.specs.Tags as tags;
ghost use Rattle.handlebars_html.specs.Tokenizer as tokenizer;
ghost use Rattle.handlebars_html.specs.HtmlView.{content_view, context_of, foreign_of, html_of, html_with, plain_of, tokenizer_of};

use crate::plain::Plain;
use crate::tag::{Content, tag_of};
use crate::tokenizer::{
    Tokenizer, after_address, begins_url, is_comment, is_safe_tokenizer, next, script_name,
};
use std::alloc::{AllocError, Global};

/// Where a script may be read as markup.
#[derive(Clone, Copy)]
pub enum Foreign {
    /// Nowhere.
    Outside,
    /// Within `svg`, up to the next `</svg>`.
    InSvg,
    /// From here on.
    Anywhere,
}

/// Whether the tokenizer is within `noscript`, whose content is read as markup and as text, and whether a script may be
/// read as markup there.
#[derive(Clone, Copy)]
pub struct Context {
    pub in_noscript: bool,
    pub foreign: Foreign,
}

/// The state of a tokenizer, with its context.
pub struct Html {
    pub tokenizer: Tokenizer,
    pub context: Context,
}

// Not derived, so that each drop of one is a single call.
impl Drop for Html {
    fn drop(self) {
        let Html {
            tokenizer: _,
            context: _,
        } = self;
    }
}

impl Html {
    fn into_tokenizer(self) -> Tokenizer
        ensures { result ≡ self.tokenizer }
    {
        let Html {
            tokenizer,
            context: _,
        } = self;
        tokenizer
    }
}

/// Returns the state in which a document begins.
pub fn beginning() -> Html
    ensures { html_of result ≡ html.beginning }
{
    Html {
        tokenizer: Tokenizer::Plain(Plain::Data),
        context: Context {
            in_noscript: false,
            foreign: Foreign::Outside,
        },
    }
}

fn plain(state: Plain, context: Context) -> Html
    ensures { html_of result ≡ html_with (plain_of state) (context_of context) }
{
    Html {
        tokenizer: Tokenizer::Plain(state),
        context,
    }
}

fn begin_svg(foreign: Foreign) -> Foreign
    ensures { foreign_of result ≡ html.begin_svg (foreign_of foreign) }
{
    match foreign {
        Foreign::Outside => Foreign::InSvg,
        Foreign::InSvg => Foreign::Anywhere,
        Foreign::Anywhere => Foreign::Anywhere,
    }
}

fn end_svg(foreign: Foreign) -> Foreign
    ensures { foreign_of result ≡ html.end_svg (foreign_of foreign) }
{
    match foreign {
        Foreign::Outside => Foreign::Outside,
        Foreign::InSvg => Foreign::Outside,
        Foreign::Anywhere => Foreign::Anywhere,
    }
}

fn begin_html(foreign: Foreign) -> Foreign
    ensures { foreign_of result ≡ html.begin_html (foreign_of foreign) }
{
    match foreign {
        Foreign::Outside => Foreign::Outside,
        Foreign::InSvg => Foreign::Anywhere,
        Foreign::Anywhere => Foreign::Anywhere,
    }
}

fn is_foreign(foreign: Foreign) -> bool
    ensures { result ≡ html.is_foreign (foreign_of foreign) }
{
    match foreign {
        Foreign::Outside => false,
        Foreign::InSvg => true,
        Foreign::Anywhere => true,
    }
}

// In markup, with this in the context.
fn in_foreign(foreign: Foreign, context: Context) -> Html
    ensures { html_of result ≡ html_with tokenizer.in_data (record (context_of context) { foreign = foreign_of foreign }) }
{
    plain(
        Plain::Data,
        Context {
            in_noscript: context.in_noscript,
            foreign,
        },
    )
}

fn script_in(context: Context, alloc: Global) -> Result<Tokenizer, AllocError>
    ensures { IfOk result (λ t. tokenizer_of t ≡ html.script_in (context_of context)) }
{
    if context.in_noscript || is_foreign(context.foreign) {
        let name = script_name(alloc)?;
        Ok(Tokenizer::InText(false, name))
    } else {
        Ok(Tokenizer::Plain(Plain::Script))
    }
}

// After the `>` of a tag.
fn enter(content: Content, context: Context, alloc: Global) -> Result<Html, AllocError>
    ensures { IfOk result (λ h. html_of h ≡ html.enter (content_view content) (context_of context)) }
{
    match content {
        Content::Markup => Ok(plain(Plain::Data, context)),
        Content::InnerText(safe, name) => Ok(Html {
            tokenizer: Tokenizer::InText(safe, name),
            context,
        }),
        Content::ScriptText => {
            let tokenizer = script_in(context, alloc)?;
            Ok(Html { tokenizer, context })
        }
        Content::SvgBegins => Ok(in_foreign(begin_svg(context.foreign), context)),
        Content::SvgEnds => Ok(in_foreign(end_svg(context.foreign), context)),
        Content::HtmlInSvg => Ok(in_foreign(begin_html(context.foreign), context)),
        Content::ForeignMarkup => Ok(in_foreign(Foreign::Anywhere, context)),
        Content::NoscriptBegins => Ok(begin_noscript(context)),
        Content::NoscriptEnds => Ok(plain(
            Plain::Data,
            Context {
                in_noscript: false,
                foreign: context.foreign,
            },
        )),
        Content::Plaintext => Ok(plain(Plain::Stuck, context)),
    }
}

fn begin_noscript(context: Context) -> Html
    ensures { html_of result ≡ html.enter tags.noscript_begins (context_of context) }
{
    let within = Context {
        in_noscript: true,
        foreign: context.foreign,
    };
    if context.in_noscript {
        plain(Plain::Stuck, within)
    } else {
        plain(Plain::Data, within)
    }
}

// After a `>`.
fn end_tag(state: Html, alloc: Global) -> Result<Html, AllocError>
    ensures { IfOk result (λ h. html_of h ≡ html.end_tag (html_of state) (tokenizer.open_tag (tokenizer_of state.tokenizer))) }
{
    let context = state.context;
    match state.into_tokenizer() {
        Tokenizer::TagName(ends, name) => enter(tag_of(ends, name).into_content(), context, alloc),
        Tokenizer::BeforeAttribute(tag) => enter(tag.into_content(), context, alloc),
        Tokenizer::AttributeName(tag, _) => enter(tag.into_content(), context, alloc),
        Tokenizer::AfterAttribute(tag, _) => enter(tag.into_content(), context, alloc),
        Tokenizer::BeforeValue(tag, _) => enter(tag.into_content(), context, alloc),
        Tokenizer::Unquoted(tag) => enter(tag.into_content(), context, alloc),
        other => after_greater(other, context, alloc),
    }
}

fn after_greater(state: Tokenizer, context: Context, alloc: Global) -> Result<Html, AllocError>
    ensures { IfOk result (λ h.
        html_of h ≡ html_with (tokenizer.next (tokenizer_of state) greater_than_sign) (context_of context)) }
{
    let tokenizer = next(state, b'>', alloc)?;
    Ok(Html { tokenizer, context })
}

fn begins_tag(state: &Tokenizer) -> bool
    ensures { result ≡ html.begins_tag (tokenizer_of state.now) }
{
    match state {
        Tokenizer::Plain(plain) => begins_tag_plain(*plain),
        Tokenizer::InText(_, _) => true,
        Tokenizer::TextTagOpen(_, _) => true,
        _ => false,
    }
}

fn begins_tag_plain(state: Plain) -> bool
    ensures { result ≡ html.begins_tag (plain_of state) }
{
    match state {
        Plain::Data => true,
        Plain::TagOpen => true,
        Plain::Late => true,
        Plain::Misled => true,
        _ => false,
    }
}

// After a `<`.
fn begin_tag(state: Html, alloc: Global) -> Result<Html, AllocError>
    ensures { IfOk result (λ h. html_of h ≡ html.begin_tag (html_of state)) }
{
    let context = state.context;
    if context.in_noscript && !begins_tag(&state.tokenizer) {
        return Ok(plain(Plain::Stuck, context));
    }
    let tokenizer = next(state.into_tokenizer(), b'<', alloc)?;
    Ok(Html { tokenizer, context })
}

/// Returns the state after a byte.
///
/// # Errors
///
/// Fails if memory runs out.
pub fn step(state: Html, byte: u8, alloc: Global) -> Result<Html, AllocError>
    ensures { IfOk result (λ h. html_of h ≡ html.step (html_of state) byte) }
{
    if byte == b'>' {
        return end_tag(state, alloc);
    }
    if byte == b'<' {
        return begin_tag(state, alloc);
    }
    let context = state.context;
    let tokenizer = next(state.into_tokenizer(), byte, alloc)?;
    Ok(Html { tokenizer, context })
}

/// Returns the state after a text. Runs in time linear in the text, but for the names and addresses in it, each of which
/// is looked up once.
///
/// # Errors
///
/// Fails if memory runs out.
pub fn after(state: Html, text: &[u8], alloc: Global) -> Result<Html, AllocError>
    ensures { IfOk result (λ h. html_of h ≡ html.after (html_of state) text.now) }
{
    let mut state = state;
    for byte in text {
        state = step(state, *byte, alloc)?;
    }
    Ok(state)
}

/// Returns whether data may stand there.
pub fn is_safe(state: &Html) -> bool
    ensures { result ≡ html.is_safe (html_of state.now) }
{
    is_safe_tokenizer(&state.tokenizer)
}

/// Returns what is known of the state after data.
pub fn after_data(state: Html) -> Html
    ensures { html_of result ≡ html.after_data (html_of state) }
{
    if is_comment(&state.tokenizer) {
        plain(Plain::CommentUnclear, state.context)
    } else {
        state
    }
}

/// Returns whether an address that runs no script may stand there.
pub fn may_hold_url(state: &Html) -> bool
    ensures { result ≡ html.may_hold_url (html_of state.now) }
{
    is_safe(state) || begins_url(&state.tokenizer)
}

/// Returns what is known of the state after such an address.
pub fn after_url(state: Html) -> Html
    ensures { html_of result ≡ html.after_url (html_of state) }
{
    if begins_url(&state.tokenizer) {
        let context = state.context;
        Html {
            tokenizer: after_address(state.into_tokenizer()),
            context,
        }
    } else {
        after_data(state)
    }
}
