//! Copies of states.

ghost use Rattle.std.specs.Prelude.{◌≡◌, IfOk};
ghost use Rattle.handlebars_html.specs.HtmlView.{content_view, html_of, tag_view, tokenizer_of, value_of};

use crate::address::Value;
use crate::html::Html;
use crate::tag::{Content, Tag};
use crate::tokenizer::Tokenizer;
use std::alloc::{AllocError, Global};

fn copy_value(value: &Value) -> Result<Value, AllocError>
    ensures { IfOk result (λ v. value_of v ≡ value_of value.now) }
{
    Ok(match value {
        Value::Harmless => Value::Harmless,
        Value::Forbidden => Value::Forbidden,
        Value::Followed(text) => Value::Followed(text.clone()?),
        Value::Loaded(text) => Value::Loaded(text.clone()?),
        Value::LoadedSlash => Value::LoadedSlash,
        Value::LoadedAuthority => Value::LoadedAuthority,
        Value::LoadedHost => Value::LoadedHost,
    })
}

fn copy_content(content: &Content) -> Result<Content, AllocError>
    ensures { IfOk result (λ c. content_view c ≡ content_view content.now) }
{
    Ok(match content {
        Content::Markup => Content::Markup,
        Content::InnerText(safe, name) => Content::InnerText(*safe, name.clone()?),
        Content::ScriptText => Content::ScriptText,
        Content::SvgBegins => Content::SvgBegins,
        Content::SvgEnds => Content::SvgEnds,
        Content::HtmlInSvg => Content::HtmlInSvg,
        Content::ForeignMarkup => Content::ForeignMarkup,
        Content::NoscriptBegins => Content::NoscriptBegins,
        Content::NoscriptEnds => Content::NoscriptEnds,
        Content::Plaintext => Content::Plaintext,
    })
}

fn copy_tag(tag: &Tag) -> Result<Tag, AllocError>
    ensures { IfOk result (λ t. tag_view t ≡ tag_view tag.now) }
{
    let content = copy_content(&tag.content)?;
    Ok(Tag {
        content,
        attributes: tag.attributes,
    })
}

fn copy_tokenizer(state: &Tokenizer) -> Result<Tokenizer, AllocError>
    ensures { IfOk result (λ t. tokenizer_of t ≡ tokenizer_of state.now) }
{
    Ok(match state {
        Tokenizer::Plain(plain) => Tokenizer::Plain(*plain),
        Tokenizer::TagName(ends, name) => Tokenizer::TagName(*ends, name.clone()?),
        Tokenizer::BeforeAttribute(tag) => Tokenizer::BeforeAttribute(copy_tag(tag)?),
        Tokenizer::AttributeName(tag, name) => {
            Tokenizer::AttributeName(copy_tag(tag)?, name.clone()?)
        }
        Tokenizer::AfterAttribute(tag, name) => {
            Tokenizer::AfterAttribute(copy_tag(tag)?, name.clone()?)
        }
        Tokenizer::BeforeValue(tag, value) => {
            Tokenizer::BeforeValue(copy_tag(tag)?, copy_value(value)?)
        }
        Tokenizer::Quoted(double, tag, value) => {
            Tokenizer::Quoted(*double, copy_tag(tag)?, copy_value(value)?)
        }
        Tokenizer::InUrl(double, tag) => Tokenizer::InUrl(*double, copy_tag(tag)?),
        Tokenizer::Unquoted(tag) => Tokenizer::Unquoted(copy_tag(tag)?),
        Tokenizer::InText(safe, name) => Tokenizer::InText(*safe, name.clone()?),
        Tokenizer::TextTagOpen(safe, name) => Tokenizer::TextTagOpen(*safe, name.clone()?),
        Tokenizer::TextEndName(rest) => Tokenizer::TextEndName(rest.clone()?),
        Tokenizer::ScriptEndName(rest) => Tokenizer::ScriptEndName(rest.clone()?),
    })
}

/// Returns a copy of a state.
///
/// # Errors
///
/// Fails if memory runs out.
pub fn copy_html(state: &Html) -> Result<Html, AllocError>
    ensures { IfOk result (λ h. html_of h ≡ html_of state.now) }
{
    let tokenizer = copy_tokenizer(&state.tokenizer)?;
    Ok(Html {
        tokenizer,
        context: state.context,
    })
}
