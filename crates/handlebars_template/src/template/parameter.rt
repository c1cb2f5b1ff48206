//! Parses whole texts as parameters.

ghost use Rattle.std.specs.Prelude.{◌≡◌, ◌≢◌, None, Some, IfOk, IfErr, MatchOption};
ghost use Rattle.handlebars_base.specs.Texts.{after_byte};
ghost use Rattle.handlebars_base.specs.Reasons.{template_out_of_memory};
ghost use Rattle.handlebars_base.specs.TemplateRefusals.{template_refusal_of};
ghost use Rattle.handlebars_expressions.specs.Laws.{HasLiteral, NoLiteral};
ghost use Rattle.handlebars_expressions.specs.LiteralView.{literal_token_of};
ghost use Rattle.handlebars_expressions.specs.Parameter.{left_parenthesis};
ghost use Rattle.handlebars_template.specs.Calls.{invalid};
ghost use Rattle.handlebars_template.specs.ParameterParsing.{Parses, parsed, rejected};
ghost use Rattle.handlebars_template.specs.ParameterParsingView.{reading_view, HasNested, NoNested};
ghost use Rattle.handlebars_template.specs.TreeView.{param_view};

use crate::template::build::path_of;
use crate::template::expression::{MAX_NESTING, build_expression};
use crate::template::tree::{Parameter, Subexpression};
use handlebars_base::error::{TemplateError, TemplateErrorReason};
use handlebars_base::json::path::marks::{after_byte, after_white};
use handlebars_expressions::expression::{Enclosure, NameMode, split_expression};
use handlebars_expressions::literal::{LiteralToken, split_literal};
use handlebars_expressions::literal_value::literal_value;
use std::alloc::{AllocError, Global};

impl Parameter {
    /// Parses the whole text as a parameter.
    ///
    /// # Errors
    ///
    /// Fails with `InvalidParam`, without name and position: of the whole text if it is no parameter or nests deeper than
    /// 200, and otherwise of the first literal in it that has no value. Fails also when memory runs out.
    pub fn parse(alloc: Global, text: &str) -> Result<Parameter, TemplateError>
        ensures ok { IfOk result (λ parameter. Parses text.now (parsed (param_view parameter))) }
        ensures err { IfErr result (λ e. (template_refusal_of e).reason ≢ template_out_of_memory
            → Parses text.now (rejected (template_refusal_of e))) }
    {
        match read_parameter(alloc, text)? {
            Reading::Reads(parameter) => Ok(parameter),
            Reading::Rejects(raw) => Err(invalid(alloc, raw)?),
        }
    }
}

/// Returns the error of a text, without name and position.
pub fn invalid(alloc: Global, raw: &str) -> Result<TemplateError, AllocError>
    ensures { IfOk result (λ e. template_refusal_of e ≡ invalid raw.now) }
{
    let raw = String::from_str(alloc, raw)?;
    Ok(TemplateError::of(TemplateErrorReason::InvalidParam(raw)))
}

/// A parameter, or the text that is rejected.
#[derive(Drop)]
enum Reading<'a> {
    Reads(Parameter),
    Rejects(&'a str),
}

fn read_parameter<'a>(alloc: Global, text: &'a str) -> Result<Reading<'a>, AllocError>
    ensures { IfOk result (λ reading. Parses text.now (reading_view reading)) }
{
    match after_byte(b'(', text) {
        Some(inside) => read_nested(alloc, text, inside),
        None => read_single(alloc, text),
    }
}

// The depth of the expression between an opening parenthesis and the closing one at the end.
fn nested_depth(alloc: Global, inside: &str) -> Result<Option<usize>, AllocError>
    ensures { IfOk result (λ read. MatchOption read (NoNested inside.now) (λ depth. HasNested inside.now depth)) }
{
    let expression = after_white(inside);
    let Some(token) = split_expression(alloc, NameMode::Value, Enclosure::Parentheses, expression)?
    else {
        return Ok(None);
    };
    let Some(rest) = after_byte(b')', after_white(token.rest)) else {
        return Ok(None);
    };
    if rest.is_empty() {
        Ok(Some(token.depth))
    } else {
        Ok(None)
    }
}

// Reads a text that begins with an opening parenthesis, from what is inside.
fn read_nested<'a>(alloc: Global, text: &'a str, inside: &'a str) -> Result<Reading<'a>, AllocError>
    ensures { IfOk result (λ reading. after_byte left_parenthesis text.now ≡ Some inside.now
        → Parses text.now (reading_view reading)) }
{
    let Some(depth) = nested_depth(alloc, inside)? else {
        return Ok(Reading::Rejects(text));
    };
    if depth >= MAX_NESTING {
        return Ok(Reading::Rejects(text));
    }
    let expression = after_white(inside);
    let Some(built) = build_expression(alloc, NameMode::Value, Enclosure::Parentheses, expression)?
    else {
        return Ok(Reading::Rejects(text));
    };
    if let Some(raw) = built.rejected {
        return Ok(Reading::Rejects(raw));
    }
    let call = built.subexpression(alloc)?;
    Ok(Reading::Reads(Parameter::Subexpression(call)))
}

// Reads a text that begins with no opening parenthesis.
fn read_single<'a>(alloc: Global, text: &'a str) -> Result<Reading<'a>, AllocError>
    ensures { IfOk result (λ reading. after_byte left_parenthesis text.now ≡ None
        → Parses text.now (reading_view reading)) }
{
    match split_literal(alloc, text)? {
        Some(token) => read_literal(alloc, text, token),
        None => read_path(alloc, text),
    }
}

fn read_literal<'a>(
    alloc: Global,
    text: &'a str,
    token: LiteralToken<'a>,
) -> Result<Reading<'a>, AllocError>
    ensures { IfOk result (λ reading. after_byte left_parenthesis text.now ≡ None
        → HasLiteral text.now (literal_token_of token.entry) → Parses text.now (reading_view reading)) }
{
    if !token.rest.is_empty() {
        return Ok(Reading::Rejects(text));
    }
    if token.depth > MAX_NESTING {
        return Ok(Reading::Rejects(text));
    }
    match literal_value(alloc, token.raw)? {
        Some(value) => Ok(Reading::Reads(Parameter::Literal(value))),
        None => Ok(Reading::Rejects(token.raw)),
    }
}

fn read_path<'a>(alloc: Global, text: &'a str) -> Result<Reading<'a>, AllocError>
    ensures { IfOk result (λ reading. after_byte left_parenthesis text.now ≡ None
        → NoLiteral text.now → Parses text.now (reading_view reading)) }
{
    match path_of(alloc, text)? {
        Some(path) => Ok(Reading::Reads(Parameter::Path(path))),
        None => Ok(Reading::Rejects(text)),
    }
}
