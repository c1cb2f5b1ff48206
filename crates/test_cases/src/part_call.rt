//! The calls of parts that test cases ask for, by their names, and what each answers. The module `call` lists the names too.

use crate::call::Call;
use crate::reply::{OwnedReply, answered, held, shown, text_or_error};
use handlebars_base::error::{RenderError, TemplateError};
use handlebars_base::json::path::{Path, PathSeg, read_prefix, split_path};
use handlebars_base::support::{escape_html, html_escape, no_escape};
use handlebars_expressions::binding::split_binding;
use handlebars_expressions::expression::{Enclosure, NameMode, split_expression};
use handlebars_expressions::literal::split_literal;
use handlebars_expressions::literal_value::literal_value;
use handlebars_scope::context::Context;
use handlebars_template::template::{Parameter, Template, TemplateOptions};
use serde_json::Value as JsonValue;
use std::alloc::{AllocError, Global};
use std::collections::VecDeque;

impl Call<'_> {
    /// Returns what the call of a part answers for a text. These calls need no render context.
    pub fn part_reply(
        &self,
        alloc: Global,
        data: &JsonValue,
        text: &str,
    ) -> Result<OwnedReply, AllocError> {
        match self.call {
            "Path::parse" => answered(alloc, Path::parse(alloc, text)),
            "split_path" => shown(alloc, &split_path(text)),
            "read_front" => held(alloc, read_prefix(alloc, text)),
            "split_literal" => held(alloc, split_literal(alloc, text)),
            "literal_value" => held(alloc, literal_value(alloc, text)),
            "split_line(Tag)" => expression(alloc, NameMode::Value, Enclosure::Tag, text),
            "split_line(Block)" => expression(alloc, NameMode::Identifier, Enclosure::Block, text),
            "split_line(Parentheses)" => expression(
                alloc,
                NameMode::Value,
                Enclosure::Parentheses,
                text,
            ),
            "split_line(Close)" => expression(alloc, NameMode::Close, Enclosure::Tag, text),
            "split_binding" => shown(alloc, &split_binding(text)),
            "Parameter::parse" => answered(alloc, Parameter::parse(alloc, text)),
            _ => self.source_reply(alloc, data, text),
        }
    }

    // The calls that take a source, a text to escape, or a path into data.
    fn source_reply(
        &self,
        alloc: Global,
        data: &JsonValue,
        text: &str,
    ) -> Result<OwnedReply, AllocError> {
        match self.call {
            "Template::compile" => answered(alloc, Template::compile(alloc, text)),
            "Template::compile_with_name" => answered(alloc, self.compiled_with_name(alloc, text)),
            "Template::compile2" => answered(alloc, self.compiled2(alloc, text)),
            "escape_html" => Ok(OwnedReply::Gives(escape_html(alloc, text)?)),
            "html_escape" => Ok(OwnedReply::Gives(html_escape(alloc, text)?)),
            "no_escape" => Ok(OwnedReply::Gives(no_escape(alloc, text)?)),
            _ => text_or_error(alloc, resolved(alloc, data, text)),
        }
    }

    fn compiled_with_name(&self, alloc: Global, source: &str) -> Result<Template, TemplateError> {
        let name = String::from_str(alloc, self.name)?;
        Template::compile_with_name(alloc, source, name)
    }

    fn compiled2(&self, alloc: Global, source: &str) -> Result<Template, TemplateError> {
        let options = TemplateOptions {
            name: Some(String::from_str(alloc, self.name)?),
            prevent_indent: true,
        };
        Template::compile2(alloc, source, options)
    }
}

fn expression(
    alloc: Global,
    mode: NameMode,
    enclosure: Enclosure,
    text: &str,
) -> Result<OwnedReply, AllocError> {
    held(alloc, split_expression(alloc, mode, enclosure, text))
}

// Without any scope frame.
fn resolved(alloc: Global, data: &JsonValue, path: &str) -> Result<String, RenderError> {
    let data = Context::try_from(data.clone()?)?;
    let path = Path::parse(alloc, path)?;
    match &path {
        Path::Relative((segments, _)) => navigated(alloc, &data, segments.as_slice()),
        Path::Local(_) => Ok(String::from_str(alloc, "None")?),
    }
}

fn navigated(alloc: Global, data: &Context, segments: &[PathSeg]) -> Result<String, RenderError> {
    let blocks = VecDeque::new(alloc);
    let found = data.navigate(alloc, segments, &blocks, false)?;
    let value = found.as_json();
    Ok(format!(in alloc; "{value:?}")?)
}
