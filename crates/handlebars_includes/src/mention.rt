//! What a template says of other templates: which names it includes, and which partials it may set.

ghost use Rattle.std.specs.Prelude.{◌≡◌, ◌∷◌, [], IfOk, OnOk, map};
ghost use Rattle.serde_json.specs.View as json;
ghost use Rattle.handlebars_template.specs.TreeView.{body_view, call_view, decorator_view, element_view, params_view, tree_view};
ghost use Rattle.handlebars_includes.specs.Mentions as mentioned;
ghost use Rattle.handlebars_includes.specs.View.{AddsMentions, mention_of, position_in, text_in};

use handlebars_template::template::{
    DecoratorTemplate, HelperTemplate, Parameter, Template, TemplateElement, TemplateMapping,
};
use serde_json::Value;
use std::alloc::{AllocError, Global};

/// What a tag says of other templates.
#[derive(Clone, Copy)]
pub enum Mention<'t> {
    /// A partial call of this name, at a position, and whether it is always rendered when its template is.
    Includes(&'t str, Option<TemplateMapping>, bool),
    /// The tag of a decorator: it sets an inline partial of this name or, with none, nobody knows what.
    Sets(Option<&'t str>),
}

/// Returns what a template says of others, in the order of its source.
///
/// # Errors
///
/// Fails if memory runs out.
pub fn mentions(alloc: Global, template: &Template) -> Result<Vec<Mention<'_>>, AllocError>
    ensures { IfOk result (λ ms. map mention_of ms.items ≡ mentioned.mentions_in (tree_view template.now)) }
{
    let mut mentions = Vec::new(alloc);
    add_tree(template, true, &mut mentions)?;
    Ok(mentions)
}

// ---- tags

fn string_in(value: &Value) -> Option<&str>
    ensures { text_in result ≡ mentioned.text_in (json.view value.now) }
{
    match value {
        Value::Null => None,
        Value::Bool(_) => None,
        Value::Number(_) => None,
        Value::String(text) => Some(text.as_str()),
        Value::Array(_) => None,
        Value::Object(_) => None,
    }
}

fn first_text(params: &Vec<Parameter>) -> Option<&str>
    ensures { text_in result ≡ mentioned.first_text (params_view params.now.items) }
{
    match params.first() {
        Some(Parameter::Literal(value)) => string_in(value),
        Some(Parameter::Name(_)) => None,
        Some(Parameter::Path(_)) => None,
        Some(Parameter::Subexpression(_)) => None,
        None => None,
    }
}

// The name of the inline partial that a tag sets, if it is `inline` and the name is written.
fn set_by(tag: &DecoratorTemplate) -> Option<&str>
    ensures { text_in result ≡ mentioned.set_by (decorator_view tag.now) }
{
    match tag.name.as_name() {
        Some(name) => if name == "inline" {
            first_text(&tag.params)
        } else {
            None
        },
        None => None,
    }
}

// Whether the block of a partial call of this name is always rendered.
fn renders_block(name: Option<&str>) -> bool
    ensures { result ≡ mentioned.renders_block (text_in name.entry) }
{
    match name {
        Some(name) => name != "@partial-block",
        None => false,
    }
}

fn push_included<'t>(
    name: Option<&'t str>,
    position: Option<TemplateMapping>,
    always: bool,
    mentions: &mut Vec<Mention<'t>>,
) -> Result<(), AllocError>
    ensures { OnOk result (AddsMentions mentions.old.items mentions.new.items
        (mentioned.included (text_in name.entry) (position_in position) always)) }
{
    match name {
        Some(name) => if name == "@partial-block" {
            Ok(())
        } else {
            mentions.push(Mention::Includes(name, position, always))?;
            Ok(())
        },
        None => Ok(()),
    }
}

// ---- trees

#[cycle(tree)]
fn add_tree<'t>(
    template: &'t Template,
    always: bool,
    mentions: &mut Vec<Mention<'t>>,
) -> Result<(), AllocError>
    ensures { OnOk result (AddsMentions mentions.old.items mentions.new.items
        (mentioned.mentions_in_tree always (tree_view template.now))) }
{
    'elements: for (index, element) in template.elements.iter().enumerate() {
        let position = template.mapping.get(index).copied();
        add_element(element, position, always, mentions)?;
    }
    Ok(())
}

#[cycle(tree)]
fn add_element<'t>(
    element: &'t TemplateElement,
    position: Option<TemplateMapping>,
    always: bool,
    mentions: &mut Vec<Mention<'t>>,
) -> Result<(), AllocError>
    ensures { OnOk result (AddsMentions mentions.old.items mentions.new.items
        (mentioned.mentions_in_element always (position_in position) (element_view element.now))) }
{
    match element {
        TemplateElement::RawString(_) => Ok(()),
        TemplateElement::HtmlExpression(call) => add_call(call, mentions),
        TemplateElement::Expression(call) => add_call(call, mentions),
        TemplateElement::HelperBlock(call) => add_call(call, mentions),
        TemplateElement::DecoratorExpression(tag) => add_decorator(tag, mentions),
        TemplateElement::DecoratorBlock(tag) => add_decorator(tag, mentions),
        TemplateElement::PartialExpression(tag) => add_inclusion(tag, position, always, mentions),
        TemplateElement::PartialBlock(tag) => add_inclusion(tag, position, always, mentions),
        TemplateElement::Comment(_) => Ok(()),
    }
}

#[cycle(tree)]
fn add_call<'t>(call: &'t HelperTemplate, mentions: &mut Vec<Mention<'t>>) -> Result<(), AllocError>
    ensures { OnOk result (AddsMentions mentions.old.items mentions.new.items
        (mentioned.mentions_in_call (call_view call.now))) }
{
    add_body(&call.template, false, mentions)?;
    add_body(&call.inverse, false, mentions)
}

#[cycle(tree)]
fn add_decorator<'t>(
    tag: &'t DecoratorTemplate,
    mentions: &mut Vec<Mention<'t>>,
) -> Result<(), AllocError>
    ensures { OnOk result (AddsMentions mentions.old.items mentions.new.items
        (mentioned.mentions_in_decorator (decorator_view tag.now))) }
{
    mentions.push(Mention::Sets(set_by(tag)))?;
    add_body(&tag.template, false, mentions)
}

#[cycle(tree)]
fn add_inclusion<'t>(
    tag: &'t DecoratorTemplate,
    position: Option<TemplateMapping>,
    always: bool,
    mentions: &mut Vec<Mention<'t>>,
) -> Result<(), AllocError>
    ensures { OnOk result (AddsMentions mentions.old.items mentions.new.items
        (mentioned.mentions_in_inclusion always (position_in position) (decorator_view tag.now))) }
{
    let name = tag.name.as_name();
    push_included(name, position, always, mentions)?;
    add_body(&tag.template, always && renders_block(name), mentions)
}

#[cycle(tree)]
fn add_body<'t>(
    body: &'t Option<Template>,
    always: bool,
    mentions: &mut Vec<Mention<'t>>,
) -> Result<(), AllocError>
    ensures { OnOk result (AddsMentions mentions.old.items mentions.new.items
        (mentioned.mentions_in_body always (body_view body.now))) }
{
    match body {
        Some(template) => add_tree(template, always, mentions),
        None => Ok(()),
    }
}
