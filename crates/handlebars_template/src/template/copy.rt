//! Copies of a template's tree.

ghost use Rattle.std.specs.Prelude.{◌≡◌, IfOk, map, option_map};
ghost use Rattle.handlebars_base.specs.PathView.{reference_of, segment_of};
ghost use Rattle.handlebars_template.specs.TreeView.{binding_view, block_param_view, body_view, call_view, decorator_view, element_view, elements_view, hash_view, param_view, params_view, position_of, subexpression_view, text, tree_view};

use super::tree::{
    BlockParam, DecoratorTemplate, HelperTemplate, Parameter, Subexpression, Template,
    TemplateElement, TemplateMapping,
};
use handlebars_base::json::path::{Path, PathSeg};
use std::alloc::{AllocError, Global};
use std::collections::BTreeMap;

impl Template {
    /// Returns a copy of the tree, in time linear in its size.
    pub fn clone(&self, alloc: Global) -> Result<Template, AllocError>
        ensures { IfOk result (λ copy. tree_view copy ≡ tree_view self.now) }
    {
        copied_template(alloc, self)
    }
}

#[cycle(copy)]
fn copied_template(alloc: Global, template: &Template) -> Result<Template, AllocError>
    ensures { IfOk result (λ copy. tree_view copy ≡ tree_view template.now) }
{
    Ok(Template {
        name: copied_text(&template.name)?,
        elements: copied_elements(alloc, &template.elements)?,
        mapping: copied_mapping(alloc, &template.mapping)?,
    })
}

#[cycle(copy)]
fn copied_elements(
    alloc: Global,
    elements: &Vec<TemplateElement>,
) -> Result<Vec<TemplateElement>, AllocError>
    ensures { IfOk result (λ copies. elements_view copies.items ≡ elements_view elements.now.items) }
{
    let mut copies = Vec::with_capacity(alloc, elements.len())?;
    'elements: for element in elements {
        copies.push(copied_element(alloc, element)?)?;
    }
    Ok(copies)
}

#[cycle(copy)]
fn copied_element(alloc: Global, element: &TemplateElement) -> Result<TemplateElement, AllocError>
    ensures { IfOk result (λ copy. element_view copy ≡ element_view element.now) }
{
    match element {
        TemplateElement::RawString(text) => Ok(TemplateElement::RawString(text.clone()?)),
        TemplateElement::HtmlExpression(call) => {
            Ok(TemplateElement::HtmlExpression(copied_call(alloc, call)?))
        }
        TemplateElement::Expression(call) => {
            Ok(TemplateElement::Expression(copied_call(alloc, call)?))
        }
        TemplateElement::HelperBlock(call) => {
            Ok(TemplateElement::HelperBlock(copied_call(alloc, call)?))
        }
        TemplateElement::DecoratorExpression(tag) => {
            Ok(TemplateElement::DecoratorExpression(copied_decorator(alloc, tag)?))
        }
        TemplateElement::DecoratorBlock(tag) => {
            Ok(TemplateElement::DecoratorBlock(copied_decorator(alloc, tag)?))
        }
        TemplateElement::PartialExpression(tag) => {
            Ok(TemplateElement::PartialExpression(copied_decorator(alloc, tag)?))
        }
        TemplateElement::PartialBlock(tag) => {
            Ok(TemplateElement::PartialBlock(copied_decorator(alloc, tag)?))
        }
        TemplateElement::Comment(text) => Ok(TemplateElement::Comment(text.clone()?)),
    }
}

#[cycle(copy)]
fn copied_call(alloc: Global, call: &HelperTemplate) -> Result<Box<HelperTemplate>, AllocError>
    ensures { IfOk result (λ copy. call_view copy.value ≡ call_view call.now) }
{
    let copy = HelperTemplate {
        name: copied_parameter(alloc, &call.name)?,
        params: copied_parameters(alloc, &call.params)?,
        hash: copied_hash(alloc, &call.hash)?,
        block_param: copied_block_param(alloc, &call.block_param)?,
        template: copied_body(alloc, &call.template)?,
        inverse: copied_body(alloc, &call.inverse)?,
        block: call.block,
        chain: call.chain,
        indent_before_write: call.indent_before_write,
    };
    Ok(Box::new(alloc, copy)?)
}

#[cycle(copy)]
fn copied_decorator(
    alloc: Global,
    tag: &DecoratorTemplate,
) -> Result<Box<DecoratorTemplate>, AllocError>
    ensures { IfOk result (λ copy. decorator_view copy.value ≡ decorator_view tag.now) }
{
    let copy = DecoratorTemplate {
        name: copied_parameter(alloc, &tag.name)?,
        params: copied_parameters(alloc, &tag.params)?,
        hash: copied_hash(alloc, &tag.hash)?,
        template: copied_body(alloc, &tag.template)?,
        indent: copied_text(&tag.indent)?,
        indent_before_write: tag.indent_before_write,
    };
    Ok(Box::new(alloc, copy)?)
}

#[cycle(copy)]
fn copied_body(alloc: Global, body: &Option<Template>) -> Result<Option<Template>, AllocError>
    ensures { IfOk result (λ copy. body_view copy ≡ body_view body.now) }
{
    match body {
        Some(template) => Ok(Some(copied_template(alloc, template)?)),
        None => Ok(None),
    }
}

#[cycle(copy)]
fn copied_block_param(
    alloc: Global,
    binding: &Option<BlockParam>,
) -> Result<Option<BlockParam>, AllocError>
    ensures { IfOk result (λ copy. block_param_view copy ≡ block_param_view binding.now) }
{
    match binding {
        Some(names) => Ok(Some(copied_names(alloc, names)?)),
        None => Ok(None),
    }
}

#[cycle(copy)]
fn copied_names(alloc: Global, names: &BlockParam) -> Result<BlockParam, AllocError>
    ensures { IfOk result (λ copy. binding_view copy ≡ binding_view names.now) }
{
    match names {
        BlockParam::Single(only) => Ok(BlockParam::Single(copied_parameter(alloc, only)?)),
        BlockParam::Pair((first, second)) => {
            let first = copied_parameter(alloc, first)?;
            let second = copied_parameter(alloc, second)?;
            Ok(BlockParam::Pair((first, second)))
        }
    }
}

#[cycle(copy)]
fn copied_parameter(alloc: Global, parameter: &Parameter) -> Result<Parameter, AllocError>
    ensures { IfOk result (λ copy. param_view copy ≡ param_view parameter.now) }
{
    match parameter {
        Parameter::Name(name) => Ok(Parameter::Name(name.clone()?)),
        Parameter::Path(path) => Ok(Parameter::Path(copied_path(alloc, path)?)),
        Parameter::Literal(value) => Ok(Parameter::Literal(value.clone()?)),
        Parameter::Subexpression(call) => {
            Ok(Parameter::Subexpression(copied_subexpression(alloc, call)?))
        }
    }
}

#[cycle(copy)]
fn copied_subexpression(alloc: Global, call: &Subexpression) -> Result<Subexpression, AllocError>
    ensures { IfOk result (λ copy. subexpression_view copy ≡ subexpression_view call.now) }
{
    let element = copied_element(alloc, &call.element)?;
    Ok(Subexpression {
        element: Box::new(alloc, element)?,
    })
}

#[cycle(copy)]
fn copied_parameters(
    alloc: Global,
    parameters: &Vec<Parameter>,
) -> Result<Vec<Parameter>, AllocError>
    ensures { IfOk result (λ copies. params_view copies.items ≡ params_view parameters.now.items) }
{
    let mut copies = Vec::with_capacity(alloc, parameters.len())?;
    'parameters: for parameter in parameters {
        copies.push(copied_parameter(alloc, parameter)?)?;
    }
    Ok(copies)
}

#[cycle(copy)]
fn copied_hash(
    alloc: Global,
    hash: &BTreeMap<String, Parameter>,
) -> Result<BTreeMap<String, Parameter>, AllocError>
    ensures { IfOk result (λ copies. hash_view copies.entries ≡ hash_view hash.now.entries) }
{
    let mut copies = BTreeMap::new(alloc);
    'hash: for (key, parameter) in hash.iter() {
        let key = key.clone()?;
        drop(copies.insert(key, copied_parameter(alloc, parameter)?)?);
    }
    Ok(copies)
}

// ---- values that hold no tree

fn copied_text(words: &Option<String>) -> Result<Option<String>, AllocError>
    ensures { IfOk result (λ copy. option_map text copy ≡ option_map text words.now) }
{
    match words {
        Some(words) => Ok(Some(words.clone()?)),
        None => Ok(None),
    }
}

fn copied_mapping(
    alloc: Global,
    mapping: &Vec<TemplateMapping>,
) -> Result<Vec<TemplateMapping>, AllocError>
    ensures { IfOk result (λ copies. map position_of copies.items ≡ map position_of mapping.now.items) }
{
    let mut copies = Vec::with_capacity(alloc, mapping.len())?;
    'positions: for position in mapping {
        copies.push(*position)?;
    }
    Ok(copies)
}

fn copied_path(alloc: Global, path: &Path) -> Result<Path, AllocError>
    ensures { IfOk result (λ copy. reference_of copy ≡ reference_of path.now) }
{
    match path {
        Path::Relative((segments, raw)) => {
            Ok(Path::Relative((copied_segments(alloc, segments)?, raw.clone()?)))
        }
        Path::Local((up, name, raw)) => Ok(Path::Local((*up, name.clone()?, raw.clone()?))),
    }
}

fn copied_segments(alloc: Global, segments: &Vec<PathSeg>) -> Result<Vec<PathSeg>, AllocError>
    ensures { IfOk result (λ copies. map segment_of copies.items ≡ map segment_of segments.now.items) }
{
    let mut copies = Vec::with_capacity(alloc, segments.len())?;
    'segments: for segment in segments {
        copies.push(copied_segment(segment)?)?;
    }
    Ok(copies)
}

fn copied_segment(segment: &PathSeg) -> Result<PathSeg, AllocError>
    ensures { IfOk result (λ copy. segment_of copy ≡ segment_of segment.now) }
{
    match segment {
        PathSeg::Named(name) => Ok(PathSeg::Named(name.clone()?)),
        PathSeg::Ruled(rule) => Ok(PathSeg::Ruled(*rule)),
    }
}
