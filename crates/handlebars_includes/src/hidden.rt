//! Which names the hash arguments of partial calls hide.

ghost use Rattle.std.specs.Prelude.{◌≡◌, [], Some, not, IfOk, OnOk, map, option_map};
ghost use Rattle.handlebars_base.specs.PathView.{reference_of, segments_of};
ghost use Rattle.handlebars_template.specs.Tree.{args, call_body, decorator_body};
ghost use Rattle.handlebars_template.specs.TreeView.{body_view, call_view, decorator_view, element_view, hash_view, param_view, params_view, tree_view};
ghost use Rattle.handlebars_includes.specs.FrameView.{AddsNames, frame_of, hidden_of, seen_of, location_of};
ghost use Rattle.handlebars_includes.specs.Frames as scopes;
ghost use Rattle.handlebars_includes.specs.Hidden as hidden;
ghost use Rattle.handlebars_includes.specs.View.{position_in, tree_of};

use crate::calls::{has_params, is_helper, is_partial_block, stays};
use crate::frame::{Frame, Seen, hiding, within};
use crate::template::NamedTemplate;
use handlebars_base::json::path::{Path, PathRule, PathSeg};
use handlebars_template::template::{
    DecoratorTemplate, HelperTemplate, Parameter, Template, TemplateElement, TemplateMapping,
};
use std::alloc::{AllocError, Global};
use std::collections::BTreeMap;

/// Where an element is: the index of its template, and its position.
#[derive(Clone, Copy)]
pub struct Location {
    pub template: usize,
    pub position: Option<TemplateMapping>,
}

/// A name that an element reads, and that a hash argument of a partial call around it hides.
#[derive(Clone, Copy)]
pub struct HiddenName<'t> {
    /// Where the element is.
    pub location: Location,
    /// The name.
    pub name: &'t str,
    /// The position of the partial call, in the same template.
    pub tag: Option<TemplateMapping>,
}

/// Returns the names that hash arguments hide, in the order of the templates and of their sources.
///
/// A partial call with a block, `{{#> layout title=site}}`, binds `title` in its block, in each frame further in too. So within an
/// `each` in the block, `{{title}}` is not the member of the item. Neither is `{{this.title}}` nor `{{./title}}`, and within two
/// such blocks neither is `{{../title}}`. At the block's own level, and for a path that leads out to it, the hash argument is meant.
///
/// Blocks that go to another value are those of all helpers but `if`, `unless`, `lookup`, `raw`, `log`, `len` and the boolean ones,
/// and of partial calls with a parameter. Each section counts, though one over a boolean stays where it is, and each block of a
/// user-defined helper. In the body of an inline partial names are found as if it were called where it is set.
///
/// Runs in time linear in the templates, times how many scope frames are around an element.
///
/// # Errors
///
/// Fails if memory runs out.
pub fn hidden_names<'t>(
    alloc: Global,
    templates: &[NamedTemplate<'t>],
) -> Result<Vec<HiddenName<'t>>, AllocError>
    ensures { IfOk result (λ names. map hidden_of names.items ≡ hidden.hidden_from 0 (map tree_of templates.now)) }
{
    let mut names = Vec::new(alloc);
    'templates: for (index, named) in templates.iter().enumerate() {
        add_tree(named.template, index, &[], alloc, &mut names)?;
    }
    Ok(names)
}

// ---- paths

fn add_found<'t>(
    name: &'t str,
    seen: Seen,
    location: Location,
    names: &mut Vec<HiddenName<'t>>,
) -> Result<(), AllocError>
    ensures { OnOk result (AddsNames names.old.items names.new.items
        (hidden.found [] (location_of location) name.now (seen_of seen))) }
{
    match seen {
        Seen::Shown => Ok(()),
        Seen::HiddenBy(tag) => {
            names.push(HiddenName {
                location,
                name,
                tag,
            })?;
            Ok(())
        }
    }
}

fn add_name<'t>(
    name: &'t str,
    ups: usize,
    frames: &[Frame<'t>],
    location: Location,
    names: &mut Vec<HiddenName<'t>>,
) -> Result<(), AllocError>
    ensures { OnOk result (AddsNames names.old.items names.new.items
        (hidden.hidden_in_sought (map frame_of frames.now) (location_of location) (Some (ups, name.now)))) }
{
    add_found(name, hiding(frames, ups, false, name), location, names)
}

// The name that a path begins with, and how many `..` are before it.
fn sought(segments: &[PathSeg]) -> Option<(usize, &str)>
    ensures { option_map (λ s. (s.0, s.1.now)) result ≡ scopes.sought 0 (segments_of segments.now) }
{
    'segments: for (ups, segment) in segments.iter().enumerate() {
        match segment {
            PathSeg::Named(name) => return Some((ups, name.as_str())),
            PathSeg::Ruled(PathRule::Root) => return None,
            PathSeg::Ruled(PathRule::Local) => return None,
            PathSeg::Ruled(PathRule::Up) => {}
        }
    }
    None
}

fn add_path<'t>(
    path: &'t Path,
    frames: &[Frame<'t>],
    location: Location,
    names: &mut Vec<HiddenName<'t>>,
) -> Result<(), AllocError>
    ensures { OnOk result (AddsNames names.old.items names.new.items
        (hidden.hidden_in_path (map frame_of frames.now) (location_of location) (reference_of path.now))) }
{
    match path {
        Path::Relative((segments, _)) => match sought(segments) {
            Some((ups, name)) => add_name(name, ups, frames, location, names),
            None => Ok(()),
        },
        Path::Local(_) => Ok(()),
    }
}

// ---- arguments

#[cycle(args)]
fn add_param<'t>(
    param: &'t Parameter,
    frames: &[Frame<'t>],
    location: Location,
    names: &mut Vec<HiddenName<'t>>,
) -> Result<(), AllocError>
    ensures { OnOk result (AddsNames names.old.items names.new.items
        (hidden.hidden_in_param (map frame_of frames.now) (location_of location) (param_view param.now))) }
{
    match param {
        Parameter::Name(_) => Ok(()),
        Parameter::Path(path) => add_path(path, frames, location, names),
        Parameter::Literal(_) => Ok(()),
        Parameter::Subexpression(inner) => add_inner(&inner.element, frames, location, names),
    }
}

#[cycle(args)]
fn add_inner<'t>(
    element: &'t TemplateElement,
    frames: &[Frame<'t>],
    location: Location,
    names: &mut Vec<HiddenName<'t>>,
) -> Result<(), AllocError>
    ensures { OnOk result (AddsNames names.old.items names.new.items
        (hidden.hidden_in_inner (map frame_of frames.now) (location_of location) (element_view element.now))) }
{
    match element {
        TemplateElement::Expression(call) => add_inner_call(call, frames, location, names),
        TemplateElement::RawString(_) => Ok(()),
        TemplateElement::HtmlExpression(_) => Ok(()),
        TemplateElement::HelperBlock(_) => Ok(()),
        TemplateElement::DecoratorExpression(_) => Ok(()),
        TemplateElement::DecoratorBlock(_) => Ok(()),
        TemplateElement::PartialExpression(_) => Ok(()),
        TemplateElement::PartialBlock(_) => Ok(()),
        TemplateElement::Comment(_) => Ok(()),
    }
}

#[cycle(args)]
fn add_inner_call<'t>(
    call: &'t HelperTemplate,
    frames: &[Frame<'t>],
    location: Location,
    names: &mut Vec<HiddenName<'t>>,
) -> Result<(), AllocError>
    ensures { OnOk result (AddsNames names.old.items names.new.items
        (hidden.hidden_in_inner_call (map frame_of frames.now) (location_of location) (call_view call.now))) }
{
    add_call_name(&call.name, frames, location, names)?;
    add_params(&call.params, frames, location, names)?;
    add_hash(&call.hash, frames, location, names)
}

// A name that calls: only a call in parentheses has parameters.
#[cycle(args)]
fn add_call_name<'t>(
    name: &'t Parameter,
    frames: &[Frame<'t>],
    location: Location,
    names: &mut Vec<HiddenName<'t>>,
) -> Result<(), AllocError>
    ensures { OnOk result (AddsNames names.old.items names.new.items
        (hidden.hidden_in_name (map frame_of frames.now) (location_of location) (param_view name.now))) }
{
    match name {
        Parameter::Name(_) => Ok(()),
        Parameter::Path(_) => Ok(()),
        Parameter::Literal(_) => Ok(()),
        Parameter::Subexpression(inner) => add_inner(&inner.element, frames, location, names),
    }
}

#[cycle(args)]
fn add_params<'t>(
    params: &'t Vec<Parameter>,
    frames: &[Frame<'t>],
    location: Location,
    names: &mut Vec<HiddenName<'t>>,
) -> Result<(), AllocError>
    ensures { OnOk result (AddsNames names.old.items names.new.items
        (hidden.hidden_in_params (map frame_of frames.now) (location_of location) (params_view params.now.items))) }
{
    'params: for param in params {
        add_param(param, frames, location, names)?;
    }
    Ok(())
}

#[cycle(args)]
fn add_hash<'t>(
    hash: &'t BTreeMap<String, Parameter>,
    frames: &[Frame<'t>],
    location: Location,
    names: &mut Vec<HiddenName<'t>>,
) -> Result<(), AllocError>
    ensures { OnOk result (AddsNames names.old.items names.new.items
        (hidden.hidden_in_hash (map frame_of frames.now) (location_of location) (hash_view hash.now.entries))) }
{
    'hash: for (_key, param) in hash.iter() {
        add_param(param, frames, location, names)?;
    }
    Ok(())
}

fn add_args<'t>(
    params: &'t Vec<Parameter>,
    hash: &'t BTreeMap<String, Parameter>,
    frames: &[Frame<'t>],
    location: Location,
    names: &mut Vec<HiddenName<'t>>,
) -> Result<(), AllocError>
    ensures { OnOk result (AddsNames names.old.items names.new.items
        (hidden.hidden_in_args (map frame_of frames.now) (location_of location)
        (args (params_view params.now.items) (hash_view hash.now.entries)))) }
{
    add_params(params, frames, location, names)?;
    add_hash(hash, frames, location, names)
}

// ---- tags

// A name that is read.
fn add_value<'t>(
    name: &'t Parameter,
    frames: &[Frame<'t>],
    location: Location,
    names: &mut Vec<HiddenName<'t>>,
) -> Result<(), AllocError>
    ensures { OnOk result (AddsNames names.old.items names.new.items
        (hidden.hidden_in_value (map frame_of frames.now) (location_of location) (param_view name.now))) }
{
    match name {
        Parameter::Name(name) => if name.as_str() == "this" {
            Ok(())
        } else {
            add_name(name.as_str(), 0, frames, location, names)
        },
        Parameter::Path(path) => add_path(path, frames, location, names),
        Parameter::Literal(_) => Ok(()),
        Parameter::Subexpression(inner) => add_inner(&inner.element, frames, location, names),
    }
}

fn add_tag<'t>(
    call: &'t HelperTemplate,
    frames: &[Frame<'t>],
    location: Location,
    names: &mut Vec<HiddenName<'t>>,
) -> Result<(), AllocError>
    ensures { OnOk result (AddsNames names.old.items names.new.items
        (hidden.hidden_in_tag (map frame_of frames.now) (location_of location) (call_view call.now))) }
{
    if call.is_value() && !is_helper(call) {
        add_value(&call.name, frames, location, names)?;
    } else {
        add_call_name(&call.name, frames, location, names)?;
    }
    add_args(&call.params, &call.hash, frames, location, names)
}

// ---- trees

#[cycle(tree)]
fn add_tree<'t>(
    template: &'t Template,
    index: usize,
    frames: &[Frame<'t>],
    alloc: Global,
    names: &mut Vec<HiddenName<'t>>,
) -> Result<(), AllocError>
    ensures { OnOk result (AddsNames names.old.items names.new.items
        (hidden.hidden_in_tree index (map frame_of frames.now) (tree_view template.now))) }
{
    'elements: for (place, element) in template.elements.iter().enumerate() {
        let location = Location {
            template: index,
            position: template.mapping.get(place).copied(),
        };
        add_element(element, location, frames, alloc, names)?;
    }
    Ok(())
}

#[cycle(tree)]
fn add_element<'t>(
    element: &'t TemplateElement,
    location: Location,
    frames: &[Frame<'t>],
    alloc: Global,
    names: &mut Vec<HiddenName<'t>>,
) -> Result<(), AllocError>
    ensures { OnOk result (AddsNames names.old.items names.new.items
        (hidden.hidden_in_element location.template (map frame_of frames.now) (position_in location.position)
        (element_view element.now))) }
{
    match element {
        TemplateElement::RawString(_) => Ok(()),
        TemplateElement::HtmlExpression(call) => add_call(call, location, frames, alloc, names),
        TemplateElement::Expression(call) => add_call(call, location, frames, alloc, names),
        TemplateElement::HelperBlock(call) => add_call(call, location, frames, alloc, names),
        TemplateElement::DecoratorExpression(tag) => {
            add_decorator(tag, location, frames, alloc, names)
        }
        TemplateElement::DecoratorBlock(tag) => add_decorator(tag, location, frames, alloc, names),
        TemplateElement::PartialExpression(tag) => {
            add_inclusion(tag, location, frames, alloc, names)
        }
        TemplateElement::PartialBlock(tag) => add_inclusion(tag, location, frames, alloc, names),
        TemplateElement::Comment(_) => Ok(()),
    }
}

#[cycle(tree)]
fn add_call<'t>(
    call: &'t HelperTemplate,
    location: Location,
    frames: &[Frame<'t>],
    alloc: Global,
    names: &mut Vec<HiddenName<'t>>,
) -> Result<(), AllocError>
    ensures { OnOk result (AddsNames names.old.items names.new.items
        (hidden.hidden_in_call location.template (map frame_of frames.now) (position_in location.position)
        (call_view call.now))) }
{
    add_tag(call, frames, location, names)?;
    add_call_body(call, location.template, frames, alloc, names)?;
    add_body(&call.inverse, location.template, frames, alloc, names)
}

#[cycle(tree)]
fn add_call_body<'t>(
    call: &'t HelperTemplate,
    index: usize,
    frames: &[Frame<'t>],
    alloc: Global,
    names: &mut Vec<HiddenName<'t>>,
) -> Result<(), AllocError>
    ensures { OnOk result (AddsNames names.old.items names.new.items
        (hidden.hidden_in_body index (hidden.body_frames (call_view call.now) (map frame_of frames.now)) (call_body (call_view call.now)))) }
{
    if stays(call) {
        return add_body(&call.template, index, frames, alloc, names);
    }
    let inner = within(alloc, Frame::Block(&call.block_param), frames)?;
    add_body(&call.template, index, &inner, alloc, names)
}

#[cycle(tree)]
fn add_decorator<'t>(
    tag: &'t DecoratorTemplate,
    location: Location,
    frames: &[Frame<'t>],
    alloc: Global,
    names: &mut Vec<HiddenName<'t>>,
) -> Result<(), AllocError>
    ensures { OnOk result (AddsNames names.old.items names.new.items
        (hidden.hidden_in_decorator location.template (map frame_of frames.now) (position_in location.position)
        (decorator_view tag.now))) }
{
    add_args(&tag.params, &tag.hash, frames, location, names)?;
    let inner = within(alloc, Frame::Inline, frames)?;
    add_body(&tag.template, location.template, &inner, alloc, names)
}

fn call_frame<'t>(tag: &'t DecoratorTemplate, position: Option<TemplateMapping>) -> Frame<'t>
    ensures { frame_of result ≡ hidden.call_frame (position_in position) (decorator_view tag.now) }
{
    Frame::Call(has_params(&tag.params), &tag.hash, position)
}

#[cycle(tree)]
fn add_inclusion<'t>(
    tag: &'t DecoratorTemplate,
    location: Location,
    frames: &[Frame<'t>],
    alloc: Global,
    names: &mut Vec<HiddenName<'t>>,
) -> Result<(), AllocError>
    ensures { OnOk result (AddsNames names.old.items names.new.items
        (hidden.hidden_in_inclusion location.template (map frame_of frames.now) (position_in location.position)
        (decorator_view tag.now))) }
{
    add_call_name(&tag.name, frames, location, names)?;
    add_args(&tag.params, &tag.hash, frames, location, names)?;
    add_block(tag, location, frames, alloc, names)
}

#[cycle(tree)]
fn add_block<'t>(
    tag: &'t DecoratorTemplate,
    location: Location,
    frames: &[Frame<'t>],
    alloc: Global,
    names: &mut Vec<HiddenName<'t>>,
) -> Result<(), AllocError>
    ensures { OnOk result (AddsNames names.old.items names.new.items
        (hidden.hidden_in_body location.template
        (hidden.block_frames (position_in location.position) (decorator_view tag.now) (map frame_of frames.now))
        (decorator_body (decorator_view tag.now)))) }
{
    if is_partial_block(tag.name.as_name()) {
        return add_body(&tag.template, location.template, frames, alloc, names);
    }
    let inner = within(alloc, call_frame(tag, location.position), frames)?;
    add_body(&tag.template, location.template, &inner, alloc, names)
}

#[cycle(tree)]
fn add_body<'t>(
    body: &'t Option<Template>,
    index: usize,
    frames: &[Frame<'t>],
    alloc: Global,
    names: &mut Vec<HiddenName<'t>>,
) -> Result<(), AllocError>
    ensures { OnOk result (AddsNames names.old.items names.new.items
        (hidden.hidden_in_body index (map frame_of frames.now) (body_view body.now))) }
{
    match body {
        Some(template) => add_tree(template, index, frames, alloc, names),
        None => Ok(()),
    }
}
