//! The source that includes each page.

ghost use Rattle.std.specs.Prelude.{◌≡◌, ℕ, ◌++◌, [], List, None, IfOk, OnOk, false, map, string_bytes};
ghost use Rattle.handlebars_includes.specs.Graph.{ArePages};
ghost use Rattle.handlebars_includes.specs.View.{graph_view, name_of};
ghost use Rattle.handlebars_template.specs.Tree.{args, decorator, elements_of, name, no_hash, no_params, tree};
ghost use Rattle.handlebars_template.specs.TreeView.{body_view, decorator_view, element_view, tree_view};
ghost use Rattle.hb_check.specs.Page.{block_tag_of, including, including_all, name_at, names_at, tag_of};

use handlebars_includes::{Includes, NamedTemplate};
use handlebars_template::template::{DecoratorTemplate, Parameter, Template, TemplateElement};
use std::alloc::{AllocError, Global};
use std::collections::BTreeMap;

/// Returns the template that includes each of these by a tag: what is checked where these are rendered as pages.
///
/// # Errors
///
/// Fails if memory runs out.
pub fn including(alloc: Global, names: &[&str]) -> Result<Template, AllocError>
    ensures { IfOk result (λ t. tree_view t ≡ including (map (λ n. n.now) names.now)) }
{
    let mut elements = Vec::new(alloc);
    add_tags(alloc, names, &mut elements)?;
    Ok(with_elements(alloc, elements))
}

fn with_elements(alloc: Global, elements: Vec<TemplateElement>) -> Template
    ensures { tree_view result ≡ tree None (elements_of (map element_view elements.items)) [] }
{
    let mut template = Template::new(alloc);
    template.elements = elements;
    template
}

/// Returns the template that includes each of these by a tag, and the templates by which all others are reached by a tag with an
/// empty block, since these may be layouts.
///
/// # Errors
///
/// Fails if memory runs out.
pub fn including_all(
    alloc: Global,
    names: &[&str],
    templates: &[NamedTemplate<'_>],
    includes: &Includes,
) -> Result<Template, AllocError>
    ensures { IfOk result (λ t. (is : List ℕ) × ArePages (graph_view includes.now) is
        × (tree_view t ≡ including_all (map (λ n. n.now) names.now) (names_at (map name_of templates.now) is))) }
{
    let pages = includes.pages(alloc)?;
    let mut elements = Vec::new(alloc);
    add_tags(alloc, names, &mut elements)?;
    add_tags_at(alloc, &pages, templates, &mut elements)?;
    Ok(with_elements(alloc, elements))
}

fn add_tags(
    alloc: Global,
    names: &[&str],
    elements: &mut Vec<TemplateElement>,
) -> Result<(), AllocError>
    ensures { OnOk result (map element_view elements.new.items
        ≡ map element_view elements.old.items ++ map tag_of (map (λ n. n.now) names.now)) }
{
    'names: for name in names {
        elements.push(tag_of(alloc, name)?)?;
    }
    Ok(())
}

fn add_tags_at(
    alloc: Global,
    indices: &[usize],
    templates: &[NamedTemplate<'_>],
    elements: &mut Vec<TemplateElement>,
) -> Result<(), AllocError>
    ensures { OnOk result (map element_view elements.new.items
        ≡ map element_view elements.old.items ++ map block_tag_of (names_at (map name_of templates.now) indices.now)) }
{
    'indices: for index in indices {
        elements.push(block_tag_of(alloc, name_at(templates, *index))?)?;
    }
    Ok(())
}

// The name of this index, or an empty one.
fn name_at<'t>(templates: &[NamedTemplate<'t>], index: usize) -> &'t str
    ensures { result.now ≡ name_at (map name_of templates.now) index }
{
    match templates.get(index) {
        Some(named) => named.name,
        None => "",
    }
}

fn tag_of(alloc: Global, name: &str) -> Result<TemplateElement, AllocError>
    ensures { IfOk result (λ e. element_view e ≡ tag_of name.now) }
{
    let name = String::from_str(alloc, name)?;
    let tag = included(alloc, name, None);
    Ok(TemplateElement::PartialExpression(Box::new(alloc, tag)?))
}

fn block_tag_of(alloc: Global, name: &str) -> Result<TemplateElement, AllocError>
    ensures { IfOk result (λ e. element_view e ≡ block_tag_of name.now) }
{
    let name = String::from_str(alloc, name)?;
    let tag = included(alloc, name, Some(Template::new(alloc)));
    Ok(TemplateElement::PartialBlock(Box::new(alloc, tag)?))
}

fn included(alloc: Global, partial: String, template: Option<Template>) -> DecoratorTemplate
    ensures { decorator_view result ≡ decorator (name (string_bytes partial)) (args no_params no_hash) (body_view template)
        (record { indent = None; indent_before_write = false }) }
{
    DecoratorTemplate {
        name: Parameter::Name(partial),
        params: Vec::new(alloc),
        hash: BTreeMap::new(alloc),
        template,
        indent: None,
        indent_before_write: false,
    }
}
