//! A template that is rendered directly to an output.

use crate::calls::context;
use crate::registered::registry_of;
use crate::shelf::Shelf;
use handlebars::{
    Context, JsonValue, Registry, RenderContext, RenderError, RenderErrorReason, Renderable,
    Template, TemplateOptions,
};
use log::Log;
use log::sink::{Discard, Memory};
use std::alloc::Global;
use test_cases::bounded::Bounded;
use test_cases::rendering::{Rendered, Rendering};

/// Renders the template of a test case over data to an output, and once more to another one.
pub fn write_template(
    alloc: Global,
    test_case: &Rendering<'_>,
    data: &JsonValue,
    out: &mut Bounded,
    again: &mut Bounded,
    log: &Memory,
) -> Result<(), RenderError> {
    let mut files = Shelf::new(alloc);
    let held = registry_of(alloc, test_case, &mut files)?;
    write_over_context(alloc, &held.registry, test_case, data, out, again, log)
}

fn write_over_context(
    alloc: Global,
    registry: &Registry,
    test_case: &Rendering<'_>,
    data: &JsonValue,
    out: &mut Bounded,
    again: &mut Bounded,
    log: &Memory,
) -> Result<(), RenderError> {
    let data = context(data)?;
    match test_case.rendered {
        Rendered::Source(source) => write_source(alloc, registry, source, &data, out, again, log),
        Rendered::Name(name) => write_named(alloc, registry, name, &data, out, again, log),
    }
}

fn write_source(
    alloc: Global,
    registry: &Registry,
    source: &str,
    data: &Context,
    out: &mut Bounded,
    again: &mut Bounded,
    log: &Memory,
) -> Result<(), RenderError> {
    let options = TemplateOptions {
        name: None,
        prevent_indent: registry.prevent_indent(),
    };
    let template = Template::compile2(alloc, source, options)?;
    write_tree(alloc, registry, &template, data, out, again, log)
}

fn write_named(
    alloc: Global,
    registry: &Registry,
    name: &str,
    data: &Context,
    out: &mut Bounded,
    again: &mut Bounded,
    log: &Memory,
) -> Result<(), RenderError> {
    match registry.get_template(name) {
        Some(template) => write_tree(alloc, registry, template, data, out, again, log),
        None => Err(RenderErrorReason::TemplateNotFound(String::from_str(alloc, name)?).into()),
    }
}

// The call fails with another error, which no test case expects, if the context doesn't record an error, if an output is called
// again after a write of a segment failed, or if the second rendering of the tree ends otherwise.
fn write_tree(
    alloc: Global,
    registry: &Registry,
    template: &Template,
    data: &Context,
    out: &mut Bounded,
    again: &mut Bounded,
    log: &Memory,
) -> Result<(), RenderError> {
    let answer = write_once(alloc, registry, template, data, out, log);
    let second = write_once(alloc, registry, template, data, again, &Discard);
    if second.is_err() == answer.is_err() {
        answer
    } else {
        Err(RenderError::new(alloc, "ends otherwise when it is rendered again"))
    }
}

fn write_once<L: Log>(
    alloc: Global,
    registry: &Registry,
    template: &Template,
    data: &Context,
    out: &mut Bounded,
    log: &L,
) -> Result<(), RenderError> {
    let mut rc = RenderContext::new(alloc, template.name.as_ref())?;
    rc.set_recursive_lookup(registry.recursive_lookup());
    let answer = template.render(alloc, registry, data, &mut rc, out, log);
    let failed = answer.is_err();
    if rc.has_failed() == failed && out.failed() <= u64::from(failed) {
        answer
    } else {
        Err(RenderError::new(alloc, "not told, or asked again"))
    }
}
