//! The ten calls that render.

use crate::collector::Collector;
use crate::registered::registry_of;
use crate::shelf::Shelf;
use handlebars::{Context, JsonValue, Registry, RenderError};
use log::sink::Memory;
use std::alloc::Global;
use test_cases::pen::Pen;
use test_cases::rendering::{Over, Rendered, Rendering};

/// Calls the registry for a text over data. The text is put into `out`.
pub fn text(
    alloc: Global,
    test_case: &Rendering<'_>,
    data: &JsonValue,
    over: Over,
    out: &mut String,
    log: &Memory,
    files: &mut Shelf,
) -> Result<(), RenderError> {
    let held = registry_of(alloc, test_case, files)?;
    *out = match over {
        Over::Context => text_over_context(&held.registry, test_case, data, log, files)?,
        Over::Value => text_over_value(&held.registry, test_case, data, log, files)?,
    };
    Ok(())
}

fn text_over_context(
    registry: &Registry,
    test_case: &Rendering<'_>,
    data: &JsonValue,
    log: &Memory,
    files: &mut Shelf,
) -> Result<String, RenderError> {
    let data = context(data)?;
    match test_case.rendered {
        Rendered::Source(source) => {
            registry.render_template_with_context(source, &data, log, files)
        }
        Rendered::Name(name) => registry.render_with_context(name, &data, log, files),
    }
}

fn text_over_value(
    registry: &Registry,
    test_case: &Rendering<'_>,
    data: &JsonValue,
    log: &Memory,
    files: &mut Shelf,
) -> Result<String, RenderError> {
    match test_case.rendered {
        Rendered::Source(source) => registry.render_template(source, data, log, files),
        Rendered::Name(name) => registry.render(name, data, log, files),
    }
}

/// Calls the registry to write over data.
pub fn write(
    alloc: Global,
    test_case: &Rendering<'_>,
    data: &JsonValue,
    over: Over,
    pen: &mut Pen,
    log: &Memory,
    files: &mut Shelf,
) -> Result<(), RenderError> {
    let held = registry_of(alloc, test_case, files)?;
    match over {
        Over::Context => write_over_context(&held.registry, test_case, data, pen, log, files),
        Over::Value => write_over_value(&held.registry, test_case, data, pen, log, files),
    }
}

fn write_over_context(
    registry: &Registry,
    test_case: &Rendering<'_>,
    data: &JsonValue,
    pen: &mut Pen,
    log: &Memory,
    files: &mut Shelf,
) -> Result<(), RenderError> {
    let data = context(data)?;
    match test_case.rendered {
        Rendered::Source(source) => {
            registry.render_template_with_context_to_write(source, &data, pen, log, files)
        }
        Rendered::Name(name) => registry.render_with_context_to_write(name, &data, pen, log, files),
    }
}

fn write_over_value(
    registry: &Registry,
    test_case: &Rendering<'_>,
    data: &JsonValue,
    pen: &mut Pen,
    log: &Memory,
    files: &mut Shelf,
) -> Result<(), RenderError> {
    match test_case.rendered {
        Rendered::Source(source) => {
            registry.render_template_to_write(source, data, pen, log, files)
        }
        Rendered::Name(name) => registry.render_to_write(name, data, pen, log, files),
    }
}

/// Calls the registry to emit pieces over data.
pub fn emit(
    alloc: Global,
    test_case: &Rendering<'_>,
    data: &JsonValue,
    out: &mut Collector,
    log: &Memory,
    files: &mut Shelf,
) -> Result<(), RenderError> {
    let held = registry_of(alloc, test_case, files)?;
    emit_over_context(&held.registry, test_case, data, out, log, files)
}

fn emit_over_context(
    registry: &Registry,
    test_case: &Rendering<'_>,
    data: &JsonValue,
    out: &mut Collector,
    log: &Memory,
    files: &mut Shelf,
) -> Result<(), RenderError> {
    let data = context(data)?;
    match test_case.rendered {
        Rendered::Source(source) => {
            registry.render_template_pieces(source, &data, out, log, files)
        }
        Rendered::Name(name) => registry.render_pieces(name, &data, out, log, files),
    }
}

/// Returns the context of data.
pub fn context(data: &JsonValue) -> Result<Context, RenderError> {
    Context::try_from(data.clone()?)
}
