//! The output of a run.

use crate::failure::Failure;
use handlebars::{Context, DirectorySourceOptions, JsonValue, NoFiles, Registry, TemplateReader};
use log::sink::Discard;
use std::alloc::Global;
use std::io;
use std::io::{BufWriter, Write};

/// What is asked for: the paths of a template, of data and perhaps of a folder, and whether the mode is strict.
#[derive(Drop)]
pub struct Request<'a> {
    pub strict: bool,
    pub template: &'a str,
    pub data: &'a str,
    pub folder: Option<&'a str>,
}

/// Prints a template, rendered over data. The template is read first, then the data, then the folder. Output written before an
/// error is not taken back.
pub fn print_text<'a, R: TemplateReader, O: Write>(
    alloc: Global,
    task: &Request<'a>,
    files: &mut R,
    out: &mut O,
) -> Result<(), Failure<'a>> {
    let source = read(task.template, files)?;
    let value = read_json(alloc, task.data, files)?;
    print_over(alloc, task, source.as_str(), value, files, out)
}

fn print_over<'a, R: TemplateReader, O: Write>(
    alloc: Global,
    task: &Request<'a>,
    source: &str,
    value: JsonValue,
    files: &mut R,
    out: &mut O,
) -> Result<(), Failure<'a>> {
    let context = Context::try_from(value)?;
    let mut registry = Registry::new(alloc)?;
    registry.set_strict_mode(task.strict);
    print_with(alloc, task, &mut registry, source, &context, files, out)
}

// Registers the templates of the folder, and renders.
fn print_with<'a, R: TemplateReader, O: Write>(
    alloc: Global,
    task: &Request<'a>,
    registry: &mut Registry,
    source: &str,
    context: &Context,
    files: &mut R,
    out: &mut O,
) -> Result<(), Failure<'a>> {
    if let Some(folder) = task.folder {
        registry.register_templates_directory(folder, DirectorySourceOptions::default(), files)?;
    }
    write_text(alloc, registry, source, context, out)
}

// Writes through a buffer, which is also flushed after an error.
fn write_text<'a, O: Write>(
    alloc: Global,
    registry: &Registry,
    source: &str,
    context: &Context,
    out: &mut O,
) -> Result<(), Failure<'a>> {
    let mut buffer = match BufWriter::new(alloc, out) {
        Ok(buffer) => buffer,
        Err(_) => return Err(Failure::OutOfMemory),
    };
    let answer = registry.render_template_with_context_to_write(
        source,
        context,
        &mut buffer,
        &Discard,
        &mut NoFiles,
    );
    let flushed = buffer.flush();
    match answer {
        Ok(()) => written(flushed),
        Err(cause) => Err(cause.into()),
    }
}

fn written<'a>(answer: io::Result<()>) -> Result<(), Failure<'a>> {
    match answer {
        Ok(()) => Ok(()),
        Err(cause) => Err(Failure::of_output(cause)),
    }
}

fn read<'a, R: TemplateReader>(path: &'a str, files: &mut R) -> Result<String, Failure<'a>> {
    match files.read(path) {
        Ok(text) => Ok(text),
        Err(cause) => Err(Failure::of_reader(path, cause)),
    }
}

// Reads a file that holds a JSON value.
fn read_json<'a, R: TemplateReader>(
    alloc: Global,
    path: &'a str,
    files: &mut R,
) -> Result<JsonValue, Failure<'a>> {
    json(alloc, path, read(path, files)?.as_str())
}

fn json<'a>(alloc: Global, path: &'a str, text: &str) -> Result<JsonValue, Failure<'a>> {
    match JsonValue::from_str(alloc, text) {
        Ok(value) => Ok(value),
        Err(cause) => Err(if cause.is_memory() {
            Failure::OutOfMemory
        } else {
            Failure::NotJson(path)
        }),
    }
}
