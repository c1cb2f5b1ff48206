//! Measuring a work.

use crate::clock::{elapsed, lesser, now};
use crate::counter::Counter;
use crate::failure::Failure;
use crate::pieces::Texts;
use crate::work::Work;
use handlebars::{Context, JsonValue, NoFiles, Registry, Template, TemplateError};
use log::sink::Discard;
use std::alloc::{AllocError, Global};
use std::io::{BufWriter, Write};
use std::rt::Clock;
use std::time::{Duration, Instant};

/// Where a work is rendered to.
#[derive(Clone, Copy)]
pub enum Target {
    Text,
    /// A buffered writer that counts the bytes.
    Writer,
    /// An output that is given each piece.
    Pieces,
}

// The name that a work's template is registered under.
const NAME: &str = "work";

/// A work in a size, how often it is done, and where it is rendered to.
#[derive(Clone, Copy)]
pub struct Task {
    pub work: Work,
    pub size: u32,
    pub times: u32,
    pub target: Target,
}

/// The bytes of a work, and the shortest times that it took.
#[derive(Clone, Copy)]
pub struct Measure {
    pub source: usize,
    pub data: usize,
    pub answer: usize,
    pub compiling: Duration,
    pub rendering: Duration,
}

// The bytes of the output, and the shortest time that it took.
#[derive(Clone, Copy)]
struct Rendering {
    bytes: usize,
    least: Duration,
}

/// Compiles and renders a work, as often as the task says.
pub fn measure_work<C: Clock>(alloc: Global, clock: &C, task: Task) -> Result<Measure, Failure> {
    let data = task.work.data(alloc, task.size)?;
    let context = context(alloc, data.as_str())?;
    measure_over(alloc, clock, task, &context, data.len())
}

// Measures over a context, which is made from data of this many bytes.
fn measure_over<C: Clock>(
    alloc: Global,
    clock: &C,
    task: Task,
    context: &Context,
    data: usize,
) -> Result<Measure, Failure> {
    let source = task.work.source(alloc, task.size)?;
    measure_source(alloc, clock, source.as_str(), task, context, data)
}

fn measure_source<C: Clock>(
    alloc: Global,
    clock: &C,
    source: &str,
    task: Task,
    context: &Context,
    data: usize,
) -> Result<Measure, Failure> {
    let compiling = best_compiling(alloc, clock, source, task.times)?;
    let rendering = best_rendering(alloc, clock, source, context, task)?;
    Ok(Measure {
        source: source.len(),
        data,
        answer: rendering.bytes,
        compiling,
        rendering: rendering.least,
    })
}

fn context(alloc: Global, data: &str) -> Result<Context, Failure> {
    match JsonValue::from_str(alloc, data) {
        Ok(value) => made(Context::try_from(value)),
        Err(cause) => Err(if cause.is_memory() {
            Failure::OutOfMemory
        } else {
            Failure::NotJson
        }),
    }
}

// The shortest time of this many compilations. Dropping the tree doesn't count.
fn best_compiling<C: Clock>(
    alloc: Global,
    clock: &C,
    source: &str,
    times: u32,
) -> Result<Duration, Failure> {
    let mut least = Duration::MAX;
    for _ in 0..times {
        least = lesser(least, one_compiling(alloc, clock, source)?);
    }
    Ok(least)
}

fn one_compiling<C: Clock>(alloc: Global, clock: &C, source: &str) -> Result<Duration, Failure> {
    let start = now(clock)?;
    time_of_tree(clock, start, Template::compile(alloc, source))
}

fn time_of_tree<C: Clock>(
    clock: &C,
    start: Instant,
    tree: Result<Template, TemplateError>,
) -> Result<Duration, Failure> {
    match tree {
        Ok(_tree) => elapsed(clock, start),
        Err(error) => Err(error.into()),
    }
}

// The bytes of the output of a source, and the shortest time.
fn best_rendering<C: Clock>(
    alloc: Global,
    clock: &C,
    source: &str,
    data: &Context,
    task: Task,
) -> Result<Rendering, Failure> {
    match Registry::new(alloc) {
        Ok(mut registry) => best_with(alloc, clock, &mut registry, source, data, task),
        Err(AllocError) => Err(Failure::OutOfMemory),
    }
}

fn best_with<C: Clock>(
    alloc: Global,
    clock: &C,
    registry: &mut Registry,
    source: &str,
    data: &Context,
    task: Task,
) -> Result<Rendering, Failure> {
    match register(registry, made(Template::compile(alloc, source))) {
        Ok(()) => best_of(alloc, clock, registry, data, task),
        Err(failure) => Err(failure),
    }
}

fn register(registry: &mut Registry, tree: Result<Template, Failure>) -> Result<(), Failure> {
    match tree {
        Ok(tree) => made(registry.register_template(NAME, tree)),
        Err(failure) => Err(failure),
    }
}

// The value that was made, or why it wasn't.
fn made<T, E>(answer: Result<T, E>) -> Result<T, Failure>
where
    Failure: From<E>,
{
    match answer {
        Ok(value) => Ok(value),
        Err(cause) => Err(Failure::from(cause)),
    }
}

fn best_of<C: Clock>(
    alloc: Global,
    clock: &C,
    registry: &Registry,
    data: &Context,
    task: Task,
) -> Result<Rendering, Failure> {
    let mut answer = Rendering {
        bytes: 0,
        least: Duration::MAX,
    };
    for _ in 0..task.times {
        let next = one_rendering(alloc, clock, registry, data, task.target)?;
        answer = Rendering {
            bytes: next.bytes,
            least: lesser(answer.least, next.least),
        };
    }
    Ok(answer)
}

fn one_rendering<C: Clock>(
    alloc: Global,
    clock: &C,
    registry: &Registry,
    data: &Context,
    target: Target,
) -> Result<Rendering, Failure> {
    let start = now(clock)?;
    let bytes = match target {
        Target::Text => render_text(registry, data)?,
        Target::Writer => render_to_writer(alloc, registry, data)?,
        Target::Pieces => render_pieces(alloc, registry, data)?,
    };
    let least = elapsed(clock, start)?;
    Ok(Rendering { bytes, least })
}

fn render_text(registry: &Registry, data: &Context) -> Result<usize, Failure> {
    made(registry.render_with_context(NAME, data, &Discard, &mut NoFiles)).map(len)
}

fn len(text: String) -> usize {
    text.len()
}

fn render_to_writer(alloc: Global, registry: &Registry, data: &Context) -> Result<usize, Failure> {
    match BufWriter::new(alloc, Counter::new()) {
        Ok(mut buffer) => {
            write_to(&mut buffer, registry, data)?;
            Ok(buffer.get_ref().bytes())
        }
        Err(_) => Err(Failure::OutOfMemory),
    }
}

fn write_to(
    buffer: &mut BufWriter<Counter>,
    registry: &Registry,
    data: &Context,
) -> Result<(), Failure> {
    made(registry.render_with_context_to_write(NAME, data, buffer, &Discard, &mut NoFiles))?;
    match buffer.flush() {
        Ok(()) => Ok(()),
        Err(_) => Err(Failure::CannotWrite),
    }
}

fn render_pieces(alloc: Global, registry: &Registry, data: &Context) -> Result<usize, Failure> {
    let mut texts = Texts::new(alloc);
    made(registry.render_pieces(NAME, data, &mut texts, &Discard, &mut NoFiles))?;
    Ok(texts.bytes())
}
