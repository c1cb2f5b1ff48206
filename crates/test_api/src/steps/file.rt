//! The proved callers that write to a file, and that render templates of files.

use crate::memory::Texts;
use crate::pages::{rendered_anew, rendered_as_registered, write_page};
use handlebars::{Context, FileReader, JsonValue, Registry, TemplateReader};
use log::sink::Discard;
use std::alloc::AllocError;
use std::collections::BTreeMap;
use std::rt::Files;
use test_steps::answer::{Answer, Stop, shown, shown_if};
use test_steps::fields::{owned, text};
use test_steps::held::{had, let_go};

/// Returns what a call answers.
pub fn answer<R: Files + AllocGlobal + Clone + Drop>(
    rt: &R,
    registry: &mut Registry,
    data: &Context,
    files: &mut Texts,
    call: &str,
    step: &JsonValue,
) -> Answer {
    let (alloc, name, path) = (rt.alloc(), text(step, "name"), text(step, "path"));
    match call {
        "write_page" => shown(alloc, write_page(rt, path, registry, name, data, &Discard)),
        "read" => shown(alloc, FileReader::new(rt, alloc).read(path)),
        "put" => {
            let (path, text) = (owned(alloc, step, "path"), owned(alloc, step, "text"));
            shown_if(alloc, put(&mut files.texts, path, text))
        }
        "anew" => shown(
            alloc,
            rendered_anew(registry, name, path, data, &Discard, files),
        ),
        "as_registered" => shown(
            alloc,
            rendered_as_registered(registry, name, data, &Discard, files),
        ),
        _ => Err(Stop::Call),
    }
}

// Stores a text under a path in memory.
fn put(
    texts: &mut BTreeMap<String, String>,
    path: Result<String, AllocError>,
    text: Result<String, AllocError>,
) -> Result<(), Stop> {
    match (path, text) {
        (Ok(path), Ok(text)) => had(texts.insert(path, text)).map(let_go),
        _ => Err(Stop::OutOfMemory),
    }
}
