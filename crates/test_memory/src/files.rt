//! Files and folders: if a folder fails, the files before the error stay registered; dev mode reads files again.

use crate::outcome::{Outcome, Stop, of_error, of_stored, of_template_error};
use crate::pair::Pair;
use handlebars::{
    DirectorySourceOptions, EntryKind, RenderError, TemplateError, TemplateErrorReason,
    TemplateReader,
};
use log::sink::Discard;
use std::alloc::Global;
use std::io;
use std::io::ErrorKind;

/// A call that reads files.
pub enum Call {
    RegisterFile { dev: bool },
    RegisterFolder { dev: bool },
    RegisterRejectedFolder,
    Render,
}

/// Returns the outcome of a call.
pub fn outcome(alloc: Global, call: &Call) -> Result<Outcome, Stop> {
    match call {
        Call::RegisterFile { dev } => file(alloc, *dev),
        Call::RegisterFolder { dev } => folder(alloc, *dev),
        Call::RegisterRejectedFolder => rejected_folder(alloc),
        Call::Render => read_anew(alloc),
    }
}

// A folder `d` of files and a folder, and a file `t.hbs`. The texts of `t.hbs` and of `d/b.hbs` may change.
#[derive(Drop)]
struct Shelf {
    alloc: Global,
    page: &'static str,
    broken: bool,
}

static ENTRIES: [(&str, EntryKind); 5] = [
    ("b.hbs", EntryKind::File),
    ("a", EntryKind::Folder),
    (".h.hbs", EntryKind::File),
    ("#t.hbs", EntryKind::File),
    ("n.txt", EntryKind::File),
];

static INNER_ENTRIES: [(&str, EntryKind); 1] = [("c.hbs", EntryKind::File)];

// The templates of the folder in the order in which they are registered, by name and source.
static TEMPLATES: [(&str, &str); 2] = [("a/c", "C"), ("b", "{{> a/c}}!")];

impl Shelf {
    fn new(alloc: Global) -> Shelf {
        Shelf {
            alloc,
            page: "A",
            broken: false,
        }
    }

    fn text(&self, path: &str) -> Option<&'static str> {
        match path {
            "t.hbs" => Some(self.page),
            "d/a/c.hbs" => Some("C"),
            "d/b.hbs" => match self.broken {
                true => Some("{{#if"),
                false => Some("{{> a/c}}!"),
            },
            _ => None,
        }
    }
}

impl TemplateReader for Shelf {
    ghost reads = { λ _ _ _ _. Unit {0} };

    ghost lists = { λ _ _ _ _. Unit {0} };

    fn read(&mut self, path: &str) -> Result<String, io::Error> {
        match self.text(path) {
            Some(text) => Ok(String::from_str(self.alloc, text)?),
            None => Err(io::Error::from(ErrorKind::NotFound)),
        }
    }

    fn list(&mut self, folder: &str) -> Result<Vec<(String, EntryKind)>, io::Error> {
        match folder {
            "d" => listed(self.alloc, &ENTRIES),
            "d/a" => listed(self.alloc, &INNER_ENTRIES),
            _ => Err(io::Error::from(ErrorKind::NotFound)),
        }
    }
}

fn listed(
    alloc: Global,
    entries: &[(&str, EntryKind)],
) -> Result<Vec<(String, EntryKind)>, io::Error> {
    let mut listed = Vec::new(alloc);
    for (name, kind) in entries {
        listed.push((String::from_str(alloc, name)?, *kind))?;
    }
    Ok(listed)
}

// ---- a file

fn file(alloc: Global, dev: bool) -> Result<Outcome, Stop> {
    let mut pair = Pair::with(alloc, &[("t", "old")])?;
    pair.registry.set_dev_mode(dev);
    let mut files = Shelf::new(alloc);
    let outcome = registered_file(&mut pair, &mut files);
    // Whether the text was remembered shows once the file has another one.
    files.page = "B";
    let unchanged = has_one(&pair, dev);
    let text = rendered(&pair, "t", &mut files)?;
    Ok(outcome.if_so(unchanged && text.as_str() == page_after(outcome, dev)))
}

fn registered_file(pair: &mut Pair, files: &mut Shelf) -> Outcome {
    of_stored(&pair.registry.register_template_file("t", "t.hbs", files))
}

fn page_after(outcome: Outcome, dev: bool) -> &'static str {
    match (outcome, dev) {
        (Outcome::Answer, true) => "B",
        (Outcome::Answer, false) => "A",
        _ => "old",
    }
}

// Returns whether the registry has one template, and dev mode is as given.
fn has_one(pair: &Pair, dev: bool) -> bool {
    pair.registry.get_templates().len() == 1 && pair.registry.dev_mode() == dev
}

fn rendered(pair: &Pair, name: &str, files: &mut Shelf) -> Result<String, RenderError> {
    let Pair { registry, data } = pair;
    registry.render_with_context(name, data, &Discard, files)
}

// ---- a folder

// Returns a registry before a folder is registered.
fn pair_before(alloc: Global, dev: bool) -> Result<Pair, Stop> {
    let mut pair = Pair::with(alloc, &[("z", "z")])?;
    pair.registry.set_dev_mode(dev);
    Ok(pair)
}

// Returns how many templates of the folder a registry has in addition to what it had before, if those are the first ones.
fn count_of_templates(alloc: Global, pair: &Pair, dev: bool) -> Result<Option<usize>, Stop> {
    let mut expected = pair_before(alloc, dev)?;
    for (count, template) in TEMPLATES.iter().enumerate() {
        if pair.is_like(&expected) {
            return Ok(Some(count));
        }
        expected.put_all(&[*template])?;
    }
    match pair.is_like(&expected) {
        true => Ok(Some(TEMPLATES.len())),
        false => Ok(None),
    }
}

fn registered(pair: &mut Pair, files: &mut Shelf) -> Result<(), TemplateError> {
    let options = DirectorySourceOptions::default();
    pair.registry
        .register_templates_directory("d", options, files)
}

// If memory runs out, the first templates are registered. They may be both, since entries that aren't templates come after
// them.
fn folder(alloc: Global, dev: bool) -> Result<Outcome, Stop> {
    let mut pair = pair_before(alloc, dev)?;
    let mut files = Shelf::new(alloc);
    let outcome = of_stored(&registered(&mut pair, &mut files));
    let count = count_of_templates(alloc, &pair, dev)?;
    match outcome.is_answer() {
        true => of_folder(&pair, &mut files, count),
        false => Ok(outcome.if_so(count.is_some())),
    }
}

fn of_folder(pair: &Pair, files: &mut Shelf, count: Option<usize>) -> Result<Outcome, Stop> {
    let text = rendered(pair, "b", files)?;
    Ok(Outcome::answer_if(count == Some(2) && text.as_str() == "C!"))
}

// The second file, `b`, is rejected at its first tag. If memory runs out, that may be before the first file.
fn rejected_folder(alloc: Global) -> Result<Outcome, Stop> {
    let mut pair = pair_before(alloc, false)?;
    let mut files = Shelf::new(alloc);
    files.broken = true;
    let answer = registered(&mut pair, &mut files);
    let count = count_of_templates(alloc, &pair, false);
    match answer {
        Ok(()) => Ok(Outcome::Other),
        Err(error) => of_broken(&error, count),
    }
}

fn of_broken(error: &TemplateError, count: Result<Option<usize>, Stop>) -> Result<Outcome, Stop> {
    let count = count?;
    match error.reason() {
        TemplateErrorReason::InvalidSyntax(_) => {
            let there = error.pos() == Some((1, 1)) && is_named(error, "b");
            Ok(Outcome::answer_if(there && count == Some(1)))
        }
        _ => Ok(of_template_error(error).if_so(count == Some(0) || count == Some(1))),
    }
}

fn is_named(error: &TemplateError, expected: &str) -> bool {
    match error.name() {
        Some(name) => name.as_str() == expected,
        None => false,
    }
}

// ---- a rendering in dev mode

fn dev_pair(alloc: Global, files: &mut Shelf) -> Result<Pair, Stop> {
    let mut pair = Pair::with(alloc, &[])?;
    pair.registry.set_dev_mode(true);
    pair.registry.register_template_file("t", "t.hbs", files)?;
    registered(&mut pair, files)?;
    Ok(pair)
}

fn read_anew(alloc: Global) -> Result<Outcome, Stop> {
    let mut files = Shelf::new(alloc);
    let mut pair = dev_pair(alloc, &mut files)?;
    files.page = "B{{> b}}";
    let outcome = of_page(&pair, &mut files);
    pair.registry.set_dev_mode(false);
    let before = rendered(&pair, "t", &mut files)?;
    Ok(outcome.if_so(before.as_str() == "A"))
}

fn of_page(pair: &Pair, files: &mut Shelf) -> Outcome {
    match rendered(pair, "t", files) {
        Ok(text) => Outcome::answer_if(text.as_str() == "BC!"),
        Err(error) => of_error(&error),
    }
}
