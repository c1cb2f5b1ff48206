//! `hb build`.

use crate::folders::register_folders;
use crate::items::{Items, ListItems, PathItems, StreamItems};
use crate::message::out_of_range;
use crate::pages::Rendered;
use crate::setup::set_modes;
use crate::text::{Places, compile};
use handlebars::{Context, FileReader, Registry, RenderContext, ScopedJson, Template};
use handlebars_data::Format;
use hb_build::{BuildError, Summary};
use hb_command::counts::Grouped;
use hb_command::failure::{Failure, Kind};
use hb_command::input::{
    format_of, merged_data, read_bytes, read_template, set_all, set_in_item, whole_data,
};
use hb_command::message::{unlisted, unreadable};
use hb_command::order::Order;
use hb_command::report::Reporter;
use hb_command::stops::{item_at, not_built};
use hb_command::store::Folder;
use hb_command::system::System;
use hb_command::task::Task;
use serde_json::{Map, Value};
use std::alloc::Global;
use std::cell::Cell;
use std::fs;
use std::io::{ErrorKind, Write};

/// Builds a file for each item of an order, and returns how many items failed.
pub fn build<R: System, O: Write, E: Write>(
    rt: &R,
    task: &Task<'_, '_>,
    order: &Order<'_>,
    out: &mut O,
    err: &mut E,
) -> Result<u64, Failure> {
    require_folder(rt, order.folder)?;
    require_settings(rt.alloc(), task)?;
    let source = read_template(rt, task.template)?;
    let mut registry = Registry::new(rt.alloc())?;
    set_modes(&mut registry, &task.modes);
    let mut files = FileReader::new(rt, rt.alloc());
    let registered = register_folders(rt.alloc(), &mut registry, task.folders, &mut files)?;
    let places = Places {
        folders: task.folders,
        registered: &registered,
    };
    let to = name_template(rt.alloc(), task, order)?;
    let indent = task.modes.prevent_indent;
    let page = compile(rt.alloc(), task.template, source.as_str(), indent)?;
    let site = Site {
        rt,
        task,
        order,
        registry: &registry,
        page: &page,
        to: &to,
        places,
    };
    build_site(&site, out, err)
}

// What the files are made of.
#[derive(Drop)]
struct Site<'s, R> {
    rt: &'s R,
    task: &'s Task<'s, 's>,
    order: &'s Order<'s>,
    registry: &'s Registry,
    page: &'s Template,
    to: &'s Template,
    places: Places<'s>,
}

// The output folder is a folder, if something is there.
fn require_folder<R: System>(rt: &R, path: &str) -> Result<(), Failure> {
    match fs::metadata(rt, path) {
        Ok(found) if found.is_dir() => Ok(()),
        Ok(_) => Err(not_a_folder(rt.alloc(), path)),
        Err(cause) => match cause.kind() {
            ErrorKind::NotFound => Ok(()),
            ErrorKind::NotADirectory => Err(not_a_folder(rt.alloc(), path)),
            _ => Err(unlisted(rt.alloc(), path, &cause)),
        },
    }
}

fn not_a_folder(alloc: Global, path: &str) -> Failure {
    Failure::new(
        Kind::Arguments,
        format!(in alloc; "-o {path}: not a folder"),
    )
}

// Each word of the settings sets a key, also if there are no items to set it in.
fn require_settings(alloc: Global, task: &Task<'_, '_>) -> Result<(), Failure> {
    set_all(alloc, &mut Value::Object(Map::new(alloc)), task)
}

// The template of the names, which is an argument.
fn name_template(
    alloc: Global,
    task: &Task<'_, '_>,
    order: &Order<'_>,
) -> Result<Template, Failure> {
    match compile(alloc, "--to", order.to, task.modes.prevent_indent) {
        Ok(template) => Ok(template),
        Err(failure) => Err(failure.of_arguments()),
    }
}

fn build_site<R: System, O: Write, E: Write>(
    site: &Site<'_, R>,
    out: &mut O,
    err: &mut E,
) -> Result<u64, Failure> {
    if let Some(path) = site.order.each {
        return build_each(site, path, out, err);
    }
    if let Some((path, format)) = streamed(site)? {
        return build_streamed(site, path, format, out, err);
    }
    build_whole(site, out, err)
}

// The one source that is read item by item, if the items are its lines or rows.
fn streamed<'s, R: System>(site: &Site<'s, R>) -> Result<Option<(&'s str, Format)>, Failure> {
    let [path] = site.task.sources else {
        return Ok(None);
    };
    Ok(match format_of(site.rt.alloc(), site.task, path)? {
        Format::Json => None,
        Format::Toml => None,
        format => Some((*path, format)),
    })
}

fn build_streamed<'s, R: System, O: Write, E: Write>(
    site: &Site<'s, R>,
    path: &'s str,
    format: Format,
    out: &mut O,
    err: &mut E,
) -> Result<u64, Failure> {
    let line = Cell::new(0);
    if is_file(site.rt, path) {
        let items = StreamItems::new(site.rt, site.task, path, format, None, &line);
        return build_items(site, items, Some(path), &line, out, err);
    }
    let bytes = match read_bytes(site.rt, path) {
        Ok(bytes) => bytes,
        Err(cause) => return Err(unreadable(site.rt.alloc(), path, &cause)),
    };
    let held = Some(bytes.as_slice());
    let items = StreamItems::new(site.rt, site.task, path, format, held, &line);
    build_items(site, items, Some(path), &line, out, err)
}

// Whether a path is that of a file, which can be read again. A pipe can't.
fn is_file<R: System>(rt: &R, path: &str) -> bool {
    if path == "-" {
        return false;
    }
    match fs::metadata(rt, path) {
        Ok(found) => found.is_file(),
        Err(_) => false,
    }
}

fn build_whole<R: System, O: Write, E: Write>(
    site: &Site<'_, R>,
    out: &mut O,
    err: &mut E,
) -> Result<u64, Failure> {
    let alloc = site.rt.alloc();
    if site.task.sources.len() > 1 {
        return Err(Failure::of_text(
            alloc,
            Kind::Arguments,
            "without --each there can be one DATA only; set what its items share by -D",
        ));
    }
    let mut data = merged_data(site.rt, site.task)?;
    let Some(list) = data.as_array_mut() else {
        return Err(Failure::of_text(
            alloc,
            Kind::Input,
            "the data is no list; say where the list is by --each",
        ));
    };
    for (item, value) in list.iter_mut().enumerate() {
        set_in_item(alloc, value, site.task, item_at(None, 0, item as u64))?;
    }
    let items = ListItems::new(alloc, list.as_slice());
    build_items(site, items, None, &Cell::new(0), out, err)
}

fn build_each<R: System, O: Write, E: Write>(
    site: &Site<'_, R>,
    path: &str,
    out: &mut O,
    err: &mut E,
) -> Result<u64, Failure> {
    let alloc = site.rt.alloc();
    let data = match Context::try_from(whole_data(site.rt, site.task)?) {
        Ok(data) => data,
        Err(cause) => return Err(out_of_range(alloc, &cause)),
    };
    let (names, count) = list_at(alloc, &data, path)?;
    let items = PathItems::new(&data, names.as_slice(), count);
    build_items(site, items, None, &Cell::new(0), out, err)
}

// The names that lead to the list at a path, and how many members it has.
fn list_at(alloc: Global, data: &Context, path: &str) -> Result<(Vec<String>, u64), Failure> {
    let rc = RenderContext::new(alloc, None)?;
    match rc.evaluate(data, path) {
        Ok(ScopedJson::Context(Value::Array(list), names)) => Ok((names, list.len() as u64)),
        Ok(ScopedJson::Missing) => Err(Failure::new(
            Kind::Arguments,
            format!(in alloc; "--each {path}: nothing is there in the data"),
        )),
        Ok(_) => Err(Failure::new(
            Kind::Arguments,
            format!(in alloc; "--each {path}: not a list"),
        )),
        Err(cause) => {
            let reason = cause.reason();
            Err(Failure::new(
                Kind::Arguments,
                format!(in alloc; "--each {path}: {reason}"),
            ))
        }
    }
}

fn build_items<'o, 's, R: System, I: Items + Drop, O: Write, E: Write>(
    site: &Site<'s, R>,
    items: I,
    source: Option<&'s str>,
    line: &Cell<usize>,
    out: &'o mut O,
    err: &'o mut E,
) -> Result<u64, Failure> {
    let alloc = site.rt.alloc();
    let order = site.order;
    let mut pages = Rendered::new(
        alloc,
        site.registry,
        site.page,
        site.to,
        site.task.template,
        site.places,
        items,
    );
    let mut store = Folder::new(site.rt, order.folder);
    let mut reporter = Reporter {
        out,
        err,
        folder: order.folder,
        source,
        line,
        part: order.part,
        dry_run: order.settings.dry_run,
        progress: order.progress,
        done: 0,
        failed: 0,
        is_open: false,
        is_broken: false,
    };
    let answer = hb_build::build(
        alloc,
        &mut pages,
        &mut store,
        &order.settings,
        &mut reporter,
    );
    reporter.end_line();
    match answer {
        Ok(summary) => ended(alloc, &summary, &mut reporter),
        // The item that stopped the build is reported already.
        Err(BuildError::Failed { .. }) if reporter.failed > 0 => Ok(reporter.failed),
        Err(cause) => Err(not_built(alloc, order.folder, source, line.get(), &cause)),
    }
}

// The sum of a build that came to its end.
fn ended<O: Write, E: Write>(
    alloc: Global,
    summary: &Summary,
    reporter: &mut Reporter<'_, '_, '_, O, E>,
) -> Result<u64, Failure> {
    if reporter.is_broken {
        return Err(Failure::of_text(alloc, Kind::Output, "cannot write to standard output"));
    }
    if summary.failed > 0 {
        let (failed, items) = (Grouped(summary.failed), Grouped(reporter.done));
        let _ = writeln!(reporter.err, "hb: {failed} of {items} failed");
    }
    Ok(summary.failed)
}
