//! Reading templates and data.

ghost use Rattle.std.specs.Prelude.{◌≡◌, ◌≢◌, ◌⊎◌, IfErr, IfOk, None, Ok, Some, codes};
ghost use Rattle.handlebars_data.specs.Format.{format_of_path};
ghost use Rattle.handlebars_data.specs.declared.format.Format.TheVariants.{Json};
ghost use Rattle.hb_command.specs.Failures.{EndsWith, kind_of};
ghost use Rattle.hb_command.specs.declared.failure.Kind.TheVariants.{Arguments, OutOfMemory};

use crate::failure::{Failure, Kind};
use crate::message::{not_data, shown, unreadable};
use crate::stops::ItemAt;
use crate::system::System;
use crate::task::Task;
use handlebars_data::{Format, SettingError, merge, read_data, set};
use serde_json::{Map, Value};
use std::alloc::Global;
use std::io::Read;
use std::{fs, io};

/// Reads all of a file, or all of standard input if the path is `-`.
pub fn read_bytes<R: System>(rt: &R, path: &str) -> io::Result<Vec<u8>> {
    if path == "-" {
        let mut bytes = Vec::new(rt.alloc());
        rt.reader().read_to_end(&mut bytes)?;
        Ok(bytes)
    } else {
        fs::read(rt, path)
    }
}

/// Reads the text of a template.
pub fn read_template<R: System>(rt: &R, path: &str) -> Result<String, Failure>
    ensures { IfErr result (λ f. EndsWith 2 f) }
{
    match read_bytes(rt, path) {
        Ok(bytes) => match String::from_utf8(bytes) {
            Ok(text) => Ok(text),
            Err(_) => {
                let path = shown(path);
                Err(Failure::new(Kind::Input, format!(in rt.alloc(); "{path}: not UTF-8")))
            }
        },
        Err(cause) => Err(unreadable(rt.alloc(), path, &cause)),
    }
}

/// Returns the format of a source: the given one, or that of its extension. Standard input without a format is JSON.
pub fn format_of(alloc: Global, task: &Task<'_, '_>, path: &str) -> Result<Format, Failure>
    ensures given { (format : _) → task.now.format ≡ Some format → result ≡ Ok format }
    ensures input { task.now.format ≡ None → path.now ≡ codes "-" → result ≡ Ok Json }
    ensures by_path { task.now.format ≡ None → path.now ≢ codes "-"
        → IfOk result (λ format. format_of_path path.now ≡ Some format) }
    ensures unknown { IfErr result (λ f. (format_of_path path.now ≡ None)
        × ((kind_of f ≡ Arguments) ⊎ (kind_of f ≡ OutOfMemory))) }
{
    if let Some(format) = task.format {
        return Ok(format);
    }
    if path == "-" {
        return Ok(Format::Json);
    }
    match Format::of_path(path) {
        Some(format) => Ok(format),
        None => Err(Failure::new(
            Kind::Arguments,
            format!(in alloc; "{path}: no known extension; say its format by --format"),
        )),
    }
}

/// Returns the data of all sources, merged in order, with what is set in it. Without a source it is the empty object.
pub fn whole_data<R: System>(rt: &R, task: &Task<'_, '_>) -> Result<Value, Failure>
    ensures { IfErr result (λ f. EndsWith 2 f) }
{
    let mut data = merged_data(rt, task)?;
    set_all(rt.alloc(), &mut data, task)?;
    Ok(data)
}

/// Returns the data of all sources, merged in order. Without a source it is the empty object.
pub fn merged_data<R: System>(rt: &R, task: &Task<'_, '_>) -> Result<Value, Failure>
    ensures { IfErr result (λ f. EndsWith 2 f) }
{
    let Some((first, others)) = task.sources.split_first() else {
        return Ok(Value::Object(Map::new(rt.alloc())));
    };
    let mut data = read_source(rt, task, first)?;
    for path in others {
        let over = read_source(rt, task, path)?;
        data = merge(data, over)?;
    }
    Ok(data)
}

fn read_source<R: System>(rt: &R, task: &Task<'_, '_>, path: &str) -> Result<Value, Failure>
    ensures { IfErr result (λ f. EndsWith 2 f) }
{
    let format = format_of(rt.alloc(), task, path)?;
    match read_bytes(rt, path) {
        Ok(bytes) => match read_data(rt.alloc(), format, bytes.as_slice(), task.numbers) {
            Ok(data) => Ok(data),
            Err(cause) => Err(not_data(rt.alloc(), path, &cause)),
        },
        Err(cause) => Err(unreadable(rt.alloc(), path, &cause)),
    }
}

/// Sets in an object what the words of a task set.
pub fn set_all(alloc: Global, data: &mut Value, task: &Task<'_, '_>) -> Result<(), Failure>
    ensures { IfErr result (λ f. EndsWith 2 f) }
{
    for word in task.settings {
        if let Err(cause) = set(alloc, data, word, task.numbers) {
            return Err(not_set(alloc, word, &cause));
        }
    }
    Ok(())
}

/// Sets in an item what the words of a task set. An item that is no object has no keys to set.
pub fn set_in_item(
    alloc: Global,
    data: &mut Value,
    task: &Task<'_, '_>,
    at: ItemAt<'_>,
) -> Result<(), Failure>
    ensures { IfErr result (λ f. EndsWith 2 f) }
{
    if data.is_object() || task.settings.is_empty() {
        return set_all(alloc, data, task);
    }
    Err(Failure::new(
        Kind::Input,
        format!(in alloc; "{at}: not an object, so -D can't set a key in it"),
    ))
}

fn not_set(alloc: Global, word: &str, cause: &SettingError) -> Failure
    ensures { EndsWith 2 result }
{
    match cause {
        SettingError::OutOfMemory => Failure::out_of_memory(),
        cause => Failure::new(Kind::Arguments, format!(in alloc; "-D {word}: {cause}")),
    }
}
