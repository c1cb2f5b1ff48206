//! `hb origins`.

use crate::folders::register_folders;
use crate::message::{failed_in, out_of_range};
use crate::setup::set_modes;
use crate::text::Places;
use handlebars::{Context, FileReader, Registry};
use hb_command::failure::{Failure, Kind};
use hb_command::input::{read_template, whole_data};
use hb_command::message::shown;
use hb_command::system::System;
use hb_command::task::Task;
use hb_origins::{Form, OriginsError, print_origins};
use std::alloc::Global;
use std::io::{ErrorKind, Write};

/// Renders the template of a task over its data, and prints the pieces of the text to `out`. What was printed before an error
/// stays.
pub fn origins<R: System, O: Write>(
    rt: &R,
    task: &Task<'_, '_>,
    form: Form,
    out: &mut O,
) -> Result<(), Failure> {
    let source = read_template(rt, task.template)?;
    let data = match Context::try_from(whole_data(rt, task)?) {
        Ok(data) => data,
        Err(cause) => return Err(out_of_range(rt.alloc(), &cause)),
    };
    print_over(rt, task, form, source.as_str(), &data, out)
}

fn print_over<R: System, O: Write>(
    rt: &R,
    task: &Task<'_, '_>,
    form: Form,
    source: &str,
    data: &Context,
    out: &mut O,
) -> Result<(), Failure> {
    let alloc = rt.alloc();
    let mut registry = Registry::new(alloc)?;
    set_modes(&mut registry, &task.modes);
    let mut files = FileReader::new(rt, alloc);
    let registered = register_folders(alloc, &mut registry, task.folders, &mut files)?;
    let places = Places {
        folders: task.folders,
        registered: &registered,
    };
    let name = shown(task.template);
    match print_origins(alloc, &registry, source, data, name, form, out) {
        Ok(()) => Ok(()),
        Err(cause) => Err(not_printed(alloc, task.template, &places, &cause)),
    }
}

// The failure of pieces of the template at `path` that can't be printed.
fn not_printed(alloc: Global, path: &str, places: &Places<'_>, cause: &OriginsError) -> Failure {
    match cause {
        OriginsError::Rendering(cause) => failed_in(alloc, path, places, cause),
        OriginsError::Output(cause) => match cause.kind() {
            ErrorKind::OutOfMemory => Failure::out_of_memory(),
            kind => Failure::new(
                Kind::Output,
                format!(in alloc; "cannot write to standard output: {kind}"),
            ),
        },
    }
}
