//! `hb render`.

ghost use Rattle.std.specs.Io.KnownBytes.{Appends};
ghost use Rattle.std.specs.Prelude.{◌≡◌, ◌≢◌, IfErr, IfOk, OnOk, Some, false, string_bytes};
ghost use Rattle.handlebars_scope.specs.Contexts.{data_of};
ghost use Rattle.handlebars_semantics.specs.State.{first_state};
ghost use Rattle.handlebars_template.specs.TreeView.{tree_view};
ghost use Rattle.hb_command.specs.Failures.{kind_of};
ghost use Rattle.hb.specs.Pages.{GivesNoPage, GivesPage, Prints};
ghost use Rattle.hb_command.specs.declared.failure.Kind.TheVariants.{Output, OutOfMemory};

use crate::folders::{Registered, register_folders};
use crate::message::out_of_range;
use crate::setup::set_modes;
use crate::text::{Places, compile, text_of};
use handlebars::{Context, FileReader, Registry, RegistryOf, RenderContext, Template, UserParts};
use hb_command::failure::{Failure, Kind};
use hb_command::input::{read_template, whole_data};
use hb_command::output::write_file;
use hb_command::system::System;
use hb_command::task::Task;
use std::alloc::Global;
use std::io::Write;

/// Renders the template of a task over its data, to a file or, if there is none, to `out`.
pub fn render<R: System, O: Write>(
    rt: &R,
    task: &Task<'_, '_>,
    file: Option<&str>,
    out: &mut O,
) -> Result<(), Failure> {
    let source = read_template(rt, task.template)?;
    let data = match Context::try_from(whole_data(rt, task)?) {
        Ok(data) => data,
        Err(cause) => return Err(out_of_range(rt.alloc(), &cause)),
    };
    render_over(rt, task, file, source.as_str(), &data, out)
}

fn render_over<R: System, O: Write>(
    rt: &R,
    task: &Task<'_, '_>,
    file: Option<&str>,
    source: &str,
    data: &Context,
    out: &mut O,
) -> Result<(), Failure> {
    let mut registry = Registry::new(rt.alloc())?;
    set_modes(&mut registry, &task.modes);
    let registered = register(rt, task, &mut registry)?;
    let places = Places {
        folders: task.folders,
        registered: &registered,
    };
    let template = compile(rt.alloc(), task.template, source, task.modes.prevent_indent)?;
    put(rt, task, file, &registry, &template, data, &places, out)
}

fn register<R: System>(
    rt: &R,
    task: &Task<'_, '_>,
    registry: &mut Registry,
) -> Result<Registered, Failure> {
    let mut files = FileReader::new(rt, rt.alloc());
    register_folders(rt.alloc(), registry, task.folders, &mut files)
}

fn put<R: System, O: Write>(
    rt: &R,
    task: &Task<'_, '_>,
    file: Option<&str>,
    registry: &Registry,
    template: &Template,
    data: &Context,
    places: &Places<'_>,
    out: &mut O,
) -> Result<(), Failure> {
    let alloc = rt.alloc();
    match file {
        Some(path) => {
            let text = whole_text(alloc, registry, template, data, task.template, places)?;
            write_file(rt, path, text.as_str())
        }
        None => print(alloc, registry, template, data, task.template, places, out),
    }
}

// Prints the text of a template over data, all of it or, if the rendering fails, nothing.
fn print<E: UserParts, O: Write>(
    alloc: Global,
    registry: &RegistryOf<E>,
    template: &Template,
    data: &Context,
    path: &str,
    places: &Places<'_>,
    out: &mut O,
) -> Result<(), Failure>
    ensures { Prints E.registered E.user registry.now (tree_view template.now) false
        (Some (data_of «data».now)) (first_state false) (O.contents out.old) (O.contents out.new) result }
{
    match whole_text(alloc, registry, template, data, path, places) {
        Ok(text) => write_out(alloc, text.as_str(), out),
        Err(failure) => Err(failure),
    }
}

// The text of a template over data.
fn whole_text<E: UserParts>(
    alloc: Global,
    registry: &RegistryOf<E>,
    template: &Template,
    data: &Context,
    path: &str,
    places: &Places<'_>,
) -> Result<String, Failure>
    ensures ok { IfOk result (λ text. GivesPage E.registered E.user registry.now (tree_view template.now) false
        (Some (data_of «data».now)) (first_state false) (string_bytes text)) }
    ensures err { IfErr result (λ f. kind_of f ≢ OutOfMemory
        → GivesNoPage E.registered E.user registry.now (tree_view template.now) false
        (Some (data_of «data».now)) (first_state false)) }
{
    let mut rc = RenderContext::new(alloc, None)?;
    text_of(
        alloc, registry, template, false, data, &mut rc, path, places,
    )
}

/// Writes a text to standard output.
pub fn write_out<O: Write>(alloc: Global, text: &str, out: &mut O) -> Result<(), Failure>
    ensures ok { OnOk result (Appends (O.contents out.old) (O.contents out.new) text.now) }
    ensures err { IfErr result (λ f. kind_of f ≢ OutOfMemory → kind_of f ≡ Output) }
{
    match out.write_all(text.as_bytes()) {
        Ok(()) => Ok(()),
        Err(cause) => {
            let kind = cause.kind();
            Err(Failure::new(
                Kind::Output,
                format!(in alloc; "cannot write to standard output: {kind}"),
            ))
        }
    }
}
