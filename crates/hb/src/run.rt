//! A run of the program.

ghost use Rattle.std.specs.Prelude.{◌≡◌, ◌≤◌, IfOk};
ghost use Rattle.hb_command.specs.Failures.{kind_of, status_of};

use crate::build::build;
use crate::check::{CheckTask, check};
use crate::origins::origins;
use crate::render::render;
use clap::error::ErrorKind;
use clap::{ArgMatches, Error};
use hb_command::command::program;
use hb_command::failure::{Failure, Kind};
use hb_command::order::Order;
use hb_command::system::System;
use hb_command::task::Task;
use hb_origins::Form;
use std::alloc::Global;
use std::io::Write;

/// Does what the words ask for, and returns the exit status.
pub fn run<R: System, O: Write, E: Write>(
    rt: &R,
    words: Result<Vec<String>, Failure>,
    out: &mut O,
    err: &mut E,
) -> u8
    ensures { result ≤ 2 }
{
    match words {
        Ok(words) => match answer(rt, words.as_slice(), out, err) {
            Ok(status) => status,
            Err(failure) => report(&failure, err),
        },
        Err(failure) => report(&failure, err),
    }
}

// Reports a failure and returns its status. If it can't be printed, the status still reports it.
fn report<E: Write>(failure: &Failure, err: &mut E) -> u8
    ensures is { result ≡ status_of (kind_of failure.now) }
    ensures most { result ≤ 2 }
{
    let _ = writeln!(err, "{failure}");
    failure.status()
}

fn answer<R: System, O: Write, E: Write>(
    rt: &R,
    words: &[String],
    out: &mut O,
    err: &mut E,
) -> Result<u8, Failure>
    ensures { IfOk result (λ status. status ≤ 1) }
{
    let command = program(rt.alloc())?;
    match command.try_get_matches_from(words) {
        Ok(matches) => chosen(rt, &matches, out, err),
        Err(refusal) => {
            explained(rt.alloc(), &refusal, out)?;
            Ok(0)
        }
    }
}

// Does what a subcommand is asked for.
fn chosen<R: System, O: Write, E: Write>(
    rt: &R,
    matches: &ArgMatches<'_>,
    out: &mut O,
    err: &mut E,
) -> Result<u8, Failure>
    ensures { IfOk result (λ status. status ≤ 1) }
{
    let Some((name, matches)) = matches.subcommand() else {
        return Err(Failure::of_text(rt.alloc(), Kind::Arguments, "no subcommand"));
    };
    if name == "check" {
        check(rt, &CheckTask::of(matches, &[]), out)
    } else {
        rendered(rt, name, matches, out, err)
    }
}

// Does what a subcommand that renders is asked for.
fn rendered<R: System, O: Write, E: Write>(
    rt: &R,
    name: &str,
    matches: &ArgMatches<'_>,
    out: &mut O,
    err: &mut E,
) -> Result<u8, Failure>
    ensures { IfOk result (λ status. status ≤ 1) }
{
    let task = Task::of(matches, &[]);
    if task.standard_inputs() > 1 {
        return Err(Failure::of_text(
            rt.alloc(),
            Kind::Arguments,
            "standard input is named more than once",
        ));
    }
    if name == "build" {
        let order = Order::of(rt.alloc(), matches)?;
        let failed = build(rt, &task, &order, out, err)?;
        Ok(if failed == 0 { 0 } else { 1 })
    } else if name == "origins" {
        origins(rt, &task, form_of(matches), out)?;
        Ok(0)
    } else {
        render(rt, &task, output_of(rt.alloc(), matches)?, out)?;
        Ok(0)
    }
}

// The form in which `hb origins` prints pieces.
fn form_of(matches: &ArgMatches<'_>) -> Form {
    if matches.get_flag("html") {
        Form::Page
    } else if matches.get_flag("marks") {
        Form::Marks
    } else {
        Form::Lines
    }
}

// The file that `hb render` writes. `-` is standard output, as is none.
fn output_of<'m>(alloc: Global, matches: &ArgMatches<'m>) -> Result<Option<&'m str>, Failure> {
    match matches.get_str("output") {
        Some("") => Err(Failure::of_text(alloc, Kind::Arguments, "-o: expected a file")),
        Some("-") => Ok(None),
        file => Ok(file),
    }
}

// Help and version are printed; any other refusal is a failure.
fn explained<O: Write>(alloc: Global, refusal: &Error, out: &mut O) -> Result<(), Failure> {
    if let ErrorKind::OutOfMemory = refusal.kind() {
        return Err(Failure::out_of_memory());
    }
    if refusal.use_stderr() {
        let message = format!(in alloc; "{refusal}")?;
        let message = message.as_str().trim_end();
        let message = message.strip_prefix("error: ").unwrap_or(message);
        return Err(Failure::of_text(alloc, Kind::Arguments, message));
    }
    match write!(out, "{refusal}") {
        Ok(()) => Ok(()),
        Err(_) => Err(Failure::of_text(alloc, Kind::Output, "cannot write to standard output")),
    }
}
