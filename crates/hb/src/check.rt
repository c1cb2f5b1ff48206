//! `hb check`.

ghost use Rattle.std.specs.Io.KnownBytes.{Appends};
ghost use Rattle.std.specs.Prelude.{◌≡◌, ◌≤◌, IfOk, List, OnOk, string_bytes};
ghost use Rattle.handlebars_report.specs.Problem.{Problem};
ghost use Rattle.handlebars_report.specs.Report.{report_view};
ghost use Rattle.hb.specs.declared.gathering.Gathered.{Gathered};
ghost use Rattle.hb.specs.Checks.{ArePages, Checks, count_of, noun_for, printed_text, status_by, text_for_people};

use crate::gathering::{Gathered, gather};
use crate::render::write_out;
use clap::ArgMatches;
use handlebars::{BoxedEntries, UserParts};
use handlebars_report::Report;
use hb_check::Question;
use hb_command::failure::{Failure, Kind};
use hb_command::system::System;
use std::alloc::{AllocError, Global};
use std::io::Write;

/// What `hb check` is asked for: folders and templates, what of them, and the form in which problems are printed.
#[derive(Clone, Copy)]
pub struct CheckTask<'m, 'a> {
    folders: &'m [&'a str],
    templates: &'m [&'a str],
    markup: bool,
    html: bool,
    json: bool,
}

impl<'m, 'a> CheckTask<'m, 'a> {
    /// Returns the task of the matches of the subcommand. What isn't given is `none`.
    pub fn of(matches: &'m ArgMatches<'a>, none: &'m [&'a str]) -> CheckTask<'m, 'a> {
        CheckTask {
            folders: matches.get_strs("partials").unwrap_or(none),
            templates: matches.get_strs("templates").unwrap_or(none),
            markup: matches.get_flag("markup"),
            html: matches.get_flag("html"),
            json: matches.get_str("message-format") == Some("json"),
        }
    }
}

/// Prints what is wrong with templates, and returns the exit status.
pub fn check<R: System, O: Write>(
    rt: &R,
    task: &CheckTask<'_, '_>,
    out: &mut O,
) -> Result<u8, Failure>
    ensures { IfOk result (λ status. status ≤ 1) }
{
    if task.folders.is_empty() && task.templates.is_empty() {
        return Err(Failure::of_text(
            rt.alloc(),
            Kind::Arguments,
            "name a template, or a folder by -p",
        ));
    }
    let entries = BoxedEntries::first(rt.alloc())?;
    check_over(rt, &entries, task, out)
}

// Checks over these helpers, decorators and escape function.
fn check_over<R: System, E: UserParts, O: Write>(
    rt: &R,
    entries: &E,
    task: &CheckTask<'_, '_>,
    out: &mut O,
) -> Result<u8, Failure>
    ensures most { IfOk result (λ status. status ≤ 1) }
    ensures ok { IfOk result (λ status. (g : Gathered) × ArePages g task.now.templates.now × (ps : List Problem)
        × Checks (E.registered entries.now) (E.user entries.now) g task.now ps × (status ≡ status_by ps)
        × Appends (O.contents out.old) (O.contents out.new) (printed_text task.now.json (count_of g) ps)) }
{
    let gathered = gather(rt, task.folders, task.templates)?;
    let status = check_gathered(rt.alloc(), entries, task, &gathered, out)?;
    Ok(status)
}

fn check_gathered<E: UserParts, O: Write>(
    alloc: Global,
    entries: &E,
    task: &CheckTask<'_, '_>,
    gathered: &Gathered,
    out: &mut O,
) -> Result<u8, Failure>
    ensures most { IfOk result (λ status. status ≤ 1) }
    ensures ok { IfOk result (λ status. (ps : List Problem)
        × Checks (E.registered entries.now) (E.user entries.now) gathered.now task.now ps × (status ≡ status_by ps)
        × Appends (O.contents out.old) (O.contents out.new) (printed_text task.now.json (count_of gathered.now) ps)) }
{
    let report = report_on(alloc, entries, task, gathered)?;
    print(alloc, task.json, gathered.count(), &report, out)?;
    Ok(status_of(&report))
}

fn report_on<E: UserParts>(
    alloc: Global,
    entries: &E,
    task: &CheckTask<'_, '_>,
    gathered: &Gathered,
) -> Result<Report, Failure>
    ensures { IfOk result (λ r. Checks (E.registered entries.now) (E.user entries.now) gathered.now task.now (report_view r)) }
{
    let files = gathered.files(alloc)?;
    let pages = gathered.pages(alloc)?;
    let question = Question {
        files: &files,
        pages: &pages,
        markup: task.markup,
        html: task.html,
    };
    Ok(hb_check::check(alloc, entries, &question)?)
}

// Prints the problems, and for people how many there are.
fn print<O: Write>(
    alloc: Global,
    json: bool,
    count: usize,
    report: &Report,
    out: &mut O,
) -> Result<(), Failure>
    ensures { OnOk result (Appends (O.contents out.old) (O.contents out.new) (printed_text json count (report_view report.now))) }
{
    let text = if json {
        report.json(alloc)?
    } else {
        text_for_people(alloc, count, report)?
    };
    write_out(alloc, text.as_str(), out)
}

fn text_for_people(alloc: Global, count: usize, report: &Report) -> Result<String, AllocError>
    ensures { IfOk result (λ s. string_bytes s ≡ text_for_people count (report_view report.now)) }
{
    let summary = report.summary();
    let noun = noun_for(count);
    format!(in alloc; "{report}{count} {noun}: {summary}\n")
}

fn noun_for(count: usize) -> &'static str
    ensures { result.now ≡ noun_for count }
{
    if count == 1 { "template" } else { "templates" }
}

// The status of a check: 1 if there is an error, and else 0.
fn status_of(report: &Report) -> u8
    ensures is { result ≡ status_by (report_view report.now) }
    ensures most { result ≤ 1 }
{
    if report.summary().errors == 0 { 0 } else { 1 }
}
