//! The check of several files.

ghost use Rattle.std.specs.Prelude.{◌≡◌, IfOk, IsErr, IsPermutation, OnOk, map};
ghost use Rattle.handlebars_base.specs.Reasons.{template_out_of_memory};
ghost use Rattle.handlebars_base.specs.TemplateRefusals.{template_refusal_of};
ghost use Rattle.handlebars_report.specs.Report.{report_view};
ghost use Rattle.handlebars_report.specs.View.{problem_view};
ghost use Rattle.handlebars_template.specs.TreeView.{tree_view};
ghost use Rattle.hb_check.specs.Compiled.{CompilesAs, IsErrorIn, ReportsFiles};
ghost use Rattle.hb_check.specs.Report.{FindsProblems, IfAsked, IsReport, ReportsAll, ReportsMarkupOf, ReportsPages};
ghost use Rattle.hb_check.specs.Sources.{numbered_of};
ghost use Rattle.hb_check.specs.Found.{ReportsHtmlFound};
ghost use Rattle.hb_check.specs.Reported.{AddsSome, One};

use crate::chains::Chains;
use crate::circles::add_circle_problems;
use crate::hidden::add_hidden_problems;
use crate::html::add_html_problems;
use crate::markup::add_markup_problems;
use crate::names::{add_name_problems, verdict_of};
use crate::page::including_all;
use crate::question::{File, Question};
use crate::sources::{Source, Sources};
use crate::syntax::syntax_problem;
use crate::unused::add_unused_problems;
use handlebars_base::error::{TemplateError, TemplateErrorReason};
use handlebars_helpers::entries::UserParts;
use handlebars_includes::{Includes, NamedTemplate};
use handlebars_names::known::Page;
use handlebars_report::{Problem, Report};
use handlebars_template::template::Template;
use std::alloc::{AllocError, Global};

/// Returns all that is wrong with some files.
///
/// Each file that doesn't compile has one problem, and is then checked as an empty template.
///
/// # Errors
///
/// Fails if memory runs out.
pub fn check<E: UserParts>(
    alloc: Global,
    entries: &E,
    question: &Question<'_, '_>,
) -> Result<Report, AllocError>
    ensures { IfOk result (λ r. IsReport (E.registered entries.now) (E.user entries.now) question.now (report_view r)) }
{
    let problems = problems_of(alloc, entries, question)?;
    reported(alloc, problems)
}

// A report with these problems.
fn reported(alloc: Global, problems: Vec<Problem>) -> Result<Report, AllocError>
    ensures { IfOk result (λ r. IsPermutation (map problem_view problems.items) (report_view r)) }
{
    let mut report = Report::new(alloc);
    'problems: for problem in problems {
        report.push(problem)?;
    }
    Ok(report)
}

fn problems_of<E: UserParts>(
    alloc: Global,
    entries: &E,
    question: &Question<'_, '_>,
) -> Result<Vec<Problem>, AllocError>
    ensures { IfOk result (λ ps. FindsProblems (E.registered entries.now) (E.user entries.now) question.now (map problem_view ps.items)) }
{
    let mut problems = Vec::new(alloc);
    let sources = compile_all(alloc, question.files, &mut problems)?;
    check_all(alloc, entries, question, &sources, &mut problems)?;
    Ok(problems)
}

fn check_all<E: UserParts>(
    alloc: Global,
    entries: &E,
    question: &Question<'_, '_>,
    sources: &Sources<'_>,
    problems: &mut Vec<Problem>,
) -> Result<(), AllocError>
    ensures { OnOk result (AddsSome (ReportsAll (E.registered entries.now) (E.user entries.now) question.now sources.now)
        problems.old.items problems.new.items) }
{
    let mut templates = Vec::new(alloc);
    sources.number(&mut templates)?;
    check_names(
        alloc,
        entries,
        question.pages,
        sources,
        &templates,
        problems,
    )?;
    add_hidden_problems(alloc, sources, &templates, problems)?;
    check_markup(alloc, entries, question.markup, sources, problems)?;
    check_html(alloc, entries, question, sources, problems)
}

fn check_names<E: UserParts>(
    alloc: Global,
    entries: &E,
    pages: &[&str],
    sources: &Sources<'_>,
    templates: &[NamedTemplate<'_>],
    problems: &mut Vec<Problem>,
) -> Result<(), AllocError>
    ensures { OnOk result (AddsSome (ReportsPages (E.registered entries.now) (map numbered_of templates.now) (map (λ n. n.now) pages.now) sources.now)
        problems.old.items problems.new.items) }
{
    let includes = Includes::of(alloc, templates)?;
    add_unused_problems(alloc, sources, templates, &includes, pages, problems)?;
    add_circle_problems(alloc, sources, templates, &includes, problems)?;
    let source = including_all(alloc, pages, templates, &includes)?;
    let verdict = verdict_of(alloc, entries, sources, Page::Source(&source))?;
    let chains = Chains::of(alloc, templates, &includes, pages)?;
    add_name_problems(alloc, sources, templates, &chains, &verdict, problems)
}

fn check_markup<E: UserParts>(
    alloc: Global,
    entries: &E,
    asked: bool,
    sources: &Sources<'_>,
    problems: &mut Vec<Problem>,
) -> Result<(), AllocError>
    ensures { OnOk result (AddsSome (IfAsked asked (ReportsMarkupOf (E.registered entries.now) sources.now)) problems.old.items problems.new.items) }
{
    if asked {
        add_markup_problems(alloc, entries, sources, problems)
    } else {
        Ok(())
    }
}

fn check_html<E: UserParts>(
    alloc: Global,
    entries: &E,
    question: &Question<'_, '_>,
    sources: &Sources<'_>,
    problems: &mut Vec<Problem>,
) -> Result<(), AllocError>
    ensures { OnOk result (AddsSome (IfAsked question.now.html (ReportsHtmlFound (E.registered entries.now) (E.user entries.now) sources.now
        (map (λ n. n.now) question.now.pages.now))) problems.old.items problems.new.items) }
{
    if question.html {
        add_html_problems(alloc, entries, sources, question.pages, problems)
    } else {
        Ok(())
    }
}

fn compile_all<'f>(
    alloc: Global,
    files: &[File<'f>],
    problems: &mut Vec<Problem>,
) -> Result<Sources<'f>, AllocError>
    ensures { IfOk result (λ ss. AddsSome (ReportsFiles files.now ss) problems.old.items problems.new.items) }
{
    let mut sources = Sources::new(alloc);
    'files: for file in files {
        let template = compile(alloc, *file, problems)?;
        let source = Source {
            path: file.path,
            text: file.text,
            template,
        };
        sources.insert(String::from_str(alloc, file.name)?, source)?;
    }
    Ok(sources)
}

// What a file compiles to. If it doesn't, adds a problem.
fn compile(
    alloc: Global,
    file: File<'_>,
    problems: &mut Vec<Problem>,
) -> Result<Template, AllocError>
    ensures { IfOk result (λ t. AddsSome (CompilesAs file.entry (tree_view t)) problems.old.items problems.new.items) }
{
    let name = String::from_str(alloc, file.name)?;
    match Template::compile_with_name(alloc, file.text, name) {
        Ok(template) => Ok(template),
        Err(cause) => {
            add_error(alloc, file, &cause, problems)?;
            Ok(Template::new(alloc))
        }
    }
}

// Adds the problem of a file that doesn't compile for this error, unless memory ran out.
fn add_error(
    alloc: Global,
    file: File<'_>,
    cause: &TemplateError,
    problems: &mut Vec<Problem>,
) -> Result<(), AllocError>
    ensures memory { (template_refusal_of cause.now).reason ≡ template_out_of_memory → IsErr result }
    ensures adds { OnOk result (AddsSome (One (IsErrorIn file.entry)) problems.old.items problems.new.items) }
{
    match cause.reason() {
        TemplateErrorReason::OutOfMemory => Err(AllocError),
        _ => push_error(alloc, file, cause, problems),
    }
}

fn push_error(
    alloc: Global,
    file: File<'_>,
    cause: &TemplateError,
    problems: &mut Vec<Problem>,
) -> Result<(), AllocError>
    ensures { OnOk result (AddsSome (One (IsErrorIn file.entry)) problems.old.items problems.new.items) }
{
    let problem = syntax_problem(alloc, file, cause)?;
    problems.push(problem)?;
    Ok(())
}
