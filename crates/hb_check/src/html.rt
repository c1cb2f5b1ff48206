//! Data where it may do harm in HTML.

ghost use Rattle.std.specs.Prelude.{◌≡◌, ◌||◌, IfOk, OnOk, map};
ghost use Rattle.std.specs.List.{AllZip};
ghost use Rattle.handlebars_html.specs.Faults.{with_faults};
ghost use Rattle.handlebars_html.specs.RowsView.{fault_of};
ghost use Rattle.handlebars_html.specs.SearchView as html;
ghost use Rattle.handlebars_report.specs.declared.problem.Severity.TheVariants.{Error};
ghost use Rattle.hb_check.specs.Found.{HtmlFinds, ReportsHtmlFound, ReportsUndecided};
ghost use Rattle.hb_check.specs.Says.{SaysHtml, and_faults, or_undecided, page_alone};
ghost use Rattle.hb_check.specs.Reported.{AddsSome, IsKind, One, ReportsHtml};
ghost use Rattle.hb_check.specs.declared.code.Code.TheVariants.{HtmlUndecided};

use crate::code::Code;
use crate::page::including;
use crate::place::{Location, place_of};
use crate::push::{Said, push};
use crate::sources::Sources;
use handlebars_helpers::entries::UserParts;
use handlebars_html::fault::{HtmlFault, add_fault};
use handlebars_html::others::user_defined;
use handlebars_html::search::{Checked, Pages, Verdict, check_pages};
use handlebars_report::{Place, Problem, Severity};
use std::alloc::{AllocError, Global};

/// What the checks of several pages say together: whether one of them was given up, and all faults, each once.
#[derive(Drop)]
pub struct HtmlFound {
    undecided: bool,
    faults: Vec<HtmlFault>,
}

/// Adds a problem for each location where data may stand elsewhere than where it is harmless, in what these pages write; or, if
/// there is none, in what each template does.
///
/// # Errors
///
/// Fails if memory runs out.
pub fn add_html_problems<E: UserParts>(
    alloc: Global,
    entries: &E,
    sources: &Sources<'_>,
    pages: &[&str],
    problems: &mut Vec<Problem>,
) -> Result<(), AllocError>
    ensures { OnOk result (AddsSome (ReportsHtmlFound (E.registered entries.now) (E.user entries.now) sources.now (map (λ n. n.now) pages.now))
        problems.old.items problems.new.items) }
{
    let found = html_faults(alloc, entries, sources, pages)?;
    push_faults(alloc, sources, &found.faults, problems)?;
    push_undecided(alloc, found.undecided, problems)
}

fn push_faults(
    alloc: Global,
    sources: &Sources<'_>,
    faults: &[HtmlFault],
    problems: &mut Vec<Problem>,
) -> Result<(), AllocError>
    ensures { OnOk result (AddsSome (AllZip (ReportsHtml sources.now) (map fault_of faults.now)) problems.old.items problems.new.items) }
{
    'faults: for fault in faults {
        push_fault(alloc, sources, fault, problems)?;
    }
    Ok(())
}

fn push_undecided(
    alloc: Global,
    undecided: bool,
    problems: &mut Vec<Problem>,
) -> Result<(), AllocError>
    ensures { OnOk result (AddsSome (ReportsUndecided undecided) problems.old.items problems.new.items) }
{
    if undecided {
        add_undecided(alloc, problems)
    } else {
        Ok(())
    }
}

fn html_faults<E: UserParts>(
    alloc: Global,
    entries: &E,
    sources: &Sources<'_>,
    pages: &[&str],
) -> Result<HtmlFound, AllocError>
    ensures { IfOk result (λ f. HtmlFinds (E.registered entries.now) (E.user entries.now) sources.now (map (λ n. n.now) pages.now)
        f.undecided (map fault_of f.faults.items)) }
{
    let mut found = HtmlFound {
        undecided: false,
        faults: Vec::new(alloc),
    };
    if pages.is_empty() {
        add_verdict(
            verdict_of(alloc, entries, sources, Pages::AllTemplates)?,
            &mut found,
        )?;
        return Ok(found);
    }
    'pages: for page in pages {
        add_verdict(verdict_of_page(alloc, entries, sources, page)?, &mut found)?;
    }
    Ok(found)
}

// A page is included at the beginning of a document.
fn verdict_of_page<E: UserParts>(
    alloc: Global,
    entries: &E,
    sources: &Sources<'_>,
    page: &str,
) -> Result<Verdict, AllocError>
    ensures { IfOk result (λ v. SaysHtml (E.registered entries.now) (E.user entries.now) sources.now (page_alone page.now) (html.verdict_of v)) }
{
    let source = including(alloc, &[page])?;
    verdict_of(alloc, entries, sources, Pages::Source(&source))
}

fn verdict_of<E: UserParts>(
    alloc: Global,
    entries: &E,
    sources: &Sources<'_>,
    pages: Pages<'_>,
) -> Result<Verdict, AllocError>
    ensures { IfOk result (λ v. SaysHtml (E.registered entries.now) (E.user entries.now) sources.now (html.pages_of pages.entry) (html.verdict_of v)) }
{
    let user = user_defined(alloc, entries)?;
    let mut templates = Vec::new(alloc);
    sources.list(&mut templates)?;
    check_pages(Checked {
        alloc,
        user: &user,
        templates: &templates,
        pages,
    })
}

fn add_verdict(verdict: Verdict, found: &mut HtmlFound) -> Result<(), AllocError>
    ensures undecided { OnOk result (found.new.undecided ≡ or_undecided found.old.undecided (html.verdict_of verdict)) }
    ensures faults { OnOk result
        (map fault_of found.new.faults.items ≡ and_faults (map fault_of found.old.faults.items) (html.verdict_of verdict)) }
{
    match verdict {
        Verdict::NoFaults => Ok(()),
        Verdict::Faults(faults) => add_faults(&mut found.faults, faults),
        Verdict::Undecided => {
            found.undecided = true;
            Ok(())
        }
    }
}

fn add_faults(all: &mut Vec<HtmlFault>, faults: Vec<HtmlFault>) -> Result<(), AllocError>
    ensures { OnOk result (map fault_of all.new.items ≡ with_faults (map fault_of all.old.items) (map fault_of faults.items)) }
{
    'faults: for fault in faults {
        add_fault(all, fault)?;
    }
    Ok(())
}

fn push_fault(
    alloc: Global,
    sources: &Sources<'_>,
    fault: &HtmlFault,
    problems: &mut Vec<Problem>,
) -> Result<(), AllocError>
    ensures { OnOk result (AddsSome (One (ReportsHtml sources.now (fault_of fault.now))) problems.old.items problems.new.items) }
{
    let location = Location::of(&fault.template_name, fault.line_no, fault.column_no);
    let place = place_of(alloc, sources, location)?;
    let reason = &fault.reason;
    let message = format!(in alloc; "{reason}")?;
    let mut help = Vec::new(alloc);
    if !reason.advice().is_empty() {
        help.push(String::from_str(alloc, reason.advice())?)?;
    }
    let said = Said {
        severity: Severity::Error,
        code: Code::Html,
        message: message.as_str(),
        help: help.as_slice(),
    };
    push(alloc, problems, place, said, Vec::new(alloc))
}

fn add_undecided(alloc: Global, problems: &mut Vec<Problem>) -> Result<(), AllocError>
    ensures { OnOk result (AddsSome (One (IsKind Error HtmlUndecided)) problems.old.items problems.new.items) }
{
    let place = Place::in_text(alloc, "", "", 0..0)?;
    let said = Said {
        severity: Severity::Error,
        code: Code::HtmlUndecided,
        message: "the templates are included in too many states of HTML to be checked",
        help: &[],
    };
    push(alloc, problems, place, said, Vec::new(alloc))
}
