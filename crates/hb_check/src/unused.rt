//! Templates that no page includes.

ghost use Rattle.std.specs.Prelude.{◌≡◌, if◌then◌else◌, IfOk, OnOk, Some, map, option_map, slice_get};
ghost use Rattle.std.specs.List.{AllZip};
ghost use Rattle.handlebars_includes.specs.Graph as graph;
ghost use Rattle.handlebars_includes.specs.View.{graph_view, name_of};
ghost use Rattle.hb_check.specs.Several.{IsUnused, ReportsUnused, ReportsUnusedAt, indices_of};
ghost use Rattle.hb_check.specs.Reported.{AddsSome, One};

use crate::code::Code;
use crate::place::{Location, place_of};
use crate::push::{Said, push};
use crate::sources::Sources;
use handlebars_includes::{Includes, NamedTemplate};
use handlebars_report::{Problem, Severity};
use std::alloc::{AllocError, Global};

/// Adds a problem for each template that none of these pages reaches. If there is no page, each template may be one.
///
/// # Errors
///
/// Fails if memory runs out.
pub fn add_unused_problems(
    alloc: Global,
    sources: &Sources<'_>,
    templates: &[NamedTemplate<'_>],
    includes: &Includes,
    pages: &[&str],
    problems: &mut Vec<Problem>,
) -> Result<(), AllocError>
    ensures { OnOk result (AddsSome (ReportsUnused sources.now (map name_of templates.now) (graph_view includes.now) (map (λ n. n.now) pages.now))
        problems.old.items problems.new.items) }
{
    if pages.is_empty() {
        return Ok(());
    }
    let starts = indices_of(alloc, templates, pages)?;
    let unused = includes.unreached_from(alloc, &starts)?;
    add_all(alloc, sources, templates, &unused, problems)
}

fn add_all(
    alloc: Global,
    sources: &Sources<'_>,
    templates: &[NamedTemplate<'_>],
    unused: &[usize],
    problems: &mut Vec<Problem>,
) -> Result<(), AllocError>
    ensures { OnOk result (AddsSome (AllZip (ReportsUnusedAt sources.now (map name_of templates.now)) unused.now)
        problems.old.items problems.new.items) }
{
    'unused: for index in unused {
        add_one(alloc, sources, name_at(templates, *index), problems)?;
    }
    Ok(())
}

/// Returns the name of a template by its index.
pub fn name_at<'t>(templates: &[NamedTemplate<'t>], index: usize) -> Option<&'t str>
    ensures { option_map (λ n. n.now) result ≡ slice_get (map name_of templates.now) index }
{
    match templates.get(index) {
        Some(named) => Some(named.name),
        None => None,
    }
}

fn add_one(
    alloc: Global,
    sources: &Sources<'_>,
    name: Option<&str>,
    problems: &mut Vec<Problem>,
) -> Result<(), AllocError>
    ensures { OnOk result (AddsSome (One (IsUnused sources.now (option_map (λ n. n.now) name.entry))) problems.old.items problems.new.items) }
{
    let location = Location {
        template: name,
        line: None,
        column: None,
    };
    let place = place_of(alloc, sources, location)?;
    let mut help = Vec::new(alloc);
    help.push(String::from_str(
        alloc,
        "include it, or, if it is a page, name its file after the folders: hb check -p FOLDER FILE",
    )?)?;
    let said = Said {
        severity: Severity::Warning,
        code: Code::UnusedTemplate,
        message: "no page includes this template",
        help: help.as_slice(),
    };
    push(alloc, problems, place, said, Vec::new(alloc))
}

/// Returns the index of each name; of one that no template has, the number of templates.
///
/// # Errors
///
/// Fails if memory runs out.
pub fn indices_of(
    alloc: Global,
    templates: &[NamedTemplate<'_>],
    names: &[&str],
) -> Result<Vec<usize>, AllocError>
    ensures { IfOk result (λ is. is.items ≡ indices_of (map name_of templates.now) (map (λ n. n.now) names.now)) }
{
    let mut indices = Vec::new(alloc);
    'names: for name in names {
        let index = index_of(templates, name);
        indices.push(index.unwrap_or(templates.len()))?;
    }
    Ok(indices)
}

/// Returns the index of the template of this name. Of equal names the last one counts.
pub fn index_of(templates: &[NamedTemplate<'_>], name: &str) -> Option<usize>
    ensures { result ≡ graph.index_of (map name_of templates.now) name.now }
{
    let mut found = None;
    'templates: for (index, named) in templates.iter().enumerate() {
        found = last_of(found, named.name == name, index);
    }
    found
}

fn last_of(found: Option<usize>, is_it: bool, index: usize) -> Option<usize>
    ensures { result ≡ if is_it then Some index else found }
{
    if is_it { Some(index) } else { found }
}
