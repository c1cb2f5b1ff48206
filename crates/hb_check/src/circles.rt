//! Templates that include each other without end.

ghost use Rattle.std.specs.Prelude.{OnOk, map};
ghost use Rattle.std.specs.List.{AllZip};
ghost use Rattle.handlebars_includes.specs.View.{graph_view, name_of, replaced_of, tag_of};
ghost use Rattle.hb_check.specs.Several.{ReportsCircle, ReportsCircles};
ghost use Rattle.hb_check.specs.Reported.{AddsSome, One};

use crate::code::Code;
use crate::place::{location_at, place_of};
use crate::push::{Said, push};
use crate::sources::Sources;
use crate::unused::name_at;
use handlebars_includes::{Circle, Includes, NamedTemplate};
use handlebars_report::{Problem, Severity};
use std::alloc::{AllocError, Global};

/// Adds a problem for each tag that closes a circle of templates that always include each other.
///
/// # Errors
///
/// Fails if memory runs out.
pub fn add_circle_problems(
    alloc: Global,
    sources: &Sources<'_>,
    templates: &[NamedTemplate<'_>],
    includes: &Includes,
    problems: &mut Vec<Problem>,
) -> Result<(), AllocError>
    ensures { OnOk result (AddsSome (ReportsCircles sources.now (map name_of templates.now) (graph_view includes.now) (replaced_of includes.now))
        problems.old.items problems.new.items) }
{
    let circles = includes.circles(alloc)?;
    add_all(alloc, sources, templates, &circles, problems)
}

fn add_all(
    alloc: Global,
    sources: &Sources<'_>,
    templates: &[NamedTemplate<'_>],
    circles: &[Circle],
    problems: &mut Vec<Problem>,
) -> Result<(), AllocError>
    ensures { OnOk result (AddsSome (AllZip (ReportsCircle sources.now (map name_of templates.now)) (map tag_of circles.now))
        problems.old.items problems.new.items) }
{
    'circles: for circle in circles {
        add_one(alloc, sources, templates, *circle, problems)?;
    }
    Ok(())
}

fn add_one(
    alloc: Global,
    sources: &Sources<'_>,
    templates: &[NamedTemplate<'_>],
    circle: Circle,
    problems: &mut Vec<Problem>,
) -> Result<(), AllocError>
    ensures { OnOk result (AddsSome (One (ReportsCircle sources.now (map name_of templates.now) (tag_of circle)))
        problems.old.items problems.new.items) }
{
    let template = name_at(templates, circle.template);
    let place = place_of(
        alloc,
        sources,
        location_at(template, circle.inclusion.position),
    )?;
    let target = name_at(templates, circle.inclusion.target).unwrap_or("");
    let message = format!(in alloc;
        "{target:?} includes this template again, and no block could end that"
    )?;
    let help = help(alloc)?;
    let said = Said {
        severity: Severity::Error,
        code: Code::IncludesItself,
        message: message.as_str(),
        help: help.as_slice(),
    };
    push(alloc, problems, place, said, Vec::new(alloc))
}

fn help(alloc: Global) -> Result<Vec<String>, AllocError> {
    let mut help = Vec::new(alloc);
    help.push(String::from_str(
        alloc,
        "include one of them in the body of a block that ends, as {{#each children}}..{{/each}}",
    )?)?;
    Ok(help)
}
