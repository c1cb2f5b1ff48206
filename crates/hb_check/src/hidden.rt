//! Names that hash arguments hide.

ghost use Rattle.std.specs.Prelude.{◌≡◌, OnOk, map};
ghost use Rattle.std.specs.List.{AllZip};
ghost use Rattle.handlebars_includes.specs.FrameView.{hidden_of};
ghost use Rattle.handlebars_includes.specs.Hidden.{hidden_from};
ghost use Rattle.handlebars_includes.specs.View.{name_of, tree_of};
ghost use Rattle.hb_check.specs.Several.{ReportsHidden};
ghost use Rattle.hb_check.specs.Reported.{AddsSome, One};

use crate::code::Code;
use crate::place::{Location, location_at, place_of};
use crate::push::{Said, push};
use crate::sources::Sources;
use crate::unused::name_at;
use handlebars_includes::{HiddenName, NamedTemplate, hidden_names};
use handlebars_report::{Note, Problem, Severity};
use std::alloc::{AllocError, Global};

/// Adds a problem for each name that a hash argument hides.
///
/// # Errors
///
/// Fails if memory runs out.
pub fn add_hidden_problems(
    alloc: Global,
    sources: &Sources<'_>,
    templates: &[NamedTemplate<'_>],
    problems: &mut Vec<Problem>,
) -> Result<(), AllocError>
    ensures { OnOk result (AddsSome (AllZip (ReportsHidden sources.now (map name_of templates.now)) (hidden_from 0 (map tree_of templates.now)))
        problems.old.items problems.new.items) }
{
    let hidden = hidden_names(alloc, templates)?;
    add_all(alloc, sources, templates, &hidden, problems)
}

fn add_all(
    alloc: Global,
    sources: &Sources<'_>,
    templates: &[NamedTemplate<'_>],
    hidden: &[HiddenName<'_>],
    problems: &mut Vec<Problem>,
) -> Result<(), AllocError>
    ensures { OnOk result (AddsSome (AllZip (ReportsHidden sources.now (map name_of templates.now)) (map hidden_of hidden.now))
        problems.old.items problems.new.items) }
{
    'hidden: for name in hidden {
        add_one(alloc, sources, templates, *name, problems)?;
    }
    Ok(())
}

fn add_one(
    alloc: Global,
    sources: &Sources<'_>,
    templates: &[NamedTemplate<'_>],
    hidden: HiddenName<'_>,
    problems: &mut Vec<Problem>,
) -> Result<(), AllocError>
    ensures { OnOk result (AddsSome (One (ReportsHidden sources.now (map name_of templates.now) (hidden_of hidden.entry)))
        problems.old.items problems.new.items) }
{
    let template = name_at(templates, hidden.location.template);
    let place = place_of(
        alloc,
        sources,
        location_at(template, hidden.location.position),
    )?;
    let notes = notes_of(alloc, sources, location_at(template, hidden.tag))?;
    let name = hidden.name;
    let message = format!(in alloc;
        "`{name}` is the hash argument of the layout here, not a member of the value of this block"
    )?;
    let help = help_for(alloc, name)?;
    let said = Said {
        severity: Severity::Warning,
        code: Code::HiddenName,
        message: message.as_str(),
        help: help.as_slice(),
    };
    push(alloc, problems, place, said, notes)
}

fn notes_of(
    alloc: Global,
    sources: &Sources<'_>,
    tag: Location<'_>,
) -> Result<Vec<Note>, AllocError> {
    let mut notes = Vec::new(alloc);
    let note = Note {
        message: String::from_str(alloc, "it is set by the tag at")?,
        place: Some(place_of(alloc, sources, tag)?),
    };
    notes.push(note)?;
    Ok(notes)
}

fn help_for(alloc: Global, name: &str) -> Result<Vec<String>, AllocError> {
    let mut help = Vec::new(alloc);
    help.push(format!(in alloc;
        "give the hash argument another name, or name the value of the block, as {{{{#each items as |item|}}}}, and write {{{{item.{name}}}}}"
    )?)?;
    Ok(help)
}
