//! Rendering a tree.

ghost use Rattle.std.specs.Prelude.{map, option_map, slice_get, string_bytes};
ghost use Rattle.handlebars_template.specs.TreeView.{position_of, tree_view};
ghost use Rattle.handlebars_semantics.specs.Execute.{render_branch};
ghost use Rattle.handlebars_semantics.specs.Occurrences.{TreeOccurrence};
ghost use Rattle.handlebars_semantics.specs.Steps.{Whole, perform};
ghost use Rattle.handlebars_expand.specs.Boxed.{error_of};
ghost use Rattle.handlebars_elements.specs.Judgement.{Refines, Stays};
ghost use Rattle.handlebars_elements.specs.Left.{part_view};
ghost use Rattle.handlebars_elements.specs.Located.{IsLocated};
ghost use Rattle.handlebars_elements.specs.View.{KnowsAround};

use crate::element::render_element;
use crate::error::{named, positioned};
use handlebars_expand::boxed::BoxedError;
use handlebars_expand::registered::Registered;
use handlebars_template::template::Template;
use handlebars_values::environment::Environment;
use handlebars_values::run::Run;
use handlebars_write::location::{ElementLocation, Surroundings};
use handlebars_write::outcome::Outcome;
use handlebars_write::output_mode::OutputMode;
use handlebars_write::sink::Sink;
use std::alloc::{AllocError, Global};

/// Renders a tree: the first of a run, a body, an inverse or one that is included. Its name becomes the current one, and its
/// elements are rendered.
///
/// # Errors
///
/// An error gets the position of its element and the name of the tree, unless it has them already. Termination is by fuel: a
/// `u64` counts down for each nested tree. When it is exhausted the rendering fails with `OutOfMemory`.
#[cycle(render)]
pub fn render_tree<'v, O, T: OutputMode<O>, P: Registered>(
    template: &'v Template,
    environment: &'v Environment<'v, 'v, P>,
    fuel: u64,
    run: &mut Run,
    sink: &mut Sink<'_, O, T>,
) -> Outcome
    ensures renders { (at : TreeOccurrence) → KnowsAround T.mode.asks environment.now at → Refines P.parts T.mode environment.now run sink result
        (perform (Whole at (tree_view template.now))) }
    ensures stays { Stays run sink }
{
    let Some(fuel) = fuel.checked_sub(1) else {
        return Outcome::OutOfMemory;
    };
    match run.enter(&template.name) {
        Ok(()) => {}
        Err(AllocError) => return Outcome::OutOfMemory,
    }
    let surroundings = Surroundings {
        placement: &environment.inclusion.placement,
        iterations: environment.iterations,
        mapping: &template.mapping,
    };
    'elements: for (index, element) in template.elements.iter().enumerate() {
        let at = ElementLocation {
            surroundings: &surroundings,
            index,
        };
        match render_element(&*element, &*environment, fuel, at, run, sink) {
            Outcome::Done => {}
            Outcome::OutOfMemory => return Outcome::OutOfMemory,
            Outcome::Error(e) => {
                let error = BoxedError::Error(e);
                return located(environment.inclusion.alloc, template, index, error);
            }
        }
    }
    Outcome::Done
}

// An error within the element of this index, with its position and the name of the tree.
#[cold]
#[inline(never)]
fn located(alloc: Global, template: &Template, index: usize, error: BoxedError) -> Outcome
    ensures { IsLocated (slice_get (map position_of template.now.mapping.items) index) (option_map string_bytes template.now.name) (error_of error) result }
{
    let error = positioned(error, template.mapping.get(index));
    Outcome::from(named(alloc, error, &template.name))
}

/// Renders a body or an inverse, if there is one.
#[inline(always)]
#[cycle(render)]
pub fn render_part<'v, O, T: OutputMode<O>, P: Registered>(
    part: Option<&'v Template>,
    environment: &'v Environment<'v, 'v, P>,
    fuel: u64,
    run: &mut Run,
    sink: &mut Sink<'_, O, T>,
) -> Outcome
    ensures renders { (at : TreeOccurrence) → KnowsAround T.mode.asks environment.now at → Refines P.parts T.mode environment.now run sink result
        (render_branch at (part_view part.entry)) }
    ensures stays { Stays run sink }
{
    match part {
        Some(template) => render_tree(template, environment, fuel, run, sink),
        None => Outcome::Done,
    }
}
