//! The inclusions by which templates are reached from pages, and the notes that name them.

ghost use Rattle.std.specs.Prelude.{◌≡◌, ℕ, ◌+◌, ◌∷◌, [], false, length, IfOk, OnOk, map, option_and_then, option_map};
ghost use Rattle.handlebars_includes.specs.Graph as graph;
ghost use Rattle.handlebars_includes.specs.Graph.{targets_at};
ghost use Rattle.handlebars_includes.specs.View.{graph_view, name_of};
ghost use Rattle.handlebars_report.specs.View.{note_view};
ghost use Rattle.hb_check.specs.Chains.{AreNotes, AreWays, IsChain, IsClosed, IsNoteOf, includer_at, is_unreached};
ghost use Rattle.hb_check.specs.Growing.{AreUnreached, Follows, Grows, IsFound, IsPage, IsVisit, Queues};
ghost use Rattle.hb_check.specs.Several.{indices_of};

use crate::place::{location_at, place_of};
use crate::sources::Sources;
use crate::unused::{index_of, indices_of, name_at};
use handlebars_includes::{Includes, NamedTemplate};
use handlebars_report::Note;
use handlebars_template::template::TemplateMapping;
use std::alloc::{AllocError, Global};

/// An inclusion of a template: the index of the template that has the tag, and the position of the tag.
#[derive(Clone, Copy)]
pub struct Includer {
    pub template: usize,
    pub position: Option<TemplateMapping>,
}

/// How a template is reached.
#[derive(Clone, Copy)]
pub enum Way {
    Unreached,
    Page,
    Included(Includer),
}

impl Way {
    fn is_unreached(self) -> bool
        ensures { result ≡ is_unreached self }
    {
        match self {
            Way::Unreached => true,
            Way::Page => false,
            Way::Included(_) => false,
        }
    }
}

/// How each template is first reached from the pages.
#[derive(Drop)]
pub struct Chains {
    ways: Vec<Way>,
}

impl Chains {
    /// Searches breadth first from the named pages, and then from those by which all other templates are reached.
    ///
    /// Runs in time linear in the templates and their inclusions, for each named page.
    ///
    /// # Errors
    ///
    /// Fails if memory runs out.
    pub fn of(
        alloc: Global,
        templates: &[NamedTemplate<'_>],
        includes: &Includes,
        pages: &[&str],
    ) -> Result<Chains, AllocError>
        ensures { IfOk result (λ c. AreWays (graph_view includes.now)
            (indices_of (map name_of templates.now) (map (λ n. n.now) pages.now)) c.ways.items) }
    {
        let mut ways = unreached(alloc, templates)?;
        let mut order = Vec::new(alloc);
        let named = indices_of(alloc, templates, pages)?;
        visit_pages(&named, &mut ways, &mut order)?;
        let others = includes.pages(alloc)?;
        visit_pages(&others, &mut ways, &mut order)?;
        follow_all(includes, &mut ways, &mut order)?;
        Ok(Chains { ways })
    }

    // The inclusion by which a template is first reached.
    fn includer(&self, index: usize) -> Option<Includer>
        ensures { result ≡ includer_at self.now.ways.items index }
    {
        match self.ways.get(index) {
            Some(Way::Unreached) => None,
            Some(Way::Page) => None,
            Some(Way::Included(includer)) => Some(*includer),
            None => None,
        }
    }
}

// ---- the search

fn unreached(alloc: Global, templates: &[NamedTemplate<'_>]) -> Result<Vec<Way>, AllocError>
    ensures { IfOk result (λ ways. AreUnreached ways.items) }
{
    let mut ways = Vec::new(alloc);
    'templates: for _template in templates {
        ways.push(Way::Unreached)?;
    }
    Ok(ways)
}

fn visit(
    index: usize,
    way: Way,
    ways: &mut Vec<Way>,
    order: &mut Vec<usize>,
) -> Result<(), AllocError>
    ensures grows { OnOk result (Grows (IsVisit index way) ways.old.items ways.new.items) }
    ensures queues { OnOk result (is_unreached way ≡ false
        → Queues (index ∷ []) ways.old.items order.old.items ways.new.items order.new.items) }
{
    if index < ways.len() && ways[index].is_unreached() {
        order.push(index)?;
        ways[index] = way;
    }
    Ok(())
}

fn visit_pages(
    pages: &[usize],
    ways: &mut Vec<Way>,
    order: &mut Vec<usize>,
) -> Result<(), AllocError>
    ensures grows { OnOk result (Grows IsPage ways.old.items ways.new.items) }
    ensures queues { OnOk result (Queues pages.now ways.old.items order.old.items ways.new.items order.new.items) }
{
    'pages: for page in pages {
        visit(*page, Way::Page, ways, order)?;
    }
    Ok(())
}

// Visits what a template includes.
fn follow(
    includes: &Includes,
    template: usize,
    ways: &mut Vec<Way>,
    order: &mut Vec<usize>,
) -> Result<(), AllocError>
    ensures queues { OnOk result (Queues (targets_at (graph_view includes.now) template) ways.old.items order.old.items ways.new.items order.new.items) }
    ensures grows { OnOk result (Grows (IsFound (graph_view includes.now)) ways.old.items ways.new.items) }
{
    let inclusions = includes.inclusions(template);
    'tags: for inclusion in inclusions {
        let way = Way::Included(Includer {
            template,
            position: inclusion.position,
        });
        visit(inclusion.target, way, ways, order)?;
    }
    Ok(())
}

fn follow_at(
    includes: &Includes,
    at: usize,
    ways: &mut Vec<Way>,
    order: &mut Vec<usize>,
) -> Result<(), AllocError>
    ensures follows { OnOk result ((size : ℕ) → Follows (graph_view includes.now) at size ways.old.items order.old.items
        → Follows (graph_view includes.now) (at + 1) size ways.new.items order.new.items) }
    ensures grows { OnOk result (Grows (IsFound (graph_view includes.now)) ways.old.items ways.new.items) }
{
    if at < order.len() {
        follow(includes, order[at], ways, order)
    } else {
        Ok(())
    }
}

// Follows what was visited, in order. Each template is visited once at most.
fn follow_all(
    includes: &Includes,
    ways: &mut Vec<Way>,
    order: &mut Vec<usize>,
) -> Result<(), AllocError>
    ensures closes { OnOk result (Follows (graph_view includes.now) 0 (length ways.old.items) ways.old.items order.old.items
        → (IsClosed (graph_view includes.now) ways.new.items) × (length ways.new.items ≡ length ways.old.items)) }
    ensures grows { OnOk result (Grows (IsFound (graph_view includes.now)) ways.old.items ways.new.items) }
{
    'order: for at in 0..ways.len() {
        follow_at(includes, at, ways, order)?;
    }
    Ok(())
}

// ---- notes

/// Returns the notes of the template of this name: the tag by which it is reached, the tag by which the template that has this tag
/// is reached, and so on up to a page.
///
/// Runs in time linear in the notes, in the texts that they are in, and in the number of templates.
///
/// # Errors
///
/// Fails if memory runs out.
pub fn notes_of(
    alloc: Global,
    sources: &Sources<'_>,
    templates: &[NamedTemplate<'_>],
    chains: &Chains,
    name: Option<&str>,
) -> Result<Vec<Note>, AllocError>
    ensures { IfOk result (λ ns. AreNotes sources.now (map name_of templates.now) chains.now.ways.items
        (option_map (λ n. n.now) name.entry) (map note_view ns.items)) }
{
    match index_in(templates, name) {
        Some(index) => chain_to(alloc, sources, templates, chains, index),
        None => Ok(Vec::new(alloc)),
    }
}

fn index_in(templates: &[NamedTemplate<'_>], name: Option<&str>) -> Option<usize>
    ensures { result ≡ option_and_then (graph.index_of (map name_of templates.now)) (option_map (λ n. n.now) name.entry) }
{
    match name {
        Some(name) => index_of(templates, name),
        None => None,
    }
}

fn chain_to(
    alloc: Global,
    sources: &Sources<'_>,
    templates: &[NamedTemplate<'_>],
    chains: &Chains,
    index: usize,
) -> Result<Vec<Note>, AllocError>
    ensures { IfOk result (λ ns. IsChain sources.now (map name_of templates.now) chains.now.ways.items (length templates.now) index
        (map note_view ns.items)) }
{
    let mut notes = Vec::new(alloc);
    let mut at = index;
    'steps: for _step in 0..templates.len() {
        match chains.includer(at) {
            Some(includer) => {
                notes.push(note_of(alloc, sources, templates, includer)?)?;
                at = includer.template;
            }
            None => return Ok(notes),
        }
    }
    Ok(notes)
}

fn note_of(
    alloc: Global,
    sources: &Sources<'_>,
    templates: &[NamedTemplate<'_>],
    includer: Includer,
) -> Result<Note, AllocError>
    ensures { IfOk result (λ n. IsNoteOf sources.now (map name_of templates.now) includer (note_view n)) }
{
    let template = name_at(templates, includer.template);
    let place = place_of(alloc, sources, location_at(template, includer.position))?;
    Ok(Note {
        message: String::from_str(alloc, "included from")?,
        place: Some(place),
    })
}
