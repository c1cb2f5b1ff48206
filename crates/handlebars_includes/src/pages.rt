//! Which templates are to be checked as pages, and which are reached from these.

ghost use Rattle.std.specs.Prelude.{◌≡◌, ◌∷◌, [], ◌<◌, length, IfOk, OnOk, map};
ghost use Rattle.handlebars_includes.specs.Graph.{AddsPages, ArePages, AreUnreached, MarksIncluded, MarksReached, inclusions_at, targets};
ghost use Rattle.handlebars_includes.specs.Reaching.{AddsPage, MarksOthers};
ghost use Rattle.handlebars_includes.specs.View.{graph_view, inclusion_view, rows};

use crate::includes::{Includes, Inclusion};
use crate::reach::{no_marks, reach, unmarked};
use std::alloc::{AllocError, Global};

/// Marks what is reached from these templates.
///
/// # Errors
///
/// Fails if memory runs out.
pub fn reached(
    alloc: Global,
    starts: &[usize],
    graph: &[Vec<Inclusion>],
) -> Result<Vec<bool>, AllocError>
    ensures { IfOk result (λ marks. MarksReached (rows graph.now) starts.now marks.items) }
{
    let mut marks = no_marks(alloc, graph)?;
    'starts: for start in starts {
        reach(alloc, *start, graph, &mut marks)?;
    }
    Ok(marks)
}

fn mark_other(index: usize, target: usize, marks: &mut Vec<bool>)
    ensures { MarksOthers index (target ∷ []) marks.old.items marks.new.items }
{
    if target != index && target < marks.len() {
        marks[target] = true;
    }
}

fn mark_others(index: usize, inclusions: &[Inclusion], marks: &mut Vec<bool>)
    ensures { MarksOthers index (targets (map inclusion_view inclusions.now)) marks.old.items marks.new.items }
{
    'inclusions: for inclusion in inclusions {
        mark_other(index, inclusion.target, marks);
    }
}

// Marks each template that another one includes.
fn included(alloc: Global, graph: &[Vec<Inclusion>]) -> Result<Vec<bool>, AllocError>
    ensures { IfOk result (λ marks. MarksIncluded (rows graph.now) marks.items) }
{
    let mut marks = no_marks(alloc, graph)?;
    'graph: for (index, inclusions) in graph.iter().enumerate() {
        mark_others(index, inclusions, &mut marks);
    }
    Ok(marks)
}

// Adds a template that isn't reached from the pages before it, and marks what it reaches.
fn add_page(
    alloc: Global,
    index: usize,
    graph: &[Vec<Inclusion>],
    marks: &mut Vec<bool>,
    pages: &mut Vec<usize>,
) -> Result<(), AllocError>
    ensures { OnOk result (MarksReached (rows graph.now) pages.old.items marks.old.items → index < length (rows graph.now)
        → AddsPage (rows graph.now) index pages.old.items pages.new.items
        × MarksReached (rows graph.now) pages.new.items marks.new.items) }
{
    if index < marks.len() && !marks[index] {
        pages.push(index)?;
        reach(alloc, index, graph, marks)?;
    }
    Ok(())
}

fn add_pages(
    alloc: Global,
    graph: &[Vec<Inclusion>],
    marks: &mut Vec<bool>,
    pages: &mut Vec<usize>,
) -> Result<(), AllocError>
    ensures { OnOk result (MarksReached (rows graph.now) pages.old.items marks.old.items
        → AddsPages (rows graph.now) 0 pages.old.items pages.new.items) }
{
    'templates: for index in 0..graph.len() {
        add_page(alloc, index, graph, marks, pages)?;
    }
    Ok(())
}

impl Includes {
    /// Returns the inclusions of a template, in the order of its source, by its index.
    pub fn inclusions(&self, index: usize) -> &[Inclusion]
        ensures { map inclusion_view result.now ≡ inclusions_at (graph_view self.now) index }
    {
        match self.graph.get(index) {
            Some(inclusions) => inclusions,
            None => &[],
        }
    }

    /// Returns the templates that are to be checked as pages, so that each is reached: those that no other one includes, in
    /// order, and then the first of those that these don't reach, and so on.
    ///
    /// Runs in time linear in the templates and their inclusions.
    ///
    /// # Errors
    ///
    /// Fails if memory runs out.
    pub fn pages(&self, alloc: Global) -> Result<Vec<usize>, AllocError>
        ensures { IfOk result (λ pages. ArePages (graph_view self.now) pages.items) }
    {
        let included = included(alloc, &self.graph)?;
        let mut pages = unmarked(alloc, &included)?;
        let mut marks = reached(alloc, &pages, &self.graph)?;
        add_pages(alloc, &self.graph, &mut marks, &mut pages)?;
        Ok(pages)
    }

    /// Returns the templates that none of these reaches, in order. One reaches itself, what it includes, and what these include.
    ///
    /// Runs in time linear in the templates and their inclusions.
    ///
    /// # Errors
    ///
    /// Fails if memory runs out.
    pub fn unreached_from(&self, alloc: Global, starts: &[usize]) -> Result<Vec<usize>, AllocError>
        ensures { IfOk result (λ v. AreUnreached (graph_view self.now) starts.now v.items) }
    {
        let marks = reached(alloc, starts, &self.graph)?;
        unmarked(alloc, &marks)
    }
}
