//! Which templates are reached from others.

ghost use Rattle.std.specs.Prelude.{◌≡◌, ℕ, ◌∷◌, ◌++◌, [], List, IfOk, OnOk, map};
ghost use Rattle.handlebars_includes.specs.Graph.{MarksReached, targets, targets_at, unless_marked, unmarked_from};
ghost use Rattle.handlebars_includes.specs.Reaching.{Extends};
ghost use Rattle.handlebars_includes.specs.View.{inclusion_view, rows};

use crate::includes::Inclusion;
use std::alloc::{AllocError, Global};

fn visit(at: usize, marks: &mut Vec<bool>, pending: &mut Vec<usize>) -> Result<(), AllocError>
    ensures { OnOk result (Extends (at ∷ []) marks.old.items pending.old.items marks.new.items pending.new.items) }
{
    if at < marks.len() && !marks[at] {
        pending.push(at)?;
        marks[at] = true;
    }
    Ok(())
}

fn visit_all(
    inclusions: &[Inclusion],
    marks: &mut Vec<bool>,
    pending: &mut Vec<usize>,
) -> Result<(), AllocError>
    ensures { OnOk result (Extends (targets (map inclusion_view inclusions.now)) marks.old.items pending.old.items
        marks.new.items pending.new.items) }
{
    'inclusions: for inclusion in inclusions {
        visit(inclusion.target, marks, pending)?;
    }
    Ok(())
}

fn follow(
    at: usize,
    graph: &[Vec<Inclusion>],
    marks: &mut Vec<bool>,
    pending: &mut Vec<usize>,
) -> Result<(), AllocError>
    ensures { OnOk result (Extends (targets_at (rows graph.now) at) marks.old.items pending.old.items marks.new.items pending.new.items) }
{
    match graph.get(at) {
        Some(inclusions) => visit_all(inclusions, marks, pending),
        None => Ok(()),
    }
}

/// Marks what is reached from a template too.
///
/// # Errors
///
/// Fails if memory runs out.
pub fn reach(
    alloc: Global,
    start: usize,
    graph: &[Vec<Inclusion>],
    marks: &mut Vec<bool>,
) -> Result<(), AllocError>
    ensures { OnOk result ((starts : List ℕ) → MarksReached (rows graph.now) starts marks.old.items
        → MarksReached (rows graph.now) (starts ++ start ∷ []) marks.new.items) }
{
    let mut pending = Vec::new(alloc);
    visit(start, marks, &mut pending)?;
    'pending: while let Some(at) = pending.pop() {
        follow(at, graph, marks, &mut pending)?;
    }
    Ok(())
}

/// Returns marks of which none is set.
///
/// # Errors
///
/// Fails if memory runs out.
pub fn no_marks(alloc: Global, graph: &[Vec<Inclusion>]) -> Result<Vec<bool>, AllocError>
    ensures { IfOk result (λ marks. MarksReached (rows graph.now) [] marks.items) }
{
    let mut marks = Vec::new(alloc);
    'graph: for _inclusions in graph {
        marks.push(false)?;
    }
    Ok(marks)
}

fn push_unmarked(index: usize, mark: bool, indices: &mut Vec<usize>) -> Result<(), AllocError>
    ensures { OnOk result (indices.new.items ≡ indices.old.items ++ unless_marked mark index) }
{
    if !mark {
        indices.push(index)?;
    }
    Ok(())
}

/// Returns the indices of the marks that aren't set.
///
/// # Errors
///
/// Fails if memory runs out.
pub fn unmarked(alloc: Global, marks: &[bool]) -> Result<Vec<usize>, AllocError>
    ensures { IfOk result (λ v. v.items ≡ unmarked_from 0 marks.now) }
{
    let mut indices = Vec::new(alloc);
    'marks: for (index, mark) in marks.iter().enumerate() {
        push_unmarked(index, *mark, &mut indices)?;
    }
    Ok(indices)
}
