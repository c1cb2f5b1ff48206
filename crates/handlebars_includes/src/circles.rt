//! Templates that include each other without end.

ghost use Rattle.std.specs.Prelude.{◌≡◌, ◌∷◌, [], ◌++◌, ◌<◌, true, false, length, IfOk, OnOk, map};
ghost use Rattle.handlebars_includes.specs.Circles as circles;
ghost use Rattle.handlebars_includes.specs.Circles.{AreCircles, CircleTags, CirclesBefore, ClosesCircle};
ghost use Rattle.handlebars_includes.specs.Graph.{Reaches};
ghost use Rattle.handlebars_includes.specs.View.{AddsTags, graph_view, inclusion_view, replaced_of, rows, tag_of};

use crate::includes::{Includes, Inclusion};
use crate::pages::reached;
use std::alloc::{AllocError, Global};

/// A tag that closes a circle: it includes a template that includes, by tags that are always rendered, the template of the tag.
#[derive(Clone, Copy)]
pub struct Circle {
    /// The index of the template that has the tag.
    pub template: usize,
    pub inclusion: Inclusion,
}

// ---- tags that are always rendered

fn push_always(inclusion: Inclusion, always: &mut Vec<Inclusion>) -> Result<(), AllocError>
    ensures { OnOk result (map inclusion_view always.new.items
        ≡ map inclusion_view always.old.items ++ circles.if_always inclusion.always (inclusion_view inclusion)) }
{
    if inclusion.always {
        always.push(inclusion)?;
    }
    Ok(())
}

fn always_among(alloc: Global, inclusions: &[Inclusion]) -> Result<Vec<Inclusion>, AllocError>
    ensures { IfOk result (λ v. map inclusion_view v.items ≡ circles.always_among (map inclusion_view inclusions.now)) }
{
    let mut always = Vec::new(alloc);
    'inclusions: for inclusion in inclusions {
        push_always(*inclusion, &mut always)?;
    }
    Ok(always)
}

fn always_in(alloc: Global, graph: &[Vec<Inclusion>]) -> Result<Vec<Vec<Inclusion>>, AllocError>
    ensures { IfOk result (λ v. rows v.items ≡ circles.always_in (rows graph.now)) }
{
    let mut always = Vec::new(alloc);
    'graph: for inclusions in graph {
        always.push(always_among(alloc, inclusions)?)?;
    }
    Ok(always)
}

// ---- circles

// Whether a template reaches another one.
fn reaches(
    alloc: Global,
    start: usize,
    end: usize,
    graph: &[Vec<Inclusion>],
) -> Result<bool, AllocError>
    ensures yes { IfOk result (λ b. b ≡ true → Reaches (rows graph.now) (start ∷ []) end) }
    ensures no { IfOk result (λ b. b ≡ false → end < length (rows graph.now) → Reaches (rows graph.now) (start ∷ []) end → ⊥) }
{
    let marks = reached(alloc, &[start], graph)?;
    match marks.get(end) {
        Some(mark) => Ok(*mark),
        None => Ok(false),
    }
}

fn add_circle(
    alloc: Global,
    template: usize,
    inclusion: Inclusion,
    graph: &[Vec<Inclusion>],
    found: &mut Vec<Circle>,
) -> Result<(), AllocError>
    ensures { OnOk result (template < length (rows graph.now)
        → AddsTags (ClosesCircle (rows graph.now) template (inclusion_view inclusion)) found.old.items found.new.items) }
{
    if inclusion.target < template && reaches(alloc, inclusion.target, template, graph)? {
        found.push(Circle {
            template,
            inclusion,
        })?;
    }
    Ok(())
}

fn add_circles(
    alloc: Global,
    template: usize,
    inclusions: &[Inclusion],
    graph: &[Vec<Inclusion>],
    found: &mut Vec<Circle>,
) -> Result<(), AllocError>
    ensures { OnOk result (template < length (rows graph.now)
        → AddsTags (CircleTags (rows graph.now) template (map inclusion_view inclusions.now)) found.old.items found.new.items) }
{
    'inclusions: for inclusion in inclusions {
        add_circle(alloc, template, *inclusion, graph, found)?;
    }
    Ok(())
}

fn circles_in(alloc: Global, graph: &[Vec<Inclusion>]) -> Result<Vec<Circle>, AllocError>
    ensures { IfOk result (λ v. CirclesBefore (rows graph.now) (length (rows graph.now)) (map tag_of v.items)) }
{
    let mut found = Vec::new(alloc);
    'graph: for (template, inclusions) in graph.iter().enumerate() {
        add_circles(alloc, template, inclusions, graph, &mut found)?;
    }
    Ok(found)
}

impl Includes {
    /// Returns the tags that close circles: each is always rendered when its template is, and includes an earlier template that
    /// includes, by such tags, that template again. Each circle has at least one, unless a template includes itself alone. There
    /// is none where an inline partial may take the place of a template.
    ///
    /// Takes, for each tag that includes an earlier template, a step for each template and for each inclusion.
    ///
    /// # Errors
    ///
    /// Fails if memory runs out.
    pub fn circles(&self, alloc: Global) -> Result<Vec<Circle>, AllocError>
        ensures { IfOk result (λ v. AreCircles (graph_view self.now) (replaced_of self.now) (map tag_of v.items)) }
    {
        if self.replaced {
            return Ok(Vec::new(alloc));
        }
        let always = always_in(alloc, &self.graph)?;
        circles_in(alloc, &always)
    }
}
