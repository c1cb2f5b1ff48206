//! Where an element is, and what surrounds it.

ghost use Rattle.std.specs.Prelude.{◌≡◌, IfOk};
ghost use Rattle.handlebars_write.specs.LocationView.{indexes_of};

use handlebars_expand::pieces::TemplateReference;
use handlebars_template::template::TemplateMapping;
use std::alloc::{AllocError, Global};

/// The iterations of `each` around an element, innermost first.
#[derive(Clone, Copy)]
pub enum IterationsAround<'r> {
    /// No iteration is around the element.
    None,
    /// The iteration over the member of this index, from 0, and those around it.
    Within {
        index: usize,
        outer: &'r IterationsAround<'r>,
    },
}

impl IterationsAround<'_> {
    /// Returns the indexes of the iterations, outermost first.
    ///
    /// # Errors
    ///
    /// Fails if memory runs out.
    pub fn indexes(&self, alloc: Global) -> Result<Vec<usize>, AllocError>
        ensures { IfOk result (λ indexes. indexes.items ≡ indexes_of self.now) }
    {
        let mut indexes = Vec::new(alloc);
        let mut around = self;
        'outwards: while let IterationsAround::Within { index, outer } = around {
            indexes.push(*index)?;
            around = outer;
        }
        indexes.reverse();
        Ok(indexes)
    }
}

/// What is constant within a partial call.
#[derive(Clone, Copy)]
pub struct Placement<'r> {
    /// The allocator of the rendering.
    pub alloc: Global,
    /// The indentation in force, if there is one.
    pub indent: Option<&'r str>,
    /// The template that contains the tree.
    pub template: TemplateReference<'r>,
}

/// What surrounds the elements of a tree as they write.
#[derive(Clone, Copy)]
pub struct Surroundings<'r> {
    pub placement: &'r Placement<'r>,
    /// The iterations of `each` around the elements of the tree.
    pub iterations: &'r IterationsAround<'r>,
    /// The positions of the elements of the tree.
    pub mapping: &'r Vec<TemplateMapping>,
}

/// The location of an element: its tree, and its index there.
#[derive(Clone, Copy)]
pub struct ElementLocation<'r> {
    pub surroundings: &'r Surroundings<'r>,
    pub index: usize,
}
