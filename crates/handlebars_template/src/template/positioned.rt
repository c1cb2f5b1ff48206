//! The elements of a body, each with its position.

ghost use Rattle.std.specs.Prelude.{◌≡◌, ◌++◌, ◌∷◌, [], OnOk, length};

use crate::template::compile::TemplateOptions;
use crate::template::tree::{Template, TemplateElement, TemplateMapping};
use std::alloc::{AllocError, Global};

/// Elements and as many positions, in the same order.
pub struct PositionedElements {
    pub elements: Vec<TemplateElement>,
    pub mapping: Vec<TemplateMapping>,
    ghost as_many: { length elements.items ≡ length mapping.items },
}

impl Drop for PositionedElements {
    fn drop(self) {
        let PositionedElements {
            elements: _,
            mapping: _,
        } = self;
    }
}

impl PositionedElements {
    ghost use Rattle.handlebars_template.specs.Tree.{body};
    ghost use Rattle.handlebars_template.specs.TreeView.{tree_view, element_view, position_of};
    ghost use Rattle.handlebars_template.specs.Nest.{body_with};
    ghost use Rattle.handlebars_template.specs.NestView.{positioned_view};
    ghost use Rattle.handlebars_template.specs.Compile.{tree_of};
    ghost use Rattle.handlebars_template.specs.OptionsView.{options_view};

    /// Creates an empty list of elements.
    pub fn new(alloc: Global) -> PositionedElements
        ensures { positioned_view result ≡ [] }
    {
        PositionedElements {
            elements: Vec::new(alloc),
            mapping: Vec::new(alloc),
        }
    }

    /// Appends an element with its position. If memory runs out for the position, the element is removed again.
    #[inline(always)]
    pub fn push(
        &mut self,
        position: TemplateMapping,
        element: TemplateElement,
    ) -> Result<(), AllocError>
        ensures { OnOk result (positioned_view self.new
            ≡ positioned_view self.old ++ record { position = position_of position; element = element_view element } ∷ []) }
    {
        self.elements.push(element)?;
        if self.mapping.push(position).is_err() {
            self.elements.pop();
            return Err(AllocError);
        }
        Ok(())
    }

    /// Returns the body that the elements are.
    pub fn template(self) -> Template
        ensures { body (tree_view result) ≡ body_with (positioned_view self) }
    {
        let PositionedElements { elements, mapping } = self;
        Template {
            name: None,
            elements,
            mapping,
        }
    }

    /// Returns the tree of a whole template that the elements are, under the name of the options.
    pub fn named_tree(self, options: TemplateOptions) -> Template
        ensures { tree_view result ≡ tree_of (options_view options) (positioned_view self) }
    {
        let PositionedElements { elements, mapping } = self;
        Template {
            name: options.name,
            elements,
            mapping,
        }
    }
}
