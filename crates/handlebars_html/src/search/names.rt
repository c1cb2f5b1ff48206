//! Where templates are, by their names.

ghost use Rattle.std.specs.Prelude.{◌≡◌, IfSome};
ghost use Rattle.std.specs.List.{Contains};
ghost use Rattle.handlebars_html.specs.SearchView.{template_of, templates_at};

use crate::search::{Checked, NamedTemplate};
use std::alloc::AllocError;
use std::collections::HashMap;

/// The places of templates, by their names.
#[derive(Drop)]
pub struct Names {
    places: HashMap<String, usize>,
}

impl Names {
    /// Returns the places of these templates.
    ///
    /// # Errors
    ///
    /// Fails if memory runs out.
    pub fn new(checked: Checked<'_>) -> Result<Names, AllocError> {
        let mut places = HashMap::new(checked.alloc);
        for (place, named) in checked.templates.iter().enumerate() {
            places.insert(String::from_str(checked.alloc, named.name)?, place)?;
        }
        Ok(Names { places })
    }

    /// Returns the template of a name, if there is one.
    pub fn find<'t>(&self, checked: Checked<'t>, name: &str) -> Option<NamedTemplate<'t>>
        ensures { IfSome result (λ t. Contains (templates_at checked.entry) (template_of t) × (t.name.now ≡ name.now)) }
    {
        let place = *self.places.get(name)?;
        let named = *checked.templates.get(place)?;
        if named.name == name {
            Some(named)
        } else {
            None
        }
    }
}
