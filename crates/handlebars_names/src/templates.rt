//! The registered templates, found by their names.

ghost use Rattle.std.specs.Prelude.{◌≡◌, ℕ, List, IfOk, is_some, map};
ghost use Rattle.std.specs.BTreeMap.{get_by};
ghost use Rattle.std.specs.Cmp.Lexicographic.{slice_cmp};
ghost use Rattle.std.specs.Ordering.{nat_cmp};
ghost use Rattle.handlebars_html.specs.Ascii as definitions;
ghost use Rattle.handlebars_names.specs.TemplateNames.{name_of_template};

use handlebars_html::search::NamedTemplate;
use std::alloc::{AllocError, Global};
use std::collections::BTreeMap;

/// The registered templates, with the place of each name among them.
#[derive(Drop)]
pub struct Templates<'a, 't> {
    list: &'a [NamedTemplate<'t>],
    places: BTreeMap<&'t str, usize>,
    ghost placed: { (n : List ℕ) → is_some (get_by (λ k. slice_cmp nat_cmp n k.now) places)
        ≡ definitions.is_one_of (map name_of_template list.now) n },
}

impl<'a, 't> Templates<'a, 't> {
    /// Returns these templates, each found by its name.
    ///
    /// # Errors
    ///
    /// Fails if memory runs out.
    pub fn new(
        alloc: Global,
        list: &'a [NamedTemplate<'t>],
    ) -> Result<Templates<'a, 't>, AllocError>
        ensures { IfOk result (λ t. t.list.now ≡ list.now) }
    {
        let places = places_of(alloc, list)?;
        Ok(Templates { list, places })
    }

    /// Returns the templates, in their order.
    pub fn list(&self) -> &'a [NamedTemplate<'t>]
        ensures { result.now ≡ self.now.list.now }
    {
        self.list
    }

    /// Returns whether a template is registered under this name.
    pub fn has(&self, name: &str) -> bool
        ensures { result ≡ definitions.is_one_of (map name_of_template self.now.list.now) name.now }
    {
        self.places.contains_key(name)
    }

    /// Returns the template of this name, if there is one.
    pub fn find(&self, name: &str) -> Option<NamedTemplate<'t>> {
        let place = *self.places.get(name)?;
        self.list.get(place).copied()
    }
}

// The place of each name.
fn places_of<'t>(
    alloc: Global,
    list: &[NamedTemplate<'t>],
) -> Result<BTreeMap<&'t str, usize>, AllocError>
    ensures { IfOk result (λ m. (n : List ℕ) → is_some (get_by (λ k. slice_cmp nat_cmp n k.now) m)
        ≡ definitions.is_one_of (map name_of_template list.now) n) }
{
    let mut places = BTreeMap::new(alloc);
    'templates: for (place, named) in list.iter().enumerate() {
        places.insert(named.name, place)?;
    }
    Ok(places)
}
