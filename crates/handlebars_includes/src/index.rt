//! Where a template is, by its name.

ghost use Rattle.std.specs.Prelude.{◌≡◌, ℕ, List, IfOk, map};
ghost use Rattle.std.specs.BTreeMap.{get_by};
ghost use Rattle.std.specs.Cmp.Lexicographic.{slice_cmp};
ghost use Rattle.std.specs.Ordering.{nat_cmp};
ghost use Rattle.handlebars_includes.specs.Graph as graph;
ghost use Rattle.handlebars_includes.specs.View.{name_of};

use crate::template::NamedTemplate;
use std::alloc::{AllocError, Global};
use std::collections::BTreeMap;

/// Returns the index of each name. Of equal names the last one counts.
///
/// # Errors
///
/// Fails if memory runs out.
pub fn index<'t>(
    alloc: Global,
    templates: &[NamedTemplate<'t>],
) -> Result<BTreeMap<&'t str, usize>, AllocError>
    ensures { IfOk result (λ m. (n : List ℕ) → get_by (λ k. slice_cmp nat_cmp n k.now) m
        ≡ graph.index_of (map name_of templates.now) n) }
{
    let mut index = BTreeMap::new(alloc);
    'templates: for (i, named) in templates.iter().enumerate() {
        index.insert(named.name, i)?;
    }
    Ok(index)
}
