//! What is known wherever a name is included.

ghost use Rattle.std.specs.Prelude.{◌≡◌, map, option_map};
ghost use Rattle.handlebars_names.specs.NamesView.{entry_of, scope_of};
ghost use Rattle.handlebars_names.specs.Scopes as scopes;

use crate::scope::Scope;
use std::collections::BTreeMap;

/// The names that may be included, each with what is known wherever it is.
pub type Table<'t> = BTreeMap<String, Scope<'t>>;

/// Returns what is known wherever this name is included, if it is in the table.
pub fn scope_at<'a, 't>(table: &'a Table<'t>, name: &str) -> Option<&'a Scope<'t>>
    ensures { option_map (λ s. scope_of s.now) result ≡ scopes.scope_at (map entry_of table.now.entries) name.now }
{
    table.get(name)
}
