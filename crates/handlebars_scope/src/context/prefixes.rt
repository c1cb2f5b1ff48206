//! Lookup of a name under the prefixes of a base path, as recursive lookup does it.

ghost use Rattle.std.specs.Prelude.{◌≡◌, ◌≤◌, IfSome, length, option_map, string_bytes};
ghost use Rattle.serde_json.specs.View.{view};
ghost use Rattle.handlebars_scope.specs.Resolve.{if_any, longest, member_at, or_else};
ghost use Rattle.handlebars_scope.specs.ResolutionView.{hit_of, names_in};

use crate::context::members::value_by_name;
use handlebars_base::json::value::Json;

/// Returns what a name leads to under the longest prefix of a base path that has it, and the number of names in that prefix.
/// Walks the path once, and remembers what the name leads to until a longer prefix has it.
pub fn longest<'a>(given: &'a Json, base: &[String], name: &String) -> Option<(usize, &'a Json)>
    ensures longest { option_map hit_of result
        ≡ longest (view given.now) (names_in base.now) (string_bytes name.now) }
    ensures retained { IfSome result (λ hit. hit.0 ≤ length base.now) }
{
    let mut here = given;
    let mut best = None;
    for (retained, link) in base.iter().enumerate() {
        best = hit_at(here, name, retained, best);
        match value_by_name(here, link) {
            Some(next) => here = next,
            None => return best,
        }
    }
    hit_at(here, name, base.len(), best)
}

// Returns what the name leads to from here, after this many names, or what was found before.
fn hit_at<'a>(
    here: &'a Json,
    name: &String,
    retained: usize,
    before: Option<(usize, &'a Json)>,
) -> Option<(usize, &'a Json)>
    ensures { option_map hit_of result
        ≡ or_else (option_map (λ d. (retained, d)) (if_any (member_at (view here.now) (string_bytes name.now))))
        (option_map hit_of before.entry) }
{
    match value_by_name(here, name) {
        Some(value) => Some((retained, value)),
        None => before,
    }
}
