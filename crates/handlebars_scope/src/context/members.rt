//! Members of values, name by name.

ghost use Rattle.std.specs.Prelude.{◌≡◌, ◌≤◌, ◌++◌, ◌<◌, None, Some, IfSome, length, option_map, string_bytes};
ghost use Rattle.std.specs.Char.{digit_value};
ghost use Rattle.serde_json.specs.View.{view};
ghost use Rattle.handlebars_base.specs.PathView.{segments_of};
ghost use Rattle.handlebars_scope.specs.Resolve.{if_any, index_of, member_at, names_of, value_at};
ghost use Rattle.handlebars_scope.specs.ResolutionView.{names_in, reached_of};

use crate::context::reached::Reached;
use handlebars_base::json::path::PathSeg;
use handlebars_base::json::value::Json;

/// Returns what names lead to from a node, or why there is no value, and the number of members that are looked up, at most
/// one for each name. The names are those of what is bound below the node, and then those of segments.
#[inline(always)]
pub fn enter<'v, 'n>(
    node: &'v Json,
    bound: &'n [String],
    rest: &'n [PathSeg],
) -> (Reached<'v, 'n>, usize)
    ensures reached { reached_of result.0
        ≡ value_at (view node.now) (names_in bound.now ++ names_of (segments_of rest.now)) }
    ensures looked_up { result.1 ≤ length (names_in bound.now ++ names_of (segments_of rest.now)) }
{
    match along_names(node, bound) {
        (Reached::Value(at_bound), first) => {
            let (reached, further) = along_segments(at_bound, rest);
            (reached, first.saturating_add(further))
        }
        stopped => stopped,
    }
}

/// Returns what names lead to, and the number of members that are looked up.
#[inline(always)]
pub fn along_names<'v, 'n>(given: &'v Json, names: &'n [String]) -> (Reached<'v, 'n>, usize)
    ensures reached { reached_of result.0 ≡ value_at (view given.now) (names_in names.now) }
    ensures looked_up { result.1 ≤ length (names_in names.now) }
{
    let mut here = given;
    for (index, name) in names.iter().enumerate() {
        match value_by_name(here, name) {
            Some(next) => here = next,
            None => return (unreached(here, name), index + 1),
        }
    }
    (Reached::Value(here), names.len())
}

/// Returns what the names of segments lead to, and the number of members that are looked up. Other segments add nothing.
#[inline(always)]
pub fn along_segments<'v, 'n>(given: &'v Json, segments: &'n [PathSeg]) -> (Reached<'v, 'n>, usize)
    ensures reached { reached_of result.0 ≡ value_at (view given.now) (names_of (segments_of segments.now)) }
    ensures looked_up { result.1 ≤ length (names_of (segments_of segments.now)) }
{
    let mut here = given;
    let mut looked_up: usize = 0;
    for segment in segments {
        match segment {
            PathSeg::Named(name) => {
                looked_up = looked_up.saturating_add(1);
                match value_by_name(here, name) {
                    Some(next) => here = next,
                    None => return (unreached(here, name), looked_up),
                }
            }
            PathSeg::Ruled(_) => {}
        }
    }
    (Reached::Value(here), looked_up)
}

/// Returns the value that one name leads to, if there is one. A name that isn't an index of an array counts as missing.
pub fn value_by_name<'v>(value: &'v Json, name: &String) -> Option<&'v Json>
    ensures { option_map (λ v. view v.now) result ≡ if_any (member_at (view value.now) (string_bytes name.now)) }
{
    match value {
        Json::Array(_) => match index_of(name.as_str()) {
            Some(index) => value.get(index),
            None => None,
        },
        Json::Object(_) => value.get(name.as_str()),
        _ => None,
    }
}

// Returns why one name leads to no value.
#[inline(never)]
fn unreached<'v, 'n>(value: &'v Json, name: &'n String) -> Reached<'v, 'n>
    ensures { if_any (member_at (view value.now) (string_bytes name.now)) ≡ None
        → reached_of result ≡ member_at (view value.now) (string_bytes name.now) }
{
    match value {
        Json::Array(_) => match index_of(name.as_str()) {
            Some(_) => Reached::Nothing,
            None => Reached::NoIndex(name.as_str()),
        },
        _ => Reached::Nothing,
    }
}

fn index_of(text: &str) -> Option<usize>
    ensures { result ≡ index_of text.now }
{
    match short_index(text.as_bytes()) {
        Some(index) => Some(index),
        None => text.parse::<usize>().ok(),
    }
}

// Returns the index of a name of one to four digits, as is usual.
fn short_index(name: &[u8]) -> Option<usize>
    ensures { IfSome result (λ index. index_of name.now ≡ Some index) }
{
    match name {
        [ones] => digit(*ones),
        [tens, ones] => Some(digit(*tens)? * 10 + digit(*ones)?),
        [hundreds, tens, ones] => {
            Some((digit(*hundreds)? * 10 + digit(*tens)?) * 10 + digit(*ones)?)
        }
        [thousands, hundreds, tens, ones] => {
            let hundreds = digit(*thousands)? * 10 + digit(*hundreds)?;
            Some((hundreds * 10 + digit(*tens)?) * 10 + digit(*ones)?)
        }
        _ => None,
    }
}

// Returns the value of an ASCII digit.
fn digit(byte: u8) -> Option<usize>
    ensures { IfSome result (λ value. (value ≡ digit_value byte) × (value < 10)) }
{
    match byte {
        b'0'..=b'9' => Some((byte - b'0') as usize),
        _ => None,
    }
}
