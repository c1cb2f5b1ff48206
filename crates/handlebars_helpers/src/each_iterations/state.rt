//! The fields of `Iterations`. The contracts of its functions name this type, so they are in another file.

ghost use Rattle.std.specs.Prelude.{◌≡◌, ℕ, ◌+◌, MatchOption, option_map};
ghost use Rattle.handlebars_helpers.specs.IterationsLeft.{left_count, left_iterations, iteration_at, iterations_with};

use handlebars_base::json::value::Json;
use std::collections::btree_map;
use std::slice;

/// The iterations of `each` that are left: one for each member of an array, or of an object in order of key.
#[derive(Drop)]
pub struct Iterations<'h> {
    // the index of the next iteration
    pub(super) index: usize,
    // the number of all iterations, with those that were taken
    pub(super) count: usize,
    pub(super) left: MembersLeft<'h>,
    ghost counted: { index + left_count left ≡ count },
}

#[derive(Drop)]
pub(super) enum MembersLeft<'h> {
    OfArray(slice::Iter<'h, Json>),
    OfObject(btree_map::Iter<'h, String, Json>),
}

impl<'h> MembersLeft<'h> {
    // The next member, with its key, if it is one of an object.
    #[inline(always)]
    pub(super) fn next(&mut self) -> Option<(Option<&'h str>, &'h Json)>
        ensures iterations { (n i : ℕ) → left_iterations n i self.old
            ≡ iterations_with (option_map (iteration_at n i) result) (left_iterations n (i + 1) self.new) }
        ensures count { MatchOption result (left_count self.new ≡ left_count self.old)
            (λ m. left_count self.old ≡ left_count self.new + 1) }
    {
        match self {
            MembersLeft::OfArray(items) => {
                let member = items.next()?;
                Some((None, member))
            }
            MembersLeft::OfObject(members) => {
                let (key, member) = members.next()?;
                Some((Some(key.as_str()), member))
            }
        }
    }
}
