//! Items of a list that a path leads to.

ghost use Rattle.std.specs.Prelude.{◌≡◌, ◌-◌, Some, map, string_bytes};
ghost use Rattle.handlebars_scope.specs.Contexts.{data_of};
ghost use Rattle.hb.specs.Advances.{AdvancesPath, RestartsPath, names_in};
ghost use Rattle.hb.specs.Frames.{within_at};

use crate::frame::at_member;
use crate::items::Items;
use handlebars::{Context, RenderContext};
use hb_command::failure::Failure;
use std::alloc::{AllocError, Global};

/// The members of a list in the data. The templates of an item are rendered over all of the data, in a scope frame at the item.
#[derive(Drop)]
pub struct PathItems<'l> {
    data: &'l Context,
    // The names that lead to the list.
    names: &'l [String],
    count: u64,
    // The number of the current item, from 1; 0 before the first one.
    number: u64,
}

impl<'l> PathItems<'l> {
    /// Returns the items of a list of so many members, to which these names lead, before the first one.
    pub fn new(data: &'l Context, names: &'l [String], count: u64) -> PathItems<'l>
        ensures over { data_of result.«data».now ≡ data_of «data».now }
        ensures names { names_in result ≡ map string_bytes names.now }
        ensures count { result.count ≡ count }
        ensures number { result.number ≡ 0 }
    {
        PathItems {
            data,
            names,
            count,
            number: 0,
        }
    }
}

impl Items for PathItems<'_> {
    ghost rewinds = { RestartsPath };

    ghost advances = { AdvancesPath };

    ghost skips = { AdvancesPath };

    ghost given = { λ s. Some (data_of s.«data».now) };

    ghost begins = { λ s. within_at (names_in s) (s.number - 1) s.count };

    fn rewind(&mut self) -> Result<(), Failure> {
        self.number = 0;
        Ok(())
    }

    fn advance(&mut self) -> Result<bool, Failure> {
        if self.number < self.count {
            self.number += 1;
            Ok(true)
        } else {
            Ok(false)
        }
    }

    fn skip(&mut self) -> Result<bool, Failure> {
        self.advance()
    }

    fn data(&self) -> Option<&Context> {
        Some(self.data)
    }

    fn context(&self, alloc: Global) -> Result<RenderContext, AllocError> {
        at_member(alloc, self.names, self.number.saturating_sub(1), self.count)
    }
}
