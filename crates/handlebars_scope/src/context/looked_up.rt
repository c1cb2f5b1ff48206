//! The number of members of the data that are looked up.

use std::cell::Cell;

/// A count of the members that are looked up. It saturates at 2^64 - 1.
#[derive(Drop)]
pub struct LookedUp {
    members: Cell<u64>,
}

impl LookedUp {
    /// Creates a count of zero.
    pub fn new() -> LookedUp {
        LookedUp {
            members: Cell::new(0),
        }
    }

    /// Adds this many members to the count.
    pub fn add(&self, members: usize) {
        self.members
            .set(self.members.get().saturating_add(members as u64));
    }

    /// Returns the count.
    pub fn members(&self) -> u64 {
        self.members.get()
    }
}
