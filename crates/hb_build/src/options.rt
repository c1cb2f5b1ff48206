//! How files are built.

ghost use Rattle.std.specs.Prelude.{◌≡◌, ◌↔◌, ◌<◌, ◌≤◌, ◌-◌, ◌%◌, IsSome, IfSome, IsTrue};

/// How files are built.
#[derive(Clone, Copy, Debug)]
pub struct Settings {
    /// Which of the items are built. The names of all items are checked.
    pub shard: Shard,
    /// Whether to report only what would be written.
    pub dry_run: bool,
    /// Whether to go on with the next item after one has failed.
    pub keep_going: bool,
}

/// Each `count`-th item, from the `number`-th one on. With all numbers from 1 to `count`, each item is built once.
#[derive(Clone, Copy, Debug)]
pub struct Shard {
    pub number: u64,
    pub count: u64,
    ghost in_range: { (1 ≤ number) × (number ≤ count) },
}

impl Shard {
    /// Returns the shard that has all items.
    pub fn all() -> Shard
        ensures number { result.number ≡ 1 }
        ensures count { result.count ≡ 1 }
    {
        Shard {
            number: 1,
            count: 1,
        }
    }

    /// Returns the shard `number` of `count`, or `None` unless `number` is one of 1 to `count`.
    pub fn new(number: u64, count: u64) -> Option<Shard>
        ensures some { IsSome result ↔ ((1 ≤ number) × (number ≤ count)) }
        ensures number { IfSome result (λ shard. shard.number ≡ number) }
        ensures count { IfSome result (λ shard. shard.count ≡ count) }
    {
        if 1 <= number && number <= count {
            Some(Shard { number, count })
        } else {
            None
        }
    }

    /// Returns whether an item belongs to the shard. Items are counted from 0.
    pub fn takes(&self, item: u64) -> bool
        ensures { IsTrue result ↔ (item % self.now.count ≡ self.now.number - 1) }
    {
        item % self.count == self.number - 1
    }
}
