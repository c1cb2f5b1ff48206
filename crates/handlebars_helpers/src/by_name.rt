//! Entries by name.

ghost use Rattle.std.specs.Prelude.{◌≡◌, ◌<◌, IfOk, None, OnErr, OnOk, Some, is_some, length, option_map, string_bytes, true};
ghost use Rattle.std.specs.BTreeSet.{contains_text};
ghost use Rattle.std.specs.HashMap.{get_by_text};
ghost use Rattle.handlebars_base.specs.Bytes.{Text};
ghost use Rattle.handlebars_helpers.specs.Marks.{is_marked, bucket_of};

use std::alloc::{AllocError, Global};
use std::collections::{BTreeSet, HashMap};

/// Entries by name, of helpers or of decorators. A rendering looks up a helper for each name that it reaches, which takes
/// constant time on average. Most names have none. The marks usually show that without a hash of the name.
#[derive(Drop)]
pub struct ByName<E> {
    by_name: HashMap<String, E>,
    // The marked buckets: those of all names that have an entry, and of some that had one.
    marks: [bool; 256],
    ghost marked: { (name : Text) → is_some (get_by_text by_name name) ≡ true → is_marked marks name ≡ true },
}

impl<E: Drop> ByName<E> {
    ghost use Rattle.handlebars_helpers.specs.ByNameView.{HasSame, PutsEntry, entry_at};

    /// Creates a map without entries.
    pub fn new(alloc: Global) -> ByName<E>
        ensures { (name : Text) → entry_at result name ≡ None }
    {
        ByName {
            by_name: HashMap::new(alloc),
            marks: [false; 256],
        }
    }

    /// Returns the entry under a name, if there is one. A name whose bucket isn't marked is not hashed.
    #[inline(always)]
    pub fn get(&self, name: &str) -> Option<&E>
        ensures { option_map (λ entry. entry.now) result ≡ entry_at self.now name.now }
    {
        if !self.marks[mark_index_of(name)] {
            return None;
        }
        self.search(name)
    }

    // Not inlined, unlike the caller above, which is a part of each of its callers.
    #[inline(never)]
    fn search(&self, name: &str) -> Option<&E>
        ensures { option_map (λ entry. entry.now) result ≡ entry_at self.now name.now }
    {
        self.by_name.get(name)
    }

    /// Returns all names that have an entry.
    ///
    /// # Errors
    ///
    /// Returns `AllocError` if memory runs out.
    pub fn names(&self, alloc: Global) -> Result<BTreeSet<String>, AllocError>
        ensures { IfOk result (λ names. (name : Text) → contains_text names name ≡ is_some (entry_at self.now name)) }
    {
        let mut names = BTreeSet::new(alloc);
        'entries: for (name, _) in &self.by_name {
            names.insert(name.clone()?)?;
        }
        Ok(names)
    }

    /// Inserts an entry under a name, and replaces the one that was there.
    ///
    /// # Errors
    ///
    /// Returns `AllocError` if memory runs out; then no entry is changed.
    pub fn insert(&mut self, name: String, entry: E) -> Result<(), AllocError>
        ensures ok { OnOk result (PutsEntry self.old self.new (string_bytes name) (Some entry)) }
        ensures err { OnErr result (HasSame self.old self.new) }
    {
        mark(&mut self.marks, &name);
        self.by_name.insert(name, entry)?;
        Ok(())
    }

    /// Removes the entry under a name, if there is one.
    pub fn remove(&mut self, name: &str)
        ensures { PutsEntry self.old self.new name.now None }
    {
        self.by_name.remove(name);
    }
}

// Marks the bucket of a name; marked buckets stay marked.
fn mark(marks: &mut [bool; 256], name: &str)
    ensures marked { is_marked marks.new name.now ≡ true }
    ensures unchanged { (other : Text) → is_marked marks.old other ≡ true → is_marked marks.new other ≡ true }
    ensures length { length marks.new ≡ 256 }
{
    marks[mark_index_of(name)] = true;
}

// The bucket of a name. Names with different first letters mostly have different buckets, and so have names
// with different second letters: `id`, which most templates use, is not hashed merely because there is an `if`.
fn mark_index_of(name: &str) -> usize
    ensures mark_index { result ≡ bucket_of name.now }
    ensures within { result < 256 }
{
    let letters = match name.as_bytes() {
        [first, second, ..] => usize::from(*first) + 3 * usize::from(*second),
        [first] => usize::from(*first),
        [] => 0,
    };
    (letters + 64 * (name.len() % 4)) % 256
}
