//! Lists, and what is added to them.

ghost use Rattle.std.specs.Prelude.{◌≡◌, ◌∷◌, ◌++◌, [], if◌then◌else◌, is_ok};

use std::alloc::AllocError;

/// Adds an item at the end. Unlike the method of `Vec`, it doesn't give the item back where memory runs out, so that its
/// callers have no item to drop there.
///
/// # Errors
///
/// Fails if memory runs out; then nothing is added.
pub fn push<T: Drop>(all: &mut Vec<T>, item: T) -> Result<(), AllocError>
    ensures { all.new.items ≡ (if is_ok result then all.old.items ++ item ∷ [] else all.old.items) }
{
    all.push(item)?;
    Ok(())
}
