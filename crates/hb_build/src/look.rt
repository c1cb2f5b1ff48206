//! What is in the way of files.

ghost use Rattle.std.specs.Prelude.{◌≡◌, ◌<◌, All, IfErr, IfOk, MatchBool, OnOk, Some, length, slice_get, slice_index, take};
ghost use Rattle.hb_build.specs.Entries.{IsClear, IsFileOrFree, IsFolderOrFree, file, folder, nothing, Text};
ghost use Rattle.hb_build.specs.Name.{IsAcceptable, names_of};
ghost use Rattle.hb_build.specs.Passes.{AreClear, IsInShard, IsInTheWay, IsPreserved, IsNotAFile, IsWayCause, IsWayError, HasNoFolder};

use crate::error::BuildError;
use crate::files::{Standing, Store};
use crate::options::Shard;
use crate::outcome::Cause;
use std::alloc::Global;

/// Checks that nothing is in the way of the files of a shard. Changes nothing.
pub fn check_ways<S: Store>(
    alloc: Global,
    store: &mut S,
    names: &[String],
    shard: &Shard,
) -> Result<(), BuildError>
    requires { All IsAcceptable (names_of names.now) }
    ensures preserved { IsPreserved S.Store store.old store.new }
    ensures ok { OnOk result (S.reliable store.new → AreClear shard.now (S.entries store.old) (names_of names.now)) }
    ensures err { IfErr result (IsWayError S.Store shard.now store.old store.new (names_of names.now)) }
{
    for (item, name) in names.iter().enumerate() {
        check_item(alloc, store, item as u64, name.as_str(), shard)?;
    }
    Ok(())
}

// Checks that nothing is in the way of an item's file, if the item is of the shard.
fn check_item<S: Store>(
    alloc: Global,
    store: &mut S,
    item: u64,
    name: &str,
    shard: &Shard,
) -> Result<(), BuildError>
    requires { IsAcceptable name.now }
    ensures preserved { IsPreserved S.Store store.old store.new }
    ensures ok { OnOk result (S.reliable store.new → IsInShard shard.now item → IsClear (S.entries store.old) name.now) }
    ensures err { IfErr result (λ e. (names : _) → slice_get names item ≡ Some name.now
        → IsWayError S.Store shard.now store.old store.new names e) }
{
    if !shard.takes(item) {
        return Ok(());
    }
    match check_way(store, name) {
        Ok(()) => Ok(()),
        Err(cause) => {
            let name = String::from_str(alloc, name)?;
            Err(BuildError::Failed { item, name, cause })
        }
    }
}

// Checks that nothing is in the way of a file.
fn check_way<S: Store>(store: &mut S, name: &str) -> Result<(), Cause>
    requires { IsAcceptable name.now }
    ensures preserved { IsPreserved S.Store store.old store.new }
    ensures ok { OnOk result (S.reliable store.new → IsClear (S.entries store.old) name.now) }
    ensures err { IfErr result (IsInTheWay S.Store store.old store.new name.now) }
{
    for end in 0..name.len() {
        check_folder(store, name, end)?;
    }
    has_file(store, name)?;
    Ok(())
}

// Checks, if the name has a `/` at `end`, that nothing is in the way of the folder before it.
fn check_folder<S: Store>(store: &mut S, name: &str, end: usize) -> Result<(), Cause>
    requires acceptable { IsAcceptable name.now }
    requires within { end < length name.now }
    ensures preserved { IsPreserved S.Store store.old store.new }
    ensures ok { OnOk result (S.reliable store.new → slice_index name.now end ≡ 47
        → IsFolderOrFree (S.entries store.old (take end name.now))) }
    ensures err { IfErr result (IsWayCause S.Store ⊥ (HasNoFolder S.Store store.old store.new name.now)) }
{
    if name.as_bytes()[end] != b'/' {
        return Ok(());
    }
    has_folder(store, &name[..end])?;
    Ok(())
}

/// Returns whether a folder is there. Fails if something else is.
pub fn has_folder<S: Store>(store: &mut S, path: &str) -> Result<bool, Cause>
    requires { IsAcceptable path.now }
    ensures preserved { IsPreserved S.Store store.old store.new }
    ensures ok { IfOk result (λ there. S.reliable store.new
        → MatchBool there (S.entries store.old path.now ≡ folder) (S.entries store.old path.now ≡ nothing)) }
    ensures err { IfErr result (IsWayCause S.Store ⊥ (S.reliable store.new → IsFolderOrFree (S.entries store.old path.now) → ⊥)) }
{
    match store.look(path) {
        Ok(Standing::Folder) => Ok(true),
        Ok(Standing::Nothing) => Ok(false),
        Ok(_) => Err(Cause::NotAFolder),
        Err(cause) => Err(Cause::Store(cause)),
    }
}

/// Returns whether a file is there. Fails if something else is.
pub fn has_file<S: Store>(store: &mut S, path: &str) -> Result<bool, Cause>
    requires { IsAcceptable path.now }
    ensures preserved { IsPreserved S.Store store.old store.new }
    ensures ok { IfOk result (λ there. S.reliable store.new
        → MatchBool there ((text : Text) × (S.entries store.old path.now ≡ file text)) (S.entries store.old path.now ≡ nothing)) }
    ensures err { IfErr result (IsWayCause S.Store (IsNotAFile S.Store store.old store.new path.now) ⊥) }
{
    match store.look(path) {
        Ok(Standing::File) => Ok(true),
        Ok(Standing::Nothing) => Ok(false),
        Ok(_) => Err(Cause::NotAFile),
        Err(cause) => Err(Cause::Store(cause)),
    }
}
