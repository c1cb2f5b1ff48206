//! One file.

ghost use Rattle.std.specs.Prelude.{◌≡◌, ◌≢◌, ◌<◌, ◌↔◌, false, IfErr, IfOk, IsTrue, OnErr, OnOk, length, slice_index, take};
ghost use Rattle.hb_build.specs.Entries.{HasFolders, IsFolderOrFree, MakesFolders, Text, Writes, WritesUnless, file, folder};
ghost use Rattle.hb_build.specs.Items.{failed, fate_of};
ghost use Rattle.hb_build.specs.Name.{IsAcceptable, IsFolderOf, Name};
ghost use Rattle.hb_build.specs.Passes.{Changes, HasNoFolder, IsPreserved, IsPlaced, IsStoreCause, IsWayCause};
ghost use Rattle.hb_build.specs.declared.outcome.Cause.{Cause};

use crate::files::Store;
use crate::look::{has_file, has_folder};
use crate::outcome::{Cause, Outcome};

/// Makes a file hold a text, unless it does. In a dry run, only finds out what would become of it.
pub fn place<S: Store>(store: &mut S, name: &str, text: &str, dry_run: bool) -> Outcome
    requires { IsAcceptable name.now }
    ensures placed { IsPlaced S.Store dry_run name.now (fate_of text.now result) store.old store.new }
    ensures failed { (cause : Cause) → result ≡ Outcome.Failed cause → IsStoreCause S.Store cause }
{
    match find_and_write(store, name, text, dry_run) {
        Ok(outcome) => outcome,
        Err(cause) => Outcome::Failed(cause),
    }
}

fn find_and_write<S: Store>(
    store: &mut S,
    name: &str,
    text: &str,
    dry_run: bool,
) -> Result<Outcome, Cause>
    requires { IsAcceptable name.now }
    ensures ok { IfOk result (λ outcome. IsPlaced S.Store dry_run name.now (fate_of text.now outcome) store.old store.new) }
    ensures built { IfOk result (λ outcome. (cause : Cause) → outcome ≢ Outcome.Failed cause) }
    ensures err { IfErr result (λ cause. IsPlaced S.Store dry_run name.now (failed cause) store.old store.new) }
    ensures failed { IfErr result (IsStoreCause S.Store) }
{
    if !has_file(store, name)? {
        write_unless(dry_run, store, name, text)?;
        return Ok(Outcome::Created);
    }
    if has_text(store, name, text)? {
        return Ok(Outcome::Unchanged);
    }
    write_unless(dry_run, store, name, text)?;
    Ok(Outcome::Changed)
}

// Returns whether a file has this text.
fn has_text<S: Store>(store: &mut S, name: &str, text: &str) -> Result<bool, Cause>
    requires { IsAcceptable name.now }
    ensures preserved { IsPreserved S.Store store.old store.new }
    ensures ok { IfOk result (λ same. S.reliable store.new → IsTrue same ↔ (S.entries store.old name.now ≡ file text.now)) }
    ensures err { IfErr result (IsWayCause S.Store ⊥ ⊥) }
{
    match store.has_text(name, text) {
        Ok(same) => Ok(same),
        Err(cause) => Err(Cause::Store(cause)),
    }
}

fn write_unless<S: Store>(dry_run: bool, store: &mut S, name: &str, text: &str) -> Result<(), Cause>
    requires { IsAcceptable name.now }
    ensures ok { OnOk result (Changes S.Store (WritesUnless dry_run name.now text.now) store.old store.new) }
    ensures err { IfErr result (IsWayCause S.Store ⊥ (HasNoFolder S.Store store.old store.new name.now)) }
    ensures part { OnErr result (Changes S.Store (MakesFolders (λ q. IsFolderOf q name.now)) store.old store.new) }
    ensures run { OnErr result (dry_run ≡ false) }
{
    if dry_run {
        return Ok(());
    }
    write(store, name, text)
}

// Writes the file, and makes its folders before.
fn write<S: Store>(store: &mut S, name: &str, text: &str) -> Result<(), Cause>
    requires { IsAcceptable name.now }
    ensures ok { OnOk result (Changes S.Store (Writes name.now text.now) store.old store.new) }
    ensures err { IfErr result (IsWayCause S.Store ⊥ (HasNoFolder S.Store store.old store.new name.now)) }
    ensures part { OnErr result (Changes S.Store (MakesFolders (λ q. IsFolderOf q name.now)) store.old store.new) }
{
    make_folders(store, name)?;
    match store.replace(name, text) {
        Ok(()) => Ok(()),
        Err(cause) => Err(Cause::Store(cause)),
    }
}

// Makes the folders of a name that are not there.
fn make_folders<S: Store>(store: &mut S, name: &str) -> Result<(), Cause>
    requires { IsAcceptable name.now }
    ensures made { Changes S.Store (MakesFolders (λ q. IsFolderOf q name.now)) store.old store.new }
    ensures ok { OnOk result (S.reliable store.new → HasFolders (S.entries store.new) name.now) }
    ensures err { IfErr result (IsWayCause S.Store ⊥ (HasNoFolder S.Store store.old store.new name.now)) }
{
    for end in 0..name.len() {
        make_folder_before(store, name, end)?;
    }
    Ok(())
}

// Makes the folder before the `/` at `end`, if there is a `/`. The folders that contain it are there.
fn make_folder_before<S: Store>(store: &mut S, name: &str, end: usize) -> Result<(), Cause>
    requires acceptable { IsAcceptable name.now }
    requires within { end < length name.now }
    requires folders { S.reliable store.old → (f : Name) → IsFolderOf f name.now → length f < end → S.entries store.old f ≡ folder }
    ensures made { Changes S.Store (MakesFolders (λ q. IsFolderOf q name.now)) store.old store.new }
    ensures ok { OnOk result (S.reliable store.new → slice_index name.now end ≡ 47 → S.entries store.new (take end name.now) ≡ folder) }
    ensures err { IfErr result (IsWayCause S.Store ⊥ (HasNoFolder S.Store store.old store.new name.now)) }
{
    if name.as_bytes()[end] != b'/' {
        return Ok(());
    }
    make_folder(store, &name[..end])
}

// Makes a folder, unless it is there. The folders that contain it are there.
fn make_folder<S: Store>(store: &mut S, path: &str) -> Result<(), Cause>
    requires acceptable { IsAcceptable path.now }
    requires folders { S.reliable store.old → HasFolders (S.entries store.old) path.now }
    ensures made { Changes S.Store (MakesFolders (λ q. q ≡ path.now)) store.old store.new }
    ensures ok { OnOk result (S.reliable store.new → S.entries store.new path.now ≡ folder) }
    ensures err { IfErr result (IsWayCause S.Store ⊥ (S.reliable store.new → IsFolderOrFree (S.entries store.old path.now) → ⊥)) }
{
    if has_folder(store, path)? {
        return Ok(());
    }
    match store.make_folder(path) {
        Ok(()) => Ok(()),
        Err(cause) => Err(Cause::Store(cause)),
    }
}
