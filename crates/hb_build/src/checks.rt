//! What is asked of the names of all items.

ghost use Rattle.std.specs.Prelude.{◌≡◌, ◌↔◌, ℕ, All, IfErr, IfOk, OnErr, OnOk, IsErrOf, None, Some, slice_get, string_bytes, length, ◌<◌};
ghost use Rattle.hb_build.specs.Name.{Name, AreAcceptable, IsAcceptable, IsFolderOf, IsNumbering, names_of};
ghost use Rattle.hb_build.specs.NameErrors.{IsNameError};
ghost use Rattle.hb_build.specs.Numbers.{number_in};

use crate::error::BuildError;
use crate::name::is_acceptable;
use std::alloc::Global;
use std::collections::BTreeMap;

/// Checks that files of these names can stand side by side. The error is about one of the names that are at fault.
///
/// Runs in time n log n, and needs memory for a map of references.
pub fn check_names(alloc: Global, names: &[String]) -> Result<(), BuildError>
    ensures ok { OnOk result (AreAcceptable (names_of names.now)) }
    ensures err { IfErr result (IsNameError (names_of names.now)) }
{
    let numbers = number_names(alloc, names)?;
    for (item, name) in names.iter().enumerate() {
        check_folders(alloc, &numbers, item as u64, name.as_str())?;
    }
    Ok(())
}

// The number of each name. The names are acceptable, and no two are equal.
fn number_names<'a>(
    alloc: Global,
    names: &'a [String],
) -> Result<BTreeMap<&'a str, u64>, BuildError>
    ensures numbered { IfOk result (λ numbers. IsNumbering (names_of names.now) (number_in numbers)) }
    ensures acceptable { OnOk result (All IsAcceptable (names_of names.now)) }
    ensures err { IfErr result (IsNameError (names_of names.now)) }
{
    let mut numbers = BTreeMap::new(alloc);
    for (item, name) in names.iter().enumerate() {
        check_name(alloc, item as u64, name.as_str())?;
        if let Some(first) = numbers.insert(name.as_str(), item as u64)? {
            return Err(BuildError::Twice {
                first,
                second: item as u64,
                name: String::from_str(alloc, name.as_str())?,
            });
        }
    }
    Ok(numbers)
}

fn check_name(alloc: Global, item: u64, name: &str) -> Result<(), BuildError>
    ensures ok { OnOk result (IsAcceptable name.now) }
    ensures err { IfErr result (λ e. (names : _) → slice_get names item ≡ Some name.now → IsNameError names e) }
{
    if is_acceptable(name) {
        return Ok(());
    }
    let name = String::from_str(alloc, name)?;
    Err(BuildError::Unacceptable { item, name })
}

// Checks that no folder of a name is the name of another item's file.
fn check_folders(
    alloc: Global,
    numbers: &BTreeMap<&str, u64>,
    item: u64,
    name: &str,
) -> Result<(), BuildError>
    ensures ok { OnOk result ((f : Name) → IsFolderOf f name.now → number_in numbers.now f ≡ None) }
    ensures err { IfErr result (λ e. (names : _) → IsNumbering names (number_in numbers.now) → slice_get names item ≡ Some name.now → IsNameError names e) }
{
    for (end, byte) in name.as_bytes().iter().enumerate() {
        if *byte == b'/' {
            let folder = &name[..end];
            if let Some(file) = numbers.get(folder) {
                return Err(BuildError::FileAndFolder {
                    file: *file,
                    within: item,
                    name: String::from_str(alloc, folder)?,
                });
            }
        }
    }
    Ok(())
}
