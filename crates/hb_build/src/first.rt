//! The first pass: the names of all items.

ghost use Rattle.std.specs.Prelude.{◌≡◌, false, true, IfErr, IfOk, OnOk, None, Some, string_bytes};
ghost use Rattle.hb_build.specs.Given.{IfFault};
ghost use Rattle.hb_build.specs.Name.{names_of};
ghost use Rattle.hb_build.specs.Passes.{IsFirstPass, IsPagesError};
ghost use Rattle.hb_build.specs.declared.source.Failure.{Failure};

use crate::error::BuildError;
use crate::source::Pages;
use std::alloc::Global;

/// Returns the names of all items, in order. Needs memory for them alone.
pub fn collect_names<P: Pages>(alloc: Global, pages: &mut P) -> Result<Vec<String>, BuildError>
    ensures ok { IfOk result (λ names. IsFirstPass P.Pages pages.old (names_of names.items) pages.new) }
    ensures err { IfErr result (IsPagesError P.Pages pages.old pages.new) }
{
    rewind(pages)?;
    let mut names = Vec::new(alloc);
    for item in 0..u64::MAX {
        if !advance(pages, item)? {
            return Ok(names);
        }
        names.push(current_name(pages, item)?)?;
    }
    Err(BuildError::OutOfMemory)
}

/// Goes back to before the first item.
pub fn rewind<P: Pages>(pages: &mut P) -> Result<(), BuildError>
    ensures ok { OnOk result (P.rewinds pages.old true pages.new) }
    ensures err { IfErr result (λ e. (cause : Failure) × (e ≡ BuildError.Items 0 cause) × IfFault cause (P.rewinds pages.old false pages.new)) }
{
    match pages.rewind() {
        Ok(()) => Ok(()),
        Err(cause) => Err(BuildError::Items { item: 0, cause }),
    }
}

/// Goes to the item of this number. Returns whether there is one.
pub fn advance<P: Pages>(pages: &mut P, item: u64) -> Result<bool, BuildError>
    ensures ok { IfOk result (λ more. P.advances pages.old (Some more) pages.new) }
    ensures err { IfErr result (λ e. (cause : Failure) × (e ≡ BuildError.Items item cause) × IfFault cause (P.advances pages.old None pages.new)) }
{
    match pages.advance() {
        Ok(more) => Ok(more),
        Err(cause) => Err(BuildError::Items { item, cause }),
    }
}

/// Returns the name of the current item, which has this number.
pub fn current_name<P: Pages>(pages: &P, item: u64) -> Result<String, BuildError>
    ensures ok { IfOk result (λ name. P.names pages.now (Some (string_bytes name))) }
    ensures err { IfErr result (λ e. (cause : Failure) × (e ≡ BuildError.Name item cause) × IfFault cause (P.names pages.now None)) }
{
    match pages.name() {
        Ok(name) => Ok(name),
        Err(cause) => Err(BuildError::Name { item, cause }),
    }
}
