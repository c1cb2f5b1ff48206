//! The second pass: the texts of the items of the shard.

ghost use Rattle.std.specs.Prelude.{◌≡◌, ◌≢◌, ◌⊎◌, ◌<◌, false, true, IfErr, IfOk, MatchResult, None, OnErr, OnOk, Some, [], ◌∷◌, length, slice_get, string_bytes};
ghost use Rattle.hb_build.specs.Build.{IsFailure, IsItemBuilt, IsNoEnd, IsPart, IsUnreached, IsUnskipped, IsWhole};
ghost use Rattle.hb_build.specs.Given.{IfFault};
ghost use Rattle.hb_build.specs.Entries.{Text};
ghost use Rattle.hb_build.specs.Items.{HasRoom, fate_of, is_failed};
ghost use Rattle.hb_build.specs.Name.{AreAcceptable, IsAcceptable, Name, names_of};
ghost use Rattle.hb_build.specs.Passes.{IsFate, IsPlaced};
ghost use Rattle.hb_build.specs.declared.source.Failure.{Failure};

use crate::error::BuildError;
use crate::files::Store;
use crate::first::{advance, current_name};
use crate::options::Settings;
use crate::outcome::{Cause, Outcome, Report, Summary};
use crate::place::place;
use crate::source::Pages;
use std::alloc::Global;

/// Builds each item of the shard, and reports it. Skips the others.
pub fn build_items<P: Pages, S: Store, R: Report>(
    alloc: Global,
    pages: &mut P,
    store: &mut S,
    names: &[String],
    settings: &Settings,
    report: &mut R,
) -> Result<Summary, BuildError>
    requires { AreAcceptable (names_of names.now) }
    ensures whole { IfOk result (IsWhole P.Pages S.Store R.Report settings.now (names_of names.now) pages.old pages.new store.old store.new report.old report.new) }
    ensures part { IfErr result (IsPart P.Pages S.Store R.Report settings.now (names_of names.now) pages.old pages.new store.old store.new report.old report.new) }
{
    let mut summary = Summary::new();
    for (item, name) in names.iter().enumerate() {
        if !settings.shard.takes(item as u64) {
            skip_item(pages, item as u64)?;
            continue;
        }
        reach(pages, item as u64, name.as_str())?;
        build_item(
            alloc,
            pages,
            store,
            names,
            item,
            settings,
            report,
            &mut summary,
        )?;
    }
    check_end(pages, names.len() as u64)?;
    Ok(summary)
}

// Goes to the item of this number. It has this name.
fn reach<P: Pages>(pages: &mut P, item: u64, name: &str) -> Result<(), BuildError>
    ensures advanced { OnOk result (P.advances pages.old (Some true) pages.new) }
    ensures named { OnOk result (P.names pages.new (Some name.now)) }
    ensures err { IfErr result (IsUnreached P.Pages pages.old item name.now pages.new) }
{
    if !advance(pages, item)? {
        return Err(BuildError::Renamed { item });
    }
    if current_name(pages, item)?.as_str() != name {
        return Err(BuildError::Renamed { item });
    }
    Ok(())
}

// Goes past the item of this number.
fn skip_item<P: Pages>(pages: &mut P, item: u64) -> Result<(), BuildError>
    ensures ok { OnOk result (P.skips pages.old (Some true) pages.new) }
    ensures err { IfErr result (IsUnskipped P.Pages pages.old item pages.new) }
{
    if !skip(pages, item)? {
        return Err(BuildError::Renamed { item });
    }
    Ok(())
}

// Checks that there are as many items as there were.
fn check_end<P: Pages>(pages: &mut P, items: u64) -> Result<(), BuildError>
    ensures ok { OnOk result (P.skips pages.old (Some false) pages.new) }
    ensures err { IfErr result (IsNoEnd P.Pages pages.old items pages.new) }
{
    if skip(pages, items)? {
        return Err(BuildError::Renamed { item: items });
    }
    Ok(())
}

// Goes past the item of this number, if there is one. Returns whether there was one.
fn skip<P: Pages>(pages: &mut P, item: u64) -> Result<bool, BuildError>
    ensures ok { IfOk result (λ there. P.skips pages.old (Some there) pages.new) }
    ensures err { IfErr result (λ e. (cause : Failure) × (e ≡ BuildError.Items item cause) × IfFault cause (P.skips pages.old None pages.new)) }
{
    match pages.skip() {
        Ok(there) => Ok(there),
        Err(cause) => Err(BuildError::Items { item, cause }),
    }
}

// Builds the current item, which has this number.
fn build_item<P: Pages, S: Store, R: Report>(
    alloc: Global,
    pages: &P,
    store: &mut S,
    names: &[String],
    item: usize,
    settings: &Settings,
    report: &mut R,
    summary: &mut Summary,
) -> Result<(), BuildError>
    requires acceptable { AreAcceptable (names_of names.now) }
    requires within { item < length names.now }
    requires room { HasRoom summary.old }
    ensures { IsItemBuilt P.Pages S.Store R.Report settings.now (names_of names.now) item pages.now store.old store.new report.old report.new summary.old summary.new result }
{
    let name = names[item].as_str();
    let outcome = try_item(pages, store, name, settings.dry_run);
    report.item(item as u64, names.len() as u64, name, &outcome);
    summary.count(&outcome);
    stop_unless(settings.keep_going, alloc, item as u64, name, outcome)
}

// Makes the current item's file hold its text.
fn try_item<P: Pages, S: Store>(pages: &P, store: &mut S, name: &str, dry_run: bool) -> Outcome
    requires { IsAcceptable name.now }
    ensures { (text : Text) × IsFate P.Pages S.Store pages.now (fate_of text result)
        × IsPlaced S.Store dry_run name.now (fate_of text result) store.old store.new }
{
    match pages.text() {
        Ok(text) => place(store, name, text.as_str(), dry_run),
        Err(failure) => Outcome::Failed(Cause::Text(failure)),
    }
}

// Fails if the item has failed, unless the build is to keep going.
fn stop_unless(
    keep_going: bool,
    alloc: Global,
    item: u64,
    name: &str,
    outcome: Outcome,
) -> Result<(), BuildError>
    ensures ok { OnOk result (keep_going ≡ false → (text : Text) → is_failed (fate_of text outcome) ≡ false) }
    ensures err { IfErr result (IsFailure keep_going item name.now outcome) }
{
    match outcome {
        Outcome::Failed(cause) => {
            if keep_going {
                return Ok(());
            }
            let name = String::from_str(alloc, name)?;
            Err(BuildError::Failed { item, name, cause })
        }
        _ => Ok(()),
    }
}
