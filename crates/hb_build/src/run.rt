//! A build.

ghost use Rattle.std.specs.Prelude.{◌⊎◌, IfErr, IfOk};
ghost use Rattle.hb_build.specs.Build.{IsBuilt, IsBuiltInPart, IsRefused};

use crate::checks::check_names;
use crate::error::BuildError;
use crate::files::Store;
use crate::first::{collect_names, rewind};
use crate::look::check_ways;
use crate::options::Settings;
use crate::outcome::{Report, Summary};
use crate::second::build_items;
use crate::source::Pages;
use std::alloc::Global;

/// Writes one file for each item of a shard.
///
/// The first pass over the pages collects the names of all items. Each must be acceptable, no two may be equal, and no file may
/// be a folder of another. Nothing may stand in the way of the files of the shard. Until all that is known nothing is written.
///
/// The second pass renders the text of each item of the shard and writes it if the file has another text or none. Folders are made
/// as they are needed. Each item is reported once it is built. In a dry run nothing is written, and the report says what would be.
/// The other items are skipped.
///
/// The pages may have changed between the passes. So the name of each item of the shard is compared with that of the first pass,
/// and the build stops at one that differs. It also stops if there are fewer items than in the first pass, or more. The texts are
/// those that the second pass renders.
///
/// If an item fails, its file stays as it was, and the build stops, or goes on with the next item if it is to keep going.
///
/// # Errors
///
/// Before anything is written: the pages fail, the names are at fault, or something is in the way. After that: the pages fail, an
/// item of the shard has another name than before, an item is missing or new, or an item of the shard fails and the build is not
/// to keep going. The files of the items before are written whole then, and every other file is as it was.
///
/// # Complexity
///
/// Needs memory for the names of all items, and for one text. Apart from the rendering and the files, runs in time n log n. Each
/// name is rendered once, and those of the shard once more.
pub fn build<P: Pages, S: Store, R: Report>(
    alloc: Global,
    pages: &mut P,
    store: &mut S,
    settings: &Settings,
    report: &mut R,
) -> Result<Summary, BuildError>
    ensures built { IfOk result (IsBuilt P.Pages S.Store R.Report settings.now pages.old pages.new store.old store.new report.old report.new) }
    ensures stopped { IfErr result (λ e. IsRefused P.Pages S.Store R.Report settings.now pages.old pages.new store.old store.new report.old report.new e
        ⊎ IsBuiltInPart P.Pages S.Store R.Report settings.now pages.old pages.new store.old store.new report.old report.new e) }
{
    let names = collect_names(alloc, pages)?;
    let names = names.as_slice();
    check_names(alloc, names)?;
    check_ways(alloc, store, names, &settings.shard)?;
    rewind(pages)?;
    build_items(alloc, pages, store, names, settings, report)
}
