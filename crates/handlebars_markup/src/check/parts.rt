//! What is wrong with a registry.

ghost use Rattle.std.specs.Prelude.{◌≡◌, ◌∷◌, [], None, OnOk};
ghost use Rattle.handlebars_helpers.specs.EscapeView.{escaping_of};
ghost use Rattle.handlebars_semantics.specs.State.{hook};
ghost use Rattle.handlebars_markup.specs.Faults.{faults_at, whys_of_escape, whys_of_hook};
ghost use Rattle.handlebars_markup.specs.FaultsView.{AddsFindings, cause_why};

use super::blind::calls_blind;
use super::location::{Cause, Location, push_fault};
use crate::fault::MarkupFault;
use handlebars_helpers::entries::UserParts;
use handlebars_helpers::escape::Escaping;
use std::alloc::{AllocError, Global};

/// Adds what is wrong with how values are escaped.
pub fn check_escape(
    alloc: Global,
    escaping: Escaping,
    faults: &mut Vec<MarkupFault>,
) -> Result<(), AllocError>
    ensures { OnOk result (AddsFindings faults.old.items faults.new.items
        (faults_at None None (whys_of_escape (escaping_of escaping)))) }
{
    match escaping {
        Escaping::Html => Ok(()),
        Escaping::Plain => push_nowhere(alloc, Cause::OtherEscape, faults),
        Escaping::User => push_nowhere(alloc, Cause::OtherEscape, faults),
    }
}

/// Adds what is wrong with a hook: of blocks, or of other calls.
pub fn check_hook<E: UserParts>(
    alloc: Global,
    entries: &E,
    block: bool,
    faults: &mut Vec<MarkupFault>,
) -> Result<(), AllocError>
    ensures { OnOk result (AddsFindings faults.old.items faults.new.items
        (faults_at None None (whys_of_hook (E.registered entries.now) block))) }
{
    let name = hook(block);
    if calls_blind(entries, name) {
        return Ok(());
    }
    push_nowhere(alloc, Cause::ReadingHook(name), faults)
}

fn push_nowhere(
    alloc: Global,
    cause: Cause<'_>,
    faults: &mut Vec<MarkupFault>,
) -> Result<(), AllocError>
    ensures { OnOk result (AddsFindings faults.old.items faults.new.items (faults_at None None (cause_why cause.entry ∷ []))) }
{
    let location = Location {
        template_name: None,
        position: None,
    };
    push_fault(alloc, location, cause, faults)
}

// The name of the hook.
fn hook(block: bool) -> &'static str
    ensures { result.now ≡ hook block }
{
    if block {
        "blockHelperMissing"
    } else {
        "helperMissing"
    }
}
