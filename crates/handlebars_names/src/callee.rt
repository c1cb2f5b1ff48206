//! What is wrong with the names of calls and of arguments.

ghost use Rattle.std.specs.Prelude.{◌≡◌, OnOk, Some, List};
ghost use Rattle.handlebars_helpers.specs.UserView.{callee_of};
ghost use Rattle.handlebars_helpers.specs.View.{built_in_kind};
ghost use Rattle.handlebars_template.specs.TreeView.{params_view};
ghost use Rattle.handlebars_semantics.specs.State.{hook};
ghost use Rattle.handlebars_names.specs.Faults.{Why};
ghost use Rattle.handlebars_names.specs.NamesView.{AddsFindings, faults_in, names_at, whys_in};
ghost use Rattle.handlebars_names.specs.Whys as whys;

use crate::fault::Finding;
use crate::known::Known;
use crate::location::{Cause, Location, push_fault};
use crate::parameters::{has_params, needed_params};
use handlebars_helpers::built_in::BuiltIn;
use handlebars_helpers::entries::UserParts;
use handlebars_helpers::user::Callee;
use handlebars_template::template::Parameter;
use std::alloc::{AllocError, Global};

// ---- what is called

fn check_params_of(
    kind: BuiltIn,
    name: &str,
    params: &[Parameter],
    alloc: Global,
    location: Location<'_>,
    findings: &mut Vec<Finding<'_>>,
) -> Result<(), AllocError>
    ensures { OnOk result (AddsFindings findings.old.items findings.new.items
        (faults_in location.entry (whys.whys_of_params name.now (built_in_kind kind) (params_view params.now)))) }
{
    let needed = needed_params(kind);
    if has_params(params, needed) {
        return Ok(());
    }
    push_fault(
        alloc,
        location,
        Cause::MissingParams(name, needed),
        findings,
    )
}

fn check_callee(
    callee: Callee,
    name: &str,
    params: &[Parameter],
    alloc: Global,
    location: Location<'_>,
    findings: &mut Vec<Finding<'_>>,
) -> Result<(), AllocError>
    ensures { (without : List Why) → OnOk result (AddsFindings findings.old.items findings.new.items
        (faults_in location.entry (whys.whys_of_helper (Some (callee_of name.now callee)) name.now (params_view params.now) without))) }
{
    match callee {
        Callee::Built(kind) => check_params_of(kind, name, params, alloc, location, findings),
        Callee::User => Ok(()),
    }
}

fn push_if(
    cause: Option<Cause<'_>>,
    alloc: Global,
    location: Location<'_>,
    findings: &mut Vec<Finding<'_>>,
) -> Result<(), AllocError>
    ensures { OnOk result (AddsFindings findings.old.items findings.new.items (faults_in location.entry (whys_in cause.entry))) }
{
    match cause {
        Some(cause) => push_fault(alloc, location, cause, findings),
        None => Ok(()),
    }
}

fn hook_name(block: bool) -> &'static str
    ensures { result.now ≡ hook block }
{
    if block {
        "blockHelperMissing"
    } else {
        "helperMissing"
    }
}

fn check_hook<E: UserParts>(
    block: bool,
    params: &[Parameter],
    without: Option<Cause<'_>>,
    entries: &E,
    alloc: Global,
    location: Location<'_>,
    findings: &mut Vec<Finding<'_>>,
) -> Result<(), AllocError>
    ensures { OnOk result (AddsFindings findings.old.items findings.new.items
        (faults_in location.entry (whys.whys_of_helper ((E.registered entries.now).helper (hook block)) (hook block)
        (params_view params.now) (whys_in without.entry)))) }
{
    let name = hook_name(block);
    match entries.helper(name) {
        Some(callee) => check_callee(callee, name, params, alloc, location, findings),
        None => push_if(without, alloc, location, findings),
    }
}

/// Adds what is wrong with a call by this name, of a block or not, with these parameters, which may be a fault if it has no
/// helper and no hook.
pub fn check_name<E: UserParts>(
    name: &str,
    block: bool,
    params: &[Parameter],
    without: Option<Cause<'_>>,
    entries: &E,
    known: Known<'_, '_>,
    location: Location<'_>,
    findings: &mut Vec<Finding<'_>>,
) -> Result<(), AllocError>
    ensures { OnOk result (AddsFindings findings.old.items findings.new.items
        (faults_in location.entry (whys.whys_of_name (names_at (E.registered entries.now) known.entry) block (params_view params.now)
        (whys_in without.entry) name.now))) }
{
    match entries.helper(name) {
        Some(callee) => check_callee(callee, name, params, known.alloc, location, findings),
        None => check_hook(
            block,
            params,
            without,
            entries,
            known.alloc,
            location,
            findings,
        ),
    }
}
