//! What is user-defined in a registry and may break the rule of data.

ghost use Rattle.std.specs.Prelude.{◌≡◌, ◌∷◌, [], OnOk, map, string_bytes};
ghost use Rattle.std.specs.List.{flat_map};
ghost use Rattle.handlebars_helpers.specs.EscapeView.{escaping_of};
ghost use Rattle.handlebars_html.specs.Check.{both_findings, found_faults};
ghost use Rattle.handlebars_html.specs.Faults.{user_decorator};
ghost use Rattle.handlebars_html.specs.FoundView.{AppendsFaults, found_of};
ghost use Rattle.handlebars_html.specs.Registry as registry;
ghost use Rattle.handlebars_html.specs.RowsView.{why_of};
ghost use Rattle.handlebars_html.specs.SearchView.{helper_of, user_defined_of};

use crate::fault::{HtmlFault, HtmlFaultReason};
use crate::found::Found;
use crate::lists::push;
use crate::user::{OtherHelper, OtherKind, UserDefined};
use handlebars_helpers::escape::Escaping;
use std::alloc::AllocError;

// Adds a fault that is in no template.
fn push_fault(faults: &mut Vec<HtmlFault>, reason: HtmlFaultReason) -> Result<(), AllocError>
    ensures { OnOk result (AppendsFaults faults.old.items faults.new.items (why_of reason ∷ [])) }
{
    let fault = HtmlFault {
        template_name: None,
        line_no: None,
        column_no: None,
        reason,
    };
    push(faults, fault)
}

fn check_escape(escape: Escaping, faults: &mut Vec<HtmlFault>) -> Result<(), AllocError>
    ensures { OnOk result (AppendsFaults faults.old.items faults.new.items (registry.whys_of_escape (escaping_of escape))) }
{
    match escape {
        Escaping::Html => Ok(()),
        Escaping::Plain => push_fault(faults, HtmlFaultReason::OtherEscape),
        Escaping::User => push_fault(faults, HtmlFaultReason::OtherEscape),
    }
}

fn is_hook(name: &str) -> bool
    ensures { result ≡ registry.is_hook name.now }
{
    "helperMissing" == name || "blockHelperMissing" == name
}

fn check_hook(name: &String, faults: &mut Vec<HtmlFault>) -> Result<(), AllocError>
    ensures { OnOk result (AppendsFaults faults.old.items faults.new.items (registry.whys_of_hook (string_bytes name.now))) }
{
    if !is_hook(name.as_str()) {
        return Ok(());
    }
    push_fault(faults, HtmlFaultReason::UserHook(name.clone()?))
}

fn check_helper(helper: &OtherHelper, faults: &mut Vec<HtmlFault>) -> Result<(), AllocError>
    ensures { OnOk result (AppendsFaults faults.old.items faults.new.items (registry.whys_of_helper (helper_of helper.now))) }
{
    match helper.kind {
        OtherKind::GivesUrls => check_hook(&helper.name, faults),
        OtherKind::GivesValues => check_hook(&helper.name, faults),
        OtherKind::MayHaveSteps => {
            let reason = HtmlFaultReason::HelperWithSteps(helper.name.clone()?);
            push_fault(faults, reason)?;
            check_hook(&helper.name, faults)
        }
        OtherKind::Misplaced => {
            let reason = HtmlFaultReason::MisplacedHelper(helper.name.clone()?);
            push_fault(faults, reason)
        }
    }
}

fn check_helpers(helpers: &[OtherHelper], faults: &mut Vec<HtmlFault>) -> Result<(), AllocError>
    ensures { OnOk result (AppendsFaults faults.old.items faults.new.items
        (flat_map registry.whys_of_helper (map helper_of helpers.now))) }
{
    'helpers: for helper in helpers {
        check_helper(helper, faults)?;
    }
    Ok(())
}

fn check_decorators(decorators: &[String], faults: &mut Vec<HtmlFault>) -> Result<(), AllocError>
    ensures { OnOk result (AppendsFaults faults.old.items faults.new.items
        (map (λ n. user_decorator n) (map string_bytes decorators.now))) }
{
    'decorators: for name in decorators {
        push_fault(faults, HtmlFaultReason::UserDecorator(name.clone()?))?;
    }
    Ok(())
}

/// Adds the faults of what is user-defined, after all else.
///
/// # Errors
///
/// Fails if memory runs out.
pub fn add_faults_of_parts(user: &UserDefined, found: &mut Found) -> Result<(), AllocError>
    ensures { OnOk result (found_of found.new
        ≡ both_findings (found_of found.old) (found_faults (registry.faults_of_registry (user_defined_of user.now)))) }
{
    check_escape(user.escape, &mut found.faults)?;
    check_helpers(&user.helpers, &mut found.faults)?;
    check_decorators(&user.decorators, &mut found.faults)
}
