//! What calls of a name go to.

ghost use Rattle.std.specs.Prelude.{◌≡◌, Bool, List, option_map};
ghost use Rattle.handlebars_scope.specs.Scopes.{Frame};
ghost use Rattle.handlebars_semantics.specs.State.{helper_for, helper_named};
ghost use Rattle.handlebars_expand.specs.Targets.{target_in};
ghost use Rattle.handlebars_values.specs.RunView.{run_state};

use crate::run::Run;
use handlebars_expand::registered::{Registered, Target, hook, hooked, named};

/// Returns the target of a call by a name, of a block or not: the helper of the name, or else the hook.
#[inline(always)]
pub fn helper_for<P: Registered>(parts: &P, run: &Run, block: bool, name: &str) -> Option<Target>
    ensures { (fs : List Frame) → option_map (target_in block name.now) result
        ≡ helper_for (P.parts parts.now) (run_state fs run.now) block name.now }
{
    match helper_named(parts, run, name) {
        Some(target) => Some(target),
        None => match parts.helper(hook(block)) {
            Some(callee) => Some(hooked(callee)),
            None => None,
        },
    }
}

/// Returns the helper of a name: a local one, or else a registered one.
#[inline(always)]
pub fn helper_named<P: Registered>(parts: &P, run: &Run, name: &str) -> Option<Target>
    ensures { (block : Bool) (fs : List Frame) → option_map (target_in block name.now) result
        ≡ helper_named (P.parts parts.now) (run_state fs run.now) name.now }
{
    if run.has_local_helper(name) {
        return Some(Target::Local);
    }
    match parts.helper(name) {
        Some(callee) => Some(named(callee)),
        None => None,
    }
}
