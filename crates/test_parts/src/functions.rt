//! User-defined functions as a helper and as a decorator.

ghost use Rattle.std.specs.Prelude.{◌≡◌, ◌++◌, ◌∷◌, [], MatchResult, Some, codes};
ghost use Rattle.handlebars_base.specs.Reasons.{out_of_memory};
ghost use Rattle.handlebars_helpers.specs.Decoration.{binds};
ghost use Rattle.handlebars_helpers.specs.DecoratorsView.{actions_view};
ghost use Rattle.handlebars_helpers.specs.FnErrors.{fn_reason};
ghost use Rattle.handlebars_helpers.specs.UserHelper.{writes};
ghost use Rattle.handlebars_helpers.specs.UserView.{steps_of};
ghost use Rattle.handlebars_helpers.specs.View.{helper_view};
ghost use Rattle.test_parts.specs.Parts.{shown_at};

use crate::helpers::push_shown;
use handlebars_helpers::decorators::DecoratorStep;
use handlebars_helpers::decorators::function::FnActions;
use handlebars_helpers::user::HelperStep;
use handlebars_helpers::user::function::FnSteps;
use handlebars_helpers::view::Helper;
use std::alloc::Global;

/// Writes a text, and the first parameter after it.
pub fn said(alloc: Global, text: &str, h: &Helper) -> FnSteps
    ensures { MatchResult result
        (λ steps. steps_of steps ≡ Some (writes (text.now ++ shown_at 0 (helper_view h.now)) ∷ []))
        (λ e. fn_reason e ≡ out_of_memory) }
{
    let mut said = String::from_str(alloc, text)?;
    push_shown(&mut said, alloc, h, 0)?;
    Ok(Some(vec![in alloc; HelperStep::Write(said)]?))
}

/// Makes `size` a name of `len`.
pub fn renamed(alloc: Global) -> FnActions
    ensures { MatchResult result
        (λ actions. actions_view actions ≡ binds (codes "size") (record { registered = codes "len"; constants = [] }) ∷ [])
        (λ e. fn_reason e ≡ out_of_memory) }
{
    let local = String::from_str(alloc, "size")?;
    let registered = String::from_str(alloc, "len")?;
    let constants = Vec::new(alloc);
    Ok(vec![in alloc;
        DecoratorStep::BindHelper {
            local,
            registered,
            constants
        },
    ]?)
}
