//! A rendering with functions as helpers and as a decorator.

ghost use Rattle.std.specs.Prelude.{◌≡◌, ◌++◌, ◌∷◌, [], MatchResult, Some, codes};
ghost use Rattle.handlebars_base.specs.Reasons.{out_of_memory};
ghost use Rattle.handlebars_helpers.specs.Decoration.{binds};
ghost use Rattle.handlebars_helpers.specs.DecoratorsView.{actions_view};
ghost use Rattle.handlebars_helpers.specs.FnErrors.{fn_reason};
ghost use Rattle.handlebars_helpers.specs.UserHelper.{writes};
ghost use Rattle.handlebars_helpers.specs.UserView.{steps_of};
ghost use Rattle.handlebars_helpers.specs.View.{helper_view};
ghost use Rattle.test_parts.specs.Parts.{shown_at};

use crate::part::helper_at;
use handlebars::{
    Context, Decorator, DecoratorEntry, DecoratorFn, FnActions, FnDecorator, FnHelper, FnSteps,
    Helper, HelperEntry, HelperFn, JsonValue, NoFiles, Registry,
};
use log::sink::Discard;
use std::alloc::{AllocError, Global};
use test_parts::functions::{renamed, said};
use test_steps::answer::{Answer, Stop, shown};
use test_steps::fields::text;

/// Renders a source. `simple-helper` is the helper of the field `helper`. `another-simple-helper` and `closure-helper` are
/// functions that write a text and their parameter. `renamed` is a function that makes `size` a name of `len`.
pub fn rendered(alloc: Global, step: &JsonValue) -> Answer {
    let mut registry = Registry::new(alloc)?;
    let first = helper_at(alloc, step)?;
    let second: HelperFn = Box::new(
        alloc,
        move |h: &Helper, _data: &Context, _changed: &Option<&Context>, _strict: bool| -> FnSteps
            ensures { MatchResult result
                (λ steps. steps_of steps
                ≡ Some (writes (codes "2nd helper: " ++ shown_at 0 (helper_view h.now)) ∷ []))
                (λ e. fn_reason e ≡ out_of_memory) }
        { said(alloc, "2nd helper: ", h) },
    )?;
    let third: HelperFn = Box::new(
        alloc,
        move |h: &Helper, _data: &Context, _changed: &Option<&Context>, _strict: bool| -> FnSteps
            ensures { MatchResult result
                (λ steps. steps_of steps
                ≡ Some (writes (codes "3rd helper: " ++ shown_at 0 (helper_view h.now)) ∷ []))
                (λ e. fn_reason e ≡ out_of_memory) }
        { said(alloc, "3rd helper: ", h) },
    )?;
    let fourth: DecoratorFn = Box::new(
        alloc,
        move |_d: &Decorator, _data: &Context, _changed: &Option<
            &Context,
        >, _strict: bool| -> FnActions
            ensures { MatchResult result
                (λ actions. actions_view actions
                ≡ binds (codes "size") (record { registered = codes "len"; constants = [] }) ∷ [])
                (λ e. fn_reason e ≡ out_of_memory) }
        { renamed(alloc) },
    )?;
    put(
        &mut registry,
        "simple-helper",
        HelperEntry::Own(Box::new(alloc, first)?),
    )?;
    put(
        &mut registry,
        "another-simple-helper",
        HelperEntry::Function(FnHelper::new(second)),
    )?;
    put(
        &mut registry,
        "closure-helper",
        HelperEntry::Function(FnHelper::new(third)),
    )?;
    registry.register_decorator(
        "renamed",
        DecoratorEntry::Function(FnDecorator::new(fourth)),
    )?;
    renders(alloc, &registry, text(step, "source"))
}

fn put(registry: &mut Registry, name: &str, helper: HelperEntry) -> Result<(), AllocError> {
    registry.register_helper(name, helper)
}

fn renders(alloc: Global, registry: &Registry, source: &str) -> Answer {
    let data = Context::null();
    let answer = registry.render_template_with_context(source, &data, &Discard, &mut NoFiles);
    shown(alloc, answer)
}
