//! Executing a decorator.

ghost use Rattle.std.specs.Prelude.{map};
ghost use Rattle.handlebars_template.specs.TreeView.{decorator_view};
ghost use Rattle.handlebars_helpers.specs.Decoration.{kind_inline, kind_user};
ghost use Rattle.handlebars_helpers.specs.DecoratorsView.{action_of, tag_view};
ghost use Rattle.handlebars_semantics.specs.Means.{do_action, do_actions, render_decorator, set_partial};
ghost use Rattle.handlebars_expand.specs.Boxed.{answer_of};
ghost use Rattle.handlebars_elements.specs.Judgement.{Between};
ghost use Rattle.handlebars_elements.specs.Silent.{Does, decorate_as, decorate_by};
ghost use Rattle.handlebars_elements.specs.View.{IsUnchanged};

use crate::error::{decorator_not_found, failed};
use handlebars_base::error::RenderErrorReason;
use handlebars_expand::boxed::BoxedError;
use handlebars_expand::registered::Registered;
use handlebars_helpers::decorators::view::Decorator;
use handlebars_helpers::decorators::{DecoratorKind, DecoratorStep, inline};
use handlebars_helpers::user::LocalHelper;
use handlebars_template::template::DecoratorTemplate;
use handlebars_values::called::called_tag;
use handlebars_values::environment::Environment;
use handlebars_values::run::Run;
use std::rc::Rc;

/// Executes the decorator of a tag. Writes nothing.
#[inline(never)]
pub fn render_decorator<'v, P: Registered>(
    tag: &'v DecoratorTemplate,
    environment: &'v Environment<'v, 'v, P>,
    run: &mut Run,
) -> Result<(), BoxedError>
    ensures does { Between P.parts environment.now run (λ p s next. Does p (render_decorator (decorator_view tag.now)) s
        (answer_of result) next) }
    ensures unchanged { IsUnchanged run.old run.new }
{
    let alloc = environment.inclusion.alloc;
    let call = called_tag(environment, run, tag)?;
    let view = call.into_decorator(alloc, environment.inclusion.placement.indent, tag)?;
    decorate(&view, environment, run)
}

// Asks the decorator of a tag's name for its actions, and executes them.
fn decorate<'v, P: Registered>(
    tag: &Decorator,
    environment: &'v Environment<'v, 'v, P>,
    run: &mut Run,
) -> Result<(), BoxedError>
    ensures does { Between P.parts environment.now run (λ p s next. Does p (decorate_as (tag_view tag.now)) s
        (answer_of result) next) }
    ensures unchanged { IsUnchanged run.old run.new }
{
    match environment.inclusion.parts.decorator(tag.name()) {
        Some(DecoratorKind::Inline) => decorate_inline(tag, environment, run),
        Some(DecoratorKind::User) => decorate_by_user(tag, environment, run),
        None => Err(decorator_not_found(environment.inclusion.alloc, tag.name())),
    }
}

// Executes `inline`, which has one action: nothing is built for it.
fn decorate_inline<'v, P: Registered>(
    tag: &Decorator,
    environment: &'v Environment<'v, 'v, P>,
    run: &mut Run,
) -> Result<(), BoxedError>
    ensures does { Between P.parts environment.now run (λ p s next. Does p (decorate_by kind_inline (tag_view tag.now)) s
        (answer_of result) next) }
    ensures unchanged { IsUnchanged run.old run.new }
{
    match inline(tag) {
        Ok(name) => set_partial(tag, environment, name, run),
        Err(e) => Err(BoxedError::new(environment.inclusion.alloc, e)),
    }
}

// Executes the user-defined decorator that is registered under the name of a tag.
fn decorate_by_user<'v, P: Registered>(
    tag: &Decorator,
    environment: &'v Environment<'v, 'v, P>,
    run: &mut Run,
) -> Result<(), BoxedError>
    ensures does { Between P.parts environment.now run (λ p s next. Does p (decorate_by (kind_user (tag_view tag.now).call.name) (tag_view tag.now)) s
        (answer_of result) next) }
    ensures unchanged { IsUnchanged run.old run.new }
{
    let parts = environment.inclusion.parts;
    match parts.actions_of(
        tag.name(),
        tag,
        environment.innermost.given,
        run.changed.as_ref(),
    ) {
        Ok(actions) => do_actions(tag, environment, actions, run),
        Err(e) => Err(BoxedError::new(environment.inclusion.alloc, e)),
    }
}

// Executes the actions, in order.
fn do_actions<'v, P: Registered>(
    tag: &Decorator,
    environment: &'v Environment<'v, 'v, P>,
    actions: Vec<DecoratorStep>,
    run: &mut Run,
) -> Result<(), BoxedError>
    ensures does { Between P.parts environment.now run (λ p s next. Does p (do_actions (tag_view tag.now).body (map action_of actions.items)) s
        (answer_of result) next) }
    ensures unchanged { IsUnchanged run.old run.new }
{
    'actions: for action in actions {
        if let Err(e) = do_action(tag, environment, action, run) {
            return Err(e);
        }
    }
    Ok(())
}

fn do_action<'v, P: Registered>(
    tag: &Decorator,
    environment: &'v Environment<'v, 'v, P>,
    action: DecoratorStep,
    run: &mut Run,
) -> Result<(), BoxedError>
    ensures does { Between P.parts environment.now run (λ p s next. Does p (do_action (tag_view tag.now).body (action_of action)) s
        (answer_of result) next) }
    ensures unchanged { IsUnchanged run.old run.new }
{
    match action {
        DecoratorStep::SetContext(context) => {
            run.changed = Some(context);
            Ok(())
        }
        DecoratorStep::BindHelper {
            local,
            registered,
            constants,
        } => {
            run.bind_helper(
                local,
                LocalHelper {
                    registered,
                    constants,
                },
            )?;
            Ok(())
        }
        DecoratorStep::UnbindHelper(local) => {
            run.unbind_helper(local.as_str());
            Ok(())
        }
        DecoratorStep::SetLocalPartial(name) => set_partial(tag, environment, name.as_str(), run),
    }
}

// Makes the body of the tag a partial of the innermost scope frame. A tag without a body fails.
fn set_partial<'v, P: Registered>(
    tag: &Decorator,
    environment: &'v Environment<'v, 'v, P>,
    name: &str,
    run: &mut Run,
) -> Result<(), BoxedError>
    ensures does { Between P.parts environment.now run (λ p s next. Does p (set_partial name.now (tag_view tag.now).body) s
        (answer_of result) next) }
    ensures unchanged { IsUnchanged run.old run.new }
{
    let alloc = environment.inclusion.alloc;
    match tag.template() {
        Some(template) => {
            let copy = Rc::new(alloc, template.clone(alloc)?)?;
            run.partials.put(environment.innermost, name, copy)?;
            Ok(())
        }
        None => Err(failed(alloc, RenderErrorReason::BlockContentRequired)),
    }
}
