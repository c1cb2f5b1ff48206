//! Evaluating with a registry: executing decorators alone.

ghost use Rattle.std.specs.Prelude.{◌≡◌, IsErrAnd, OnErr, OnOk, true, false};
ghost use Rattle.handlebars_base.specs.Reasons.{Refusal, failed};
ghost use Rattle.handlebars_base.specs.RenderRefusals.{refusal_of, plain_refusal};
ghost use Rattle.handlebars_template.specs.Tree.{tree_name};
ghost use Rattle.handlebars_template.specs.TreeView.{tree_view, element_view};
ghost use Rattle.handlebars_semantics.specs.Evaluation.{eval_alone, eval_tree, renamed};
ghost use Rattle.handlebars_semantics.specs.Steps.{Steps};
ghost use Rattle.handlebars_context.specs.View.{state_of, root_of, has_failed, without_partials};
ghost use Rattle.handlebars_elements.specs.Silent.{Evals};
ghost use Rattle.handlebars.specs.View.{setting_of};

use crate::registry::RegistryOf;
use crate::render::logging::{Logging, NoTrees};
use handlebars_base::error::RenderError;
use handlebars_context::context::RenderContext;
use handlebars_context::failure::{fail_after, ready};
use handlebars_entry::entry::{evaluate_element, evaluate_tree};
use handlebars_helpers::entries::UserParts;
use handlebars_scope::context::Context;
use handlebars_template::template::{Template, TemplateElement};
use log::Log;
use std::alloc::Global;

/// What can be evaluated: only its decorators are executed.
pub trait Evaluable {
    // The steps of that, and how an error of it is viewed.
    ghost steps: { Self → Steps };

    ghost seen: { Self → Refusal → Refusal };

    /// Executes the decorators, in order, and writes nothing.
    ///
    /// # Errors
    ///
    /// Fails with the error that the definition gives, or when memory runs out. Each impl documents the position and
    /// the name of the error. The render context has failed then: later calls with it fail with `Failed`.
    fn eval<E: UserParts, L: Log>(
        &self,
        alloc: Global,
        registry: &RegistryOf<E>,
        data: &Context,
        rc: &mut RenderContext,
        log: &L,
    ) -> Result<(), RenderError>
        ensures evals { has_failed rc.old ≡ false
            → Evals (setting_of E.registered E.user registry.now «data».now) (steps self.now)
            (seen self.now) (state_of rc.old) result (state_of rc.new) }
        ensures failed { has_failed rc.old ≡ true
            → IsErrAnd result (λ e. refusal_of e ≡ plain_refusal failed) × (rc.new ≡ rc.old) }
        ensures root { root_of rc.new ≡ root_of rc.old }
        ensures blocks { without_partials (state_of rc.new).blocks ≡ without_partials (state_of rc.old).blocks }
        ensures recursive { (state_of rc.new).recursive ≡ (state_of rc.old).recursive }
        ensures escapes { (state_of rc.new).escapes ≡ (state_of rc.old).escapes }
        ensures ok { OnOk result (has_failed rc.new ≡ false) }
        ensures err { OnErr result (has_failed rc.new ≡ true) };
}

/// An error without a position takes the position of its element, if the tree has one. The tree's name, or none,
/// replaces the name in the error.
impl Evaluable for Template {
    ghost steps = { λ t. eval_tree (tree_view t) };

    ghost seen = { λ t. renamed (tree_name (tree_view t)) };

    fn eval<E: UserParts, L: Log>(
        &self,
        alloc: Global,
        registry: &RegistryOf<E>,
        data: &Context,
        rc: &mut RenderContext,
        log: &L,
    ) -> Result<(), RenderError> {
        ready(rc)?;
        let parts = &Logging {
            registry,
            read: &NoTrees,
            log,
        };
        match evaluate_tree(self, alloc, parts, data, rc) {
            Ok(()) => Ok(()),
            Err(e) => fail_after(rc, Err(e.into_error())),
        }
    }
}

/// An element alone has neither a position nor a name: an error has those that it comes with, as that of a user-defined
/// part may.
impl Evaluable for TemplateElement {
    ghost steps = { λ e. eval_alone (element_view e) };

    ghost seen = { λ e r. r };

    fn eval<E: UserParts, L: Log>(
        &self,
        alloc: Global,
        registry: &RegistryOf<E>,
        data: &Context,
        rc: &mut RenderContext,
        log: &L,
    ) -> Result<(), RenderError> {
        ready(rc)?;
        let parts = &Logging {
            registry,
            read: &NoTrees,
            log,
        };
        match evaluate_element(self, alloc, parts, data, rc) {
            Ok(()) => Ok(()),
            Err(e) => fail_after(rc, Err(e.into_error())),
        }
    }
}
