//! What a run is given: a registry, trees that are overlaid on those of the registry, and a logger.

ghost use Rattle.std.specs.Prelude.{◌≡◌, Option, None, option_map};
ghost use Rattle.handlebars_base.specs.Bytes.{Text};
ghost use Rattle.handlebars_template.specs.Tree.{Tree};
ghost use Rattle.handlebars_template.specs.TreeView.{tree_view};
ghost use Rattle.handlebars.specs.Files.{tree_in};
ghost use Rattle.handlebars.specs.Over.{parts_over};

use crate::registry::RegistryOf;
use handlebars_base::error::RenderError;
use handlebars_expand::registered::Registered;
use handlebars_helpers::decorators::view::Decorator;
use handlebars_helpers::decorators::{DecoratorKind, DecoratorResult};
use handlebars_helpers::entries::UserParts;
use handlebars_helpers::escape::Escaping;
use handlebars_helpers::user::{Callee, HelperResult, HelperValue};
use handlebars_helpers::view::Helper;
use handlebars_scope::context::Context;
use handlebars_template::template::Template;
use log::{Level, Log, log};
use std::collections::BTreeMap;

/// Trees by name, instead of those of a registry under the same names.
pub trait Trees {
    ghost trees: { Self → Text → Option Tree };

    fn tree(&self, name: &str) -> Option<&Template>
        ensures { option_map (λ t. tree_view t.now) result ≡ trees self.now name.now };
}

impl Trees for BTreeMap<String, Template> {
    ghost trees = { tree_in };

    fn tree(&self, name: &str) -> Option<&Template> {
        self.get(name)
    }
}

/// No trees: all are those of the registry.
#[derive(Drop)]
pub struct NoTrees;

impl Trees for NoTrees {
    ghost trees = { λ x name. None };

    fn tree(&self, _name: &str) -> Option<&Template> {
        None
    }
}

/// A registry, the trees that are overlaid on those of the registry, and the logger of a run.
#[derive(Drop)]
pub struct Logging<'r, E, T, L> {
    pub registry: &'r RegistryOf<E>,
    pub read: &'r T,
    pub log: &'r L,
}

impl<E: UserParts, T: Trees, L: Log> Registered for Logging<'_, E, T, L> {
    ghost parts = { λ x. parts_over E.registered E.user (T.trees x.read.now) x.registry.now };

    #[inline(always)]
    fn helper(&self, name: &str) -> Option<Callee> {
        self.registry.entries.helper(name)
    }

    fn steps_of(
        &self,
        name: &str,
        view: &Helper,
        given: &Context,
        changed: Option<&Context>,
    ) -> HelperResult {
        let strict = self.registry.strict_mode();
        self.registry
            .entries
            .steps_of(name, view, given, changed, strict)
    }

    fn offer_of(
        &self,
        name: &str,
        view: &Helper,
        given: &Context,
        changed: Option<&Context>,
    ) -> Result<HelperValue, RenderError> {
        let strict = self.registry.strict_mode();
        self.registry
            .entries
            .offer_of(name, view, given, changed, strict)
    }

    fn decorator(&self, name: &str) -> Option<DecoratorKind> {
        self.registry.entries.decorator(name)
    }

    fn actions_of(
        &self,
        name: &str,
        tag: &Decorator,
        given: &Context,
        changed: Option<&Context>,
    ) -> DecoratorResult {
        let strict = self.registry.strict_mode();
        self.registry
            .entries
            .actions_of(name, tag, given, changed, strict)
    }

    fn escape(&self) -> Escaping {
        self.registry.entries.escape()
    }

    fn escaped(&self, text: &str) -> Result<String, RenderError> {
        self.registry.entries.escaped(text)
    }

    fn template(&self, name: &str) -> Option<&Template> {
        self.registry.template_over(self.read, name)
    }

    fn limit(&self) -> u16 {
        self.registry.inclusion_limit()
    }

    fn strict(&self) -> bool {
        self.registry.strict_mode()
    }

    fn sections(&self) -> bool {
        true
    }

    fn log(&self, level: Level, text: &str) {
        log!(self.log; level, "{text}");
    }

    fn satisfies_law(&self) {
        self.registry.entries.satisfies_law();
    }
}
