//! The names and the texts of the files of a build.

ghost use Rattle.std.specs.Prelude.{◌≢◌, IfErr, IfOk, false, string_bytes, true};
ghost use Rattle.handlebars_template.specs.TreeView.{tree_view};
ghost use Rattle.hb_command.specs.Failures.{kind_of};
ghost use Rattle.hb.specs.Pages.{GivesNoPage, GivesPage, IsPage};
ghost use Rattle.hb_command.specs.declared.failure.Kind.TheVariants.{OutOfMemory};

use crate::items::Items;
use crate::message::without_prefix;
use crate::text::{Places, text_of};
use handlebars::{RegistryOf, Template, UserParts};
use hb_build::Pages;
use hb_command::failure::{Failure, Kind};
use std::alloc::Global;

/// The files of a build: each is the template, rendered over its item, and is named by the template of the names, which is
/// rendered over the item with no escaping.
#[derive(Drop)]
pub struct Rendered<'p, E, I> {
    alloc: Global,
    registry: &'p RegistryOf<E>,
    page: &'p Template,
    to: &'p Template,
    // The path of the template.
    path: &'p str,
    places: Places<'p>,
    items: I,
}

impl<'p, E: UserParts, I: Items> Rendered<'p, E, I> {
    /// Returns the files of these items.
    pub fn new(
        alloc: Global,
        registry: &'p RegistryOf<E>,
        page: &'p Template,
        to: &'p Template,
        path: &'p str,
        places: Places<'p>,
        items: I,
    ) -> Rendered<'p, E, I> {
        Rendered {
            alloc,
            registry,
            page,
            to,
            path,
            places,
            items,
        }
    }

    // A template, rendered over the current item, with no escaping if it is raw.
    fn rendered(&self, template: &Template, path: &str, raw: bool) -> Result<String, Failure>
        ensures ok { IfOk result (λ text. GivesPage E.registered E.user self.now.registry.now (tree_view template.now) raw
            (I.given self.now.items) (I.begins self.now.items) (string_bytes text)) }
        ensures err { IfErr result (λ f. kind_of f ≢ OutOfMemory
            → GivesNoPage E.registered E.user self.now.registry.now (tree_view template.now) raw
            (I.given self.now.items) (I.begins self.now.items)) }
    {
        let Some(data) = self.items.data() else {
            return Err(Failure::of_text(self.alloc, Kind::Rendering, "no item"));
        };
        let mut rc = self.items.context(self.alloc)?;
        text_of(
            self.alloc,
            self.registry,
            template,
            raw,
            data,
            &mut rc,
            path,
            &self.places,
        )
    }
}

impl<E: UserParts, I: Items> Pages for Rendered<'_, E, I> {
    // The items go on as they do.
    ghost rewinds = { λ old ok new. I.rewinds old.items ok new.items };

    ghost advances = { λ old answer new. I.advances old.items answer new.items };

    ghost skips = { λ old answer new. I.skips old.items answer new.items };

    // The name is what the template of the names gives for the item, raw, by the definition of the language.
    ghost names = { λ s name. IsPage E.registered E.user s.registry.now (tree_view s.to.now) true
        (I.given s.items) (I.begins s.items) name };

    // The text is what the template gives for the item.
    ghost texts = { λ s text. IsPage E.registered E.user s.registry.now (tree_view s.page.now) false
        (I.given s.items) (I.begins s.items) text };

    fn rewind(&mut self) -> Result<(), hb_build::Failure> {
        match self.items.rewind() {
            Ok(()) => Ok(()),
            Err(failure) => Err(without_prefix(failure)),
        }
    }

    fn advance(&mut self) -> Result<bool, hb_build::Failure> {
        match self.items.advance() {
            Ok(more) => Ok(more),
            Err(failure) => Err(without_prefix(failure)),
        }
    }

    fn skip(&mut self) -> Result<bool, hb_build::Failure> {
        match self.items.skip() {
            Ok(more) => Ok(more),
            Err(failure) => Err(without_prefix(failure)),
        }
    }

    fn name(&self) -> Result<String, hb_build::Failure> {
        match self.rendered(self.to, "--to", true) {
            Ok(name) => Ok(name),
            Err(failure) => Err(without_prefix(failure)),
        }
    }

    fn text(&self) -> Result<String, hb_build::Failure> {
        match self.rendered(self.page, self.path, false) {
            Ok(text) => Ok(text),
            Err(failure) => Err(without_prefix(failure)),
        }
    }
}
