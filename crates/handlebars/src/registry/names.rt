//! Whether the names that a page uses are known: every name that may not stand for anything is reported.

ghost use Rattle.std.specs.Prelude.{◌≡◌, ◌≢◌, IfOk, IfErr, None, false};
ghost use Rattle.handlebars_base.specs.Reasons.{out_of_memory};
ghost use Rattle.handlebars_base.specs.RenderRefusals.{reason_in};
ghost use Rattle.handlebars_names.specs.NamesView.{page_of, verdict_of};
ghost use Rattle.handlebars_names.specs.Search as pages;
ghost use Rattle.handlebars.specs.Dev.{AsksFor, HasRead, FailsWithFiles, FailsWithSource};
ghost use Rattle.handlebars.specs.Files.{is_dev, tree_among, tree_in};
ghost use Rattle.handlebars.specs.Html.{OfSource};
ghost use Rattle.handlebars.specs.KnownNames.{SaysNames};
ghost use Rattle.handlebars.specs.View.{options_of};

use crate::registry::RegistryOf;
use crate::registry::markup::names_are_in_order;
use crate::sources::TemplateReader;
use handlebars_base::error::RenderError;
use handlebars_helpers::entries::UserParts;
use handlebars_names::check::{CheckedNames, Verdict, check_names};
use handlebars_names::known::Page;
use handlebars_template::template::Template;
use std::alloc::AllocError;
use std::collections::BTreeMap;

impl<E: UserParts> RegistryOf<E> {
    /// Returns what the check of names says of what is rendered by this name: that there is no fault, or the faults that it
    /// finds, or that it was given up and nothing is known. A fault is a name that may not stand for anything; so is the name of
    /// the page, if no template has it. In dev mode the files of templates are read anew, as for a rendering.
    ///
    /// If there is no fault, a rendering of the same templates fails only for the inclusion limit, a name that is no index,
    /// strict mode, the level of `log`, user-defined parts, writers and memory. No user-defined helper may render its body in
    /// a scope frame with inline partials of its own.
    ///
    /// Faults come in the order of templates, which is the byte order of name, with those that dev mode read anew before
    /// others, and within one in the order of its source.
    ///
    /// # Errors
    ///
    /// Fails with the error of a file that can't be read or doesn't compile, or when memory runs out.
    pub fn names_are_known<R: TemplateReader>(
        &self,
        name: &str,
        files: &mut R,
    ) -> Result<Verdict, RenderError>
        ensures ok { IfOk result (λ v. HasRead R.reads self.now None files.old files.new (λ read.
            SaysNames E.registered E.user (tree_among read) self.now (pages.a_template name.now) (verdict_of v))) }
        ensures err { IfErr result (λ e. reason_in e ≢ out_of_memory
            → FailsWithFiles R.reads self.now None files.old files.new (λ read f. ⊥) e) }
        ensures asks { AsksFor R.reads self.now None files.old files.new }
        ensures unread { is_dev self.now ≡ false → files.new ≡ files.old }
    {
        let read = self.read_for(None, files)?;
        let verdict = self.check_page_names(&read, Page::Template(name))?;
        Ok(verdict)
    }

    /// Returns what the check of names says of what a source renders, as [`RegistryOf::names_are_known`] does of what is
    /// rendered by a name. The faults of the source come first.
    ///
    /// # Errors
    ///
    /// Fails with the error of the source if it doesn't compile, with the error of a file that can't be read or doesn't
    /// compile, or when memory runs out.
    pub fn template_names_are_known<R: TemplateReader>(
        &self,
        source: &str,
        files: &mut R,
    ) -> Result<Verdict, RenderError>
        ensures ok { IfOk result (λ v. HasRead R.reads self.now None files.old files.new (λ read.
            OfSource (options_of self.now) source.now (λ t.
            SaysNames E.registered E.user (tree_among read) self.now (pages.a_source t) (verdict_of v)))) }
        ensures err { IfErr result (λ e. reason_in e ≢ out_of_memory
            → FailsWithSource R.reads self.now (options_of self.now) source.now files.old files.new (λ read f. ⊥) e) }
        ensures asks { AsksFor R.reads self.now None files.old files.new }
        ensures unread { is_dev self.now ≡ false → files.new ≡ files.old }
    {
        let template = self.compiled(source)?;
        let read = self.read_for(None, files)?;
        let verdict = self.check_page_names(&read, Page::Source(&template))?;
        Ok(verdict)
    }

    // What is registered, with the trees that were read.
    fn check_page_names(
        &self,
        read: &BTreeMap<String, Template>,
        page: Page<'_>,
    ) -> Result<Verdict, AllocError>
        ensures { IfOk result (λ v. SaysNames E.registered E.user (tree_in read.now) self.now (page_of page.entry) (verdict_of v)) }
    {
        names_are_in_order(read);
        names_are_in_order(&self.templates);
        let mut templates = Vec::new(self.alloc);
        self.list_read(read, &mut templates)?;
        self.list_stored(read, &mut templates)?;
        let checked = CheckedNames {
            alloc: self.alloc,
            sections: true,
            templates: &templates,
            page,
        };
        check_names(checked, &self.entries)
    }
}
