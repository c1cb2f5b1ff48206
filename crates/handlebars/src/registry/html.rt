//! Whether data stands only where it is harmless in the HTML that is rendered: every location where it may stand elsewhere
//! is reported. `docs/HTML.md` says what follows if there is none.

ghost use Rattle.std.specs.Prelude.{◌≡◌, ◌≢◌, ◌++◌, IfOk, IfErr, OnOk, None, Some, false, map};
ghost use Rattle.handlebars_base.specs.Reasons.{out_of_memory};
ghost use Rattle.handlebars_base.specs.RenderRefusals.{reason_in};
ghost use Rattle.handlebars_html.specs.Search as pages;
ghost use Rattle.handlebars_html.specs.SearchView.{pages_of, template_of, verdict_of};
ghost use Rattle.handlebars.specs.Dev.{AsksFor, HasRead, FailsWithFiles, FailsWithSource};
ghost use Rattle.handlebars.specs.Files.{is_dev, overlaid_on, tree_among, tree_in};
ghost use Rattle.handlebars.specs.Html.{JudgesHtml, OfSource, SaysHtml, first_unsafe, safety_by, template_under, templates_under};
ghost use Rattle.handlebars.specs.Markup.{key_names, unread};
ghost use Rattle.handlebars.specs.View.{options_of, stored_tree};

use crate::registry::RegistryOf;
use crate::registry::markup::names_are_in_order;
use crate::sources::TemplateReader;
use handlebars_base::error::RenderError;
use handlebars_helpers::entries::UserParts;
use handlebars_html::fault::HtmlFault;
use handlebars_html::others::user_defined;
use handlebars_html::search::{Checked, NamedTemplate, Pages, Verdict, check_pages};
use handlebars_template::template::Template;
use std::alloc::AllocError;
use std::collections::BTreeMap;

/// Whether data stands only where it is harmless.
#[derive(Debug, Drop)]
pub enum HtmlSafety {
    /// It does, whatever the data.
    Safe,
    /// It may stand elsewhere, and this is the first fault.
    Unsafe(HtmlFault),
    /// There are too many states in which templates are included, and nothing is said.
    Undecided,
}

fn first_fault(faults: Vec<HtmlFault>) -> HtmlSafety
    ensures { result ≡ first_unsafe faults.items }
{
    match faults.into_iter().next() {
        Some(fault) => HtmlSafety::Unsafe(fault),
        None => HtmlSafety::Undecided,
    }
}

fn safety_of(verdict: Verdict) -> HtmlSafety
    ensures { result ≡ safety_by verdict }
{
    match verdict {
        Verdict::NoFaults => HtmlSafety::Safe,
        Verdict::Faults(faults) => first_fault(faults),
        Verdict::Undecided => HtmlSafety::Undecided,
    }
}

// By name.
impl<E: UserParts> RegistryOf<E> {
    /// Returns whether data stands only where it is harmless in what is rendered by name, or the first fault. In dev mode
    /// the files of templates are read anew, as for a rendering.
    ///
    /// # Errors
    ///
    /// Fails with the error of a file that can't be read or doesn't compile, or when memory runs out.
    pub fn html_is_safe<R: TemplateReader>(&self, files: &mut R) -> Result<HtmlSafety, RenderError>
        ensures ok { IfOk result (λ s. HasRead R.reads self.now None files.old files.new (λ read.
            JudgesHtml E.registered E.user (tree_among read) self.now pages.all_templates s)) }
        ensures err { IfErr result (λ e. reason_in e ≢ out_of_memory
            → FailsWithFiles R.reads self.now None files.old files.new (λ read f. ⊥) e) }
        ensures asks { AsksFor R.reads self.now None files.old files.new }
        ensures unread { is_dev self.now ≡ false → files.new ≡ files.old }
    {
        match self.html_faults(files) {
            Ok(verdict) => Ok(safety_of(verdict)),
            Err(e) => Err(e),
        }
    }

    /// Returns what the check of HTML says of what is rendered by name: that there is no fault, or all faults, or that
    /// there are too many states. A fault is a location where data may stand elsewhere than where it is harmless. First
    /// come those of what is registered beside templates, then those of templates in byte order of name, with those that
    /// dev mode read anew before others, each in the order of its source.
    ///
    /// # Errors
    ///
    /// Fails with the error of a file that can't be read or doesn't compile, or when memory runs out.
    pub fn html_faults<R: TemplateReader>(&self, files: &mut R) -> Result<Verdict, RenderError>
        ensures ok { IfOk result (λ v. HasRead R.reads self.now None files.old files.new (λ read.
            SaysHtml E.registered E.user (tree_among read) self.now pages.all_templates (verdict_of v))) }
        ensures err { IfErr result (λ e. reason_in e ≢ out_of_memory
            → FailsWithFiles R.reads self.now None files.old files.new (λ read f. ⊥) e) }
        ensures asks { AsksFor R.reads self.now None files.old files.new }
        ensures unread { is_dev self.now ≡ false → files.new ≡ files.old }
    {
        let read = self.read_for(None, files)?;
        let verdict = self.check_html(&read, Pages::AllTemplates)?;
        Ok(verdict)
    }
}

// By source.
impl<E: UserParts> RegistryOf<E> {
    /// Returns whether data stands only where it is harmless in what a source renders, or the first fault.
    ///
    /// # Errors
    ///
    /// Fails with the error of the source if it doesn't compile, with the error of a file that can't be read or doesn't
    /// compile, or when memory runs out.
    pub fn template_html_is_safe<R: TemplateReader>(
        &self,
        source: &str,
        files: &mut R,
    ) -> Result<HtmlSafety, RenderError>
        ensures ok { IfOk result (λ s. HasRead R.reads self.now None files.old files.new (λ read.
            OfSource (options_of self.now) source.now (λ t.
            JudgesHtml E.registered E.user (tree_among read) self.now (pages.source t) s))) }
        ensures err { IfErr result (λ e. reason_in e ≢ out_of_memory
            → FailsWithSource R.reads self.now (options_of self.now) source.now files.old files.new (λ read f. ⊥) e) }
        ensures asks { AsksFor R.reads self.now None files.old files.new }
        ensures unread { is_dev self.now ≡ false → files.new ≡ files.old }
    {
        match self.template_html_faults(source, files) {
            Ok(verdict) => Ok(safety_of(verdict)),
            Err(e) => Err(e),
        }
    }

    /// Returns what the check of HTML says of what a source renders: that there is no fault, or all faults, or that
    /// there are too many states. A fault is a location where data may stand elsewhere than where it is harmless. First
    /// come those of the source, and then all others as for a rendering by name.
    ///
    /// # Errors
    ///
    /// Fails with the error of the source if it doesn't compile, with the error of a file that can't be read or doesn't
    /// compile, or when memory runs out.
    pub fn template_html_faults<R: TemplateReader>(
        &self,
        source: &str,
        files: &mut R,
    ) -> Result<Verdict, RenderError>
        ensures ok { IfOk result (λ v. HasRead R.reads self.now None files.old files.new (λ read.
            OfSource (options_of self.now) source.now (λ t.
            SaysHtml E.registered E.user (tree_among read) self.now (pages.source t) (verdict_of v)))) }
        ensures err { IfErr result (λ e. reason_in e ≢ out_of_memory
            → FailsWithSource R.reads self.now (options_of self.now) source.now files.old files.new (λ read f. ⊥) e) }
        ensures asks { AsksFor R.reads self.now None files.old files.new }
        ensures unread { is_dev self.now ≡ false → files.new ≡ files.old }
    {
        let template = self.compiled(source)?;
        let read = self.read_for(None, files)?;
        let verdict = self.check_html(&read, Pages::Source(&template))?;
        Ok(verdict)
    }
}

// Name by name.
impl<E: UserParts> RegistryOf<E> {
    // What is registered, with the trees that were read.
    fn check_html(
        &self,
        read: &BTreeMap<String, Template>,
        pages: Pages<'_>,
    ) -> Result<Verdict, AllocError>
        ensures { IfOk result (λ v. SaysHtml E.registered E.user (tree_in read.now) self.now (pages_of pages.entry) (verdict_of v)) }
    {
        names_are_in_order(read);
        names_are_in_order(&self.templates);
        let user = user_defined(self.alloc, &self.entries)?;
        let mut templates = Vec::new(self.alloc);
        self.list_read(read, &mut templates)?;
        self.list_stored(read, &mut templates)?;
        check_pages(Checked {
            alloc: self.alloc,
            user: &user,
            templates: &templates,
            pages,
        })
    }

    // All templates that were read.
    pub(crate) fn list_read<'t>(
        &'t self,
        read: &'t BTreeMap<String, Template>,
        templates: &mut Vec<NamedTemplate<'t>>,
    ) -> Result<(), AllocError>
        ensures { OnOk result (map template_of templates.new.items ≡ map template_of templates.old.items
            ++ templates_under (overlaid_on (tree_in read.now) (stored_tree self.now)) (key_names read.now.entries)) }
    {
        'names: for (name, _) in read {
            self.list_named(name.as_str(), read, templates)?;
        }
        Ok(())
    }

    // All other registered templates.
    pub(crate) fn list_stored<'t>(
        &'t self,
        read: &'t BTreeMap<String, Template>,
        templates: &mut Vec<NamedTemplate<'t>>,
    ) -> Result<(), AllocError>
        ensures { OnOk result (map template_of templates.new.items ≡ map template_of templates.old.items
            ++ templates_under (overlaid_on (tree_in read.now) (stored_tree self.now))
            (unread (tree_in read.now) (key_names self.now.templates.entries))) }
    {
        'names: for (name, _) in &self.templates {
            if !read.contains_key(name.as_str()) {
                self.list_named(name.as_str(), read, templates)?;
            }
        }
        Ok(())
    }

    // The template under a name.
    fn list_named<'t>(
        &'t self,
        name: &'t str,
        read: &'t BTreeMap<String, Template>,
        templates: &mut Vec<NamedTemplate<'t>>,
    ) -> Result<(), AllocError>
        ensures { OnOk result (map template_of templates.new.items ≡ map template_of templates.old.items
            ++ template_under (overlaid_on (tree_in read.now) (stored_tree self.now)) name.now) }
    {
        if let Some(template) = self.template_over(read, name) {
            templates.push(NamedTemplate { name, template })?;
        }
        Ok(())
    }
}
