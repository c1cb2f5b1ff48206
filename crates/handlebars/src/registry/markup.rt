//! Whether the markup of what is rendered is fixed, whatever the texts of the data say: every location that keeps it
//! from being fixed is reported. `docs/MARKUP.md` says what follows if there is none.

ghost use Rattle.std.specs.Prelude.{◌≡◌, ◌≢◌, IfOk, IfErr, OnOk, List, None, Some, false, map};
ghost use Rattle.handlebars_base.specs.Reasons.{out_of_memory};
ghost use Rattle.handlebars_base.specs.RenderRefusals.{reason_in};
ghost use Rattle.handlebars_semantics.specs.Answer.{FromSource};
ghost use Rattle.handlebars_markup.specs.Faults.{Fault};
ghost use Rattle.handlebars_markup.specs.FaultsView.{AddsFindings, fault_of};
ghost use Rattle.handlebars.specs.Dev.{AsksFor, HasRead, FailsWithFiles, FailsWithSource};
ghost use Rattle.handlebars.specs.Files.{is_dev, overlaid_on, tree_among, tree_in};
ghost use Rattle.handlebars.specs.Markup.{AreInByteOrder, Judges, NoSource, Reports, first_reported, faults_under, faults_under_all};
ghost use Rattle.handlebars.specs.Markup.{key_names, unread};
ghost use Rattle.handlebars.specs.View.{options_of, stored_tree};

use crate::registry::RegistryOf;
use crate::sources::TemplateReader;
use handlebars_base::error::RenderError;
use handlebars_helpers::entries::UserParts;
use handlebars_markup::check::{check_parts, check_template};
use handlebars_markup::fault::MarkupFault;
use handlebars_template::template::Template;
use std::alloc::AllocError;
use std::collections::BTreeMap;

/// Whether the markup of what is rendered is fixed.
#[derive(Debug, Drop)]
pub enum Markup {
    /// It is fixed, whatever the texts of the data say.
    Fixed,
    /// It may not be fixed, and this is the first fault: the first location that keeps it from being fixed.
    NotFixed(MarkupFault),
}

// The first fault of all, if there is one.
fn first_of(faults: Vec<MarkupFault>) -> Markup
    ensures { result ≡ first_reported faults.items }
{
    match faults.into_iter().next() {
        Some(fault) => Markup::NotFixed(fault),
        None => Markup::Fixed,
    }
}

// The names of a map of templates are in byte order, each once.
pub(crate) fn names_are_in_order(templates: &BTreeMap<String, Template>)
    ensures { AreInByteOrder (key_names templates.now.entries) }
{
    let _count = templates.len();
}

// By name.
impl<E: UserParts> RegistryOf<E> {
    /// Returns whether the markup of what is rendered by name is fixed, or the first fault: the first location that
    /// keeps it from being fixed. In dev mode the files of templates are read anew, as for a rendering.
    ///
    /// # Errors
    ///
    /// Fails with the error of a file that can't be read or doesn't compile, or when memory runs out.
    pub fn markup_is_fixed<R: TemplateReader>(&self, files: &mut R) -> Result<Markup, RenderError>
        ensures ok { IfOk result (λ m. HasRead R.reads self.now None files.old files.new (λ read.
            Judges E.registered E.user (tree_among read) self.now NoSource m)) }
        ensures err { IfErr result (λ e. reason_in e ≢ out_of_memory
            → FailsWithFiles R.reads self.now None files.old files.new (λ read f. ⊥) e) }
        ensures asks { AsksFor R.reads self.now None files.old files.new }
        ensures unread { is_dev self.now ≡ false → files.new ≡ files.old }
    {
        match self.markup_faults(files) {
            Ok(faults) => Ok(first_of(faults)),
            Err(e) => Err(e),
        }
    }

    /// Returns all faults: the locations that keep the markup of what is rendered by name from being fixed. First come
    /// those of what is registered beside templates, then those of templates in byte order of name, with those that dev
    /// mode read anew before others, each in the order of its source.
    ///
    /// # Errors
    ///
    /// Fails with the error of a file that can't be read or doesn't compile, or when memory runs out.
    pub fn markup_faults<R: TemplateReader>(
        &self,
        files: &mut R,
    ) -> Result<Vec<MarkupFault>, RenderError>
        ensures ok { IfOk result (λ faults. HasRead R.reads self.now None files.old files.new (λ read.
            Reports E.registered E.user (tree_among read) self.now NoSource (map fault_of faults.items))) }
        ensures err { IfErr result (λ e. reason_in e ≢ out_of_memory
            → FailsWithFiles R.reads self.now None files.old files.new (λ read f. ⊥) e) }
        ensures asks { AsksFor R.reads self.now None files.old files.new }
        ensures unread { is_dev self.now ≡ false → files.new ≡ files.old }
    {
        let read = self.read_for(None, files)?;
        let mut faults = Vec::new(self.alloc);
        self.check_registered(&read, &mut faults)?;
        Ok(faults)
    }
}

// By source.
impl<E: UserParts> RegistryOf<E> {
    /// Returns whether the markup of what a source renders is fixed, or the first fault: the first location that keeps
    /// it from being fixed.
    ///
    /// # Errors
    ///
    /// Fails with the error of the source if it doesn't compile, with the error of a file that can't be read or doesn't
    /// compile, or when memory runs out.
    pub fn template_markup_is_fixed<R: TemplateReader>(
        &self,
        source: &str,
        files: &mut R,
    ) -> Result<Markup, RenderError>
        ensures ok { IfOk result (λ m. HasRead R.reads self.now None files.old files.new (λ read.
            Judges E.registered E.user (tree_among read) self.now (FromSource (options_of self.now) source.now) m)) }
        ensures err { IfErr result (λ e. reason_in e ≢ out_of_memory
            → FailsWithSource R.reads self.now (options_of self.now) source.now files.old files.new (λ read f. ⊥) e) }
        ensures asks { AsksFor R.reads self.now None files.old files.new }
        ensures unread { is_dev self.now ≡ false → files.new ≡ files.old }
    {
        match self.template_markup_faults(source, files) {
            Ok(faults) => Ok(first_of(faults)),
            Err(e) => Err(e),
        }
    }

    /// Returns all faults: the locations that keep the markup of what a source renders from being fixed. First come
    /// those of the source, and then all others as for a rendering by name.
    ///
    /// # Errors
    ///
    /// Fails with the error of the source if it doesn't compile, with the error of a file that can't be read or doesn't
    /// compile, or when memory runs out.
    pub fn template_markup_faults<R: TemplateReader>(
        &self,
        source: &str,
        files: &mut R,
    ) -> Result<Vec<MarkupFault>, RenderError>
        ensures ok { IfOk result (λ faults. HasRead R.reads self.now None files.old files.new (λ read.
            Reports E.registered E.user (tree_among read) self.now (FromSource (options_of self.now) source.now)
            (map fault_of faults.items))) }
        ensures err { IfErr result (λ e. reason_in e ≢ out_of_memory
            → FailsWithSource R.reads self.now (options_of self.now) source.now files.old files.new (λ read f. ⊥) e) }
        ensures asks { AsksFor R.reads self.now None files.old files.new }
        ensures unread { is_dev self.now ≡ false → files.new ≡ files.old }
    {
        let template = self.compiled(source)?;
        let read = self.read_for(None, files)?;
        let mut faults = Vec::new(self.alloc);
        check_template(self.alloc, &self.entries, None, &template, &mut faults)?;
        self.check_registered(&read, &mut faults)?;
        Ok(faults)
    }
}

// Name by name.
impl<E: UserParts> RegistryOf<E> {
    // What is registered, with the trees that were read.
    fn check_registered(
        &self,
        read: &BTreeMap<String, Template>,
        faults: &mut Vec<MarkupFault>,
    ) -> Result<(), AllocError>
        ensures { OnOk result ((fs : List Fault) × AddsFindings faults.old.items faults.new.items fs
            × Reports E.registered E.user (tree_in read.now) self.now NoSource fs) }
    {
        names_are_in_order(read);
        names_are_in_order(&self.templates);
        check_parts(self.alloc, &self.entries, faults)?;
        self.check_read(read, faults)?;
        self.check_stored(read, faults)
    }

    // All templates that were read.
    fn check_read(
        &self,
        read: &BTreeMap<String, Template>,
        faults: &mut Vec<MarkupFault>,
    ) -> Result<(), AllocError>
        ensures { OnOk result (AddsFindings faults.old.items faults.new.items
            (faults_under_all (E.registered self.now.entries) (overlaid_on (tree_in read.now) (stored_tree self.now))
            (key_names read.now.entries))) }
    {
        'names: for (name, _) in read {
            self.check_named(name.as_str(), read, faults)?;
        }
        Ok(())
    }

    // All other registered templates.
    fn check_stored(
        &self,
        read: &BTreeMap<String, Template>,
        faults: &mut Vec<MarkupFault>,
    ) -> Result<(), AllocError>
        ensures { OnOk result (AddsFindings faults.old.items faults.new.items
            (faults_under_all (E.registered self.now.entries) (overlaid_on (tree_in read.now) (stored_tree self.now))
            (unread (tree_in read.now) (key_names self.now.templates.entries)))) }
    {
        'names: for (name, _) in &self.templates {
            if !read.contains_key(name.as_str()) {
                self.check_named(name.as_str(), read, faults)?;
            }
        }
        Ok(())
    }

    // The template under a name.
    fn check_named(
        &self,
        name: &str,
        read: &BTreeMap<String, Template>,
        faults: &mut Vec<MarkupFault>,
    ) -> Result<(), AllocError>
        ensures { OnOk result (AddsFindings faults.old.items faults.new.items
            (faults_under (E.registered self.now.entries) (overlaid_on (tree_in read.now) (stored_tree self.now)) name.now)) }
    {
        match self.template_over(read, name) {
            Some(template) => {
                check_template(self.alloc, &self.entries, Some(name), template, faults)
            }
            None => Ok(()),
        }
    }
}
