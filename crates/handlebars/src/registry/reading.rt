//! Dev mode: the files of templates are read anew at each rendering.

ghost use Rattle.std.specs.Prelude.{◌≡◌, ◌∷◌, [], IfOk, IfErr, OnOk, List, map};
ghost use Rattle.std.specs.Prelude.{None, Some, Ok, Err, false, cond, option_map};
ghost use Rattle.std.specs.Str.{bytes_eq};
ghost use Rattle.handlebars_base.specs.Bytes.{Text};
ghost use Rattle.handlebars_template.specs.TreeView.{tree_view};
ghost use Rattle.handlebars.specs.Dev.{AsksFor, FailsReading, FailsRendering, HoldsTrees, ReadsFiles, ReadsInto};
ghost use Rattle.handlebars.specs.Dev.{asked_file, file_at, files_for, is_asked, is_known, others};
ghost use Rattle.handlebars.specs.Files.{IsByName, Loaded, file_of, files_of, is_dev, remembered_path, tree_in};
ghost use Rattle.handlebars.specs.Store.{HasSameTemplates};
ghost use Rattle.handlebars.specs.View.{modes_of};

use crate::registry::RegistryOf;
use crate::sources::TemplateReader;
use handlebars_base::error::{RenderError, TemplateError};
use handlebars_template::template::Template;
use std::alloc::{AllocError, Global};
use std::collections::BTreeMap;

impl<E: Drop> RegistryOf<E> {
    /// Enables or disables dev mode. If it is enabled, the files of templates that are registered from now on are
    /// remembered, and read anew at each rendering. If it is disabled, no files are remembered, and those that were are
    /// forgotten.
    pub fn set_dev_mode(&mut self, enabled: bool)
        ensures dev { is_dev self.new ≡ enabled }
        ensures files { (name : Text) → remembered_path self.new name ≡ cond enabled (remembered_path self.old name) None }
        ensures unchanged { HasSameTemplates self.old self.new }
        ensures entries { self.new.entries ≡ self.old.entries }
        ensures modes { modes_of self.new ≡ modes_of self.old }
    {
        self.dev.switch(self.alloc, enabled);
    }

    /// Returns whether dev mode is on.
    pub fn dev_mode(&self) -> bool
        ensures { result ≡ is_dev self.now }
    {
        self.dev.is_on()
    }

    // The files that are remembered are in order of the names, each name once.
    pub(crate) fn files_are_in_order(&self)
        ensures { IsByName (files_of self.now) }
    {
        self.dev.are_in_order();
    }

    // The trees of the files that are remembered, read anew: first that of the name that is asked for, then all others
    // in order of name. If nothing is registered under that name, no file is read.
    fn read_files<R: TemplateReader>(
        &self,
        asked: Option<&str>,
        files: &mut R,
    ) -> Result<BTreeMap<String, Template>, TemplateError>
        ensures ok { IfOk result (λ trees. (read : List Loaded) × ReadsFiles R.reads (modes_of self.now).prevent_indent
            (files_for self.now (option_map (λ s. s.now) asked.entry)) files.old read (Ok tt) files.new
            × HoldsTrees read trees) }
        ensures err { IfErr result (λ e. FailsReading R.reads (modes_of self.now).prevent_indent
            (files_for self.now (option_map (λ s. s.now) asked.entry)) files.old files.new e) }
        ensures asks { AsksFor R.reads self.now (option_map (λ s. s.now) asked.entry) files.old files.new }
        ensures unread { is_dev self.now ≡ false → files.new ≡ files.old }
    {
        let mut trees = BTreeMap::new(self.alloc);
        if !self.is_known(asked) {
            return Ok(trees);
        }
        self.read_asked(asked, files, &mut trees)?;
        self.read_others(asked, files, &mut trees)?;
        Ok(trees)
    }

    // The trees of the files that are remembered, for a rendering; the error reports why one failed.
    pub(crate) fn read_for<R: TemplateReader>(
        &self,
        asked: Option<&str>,
        files: &mut R,
    ) -> Result<BTreeMap<String, Template>, RenderError>
        ensures ok { IfOk result (λ trees. (read : List Loaded) × ReadsFiles R.reads (modes_of self.now).prevent_indent
            (files_for self.now (option_map (λ s. s.now) asked.entry)) files.old read (Ok tt) files.new
            × HoldsTrees read trees) }
        ensures err { IfErr result (λ e. FailsRendering R.reads (modes_of self.now).prevent_indent
            (files_for self.now (option_map (λ s. s.now) asked.entry)) files.old files.new e) }
        ensures asks { AsksFor R.reads self.now (option_map (λ s. s.now) asked.entry) files.old files.new }
        ensures unread { is_dev self.now ≡ false → files.new ≡ files.old }
    {
        match self.read_files(asked, files) {
            Ok(trees) => Ok(trees),
            Err(e) => Err(RenderError::from(e)),
        }
    }

    // Whether a template is registered or a file is remembered under the name, if one is asked for.
    fn is_known(&self, asked: Option<&str>) -> bool
        ensures { result ≡ is_known self.now (option_map (λ s. s.now) asked.entry) }
    {
        match asked {
            Some(name) => self.has_template(name) || self.dev.path(name).is_some(),
            None => true,
        }
    }

    // The file of the name that is asked for.
    fn read_asked<R: TemplateReader>(
        &self,
        asked: Option<&str>,
        files: &mut R,
        trees: &mut BTreeMap<String, Template>,
    ) -> Result<(), TemplateError>
        ensures ok { OnOk result (ReadsInto R.reads (modes_of self.now).prevent_indent
            (asked_file (option_map (λ s. s.now) asked.entry) (remembered_path self.now))
            files.old files.new trees.old trees.new) }
        ensures err { IfErr result (λ e. FailsReading R.reads (modes_of self.now).prevent_indent
            (asked_file (option_map (λ s. s.now) asked.entry) (remembered_path self.now)) files.old files.new e) }
        ensures unread { is_dev self.now ≡ false → files.new ≡ files.old }
    {
        match asked {
            Some(name) => self.read_remembered(name, files, trees),
            None => Ok(()),
        }
    }

    // The file of a name, if one is remembered.
    fn read_remembered<R: TemplateReader>(
        &self,
        name: &str,
        files: &mut R,
        trees: &mut BTreeMap<String, Template>,
    ) -> Result<(), TemplateError>
        ensures ok { OnOk result (ReadsInto R.reads (modes_of self.now).prevent_indent
            (file_at name.now (remembered_path self.now name.now)) files.old files.new trees.old trees.new) }
        ensures err { IfErr result (λ e. FailsReading R.reads (modes_of self.now).prevent_indent
            (file_at name.now (remembered_path self.now name.now)) files.old files.new e) }
        ensures unread { is_dev self.now ≡ false → files.new ≡ files.old }
    {
        match self.dev.path(name) {
            Some(path) => self.read_into(name, path.as_str(), files, trees),
            None => Ok(()),
        }
    }

    // The files of all other names.
    fn read_others<R: TemplateReader>(
        &self,
        asked: Option<&str>,
        files: &mut R,
        trees: &mut BTreeMap<String, Template>,
    ) -> Result<(), TemplateError>
        ensures ok { OnOk result (ReadsInto R.reads (modes_of self.now).prevent_indent
            (others (option_map (λ s. s.now) asked.entry) (files_of self.now))
            files.old files.new trees.old trees.new) }
        ensures err { IfErr result (λ e. FailsReading R.reads (modes_of self.now).prevent_indent
            (others (option_map (λ s. s.now) asked.entry) (files_of self.now)) files.old files.new e) }
        ensures unread { is_dev self.now ≡ false → files.new ≡ files.old }
    {
        match self.dev.paths() {
            Some(paths) => self.read_all_but(asked, paths, files, trees),
            None => Ok(()),
        }
    }

    fn read_all_but<R: TemplateReader>(
        &self,
        asked: Option<&str>,
        paths: &BTreeMap<String, String>,
        files: &mut R,
        trees: &mut BTreeMap<String, Template>,
    ) -> Result<(), TemplateError>
        ensures ok { OnOk result (ReadsInto R.reads (modes_of self.now).prevent_indent
            (others (option_map (λ s. s.now) asked.entry) (map file_of paths.now.entries))
            files.old files.new trees.old trees.new) }
        ensures err { IfErr result (λ e. FailsReading R.reads (modes_of self.now).prevent_indent
            (others (option_map (λ s. s.now) asked.entry) (map file_of paths.now.entries)) files.old files.new e) }
    {
        'paths: for (name, path) in paths {
            if !is_asked(asked, name.as_str()) {
                self.read_into(name.as_str(), path.as_str(), files, trees)?;
            }
        }
        Ok(())
    }

    // A file's tree, under its name.
    fn read_into<R: TemplateReader>(
        &self,
        name: &str,
        path: &str,
        files: &mut R,
        trees: &mut BTreeMap<String, Template>,
    ) -> Result<(), TemplateError>
        ensures ok { OnOk result (ReadsInto R.reads (modes_of self.now).prevent_indent ((name.now, path.now) ∷ [])
            files.old files.new trees.old trees.new) }
        ensures err { IfErr result (λ e. FailsReading R.reads (modes_of self.now).prevent_indent
            ((name.now, path.now) ∷ [])
            files.old files.new e) }
    {
        let template = self.read_template(name, path, files)?;
        put(self.alloc, trees, name, template)?;
        Ok(())
    }
}

fn is_asked(asked: Option<&str>, name: &str) -> bool
    ensures { result ≡ is_asked (option_map (λ s. s.now) asked.entry) name.now }
{
    match asked {
        Some(asked) => asked == name,
        None => false,
    }
}

// Puts a tree under its name.
fn put(
    alloc: Global,
    trees: &mut BTreeMap<String, Template>,
    name: &str,
    template: Template,
) -> Result<(), AllocError>
    ensures { OnOk result ((other : Text) → tree_in trees.new other
        ≡ cond (bytes_eq name.now other) (Some (tree_view template)) (tree_in trees.old other)) }
{
    let key = String::from_str(alloc, name)?;
    trees.insert(key, template)?;
    Ok(())
}
