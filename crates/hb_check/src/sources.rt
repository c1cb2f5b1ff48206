//! The templates that are registered, with their texts.

ghost use Rattle.std.specs.Prelude.{◌≡◌, ◌++◌, if◌then◌else◌, None, OnOk, Some, option_map, map, string_bytes};
ghost use Rattle.std.specs.Str.{bytes_eq};
ghost use Rattle.handlebars_base.specs.Bytes.{Text};
ghost use Rattle.handlebars_html.specs.SearchView.{template_of};
ghost use Rattle.hb_check.specs.Sources.{numbered_of, source_under, templates_in};

use handlebars_html::search::NamedTemplate;
use handlebars_includes::NamedTemplate as Numbered;
use handlebars_template::template::Template;
use std::alloc::{AllocError, Global};
use std::collections::BTreeMap;

/// A template, with the path and the text of its file.
pub struct Source<'f> {
    pub path: &'f str,
    pub text: &'f str,
    /// What the text compiles to; with no elements if it doesn't compile.
    pub template: Template,
}

// Not derived, so that each drop of one is a single call.
impl Drop for Source<'_> {
    fn drop(self) {
        let Source {
            path: _,
            text: _,
            template: _,
        } = self;
    }
}

/// The registered templates by name.
#[derive(Drop)]
pub struct Sources<'f> {
    by_name: BTreeMap<String, Source<'f>>,
}

impl<'f> Sources<'f> {
    /// Creates what has no template.
    pub fn new(alloc: Global) -> Sources<'f>
        ensures { (n : Text) → source_under result n ≡ None }
    {
        Sources {
            by_name: BTreeMap::new(alloc),
        }
    }

    /// Registers a template under a name, in the place of the one that was registered under it.
    ///
    /// # Errors
    ///
    /// Fails if memory runs out.
    pub fn insert(&mut self, name: String, source: Source<'f>) -> Result<(), AllocError>
        ensures { OnOk result ((n : Text) → source_under self.new n ≡ if bytes_eq (string_bytes name) n then Some source.entry else source_under self.old n) }
    {
        self.by_name.insert(name, source)?;
        Ok(())
    }

    /// Returns the template that is registered under a name.
    pub fn get(&self, name: &str) -> Option<&Source<'f>>
        ensures { option_map (λ s. s.now) result ≡ source_under self.now name.now }
    {
        self.by_name.get(name)
    }

    /// Adds the templates to a list, in byte order of name.
    ///
    /// # Errors
    ///
    /// Fails if memory runs out.
    pub fn list<'t>(&'t self, templates: &mut Vec<NamedTemplate<'t>>) -> Result<(), AllocError>
        ensures { OnOk result
            (map template_of templates.new.items ≡ map template_of templates.old.items ++ templates_in self.now) }
    {
        'sources: for (name, source) in &self.by_name {
            templates.push(NamedTemplate {
                name: name.as_str(),
                template: &source.template,
            })?;
        }
        Ok(())
    }

    /// Adds the templates to a list for [`handlebars_includes`], in byte order of name.
    ///
    /// # Errors
    ///
    /// Fails if memory runs out.
    pub fn number<'t>(&'t self, templates: &mut Vec<Numbered<'t>>) -> Result<(), AllocError>
        ensures { OnOk result
            (map numbered_of templates.new.items ≡ map numbered_of templates.old.items ++ templates_in self.now) }
    {
        'sources: for (name, source) in &self.by_name {
            templates.push(Numbered {
                name: name.as_str(),
                template: &source.template,
            })?;
        }
        Ok(())
    }
}
