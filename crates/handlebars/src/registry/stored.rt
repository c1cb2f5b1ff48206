//! What is registered under the names of templates.

ghost use Rattle.std.specs.BTreeMap.{get_by_text};
ghost use Rattle.std.specs.Prelude.{◌≡◌, None, cond, option_map};
ghost use Rattle.std.specs.Str.{bytes_eq};
ghost use Rattle.handlebars_base.specs.Bytes.{Text};
ghost use Rattle.handlebars_template.specs.TreeView.{tree_view};
ghost use Rattle.handlebars.specs.Files.{is_dev, overlaid_on, remembered_path};
ghost use Rattle.handlebars.specs.Store.{TakesTemplate};
ghost use Rattle.handlebars.specs.View.{modes_of, stored_tree};

use crate::registry::RegistryOf;
use crate::render::logging::Trees;
use handlebars_template::template::Template;
use std::collections::BTreeMap;

impl<E: Drop> RegistryOf<E> {
    /// Removes the template that is registered under a name, if there is one. Its file, if it is remembered, is
    /// forgotten.
    pub fn unregister_template(&mut self, name: &str)
        ensures template { TakesTemplate self.old self.new name.now }
        ensures file { (other : Text) → remembered_path self.new other
            ≡ cond (bytes_eq name.now other) None (remembered_path self.old other) }
        ensures dev { is_dev self.new ≡ is_dev self.old }
        ensures entries { self.new.entries ≡ self.old.entries }
        ensures modes { modes_of self.new ≡ modes_of self.old }
    {
        self.templates.remove(name);
        self.dev.forget(name);
    }

    /// Removes all templates, and forgets all files.
    pub fn clear_templates(&mut self)
        ensures templates { (name : Text) → stored_tree self.new name ≡ None }
        ensures files { (name : Text) → remembered_path self.new name ≡ None }
        ensures dev { is_dev self.new ≡ is_dev self.old }
        ensures entries { self.new.entries ≡ self.old.entries }
        ensures modes { modes_of self.new ≡ modes_of self.old }
    {
        self.templates.clear();
        self.dev.forget_all();
    }

    /// Returns all templates, by their names.
    pub fn get_templates(&self) -> &BTreeMap<String, Template>
        ensures { (name : Text) → option_map tree_view (get_by_text result.now name) ≡ stored_tree self.now name }
    {
        &self.templates
    }

    // The template under a name: one of the overlaid trees if there is one, otherwise the registered one.
    pub(crate) fn template_over<'t, T: Trees>(
        &'t self,
        read: &'t T,
        name: &str,
    ) -> Option<&'t Template>
        ensures { option_map (λ t. tree_view t.now) result ≡ overlaid_on (T.trees read.now) (stored_tree self.now) name.now }
    {
        match read.tree(name) {
            Some(template) => Some(template),
            None => self.get_template(name),
        }
    }
}
