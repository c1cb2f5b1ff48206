//! The registry: what templates are rendered with.

ghost use Rattle.std.specs.Prelude.{◌≡◌, ◌≢◌, IfOk, IfErr, OnErr, OnOk, option_map, None, Some, false, is_some};
ghost use Rattle.handlebars_base.specs.Bytes.{Text};
ghost use Rattle.handlebars_base.specs.Reasons.{template_out_of_memory};
ghost use Rattle.handlebars_base.specs.TemplateRefusals.{template_refusal_of};
ghost use Rattle.handlebars_template.specs.Compile.{Compiles, compiled, rejected};
ghost use Rattle.handlebars_template.specs.Tree.{Tree};
ghost use Rattle.handlebars_template.specs.TreeView.{tree_view};
ghost use Rattle.handlebars_helpers.specs.Decoration.{built_in_decorator};
ghost use Rattle.handlebars_helpers.specs.Callee.{first_callee};
ghost use Rattle.handlebars_helpers.specs.Escaping.{for_html};
ghost use Rattle.handlebars.specs.Store.{Stores, HasSameParts, HasSameTemplates, PutsDecorator, PutsEscape, PutsHelper};
ghost use Rattle.handlebars.specs.Files.{is_dev};
ghost use Rattle.handlebars.specs.View.{modes_of, registered_options, stored_tree};

mod calls;
mod dev;
mod emitting;
mod files;
mod html;
mod markup;
mod names;
mod pieces;
mod reading;
mod stored;
mod writing;

use crate::registry::dev::DevFiles;
pub use crate::registry::html::HtmlSafety;
pub use crate::registry::markup::Markup;
use handlebars_base::error::TemplateError;
use handlebars_helpers::decorators::entry::DecoratorEntryOf;
use handlebars_helpers::entries::{BoxedEntries, Entries, UserParts};
use handlebars_helpers::escape::EscapeKindOf;
use handlebars_helpers::user::entry::HelperEntryOf;
use handlebars_template::template::{Template, TemplateOptions};
use std::alloc::{AllocError, Global};
use std::collections::BTreeMap;

/// A registry: templates by name, the helpers, decorators and escape function that are registered beside them, and the
/// modes.
#[derive(Drop)]
pub struct RegistryOf<E> {
    alloc: Global,
    templates: BTreeMap<String, Template>,
    dev: DevFiles,
    pub(crate) entries: E,
    strict_mode: bool,
    recursive_lookup: bool,
    prevent_indent: bool,
    inclusion_limit: u16,
}

/// A registry of helpers, decorators and an escape function, built-in or user-defined.
pub type Registry = RegistryOf<BoxedEntries>;

// Templates and modes.
impl<E: Drop> RegistryOf<E> {
    /// Enables or disables strict mode. In strict mode a rendering fails if a value that it would write is missing, or
    /// if a value that some helpers require is missing.
    pub fn set_strict_mode(&mut self, enabled: bool)
        ensures modes { modes_of self.new ≡ record (modes_of self.old) { strict = enabled } }
        ensures entries { self.new.entries ≡ self.old.entries }
        ensures unchanged { HasSameTemplates self.old self.new }
        ensures dev { self.new.dev ≡ self.old.dev }
    {
        self.strict_mode = enabled;
    }

    /// Returns whether strict mode is enabled.
    pub fn strict_mode(&self) -> bool
        ensures { result ≡ (modes_of self.now).strict }
    {
        self.strict_mode
    }

    /// Enables or disables recursive lookup: in a block that is at a path of the data, a plain name that no block binds
    /// is looked up under the prefixes of that path, the longest first.
    pub fn set_recursive_lookup(&mut self, enabled: bool)
        ensures modes { modes_of self.new ≡ record (modes_of self.old) { recursive = enabled } }
        ensures entries { self.new.entries ≡ self.old.entries }
        ensures unchanged { HasSameTemplates self.old self.new }
        ensures dev { self.new.dev ≡ self.old.dev }
    {
        self.recursive_lookup = enabled;
    }

    /// Returns whether recursive lookup is enabled.
    pub fn recursive_lookup(&self) -> bool
        ensures { result ≡ (modes_of self.now).recursive }
    {
        self.recursive_lookup
    }

    /// Sets whether partials add no indentation, in sources that are compiled from now on.
    pub fn set_prevent_indent(&mut self, enabled: bool)
        ensures modes { modes_of self.new ≡ record (modes_of self.old) { prevent_indent = enabled } }
        ensures entries { self.new.entries ≡ self.old.entries }
        ensures unchanged { HasSameTemplates self.old self.new }
        ensures dev { self.new.dev ≡ self.old.dev }
    {
        self.prevent_indent = enabled;
    }

    /// Returns whether partials add no indentation.
    pub fn prevent_indent(&self) -> bool
        ensures { result ≡ (modes_of self.now).prevent_indent }
    {
        self.prevent_indent
    }

    /// Sets how many partials may be nested. A rendering that nests one more fails.
    pub fn set_inclusion_limit(&mut self, limit: u16)
        ensures modes { modes_of self.new ≡ record (modes_of self.old) { limit = limit } }
        ensures entries { self.new.entries ≡ self.old.entries }
        ensures unchanged { HasSameTemplates self.old self.new }
        ensures dev { self.new.dev ≡ self.old.dev }
    {
        self.inclusion_limit = limit;
    }

    /// Returns how many partials may be nested.
    pub fn inclusion_limit(&self) -> u16
        ensures { result ≡ (modes_of self.now).limit }
    {
        self.inclusion_limit
    }

    /// Registers a tree under the name, and replaces the one that was registered under it.
    ///
    /// # Errors
    ///
    /// Fails with `AllocError` when memory runs out; then nothing is changed.
    pub fn register_template(&mut self, name: &str, template: Template) -> Result<(), AllocError>
        ensures ok { OnOk result (Stores self.old self.new name.now (tree_view template)) }
        ensures unchanged { OnErr result (HasSameTemplates self.old self.new) }
        ensures entries { self.new.entries ≡ self.old.entries }
        ensures modes { modes_of self.new ≡ modes_of self.old }
        ensures dev { self.new.dev ≡ self.old.dev }
    {
        let key = String::from_str(self.alloc, name)?;
        self.templates.insert(key, template)?;
        Ok(())
    }

    /// Compiles a source and registers its tree under the name, and replaces the one that was registered under it.
    ///
    /// # Errors
    ///
    /// Fails with the error of the source if it doesn't compile, or when memory runs out. Then nothing is changed.
    pub fn register_template_string(
        &mut self,
        name: &str,
        source: &str,
    ) -> Result<(), TemplateError>
        ensures ok { OnOk result ((t : Tree)
            × Compiles source.now (registered_options (modes_of self.old).prevent_indent name.now) (compiled t)
            × Stores self.old self.new name.now t) }
        ensures err { IfErr result (λ e. (template_refusal_of e).reason ≢ template_out_of_memory
            → Compiles source.now (registered_options (modes_of self.old).prevent_indent name.now)
            (rejected (template_refusal_of e))) }
        ensures unchanged { OnErr result (HasSameTemplates self.old self.new) }
        ensures entries { self.new.entries ≡ self.old.entries }
        ensures modes { modes_of self.new ≡ modes_of self.old }
        ensures dev { self.new.dev ≡ self.old.dev }
    {
        let template = self.compiled_as(name, source)?;
        self.register_template(name, template)?;
        Ok(())
    }

    /// Compiles a source and registers its tree under the name of a partial. A partial is a template: this is
    /// `register_template_string`.
    pub fn register_partial(&mut self, name: &str, source: &str) -> Result<(), TemplateError>
        ensures ok { OnOk result ((t : Tree)
            × Compiles source.now (registered_options (modes_of self.old).prevent_indent name.now) (compiled t)
            × Stores self.old self.new name.now t) }
        ensures err { IfErr result (λ e. (template_refusal_of e).reason ≢ template_out_of_memory
            → Compiles source.now (registered_options (modes_of self.old).prevent_indent name.now)
            (rejected (template_refusal_of e))) }
        ensures unchanged { OnErr result (HasSameTemplates self.old self.new) }
        ensures entries { self.new.entries ≡ self.old.entries }
        ensures modes { modes_of self.new ≡ modes_of self.old }
        ensures dev { self.new.dev ≡ self.old.dev }
    {
        self.register_template_string(name, source)
    }

    // The tree of a source, for this name.
    fn compiled_as(&self, name: &str, source: &str) -> Result<Template, TemplateError>
        ensures ok { IfOk result (λ t. Compiles source.now (registered_options (modes_of self.now).prevent_indent name.now)
            (compiled (tree_view t))) }
        ensures err { IfErr result (λ e. (template_refusal_of e).reason ≢ template_out_of_memory
            → Compiles source.now (registered_options (modes_of self.now).prevent_indent name.now)
            (rejected (template_refusal_of e))) }
    {
        let options = TemplateOptions {
            name: Some(String::from_str(self.alloc, name)?),
            prevent_indent: self.prevent_indent,
        };
        Template::compile2(self.alloc, source, options)
    }

    /// Returns whether a template is registered under the name.
    pub fn has_template(&self, name: &str) -> bool
        ensures { result ≡ is_some (stored_tree self.now name.now) }
    {
        self.templates.contains_key(name)
    }

    /// Returns the template that is registered under the name, if there is one.
    pub fn get_template(&self, name: &str) -> Option<&Template>
        ensures { option_map (λ t. tree_view t.now) result ≡ stored_tree self.now name.now }
    {
        self.templates.get(name)
    }
}

// What is registered by name.
impl<B: Drop, F: Drop, D: Drop, G: Drop, X: Drop> RegistryOf<Entries<B, F, D, G, X>> {
    /// Registers a helper under a name, and replaces the one that was registered under it. If a name has no helper,
    /// expressions call the helper named `helperMissing`, and blocks call the one named `blockHelperMissing`.
    ///
    /// # Errors
    ///
    /// Fails with `AllocError` when memory runs out; then nothing is changed.
    pub fn register_helper(
        &mut self,
        name: &str,
        def: HelperEntryOf<B, F>,
    ) -> Result<(), AllocError>
        ensures ok { OnOk result (PutsHelper self.old self.new name.now (Some def)) }
        ensures err { OnErr result (HasSameParts self.old self.new) }
        ensures unchanged { HasSameTemplates self.old self.new }
        ensures dev { self.new.dev ≡ self.old.dev }
    {
        let name = String::from_str(self.alloc, name)?;
        self.entries.helpers.insert(name, def)
    }

    /// Removes the helper that is registered under a name, if there is one.
    pub fn unregister_helper(&mut self, name: &str)
        ensures helper { PutsHelper self.old self.new name.now None }
        ensures unchanged { HasSameTemplates self.old self.new }
        ensures dev { self.new.dev ≡ self.old.dev }
    {
        self.entries.helpers.remove(name);
    }

    /// Registers a decorator under a name, and replaces the one that was registered under it.
    ///
    /// # Errors
    ///
    /// Fails with `AllocError` when memory runs out; then nothing is changed.
    pub fn register_decorator(
        &mut self,
        name: &str,
        def: DecoratorEntryOf<D, G>,
    ) -> Result<(), AllocError>
        ensures ok { OnOk result (PutsDecorator self.old self.new name.now (Some def)) }
        ensures err { OnErr result (HasSameParts self.old self.new) }
        ensures unchanged { HasSameTemplates self.old self.new }
        ensures dev { self.new.dev ≡ self.old.dev }
    {
        let name = String::from_str(self.alloc, name)?;
        self.entries.decorators.insert(name, def)
    }

    /// Sets how the text of a value is escaped before it is written.
    pub fn register_escape_fn(&mut self, escape_fn: EscapeKindOf<X>)
        ensures escape { PutsEscape self.old self.new escape_fn }
        ensures unchanged { HasSameTemplates self.old self.new }
        ensures dev { self.new.dev ≡ self.old.dev }
    {
        self.entries.escape = escape_fn;
    }

    /// Restores escaping for html, as in a new registry.
    pub fn unregister_escape_fn(&mut self)
        ensures escape { PutsEscape self.old self.new (EscapeKindOf.Html) }
        ensures unchanged { HasSameTemplates self.old self.new }
        ensures dev { self.new.dev ≡ self.old.dev }
    {
        self.entries.escape = EscapeKindOf::Html;
    }

    /// Returns how values are escaped.
    pub fn get_escape_fn(&self) -> &EscapeKindOf<X>
        ensures { result.now ≡ self.now.entries.escape }
    {
        &self.entries.escape
    }
}

// A new one.
impl<E: UserParts> RegistryOf<E> {
    /// Creates a registry with the built-in helpers and decorators, and nothing else. Values are escaped for html,
    /// strict mode, recursive lookup and dev mode are disabled, partials add their indentation, and 64 of them may be
    /// nested.
    ///
    /// # Errors
    ///
    /// Fails with `AllocError` when memory runs out.
    pub fn new(alloc: Global) -> Result<RegistryOf<E>, AllocError>
        ensures templates { IfOk result (λ r. (name : Text) → stored_tree r name ≡ None) }
        ensures helpers { IfOk result (λ r. (name : Text) → (E.registered r.entries).helper name ≡ first_callee name) }
        ensures decorators { IfOk result
            (λ r. (name : Text) → (E.registered r.entries).decorator name ≡ built_in_decorator name) }
        ensures escape { IfOk result (λ r. (E.registered r.entries).escape ≡ for_html) }
        ensures strict { IfOk result (λ r. (modes_of r).strict ≡ false) }
        ensures recursive { IfOk result (λ r. (modes_of r).recursive ≡ false) }
        ensures prevents { IfOk result (λ r. (modes_of r).prevent_indent ≡ false) }
        ensures limit { IfOk result (λ r. (modes_of r).limit ≡ 64) }
        ensures dev { IfOk result (λ r. is_dev r ≡ false) }
    {
        Ok(RegistryOf {
            alloc,
            templates: BTreeMap::new(alloc),
            dev: DevFiles::new(),
            entries: E::first(alloc)?,
            strict_mode: false,
            recursive_lookup: false,
            prevent_indent: false,
            inclusion_limit: 64,
        })
    }
}
