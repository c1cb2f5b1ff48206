//! The names of the templates that are being rendered.

ghost use Rattle.std.specs.Prelude.{◌≡◌, option_map, string_bytes};
ghost use Rattle.handlebars_semantics.specs.Inclusion.{is_current};
ghost use Rattle.handlebars_expand.specs.View.{with_current};
ghost use Rattle.handlebars_context.specs.View.{root_of, state_of, IsUnchanged};

use crate::context::RenderContext;

impl RenderContext {
    /// Returns the name of the template that the run began with, if it has one.
    pub fn get_root_template_name(&self) -> Option<&String>
        ensures { option_map (λ name. string_bytes name.now) result ≡ root_of self.now }
    {
        self.root_template.as_ref()
    }

    /// Returns the name of the template whose elements are being rendered, if it has one.
    pub fn get_current_template_name(&self) -> Option<&String>
        ensures { option_map (λ name. string_bytes name.now) result ≡ (state_of self.now).current }
    {
        self.run.current_template.as_ref()
    }

    /// Sets the name of the template whose elements are being rendered, or removes it.
    pub fn set_current_template_name(&mut self, name: Option<String>)
        ensures state { state_of self.new ≡ with_current (option_map string_bytes name) (state_of self.old) }
        ensures unchanged { IsUnchanged self.old self.new }
    {
        self.run.current_template = name;
    }

    /// Returns whether `name` is the name of the template whose elements are being rendered.
    #[inline(always)]
    pub fn is_current_template(&self, name: &str) -> bool
        ensures { result ≡ is_current name.now (state_of self.now).current }
    {
        match &self.run.current_template {
            Some(current) => current.as_str() == name,
            None => false,
        }
    }
}
