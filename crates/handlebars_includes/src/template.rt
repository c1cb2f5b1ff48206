//! A template and its name.

use handlebars_template::template::Template;

/// A template, with the name under which it is registered.
#[derive(Clone, Copy)]
pub struct NamedTemplate<'t> {
    pub name: &'t str,
    pub template: &'t Template,
}
