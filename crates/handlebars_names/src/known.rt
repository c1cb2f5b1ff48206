//! What a template is read by.

use crate::table::Table;
use crate::templates::Templates;
use handlebars_template::template::Template;
use std::alloc::Global;
use std::collections::BTreeSet;

/// What a template is read by: whether blocks may be sections, the registered templates, and what is known of names that are
/// included.
#[derive(Clone, Copy)]
pub struct Known<'a, 't> {
    pub alloc: Global,
    pub sections: bool,
    /// The names of helpers, for advice.
    pub helpers: &'a BTreeSet<String>,
    pub templates: &'a Templates<'a, 't>,
    pub table: &'a Table<'t>,
}

/// What is checked, as a page.
#[derive(Clone, Copy)]
pub enum Page<'t> {
    /// A source.
    Source(&'t Template),
    /// The template of this name, which may be rendered by it.
    Template(&'t str),
}
