//! A registry and data.

use crate::given::data_of;
use crate::outcome::Stop;
use handlebars::{Context, EscapeKind, Registry, TemplateError};
use std::alloc::{AllocError, Global};

/// A registry and data. Two pairs that are created identically show that an error changes neither a registry nor data.
///
/// In this crate each registry is part of a `Pair`. Dropping a pair is one call, whereas a registry alone is dropped field by
/// field at each exit of a function, which is expensive to prove.
pub struct Pair {
    pub registry: Registry,
    pub data: Context,
}

impl Drop for Pair {
    fn drop(self) {
        let Pair {
            registry: _,
            data: _,
        } = self;
    }
}

impl Pair {
    /// Creates a new registry, and no data.
    pub fn new(alloc: Global) -> Result<Pair, AllocError> {
        Ok(Pair {
            registry: Registry::new(alloc)?,
            data: Context::null(),
        })
    }

    /// Creates a new registry, and the data of a JSON text.
    pub fn over(alloc: Global, data: &str) -> Result<Pair, Stop> {
        let mut pair = Pair::new(alloc)?;
        pair.data = data_of(alloc, data)?;
        Ok(pair)
    }

    /// Creates a new registry with templates, by name and source, and no data.
    pub fn with(alloc: Global, templates: &[(&str, &str)]) -> Result<Pair, Stop> {
        let mut pair = Pair::over(alloc, "null")?;
        pair.put_all(templates)?;
        Ok(pair)
    }

    /// Registers templates, by name and source.
    pub fn put_all(&mut self, templates: &[(&str, &str)]) -> Result<(), TemplateError> {
        for (name, source) in templates {
            self.registry.register_template_string(name, source)?;
        }
        Ok(())
    }

    /// Returns whether both have the same templates, toggles and data.
    pub fn is_like(&self, other: &Pair) -> bool {
        let (one, another) = (&self.registry, &other.registry);
        one.get_templates() == another.get_templates()
            && one.strict_mode() == another.strict_mode()
            && one.recursive_lookup() == another.recursive_lookup()
            && one.dev_mode() == another.dev_mode()
            && one.prevent_indent() == another.prevent_indent()
            && one.inclusion_limit() == another.inclusion_limit()
            && is_html(one.get_escape_fn()) == is_html(another.get_escape_fn())
            && self.data.data() == other.data.data()
    }
}

fn is_html(kind: &EscapeKind) -> bool {
    matches!(kind, EscapeKind::Html)
}
