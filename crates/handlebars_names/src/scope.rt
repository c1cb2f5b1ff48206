//! What is known where an element is rendered.

ghost use Rattle.std.specs.Prelude.{◌≡◌, ◌∷◌, ◌++◌, [], IfOk, OnOk, map};
ghost use Rattle.std.specs.List.{list_all};
ghost use Rattle.handlebars_html.specs.Ascii as definitions;
ghost use Rattle.handlebars_names.specs.NamesView.{scope_of};
ghost use Rattle.handlebars_names.specs.Scopes as scopes;

use std::alloc::{AllocError, Global};

/// The inline partials that are set for certain, and whether a block was captured for certain.
#[derive(Debug)]
pub struct Scope<'t> {
    pub partials: Vec<&'t str>,
    pub block: bool,
}

// Not derived, so that each drop of one is a single call.
impl Drop for Scope<'_> {
    fn drop(self) {
        let Scope {
            partials: _,
            block: _,
        } = self;
    }
}

impl<'t> Scope<'t> {
    /// Returns what is known where a page begins: nothing.
    pub fn first(alloc: Global) -> Scope<'t>
        ensures { scope_of result ≡ scopes.first_scope }
    {
        Scope {
            partials: Vec::new(alloc),
            block: false,
        }
    }

    /// Returns whether the inline partial of this name is set.
    pub fn has_partial(&self, name: &str) -> bool
        ensures { result ≡ definitions.is_one_of (scope_of self.now).partials name.now }
    {
        is_one_of(&self.partials, name)
    }

    /// Returns a copy, in which it is known or not whether a block was captured.
    ///
    /// # Errors
    ///
    /// Fails if memory runs out.
    pub fn copy(&self, alloc: Global, block: bool) -> Result<Scope<'t>, AllocError>
        ensures { IfOk result (λ s. scope_of s ≡ record (scope_of self.now) { block = block }) }
    {
        let mut partials = Vec::new(alloc);
        partials.extend_from_slice(&self.partials)?;
        Ok(Scope { partials, block })
    }

    /// Adds an inline partial that is set.
    ///
    /// # Errors
    ///
    /// Fails if memory runs out.
    pub fn add(&mut self, name: &'t str) -> Result<(), AllocError>
        ensures { OnOk result (scope_of self.new
            ≡ record (scope_of self.old) { partials = (scope_of self.old).partials ++ name.now ∷ [] }) }
    {
        self.partials.push(name)?;
        Ok(())
    }

    /// Returns whether all that this one has is known in the other.
    pub fn covers(&self, other: &Scope<'_>) -> bool
        ensures { result ≡ scopes.covers (scope_of self.now) (scope_of other.now) }
    {
        are_among(&self.partials, &other.partials) && (!self.block || other.block)
    }
}

/// Returns whether a name is one of these.
pub fn is_one_of(names: &[&str], name: &str) -> bool
    ensures { result ≡ definitions.is_one_of (map (λ s. s.now) names.now) name.now }
{
    match names.split_first() {
        None => false,
        Some((first, rest)) => *first == name || is_one_of(rest, name),
    }
}

// Whether each of the names is one of the others.
fn are_among(names: &[&str], others: &[&str]) -> bool
    ensures { result ≡ list_all (definitions.is_one_of (map (λ s. s.now) others.now)) (map (λ s. s.now) names.now) }
{
    match names.split_first() {
        None => true,
        Some((first, rest)) => is_one_of(others, first) && are_among(rest, others),
    }
}
