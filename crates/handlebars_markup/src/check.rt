//! Checks whether templates and registries are blind, and finds every location that breaks it.

ghost use Rattle.std.specs.Prelude.{OnOk, option_map};
ghost use Rattle.handlebars_template.specs.TreeView.{tree_view};
ghost use Rattle.handlebars_markup.specs.Faults.{faults_of_parts, faults_of_tree};
ghost use Rattle.handlebars_markup.specs.FaultsView.{AddsFindings};

mod asked;
mod blind;
mod decided;
mod location;
mod name;
mod parts;
mod tag;
mod tree;

use crate::fault::MarkupFault;
pub use decided::{faults_decide_parts, faults_decide_trees};
use handlebars_helpers::entries::UserParts;
use handlebars_template::template::Template;
use std::alloc::{AllocError, Global};

/// Adds what breaks the blindness of a template, over these helpers and decorators, in the order of its source. The
/// faults have this name as the name of the template, and so do those in its bodies.
///
/// # Errors
///
/// Fails with `AllocError` when memory runs out.
pub fn check_template<E: UserParts>(
    alloc: Global,
    entries: &E,
    name: Option<&str>,
    template: &Template,
    faults: &mut Vec<MarkupFault>,
) -> Result<(), AllocError>
    ensures { OnOk result (AddsFindings faults.old.items faults.new.items
        (faults_of_tree (E.registered entries.now) (option_map (λ s. s.now) name.entry) (tree_view template.now))) }
{
    tree::check_tree(template, alloc, entries, name, faults)
}

/// Adds what breaks the blindness of all templates: how values are escaped, and the hooks, which are called if a name
/// has no helper.
///
/// # Errors
///
/// Fails with `AllocError` when memory runs out.
pub fn check_parts<E: UserParts>(
    alloc: Global,
    entries: &E,
    faults: &mut Vec<MarkupFault>,
) -> Result<(), AllocError>
    ensures { OnOk result (AddsFindings faults.old.items faults.new.items (faults_of_parts (E.registered entries.now))) }
{
    parts::check_escape(alloc, entries.escape(), faults)?;
    parts::check_hook(alloc, entries, false, faults)?;
    parts::check_hook(alloc, entries, true, faults)
}
