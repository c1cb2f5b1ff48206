//! The full paths of values of the data. Their names are made only where they are asked for.

ghost use Rattle.std.specs.Prelude.{◌≡◌, IfOk};
ghost use Rattle.handlebars_scope.specs.ResolutionView.{names_in};

use crate::made::path_of;
use crate::reached::Reached;
use std::alloc::{AllocError, Global};

/// The names that lead from the data to a value.
#[derive(Clone, Copy)]
pub struct FullPath<'n> {
    names: PathNames<'n>,
}

// Names that are listed, or those of a value that was reached.
#[derive(Clone, Copy)]
enum PathNames<'n> {
    Listed(&'n [String]),
    Reached(Reached<'n>),
}

impl<'n> FullPath<'n> {
    ghost use Rattle.std.specs.Prelude.{◌≡◌, IfOk};
    ghost use Rattle.handlebars_scope.specs.ResolutionView.{names_in};
    ghost use Rattle.handlebars_layers.specs.FullPathView.{names_on};
    ghost use Rattle.handlebars_layers.specs.Reached.{reached_names};

    /// Creates a full path of these names.
    pub fn of(names: &'n [String]) -> FullPath<'n>
        ensures { names_on result ≡ names_in names.now }
    {
        FullPath {
            names: PathNames::Listed(names),
        }
    }

    /// Creates the full path of a value that was reached. Nothing is looked up for it yet.
    #[inline(always)]
    pub fn reached(reached: Reached<'n>) -> FullPath<'n>
        ensures { names_on result ≡ reached_names reached.entry }
    {
        FullPath {
            names: PathNames::Reached(reached),
        }
    }

    /// Returns a copy of its names, from the data to the value. Runs in time linear in their number.
    ///
    /// # Errors
    ///
    /// Fails if memory runs out.
    pub fn copied(&self, alloc: Global) -> Result<Vec<String>, AllocError>
        ensures { IfOk result (λ path. names_in path.items ≡ names_on self.now) }
    {
        match self.names {
            PathNames::Listed(names) => listed(alloc, names),
            PathNames::Reached(reached) => path_of(reached.route(), alloc),
        }
    }
}

fn listed(alloc: Global, names: &[String]) -> Result<Vec<String>, AllocError>
    ensures { IfOk result (λ path. names_in path.items ≡ names_in names.now) }
{
    let mut path = Vec::with_capacity(alloc, names.len())?;
    for name in names {
        path.push(name.clone()?)?;
    }
    Ok(path)
}
