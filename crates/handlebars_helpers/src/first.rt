//! What every registry begins with.

ghost use Rattle.std.specs.Prelude.{◌≡◌, IfOk, OnOk, Some, bytes_eq};
ghost use Rattle.std.specs.Map.{update};
ghost use Rattle.handlebars_base.specs.Bytes.{Text};
ghost use Rattle.handlebars_helpers.specs.Callee.{built, first_callee};
ghost use Rattle.handlebars_helpers.specs.Decoration.{built_in_decorator};
ghost use Rattle.handlebars_helpers.specs.DecoratorEntryView.{decorators_of};
ghost use Rattle.handlebars_helpers.specs.EntryView.{callees_of};
ghost use Rattle.handlebars_helpers.specs.View.{built_in_kind};

use crate::built_in::{BuiltIn, table};
use crate::by_name::ByName;
use crate::decorators::entry::DecoratorEntryOf;
use crate::user::entry::HelperEntryOf;
use std::alloc::{AllocError, Global};

/// Returns the built-in helpers under their names.
///
/// # Errors
///
/// Returns `AllocError` if memory runs out.
pub fn built_in_helpers<B: Drop, F: Drop>(
    alloc: Global,
) -> Result<ByName<HelperEntryOf<B, F>>, AllocError>
    ensures { IfOk result (λ helpers. (name : Text) → callees_of helpers name ≡ first_callee name) }
{
    let mut helpers = ByName::new(alloc);
    'all: for (name, kind) in &table() {
        put(alloc, &mut helpers, *name, *kind)?;
    }
    Ok(helpers)
}

// Inserts a built-in helper under a name, and replaces the one that was there.
fn put<B: Drop, F: Drop>(
    alloc: Global,
    helpers: &mut ByName<HelperEntryOf<B, F>>,
    name: &str,
    kind: BuiltIn,
) -> Result<(), AllocError>
    ensures { OnOk result ((other : Text) → callees_of helpers.new other
        ≡ update bytes_eq (callees_of helpers.old) name.now (Some (built (built_in_kind kind))) other) }
{
    helpers.insert(String::from_str(alloc, name)?, HelperEntryOf::Built(kind))
}

/// Returns the built-in decorators under their names.
///
/// # Errors
///
/// Returns `AllocError` if memory runs out.
pub fn built_in_decorators<D: Drop, G: Drop>(
    alloc: Global,
) -> Result<ByName<DecoratorEntryOf<D, G>>, AllocError>
    ensures { IfOk result (λ decorators. (name : Text) → decorators_of decorators name ≡ built_in_decorator name) }
{
    let mut decorators = ByName::new(alloc);
    decorators.insert(String::from_str(alloc, "inline")?, DecoratorEntryOf::Inline)?;
    Ok(decorators)
}
