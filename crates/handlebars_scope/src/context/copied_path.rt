//! Copies of the full paths of values of the data.

ghost use Rattle.std.specs.Prelude.{◌≡◌, ◌++◌, ◌∷◌, [], IfOk, OnOk, string_bytes};
ghost use Rattle.handlebars_base.specs.PathView.{segments_of};
ghost use Rattle.handlebars_scope.specs.Resolve.{names_of};
ghost use Rattle.handlebars_scope.specs.ResolutionView.{names_in};

use handlebars_base::json::path::PathSeg;
use std::alloc::{AllocError, Global};

/// Returns copies of the names of a prefix of a base path, and of a name.
///
/// # Errors
///
/// Fails if memory runs out.
pub fn prefix(alloc: Global, retained: &[String], name: &String) -> Result<Vec<String>, AllocError>
    ensures { IfOk result (λ path. names_in path.items ≡ names_in retained.now ++ string_bytes name.now ∷ []) }
{
    let mut path = Vec::new(alloc);
    push_names(&mut path, retained)?;
    path.push(name.clone()?)?;
    Ok(path)
}

/// Returns copies of the names of a base path, of what is bound below it, and of segments.
///
/// # Errors
///
/// Fails if memory runs out.
pub fn joined(
    alloc: Global,
    base: &[String],
    bound: &[String],
    rest: &[PathSeg],
) -> Result<Vec<String>, AllocError>
    ensures { IfOk result (λ path. names_in path.items
        ≡ names_in base.now ++ (names_in bound.now ++ names_of (segments_of rest.now))) }
{
    let mut path = Vec::new(alloc);
    push_names(&mut path, base)?;
    push_names(&mut path, bound)?;
    push_segments(&mut path, rest)?;
    Ok(path)
}

fn push_names(path: &mut Vec<String>, names: &[String]) -> Result<(), AllocError>
    ensures { OnOk result (names_in path.new.items ≡ names_in path.old.items ++ names_in names.now) }
{
    for name in names {
        path.push(name.clone()?)?;
    }
    Ok(())
}

// Adds the names of segments.
fn push_segments(path: &mut Vec<String>, segments: &[PathSeg]) -> Result<(), AllocError>
    ensures { OnOk result (names_in path.new.items ≡ names_in path.old.items ++ names_of (segments_of segments.now)) }
{
    for segment in segments {
        match segment {
            PathSeg::Named(name) => path.push(name.clone()?)?,
            PathSeg::Ruled(_) => {}
        }
    }
    Ok(())
}
