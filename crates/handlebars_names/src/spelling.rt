//! Names that are spelled nearly as others.

use handlebars_html::search::NamedTemplate;
use std::alloc::{AllocError, Global};
use std::collections::BTreeSet;
use strsim::osa_distance;

// A name, with its distance from another one.
#[derive(Clone, Copy)]
struct Near<'n> {
    name: &'n str,
    distance: usize,
}

// How many letters may be wrong, missing or exchanged: one in three.
fn most_distance(name: &str) -> usize {
    name.len().max(3) / 3
}

// The nearer one of a name and of what is nearest so far.
fn nearer<'n>(
    alloc: Global,
    name: &str,
    candidate: &'n str,
    nearest: Option<Near<'n>>,
) -> Result<Option<Near<'n>>, AllocError> {
    let distance = osa_distance(alloc, name, candidate)?;
    let least = match nearest {
        Some(near) => near.distance,
        None => most_distance(name).saturating_add(1),
    };
    if distance < least {
        Ok(Some(Near {
            name: candidate,
            distance,
        }))
    } else {
        Ok(nearest)
    }
}

fn owned(alloc: Global, nearest: Option<Near<'_>>) -> Result<Option<String>, AllocError> {
    match nearest {
        Some(near) => Ok(Some(String::from_str(alloc, near.name)?)),
        None => Ok(None),
    }
}

/// Returns the helper's name that is spelled most nearly as this one, if one is near.
///
/// # Errors
///
/// Fails if memory runs out.
pub fn nearest_helper(
    alloc: Global,
    name: &str,
    helpers: &BTreeSet<String>,
) -> Result<Option<String>, AllocError> {
    let mut nearest = None;
    for helper in helpers {
        nearest = nearer(alloc, name, helper.as_str(), nearest)?;
    }
    owned(alloc, nearest)
}

/// Returns the template's name that is spelled most nearly as this one, if one is near.
///
/// # Errors
///
/// Fails if memory runs out.
pub fn nearest_template(
    alloc: Global,
    name: &str,
    templates: &[NamedTemplate<'_>],
) -> Result<Option<String>, AllocError> {
    let mut nearest = None;
    for template in templates {
        nearest = nearer(alloc, name, template.name, nearest)?;
    }
    owned(alloc, nearest)
}
