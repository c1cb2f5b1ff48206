//! The places of tags.

ghost use Rattle.std.specs.Prelude.{◌≡◌, IfOk, Some, None, option_and_then, option_map, string_bytes};
ghost use Rattle.handlebars_includes.specs.View.{position_in};
ghost use Rattle.handlebars_report.specs.View.{place_view};
ghost use Rattle.hb_check.specs.Place.{IsAt, IsPlaced};
ghost use Rattle.hb_check.specs.Several.{column_of, line_of};
ghost use Rattle.hb_check.specs.Sources.{source_under};

use crate::sources::Sources;
use handlebars_report::Place;
use handlebars_syntax::tag_range;
use handlebars_template::template::TemplateMapping;
use std::alloc::{AllocError, Global};

/// Where a fault is: the name of its template, if it has one, and the 1-based line and column, if they are known.
#[derive(Clone, Copy)]
pub struct Location<'t> {
    pub template: Option<&'t str>,
    pub line: Option<usize>,
    pub column: Option<usize>,
}

impl<'t> Location<'t> {
    /// Returns the location that a fault has in its fields.
    pub fn of(
        template: &'t Option<String>,
        line: Option<usize>,
        column: Option<usize>,
    ) -> Location<'t>
        ensures template { option_map (λ n. n.now) result.template ≡ option_map string_bytes template.now }
        ensures line { result.line ≡ line }
        ensures column { result.column ≡ column }
    {
        Location {
            template: match template {
                Some(name) => Some(name.as_str()),
                None => None,
            },
            line,
            column,
        }
    }
}

/// Returns the location at the position of a tag, if it has one.
pub fn location_at(template: Option<&str>, position: Option<TemplateMapping>) -> Location<'_>
    ensures template { result.template ≡ template.entry }
    ensures line { result.line ≡ line_of (position_in position) }
    ensures column { result.column ≡ column_of (position_in position) }
{
    match position {
        Some(position) => Location {
            template,
            line: Some(position.0),
            column: Some(position.1),
        },
        None => Location {
            template,
            line: None,
            column: None,
        },
    }
}

/// Returns the place of the tag at a location. What has no template that is registered is at the start of an empty text.
///
/// Runs in time linear in the text of the template.
///
/// # Errors
///
/// Fails if memory runs out.
pub fn place_of(
    alloc: Global,
    sources: &Sources<'_>,
    location: Location<'_>,
) -> Result<Place, AllocError>
    ensures { IfOk result (λ p. IsPlaced sources.now (option_map (λ n. n.now) location.entry.template)
        location.entry.line location.entry.column (place_view p)) }
{
    match found(sources, location.template) {
        Some((path, text)) => {
            place_in(
                alloc,
                path,
                text,
                location.line.unwrap_or(1),
                location.column.unwrap_or(1),
            )
        }
        None => Place::in_text(alloc, "", "", 0..0),
    }
}

// The path and the text of the template under a name.
fn found<'s>(sources: &'s Sources<'_>, name: Option<&str>) -> Option<(&'s str, &'s str)>
    ensures path { option_map (λ f. f.0.now) result
        ≡ option_map (λ s. s.path.now) (option_and_then (source_under sources.now) (option_map (λ n. n.now) name.entry)) }
    ensures text { option_map (λ f. f.1.now) result
        ≡ option_map (λ s. s.text.now) (option_and_then (source_under sources.now) (option_map (λ n. n.now) name.entry)) }
{
    let source = sources.get(name?)?;
    Some((source.path, source.text))
}

/// Returns the place of the tag at a line and a column of a text, or of the rest of the line if there is no tag.
///
/// # Errors
///
/// Fails if memory runs out.
pub fn place_in(
    alloc: Global,
    path: &str,
    text: &str,
    line: usize,
    column: usize,
) -> Result<Place, AllocError>
    ensures { IfOk result (λ p. IsAt path.now text.now line column (place_view p)) }
{
    let range = tag_range(alloc, text, line, column)?;
    let place = Place::in_text(alloc, path, text, range.start..range.end)?;
    Ok(place)
}
