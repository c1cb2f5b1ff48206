//! What a check has found so far.

ghost use Rattle.std.specs.Prelude.{◌≡◌, ◌∷◌, [], IfOk, OnOk, map, option_map, string_bytes};
ghost use Rattle.std.specs.List.{flat_map};
ghost use Rattle.handlebars_template.specs.TreeView.{position_of};
ghost use Rattle.handlebars_html.specs.Check as check;
ghost use Rattle.handlebars_html.specs.FoundView.{AddsFaults, found_of, faults_in};
ghost use Rattle.handlebars_html.specs.HtmlView.{html_of, tokenizer_of};
ghost use Rattle.handlebars_html.specs.RowsView.{fault_of, why_of};

use crate::copies::copy_html;
use crate::fault::{HtmlFault, HtmlFaultReason, add_fault};
use crate::html::{Html, is_safe, may_hold_url};
use crate::plain::Plain;
use crate::rows::Row;
use crate::stop::Stop;
use crate::tokenizer::Tokenizer;
use handlebars_template::template::TemplateMapping;
use std::alloc::{AllocError, Global};

// How many pairs of states may be compared while a template is read.
const MOST_PAIRS: usize = 1 << 22;

/// What was found so far: rows that a table lacks, and what breaks the rule, each fault once. Beside it stands what decides in
/// which order a search goes on, and when it ends.
pub struct Found {
    pub rows: Vec<Row>,
    pub faults: Vec<HtmlFault>,
    /// The places of the rows of the table by which something was included.
    pub places: Vec<usize>,
    /// Whether there was an inline partial.
    pub has_inlines: bool,
    /// How many pairs of states may still be compared.
    left: usize,
}

// Not derived, so that each drop of one is a single call.
impl Drop for Found {
    fn drop(self) {
        let Found {
            rows: _,
            faults: _,
            places: _,
            has_inlines: _,
            left: _,
        } = self;
    }
}

impl Found {
    /// Returns no rows and no faults.
    pub fn new(alloc: Global) -> Found
        ensures { found_of result ≡ check.no_findings }
    {
        Found {
            rows: Vec::new(alloc),
            faults: Vec::new(alloc),
            places: Vec::new(alloc),
            has_inlines: false,
            left: MOST_PAIRS,
        }
    }

    /// Counts an element that is read from so many states.
    ///
    /// # Errors
    ///
    /// Fails with `TooManyStates` if there were too many.
    pub fn count(&mut self, states: usize) -> Result<(), Stop>
        ensures { found_of self.new ≡ found_of self.old }
    {
        match self.left.checked_sub(states.saturating_mul(states)) {
            Some(left) => {
                self.left = left;
                Ok(())
            }
            None => Err(Stop::TooManyStates),
        }
    }

    /// Adds what was found in a part, after all else.
    ///
    /// # Errors
    ///
    /// Fails if memory runs out.
    pub fn append(&mut self, mut part: Found) -> Result<(), AllocError>
        ensures { OnOk result (found_of self.new ≡ check.both_findings (found_of self.old) (found_of part)) }
    {
        self.rows.append(&mut part.rows)?;
        self.faults.append(&mut part.faults)
    }

    /// Returns the rows alone.
    pub fn into_rows(self) -> Vec<Row>
        ensures { result ≡ self.rows }
    {
        let Found {
            rows,
            faults: _,
            places: _,
            has_inlines: _,
            left: _,
        } = self;
        rows
    }

    /// Returns the faults alone.
    pub fn into_faults(self) -> Vec<HtmlFault>
        ensures { result ≡ self.faults }
    {
        let Found {
            rows: _,
            faults,
            places: _,
            has_inlines: _,
            left: _,
        } = self;
        faults
    }
}

/// The name of a template, if it has one, and the position of an element in it, if it is known.
#[derive(Clone, Copy)]
pub struct Location<'t> {
    pub template_name: Option<&'t str>,
    pub position: Option<TemplateMapping>,
}

fn owned_name(alloc: Global, name: Option<&str>) -> Result<Option<String>, AllocError>
    ensures { IfOk result (λ copy. option_map string_bytes copy ≡ option_map (λ s. s.now) name.entry) }
{
    match name {
        Some(name) => Ok(Some(String::from_str(alloc, name)?)),
        None => Ok(None),
    }
}

fn fault(
    alloc: Global,
    location: Location<'_>,
    reason: HtmlFaultReason,
) -> Result<HtmlFault, AllocError>
    ensures { IfOk result (λ f. fault_of f ∷ [] ≡ faults_in location.entry (why_of reason ∷ [])) }
{
    let (line_no, column_no) = match location.position {
        Some(position) => (Some(position.0), Some(position.1)),
        None => (None, None),
    };
    Ok(HtmlFault {
        template_name: owned_name(alloc, location.template_name)?,
        line_no,
        column_no,
        reason,
    })
}

/// Adds a fault at this location.
pub fn push_reason(
    alloc: Global,
    location: Location<'_>,
    reason: HtmlFaultReason,
    found: &mut Found,
) -> Result<(), AllocError>
    ensures { OnOk result (AddsFaults found.old found.new location.entry (why_of reason ∷ [])) }
{
    let made = fault(alloc, location, reason)?;
    add_fault(&mut found.faults, made)
}

fn reason_of_unsafe(state: &Html) -> Result<HtmlFaultReason, AllocError>
    ensures { IfOk result (λ r. why_of r ≡ check.why_unsafe (tokenizer_of state.now.tokenizer) (html_of state.now)) }
{
    match &state.tokenizer {
        Tokenizer::Plain(Plain::Stuck) => Ok(HtmlFaultReason::UnreadValue),
        _ => Ok(HtmlFaultReason::UnsafeValue(copy_html(state)?)),
    }
}

fn check_value(
    alloc: Global,
    location: Location<'_>,
    state: &Html,
    found: &mut Found,
) -> Result<(), AllocError>
    ensures { OnOk result (AddsFaults found.old found.new location.entry (check.whys_of_value (html_of state.now))) }
{
    if is_safe(state) {
        return Ok(());
    }
    push_reason(alloc, location, reason_of_unsafe(state)?, found)
}

/// Adds a fault for each of these states in which data may not stand.
///
/// # Errors
///
/// Fails if memory runs out.
pub fn check_values(
    alloc: Global,
    location: Location<'_>,
    states: &[Html],
    found: &mut Found,
) -> Result<(), AllocError>
    ensures { OnOk result (AddsFaults found.old found.new location.entry
        (flat_map check.whys_of_value (map html_of states.now))) }
{
    'states: for state in states {
        check_value(alloc, location, state, found)?;
    }
    Ok(())
}

fn check_url(
    alloc: Global,
    location: Location<'_>,
    state: &Html,
    found: &mut Found,
) -> Result<(), AllocError>
    ensures { OnOk result (AddsFaults found.old found.new location.entry (check.whys_of_url (html_of state.now))) }
{
    if may_hold_url(state) {
        return Ok(());
    }
    push_reason(alloc, location, reason_of_unsafe(state)?, found)
}

/// Adds a fault for each of these states in which an address that runs no script may not stand.
///
/// # Errors
///
/// Fails if memory runs out.
pub fn check_urls(
    alloc: Global,
    location: Location<'_>,
    states: &[Html],
    found: &mut Found,
) -> Result<(), AllocError>
    ensures { OnOk result (AddsFaults found.old found.new location.entry
        (flat_map check.whys_of_url (map html_of states.now))) }
{
    'states: for state in states {
        check_url(alloc, location, state, found)?;
    }
    Ok(())
}
