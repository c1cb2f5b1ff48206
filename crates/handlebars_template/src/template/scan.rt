//! Scans a source to its elements, in one pass over its texts and tags.

ghost use Rattle.std.specs.Prelude.{◌≡◌, ◌++◌, ◌||◌, not, IfOk, OnOk, string_bytes};
ghost use Rattle.handlebars_lexer.specs.TrimView.{control_view};
ghost use Rattle.handlebars_template.specs.OptionsView.{options_view};
ghost use Rattle.handlebars_template.specs.TreeView.{position_of};
ghost use Rattle.handlebars_template.specs.NestView.{positioned_view, open_blocks, late_of};
ghost use Rattle.handlebars_lexer.specs.Trim.{trimmed};
ghost use Rattle.handlebars_template.specs.Compile.{Compiles};
ghost use Rattle.handlebars_template.specs.ScanView.{positioned_text, scanned_outcome};

use crate::template::compile::TemplateOptions;
use crate::template::nest::{Nested, Nesting, SyntaxError};
use crate::template::position::advance;
use crate::template::tags::{control_after, look, may_follow, take_tag};
use crate::template::tree::{TemplateElement, TemplateMapping};
use handlebars_lexer::tag::split_tag;
use handlebars_lexer::text::{TextPrefix, text};
use handlebars_lexer::trim::{
    WhitespaceControl, braces_after, fresh_after, has_element, no_control, split_blanks, trimmed,
};
use std::alloc::{AllocError, Global};

/// The outcome of a source: the state at its end, or the position of the tag that is rejected first.
#[derive(Drop)]
pub enum Scanned {
    Through(Nested),
    Unreadable(TemplateMapping),
    Misplaced(SyntaxError, TemplateMapping),
}

/// Scans a source to its elements, or to the first error. Runs in time linear in the source, except for ordering keys and
/// computing the values of literals.
pub fn scan(alloc: Global, source: &str, options: &TemplateOptions) -> Result<Scanned, AllocError>
    ensures { IfOk result (λ scanned.
        Compiles source.now (options_view options.now) (scanned_outcome (options_view options.now) scanned)) }
{
    let mut nesting = Nesting::new(alloc);
    let mut position = TemplateMapping(1, 1);
    let mut fresh = true;
    let mut control = no_control();
    let mut long_ahead = true;
    let mut prefix = text(alloc, braces_after(control), source)?;
    'tags: while !prefix.rest.is_empty() {
        let left = prefix.rest;
        let at = advance(position, prefix.token);
        let Some(tag) = split_tag(alloc, left, long_ahead)? else {
            return Ok(Scanned::Unreadable(at));
        };
        if !may_follow(control, tag.content) {
            return Ok(Scanned::Unreadable(at));
        }
        let spelled = left.split_at(left.len() - tag.rest.len()).0;
        let (dark, blanks) = split_blanks(prefix.token);
        let fresh_here = fresh_after(fresh, dark);
        let next = control_after(fresh_here, blanks, tag);
        add_text(
            alloc,
            &mut nesting,
            options,
            position,
            control,
            prefix,
            next,
        )?;
        if let Some(error) = look(&nesting, tag.content, tag.depth) {
            return Ok(Scanned::Misplaced(error, at));
        }
        take_tag(alloc, &mut nesting, options, at, tag.content, next)?;
        position = advance(at, spelled);
        fresh = fresh_after(fresh_here, spelled);
        control = next;
        long_ahead = tag.long_ahead;
        prefix = text(alloc, braces_after(control), tag.rest)?;
    }
    add_text(
        alloc,
        &mut nesting,
        options,
        position,
        control,
        prefix,
        no_control(),
    )?;
    Ok(Scanned::Through(nesting.finish()))
}

// What remains of a text between two whitespace controls, as a slice of it.
#[inline(never)]
fn trimmed_text<'a>(
    options: &TemplateOptions,
    before: WhitespaceControl<'_>,
    unescaped: &'a str,
    after: WhitespaceControl<'_>,
) -> &'a str
    ensures { result.now
        ≡ trimmed (options_view options.now) (control_view before.entry) unescaped.now (control_view after.entry) }
{
    trimmed(options.prevent_indent, before, unescaped, after)
}

// Whether these whitespace controls remove nothing from the text between them.
#[inline(always)]
fn trims_nothing(before: WhitespaceControl<'_>, after: WhitespaceControl<'_>) -> bool
    ensures { result ≡ not (before.entry.right || (before.entry.standalone || (after.entry.left || after.entry.standalone))) }
{
    !(before.right || before.standalone || after.left || after.standalone)
}

// What remains of a text between two whitespace controls. The text is copied again only if something is removed.
#[inline(always)]
fn trimmed_string(
    alloc: Global,
    options: &TemplateOptions,
    before: WhitespaceControl<'_>,
    unescaped: String,
    after: WhitespaceControl<'_>,
) -> Result<String, AllocError>
    ensures { IfOk result (λ text. string_bytes text
        ≡ trimmed (options_view options.now) (control_view before.entry) (string_bytes unescaped) (control_view after.entry)) }
{
    if trims_nothing(before, after) {
        return Ok(unescaped);
    }
    let part = trimmed_text(options, before, unescaped.as_str(), after);
    if part == unescaped.as_str() {
        Ok(unescaped)
    } else {
        Ok(String::from_str(alloc, part)?)
    }
}

// Adds the element of the next text, if it has one.
#[inline(always)]
fn add_text(
    alloc: Global,
    nesting: &mut Nesting,
    options: &TemplateOptions,
    position: TemplateMapping,
    before: WhitespaceControl<'_>,
    prefix: TextPrefix,
    after: WhitespaceControl<'_>,
) -> Result<(), AllocError>
    ensures depth { OnOk result (nesting.new.depth ≡ nesting.old.depth) }
    ensures open_blocks { OnOk result (open_blocks nesting.new ≡ open_blocks nesting.old) }
    ensures late { OnOk result (late_of nesting.new ≡ late_of nesting.old) }
    ensures elements { OnOk result (positioned_view nesting.new.elements ≡ positioned_view nesting.old.elements
        ++ positioned_text (options_view options.now) (position_of position) (control_view before.entry) prefix.entry.token.now
        (string_bytes prefix.entry.unescaped) (control_view after.entry)) }
{
    if !has_element(before, prefix.token) {
        return Ok(());
    }
    let unescaped = trimmed_string(alloc, options, before, prefix.unescaped, after)?;
    nesting
        .elements
        .push(position, TemplateElement::RawString(unescaped))
}
