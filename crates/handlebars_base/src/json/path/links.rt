//! Reads the parts of a path and its links, from left to right.

ghost use Rattle.std.specs.Prelude.{◌≡◌, ◌++◌, IfOk, OnOk};
ghost use Rattle.std.specs.Option.{option_map};
ghost use Rattle.handlebars_base.specs.Path.{is_dots, part_segments, link_segments};
ghost use Rattle.handlebars_base.specs.PathView.{segments_of, part_of, found_at};
ghost use Rattle.handlebars_base.specs.PathReading.{part_at, bracketed_at, plain_at, link_at, part_of_link, links_of};

use super::marks::{after_byte, symbols};
use super::{PathRule, PathSeg};
use std::alloc::{AllocError, Global};

/// One part of a path, as it is written in the text.
#[derive(Clone, Copy)]
pub enum PathPart<'a> {
    Up,
    Plain(&'a str),
    Bracketed(&'a str),
}

pub fn is_up(part: PathPart) -> bool
    ensures { result ≡ is_dots (part_of part.entry) }
{
    match part {
        PathPart::Up => true,
        PathPart::Plain(_) | PathPart::Bracketed(_) => false,
    }
}

/// Reads a name in brackets, after the opening bracket.
#[tactic(auto, unfolding(crate::specs::PathReading::bracketed_at))]
fn bracketed_at(text: &str) -> Option<(PathPart<'_>, &str)>
    ensures { option_map found_at result ≡ bracketed_at text.now }
{
    let (name, rest) = text.split_once(']')?;
    Some((PathPart::Bracketed(name), rest))
}

#[tactic(auto, unfolding(crate::specs::PathReading::plain_at))]
fn plain_at(text: &str) -> Option<(PathPart<'_>, &str)>
    ensures { option_map found_at result ≡ plain_at text.now }
{
    let (name, rest) = symbols(text);
    if name.is_empty() {
        return None;
    }
    Some((PathPart::Plain(name), rest))
}

/// Reads the part at the start. Returns it with what follows it.
#[tactic(auto, unfolding(crate::specs::PathReading::part_at))]
pub fn part_at(text: &str) -> Option<(PathPart<'_>, &str)>
    ensures { option_map found_at result ≡ part_at text.now }
{
    if let Some(rest) = after_byte(b'.', text) {
        let rest = after_byte(b'.', rest)?;
        return Some((PathPart::Up, rest));
    }
    if let Some(rest) = after_byte(b'[', text) {
        return bracketed_at(rest);
    }
    plain_at(text)
}

/// Reads the part after a separator. A dot doesn't join `..` to anything.
#[tactic(auto, unfolding(crate::specs::PathReading::link_at))]
fn link_at(before_up: bool, text: &str) -> Option<(PathPart<'_>, &str)>
    ensures { option_map found_at result ≡ option_map part_of_link (link_at before_up text.now) }
{
    if let Some(rest) = after_byte(b'/', text) {
        return part_at(rest);
    }
    let (found, rest) = part_at(after_byte(b'.', text)?)?;
    if before_up || is_up(found) {
        return None;
    }
    Some((found, rest))
}

/// Returns what follows the links, reading as many as fit.
pub fn after_links(up: bool, text: &str) -> &str
    ensures { result.now ≡ (links_of up text.now).1 }
{
    let mut before_up = up;
    let mut rest = text;
    while let Some((found, after)) = link_at(before_up, rest) {
        before_up = is_up(found);
        rest = after;
    }
    rest
}

/// Adds the segment of a part, if it has one.
pub fn push(alloc: Global, segs: &mut Vec<PathSeg>, part: PathPart) -> Result<(), AllocError>
    ensures { OnOk result (segments_of segs.new.items
        ≡ segments_of segs.old.items ++ part_segments (part_of part.entry)) }
{
    match part {
        PathPart::Up => segs.push(PathSeg::Ruled(PathRule::Up))?,
        PathPart::Plain(name) | PathPart::Bracketed(name) => {
            if name != "this" {
                segs.push(PathSeg::Named(String::from_str(alloc, name)?))?;
            }
        }
    }
    Ok(())
}

/// Adds the segments of as many links as fit. Returns what follows them.
pub fn push_links<'a>(
    alloc: Global,
    segs: &mut Vec<PathSeg>,
    up: bool,
    text: &'a str,
) -> Result<&'a str, AllocError>
    ensures segments { OnOk result (segments_of segs.new.items
        ≡ segments_of segs.old.items ++ link_segments (links_of up text.now).0) }
    ensures rest { IfOk result (λ rest. rest.now ≡ (links_of up text.now).1) }
{
    let mut before_up = up;
    let mut rest = text;
    while let Some((found, after)) = link_at(before_up, rest) {
        push(alloc, segs, found)?;
        before_up = is_up(found);
        rest = after;
    }
    Ok(rest)
}
