//! The start of a path, and its meaning with the links after it.

ghost use Rattle.std.specs.Prelude.{◌≡◌, ◌++◌, IfOk, OnOk};
ghost use Rattle.std.specs.Option.{option_map};
ghost use Rattle.handlebars_base.specs.PathView.{segments_of, start_of, started_at, reference_of};
ghost use Rattle.handlebars_base.specs.PathReading.{at_sign_start, start_without_at_sign, start_at, links_after, start_segments, start_meaning, ups_at};

use super::links::{PathPart, after_links, is_up, part_at, push, push_links};
use super::marks::{after_byte, symbols, ups};
use super::{Path, PathRule, PathSeg};
use std::alloc::{AllocError, Global};

/// Where a path starts.
#[derive(Clone, Copy)]
pub enum Start<'a> {
    /// At this value, by `.` alone. No links follow it.
    Here,
    Root,
    Variable(usize, &'a str),
    Part(PathPart<'a>),
}

/// Reads what follows `@`: the root, or a variable of a block.
#[tactic(auto, unfolding(crate::specs::PathReading::at_sign_start))]
fn at_sign_start(text: &str) -> Option<(Start<'_>, &str)>
    ensures { option_map started_at result ≡ at_sign_start (ups_at 0 text.now) }
{
    let (level, rest) = ups(text);
    let (name, rest) = symbols(rest);
    if name == "" || name == "this" {
        return None;
    }
    if level == 0 && name == "root" {
        return Some((Start::Root, rest));
    }
    Some((Start::Variable(level, name), rest))
}

/// Reads the start of a path with no `@`. A `.` that doesn't begin `..` is followed by `/` and a part, or it is the
/// whole path.
#[tactic(auto, unfolding(crate::specs::PathReading::start_without_at_sign))]
fn start_without_at_sign(text: &str) -> Option<(Start<'_>, &str)>
    ensures { option_map started_at result ≡ start_without_at_sign text.now }
{
    if let Some((first, rest)) = part_at(text) {
        return Some((Start::Part(first), rest));
    }
    let after = after_byte(b'.', text)?;
    let Some(rest) = after_byte(b'/', after) else {
        return Some((Start::Here, after));
    };
    let (first, rest) = part_at(rest)?;
    Some((Start::Part(first), rest))
}

/// Reads the start of the path at the beginning of the text. Returns it with what follows it.
#[tactic(auto, unfolding(crate::specs::PathReading::start_at))]
pub fn start_at(text: &str) -> Option<(Start<'_>, &str)>
    ensures { option_map started_at result ≡ start_at text.now }
{
    match after_byte(b'@', text) {
        Some(rest) => at_sign_start(rest),
        None => start_without_at_sign(text),
    }
}

/// Returns what follows the links after a start.
pub fn after_start<'a>(start: Start<'_>, text: &'a str) -> &'a str
    ensures { result.now ≡ (links_after (start_of start.entry) text.now).1 }
{
    match start {
        Start::Here => text,
        Start::Root | Start::Variable(_, _) => after_links(false, text),
        Start::Part(part) => after_links(is_up(part), text),
    }
}

/// Returns the segments of a start and of the links after it, and what follows them.
pub fn start_segments<'a>(
    alloc: Global,
    start: Start<'_>,
    text: &'a str,
) -> Result<(Vec<PathSeg>, &'a str), AllocError>
    ensures segments { IfOk result (λ read. segments_of read.0.items
        ≡ start_segments (start_of start.entry) (links_after (start_of start.entry) text.now).0) }
    ensures rest { IfOk result (λ read. read.1.now ≡ (links_after (start_of start.entry) text.now).1) }
{
    let mut segs = Vec::new(alloc);
    let rest = push_start(alloc, &mut segs, start, text)?;
    Ok((segs, rest))
}

/// Adds the segments of a start and of the links after it. Returns what follows them.
fn push_start<'a>(
    alloc: Global,
    segs: &mut Vec<PathSeg>,
    start: Start<'_>,
    text: &'a str,
) -> Result<&'a str, AllocError>
    ensures segments { OnOk result (segments_of segs.new.items ≡ segments_of segs.old.items
        ++ start_segments (start_of start.entry) (links_after (start_of start.entry) text.now).0) }
    ensures rest { IfOk result (λ rest. rest.now ≡ (links_after (start_of start.entry) text.now).1) }
{
    match start {
        Start::Here => Ok(text),
        Start::Variable(_, _) => Ok(after_links(false, text)),
        Start::Root => {
            segs.push(PathSeg::Ruled(PathRule::Root))?;
            push_links(alloc, segs, false, text)
        }
        Start::Part(first) => {
            push(alloc, segs, first)?;
            push_links(alloc, segs, is_up(first), text)
        }
    }
}

/// Returns the path with this start and these segments.
pub fn path_from(
    alloc: Global,
    start: Start<'_>,
    segs: Vec<PathSeg>,
    raw: &str,
) -> Result<Path, AllocError>
    ensures { IfOk result (λ path. reference_of path
        ≡ start_meaning raw.now (start_of start.entry) (segments_of segs.items)) }
{
    let raw = String::from_str(alloc, raw)?;
    match start {
        Start::Variable(level, name) => {
            let name = String::from_str(alloc, name)?;
            Ok(Path::Local((level, name, raw)))
        }
        Start::Here | Start::Root | Start::Part(_) => Ok(Path::Relative((segs, raw))),
    }
}
