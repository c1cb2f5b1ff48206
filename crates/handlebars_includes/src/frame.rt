//! The scope frames around an element within its template, and what hides a name there.

ghost use Rattle.std.specs.Prelude.{◌≡◌, ◌∷◌, IfOk, map};
ghost use Rattle.handlebars_template.specs.TreeView.{binding_view, hash_view, param_view};
ghost use Rattle.handlebars_includes.specs.Frames as scopes;
ghost use Rattle.handlebars_includes.specs.FrameView.{frame_of, seen_of};

use handlebars_template::template::{BlockParam, Parameter, TemplateMapping};
use std::alloc::{AllocError, Global};
use std::collections::BTreeMap;

/// A scope frame.
#[derive(Clone, Copy)]
pub enum Frame<'t> {
    /// Of a block, which goes to another value, and binds the names between its bars.
    Block(&'t Option<BlockParam>),
    /// Of a partial call: whether it goes to another value, the hash arguments that it binds, and its position.
    Call(bool, &'t BTreeMap<String, Parameter>, Option<TemplateMapping>),
    /// Of the call of an inline partial, of which nothing is known.
    Inline,
}

/// What a name is among frames.
#[derive(Clone, Copy)]
pub enum Seen {
    /// It stands for what it seems to.
    Shown,
    /// A hash argument of the partial call at this position hides that.
    HiddenBy(Option<TemplateMapping>),
}

/// Returns whether a name is one of these.
pub fn is_one_of(names: &[&str], name: &str) -> bool
    ensures { result ≡ scopes.is_one_of (map (λ s. s.now) names.now) name.now }
{
    match names.split_first() {
        None => false,
        Some((first, rest)) => name == *first || is_one_of(rest, name),
    }
}

fn is_bar(bar: &Parameter, name: &str) -> bool
    ensures { result ≡ scopes.is_one_of (scopes.bar_name (param_view bar.now)) name.now }
{
    match bar.as_name() {
        Some(bar) => name == bar,
        None => false,
    }
}

fn is_between_bars(bars: &BlockParam, name: &str) -> bool
    ensures { result ≡ scopes.is_one_of (scopes.bar_names (binding_view bars.now)) name.now }
{
    match bars {
        BlockParam::Single(bar) => is_bar(bar, name),
        BlockParam::Pair((first, second)) => is_bar(first, name) || is_bar(second, name),
    }
}

fn has_key(hash: &BTreeMap<String, Parameter>, name: &str) -> bool
    ensures { result ≡ scopes.is_one_of (scopes.hash_keys (hash_view hash.now.entries)) name.now }
{
    hash.contains_key(name)
}

impl<'t> Frame<'t> {
    fn binds(self, name: &str) -> bool
        ensures { result ≡ scopes.binds (frame_of self.entry) name.now }
    {
        match self {
            Frame::Block(Some(bars)) => is_between_bars(bars, name),
            Frame::Block(None) => false,
            Frame::Call(_, hash, _) => has_key(hash, name),
            Frame::Inline => false,
        }
    }

    // Whether its value is another one than that of the frame around.
    fn moves(self) -> bool
        ensures { result ≡ scopes.moves (frame_of self.entry) }
    {
        match self {
            Frame::Block(_) => true,
            Frame::Call(moves, _, _) => moves,
            Frame::Inline => false,
        }
    }

    // What it does to a name that it binds, where a nearer frame has the value that the name seems to be of, or none has.
    fn hiding(self, past: bool) -> Seen
        ensures { seen_of result ≡ scopes.hiding_by (frame_of self.entry) past }
    {
        match self {
            Frame::Call(_, _, position) => if past {
                Seen::HiddenBy(position)
            } else {
                Seen::Shown
            },
            Frame::Block(_) => Seen::Shown,
            Frame::Inline => Seen::Shown,
        }
    }
}

/// Returns what a name after so many `..` is among these frames, nearest first. `past` says whether a nearer frame has the value
/// that it seems to be of.
pub fn hiding(frames: &[Frame<'_>], ups: usize, past: bool, name: &str) -> Seen
    ensures { seen_of result ≡ scopes.hiding (map frame_of frames.now) ups past name.now }
{
    match frames.split_first() {
        None => Seen::Shown,
        Some((frame, rest)) => if frame.binds(name) {
            frame.hiding(past)
        } else {
            hiding(
                rest,
                ups.saturating_sub(1),
                past || (ups == 0 && frame.moves()),
                name,
            )
        },
    }
}

/// Returns the frames within another one.
///
/// # Errors
///
/// Fails if memory runs out.
pub fn within<'t>(
    alloc: Global,
    frame: Frame<'t>,
    frames: &[Frame<'t>],
) -> Result<Vec<Frame<'t>>, AllocError>
    ensures { IfOk result (λ v. map frame_of v.items ≡ frame_of frame.entry ∷ map frame_of frames.now) }
{
    let mut inner = Vec::with_capacity(alloc, frames.len().saturating_add(1))?;
    inner.push(frame)?;
    inner.extend_from_slice(frames)?;
    Ok(inner)
}
