//! The scope frames in which the templates of an item are rendered.

ghost use Rattle.std.specs.Prelude.{◌≡◌, ◌++◌, ◌∷◌, [], IfOk, decimal, false, map, string_bytes};
ghost use Rattle.handlebars_scope.specs.ScopeView.{frame_of};
ghost use Rattle.handlebars_context.specs.View.{state_of, has_failed};
ghost use Rattle.hb.specs.Frames.{alone_at, counted_frame, member_frame, within_at};

use handlebars::{BlockContext, RenderContext};
use serde_json::Value;
use std::alloc::{AllocError, Global};

/// Returns the context of a rendering over an item alone: `@index` is the index of the item.
///
/// # Errors
///
/// Fails if memory runs out.
pub fn with_index(alloc: Global, index: u64) -> Result<RenderContext, AllocError>
    ensures state { IfOk result (λ rc. state_of rc ≡ alone_at index) }
    ensures ready { IfOk result (λ rc. has_failed rc ≡ false) }
{
    let mut rc = RenderContext::new(alloc, None)?;
    let mut frame = BlockContext::new(alloc);
    frame.set_local_var("index", Value::from(index))?;
    rc.pop_block();
    rc.push_block(frame)?;
    Ok(rc)
}

/// Returns the context of a rendering at a member of a list of so many members, to which these names lead: as in the block of
/// an `each` over the list, `@index`, `@first` and `@last` are those of the member, and `..` is all of the data.
///
/// # Errors
///
/// Fails if memory runs out.
pub fn at_member(
    alloc: Global,
    names: &[String],
    index: u64,
    count: u64,
) -> Result<RenderContext, AllocError>
    ensures state { IfOk result (λ rc. state_of rc ≡ within_at (map string_bytes names.now) index count) }
    ensures ready { IfOk result (λ rc. has_failed rc ≡ false) }
{
    let mut rc = RenderContext::new(alloc, None)?;
    rc.push_block(member_frame(alloc, names, index, count)?)?;
    Ok(rc)
}

fn member_frame(
    alloc: Global,
    names: &[String],
    index: u64,
    count: u64,
) -> Result<BlockContext, AllocError>
    ensures { IfOk result (λ b. frame_of b ≡ member_frame (map string_bytes names.now) index count) }
{
    let mut frame = counted_frame(alloc, index, count)?;
    *frame.base_path_mut() = member_path(alloc, names, index)?;
    Ok(frame)
}

// The frame with the variables of an iteration.
fn counted_frame(alloc: Global, index: u64, count: u64) -> Result<BlockContext, AllocError>
    ensures { IfOk result (λ b. frame_of b ≡ counted_frame index count) }
{
    let mut frame = BlockContext::new(alloc);
    frame.set_local_var("index", Value::from(index))?;
    frame.set_local_var("first", Value::Bool(index == 0))?;
    frame.set_local_var("last", Value::Bool(count.saturating_sub(index) == 1))?;
    Ok(frame)
}

// The names that lead to the member.
fn member_path(alloc: Global, names: &[String], index: u64) -> Result<Vec<String>, AllocError>
    ensures { IfOk result (λ path. map string_bytes path.items ≡ map string_bytes names.now ++ decimal index ∷ []) }
{
    let mut path = Vec::new(alloc);
    for name in names {
        path.push(name.clone()?)?;
    }
    path.push(index.to_string(alloc)?)?;
    Ok(path)
}
