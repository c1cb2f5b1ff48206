//! The frames from outside around a layer.

ghost use Rattle.std.specs.Prelude.{◌≡◌, [], length, option_map, slice_get};
ghost use Rattle.handlebars_base.specs.Optional.{with_or};
ghost use Rattle.handlebars_scope.specs.ScopeView.{frame_of, frames_of};
ghost use Rattle.handlebars_layers.specs.Chain.{frames_outside};
ghost use Rattle.handlebars_layers.specs.LayerView.{chain_of};

use crate::layer::Layer;
use handlebars_scope::block::BlockContext;
use std::collections::VecDeque;

/// Returns the frames from outside that are around a layer, or `None` if there are none.
pub fn frames_outside<'r>(layer: &'r Layer<'r, '_>) -> Option<&'r VecDeque<BlockContext>>
    ensures { with_or result (λ frames. frames_of frames.now.items) [] ≡ frames_outside (chain_of layer.now) }
{
    let mut here = layer;
    loop {
        match here {
            Layer::Root => return None,
            Layer::Outside { frames } => return Some(*frames),
            Layer::At { outer, .. } => here = outer,
            Layer::Value { outer, .. } => here = outer,
            Layer::Frame { outer, .. } => here = outer,
        }
    }
}

/// Returns how many frames from outside there are around a layer.
pub fn count_outside<'r>(layer: &'r Layer<'r, '_>) -> usize
    ensures { result ≡ length (frames_outside (chain_of layer.now)) }
{
    match frames_outside(layer) {
        Some(frames) => frames.len(),
        None => 0,
    }
}

/// Returns the frame at this index, counted from the nearest.
pub fn outside_frame(frames: &VecDeque<BlockContext>, index: usize) -> Option<&BlockContext>
    ensures { option_map (λ b. frame_of b.now) result ≡ slice_get (frames_of frames.now.items) index }
{
    frames.get(index)
}
