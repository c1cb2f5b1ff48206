//! The layers of a run, innermost first, and how deep they are.

ghost use Rattle.std.specs.Prelude.{◌≡◌, IsTrue, length, true};
ghost use Rattle.std.specs.Coded.{Coded-set, coded_bool, coded_ℕ};
ghost use Rattle.handlebars_scope.specs.Contexts.{data_of};
ghost use Rattle.handlebars_scope.specs.ScopeView.{frames_of};
ghost use Rattle.handlebars_layers.specs.Binding.{BindsSome, MayBind, MayBind-prop};
ghost use Rattle.handlebars_layers.specs.Chain.{NodesAreThere, NodesAreThere-prop, frames, frames_outside, is_no_layer};
ghost use Rattle.handlebars_layers.specs.LayerView.{chain_of};
ghost use Rattle.handlebars_layers.specs.ScopeFrames.{layer_depth};

use crate::layer::Layer;
use crate::outside::count_outside;
use crate::scopes::Scopes;
use handlebars_scope::block::BlockContext;
use handlebars_scope::context::Context;
use std::collections::VecDeque;

/// The innermost layer of a run, with what is known of all its layers. The value of each layer is what the layer's names lead
/// to in the data.
#[derive(Clone, Copy)]
pub struct Innermost<'r, 'a> {
    pub nearest: &'r Layer<'r, 'a>,
    /// How many layers there are from the frames from outside to this one.
    pub depth: usize,
    /// How many frames from outside there are.
    pub outside: usize,
    /// Whether any frame may bind a name.
    pub binds: bool,
    /// The layer of no frame, from which paths after `@root` lead.
    pub root: &'r Layer<'r, 'a>,
    pub given: &'a Context,
    pub ghost rooted: { is_no_layer (chain_of root.now) ≡ true } by { Coded-set coded_bool (is_no_layer (chain_of root.now)) true },
    pub ghost lead: { NodesAreThere (data_of given.now) (chain_of nearest.now) } by { NodesAreThere-prop (data_of given.now) (chain_of nearest.now) },
    pub ghost unbound: { MayBind binds (frames (chain_of nearest.now)) } by { MayBind-prop binds (frames (chain_of nearest.now)) },
    pub ghost deep: { depth ≡ layer_depth (chain_of nearest.now) } by { Coded-set coded_ℕ depth (layer_depth (chain_of nearest.now)) },
    pub ghost counted: { outside ≡ length (frames_outside (chain_of nearest.now)) } by { Coded-set coded_ℕ outside (length (frames_outside (chain_of nearest.now))) },
}

impl<'r, 'a> Innermost<'r, 'a> {
    ghost use Rattle.std.specs.Prelude.{◌≡◌, ◌+◌, ◌≤◌, ◌^◌, IfSome, IsNone, Some, true};
    ghost use Rattle.handlebars_scope.specs.Contexts.{data_of};
    ghost use Rattle.handlebars_layers.specs.Binding.{MayBind};
    ghost use Rattle.handlebars_layers.specs.Chain.{NodesAreThere, frames, is_no_layer, is_outside, outer_chain};
    ghost use Rattle.handlebars_layers.specs.Destination.{frames_in, given_in};
    ghost use Rattle.handlebars_layers.specs.LayerView.{chain_of};

    /// Creates the layers of a run that has entered none: the frames from outside. `binds` tells whether any of them may bind
    /// a name.
    pub fn outside(
        given: &'a Context,
        frames_layer: &'r Layer<'r, 'a>,
        root: &'r Layer<'r, 'a>,
        binds: bool,
    ) -> Innermost<'r, 'a>
        requires root { is_no_layer (chain_of root.now) ≡ true }
        requires outside { is_outside (chain_of frames_layer.now) ≡ true }
        requires binds { MayBind binds (frames (chain_of frames_layer.now)) }
        ensures nearest { result.nearest ≡ frames_layer.entry }
        ensures given { result.given ≡ given.entry }
        ensures root { result.root ≡ root.entry }
        ensures depth { result.depth ≡ 0 }
    {
        Innermost {
            nearest: frames_layer,
            depth: 0,
            outside: count_outside(frames_layer),
            binds,
            root,
            given,
        }
    }

    /// Returns the frames of the run.
    #[inline(always)]
    pub fn scopes(self) -> Scopes<'r, 'a>
        ensures frames { frames_in result ≡ frames (chain_of self.entry.nearest.now) }
        ensures given { given_in result ≡ data_of self.entry.given.now }
    {
        Scopes {
            nearest: self.nearest,
            skipped: 0,
            root: self.root,
            given: self.given.data(),
            binds: self.binds,
        }
    }

    /// Returns the layers of the run once it has entered this one, or `None` if there are 2^64 - 1 layers already.
    #[inline(always)]
    pub fn enter(self, layer: &'r Layer<'r, 'a>) -> Option<Innermost<'r, 'a>>
        requires outer { outer_chain (chain_of layer.now) ≡ Some (chain_of self.nearest.now) }
        requires lead { NodesAreThere (data_of self.given.now) (chain_of layer.now) }
        ensures nearest { IfSome result (λ i. i.nearest ≡ layer.entry) }
        ensures given { IfSome result (λ i. i.given ≡ self.entry.given) }
        ensures root { IfSome result (λ i. i.root ≡ self.entry.root) }
        ensures depth { IfSome result (λ i. i.depth ≡ self.entry.depth + 1) }
        ensures outside { IfSome result (λ i. i.outside ≡ self.entry.outside) }
        ensures full { IsNone result → 2 ^ 64 ≤ self.entry.depth + 1 }
    {
        let depth = self.depth.checked_add(1)?;
        Some(Innermost {
            nearest: layer,
            depth,
            outside: self.outside,
            binds: self.binds_in(layer),
            root: self.root,
            given: self.given,
        })
    }

    // Returns whether any frame may bind a name once this layer is entered. It is assumed of a frame that was made.
    #[inline(always)]
    fn binds_in(self, layer: &Layer<'r, 'a>) -> bool
        requires { outer_chain (chain_of layer.now) ≡ Some (chain_of self.nearest.now) }
        ensures { MayBind result (frames (chain_of layer.now)) }
    {
        if self.binds {
            return true;
        }
        match layer {
            Layer::At { kind, .. } => kind.binds(),
            Layer::Value { kind, .. } => kind.binds(),
            _ => true,
        }
    }
}

/// Returns whether any of these frames binds a name.
pub fn binds_any(frames: &VecDeque<BlockContext>) -> bool
    ensures none { MayBind result (frames_of frames.now.items) }
    ensures some { IsTrue result → BindsSome (frames_of frames.now.items) }
{
    for frame in frames.iter() {
        if !frame.has_no_bound_names() {
            return true;
        }
    }
    false
}
