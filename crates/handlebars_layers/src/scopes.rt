//! The frames that paths are resolved in.

ghost use Rattle.std.specs.Prelude.{◌≡◌, true};
ghost use Rattle.std.specs.Coded.{Coded-set, coded_bool};
ghost use Rattle.serde_json.specs.View.{view};
ghost use Rattle.handlebars_layers.specs.Binding.{MayBind, MayBind-prop};
ghost use Rattle.handlebars_layers.specs.Chain.{NodesAreThere, NodesAreThere-prop, frames, is_no_layer};
ghost use Rattle.handlebars_layers.specs.LayerView.{chain_of};

use crate::layer::Layer;
use handlebars_base::json::value::Json;

/// Frames, nearest first, and the data. The value of each layer is what the layer's names lead to in the data.
#[derive(Clone, Copy)]
pub struct Scopes<'r, 'a> {
    pub nearest: &'r Layer<'r, 'a>,
    /// How many frames from outside are nearer than these.
    pub skipped: usize,
    /// The layer of no frame, from which paths after `@root` lead.
    pub root: &'r Layer<'r, 'a>,
    pub given: &'a Json,
    /// Whether any of the frames may bind a name.
    pub binds: bool,
    pub ghost rooted: { is_no_layer (chain_of root.now) ≡ true } by { Coded-set coded_bool (is_no_layer (chain_of root.now)) true },
    pub ghost lead: { NodesAreThere (view given.now) (chain_of nearest.now) } by { NodesAreThere-prop (view given.now) (chain_of nearest.now) },
    pub ghost unbound: { MayBind binds (frames (chain_of nearest.now)) } by { MayBind-prop binds (frames (chain_of nearest.now)) },
}

impl<'r, 'a> Scopes<'r, 'a> {
    ghost use Rattle.std.specs.Prelude.{◌≡◌, IfSome, option_map};
    ghost use Rattle.handlebars_layers.specs.Frames.{frames_around, frames_up, frames_up_or_nearest, is_some_frame};
    ghost use Rattle.handlebars_layers.specs.Destination.{given_in, frames_in};

    /// Returns whether there is a frame.
    #[inline(always)]
    pub fn has_frame(self) -> bool
        ensures { result ≡ is_some_frame (frames_in self.entry) }
    {
        match self.nearest {
            Layer::Root => false,
            Layer::Outside { frames } => self.skipped < frames.len(),
            Layer::At { .. } => true,
            Layer::Value { .. } => true,
            Layer::Frame { .. } => true,
        }
    }

    /// Returns the frames around the nearest one, or `None` if there is no frame.
    #[inline(always)]
    pub fn outer(self) -> Option<Scopes<'r, 'a>>
        ensures frames { option_map frames_in result ≡ frames_around (frames_in self.entry) }
        ensures given { IfSome result (λ s. s.given ≡ self.entry.given) }
    {
        match self.nearest {
            Layer::Root => None,
            Layer::Outside { frames } => {
                if self.skipped < frames.len() {
                    Some(Scopes {
                        nearest: self.nearest,
                        skipped: self.skipped + 1,
                        root: self.root,
                        given: self.given,
                        binds: self.binds,
                    })
                } else {
                    None
                }
            }
            Layer::At { outer, .. } => Some(Scopes {
                nearest: outer,
                skipped: 0,
                root: self.root,
                given: self.given,
                binds: self.binds,
            }),
            Layer::Value { outer, .. } => Some(Scopes {
                nearest: outer,
                skipped: 0,
                root: self.root,
                given: self.given,
                binds: self.binds,
            }),
            Layer::Frame { outer, .. } => Some(Scopes {
                nearest: outer,
                skipped: 0,
                root: self.root,
                given: self.given,
                binds: self.binds,
            }),
        }
    }

    /// Returns the frames from the one that is this many frames out, or all of them if there is no such frame.
    #[inline(always)]
    pub fn up_or_nearest(self, count: usize) -> Scopes<'r, 'a>
        ensures frames { frames_in result ≡ frames_up_or_nearest (frames_in self.entry) count }
        ensures given { result.given ≡ self.entry.given }
    {
        if count == 0 {
            return self;
        }
        match self.up(count) {
            Some(frames) => frames,
            None => self,
        }
    }

    /// Returns the frames from the one that is this many frames out, or `None` if there is no such frame.
    #[inline(always)]
    pub fn up(self, count: usize) -> Option<Scopes<'r, 'a>>
        ensures frames { option_map frames_in result ≡ frames_up (frames_in self.entry) count }
        ensures given { IfSome result (λ s. s.given ≡ self.entry.given) }
    {
        let mut here = self;
        let mut left = count;
        while left > 0 {
            match here.outer() {
                Some(outer) => here = outer,
                None => return None,
            }
            left -= 1;
        }
        if here.has_frame() { Some(here) } else { None }
    }
}
