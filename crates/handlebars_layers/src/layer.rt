//! Layers: a scope frame each, and the layers around it.

use crate::destination::{FrameValue, Route};
use handlebars_base::json::path::PathSeg;
use handlebars_base::json::value::Json;
use handlebars_helpers::iteration::Iteration;
use handlebars_scope::block::BlockContext;
use std::collections::VecDeque;

/// A scope frame, with those around it.
#[derive(Clone, Copy)]
pub enum Layer<'r, 'a> {
    /// No frame. Paths lead from the data.
    Root,
    /// The frames that were there when the rendering began, nearest first.
    Outside {
        frames: &'r VecDeque<BlockContext>,
    },
    /// A frame at a value of the data: where names lead from the frame that is `skipped` frames out of `start`.
    At {
        node: &'a Json,
        start: &'r Layer<'r, 'a>,
        skipped: usize,
        descent: &'r Descent<'r>,
        kind: LayerKind<'r>,
        outer: &'r Layer<'r, 'a>,
    },
    /// A frame at a value that has no path.
    Value {
        value: &'r Json,
        kind: LayerKind<'r>,
        outer: &'r Layer<'r, 'a>,
    },
    /// A frame that a user-defined helper made.
    Frame {
        frame: &'r BlockContext,
        outer: &'r Layer<'r, 'a>,
    },
}

/// The names that lead from a frame to a value: those of another descent, those that a name of the frame is bound to, those of
/// segments, and one more that recursive lookup found. Only recursive lookup makes a descent after another one.
#[derive(Clone, Copy)]
pub struct Descent<'r> {
    pub after: Option<&'r Descent<'r>>,
    pub bound: &'r [String],
    pub rest: &'r [PathSeg],
    pub last: Option<&'r String>,
}

/// The names that a layer binds, and its variables.
#[derive(Clone, Copy)]
pub enum LayerKind<'r> {
    /// An iteration of `each`: the index of its member, from 0, the key, if it is a member of an object, whether it is the last
    /// one, and the names that are bound to the member and to its key or index.
    Iteration {
        index: usize,
        key: Option<&'r str>,
        last: bool,
        names: &'r BlockNames<'r>,
    },
    /// `with`: the name that is bound to its value. It has the variables of the frame around it.
    With {
        names: &'r BlockNames<'r>,
    },
    /// A partial call: its hash arguments by their keys, of which the last one counts where two are equal. It has the variables
    /// of the frame around it.
    Partial {
        hash: &'r [(&'r str, FrameValue<'r>)],
    },
}

/// The names that a block binds: one to its value, or one to its value and one to its index or key.
#[derive(Clone, Copy)]
pub enum BlockNames<'r> {
    Unnamed,
    One(&'r str),
    Two(&'r str, &'r str),
}

impl<'r, 'a> Layer<'r, 'a> {
    ghost use Rattle.std.specs.Prelude.{◌≡◌, ◌++◌, true};
    ghost use Rattle.serde_json.specs.Data.{Data};
    ghost use Rattle.serde_json.specs.View.{view};
    ghost use Rattle.handlebars_scope.specs.Resolve.{value_at};
    ghost use Rattle.handlebars_scope.specs.ScopeView.{frame_of, frames_of};
    ghost use Rattle.handlebars_layers.specs.Chain.{IsValue, NodesAreThere, frame_layer, is_no_layer, kind_names, no_layer, node_layer, outside, value_layer};
    ghost use Rattle.handlebars_layers.specs.Destination.{given_in, route_names};
    ghost use Rattle.handlebars_layers.specs.LayerView.{chain_of, descent_names, kind_view};

    /// Creates the layer of no frame.
    pub fn root() -> Layer<'r, 'a>
        ensures { chain_of result ≡ no_layer }
    {
        Layer::Root
    }

    /// Creates the layer of the frames that are there when a rendering begins, nearest first.
    pub fn outside(frames: &'r VecDeque<BlockContext>) -> Layer<'r, 'a>
        ensures { chain_of result ≡ outside (frames_of frames.now.items) }
    {
        Layer::Outside { frames }
    }

    /// Creates a layer at a value of the data, or at a member of it for an iteration. The route is that of the value.
    #[inline(always)]
    pub fn at_node(
        node: &'a Json,
        route: &'r Route<'r, 'a>,
        kind: LayerKind<'r>,
        outer: &'r Layer<'r, 'a>,
    ) -> Layer<'r, 'a>
        ensures chain { chain_of result ≡ node_layer (view node.now) (chain_of route.now.start.nearest.now) route.now.start.skipped
            (descent_names route.now.descent) (kind_view kind.entry) (chain_of outer.now) }
        ensures there { (d : Data) → given_in route.now.start ≡ d
            → IsValue (value_at d (route_names route.now ++ kind_names (kind_view kind.entry))) (view node.now)
            → NodesAreThere d (chain_of outer.now) → NodesAreThere d (chain_of result) }
    {
        Layer::At {
            node,
            start: route.start.nearest,
            skipped: route.start.skipped,
            descent: &route.descent,
            kind,
            outer,
        }
    }

    /// Creates a layer at a value that has no path.
    #[inline(always)]
    pub fn at_value(value: &'r Json, kind: LayerKind<'r>, outer: &'r Layer<'r, 'a>) -> Layer<'r, 'a>
        ensures chain { chain_of result ≡ value_layer (view value.now) (kind_view kind.entry) (chain_of outer.now) }
        ensures there { (d : Data) → NodesAreThere d (chain_of outer.now) → NodesAreThere d (chain_of result) }
    {
        Layer::Value { value, kind, outer }
    }

    /// Creates the layer of a frame that a user-defined helper made.
    pub fn of_frame(frame: &'r BlockContext, outer: &'r Layer<'r, 'a>) -> Layer<'r, 'a>
        ensures chain { chain_of result ≡ frame_layer (frame_of frame.now) (chain_of outer.now) }
        ensures there { (d : Data) → NodesAreThere d (chain_of outer.now) → NodesAreThere d (chain_of result) }
    {
        Layer::Frame { frame, outer }
    }
}

impl<'r> LayerKind<'r> {
    ghost use Rattle.std.specs.Prelude.{◌≡◌};
    ghost use Rattle.handlebars_helpers.specs.View.{iteration_view};
    ghost use Rattle.handlebars_layers.specs.LayerView.{kind_view, names_seen};
    ghost use Rattle.handlebars_layers.specs.Layering.{iteration_kind_by_names};

    /// Creates the kind of an iteration's layer, which binds these names.
    pub fn iteration(iteration: Iteration<'r>, names: &'r BlockNames<'r>) -> LayerKind<'r>
        ensures { kind_view result ≡ iteration_kind_by_names (names_seen names.now) (iteration_view iteration.entry) }
    {
        LayerKind::Iteration {
            index: iteration.index,
            key: iteration.key,
            last: iteration.last,
            names,
        }
    }
}
