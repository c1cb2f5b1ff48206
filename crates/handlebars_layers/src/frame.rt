//! What the nearest frame has: its base, what it binds names to, and its variables.

ghost use Rattle.std.specs.Prelude.{◌≡◌, Bool, None, option_map};
ghost use Rattle.serde_json.specs.Data.{boolean};
ghost use Rattle.serde_json.specs.View.{view};
ghost use Rattle.handlebars_scope.specs.Resolve.{value_at};
ghost use Rattle.handlebars_scope.specs.ResolutionView.{reached_of};
ghost use Rattle.handlebars_scope.specs.Scopes.{nothing_at};
ghost use Rattle.handlebars_scope.specs.ScopeView.{frame_of};
ghost use Rattle.handlebars_helpers.specs.Iterations.{iteration_key, iteration_variables};
ghost use Rattle.handlebars_semantics.specs.Inclusion.{with_bound};
ghost use Rattle.handlebars_layers.specs.Chain.{block_bound, value_bound, iteration};
ghost use Rattle.handlebars_layers.specs.LayerView.{names_seen};
ghost use Rattle.handlebars_layers.specs.Destination.{bound_view};
ghost use Rattle.handlebars_layers.specs.FrameValues.{hash_values, value_data};

use crate::destination::{Bound, FrameValue};
use crate::layer::{BlockNames, Layer, LayerKind};
use crate::outside::outside_frame;
use crate::scopes::Scopes;
use handlebars_base::json::value::Json;
use handlebars_scope::block::{BlockContext, BlockParamHolder};
use handlebars_scope::context::looked_up::LookedUp;
use handlebars_scope::context::members::along_names;
use handlebars_scope::context::reached::Reached;

impl<'r, 'a> Scopes<'r, 'a> {
    ghost use Rattle.std.specs.Prelude.{◌≡◌, [], option_map};
    ghost use Rattle.serde_json.specs.View.{view};
    ghost use Rattle.handlebars_scope.specs.Resolve.{value_at};
    ghost use Rattle.handlebars_scope.specs.ResolutionView.{reached_of};
    ghost use Rattle.handlebars_semantics.specs.State.{nearest_variables};
    ghost use Rattle.handlebars_layers.specs.Chain.{names_at};
    ghost use Rattle.handlebars_layers.specs.Frames.{base_value_at, bound_at};
    ghost use Rattle.handlebars_layers.specs.Destination.{bound_view, given_in, frames_in};
    ghost use Rattle.handlebars_layers.specs.FrameValues.{value_data};

    /// Returns the frames without any frame, in which paths lead from the data.
    #[inline(always)]
    pub fn root(self) -> Scopes<'r, 'a>
        ensures frames { frames_in result ≡ [] }
        ensures given { result.given ≡ self.entry.given }
    {
        Scopes {
            nearest: self.root,
            skipped: 0,
            root: self.root,
            given: self.given,
            binds: self.binds,
        }
    }

    /// Returns the value that paths lead from, if the nearest frame has one.
    #[inline(always)]
    pub fn base_value(self) -> Option<&'r Json>
        ensures { option_map (λ v. view v.now) result ≡ base_value_at (frames_in self.entry) }
    {
        match self.nearest {
            Layer::Root => None,
            Layer::Outside { frames } => match outside_frame(frames, self.skipped) {
                Some(frame) => frame.base_value(),
                None => None,
            },
            Layer::At { .. } => None,
            Layer::Value { value, .. } => Some(*value),
            Layer::Frame { frame, .. } => frame.base_value(),
        }
    }

    /// Returns the value of the data that the base path of the nearest frame leads to.
    #[inline(always)]
    pub fn base(self, looked_up: &LookedUp) -> Reached<'a, 'r>
        ensures { reached_of result ≡ value_at (given_in self.entry) (names_at (frames_in self.entry)) }
    {
        match self.nearest {
            Layer::Root => Reached::Value(self.given),
            Layer::Outside { frames } => match outside_frame(frames, self.skipped) {
                Some(frame) => base_in(self.given, frame, looked_up),
                None => Reached::Value(self.given),
            },
            Layer::At { node, .. } => Reached::Value(*node),
            Layer::Value { .. } => Reached::Value(self.given),
            Layer::Frame { frame, .. } => base_in(self.given, frame, looked_up),
        }
    }

    /// Returns what the nearest frame binds a name to, if it binds it.
    pub fn bound(self, name: &str) -> Option<Bound<'r>>
        ensures { option_map bound_view result ≡ bound_at (frames_in self.entry) name.now }
    {
        match self.nearest {
            Layer::Root => None,
            Layer::Outside { frames } => match outside_frame(frames, self.skipped) {
                Some(frame) => bound_in(frame, name),
                None => None,
            },
            Layer::At { kind, .. } => kind.bound(Bound::Path(&[]), name),
            Layer::Value { value, kind, .. } => {
                kind.bound(Bound::Value(FrameValue::Json(*value)), name)
            }
            Layer::Frame { frame, .. } => bound_in(frame, name),
        }
    }

    /// Returns the variable of a name in the nearest frame, if it is set.
    pub fn variable(self, name: &str) -> Option<FrameValue<'r>>
        ensures { option_map value_data result ≡ nearest_variables (frames_in self.entry) name.now }
    {
        let mut here = self.nearest;
        let mut skipped = self.skipped;
        loop {
            match here {
                Layer::Root => return None,
                Layer::Outside { frames } => {
                    return match outside_frame(frames, skipped) {
                        Some(frame) => variable_in(frame, name),
                        None => None,
                    };
                }
                Layer::At { kind, outer, .. } => {
                    if let Some(found) = kind.variable(name) {
                        return found;
                    }
                    here = outer;
                }
                Layer::Value { kind, outer, .. } => {
                    if let Some(found) = kind.variable(name) {
                        return found;
                    }
                    here = outer;
                }
                Layer::Frame { frame, .. } => return variable_in(frame, name),
            }
            skipped = 0;
        }
    }
}

impl<'r> LayerKind<'r> {
    ghost use Rattle.std.specs.Prelude.{◌≡◌, IfSome, List, option_map};
    ghost use Rattle.handlebars_scope.specs.Scopes.{Base, Frame, bound_base};
    ghost use Rattle.handlebars_layers.specs.Chain.{kind_bound, kind_variables};
    ghost use Rattle.handlebars_layers.specs.Frames.{or_outer};
    ghost use Rattle.handlebars_layers.specs.LayerView.{kind_view};
    ghost use Rattle.handlebars_layers.specs.Destination.{bound_view};
    ghost use Rattle.handlebars_layers.specs.FrameValues.{value_data};

    /// Returns what a name is bound to in a layer whose base a name is bound to so.
    pub fn bound(self, base: Bound<'r>, name: &str) -> Option<Bound<'r>>
        ensures { (b : Base) → bound_view base.entry ≡ bound_base b
            → option_map bound_view result ≡ kind_bound (kind_view self.entry) b name.now }
    {
        match self {
            LayerKind::Iteration {
                index,
                key,
                last: _,
                names,
            } => block_bound(names, base, iteration_key(index, key), name),
            LayerKind::With { names } => value_bound(names, base, name),
            LayerKind::Partial { hash } => bound_hash(hash, name),
        }
    }

    /// Returns the variable of a name, if a layer of this kind has variables of its own: that of an iteration, if it is set.
    pub fn variable(self, name: &str) -> Option<Option<FrameValue<'r>>>
        ensures { (fs : List Frame) → kind_variables (kind_view self.entry) fs name.now
            ≡ or_outer (option_map (option_map value_data) result) fs name.now }
    {
        match self {
            LayerKind::Iteration {
                index,
                key,
                last,
                names: _,
            } => Some(iteration_variable(index, key, last, name)),
            LayerKind::With { .. } => None,
            LayerKind::Partial { .. } => None,
        }
    }
}

// ---- frames that a caller or a helper made

// Returns the value of the data that the base path of a frame leads to.
fn base_in<'r, 'a>(
    given: &'a Json,
    frame: &'r BlockContext,
    looked_up: &LookedUp,
) -> Reached<'a, 'r>
    ensures { reached_of result ≡ value_at (view given.now) (frame_of frame.now).base_path }
{
    let (reached, members) = along_names(given, frame.base_path());
    looked_up.add(members);
    reached
}

fn bound_in<'r>(frame: &'r BlockContext, name: &str) -> Option<Bound<'r>>
    ensures { option_map bound_view result ≡ (frame_of frame.now).bound name.now }
{
    match frame.get_block_param(name) {
        Some(BlockParamHolder::Path(path)) => Some(Bound::Path(path)),
        Some(BlockParamHolder::Value(value)) => Some(Bound::Value(FrameValue::Json(value))),
        None => None,
    }
}

fn variable_in<'r>(frame: &'r BlockContext, name: &str) -> Option<FrameValue<'r>>
    ensures { option_map value_data result ≡ (frame_of frame.now).variable name.now }
{
    match frame.get_local_var(name) {
        Some(value) => Some(FrameValue::Json(value)),
        None => None,
    }
}

// ---- bound names

// Returns what a name is bound to by names of which the first denotes the base, and a second one the key or index.
fn block_bound<'r>(
    names: &BlockNames<'r>,
    base: Bound<'r>,
    key: FrameValue<'r>,
    name: &str,
) -> Option<Bound<'r>>
    ensures { option_map bound_view result
        ≡ block_bound (names_seen names.now) (bound_view base.entry) (value_data key.entry) name.now }
{
    match names {
        BlockNames::Unnamed => None,
        BlockNames::One(one) => { if *one == name { Some(base) } else { None } }
        BlockNames::Two(first, second) => {
            if *second == name {
                Some(Bound::Value(key))
            } else if *first == name {
                Some(base)
            } else {
                None
            }
        }
    }
}

// Returns what a name is bound to by the names of `with`: a single one denotes the base.
fn value_bound<'r>(names: &BlockNames<'r>, base: Bound<'r>, name: &str) -> Option<Bound<'r>>
    ensures { option_map bound_view result ≡ value_bound (names_seen names.now) (bound_view base.entry) name.now }
{
    match names {
        BlockNames::Unnamed => None,
        BlockNames::One(one) => { if *one == name { Some(base) } else { None } }
        BlockNames::Two(_, _) => None,
    }
}

// Returns the value of the hash argument of a name, if there is one: of the last one, if several have the name.
fn bound_hash<'r>(hash: &'r [(&'r str, FrameValue<'r>)], name: &str) -> Option<Bound<'r>>
    ensures { option_map bound_view result ≡ with_bound (hash_values hash.now) nothing_at name.now }
{
    let mut left = hash.len();
    'hash: while left > 0 {
        left -= 1;
        let argument = &hash[left];
        if argument.0 == name {
            return Some(Bound::Value(argument.1));
        }
    }
    None
}

// Returns the key of an iteration, or its index if it has no key.
fn iteration_key<'r>(index: usize, key: Option<&'r str>) -> FrameValue<'r>
    ensures { (last : Bool) → value_data result ≡ iteration_key (iteration index (option_map (λ k. k.now) key.entry) last) }
{
    match key {
        Some(key) => FrameValue::Key(key),
        None => FrameValue::Index(index),
    }
}

// ---- variables

// Returns the variable of a name in an iteration, if it is set.
fn iteration_variable<'r>(
    index: usize,
    key: Option<&'r str>,
    last: bool,
    name: &str,
) -> Option<FrameValue<'r>>
    ensures { option_map value_data result
        ≡ iteration_variables (iteration index (option_map (λ k. k.now) key.entry) last) nothing_at name.now }
{
    match key {
        Some(key) => {
            if name == "key" {
                Some(FrameValue::Key(key))
            } else {
                usual_variable(index, last, name)
            }
        }
        None => usual_variable(index, last, name),
    }
}

// Returns one of the variables that every iteration has.
fn usual_variable<'r>(index: usize, last: bool, name: &str) -> Option<FrameValue<'r>>
    ensures { option_map value_data result ≡ iteration_variables (iteration index None last) nothing_at name.now }
{
    match name {
        "index" => Some(FrameValue::Index(index)),
        "last" => Some(truth_value(last)),
        "first" => Some(truth_value(index == 0)),
        _ => None,
    }
}

fn truth_value<'r>(truth: bool) -> FrameValue<'r>
    ensures { value_data result ≡ boolean truth }
{
    if truth {
        FrameValue::True
    } else {
        FrameValue::False
    }
}
