//! Partials that decorators set in scope frames, by the depth of each frame, which is the number of layers around it.

ghost use Rattle.std.specs.Prelude.{◌≡◌, ◌<◌, ◌≤◌, ℕ, OnErr, OnOk, option_map, string_bytes, take};
ghost use Rattle.handlebars_scope.specs.ScopeView.{frames_of, partials_named};
ghost use Rattle.handlebars_semantics.specs.State.{partial_in};
ghost use Rattle.handlebars_layers.specs.Chain.{frames_outside};
ghost use Rattle.handlebars_layers.specs.LayerView.{chain_of};
ghost use Rattle.handlebars_layers.specs.ScopeFrames.{further_frames};
ghost use Rattle.handlebars_template.specs.TreeView.{tree_view};
ghost use Rattle.handlebars_scope.specs.Scopes.{nothing_at, put_at};
ghost use Rattle.handlebars_layers.specs.PartialsByDepth.{ends_at, kept_to, partials_at, partials_in};
ghost use Rattle.handlebars_layers.specs.NearestPartial.{nearest_partial};
ghost use Rattle.handlebars_layers.specs.RisingDepths.{Rises, Rises-prop, depths_of};

use crate::innermost::Innermost;
use crate::layer::Layer;
use crate::outside::{frames_outside, outside_frame};
use handlebars_scope::block::BlockContext;
use handlebars_template::template::Template;
use std::alloc::{AllocError, Global};
use std::collections::{BTreeMap, VecDeque};
use std::rc::Rc;

// An entry: the partials of one frame.
#[derive(Drop)]
struct OfFrame {
    depth: usize,
    by_name: BTreeMap<String, Rc<Template>>,
}

impl OfFrame {
    // Returns the partial of this name, if the frame has one.
    fn get(&self, name: &str) -> Option<&Rc<Template>>
        ensures { option_map (λ t. tree_view t.now.value) result ≡ partials_in self.now name.now }
    {
        get_named(&self.by_name, name)
    }

    // Sets the partial of a name.
    fn set(&mut self, name: String, template: Rc<Template>) -> Result<(), AllocError>
        ensures depth { self.new.depth ≡ self.old.depth }
        ensures partials { OnOk result (partials_in self.new
            ≡ put_at (string_bytes name) (tree_view template.value) (partials_in self.old)) }
        ensures err { OnErr result (partials_in self.new ≡ partials_in self.old) }
    {
        set_named(&mut self.by_name, name, template)
    }
}

// Returns the partial of a name in a map, if there is one.
fn get_named<'p>(
    by_name: &'p BTreeMap<String, Rc<Template>>,
    name: &str,
) -> Option<&'p Rc<Template>>
    ensures { option_map (λ t. tree_view t.now.value) result ≡ partials_named by_name.now name.now }
{
    by_name.get(name)
}

// Sets the partial of a name in a map.
fn set_named(
    by_name: &mut BTreeMap<String, Rc<Template>>,
    name: String,
    template: Rc<Template>,
) -> Result<(), AllocError>
    ensures ok { OnOk result (partials_named by_name.new
        ≡ put_at (string_bytes name) (tree_view template.value) (partials_named by_name.old)) }
    ensures err { OnErr result (partials_named by_name.new ≡ partials_named by_name.old) }
{
    by_name.insert(name, template)?;
    Ok(())
}

/// The partials that decorators set in the frames of a run. Those of the nearest frame from outside, whose depth is 0, are the
/// ground. Those of the layers follow, outermost first. A layer that is left may still have its partials here until they are
/// dropped.
#[derive(Drop)]
pub struct Partials {
    ground: BTreeMap<String, Rc<Template>>,
    all: Vec<OfFrame>,
    alloc: Global,
    ghost rising: { Rises 1 (depths_of all.items) } by { Rises-prop 1 (depths_of all.items) },
}

impl Partials {
    ghost use Rattle.std.specs.Prelude.{◌∷◌, [], suc};
    ghost use Rattle.handlebars_scope.specs.Scopes.{Frame};
    ghost use Rattle.handlebars_semantics.specs.State.{nearest_as, with_partial};
    ghost use Rattle.handlebars_layers.specs.Chain.{frame_layer, frames};
    ghost use Rattle.handlebars_layers.specs.ScopeFrames.{IsEntered, scope_frames, scope_frames_outside, set_partials};
    ghost use Rattle.handlebars_layers.specs.PartialsView.{partials_of};
    ghost use Rattle.handlebars_layers.specs.RisingDepths.{AllBefore};

    /// Creates partials of a run in which none is set.
    pub fn new(alloc: Global) -> Partials
        ensures { (d : ℕ) → partials_of result d ≡ nothing_at }
    {
        Partials::over(BTreeMap::new(alloc), alloc)
    }

    /// Creates partials of a run. The nearest frame from outside has these, and no other frame has any.
    pub fn over(ground: BTreeMap<String, Rc<Template>>, alloc: Global) -> Partials
        ensures ground { partials_of result 0 ≡ partials_named ground }
        ensures layers { (d : ℕ) → 0 < d → partials_of result d ≡ nothing_at }
    {
        Partials {
            ground,
            all: Vec::new(alloc),
            alloc,
        }
    }

    /// Returns the partials of the nearest frame from outside.
    pub fn into_ground(self) -> BTreeMap<String, Rc<Template>>
        ensures { partials_named result ≡ partials_of self 0 }
    {
        let Partials {
            ground,
            all: _,
            alloc: _,
        } = self;
        ground
    }

    /// Prepares for a layer that is entered from this innermost one: it will have no partial, and nor will a layer within it. The
    /// partials of all frames around it are unchanged.
    pub fn enter(&mut self, innermost: Innermost<'_, '_>)
        ensures entered { IsEntered (partials_of self.new) (partials_of self.old) (chain_of innermost.entry.nearest.now) }
        ensures depths { (d : ℕ) → d ≤ innermost.entry.depth → partials_of self.new d ≡ partials_of self.old d }
        ensures deeper { (d : ℕ) → innermost.entry.depth < d → partials_of self.new d ≡ nothing_at }
    {
        self.drop_deeper(innermost.depth);
    }

    /// Prepares for a layer that is entered from this innermost one, of a frame that has these partials. The partials of all frames
    /// around it are unchanged.
    ///
    /// # Errors
    ///
    /// Fails if memory runs out, or if there are 2^64 - 1 layers already. Then the layer will have no partial.
    pub fn enter_frame(
        &mut self,
        innermost: Innermost<'_, '_>,
        partials: BTreeMap<String, Rc<Template>>,
    ) -> Result<(), AllocError>
        ensures around { scope_frames (partials_of self.new) (chain_of innermost.entry.nearest.now)
            ≡ scope_frames (partials_of self.old) (chain_of innermost.entry.nearest.now) }
        ensures frame { OnOk result ((f : Frame)
            → scope_frames (partials_of self.new) (frame_layer f (chain_of innermost.entry.nearest.now))
            ≡ set_partials (partials_named partials) f ∷ scope_frames (partials_of self.old) (chain_of innermost.entry.nearest.now)) }
        ensures err { OnErr result
            (IsEntered (partials_of self.new) (partials_of self.old) (chain_of innermost.entry.nearest.now)) }
        ensures depths { (d : ℕ) → d ≤ innermost.entry.depth → partials_of self.new d ≡ partials_of self.old d }
    {
        let around = innermost.depth;
        self.drop_deeper(around);
        if partials.is_empty() {
            return Ok(());
        }
        match around.checked_add(1) {
            Some(depth) => self.push(depth, partials),
            None => Err(AllocError),
        }
    }

    /// Sets the partial of a name in the innermost frame, and drops the partials of frames within it, which are left. Nothing is
    /// set or dropped if there is no frame.
    ///
    /// # Errors
    ///
    /// Fails if memory runs out. Then the partials of the innermost frame and of those around it are unchanged.
    pub fn put(
        &mut self,
        innermost: Innermost<'_, '_>,
        name: &str,
        template: Rc<Template>,
    ) -> Result<(), AllocError>
        ensures ok { OnOk result (scope_frames (partials_of self.new) (chain_of innermost.entry.nearest.now)
            ≡ nearest_as (with_partial name.now (tree_view template.value))
            (scope_frames (partials_of self.old) (chain_of innermost.entry.nearest.now))) }
        ensures err { OnErr result (scope_frames (partials_of self.new) (chain_of innermost.entry.nearest.now)
            ≡ scope_frames (partials_of self.old) (chain_of innermost.entry.nearest.now)) }
        ensures unframed { frames (chain_of innermost.entry.nearest.now) ≡ []
            → (d : ℕ) → partials_of self.new d ≡ partials_of self.old d }
        ensures depths { (d : ℕ) → d < innermost.entry.depth → partials_of self.new d ≡ partials_of self.old d }
    {
        if innermost.depth == 0 && innermost.outside == 0 {
            return Ok(());
        }
        self.set(innermost.depth, name, template)
    }

    // Sets the partial of a name in the frame at this depth, and drops the partials of all deeper frames. They are dropped also if
    // memory runs out, and all others are as before then.
    fn set(&mut self, depth: usize, name: &str, template: Rc<Template>) -> Result<(), AllocError>
        ensures outer { (d : ℕ) → d < depth → partials_of self.new d ≡ partials_of self.old d }
        ensures own { OnOk result (partials_of self.new depth
            ≡ put_at name.now (tree_view template.value) (partials_of self.old depth)) }
        ensures err { OnErr result (partials_of self.new depth ≡ partials_of self.old depth) }
        ensures deeper { (d : ℕ) → depth < d → partials_of self.new d ≡ nothing_at }
    {
        self.drop_deeper(depth);
        let name = String::from_str(self.alloc, name)?;
        if depth == 0 {
            set_named(&mut self.ground, name, template)
        } else {
            self.set_in_layer(depth, name, template)
        }
    }

    // Sets the partial of a name in a layer. No deeper layer has any.
    fn set_in_layer(
        &mut self,
        depth: usize,
        name: String,
        template: Rc<Template>,
    ) -> Result<(), AllocError>
        requires layer { 0 < depth }
        requires deepest { AllBefore (suc depth) self.old.all.items }
        ensures ground { self.new.ground ≡ self.old.ground }
        ensures outer { (d : ℕ) → d < depth → partials_at self.new.all.items d ≡ partials_at self.old.all.items d }
        ensures own { OnOk result (partials_at self.new.all.items depth
            ≡ put_at (string_bytes name) (tree_view template.value) (partials_at self.old.all.items depth)) }
        ensures err { OnErr result (partials_at self.new.all.items depth ≡ partials_at self.old.all.items depth) }
        ensures deeper { (d : ℕ) → depth < d → partials_at self.new.all.items d ≡ nothing_at }
    {
        if self.has_last(depth) {
            match self.all.last_mut() {
                Some(last) => last.set(name, template),
                None => Ok(()),
            }
        } else {
            self.add(depth, name, template)
        }
    }

    // Adds the entry of a layer, with this partial. No other entry is of this layer or of a deeper one.
    fn add(&mut self, depth: usize, name: String, template: Rc<Template>) -> Result<(), AllocError>
        requires layer { 0 < depth }
        requires deepest { AllBefore depth self.old.all.items }
        ensures ground { self.new.ground ≡ self.old.ground }
        ensures outer { (d : ℕ) → d < depth → partials_at self.new.all.items d ≡ partials_at self.old.all.items d }
        ensures own { OnOk result (partials_at self.new.all.items depth
            ≡ put_at (string_bytes name) (tree_view template.value) nothing_at) }
        ensures err { OnErr result (self.new.all.items ≡ self.old.all.items) }
        ensures deeper { (d : ℕ) → depth < d → partials_at self.new.all.items d ≡ nothing_at }
    {
        let mut by_name = BTreeMap::new(self.alloc);
        set_named(&mut by_name, name, template)?;
        self.push(depth, by_name)
    }

    // Adds the entry of a layer, with these partials. No other entry is of this layer or of a deeper one.
    fn push(
        &mut self,
        depth: usize,
        by_name: BTreeMap<String, Rc<Template>>,
    ) -> Result<(), AllocError>
        requires layer { 0 < depth }
        requires deepest { AllBefore depth self.old.all.items }
        ensures ground { self.new.ground ≡ self.old.ground }
        ensures outer { (d : ℕ) → d < depth → partials_at self.new.all.items d ≡ partials_at self.old.all.items d }
        ensures own { OnOk result (partials_at self.new.all.items depth ≡ partials_named by_name) }
        ensures err { OnErr result (self.new.all.items ≡ self.old.all.items) }
        ensures deeper { (d : ℕ) → depth < d → partials_at self.new.all.items d ≡ nothing_at }
    {
        self.all.push(OfFrame { depth, by_name })?;
        Ok(())
    }

    // Returns whether the last entry is of the layer at this depth.
    fn has_last(&self, depth: usize) -> bool
        ensures { result ≡ ends_at depth self.now.all.items }
    {
        match self.all.last() {
            Some(last) => last.depth == depth,
            None => false,
        }
    }

    /// Returns the partial of a name as it is found in the innermost frame: the one that is set nearest to it.
    pub fn find<'p>(&'p self, innermost: Innermost<'p, 'p>, name: &str) -> Option<&'p Rc<Template>>
        ensures { option_map (λ t. tree_view t.now.value) result
            ≡ partial_in (scope_frames (partials_of self.now) (chain_of innermost.entry.nearest.now)) name.now }
    {
        match self.get_in_layers(innermost.depth, name) {
            Some(template) => Some(template),
            None => self.get_outside(innermost, name),
        }
    }

    // Returns the partial of a name that a frame from outside has, the nearest one first. If there is only one, layers are not
    // walked.
    fn get_outside<'p>(
        &'p self,
        innermost: Innermost<'p, 'p>,
        name: &str,
    ) -> Option<&'p Rc<Template>>
        ensures { option_map (λ t. tree_view t.now.value) result ≡ partial_in
            (scope_frames_outside (partials_of self.now) (frames_outside (chain_of innermost.entry.nearest.now))) name.now }
    {
        if innermost.outside == 0 {
            return None;
        }
        match get_named(&self.ground, name) {
            Some(template) => Some(template),
            None => {
                if innermost.outside > 1 {
                    further_partial(innermost.nearest, name)
                } else {
                    None
                }
            }
        }
    }

    // Returns the partial of a name that is set nearest to the layer at this depth: in the layer itself or around it.
    fn get_in_layers(&self, depth: usize, name: &str) -> Option<&Rc<Template>>
        ensures { option_map (λ t. tree_view t.now.value) result
            ≡ nearest_partial (partials_at self.now.all.items) depth name.now }
    {
        let mut left = self.all.as_slice();
        while let [rest @ .., last] = left {
            if last.depth <= depth {
                if let Some(template) = last.get(name) {
                    return Some(template);
                }
            }
            left = rest;
        }
        None
    }

    // Drops the entries of frames that are deeper than this depth.
    fn drop_deeper(&mut self, depth: usize)
        ensures all { self.new.all.items ≡ kept_to depth self.old.all.items }
        ensures ground { self.new.ground ≡ self.old.ground }
    {
        let count = self.count_to(depth);
        self.all.truncate(count);
    }

    // Returns how many of the entries are of frames that are no deeper than this depth.
    fn count_to(&self, depth: usize) -> usize
        ensures { take result self.now.all.items ≡ kept_to depth self.now.all.items }
    {
        let mut left = self.all.as_slice();
        while let [rest @ .., last] = left {
            if last.depth <= depth {
                return left.len();
            }
            left = rest;
        }
        0
    }
}

// Returns the partial of a name that a frame from outside has, the nearest one first. The nearest of all is left out.
fn further_partial<'p>(layer: &'p Layer<'p, 'p>, name: &str) -> Option<&'p Rc<Template>>
    ensures { option_map (λ t. tree_view t.now.value) result
        ≡ partial_in (further_frames (frames_outside (chain_of layer.now))) name.now }
{
    match frames_outside(layer) {
        Some(frames) => in_further(frames, name),
        None => None,
    }
}

// Returns the partial of a name that the second frame or one after it has, the nearest one first.
fn in_further<'p>(frames: &'p VecDeque<BlockContext>, name: &str) -> Option<&'p Rc<Template>>
    ensures { option_map (λ t. tree_view t.now.value) result
        ≡ partial_in (further_frames (frames_of frames.now.items)) name.now }
{
    let mut here = 1;
    'frames: while let Some(frame) = outside_frame(frames, here) {
        if let Some(template) = frame.get_local_partial(name) {
            return Some(template);
        }
        here += 1;
    }
    None
}
