//! Laws of layers: they are the scope frames of the language.

ghost use Rattle.std.specs.Prelude.{ℕ, List, Option};
ghost use Rattle.serde_json.specs.Data.{Data};
ghost use Rattle.handlebars_base.specs.Bytes.{Text};
ghost use Rattle.handlebars_template.specs.Tree.{Binding, Tree};
ghost use Rattle.handlebars_scope.specs.Scopes.{Base, Frame};
ghost use Rattle.handlebars_helpers.specs.Iterations.{Iteration};
ghost use Rattle.handlebars_layers.specs.Entering.{EntersInclusion, EntersIterations, EntersNextIteration, EntersWith};
ghost use Rattle.handlebars_layers.specs.ScopeFrames.{ByDepth, EntersFrame, EntersWithNone, FindsByDepth, IgnorePartials, LeavesOuter, SetsByDepth, VariablesIgnorePartials};
ghost use Rattle.handlebars_layers.specs.Chain.{Chain};
ghost use Rattle.handlebars_layers.specs.Layering.{IsInInclusionFrame, IsInWithFrame, IteratesInItsFrame, IteratesInTheNextFrame};

/// The layer of an iteration is the scope frame of `each`, whether it is set up for the first iteration or for a later one.
pub fn iterations_have_their_frame()
    ensures first { (path : Option (List Text)) (binding : Binding) (t : Iteration) (fs : List Frame)
        → IteratesInItsFrame path binding t fs }
    ensures next { (path : Option (List Text)) (binding : Binding) (before t : Iteration) (fs : List Frame)
        → IteratesInTheNextFrame path binding before t fs }
{}

/// The layer of `with` is the scope frame of `with`.
pub fn with_has_its_frame()
    ensures { (base : Base) (binding : Binding) (fs : List Frame) → IsInWithFrame base binding fs }
{}

/// The layer of a partial call is the scope frame of an inclusion.
pub fn partial_calls_have_their_frame()
    ensures { (d : Data) (hs : List (Text × Data)) (fs : List Frame) → IsInInclusionFrame d hs fs }
{}

/// What paths lead to doesn't depend on the partials that are set in frames.
pub fn partials_are_no_scope()
    ensures paths { (at : ByDepth) (c : Chain) → IgnorePartials at c }
    ensures variables { (at : ByDepth) (c : Chain) → VariablesIgnorePartials at c }
{}

/// Partials are found and set by the depth of layers. Leaving a layer removes its frame and no other.
pub fn partials_go_by_depth()
    ensures found { (at : ByDepth) (c : Chain) → FindsByDepth at c }
    ensures set { (new old : ByDepth) (c : Chain) (name : Text) (t : Tree) → SetsByDepth new old c name t }
    ensures entered { (new old : ByDepth) (c : Chain) → EntersWithNone new old c }
    ensures frame { (new old : ByDepth) (c : Chain) (f : Frame) → EntersFrame new old c f }
    ensures outer { (at : ByDepth) (c outer : Chain) → LeavesOuter at c outer }
{}

/// `each`, `with` and partial calls enter their scope frames as layers.
pub fn constructs_enter_layers()
    ensures iterations { (new old : ByDepth) (c start : Chain) (n : ℕ) (names : List Text) (binding : Binding) (t : Iteration)
        → EntersIterations new old c start n names binding t }
    ensures next { (at : ByDepth) (c start : Chain) (n : ℕ) (names : List Text) (binding : Binding) (before t : Iteration)
        → EntersNextIteration at c start n names binding before t }
    ensures with { (new old : ByDepth) (c : Chain) (v : Data) (start : Chain) (n : ℕ) (names : List Text) (binding : Binding)
        → EntersWith new old c v start n names binding }
    ensures inclusion { (new old : ByDepth) (c : Chain) (d : Data) (hs : List (Text × Data)) → EntersInclusion new old c d hs }
{}
