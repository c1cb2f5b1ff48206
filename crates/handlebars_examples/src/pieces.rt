//! A worked page, and nested iterations, with the pieces of their outputs, and what is emitted of the origin of each.

ghost use Rattle.handlebars_examples.specs.PieceExamples.{InItemEmittedExample, ItemSourceExample, LayoutSourceExample, PiecesExample, IterationsExample, IterationsEmittedExample};

/// States which pieces a page with a layout and a partial has, and nested iterations, their origins, and what is emitted of
/// them.
pub fn worked_pieces()
    ensures layout_source { LayoutSourceExample }
    ensures item_source { ItemSourceExample }
    ensures pieces { PiecesExample }
    ensures iterations { IterationsExample }
    ensures iterations_emitted { IterationsEmittedExample }
    ensures included_emitted { InItemEmittedExample }
{}
