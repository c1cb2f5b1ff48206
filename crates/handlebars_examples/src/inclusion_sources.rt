//! Worked sources with partials, each with its tree or its error.

ghost use Rattle.handlebars_examples.specs.InclusionSources.{IndentedSourceExample, PreventedExample, WithinExample, BracketsExample, CalledExample, PartialInverseExample, PartialNameExample, CallNameExample};

/// States what some sources with partials compile to.
pub fn worked_inclusion_sources()
    ensures indented { IndentedSourceExample }
    ensures prevented { PreventedExample }
    ensures within_line { WithinExample }
    ensures brackets { BracketsExample }
    ensures called { CalledExample }
    ensures no_inverse { PartialInverseExample }
    ensures other_name { PartialNameExample }
    ensures call_name { CallNameExample }
{}
