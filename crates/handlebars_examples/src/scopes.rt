//! Worked sources of `each`, `with` and `lookup`.

ghost use Rattle.handlebars_examples.specs.ScopeExamples.{ArrayNameExample, TwoNamesExample, ShadowExample, LastExample, KeysExample, IndicesExample, NoMembersExample, EachInverseExample, WithInverseExample, TooFarUpExample, BoundUpExample, UpExample, RecursiveExample, WholeExample, LookupExample, TextIndexExample, NumberKeyExample};

/// States the outcomes of some sources of `each`, `with` and `lookup` over some data, with recursive lookup or without.
pub fn worked_scopes()
    ensures array_name { ArrayNameExample }
    ensures two_names { TwoNamesExample }
    ensures shadow { ShadowExample }
    ensures last { LastExample }
    ensures keys { KeysExample }
    ensures indices { IndicesExample }
    ensures no_members { NoMembersExample }
    ensures each_inverse { EachInverseExample }
    ensures with_inverse { WithInverseExample }
    ensures too_far_up { TooFarUpExample }
    ensures bound_up { BoundUpExample }
    ensures up { UpExample }
    ensures recursive { RecursiveExample }
    ensures whole { WholeExample }
    ensures lookup { LookupExample }
    ensures text_index { TextIndexExample }
    ensures number_key { NumberKeyExample }
{}
