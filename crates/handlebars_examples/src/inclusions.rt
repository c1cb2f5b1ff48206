//! Worked partials.

ghost use Rattle.handlebars_examples.specs.InclusionExamples.{IndentedExample, NotIndentedExample, NestedIndentExample, NotFoundExample, OwnBlockExample, LocalExample, CalledNameExample, NextIterationExample, MergedExample, LayoutExample, NoCapturedExample, FailedAheadExample, SelfExample, LimitReachedExample, FullExample};
ghost use Rattle.handlebars_examples.specs.CapturedExamples.{AsCapturedExample, SetAheadExample, NameAsBeforeExample, DefaultBlockExample, CapturedAsBeforeExample, BoundPairExample, AheadCountExample, LineEndExample};

/// States what some partials write, and how they fail.
pub fn worked_inclusions()
    ensures indented { IndentedExample }
    ensures not_indented { NotIndentedExample }
    ensures nested_indent { NestedIndentExample }
    ensures not_found { NotFoundExample }
    ensures own_block { OwnBlockExample }
    ensures local { LocalExample }
    ensures called_name { CalledNameExample }
    ensures next_iteration { NextIterationExample }
    ensures merged { MergedExample }
    ensures layout { LayoutExample }
    ensures no_captured { NoCapturedExample }
    ensures failed_ahead { FailedAheadExample }
    ensures itself { SelfExample }
    ensures limit_reached { LimitReachedExample }
    ensures full { FullExample }
{}

/// States what partial calls capture, and what they leave unchanged.
pub fn worked_captured_texts()
    ensures as_captured { AsCapturedExample }
    ensures set_ahead { SetAheadExample }
    ensures name_as_before { NameAsBeforeExample }
    ensures default_block { DefaultBlockExample }
    ensures captured_as_before { CapturedAsBeforeExample }
    ensures bound_pair { BoundPairExample }
    ensures ahead_count { AheadCountExample }
    ensures line_end { LineEndExample }
{}
