//! Worked sources and trees, each with its outcome over some data.

ghost use Rattle.handlebars_examples.specs.Examples.{EmptyExample, ValueExample, MarkupExample, MissingExample, EscapedExample, RefusalExample, UnclosedExample, RawExample, CallExample, InnerExample, NameExample, LiteralExample, IfExample, NoInverseExample, ChainExample, NoParamExample, BlockExample, InnerIfExample, CaptureExample};

/// States the outcomes of some sources and some trees over some data, with the helpers of a new registry, and what a capture
/// passes on and leaves.
pub fn worked_examples()
    ensures empty { EmptyExample }
    ensures value { ValueExample }
    ensures markup { MarkupExample }
    ensures missing { MissingExample }
    ensures escaped { EscapedExample }
    ensures refusal { RefusalExample }
    ensures unclosed { UnclosedExample }
    ensures raw { RawExample }
    ensures call { CallExample }
    ensures inner { InnerExample }
    ensures name { NameExample }
    ensures literal { LiteralExample }
    ensures if_else { IfExample }
    ensures no_inverse { NoInverseExample }
    ensures chain { ChainExample }
    ensures no_parameter { NoParamExample }
    ensures unknown_block { BlockExample }
    ensures inner_if { InnerIfExample }
    ensures capture { CaptureExample }
{}
