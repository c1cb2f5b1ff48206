//! Worked decorator tags.

ghost use Rattle.handlebars_examples.specs.DecoratorExamples.{NearestExample, NoBlockExample, InlineNoParamExample, NoTextExample, NoBodyExample, UnknownExample, SilentExample, EvalExample, EvalFailedExample};

/// States the effects and the errors of some decorator tags, and the effect of evaluating a tree.
pub fn worked_decorators()
    ensures nearest { NearestExample }
    ensures no_block { NoBlockExample }
    ensures no_parameter { InlineNoParamExample }
    ensures no_text { NoTextExample }
    ensures no_body { NoBodyExample }
    ensures unknown { UnknownExample }
    ensures silent { SilentExample }
    ensures evaluated { EvalExample }
    ensures eval_failed { EvalFailedExample }
{}
