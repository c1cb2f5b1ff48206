//! Worked sources that call helpers, and values that they compare.

ghost use Rattle.handlebars_examples.specs.HelperExamples.{RangeExample, SpelledExample, MinusZeroExample, LeadingZeroExample, DigitsExample, BooleanTextExample, BooleanBlockExample, InnerBooleanExample, OneValueExample, LenExample, LenAloneExample, LogExample, StrictExample, StrictNullExample, PlainExample, HookExample, UnregisteredExample};

/// States how some values compare, and the outcomes of some sources that call helpers over some data, in strict mode or not,
/// with the helpers of a new registry or with others.
pub fn worked_helpers()
    ensures range { RangeExample }
    ensures spelled { SpelledExample }
    ensures minus_zero { MinusZeroExample }
    ensures leading_zero { LeadingZeroExample }
    ensures digits { DigitsExample }
    ensures boolean_text { BooleanTextExample }
    ensures boolean_block { BooleanBlockExample }
    ensures inner_boolean { InnerBooleanExample }
    ensures one_value { OneValueExample }
    ensures len { LenExample }
    ensures len_alone { LenAloneExample }
    ensures log { LogExample }
    ensures strict { StrictExample }
    ensures strict_null { StrictNullExample }
    ensures plain { PlainExample }
    ensures hook { HookExample }
    ensures unregistered { UnregisteredExample }
{}
