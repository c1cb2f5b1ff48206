//! Worked blocks whose name has no helper.

ghost use Rattle.handlebars_examples.specs.SectionExamples.{ArrayExample, ObjectExample, BooleanExample, NoValueExample, ParameterExample, NoSectionsExample};

/// States the outcomes of some blocks whose name has no helper over some data: they are sections, or they fail.
pub fn worked_sections()
    ensures over_array { ArrayExample }
    ensures over_object { ObjectExample }
    ensures over_boolean { BooleanExample }
    ensures no_value { NoValueExample }
    ensures parameter { ParameterExample }
    ensures no_sections { NoSectionsExample }
{}
