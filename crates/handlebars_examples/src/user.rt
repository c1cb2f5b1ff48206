//! User-defined helpers, each with the outcome of a tree that calls it.

ghost use Rattle.handlebars_examples.specs.UserExamples.{StepsExample, NoStepsExample, BodilessExample, OfferExample, NotOfferedExample, MissingOfferExample, InnerUserExample};

/// States the outcomes of trees that call user-defined helpers: by steps, and by values, in parentheses too.
pub fn worked_user_helpers()
    ensures steps { StepsExample }
    ensures no_steps { NoStepsExample }
    ensures bodiless { BodilessExample }
    ensures offer { OfferExample }
    ensures not_offered { NotOfferedExample }
    ensures missing_offer { MissingOfferExample }
    ensures inner { InnerUserExample }
{}
