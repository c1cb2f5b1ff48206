//! Decorators and user-defined escape functions, each with the outcome of a tree that calls them.

ghost use Rattle.handlebars_examples.specs.ActionExamples.{ChangedExample, LastDataExample, NullExample, BoundExample, HidesExample, UnboundExample, GoneExample, NoBodyActionExample, UserEscapeExample, FailedEscapeExample};

/// States the outcomes of trees after the actions of decorators, which set data, local helpers and partials, and of trees that
/// call a user-defined escape function.
pub fn worked_actions()
    ensures changed { ChangedExample }
    ensures last_data { LastDataExample }
    ensures null { NullExample }
    ensures bound { BoundExample }
    ensures hides { HidesExample }
    ensures unbound { UnboundExample }
    ensures gone { GoneExample }
    ensures no_body_action { NoBodyActionExample }
    ensures user_escape { UserEscapeExample }
    ensures failed_escape { FailedEscapeExample }
{}
