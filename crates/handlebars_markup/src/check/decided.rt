//! What the faults that are reported decide, for callers to cite.

ghost use Rattle.handlebars_markup.specs.Faults.{DecideParts, DecideTrees};

/// A template without faults is blind, and a blind one has none.
pub fn faults_decide_trees()
    ensures { DecideTrees }
{}

/// A registry without faults has blind parts, and one with blind parts has none.
pub fn faults_decide_parts()
    ensures { DecideParts }
{}
