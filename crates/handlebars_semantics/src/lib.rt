//! The semantics of templates: definitions, which the contracts of rendering name, and a few lemmas about them.
//! `specs` has the state of a run, the steps in which a meaning is written, what elements and trees mean, the
//! runs of steps, and the origins of pieces.
#![tactic(auto)]
