//! The result of a step. A test case takes its steps with a registry and its files before it renders.

use crate::expected::refusal;
use crate::fields::Fields;
use crate::names::Names;
use crate::outcome::{Failed, Refusal, refusal_in};
use std::fmt;

/// The result of a step.
pub struct StepCame {
    pub refusal: Option<Failed>,
    pub asked: Names,
    /// The names of all templates after the step.
    pub names: Names,
}

impl Drop for StepCame {
    fn drop(self) {
        let StepCame {
            refusal: _,
            asked: _,
            names: _,
        } = self;
    }
}

impl StepCame {
    /// Returns whether the result is the one that the step expects, where it expects anything.
    pub fn is_expected(&self, fields: Fields<'_>) -> bool {
        let expected = refusal(fields, fields.text("reason"));
        is_same_refusal(refusal_in(&self.refusal), expected)
            && self.asked.are(fields.elements("asked"))
            && self.names.are(fields.elements("names"))
    }
}

fn is_same_refusal(refusal: Option<Refusal<'_>>, expected: Option<Refusal<'_>>) -> bool {
    match (refusal, expected) {
        (None, None) => true,
        (Some(refusal), Some(expected)) => refusal.equals(&expected),
        _ => false,
    }
}

impl fmt::Display for StepCame {
    fn fmt<W: fmt::Write>(&self, f: &mut fmt::Formatter<W>) -> fmt::Result {
        if let Some(refusal) = refusal_in(&self.refusal) {
            write!(f, "{refusal}; ")?;
        }
        let (asked, names) = (&self.asked, &self.names);
        write!(f, "asked for {asked}; has {names}")
    }
}
