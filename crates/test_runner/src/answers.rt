//! The results of all runs of a test case.

ghost use Rattle.std.specs.Prelude.{◌≡◌, IfOk, IfSome, IsTrue, is_none, is_some, true};
ghost use Rattle.test_runner.specs.Comes.{IsAsExpected, OtherComesTo};

use crate::answer::Answer;
use crate::sweep::{Swept, sweep};
use handlebars::JsonValue;
use std::alloc::{AllocError, Global};
use std::fmt;
use test_cases::rendering::{Other, Rendering};

/// The results of a test case: over its data, over its other data, if it has some, and the first of its failing writers for
/// which the result differs from the expected one, if there is one.
pub struct Answers {
    pub first: Answer,
    pub other: Option<Answer>,
    pub swept: Option<Swept>,
}

impl Drop for Answers {
    fn drop(self) {
        let Answers {
            first: _,
            other: _,
            swept: _,
        } = self;
    }
}

impl Answers {
    /// Renders a test case over its data, over its other data, and to the writers of its sweep.
    pub fn of(alloc: Global, test_case: &Rendering<'_>) -> Result<Answers, AllocError>
        ensures { IfOk result (λ answers. is_some answers.other ≡ is_some test_case.now.other) }
    {
        let swept = sweep(alloc, test_case)?;
        let null = JsonValue::Null;
        let first = Answer::of(alloc, test_case, test_case.data.unwrap_or(&null))?;
        let other = match &test_case.other {
            Some(other) => Some(Answer::of(alloc, test_case, other.data)?),
            None => None,
        };
        Ok(Answers {
            first,
            other,
            swept,
        })
    }

    /// Returns whether all results are the expected ones.
    pub fn come_to(&self, test_case: &Rendering<'_>) -> bool
        ensures first { IsTrue result → IsAsExpected self.now.first test_case.now.expected }
        ensures other { IsTrue result → OtherComesTo self.now test_case.now }
        ensures swept { IsTrue result → is_none self.now.swept ≡ true }
    {
        self.first.comes_to(&test_case.expected)
            && come_to_other(&self.other, &test_case.other)
            && self.swept.is_none()
    }
}

/// What a test case expects, and its results, printed.
#[derive(Clone, Copy)]
pub struct Shown<'a, 'r>(pub &'a Answers, pub &'a Rendering<'r>);

impl fmt::Display for Shown<'_, '_> {
    fn fmt<W: fmt::Write>(&self, f: &mut fmt::Formatter<W>) -> fmt::Result {
        let Shown(answers, test_case) = self;
        write!(f, "{}", test_case.expected)?;
        answers.first.show(f, &test_case.expected)?;
        if let Some(swept) = &answers.swept {
            write!(f, "\n    {swept}")?;
        }
        match (&answers.other, &test_case.other) {
            (Some(answer), Some(other)) => {
                write!(f, "\n    over {}\n{}", other.data, other.expected)?;
                answer.show(f, &other.expected)
            }
            _ => Ok(()),
        }
    }
}

fn come_to_other(answer: &Option<Answer>, other: &Option<Other<'_>>) -> bool
    ensures { IsTrue result → IfSome answer.now
        (λ answer. IfSome other.now (λ other. IsAsExpected answer other.expected)) }
{
    match (answer, other) {
        (Some(answer), Some(other)) => answer.comes_to(&other.expected),
        (None, None) => true,
        _ => false,
    }
}
