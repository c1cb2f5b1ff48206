//! The outcome of a case.

use handlebars::{RenderError, RenderErrorReason, TemplateError, TemplateErrorReason};
use std::alloc::{AllocError, AllocFailed};

/// The outcome of a call.
#[derive(Clone, Copy)]
pub enum Outcome {
    /// The expected answer.
    Answer,
    /// Out of memory, and everything is as it must be then.
    OutOfMemory,
    /// Anything else.
    Other,
}

/// Why a call has no outcome.
#[derive(Clone, Copy)]
pub enum Stop {
    /// Memory ran out before the call or after it.
    Memory,
    /// The setup of the case fails for another reason.
    Broken,
    /// There is no case of that name.
    NoCase,
}

/// Returns the exit status of the program.
pub fn status_of(outcome: Result<Outcome, Stop>) -> u8 {
    match outcome {
        Ok(Outcome::Answer) => 0,
        Ok(Outcome::OutOfMemory) => 3,
        Ok(Outcome::Other) | Err(Stop::Broken) => 1,
        Err(Stop::Memory) => 4,
        Err(Stop::NoCase) => 2,
    }
}

/// Returns what is printed for a case.
pub fn words_for(outcome: Result<Outcome, Stop>) -> &'static str {
    match outcome {
        Ok(Outcome::Answer) => "answers",
        Ok(Outcome::OutOfMemory) => "wants memory",
        Ok(Outcome::Other) => "something else",
        Err(Stop::Memory) => "has no memory to begin with",
        Err(Stop::Broken) | Err(Stop::NoCase) => "is no case",
    }
}

impl Outcome {
    /// Returns `Answer` if the answer is the expected one, otherwise `Other`.
    pub fn answer_if(is_expected: bool) -> Outcome {
        match is_expected {
            true => Outcome::Answer,
            false => Outcome::Other,
        }
    }

    /// Returns the outcome if everything is as it must be, otherwise `Other`.
    pub fn if_so(self, holds: bool) -> Outcome {
        match holds {
            true => self,
            false => Outcome::Other,
        }
    }

    /// Returns whether it is the expected answer.
    pub fn is_answer(self) -> bool {
        matches!(self, Outcome::Answer)
    }

    /// Returns whether it is out of memory.
    pub fn is_out_of_memory(self) -> bool {
        matches!(self, Outcome::OutOfMemory)
    }
}

impl From<AllocError> for Stop {
    fn from(_e: AllocError) -> Self {
        Stop::Memory
    }
}

impl<T: Drop> From<AllocFailed<T>> for Stop {
    fn from(_e: AllocFailed<T>) -> Self {
        Stop::Memory
    }
}

impl From<RenderError> for Stop {
    fn from(e: RenderError) -> Self {
        match of_error(&e) {
            Outcome::OutOfMemory => Stop::Memory,
            _ => Stop::Broken,
        }
    }
}

impl From<TemplateError> for Stop {
    fn from(e: TemplateError) -> Self {
        match of_template_error(&e) {
            Outcome::OutOfMemory => Stop::Memory,
            _ => Stop::Broken,
        }
    }
}

/// Returns the outcome of a case, if everything is as it must be after the call.
pub fn if_holds(outcome: Result<Outcome, Stop>, holds: bool) -> Result<Outcome, Stop> {
    match outcome {
        Ok(outcome) => Ok(outcome.if_so(holds)),
        Err(stop) => Err(stop),
    }
}

/// Returns the outcome of a call that fails although an answer is expected.
pub fn of_error(error: &RenderError) -> Outcome {
    match error.reason() {
        RenderErrorReason::OutOfMemory => Outcome::OutOfMemory,
        _ => Outcome::Other,
    }
}

/// Returns the outcome of a call that fails with a template's error although an answer is expected.
pub fn of_template_error(error: &TemplateError) -> Outcome {
    match error.reason() {
        TemplateErrorReason::OutOfMemory => Outcome::OutOfMemory,
        _ => Outcome::Other,
    }
}

/// Returns the outcome of a call that fails only when memory runs out.
pub fn of_text(answer: Result<String, AllocError>, expected: &str) -> Outcome {
    match answer {
        Ok(text) => Outcome::answer_if(text.as_str() == expected),
        Err(AllocError) => Outcome::OutOfMemory,
    }
}

/// Returns the outcome of such a call that returns no value.
pub fn of_unit(answer: Result<(), AllocError>) -> Outcome {
    match answer {
        Ok(()) => Outcome::Answer,
        Err(AllocError) => Outcome::OutOfMemory,
    }
}

/// Returns the outcome of a registration of templates.
pub fn of_stored(answer: &Result<(), TemplateError>) -> Outcome {
    match answer {
        Ok(()) => Outcome::Answer,
        Err(error) => of_template_error(error),
    }
}
