//! The outcome of a write or of a rendering.

ghost use Rattle.std.specs.Prelude.{◌≡◌, Err};
ghost use Rattle.handlebars_expand.specs.Boxed.{answer_of, error_of};
ghost use Rattle.handlebars_write.specs.OutcomeView.{memory_answer, outcome_answer};

use handlebars_base::error::RenderError;
use handlebars_expand::boxed::BoxedError;
use std::alloc::AllocError;

/// The outcome of a write or of a rendering: success, or an error. It takes two machine words, so it is returned in registers,
/// which a `Result` with a `BoxedError` isn't.
#[derive(Drop)]
pub enum Outcome {
    Done,
    OutOfMemory,
    Error(Box<RenderError>),
}

impl Outcome {
    /// Converts a result.
    #[inline(always)]
    pub fn of(answer: Result<(), BoxedError>) -> Outcome
        ensures { outcome_answer result ≡ answer_of answer }
    {
        match answer {
            Ok(()) => Outcome::Done,
            Err(e) => Outcome::from(e),
        }
    }

    /// Converts into a result.
    #[inline(always)]
    pub fn into_result(self) -> Result<(), BoxedError>
        ensures { answer_of result ≡ outcome_answer self }
    {
        match self {
            Outcome::Done => Ok(()),
            Outcome::OutOfMemory => Err(BoxedError::OutOfMemory),
            Outcome::Error(e) => Err(BoxedError::Error(e)),
        }
    }
}

impl From<BoxedError> for Outcome {
    ghost from_gives = { λ e outcome. outcome_answer outcome ≡ Err (error_of e) };

    #[inline(always)]
    fn from(e: BoxedError) -> Outcome {
        match e {
            BoxedError::OutOfMemory => Outcome::OutOfMemory,
            BoxedError::Error(e) => Outcome::Error(e),
        }
    }
}

impl From<AllocError> for Outcome {
    ghost from_gives = { λ _ outcome. outcome_answer outcome ≡ memory_answer };

    #[inline(always)]
    fn from(_e: AllocError) -> Outcome {
        Outcome::OutOfMemory
    }
}
