//! Where the names and the texts come from.

ghost use Rattle.std.specs.Prelude.{◌≡◌, ℕ, Bool, List, Option};
ghost use Rattle.hb_build.specs.Given.{Gives, Advances, Rewinds};
ghost use Rattle.hb_build.specs.declared.source.Failure.TheVariants.{OutOfMemory};

use std::alloc::AllocError;
use std::fmt;

/// Why there is no further item, no name or no text.
#[derive(Drop)]
pub enum Failure {
    OutOfMemory,
    /// Something is wrong with the item or with what it is read from. The message says what, and where.
    Fault(String),
}

/// The items, one after another. Each has the name of its file and the text of its file.
///
/// `build` rewinds before each of its passes, also before the first one. Then each call of `advance` and of `skip` is for one item,
/// in order. `name` and `text` are those of the item that the last advance led to, and aren't asked for after a skip. A pass asks
/// for the text of an item at most once.
pub trait Pages {
    // From this state a rewind may succeed, or not, and lead to that state.
    ghost rewinds: { Self → Bool → Self → Type 0 };

    // From this state an advance may give this answer, or none, and lead to that state.
    ghost advances: { Self → Option Bool → Self → Type 0 };

    // From this state a skip may give this answer, or none, and lead to that state.
    ghost skips: { Self → Option Bool → Self → Type 0 };

    // In this state the current item may have this name, or none.
    ghost names: { Self → Option (List ℕ) → Type 0 };

    // In this state the current item may have this text, or none.
    ghost texts: { Self → Option (List ℕ) → Type 0 };

    /// Goes back to before the first item.
    fn rewind(&mut self) -> Result<(), Failure>
        ensures { Rewinds rewinds self.old result self.new };

    /// Goes to the next item. Returns whether there is one.
    fn advance(&mut self) -> Result<bool, Failure>
        ensures { Advances advances self.old result self.new };

    /// Goes past the next item, of which neither name nor text is asked then. Returns whether there was one.
    fn skip(&mut self) -> Result<bool, Failure>
        ensures { Advances skips self.old result self.new };

    /// Returns the name of the current item's file: its path within the output folder, with `/` between its parts.
    fn name(&self) -> Result<String, Failure>
        ensures { Gives names self.now result };

    /// Returns the text of the current item's file.
    fn text(&self) -> Result<String, Failure>
        ensures { Gives texts self.now result };
}

impl From<AllocError> for Failure {
    ghost from_gives = { λ _ e. e ≡ OutOfMemory };

    fn from(_e: AllocError) -> Self {
        Failure::OutOfMemory
    }
}

impl fmt::Display for Failure {
    fn fmt<W: fmt::Write>(&self, f: &mut fmt::Formatter<W>) -> fmt::Result {
        match self {
            Failure::OutOfMemory => f.write_str("out of memory"),
            Failure::Fault(message) => f.write_str(message.as_str()),
        }
    }
}
