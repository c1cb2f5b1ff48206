//! The arrays and objects that are open.

ghost use Rattle.std.specs.Prelude.{◌≤◌};

use crate::error::Expected;
use crate::json_value::MAX_DEPTH;

/// What may be open.
#[derive(Clone, Copy, Drop)]
pub enum Container {
    Array,
    Object,
}

/// The arrays and objects that are open, from the outermost one.
#[derive(Drop)]
pub struct Open {
    containers: [Container; MAX_DEPTH],
    depth: usize,
    ghost in_range: { depth ≤ 127 },
}

impl Open {
    /// Nothing is open.
    pub fn new() -> Open {
        Open {
            containers: [Container::Array; MAX_DEPTH],
            depth: 0,
        }
    }

    /// Begins an array or an object, unless it nests too deep.
    pub fn begin(&mut self, container: Container) -> bool {
        if self.depth == MAX_DEPTH {
            return false;
        }
        self.containers[self.depth] = container;
        self.depth += 1;
        true
    }

    /// Closes the innermost array or object, and returns what is expected after it.
    pub fn close(&mut self) -> Expected {
        if self.depth > 0 {
            self.depth -= 1;
        }
        self.after_value()
    }

    /// Returns what is expected after a value.
    pub fn after_value(&self) -> Expected {
        if self.depth == 0 {
            return Expected::EndOfText;
        }
        match self.containers[self.depth - 1] {
            Container::Array => Expected::CommaOrEndArray,
            Container::Object => Expected::CommaOrEndObject,
        }
    }
}
