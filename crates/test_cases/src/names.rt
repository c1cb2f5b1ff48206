//! Lists of names and of paths.

use serde_json::Value as JsonValue;
use std::alloc::{AllocError, Global};
use std::fmt;

/// Returns whether the name is one of these names, which are separated by spaces.
pub fn is_among(name: &str, names: &str) -> bool {
    for one in names.split(' ') {
        if one == name {
            return true;
        }
    }
    false
}

/// A list of names or of paths.
#[derive(Drop)]
pub struct Names {
    alloc: Global,
    all: Vec<String>,
}

impl Names {
    /// Creates an empty list.
    pub fn new(alloc: Global) -> Names {
        Names {
            alloc,
            all: Vec::new(alloc),
        }
    }

    /// Appends a name, followed by `end`.
    pub fn push(&mut self, name: &str, end: &str) -> Result<(), AllocError> {
        let mut text = String::from_str(self.alloc, name)?;
        text.push_str(end)?;
        self.all.push(text)?;
        Ok(())
    }

    /// Returns whether the list is empty.
    pub fn is_empty(&self) -> bool {
        self.all.is_empty()
    }

    /// Returns whether the list is the expected one. True if none is expected.
    pub fn are(&self, expected: Option<&[JsonValue]>) -> bool {
        match expected {
            Some(expected) => all_are(self.all.as_slice(), expected),
            None => true,
        }
    }
}

fn all_are(names: &[String], expected: &[JsonValue]) -> bool {
    names.len() == expected.len()
        && names.iter().zip(expected.iter()).all(|(name, expected)| expected.as_str()
            == Some(name.as_str()))
}

impl fmt::Display for Names {
    fn fmt<W: fmt::Write>(&self, f: &mut fmt::Formatter<W>) -> fmt::Result {
        let all = &self.all;
        write!(f, "{all:?}")
    }
}
