//! Sentences that name what a source has.

use std::fmt;

/// A sentence in pieces: its own words, and between them what is from the source.
#[derive(Clone, Copy)]
pub struct Sentence<'a>(pub [&'a str; 9]);

impl<'a> Sentence<'a> {
    /// Creates a sentence of its own words alone.
    pub fn plain(text: &'a str) -> Sentence<'a> {
        Sentence([text, "", "", "", "", "", "", "", ""])
    }

    /// Creates a sentence with one name.
    pub fn with(before: &'a str, name: &'a str, after: &'a str) -> Sentence<'a> {
        Sentence([before, name, after, "", "", "", "", "", ""])
    }

    /// Creates a sentence with two names.
    pub fn with_two(
        before: &'a str,
        first: &'a str,
        between: &'a str,
        second: &'a str,
        after: &'a str,
    ) -> Sentence<'a> {
        Sentence([before, first, between, second, after, "", "", "", ""])
    }
}

impl fmt::Display for Sentence<'_> {
    fn fmt<W: fmt::Write>(&self, f: &mut fmt::Formatter<W>) -> fmt::Result {
        for piece in &self.0 {
            f.write_str(piece)?;
        }
        Ok(())
    }
}
