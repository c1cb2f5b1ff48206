//! The forms in which pieces are printed.

/// The form in which pieces are printed.
#[derive(Clone, Copy, Debug, PartialEq, Eq)]
pub enum Form {
    /// A line of JSON for each piece.
    Lines,
    /// The lines of the pieces that bring in marks of html.
    Marks,
    /// One page of html.
    Page,
}
