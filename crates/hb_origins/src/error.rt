//! Why pieces can't be printed.

use handlebars::RenderError;
use std::error::Error;
use std::{fmt, io};

/// Why pieces can't be printed.
#[derive(Debug, Drop)]
pub enum OriginsError {
    /// The rendering fails. The pieces before the error are printed.
    Rendering(RenderError),
    /// The output fails, or memory for what it is to be given runs out.
    Output(io::Error),
}

impl fmt::Display for OriginsError {
    fn fmt<W: fmt::Write>(&self, f: &mut fmt::Formatter<W>) -> fmt::Result {
        match self {
            OriginsError::Rendering(cause) => write!(f, "{cause}"),
            OriginsError::Output(cause) => write!(f, "{cause}"),
        }
    }
}

impl Error for OriginsError {}
