//! A user-defined output that stores the pieces that it is given, each with its origin, for tests.
#![tactic(auto)]

ghost use Rattle.std.specs.Prelude.{◌≡◌};

use handlebars_expand::pieces::{Origin, PieceKind, PieceOutput, TemplateReference};
use handlebars_expand::trace::Trace;
use handlebars_layers::full_path::FullPath;
use handlebars_template::template::TemplateMapping;
use std::alloc::{AllocError, Global};
use std::io::ErrorKind;
use std::{fmt, io};

/// The template that an element belongs to.
#[derive(Debug, Drop, PartialEq)]
pub enum HeldTemplateReference {
    First,
    Included(Option<String>),
}

/// A piece with its origin. It is printed in the order of the fields.
#[derive(PartialEq)]
pub struct HeldPiece {
    pub kind: PieceKind,
    pub text: String,
    pub template: HeldTemplateReference,
    pub position: Option<(usize, usize)>,
    pub iterations: Vec<usize>,
    pub path: Option<Vec<String>>,
}

impl Drop for HeldPiece {
    fn drop(self) {
        let HeldPiece {
            kind: _,
            text: _,
            template: _,
            position: _,
            iterations: _,
            path: _,
        } = self;
    }
}

impl HeldPiece {
    fn of(alloc: Global, text: &str, origin: &Origin<'_>) -> Result<HeldPiece, AllocError> {
        let mut piece = HeldPiece {
            kind: origin.kind,
            text: String::from_str(alloc, text)?,
            template: HeldTemplateReference::First,
            position: held_position(origin.location.position),
            iterations: Vec::new(alloc),
            path: None,
        };
        piece.template = held_template_reference(alloc, origin.location.template)?;
        piece.iterations = origin.location.iterations.to_vec(alloc)?;
        piece.path = held_path(alloc, origin.path)?;
        Ok(piece)
    }
}

impl fmt::Display for HeldPiece {
    fn fmt<W: fmt::Write>(&self, f: &mut fmt::Formatter<W>) -> fmt::Result {
        write!(f, "{} {:?} {:?} ", self.kind, self.text, self.template)?;
        write!(
            f,
            "{:?} {:?} {:?}",
            self.position, self.iterations, self.path
        )
    }
}

fn held_template_reference(
    alloc: Global,
    template: TemplateReference<'_>,
) -> Result<HeldTemplateReference, AllocError> {
    match template {
        TemplateReference::First => Ok(HeldTemplateReference::First),
        TemplateReference::Included(None) => Ok(HeldTemplateReference::Included(None)),
        TemplateReference::Included(Some(name)) => {
            let name = String::from_str(alloc, name)?;
            Ok(HeldTemplateReference::Included(Some(name)))
        }
    }
}

fn held_position(position: Option<&TemplateMapping>) -> Option<(usize, usize)> {
    match position {
        Some(TemplateMapping(line, column)) => Some((*line, *column)),
        None => None,
    }
}

fn held_path(alloc: Global, path: Option<FullPath<'_>>) -> Result<Option<Vec<String>>, AllocError> {
    match path {
        Some(path) => Ok(Some(path.copied(alloc)?)),
        None => Ok(None),
    }
}

/// Stores at most this many pieces. The next one fails, and so do all after it.
#[derive(Drop)]
pub struct HeldPieces {
    pub pieces: Vec<HeldPiece>,
    /// How many pieces were given to it after it was full.
    pub failed: u64,
    alloc: Global,
    capacity: usize,
    write_error: ErrorKind,
    trace: Trace,
}

impl HeldPieces {
    /// Creates an output that stores any number of pieces.
    pub fn new(alloc: Global) -> HeldPieces {
        HeldPieces::with_capacity(alloc, usize::MAX, ErrorKind::Other)
    }

    /// Creates an output that stores at most `capacity` pieces, and fails for the others with an error of this kind.
    pub fn with_capacity(alloc: Global, capacity: usize, write_error: ErrorKind) -> HeldPieces {
        HeldPieces {
            pieces: Vec::new(alloc),
            failed: 0,
            alloc,
            capacity,
            write_error,
            trace: Trace::nothing(),
        }
    }

    /// Returns the joined texts of the pieces.
    pub fn text(&self) -> Result<String, AllocError> {
        let mut text = String::new(self.alloc);
        for piece in &self.pieces {
            text.push_str(piece.text.as_str())?;
        }
        Ok(text)
    }

    // Stores a piece, if the capacity and the memory suffice.
    fn store(&mut self, text: &str, origin: &Origin<'_>) -> Result<(), io::Error>
        ensures { self.new.trace ≡ self.old.trace }
    {
        if self.pieces.len() >= self.capacity {
            self.failed = self.failed.saturating_add(1);
            return Err(io::Error::from(self.write_error));
        }
        let piece = HeldPiece::of(self.alloc, text, origin)?;
        self.pieces.push(piece)?;
        Ok(())
    }
}

impl PieceOutput for HeldPieces {
    ghost received = { λ o. o.trace.received };

    fn piece(&mut self, text: &str, origin: &Origin<'_>) -> Result<(), io::Error> {
        match self.store(text, origin) {
            Ok(()) => {
                self.trace = self.trace.and(text.as_bytes(), origin);
                Ok(())
            }
            Err(cause) => {
                self.trace = self.trace.and_error();
                Err(cause)
            }
        }
    }
}
