//! An output that stores the pieces that it is given.

ghost use Rattle.std.specs.Prelude.{◌≡◌};

use handlebars::{FullPath, Origin, PieceKind, PieceOutput, TemplateReference, Trace};
use std::alloc::{AllocError, Global};
use std::io;
use test_cases::piece::{Kind, Piece, PieceTemplate};

/// Stores each piece.
#[derive(Drop)]
pub struct Collector {
    alloc: Global,
    pieces: Vec<Piece>,
    trace: Trace,
}

impl Collector {
    /// Creates an output that has no pieces yet.
    pub fn new(alloc: Global) -> Collector {
        Collector {
            alloc,
            pieces: Vec::new(alloc),
            trace: Trace::nothing(),
        }
    }

    /// Returns the pieces that it was given, in order.
    pub fn into_pieces(self) -> Vec<Piece> {
        self.pieces
    }

    // Stores a piece.
    fn store(&mut self, text: &str, origin: &Origin<'_>) -> Result<(), AllocError>
        ensures { self.new.trace ≡ self.old.trace }
    {
        let piece = collected(self.alloc, text, origin)?;
        self.pieces.push(piece)?;
        Ok(())
    }
}

impl PieceOutput for Collector {
    ghost received = { λ o. o.trace.received };

    fn piece(&mut self, text: &str, origin: &Origin<'_>) -> Result<(), io::Error> {
        match self.store(text, origin) {
            Ok(()) => {
                self.trace = self.trace.and(text.as_bytes(), origin);
                Ok(())
            }
            Err(cause) => {
                self.trace = self.trace.and_error();
                Err(cause.into())
            }
        }
    }
}

fn collected(alloc: Global, text: &str, origin: &Origin<'_>) -> Result<Piece, AllocError> {
    let mut piece = Piece::new(
        alloc,
        kind_of(origin.kind),
        origin.location.position.copied(),
    );
    piece.text.push_str(text)?;
    piece.template = template_of(alloc, origin.location.template)?;
    piece
        .iterations
        .extend_from_slice(origin.location.iterations)?;
    piece.path = path_of(alloc, origin.path)?;
    Ok(piece)
}

fn kind_of(kind: PieceKind) -> Kind {
    match kind {
        PieceKind::TemplateText => Kind::TemplateText,
        PieceKind::Indentation => Kind::Indentation,
        PieceKind::EscapedValue => Kind::EscapedValue,
        PieceKind::RawValue => Kind::RawValue,
        PieceKind::HelperBoolean => Kind::HelperBoolean,
        PieceKind::UserText => Kind::UserText,
    }
}

fn template_of(
    alloc: Global,
    template: TemplateReference<'_>,
) -> Result<PieceTemplate, AllocError> {
    match template {
        TemplateReference::First => Ok(PieceTemplate::First),
        TemplateReference::Included(None) => Ok(PieceTemplate::Included(None)),
        TemplateReference::Included(Some(name)) => {
            Ok(PieceTemplate::Included(Some(String::from_str(alloc, name)?)))
        }
    }
}

fn path_of(alloc: Global, path: Option<FullPath<'_>>) -> Result<Option<Vec<String>>, AllocError> {
    match path {
        Some(path) => Ok(Some(path.copied(alloc)?)),
        None => Ok(None),
    }
}
