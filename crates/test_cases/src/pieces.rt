//! Lists of pieces: how they are read from a test case, how they are compared, and their text.

ghost use Rattle.std.specs.Prelude.{◌≡◌, List, ◌∷◌, IfOk, IfSome, IsTrue, map, string_bytes};
ghost use Rattle.test_cases.specs.Pieces.{ArePieces, piece_view, text_of};
ghost use Rattle.test_cases.specs.declared.piece.Piece.{Piece};

use crate::fields::Fields;
use crate::piece::{Kind, Piece, PieceTemplate};
use handlebars_template::template::TemplateMapping;
use serde_json::Value as JsonValue;
use std::alloc::{AllocError, Global};
use std::fmt;

/// Returns whether these are the expected pieces. True if none are expected.
pub fn are_expected(pieces: &Vec<Piece>, expected: Option<&[Piece]>) -> bool
    ensures { IsTrue result → ArePieces pieces.now.items expected.entry }
{
    match expected {
        Some(expected) => are_one(pieces.as_slice(), expected),
        None => true,
    }
}

// Whether both lists of pieces are equal.
fn are_one(pieces: &[Piece], others: &[Piece]) -> bool
    ensures { IsTrue result → map piece_view pieces.now ≡ map piece_view others.now }
{
    let mut left = others;
    for piece in pieces {
        match after(piece, left) {
            Some(rest) => left = rest,
            None => return false,
        }
    }
    left.is_empty()
}

// The pieces after the first one, if the first one is equal to this piece.
fn after<'p>(piece: &Piece, others: &'p [Piece]) -> Option<&'p [Piece]>
    ensures { IfSome result (λ left. (rest : List Piece) → map piece_view rest ≡ map piece_view left.now
        → map piece_view (piece.now ∷ rest) ≡ map piece_view others.now) }
{
    match others.split_first() {
        Some((other, rest)) => match piece.equals(other) {
            true => Some(rest),
            false => None,
        },
        None => None,
    }
}

/// Returns the joined texts of the pieces.
pub fn joined(alloc: Global, pieces: &[Piece]) -> Result<String, AllocError>
    ensures { IfOk result (λ text. string_bytes text ≡ text_of pieces.now) }
{
    let mut text = String::new(alloc);
    for piece in pieces {
        text.push_str(piece.text.as_str())?;
    }
    Ok(text)
}

/// Pieces, printed as a test case has them.
#[derive(Clone, Copy)]
pub struct PiecesOf<'p>(pub &'p [Piece]);

impl fmt::Display for PiecesOf<'_> {
    fn fmt<W: fmt::Write>(&self, f: &mut fmt::Formatter<W>) -> fmt::Result {
        f.write_str("[")?;
        for (index, piece) in self.0.iter().enumerate() {
            if index > 0 {
                f.write_str(", ")?;
            }
            write!(f, "{piece}")?;
        }
        f.write_str("]")
    }
}

/// Returns the pieces that a test case expects, if it expects any. The fields must have been checked.
pub fn read_pieces(alloc: Global, fields: Fields<'_>) -> Result<Option<Vec<Piece>>, AllocError> {
    match fields.elements("pieces") {
        Some(values) => Ok(Some(all_pieces(alloc, values)?)),
        None => Ok(None),
    }
}

fn all_pieces(alloc: Global, values: &[JsonValue]) -> Result<Vec<Piece>, AllocError> {
    let mut pieces = Vec::new(alloc);
    for value in values {
        if let Some(members) = value.as_object() {
            pieces.push(read_piece(alloc, Fields(members))?)?;
        }
    }
    Ok(pieces)
}

fn read_piece(alloc: Global, fields: Fields<'_>) -> Result<Piece, AllocError> {
    let mut piece = Piece::new(alloc, kind_of(fields), position_of(fields));
    piece.text.push_str(fields.text("text").unwrap_or(""))?;
    if fields.has("template") {
        piece.template = PieceTemplate::Included(copied(alloc, fields.text("template"))?);
    }
    push_iterations(
        &mut piece.iterations,
        fields.elements("turns").unwrap_or(&[]),
    )?;
    if let Some(names) = fields.elements("path") {
        piece.path = Some(path_of(alloc, names)?);
    }
    Ok(piece)
}

fn push_iterations(iterations: &mut Vec<usize>, values: &[JsonValue]) -> Result<(), AllocError> {
    for value in values {
        iterations.push(value.as_u64().unwrap_or(0) as usize)?;
    }
    Ok(())
}

fn kind_of(fields: Fields<'_>) -> Kind {
    match fields.text("kind") {
        Some(name) => Kind::named(name).unwrap_or(Kind::TemplateText),
        None => Kind::TemplateText,
    }
}

fn position_of(fields: Fields<'_>) -> Option<TemplateMapping> {
    Some(TemplateMapping(fields.number("line")?, fields.number("column")?))
}

fn copied(alloc: Global, name: Option<&str>) -> Result<Option<String>, AllocError> {
    match name {
        Some(name) => Ok(Some(String::from_str(alloc, name)?)),
        None => Ok(None),
    }
}

fn path_of(alloc: Global, names: &[JsonValue]) -> Result<Vec<String>, AllocError> {
    let mut path = Vec::new(alloc);
    for name in names {
        path.push(String::from_str(alloc, name.as_str().unwrap_or(""))?)?;
    }
    Ok(path)
}

/// Returns the pieces of a list, if there is one.
pub fn pieces_in(pieces: &Option<Vec<Piece>>) -> Option<&[Piece]> {
    match pieces {
        Some(pieces) => Some(pieces.as_slice()),
        None => None,
    }
}
