//! Which pieces bring marks of html into the output.

ghost use Rattle.std.specs.List.{list_any};
ghost use Rattle.std.specs.Prelude.{◌≡◌};
ghost use Rattle.handlebars_base.specs.EscapeLaws.{is_mark};
ghost use Rattle.handlebars_expand.specs.PiecesView.{kind_seen};
ghost use Rattle.hb_origins.specs.Marks.{brings_mark, may_bring};

use handlebars::PieceKind;

/// Returns whether data or a user-defined helper brings a mark of html into the output by this piece.
///
/// With the default escape function an escaped value has no marks, so only raw values and texts of such helpers are left.
pub fn brings_mark(kind: PieceKind, text: &str) -> bool
    ensures { result ≡ brings_mark (kind_seen kind) text.now }
{
    may_bring(kind) && has_mark(text.as_bytes())
}

fn may_bring(kind: PieceKind) -> bool
    ensures { result ≡ may_bring (kind_seen kind) }
{
    match kind {
        PieceKind::TemplateText => false,
        PieceKind::Indentation => false,
        PieceKind::EscapedValue => true,
        PieceKind::RawValue => true,
        PieceKind::HelperBoolean => false,
        PieceKind::UserText => true,
    }
}

fn has_mark(text: &[u8]) -> bool
    ensures { result ≡ list_any is_mark text.now }
{
    text.iter().any(|byte| is_mark(*byte))
}

// One of `<`, `>`, `"`, `'`, the backquote and `=`.
fn is_mark(byte: u8) -> bool
    ensures { result ≡ is_mark byte }
{
    byte == b'<' || byte == b'>' || byte == b'"' || byte == b'\'' || byte == b'`' || byte == b'='
}
