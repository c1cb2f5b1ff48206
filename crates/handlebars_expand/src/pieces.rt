//! What is emitted with each piece of a rendering's text: its kind, and its origin.

ghost use Rattle.std.specs.Prelude.{◌≡◌, IfErr, OnErr, OnOk};
ghost use Rattle.std.specs.declared.io.Error.{Error};
ghost use Rattle.handlebars_expand.specs.PiecesView.{kind_name, kind_seen, emitted_seen};
ghost use Rattle.handlebars_expand.specs.Received.{Received, IsAccepted, IsRejected};

use handlebars_layers::full_path::FullPath;
use handlebars_template::template::TemplateMapping;
use std::{fmt, io};

/// The kind of a piece of output.
#[derive(Clone, Copy, Debug, PartialEq, Eq)]
pub enum PieceKind {
    /// Text of a template.
    TemplateText,
    /// The indentation of partial calls.
    Indentation,
    /// A value, escaped.
    EscapedValue,
    /// A value, without escaping.
    RawValue,
    /// The text of a boolean helper.
    HelperBoolean,
    /// Text of a user-defined helper.
    UserText,
}

impl PieceKind {
    /// Returns the name of the kind: `text`, `indentation`, `value`, `raw`, `word` or `own`.
    pub fn name(self) -> &'static str
        ensures { result.now ≡ kind_name (kind_seen self) }
    {
        match self {
            PieceKind::TemplateText => "text",
            PieceKind::Indentation => "indentation",
            PieceKind::EscapedValue => "value",
            PieceKind::RawValue => "raw",
            PieceKind::HelperBoolean => "word",
            PieceKind::UserText => "own",
        }
    }
}

impl fmt::Display for PieceKind {
    fn fmt<W: fmt::Write>(&self, f: &mut fmt::Formatter<W>) -> fmt::Result {
        f.write_str(self.name())
    }
}

/// The template that contains an element.
#[derive(Clone, Copy)]
pub enum TemplateReference<'p> {
    /// The template that is rendered.
    First,
    /// A template that is included, by the name under which it is registered. A local partial is named by its own name, and
    /// an inline one has none.
    Included(Option<&'p str>),
}

/// The location of an element.
#[derive(Clone, Copy)]
pub struct Location<'p> {
    pub template: TemplateReference<'p>,
    /// The line and column of the element, both 1-based, if its template has them.
    pub position: Option<&'p TemplateMapping>,
    /// The index of the iteration of each `each` around the element, 0-based, outermost first.
    pub iterations: &'p [usize],
}

/// The origin of a piece: the element that writes it, and for a value the path by which it was reached, if it has one.
#[derive(Clone, Copy)]
pub struct Origin<'p> {
    pub kind: PieceKind,
    pub location: Location<'p>,
    pub path: Option<FullPath<'p>>,
}

/// An output that receives each piece of a rendering's text, in order.
pub trait PieceOutput {
    // The pieces that it has received, and how many errors it has returned.
    ghost received: { Self → Received };

    // The errors that it may return: any, unless an implementation restricts them.
    ghost may_give: { Error → Type 0 } = { λ _. Unit {0} };

    /// Receives a piece.
    ///
    /// # Errors
    ///
    /// Returns an error if the output rejects the piece. Such a piece counts as not emitted. The error ends the rendering:
    /// no further piece is passed.
    fn piece(&mut self, text: &str, origin: &Origin<'_>) -> Result<(), io::Error>
        ensures ok { OnOk result (IsAccepted (emitted_seen text.now origin.now) (received self.old) (received self.new)) }
        ensures err { OnErr result (IsRejected (received self.old) (received self.new)) }
        ensures given { IfErr result may_give };
}
