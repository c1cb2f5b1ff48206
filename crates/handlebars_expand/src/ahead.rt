//! What is rendered ahead for partial blocks and then captured: its text, or each piece of it if pieces are emitted.

ghost use Rattle.std.specs.Prelude.{◌≡◌, ◌++◌, ◌∷◌, [], IfOk, OnErr, OnOk, option_map};
ghost use Rattle.handlebars_scope.specs.ResolutionView.{names_in};
ghost use Rattle.handlebars_helpers.specs.View.{path_view};
ghost use Rattle.handlebars_expand.specs.PiecesView.{ahead_plain, ahead_emitted, captured_template, captured_emitted, origin_seen, path_seen, plain_text, template_seen, emitted_by, emitted_seen};

use crate::pieces::{Location, Origin, PieceKind, TemplateReference};
use handlebars_base::output::StringOutput;
use handlebars_layers::full_path::FullPath;
use handlebars_template::template::TemplateMapping;
use std::alloc::{AllocError, Global};

/// The output of what is rendered ahead.
#[derive(Drop)]
pub struct Ahead {
    pub text: StringOutput,
    pub pieces: Vec<CapturedPiece>,
}

/// What is captured of a rendering ahead.
#[derive(Drop)]
pub struct Captured {
    pub text: String,
    pub pieces: Vec<CapturedPiece>,
}

/// A captured piece with its origin.
#[derive(Drop)]
pub struct CapturedPiece {
    text: String,
    kind: PieceKind,
    template: CapturedTemplateReference,
    position: Option<TemplateMapping>,
    iterations: Vec<usize>,
    path: Option<Vec<String>>,
}

/// The template that contains the element of a captured piece.
#[derive(Drop)]
pub enum CapturedTemplateReference {
    First,
    Included(Option<String>),
}

impl Ahead {
    /// Returns an empty output. Takes no memory.
    pub fn new(alloc: Global) -> Ahead
        ensures text { ahead_plain result ≡ [] }
        ensures emitted { ahead_emitted result ≡ [] }
    {
        Ahead {
            text: StringOutput::new(alloc),
            pieces: Vec::new(alloc),
        }
    }

    /// Captures a piece.
    ///
    /// # Errors
    ///
    /// Fails if memory runs out. The captured pieces are then unchanged.
    pub fn capture(
        &mut self,
        alloc: Global,
        text: &str,
        origin: &Origin<'_>,
    ) -> Result<(), AllocError>
        ensures ok { OnOk result (ahead_emitted self.new ≡ ahead_emitted self.old ++ emitted_seen text.now origin.now ∷ []) }
        ensures err { OnErr result (ahead_emitted self.new ≡ ahead_emitted self.old) }
    {
        let piece = CapturedPiece::of(alloc, text, origin)?;
        self.pieces.push(piece)?;
        Ok(())
    }

    /// Returns what was rendered.
    pub fn into_captured(self) -> Captured
        ensures text { plain_text result ≡ ahead_plain self }
        ensures emitted { captured_emitted result ≡ ahead_emitted self }
    {
        Captured {
            text: self.text.into_string(),
            pieces: self.pieces,
        }
    }
}

impl CapturedPiece {
    fn of(alloc: Global, text: &str, origin: &Origin<'_>) -> Result<CapturedPiece, AllocError>
        ensures { IfOk result (λ piece. emitted_by piece ≡ emitted_seen text.now origin.now) }
    {
        Ok(CapturedPiece {
            text: String::from_str(alloc, text)?,
            kind: origin.kind,
            template: captured_template_reference(alloc, origin.location.template)?,
            position: origin.location.position.copied(),
            iterations: copied_iterations(alloc, origin.location.iterations)?,
            path: copied_path(alloc, origin.path)?,
        })
    }

    /// Returns the text of the piece.
    pub fn text(&self) -> &str
        ensures { result.now ≡ (emitted_by self.now).text }
    {
        self.text.as_str()
    }

    /// Returns the origin of the piece.
    pub fn origin(&self) -> Origin<'_>
        ensures { origin_seen result ≡ (emitted_by self.now).provenance }
    {
        Origin {
            kind: self.kind,
            location: Location {
                template: template_reference(&self.template),
                position: self.position.as_ref(),
                iterations: self.iterations.as_slice(),
            },
            path: full_path(self.path.as_ref()),
        }
    }
}

fn captured_template_reference(
    alloc: Global,
    template: TemplateReference<'_>,
) -> Result<CapturedTemplateReference, AllocError>
    ensures { IfOk result (λ captured. captured_template captured ≡ template_seen template.entry) }
{
    match template {
        TemplateReference::First => Ok(CapturedTemplateReference::First),
        TemplateReference::Included(None) => Ok(CapturedTemplateReference::Included(None)),
        TemplateReference::Included(Some(name)) => {
            Ok(CapturedTemplateReference::Included(Some(String::from_str(alloc, name)?)))
        }
    }
}

fn template_reference(captured: &CapturedTemplateReference) -> TemplateReference<'_>
    ensures { template_seen result ≡ captured_template captured.now }
{
    match captured {
        CapturedTemplateReference::First => TemplateReference::First,
        CapturedTemplateReference::Included(None) => TemplateReference::Included(None),
        CapturedTemplateReference::Included(Some(name)) => TemplateReference::Included(Some(
            name.as_str(),
        )),
    }
}

fn copied_iterations(alloc: Global, iterations: &[usize]) -> Result<Vec<usize>, AllocError>
    ensures { IfOk result (λ copy. copy.items ≡ iterations.now) }
{
    let mut copy = Vec::new(alloc);
    copy.extend_from_slice(iterations)?;
    Ok(copy)
}

fn copied_path(alloc: Global, path: Option<FullPath<'_>>) -> Result<Option<Vec<String>>, AllocError>
    ensures { IfOk result (λ copy. option_map (λ names. names_in names.items) copy ≡ path_seen path.entry) }
{
    match path {
        Some(path) => Ok(Some(path.copied(alloc)?)),
        None => Ok(None),
    }
}

// The full path with these names, if there are any.
fn full_path(names: Option<&Vec<String>>) -> Option<FullPath<'_>>
    ensures { path_seen result ≡ path_view names.entry }
{
    match names {
        Some(names) => Some(FullPath::of(names.as_slice())),
        None => None,
    }
}
