//! What is wrong with a source.

use handlebars_base::error::TemplateErrorReason;
use std::ops::Range;

/// The kind of a problem.
#[derive(Clone, Copy, Debug, PartialEq, Eq)]
pub enum SyntaxCode {
    /// A tag can't be read, or isn't the end of the raw block that it is in.
    UnreadableTag,
    /// An end or an inverse isn't allowed where it is.
    UnexpectedTag,
    NestingTooDeep,
    BlockNotClosed,
    /// An end has another name than its block.
    MismatchedClose,
    /// A literal has no value.
    InvalidLiteral,
    /// For errors that a compilation doesn't give.
    InvalidTemplate,
}

impl SyntaxCode {
    ghost use Rattle.std.specs.Prelude.{◌≡◌};
    ghost use Rattle.handlebars_base.specs.TemplateRefusals.{template_reason_of};
    ghost use Rattle.handlebars_syntax.specs.Code.{code_of, code_text, syntax_code};

    /// Returns the code of the reason why a source doesn't compile.
    pub(crate) fn of(reason: &TemplateErrorReason) -> SyntaxCode
        ensures { result ≡ code_of (template_reason_of reason.now) }
    {
        match reason {
            TemplateErrorReason::InvalidSyntax(text) => SyntaxCode::of_syntax(text.as_str()),
            TemplateErrorReason::MismatchingClosedHelper(_, _) => SyntaxCode::MismatchedClose,
            TemplateErrorReason::MismatchingClosedDecorator(_, _) => SyntaxCode::MismatchedClose,
            TemplateErrorReason::InvalidParam(_) => SyntaxCode::InvalidLiteral,
            TemplateErrorReason::NestedSubexpression => SyntaxCode::InvalidTemplate,
            TemplateErrorReason::IoError(_, _) => SyntaxCode::InvalidTemplate,
            TemplateErrorReason::WalkdirError(_) => SyntaxCode::InvalidTemplate,
            TemplateErrorReason::OutOfMemory => SyntaxCode::InvalidTemplate,
        }
    }

    fn of_syntax(text: &str) -> SyntaxCode
        ensures { result ≡ syntax_code text.now }
    {
        if text == "unreadable tag" {
            SyntaxCode::UnreadableTag
        } else if text == "unexpected tag" {
            SyntaxCode::UnexpectedTag
        } else if text == "nesting too deep" {
            SyntaxCode::NestingTooDeep
        } else if text == "block not closed" {
            SyntaxCode::BlockNotClosed
        } else {
            SyntaxCode::InvalidTemplate
        }
    }

    /// Returns the code's text, as `unreadable-tag`.
    pub fn as_str(self) -> &'static str
        ensures { result.now ≡ code_text self }
    {
        match self {
            SyntaxCode::UnreadableTag => "unreadable-tag",
            SyntaxCode::UnexpectedTag => "unexpected-tag",
            SyntaxCode::NestingTooDeep => "nesting-too-deep",
            SyntaxCode::BlockNotClosed => "block-not-closed",
            SyntaxCode::MismatchedClose => "mismatched-close",
            SyntaxCode::InvalidLiteral => "invalid-literal",
            SyntaxCode::InvalidTemplate => "invalid-template",
        }
    }
}

/// Another place of the source that belongs to a problem, as where a block is opened.
#[derive(Debug, Drop)]
pub struct SyntaxNote {
    pub message: String,
    /// In UTF-8 bytes.
    pub range: Range<usize>,
}

/// What is wrong in a source, and what to do about it.
#[derive(Debug)]
pub struct SyntaxProblem {
    pub code: SyntaxCode,
    /// Where it is in the source, in UTF-8 bytes.
    pub range: Range<usize>,
    /// What is wrong, in one line.
    pub message: String,
    /// What to write instead, each in one line.
    pub help: Vec<String>,
    pub notes: Vec<SyntaxNote>,
}

// Not derived, so that each drop of one is a single call.
impl Drop for SyntaxProblem {
    fn drop(self) {
        let SyntaxProblem {
            code: _,
            range: _,
            message: _,
            help: _,
            notes: _,
        } = self;
    }
}
