//! The kinds of problems.

ghost use Rattle.std.specs.Prelude.{◌≡◌};
ghost use Rattle.hb_check.specs.Codes.{code_text};

/// The kind of a problem that is found in several templates, or in one that compiles. `docs/PROBLEMS.md` has an entry for each.
#[derive(Clone, Copy, Debug, PartialEq, Eq)]
pub enum Code {
    UnknownHelper,
    MissingParameter,
    ComputedName,
    UnknownDecorator,
    UnnamedInline,
    EmptyInline,
    UnknownPartial,
    IncludesItself,
    MissingBlock,
    NamedBody,
    HiddenName,
    UnusedTemplate,
    NamesUndecided,
    Markup,
    Html,
    HtmlUndecided,
}

impl Code {
    /// Returns the name of the code, as `unknown-helper`.
    pub fn as_str(self) -> &'static str
        ensures { result.now ≡ code_text self }
    {
        match self {
            Code::UnknownHelper => "unknown-helper",
            Code::MissingParameter => "missing-parameter",
            Code::ComputedName => "computed-name",
            Code::UnknownDecorator => "unknown-decorator",
            Code::UnnamedInline => "unnamed-inline",
            Code::EmptyInline => "empty-inline",
            Code::UnknownPartial => "unknown-partial",
            Code::IncludesItself => "includes-itself",
            Code::MissingBlock => "missing-block",
            Code::NamedBody => "named-body",
            Code::HiddenName => "hidden-name",
            Code::UnusedTemplate => "unused-template",
            Code::NamesUndecided => "names-undecided",
            Code::Markup => "markup",
            Code::Html => "html",
            Code::HtmlUndecided => "html-undecided",
        }
    }
}
