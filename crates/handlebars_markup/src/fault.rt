//! What breaks the blindness of a template or of a registry, and where.

use std::fmt;

/// Why markup may depend on what the texts of the data are.
#[derive(Debug, Drop)]
pub enum MarkupFaultReason {
    /// An html expression writes its value unescaped.
    HtmlExpression,
    /// A call in parentheses makes a name, and may make it of a text.
    MadeName,
    /// The helper that is registered under this name reads what texts are or how long they are, or is user-defined:
    /// nothing is known of a user-defined helper.
    ReadingHelper(String),
    /// A user-defined decorator is registered under this name.
    UserDecorator(String),
    /// The first parameter of a decorator is no literal, and `inline` takes it for a name.
    NameFromValue,
    /// A partial has hash arguments. They are merged into its value, where a text counts as its characters.
    InclusionHash,
    /// The indentation of a partial has marks of html, and is written once for each line.
    MarkedIndent,
    /// The registry doesn't escape values for html.
    OtherEscape,
    /// The helper under this name is called if a name has no helper, and isn't blind.
    ReadingHook(String),
}

impl MarkupFaultReason {
    // The words before the name, the name that the reason has, and the words after it.
    fn words(&self) -> (&'static str, Option<&str>, &'static str) {
        match self {
            MarkupFaultReason::HtmlExpression => {
                ("an html expression writes its value unescaped", None, "")
            }
            MarkupFaultReason::MadeName => ("a call in parentheses makes a name", None, ""),
            MarkupFaultReason::ReadingHelper(name) => {
                ("the helper ", Some(name.as_str()), " may inspect strings")
            }
            MarkupFaultReason::UserDecorator(name) => {
                ("the decorator ", Some(name.as_str()), " is user-defined")
            }
            MarkupFaultReason::NameFromValue => ("a decorator takes a name from a value", None, ""),
            MarkupFaultReason::InclusionHash => ("a partial call has hash arguments", None, ""),
            MarkupFaultReason::MarkedIndent => {
                (
                    "the indentation of a partial call has marks of html",
                    None,
                    "",
                )
            }
            MarkupFaultReason::OtherEscape => ("values are not escaped for html", None, ""),
            MarkupFaultReason::ReadingHook(name) => {
                ("the hook ", Some(name.as_str()), " may inspect strings")
            }
        }
    }
}

/// Formats the reason in words for the author of a template.
impl fmt::Display for MarkupFaultReason {
    fn fmt<W: fmt::Write>(&self, f: &mut fmt::Formatter<W>) -> fmt::Result {
        match self.words() {
            (before, Some(name), after) => write!(f, "{before}{name:?}{after}"),
            (before, None, _) => f.write_str(before),
        }
    }
}

/// A fault: the name of the template, if it has one, the 1-based line and column, with columns in characters, and the
/// reason. A fault of the registry has no template and no position.
#[derive(Debug)]
pub struct MarkupFault {
    pub template_name: Option<String>,
    pub line_no: Option<usize>,
    pub column_no: Option<usize>,
    pub reason: MarkupFaultReason,
}

// Hand-written, so that each drop of a fault is one call.
impl Drop for MarkupFault {
    fn drop(self) {
        let MarkupFault {
            template_name: _,
            line_no: _,
            column_no: _,
            reason: _,
        } = self;
    }
}

impl MarkupFault {
    // What has the fault: the template, by its name if it has one, or the registry.
    fn subject(&self) -> &str {
        match (&self.template_name, &self.reason) {
            (Some(name), _) => name.as_str(),
            (None, MarkupFaultReason::OtherEscape) => "registry",
            (None, MarkupFaultReason::ReadingHook(_)) => "registry",
            (None, _) => "template",
        }
    }
}

/// Formats one line: the name of the template (`template` if it has none, and `registry` for a fault of the registry),
/// the position, if there is one, and the reason.
impl fmt::Display for MarkupFault {
    fn fmt<W: fmt::Write>(&self, f: &mut fmt::Formatter<W>) -> fmt::Result {
        let subject = self.subject();
        let reason = &self.reason;
        match (self.line_no, self.column_no) {
            (Some(line), Some(column)) => {
                write!(f, "{subject} line {line}, col {column}: {reason}")
            }
            _ => write!(f, "{subject}: {reason}"),
        }
    }
}
