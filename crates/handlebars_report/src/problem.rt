//! What is wrong with a file.

use crate::place::Place;

/// How bad a problem is.
#[derive(Clone, Copy, Debug, PartialEq, Eq)]
pub enum Severity {
    Error,
    Warning,
}

impl Severity {
    ghost use Rattle.std.specs.Prelude.{◌≡◌};
    ghost use Rattle.handlebars_report.specs.Text.{severity_text};

    /// Returns `error` or `warning`.
    pub fn as_str(self) -> &'static str
        ensures { result.now ≡ severity_text self }
    {
        match self {
            Severity::Error => "error",
            Severity::Warning => "warning",
        }
    }
}

/// What else is to be said of a problem, as `included from`, and where.
#[derive(Clone, Drop)]
pub struct Note {
    pub message: String,
    pub place: Option<Place>,
}

/// What is wrong at a place of a file.
#[derive(Clone, Drop)]
pub struct Problem {
    pub severity: Severity,
    /// The short name of the kind of problem, as `unknown-partial`.
    pub code: String,
    pub place: Place,
    /// What is wrong, in one line.
    pub message: String,
    /// What to do about it, each in one line.
    pub help: Vec<String>,
    /// What led there, as the chain of partials.
    pub notes: Vec<Note>,
}

impl Problem {
    ghost use Rattle.std.specs.Prelude.{◌≡◌};
    ghost use Rattle.handlebars_report.specs.Summary.{is_severity};

    /// Whether the problem is this bad.
    pub fn is_severity(&self, severity: Severity) -> bool
        ensures { result ≡ is_severity severity self.now.severity }
    {
        self.severity == severity
    }
}
