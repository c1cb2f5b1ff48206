//! Reports: all that is wrong with some files.

ghost use Rattle.std.specs.Prelude.{IsSortedByKey};
ghost use Rattle.handlebars_report.specs.Order.{problem_cmp};
ghost use Rattle.handlebars_report.specs.View.{problem_view};

use crate::order::index_for;
use crate::problem::{Problem, Severity};
use crate::summary::Summary;
use std::alloc::{AllocError, Global};
use std::fmt;

/// Problems in a fixed order: by file, then by where they start, then by code. Those that are equal in all of these are in the
/// order in which they were pushed.
#[derive(Drop)]
pub struct Report {
    problems: Vec<Problem>,
    ghost ordered: { IsSortedByKey problem_view problem_cmp problems.items },
}

impl Report {
    ghost use Rattle.std.specs.Prelude.{◌≡◌, ◌↔◌, ◌∷◌, [], IfOk, IsPermutation, IsTrue, OnErr, OnOk, map, string_bytes};
    ghost use Rattle.handlebars_report.specs.Json.{json_lines};
    ghost use Rattle.handlebars_report.specs.Report.{report_view};
    ghost use Rattle.handlebars_report.specs.Summary.{count_of, summary_of};

    /// Creates a report with no problem.
    pub fn new(alloc: Global) -> Report
        ensures { report_view result ≡ [] }
    {
        Report {
            problems: Vec::new(alloc),
        }
    }

    /// Adds a problem where it belongs in the order.
    ///
    /// Runs in time linear in how many problems belong after it, so problems that come in order are added at once.
    ///
    /// # Errors
    ///
    /// Fails if memory runs out. The report is then unchanged.
    pub fn push(&mut self, problem: Problem) -> Result<(), AllocError>
        ensures once { OnOk result
            (IsPermutation (problem_view problem ∷ report_view self.old) (report_view self.new)) }
        ensures err { OnErr result (report_view self.new ≡ report_view self.old) }
    {
        let at = index_for(&self.problems, &problem);
        self.problems.insert(at, problem)?;
        Ok(())
    }

    /// Returns the problems, in order.
    pub fn problems(&self) -> &[Problem]
        ensures all { map problem_view result.now ≡ report_view self.now }
        ensures ordered { IsSortedByKey problem_view problem_cmp result.now }
    {
        &self.problems
    }

    /// Whether there is neither an error nor a warning.
    pub fn is_clean(&self) -> bool
        ensures { IsTrue result ↔ (report_view self.now ≡ []) }
    {
        self.problems.is_empty()
    }

    /// Returns how many errors and warnings there are.
    pub fn summary(&self) -> Summary
        ensures { result ≡ summary_of (report_view self.now) }
    {
        Summary {
            errors: self.count(Severity::Error),
            warnings: self.count(Severity::Warning),
        }
    }

    // Returns how many problems are this bad.
    fn count(&self, severity: Severity) -> usize
        ensures { result ≡ count_of severity (report_view self.now) }
    {
        self.problems
            .iter()
            .filter(|problem| problem.is_severity(severity))
            .count()
    }

    /// Returns the problems as JSON, one object a line, as `Problem::to_json` has them.
    ///
    /// # Errors
    ///
    /// Fails if memory runs out.
    pub fn json(&self, alloc: Global) -> Result<String, AllocError>
        ensures { IfOk result (λ s. string_bytes s ≡ json_lines (report_view self.now)) }
    {
        let mut lines = String::new(alloc);
        'problems: for problem in &self.problems {
            let object = problem.to_json(alloc)?;
            lines.push_str(object.to_string(alloc)?.as_str())?;
            lines.push('\n')?;
        }
        Ok(lines)
    }
}

/// Shows each problem, and an empty line after it.
impl fmt::Display for Report {
    ghost use Rattle.std.specs.Prelude.{Some};
    ghost use Rattle.handlebars_report.specs.Report.{report_text, report_view};

    ghost output = { λ r. Some (report_text (report_view r)) };

    fn fmt<W: fmt::Write>(&self, f: &mut fmt::Formatter<W>) -> fmt::Result {
        'problems: for problem in &self.problems {
            writeln!(f, "{problem}")?;
        }
        Ok(())
    }
}
