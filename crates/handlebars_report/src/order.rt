//! The order of problems.

ghost use Rattle.std.specs.Prelude.{◌≡◌};
ghost use Rattle.handlebars_report.specs.Order.{problem_cmp};
ghost use Rattle.handlebars_report.specs.Inserting.{IsIndexFor};
ghost use Rattle.handlebars_report.specs.View.{problem_view};

use crate::problem::Problem;
use std::cmp::Ordering;

// Compares two problems by file, then by where they start, then by code.
fn compare(left: &Problem, right: &Problem) -> Ordering
    ensures { result ≡ problem_cmp (problem_view left.now) (problem_view right.now) }
{
    let left = (
        left.place.path(),
        left.place.start().offset,
        left.code.as_str(),
    );
    let right = (
        right.place.path(),
        right.place.start().offset,
        right.code.as_str(),
    );
    left.cmp(&right)
}

/// Returns where a problem belongs among problems in order: after all that it is not before.
///
/// Runs in time linear in how many problems belong after it.
pub(crate) fn index_for(problems: &[Problem], problem: &Problem) -> usize
    ensures { IsIndexFor problems.now problem.now result }
{
    let mut at = problems.len();
    'after: while at > 0 && compare(problem, &problems[at - 1]).is_lt() {
        at -= 1;
    }
    at
}
