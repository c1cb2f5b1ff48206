//! What follows from the contracts.

ghost use Rattle.std.specs.Prelude.{◌≡◌, []};
ghost use Rattle.handlebars_report.specs.Report.{report_view};
ghost use Rattle.hb_check.specs.Clean.{IsClean};
ghost use Rattle.hb_check.specs.Report.{IsReport};

use crate::question::Question;
use handlebars_helpers::entries::UserParts;
use handlebars_report::Report;

/// If a report on files has nothing, all of them compile, the check of names finds no fault in their pages, and, if they are asked
/// for, those of markup and of HTML find none.
pub fn clean_report<E: UserParts>(_entries: &E, _question: &Question<'_, '_>, _report: &Report)
    requires report { IsReport (E.registered _entries.now) (E.user _entries.now) _question.now (report_view _report.now) }
    requires clean { report_view _report.now ≡ [] }
    ensures { IsClean (E.registered _entries.now) (E.user _entries.now) _question.now }
{}
