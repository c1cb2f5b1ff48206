//! Laws of the definitions: functions that do nothing, whose contracts are the laws.

ghost use Rattle.handlebars_html.specs.Functions.{CheckedKeepDataSafe};
ghost use Rattle.handlebars_html.specs.Same.{DecidesSame};
ghost use Rattle.handlebars_html.specs.Sample.{SafePagesKeepDataSafe};
ghost use Rattle.handlebars_html.specs.Search.{AcceptedHaveNoFaults};

/// In a registry with the helpers that every registry begins with, and with no other templates: in each run of a template
/// that leads somewhere as the rule has it, data stands only where it may, whatever the data, and however the run ends. What
/// is said of other registries is in `DataStandsSafely`, of which this is one case.
pub fn safe_pages_keep_data_safe()
    ensures { SafePagesKeepDataSafe }
{}

/// The test whether two states are one decides that.
pub fn same_is_decided()
    ensures { DecidesSame }
{}

/// In a registry whose user-defined parts are functions: if the check finds no fault, in what is user-defined or in the pages,
/// then in each run of a page data stands only where it may, whatever the data, and however the run ends. What is said of other
/// registries is in `AcceptedKeepDataSafe`, of which this is one case.
pub fn checked_keep_data_safe()
    ensures { CheckedKeepDataSafe }
{}

/// If the check finds a fault, in whichever order it searches, then no rows are accepted for the pages. What is said of any
/// table is in `IsRightToRefuse`.
pub fn accepted_have_no_faults()
    ensures { AcceptedHaveNoFaults }
{}
