//! That systems which are one, but for numbers, have one report.
ghost use Rattle.twin_report_laws.specs.reports.Same.{OneReport};

/// Valid systems that are one, but for numbers, over locations with the same names and units with the
/// same names, where no two calls through pointers stand at one place, have one report: the same bytes.
pub fn one_report()
    ensures { OneReport }
{}
