//! The runs of the program whose report is printed (C11 5.1.1.1, 5.1.2.3).
ghost use Rattle.report_cli.specs.covered_reports.Reports.{ReportsCovered, EffectsCovered};
ghost use Rattle.report_cli.specs.covered_reports.Stops.{BadCallsCovered};

/// The sets that are the least solution of the system of the program that texts are read as cover each state of each run of that program:
/// what memory and items point to, each pointer that a step stores and each function that it reaches stands in them.
pub fn reports_covered()
    ensures { ReportsCovered }
{}

/// What the functions of that program may read and write by those sets covers each run: the location of each cell that a step reads stands
/// in the reads of the function of each frame on the stack, and that of each that it writes, or that holds something else after it, in their
/// writes (Banning 1979).
pub fn effects_covered()
    ensures { EffectsCovered }
{}

/// Where a run of that program stops for a bad call, whatever the words and however many steps, it does so at a node that stands as one by
/// those sets; or what the call there calls is a number (C11 6.5.2.2p9).
pub fn bad_calls_covered()
    ensures { BadCallsCovered }
{}
