//! That programs of the same texts print the same bytes.
ghost use Rattle.twin_report_laws.specs.linked.Linked.{OneReport, OneSummary, OneText};

/// Programs that are linked from units which are right for the same texts, with the same entries, so that they are one, but for numbers,
/// have one report, as lines and as JSON: the same bytes.
pub fn one_report()
    ensures { OneReport }
{}

/// Such programs answer a script of questions with the same bytes, where the names of units keep the parts of a location's name apart.
pub fn one_text()
    ensures { OneText }
{}

/// Such programs have one summary: as many locations, as many members of the sets that a report prints, and as many edges.
pub fn one_summary()
    ensures { OneSummary }
{}
