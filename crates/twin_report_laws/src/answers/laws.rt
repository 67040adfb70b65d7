//! That systems which are one, but for numbers, answer a script with one text.
ghost use Rattle.twin_report_laws.specs.answers.Same.{OneText};

/// Valid systems that are one, but for numbers, over locations with the same names, all of them different, and units with the same names,
/// where each place that a script may write has one call at most, answer a script with the same bytes.
pub fn one_text()
    ensures { OneText }
{}
