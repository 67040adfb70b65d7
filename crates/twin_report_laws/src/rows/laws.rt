//! That programs which are one, but for numbers, have systems that are one (Andersen 1994, chapter 4).
ghost use Rattle.twin_report_laws.specs.rows.One.{OneSystem};

/// Programs that are one, but for numbers, with the same locations in the same order, whose tables have the type by which each function is
/// called: their systems lead to each other, and keep locations, functions and the places of calls.
pub fn one_system()
    ensures { OneSystem }
{}
