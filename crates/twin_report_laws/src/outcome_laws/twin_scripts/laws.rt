//! That programs which are one, but for numbers, take the same scripts of questions.
ghost use Rattle.twin_report_laws.specs.outcome_laws.twin_scripts.Scripts.{OneReading, TwinScripts};

/// Two settings in which the same words name locations, locations whose sets have a line, functions and calls take the same scripts: a
/// script that is asked in one is asked in the other, and is refused in neither; and one that is refused in both is refused at one line.
pub fn one_reading()
    ensures { OneReading }
{}

/// Programs that are one, but for numbers, on tables that the tables' own functions made and in which each term comes behind its types:
/// the same words name something over the locations, a system and the units' names of each. So they take the same scripts.
pub fn twin_scripts()
    ensures { TwinScripts }
{}
