//! The law: a function that does nothing, whose contract it is.
ghost use Rattle.twin_report_laws.specs.outcome_laws.named_by_place.Named.{RightNamedByPlace};

/// In units that are right for texts one after another, the objects and functions that are first used at one place have one name: they are
/// one entity of one unit (C11 6.5.1).
pub fn named_by_place()
    ensures { RightNamedByPlace }
{}
