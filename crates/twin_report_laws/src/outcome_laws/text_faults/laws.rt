//! That units which are right for the same texts have one fault of linking at most (C11 6.2.7p2, 6.7.2.3, 6.9p5, 5.1.2.2.1).
ghost use Rattle.twin_report_laws.specs.outcome_laws.text_faults.Texts.{RightTwins, OneTextFault};

/// Two units that are right for one parsed text, whose tables have the type of each of its tags, are twins for linking: each tag has one
/// keyword in both, that of its first specifier, and their external declarations stand at different places, those of their names. So are
/// two lists of units that are right for the same texts, one by one.
pub fn right_twins()
    ensures { RightTwins }
{}

/// Two lists of units that are right for the same texts, with the types of their tags, have one fault of linking where the same entries are
/// named: the same conflict, the same second definition, the same use of an undefined name, or the want of `main` or of the same entry. And
/// where one of them links to a program, the other has no fault.
pub fn one_text_fault()
    ensures { OneTextFault }
{}
