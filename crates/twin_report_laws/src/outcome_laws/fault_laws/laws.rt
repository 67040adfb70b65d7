//! That units which are alike have one fault of linking at most (C11 6.2.7p2, 6.9p5, 5.1.2.2.1).
ghost use Rattle.twin_report_laws.specs.outcome_laws.fault_laws.Twins.{OneLinkFault, NoLinkFault};

/// Two lists of units which are alike one by one, but for the numbers of entities and nodes and for their tables of types, have one fault
/// of linking, where the same entries are named: the same conflict, the same second definition, the want of `main` or of the same entry, or
/// uses of undefined names at one place; and then of one name too, where what is used first at one place has one name.
pub fn one_link_fault()
    ensures { OneLinkFault }
{}

/// Where a program is linked from such units, the other ones have no fault of linking where the same entries are named.
pub fn no_link_fault()
    ensures { NoLinkFault }
{}
