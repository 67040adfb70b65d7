//! A list whose entries are put in their places one by one is the one list that has exactly these entries and in which places rise.

ghost use Rattle.twin_report_laws.specs.order_laws.Orders.{MadeOrdered, CallsOrdered, StopsOrdered};

/// What the tokens of a program make stands in the order of their places: by unit, line, column and the number of what makes it.
pub fn made_ordered()
    ensures { MadeOrdered }
{}

/// The calls that don't name their function stand in the report in the order of their places: by unit, line, column and number.
pub fn calls_ordered()
    ensures { CallsOrdered }
{}

/// The stops of a program stand in the order of their places, each line once: by unit, line, column, and a mismatch before a bad call.
pub fn stops_ordered()
    ensures { StopsOrdered }
{}
