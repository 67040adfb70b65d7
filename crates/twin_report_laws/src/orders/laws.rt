//! That programs which are one, but for numbers, have the same locations in the same order (C11 6.2.1, 6.2.4).
ghost use Rattle.twin_report_laws.specs.orders.Order.{SameOrder};

/// Programs that are one, but for numbers, on tables that the tables' own functions made, of which no two entities and no two nodes make
/// objects at one place, have the same locations in the same order, and as many.
pub fn same_order()
    ensures { SameOrder }
{}
