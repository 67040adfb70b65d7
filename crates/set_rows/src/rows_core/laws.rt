//! What holds after every list of licensed events, and so under every interleaving of any number of actors.
ghost use Rattle.set_rows.specs.rows_core.Machine.{RowsStayBelow, RowsOnlyGrow, ShutRowsAreLeast};

/// The rows are inside every closed family.
pub fn below()
    ensures { RowsStayBelow }
{}

/// No event takes a fact away.
pub fn grows()
    ensures { RowsOnlyGrow }
{}

/// After Shut the rows are the least solution, and stay so.
pub fn least_when_shut()
    ensures { ShutRowsAreLeast }
{}
