//! That the nodes of a unit which is made of the walk over a tree stand in their rows.
ghost use Rattle.core_node_laws.specs.built_unit_laws.built_rows.Rows.{RowsAreAsked, RowsAreRight};

/// Each node stands in the row of its kind (C11 6.5, 6.8), where what is known at each row of the walk fits the types of the unit's
/// entities.
pub fn rows_are_right()
    ensures { RowsAreRight }
{}

/// So they do where what each row asks fits the types of what leaves declare, by the senses alone.
pub fn rows_are_asked()
    ensures { RowsAreAsked }
{}
