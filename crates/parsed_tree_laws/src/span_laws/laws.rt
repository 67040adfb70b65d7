//! The laws: functions that do nothing, whose contracts they are.
ghost use Rattle.parsed_tree_laws.specs.span_laws.Lefts.{UnitsHaveLefts};
ghost use Rattle.parsed_tree_laws.specs.span_laws.Spans.{UnitsAreSpanned};

/// In the tree of a unit that is read the nodes under a node have the numbers directly before it, its parts' one after another; and
/// what follows a primary (C11 6.5.2) stands in a unary expression or a cast, behind what it follows, and begins with a token.
pub fn units_are_spanned()
    ensures { UnitsAreSpanned }
{}

/// What stands to the left of what follows a primary is a part of the same node.
pub fn units_have_lefts()
    ensures { UnitsHaveLefts }
{}
