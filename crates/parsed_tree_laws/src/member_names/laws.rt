//! The laws: functions that do nothing, whose contracts they are.
ghost use Rattle.parsed_tree_laws.specs.member_names.Differ.{UnitsAreInOrder, UnitsHaveMembers, UnitsHaveFewMembers};

/// In the tree of a unit that is read, what stands under a node has a smaller number than the node, and a larger one than the node's
/// earlier siblings.
pub fn units_are_in_order()
    ensures { UnitsAreInOrder }
{}

/// In a unit that is cut into tokens and read, and whose rows fit as far as they have senses, the members of each completed tag that have
/// names have different ones (C11 6.7.2.1p2, 6.2.3).
pub fn units_have_members()
    ensures { UnitsHaveMembers }
{}

/// In such a unit no completed tag has more members than the text has tokens: each declaration of members and each field takes a token
/// that no other one takes (6.7.2.1).
pub fn units_have_few_members()
    ensures { UnitsHaveFewMembers }
{}
