//! The laws: functions that do nothing, whose contracts they are.
ghost use Rattle.core_node_laws.specs.standing_laws.Standing.{StatementsStand};

/// In a unit that is made of a tree's senses each statement stands in the body of a function: a `break` in a loop or a switch of it, a
/// `continue` in a loop, a `case` and a `default` in a switch (C11 6.8.1, 6.8.6).
pub fn statements_stand()
    ensures { StatementsStand }
{}
