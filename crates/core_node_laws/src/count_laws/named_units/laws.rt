//! The laws: functions that do nothing, whose contracts they are.
ghost use Rattle.core_node_laws.specs.count_laws.named_units.Named.{UnitsAreNamed, TagsAreKnown};

/// In what is right for a unit that is cut into tokens and read, entities and members have identifiers as names (C11 6.4.2.1), lines and
/// columns have 32 bits, different entities of internal linkage have different names (6.2.2p2), different members of one structure or union
/// have different names (6.2.3) and are fewer than 2^32, and different objects without linkage have different places: each declarator's
/// name and each compound literal's parenthesis (6.5.2.5) is a token of its own.
pub fn units_are_named()
    ensures { UnitsAreNamed }
{}

/// Where a table of types was made, as every table is, a tag that has members is one of the table's.
pub fn tags_are_known()
    ensures { TagsAreKnown }
{}
