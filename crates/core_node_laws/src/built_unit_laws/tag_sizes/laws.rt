//! The law: a function that does nothing, whose contract it is.
ghost use Rattle.core_node_laws.specs.built_unit_laws.tag_sizes.Sizes.{TagsSized};

/// In a unit that is built each structure or union that is complete has a size below 2^63 and at most 2^24 nodes (C11 5.2.4.1, 6.7.2.1),
/// where syntax trees are families and each structure or union of the table is that of a specifier.
pub fn tags_sized()
    ensures { TagsSized }
{}
