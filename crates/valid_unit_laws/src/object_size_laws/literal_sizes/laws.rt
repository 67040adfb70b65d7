//! That the type of a compound literal has a size.
ghost use Rattle.valid_unit_laws.specs.object_size_laws.literal_sizes.Literals.{LiteralsSized};

/// In a unit that is built of a text, the type of a compound literal (C11 6.5.2.5p1), with the length that its list gives it, has a size
/// and a number of nodes, where all senses are sound.
pub fn literals_sized()
    ensures { LiteralsSized }
{}
