//! Laws of the rows: these functions do nothing, and their contracts are the laws.
ghost use Rattle.name_uses.specs.Built.{RowsArePart};
ghost use Rattle.name_uses.specs.Usual.{NamesAreUsual};

/// Each row that is built is that of C11 6.5, or says at its node that it isn't built.
pub fn rows_are_part()
    ensures { RowsArePart }
{}

/// Where the rows of the nodes before fit, each name means what declarations can make it mean (C11 6.2.3, 6.7.2.2p2).
pub fn names_are_usual()
    ensures { NamesAreUsual }
{}
