// A place in the text of a unit.

/// A place in the text of a unit: the unit's number from 0 in the order of the command line, the physical line and the
/// column, both from 1. The column counts bytes.
#[derive(Clone, Copy, Debug, PartialEq, Eq, PartialOrd, Ord)]
pub struct Place {
    pub unit: u32,
    pub line: u32,
    pub column: u32,
}
