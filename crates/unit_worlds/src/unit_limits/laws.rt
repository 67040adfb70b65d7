//! Laws of small tables: these functions do nothing, and their contracts are the laws.
ghost use Rattle.unit_worlds.specs.unit_limits.Laws.{EmptyIsSmall, OpenIsSmall, OpenTagsAreSmall, TypesAreLimited};
ghost use Rattle.unit_worlds.specs.unit_limits.Laws.{ResultsAreAround, UnionsAreFlexible, BuildingKeepsUnions};
ghost use Rattle.unit_worlds.specs.unit_limits.Laws.{BuildingStaysSmall, CompletingStaysSmall};

/// A table without types is small.
pub fn empty_is_small()
    ensures { EmptyIsSmall }
{}

/// A table without complete structures and unions is small where its types are.
pub fn open_is_small()
    ensures { OpenIsSmall }
{}

/// So it is where its types are structures and unions alone.
pub fn open_tags_are_small()
    ensures { OpenTagsAreSmall }
{}

/// Each type of a small table is within the limits of each world that its unit knows.
pub fn types_are_limited()
    ensures { TypesAreLimited }
{}

/// What is kept of a table's tags is what the worlds that its unit knows say of their unions: which of them have a structure that ends in
/// an array without a length, or a union that has one (C11 6.7.2.1p3).
pub fn unions_are_flexible()
    ensures { UnionsAreFlexible }
{}

/// What is kept of a table's tags stays so while its unit is built on.
pub fn building_keeps_unions()
    ensures { BuildingKeepsUnions }
{}

/// The results of a unit with a small table are what the rows of declarators ask of the results before them.
pub fn results_are_around()
    ensures { ResultsAreAround }
{}

/// A small table stays small while its unit is built on, where the new types are small.
pub fn building_stays_small()
    ensures { BuildingStaysSmall }
{}

/// A small table stays small when a structure or union is completed that is small itself, where the new types are.
pub fn completing_stays_small()
    ensures { CompletingStaysSmall }
{}
