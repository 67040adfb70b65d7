//! Laws of the rows of structures and unions: these functions do nothing, and their contracts are the laws.
ghost use Rattle.struct_rows.specs.Laws.{StructIsPart, TagTypesKept};

/// The row that is built is the whole row of the specifier, whether that is its type or a refusal with the node that it names; or it
/// says that it isn't built, at the specifier.
pub fn struct_is_part()
    ensures { StructIsPart }
{}

/// A table in which each tag of a source has its type goes on having them while nodes and types are added and tags are completed.
pub fn tag_types_kept()
    ensures { TagTypesKept }
{}
