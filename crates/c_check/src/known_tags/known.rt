// What is known of the declarations before an expression.
use c_types::term::TypeId;

/// What a declaration gives: the entity of an object or a function, the type that a typedef names, the tag of a structure or union, or
/// the value of an enumerator.
#[derive(Clone, Copy, Debug, PartialEq, Eq)]
pub enum Meaning {
    Entity(u32),
    TypeName(TypeId),
    Tag(u32),
    Value(i128),
}

/// The declarations that stand before an expression: the syntax node of each, as names are bound to it, with what it gives, of which the
/// first counts where a node stands twice; and the function whose body is read.
#[derive(Drop)]
pub struct Known {
    pub owner: Option<u32>,
    pub list: Vec<(u32, Meaning)>,
}
