// What is known of a declared name.

/// What the declarations of a unit say of a declared name (C11 6.2.1, 6.2.2): whether it is a typedef name, has linkage,
/// declares a function, has internal linkage, and has one linkage in its scope; of a typedef name the leaves of
/// declarations before it in its scope, which have each type that one has; of a name with internal linkage those of
/// declarations before it that give it that, which give together the type that all of them give, and of which one defines it
/// where one of all does. Where the row of the name's initialiser asks (`is_typed`), those of declarations, its own last, which give
/// together the type of the name behind it (6.2.7p4).
#[derive(Drop)]
pub struct Said {
    pub is_typedef: bool,
    pub is_linked: bool,
    pub is_function: bool,
    pub is_internal: bool,
    pub one_linkage: bool,
    pub in_scope: Vec<u32>,
    pub internal_before: Vec<u32>,
    pub is_typed: bool,
    pub typing: Vec<u32>,
}
