//! Kinds of declarations, and faults of names.
ghost use Rattle.std.specs.Prelude.{◌≡◌};

use pta_base::OutOfMemory;

/// What a declaration is to further ones of its name in its scope (C11 6.2.2, 6.7p3).
#[derive(Clone, Copy, Debug, PartialEq, Eq)]
pub enum Kind {
    /// It has linkage.
    Linked,
    /// It is a typedef name.
    Typedef,
    /// Neither.
    Plain,
}

/// A declaration of an ordinary name or of a tag (C11 6.2.1, 6.2.3).
#[derive(Clone, Copy, Debug, PartialEq, Eq)]
pub struct Declared {
    /// The node of the name, or of the specifier that declares the tag.
    pub node: u32,
    /// The symbol of the name: the number of its spelling's first token.
    pub symbol: u32,
    /// The number of the scope.
    pub scope: u32,
    /// What the declaration is to further ones.
    pub kind: Kind,
    /// Whether it declares a function, or a typedef name of a function's type.
    pub is_function: bool,
}

/// Why names can't be bound, with the number of the node of the name.
#[derive(Clone, Copy, Debug, PartialEq, Eq)]
pub enum NameFault {
    /// No declaration of the name is visible (C11 6.2.1, 6.5.1p2, 6.7.2.3p3, 6.8.6.1p1).
    Undeclared(u32),
    /// The name is declared before in its scope, and the two declarations have not both linkage and are not both typedef names
    /// (C11 6.7p3, 6.8.1p3).
    Redeclared(u32),
    /// Memory ran out.
    OutOfMemory,
}

impl From<OutOfMemory> for NameFault {
    ghost use Rattle.c_scope.specs.declared.kinds.NameFault.TheVariants.{OutOfMemory};

    ghost from_gives = { λ _ e. e ≡ OutOfMemory };

    fn from(_: OutOfMemory) -> Self {
        NameFault::OutOfMemory
    }
}
