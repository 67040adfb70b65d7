// What a type is made of.

ghost use Rattle.std.specs.Prelude.{◌≡◌, ℕ, List, string_bytes};

use std::alloc::AllocError;
use std::marker::Model;

/// Memory ran out.
#[derive(Clone, Copy, Debug, PartialEq, Eq)]
pub struct OutOfMemory;

impl From<AllocError> for OutOfMemory {
    fn from(_: AllocError) -> OutOfMemory {
        OutOfMemory
    }
}

/// The number of a type in its table, from 0 in the order of `add`.
#[derive(Clone, Copy, Debug, PartialEq, Eq)]
pub struct TypeId(pub u32);

/// What a function's parameter list says (C11 6.7.6.3): so many parameters, these and further ones (`...`), or
/// nothing (`()`).
#[derive(Clone, Copy, Debug, PartialEq, Eq)]
pub enum Form {
    Fixed,
    Variadic,
    Unspecified,
}

/// The class of a type: scalars by what a read of one sees, and the other types by their form. `_Bool` is an integer of
/// size 1, and all object and function pointers are one class.
#[derive(Clone, Copy, Debug, PartialEq, Eq)]
pub enum Class {
    Pointer,
    Integer(u8),
    Structure,
    Union,
    Array,
    Function,
    Floating,
    VaList,
    Void,
}

/// One step from an object to a part of it: an element of an array, or a member of a structure or union, from 0.
#[derive(Clone, Copy, Debug, PartialEq, Eq)]
pub enum PathStep {
    Index(u64),
    Member(u32),
}

/// A list of types, which contracts see as the list.
#[derive(Drop)]
pub struct TypeList {
    items: Vec<TypeId>,
}

impl Model for TypeList {
    ghost use Rattle.std.specs.Prelude.{List};
    ghost use Rattle.c_types.specs.declared.term.TypeId.{TypeId};

    ghost Value = { List TypeId };

    ghost view = { λ t. t.items.items };
}

/// The text of a name, which contracts see as its bytes.
#[derive(Drop)]
pub struct Name {
    text: String,
}

impl Model for Name {
    ghost use Rattle.std.specs.Prelude.{List, ℕ, string_bytes};

    ghost Value = { List ℕ };

    ghost view = { λ n. string_bytes n.text };
}

/// A type over the types that were added before it (C11 6.2.5). Qualifiers are dropped. `Integer` holds the size in
/// bytes, the rank, which tells types of one size apart, and whether the type is signed; an enumeration is `int`.
/// `VaList` is the type of variadic lists. An array has no length where it is incomplete.
#[derive(Drop)]
pub enum Term {
    Void,
    Bool,
    Integer {
        size: u8,
        rank: u8,
        signed: bool,
    },
    Floating,
    VaList,
    Pointer(TypeId),
    Array {
        of: TypeId,
        length: Option<u64>,
    },
    Function {
        result: TypeId,
        parameters: TypeList,
        form: Form,
    },
    Structure(u32),
    Union(u32),
}

/// A member of a structure or union, with its width in bits where it is a bit-field.
#[derive(Drop)]
pub struct MemberTerm {
    pub name: Option<Name>,
    pub ty: TypeId,
    pub bits: Option<u8>,
}

impl TypeList {
    /// The list of these types.
    pub fn from_items(items: Vec<TypeId>) -> TypeList
        ensures { result ≡ items.items }
    {
        TypeList { items }
    }

    /// The types in order.
    pub fn as_slice(&self) -> &[TypeId]
        ensures { result.now ≡ self.now }
    {
        self.items.as_slice()
    }
}

impl Name {
    /// The name of that text.
    pub fn from_text(text: String) -> Name
        ensures { result ≡ string_bytes text }
    {
        Name { text }
    }

    /// The text of the name.
    pub fn as_str(&self) -> &str
        ensures { result.now ≡ self.now }
    {
        self.text.as_str()
    }
}
