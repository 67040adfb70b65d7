// The nodes and entities of a unit and of a program.

use crate::held::{Children, HeldList, HeldText, Number};
use c_types::table::TypeTable;
use c_types::term::{PathStep, TypeId};
use pta_base::{Listing, Place, Text};

/// The linkage of a name (C11 6.2.2).
#[derive(Clone, Copy, Debug, PartialEq, Eq)]
pub enum Linkage {
    External,
    Internal,
    Local,
}

/// Where an object or function has its place (C11 6.2.4): for the whole run, with its block, as a function with a body,
/// as a parameter, or only declared.
#[derive(Clone, Copy, Debug, PartialEq, Eq)]
pub enum Storage {
    Static,
    Automatic,
    FunctionBody,
    Parameter,
    Declared,
}

/// An operator on numbers (C11 6.5). Unary plus and minus are these with one operand.
#[derive(Clone, Copy, Debug, PartialEq, Eq)]
pub enum Op {
    Multiply,
    Divide,
    Remainder,
    Plus,
    Minus,
    ShiftLeft,
    ShiftRight,
    Less,
    Greater,
    LessEqual,
    GreaterEqual,
    Equal,
    NotEqual,
    And,
    Xor,
    Or,
    Complement,
    Not,
}

/// What a node is: places first, then values, then statements. Numbers name entities and members. `VarArgs` is the list
/// of what the function around it was passed past its parameters, and `NextArg` takes the next one of a list (C11 7.16).
#[derive(Drop)]
pub enum NodeKind {
    Named(u32),
    Text(HeldList<u8>),
    Literal(u32),
    FunctionName(u32),
    Deref,
    Member(u32),
    Number(Number),
    NullValue,
    Fetch,
    AddressOf,
    Decay,
    PointerAdd {
        minus: bool,
    },
    Convert,
    Upcast,
    Assign,
    Update {
        op: Op,
        post: bool,
    },
    Choose,
    Sequence,
    CallNode,
    MemberOfValue(u32),
    Arith(Op),
    VarArgs(u32),
    NextArg,
    Expression,
    Block(HeldList<u32>),
    If,
    While,
    DoWhile,
    For {
        entities: HeldList<u32>,
        condition: bool,
        after: bool,
    },
    Switch,
    Case(Number),
    Default,
    Label(HeldText),
    Goto(HeldText),
    Break,
    Continue,
    Return,
    Initialise {
        entity: u32,
        paths: HeldList<Listing<PathStep>>,
    },
    Skip,
}

/// A node over nodes of smaller numbers.
#[derive(Drop)]
pub struct Node {
    pub kind: NodeKind,
    pub place: Place,
    pub ty: TypeId,
    pub children: Children,
}

/// An object or a function. `owner` is the function of a local, `body` the node of a function's body or of an object's
/// initialiser, and `used` the least place of a node that names it.
#[derive(Drop)]
pub struct Entity {
    pub name: Text,
    pub unit: u32,
    pub place: Place,
    pub ty: TypeId,
    pub linkage: Linkage,
    pub storage: Storage,
    pub owner: Option<u32>,
    pub body: Option<u32>,
    pub used: Option<Place>,
}

/// A unit: its types, the key of each tag by which units share it, its nodes and its entities.
#[derive(Drop)]
pub struct Unit {
    pub name: Text,
    pub types: TypeTable,
    pub tags: Vec<Option<Text>>,
    pub nodes: Vec<Node>,
    pub entities: Vec<Entity>,
}

/// A linked program: the names of its units, its types, nodes and entities; and the functions at which it is entered from
/// outside, in the order in which they were named, none where it begins at `main`.
#[derive(Drop)]
pub struct Program {
    pub names: Vec<Text>,
    pub types: TypeTable,
    pub nodes: Vec<Node>,
    pub entities: Vec<Entity>,
    pub entries: Vec<u32>,
}
