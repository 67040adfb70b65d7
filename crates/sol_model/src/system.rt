// A system of inclusion constraints, with the facts on types, locations, calls and functions that its rules read.
use pta_base::{Effect, Listing, Place};

/// One inclusion constraint (Andersen 1994, chapter 4). Rows are numbered from 0; row `l` is the set of location `l`.
#[derive(Clone, Copy, Debug, PartialEq, Eq)]
pub enum Constraint {
    /// The row has the location: `p = &v`.
    Address {
        row: u32,
        location: u32,
    },
    /// The set of `from` is contained in that of `to`: `p = q`.
    Copy {
        from: u32,
        to: u32,
    },
    /// For each location that `pointer` has: the set of its node `sub`, at the type `ty`, is contained in that of
    /// `to`: `p = *q`.
    Load {
        pointer: u32,
        to: u32,
        ty: u32,
        sub: u32,
    },
    /// For each location that `pointer` has: the set of `from` is contained in that of its node `sub`, at the type
    /// `ty`: `*p = q`.
    Store {
        pointer: u32,
        from: u32,
        ty: u32,
        sub: u32,
    },
    /// For each location that `from` has: `to` has the node of the member of this number of the type `ty`:
    /// `p = &q->m`.
    Field {
        from: u32,
        to: u32,
        ty: u32,
        member: u32,
    },
    /// For each location that `to` has and each that `from` has: the sets of the nodes of the second object are
    /// contained in those of the same nodes of the first: `*p = *q` at structures.
    Contents {
        to: u32,
        from: u32,
    },
    /// The rule of the call of this number: its arguments go into the parameters of each function that it reaches,
    /// and that function's result comes back; a library function has its effects.
    Call {
        call: u32,
    },
}

/// What is known of a location.
#[derive(Clone, Copy, Debug, PartialEq, Eq)]
pub struct LocationFact {
    /// Whether the whole object is this one location.
    pub collapsed: bool,
    /// The number of its type.
    pub ty: u32,
    /// The number of the function that it is, where it is one.
    pub function: Option<u32>,
}

/// What is known of a type.
#[derive(Drop)]
pub struct TypeFact {
    /// How many nodes it has.
    pub nodes: u32,
    /// The number of the node at which each member stands.
    pub members: Listing<u32>,
}

/// A call: its rows, and the object that it gets from each library function. A list of rows has one row for each node
/// of a value's type.
#[derive(Drop)]
pub struct CallSite {
    /// The number of the function that has the call.
    pub caller: u32,
    /// The row of the functions that may be called.
    pub callee: u32,
    /// The signature of the call; only functions of that signature are called.
    pub signature: u32,
    /// Whether the call names its function.
    pub direct: bool,
    /// Where the call stands in the text.
    pub place: Place,
    /// The rows of each argument.
    pub arguments: Listing<Listing<u32>>,
    /// The rows of the result.
    pub result: Listing<u32>,
    /// Pairs of the number of a library function and the location of the object that this call gets from it.
    pub fresh: Listing<(u32, u32)>,
}

/// A function: its rows, and what it does to sets if it is a library function.
#[derive(Drop)]
pub struct Function {
    /// The location that pointers to it have.
    pub location: u32,
    /// Its signature.
    pub signature: u32,
    /// The rows of each parameter.
    pub parameters: Listing<Listing<u32>>,
    /// The rows of the result.
    pub result: Listing<u32>,
    /// The number of the library function that it is, where it is one.
    pub library: Option<u32>,
    /// What a library function does to sets; of any other function this list isn't read.
    pub effects: Listing<Effect>,
}

/// The constraints of a program, with the facts that their rules read.
#[derive(Drop)]
pub struct System {
    /// How many rows there are, those of locations first.
    pub rows: u32,
    /// What is known of each location.
    pub locations: Listing<LocationFact>,
    /// What is known of each type.
    pub types: Listing<TypeFact>,
    /// The constraints, in any order.
    pub constraints: Listing<Constraint>,
    /// The calls.
    pub calls: Listing<CallSite>,
    /// The functions, those of the library among them.
    pub functions: Listing<Function>,
}

impl System {
    ghost use Rattle.std.specs.Prelude.{◌≡◌};
    ghost use Rattle.sol_model.specs.Systems.{width_of};

    /// How many words a row has: one for each 64 locations.
    pub fn row_width(&self) -> usize
        ensures { result ≡ width_of self.now }
    {
        self.locations.len().div_ceil(64)
    }
}
