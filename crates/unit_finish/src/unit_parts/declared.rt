// What is declared.
use c_types::term::TypeId;
use core_tree::node::{Linkage, Storage};
use pta_base::{Place, Text};

/// What is declared at a leaf of the syntax tree: an object or a function by its name, or the object of a compound literal. Its owner is
/// named by a leaf, its body by the number of a node.
#[derive(Drop)]
pub struct Declared {
    pub leaf: u32,
    pub name: Text,
    pub place: Place,
    pub ty: TypeId,
    pub linkage: Linkage,
    pub storage: Storage,
    pub owner: Option<u32>,
    pub body: Option<u32>,
}
