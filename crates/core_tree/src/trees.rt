// What units and programs have in common.

use crate::node::{Entity, Node};
use c_types::table::TypeTable;

/// The types, nodes and entities of a unit or a program.
#[derive(Clone, Copy)]
pub struct Trees<'a> {
    pub types: &'a TypeTable,
    pub nodes: &'a [Node],
    pub entities: &'a [Entity],
}
