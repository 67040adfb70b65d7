//! Initialisers as the grammar gives them (C11 6.7.9).

use c_inits::cursor::Expression;
use c_inits::designators::Designator;

/// An initialiser with its syntax node: an expression, or a braced list.
#[derive(Drop)]
pub enum InitNode {
    Value { node: u32, value: Expression },
    Braces { node: u32, items: Vec<InitEntry> },
}

/// An item of a braced list: its designators, and the position of its initialiser among the initialisers, before that of the list.
#[derive(Drop)]
pub struct InitEntry {
    pub designators: Vec<Designator>,
    pub init: u32,
}
