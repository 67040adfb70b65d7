//! The children of a node of a syntax tree.
ghost use Rattle.std.specs.Prelude.{◌≡◌, ◌∷◌, [], IfOk};

use std::alloc::{AllocError, Global};
use std::marker::Model;
use std::slice::from_ref;

/// Children as they are held: up to three beside the node, more of them on the heap.
#[derive(Drop)]
enum Held {
    Nothing,
    One(u32),
    Two([u32; 2]),
    Three([u32; 3]),
    Many(Box<Vec<u32>>),
}

/// The numbers of a node's children, in the order of the text. Clauses see them as a list, and not as the memory behind it. Most nodes have
/// one child or none, which take no memory of their own.
#[derive(Drop)]
pub struct Children {
    held: Held,
}

impl Model for Children {
    ghost use Rattle.c_grammar.specs.Items.{Items};
    ghost use Rattle.c_grammar.specs.Held.{items_held};

    ghost Value = { Items };

    ghost view = { λ c. record { items = items_held c.held } };
}

impl Children {
    /// No children.
    pub fn none() -> Children
        ensures { result.items ≡ [] }
    {
        Children {
            held: Held::Nothing,
        }
    }

    /// One child.
    pub fn one(number: u32) -> Children
        ensures { result.items ≡ number ∷ [] }
    {
        Children {
            held: Held::One(number),
        }
    }

    /// The children in a list.
    pub fn of(alloc: Global, list: Vec<u32>) -> Result<Children, AllocError>
        ensures { IfOk result (λ children. children.items ≡ list.items) }
    {
        let held = match list.as_slice() {
            [] => Held::Nothing,
            [one] => Held::One(*one),
            [one, other] => Held::Two([*one, *other]),
            [one, other, third] => Held::Three([*one, *other, *third]),
            _ => {
                let many = Box::new(alloc, list)?;
                Held::Many(many)
            }
        };
        Ok(Children { held })
    }

    /// The children, borrowed.
    pub fn as_slice(&self) -> &[u32]
        ensures value { result.now ≡ self.now.items }
    {
        match &self.held {
            Held::Nothing => &[],
            Held::One(one) => from_ref(one),
            Held::Two(both) => both.as_slice(),
            Held::Three(all) => all.as_slice(),
            Held::Many(list) => list.as_slice(),
        }
    }
}
