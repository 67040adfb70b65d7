// What a node holds, in little room.
ghost use Rattle.std.specs.Prelude.{◌≡◌, [], ◌∷◌, IfOk};

use pta_base::Text;
use std::alloc::{AllocError, Global};
use std::marker::Model;
use std::slice::from_ref;

// 2 to the 64.
const HALF: u128 = 18446744073709551616;

// Children as they are held: up to three beside the node, more of them on the heap.
#[derive(Drop)]
enum Held {
    Nothing,
    One(u32),
    Two([u32; 2]),
    Three([u32; 3]),
    Many(Box<Vec<u32>>),
}

/// The numbers of a node's children, in order. Clauses see them as a list, and not as the memory behind it. Most nodes have up to three,
/// which take no memory of their own.
#[derive(Drop)]
pub struct Children {
    held: Held,
}

impl Model for Children {
    ghost use Rattle.std.specs.Prelude.{List, ℕ};
    ghost use Rattle.core_tree.specs.Held.{children_held};

    ghost Value = { List ℕ };

    ghost view = { λ c. children_held c.held };
}

impl Children {
    /// No children.
    pub fn none() -> Children
        ensures { result ≡ [] }
    {
        Children {
            held: Held::Nothing,
        }
    }

    /// One child.
    pub fn one(child: u32) -> Children
        ensures { result ≡ child ∷ [] }
    {
        Children {
            held: Held::One(child),
        }
    }

    /// Two children.
    pub fn two(child: u32, other: u32) -> Children
        ensures { result ≡ child ∷ other ∷ [] }
    {
        Children {
            held: Held::Two([child, other]),
        }
    }

    /// Three children.
    pub fn three(child: u32, other: u32, third: u32) -> Children
        ensures { result ≡ child ∷ other ∷ third ∷ [] }
    {
        Children {
            held: Held::Three([child, other, third]),
        }
    }

    /// The children in a list.
    pub fn of(alloc: Global, list: Vec<u32>) -> Result<Children, AllocError>
        ensures { IfOk result (λ children. children ≡ list.items) }
    {
        let held = match list.as_slice() {
            [] => Held::Nothing,
            [one] => Held::One(*one),
            [one, other] => Held::Two([*one, *other]),
            [one, other, third] => Held::Three([*one, *other, *third]),
            _ => {
                let many = Box::new(alloc, list)?;
                Held::Many(many)
            }
        };
        Ok(Children { held })
    }

    /// The children, borrowed.
    pub fn as_slice(&self) -> &[u32]
        ensures { result.now ≡ self.now }
    {
        match &self.held {
            Held::Nothing => &[],
            Held::One(one) => from_ref(one),
            Held::Two(both) => both.as_slice(),
            Held::Three(all) => all.as_slice(),
            Held::Many(list) => list.as_slice(),
        }
    }
}

/// A list behind a pointer. Clauses see it as the list.
#[derive(Drop)]
pub struct HeldList<T> {
    held: Box<Vec<T>>,
}

impl<T> Model for HeldList<T> {
    ghost use Rattle.std.specs.Prelude.{List};

    ghost Value = { List T };

    ghost view = { λ a. a.held.value.items };
}

impl<T: Drop> HeldList<T> {
    /// The list of a vector's items.
    pub fn of(alloc: Global, items: Vec<T>) -> Result<HeldList<T>, AllocError>
        ensures { IfOk result (λ list. list ≡ items.items) }
    {
        let held = Box::new(alloc, items)?;
        Ok(HeldList { held })
    }

    /// The items, borrowed.
    pub fn as_slice(&self) -> &[T]
        ensures { result.now ≡ self.now }
    {
        self.held.as_slice()
    }
}

/// A text behind a pointer. Clauses see it as the list of its bytes.
#[derive(Drop)]
pub struct HeldText {
    held: Box<Text>,
}

impl Model for HeldText {
    ghost use Rattle.std.specs.Prelude.{List, ℕ};

    ghost Value = { List ℕ };

    ghost view = { λ a. a.held.value };
}

impl HeldText {
    /// That text.
    pub fn of(alloc: Global, text: Text) -> Result<HeldText, AllocError>
        ensures { IfOk result (λ held. held ≡ text) }
    {
        let held = Box::new(alloc, text)?;
        Ok(HeldText { held })
    }

    /// The text, borrowed.
    pub fn get(&self) -> &Text
        ensures { result.now ≡ self.now }
    {
        &self.held
    }

    /// The text's string, borrowed.
    pub fn as_str(&self) -> &str
        ensures { result.now ≡ self.now }
    {
        self.held.as_str()
    }
}

/// A number of 128 bits in two halves, which may lie at any multiple of eight bytes, so that a node takes less room. Clauses see it as the
/// number.
#[derive(Drop)]
pub struct Number {
    high: u64,
    low: u64,
}

impl Model for Number {
    ghost use Rattle.std.specs.Prelude.{ℤ};
    ghost use Rattle.core_tree.specs.Held.{number_of};

    ghost Value = { ℤ };

    ghost view = { λ a. number_of a.high a.low };
}

impl Number {
    /// That number.
    pub fn of(value: i128) -> Number
        ensures { result ≡ value }
    {
        let bits = value.cast_unsigned();
        Number {
            high: (bits / HALF) as u64,
            low: (bits % HALF) as u64,
        }
    }

    /// The number.
    pub fn get(&self) -> i128
        ensures { result ≡ self.now }
    {
        (HALF * self.high as u128 + self.low as u128).cast_signed()
    }
}
