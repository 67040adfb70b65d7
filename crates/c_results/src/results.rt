// What has been made for the nodes of a tree, one after another.
ghost use Rattle.std.specs.Prelude.{◌≡◌, ◌≤◌, ◌++◌, [], ◌∷◌, ℕ, true, length, is_ok, if◌then◌else◌, IfOk};
ghost use Rattle.std.specs.Slice.{IsItemAt};
ghost use Rattle.c_results.specs.Placed.{made_at_place};

use crate::made::Made;
use std::alloc::{AllocError, Global};
use std::marker::Model;

/// What has been made for the nodes of a tree, by node number. Clauses see it as the list of that. A node takes four bytes: the place of
/// what has been made for it among all that has been. Nodes for which there is nothing share a place, and so do those that pass on the
/// core node or the type of the node before them, as the productions of an expression with one child do (C11 6.5).
#[derive(Drop)]
pub struct Results {
    places: Vec<u32>,
    made: Vec<Made>,
    nothing: Made,
}

impl Model for Results {
    ghost use Rattle.std.specs.Prelude.{List};
    ghost use Rattle.c_results.specs.declared.made.Made.{Made};

    ghost Value = { List Made };

    ghost use Rattle.c_results.specs.Placed.{listed, ArePlaced};

    ghost view = { λ a. listed a.made.items a.places.items };

    ghost invariant = { λ a. ArePlaced a.made.items a.places.items a.nothing };
}

// Whether both are the same core node, or the same type.
fn is_same(one: &Made, other: &Made) -> bool
    ensures { result ≡ true → one.now ≡ other.now }
{
    match one {
        Made::Node(node) => matches!(other, Made::Node(there) if *there == *node),
        Made::Typed(ty) => matches!(other, Made::Typed(there) if there.0 == ty.0),
        _ => false,
    }
}

// The place of something among all that has been made, which gets it behind its end, unless it is nothing or the same as the last.
fn placed(list: &mut Vec<Made>, made: Made) -> Result<u32, AllocError>
    ensures more { length list.old.items ≤ length list.new.items }
    ensures kept { (place : ℕ) →
        place ≤ length list.old.items → made_at_place list.new.items place ≡ made_at_place list.old.items place }
    ensures there { IfOk result (λ place. made_at_place list.new.items place ≡ made) }
    ensures within { IfOk result (λ place. place ≤ length list.new.items) }
{
    let count = list.len();
    if let Made::Nothing = &made {
        return Ok(0);
    }
    if count >= u32::MAX as usize {
        return Err(AllocError);
    }
    if count > 0 && is_same(&list[count - 1], &made) {
        return Ok(count as u32);
    }
    list.push(made)?;
    Ok(count as u32 + 1)
}

impl Results {
    /// No results yet.
    pub fn new(alloc: Global) -> Results
        ensures { result ≡ [] }
    {
        Results {
            places: Vec::new(alloc),
            made: Vec::new(alloc),
            nothing: Made::Nothing,
        }
    }

    /// No results yet, with room for those of so many nodes.
    pub fn with_capacity(alloc: Global, count: usize) -> Result<Results, AllocError>
        ensures { IfOk result (λ results. results ≡ []) }
    {
        let places = Vec::with_capacity(alloc, count)?;
        Ok(Results {
            places,
            made: Vec::new(alloc),
            nothing: Made::Nothing,
        })
    }

    /// How many nodes have a result.
    pub fn len(&self) -> usize
        ensures { result ≡ length self.now }
    {
        self.places.len()
    }

    /// What has been made for the node of that number; None where nothing has been yet.
    pub fn get(&self, node: usize) -> Option<&Made>
        ensures { IsItemAt self.now node result }
    {
        match self.places.get(node) {
            None => None,
            Some(place) => {
                let place = *place as usize;
                if place == 0 {
                    Some(&self.nothing)
                } else {
                    Some(&self.made[place - 1])
                }
            }
        }
    }

    /// The result of the next node. At `Err` there are no more results than before: memory is wanting, or 2^32 - 1 of them are held.
    pub fn push(&mut self, made: Made) -> Result<(), AllocError>
        ensures items { self.new ≡ (if is_ok result then self.old ++ made ∷ [] else self.old) }
    {
        let Ok(place) = placed(&mut self.made, made) else {
            return Err(AllocError);
        };
        let Ok(()) = self.places.push(place) else {
            return Err(AllocError);
        };
        Ok(())
    }
}
