// What the nodes of a program are looked at with.

ghost use Rattle.std.specs.Prelude.{◌≡◌, ◌<◌, length};

use crate::targets::Judged;
use c_types::term::TypeId;
use core_tree::Program;
use obj_space::Space;
use sol_model::{Rows, System};

/// A program with its locations, its system and a family of its rows; the first row of each node, the number of each type and
/// whether it leads to an array, whether each node is a far place, how many calls stand before it, and what was found of each
/// call.
#[derive(Clone, Copy)]
pub(crate) struct Sight<'a> {
    pub(crate) program: &'a Program,
    pub(crate) space: &'a Space,
    pub(crate) system: &'a System,
    pub(crate) rows: &'a Rows,
    pub(crate) firsts: &'a [u32],
    pub(crate) numbers: &'a [u32],
    pub(crate) leads: &'a [bool],
    pub(crate) far: &'a [bool],
    pub(crate) calls: &'a [u32],
    pub(crate) judged: &'a [Judged],
}

impl<'a> Sight<'a> {
    ghost use Rattle.std.specs.Prelude.{◌↔◌, IsTrue};
    ghost use Rattle.core_tree.specs.Typed.{type_at};
    ghost use Rattle.c_types.specs.Table.{type_of};
    ghost use Rattle.row_numbers.specs.Numbers.{type_number};
    ghost use Rattle.row_numbers.specs.Setting.{row};
    ghost use Rattle.sol_model.specs.Systems.{IsRow};
    ghost use Rattle.stop_places.specs.Far.{IsFar};
    ghost use Rattle.stop_places.specs.Sight.{IsSight, IsOfCall, solution_in};

    /// The type of a node.
    pub(crate) fn type_id(&self, n: u32) -> TypeId
        requires sight { IsSight self.now }
        requires node { n < length self.now.program.now.nodes.items }
        ensures value { type_of self.now.program.now.types result.0 ≡ type_at (solution_in self.now).trees n }
        ensures known { result.0 < length self.now.program.now.types.terms }
    {
        self.program.nodes[n as usize].ty
    }

    /// The number of a type.
    pub(crate) fn number(&self, id: TypeId) -> u32
        requires sight { IsSight self.now }
        requires id { id.0 < length self.now.program.now.types.terms }
        ensures { result ≡ type_number (type_of self.now.program.now.types id.0) }
    {
        self.numbers[id.0 as usize]
    }

    /// The row of a place or of a pointer.
    pub(crate) fn row(&self, n: u32) -> u32
        requires sight { IsSight self.now }
        requires node { n < length self.now.program.now.nodes.items }
        ensures value { result ≡ row (solution_in self.now).trees (solution_in self.now).space n }
        ensures known { IsRow self.now.system.now result }
    {
        self.firsts[n as usize]
    }

    /// Whether a node is a far place.
    pub(crate) fn is_far(&self, n: u32) -> bool
        requires sight { IsSight self.now }
        requires node { n < length self.now.program.now.nodes.items }
        ensures { IsTrue result ↔ IsFar self.now.program.now.nodes.items n }
    {
        self.far[n as usize]
    }

    /// What was found of the call at a node.
    pub(crate) fn judged_at(&self, n: u32) -> Judged
        requires sight { IsSight self.now }
        requires node { n < length self.now.program.now.nodes.items }
        ensures { IsOfCall (solution_in self.now) n result }
    {
        let number = self.calls[n as usize] as usize;
        if number < self.judged.len() {
            return self.judged[number];
        }
        Judged {
            library: false,
            mismatch: false,
            bad: false,
        }
    }
}
