//! What the walk over nodes and calls reads.
ghost use Rattle.std.specs.Prelude.{◌≡◌, ◌<◌, ◌^◌, ℕ, Some, IfOk, MatchOption, length, map, slice_get};
ghost use Rattle.std.specs.List.{range_with_len};
ghost use Rattle.core_tree.specs.Typed.{trees_in};
ghost use Rattle.core_tree.specs.Range.{InRange};
ghost use Rattle.core_tree.specs.declared.node.Node.{Node};
ghost use Rattle.core_tree.specs.declared.node.NodeKind.{NodeKind};
ghost use Rattle.sol_model.specs.Systems.{IsRow};
ghost use Rattle.obj_space.specs.View.{view_of};
ghost use Rattle.row_numbers.specs.Setting.{row, list_row};
ghost use Rattle.mod_ref.specs.Direct.{IsInBody};
ghost use Rattle.mod_ref.specs.Ground.{IsGround, setting_in};

use c_types::key::ObjectKey;
use core_tree::Program;
use obj_space::Space;
use pta_base::OutOfMemory;
use row_numbers::frame::{Numbers, number_rows};
use sol_model::locations::location_fact;
use sol_model::{Rows, System};
use std::alloc::Global;

/// A program with its locations, its system and the rows that solve it, the function around each node, and the first row of each.
#[derive(Clone, Copy)]
pub(crate) struct Ground<'a> {
    pub(crate) program: &'a Program,
    pub(crate) space: &'a Space,
    pub(crate) system: &'a System,
    pub(crate) rows: &'a Rows,
    pub(crate) owners: &'a [Option<u32>],
    pub(crate) starts: &'a [u32],
}

impl Ground<'_> {
    /// The row of a place.
    pub(crate) fn row(&self, n: u32) -> u32
        requires ground { IsGround self.now }
        requires node { n < length self.now.program.now.nodes.items }
        ensures value { result ≡ row (setting_in self.now).trees (setting_in self.now).space n }
        ensures known { IsRow self.now.system.now result }
    {
        self.starts[n as usize]
    }

    /// The row of the lists that a node may be given, which takes the next argument of one.
    pub(crate) fn list_row(&self, n: usize) -> u32
        requires ground { IsGround self.now }
        requires takes { (node : Node) × (slice_get self.now.program.now.nodes.items n ≡ Some node) × (node.kind ≡ NodeKind.NextArg) }
        ensures value { result ≡ list_row (setting_in self.now).trees (setting_in self.now).space n }
        ensures known { IsRow self.now.system.now result }
    {
        self.starts[n] - 1
    }

    /// The number of the function in whose body a node stands.
    pub(crate) fn function_around(&self, n: usize) -> Option<u32>
        requires ground { IsGround self.now }
        requires node { n < length self.now.program.now.nodes.items }
        ensures { MatchOption result ((f : ℕ) → IsInBody (setting_in self.now) self.now.system.now f n → ⊥)
            (λ f. IsInBody (setting_in self.now) self.now.system.now f n) }
    {
        let entity = self.owners[n]?;
        let location = self.space.first(ObjectKey::Entity(entity))?;
        location_fact(self.system, location).function
    }
}

/// The first row of each node, in order. Over 2^24 rows, which no valid system of a program with a location has, are want of memory.
pub(crate) fn first_rows(
    alloc: Global,
    program: &Program,
    space: &Space,
) -> Result<Vec<u32>, OutOfMemory>
    requires range { InRange (trees_in program.now) }
    requires nodes { length program.now.nodes.items < 2 ^ 32 }
    requires entities { length program.now.entities.items < 2 ^ 32 }
    ensures { IfOk result
        (λ list. list.items
        ≡ map (row (trees_in program.now) (view_of space.now)) (range_with_len 0 (length program.now.nodes.items))) }
{
    match number_rows(alloc, program, space)? {
        Numbers::Few(numbering) => Ok(numbering.rows),
        Numbers::Many(_) => Err(OutOfMemory),
    }
}
