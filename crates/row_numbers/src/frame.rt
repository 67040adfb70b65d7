// What the rows of a program are read from.

ghost use Rattle.std.specs.Prelude.{◌≡◌, ℕ, ◌+◌, ◌<◌, ◌≤◌, ◌^◌, Some, IfOk, All, length, slice_get};
ghost use Rattle.c_types.specs.declared.key.ObjectKey.{ObjectKey};
ghost use Rattle.c_types.specs.Table.{type_of};
ghost use Rattle.core_tree.specs.Typed.{trees_in, type_at};
ghost use Rattle.core_tree.specs.Range.{InRange};
ghost use Rattle.core_tree.specs.declared.node.Node.{Node};
ghost use Rattle.core_tree.specs.declared.node.NodeKind.{NodeKind};
ghost use Rattle.obj_space.specs.View.{view_of};
ghost use Rattle.row_numbers.specs.Functions.{number_of};
ghost use Rattle.row_numbers.specs.Setting.{row, list_row, rest_row, result_row};
ghost use Rattle.row_numbers.specs.Frame.{NumbersOf, IsFrame, setting_in};

use crate::functions::{function_keys, objects_at, present};
use crate::kept::kept_count;
use crate::numbering::{own_rows, present_before, result_widths, starts, total, widths};
use c_types::key::ObjectKey;
use c_types::term::TypeId;
use core_tree::Program;
use obj_space::Space;
use pta_base::OutOfMemory;
use std::alloc::Global;

/// The functions of a program in order, the number of functions before each location, the first row of each node and of
/// each function's result, and the row that stands for nodes without rows.
#[derive(Drop)]
pub struct Numbering {
    pub functions: Vec<ObjectKey>,
    pub before: Vec<u32>,
    pub rows: Vec<u32>,
    pub results: Vec<u32>,
    pub none: u32,
}

/// The rows of a program: numbered, or over 2^24 of them.
#[derive(Drop)]
pub enum Numbers {
    Few(Numbering),
    Many(u64),
}

/// Numbers the rows of a program.
pub fn number_rows(alloc: Global, program: &Program, space: &Space) -> Result<Numbers, OutOfMemory>
    requires range { InRange (trees_in program.now) }
    requires nodes { length program.now.nodes.items < 2 ^ 32 }
    requires entities { length program.now.entities.items < 2 ^ 32 }
    ensures { IfOk result (λ numbers. NumbersOf (trees_in program.now) (view_of space.now) numbers) }
{
    let keys = function_keys(alloc, program)?;
    let at = objects_at(alloc, space, keys.as_slice())?;
    let functions = present(alloc, at.as_slice())?;
    let node_widths = widths(alloc, program)?;
    let widths_of_results = result_widths(alloc, program, functions.as_slice())?;
    let nodes_end = u64::from(space.count()) + total(node_widths.as_slice());
    let end = nodes_end + total(widths_of_results.as_slice());
    if end >= 1 << 24 {
        return Ok(Numbers::Many(end + 1));
    }
    let before = present_before(alloc, at.as_slice())?;
    let firsts = starts(alloc, space.count(), node_widths.as_slice())?;
    let rows = own_rows(alloc, program.nodes.as_slice(), firsts.as_slice())?;
    let results = starts(alloc, nodes_end as u32, widths_of_results.as_slice())?;
    Ok(Numbers::Few(Numbering {
        functions,
        before,
        rows,
        results,
        none: end as u32,
    }))
}

/// A program with its space, the function around each node, and its rows.
#[derive(Clone, Copy)]
pub struct Frame<'a> {
    pub program: &'a Program,
    pub space: &'a Space,
    pub owners: &'a [Option<u32>],
    pub numbering: &'a Numbering,
}

impl<'a> Frame<'a> {
    /// The row of a place or a pointer, and the first row of any other value.
    pub fn row(&self, n: u32) -> u32
        requires frame { IsFrame self.now }
        requires node { n < length self.now.program.now.nodes.items }
        ensures value { result ≡ row (setting_in self.now).trees (setting_in self.now).space n }
        ensures small { result ≤ 2 ^ 24 }
    {
        self.numbering.rows[n as usize]
    }

    /// The row of what a node may be, which takes the next argument of a list.
    pub fn list_row(&self, n: u32) -> u32
        requires frame { IsFrame self.now }
        requires takes { (node : Node) × (slice_get self.now.program.now.nodes.items n ≡ Some node) × (node.kind ≡ NodeKind.NextArg) }
        ensures value { result ≡ list_row (setting_in self.now).trees (setting_in self.now).space n }
        ensures small { result ≤ 2 ^ 24 }
    {
        self.row(n) - 1
    }

    /// The row of all arguments of a call past the parameters.
    pub fn rest_row(&self, n: u32) -> u32
        requires frame { IsFrame self.now }
        requires node { n < length self.now.program.now.nodes.items }
        ensures value { result ≡ rest_row (setting_in self.now).trees (setting_in self.now).space n }
        ensures small { result ≤ 2 ^ 25 }
    {
        self.row(n) + kept_count(&self.program.types, self.program.nodes[n as usize].ty)
    }

    /// The function around a node.
    pub fn owner_at(&self, n: u32) -> Option<u32>
        requires frame { IsFrame self.now }
        requires node { n < length self.now.program.now.nodes.items }
        ensures { slice_get (setting_in self.now).owners n ≡ Some result }
    {
        self.owners[n as usize]
    }

    /// The number of the function that an entity is.
    pub fn number_of(&self, f: u32) -> u32
        requires { IsFrame self.now }
        ensures { result ≡ number_of (setting_in self.now).trees (setting_in self.now).space f }
    {
        match self.space.first(ObjectKey::Entity(f)) {
            Some(l) => self.numbering.before[l as usize],
            None => 0,
        }
    }

    /// The first row of the result of a function.
    pub fn result_row(&self, number: u32) -> u32
        requires { IsFrame self.now }
        ensures value { result ≡ result_row (setting_in self.now).trees (setting_in self.now).space number }
        ensures small { result ≤ 2 ^ 24 }
    {
        let results = self.numbering.results.as_slice();
        if (number as usize) < results.len() {
            results[number as usize]
        } else {
            self.numbering.none
        }
    }
}

/// The type of a node.
pub fn type_at(frame: &Frame<'_>, n: u32) -> TypeId
    requires frame { IsFrame frame.now }
    requires node { n < length frame.now.program.now.nodes.items }
    ensures value { type_of frame.now.program.now.types result.0 ≡ type_at (setting_in frame.now).trees n }
    ensures known { result.0 < length frame.now.program.now.types.terms }
{
    frame.program.nodes[n as usize].ty
}
