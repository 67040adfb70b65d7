// What is found of a program's types and nodes once.

ghost use Rattle.std.specs.Prelude.{◌≡◌, ℕ, ◌+◌, ◌<◌, ◌≤◌, ◌^◌, IfOk, length, map};
ghost use Rattle.std.specs.List.{range_with_len};
ghost use Rattle.c_types.specs.Table.{type_of};
ghost use Rattle.core_tree.specs.Typed.{trees_in};
ghost use Rattle.core_tree.specs.Range.{InRange};
ghost use Rattle.obj_space.specs.View.{view_of};
ghost use Rattle.row_numbers.specs.Numbers.{type_number};
ghost use Rattle.row_numbers.specs.Setting.{row, none_row};
ghost use Rattle.call_sites.specs.Calls.{is_call, calls_upto};
ghost use Rattle.stop_places.specs.Loose.{leads_to_array};

use c_types::table::TypeTable;
use c_types::term::{Term, TypeId};
use core_tree::{Node, NodeKind, Program};
use obj_space::Space;
use pta_base::OutOfMemory;
use row_numbers::frame::{Numbers, number_rows};
use row_numbers::numbers::type_number;
use std::alloc::Global;

// The number of a type, where those before it have theirs.
fn number_after(types: &TypeTable, id: TypeId, numbers: &[u32]) -> u32
    requires id { id.0 < length types.now.terms }
    requires tags { types.now.tags + 8 < 2 ^ 32 }
    requires numbers { numbers.now ≡ map (λ i. type_number (type_of types.now i)) (range_with_len 0 id.0) }
    ensures { result ≡ type_number (type_of types.now id.0) }
{
    match types.term(id) {
        Term::Array { of, .. } => numbers[of.0 as usize],
        _ => type_number(types, id),
    }
}

/// The number of each type.
pub(crate) fn type_numbers(alloc: Global, types: &TypeTable) -> Result<Vec<u32>, OutOfMemory>
    requires { types.now.tags + 8 < 2 ^ 32 }
    ensures { IfOk result (λ list. list.items
        ≡ map (λ id. type_number (type_of types.now id)) (range_with_len 0 (length types.now.terms))) }
{
    let mut numbers = Vec::new(alloc);
    for id in 0..types.type_count() {
        let number = number_after(types, TypeId(id), numbers.as_slice());
        numbers.push(number)?;
    }
    Ok(numbers)
}

// Whether a type is an array or leads to one through pointers alone, where it is known of those before it.
fn leads_after(types: &TypeTable, id: TypeId, leads: &[bool]) -> bool
    requires id { id.0 < length types.now.terms }
    requires leads { leads.now ≡ map (λ i. leads_to_array (type_of types.now i)) (range_with_len 0 id.0) }
    ensures { result ≡ leads_to_array (type_of types.now id.0) }
{
    match types.term(id) {
        Term::Array { .. } => true,
        Term::Pointer(to) => leads[to.0 as usize],
        _ => false,
    }
}

/// Which types are arrays or lead to one through pointers alone.
pub(crate) fn led_to_arrays(alloc: Global, types: &TypeTable) -> Result<Vec<bool>, OutOfMemory>
    ensures { IfOk result (λ list. list.items
        ≡ map (λ id. leads_to_array (type_of types.now id)) (range_with_len 0 (length types.now.terms))) }
{
    let mut leads = Vec::new(alloc);
    for id in 0..types.type_count() {
        let lead = leads_after(types, TypeId(id), leads.as_slice());
        leads.push(lead)?;
    }
    Ok(leads)
}

// Whether a node is a call.
fn is_call(node: &Node) -> bool
    ensures { result ≡ is_call node.now.kind }
{
    matches!(node.kind, NodeKind::CallNode)
}

/// How many calls stand before each node.
pub(crate) fn calls_before(alloc: Global, nodes: &[Node]) -> Result<Vec<u32>, OutOfMemory>
    requires { length nodes.now ≤ 2 ^ 24 }
    ensures { IfOk result (λ list. list.items ≡ map (λ n. length (calls_upto nodes.now n)) (range_with_len 0 (length nodes.now))) }
{
    let mut list = Vec::new(alloc);
    let mut calls = 0;
    for n in 0..nodes.len() {
        list.push(calls)?;
        if is_call(&nodes[n]) {
            calls += 1;
        }
    }
    Ok(list)
}

/// The first row of each node. Over 2^24 rows, which no valid system of a program with a location has, are want of memory.
pub(crate) fn first_rows(
    alloc: Global,
    program: &Program,
    space: &Space,
) -> Result<Vec<u32>, OutOfMemory>
    requires range { InRange (trees_in program.now) }
    requires nodes { length program.now.nodes.items < 2 ^ 32 }
    requires entities { length program.now.entities.items < 2 ^ 32 }
    ensures rows { IfOk result (λ list. list.items
        ≡ map (row (trees_in program.now) (view_of space.now)) (range_with_len 0 (length program.now.nodes.items))) }
    ensures most { IfOk result (λ list. (n : ℕ)
        → row (trees_in program.now) (view_of space.now) n ≤ none_row (trees_in program.now) (view_of space.now)) }
{
    match number_rows(alloc, program, space)? {
        Numbers::Few(numbering) => Ok(numbering.rows),
        Numbers::Many(_) => Err(OutOfMemory),
    }
}
