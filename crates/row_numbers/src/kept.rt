// The nodes of a type that have rows.

ghost use Rattle.std.specs.Prelude.{◌≡◌, ℕ, All, ◌^◌, ◌<◌, ◌≤◌, IfOk, length, slice_get, take};
ghost use Rattle.c_types.specs.Table.{type_of};
ghost use Rattle.row_numbers.specs.Kept.{nodes_of, is_kept, kept, kept_count, kept_at, row_list};

use c_types::table::TypeTable;
use c_types::term::{Class, TypeId};
use pta_base::{Listing, OutOfMemory};
use std::alloc::Global;

/// How many nodes a type has; 0 where it has no size, or over 2^24 nodes.
pub fn node_count(types: &TypeTable, id: TypeId) -> u32
    requires { id.0 < length types.now.terms }
    ensures count { result ≡ length (nodes_of types.now (type_of types.now id.0)) }
    ensures within { result ≤ 2 ^ 24 }
{
    types.nodes(id).unwrap_or(0)
}

// Whether a type is a pointer, a variadic list or a union.
fn is_kept(types: &TypeTable, id: TypeId) -> bool
    requires { id.0 < length types.now.terms }
    ensures { result ≡ is_kept (type_of types.now id.0) }
{
    match types.class_of(id) {
        Class::Pointer | Class::VaList | Class::Union => true,
        Class::Integer(_) | Class::Structure | Class::Array | Class::Function => false,
        Class::Floating | Class::Void => false,
    }
}

/// Whether a node of a type has a row.
pub fn has_row(types: &TypeTable, id: TypeId, node: u32) -> bool
    requires id { id.0 < length types.now.terms }
    requires node { node < length (nodes_of types.now (type_of types.now id.0)) }
    ensures { result ≡ kept_at (slice_get (nodes_of types.now (type_of types.now id.0)) node) }
{
    match types.sub_node(id, node) {
        Some(part) => is_kept(types, part),
        None => false,
    }
}

/// How many nodes of a type have rows.
pub fn kept_count(types: &TypeTable, id: TypeId) -> u32
    requires { id.0 < length types.now.terms }
    ensures count { result ≡ kept_count (nodes_of types.now (type_of types.now id.0)) }
    ensures within { result ≤ 2 ^ 24 }
{
    let mut count = 0;
    for node in 0..node_count(types, id) {
        if has_row(types, id, node) {
            count += 1;
        }
    }
    count
}

/// How many of the first so many nodes of a type have rows.
pub fn kept_before(types: &TypeTable, id: TypeId, before: u32) -> u32
    requires { id.0 < length types.now.terms }
    ensures count { result ≡ kept_count (take before (nodes_of types.now (type_of types.now id.0))) }
    ensures within { result ≤ 2 ^ 24 }
{
    let mut count = 0;
    for node in 0..before.min(node_count(types, id)) {
        if has_row(types, id, node) {
            count += 1;
        }
    }
    count
}

/// The nodes of a type that have rows.
pub fn kept_nodes(alloc: Global, types: &TypeTable, id: TypeId) -> Result<Vec<u32>, OutOfMemory>
    requires { id.0 < length types.now.terms }
    ensures list { IfOk result (λ list. list.items ≡ kept (nodes_of types.now (type_of types.now id.0))) }
    ensures within { IfOk result (λ list. length list.items ≤ 2 ^ 24) }
    ensures below { IfOk result (λ list. All (λ node. node < 2 ^ 24) list.items) }
{
    let mut list = Vec::new(alloc);
    for node in 0..node_count(types, id) {
        if has_row(types, id, node) {
            list.push(node)?;
        }
    }
    Ok(list)
}

/// A row for each node of a type, from `first` on; `none` for a node without one.
pub fn row_list(
    alloc: Global,
    types: &TypeTable,
    id: TypeId,
    first: u32,
    none: u32,
) -> Result<Listing<u32>, OutOfMemory>
    requires id { id.0 < length types.now.terms }
    requires first { first ≤ 2 ^ 24 }
    ensures { IfOk result (λ list. list ≡ row_list none first (nodes_of types.now (type_of types.now id.0))) }
{
    let mut list = Listing::new(alloc);
    let mut next = first;
    for node in 0..node_count(types, id) {
        if has_row(types, id, node) {
            list.push(next)?;
            next += 1;
        } else {
            list.push(none)?;
        }
    }
    Ok(list)
}
