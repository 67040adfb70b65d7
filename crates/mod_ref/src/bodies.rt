//! What the nodes of functions' bodies read and write.
ghost use Rattle.std.specs.Prelude.{◌≡◌, ◌<◌, ℕ, All, OnOk, Some, length, slice_get};
ghost use Rattle.c_types.specs.Table.{type_of};
ghost use Rattle.core_tree.specs.declared.node.Node.{Node};
ghost use Rattle.sol_model.specs.Families.{members};
ghost use Rattle.row_numbers.specs.Numbers.{type_number};
ghost use Rattle.mod_ref.specs.Direct.{BodyTouches, IsAccessed, IsFilled, IsTaken, NodeTouches, OwnTouches, accessed};
ghost use Rattle.mod_ref.specs.Gains.{Gains, HasRowsFor, In};
ghost use Rattle.mod_ref.specs.Ground.{IsGround, setting_in};

use crate::access::{Access, filled_by, place_of, takes_argument};
use crate::ground::Ground;
use crate::inserting::{insert_by, insert_members, insert_under};
use core_tree::{Node, NodeKind};
use pta_base::OutOfMemory;
use row_numbers::numbers::type_number;
use row_numbers::objects::entity_key;
use sol_model::Rows;
use std::alloc::Global;

/// The number of the type at which a node reads or writes a place; that of lists is 7.
fn accessed(ground: &Ground<'_>, node: &Node) -> u32
    requires ground { IsGround ground.now }
    requires ty { node.now.ty.0 < length ground.now.program.now.types.terms }
    ensures { result ≡ type_number (accessed node.now.kind (type_of ground.now.program.now.types node.now.ty.0)) }
{
    match node.kind {
        NodeKind::NextArg => 7,
        _ => type_number(&ground.program.types, node.ty),
    }
}

/// Adds what a node reads or writes at its place.
fn add_accessed(
    alloc: Global,
    ground: &Ground<'_>,
    access: Access,
    node: &Node,
    touched: &mut Rows,
    row: u32,
) -> Result<(), OutOfMemory>
    requires ground { IsGround ground.now }
    requires ty { node.now.ty.0 < length ground.now.program.now.types.terms }
    requires children { All (λ c. c < length ground.now.program.now.nodes.items) node.now.children }
    requires rows { HasRowsFor ground.now.system.now touched.old }
    requires row { row < length ground.now.system.now.functions }
    ensures gains { OnOk result (Gains touched.old touched.new
        (In row (IsAccessed (setting_in ground.now) ground.now.system.now (members ground.now.rows.now) access node.now))) }
    ensures rows { HasRowsFor ground.now.system.now touched.new }
{
    let Some(p) = place_of(access, &node.kind, node.children.as_slice()) else {
        return Ok(());
    };
    let ty = accessed(ground, node);
    let from = ground.row(p);
    insert_by(
        alloc,
        ground.system,
        ground.rows,
        touched,
        row,
        Some(ty),
        from,
    )?;
    Ok(())
}

/// Adds the nodes of the object of the entity that a node fills.
fn add_filled(ground: &Ground<'_>, access: Access, node: &Node, touched: &mut Rows, row: u32)
    requires ground { IsGround ground.now }
    requires rows { HasRowsFor ground.now.system.now touched.old }
    requires row { row < length ground.now.system.now.functions }
    ensures gains { Gains touched.old touched.new (In row (IsFilled (setting_in ground.now) ground.now.system.now access node.now.kind)) }
    ensures rows { HasRowsFor ground.now.system.now touched.new }
{
    let Some(e) = filled_by(access, &node.kind) else {
        return;
    };
    let Some(first) = ground
        .space
        .first(entity_key(ground.program.entities.as_slice(), e))
    else {
        return;
    };
    insert_under(ground.system, touched, row, first);
}

/// Adds the arguments of which a node may take one.
fn add_taken(
    alloc: Global,
    ground: &Ground<'_>,
    access: Access,
    n: usize,
    node: &Node,
    touched: &mut Rows,
    row: u32,
) -> Result<(), OutOfMemory>
    requires ground { IsGround ground.now }
    requires node { slice_get ground.now.program.now.nodes.items n ≡ Some node.now }
    requires rows { HasRowsFor ground.now.system.now touched.old }
    requires row { row < length ground.now.system.now.functions }
    ensures gains { OnOk result (Gains touched.old touched.new
        (In row (IsTaken (setting_in ground.now) (members ground.now.rows.now) access n node.now.kind))) }
    ensures rows { HasRowsFor ground.now.system.now touched.new }
{
    if !takes_argument(access, &node.kind) {
        return Ok(());
    }
    let from = ground.list_row(n);
    insert_members(alloc, ground.system, ground.rows, touched, row, from)?;
    Ok(())
}

/// Adds what a node reads or writes.
fn add_node(
    alloc: Global,
    ground: &Ground<'_>,
    access: Access,
    n: usize,
    touched: &mut Rows,
    row: u32,
) -> Result<(), OutOfMemory>
    requires ground { IsGround ground.now }
    requires node { n < length ground.now.program.now.nodes.items }
    requires rows { HasRowsFor ground.now.system.now touched.old }
    requires row { row < length ground.now.system.now.functions }
    ensures gains { OnOk result ((node : Node) → slice_get ground.now.program.now.nodes.items n ≡ Some node →
        Gains touched.old touched.new
        (In row (NodeTouches (setting_in ground.now) ground.now.system.now (members ground.now.rows.now) access n node))) }
    ensures rows { HasRowsFor ground.now.system.now touched.new }
{
    let node = &ground.program.nodes[n];
    add_accessed(alloc, ground, access, node, touched, row)?;
    add_filled(ground, access, node, touched, row);
    add_taken(alloc, ground, access, n, node, touched, row)?;
    Ok(())
}

/// Adds what a node reads or writes to the row of the function in whose body it stands.
fn add_own(
    alloc: Global,
    ground: &Ground<'_>,
    access: Access,
    n: usize,
    touched: &mut Rows,
) -> Result<(), OutOfMemory>
    requires ground { IsGround ground.now }
    requires node { n < length ground.now.program.now.nodes.items }
    requires rows { HasRowsFor ground.now.system.now touched.old }
    ensures gains { OnOk result
        (Gains touched.old touched.new
        (OwnTouches (setting_in ground.now) ground.now.system.now (members ground.now.rows.now) access n)) }
    ensures rows { HasRowsFor ground.now.system.now touched.new }
{
    let Some(f) = ground.function_around(n) else {
        return Ok(());
    };
    add_node(alloc, ground, access, n, touched, f)?;
    Ok(())
}

/// Adds what the nodes of all bodies read or write, to the rows of their functions.
pub(crate) fn add_bodies(
    alloc: Global,
    ground: &Ground<'_>,
    access: Access,
    touched: &mut Rows,
) -> Result<(), OutOfMemory>
    requires ground { IsGround ground.now }
    requires rows { HasRowsFor ground.now.system.now touched.old }
    ensures { OnOk result
        (Gains touched.old touched.new
        (BodyTouches (setting_in ground.now) ground.now.system.now (members ground.now.rows.now) access)) }
{
    for n in 0..ground.program.nodes.len() {
        add_own(alloc, ground, access, n, touched)?;
    }
    Ok(())
}
