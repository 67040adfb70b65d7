// Constants and strings (C11 6.4.4, 6.4.5, 6.5.1).
ghost use Rattle.std.specs.Prelude.{◌≡◌, ◌<◌, ◌^◌, length, IfOk, List, ℕ, pos};
ghost use Rattle.core_tree.specs.declared.node.NodeKind.TheVariants.{Number};
ghost use Rattle.core_tree.specs.Rows.{int};
ghost use Rattle.c_consts.specs.Core.{leaf};
ghost use Rattle.c_senses.specs.Given.{Fits};
ghost use Rattle.c_senses.specs.Literals.{value_of_integer, type_of_integer, value_of_character};
ghost use Rattle.c_senses.specs.Tree.{place_at, spelling_at};
ghost use Rattle.core_nodes.specs.Standing.{IsReady, Builds, Made};
ghost use Rattle.c_senses.specs.Objects.{text_core};
ghost use Rattle.expression_rows.specs.c_rows.Literals.{built_integer, character_core, built_text};
ghost use Rattle.expression_rows.specs.c_rows.Pieces.{piece_at, pieces, PieceAdded, AreGathered};
ghost use Rattle.tree_reads.specs.Sources.{source_read};

use c_literals::{character_value, integer_constant, is_in_range, is_narrow, push_string};
use c_types::term::Term;
use core_nodes::CheckFault;
use core_nodes::trees::{add_type, int_type, push_leaf};
use core_tree::held;
use core_tree::node::{NodeKind, Unit};
use pta_base::{Kind, Listing, Place};
use std::alloc::Global;
use tree_reads::{Syntax, place_of, spelling_of};

// The number of an integer constant, in its type.
fn integer_node(
    alloc: Global,
    unit: &mut Unit,
    place: Place,
    bytes: &[u8],
) -> Result<u32, CheckFault>
    requires ready { IsReady unit.old }
    requires range { value_of_integer bytes.now < 2 ^ 64 }
    ensures ready { IsReady unit.new }
    ensures builds { Builds unit.old unit.new }
    ensures within { IfOk result (λ i. i < length unit.new.nodes.items) }
    ensures made { Made unit.new result
        (Fits (leaf (Number (pos (value_of_integer bytes.now))) place (type_of_integer bytes.now))) }
{
    let constant = integer_constant(bytes);
    let ty = add_type(unit, constant.ty.term())?;
    let value = i128::from(constant.value);
    push_leaf(
        alloc,
        unit,
        NodeKind::Number(held::Number::of(value)),
        place,
        ty,
    )
}

/// An integer constant (C11 6.4.4.1). One of 2^64 or more isn't built.
pub fn integer(
    alloc: Global,
    unit: &mut Unit,
    syntax: &Syntax,
    at: u32,
    first: u32,
) -> Result<u32, CheckFault>
    requires ready { IsReady unit.old }
    ensures ready { IsReady unit.new }
    ensures builds { Builds unit.old unit.new }
    ensures within { IfOk result (λ i. i < length unit.new.nodes.items) }
    ensures made { Made unit.new result
        (built_integer at (place_at (source_read syntax.now) first) (spelling_at (source_read syntax.now) first)) }
{
    let bytes = spelling_of(syntax, first);
    if !is_in_range(bytes) {
        return Err(CheckFault::Unsupported(Kind::NotBuilt, at));
    }
    let place = place_of(syntax, first);
    integer_node(alloc, unit, place, bytes)
}

// The number of a character constant, which is an int.
fn character_node(
    alloc: Global,
    unit: &mut Unit,
    place: Place,
    bytes: &[u8],
) -> Result<u32, CheckFault>
    requires ready { IsReady unit.old }
    ensures ready { IsReady unit.new }
    ensures builds { Builds unit.old unit.new }
    ensures within { IfOk result (λ i. i < length unit.new.nodes.items) }
    ensures made { Made unit.new result (Fits (character_core place bytes.now)) }
{
    let int = int_type(unit)?;
    let value = i128::from(character_value(bytes));
    push_leaf(
        alloc,
        unit,
        NodeKind::Number(held::Number::of(value)),
        place,
        int,
    )
}

/// A character constant (C11 6.4.4.4).
pub fn character(
    alloc: Global,
    unit: &mut Unit,
    syntax: &Syntax,
    first: u32,
) -> Result<u32, CheckFault>
    requires ready { IsReady unit.old }
    ensures ready { IsReady unit.new }
    ensures builds { Builds unit.old unit.new }
    ensures within { IfOk result (λ i. i < length unit.new.nodes.items) }
    ensures made { Made unit.new result
        (Fits (character_core (place_at (source_read syntax.now) first) (spelling_at (source_read syntax.now) first))) }
{
    let place = place_of(syntax, first);
    character_node(alloc, unit, place, spelling_of(syntax, first))
}

// Adds the bytes of one string literal.
fn add_piece(text: &mut Vec<u8>, syntax: &Syntax, at: u32, leaf: u32) -> Result<(), CheckFault>
    ensures { PieceAdded text.old.items text.new.items result at (piece_at (source_read syntax.now) leaf) }
{
    let bytes = spelling_of(syntax, leaf);
    if !is_narrow(bytes) {
        return Err(CheckFault::Unsupported(Kind::NotBuilt, at));
    }
    push_string(text, bytes)?;
    Ok(())
}

// The bytes of string literals side by side, one after another.
fn gathered(
    alloc: Global,
    syntax: &Syntax,
    at: u32,
    leaves: &[u32],
) -> Result<Listing<u8>, CheckFault>
    ensures { AreGathered result at (pieces (source_read syntax.now) leaves.now) }
{
    let mut text = Vec::new(alloc);
    for leaf in leaves {
        match add_piece(&mut text, syntax, at, *leaf) {
            Ok(()) => {}
            Err(fault) => return Err(fault),
        }
    }
    Ok(Listing::of(text))
}

/// An array of bytes and a closing zero.
pub fn text_node(
    alloc: Global,
    unit: &mut Unit,
    place: Place,
    text: Listing<u8>,
) -> Result<u32, CheckFault>
    requires ready { IsReady unit.old }
    ensures ready { IsReady unit.new }
    ensures builds { Builds unit.old unit.new }
    ensures within { IfOk result (λ i. i < length unit.new.nodes.items) }
    ensures made { Made unit.new result (Fits (text_core place text)) }
{
    let size = text.len() as u64 + 1;
    let of = add_type(
        unit,
        Term::Integer {
            size: 1,
            rank: 1,
            signed: true,
        },
    )?;
    let ty = add_type(
        unit,
        Term::Array {
            of,
            length: Some(size),
        },
    )?;
    let text = held::HeldList::of(alloc, text.into_vec())?;
    push_leaf(alloc, unit, NodeKind::Text(text), place, ty)
}

/// String literals side by side (C11 6.4.5, 6.5.1). One with an escape of 256 or more isn't built.
pub fn string(
    alloc: Global,
    unit: &mut Unit,
    syntax: &Syntax,
    at: u32,
    first: u32,
    leaves: &[u32],
) -> Result<u32, CheckFault>
    requires ready { IsReady unit.old }
    ensures ready { IsReady unit.new }
    ensures builds { Builds unit.old unit.new }
    ensures within { IfOk result (λ i. i < length unit.new.nodes.items) }
    ensures made { Made unit.new result
        (built_text at (place_at (source_read syntax.now) first) (pieces (source_read syntax.now) leaves.now)) }
{
    let place = place_of(syntax, first);
    match gathered(alloc, syntax, at, leaves) {
        Ok(text) => text_node(alloc, unit, place, text),
        Err(fault) => Err(fault),
    }
}
