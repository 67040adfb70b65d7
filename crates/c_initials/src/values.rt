// Values of the items of an initialiser (C11 6.7.9p11, p14).
ghost use Rattle.std.specs.Prelude.{◌≡◌, ◌<◌, ℕ, List, length, slice_index, All, IfOk, IfSome, MatchOption, ⊤};
ghost use Rattle.core_tree.specs.declared.node.Unit.{Unit as UnitSpec};
ghost use Rattle.core_tree.specs.Typed.{Holds};
ghost use Rattle.c_types.specs.Table.{type_of};
ghost use Rattle.c_consts.specs.Core.{kind_of};
ghost use Rattle.c_consts.specs.Wrapped as wrapped;
ghost use Rattle.c_senses.specs.Tree.{Source};
ghost use Rattle.c_senses.specs.World.{World};
ghost use Rattle.c_senses.specs.Literals.{char_value};
ghost use Rattle.c_senses.specs.Sense.{Sense, IsCore, sense_in};
ghost use Rattle.c_senses.specs.Initialised as spec;
ghost use Rattle.core_nodes.specs.Standing.{core_at, IsReady, Builds, Made as CoreMade, Knows};
ghost use Rattle.c_conversions.specs.Constants.{HasRows};
ghost use Rattle.c_conversions.specs.constant_values.Constants.{HasConstants};
ghost use Rattle.c_results.specs.Standing.{senses_made, IsWithin};
ghost use Rattle.c_results.specs.Parts.{NodeSeen, core_in};
ghost use Rattle.tree_reads.specs.Sources.{source_read};
ghost use Rattle.c_initials.specs.Scope.{value_as};

use c_consts::converted;
use c_conversions::table::conversion;
use c_conversions::values::value;
use c_grammar::productions::ASSIGNMENT;
use c_results::{Results, node_at};
use c_types::table::TypeTable;
use c_types::term::{Term, TypeId};
use core_nodes::CheckFault;
use core_nodes::reads::{kind_of_node, place_of_node};
use core_nodes::trees::push_leaf;
use core_tree::held::Number;
use core_tree::node::{NodeKind, Unit};
use std::alloc::Global;
use tree_reads::{Syntax, child_of};

/// The core node of an initialiser's expression, where there is one.
pub(crate) fn expression_of(syntax: &Syntax, results: &Results, init: u32) -> Option<u32>
    ensures seen { (u : UnitSpec) (w : World) →
        let sense = sense_in (senses_made u results.now) in
        NodeSeen u result (core_in (spec.expression_of w (source_read syntax.now) sense init)) }
    ensures within { (u : UnitSpec) → All (IsWithin u) results.now → IfSome result (λ i. i < length u.nodes.items) }
    ensures rows { (u : UnitSpec) → All (HasConstants u) results.now → IfSome result (λ i. HasRows (core_at u i)) }
{
    match child_of(syntax, ASSIGNMENT, init) {
        Some(child) => node_at(results, child),
        None => None,
    }
}

// The bytes of a string; of another node none.
fn text_bytes(unit: &Unit, node: u32) -> &[u8]
    requires ready { IsReady unit.now }
    requires node { node < length unit.now.nodes.items }
    ensures { (w : World) (s : Source) (sense : ℕ → Sense) →
        result.now ≡ spec.text_bytes w s sense (kind_of (core_at unit.now node)) }
{
    match kind_of_node(unit, node) {
        NodeKind::Text(bytes) => bytes.as_slice(),
        _ => &[],
    }
}

// A byte as a char, which is signed (C11 6.2.5p15).
fn as_char(byte: u8) -> i128
    ensures { result ≡ char_value byte }
{
    if byte < 128 {
        byte as i128
    } else {
        byte as i128 - 256
    }
}

// The character in a position of a string, from 0; past its bytes it is 0.
fn character_in(bytes: &[u8], position: u64) -> i128
    ensures { result ≡ char_value (slice_index bytes.now position) }
{
    match bytes.get(position as usize) {
        Some(byte) => as_char(*byte),
        None => as_char(0),
    }
}

// A number as one of an integer type; None for another type.
fn number_as(types: &TypeTable, ty: TypeId, value: i128) -> Option<i128>
    requires { ty.0 < length types.now.terms }
    ensures { let t = type_of types.now ty.0 in
        MatchOption result ⊤ (λ n. (n ≡ wrapped.converted t value) × Holds t n) }
{
    match types.term(ty) {
        Term::Bool => Some(converted(value, &Term::Bool)),
        Term::Integer { size, rank, signed } => Some(converted(
            value,
            &Term::Integer {
                size: *size,
                rank: *rank,
                signed: *signed,
            },
        )),
        _ => None,
    }
}

/// The character in a position of a string as a number of a type. A string fills arrays of characters alone: for another type memory is
/// said to want.
pub(crate) fn character(
    alloc: Global,
    unit: &mut Unit,
    node: u32,
    position: u64,
    ty: TypeId,
) -> Result<u32, CheckFault>
    requires ready { IsReady unit.old }
    requires node { node < length unit.old.nodes.items }
    requires ty { ty.0 < length unit.old.types.terms }
    ensures ready { IsReady unit.new }
    ensures builds { Builds unit.old unit.new }
    ensures within { IfOk result (λ i. i < length unit.new.nodes.items) }
    ensures rows { IfOk result (λ i. HasRows (core_at unit.new i)) }
    ensures made { (w : World) (s : Source) (sense : ℕ → Sense) →
        let c = IsCore (core_at unit.old node) in
        CoreMade unit.new result (spec.character_core w s sense c (type_of unit.old.types ty.0) position) }
{
    let place = place_of_node(unit, node);
    let value = character_in(text_bytes(unit, node), position);
    match number_as(&unit.types, ty, value) {
        Some(number) => push_leaf(alloc, unit, NodeKind::Number(Number::of(number)), place, ty),
        None => Err(CheckFault::OutOfMemory),
    }
}

/// The value of an initialiser's expression as one of a type (C11 6.7.9p11): it is converted as by an assignment, and refused at the
/// initialiser where it isn't.
pub(crate) fn expression(
    alloc: Global,
    unit: &mut Unit,
    init: u32,
    node: u32,
    ty: TypeId,
) -> Result<u32, CheckFault>
    requires ready { IsReady unit.old }
    requires node { node < length unit.old.nodes.items }
    requires rows { HasRows (core_at unit.old node) }
    requires ty { ty.0 < length unit.old.types.terms }
    ensures ready { IsReady unit.new }
    ensures builds { Builds unit.old unit.new }
    ensures within { IfOk result (λ i. i < length unit.new.nodes.items) }
    ensures rows { IfOk result (λ i. HasRows (core_at unit.new i)) }
    ensures made { (w : World) →
        Knows w unit.old →
        CoreMade unit.new result (value_as w init (core_at unit.old node) (type_of unit.old.types ty.0)) }
{
    match value(alloc, unit, init, node) {
        Ok(v) => conversion(alloc, unit, false, init, v, ty),
        Err(fault) => Err(fault),
    }
}
