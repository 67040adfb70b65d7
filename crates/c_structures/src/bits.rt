// Bit-fields.
ghost use Rattle.std.specs.Prelude.{◌≡◌, ◌<◌, ◌≤◌, ℕ, List, length, Some, is_some, IfOk, IfSome};
ghost use Rattle.core_tree.specs.declared.node.Unit.{Unit as UnitSpec};
ghost use Rattle.c_types.specs.Table.{type_of};
ghost use Rattle.c_senses.specs.World.{World};
ghost use Rattle.c_senses.specs.Sense.{Sense};
ghost use Rattle.c_senses.specs.Constants.{constant_in};
ghost use Rattle.c_senses.specs.Tags as spec;
ghost use Rattle.c_results.specs.Standing.{IsWithin, Rowed};
ghost use Rattle.c_conversions.specs.constant_values.Constants.{ConstantMade};
ghost use Rattle.tree_reads.specs.Sources.{source_in, source_read};
ghost use Rattle.c_structures.specs.Before.{SaysEarlier};

use crate::before::MembersBefore;
use crate::fields::{is_new_name, named_field, one_member};
use c_results::Made;
use c_types::table::TypeTable;
use c_types::term::{Term, TypeId};
use core_nodes::CheckFault;
use core_tree::node::Unit;
use std::alloc::Global;
use tree_reads::Syntax;

// The bits of a type that bit-fields may have (C11 6.7.2.1p5).
fn bits_in(types: &TypeTable, ty: TypeId) -> Option<u8>
    requires { ty.0 < length types.now.terms }
    ensures { result ≡ spec.bits_in (type_of types.now ty.0) }
{
    let _count = types.type_count();
    match types.term(ty) {
        Term::Bool => Some(8),
        Term::Integer { size, .. } => Some(8 * *size),
        _ => None,
    }
}

// The width of a bit-field: up to the bits of its type, and 0 only without a name (C11 6.7.2.1p4).
fn width_fits(most: u8, named: bool, width: i128) -> Option<u8>
    ensures { result ≡ spec.width_fits most named width }
{
    if width < 0 || width > i128::from(most) {
        return None;
    }
    if width == 0 && named {
        return None;
    }
    Some(width as u8)
}

// A bit-field of a width, which is no member where the width is 0.
fn bit_field(
    alloc: Global,
    syntax: &Syntax,
    named: u32,
    leaf: Option<u32>,
    ty: TypeId,
    most: u8,
    width: i128,
) -> Result<Made, CheckFault>
    ensures row { (u : UnitSpec) (w : World) (sense : ℕ → Sense) →
        let s = source_read syntax.now in
        Rowed u result (spec.bit_field w s sense named (spec.field_name w s sense leaf) (type_of u.types ty.0) width most) }
    ensures within { (u : UnitSpec) → ty.0 < length u.types.terms → IfOk result (IsWithin u) }
{
    match width_fits(most, leaf.is_some(), width) {
        Some(bits) => {
            if bits == 0 {
                Ok(Made::Members(Vec::new(alloc)))
            } else {
                one_member(alloc, syntax, leaf, ty, Some(bits))
            }
        }
        None => Err(CheckFault::BadOperand(named)),
    }
}

/// The row of a field with a width (C11 6.7.2.1p4), by its name, its type and the constant that its width is. It is refused as
/// `operand` at its name, or at its colon, where its type isn't an integer type, where a member before it in its list has its name,
/// and where its width is negative, above the bits of its type, or 0 with a name.
pub(crate) fn width_field(
    alloc: Global,
    unit: &Unit,
    syntax: &Syntax,
    earlier: &MembersBefore,
    at: u32,
    leaf: Option<u32>,
    ty: TypeId,
    width: Result<i128, CheckFault>,
) -> Result<Made, CheckFault>
    requires { ty.0 < length unit.now.types.terms }
    ensures within { IfOk result (IsWithin unit.now) }
    ensures row { (w : World) (uses : List (ℕ × ℕ)) (sense : ℕ → Sense) (node : ℕ) →
        let s = source_in syntax.now uses in
        SaysEarlier earlier.now (spec.earlier_parts w s sense at) →
        ConstantMade width (constant_in w s at (sense node)) →
        Rowed unit.now result (spec.field_typed w s sense at leaf (type_of unit.now.types ty.0) (Some node)) }
{
    let named = named_field(syntax, at, leaf);
    let Some(most) = bits_in(&unit.types, ty) else {
        return Err(CheckFault::BadOperand(named));
    };
    match width {
        Ok(width) => {
            if is_new_name(syntax, earlier, leaf) {
                bit_field(alloc, syntax, named, leaf, ty, most, width)
            } else {
                Err(CheckFault::BadOperand(named))
            }
        }
        Err(fault) => Err(fault),
    }
}
