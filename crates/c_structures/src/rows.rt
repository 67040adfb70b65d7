// Rows of fields.
ghost use Rattle.std.specs.Prelude.{◌≡◌, ◌<◌, ℕ, List, Option, Some, None, Result, ℤ, length, IfOk, All};
ghost use Rattle.core_nodes.specs.declared.fault.CheckFault.{CheckFault as FaultSpec};
ghost use Rattle.c_grammar.specs.Productions.{p_conditional};
ghost use Rattle.c_types.specs.Table.{type_of};
ghost use Rattle.c_senses.specs.World.{World};
ghost use Rattle.c_senses.specs.Tree as tree;
ghost use Rattle.c_senses.specs.Sense.{Sense, sense_in};
ghost use Rattle.c_senses.specs.Tags as spec;
ghost use Rattle.core_nodes.specs.Standing.{IsReady, Knows, Builds};
ghost use Rattle.c_results.specs.Standing.{senses_made, IsWithin, Rowed};
ghost use Rattle.c_declarators.specs.Limited.{AreFlexible};
ghost use Rattle.c_conversions.specs.constant_values.Constants.{HasConstants};
ghost use Rattle.tree_reads.specs.Sources.{source_in};
ghost use Rattle.c_structures.specs.Before.{SaysEarlier};
ghost use Rattle.c_structures.specs.Widths.{WidthMade};

use crate::before::MembersBefore;
use crate::bits::width_field;
use crate::fields::plain_field;
use c_conversions::constant_values::constant_in;
use c_declarators::{declarator_child, derived, specified_child};
use c_grammar::productions::{CONDITIONAL, DECLARATOR};
use c_results::{Made, Results};
use c_types::term::TypeId;
use core_nodes::CheckFault;
use core_tree::node::Unit;
use std::alloc::Global;
use tree_reads::{Syntax, child_of};

// A field by its node, its name and its type.
#[derive(Clone, Copy)]
struct Field {
    at: u32,
    leaf: Option<u32>,
    ty: TypeId,
}

// The constant that is the width of a field, if it has one.
fn width_of(
    unit: &Unit,
    syntax: &Syntax,
    results: &Results,
    at: u32,
) -> Option<Result<i128, CheckFault>>
    requires ready { IsReady unit.now }
    requires results { All (IsWithin unit.now) results.now }
    requires rows { All (HasConstants unit.now) results.now }
    ensures { (w : World) (uses : List (ℕ × ℕ)) →
        Knows w unit.now →
        WidthMade w (source_in syntax.now uses) (sense_in (senses_made unit.now results.now)) at result }
{
    match child_of(syntax, CONDITIONAL, at) {
        Some(width) => Some(constant_in(unit, syntax, results, at, width)),
        None => None,
    }
}

// The row of a field by its type, with a width or without.
fn typed_field(
    alloc: Global,
    unit: &Unit,
    syntax: &Syntax,
    unions: &[bool],
    earlier: &MembersBefore,
    field: Field,
    width: Option<Result<i128, CheckFault>>,
) -> Result<Made, CheckFault>
    requires at { field.at < length syntax.now.tree.now.nodes.items }
    requires ty { field.ty.0 < length unit.now.types.terms }
    ensures within { IfOk result (IsWithin unit.now) }
    ensures row { (w : World) (uses : List (ℕ × ℕ)) (sense : ℕ → Sense) →
        Knows w unit.now →
        AreFlexible w unions.now →
        let s = source_in syntax.now uses in
        SaysEarlier earlier.now (spec.earlier_parts w s sense field.at) →
        WidthMade w s sense field.at width →
        Rowed unit.now result
        (spec.field_typed w s sense field.at field.leaf (type_of unit.now.types field.ty.0)
        (tree.child_of s p_conditional field.at)) }
{
    match width {
        Some(width) => width_field(
            alloc, unit, syntax, earlier, field.at, field.leaf, field.ty, width,
        ),
        None => plain_field(
            alloc, unit, syntax, unions, earlier, field.at, field.leaf, field.ty,
        ),
    }
}

/// The row of a field (C11 6.7.2.1), where the members before it in its list are `earlier`. It is refused as `operand` at the field
/// where its declaration has no type; at its name, or its colon where it has none, as `plain_field` says without a width, and with one
/// where its type isn't an integer type, where a member before has its name, and where the width is negative, above the bits of the
/// type, or 0 with a name; and by the width's own refusal where that is no integer constant.
pub fn field_row(
    alloc: Global,
    unit: &mut Unit,
    syntax: &Syntax,
    results: &Results,
    unions: &[bool],
    earlier: &MembersBefore,
    at: u32,
) -> Result<Made, CheckFault>
    requires ready { IsReady unit.old }
    requires results { All (IsWithin unit.old) results.now }
    requires rows { All (HasConstants unit.old) results.now }
    requires at { at < length syntax.now.tree.now.nodes.items }
    ensures ready { IsReady unit.new }
    ensures builds { Builds unit.old unit.new }
    ensures within { IfOk result (IsWithin unit.new) }
    ensures row { (w : World) (uses : List (ℕ × ℕ)) →
        Knows w unit.old →
        AreFlexible w unions.now →
        let s = source_in syntax.now uses in
        let sense = sense_in (senses_made unit.old results.now) in
        SaysEarlier earlier.now (spec.earlier_parts w s sense at) → Rowed unit.new result (spec.field_row w s sense at) }
{
    let Some(member) = syntax.parent_of(at) else {
        return Err(CheckFault::BadOperand(at));
    };
    let Some(base) = specified_child(syntax, results, member) else {
        return Err(CheckFault::BadOperand(at));
    };
    let width = width_of(unit, syntax, results, at);
    let Some((leaf, steps)) = declarator_child(syntax, results, DECLARATOR, at) else {
        let field = Field {
            at,
            leaf: None,
            ty: base,
        };
        return typed_field(alloc, unit, syntax, unions, earlier, field, width);
    };
    let Ok(ty) = derived(alloc, unit, steps, base) else {
        return Err(CheckFault::OutOfMemory);
    };
    typed_field(
        alloc,
        unit,
        syntax,
        unions,
        earlier,
        Field { at, leaf, ty },
        width,
    )
}
