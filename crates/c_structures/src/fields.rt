// Fields.
ghost use Rattle.std.specs.Prelude.{◌≡◌, ◌<◌, ◌&&◌, ◌||◌, ◌∷◌, not, nat_lt, [], ℕ, List, length, map};
ghost use Rattle.std.specs.Prelude.{Option, Some, None, IfOk, IfSome, IsOkUnless};
ghost use Rattle.core_tree.specs.declared.node.Unit.{Unit as UnitSpec};
ghost use Rattle.c_types.specs.Table.{Table, type_of};
ghost use Rattle.c_inits.specs.Tables.{part_of};
ghost use Rattle.c_senses.specs.Given.{Fits};
ghost use Rattle.c_senses.specs.World.{World, has_name};
ghost use Rattle.c_senses.specs.Tree.{Source};
ghost use Rattle.c_senses.specs.Tree as tree;
ghost use Rattle.c_senses.specs.Sense.{Sense, IsMembers};
ghost use Rattle.c_senses.specs.Tags as spec;
ghost use Rattle.core_nodes.specs.Standing.{Knows};
ghost use Rattle.c_results.specs.Standing.{IsWithin, Rowed};
ghost use Rattle.c_declarators.specs.Limited.{AreFlexible};
ghost use Rattle.tree_reads.specs.Sources.{source_read, source_in};
ghost use Rattle.c_structures.specs.Fields.{IsElement, ends_list, fits_whole};
ghost use Rattle.c_structures.specs.Before.{SaysEarlier};

use crate::before::MembersBefore;
use crate::places::{in_union, is_last_field};
use c_declarators::ends_flexible;
use c_results::Made;
use c_types::table::TypeTable;
use c_types::term::{MemberTerm, Name, Term, TypeId};
use core_nodes::CheckFault;
use core_nodes::sorts::has_size;
use core_tree::node::Unit;
use std::alloc::Global;
use std::str::from_utf8;
use tree_reads::{Syntax, Test, children_of, first_where, spelling_of};

const SIGN_COLON: u8 = 31;

/// Whether a field has no name, or one that no member before it in its list has.
pub(crate) fn is_new_name(syntax: &Syntax, earlier: &MembersBefore, leaf: Option<u32>) -> bool
    ensures { (w : World) (sense : ℕ → Sense) (at : ℕ) →
        let s = source_read syntax.now in
        SaysEarlier earlier.now (spec.earlier_parts w s sense at) →
        result ≡ spec.is_new_name w s sense at (spec.field_name w s sense leaf) }
{
    match leaf {
        Some(leaf) => !earlier.contains(spelling_of(syntax, leaf)),
        None => true,
    }
}

// The element of an array without a length.
fn element_of(types: &TypeTable, ty: TypeId) -> Option<TypeId>
    requires { ty.0 < length types.now.terms }
    ensures element { (w : World) (s : Source) (sense : ℕ → Sense) →
        IsElement types.now result (spec.element_of w s sense (type_of types.now ty.0)) }
    ensures within { IfSome result (λ of. of.0 < length types.now.terms) }
{
    match types.term(ty) {
        Term::Array { of, length: None } => Some(*of),
        _ => None,
    }
}

// Whether a field is the last one of a structure's list, behind another member.
fn ends_list(syntax: &Syntax, at: u32, has_earlier: bool) -> bool
    requires { at < length syntax.now.tree.now.nodes.items }
    ensures { (w : World) (sense : ℕ → Sense) → result ≡ ends_list w (source_read syntax.now) sense at has_earlier }
{
    !in_union(syntax, at) && (is_last_field(syntax, at) && has_earlier)
}

// Whether an array without a length may stand there (C11 6.7.2.1p18).
fn is_flexible_end(unit: &Unit, syntax: &Syntax, at: u32, has_earlier: bool, ty: TypeId) -> bool
    requires at { at < length syntax.now.tree.now.nodes.items }
    requires ty { ty.0 < length unit.now.types.terms }
    ensures { (w : World) (sense : ℕ → Sense) →
        Knows w unit.now →
        let s = source_read syntax.now in
        has_earlier ≡ nat_lt 0 (length (spec.earlier_parts w s sense at)) →
        result ≡ spec.is_flexible_end w s sense at (type_of unit.now.types ty.0) }
{
    match element_of(&unit.types, ty) {
        Some(of) => has_size(unit, of) && ends_list(syntax, at, has_earlier),
        None => false,
    }
}

// Whether a type is complete, and no structure that ends in an array without a length, but in a union.
fn fits_whole(unit: &Unit, syntax: &Syntax, unions: &[bool], at: u32, ty: TypeId) -> bool
    requires at { at < length syntax.now.tree.now.nodes.items }
    requires ty { ty.0 < length unit.now.types.terms }
    ensures { (w : World) (sense : ℕ → Sense) →
        Knows w unit.now →
        AreFlexible w unions.now →
        result ≡ fits_whole w (source_read syntax.now) sense at (type_of unit.now.types ty.0) }
{
    has_size(unit, ty) && (in_union(syntax, at) || !ends_flexible(unit, unions, ty))
}

// Whether a member of that type may stand there (C11 6.7.2.1p3).
fn may_be_member(
    unit: &Unit,
    syntax: &Syntax,
    unions: &[bool],
    at: u32,
    has_earlier: bool,
    ty: TypeId,
) -> bool
    requires at { at < length syntax.now.tree.now.nodes.items }
    requires ty { ty.0 < length unit.now.types.terms }
    ensures { (w : World) (sense : ℕ → Sense) →
        Knows w unit.now →
        AreFlexible w unions.now →
        let s = source_read syntax.now in
        has_earlier ≡ nat_lt 0 (length (spec.earlier_parts w s sense at)) →
        result ≡ spec.may_be_member w s sense at (type_of unit.now.types ty.0) }
{
    is_flexible_end(unit, syntax, at, has_earlier, ty) || fits_whole(unit, syntax, unions, at, ty)
}

// The text of a leaf as a name. One that is no text counts as want of memory: names are letters of ASCII.
fn name_of(alloc: Global, syntax: &Syntax, leaf: u32) -> Result<Name, CheckFault>
    ensures name { IfOk result (λ name. name ≡ tree.spelling_at (source_read syntax.now) leaf) }
    ensures memory { IsOkUnless result CheckFault.OutOfMemory }
{
    match from_utf8(spelling_of(syntax, leaf)) {
        Ok(text) => {
            let text = String::from_str(alloc, text)?;
            Ok(Name::from_text(text))
        }
        Err(_) => Err(CheckFault::OutOfMemory),
    }
}

// The name of a field, if it has one.
fn field_name(alloc: Global, syntax: &Syntax, leaf: Option<u32>) -> Result<Option<Name>, CheckFault>
    ensures name { (w : World) (sense : ℕ → Sense) →
        IfOk result (λ name. name ≡ spec.field_name w (source_read syntax.now) sense leaf) }
    ensures memory { IsOkUnless result CheckFault.OutOfMemory }
{
    match leaf {
        Some(leaf) => {
            let name = name_of(alloc, syntax, leaf)?;
            Ok(Some(name))
        }
        None => Ok(None),
    }
}

/// One member.
pub(crate) fn one_member(
    alloc: Global,
    syntax: &Syntax,
    leaf: Option<u32>,
    ty: TypeId,
    bits: Option<u8>,
) -> Result<Made, CheckFault>
    ensures row { (u : UnitSpec) (w : World) (sense : ℕ → Sense) →
        Rowed u result
        (Fits
        (IsMembers
        (record { name = spec.field_name w (source_read syntax.now) sense leaf; type = type_of u.types ty.0; bits = bits }
        ∷ []))) }
    ensures within { (u : UnitSpec) → ty.0 < length u.types.terms → IfOk result (IsWithin u) }
    ensures memory { IsOkUnless result CheckFault.OutOfMemory }
{
    let name = field_name(alloc, syntax, leaf)?;
    let mut list = Vec::new(alloc);
    list.push(MemberTerm { name, ty, bits })?;
    Ok(Made::Members(list))
}

/// The node that names a field in refusals: its name, or its colon.
pub(crate) fn named_field(syntax: &Syntax, at: u32, leaf: Option<u32>) -> u32
    ensures { (w : World) (sense : ℕ → Sense) → result ≡ spec.named_field w (source_read syntax.now) sense at leaf }
{
    if let Some(leaf) = leaf {
        return leaf;
    }
    match first_where(syntax, Test::Sign(SIGN_COLON), children_of(syntax, at)) {
        Some(colon) => colon,
        None => at,
    }
}

// Whether a field without a width may stand there under its name.
fn plain_fits(
    unit: &Unit,
    syntax: &Syntax,
    unions: &[bool],
    earlier: &MembersBefore,
    at: u32,
    leaf: Option<u32>,
    ty: TypeId,
) -> bool
    requires at { at < length syntax.now.tree.now.nodes.items }
    requires ty { ty.0 < length unit.now.types.terms }
    ensures { (w : World) (sense : ℕ → Sense) →
        Knows w unit.now →
        AreFlexible w unions.now →
        let s = source_read syntax.now in
        SaysEarlier earlier.now (spec.earlier_parts w s sense at) →
        result
        ≡ (spec.may_be_member w s sense at (type_of unit.now.types ty.0)
        && spec.is_new_name w s sense at (spec.field_name w s sense leaf)) }
{
    let has_earlier = earlier.has_members();
    may_be_member(unit, syntax, unions, at, has_earlier, ty) && is_new_name(syntax, earlier, leaf)
}

/// The row of a field without a width, by its name and its type (C11 6.7.2.1), where the members before it in its list are
/// `earlier`. It is refused as `operand` at its name where it has the name of one of them, where its type is a function or is
/// incomplete and it isn't the array without a length that ends a structure of another member, and in a structure where its
/// type ends in such an array.
pub fn plain_field(
    alloc: Global,
    unit: &Unit,
    syntax: &Syntax,
    unions: &[bool],
    earlier: &MembersBefore,
    at: u32,
    leaf: Option<u32>,
    ty: TypeId,
) -> Result<Made, CheckFault>
    requires at { at < length syntax.now.tree.now.nodes.items }
    requires ty { ty.0 < length unit.now.types.terms }
    ensures within { IfOk result (IsWithin unit.now) }
    ensures row { (w : World) (uses : List (ℕ × ℕ)) (sense : ℕ → Sense) →
        Knows w unit.now →
        AreFlexible w unions.now →
        let s = source_in syntax.now uses in
        SaysEarlier earlier.now (spec.earlier_parts w s sense at) →
        Rowed unit.now result (spec.field_typed w s sense at leaf (type_of unit.now.types ty.0) None) }
{
    if plain_fits(unit, syntax, unions, earlier, at, leaf, ty) {
        one_member(alloc, syntax, leaf, ty, None)
    } else {
        Err(CheckFault::BadOperand(named_field(syntax, at, leaf)))
    }
}
