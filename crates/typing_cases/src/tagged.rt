//! New structures and unions of a table, for cases that make their types by hand.

ghost use Rattle.std.specs.Prelude.{◌<◌, ◌≤◌, IfOk, IfSome, IsTrue, length};
ghost use Rattle.c_types.specs.Table.{type_of};
ghost use Rattle.c_types.specs.Made.{HasBits};
ghost use Rattle.typing_cases.specs.tagged.Members.{Fits, AllFit};

use c_types::table::TypeTable;
use c_types::term::{MemberTerm, OutOfMemory, Term, TypeId};

// Whether a bit-field of an integer type has a width that it may have.
fn has_bits(table: &TypeTable, id: TypeId, bits: Option<u8>) -> bool
    requires { id.0 < length table.now.terms }
    ensures { IsTrue result → HasBits (type_of table.now id.0) bits }
{
    match bits {
        Some(bits) => match table.term(id) {
            Term::Integer { size, .. } => 1 <= bits && u16::from(bits) <= 8 * u16::from(*size),
            _ => false,
        },
        None => true,
    }
}

// Whether a member is of a complete type.
fn fits(table: &TypeTable, member: &MemberTerm) -> bool
    ensures { IsTrue result → Fits table.now member.now }
{
    if table.type_count() <= member.ty.0 {
        return false;
    }
    match table.size_of(member.ty) {
        Some(_) => has_bits(table, member.ty, member.bits),
        None => false,
    }
}

fn all_fit(table: &TypeTable, members: &[MemberTerm]) -> bool
    ensures { IsTrue result → AllFit table.now members.now }
{
    members.iter().all(|member| fits(table, member))
}

// A new structure of these members.
fn new_structure(table: &mut TypeTable, members: Vec<MemberTerm>) -> Result<TypeId, OutOfMemory>
    requires { AllFit table.old members.items }
    ensures id { IfOk result (λ id. id.0 < length table.new.terms) }
    ensures kept { length table.old.terms ≤ length table.new.terms }
{
    let tag = table.tag()?;
    let id = table.add(Term::Structure(tag))?;
    table.complete(tag, members)?;
    Ok(id)
}

// A new union of these members.
fn new_union(table: &mut TypeTable, members: Vec<MemberTerm>) -> Result<TypeId, OutOfMemory>
    requires { AllFit table.old members.items }
    ensures id { IfOk result (λ id. id.0 < length table.new.terms) }
    ensures kept { length table.old.terms ≤ length table.new.terms }
{
    let tag = table.tag()?;
    let id = table.add(Term::Union(tag))?;
    table.complete(tag, members)?;
    Ok(id)
}

/// A new union or structure of these members (C11 6.7.2.1); None where the type of one isn't complete, or a bit-field isn't of an integer
/// type or is wider than that. Want of memory is the one error.
pub fn add_tagged(
    table: &mut TypeTable,
    union: bool,
    members: Vec<MemberTerm>,
) -> Result<Option<TypeId>, OutOfMemory>
    ensures id { IfOk result (λ found. IfSome found (λ id. id.0 < length table.new.terms)) }
    ensures kept { length table.old.terms ≤ length table.new.terms }
{
    if !all_fit(table, members.as_slice()) {
        return Ok(None);
    }
    let id = if union {
        new_union(table, members)?
    } else {
        new_structure(table, members)?
    };
    Ok(Some(id))
}
