// The types of all cases.

ghost use Rattle.std.specs.Prelude.{◌≡◌, ◌<◌, ◌≤◌, IfOk, IsTrue, length, Some};
ghost use Rattle.c_types.specs.Table.{type_of};
ghost use Rattle.c_types.specs.Made.{HasBits};
ghost use Rattle.memory_cases.specs.case_types.Members.{Fits, AllFit};

use c_types::table::TypeTable;
use c_types::term::{MemberTerm, OutOfMemory, Term, TypeId};
use std::alloc::Global;

/// `char`.
pub const CHAR: TypeId = TypeId(0);

/// `int`.
pub const INT: TypeId = TypeId(1);

/// `void *`.
pub const POINTER: TypeId = TypeId(3);

/// `char[2]`.
pub const TWO_CHARS: TypeId = TypeId(4);

/// `char[4]`.
pub const FOUR_CHARS: TypeId = TypeId(5);

/// `char[6]`.
pub const SIX_CHARS: TypeId = TypeId(6);

/// `int[3]`.
pub const THREE_INTS: TypeId = TypeId(7);

/// `unsigned short`.
pub const SHORT: TypeId = TypeId(8);

/// `unsigned short[2]`.
pub const TWO_SHORTS: TypeId = TypeId(9);

/// `struct { int a; void *p; }`.
pub const RECORD: TypeId = TypeId(10);

/// `union { int i; void *p; }`.
pub const UNION: TypeId = TypeId(11);

/// `struct { int f : 3; char t[4]; }`.
pub const BITS: TypeId = TypeId(12);

/// `union { void *a; void *b; }`.
pub const POINTERS: TypeId = TypeId(13);

/// `struct { union { void *a; void *b; } v; void *d; }`.
pub const NESTED: TypeId = TypeId(14);

/// `struct { char c; union { char d; } u; }`.
pub const BYTES: TypeId = TypeId(16);

/// `struct { }`.
pub const EMPTY: TypeId = TypeId(17);

/// `union { int i; struct { } e; }`.
pub const EITHER: TypeId = TypeId(18);

/// `struct { char f : 3; char c; }`.
pub const FIELDS: TypeId = TypeId(19);

/// `struct { char c; union { struct { } e; char d; } u; }`.
pub const HOLLOW: TypeId = TypeId(21);

// Whether a bit-field of an integer type has a width that it may have.
fn has_bits(table: &TypeTable, id: TypeId, bits: Option<u8>) -> bool
    requires { id.0 < length table.now.terms }
    ensures { IsTrue result → HasBits (type_of table.now id.0) bits }
{
    match bits {
        Some(bits) => match table.term(id) {
            Term::Integer { size, .. } => 1 <= bits && u16::from(bits) <= 8 * u16::from(*size),
            _ => false,
        },
        None => true,
    }
}

// Whether a member is of a complete type.
fn fits(table: &TypeTable, member: &MemberTerm) -> bool
    ensures { IsTrue result → Fits table.now member.now }
{
    if table.type_count() <= member.ty.0 {
        return false;
    }
    match table.size_of(member.ty) {
        Some(_) => has_bits(table, member.ty, member.bits),
        None => false,
    }
}

fn all_fit(table: &TypeTable, members: &[MemberTerm]) -> bool
    ensures { IsTrue result → AllFit table.now members.now }
{
    members.iter().all(|member| fits(table, member))
}

// A new structure of these members.
fn new_structure(table: &mut TypeTable, members: Vec<MemberTerm>) -> Result<TypeId, OutOfMemory>
    requires { AllFit table.old members.items }
{
    let tag = table.tag()?;
    let id = table.add(Term::Structure(tag))?;
    table.complete(tag, members)?;
    Ok(id)
}

// A new union of these members.
fn new_union(table: &mut TypeTable, members: Vec<MemberTerm>) -> Result<TypeId, OutOfMemory>
    requires { AllFit table.old members.items }
{
    let tag = table.tag()?;
    let id = table.add(Term::Union(tag))?;
    table.complete(tag, members)?;
    Ok(id)
}

// A new structure or union of members of these types and widths; none where they don't fit.
fn add_tagged(
    alloc: Global,
    table: &mut TypeTable,
    union: bool,
    list: &[(TypeId, Option<u8>)],
) -> Result<(), OutOfMemory> {
    let mut members = Vec::new(alloc);
    for (ty, bits) in list {
        let member = MemberTerm {
            name: None,
            ty: *ty,
            bits: *bits,
        };
        if members.push(member).is_err() {
            return Err(OutOfMemory);
        }
    }
    if !all_fit(table, members.as_slice()) {
        return Ok(());
    }
    if union {
        new_union(table, members)?;
    } else {
        new_structure(table, members)?;
    }
    Ok(())
}

// An array, where its elements' type is there.
fn add_array(table: &mut TypeTable, of: TypeId, length: u64) -> Result<(), OutOfMemory> {
    if of.0 < table.type_count() {
        table.add(Term::Array {
            of,
            length: Some(length),
        })?;
    }
    Ok(())
}

// The scalars.
fn add_scalars(table: &mut TypeTable) -> Result<(), OutOfMemory> {
    table.add(Term::Integer {
        size: 1,
        rank: 1,
        signed: true,
    })?;
    table.add(Term::Integer {
        size: 4,
        rank: 4,
        signed: true,
    })?;
    let void = table.add(Term::Void)?;
    table.add(Term::Pointer(void))?;
    Ok(())
}

// What has a member without a scalar, and what has a bit-field of a byte.
fn add_hollow(alloc: Global, table: &mut TypeTable) -> Result<(), OutOfMemory> {
    add_tagged(alloc, table, false, &[])?;
    add_tagged(alloc, table, true, &[(INT, None), (EMPTY, None)])?;
    add_tagged(alloc, table, false, &[(CHAR, Some(3)), (CHAR, None)])?;
    add_tagged(alloc, table, true, &[(EMPTY, None), (CHAR, None)])?;
    add_tagged(alloc, table, false, &[(CHAR, None), (TypeId(20), None)])
}

/// The table of the types that the constants name, each at its number; want of memory is an error.
pub fn table_of_types(alloc: Global) -> Result<TypeTable, OutOfMemory> {
    let mut table = TypeTable::new(alloc);
    add_scalars(&mut table)?;
    add_array(&mut table, CHAR, 2)?;
    add_array(&mut table, CHAR, 4)?;
    add_array(&mut table, CHAR, 6)?;
    add_array(&mut table, INT, 3)?;
    table.add(Term::Integer {
        size: 2,
        rank: 3,
        signed: false,
    })?;
    add_array(&mut table, SHORT, 2)?;
    add_tagged(alloc, &mut table, false, &[(INT, None), (POINTER, None)])?;
    add_tagged(alloc, &mut table, true, &[(INT, None), (POINTER, None)])?;
    add_tagged(
        alloc,
        &mut table,
        false,
        &[(INT, Some(3)), (FOUR_CHARS, None)],
    )?;
    add_tagged(alloc, &mut table, true, &[(POINTER, None), (POINTER, None)])?;
    add_tagged(
        alloc,
        &mut table,
        false,
        &[(POINTERS, None), (POINTER, None)],
    )?;
    add_tagged(alloc, &mut table, true, &[(CHAR, None)])?;
    add_tagged(
        alloc,
        &mut table,
        false,
        &[(CHAR, None), (TypeId(15), None)],
    )?;
    add_hollow(alloc, &mut table)?;
    Ok(table)
}
