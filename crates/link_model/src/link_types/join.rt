// All types of the units in one table.

ghost use Rattle.std.specs.Prelude.{◌≡◌, ◌<◌, ◌≤◌, ◌+◌, ◌^◌, ℕ, Bool, List, [], Some, All, IfOk, OnOk, length, map, slice_index};
ghost use Rattle.c_types.specs.Table.{Table, type_of, IsAfter, HasTag};
ghost use Rattle.c_types.specs.declared.term.Term.{Term};
ghost use Rattle.link_model.specs.link_types.Joined.{AreStarts, AreKeyed, AreJoined};
ghost use Rattle.link_model.specs.link_types.Moved.{moved_id, moved_term, AreSized, Keyed, HasTypes};

use c_types::table::TypeTable;
use c_types::term::{MemberTerm, Name, Term, TypeId, TypeList};
use core_tree::Unit;
use pta_base::OutOfMemory;
use std::alloc::Global;

// A type of a unit whose types begin at that number.
fn moved_id(id: TypeId, start: u32) -> TypeId
    requires { start + id.0 < 2 ^ 32 }
    ensures { result ≡ moved_id start id }
{
    TypeId(start + id.0)
}

// These types of a unit.
fn moved_ids(alloc: Global, ids: &[TypeId], start: u32) -> Result<TypeList, OutOfMemory>
    requires { All (λ id. start + id.0 < 2 ^ 32) ids.now }
    ensures { IfOk result (λ list. list ≡ map (moved_id start) ids.now) }
{
    let mut list = Vec::new(alloc);
    for id in ids {
        list.push(moved_id(*id, start))?;
    }
    Ok(TypeList::from_items(list))
}

// A term of a unit, with the types and tags of the table.
fn moved_term(alloc: Global, term: &Term, start: u32, tags: &[u32]) -> Result<Term, OutOfMemory>
    requires types { (count : ℕ) × IsAfter count term.now × (start + count ≤ 2 ^ 32) }
    requires tags { HasTag (length tags.now) term.now }
    ensures { IfOk result (λ t. t ≡ moved_term start (λ k. slice_index tags.now k) term.now) }
{
    Ok(match term {
        Term::Void => Term::Void,
        Term::Bool => Term::Bool,
        Term::Integer { size, rank, signed } => Term::Integer {
            size: *size,
            rank: *rank,
            signed: *signed,
        },
        Term::Floating => Term::Floating,
        Term::VaList => Term::VaList,
        Term::Pointer(to) => Term::Pointer(moved_id(*to, start)),
        Term::Array { of, length } => Term::Array {
            of: moved_id(*of, start),
            length: *length,
        },
        Term::Function {
            result,
            parameters,
            form,
        } => Term::Function {
            result: moved_id(*result, start),
            parameters: moved_ids(alloc, parameters.as_slice(), start)?,
            form: *form,
        },
        Term::Structure(tag) => Term::Structure(tags[*tag as usize]),
        Term::Union(tag) => Term::Union(tags[*tag as usize]),
    })
}

// A term of a unit, whose types begin at that number, behind those that are there.
fn add_moved(
    alloc: Global,
    types: &mut TypeTable,
    unit: &TypeTable,
    id: u32,
    start: u32,
    tags: &[u32],
) -> Result<(), OutOfMemory>
    requires id { id < length unit.now.terms }
    requires count { length types.old.terms ≡ start + id }
    requires tags { unit.now.tags ≡ length tags.now }
    requires known { All (λ k. k < types.old.tags) tags.now }
    requires keyed { (keyword : ℕ → Bool) × Keyed keyword types.old.terms
        × Keyed (λ k. keyword (slice_index tags.now k)) unit.now.terms }
    requires sized { AreSized unit.now.terms }
    requires before { HasTypes types.old unit.now start (λ k. slice_index tags.now k) id }
    ensures added { OnOk result (HasTypes types.new unit.now start (λ k. slice_index tags.now k) (id + 1)) }
    ensures count { OnOk result (length types.new.terms ≡ start + (id + 1)) }
    ensures tags { OnOk result (types.new.tags ≡ types.old.tags) }
    ensures completed { OnOk result (types.new.completed ≡ types.old.completed) }
    ensures keyed { OnOk result ((keyword : ℕ → Bool) → Keyed keyword types.old.terms
        → Keyed (λ k. keyword (slice_index tags.now k)) unit.now.terms → Keyed keyword types.new.terms) }
    ensures kept { OnOk result ((i : ℕ) → i < length types.old.terms → type_of types.new i ≡ type_of types.old i) }
{
    if id >= u32::MAX - start {
        return Err(OutOfMemory);
    }
    let term = moved_term(alloc, unit.term(TypeId(id)), start, tags)?;
    match types.add(term) {
        Ok(_) => Ok(()),
        Err(_) => Err(OutOfMemory),
    }
}

// The types of a unit behind those that are there.
fn add_unit(
    alloc: Global,
    types: &mut TypeTable,
    unit: &TypeTable,
    tags: &[u32],
) -> Result<(), OutOfMemory>
    requires tags { unit.now.tags ≡ length tags.now }
    requires known { All (λ k. k < types.old.tags) tags.now }
    requires keyed { (keyword : ℕ → Bool) × Keyed keyword types.old.terms
        × Keyed (λ k. keyword (slice_index tags.now k)) unit.now.terms }
    ensures added { OnOk result
        (HasTypes types.new unit.now (length types.old.terms) (λ k. slice_index tags.now k) (length unit.now.terms)) }
    ensures count { OnOk result (length types.new.terms ≡ length types.old.terms + length unit.now.terms) }
    ensures tags { OnOk result (types.new.tags ≡ types.old.tags) }
    ensures completed { OnOk result (types.new.completed ≡ types.old.completed) }
    ensures keyed { OnOk result ((keyword : ℕ → Bool) → Keyed keyword types.old.terms
        → Keyed (λ k. keyword (slice_index tags.now k)) unit.now.terms → Keyed keyword types.new.terms) }
    ensures kept { OnOk result ((i : ℕ) → i < length types.old.terms → type_of types.new i ≡ type_of types.old i) }
{
    let start = types.type_count();
    for id in 0..unit.type_count() {
        add_moved(alloc, types, unit, id, start, tags)?;
    }
    Ok(())
}

// A table with so many tags.
fn tagged(alloc: Global, count: u32) -> Result<TypeTable, OutOfMemory>
    ensures { IfOk result (λ table. table ≡ record { terms = []; tags = count; completed = [] }) }
{
    let mut types = TypeTable::new(alloc);
    for _ in 0..count {
        match types.tag() {
            Ok(_) => {}
            Err(_) => return Err(OutOfMemory),
        }
    }
    Ok(types)
}

/// A table with so many tags and the types of all units in order, where the numbers of unit u's tags begin at
/// `tag_starts[u]`.
pub fn joined(
    alloc: Global,
    units: &[Unit],
    tag_starts: &[u32],
    numbers: &[u32],
    count: u32,
) -> Result<TypeTable, OutOfMemory>
    requires starts { AreStarts units.now tag_starts.now (length numbers.now) }
    requires known { All (λ k. k < count) numbers.now }
    requires keyed { AreKeyed units.now tag_starts.now numbers.now }
    ensures joined { IfOk result (λ table. AreJoined units.now tag_starts.now numbers.now table (length units.now)) }
    ensures tags { IfOk result (λ table. table.tags ≡ count) }
    ensures completed { IfOk result (λ table. table.completed ≡ []) }
{
    let mut types = tagged(alloc, count)?;
    for (u, unit) in units.iter().enumerate() {
        let tags = &numbers[tag_starts[u] as usize..tag_starts[u + 1] as usize];
        add_unit(alloc, &mut types, &unit.types, tags)?;
    }
    Ok(types)
}
