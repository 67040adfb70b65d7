//! Which constraints read which rows.
ghost use Rattle.std.specs.Prelude.{◌≡◌, ℕ, ◌⊎◌, ◌↔◌, ◌<◌, OnOk, IfOk, Some, Contains, length, slice_get};
ghost use Rattle.edge_book.specs.Edges.{Gains};
ghost use Rattle.sol_model.specs.declared.system.CallSite.{CallSite};
ghost use Rattle.sol_model.specs.Rules.{argument_row};
ghost use Rattle.sol_model.specs.Systems.{IsValid};
ghost use Rattle.new_members.specs.News.{IsReader};

use edge_book::PairBook;
use pta_base::OutOfMemory;
use sol_model::sites::{call_at, constraint_at, first_row, rows_at};
use sol_model::{Constraint, System};
use std::alloc::Global;

/// A row, with the number of a constraint that reads it.
fn put_reader(readers: &mut PairBook, row: u32, number: u32) -> Result<(), OutOfMemory>
    ensures { OnOk result (Gains readers.old readers.new (λ a b. (a ≡ row) × (b ≡ number))) }
{
    readers.add(row, number)?;
    Ok(())
}

/// The rows that the rule of a call reads: those of its callee and of its arguments.
fn put_call_readers(
    readers: &mut PairBook,
    system: &System,
    call: u32,
    number: u32,
) -> Result<(), OutOfMemory>
    requires valid { IsValid system.now }
    requires call { call < length system.now.calls }
    ensures { (site : CallSite)
        → slice_get system.now.calls call ≡ Some site
        → OnOk result
        (Gains readers.old readers.new (λ a b. ((a ≡ site.callee) ⊎ ((k : ℕ) × (argument_row site k ≡ Some a))) × (b ≡ number))) }
{
    let site = call_at(system, call as usize);
    put_reader(readers, site.callee, number)?;
    for i in 0..site.arguments.len() {
        let rows = rows_at(system, site.arguments.as_slice(), i);
        if let Some(row) = first_row(system, rows) {
            put_reader(readers, row, number)?;
        }
    }
    Ok(())
}

/// The rows that the rule of a constraint reads.
fn put_readers(readers: &mut PairBook, system: &System, number: u32) -> Result<(), OutOfMemory>
    requires valid { IsValid system.now }
    requires number { number < length system.now.constraints }
    ensures { OnOk result (Gains readers.old readers.new (λ a b. IsReader system.now a number × (b ≡ number))) }
{
    match constraint_at(system, number as usize) {
        Constraint::Address {
            row: _,
            location: _,
        } => {}
        Constraint::Copy { from: _, to: _ } => {}
        Constraint::Load {
            pointer,
            to: _,
            ty: _,
            sub: _,
        } => put_reader(readers, pointer, number)?,
        Constraint::Store {
            pointer,
            from: _,
            ty: _,
            sub: _,
        } => put_reader(readers, pointer, number)?,
        Constraint::Field {
            from,
            to: _,
            ty: _,
            member: _,
        } => put_reader(readers, from, number)?,
        Constraint::Contents { to, from } => {
            put_reader(readers, to, number)?;
            put_reader(readers, from, number)?;
        }
        Constraint::Call { call } => put_call_readers(readers, system, call, number)?,
    }
    Ok(())
}

/// For each row the numbers of the constraints whose rules read it, as pairs of a row and a number. A system of more
/// than 2^32 constraints is past any memory.
pub fn readers(alloc: Global, system: &System) -> Result<PairBook, OutOfMemory>
    requires { IsValid system.now }
    ensures { IfOk result (λ readers. (row number : ℕ) → (Contains readers (row, number) ↔ IsReader system.now row number)) }
{
    let mut readers = PairBook::new(alloc);
    let count = system.constraints.len();
    if count > u32::MAX as usize {
        return Err(OutOfMemory);
    }
    for number in 0..count as u32 {
        put_readers(&mut readers, system, number)?;
    }
    Ok(readers)
}
