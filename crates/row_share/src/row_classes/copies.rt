//! The copies of a system as edges.
ghost use Rattle.std.specs.Prelude.{◌≡◌, ℕ, ◌↔◌, ◌⊎◌, Contains, OnOk, IfOk, IfSome, IfNone};
ghost use Rattle.sol_model.specs.declared.system.Constraint.TheVariants.{Copy as CopyOf};
ghost use Rattle.sol_model.specs.Systems.{IsValid};
ghost use Rattle.edge_book.specs.Leaving.{targets_of};
ghost use Rattle.row_share.specs.share_laws.Orders.{AreTargets, AreSources};

use edge_book::PairBook;
use pta_base::OutOfMemory;
use sol_model::sites::constraint_at;
use sol_model::{Constraint, System};
use std::alloc::Global;

/// The rows between which a constraint copies, if it is a copy.
fn copied(constraint: Constraint) -> Option<(u32, u32)>
    ensures some { IfSome result (λ pair. constraint ≡ CopyOf pair.0 pair.1) }
    ensures none { IfNone result ((from to : ℕ) → constraint ≡ CopyOf from to → ⊥) }
{
    match constraint {
        Constraint::Copy { from, to } => Some((from, to)),
        _ => None,
    }
}

/// Adds a constraint by the row that it leaves, if it is a copy.
fn add_copy(book: &mut PairBook, constraint: Constraint) -> Result<(), OutOfMemory>
    ensures { OnOk result ((from to : ℕ) → Contains book.new (from, to) ↔ (Contains book.old (from, to) ⊎ (constraint ≡ CopyOf from to))) }
{
    if let Some((from, to)) = copied(constraint) {
        book.add(from, to)?;
        return Ok(());
    }
    Ok(())
}

/// Adds a constraint by the row that it enters, if it is a copy.
fn add_copy_back(book: &mut PairBook, constraint: Constraint) -> Result<(), OutOfMemory>
    ensures { OnOk result ((from to : ℕ) → Contains book.new (to, from) ↔ (Contains book.old (to, from) ⊎ (constraint ≡ CopyOf from to))) }
{
    if let Some((from, to)) = copied(constraint) {
        book.add(to, from)?;
        return Ok(());
    }
    Ok(())
}

/// The copies, by the row that they leave.
pub(in crate::row_classes) fn copies(
    alloc: Global,
    system: &System,
) -> Result<PairBook, OutOfMemory>
    requires valid { IsValid system.now }
    ensures { IfOk result (λ book. AreTargets system.now (λ row. targets_of row book)) }
{
    let mut book = PairBook::new(alloc);
    for i in 0..system.constraints.len() {
        add_copy(&mut book, constraint_at(system, i))?;
    }
    Ok(book)
}

/// The copies, by the row that they enter.
pub(in crate::row_classes) fn copies_back(
    alloc: Global,
    system: &System,
) -> Result<PairBook, OutOfMemory>
    requires valid { IsValid system.now }
    ensures { IfOk result (λ book. AreSources system.now (λ row. targets_of row book)) }
{
    let mut book = PairBook::new(alloc);
    for i in 0..system.constraints.len() {
        add_copy_back(&mut book, constraint_at(system, i))?;
    }
    Ok(book)
}
