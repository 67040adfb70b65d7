//! What the rules demand of empty rows.
ghost use Rattle.std.specs.Prelude.{◌≡◌, ℕ, ◌↔◌, OnOk, IfOk, Contains};
ghost use Rattle.edge_book.specs.Edges.{AreApart, Gains};
ghost use Rattle.sol_model.specs.Systems.{IsValid};
ghost use Rattle.sol_model.specs.declared.system.Constraint.{Constraint};

use edge_book::PairBook;
use edge_book::gather::put;
use pta_base::OutOfMemory;
use sol_model::sites::constraint_at;
use sol_model::{Constraint, System};
use std::alloc::Global;

/// The edge of a Copy, or the fact of an Address.
fn start_constraint(
    book: &mut PairBook,
    facts: &mut Vec<(u32, u32)>,
    constraint: Constraint,
) -> Result<(), OutOfMemory>
    ensures book { OnOk result (Gains book.old book.new (λ a b. constraint ≡ Constraint.Copy a b)) }
    ensures facts { OnOk result (Gains facts.old.items facts.new.items (λ a b. constraint ≡ Constraint.Address a b)) }
    ensures once { AreApart book.old → AreApart book.new }
{
    match constraint {
        Constraint::Copy { from, to } => {
            book.add(from, to)?;
        }
        Constraint::Address { row, location } => put(facts, row, location)?,
        _ => {}
    }
    Ok(())
}

/// Adds the edges that rules demand of empty rows to a book, and gives the facts that they demand: the edges of the
/// Copy constraints, and the facts of the Address constraints. No edge stands twice in the book then, where none did.
pub fn start(
    alloc: Global,
    system: &System,
    book: &mut PairBook,
) -> Result<Vec<(u32, u32)>, OutOfMemory>
    requires { IsValid system.now }
    ensures book { OnOk result (Gains book.old book.new (λ a b. Contains system.now.constraints (Constraint.Copy a b))) }
    ensures facts { IfOk result
        (λ facts. (row location : ℕ)
        → (Contains facts.items (row, location) ↔ Contains system.now.constraints (Constraint.Address row location))) }
    ensures once { AreApart book.old → AreApart book.new }
{
    let mut facts = Vec::new(alloc);
    for i in 0..system.constraints.len() {
        start_constraint(book, &mut facts, constraint_at(system, i))?;
    }
    Ok(facts)
}
