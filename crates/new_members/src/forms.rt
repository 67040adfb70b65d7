//! What the rules of the other forms of constraints demand for new members of the rows that they read.
ghost use Rattle.std.specs.Prelude.{◌≡◌, ℕ, ◌⊎◌, OnOk, All, Some, Contains, slice_get};
ghost use Rattle.edge_book.specs.Edges.{only, Gains};
ghost use Rattle.sol_model.specs.declared.system.Constraint.{Constraint};
ghost use Rattle.sol_model.specs.Families.{Has, members};
ghost use Rattle.sol_model.specs.Places.{field_of};
ghost use Rattle.sol_model.specs.Rules.{DemandsEdge, PairEdge};
ghost use Rattle.sol_model.specs.Systems.{IsValid, Fits, IsRow, IsLocation, HasMember};
ghost use Rattle.new_members.specs.News.{Takes, NewContentsEdge, NewFieldFact, NewPointerEdge};

use crate::books::add_all;
use crate::lists::{News, members_of, news_of};
use crate::pairs::put_copies;
use edge_book::PairBook;
use edge_book::gather::put;
use pta_base::OutOfMemory;
use sol_model::locations::field_of;
use sol_model::{Constraint, Rows, System};
use std::alloc::Global;

/// The edges that a Load demands for each of a list of locations.
pub(crate) fn renew_load(
    book: &mut PairBook,
    system: &System,
    constraint: u32,
    new: &[u32],
) -> Result<(), OutOfMemory>
    requires valid { IsValid system.now }
    requires load { (pointer : ℕ) × (to : ℕ) × (ty : ℕ) × (sub : ℕ)
        × (slice_get system.now.constraints constraint ≡ Some (Constraint.Load pointer to ty sub)) }
    requires new { All (IsLocation system.now) new.now }
    ensures { (pointer to ty sub : ℕ)
        → slice_get system.now.constraints constraint ≡ Some (Constraint.Load pointer to ty sub)
        → OnOk result (Takes book.old book.new (NewPointerEdge system.now pointer new.now (Constraint.Load pointer to ty sub))) }
{
    for location in new {
        book.edges_of_load(system, constraint, *location)?;
    }
    Ok(())
}

/// The edges that a Store demands for each of a list of locations.
pub(crate) fn renew_store(
    book: &mut PairBook,
    system: &System,
    constraint: u32,
    new: &[u32],
) -> Result<(), OutOfMemory>
    requires valid { IsValid system.now }
    requires store { (pointer : ℕ) × (from : ℕ) × (ty : ℕ) × (sub : ℕ)
        × (slice_get system.now.constraints constraint ≡ Some (Constraint.Store pointer from ty sub)) }
    requires new { All (IsLocation system.now) new.now }
    ensures { (pointer from ty sub : ℕ)
        → slice_get system.now.constraints constraint ≡ Some (Constraint.Store pointer from ty sub)
        → OnOk result (Takes book.old book.new (NewPointerEdge system.now pointer new.now (Constraint.Store pointer from ty sub))) }
{
    for location in new {
        book.edges_of_store(system, constraint, *location)?;
    }
    Ok(())
}

/// The facts that a Field demands for each of a list of locations.
pub(crate) fn renew_field(
    facts: &mut Vec<(u32, u32)>,
    system: &System,
    to: u32,
    ty: u32,
    member: u32,
    new: &[u32],
) -> Result<(), OutOfMemory>
    requires valid { IsValid system.now }
    requires member { HasMember system.now ty member }
    requires new { All (IsLocation system.now) new.now }
    ensures { OnOk result (Gains facts.old.items facts.new.items (NewFieldFact system.now to ty member new.now)) }
{
    for whole in new {
        if let Some(node) = field_of(system, *whole, ty, member) {
            put(facts, to, node)?;
        }
    }
    Ok(())
}

/// The edges that a Contents demands for new members of one of its rows: each new one with all of the other row.
pub(crate) fn renew_contents(
    alloc: Global,
    book: &mut PairBook,
    system: &System,
    rows: &Rows,
    to: u32,
    from: u32,
    news: &News,
) -> Result<(), OutOfMemory>
    requires valid { IsValid system.now }
    requires fits { Fits system.now rows.now }
    requires to { IsRow system.now to }
    requires from { IsRow system.now from }
    requires new { All (IsLocation system.now) news.now.new.now }
    ensures { OnOk result (Takes book.old book.new (NewContentsEdge system.now (members rows.now) to from news.now.row news.now.new.now)) }
{
    let mut pairs = Vec::new(alloc);
    let froms = members_of(alloc, system, rows, from)?;
    put_copies(
        &mut pairs,
        system,
        news_of(Some(to), news),
        froms.as_slice(),
    )?;
    let tos = members_of(alloc, system, rows, to)?;
    put_copies(
        &mut pairs,
        system,
        tos.as_slice(),
        news_of(Some(from), news),
    )?;
    add_all(book, pairs.as_slice())
}
