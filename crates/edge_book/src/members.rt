//! The edges that one constraint demands for one member of a row.
ghost use Rattle.std.specs.Prelude.{◌≡◌, ℕ, ◌<◌, Some, OnErr, IfOk, OnOk, Contains, length, slice_get};
ghost use Rattle.std.specs.List.Sorted.{IsStrictlySortedBy};
ghost use Rattle.sol_model.specs.declared.system.CallSite.{CallSite};
ghost use Rattle.sol_model.specs.Rules.{DemandsEdge};
ghost use Rattle.sol_model.specs.Systems.{IsValid, IsLocation};
ghost use Rattle.edge_book.specs.Edges.{only, pair_order, ArePairsOf, TakesPairs, TakesFirst, StaysOrTakesFirst};

use crate::PairBook;
use crate::effects::put_call;
use pta_base::OutOfMemory;
use sol_model::locations::sub_of;
use sol_model::sites::constraint_at;
use sol_model::{Constraint, System};

/// Puts pairs in order, each once. No pair comes or goes.
pub fn in_order(pairs: &mut Vec<(u32, u32)>)
    ensures order { IsStrictlySortedBy pair_order pairs.new.items }
    ensures same { (pair : ℕ × ℕ)
        → (Contains pairs.new.items pair → Contains pairs.old.items pair)
        × (Contains pairs.old.items pair → Contains pairs.new.items pair) }
{
    pairs.sort_unstable();
    pairs.dedup();
}

impl PairBook {
    /// Adds the edges that a Load demands for one location of its pointer's row, and answers how many of them are new.
    /// The constraint of that number must be a Load. After want of memory the book has the first of these edges, up to
    /// one of them.
    pub fn edges_of_load(
        &mut self,
        system: &System,
        constraint: u32,
        location: u32,
    ) -> Result<u32, OutOfMemory>
        requires valid { IsValid system.now }
        requires load { (pointer : ℕ) × (to : ℕ) × (ty : ℕ) × (sub : ℕ)
            × (slice_get system.now.constraints constraint ≡ Some (Constraint.Load pointer to ty sub)) }
        requires location { IsLocation system.now location }
        ensures ok { (pointer to ty sub : ℕ)
            → slice_get system.now.constraints constraint ≡ Some (Constraint.Load pointer to ty sub)
            → IfOk result (TakesPairs system.now (only pointer location) (Constraint.Load pointer to ty sub) self.old self.new) }
        ensures err { (pointer to ty sub : ℕ)
            → slice_get system.now.constraints constraint ≡ Some (Constraint.Load pointer to ty sub)
            → OnErr result (TakesFirst system.now (only pointer location) (Constraint.Load pointer to ty sub) self.old self.new) }
    {
        let Constraint::Load {
            pointer: _,
            to,
            ty,
            sub,
        } = constraint_at(system, constraint as usize)
        else {
            unreachable!();
        };
        match sub_of(system, location, ty, sub) {
            Some(node) => {
                let new = self.add_one(node, to)?;
                Ok(new)
            }
            None => Ok(0),
        }
    }

    /// Adds the edges that a Store demands for one location of its pointer's row, and answers how many of them are new.
    /// The constraint of that number must be a Store. After want of memory the book has the first of these edges, up to
    /// one of them.
    pub fn edges_of_store(
        &mut self,
        system: &System,
        constraint: u32,
        location: u32,
    ) -> Result<u32, OutOfMemory>
        requires valid { IsValid system.now }
        requires store { (pointer : ℕ) × (from : ℕ) × (ty : ℕ) × (sub : ℕ)
            × (slice_get system.now.constraints constraint ≡ Some (Constraint.Store pointer from ty sub)) }
        requires location { IsLocation system.now location }
        ensures ok { (pointer from ty sub : ℕ)
            → slice_get system.now.constraints constraint ≡ Some (Constraint.Store pointer from ty sub)
            → IfOk result (TakesPairs system.now (only pointer location) (Constraint.Store pointer from ty sub) self.old self.new) }
        ensures err { (pointer from ty sub : ℕ)
            → slice_get system.now.constraints constraint ≡ Some (Constraint.Store pointer from ty sub)
            → OnErr result
            (TakesFirst system.now (only pointer location) (Constraint.Store pointer from ty sub) self.old self.new) }
    {
        let Constraint::Store {
            pointer: _,
            from,
            ty,
            sub,
        } = constraint_at(system, constraint as usize)
        else {
            unreachable!();
        };
        match sub_of(system, location, ty, sub) {
            Some(node) => {
                let new = self.add_one(from, node)?;
                Ok(new)
            }
            None => Ok(0),
        }
    }

    /// Adds the edges that a call demands where its callee's row has one location and no other row has any, and answers
    /// how many of them are new. After want of memory the book is as it was, or has the first of these edges, up to one
    /// of them.
    pub fn edges_of_call(
        &mut self,
        system: &System,
        call: u32,
        location: u32,
    ) -> Result<u32, OutOfMemory>
        requires valid { IsValid system.now }
        requires call { call < length system.now.calls }
        requires location { IsLocation system.now location }
        ensures ok { (site : CallSite)
            → slice_get system.now.calls call ≡ Some site
            → IfOk result (TakesPairs system.now (only site.callee location) (Constraint.Call call) self.old self.new) }
        ensures err { (site : CallSite)
            → slice_get system.now.calls call ≡ Some site
            → OnErr result (StaysOrTakesFirst system.now (only site.callee location) (Constraint.Call call) self.old self.new) }
    {
        let mut pairs = self.no_pairs();
        put_call(&mut pairs, system, call, location)?;
        in_order(&mut pairs);
        let new = self.add_all(pairs.as_slice())?;
        Ok(new)
    }
}
