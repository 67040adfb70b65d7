//! Tags of one label that are told apart by their member lists, round by round, until no list tells more.

ghost use Rattle.std.specs.Prelude.{◌≡◌, ◌<◌, ◌≤◌, ◌+◌, ◌^◌, ℕ, None, All, IfOk, IfSome, length, map};
ghost use Rattle.std.specs.List.{slice_index_or};
ghost use Rattle.link_merge.specs.Counted.{AreOfTags};
ghost use Rattle.link_merge.specs.Keys.{keys_of, AllStand};
ghost use Rattle.link_merge.specs.Classes.{AreClasses, AreCollected, AreRoundKeys, IsRefined, IsRound, IsSettled};
ghost use Rattle.link_model.specs.link_types.Leaders.{AreLeaders};
ghost use Rattle.link_merge.specs.Kids.{all_kids, IsTold};
ghost use Rattle.link_merge.specs.Parted.{lists_of};

use crate::index::leaders_of_keys;
use crate::keys::{first_ids, tag_key};
use crate::kids::{kids_of, type_nodes};
use crate::spread::spread;
use c_types::table::TypeTable;
use core_tree::Unit;
use link_model::Item;
use link_model::link_types::join::joined;
use link_model::link_types::leaders::numbered;
use pta_base::OutOfMemory;
use std::alloc::Global;

// The keys of all tags, given the first of the same type for each type of the table of this round.
fn tag_keys(
    alloc: Global,
    units: &[Unit],
    type_starts: &[u32],
    firsts: &[u32],
    tags: &[Item],
    counted: &[Option<u32>],
    leaders: &[u32],
) -> Result<Vec<Option<Vec<u64>>>, OutOfMemory>
    requires tags { AreOfTags units.now tags.now }
    requires counted { (g : ℕ) → g < length counted.now → IfSome (slice_index_or counted.now g None) (λ k. k < length tags.now) }
    requires many { length counted.now ≡ length leaders.now }
    requires stand { AllStand units.now type_starts.now (length firsts.now) }
    ensures { IfOk result (λ list.
        AreRoundKeys units.now type_starts.now firsts.now tags.now counted.now leaders.now (keys_of list.items)) }
{
    let mut list = Vec::new(alloc);
    for (here, leader) in leaders.iter().enumerate() {
        let one = counted[here];
        let key = tag_key(alloc, units, type_starts, firsts, tags, *leader, one)?;
        list.push(Some(key))?;
    }
    Ok(list)
}

// The leaders of all tags, told apart by the lists that count, in the table of this round.
fn refined(
    alloc: Global,
    units: &[Unit],
    type_starts: &[u32],
    types: &TypeTable,
    tags: &[Item],
    counted: &[Option<u32>],
    leaders: &[u32],
) -> Result<Vec<u32>, OutOfMemory>
    requires tags { AreOfTags units.now tags.now }
    requires counted { (g : ℕ) → g < length counted.now → IfSome (slice_index_or counted.now g None) (λ k. k < length tags.now) }
    requires many { length counted.now ≡ length leaders.now }
    requires few { length leaders.now < 2 ^ 32 }
    requires stand { AllStand units.now type_starts.now (length types.now.terms) }
    ensures { IfOk result (λ next.
        IsRefined units.now type_starts.now types.now tags.now counted.now leaders.now next.items) }
{
    let firsts = first_ids(alloc, types)?;
    let keys = tag_keys(
        alloc,
        units,
        type_starts,
        firsts.as_slice(),
        tags,
        counted,
        leaders,
    )?;
    leaders_of_keys(alloc, keys.as_slice())
}

// A round: the table of all types with the numbers of the present classes, these numbers, and the leaders of the next
// round.
fn round(
    alloc: Global,
    units: &[Unit],
    type_starts: &[u32],
    tag_starts: &[u32],
    tags: &[Item],
    counted: &[Option<u32>],
    leaders: &[u32],
) -> Result<(TypeTable, Vec<u32>, Vec<u32>), OutOfMemory>
    requires collected { AreCollected units.now type_starts.now tag_starts.now tags.now counted.now }
    requires classes { AreClasses units.now tag_starts.now leaders.now }
    requires many { length leaders.now ≡ length tags.now }
    ensures { IfOk result (λ r.
        IsRound units.now type_starts.now tag_starts.now tags.now counted.now leaders.now r.1.items r.2.items r.0) }
{
    let (numbers, count) = numbered(alloc, leaders)?;
    let types = joined(alloc, units, tag_starts, numbers.as_slice(), count)?;
    let next = refined(alloc, units, type_starts, &types, tags, counted, leaders)?;
    Ok((types, numbers, next))
}

// The kids of all tags and types as nodes.
fn kids_in(
    alloc: Global,
    units: &[Unit],
    type_starts: &[u32],
    tag_starts: &[u32],
    tags: &[Item],
    counted: &[Option<u32>],
) -> Result<Vec<Vec<u32>>, OutOfMemory>
    requires { AreCollected units.now type_starts.now tag_starts.now tags.now counted.now }
    ensures { IfOk result (λ lists.
        lists_of lists.items ≡ all_kids units.now (map (λ s. length tags.now + s) type_starts.now) tag_starts.now tags.now counted.now) }
{
    let nodes = type_nodes(alloc, type_starts, tags.len() as u32)?;
    let lists = kids_of(alloc, units, nodes.as_slice(), tag_starts, tags, counted)?;
    Ok(lists)
}

// The leaders of tags that a round has told apart, spread to all tags that mention such, given the round's table and the
// leaders before and after it.
fn told(
    alloc: Global,
    types: &TypeTable,
    kids: &[Vec<u32>],
    before: &[u32],
    leaders: &[u32],
) -> Result<Vec<u32>, OutOfMemory>
    requires same { length leaders.now ≡ length before.now }
    requires few { length leaders.now < 2 ^ 32 }
    requires lead { AreLeaders leaders.now }
    ensures { IfOk result (λ list. IsTold types.now leaders.now (lists_of kids.now) list.items) }
{
    let firsts = first_ids(alloc, types)?;
    let list = spread(alloc, kids, before, leaders, firsts.as_slice())?;
    Ok(list)
}

/// The numbers of tags under which the structures and unions that are one type have one number, and the table of all
/// types with these numbers, without lists. The tags are told apart by the lists that count until no list tells more. A round
/// goes over all types; what it tells apart is spread through the classes of which some type or tag changed its class, so that
/// the next round finds nothing more.
pub fn settled(
    alloc: Global,
    units: &[Unit],
    type_starts: &[u32],
    tag_starts: &[u32],
    tags: &[Item],
    counted: &[Option<u32>],
    first: Vec<u32>,
) -> Result<(TypeTable, Vec<u32>), OutOfMemory>
    requires collected { AreCollected units.now type_starts.now tag_starts.now tags.now counted.now }
    requires classes { AreClasses units.now tag_starts.now first.items }
    requires many { length first.items ≡ length tags.now }
    ensures settled { IfOk result (λ r. IsSettled units.now type_starts.now tag_starts.now r.1.items r.0) }
    ensures many { IfOk result (λ r. length r.1.items ≡ length tags.now) }
    ensures known { IfOk result (λ r. All (λ k. k < r.0.tags) r.1.items) }
{
    let mut leaders = first;
    loop {
        let (types, numbers, next) = round(
            alloc,
            units,
            type_starts,
            tag_starts,
            tags,
            counted,
            leaders.as_slice(),
        )?;
        if next.as_slice() == leaders.as_slice() {
            return Ok((types, numbers));
        }
        let kids = kids_in(alloc, units, type_starts, tag_starts, tags, counted)?;
        let before = leaders.as_slice();
        let now = told(alloc, &types, kids.as_slice(), before, next.as_slice())?;
        leaders = now;
    }
}
