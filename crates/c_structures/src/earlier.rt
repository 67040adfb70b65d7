// The members before a field, gathered anew.
ghost use Rattle.std.specs.Prelude.{◌≡◌, ◌<◌, ◌++◌, ℕ, List, Option, length, IfOk, OnOk};
ghost use Rattle.core_tree.specs.declared.node.Unit.{Unit as UnitSpec};
ghost use Rattle.c_inits.specs.Made.{Part};
ghost use Rattle.c_senses.specs.World.{World};
ghost use Rattle.c_senses.specs.Tree.{Source};
ghost use Rattle.c_senses.specs.Sense.{sense_in};
ghost use Rattle.c_senses.specs.Tags as spec;
ghost use Rattle.c_results.specs.Standing.{senses_made};
ghost use Rattle.tree_reads.specs.Sources.{source_in};
ghost use Rattle.c_structures.specs.Named.{SaysNames};
ghost use Rattle.c_structures.specs.Before.{SaysEarlier, parts_below, parts_before};

use crate::before::{Cursor, MembersBefore};
use crate::names::MemberNames;
use c_results::{Results, members_at};
use core_nodes::CheckFault;
use std::alloc::Global;
use tree_reads::{Syntax, children_of};

// The names of the members that have been made for a node more.
fn add_names(
    alloc: Global,
    names: &mut MemberNames,
    results: &Results,
    node: u32,
) -> Result<(), CheckFault>
    ensures { OnOk result ((u : UnitSpec) (w : World) (s : Source) (parts : List Part) →
        let sense = sense_in (senses_made u results.now) in
        SaysNames names.old parts → SaysNames names.new (parts ++ spec.members_in_sense w s sense (sense node))) }
{
    if let Some(members) = members_at(results, node) {
        names.add_all(alloc, members)?;
    }
    Ok(())
}

// The names of the members of those nodes of a list that are below a number.
fn names_below(
    alloc: Global,
    results: &Results,
    nodes: &[u32],
    below: u32,
) -> Result<MemberNames, CheckFault>
    ensures { IfOk result (λ names. (u : UnitSpec) (w : World) (s : Source) →
        SaysNames names (parts_below w s (sense_in (senses_made u results.now)) nodes.now below)) }
{
    let mut names = MemberNames::new(alloc);
    for node in nodes {
        if *node < below {
            add_names(alloc, &mut names, results, *node)?;
        }
    }
    Ok(names)
}

// The names of the members of those children of a node that are below a number.
fn names_before(
    alloc: Global,
    syntax: &Syntax,
    results: &Results,
    list: Option<u32>,
    below: u32,
) -> Result<MemberNames, CheckFault>
    ensures { IfOk result (λ names. (u : UnitSpec) (w : World) (uses : List (ℕ × ℕ)) →
        SaysNames names (parts_before w (source_in syntax.now uses) (sense_in (senses_made u results.now)) list below)) }
{
    match list {
        Some(list) => names_below(alloc, results, children_of(syntax, list), below),
        None => Ok(MemberNames::new(alloc)),
    }
}

// Names behind one another.
fn both(whole: MemberNames, member: u32, part: MemberNames) -> MembersBefore
    ensures { (a b : List Part) → SaysNames whole a → SaysNames part b → SaysEarlier result (a ++ b) }
{
    MembersBefore {
        whole: Cursor {
            done: 0,
            names: whole,
        },
        member,
        part: Cursor {
            done: 0,
            names: part,
        },
    }
}

/// The members before a field in its list. They are gathered anew for each field, so the fields of a list cost about the square of their
/// number. Only memory may want.
pub fn members_before(
    alloc: Global,
    syntax: &Syntax,
    results: &Results,
    at: u32,
) -> Result<MembersBefore, CheckFault>
    requires { at < length syntax.now.tree.now.nodes.items }
    ensures { IfOk result (λ before. (u : UnitSpec) (w : World) (uses : List (ℕ × ℕ)) →
        let s = source_in syntax.now uses in
        SaysEarlier before (spec.earlier_parts w s (sense_in (senses_made u results.now)) at)) }
{
    let Some(member) = syntax.parent_of(at) else {
        return Ok(both(MemberNames::new(alloc), at, MemberNames::new(alloc)));
    };
    let whole = names_before(alloc, syntax, results, syntax.parent_of(member), member)?;
    let part = names_before(alloc, syntax, results, Some(member), at)?;
    Ok(both(whole, member, part))
}
