// A unit that is right.
#![tactic(auto)]

ghost use Rattle.std.specs.Prelude.{◌≡◌, ◌++◌, List, map, IfOk, MatchResult};
ghost use Rattle.core_tree.specs.declared.node.Unit.{Unit as UnitSpec};
ghost use Rattle.core_nodes.specs.declared.fault.CheckFault.TheVariants.{OutOfMemory};
ghost use Rattle.core_nodes.specs.Standing.{IsReady};
ghost use Rattle.c_senses.specs.Tree.{Source};
ghost use Rattle.c_senses.specs.Sense.{Sense};
ghost use Rattle.c_senses.specs.Right.{Right};
ghost use Rattle.unit_finish.specs.declared.unit_parts.declared.Declared.{Declared as DeclaredSpec};
ghost use Rattle.unit_finish.specs.unit_parts.Renamed.{literals_in};
ghost use Rattle.unit_finish.specs.Complete.{IsKept, Completes, AlwaysCompletes};
ghost use Rattle.unit_finish.specs.Walked.{IsWalked, literal_entry};

use crate::completing::{Heading, complete};
use crate::keeping::Kept;
use crate::planted_nodes::plant;
use crate::unit_parts::Declared;
use c_types::table::TypeTable;
use core_nodes::CheckFault;
use core_tree::node::Unit;
use pta_base::Text;
use std::alloc::Global;

/// The unit of what was kept of the walk's nodes and names, and of what is declared at the compound literals among these nodes: its nodes
/// are made anew, as `plant` says, and the unit of those is as `complete` says. It is asked that all nodes which may be so made have such a
/// unit, and nothing of it is tested: only memory may want. Where these are what the senses of a whole tree say, it is what the tree says
/// (`Right`).
pub fn finish(
    alloc: Global,
    heading: Heading,
    types: TypeTable,
    keys: Vec<Option<Text>>,
    kept: Kept,
    literals: Vec<Declared>,
) -> Result<Unit, CheckFault>
    requires { AlwaysCompletes heading.name heading.unit types keys.items kept.nodes.items (kept.names.items ++ literals.items) }
    ensures completes { MatchResult result
        (λ u. Completes heading.name heading.unit types keys.items kept.nodes.items (kept.names.items ++ literals.items) u)
        (λ fault. fault ≡ OutOfMemory) }
    ensures right { (s : Source) (senses : List Sense) (walked : UnitSpec) (names : List DeclaredSpec) →
        IsReady walked → walked.types ≡ types → s.unit ≡ heading.unit →
        IsWalked s senses walked keys.items names →
        IsKept walked.nodes.items names kept →
        literals.items ≡ map (literal_entry s senses) (literals_in kept.nodes.items) →
        IfOk result (λ u. Right s heading.name u) }
{
    let Kept { nodes, names } = kept;
    let mut list = names;
    let mut more = literals;
    list.append(&mut more)?;
    let planted = plant(alloc, nodes, list)?;
    complete(alloc, heading, types, keys, planted.nodes, planted.list)
}
