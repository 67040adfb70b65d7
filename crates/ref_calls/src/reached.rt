// The row of a call (C11 6.5.2.2).

ghost use Rattle.std.specs.Prelude.{◌≡◌, ◌<◌, IfOk, length, map};
ghost use Rattle.core_tree.specs.Range.{InRange};
ghost use Rattle.core_tree.specs.Seen.{core_of};
ghost use Rattle.ref_cells.specs.Answers.{Gives};
ghost use Rattle.ref_state.specs.Values.{value_in};
ghost use Rattle.ref_calls.specs.Reached.{reached};

use crate::calls::callee_of;
use c_types::key::ObjectKey;
use c_types::term::OutOfMemory;
use core_tree::trees::Trees;
use pta_base::Listing;
use ref_cells::cells::{MemFault, Reason, Value};
use ref_state::values::{cell_in, value_in};
use ref_values::values::lacks;
use std::alloc::Global;

/// A function that a call reaches, with its arguments.
#[derive(Drop)]
pub struct Target {
    pub key: ObjectKey,
    pub arguments: Listing<Value>,
}

// The values of nodes, in order.
fn values_of(
    alloc: Global,
    values: &[(u32, Value)],
    nodes: &[u32],
) -> Result<Listing<Value>, OutOfMemory>
    ensures { IfOk result (λ list. list ≡ map (value_in values.now) nodes.now) }
{
    let mut list = Listing::new(alloc);
    for n in nodes {
        list.push(value_in(alloc, values, *n)?)?;
    }
    Ok(list)
}

/// The function that a call reaches, all of whose operands have these values, with its arguments.
#[tactic(auto, unfolding(crate::specs::Reached::reached))]
pub fn reached(
    alloc: Global,
    trees: &Trees<'_>,
    n: u32,
    values: &[(u32, Value)],
) -> Result<Target, MemFault>
    requires range { InRange (core_of trees.now) }
    requires node { n < length trees.now.nodes.now }
    ensures { Gives (λ target. target) result (reached (core_of trees.now) n values.now) }
{
    let [c, arguments @ ..] = trees.nodes[n as usize].children.as_slice() else {
        return Err(MemFault::Stop(Reason::Mismatch));
    };
    let cell = cell_in(alloc, values, *c)?;
    let key = callee_of(trees, *c, arguments, &cell)?;
    if lacks(alloc, trees, values, n, arguments)? {
        return Err(MemFault::Stop(Reason::Unset));
    }
    Ok(Target {
        key,
        arguments: values_of(alloc, values, arguments)?,
    })
}
