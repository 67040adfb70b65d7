// The rows of jumps (C11 6.8.6).

ghost use Rattle.std.specs.Prelude.{◌≡◌, IfOk, length};
ghost use Rattle.core_tree.specs.Seen.{core_of};
ghost use Rattle.ref_cells.specs.Answers.{Gives};
ghost use Rattle.ref_blocks.specs.Blocks.{all_left, but_for, blocks_around};
ghost use Rattle.ref_blocks.specs.Loops.{left_next};
ghost use Rattle.ref_blocks.specs.Plans.{blocks_by, EndsKnown};
ghost use Rattle.ref_blocks.specs.Ways.{kind_at, children_at};
ghost use Rattle.ref_statements.specs.Statements.{break_row, continue_row, goto_row};
ghost use Rattle.ref_statements.specs.Made.{IsWorld, change_by};

use crate::rows::{World, waits};
use c_types::term::OutOfMemory;
use core_tree::Node;
use ref_blocks::block::Block;
use ref_blocks::blocks::{blocks_around, blocks_on, leave_others};
use ref_blocks::jumps::{Target, blocks_with, items_to, jump, meeting};
use ref_blocks::loops::left_next;
use ref_blocks::targets::label_target;
use ref_blocks::ways::Sought;
use ref_cells::cells::{MemFault, Reason};
use ref_mem::memory::Memory;
use ref_state::doors::{Change, Doors};
use ref_state::items::Items;

// The blocks around a node are left, but for some of them.
fn left_but_for(
    world: &World<'_>,
    memory: &Memory,
    doors: Doors,
    n: u32,
    kept: &[Block],
) -> Result<Doors, OutOfMemory>
    requires world { IsWorld world.now }
    requires ended { EndsKnown memory.now doors }
    ensures { IfOk result (λ after. blocks_by memory.now after
        ≡ all_left (core_of world.now.trees) (but_for (blocks_around (core_of world.now.trees) n) kept.now)
        (blocks_by memory.now doors)) }
{
    let mut doors = doors;
    let around = blocks_around(world.alloc, &world.trees, world.plan, n)?;
    leave_others(
        world.alloc,
        &world.trees,
        world.plan,
        memory,
        &mut doors,
        around.as_slice(),
        kept,
    )?;
    Ok(doors)
}

/// `break`: the loop or switch around it ends.
#[tactic(auto, unfolding(crate::specs::Statements::break_row))]
pub fn break_row(
    world: &World<'_>,
    memory: &Memory,
    items: &Items,
    doors: Doors,
    n: u32,
) -> Result<Change, MemFault>
    requires world { IsWorld world.now }
    requires ended { EndsKnown memory.now doors }
    ensures { Gives (change_by memory.now) result
        (break_row (core_of world.now.trees) items.now (blocks_by memory.now doors) n) }
{
    let Some(a) = world.plan.nearest(&world.trees, n, Sought::LoopOrSwitch) else {
        return Err(MemFault::Stop(Reason::Mismatch));
    };
    let kept = blocks_around(world.alloc, &world.trees, world.plan, a)?;
    let doors = left_but_for(world, memory, doors, n, kept.as_slice())?;
    Ok(Change {
        off: items_to(items, a),
        on: Items::new(world.alloc),
        doors,
    })
}

// What is left to a loop that goes on with its next turn.
fn next_operands(nodes: &[Node], a: u32) -> &[u32]
    ensures { result.now ≡ left_next (kind_at nodes.now a) (children_at nodes.now a) }
{
    match nodes.get(a as usize) {
        Some(node) => left_next(&node.kind, node.children.as_slice()),
        None => &[],
    }
}

/// `continue`: the loop around it goes on.
#[tactic(auto, unfolding(crate::specs::Statements::continue_row))]
pub fn continue_row(
    world: &World<'_>,
    memory: &Memory,
    items: &Items,
    doors: Doors,
    n: u32,
) -> Result<Change, MemFault>
    requires world { IsWorld world.now }
    requires ended { EndsKnown memory.now doors }
    ensures { Gives (change_by memory.now) result
        (continue_row (core_of world.now.trees) items.now (blocks_by memory.now doors) n) }
{
    let Some(a) = world.plan.nearest(&world.trees, n, Sought::LoopAlone) else {
        return Err(MemFault::Stop(Reason::Mismatch));
    };
    let kept = blocks_with(world.alloc, &world.trees, world.plan, a)?;
    let doors = left_but_for(world, memory, doors, n, kept.as_slice())?;
    let item = waits(world.alloc, a, next_operands(world.trees.nodes, a))?;
    let on = Items::one(world.alloc, item)?;
    Ok(Change {
        off: items_to(items, a),
        on,
        doors,
    })
}

/// `goto`: to the label of that name.
#[tactic(auto, unfolding(crate::specs::Statements::goto_row))]
pub fn goto_row(
    world: &World<'_>,
    memory: &Memory,
    items: &Items,
    doors: Doors,
    n: u32,
    name: &str,
) -> Result<Change, MemFault>
    requires world { IsWorld world.now }
    requires ended { EndsKnown memory.now doors }
    ensures { Gives (change_by memory.now) result
        (goto_row (core_of world.now.trees) items.now (blocks_by memory.now doors) n name.now) }
{
    let trees = &world.trees;
    let Some(t) = label_target(trees, world.plan, n, name) else {
        return Err(MemFault::Stop(Reason::Mismatch));
    };
    let from = world.plan.above(world.alloc, trees, n)?;
    let to = world.plan.above(world.alloc, trees, t)?;
    let Some(a) = meeting(trees.nodes, from.as_slice(), to.as_slice()) else {
        return Err(MemFault::Stop(Reason::Mismatch));
    };
    let inside = blocks_on(world.alloc, trees.nodes, from.as_slice())?;
    let target = Target {
        inside: inside.as_slice(),
        over: a,
        node: t,
    };
    let change = jump(world.alloc, trees, world.plan, memory, items, doors, target)?;
    Ok(change)
}
