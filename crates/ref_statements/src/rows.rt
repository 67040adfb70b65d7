// The view of a program that rows are over, and changes of the top frame.

ghost use Rattle.std.specs.Prelude.{◌≡◌, [], ◌∷◌, IfOk, List};
ghost use Rattle.core_tree.specs.Seen.{core_of};
ghost use Rattle.ref_cells.specs.Answers.{Gives};
ghost use Rattle.ref_cells.specs.declared.instance.Instance.{Instance};
ghost use Rattle.ref_state.specs.declared.items.Item.TheVariants.{Wait};
ghost use Rattle.ref_blocks.specs.Blocks.{entered, left};
ghost use Rattle.ref_blocks.specs.Plans.{blocks_by, EndsKnown};
ghost use Rattle.ref_statements.specs.Rows.{goes_on};
ghost use Rattle.ref_statements.specs.Statements.{does_part, is_over};
ghost use Rattle.ref_statements.specs.Made.{IsWorld, change_by};

use c_types::term::OutOfMemory;
use core_tree::trees::Trees;
use pta_base::Listing;
use ref_blocks::block::Block;
use ref_blocks::blocks::{enter, leave};
use ref_blocks::plan::Plan;
use ref_cells::cells::MemFault;
use ref_mem::memory::Memory;
use ref_state::doors::{Change, Doors};
use ref_state::items::{Item, Items, wait};
use std::alloc::Global;

/// A program, with what is found of it once.
#[derive(Clone, Copy)]
pub struct World<'a> {
    pub alloc: Global,
    pub trees: Trees<'a>,
    pub plan: &'a Plan,
}

/// Blocks after that one is entered, too.
pub fn entered(
    world: &World<'_>,
    memory: &Memory,
    doors: Doors,
    block: Block,
) -> Result<Doors, OutOfMemory>
    requires world { IsWorld world.now }
    requires ended { EndsKnown memory.now doors }
    ensures ended { IfOk result (λ after. EndsKnown memory.now after) }
    ensures blocks { IfOk result (λ after.
        blocks_by memory.now after ≡ entered (core_of world.now.trees) block (blocks_by memory.now doors)) }
{
    let mut doors = doors;
    enter(
        world.alloc,
        &world.trees,
        world.plan,
        memory,
        &mut doors,
        block,
    )?;
    Ok(doors)
}

/// Blocks after that one is left, too.
pub fn left(
    world: &World<'_>,
    memory: &Memory,
    doors: Doors,
    block: Block,
) -> Result<Doors, OutOfMemory>
    requires world { IsWorld world.now }
    requires ended { EndsKnown memory.now doors }
    ensures ended { IfOk result (λ after. EndsKnown memory.now after) }
    ensures blocks { IfOk result (λ after.
        blocks_by memory.now after ≡ left (core_of world.now.trees) block (blocks_by memory.now doors)) }
{
    let mut doors = doors;
    leave(
        world.alloc,
        &world.trees,
        world.plan,
        memory,
        &mut doors,
        block,
    )?;
    Ok(doors)
}

/// A statement that waits for these operands.
pub fn waits(alloc: Global, n: u32, operands: &[u32]) -> Result<Item, OutOfMemory>
    ensures { IfOk result (λ item. item ≡ Wait n operands.now []) }
{
    let operands = Vec::from_slice(alloc, operands)?;
    Ok(wait(alloc, n, Listing::of(operands)))
}

/// The top item goes, and one comes.
pub fn goes_on(alloc: Global, doors: Doors, item: Item) -> Result<Change, MemFault>
    ensures { (memory : List Instance) → Gives (change_by memory) result (goes_on (blocks_by memory doors) (item ∷ [])) }
{
    let on = Items::one(alloc, item)?;
    Ok(Change { off: 1, on, doors })
}

/// A statement is over: its block is left.
pub fn is_over(world: &World<'_>, memory: &Memory, doors: Doors, n: u32) -> Result<Change, MemFault>
    requires world { IsWorld world.now }
    requires ended { EndsKnown memory.now doors }
    ensures { Gives (change_by memory.now) result (is_over (core_of world.now.trees) (blocks_by memory.now doors) n) }
{
    let doors = left(world, memory, doors, Block::Own(n))?;
    Ok(Change {
        off: 1,
        on: Items::new(world.alloc),
        doors,
    })
}

/// A child of a statement is done next, in a block of its own, and the statement waits for these operands.
pub fn does_part(
    world: &World<'_>,
    memory: &Memory,
    doors: Doors,
    n: u32,
    operands: &[u32],
    part: u32,
) -> Result<Change, MemFault>
    requires world { IsWorld world.now }
    requires ended { EndsKnown memory.now doors }
    ensures { Gives (change_by memory.now) result
        (does_part (core_of world.now.trees) (blocks_by memory.now doors) n operands.now part) }
{
    let doors = entered(world, memory, doors, Block::Part(part))?;
    let item = waits(world.alloc, n, operands)?;
    let mut on = Items::one(world.alloc, item)?;
    on.push(Item::Do(part))?;
    Ok(Change { off: 1, on, doors })
}
