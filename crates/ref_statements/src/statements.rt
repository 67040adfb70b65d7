// The rows of statements (C11 6.8): what is left of the top frame where one begins, and where all its operands are there.

ghost use Rattle.std.specs.Prelude.{◌≡◌, ◌<◌, All, length};
ghost use Rattle.core_tree.specs.Seen.{core_of};
ghost use Rattle.ref_cells.specs.Answers.{Gives};
ghost use Rattle.ref_blocks.specs.Plans.{blocks_by, EndsKnown};
ghost use Rattle.ref_statements.specs.Statements.{begun_row, finished_row, lone_row, return_row, returns, waits_row};
ghost use Rattle.ref_statements.specs.Made.{IsWorld, change_by};

use crate::bodies::{do_while_row, for_row, if_row, switch_row, while_row};
use crate::forms::{Form, awaited, opens};
use crate::jumping::{break_row, continue_row, goto_row};
use crate::rows::{World, does_part, entered, goes_on, is_over, waits};
use ref_blocks::block::Block;
use ref_blocks::loops::loop_of;
use ref_cells::cells::{MemFault, Reason, Value};
use ref_mem::memory::Memory;
use ref_state::doors::{Change, Doors};
use ref_state::items::{Item, Items};
use ref_state::values::value_in;
use ref_values::values::lacks;
use std::alloc::Global;

// All of the frame's items give way to a value.
fn returns(
    alloc: Global,
    memory: &Memory,
    items: &Items,
    doors: Doors,
    value: Value,
) -> Result<Change, MemFault>
    ensures { Gives (change_by memory.now) result (returns items.now (blocks_by memory.now doors) value) }
{
    let _ = memory;
    let on = Items::one(alloc, Item::Result(value))?;
    Ok(Change {
        off: items.len(),
        on,
        doors,
    })
}

// A return whose value is there.
fn return_row(
    world: &World<'_>,
    memory: &Memory,
    items: &Items,
    doors: Doors,
    n: u32,
    children: &[u32],
    values: &[(u32, Value)],
) -> Result<Change, MemFault>
    requires world { IsWorld world.now }
    requires node { n < length world.now.trees.nodes.now }
    requires children { All (λ c. c < n) children.now }
    ensures { Gives (change_by memory.now) result
        (return_row (core_of world.now.trees) items.now (blocks_by memory.now doors) children.now values.now) }
{
    let [v] = children else {
        return Err(MemFault::Stop(Reason::Mismatch));
    };
    if lacks(world.alloc, &world.trees, values, n, children)? {
        return Err(MemFault::Stop(Reason::Unset));
    }
    let value = value_in(world.alloc, values, *v)?;
    returns(world.alloc, memory, items, doors, value)
}

// A statement without operands.
fn lone_row(
    world: &World<'_>,
    memory: &Memory,
    items: &Items,
    doors: Doors,
    n: u32,
    form: Form,
    name: &str,
) -> Result<Change, MemFault>
    requires world { IsWorld world.now }
    requires ended { EndsKnown memory.now doors }
    ensures { Gives (change_by memory.now) result
        (lone_row (core_of world.now.trees) items.now (blocks_by memory.now doors) n form name.now) }
{
    match form {
        Form::Break => break_row(world, memory, items, doors, n),
        Form::Continue => continue_row(world, memory, items, doors, n),
        Form::Goto => goto_row(world, memory, items, doors, n, name),
        Form::Return => returns(world.alloc, memory, items, doors, Value::none(world.alloc)),
        Form::Compound => {
            let doors = entered(world, memory, doors, Block::Own(n))?;
            is_over(world, memory, doors, n)
        }
        _ => Ok(Change {
            off: 1,
            on: Items::new(world.alloc),
            doors,
        }),
    }
}

// A statement begins that waits for operands.
fn waits_row(
    world: &World<'_>,
    memory: &Memory,
    doors: Doors,
    n: u32,
    form: Form,
    children: &[u32],
) -> Result<Change, MemFault>
    requires world { IsWorld world.now }
    requires ended { EndsKnown memory.now doors }
    ensures { Gives (change_by memory.now) result
        (waits_row (core_of world.now.trees) (blocks_by memory.now doors) n form children.now) }
{
    let item = waits(world.alloc, n, awaited(form, children))?;
    if opens(form) {
        let doors = entered(world, memory, doors, Block::Own(n))?;
        goes_on(world.alloc, doors, item)
    } else {
        goes_on(world.alloc, doors, item)
    }
}

/// A statement begins.
pub fn begun_row(
    world: &World<'_>,
    memory: &Memory,
    items: &Items,
    doors: Doors,
    n: u32,
    form: Form,
    name: &str,
    children: &[u32],
) -> Result<Change, MemFault>
    requires world { IsWorld world.now }
    requires ended { EndsKnown memory.now doors }
    ensures { Gives (change_by memory.now) result
        (begun_row (core_of world.now.trees) items.now (blocks_by memory.now doors) n form name.now children.now) }
{
    let [first, rest @ ..] = children else {
        return lone_row(world, memory, items, doors, n, form, name);
    };
    match form {
        Form::Label => goes_on(world.alloc, doors, Item::Do(*first)),
        Form::DoWhile => {
            let doors = entered(world, memory, doors, Block::Own(n))?;
            does_part(world, memory, doors, n, rest, *first)
        }
        _ => waits_row(world, memory, doors, n, form, children),
    }
}

/// All operands of a statement are there.
pub fn finished_row(
    world: &World<'_>,
    memory: &Memory,
    items: &Items,
    doors: Doors,
    n: u32,
    form: Form,
    children: &[u32],
    values: &[(u32, Value)],
) -> Result<Change, MemFault>
    requires world { IsWorld world.now }
    requires ended { EndsKnown memory.now doors }
    requires node { n < length world.now.trees.nodes.now }
    requires children { All (λ c. c < n) children.now }
    ensures { Gives (change_by memory.now) result
        (finished_row (core_of world.now.trees) items.now (blocks_by memory.now doors) n form children.now values.now) }
{
    match form {
        Form::Compound => is_over(world, memory, doors, n),
        Form::If => if_row(world, memory, doors, n, children, values),
        Form::While => while_row(world, memory, doors, n, children, values),
        Form::DoWhile => do_while_row(world, memory, doors, n, children, values),
        Form::For { condition, after } => for_row(
            world,
            memory,
            doors,
            n,
            loop_of(condition, after, children),
            values,
        ),
        Form::Switch => switch_row(world, memory, items, doors, n, children, values),
        Form::Return => return_row(world, memory, items, doors, n, children, values),
        _ => Ok(Change {
            off: 1,
            on: Items::new(world.alloc),
            doors,
        }),
    }
}
