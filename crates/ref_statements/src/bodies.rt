// The rows of statements with branches and bodies (C11 6.8.4, 6.8.5).

ghost use Rattle.std.specs.Prelude.{◌≡◌, ◌<◌, IfOk, length, ℕ, MatchOption, None, Some, find, ◌==◌};
ghost use Rattle.core_tree.specs.Seen.{core_of};
ghost use Rattle.ref_cells.specs.Answers.{Agrees, Gives};
ghost use Rattle.ref_state.specs.Values.{cell_of};
ghost use Rattle.ref_values.specs.Values.{is_true};
ghost use Rattle.ref_blocks.specs.Plans.{blocks_by, EndsKnown};
ghost use Rattle.ref_statements.specs.Statements.{if_row, branch, parts_left, asks, while_row, do_while_row, for_row};
ghost use Rattle.ref_statements.specs.Statements.{switch_row, switches_to, number_in, turns_by};
ghost use Rattle.ref_blocks.specs.Jumps.{switch_target};
ghost use Rattle.ref_statements.specs.Made.{IsWorld, change_by};

use crate::rows::{World, does_part, goes_on, is_over, left, waits};
use c_types::term::OutOfMemory;
use ref_blocks::block::Block;
use ref_blocks::jumps::{Target, blocks_with, jump};
use ref_blocks::loops::Loop;
use ref_blocks::targets::switch_target;
use ref_cells::cells::{Cell, MemFault, Reason, Value};
use ref_mem::memory::Memory;
use ref_state::doors::{Change, Doors};
use ref_state::items::Items;
use ref_state::values::cell_of;
use ref_values::values::is_true;

/// A value as a condition.
pub(crate) fn holds(value: &Value) -> Result<bool, Reason>
    ensures { Agrees (λ b. b) result (is_true (cell_of value.now)) }
{
    match cell_of(value) {
        Some(cell) => is_true(cell),
        None => Err(Reason::Unset),
    }
}

// The blocks of branches are left.
fn parts_left(
    world: &World<'_>,
    memory: &Memory,
    doors: Doors,
    branches: &[u32],
) -> Result<Doors, OutOfMemory>
    requires world { IsWorld world.now }
    requires ended { EndsKnown memory.now doors }
    ensures ended { IfOk result (λ after. EndsKnown memory.now after) }
    ensures blocks { IfOk result (λ after.
        blocks_by memory.now after ≡ parts_left (core_of world.now.trees) branches.now (blocks_by memory.now doors)) }
{
    let mut after = doors;
    for part in branches {
        after = left(world, memory, after, Block::Part(*part))?;
    }
    Ok(after)
}

// The branch that is taken, if there is one.
fn branch(yes: bool, branches: &[u32]) -> &[u32]
    ensures { result.now ≡ branch yes branches.now }
{
    if yes {
        match branches {
            [_, ..] => &branches[..1],
            [] => &[],
        }
    } else {
        match branches {
            [_, _, ..] => &branches[1..2],
            _ => &[],
        }
    }
}

/// If: the condition's value is there, or the branch is done.
pub fn if_row(
    world: &World<'_>,
    memory: &Memory,
    doors: Doors,
    n: u32,
    children: &[u32],
    values: &[(u32, Value)],
) -> Result<Change, MemFault>
    requires world { IsWorld world.now }
    requires ended { EndsKnown memory.now doors }
    ensures { Gives (change_by memory.now) result
        (if_row (core_of world.now.trees) (blocks_by memory.now doors) n children.now values.now) }
{
    let [_, branches @ ..] = children else {
        return Err(MemFault::Stop(Reason::Mismatch));
    };
    let [v, ..] = values else {
        let doors = parts_left(world, memory, doors, branches)?;
        return is_over(world, memory, doors, n);
    };
    let yes = holds(&v.1)?;
    match branch(yes, branches) {
        [part, ..] => does_part(world, memory, doors, n, &[], *part),
        [] => is_over(world, memory, doors, n),
    }
}

// The next turn begins, or the loop ends, by the value of its condition.
fn turns(
    world: &World<'_>,
    memory: &Memory,
    doors: Doors,
    n: u32,
    operands: &[u32],
    part: u32,
    condition: &Value,
) -> Result<Change, MemFault>
    requires world { IsWorld world.now }
    requires ended { EndsKnown memory.now doors }
    ensures { Gives (change_by memory.now) result
        (turns_by (core_of world.now.trees) (blocks_by memory.now doors) n operands.now part (cell_of condition.now)) }
{
    let yes = holds(condition)?;
    if yes {
        does_part(world, memory, doors, n, operands, part)
    } else {
        is_over(world, memory, doors, n)
    }
}

// After its body a loop waits for its condition.
fn asks(
    world: &World<'_>,
    memory: &Memory,
    doors: Doors,
    n: u32,
    part: u32,
    c: u32,
) -> Result<Change, MemFault>
    requires world { IsWorld world.now }
    requires ended { EndsKnown memory.now doors }
    ensures { Gives (change_by memory.now) result (asks (core_of world.now.trees) (blocks_by memory.now doors) n part c) }
{
    let doors = left(world, memory, doors, Block::Part(part))?;
    let item = waits(world.alloc, n, &[c])?;
    goes_on(world.alloc, doors, item)
}

/// While: the condition's value is there, or the body is done.
pub fn while_row(
    world: &World<'_>,
    memory: &Memory,
    doors: Doors,
    n: u32,
    children: &[u32],
    values: &[(u32, Value)],
) -> Result<Change, MemFault>
    requires world { IsWorld world.now }
    requires ended { EndsKnown memory.now doors }
    ensures { Gives (change_by memory.now) result
        (while_row (core_of world.now.trees) (blocks_by memory.now doors) n children.now values.now) }
{
    let [c, part] = children else {
        return Err(MemFault::Stop(Reason::Mismatch));
    };
    match values {
        [] => asks(world, memory, doors, n, *part, *c),
        [v, ..] => turns(world, memory, doors, n, &[], *part, &v.1),
    }
}

/// DoWhile: the condition's value is there.
pub fn do_while_row(
    world: &World<'_>,
    memory: &Memory,
    doors: Doors,
    n: u32,
    children: &[u32],
    values: &[(u32, Value)],
) -> Result<Change, MemFault>
    requires world { IsWorld world.now }
    requires ended { EndsKnown memory.now doors }
    ensures { Gives (change_by memory.now) result
        (do_while_row (core_of world.now.trees) (blocks_by memory.now doors) n children.now values.now) }
{
    let [part, c] = children else {
        return Err(MemFault::Stop(Reason::Mismatch));
    };
    match values {
        [] => Err(MemFault::Stop(Reason::Mismatch)),
        [v, ..] => turns(world, memory, doors, n, &[*c], *part, &v.1),
    }
}

// The value of a node, where it is among those that are there.
fn found(values: &[(u32, Value)], n: u32) -> Option<&Value>
    ensures { MatchOption result
        (find (λ v. v.0 == n) values.now ≡ None)
        (λ value. find (λ v. v.0 == n) values.now ≡ Some (n, value.now)) }
{
    for entry in values {
        if entry.0 == n {
            return Some(&entry.1);
        }
    }
    None
}

/// For: the condition's value is there, or that of what it does after a turn, or none.
pub fn for_row(
    world: &World<'_>,
    memory: &Memory,
    doors: Doors,
    n: u32,
    parts: Loop<'_>,
    values: &[(u32, Value)],
) -> Result<Change, MemFault>
    requires world { IsWorld world.now }
    requires ended { EndsKnown memory.now doors }
    ensures { Gives (change_by memory.now) result
        (for_row (core_of world.now.trees) (blocks_by memory.now doors) n
        parts.entry.condition.now parts.entry.after.now parts.entry.body.now values.now) }
{
    let [part] = parts.body else {
        return Err(MemFault::Stop(Reason::Mismatch));
    };
    match parts.condition {
        [] => {
            let doors = left(world, memory, doors, Block::Part(*part))?;
            does_part(world, memory, doors, n, parts.after, *part)
        }
        [c, ..] => match found(values, *c) {
            Some(value) => turns(world, memory, doors, n, parts.after, *part, value),
            None => asks(world, memory, doors, n, *part, *c),
        },
    }
}

// The number of a value.
fn number_in(value: &Value) -> Result<i128, Reason>
    ensures { Agrees (λ n. n) result (number_in (cell_of value.now)) }
{
    match cell_of(value) {
        Some(Cell::Number(x)) => Ok(*x),
        Some(Cell::Unset) | None => Err(Reason::Unset),
        Some(_) => Err(Reason::Mismatch),
    }
}

/// Switch: the value is there, or the body is done.
pub fn switch_row(
    world: &World<'_>,
    memory: &Memory,
    items: &Items,
    doors: Doors,
    n: u32,
    children: &[u32],
    values: &[(u32, Value)],
) -> Result<Change, MemFault>
    requires world { IsWorld world.now }
    requires ended { EndsKnown memory.now doors }
    requires node { n < length world.now.trees.nodes.now }
    ensures { Gives (change_by memory.now) result
        (switch_row (core_of world.now.trees) items.now (blocks_by memory.now doors) n children.now values.now) }
{
    let [_, part] = children else {
        return Err(MemFault::Stop(Reason::Mismatch));
    };
    let [v, ..] = values else {
        let doors = left(world, memory, doors, Block::Part(*part))?;
        return is_over(world, memory, doors, n);
    };
    let x = number_in(&v.1)?;
    switches_to(world, memory, items, doors, n, x)
}

// A switch goes to the case of a number, or ends.
fn switches_to(
    world: &World<'_>,
    memory: &Memory,
    items: &Items,
    doors: Doors,
    n: u32,
    x: i128,
) -> Result<Change, MemFault>
    requires world { IsWorld world.now }
    requires ended { EndsKnown memory.now doors }
    requires node { n < length world.now.trees.nodes.now }
    ensures { Gives (change_by memory.now) result
        (switches_to (core_of world.now.trees) items.now (blocks_by memory.now doors) n
        (switch_target world.now.trees.nodes.now n x)) }
{
    let Some(t) = switch_target(&world.trees, world.plan, n, x) else {
        return is_over(world, memory, doors, n);
    };
    let inside = blocks_with(world.alloc, &world.trees, world.plan, n)?;
    let target = Target {
        inside: inside.as_slice(),
        over: n,
        node: t,
    };
    let change = jump(
        world.alloc,
        &world.trees,
        world.plan,
        memory,
        items,
        doors,
        target,
    )?;
    Ok(change)
}
