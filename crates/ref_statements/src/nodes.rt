// What a frame's top item does: the rows of all nodes but calls.

ghost use Rattle.std.specs.Prelude.{◌≡◌, ◌<◌, [], ◌∷◌, Some, IfOk, OnErr, length, slice_get};
ghost use Rattle.core_tree.specs.Seen.{core_of};
ghost use Rattle.ref_cells.specs.Answers.{Agrees, Gives};
ghost use Rattle.ref_cells.specs.Places.{AreKnown};
ghost use Rattle.ref_elements.specs.Outcomes.{gives};
ghost use Rattle.ref_state.specs.declared.items.Item.TheVariants.{Wait};
ghost use Rattle.ref_state.specs.Items.{top_left, top_values};
ghost use Rattle.ref_state.specs.Values.{cell_of};
ghost use Rattle.ref_state.specs.Changes.{blocks_of};
ghost use Rattle.ref_values.specs.Values.{computed, is_true};
ghost use Rattle.ref_blocks.specs.Plans.{blocks_by, EndsKnown};
ghost use Rattle.ref_statements.specs.Rows.{goes_on, computes, changes};
ghost use Rattle.ref_statements.specs.Nodes.{do_row, begun_value, begun_initialiser, begun_by, wait_row, picked};
ghost use Rattle.ref_statements.specs.Nodes.{first_value, chosen, choose_row, part_left, operand_row, take_row};
ghost use Rattle.ref_statements.specs.Nodes.{finish_row};
ghost use Rattle.ref_statements.specs.Forms.{form_of, goto_name};
ghost use Rattle.ref_statements.specs.Statements.{begun_row, finished_row};
ghost use Rattle.ref_statements.specs.Made.{IsWorld, next_by, change_by};

use crate::bodies::holds;
use crate::forms::{Form, branches, form_of, goto_name, part_before};
use crate::initialisers::initialise_row;
use crate::rows::{World, goes_on, left, waits};
use crate::statements::{begun_row, finished_row};
use c_types::term::OutOfMemory;
use core_tree::Node;
use pta_base::Listing;
use ref_blocks::block::Block;
use ref_cells::cells::{Cell, MemFault, Reason, Value};
use ref_mem::memory::Memory;
use ref_state::doors::{Change, Doors, close, commit};
use ref_state::frames::Frame;
use ref_state::items::{Item, Items};
use ref_values::values::computed;
use std::alloc::Global;

// A node is computed, and its value goes to the item below. It gives the pointers that it put into cells. A refusal leaves
// the memory and the frame as they were.
fn compute(
    world: &World<'_>,
    memory: &mut Memory,
    frame: &mut Frame,
    n: u32,
    node: &Node,
    word: u64,
) -> Result<Listing<(Cell, Cell)>, MemFault>
    requires world { IsWorld world.now }
    requires memory { AreKnown (length world.now.trees.types.now.terms) memory.old }
    requires node { slice_get world.now.trees.nodes.now n ≡ Some node.now }
    ensures row { Gives (λ stores. record { memory = memory.new; frame = frame.new; stores = stores }) result
        (computes frame.old n
        (computed (core_of world.now.trees) memory.old frame.old.instances n node.now (top_values frame.old.items) word)) }
    ensures err { OnErr result ((memory.new ≡ memory.old) × (frame.new ≡ frame.old)) }
{
    let _ = node;
    frame.items.open(world.alloc, n)?;
    match computed(
        world.alloc,
        &world.trees,
        memory,
        frame.instances.as_slice(),
        n,
        frame.items.values(),
        word,
    ) {
        Ok(outcome) => {
            frame.items.fill(outcome.value);
            Ok(outcome.stores)
        }
        Err(fault) => {
            frame.items.shut(world.alloc);
            Err(fault)
        }
    }
}

// A change is made; it stores nothing.
fn changed(
    world: &World<'_>,
    memory: &mut Memory,
    frame: &mut Frame,
    change: Change,
) -> Result<Listing<(Cell, Cell)>, OutOfMemory>
    ensures ok { IfOk result (λ stores.
        next_by memory.old frame.old change ≡ record { memory = memory.new; frame = frame.new; stores = stores }) }
    ensures err { OnErr result ((memory.new ≡ memory.old) × (frame.new ≡ frame.old)) }
{
    let Change { off, on, doors } = change;
    let off = off.min(frame.items.len());
    commit(memory, frame, Change { off, on, doors })?;
    Ok(Listing::new(world.alloc))
}

// The blocks of a frame, as they are.
fn doors_of(world: &World<'_>, memory: &Memory, frame: &Frame) -> Result<Doors, OutOfMemory>
    ensures blocks { IfOk result (λ doors. blocks_by memory.now doors ≡ blocks_of memory.now frame.now) }
    ensures ended { IfOk result (λ doors. EndsKnown memory.now doors) }
    ensures fresh { IfOk result (λ doors. doors.fresh ≡ []) }
{
    let _ = memory;
    Doors::of(world.alloc, frame.instances.as_slice())
}

// An expression or an initialiser waits for its operands.
fn awaits(
    world: &World<'_>,
    memory: &mut Memory,
    frame: &mut Frame,
    n: u32,
    children: &[u32],
) -> Result<Listing<(Cell, Cell)>, MemFault>
    requires world { IsWorld world.now }
    ensures row { Gives (λ stores. record { memory = memory.new; frame = frame.new; stores = stores }) result
        (changes frame.old (goes_on (blocks_of memory.old frame.old) (Wait n children.now [] ∷ []))) }
    ensures err { OnErr result ((memory.new ≡ memory.old) × (frame.new ≡ frame.old)) }
{
    let doors = doors_of(world, memory, frame)?;
    let item = waits(world.alloc, n, children)?;
    let change = goes_on(world.alloc, doors, item)?;
    Ok(changed(world, memory, frame, change)?)
}

// An expression is begun.
fn begin_value(
    world: &World<'_>,
    memory: &mut Memory,
    frame: &mut Frame,
    n: u32,
    node: &Node,
    word: u64,
) -> Result<Listing<(Cell, Cell)>, MemFault>
    requires world { IsWorld world.now }
    requires memory { AreKnown (length world.now.trees.types.now.terms) memory.old }
    requires node { slice_get world.now.trees.nodes.now n ≡ Some node.now }
    requires values { top_values frame.old.items ≡ [] }
    ensures row { Gives (λ stores. record { memory = memory.new; frame = frame.new; stores = stores }) result
        (begun_value (core_of world.now.trees) memory.old frame.old n node.now node.now.children word) }
    ensures err { OnErr result ((memory.new ≡ memory.old) × (frame.new ≡ frame.old)) }
{
    match node.children.as_slice() {
        [] => compute(world, memory, frame, n, node, word),
        [_, ..] => awaits(world, memory, frame, n, node.children.as_slice()),
    }
}

// An initialiser is begun.
fn begin_initialiser(
    world: &World<'_>,
    memory: &mut Memory,
    frame: &mut Frame,
    n: u32,
    node: &Node,
) -> Result<Listing<(Cell, Cell)>, MemFault>
    requires world { IsWorld world.now }
    requires memory { AreKnown (length world.now.trees.types.now.terms) memory.old }
    requires node { slice_get world.now.trees.nodes.now n ≡ Some node.now }
    requires values { top_values frame.old.items ≡ [] }
    ensures row { Gives (λ stores. record { memory = memory.new; frame = frame.new; stores = stores }) result
        (begun_initialiser (core_of world.now.trees) memory.old frame.old n node.now node.now.children) }
    ensures err { OnErr result ((memory.new ≡ memory.old) × (frame.new ≡ frame.old)) }
{
    match node.children.as_slice() {
        [] => initialise_row(world, memory, frame, n, node),
        [_, ..] => awaits(world, memory, frame, n, node.children.as_slice()),
    }
}

// A statement is begun.
fn begin_statement(
    world: &World<'_>,
    memory: &mut Memory,
    frame: &mut Frame,
    n: u32,
    node: &Node,
    form: Form,
) -> Result<Listing<(Cell, Cell)>, MemFault>
    requires world { IsWorld world.now }
    ensures row { Gives (λ stores. record { memory = memory.new; frame = frame.new; stores = stores }) result
        (changes frame.old (begun_row (core_of world.now.trees) frame.old.items (blocks_of memory.old frame.old) n form
        (goto_name node.now.kind) node.now.children)) }
    ensures err { OnErr result ((memory.new ≡ memory.old) × (frame.new ≡ frame.old)) }
{
    let doors = doors_of(world, memory, frame)?;
    let change = begun_row(
        world,
        memory,
        &frame.items,
        doors,
        n,
        form,
        goto_name(&node.kind),
        node.children.as_slice(),
    )?;
    Ok(changed(world, memory, frame, change)?)
}

// A node is begun, by what it is.
fn begin_by(
    world: &World<'_>,
    memory: &mut Memory,
    frame: &mut Frame,
    n: u32,
    node: &Node,
    form: Form,
    word: u64,
) -> Result<Listing<(Cell, Cell)>, MemFault>
    requires world { IsWorld world.now }
    requires memory { AreKnown (length world.now.trees.types.now.terms) memory.old }
    requires node { slice_get world.now.trees.nodes.now n ≡ Some node.now }
    requires values { top_values frame.old.items ≡ [] }
    ensures row { Gives (λ stores. record { memory = memory.new; frame = frame.new; stores = stores }) result
        (begun_by (core_of world.now.trees) memory.old frame.old n node.now form word) }
    ensures err { OnErr result ((memory.new ≡ memory.old) × (frame.new ≡ frame.old)) }
{
    match form {
        Form::Value | Form::Sequence | Form::Choose => begin_value(
            world, memory, frame, n, node, word,
        ),
        Form::Initialise => begin_initialiser(world, memory, frame, n, node),
        _ => begin_statement(world, memory, frame, n, node, form),
    }
}

/// Do: what the definition of this name leaves of the memory and the frame. It gives the pointers that it put into cells. A
/// refusal leaves the memory and the frame as they were.
#[tactic(auto, unfolding(crate::specs::Nodes::do_row))]
pub fn do_row(
    world: &World<'_>,
    memory: &mut Memory,
    frame: &mut Frame,
    n: u32,
    word: u64,
) -> Result<Listing<(Cell, Cell)>, MemFault>
    requires world { IsWorld world.now }
    requires memory { AreKnown (length world.now.trees.types.now.terms) memory.old }
    requires values { top_values frame.old.items ≡ [] }
    ensures row { Gives (λ stores. record { memory = memory.new; frame = frame.new; stores = stores }) result
        (do_row (core_of world.now.trees) memory.old frame.old n word) }
    ensures err { OnErr result ((memory.new ≡ memory.old) × (frame.new ≡ frame.old)) }
{
    let Some(node) = world.trees.nodes.get(n as usize) else {
        return Err(MemFault::Stop(Reason::Mismatch));
    };
    begin_by(world, memory, frame, n, node, form_of(&node.kind), word)
}

// One of two, by a condition.
fn chosen(yes: bool, a: u32, b: u32) -> u32
    ensures { result ≡ chosen yes a b }
{
    if yes { a } else { b }
}

// A Choose whose condition is there takes one of its branches alone.
fn choose_row(
    world: &World<'_>,
    memory: &mut Memory,
    frame: &mut Frame,
    n: u32,
    a: u32,
    b: u32,
) -> Result<Listing<(Cell, Cell)>, MemFault>
    ensures row { Gives (λ stores. record { memory = memory.new; frame = frame.new; stores = stores }) result
        (changes frame.old (choose_row (blocks_of memory.old frame.old) n a b (top_values frame.old.items))) }
    ensures err { OnErr result ((memory.new ≡ memory.old) × (frame.new ≡ frame.old)) }
{
    let [v, ..] = frame.items.values() else {
        return Err(MemFault::Stop(Reason::Unset));
    };
    let yes = holds(&v.1)?;
    let doors = doors_of(world, memory, frame)?;
    let item = waits(world.alloc, n, &[])?;
    let mut on = Items::one(world.alloc, item)?;
    on.push(Item::Do(chosen(yes, a, b)))?;
    Ok(changed(world, memory, frame, Change { off: 1, on, doors })?)
}

// The blocks of a frame before an operand is taken: a body is left, if one is given.
fn part_left(
    world: &World<'_>,
    memory: &Memory,
    frame: &Frame,
    part: Option<u32>,
) -> Result<Doors, OutOfMemory>
    requires world { IsWorld world.now }
    ensures blocks { IfOk result (λ doors.
        blocks_by memory.now doors ≡ part_left (core_of world.now.trees) part (blocks_of memory.now frame.now)) }
    ensures fresh { IfOk result (λ doors. doors.fresh ≡ []) }
{
    let doors = doors_of(world, memory, frame)?;
    match part {
        Some(part) => left(world, memory, doors, Block::Part(part)),
        None => Ok(doors),
    }
}

// Which of the operands that are left comes next.
fn picked(form: Form, count: usize, word: u64) -> usize
    requires { 0 < count }
    ensures value { result ≡ picked form count word }
    ensures within { result < count }
{
    match form {
        Form::Value => (word % count as u64) as usize,
        _ => 0,
    }
}

// An operand is done next, after what the statement leaves before it.
fn operand_row(
    world: &World<'_>,
    memory: &mut Memory,
    frame: &mut Frame,
    form: Form,
    children: &[u32],
    word: u64,
) -> Result<Listing<(Cell, Cell)>, MemFault>
    requires world { IsWorld world.now }
    requires left { 0 < length (top_left frame.old.items) }
    ensures row { Gives (λ stores. record { memory = memory.new; frame = frame.new; stores = stores }) result
        (operand_row (core_of world.now.trees) memory.old frame.old form children.now (top_left frame.old.items)
        (picked form (length (top_left frame.old.items)) word)) }
    ensures err { OnErr result ((memory.new ≡ memory.old) × (frame.new ≡ frame.old)) }
{
    let operands = frame.items.left();
    let i = picked(form, operands.len(), word);
    let part = part_before(form, children, operands[i]);
    let doors = part_left(world, memory, frame, part)?;
    frame.items.take(world.alloc, i)?;
    close(memory, frame, doors);
    Ok(Listing::new(world.alloc))
}

// Wait, with operands left.
fn take_row(
    world: &World<'_>,
    memory: &mut Memory,
    frame: &mut Frame,
    n: u32,
    form: Form,
    children: &[u32],
    word: u64,
) -> Result<Listing<(Cell, Cell)>, MemFault>
    requires world { IsWorld world.now }
    requires left { 0 < length (top_left frame.old.items) }
    ensures row { Gives (λ stores. record { memory = memory.new; frame = frame.new; stores = stores }) result
        (take_row (core_of world.now.trees) memory.old frame.old n form children.now (top_left frame.old.items)
        (top_values frame.old.items) word) }
    ensures err { OnErr result ((memory.new ≡ memory.old) × (frame.new ≡ frame.old)) }
{
    match branches(form, frame.items.left()) {
        Some((a, b)) => choose_row(world, memory, frame, n, a, b),
        None => operand_row(world, memory, frame, form, children, word),
    }
}

// The first value, none where there is none.
fn first_value(alloc: Global, values: &[(u32, Value)]) -> Result<Value, OutOfMemory>
    ensures { IfOk result (λ value. value ≡ first_value values.now) }
{
    match values {
        [v, ..] => v.1.copy(alloc),
        [] => Ok(Value::none(alloc)),
    }
}

// A Choose whose branch is there has its value.
fn finish_choice(
    world: &World<'_>,
    memory: &Memory,
    frame: &mut Frame,
    n: u32,
) -> Result<Listing<(Cell, Cell)>, MemFault>
    ensures row { Gives (λ stores. record { memory = memory.now; frame = frame.new; stores = stores }) result
        (computes frame.old n (gives memory.now (first_value (top_values frame.old.items)))) }
    ensures err { OnErr result (frame.new ≡ frame.old) }
{
    let _ = memory;
    let value = first_value(world.alloc, frame.items.values())?;
    frame.items.settle(n, value)?;
    Ok(Listing::new(world.alloc))
}

// All operands of a statement are there.
fn finish_statement(
    world: &World<'_>,
    memory: &mut Memory,
    frame: &mut Frame,
    n: u32,
    node: &Node,
    form: Form,
) -> Result<Listing<(Cell, Cell)>, MemFault>
    requires world { IsWorld world.now }
    requires node { slice_get world.now.trees.nodes.now n ≡ Some node.now }
    ensures row { Gives (λ stores. record { memory = memory.new; frame = frame.new; stores = stores }) result
        (changes frame.old (finished_row (core_of world.now.trees) frame.old.items (blocks_of memory.old frame.old) n form
        node.now.children (top_values frame.old.items))) }
    ensures err { OnErr result ((memory.new ≡ memory.old) × (frame.new ≡ frame.old)) }
{
    let doors = doors_of(world, memory, frame)?;
    let change = finished_row(
        world,
        memory,
        &frame.items,
        doors,
        n,
        form,
        node.children.as_slice(),
        frame.items.values(),
    )?;
    Ok(changed(world, memory, frame, change)?)
}

// Wait, with all operands there.
fn finish_row(
    world: &World<'_>,
    memory: &mut Memory,
    frame: &mut Frame,
    n: u32,
    node: &Node,
    form: Form,
    word: u64,
) -> Result<Listing<(Cell, Cell)>, MemFault>
    requires world { IsWorld world.now }
    requires memory { AreKnown (length world.now.trees.types.now.terms) memory.old }
    requires node { slice_get world.now.trees.nodes.now n ≡ Some node.now }
    ensures row { Gives (λ stores. record { memory = memory.new; frame = frame.new; stores = stores }) result
        (finish_row (core_of world.now.trees) memory.old frame.old n node.now form (top_values frame.old.items) word) }
    ensures err { OnErr result ((memory.new ≡ memory.old) × (frame.new ≡ frame.old)) }
{
    match form {
        Form::Value | Form::Sequence => compute(world, memory, frame, n, node, word),
        Form::Choose => finish_choice(world, memory, frame, n),
        Form::Initialise => initialise_row(world, memory, frame, n, node),
        _ => finish_statement(world, memory, frame, n, node, form),
    }
}

/// Wait: with operands left it takes one; with none it is done. A refusal leaves the memory and the frame as they were.
#[tactic(auto, unfolding(crate::specs::Nodes::wait_row))]
pub fn wait_row(
    world: &World<'_>,
    memory: &mut Memory,
    frame: &mut Frame,
    n: u32,
    word: u64,
) -> Result<Listing<(Cell, Cell)>, MemFault>
    requires world { IsWorld world.now }
    requires memory { AreKnown (length world.now.trees.types.now.terms) memory.old }
    ensures row { Gives (λ stores. record { memory = memory.new; frame = frame.new; stores = stores }) result
        (wait_row (core_of world.now.trees) memory.old frame.old n (top_left frame.old.items)
        (top_values frame.old.items) word) }
    ensures err { OnErr result ((memory.new ≡ memory.old) × (frame.new ≡ frame.old)) }
{
    let Some(node) = world.trees.nodes.get(n as usize) else {
        return Err(MemFault::Stop(Reason::Mismatch));
    };
    let form = form_of(&node.kind);
    match frame.items.left() {
        [] => finish_row(world, memory, frame, n, node, form, word),
        [_, ..] => take_row(
            world,
            memory,
            frame,
            n,
            form,
            node.children.as_slice(),
            word,
        ),
    }
}
