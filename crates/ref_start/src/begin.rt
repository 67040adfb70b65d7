// The program's first step (C11 5.1.2.2.1).

ghost use Rattle.std.specs.Prelude.{◌≡◌, ◌+◌, ◌^◌, ◌∷◌, ◌++◌, ◌<◌, [], None, pos, IfOk, IfSome, OnOk, OnErr, length, slice_get};
ghost use Rattle.ref_cells.specs.Answers.{Gives};
ghost use Rattle.ref_cells.specs.declared.cells.Cell.TheVariants.{Number};
ghost use Rattle.ref_mem.specs.Reads.{one_cell};
ghost use Rattle.ref_mem.specs.Writes.{changed};
ghost use Rattle.ref_elements.specs.Outcomes.{start_of};
ghost use Rattle.ref_elements.specs.Objects.{object_from};
ghost use Rattle.ref_state.specs.ref_types.Types.{library_ids};
ghost use Rattle.ref_frames.specs.Made.{IsRunning, seen};
ghost use Rattle.ref_start.specs.Objects.{cells_from};
ghost use Rattle.ref_start.specs.Begin.{main_in, texts, argument_pointers, main_entry, main_made, begins_at, begins_with, begin};

use crate::objects::{cells_of, element_of, put_cells, text_object};
use c_types::key::ObjectKey;
use c_types::term::OutOfMemory;
use core_tree::Entity;
use pta_base::Listing;
use ref_cells::cells::{Cell, Cells, MemFault, Reason, Value};
use ref_cells::instance::Instance;
use ref_cells::numbers::as_character;
use ref_elements::objects::object_at;
use ref_frames::entering::{Activation, Entry, enter, entered};
use ref_frames::running::Running;
use ref_state::lists::push;
use ref_state::ref_types::LibraryTypes;
use ref_state::state::State;
use ref_texts::text_of;
use row_numbers::functions::{Role, plays};
use std::alloc::Global;

/// The function that starts the program.
pub fn main_of(entities: &[Entity]) -> Option<u32>
    requires { length entities.now < 2 ^ 32 }
    ensures value { result ≡ main_in entities.now }
    ensures within { IfSome result (λ e. e < length entities.now) }
{
    for (e, entity) in entities.iter().enumerate() {
        if plays(Role::Main, entity) {
            return Some(e as u32);
        }
    }
    None
}

// The texts of main's arguments.
fn texts(
    running: &Running<'_>,
    types: LibraryTypes,
    count: u32,
    word: u64,
) -> Result<Vec<Instance>, OutOfMemory>
    requires { types ≡ library_ids running.now.characters.0 }
    ensures { IfOk result (λ list. list.items ≡ texts (seen running.now) count word) }
{
    let alloc = running.alloc;
    let text = text_of(alloc, word)?;
    let mut list = Vec::new(alloc);
    for i in 0..count {
        let key = ObjectKey::Library(10);
        push(
            &mut list,
            text_object(alloc, key, types.argument, text.as_slice())?,
        )?;
    }
    Ok(list)
}

// Pointers to so many instances, the first of them of that number, and null behind them.
fn argument_cells(alloc: Global, first: u32, count: u32) -> Result<Cells, OutOfMemory>
    requires { first + count < 2 ^ 32 }
    ensures { IfOk result (λ cells. cells ≡ cells_from 0 (argument_pointers first count)) }
{
    let mut list = Vec::new(alloc);
    for i in 0..count {
        push(&mut list, element_of(alloc, first + i, 0)?)?;
    }
    push(&mut list, Cell::Null)?;
    cells_of(alloc, list.as_slice())
}

// Main's arguments: how many there are, and the first element of `<argv>`.
fn arguments(alloc: Global, argv: u32, count: u32) -> Result<Vec<Value>, OutOfMemory>
    ensures { IfOk result (λ values. values.items ≡ one_cell (Number (pos count)) ∷ one_cell (start_of argv) ∷ []) }
{
    let mut values = Vec::new(alloc);
    push(
        &mut values,
        Value::one(alloc, Cell::Number(i128::from(count)))?,
    )?;
    push(&mut values, Value::one(alloc, element_of(alloc, argv, 0)?)?)?;
    Ok(values)
}

/// What is made where a function is entered, with these objects before those of its parameters.
pub(crate) fn with_objects(
    made: Activation,
    objects: Vec<Instance>,
) -> Result<Activation, OutOfMemory>
    ensures { IfOk result (λ all. all ≡ record made { fresh = objects.items ++ made.fresh }) }
{
    let Activation {
        frame,
        fresh,
        stores,
    } = made;
    let mut all = objects;
    let mut more = fresh.into_vec();
    all.append(&mut more)?;
    Ok(Activation {
        frame,
        fresh: Listing::of(all),
        stores,
    })
}

// A function is entered, and an instance holds these cells now. At `Err` nothing has changed.
fn enter_with(
    alloc: Global,
    state: &mut State,
    instance: u32,
    cells: Cells,
    made: Activation,
) -> Result<(), OutOfMemory>
    requires { instance < length state.old.memory }
    ensures ok { OnOk result (state.new ≡ record state.old {
      memory = changed state.old.memory instance (slice_get state.old.memory instance)
          (λ inst. record inst { cells = cells }) ++ made.fresh;
      frames = made.frame ∷ state.old.frames;
    }) }
    ensures err { OnErr result (state.new ≡ state.old) }
{
    let mut inst = state.memory.instances()[instance as usize].copy(alloc)?;
    inst.cells = cells;
    let _stores = enter(&mut state.memory, &mut state.frames, made)?;
    state.memory.set(instance, inst);
    Ok(())
}

/// Main is entered by nothing, and so is an entry.
pub(crate) fn main_entry(main: u32) -> Entry
    ensures { result ≡ main_entry main }
{
    Entry {
        function: main,
        call: None,
        by: None,
    }
}

// What is made where main is entered with arguments, the objects of these first, and what `<argv>`, of that number, holds.
fn main_made(
    running: &Running<'_>,
    types: LibraryTypes,
    before: usize,
    argv: u32,
    main: u32,
    word: u64,
) -> Result<(Cells, Activation), MemFault>
    requires running { IsRunning running.now }
    requires types { types ≡ library_ids running.now.characters.0 }
    ensures { Gives (λ made. made) result (main_made (seen running.now) before argv main word) }
{
    let alloc = running.alloc;
    let count = 1 + (word % 8) as u32;
    if before > (u32::MAX - 8) as usize {
        return Err(MemFault::OutOfMemory);
    }
    let values = arguments(alloc, argv, count)?;
    let made = entered(
        running,
        before + count as usize,
        main_entry(main),
        values.as_slice(),
    )?;
    let texts = texts(running, types, count, word)?;
    let made = with_objects(made, texts)?;
    let cells = argument_cells(alloc, before as u32, count)?;
    Ok((cells, made))
}

// Main is entered with arguments that the word chooses. At `Err` nothing has changed.
fn begin_with(
    running: &Running<'_>,
    types: LibraryTypes,
    state: &mut State,
    main: u32,
    word: u64,
) -> Result<(), MemFault>
    requires running { IsRunning running.now }
    requires types { types ≡ library_ids running.now.characters.0 }
    ensures row { Gives (λ _. record state.new { notes = record { target = None; stores = [] } }) result
        (begins_at (seen running.now) state.old main word (object_from 9 0 state.old.memory)) }
    ensures err { OnErr result (state.new ≡ state.old) }
{
    let Some(argv) = object_at(&state.memory, 9)? else {
        return Err(MemFault::Stop(Reason::Mismatch));
    };
    let before = state.memory.instances().len();
    let (cells, made) = main_made(running, types, before, argv, main, word)?;
    enter_with(running.alloc, state, argv, cells, made)?;
    Ok(())
}

// Main is entered without arguments. At `Err` nothing has changed.
fn begin_alone(running: &Running<'_>, state: &mut State, main: u32) -> Result<(), MemFault>
    requires { IsRunning running.now }
    ensures row { Gives (λ _. record state.new { notes = record { target = None; stores = [] } }) result
        (begins_with (seen running.now) state.old main 0 []) }
    ensures err { OnErr result (state.new ≡ state.old) }
{
    let count = state.memory.instances().len();
    let made = entered(running, count, main_entry(main), &[])?;
    let _stores = enter(&mut state.memory, &mut state.frames, made)?;
    Ok(())
}

/// The first step: main is entered, with arguments that the word chooses where it has parameters. A program without main is
/// Mismatch. At `Err` nothing has changed.
#[tactic(auto, unfolding(crate::specs::Begin::begin))]
pub fn begin(
    running: &Running<'_>,
    types: LibraryTypes,
    state: &mut State,
    word: u64,
) -> Result<(), MemFault>
    requires running { IsRunning running.now }
    requires types { types ≡ library_ids running.now.characters.0 }
    ensures row { Gives (λ _. record state.new { notes = record { target = None; stores = [] } }) result
        (begin (seen running.now) state.old word) }
    ensures err { OnErr result (state.new ≡ state.old) }
{
    let Some(main) = main_of(running.trees.entities) else {
        return Err(MemFault::Stop(Reason::Mismatch));
    };
    if running.parameters[main as usize].as_slice().is_empty() {
        begin_alone(running, state, main)
    } else {
        begin_with(running, types, state, main, word)
    }
}
