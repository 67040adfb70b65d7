//! Solving by rounds.
ghost use Rattle.std.specs.Prelude.{◌≡◌, ◌↔◌, ℕ, ◌+◌, ◌^◌, ◌<◌, ◌≤◌, OnOk, OnErr, IfOk, [], replicate, length, Contains};
ghost use Rattle.sol_model.specs.Families.{Has, members};
ghost use Rattle.sol_model.specs.Solutions.{IsLeast};
ghost use Rattle.sol_model.specs.Systems.{IsValid, IsRow, Fits, width_of};
ghost use Rattle.set_rows.specs.Views.{known};
ghost use Rattle.set_rows.specs.Calls.{system_of, view, IsOf};
ghost use Rattle.round_pieces.specs.delta_prop.Deltas.{IsSound};
ghost use Rattle.new_members.specs.News.{IsReader};
ghost use Rattle.round_pieces.specs.Rounds.{AreRowsApart, HasClosed, HasWorked, IsSettled};
ghost use Rattle.round_pieces.specs.Balance.{IsBooked, paid_for};
ghost use Rattle.round_pieces.specs.Work.{IsWork};
ghost use Rattle.round_settling.specs.Extents.{AreExtents};

use edge_book::{PairBook, PairSet};
use new_members::readers;
use pta_base::{Gate, OutOfMemory};
use round_pieces::delta_prop::{NO_SPAN, Span};
use round_pieces::{Round, Told, all_pieces, dealt, turn_order};
use round_settling::{Ground, NOWHERE, Progress, begin, rows_to_do, settle};
use set_rows::{RowSeat, RowTable};
use sol_model::{Rows, System};
use std::alloc::Global;
use std::thread::Threads;

/// For how many rows that have grown there is a thread: the start of a thread, and its notes of what it finds grown, cost
/// about as much as the turns of so many rows.
const ROWS_A_THREAD: usize = 256;

/// How many threads go through a round in which so many rows have grown: one for each `ROWS_A_THREAD` of them, but at least
/// two in the first round, where there are as many workers, so that their first pieces come at once. What a thread finds
/// grown goes on along its own rows in the round, and to the other threads' rows in the next: where few rows have grown, as
/// where a chain is cut into runs, one thread takes it to the end. Whose a piece is doesn't depend on it.
fn thread_count(round: u64, grown: usize, workers: u32) -> u32
    requires { 0 < workers }
    ensures { (0 < result) × (result ≤ workers) }
{
    let least = if round == 0 && workers > 1 { 2 } else { 1 };
    (grown / ROWS_A_THREAD).clamp(least, workers as usize) as u32
}

/// The rows of a round in the order in which they are dealt out. More than 2^32 - 1 rows are want of memory.
fn round_rows(alloc: Global, todo: &[u32], workers: u32) -> Result<Vec<u32>, OutOfMemory>
    requires { (0 < workers) × (workers ≤ 64) }
    ensures rows { IfOk result (λ rows. (row : ℕ) → (Contains rows.items row ↔ Contains todo.now row)) }
    ensures once { AreRowsApart todo.now → IfOk result (λ rows. AreRowsApart rows.items) }
    ensures few { IfOk result (λ rows. length rows.items < 2 ^ 32) }
{
    if todo.len() > u32::MAX as usize {
        return Err(OutOfMemory);
    }
    let rows = dealt(alloc, todo, workers)?;
    if rows.len() > u32::MAX as usize {
        return Err(OutOfMemory);
    }
    Ok(rows)
}

/// Who works a round: the workers whose pieces they are, the threads that go through them at most, and the gate.
#[derive(Clone, Copy)]
struct Crew<'a, G> {
    workers: u32,
    threads: u32,
    gate: &'a G,
}

/// One round: its pieces, and then what their turns have done is taken in. What grows meanwhile is noted.
fn work_round<R: Threads + Sync, G: Gate + Sync>(
    rt: &R,
    alloc: Global,
    ground: &Ground,
    seat: &mut RowSeat,
    progress: &mut Progress,
    todo: &[u32],
    crew: &Crew<G>,
    spans: &mut Vec<Span>,
) -> Result<(), OutOfMemory>
    requires own { IsOf ground.now.table.now seat.old }
    requires valid { IsValid ground.now.system.now }
    requires system { system_of ground.now.table.now ≡ ground.now.system.now }
    requires readers { (row number : ℕ) → (Contains ground.now.readers.now (row, number) ↔ IsReader ground.now.system.now row number) }
    requires nothing { ground.now.nothing.now ≡ replicate (width_of ground.now.system.now) 0 }
    requires settled { IsSettled ground.now.system.now (view seat.old) progress.old.book progress.old.done }
    requires booked { IsBooked ground.now.system.now progress.old.done progress.old.book progress.old.facts }
    requires extents { AreExtents progress.old.done progress.old.extents.items }
    requires rows { (row : ℕ) → Contains todo.now row → IsRow ground.now.system.now row }
    requires once { AreRowsApart todo.now }
    requires few { length todo.now < 2 ^ 32 }
    requires workers { (0 < crew.now.workers) × (crew.now.workers ≤ 64) }
    ensures own { IsOf ground.now.table.now seat.new }
    ensures worked { HasWorked (view seat.old) (view seat.new) }
    ensures settled { OnOk result (IsSettled ground.now.system.now (view seat.new) progress.new.book progress.new.done) }
    ensures booked { OnOk result (IsBooked ground.now.system.now progress.new.done progress.new.book progress.new.facts) }
    ensures paid { OnOk result
        ((view seat.new).ors + paid_for ground.now.system.now progress.old.done progress.old.book progress.old.facts
        ≤ (view seat.old).ors + paid_for ground.now.system.now progress.new.done progress.new.book progress.new.facts) }
    ensures extents { OnOk result (AreExtents progress.new.done progress.new.extents.items) }
{
    let round = Round {
        table: ground.table,
        done: &progress.done,
        book: &progress.book,
        spans: spans.as_slice(),
        todo,
        workers: crew.workers,
        gate: crew.gate,
    };
    let told = all_pieces(rt, alloc, &round, seat, crew.threads)?;
    let Told {
        turns,
        spans: grown,
    } = told;
    *spans = grown;
    settle(alloc, ground, seat, progress, turns.as_slice(), spans)
}

/// One round over rows in an order.
fn one_round<R: Threads + Sync, G: Gate + Sync>(
    rt: &R,
    alloc: Global,
    ground: &Ground,
    seat: &mut RowSeat,
    progress: &mut Progress,
    order: &[u32],
    crew: &Crew<G>,
    spans: &mut Vec<Span>,
) -> Result<(), OutOfMemory>
    requires own { IsOf ground.now.table.now seat.old }
    requires valid { IsValid ground.now.system.now }
    requires system { system_of ground.now.table.now ≡ ground.now.system.now }
    requires readers { (row number : ℕ) → (Contains ground.now.readers.now (row, number) ↔ IsReader ground.now.system.now row number) }
    requires nothing { ground.now.nothing.now ≡ replicate (width_of ground.now.system.now) 0 }
    requires settled { IsSettled ground.now.system.now (view seat.old) progress.old.book progress.old.done }
    requires booked { IsBooked ground.now.system.now progress.old.done progress.old.book progress.old.facts }
    requires extents { AreExtents progress.old.done progress.old.extents.items }
    requires rows { (row : ℕ) → Contains order.now row → IsRow ground.now.system.now row }
    requires once { AreRowsApart order.now }
    requires workers { (0 < crew.now.workers) × (crew.now.workers ≤ 64) }
    ensures own { IsOf ground.now.table.now seat.new }
    ensures worked { HasWorked (view seat.old) (view seat.new) }
    ensures settled { OnOk result (IsSettled ground.now.system.now (view seat.new) progress.new.book progress.new.done) }
    ensures booked { OnOk result (IsBooked ground.now.system.now progress.new.done progress.new.book progress.new.facts) }
    ensures paid { OnOk result
        ((view seat.new).ors + paid_for ground.now.system.now progress.old.done progress.old.book progress.old.facts
        ≤ (view seat.old).ors + paid_for ground.now.system.now progress.new.done progress.new.book progress.new.facts) }
    ensures extents { OnOk result (AreExtents progress.new.done progress.new.extents.items) }
{
    let rows = round_rows(alloc, order, crew.workers)?;
    work_round(
        rt,
        alloc,
        ground,
        seat,
        progress,
        rows.as_slice(),
        crew,
        spans,
    )
}

/// The rounds of a run, until nothing has grown: the table is closed then.
fn rounds<R: Threads + Sync, G: Gate + Sync>(
    rt: &R,
    alloc: Global,
    ground: &Ground,
    seat: &mut RowSeat,
    progress: &mut Progress,
    spans: &mut Vec<Span>,
    workers: u32,
    gate: &G,
) -> Result<(), OutOfMemory>
    requires own { IsOf ground.now.table.now seat.old }
    requires valid { IsValid ground.now.system.now }
    requires system { system_of ground.now.table.now ≡ ground.now.system.now }
    requires readers { (row number : ℕ) → (Contains ground.now.readers.now (row, number) ↔ IsReader ground.now.system.now row number) }
    requires nothing { ground.now.nothing.now ≡ replicate (width_of ground.now.system.now) 0 }
    requires settled { IsSettled ground.now.system.now (view seat.old) progress.old.book progress.old.done }
    requires booked { IsBooked ground.now.system.now progress.old.done progress.old.book progress.old.facts }
    requires extents { AreExtents progress.old.done progress.old.extents.items }
    requires workers { (0 < workers) × (workers ≤ 64) }
    ensures own { IsOf ground.now.table.now seat.new }
    ensures closed { OnOk result (HasClosed (view seat.old) (view seat.new)) }
    ensures least { OnOk result (IsLeast ground.now.system.now (known (view seat.new))) }
    ensures bound { (start : ℕ)
        → (view seat.old).ors
        ≤ start + paid_for ground.now.system.now progress.old.done progress.old.book progress.old.facts
        → OnOk result
        ((n : ℕ) × IsWork ground.now.system.now (known (view seat.new)) n × ((view seat.new).ors ≤ start + n + 1)) }
    ensures err { OnErr result (HasWorked (view seat.old) (view seat.new)) }
{
    let Ground {
        system,
        table,
        readers: _,
        nothing: _,
    } = *ground;
    let mut kept = Vec::new(alloc);
    for round in 0..u64::MAX {
        let todo = rows_to_do(alloc, table, seat, &progress.done, system.rows, spans)?;
        if todo.is_empty() {
            table.shut(seat);
            table.is_shut(seat);
            return Ok(());
        }
        let order = turn_order(
            alloc,
            &progress.book,
            kept.as_slice(),
            todo.as_slice(),
            system.rows,
        )?;
        let crew = Crew {
            workers,
            threads: thread_count(round, todo.len(), workers),
            gate,
        };
        one_round(
            rt,
            alloc,
            ground,
            seat,
            progress,
            order.as_slice(),
            &crew,
            spans,
        )?;
        kept = order;
    }
    // No run comes here: it is past 2^64 - 1 rounds.
    Err(OutOfMemory)
}

/// A run from nothing done: what rules demand of empty rows, and then the rounds.
fn run<R: Threads + Sync, G: Gate + Sync>(
    rt: &R,
    alloc: Global,
    ground: &Ground,
    seat: &mut RowSeat,
    progress: &mut Progress,
    spans: &mut Vec<Span>,
    workers: u32,
    gate: &G,
) -> Result<(), OutOfMemory>
    requires own { IsOf ground.now.table.now seat.old }
    requires valid { IsValid ground.now.system.now }
    requires system { system_of ground.now.table.now ≡ ground.now.system.now }
    requires readers { (row number : ℕ) → (Contains ground.now.readers.now (row, number) ↔ IsReader ground.now.system.now row number) }
    requires nothing { ground.now.nothing.now ≡ replicate (width_of ground.now.system.now) 0 }
    requires fresh { (row location : ℕ) → Has (known (view seat.old)) row location → ⊥ }
    requires fits { Fits ground.now.system.now progress.old.done }
    requires undone { (row location : ℕ) → Has (members progress.old.done) row location → ⊥ }
    requires book { progress.old.book ≡ [] }
    requires facts { progress.old.facts ≡ [] }
    requires workers { (0 < workers) × (workers ≤ 64) }
    ensures own { IsOf ground.now.table.now seat.new }
    ensures closed { OnOk result (HasClosed (view seat.old) (view seat.new)) }
    ensures least { OnOk result (IsLeast ground.now.system.now (known (view seat.new))) }
    ensures bound { OnOk result
        ((n : ℕ)
        × IsWork ground.now.system.now (known (view seat.new)) n
        × ((view seat.new).ors ≤ (view seat.old).ors + n + 1)) }
    ensures err { OnErr result (HasWorked (view seat.old) (view seat.new)) }
{
    let width = ground.nothing.len();
    begin(
        alloc,
        ground.system,
        ground.table,
        seat,
        width,
        &mut progress.book,
        &mut progress.facts,
        spans,
    )?;
    rounds(rt, alloc, ground, seat, progress, spans, workers, gate)
}

/// Nothing done of any row of a system.
fn undone(alloc: Global, system: &System) -> Result<Progress, OutOfMemory>
    requires valid { IsValid system.now }
    ensures fits { IfOk result (λ progress. Fits system.now progress.done) }
    ensures undone { IfOk result (λ progress. (row location : ℕ) → Has (members progress.done) row location → ⊥) }
    ensures book { IfOk result (λ progress. progress.book ≡ []) }
    ensures facts { IfOk result (λ progress. progress.facts ≡ []) }
{
    let extents = vec![in alloc; NOWHERE; system.rows as usize]?;
    let done = Rows::empty(alloc, system.rows, system.row_width() as u32)?;
    Ok(Progress {
        done,
        book: PairBook::new(alloc),
        facts: PairSet::new(alloc),
        extents,
    })
}

/// Solves a system on its shared rows with 1 to 64 workers, from a seat that has seen no fact. After Ok the table is
/// closed, what the seat has seen is the least solution, and the seat has read the table as closed; and the steps that
/// set bits, of this seat and all that were split from it, are at most the work of that solution, and one to close. After
/// want of memory the table is not closed by this call, and all that it added is in the least solution. Either way the
/// seat has the part of the whole that it had. The pieces of a round are the rows that have grown and those that edges reach
/// from them, each once. Piece i of a round, from 0, belongs to worker i modulo the number of workers,
/// who passes the gate before it. Two workers or more have two threads at least in the first round, so that workers 0 and 1
/// come to their first pieces at once where there are two; a round in which few rows have grown has fewer threads than
/// workers, each of which goes through the pieces of several, and with one of them no thread is started.
pub fn solve<R: Threads + Sync, G: Gate + Sync>(
    rt: &R,
    alloc: Global,
    system: &System,
    table: &RowTable,
    seat: &mut RowSeat,
    workers: u32,
    gate: &G,
) -> Result<(), OutOfMemory>
    requires own { IsOf table.now seat.old }
    requires valid { IsValid system.now }
    requires system { system_of table.now ≡ system.now }
    requires fresh { (row location : ℕ) → Has (known (view seat.old)) row location → ⊥ }
    requires workers { (0 < workers) × (workers ≤ 64) }
    ensures own { IsOf table.now seat.new }
    ensures closed { OnOk result (HasClosed (view seat.old) (view seat.new)) }
    ensures least { OnOk result (IsLeast system.now (known (view seat.new))) }
    ensures bound { OnOk result
        ((n : ℕ) × IsWork system.now (known (view seat.new)) n × ((view seat.new).ors ≤ (view seat.old).ors + n + 1)) }
    ensures err { OnErr result (HasWorked (view seat.old) (view seat.new)) }
{
    let nothing = vec![in alloc; 0u64; system.row_width()]?;
    let readers = readers(alloc, system)?;
    let mut progress = undone(alloc, system)?;
    let mut spans = vec![in alloc; NO_SPAN; system.rows as usize]?;
    let ground = Ground {
        system,
        table,
        readers: &readers,
        nothing: nothing.as_slice(),
    };
    run(
        rt,
        alloc,
        &ground,
        seat,
        &mut progress,
        &mut spans,
        workers,
        gate,
    )
}
