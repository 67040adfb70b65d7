//! A round's pieces, by many workers.
ghost use Rattle.std.specs.Prelude.{◌≡◌, ◌-◌, ◌<◌, ◌≤◌, ◌^◌, IfOk, All, length};
ghost use Rattle.std.specs.Thread.{IsSync};
ghost use Rattle.sol_model.specs.Systems.{IsValid, IsRow};
ghost use Rattle.set_rows.specs.Calls.{system_of, view, IsOf};
ghost use Rattle.set_rows.specs.Views.{OnlyAdded};
ghost use Rattle.round_pieces.specs.delta_prop.Deltas.{IsSound};
ghost use Rattle.round_pieces.specs.Rounds.{IsReady, HasWorked};
ghost use Rattle.round_pieces.specs.Turns.{HasShares};

use crate::delta_prop::NO_SPAN;
use crate::joining::{Told, together};
use crate::pieces::{Round, serve};
use pta_base::{Gate, OutOfMemory};
use set_rows::RowSeat;
use std::alloc::Global;
use std::thread::{Threads, join};

/// The pieces of the workers from `first` up to `last` on one thread, one worker after another with one seat.
fn in_turn<G: Gate>(
    alloc: Global,
    round: &Round<G>,
    seat: &mut RowSeat,
    first: u32,
    last: u32,
) -> Result<Told, OutOfMemory>
    requires own { IsOf round.now.table.now seat.old }
    requires valid { IsValid (system_of round.now.table.now) }
    requires ready { IsReady (system_of round.now.table.now) (view seat.old) round.now.book.now round.now.done.now }
    requires todo { All (IsRow (system_of round.now.table.now)) round.now.todo.now }
    requires few { length round.now.todo.now < 2 ^ 32 }
    requires workers { (first ≤ last) × (last ≤ round.now.workers) × (round.now.workers ≤ 64) }
    ensures own { IsOf round.now.table.now seat.new }
    ensures view { OnlyAdded (view seat.old) (view seat.new) }
    ensures sound { IsSound (view seat.old) → IsSound (view seat.new) }
    ensures shares { IfOk result
        (λ told. HasShares
        (system_of round.now.table.now) round.now.book.now round.now.done.now round.now.todo.now round.now.workers first last
        (view seat.old) (view seat.new) told.turns.items) }
{
    let mut spans = vec![in alloc; NO_SPAN; round.spans.len()]?;
    let mut turns = Vec::new(alloc);
    for worker in first..last {
        let mut share = serve(alloc, round, seat, worker, &mut spans)?;
        turns.append(&mut share)?;
    }
    Ok(Told { turns, spans })
}

/// The pieces of the workers from `first` up to `last`, on so many threads at most. Each thread has a seat of its own, and
/// goes through the pieces of its workers one after another.
fn spread<R: Threads + Sync, G: Gate + Sync>(
    rt: &R,
    alloc: Global,
    round: &Round<G>,
    seat: RowSeat,
    first: u32,
    last: u32,
    threads: u32,
) -> (RowSeat, Result<Told, OutOfMemory>)
    requires own { IsOf round.now.table.now seat }
    requires valid { IsValid (system_of round.now.table.now) }
    requires ready { IsReady (system_of round.now.table.now) (view seat) round.now.book.now round.now.done.now }
    requires todo { All (IsRow (system_of round.now.table.now)) round.now.todo.now }
    requires few { length round.now.todo.now < 2 ^ 32 }
    requires workers { (first < last) × (last ≤ round.now.workers) × (round.now.workers ≤ 64) }
    ensures own { IsOf round.now.table.now result.0 }
    ensures view { HasWorked (view seat) (view result.0) }
    ensures shares { IfOk result.1
        (λ told. HasShares
        (system_of round.now.table.now) round.now.book.now round.now.done.now round.now.todo.now round.now.workers first last
        (view seat) (view result.0) told.turns.items) }
{
    let mut seat = seat;
    if threads <= 1 || last - first == 1 {
        let told = in_turn(alloc, round, &mut seat, first, last);
        return (seat, told);
    }
    let middle = first + (last - first) / 2;
    let Round {
        table,
        done,
        book,
        spans,
        todo,
        workers,
        gate,
    } = *round;
    let other = table.split(&mut seat);
    let ((mut seat, left), (other, right)) = join(
        rt,
        move || -> (RowSeat, Result<Told, OutOfMemory>)
            requires sync { IsSync R.row × IsSync G.row }
            requires own { IsOf table.now seat }
            requires valid { IsValid (system_of table.now) }
            requires ready { IsReady (system_of table.now) (view seat) book.now done.now }
            requires todo { All (IsRow (system_of table.now)) todo.now }
            requires few { length todo.now < 2 ^ 32 }
            requires workers { (first < middle) × (middle ≤ workers) × (workers ≤ 64) }
            ensures own { IsOf table.entry.now result.0 }
            ensures view { HasWorked (view seat) (view result.0) }
            ensures shares { IfOk result.1
                (λ told. HasShares (system_of table.entry.now) book.entry.now done.entry.now todo.entry.now workers first middle
                (view seat) (view result.0) told.turns.items) }
        {
            let round = Round {
                table,
                done,
                book,
                spans,
                todo,
                workers,
                gate,
            };
            spread(
                rt,
                alloc,
                &round,
                seat,
                first,
                middle,
                threads - threads / 2,
            )
        },
        move || -> (RowSeat, Result<Told, OutOfMemory>)
            requires sync { IsSync R.row × IsSync G.row }
            requires own { IsOf table.now other }
            requires valid { IsValid (system_of table.now) }
            requires ready { IsReady (system_of table.now) (view other) book.now done.now }
            requires todo { All (IsRow (system_of table.now)) todo.now }
            requires few { length todo.now < 2 ^ 32 }
            requires workers { (middle < last) × (last ≤ workers) × (workers ≤ 64) }
            ensures own { IsOf table.entry.now result.0 }
            ensures view { HasWorked (view other) (view result.0) }
            ensures shares { IfOk result.1
                (λ told. HasShares (system_of table.entry.now) book.entry.now done.entry.now todo.entry.now workers middle last
                (view other) (view result.0) told.turns.items) }
        {
            let round = Round {
                table,
                done,
                book,
                spans,
                todo,
                workers,
                gate,
            };
            spread(rt, alloc, &round, other, middle, last, threads / 2)
        },
    );
    table.meet(&mut seat, other);
    (seat, together(left, right))
}

/// One round on so many threads at most: each thread has a seat split from this one, and all are joined again.
pub fn all_pieces<R: Threads + Sync, G: Gate + Sync>(
    rt: &R,
    alloc: Global,
    round: &Round<G>,
    seat: &mut RowSeat,
    threads: u32,
) -> Result<Told, OutOfMemory>
    requires own { IsOf round.now.table.now seat.old }
    requires valid { IsValid (system_of round.now.table.now) }
    requires ready { IsReady (system_of round.now.table.now) (view seat.old) round.now.book.now round.now.done.now }
    requires todo { All (IsRow (system_of round.now.table.now)) round.now.todo.now }
    requires few { length round.now.todo.now < 2 ^ 32 }
    requires workers { (0 < round.now.workers) × (round.now.workers ≤ 64) }
    ensures own { IsOf round.now.table.now seat.new }
    ensures worked { HasWorked (view seat.old) (view seat.new) }
    ensures shares { IfOk result
        (λ told. HasShares
        (system_of round.now.table.now) round.now.book.now round.now.done.now round.now.todo.now round.now.workers 0
        round.now.workers
        (view seat.old) (view seat.new) told.turns.items) }
{
    let mine = round.table.split(seat);
    let (mine, told) = spread(rt, alloc, round, mine, 0, round.workers, threads);
    round.table.meet(seat, mine);
    told
}
