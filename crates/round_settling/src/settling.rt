//! What the caller does between two rounds.
ghost use Rattle.std.specs.Prelude.{◌≡◌, ℕ, true, false, ◌+◌, ◌⊎◌, ◌↔◌, ◌<◌, ◌≤◌, OnOk, [], replicate, take, Contains, length};
ghost use Rattle.sol_model.specs.Families.{Has, IsInside, members};
ghost use Rattle.sol_model.specs.Solutions.{IsEdge};
ghost use Rattle.sol_model.specs.declared.rows.Rows.{Rows};
ghost use Rattle.round_pieces.specs.declared.delta_prop.turn.Turn.{Turn};
ghost use Rattle.set_rows.specs.declared.view.View.{View};
ghost use Rattle.sol_model.specs.Systems.{IsValid, IsRow, IsLocation, Fits, width_of};
ghost use Rattle.set_rows.specs.Views.{OnlyAdded, known};
ghost use Rattle.set_rows.specs.Calls.{system_of, view, IsOf};
ghost use Rattle.round_pieces.specs.delta_prop.Deltas.{AllDemanded, IsSound};
ghost use Rattle.edge_book.specs.Edges.{AreApart, Gains};
ghost use Rattle.new_members.specs.News.{Extends, IsFact, IsIn, IsReader, Renews, words_at};
ghost use Rattle.round_pieces.specs.Rounds.{AreCarried, IsChange, IsSettled, IsTakenIn, IsTurnOf, IsWorked};
ghost use Rattle.round_pieces.specs.Balance.{IsBooked, paid_for, spent};
ghost use Rattle.round_pieces.specs.Work.{edge_work};
ghost use Rattle.round_settling.specs.Extents.{AreExtents};

use crate::extent::{Extent, done_words, widen_extent};
use edge_book::{PairBook, PairSet};
use new_members::{Grown, renew, row_words, start};
use pta_base::OutOfMemory;
use round_pieces::delta_prop::{Span, Turn, carry, list_news, span_of, widen};
use set_rows::{RowSeat, RowTable};
use sol_model::{Rows, System};
use std::alloc::Global;

/// What stays as it is while a system is solved.
#[derive(Clone, Copy)]
pub struct Ground<'a> {
    /// The system.
    pub system: &'a System,
    /// Its table.
    pub table: &'a RowTable,
    /// The numbers of the constraints that read a row, for each row.
    pub readers: &'a PairBook,
    /// The words of a row without a location.
    pub nothing: &'a [u64],
}

/// How far solving has come.
#[derive(Drop)]
pub struct Progress {
    /// What is done of each row.
    pub done: Rows,
    /// The edges.
    pub book: PairBook,
    /// The facts that were added because a rule demands them.
    pub facts: PairSet,
    /// The words of each row in which anything is done of it.
    pub extents: Vec<Extent>,
}

/// Whether a turn tells of nothing new.
fn is_idle(turn: &Turn) -> bool
    ensures idle { result ≡ true → turn.now.end ≤ turn.now.first }
    ensures busy { result ≡ false → turn.now.first < turn.now.end }
{
    turn.first >= turn.end
}

/// What a turn has done: it is done now of its row, and the edges and facts that rules demand for new members are taken in.
fn take_turn(
    alloc: Global,
    system: &System,
    readers: &PairBook,
    done: &mut Rows,
    book: &mut PairBook,
    facts: &mut Vec<(u32, u32)>,
    extents: &mut Vec<Extent>,
    turn: &Turn,
) -> Result<(), OutOfMemory>
    requires valid { IsValid system.now }
    requires fits { Fits system.now done.old }
    requires readers { (row number : ℕ) → (Contains readers.now (row, number) ↔ IsReader system.now row number) }
    requires turn { IsTurnOf system.now turn.now }
    requires change { IsChange system.now done.old turn.now }
    requires extents { AreExtents done.old extents.old.items }
    ensures fits { OnOk result (Fits system.now done.new) }
    ensures has { OnOk result
        ((row location : ℕ)
        → (Has (members done.new) row location
        ↔ (Has (members done.old) row location ⊎ ((row ≡ turn.now.row) × IsIn turn.now.done.items location)))) }
    ensures kept { OnOk result (Extends book.old book.new) }
    ensures book { OnOk result (Renews book.old book.new (IsEdge system.now (members done.old)) (IsEdge system.now (members done.new))) }
    ensures facts { OnOk result
        (Renews facts.old.items facts.new.items (IsFact system.now (members done.old)) (IsFact system.now (members done.new))) }
    ensures extents { OnOk result (AreExtents done.new extents.new.items) }
{
    if is_idle(turn) {
        return Ok(());
    }
    widen_extent(extents, turn.row, turn.first, turn.end);
    renew(
        alloc,
        book,
        facts,
        system,
        readers,
        done,
        &Grown {
            row: turn.row,
            words: turn.done.as_slice(),
            first: turn.first,
            end: turn.end,
        },
    )
}

/// What turns have done, one after another.
fn take_in(
    alloc: Global,
    system: &System,
    readers: &PairBook,
    done: &mut Rows,
    book: &mut PairBook,
    facts: &mut Vec<(u32, u32)>,
    extents: &mut Vec<Extent>,
    turns: &[Turn],
) -> Result<(), OutOfMemory>
    requires valid { IsValid system.now }
    requires fits { Fits system.now done.old }
    requires readers { (row number : ℕ) → (Contains readers.now (row, number) ↔ IsReader system.now row number) }
    requires turns { (turn : Turn) → Contains turns.now turn → IsTurnOf system.now turn }
    requires changes { (turn : Turn) → Contains turns.now turn → IsChange system.now done.old turn }
    requires extents { AreExtents done.old extents.old.items }
    ensures kept { OnOk result (Extends book.old book.new) }
    ensures taken { OnOk result (IsTakenIn system.now turns.now done.old done.new book.old book.new facts.old.items facts.new.items) }
    ensures extents { OnOk result (AreExtents done.new extents.new.items) }
{
    for turn in turns {
        take_turn(alloc, system, readers, done, book, facts, extents, turn)?;
    }
    Ok(())
}

/// Adds a fact that a rule demands to its row.
fn add_fact(table: &RowTable, seat: &mut RowSeat, width: usize, row: u32, location: u32)
    requires own { IsOf table.now seat.old }
    requires valid { IsValid (system_of table.now) }
    requires width { width ≡ width_of (system_of table.now) }
    requires known { IsRow (system_of table.now) row × IsLocation (system_of table.now) location }
    requires demanded { IsFact (system_of table.now) (known (view seat.old)) row location }
    ensures own { IsOf table.now seat.new }
    ensures view { OnlyAdded (view seat.old) (view seat.new) }
    ensures sound { IsSound (view seat.old) → IsSound (view seat.new) }
    ensures has { Has (known (view seat.new)) row location }
    ensures ors { (view seat.new).ors ≡ (view seat.old).ors + 1 }
{
    let word = row as usize * width + location as usize / 64;
    table.add(seat, word, 1 << (location % 64));
}

/// Adds a fact that a rule demands to its row, and notes its word as grown, where the fact is not yet in the set of facts
/// that were added.
fn add_once(
    table: &RowTable,
    seat: &mut RowSeat,
    width: usize,
    facts: &mut PairSet,
    row: u32,
    location: u32,
    spans: &mut Vec<Span>,
) -> Result<(), OutOfMemory>
    requires own { IsOf table.now seat.old }
    requires valid { IsValid (system_of table.now) }
    requires width { width ≡ width_of (system_of table.now) }
    requires known { IsRow (system_of table.now) row × IsLocation (system_of table.now) location }
    requires demanded { IsFact (system_of table.now) (known (view seat.old)) row location }
    requires had { Contains facts.old (row, location) → Has (known (view seat.old)) row location }
    ensures own { IsOf table.now seat.new }
    ensures view { OnlyAdded (view seat.old) (view seat.new) }
    ensures sound { IsSound (view seat.old) → IsSound (view seat.new) }
    ensures has { OnOk result (Has (known (view seat.new)) row location) }
    ensures facts { OnOk result (Gains facts.old facts.new (λ r l. (r ≡ row) × (l ≡ location))) }
    ensures once { AreApart facts.new }
    ensures ors { OnOk result ((view seat.new).ors + length facts.old ≤ (view seat.old).ors + length facts.new) }
{
    if !facts.add(row, location)? {
        return Ok(());
    }
    widen(spans, row, span_of(location as usize / 64));
    add_fact(table, seat, width, row, location);
    Ok(())
}

/// Adds facts that rules demand to their rows, each that was not added before, and notes their words as grown. It takes
/// no more steps than the set of facts has grown.
fn add_facts(
    table: &RowTable,
    seat: &mut RowSeat,
    width: usize,
    facts: &mut PairSet,
    demanded: &[(u32, u32)],
    spans: &mut Vec<Span>,
) -> Result<(), OutOfMemory>
    requires own { IsOf table.now seat.old }
    requires valid { IsValid (system_of table.now) }
    requires width { width ≡ width_of (system_of table.now) }
    requires known { (row location : ℕ)
        → Contains demanded.now (row, location)
        → IsRow (system_of table.now) row × IsLocation (system_of table.now) location }
    requires demanded { (row location : ℕ)
        → Contains demanded.now (row, location)
        → IsFact (system_of table.now) (known (view seat.old)) row location }
    requires had { (row location : ℕ) → Contains facts.old (row, location) → Has (known (view seat.old)) row location }
    ensures own { IsOf table.now seat.new }
    ensures view { OnlyAdded (view seat.old) (view seat.new) }
    ensures sound { IsSound (view seat.old) → IsSound (view seat.new) }
    ensures has { OnOk result ((row location : ℕ) → Contains demanded.now (row, location) → Has (known (view seat.new)) row location) }
    ensures facts { OnOk result (Gains facts.old facts.new (λ row location. Contains demanded.now (row, location))) }
    ensures once { AreApart facts.old → AreApart facts.new }
    ensures ors { OnOk result ((view seat.new).ors + length facts.old ≤ (view seat.old).ors + length facts.new) }
{
    for (row, location) in demanded {
        add_once(table, seat, width, facts, *row, *location, spans)?;
    }
    Ok(())
}

/// Carries all that is done of its source along each edge of a book from a number on, and notes what grows.
fn carry_new(
    alloc: Global,
    ground: &Ground,
    seat: &mut RowSeat,
    done: &Rows,
    book: &PairBook,
    first: usize,
    extents: &[Extent],
    spans: &mut Vec<Span>,
) -> Result<(), OutOfMemory>
    requires own { IsOf ground.now.table.now seat.old }
    requires valid { IsValid (system_of ground.now.table.now) }
    requires fits { Fits (system_of ground.now.table.now) done.now }
    requires inside { IsInside (members done.now) (known (view seat.old)) }
    requires demanded { AllDemanded (system_of ground.now.table.now) (known (view seat.old)) book.now }
    requires carried { AreCarried (take first book.now) (members done.now) (known (view seat.old)) }
    requires nothing { ground.now.nothing.now ≡ replicate (width_of (system_of ground.now.table.now)) 0 }
    requires extents { AreExtents done.now extents.now }
    ensures own { IsOf ground.now.table.now seat.new }
    ensures view { OnlyAdded (view seat.old) (view seat.new) }
    ensures sound { IsSound (view seat.old) → IsSound (view seat.new) }
    ensures carried { OnOk result (AreCarried book.now (members done.now) (known (view seat.new))) }
    ensures once { AreApart book.now }
    ensures ors { OnOk result
        ((view seat.new).ors + edge_work (system_of ground.now.table.now) (members done.now) (take first book.now)
        ≤ (view seat.old).ors + edge_work (system_of ground.now.table.now) (members done.now) book.now) }
{
    let nothing = ground.nothing;
    let mut news = Vec::new(alloc);
    for i in first..book.len() {
        if let Some((from, to)) = book.get(i) {
            let words = done_words(extents, from, nothing.len());
            list_news(
                &mut news,
                nothing,
                row_words(done, from),
                words.first,
                words.end,
            )?;
            let grown = carry(ground.table, seat, from, to, nothing.len(), news.as_slice());
            widen(spans, to, grown);
        }
    }
    Ok(())
}

/// Takes in what a round's turns have done, and notes what grows by it. The steps that the turns and this call take are paid
/// for by what is done of the edges' sources, and by facts that are new.
pub fn settle(
    alloc: Global,
    ground: &Ground,
    seat: &mut RowSeat,
    progress: &mut Progress,
    turns: &[Turn],
    spans: &mut Vec<Span>,
) -> Result<(), OutOfMemory>
    requires own { IsOf ground.now.table.now seat.old }
    requires valid { IsValid ground.now.system.now }
    requires system { system_of ground.now.table.now ≡ ground.now.system.now }
    requires readers { (row number : ℕ) → (Contains ground.now.readers.now (row, number) ↔ IsReader ground.now.system.now row number) }
    requires nothing { ground.now.nothing.now ≡ replicate (width_of ground.now.system.now) 0 }
    requires worked { (before : View)
        × IsWorked ground.now.system.now before (view seat.old) progress.old.book progress.old.done turns.now }
    requires booked { IsBooked ground.now.system.now progress.old.done progress.old.book progress.old.facts }
    requires extents { AreExtents progress.old.done progress.old.extents.items }
    ensures own { IsOf ground.now.table.now seat.new }
    ensures view { OnlyAdded (view seat.old) (view seat.new) }
    ensures sound { IsSound (view seat.old) → IsSound (view seat.new) }
    ensures settled { OnOk result (IsSettled ground.now.system.now (view seat.new) progress.new.book progress.new.done) }
    ensures booked { OnOk result (IsBooked ground.now.system.now progress.new.done progress.new.book progress.new.facts) }
    ensures paid { OnOk result
        ((view seat.new).ors
        + (spent (width_of ground.now.system.now) progress.old.book (words_at progress.old.done) turns.now
        + paid_for ground.now.system.now progress.old.done progress.old.book progress.old.facts)
        ≤ (view seat.old).ors + paid_for ground.now.system.now progress.new.done progress.new.book progress.new.facts) }
    ensures extents { OnOk result (AreExtents progress.new.done progress.new.extents.items) }
{
    let Ground {
        system,
        table,
        readers,
        nothing,
    } = *ground;
    let first = progress.book.len();
    let mut demanded = Vec::new(alloc);
    take_in(
        alloc,
        system,
        readers,
        &mut progress.done,
        &mut progress.book,
        &mut demanded,
        &mut progress.extents,
        turns,
    )?;
    let width = nothing.len();
    add_facts(
        table,
        seat,
        width,
        &mut progress.facts,
        demanded.as_slice(),
        spans,
    )?;
    carry_new(
        alloc,
        ground,
        seat,
        &progress.done,
        &progress.book,
        first,
        progress.extents.as_slice(),
        spans,
    )?;
    Ok(())
}

/// What rules demand of empty rows: the edges of the book, and facts that are added to their rows and noted as grown.
pub fn begin(
    alloc: Global,
    system: &System,
    table: &RowTable,
    seat: &mut RowSeat,
    width: usize,
    book: &mut PairBook,
    facts: &mut PairSet,
    spans: &mut Vec<Span>,
) -> Result<(), OutOfMemory>
    requires own { IsOf table.now seat.old }
    requires valid { IsValid system.now }
    requires system { system_of table.now ≡ system.now }
    requires width { width ≡ width_of system.now }
    requires fresh { (row location : ℕ) → Has (known (view seat.old)) row location → ⊥ }
    requires book { book.old ≡ [] }
    requires facts { facts.old ≡ [] }
    ensures own { IsOf table.now seat.new }
    ensures view { OnlyAdded (view seat.old) (view seat.new) }
    ensures sound { IsSound (view seat.old) → IsSound (view seat.new) }
    ensures settled { (done : Rows)
        → Fits system.now done
        → ((row location : ℕ) → Has (members done) row location → ⊥)
        → OnOk result (IsSettled system.now (view seat.new) book.new done) }
    ensures booked { (done : Rows) → OnOk result (IsBooked system.now done book.new facts.new) }
    ensures paid { OnOk result ((view seat.new).ors ≤ (view seat.old).ors + length facts.new) }
{
    let demanded = start(alloc, system, book)?;
    add_facts(table, seat, width, facts, demanded.as_slice(), spans)?;
    Ok(())
}
