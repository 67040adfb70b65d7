//! What the rules demand once a row has new members.
ghost use Rattle.std.specs.Prelude.{◌≡◌, ℕ, ◌⊎◌, ◌↔◌, ◌<◌, ◌≤◌, OnOk, All, Some, Contains, length, slice_get};
ghost use Rattle.sol_model.specs.declared.system.Constraint.{Constraint};
ghost use Rattle.sol_model.specs.Families.{Family, Has, members};
ghost use Rattle.sol_model.specs.Rules.{DemandsEdge, DemandsFact};
ghost use Rattle.sol_model.specs.Solutions.{IsEdge};
ghost use Rattle.sol_model.specs.Systems.{IsValid, Fits, IsRow, IsLocation, width_of};
ghost use Rattle.new_members.specs.News.{AreAmong, Extends, IsIn, IsFact, IsGrown, IsReader, Renews};

use crate::calls::renew_call;
use crate::forms::{renew_contents, renew_field, renew_load, renew_store};
use crate::lists::{News, new_between};
use crate::words::{row_words, take_row};
use edge_book::PairBook;
use pta_base::OutOfMemory;
use sol_model::sites::constraint_at;
use sol_model::{Constraint, Rows, System};
use std::alloc::Global;

/// What one constraint that reads a row demands for new members of the row.
fn renew_constraint(
    alloc: Global,
    book: &mut PairBook,
    facts: &mut Vec<(u32, u32)>,
    system: &System,
    rows: &Rows,
    number: u32,
    news: &News,
) -> Result<(), OutOfMemory>
    requires valid { IsValid system.now }
    requires fits { Fits system.now rows.now }
    requires number { number < length system.now.constraints }
    requires reader { IsReader system.now news.now.row number }
    requires new { All (IsLocation system.now) news.now.new.now }
    requires members { (location : ℕ) → Contains news.now.new.now location → Has (members rows.now) news.now.row location }
    ensures kept { OnOk result (Extends book.old book.new) }
    ensures book { (F : Family) (constraint : Constraint)
        → IsGrown F (members rows.now) news.now.row news.now.new.now
        → slice_get system.now.constraints number ≡ Some constraint
        → OnOk result
        (Renews book.old book.new (DemandsEdge system.now F constraint) (DemandsEdge system.now (members rows.now) constraint)) }
    ensures facts { (F : Family) (constraint : Constraint)
        → IsGrown F (members rows.now) news.now.row news.now.new.now
        → slice_get system.now.constraints number ≡ Some constraint
        → OnOk result
        (Renews facts.old.items facts.new.items (DemandsFact system.now F constraint)
        (DemandsFact system.now (members rows.now) constraint)) }
{
    match constraint_at(system, number as usize) {
        Constraint::Address {
            row: _,
            location: _,
        } => {}
        Constraint::Copy { from: _, to: _ } => {}
        Constraint::Load {
            pointer: _,
            to: _,
            ty: _,
            sub: _,
        } => renew_load(book, system, number, news.new)?,
        Constraint::Store {
            pointer: _,
            from: _,
            ty: _,
            sub: _,
        } => renew_store(book, system, number, news.new)?,
        Constraint::Field {
            from: _,
            to,
            ty,
            member,
        } => renew_field(facts, system, to, ty, member, news.new)?,
        Constraint::Contents { to, from } => renew_contents(
            alloc, book, system, rows, to, from, news,
        )?,
        Constraint::Call { call } => renew_call(alloc, book, facts, system, rows, call, news)?,
    }
    Ok(())
}

/// What all constraints that read a row demand for new members of the row.
fn renew_readers(
    alloc: Global,
    book: &mut PairBook,
    facts: &mut Vec<(u32, u32)>,
    system: &System,
    readers: &PairBook,
    rows: &Rows,
    news: &News,
) -> Result<(), OutOfMemory>
    requires valid { IsValid system.now }
    requires fits { Fits system.now rows.now }
    requires readers { (at number : ℕ) → (Contains readers.now (at, number) ↔ IsReader system.now at number) }
    requires new { All (IsLocation system.now) news.now.new.now }
    requires members { (location : ℕ) → Contains news.now.new.now location → Has (members rows.now) news.now.row location }
    ensures kept { OnOk result (Extends book.old book.new) }
    ensures book { (F : Family)
        → IsGrown F (members rows.now) news.now.row news.now.new.now
        → OnOk result (Renews book.old book.new (IsEdge system.now F) (IsEdge system.now (members rows.now))) }
    ensures facts { (F : Family)
        → IsGrown F (members rows.now) news.now.row news.now.new.now
        → OnOk result (Renews facts.old.items facts.new.items (IsFact system.now F) (IsFact system.now (members rows.now))) }
{
    for number in readers.targets(news.row) {
        renew_constraint(alloc, book, facts, system, rows, *number, news)?;
    }
    Ok(())
}

/// What a row has now: words, of which those from number `first` on and below `end` have all that the row had not.
#[derive(Clone, Copy)]
pub struct Grown<'a> {
    /// The number of the row.
    pub row: u32,
    /// The words of the row as they are now.
    pub words: &'a [u64],
    /// The number of the first word with something new.
    pub first: usize,
    /// The number behind the last word with something new; not past `first` where there is none.
    pub end: usize,
}

/// What `renew` does to a row that has something new and that constraints read.
fn renew_read(
    alloc: Global,
    book: &mut PairBook,
    facts: &mut Vec<(u32, u32)>,
    system: &System,
    readers: &PairBook,
    rows: &mut Rows,
    grown: &Grown,
) -> Result<(), OutOfMemory>
    requires valid { IsValid system.now }
    requires fits { Fits system.now rows.old }
    requires readers { (at number : ℕ) → (Contains readers.now (at, number) ↔ IsReader system.now at number) }
    requires row { IsRow system.now grown.now.row }
    requires sized { length grown.now.words.now ≡ width_of system.now }
    requires known { (location : ℕ) → IsIn grown.now.words.now location → IsLocation system.now location }
    requires among { AreAmong (members rows.old) grown.now.row grown.now.words.now grown.now.first grown.now.end }
    requires range { (grown.now.first ≤ grown.now.end) × (grown.now.end ≤ width_of system.now) }
    ensures fits { OnOk result (Fits system.now rows.new) }
    ensures has { OnOk result
        ((other location : ℕ)
        → (Has (members rows.new) other location
        ↔ (Has (members rows.old) other location ⊎ ((other ≡ grown.now.row) × IsIn grown.now.words.now location)))) }
    ensures kept { OnOk result (Extends book.old book.new) }
    ensures book { OnOk result (Renews book.old book.new (IsEdge system.now (members rows.old)) (IsEdge system.now (members rows.new))) }
    ensures facts { OnOk result
        (Renews facts.old.items facts.new.items (IsFact system.now (members rows.old)) (IsFact system.now (members rows.new))) }
{
    let Grown {
        row,
        words,
        first,
        end,
    } = *grown;
    let new = new_between(alloc, words, row_words(rows, row), first, end)?;
    take_row(system, rows, row, words, first, end);
    renew_readers(
        alloc,
        book,
        facts,
        system,
        readers,
        rows,
        &News {
            row,
            new: new.as_slice(),
        },
    )
}

/// Adds the members that words have to a row, and adds the edges that rules demand of the rows now and hadn't before to
/// a book, and such facts to a list. `readers` has the constraints that read each row. What the row lacks of the words is in
/// those from `first` on and below `end`, and no others are read. Where there are none, nothing is done; and of a row that
/// no constraint reads, no members are listed.
pub fn renew(
    alloc: Global,
    book: &mut PairBook,
    facts: &mut Vec<(u32, u32)>,
    system: &System,
    readers: &PairBook,
    rows: &mut Rows,
    grown: &Grown,
) -> Result<(), OutOfMemory>
    requires valid { IsValid system.now }
    requires fits { Fits system.now rows.old }
    requires readers { (at number : ℕ) → (Contains readers.now (at, number) ↔ IsReader system.now at number) }
    requires row { IsRow system.now grown.now.row }
    requires sized { length grown.now.words.now ≡ width_of system.now }
    requires known { (location : ℕ) → IsIn grown.now.words.now location → IsLocation system.now location }
    requires among { AreAmong (members rows.old) grown.now.row grown.now.words.now grown.now.first grown.now.end }
    requires range { grown.now.end ≤ width_of system.now }
    ensures fits { OnOk result (Fits system.now rows.new) }
    ensures has { OnOk result
        ((other location : ℕ)
        → (Has (members rows.new) other location
        ↔ (Has (members rows.old) other location ⊎ ((other ≡ grown.now.row) × IsIn grown.now.words.now location)))) }
    ensures kept { OnOk result (Extends book.old book.new) }
    ensures book { OnOk result (Renews book.old book.new (IsEdge system.now (members rows.old)) (IsEdge system.now (members rows.new))) }
    ensures facts { OnOk result
        (Renews facts.old.items facts.new.items (IsFact system.now (members rows.old)) (IsFact system.now (members rows.new))) }
{
    if grown.first >= grown.end {
        return Ok(());
    }
    if readers.targets(grown.row).is_empty() {
        let Grown {
            row,
            words,
            first,
            end,
        } = *grown;
        take_row(system, rows, row, words, first, end);
        return Ok(());
    }
    renew_read(alloc, book, facts, system, readers, rows, grown)
}
