//! What the rule of a call demands for new members of the rows that it reads.
ghost use Rattle.std.specs.Prelude.{◌≡◌, ℕ, ◌↔◌, ◌<◌, OnOk, All, Some, Contains, length, slice_get};
ghost use Rattle.edge_book.specs.Edges.{Gains};
ghost use Rattle.sol_model.specs.Families.{members};
ghost use Rattle.sol_model.specs.Systems.{IsValid, Fits, IsLocation, IsCallValid};
ghost use Rattle.sol_model.specs.declared.system.CallSite.{CallSite};
ghost use Rattle.new_members.specs.News.{Takes, IsLibraryAt, LibraryEdge, LibraryFact, NewLibraryEdge, EnteredEdge};
ghost use Rattle.new_members.specs.News.{NewCallEdge, NewCallFact};

use crate::books::add_all;
use crate::effects::{enter_edges, enter_facts, renew_edges};
use crate::lists::{News, members_of, news_of};
use edge_book::PairBook;
use pta_base::OutOfMemory;
use sol_model::locations::location_fact;
use sol_model::sites::{call_at, function_at};
use sol_model::{CallSite, Rows, System};
use std::alloc::Global;

/// The library function that a location is, where a call may reach it by its signature.
fn library_at(system: &System, call: &CallSite, location: u32) -> Option<u32>
    requires valid { IsValid system.now }
    requires location { IsLocation system.now location }
    ensures value { (number : ℕ) → (IsLibraryAt system.now call.now location number ↔ (result ≡ Some number)) }
{
    let number = location_fact(system, location).function?;
    let function = function_at(system, number as usize);
    if function.location == location
        && function.signature == call.signature
        && function.library.is_some()
    {
        Some(number)
    } else {
        None
    }
}

/// What a library function demands that a call has newly reached.
fn enter_library(
    alloc: Global,
    pairs: &mut Vec<(u32, u32)>,
    facts: &mut Vec<(u32, u32)>,
    system: &System,
    rows: &Rows,
    call: &CallSite,
    location: u32,
) -> Result<(), OutOfMemory>
    requires valid { IsValid system.now }
    requires fits { Fits system.now rows.now }
    requires call { IsCallValid system.now call.now }
    requires location { IsLocation system.now location }
    ensures pairs { OnOk result (Gains pairs.old.items pairs.new.items (LibraryEdge system.now (members rows.now) call.now location)) }
    ensures facts { OnOk result (Gains facts.old.items facts.new.items (LibraryFact system.now call.now location)) }
{
    let Some(number) = library_at(system, call, location) else {
        return Ok(());
    };
    let function = function_at(system, number as usize);
    enter_edges(alloc, pairs, system, rows, call, number as usize, function)?;
    enter_facts(alloc, facts, system, call, number as usize, function)
}

/// What a library function demands for new members of a row, where a call had reached it.
fn renew_library(
    alloc: Global,
    pairs: &mut Vec<(u32, u32)>,
    system: &System,
    rows: &Rows,
    call: &CallSite,
    news: &News,
    location: u32,
) -> Result<(), OutOfMemory>
    requires valid { IsValid system.now }
    requires fits { Fits system.now rows.now }
    requires call { IsCallValid system.now call.now }
    requires new { All (IsLocation system.now) news.now.new.now }
    requires location { IsLocation system.now location }
    ensures { OnOk result
        (Gains pairs.old.items pairs.new.items
        (NewLibraryEdge system.now (members rows.now) call.now news.now.row news.now.new.now location)) }
{
    let Some(number) = library_at(system, call, location) else {
        return Ok(());
    };
    let function = function_at(system, number as usize);
    renew_edges(
        alloc,
        pairs,
        system,
        rows,
        call,
        number as usize,
        news,
        function,
    )
}

/// What library functions demand that a call has newly reached.
fn enter_libraries(
    alloc: Global,
    pairs: &mut Vec<(u32, u32)>,
    facts: &mut Vec<(u32, u32)>,
    system: &System,
    rows: &Rows,
    call: &CallSite,
    new: &[u32],
) -> Result<(), OutOfMemory>
    requires valid { IsValid system.now }
    requires fits { Fits system.now rows.now }
    requires call { IsCallValid system.now call.now }
    requires new { All (IsLocation system.now) new.now }
    ensures pairs { OnOk result
        (Gains pairs.old.items pairs.new.items
        (λ a b. (location : ℕ) × Contains new.now location × LibraryEdge system.now (members rows.now) call.now location a b)) }
    ensures facts { OnOk result
        (Gains facts.old.items facts.new.items
        (λ a b. (location : ℕ) × Contains new.now location × LibraryFact system.now call.now location a b)) }
{
    for location in new {
        enter_library(alloc, pairs, facts, system, rows, call, *location)?;
    }
    Ok(())
}

/// What library functions of a list demand for new members of a row.
fn renew_libraries(
    alloc: Global,
    pairs: &mut Vec<(u32, u32)>,
    system: &System,
    rows: &Rows,
    call: &CallSite,
    news: &News,
    locations: &[u32],
) -> Result<(), OutOfMemory>
    requires valid { IsValid system.now }
    requires fits { Fits system.now rows.now }
    requires call { IsCallValid system.now call.now }
    requires new { All (IsLocation system.now) news.now.new.now }
    requires locations { All (IsLocation system.now) locations.now }
    ensures { OnOk result
        (Gains pairs.old.items pairs.new.items
        (λ a b. (location : ℕ) × Contains locations.now location
        × NewLibraryEdge system.now (members rows.now) call.now news.now.row news.now.new.now location a b)) }
{
    for location in locations {
        renew_library(alloc, pairs, system, rows, call, news, *location)?;
    }
    Ok(())
}

/// The edges that a call demands for each of a list of locations alone.
fn enter_plain(
    book: &mut PairBook,
    system: &System,
    number: u32,
    new: &[u32],
) -> Result<(), OutOfMemory>
    requires valid { IsValid system.now }
    requires call { number < length system.now.calls }
    requires new { All (IsLocation system.now) new.now }
    ensures { (site : CallSite)
        → slice_get system.now.calls number ≡ Some site
        → OnOk result
        (Takes book.old book.new
        (λ a b. (location : ℕ) × Contains new.now location × EnteredEdge system.now site number location a b)) }
{
    for location in new {
        book.edges_of_call(system, number, *location)?;
    }
    Ok(())
}

/// What the rule of a call demands for new members of a row that it reads.
pub(crate) fn renew_call(
    alloc: Global,
    book: &mut PairBook,
    facts: &mut Vec<(u32, u32)>,
    system: &System,
    rows: &Rows,
    number: u32,
    news: &News,
) -> Result<(), OutOfMemory>
    requires valid { IsValid system.now }
    requires fits { Fits system.now rows.now }
    requires call { number < length system.now.calls }
    requires new { All (IsLocation system.now) news.now.new.now }
    ensures book { (site : CallSite)
        → slice_get system.now.calls number ≡ Some site
        → OnOk result
        (Takes book.old book.new (NewCallEdge system.now (members rows.now) site number news.now.row news.now.new.now)) }
    ensures facts { (site : CallSite)
        → slice_get system.now.calls number ≡ Some site
        → OnOk result (Gains facts.old.items facts.new.items (NewCallFact system.now site news.now.row news.now.new.now)) }
{
    let call = call_at(system, number as usize);
    let mut pairs = Vec::new(alloc);
    let entered = news_of(Some(call.callee), news);
    enter_plain(book, system, number, entered)?;
    enter_libraries(alloc, &mut pairs, facts, system, rows, call, entered)?;
    let reached = members_of(alloc, system, rows, call.callee)?;
    renew_libraries(
        alloc,
        &mut pairs,
        system,
        rows,
        call,
        news,
        reached.as_slice(),
    )?;
    add_all(book, pairs.as_slice())
}
