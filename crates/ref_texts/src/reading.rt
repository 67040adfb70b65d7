// Characters read one by one.

ghost use Rattle.std.specs.Prelude.{◌≡◌, ◌-◌, ◌++◌, [], ◌∷◌, take, slice_get, IfOk, length};
ghost use Rattle.ref_cells.specs.Answers.{Gives};
ghost use Rattle.ref_cells.specs.Places.{AreKnown};
ghost use Rattle.ref_texts.specs.Reading.{later_as, later, later_place, place_at, char_at, unless_zero, next_at, text_at};
ghost use Rattle.ref_texts.specs.Reading.{part_at, order_of, decided, decided_at, compared_at, compared_part};

use c_types::table::TypeTable;
use c_types::term::{OutOfMemory, PathStep};
use pta_base::Listing;
use ref_cells::cells::{Cell, MemFault, Path, copy_path};
use ref_mem::memory::Memory;
use std::alloc::Global;

fn push_step(steps: &mut Vec<PathStep>, step: PathStep) -> Result<(), OutOfMemory>
    ensures { IfOk result (λ _. steps.new.items ≡ steps.old.items ++ step ∷ []) }
{
    match steps.push(step) {
        Ok(()) => Ok(()),
        Err(_) => Err(OutOfMemory),
    }
}

// The last step of a path.
fn last_step(path: &[PathStep]) -> Option<PathStep>
    ensures { result ≡ slice_get path.now (length path.now - 1) }
{
    match path.get(path.len().saturating_sub(1)) {
        Some(step) => Some(*step),
        None => None,
    }
}

// A path without its last step.
fn front(alloc: Global, path: &[PathStep]) -> Result<Vec<PathStep>, OutOfMemory>
    ensures { IfOk result (λ steps. steps.items ≡ take (length path.now - 1) path.now) }
{
    let last = path.len().saturating_sub(1);
    let steps = Vec::from_slice(alloc, &path[..last])?;
    Ok(steps)
}

// A path with its last step so many elements further on, where that is an index.
fn later_as(
    alloc: Global,
    path: &[PathStep],
    last: Option<PathStep>,
    k: u64,
) -> Result<Option<Path>, OutOfMemory>
    ensures { IfOk result (λ q. q ≡ later_as (take (length path.now - 1) path.now) last k) }
{
    match last {
        Some(PathStep::Index(j)) => {
            let index = j.checked_add(k).ok_or(OutOfMemory)?;
            let mut steps = front(alloc, path)?;
            push_step(&mut steps, PathStep::Index(index))?;
            Ok(Some(Listing::of(steps)))
        }
        Some(PathStep::Member(_)) => Ok(None),
        None => Ok(None),
    }
}

// The path of the element so many further on, where the path ends in an index.
fn later(alloc: Global, path: &[PathStep], k: u64) -> Result<Option<Path>, OutOfMemory>
    ensures { IfOk result (λ q. q ≡ later path.now k) }
{
    later_as(alloc, path, last_step(path), k)
}

// The place so many characters on, where that is its path.
fn later_place(
    alloc: Global,
    instance: u32,
    path: &[PathStep],
    past: bool,
    k: u64,
    q: Option<Path>,
) -> Result<Cell, OutOfMemory>
    ensures { IfOk result (λ cell. cell ≡ later_place instance path.now past k q) }
{
    match q {
        Some(path) => Ok(Cell::Pointer {
            instance,
            path,
            past,
        }),
        None => {
            let path = copy_path(alloc, path)?;
            let past = if k == 0 { past } else { true };
            Ok(Cell::Pointer {
                instance,
                path,
                past,
            })
        }
    }
}

/// The place so many characters on.
pub(crate) fn place_at(alloc: Global, place: &Cell, k: u64) -> Result<Cell, OutOfMemory>
    ensures { IfOk result (λ cell. cell ≡ place_at place.now k) }
{
    match place {
        Cell::Pointer {
            instance,
            path,
            past,
        } => {
            let q = later(alloc, path.as_slice(), k)?;
            later_place(alloc, *instance, path.as_slice(), *past, k, q)
        }
        _ => place.copy(alloc),
    }
}

// The character so many on from a place.
fn char_at(
    alloc: Global,
    memory: &Memory,
    types: &TypeTable,
    place: &Cell,
    k: u64,
) -> Result<i128, MemFault>
    requires { AreKnown (length types.now.terms) memory.now }
    ensures { Gives (λ c. c) result (char_at types.now memory.now place.now k) }
{
    let here = place_at(alloc, place, k)?;
    let c = memory.read_character(types, &here)?;
    Ok(c)
}

fn unless_zero(c: i128) -> Option<i128>
    ensures { result ≡ unless_zero c }
{
    if c == 0 { None } else { Some(c) }
}

// The same, none where it is the zero.
fn next_at(
    alloc: Global,
    memory: &Memory,
    types: &TypeTable,
    place: &Cell,
    k: u64,
) -> Result<Option<i128>, MemFault>
    requires { AreKnown (length types.now.terms) memory.now }
    ensures { Gives (λ c. c) result (next_at types.now memory.now place.now k) }
{
    let c = char_at(alloc, memory, types, place, k)?;
    Ok(unless_zero(c))
}

/// One character more.
pub(crate) fn push_char(text: &mut Vec<i128>, c: i128) -> Result<(), OutOfMemory>
    ensures { IfOk result (λ _. text.new.items ≡ text.old.items ++ c ∷ []) }
{
    match text.push(c) {
        Ok(()) => Ok(()),
        Err(_) => Err(OutOfMemory),
    }
}

/// The characters at a place before the zero.
pub(crate) fn text_at(
    alloc: Global,
    memory: &Memory,
    types: &TypeTable,
    place: &Cell,
) -> Result<Vec<i128>, MemFault>
    requires { AreKnown (length types.now.terms) memory.now }
    ensures { Gives (λ text. text.items) result (text_at types.now memory.now place.now) }
{
    let mut text = Vec::new(alloc);
    for k in 0..u64::MAX {
        match next_at(alloc, memory, types, place, k) {
            Ok(Some(c)) => push_char(&mut text, c)?,
            Ok(None) => return Ok(text),
            Err(fault) => return Err(fault),
        }
    }
    Err(MemFault::OutOfMemory)
}

/// The same of so many characters at most.
pub(crate) fn part_at(
    alloc: Global,
    memory: &Memory,
    types: &TypeTable,
    place: &Cell,
    n: u64,
) -> Result<Vec<i128>, MemFault>
    requires { AreKnown (length types.now.terms) memory.now }
    ensures { Gives (λ text. text.items) result (part_at types.now memory.now place.now n) }
{
    let mut text = Vec::new(alloc);
    for k in 0..n {
        match next_at(alloc, memory, types, place, k) {
            Ok(Some(c)) => push_char(&mut text, c)?,
            Ok(None) => return Ok(text),
            Err(fault) => return Err(fault),
        }
    }
    Ok(text)
}

// Which of two characters comes first.
fn order_of(x: i128, y: i128) -> i128
    ensures { result ≡ order_of x y }
{
    if x.rem_euclid(256) < y.rem_euclid(256) {
        -1
    } else {
        1
    }
}

// What two characters decide.
fn decided(x: i128, y: i128) -> Option<i128>
    ensures { result ≡ decided x y }
{
    if x == y {
        if x == 0 { Some(0) } else { None }
    } else {
        Some(order_of(x, y))
    }
}

// What the characters so many on from two places decide.
fn decided_at(
    alloc: Global,
    memory: &Memory,
    types: &TypeTable,
    left: &Cell,
    right: &Cell,
    k: u64,
) -> Result<Option<i128>, MemFault>
    requires { AreKnown (length types.now.terms) memory.now }
    ensures { Gives (λ n. n) result (decided_at types.now memory.now left.now right.now k) }
{
    let x = char_at(alloc, memory, types, left, k)?;
    let y = char_at(alloc, memory, types, right, k)?;
    Ok(decided(x, y))
}

/// Compares two texts.
pub(crate) fn compared_at(
    alloc: Global,
    memory: &Memory,
    types: &TypeTable,
    left: &Cell,
    right: &Cell,
) -> Result<i128, MemFault>
    requires { AreKnown (length types.now.terms) memory.now }
    ensures { Gives (λ n. n) result (compared_at types.now memory.now left.now right.now) }
{
    for k in 0..u64::MAX {
        match decided_at(alloc, memory, types, left, right, k) {
            Ok(Some(n)) => return Ok(n),
            Ok(None) => {}
            Err(fault) => return Err(fault),
        }
    }
    Err(MemFault::OutOfMemory)
}

/// Compares so many characters of two texts at most.
pub(crate) fn compared_part(
    alloc: Global,
    memory: &Memory,
    types: &TypeTable,
    left: &Cell,
    right: &Cell,
    n: u64,
) -> Result<i128, MemFault>
    requires { AreKnown (length types.now.terms) memory.now }
    ensures { Gives (λ n. n) result (compared_part types.now memory.now left.now right.now n) }
{
    for k in 0..n {
        match decided_at(alloc, memory, types, left, right, k) {
            Ok(Some(n)) => return Ok(n),
            Ok(None) => {}
            Err(fault) => return Err(fault),
        }
    }
    Ok(0)
}
