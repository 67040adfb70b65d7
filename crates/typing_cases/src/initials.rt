//! Initialisers with what the standard says of them (C11 6.7.9p17, p19, p20).

ghost use Rattle.std.specs.Prelude.{◌<◌, ℕ, length, IfOk};
ghost use Rattle.c_inits.specs.Tables.{HasShape};

use crate::fields::{push_to, sides};
use c_inits::cursor::{Expression, Frame};
use c_inits::filling::put_value;
use c_inits::items::{InitAction, InitItem, lasting_items};
use c_inits::places::place_item;
use c_types::table::TypeTable;
use c_types::term::{OutOfMemory, PathStep, Term, TypeId};
use std::alloc::Global;

// The step that a text tells: a member's number behind a dot, or an element's.
fn step_of(text: &str) -> PathStep {
    match text.strip_prefix('.') {
        Some(member) => PathStep::Member(member.parse().unwrap_or(99)),
        None => PathStep::Index(text.parse().unwrap_or(99)),
    }
}

// The path that a text tells: its steps stand apart by bars.
fn path_of(alloc: Global, text: &str) -> Result<Vec<PathStep>, OutOfMemory> {
    let mut path = Vec::new(alloc);
    for step in text.split('/') {
        push_to(&mut path, step_of(step))?;
    }
    Ok(path)
}

// What an initialiser does that a text tells, as `.1/.0=7`: a path, and its node.
fn put(alloc: Global, actions: &mut Vec<InitAction>, text: &str) -> Result<(), OutOfMemory> {
    let (steps, node) = text.split_once('=').unwrap_or((text, ""));
    let cleared = path_of(alloc, steps)?;
    push_to(actions, InitAction::Clears(cleared))?;
    let item = InitItem {
        path: path_of(alloc, steps)?,
        node: node.parse().unwrap_or(99),
        character: None,
    };
    push_to(actions, InitAction::Puts(item))
}

// Whether these are the numbers of a text, which stand apart by single spaces.
fn are_numbers(numbers: &[u64], text: &str) -> bool {
    for (at, number) in text.split(' ').enumerate() {
        if number.parse::<u64>().ok() != numbers.get(at).copied() {
            return false;
        }
    }
    numbers.len() == text.split(' ').count()
}

// Initialisers in turn, and the nodes of the items that last.
const REPLACED: &str =
    "0=1 1=2 0=9 => 2 9 # int a[]={1,2,[0]=9}: the first item is replaced, and the last keeps its own position
.1/.0=1 .1=7 => 7 # {.s.x=1,.s=v}: the whole replaces the part
.1=7 .1/.0=1 => 7 1 # {.s=v,.s.x=1}: both stay
0=3 .0=4 => 3 4 # an element and a member of one number are not one sub-object";

// The nodes of the items that last.
fn nodes_left(alloc: Global, row: &str) -> Result<Vec<u64>, OutOfMemory> {
    let mut actions = Vec::new(alloc);
    for text in row.split(' ') {
        put(alloc, &mut actions, text)?;
    }
    let items = lasting_items(alloc, actions)?;
    let mut nodes = Vec::new(alloc);
    for item in &items {
        push_to(&mut nodes, u64::from(item.node))?;
    }
    Ok(nodes)
}

#[test]
fn replaced_items(rt: HostRuntime) -> Result<(), OutOfMemory> {
    for row in REPLACED.split('\n') {
        let (items, wanted) = sides(row);
        let nodes = nodes_left(rt.alloc(), items)?;
        let (wanted, _) = wanted.split_once(" # ").unwrap_or((wanted, ""));
        assert!(rt; are_numbers(nodes.as_slice(), wanted), "{row}");
    }
    Ok(())
}

// int [2][2], and int.
fn two_rows(table: &mut TypeTable) -> Result<(TypeId, TypeId), OutOfMemory>
    ensures { IfOk result (λ p. (p.0.0 < length table.new.terms) × (p.1.0 < length table.new.terms)
        × ((limit : ℕ) → HasShape table.new limit p.0.0) × ((limit : ℕ) → HasShape table.new limit p.1.0)) }
{
    let int = table.add(Term::Integer {
        size: 4,
        rank: 4,
        signed: true,
    })?;
    let row = table.add(Term::Array {
        of: int,
        length: Some(2),
    })?;
    let rows = table.add(Term::Array {
        of: row,
        length: Some(2),
    })?;
    Ok((rows, int))
}

// The step in that position, as a number.
fn number_at(frames: &[Frame], position: usize) -> u64 {
    if position >= frames.len() {
        return 99;
    }
    match frames[position].step {
        PathStep::Index(k) => k,
        PathStep::Member(k) => u64::from(k),
    }
}

// int m[2][2] = {1, 2, 3, 4, 5}: the row and column of each, and how many have a place.
fn placed_numbers(alloc: Global) -> Result<Vec<u64>, OutOfMemory> {
    let mut table = TypeTable::new(alloc);
    let (rows, int) = two_rows(&mut table)?;
    numbers_in(alloc, &table, rows, int)
}

fn numbers_in(
    alloc: Global,
    table: &TypeTable,
    rows: TypeId,
    int: TypeId,
) -> Result<Vec<u64>, OutOfMemory>
    requires rows { rows.0 < length table.now.terms }
    requires int { int.0 < length table.now.terms }
    requires shaped { HasShape table.now 9 rows.0 }
{
    let mut frames = Vec::new(alloc);
    let mut numbers = Vec::new(alloc);
    let mut started = false;
    let value = Expression {
        ty: int,
        text: false,
    };
    for node in 0..5 {
        match place_item(table, 9, rows, &mut frames, started, &[], node, Some(value))? {
            Ok(_) => {
                push_to(&mut numbers, number_at(frames.as_slice(), 0))?;
                push_to(&mut numbers, number_at(frames.as_slice(), 1))?;
            }
            Err(bad) => {
                push_to(&mut numbers, u64::from(bad))?;
                return Ok(numbers);
            }
        }
        started = true;
    }
    Ok(numbers)
}

#[test]
fn items_in_order(rt: HostRuntime) -> Result<(), OutOfMemory> {
    let numbers = placed_numbers(rt.alloc())?;
    assert!(rt; are_numbers(numbers.as_slice(), "0 0 0 1 1 0 1 1 4"));
    assert!(rt; puts_one(rt.alloc())?);
    Ok(())
}

// int x = 5 puts one item; int m[2][2] = 5 is refused at the expression.
fn puts_one(alloc: Global) -> Result<bool, OutOfMemory> {
    let mut table = TypeTable::new(alloc);
    let (rows, int) = two_rows(&mut table)?;
    let mut actions = Vec::new(alloc);
    let value = Expression {
        ty: int,
        text: false,
    };
    let path = [PathStep::Index(1)];
    let taken = put_value(alloc, &table, 9, int, &path, 5, value, &mut actions)?;
    let refused = put_value(alloc, &table, 9, rows, &path, 6, value, &mut actions)?;
    Ok(actions.len() == 1 && taken == None && refused == Some(6))
}
