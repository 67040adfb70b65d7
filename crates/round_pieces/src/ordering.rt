//! In which order a round's rows have their turns.
ghost use Rattle.std.specs.Prelude.{◌≡◌, ℕ, ◌<◌, true, false, OnOk, IfOk, Contains, length, slice_index_or, slice_set};
ghost use Rattle.round_pieces.specs.Rounds.{AreRowsApart};
ghost use Rattle.round_pieces.specs.Orders.{AreMarked};

use edge_book::PairBook;
use pta_base::OutOfMemory;
use std::alloc::Global;

/// Whether a row is a new one: one of those that have a mark, whose mark isn't set. Its mark is set from then on.
fn visit(marks: &mut Vec<bool>, row: u32) -> bool
    ensures length { length marks.new.items ≡ length marks.old.items }
    ensures new { result ≡ true
        → (row < length marks.old.items) × (slice_index_or marks.old.items row false ≡ false)
        × (marks.new.items ≡ slice_set marks.old.items row true) }
    ensures old { result ≡ false
        → (marks.new.items ≡ marks.old.items) × (row < length marks.old.items → slice_index_or marks.old.items row false ≡ true) }
{
    let at = row as usize;
    if at >= marks.len() || marks[at] {
        return false;
    }
    marks[at] = true;
    true
}

/// Adds the rows that edges reach from a row, each behind those that it reaches, but for rows that have their marks, and
/// marks them. `path` is empty before and after.
fn walk(
    out: &mut Vec<u32>,
    path: &mut Vec<(u32, usize)>,
    marks: &mut Vec<bool>,
    book: &PairBook,
    root: u32,
) -> Result<(), OutOfMemory> {
    if !visit(marks, root) {
        return Ok(());
    }
    path.push((root, 0))?;
    for _ in 0..u64::MAX {
        let Some((row, next)) = path.pop() else {
            return Ok(());
        };
        match book.targets(row).get(next) {
            Some(to) => {
                path.push((row, next + 1))?;
                if visit(marks, *to) {
                    path.push((*to, 0))?;
                }
            }
            None => out.push(row)?,
        }
    }
    Ok(())
}

/// The rows that edges reach from some rows, in the order against that in which a search in depth leaves them: a row stands
/// before those that it reaches, but where edges go in a ring.
fn reached(
    alloc: Global,
    book: &PairBook,
    roots: &[u32],
    rows: u32,
) -> Result<Vec<u32>, OutOfMemory> {
    let mut marks = vec![in alloc; false; rows as usize]?;
    let mut path = Vec::new(alloc);
    let mut out = Vec::new(alloc);
    for root in roots {
        walk(&mut out, &mut path, &mut marks, book, *root)?;
    }
    out.reverse();
    Ok(out)
}

/// Adds those rows of a list that have a mark which isn't set, each once, and sets their marks.
pub(crate) fn put_once(
    out: &mut Vec<u32>,
    marks: &mut Vec<bool>,
    list: &[u32],
) -> Result<(), OutOfMemory>
    requires marked { AreMarked out.old.items marks.old.items }
    requires once { AreRowsApart out.old.items }
    ensures length { length marks.new.items ≡ length marks.old.items }
    ensures marked { OnOk result (AreMarked out.new.items marks.new.items) }
    ensures once { OnOk result (AreRowsApart out.new.items) }
    ensures rows { OnOk result ((row : ℕ) → Contains list.now row → row < length marks.old.items → Contains out.new.items row) }
    ensures kept { OnOk result ((row : ℕ) → Contains out.old.items row → Contains out.new.items row) }
{
    for row in list {
        if visit(marks, *row) {
            out.push(*row)?;
        }
    }
    Ok(())
}

/// The rows of a list, those first that stand in another list, in the order of this one; and so some stand twice.
fn in_order_of(
    alloc: Global,
    order: &[u32],
    todo: &[u32],
    rows: u32,
) -> Result<Vec<u32>, OutOfMemory> {
    let mut marks = vec![in alloc; false; rows as usize]?;
    for row in todo {
        visit(&mut marks, *row);
    }
    let mut out = Vec::new(alloc);
    for row in order {
        let at = *row as usize;
        if at < marks.len() && marks[at] {
            out.push(*row)?;
        }
    }
    for row in todo {
        out.push(*row)?;
    }
    Ok(out)
}

/// The rows with which a search begins: in the order of the round before, or, where there was none, in that of a search of its own.
fn roots(
    alloc: Global,
    book: &PairBook,
    before: &[u32],
    todo: &[u32],
    rows: u32,
) -> Result<Vec<u32>, OutOfMemory> {
    if before.is_empty() {
        return reached(alloc, book, todo, rows);
    }
    in_order_of(alloc, before, todo, rows)
}

/// The rows of a round: those that have grown, and those that edges reach from them, each once. What goes along edges from
/// row to row finds the next row later in the order, but once for each ring, so one round carries it all the way (Pearce,
/// Kelly and Hankin 2003, on the order in which a worklist's rows are visited). The order is that in which the rows stood in the round
/// before, mended where edges are new, by a search that begins with its first rows; so rows which lead into a ring come before
/// it. The first round's search begins with what a search before it leaves last.
pub fn turn_order(
    alloc: Global,
    book: &PairBook,
    before: &[u32],
    todo: &[u32],
    rows: u32,
) -> Result<Vec<u32>, OutOfMemory>
    ensures once { IfOk result (λ order. AreRowsApart order.items) }
    ensures all { IfOk result (λ order. (row : ℕ) → Contains todo.now row → row < rows → Contains order.items row) }
    ensures rows { IfOk result (λ order. (row : ℕ) → Contains order.items row → row < rows) }
{
    let first = roots(alloc, book, before, todo, rows)?;
    let second = reached(alloc, book, first.as_slice(), rows)?;
    let mut marks = vec![in alloc; false; rows as usize]?;
    let mut out = Vec::new(alloc);
    put_once(&mut out, &mut marks, second.as_slice())?;
    put_once(&mut out, &mut marks, todo)?;
    Ok(out)
}
