// Pointers moved and compared.

ghost use Rattle.std.specs.Prelude.{◌≡◌, ℕ, ◌<◌, ◌-◌, [], ◌∷◌, ◌++◌, List, Ok, Err, if◌then◌else◌, pos, IfOk, IfSome};
ghost use Rattle.std.specs.Prelude.{length, slice_get, take};
ghost use Rattle.std.specs.Ordering.{int_eq};
ghost use Rattle.c_consts.specs.Wrapped.{truth};
ghost use Rattle.c_types.specs.declared.term.PathStep.{PathStep};
ghost use Rattle.c_types.specs.declared.term.PathStep.TheVariants.{Index};
ghost use Rattle.ref_cells.specs.declared.cells.Cell.TheVariants.{Pointer};
ghost use Rattle.ref_cells.specs.Wholes.{shape_in, IsOver};
ghost use Rattle.ref_cells.specs.Answers.{Gives, Agrees};
ghost use Rattle.ref_cells.specs.Places.{AreKnown};
ghost use Rattle.ref_places.specs.Pointers.{last_index, front, count_of, mark_moved, in_order, elements_at, index_moved};
ghost use Rattle.ref_places.specs.Pointers.{moved, same_bool, same_step, same_path, same_pointer, between, ordered};
ghost use Rattle.ref_places.specs.Pointers.{compared};
ghost use Rattle.ref_places.specs.Pointers.{signed_by};
ghost use Rattle.ref_cells.specs.declared.cells.Reason.TheVariants.{OutOfRange};

use crate::parts::along;
use crate::places::same_object;
use c_types::table::TypeTable;
use c_types::term::{OutOfMemory, PathStep, Term};
use core_tree::Op;
use pta_base::Listing;
use ref_cells::cells::{Cell, MemFault, Path, Reason, copy_path};
use ref_cells::instance::Instance;
use ref_cells::wholes::{Whole, whole_of};
use ref_state::lists::push;
use std::alloc::Global;

/// An index that is the last step of a path.
pub fn last_index(path: &[PathStep]) -> Option<u64>
    ensures { result ≡ last_index path.now }
{
    match path.last() {
        Some(PathStep::Index(i)) => Some(*i),
        Some(PathStep::Member(_)) => None,
        None => None,
    }
}

// The path but for its last step.
fn front(path: &[PathStep]) -> &[PathStep]
    ensures { result.now ≡ front path.now }
{
    &path[..path.len().saturating_sub(1)]
}

// How many elements an array has.
fn count_of(types: &TypeTable, whole: Option<Whole>) -> u64
    requires { IfSome whole (IsOver (length types.now.terms)) }
    ensures { result ≡ count_of (shape_in types.now whole) }
{
    match whole {
        Some(Whole::Many(_, n)) => n,
        Some(Whole::One(id)) => match types.term(id) {
            Term::Array {
                length: Some(n),
                ..
            } => *n,
            _ => 0,
        },
        None => 0,
    }
}

// The elements of the array in which the last index of a path is.
fn elements_at(types: &TypeTable, memory: &[Instance], instance: u32, path: &[PathStep]) -> u64
    requires { AreKnown (length types.now.terms) memory.now }
    ensures { result ≡ elements_at types.now (slice_get memory.now instance) path.now }
{
    match memory.get(instance as usize) {
        Some(inst) => count_of(types, along(types, whole_of(types, inst), front(path))),
        None => 0,
    }
}

// An index moved within an array of so many elements, or to its end.
fn index_moved(count: u64, i: u64, minus: bool, k: i128) -> Result<u64, Reason>
    ensures { Agrees (λ n. n) result (index_moved count i (signed_by minus k)) }
{
    let count = i128::from(count);
    let i = i128::from(i);
    if minus {
        if i - count <= k && k <= i {
            return Ok((i - k) as u64);
        }
    } else if -i <= k && k <= count - i {
        return Ok((i + k) as u64);
    }
    Err(Reason::OutOfRange)
}

// A path with another last index.
fn with_index(alloc: Global, path: &[PathStep], i: u64) -> Result<Path, OutOfMemory>
    ensures { IfOk result (λ steps. steps ≡ front path.now ++ Index i ∷ []) }
{
    let mut steps = Vec::from_slice(alloc, front(path))?;
    push(&mut steps, PathStep::Index(i))?;
    Ok(Listing::of(steps))
}

// The mark of a place that is moved by so many, where it has one.
fn mark_moved(
    instance: u32,
    path: &[PathStep],
    past: bool,
    minus: bool,
    k: i128,
) -> Result<bool, Reason>
    ensures { Agrees (λ mark. Pointer instance path.now mark) result (mark_moved instance path.now past (signed_by minus k)) }
{
    let (back, on) = if minus { (1, -1) } else { (-1, 1) };
    if k == 0 {
        Ok(past)
    } else if past && k == back {
        Ok(false)
    } else if !past && k == on {
        Ok(true)
    } else {
        Err(Reason::OutOfRange)
    }
}

// What is no pointer to an object stays where it is.
fn unmoved(cell: Cell, minus: bool, k: i128, reason: Reason) -> Result<Cell, MemFault>
    ensures { Gives (λ c. c) result (if int_eq (signed_by minus k) (pos 0) then Ok cell else Err reason) }
{
    if k == 0 {
        Ok(cell)
    } else {
        Err(MemFault::Stop(reason))
    }
}

/// A pointer moved by so many elements, backward where `minus` stands.
#[tactic(auto, unfolding(crate::specs::Pointers::moved))]
pub fn moved(
    alloc: Global,
    types: &TypeTable,
    memory: &[Instance],
    cell: Cell,
    minus: bool,
    k: i128,
) -> Result<Cell, MemFault>
    requires { AreKnown (length types.now.terms) memory.now }
    ensures { Gives (λ c. c) result (moved types.now memory.now cell (signed_by minus k)) }
{
    match cell {
        Cell::Null => unmoved(cell, minus, k, Reason::NullUse),
        Cell::Function(_) => unmoved(cell, minus, k, Reason::OutOfRange),
        Cell::Pointer {
            instance,
            path,
            past,
        } => match last_index(path.as_slice()) {
            Some(i) => {
                let count = elements_at(types, memory, instance, path.as_slice());
                let i = index_moved(count, i, minus, k)?;
                let path = with_index(alloc, path.as_slice(), i)?;
                Ok(Cell::Pointer {
                    instance,
                    path,
                    past,
                })
            }
            None => {
                let past = mark_moved(instance, path.as_slice(), past, minus, k)?;
                Ok(Cell::Pointer {
                    instance,
                    path,
                    past,
                })
            }
        },
        Cell::Unset | Cell::Number(_) => Err(MemFault::Stop(Reason::Mismatch)),
    }
}

// Whether two steps are equal.
fn same_step(a: PathStep, b: PathStep) -> bool
    ensures { result ≡ same_step a b }
{
    match a {
        PathStep::Index(i) => match b {
            PathStep::Index(j) => i == j,
            PathStep::Member(_) => false,
        },
        PathStep::Member(i) => match b {
            PathStep::Index(_) => false,
            PathStep::Member(j) => i == j,
        },
    }
}

// Whether two paths are equal.
fn same_path(p: &[PathStep], q: &[PathStep]) -> bool
    ensures { result ≡ same_path p.now q.now }
{
    let mut rest = q;
    for a in p {
        match rest {
            [b, more @ ..] => {
                if !same_step(*a, *b) {
                    return false;
                }
                rest = more;
            }
            [] => return false,
        }
    }
    rest.is_empty()
}

// Whether two marks are equal.
fn same_mark(a: bool, b: bool) -> bool
    ensures { result ≡ same_bool a b }
{
    if a { b } else { !b }
}

// Whether two cells are one pointer.
fn same_pointer(a: &Cell, b: &Cell) -> bool
    ensures { result ≡ same_pointer a.now b.now }
{
    match a {
        Cell::Null => matches!(b, Cell::Null),
        Cell::Function(key) => match b {
            Cell::Function(other) => same_object(*key, *other),
            _ => false,
        },
        Cell::Pointer {
            instance,
            path,
            past,
        } => match b {
            Cell::Pointer {
                instance: other,
                path: steps,
                past: mark,
            } => {
                *instance == *other
                    && same_path(path.as_slice(), steps.as_slice())
                    && same_mark(*past, *mark)
            }
            _ => false,
        },
        Cell::Unset | Cell::Number(_) => false,
    }
}

fn truth(holds: bool) -> i128
    ensures { result ≡ truth holds }
{
    if holds { 1 } else { 0 }
}

// An operator over two indices of one array.
fn in_order(op: Op, i: u64, j: u64) -> Result<i128, Reason>
    ensures { Agrees (λ n. n) result (in_order op i j) }
{
    match op {
        Op::Minus => Ok(i128::from(i) - i128::from(j)),
        Op::Less => Ok(truth(i < j)),
        Op::Greater => Ok(truth(j < i)),
        Op::LessEqual => Ok(truth(i <= j)),
        Op::GreaterEqual => Ok(truth(j <= i)),
        _ => Err(Reason::Mismatch),
    }
}

// Order and difference of two paths in one instance.
fn between(op: Op, p: &[PathStep], q: &[PathStep]) -> Result<i128, Reason>
    ensures { Agrees (λ n. n) result
        (if same_path (front p.now) (front q.now) then between op (last_index p.now) (last_index q.now) else Err OutOfRange) }
{
    if !same_path(front(p), front(q)) {
        return Err(Reason::OutOfRange);
    }
    match last_index(p) {
        Some(i) => match last_index(q) {
            Some(j) => in_order(op, i, j),
            None => Err(Reason::OutOfRange),
        },
        None => Err(Reason::OutOfRange),
    }
}

// Order and difference.
fn ordered(op: Op, a: &Cell, b: &Cell) -> Result<i128, Reason>
    ensures { Agrees (λ n. n) result (ordered op a.now b.now) }
{
    match a {
        Cell::Pointer { instance, path, .. } => match b {
            Cell::Pointer {
                instance: other,
                path: steps,
                ..
            } => {
                if *instance == *other {
                    between(op, path.as_slice(), steps.as_slice())
                } else {
                    Err(Reason::OutOfRange)
                }
            }
            _ => Err(Reason::OutOfRange),
        },
        _ => Err(Reason::OutOfRange),
    }
}

/// An operator over two pointers.
#[tactic(auto, unfolding(crate::specs::Pointers::compared))]
pub fn compared(op: Op, a: &Cell, b: &Cell) -> Result<i128, Reason>
    ensures { Agrees (λ n. n) result (compared op a.now b.now) }
{
    match op {
        Op::Equal => Ok(truth(same_pointer(a, b))),
        Op::NotEqual => Ok(truth(!same_pointer(a, b))),
        _ => ordered(op, a, b),
    }
}
