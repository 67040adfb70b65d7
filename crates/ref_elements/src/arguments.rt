// The arguments of a call.

ghost use Rattle.std.specs.Prelude.{◌≡◌, IfOk, MatchOption};
ghost use Rattle.ref_elements.specs.Arguments.{argument, number_of, count_of};
ghost use Rattle.ref_cells.specs.declared.cells.Cell.TheVariants.{Unset};

use c_types::term::OutOfMemory;
use ref_cells::cells::{Cell, Value};
use std::alloc::Global;

/// The argument in that place, where it has a cell.
pub fn argument(arguments: &[Value], k: usize) -> Option<&Cell>
    ensures { MatchOption result (argument arguments.now k ≡ Unset) (λ cell. argument arguments.now k ≡ cell.now) }
{
    match arguments.get(k) {
        Some(value) => match value.cells.as_slice() {
            [entry, ..] => Some(&entry.1),
            [] => None,
        },
        None => None,
    }
}

/// An equal cell, unset where there is none.
pub fn scalar(alloc: Global, arguments: &[Value], k: usize) -> Result<Cell, OutOfMemory>
    ensures { IfOk result (λ cell. cell ≡ argument arguments.now k) }
{
    match argument(arguments, k) {
        Some(cell) => cell.copy(alloc),
        None => Ok(Cell::Unset),
    }
}

fn number_in(cell: &Cell) -> i128
    ensures { result ≡ number_of cell.now }
{
    match cell {
        Cell::Number(n) => *n,
        _ => 0,
    }
}

/// The number in an argument.
pub fn number(arguments: &[Value], k: usize) -> i128
    ensures { result ≡ number_of (argument arguments.now k) }
{
    match argument(arguments, k) {
        Some(cell) => number_in(cell),
        None => 0,
    }
}

/// A number of bytes, elements or characters.
pub fn count(arguments: &[Value], k: usize) -> u64
    ensures { result ≡ count_of (argument arguments.now k) }
{
    number(arguments, k).rem_euclid(18446744073709551616) as u64
}
