// What a library function answers.

ghost use Rattle.std.specs.Prelude.{◌≡◌, ◌<◌, [], ◌∷◌, ◌++◌, IfOk, length};
ghost use Rattle.c_types.specs.Table.{type_of};
ghost use Rattle.ref_elements.specs.Outcomes.{null_value, number_value, start_value, is_pointing, place_in, pointers_in};

use c_types::table::TypeTable;
use c_types::term::{OutOfMemory, PathStep, TypeId};
use pta_base::Listing;
use ref_cells::cells::{Cell, Path, Value, copy_path};
use ref_cells::numbers::converted;
use std::alloc::Global;

/// How a call of a library function goes on: it is done, wants another turn, calls a function back and wants another
/// turn then, keeps a function for the program's end and is done, or ends the program.
#[derive(Drop)]
pub enum Next {
    Done,
    Again,
    Calls {
        callee: Cell,
        arguments: Listing<Value>,
    },
    Keeps(Cell),
    Ends {
        status: i32,
        at_once: bool,
    },
}

/// What a library function answers: its value, the pointers that it put into cells, each with its place, in the order of
/// the places in memory, and how the call goes on.
#[derive(Drop)]
pub struct LibOutcome {
    pub value: Value,
    pub stores: Listing<(Cell, Cell)>,
    pub next: Next,
}

/// A call that goes on like this, and put no pointer into a cell.
pub fn goes(alloc: Global, value: Value, next: Next) -> LibOutcome
    ensures { result ≡ record { value = value; stores = []; next = next } }
{
    LibOutcome {
        value,
        stores: Listing::new(alloc),
        next,
    }
}

/// A call that is done.
pub fn gives(alloc: Global, value: Value) -> LibOutcome
    ensures { result ≡ record { value = value; stores = []; next = Next.Done } }
{
    goes(alloc, value, Next::Done)
}

/// A number as one of the result's type.
pub fn number_value(
    alloc: Global,
    types: &TypeTable,
    ty: TypeId,
    n: i128,
) -> Result<Value, OutOfMemory>
    requires { ty.0 < length types.now.terms }
    ensures { IfOk result (λ value. value ≡ number_value (type_of types.now ty.0) n) }
{
    Value::one(alloc, Cell::Number(converted(types, ty, n)))
}

/// Null.
pub fn null_value(alloc: Global) -> Result<Value, OutOfMemory>
    ensures { IfOk result (λ value. value ≡ null_value) }
{
    Value::one(alloc, Cell::Null)
}

/// A pointer to the first element of an instance.
pub fn start_value(alloc: Global, instance: u32) -> Result<Value, OutOfMemory>
    ensures { IfOk result (λ value. value ≡ start_value instance) }
{
    let steps = Vec::from_slice(alloc, &[PathStep::Index(0)])?;
    Value::one(
        alloc,
        Cell::Pointer {
            instance,
            path: Listing::of(steps),
            past: false,
        },
    )
}

/// Whether a cell is a pointer or a function.
pub fn is_pointing(cell: &Cell) -> bool
    ensures { result ≡ is_pointing cell.now }
{
    match cell {
        Cell::Pointer { .. } | Cell::Function(_) => true,
        Cell::Unset | Cell::Number(_) | Cell::Null => false,
    }
}

// The place of a cell.
fn place_in(alloc: Global, instance: u32, path: &[PathStep]) -> Result<Cell, OutOfMemory>
    ensures { IfOk result (λ cell. cell ≡ place_in instance path.now) }
{
    let path = copy_path(alloc, path)?;
    Ok(Cell::Pointer {
        instance,
        path,
        past: false,
    })
}

/// One pair more.
pub fn push_pair(list: &mut Vec<(Cell, Cell)>, place: Cell, cell: Cell) -> Result<(), OutOfMemory>
    ensures { IfOk result (λ _. list.new.items ≡ list.old.items ++ (place, cell) ∷ []) }
{
    match list.push((place, cell)) {
        Ok(()) => Ok(()),
        Err(_) => Err(OutOfMemory),
    }
}

/// The pointers among these cells of an instance, each with its place.
pub fn pointers_in(
    alloc: Global,
    instance: u32,
    cells: &[(Path, Cell)],
) -> Result<Listing<(Cell, Cell)>, OutOfMemory>
    ensures { IfOk result (λ list. list ≡ pointers_in instance cells.now) }
{
    let mut list = Vec::new(alloc);
    for entry in cells {
        if is_pointing(&entry.1) {
            let place = place_in(alloc, instance, entry.0.as_slice())?;
            let cell = entry.1.copy(alloc)?;
            push_pair(&mut list, place, cell)?;
        }
    }
    Ok(Listing::of(list))
}

/// A call that is done, and put these pointers into cells.
pub fn stores_and_gives(value: Value, stores: Listing<(Cell, Cell)>) -> LibOutcome
    ensures { result ≡ record { value = value; stores = stores; next = Next.Done } }
{
    LibOutcome {
        value,
        stores,
        next: Next::Done,
    }
}
