// Cells, values, and why the memory refuses.

ghost use Rattle.std.specs.Prelude.{◌≡◌, [], ◌∷◌, ◌++◌, IfOk};
ghost use Rattle.ref_cells.specs.Order.{IsOrdered};

use c_types::key::ObjectKey;
use c_types::term::{OutOfMemory, PathStep};
use pta_base::Listing;
use std::alloc::{AllocError, AllocFailed, Global};
use std::marker::Model;

/// Steps from an object to a part of it.
pub type Path = Listing<PathStep>;

/// Why a step of the machine isn't defined.
#[derive(Clone, Copy, Debug, PartialEq, Eq)]
pub enum Reason {
    NullUse,
    DeadUse,
    OutOfRange,
    Unset,
    Overflow,
    DivideByZero,
    Mismatch,
    BadCall,
}

/// What a scalar holds. A pointer names an instance and a path in it; `past` says that it points behind that part.
#[derive(Drop)]
pub enum Cell {
    Unset,
    Number(i128),
    Null,
    Pointer {
        instance: u32,
        path: Path,
        past: bool,
    },
    Function(ObjectKey),
}

/// Cells with their paths, which contracts see as the list. They stand in the order of their paths, and no path stands
/// twice.
#[derive(Drop)]
pub struct Cells {
    pub list: Vec<(Path, Cell)>,
}

impl Model for Cells {
    ghost use Rattle.std.specs.Prelude.{List};
    ghost use Rattle.c_types.specs.declared.term.PathStep.{PathStep};
    ghost use Rattle.ref_cells.specs.declared.cells.Cell.{Cell};
    ghost use Rattle.ref_cells.specs.Order.{IsOrdered};

    ghost Value = { List (List PathStep × Cell) };

    ghost view = { λ c. c.list.items };

    ghost invariant = { λ c. IsOrdered c.list.items };
}

/// A value of some type: the cells of all its scalars, but for those of members of unions that aren't active. A scalar
/// and a place are one cell with an empty path.
#[derive(Drop)]
pub struct Value {
    pub cells: Cells,
}

/// A refusal of the memory, which leaves it as it was.
#[derive(Clone, Copy, Debug, PartialEq, Eq)]
pub enum MemFault {
    Stop(Reason),
    OutOfMemory,
}

impl From<AllocError> for MemFault {
    ghost use Rattle.std.specs.Prelude.{◌≡◌};
    ghost use Rattle.ref_cells.specs.declared.cells.MemFault.TheVariants.{OutOfMemory};

    ghost from_gives = { λ _ e. e ≡ OutOfMemory };

    fn from(_error: AllocError) -> MemFault {
        MemFault::OutOfMemory
    }
}

impl From<OutOfMemory> for MemFault {
    ghost use Rattle.std.specs.Prelude.{◌≡◌};
    ghost use Rattle.ref_cells.specs.declared.cells.MemFault.TheVariants.{OutOfMemory as WantOfMemory};

    ghost from_gives = { λ _ e. e ≡ WantOfMemory };

    fn from(_error: OutOfMemory) -> MemFault {
        MemFault::OutOfMemory
    }
}

impl From<Reason> for MemFault {
    ghost use Rattle.std.specs.Prelude.{◌≡◌};
    ghost use Rattle.ref_cells.specs.declared.cells.MemFault.TheVariants.{Stop};

    ghost from_gives = { λ r e. e ≡ Stop r };

    fn from(reason: Reason) -> MemFault {
        MemFault::Stop(reason)
    }
}

/// An equal path.
pub fn copy_path(alloc: Global, path: &[PathStep]) -> Result<Path, OutOfMemory>
    ensures { IfOk result (λ copy. copy ≡ path.now) }
{
    let steps = Vec::from_slice(alloc, path)?;
    Ok(Listing::of(steps))
}

impl Cell {
    /// An equal cell.
    pub fn copy(&self, alloc: Global) -> Result<Cell, OutOfMemory>
        ensures { IfOk result (λ cell. cell ≡ self.now) }
    {
        match self {
            Cell::Unset => Ok(Cell::Unset),
            Cell::Number(n) => Ok(Cell::Number(*n)),
            Cell::Null => Ok(Cell::Null),
            Cell::Pointer {
                instance,
                path,
                past,
            } => {
                let path = copy_path(alloc, path.as_slice())?;
                Ok(Cell::Pointer {
                    instance: *instance,
                    path,
                    past: *past,
                })
            }
            Cell::Function(key) => Ok(Cell::Function(*key)),
        }
    }
}

/// One entry more.
pub fn push_entry(list: &mut Vec<(Path, Cell)>, path: Path, cell: Cell) -> Result<(), OutOfMemory>
    ensures { IfOk result (λ _. list.new.items ≡ list.old.items ++ (path, cell) ∷ []) }
{
    match list.push((path, cell)) {
        Ok(()) => Ok(()),
        Err(_) => Err(OutOfMemory),
    }
}

impl Cells {
    /// No cells.
    pub fn none(alloc: Global) -> Cells
        ensures { result ≡ [] }
    {
        Cells {
            list: Vec::new(alloc),
        }
    }

    /// One cell with an empty path.
    pub fn one(alloc: Global, cell: Cell) -> Result<Cells, OutOfMemory>
        ensures { IfOk result (λ cells. cells ≡ ([], cell) ∷ []) }
    {
        let mut list = Vec::new(alloc);
        push_entry(&mut list, Listing::new(alloc), cell)?;
        Ok(Cells { list })
    }

    /// The cells of a list that is in order.
    pub fn of(list: Vec<(Path, Cell)>) -> Cells
        requires { IsOrdered list.items }
        ensures { result ≡ list.items }
    {
        Cells { list }
    }

    /// The cells, each with its path.
    pub fn as_slice(&self) -> &[(Path, Cell)]
        ensures cells { result.now ≡ self.now }
        ensures ordered { IsOrdered self.now }
    {
        self.list.as_slice()
    }

    /// Equal cells.
    pub fn copy(&self, alloc: Global) -> Result<Cells, OutOfMemory>
        ensures { IfOk result (λ cells. cells ≡ self.now) }
    {
        let list = copy_entries(alloc, self.list.as_slice())?;
        Ok(Cells { list })
    }
}

/// Equal entries.
pub fn copy_entries(alloc: Global, cells: &[(Path, Cell)]) -> Result<Vec<(Path, Cell)>, OutOfMemory>
    ensures { IfOk result (λ list. list.items ≡ cells.now) }
{
    let mut list = Vec::new(alloc);
    for entry in cells {
        let path = copy_path(alloc, entry.0.as_slice())?;
        let cell = entry.1.copy(alloc)?;
        push_entry(&mut list, path, cell)?;
    }
    Ok(list)
}

impl Value {
    /// A value without cells, as that of type void.
    pub fn none(alloc: Global) -> Value
        ensures { result ≡ record { cells = [] } }
    {
        Value {
            cells: Cells::none(alloc),
        }
    }

    /// A scalar.
    pub fn one(alloc: Global, cell: Cell) -> Result<Value, OutOfMemory>
        ensures { IfOk result (λ value. value ≡ record { cells = ([], cell) ∷ [] }) }
    {
        let cells = Cells::one(alloc, cell)?;
        Ok(Value { cells })
    }

    /// An equal value.
    pub fn copy(&self, alloc: Global) -> Result<Value, OutOfMemory>
        ensures { IfOk result (λ value. value ≡ self.now) }
    {
        let cells = self.cells.copy(alloc)?;
        Ok(Value { cells })
    }
}
