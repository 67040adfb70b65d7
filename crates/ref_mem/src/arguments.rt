// The instance of what a variadic function is passed past its parameters.

ghost use Rattle.std.specs.Prelude.{◌≡◌, ◌∷◌, ◌++◌, ◌<◌, ◌^◌, IfOk, OnOk, length};
ghost use Rattle.c_types.specs.declared.term.PathStep.TheVariants.{Index};
ghost use Rattle.ref_cells.specs.Order.{IsOrdered};
ghost use Rattle.ref_mem.specs.Arguments as spec;

use c_types::key::ObjectKey;
use c_types::term::{OutOfMemory, PathStep};
use pta_base::Listing;
use ref_cells::cells::{Cell, Cells, Path, Value, push_entry};
use ref_cells::instance::Instance;
use std::alloc::Global;

// A path under an index.
fn under_index(alloc: Global, i: u64, path: &[PathStep]) -> Result<Path, OutOfMemory>
    ensures { IfOk result (λ whole. whole ≡ Index i ∷ path.now) }
{
    let mut steps = Vec::from_slice(alloc, &[PathStep::Index(i)])?;
    steps.extend_from_slice(path)?;
    Ok(Listing::of(steps))
}

// The cells of one argument behind those of the arguments before it.
fn push_argument(
    alloc: Global,
    i: u64,
    value: &Value,
    list: &mut Vec<(Path, Cell)>,
) -> Result<(), OutOfMemory>
    ensures cells { OnOk result (list.new.items ≡ list.old.items ++ spec.under_index i value.now.cells) }
    ensures ordered { IsOrdered value.now.cells }
{
    for entry in value.cells.as_slice() {
        let path = under_index(alloc, i, entry.0.as_slice())?;
        let cell = entry.1.copy(alloc)?;
        push_entry(list, path, cell)?;
    }
    Ok(())
}

// The cells of all arguments, each under its index.
fn argument_cells(alloc: Global, arguments: &[Value]) -> Result<Cells, OutOfMemory>
    requires { length arguments.now < 2 ^ 63 }
    ensures { IfOk result (λ cells. cells ≡ spec.argument_cells 0 arguments.now) }
{
    let mut list = Vec::new(alloc);
    for (i, value) in arguments.iter().enumerate() {
        push_argument(alloc, i as u64, value, &mut list)?;
    }
    Ok(Cells::of(list))
}

/// What a function is passed past its parameters, as an instance: it has no type, counts its arguments in place of bytes, and has the cells
/// of each argument under the argument's index.
pub fn arguments_object(
    alloc: Global,
    key: ObjectKey,
    arguments: &[Value],
) -> Result<Instance, OutOfMemory>
    requires { length arguments.now < 2 ^ 63 }
    ensures { IfOk result (λ inst. inst ≡ spec.arguments_object key arguments.now) }
{
    let cells = argument_cells(alloc, arguments)?;
    Ok(Instance {
        key,
        live: true,
        ty: None,
        bytes: arguments.len() as u64,
        zero: false,
        cells,
    })
}
