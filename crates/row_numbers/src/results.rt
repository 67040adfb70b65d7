// The rows of functions' results.

ghost use Rattle.std.specs.Prelude.{◌≡◌, ◌<◌, ◌≤◌, ◌^◌, IfOk, length};
ghost use Rattle.core_tree.specs.Typed.{trees_in};
ghost use Rattle.core_tree.specs.Range.{InRange};
ghost use Rattle.obj_space.specs.View.{view_of};
ghost use Rattle.row_numbers.specs.Setting.{row_total};
ghost use Rattle.row_numbers.specs.Results.{AreResults};

use crate::functions::{function_keys, objects_at, present};
use crate::numbering::{present_before, result_widths, starts, total};
use c_types::key::ObjectKey;
use core_tree::Program;
use obj_space::Space;
use pta_base::OutOfMemory;
use std::alloc::Global;

/// The function that begins at each location, the functions of a program in order, the number of functions before each
/// location, the first row of each function's result, and the row that stands for nodes without rows.
#[derive(Drop)]
pub struct Results {
    pub at: Vec<Option<ObjectKey>>,
    pub functions: Vec<ObjectKey>,
    pub before: Vec<u32>,
    pub starts: Vec<u32>,
    pub none: u32,
}

/// Numbers the rows of functions' results from the number of all rows, with no look at the nodes: these rows are the last
/// ones but that of nodes without rows.
pub fn number_results(
    alloc: Global,
    program: &Program,
    space: &Space,
    rows: u64,
) -> Result<Results, OutOfMemory>
    requires range { InRange (trees_in program.now) }
    requires entities { length program.now.entities.items < 2 ^ 32 }
    requires rows { rows ≡ row_total (trees_in program.now) (view_of space.now) }
    requires few { rows ≤ 2 ^ 24 }
    ensures { IfOk result (λ results. AreResults (trees_in program.now) (view_of space.now) results) }
{
    let keys = function_keys(alloc, program)?;
    let at = objects_at(alloc, space, keys.as_slice())?;
    let functions = present(alloc, at.as_slice())?;
    let widths = result_widths(alloc, program, functions.as_slice())?;
    let before = present_before(alloc, at.as_slice())?;
    let none = rows - 1;
    let first = none - total(widths.as_slice());
    let firsts = starts(alloc, first as u32, widths.as_slice())?;
    Ok(Results {
        at,
        functions,
        before,
        starts: firsts,
        none: none as u32,
    })
}
