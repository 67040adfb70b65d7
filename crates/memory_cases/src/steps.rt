// Whether the types of a memory, and of what a call gets, are the table's.

ghost use Rattle.std.specs.Prelude.{◌<◌, IsTrue, length};
ghost use Rattle.ref_cells.specs.Places.{IsKnown, AreKnown};

use c_types::table::TypeTable;
use c_types::term::TypeId;
use ref_cells::instance::Instance;
use ref_mem::memory::Memory;

/// Whether a type is the table's, where there is one.
pub(crate) fn is_known(types: &TypeTable, ty: Option<TypeId>) -> bool
    ensures { IsTrue result → IsKnown (length types.now.terms) ty }
{
    match ty {
        Some(id) => id.0 < types.type_count(),
        None => true,
    }
}

fn all_known(types: &TypeTable, instances: &[Instance]) -> bool
    ensures { IsTrue result → AreKnown (length types.now.terms) instances.now }
{
    instances.iter().all(|inst| is_known(types, inst.ty))
}

/// Whether the type of each instance is the table's.
pub(crate) fn are_known(types: &TypeTable, memory: &Memory) -> bool
    ensures { IsTrue result → AreKnown (length types.now.terms) memory.now }
{
    all_known(types, memory.instances())
}
