// Completing a tag.
ghost use Rattle.std.specs.Prelude.{◌≡◌, ◌<◌, ◌⊎◌, ℕ, List, None, true, length, map, OnOk, is_some};
ghost use Rattle.c_types.specs.Trees.{Ctype};
ghost use Rattle.c_types.specs.Layout.{Extent};
ghost use Rattle.c_types.specs.Table.{type_of, members_in, extent_in, size_below, nodes_within};
ghost use Rattle.c_types.specs.Made.{AreMembers, StandsAsStructure, StandsAsUnion};
ghost use Rattle.c_inits.specs.Tables.{part_of};
ghost use Rattle.c_senses.specs.Limits.{is_small};
ghost use Rattle.core_nodes.specs.Standing.{IsReady};
ghost use Rattle.struct_rows.specs.Completes.{Completes};

use c_types::term::{MemberTerm, OutOfMemory, TypeId};
use core_tree::node::Unit;

/// Gives a tag its members. Only memory may want.
pub fn complete(unit: &mut Unit, tag: u32, members: Vec<MemberTerm>) -> Result<(), OutOfMemory>
    requires ready { IsReady unit.old }
    requires tag { tag < unit.old.types.tags }
    requires incomplete { members_in unit.old.types tag ≡ None }
    requires stands { StandsAsStructure unit.old.types.terms tag ⊎ StandsAsUnion unit.old.types.terms tag }
    requires members { AreMembers unit.old.types tag members.items }
    ensures ready { IsReady unit.new }
    ensures completes { OnOk result (Completes unit.old unit.new tag (map (part_of unit.old.types) members.items)) }
{
    // (What every table keeps is told by its count.)
    let _count = unit.types.type_count();
    unit.types.complete(tag, members)
}

/// Whether a type that has a size has one below 2^63, and at most 2^24 nodes.
pub fn is_small_type(unit: &Unit, ty: TypeId) -> bool
    requires ty { ty.0 < length unit.now.types.terms }
    requires complete { is_some (extent_in unit.now.types (type_of unit.now.types ty.0)) ≡ true }
    ensures { result ≡ is_small (extent_in unit.now.types (type_of unit.now.types ty.0)) }
{
    unit.types.size_of(ty).is_some() && unit.types.nodes(ty).is_some()
}
