// What is kept beside a unit while its rows are made.
ghost use Rattle.std.specs.Prelude.{◌≡◌, [], IfOk, IsOkUnless};
ghost use Rattle.core_nodes.specs.declared.fault.CheckFault.TheVariants.{OutOfMemory};
ghost use Rattle.tree_reads.specs.declared.syntax.Syntax.{Syntax as SyntaxSpec};
ghost use Rattle.unit_walk.specs.unit_rows.Along.{AreAlong};

use c_meanings::{Linkages, Names};
use c_structures::MemberLists;
use core_nodes::CheckFault;
use core_tree::node::Unit;
use std::alloc::Global;
use unit_worlds::unit_limits::open_flags;

/// What is kept beside a unit while its rows are made: the lists of members that are being gone through, and for each tag whether it has
/// as a member a structure that ends in an array without a length, or a union that has one (C11 6.7.2.1p3); and the linkage of names that
/// have been declared (6.2.2).
#[derive(Drop)]
pub struct Along {
    pub(in crate::unit_rows) lists: MemberLists,
    pub(in crate::unit_rows) unions: Vec<bool>,
    pub(in crate::unit_rows) linkages: Linkages,
}

impl Along {
    /// What is kept before the first row, when no tag is complete. Only memory may want.
    pub fn new(alloc: Global, unit: &Unit, names: &Names) -> Result<Along, CheckFault>
        requires open { unit.now.types.completed ≡ [] }
        ensures along { (syntax : SyntaxSpec) → IfOk result (AreAlong syntax names.now unit.now []) }
        ensures memory { IsOkUnless result OutOfMemory }
    {
        let Ok(unions) = open_flags(alloc, &unit.types) else {
            return Err(CheckFault::OutOfMemory);
        };
        let linkages = Linkages::new(alloc, names)?;
        Ok(Along {
            lists: MemberLists::new(alloc),
            unions,
            linkages,
        })
    }
}
