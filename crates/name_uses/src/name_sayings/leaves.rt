// The leaves of declarations.
ghost use Rattle.std.specs.Prelude.{◌≡◌, IfOk, IsOkUnless};
ghost use Rattle.c_named.specs.Lists.{leaves_of};

use c_scope::Declared;
use core_nodes::CheckFault;
use std::alloc::Global;

/// The leaves of some declarations. Only memory may want.
pub(in crate::name_sayings) fn leaves_of(
    alloc: Global,
    declarations: &[Declared],
) -> Result<Vec<u32>, CheckFault>
    ensures leaves { IfOk result (λ list. list.items ≡ leaves_of declarations.now) }
    ensures memory { IsOkUnless result CheckFault.OutOfMemory }
{
    let mut list = Vec::new(alloc);
    for declared in declarations {
        list.push(declared.node)?;
    }
    Ok(list)
}
