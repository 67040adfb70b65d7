//! Why units have no system.

ghost use Rattle.std.specs.Prelude.{◌≡◌};

use link_names::LinkFault;
use pta_base::OutOfMemory;

/// The first fault of linking (C11 6.2.7p2, 6.9p5, 5.1.2.2.1); a program with too many nodes, or with too many words of rows, each
/// with their number; or want of memory.
#[derive(Drop)]
pub enum UnitFault {
    Link(LinkFault),
    Nodes(u64),
    Words(u128),
    OutOfMemory,
}

impl From<OutOfMemory> for UnitFault {
    ghost use Rattle.unit_report.specs.declared.unit_system.fault.UnitFault.TheVariants.{OutOfMemory};

    ghost from_gives = { λ _ fault. fault ≡ OutOfMemory };

    fn from(_: OutOfMemory) -> Self {
        UnitFault::OutOfMemory
    }
}
