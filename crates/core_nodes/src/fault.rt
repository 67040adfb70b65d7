// Why an expression is refused.
ghost use Rattle.std.specs.Prelude.{◌≡◌};
ghost use Rattle.core_nodes.specs.declared.fault.CheckFault.TheVariants.{OutOfMemory};

use pta_base::Kind;
use std::alloc::{AllocError, AllocFailed};

/// Why an expression or a unit is refused, with the number of the syntax node that shows it.
#[derive(Clone, Copy, Debug, PartialEq, Eq)]
pub enum CheckFault {
    /// The operands have no fitting types.
    BadOperand(u32),
    /// A construct of another kind that is not accepted.
    Unsupported(Kind, u32),
    /// Memory ran out.
    OutOfMemory,
}

impl From<AllocError> for CheckFault {
    ghost from_gives = { λ _ fault. fault ≡ OutOfMemory };

    fn from(_: AllocError) -> CheckFault {
        CheckFault::OutOfMemory
    }
}

impl<T: Drop> From<AllocFailed<T>> for CheckFault {
    ghost from_gives = { λ _ fault. fault ≡ OutOfMemory };

    fn from(_: AllocFailed<T>) -> CheckFault {
        CheckFault::OutOfMemory
    }
}

impl From<c_types::term::OutOfMemory> for CheckFault {
    ghost from_gives = { λ _ fault. fault ≡ OutOfMemory };

    fn from(_: c_types::term::OutOfMemory) -> CheckFault {
        CheckFault::OutOfMemory
    }
}
