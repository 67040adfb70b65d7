// Why texts have no units.
ghost use Rattle.std.specs.Prelude.{◌≡◌};

use pta_base::{Listing, OutOfMemory};
use std::alloc::{AllocError, AllocFailed};

/// Why units have no report: they are refused with a status, from 3 to 6 or 10, and a line, or memory wanted.
#[derive(Drop)]
pub enum UnitsFault {
    Refused { status: u8, line: Listing<u8> },
    Memory,
}

impl From<AllocError> for UnitsFault {
    ghost use Rattle.text_units.specs.declared.fault.UnitsFault.TheVariants.{Memory};

    ghost from_gives = { λ _ e. e ≡ Memory };

    fn from(_: AllocError) -> Self {
        UnitsFault::Memory
    }
}

impl From<OutOfMemory> for UnitsFault {
    ghost use Rattle.text_units.specs.declared.fault.UnitsFault.TheVariants.{Memory};

    ghost from_gives = { λ _ e. e ≡ Memory };

    fn from(_: OutOfMemory) -> Self {
        UnitsFault::Memory
    }
}

impl<T: Drop> From<AllocFailed<T>> for UnitsFault {
    ghost use Rattle.text_units.specs.declared.fault.UnitsFault.TheVariants.{Memory};

    ghost from_gives = { λ _ e. e ≡ Memory };

    fn from(_: AllocFailed<T>) -> Self {
        UnitsFault::Memory
    }
}
