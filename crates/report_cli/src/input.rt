// Reading a text by its name.
ghost use Rattle.std.specs.Prelude.{◌≡◌, ℕ, ◌<◌, ◌≤◌, List, take, length, IfOk, IfSome, OnOk, IsErrOf};
ghost use Rattle.pta_base.specs.Outside.{HasRisen};

use pta_base::{OutOfMemory, Units};
use std::alloc::{AllocError, AllocFailed, Global};

/// Why a text could not be read.
#[derive(Clone, Copy)]
pub enum ReadFault {
    Source,
    Memory,
}

impl From<AllocError> for ReadFault {
    ghost use Rattle.report_cli.specs.declared.input.ReadFault.TheVariants.{Memory};

    ghost from_gives = { λ _ e. e ≡ Memory };

    fn from(_: AllocError) -> Self {
        ReadFault::Memory
    }
}

/// Reads the text of a name, at most so many bytes, through a buffer that isn't empty.
pub fn read_text<U: Units>(
    alloc: Global,
    units: &mut U,
    name: &str,
    limit: usize,
    piece: &mut [u8],
) -> Result<Vec<u8>, ReadFault>
    requires { 0 < length piece.old }
    ensures text { IfOk result (λ text. IfSome (U.text units.old name.now) (λ told. text.items ≡ take limit told)) }
    ensures texts { (other : List ℕ) → U.text units.new other ≡ U.text units.old other }
    ensures cause { IsErrOf result ReadFault.Source → HasRisen (U.faults units.old name.now) (U.faults units.new name.now) }
    ensures steady { OnOk result ((other : List ℕ) → U.faults units.new other ≡ U.faults units.old other) }
    ensures rises { (other : List ℕ) → U.faults units.old other ≤ U.faults units.new other }
{
    let mut text = Vec::new(alloc);
    while text.len() < limit {
        let room = (limit - text.len()).min(piece.len());
        let Ok(count) = units.read(name, text.len() as u64, &mut piece[..room]) else {
            return Err(ReadFault::Source);
        };
        if count == 0 {
            break;
        }
        text.extend_from_slice(&piece[..count])?;
    }
    Ok(text)
}
