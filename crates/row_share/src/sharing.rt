//! The rows that share one set, from the copies of a system.
ghost use Rattle.std.specs.Prelude.{IfOk};
ghost use Rattle.sol_model.specs.Systems.{IsValid};
ghost use Rattle.row_share.specs.share_laws.Classes.{AreClasses};

use crate::Share;
use crate::row_classes::representatives;
use pta_base::{Listing, OutOfMemory};
use sol_model::System;
use std::alloc::Global;

/// The rows that have equal sets because each follows another along a copy, or because copies lead round a cycle. The only
/// error is want of memory.
pub fn share(alloc: Global, system: &System) -> Result<Share, OutOfMemory>
    requires valid { IsValid system.now }
    ensures { IfOk result (AreClasses system.now) }
{
    Ok(Share {
        rows: Listing::of(representatives(alloc, system)?),
    })
}
