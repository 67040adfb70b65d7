// Where a program begins: at `main`, or at the entries that are named.

ghost use Rattle.std.specs.Prelude.{◌≡◌, All, MatchResult};
ghost use Rattle.link_names.specs.declared.fault.LinkFault.TheVariants.{NoEntry};
ghost use Rattle.link_names.specs.Faults.{HasEntry, IsStarted};
ghost use Rattle.link_names.specs.Scene.{IsScene, joined_of};
ghost use Rattle.link_names.specs.Firsts.{AreFirsts};
ghost use Rattle.link_names.specs.Said.{AreSaid, IsFaultUnless, IsWant};

use crate::declared::Scene;
use crate::entry::{has_entry, has_main};
use crate::fault::LinkFault;
use crate::faults::SoFar;
use pta_base::Text;
use std::alloc::Global;

// The fault of a name that isn't an entry's.
fn no_entry(alloc: Global, name: &str) -> LinkFault
    ensures { IsFaultUnless result (result ≡ NoEntry name.now) }
{
    match Text::copy_of(alloc, name) {
        Ok(copy) => LinkFault::NoEntry(copy),
        Err(_) => LinkFault::OutOfMemory,
    }
}

// Whether each name is an entry's, or the fault of the first one that isn't.
fn entered(
    alloc: Global,
    scene: &Scene<'_>,
    entries: &[Text],
    firsts: &[u32],
    said: &[SoFar],
) -> Result<(), LinkFault>
    requires scene { IsScene scene.now }
    requires firsts { AreFirsts scene.now.units.now scene.now.declared.now firsts.now }
    requires said { AreSaid (joined_of scene.now) scene.now.declared.now scene.now.declared.now said.now }
    ensures { let j = joined_of scene.now in let ds = scene.now.declared.now in
        MatchResult result (λ _. All (HasEntry j ds) entries.now) (λ fault.
        IsFaultUnless fault (IsWant j ds entries.now fault)) }
{
    for name in entries {
        if !has_entry(scene, name.as_str(), firsts, said) {
            return Err(no_entry(alloc, name.as_str()));
        }
    }
    Ok(())
}

/// Whether the program can begin: at `main` where no entry is named, else at each name. Else the want of `main`, or of the
/// first name that isn't an entry's.
pub fn started(
    alloc: Global,
    scene: &Scene<'_>,
    entries: &[Text],
    firsts: &[u32],
    said: &[SoFar],
) -> Result<(), LinkFault>
    requires scene { IsScene scene.now }
    requires firsts { AreFirsts scene.now.units.now scene.now.declared.now firsts.now }
    requires said { AreSaid (joined_of scene.now) scene.now.declared.now scene.now.declared.now said.now }
    ensures { let j = joined_of scene.now in let ds = scene.now.declared.now in
        MatchResult result (λ _. IsStarted j ds entries.now) (λ fault.
        IsFaultUnless fault (IsWant j ds entries.now fault)) }
{
    if !entries.is_empty() {
        entered(alloc, scene, entries, firsts, said)
    } else if has_main(scene, firsts, said) {
        Ok(())
    } else {
        Err(LinkFault::NoMain)
    }
}
