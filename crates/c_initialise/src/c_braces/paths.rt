//! Paths and lists of actions.

ghost use Rattle.std.specs.Prelude.{◌≡◌, ◌++◌, ◌∷◌, [], IfOk, OnOk};
ghost use Rattle.c_inits.specs.Cursor.{path_of};

use c_inits::cursor::Frame;
use c_inits::items::InitAction;
use c_types::term::{OutOfMemory, PathStep};
use std::alloc::Global;

fn push_step(path: &mut Vec<PathStep>, step: PathStep) -> Result<(), OutOfMemory>
    ensures { OnOk result (path.new.items ≡ path.old.items ++ step ∷ []) }
{
    match path.push(step) {
        Ok(()) => Ok(()),
        Err(_) => Err(OutOfMemory),
    }
}

pub(in crate::c_braces) fn push_action(
    actions: &mut Vec<InitAction>,
    action: InitAction,
) -> Result<(), OutOfMemory>
    ensures { OnOk result (actions.new.items ≡ actions.old.items ++ action ∷ []) }
{
    match actions.push(action) {
        Ok(()) => Ok(()),
        Err(_) => Err(OutOfMemory),
    }
}

/// A path of its own.
pub(in crate::c_braces) fn copied(
    alloc: Global,
    path: &[PathStep],
) -> Result<Vec<PathStep>, OutOfMemory>
    ensures { IfOk result (λ copy. copy.items ≡ path.now) }
{
    let mut copy = Vec::new(alloc);
    for step in path {
        push_step(&mut copy, *step)?;
    }
    Ok(copy)
}

/// A path that goes on as frames do.
pub(in crate::c_braces) fn extended(
    alloc: Global,
    path: &[PathStep],
    frames: &[Frame],
) -> Result<Vec<PathStep>, OutOfMemory>
    ensures { IfOk result (λ whole. whole.items ≡ path.now ++ path_of frames.now) }
{
    let mut whole = copied(alloc, path)?;
    for frame in frames {
        push_step(&mut whole, frame.step)?;
    }
    Ok(whole)
}
