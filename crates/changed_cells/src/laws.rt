//! Steps and runs write only what they may.
ghost use Rattle.changed_cells.specs.Laws.{StepsWriteOnly, ChangesCovered, BareChangesCovered};

/// From a state that the sets cover, a step leaves each object of memory as the object that it was, with its bytes and its type, and each
/// of its cells with what it held, unless the step writes the cell or another one of its union (C11 6.2.5p20, 6.5.16p3). What an object
/// without a type has listed stays too, unless the step writes all of the object.
pub fn steps_write_only()
    ensures { StepsWriteOnly }
{}

/// For every run of a linked program, whatever the words and however many steps: a cell that holds something else after a step than before
/// it has a location, and that stands in what `mod_ref::effects` says that the function of each frame on the stack may write. An object
/// that gets its type in the step is seen by that type before the step, too (C11 6.5p6).
pub fn changes_covered()
    ensures { ChangesCovered }
{}

/// The same of an object that has no type after the step: where what it has listed changes, the location of each cell that an element of
/// it may have stands in those writes.
pub fn bare_changes_covered()
    ensures { BareChangesCovered }
{}
