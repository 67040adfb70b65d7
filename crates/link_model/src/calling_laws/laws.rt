//! The law: a function that does nothing, whose contract it is.
ghost use Rattle.link_model.specs.calling_laws.Calling.{CallsStand};

/// Where nodes stand in their rows, initialisers of objects that live for the whole run are fixed (C11 6.7.9p4), and locals stand
/// in the bodies of their owners, each call stands in the body of a function.
pub fn calls_stand()
    ensures { CallsStand }
{}
