//! That what makes objects stands at different places (C11 6.2.1, 6.4.5, 6.5.2.2, 6.5.2.5).
ghost use Rattle.twin_report_laws.specs.apart.Apart.{RightApart, LinkedApart};

/// In a unit that is right for a text that is cut and read, no two entities stand at one place, and no two nodes that are strings or calls.
pub fn right_apart()
    ensures { RightApart }
{}

/// In a program that is linked from such units no two entities that have their place stand at one place, and no two nodes that are strings
/// or calls.
pub fn linked_apart()
    ensures { LinkedApart }
{}
