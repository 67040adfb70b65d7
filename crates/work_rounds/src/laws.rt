//! What holds of the work of families.
ghost use Rattle.work_rounds.specs.Gift.{GiftWork};
ghost use Rattle.work_rounds.specs.Ring.{RingWork};
ghost use Rattle.round_pieces.specs.Work.{OneWork, WorkGrows};

/// A family has one work at most: it doesn't depend on the order in which edges are counted.
pub fn one_work()
    ensures { OneWork }
{}

/// A family inside another has no more work than that one. So families with the same facts have the same work, and the
/// least solution has the least work of all closed families.
pub fn work_grows()
    ensures { WorkGrows }
{}

/// A worked number: a ring of three copies that one address enters has the work 4, three edges with one location each and
/// the address.
pub fn ring_work()
    ensures { RingWork }
{}

/// A worked number: two addresses, a member's address and an object that a call gets have the work 4, where no edge is
/// demanded.
pub fn gift_work()
    ensures { GiftWork }
{}
