//! What stops linked programs' runs where a type doesn't fit.
ghost use Rattle.listed_stops.specs.Mismatches.{MismatchesListed};

/// Where a run of a linked program stops with Mismatch, whatever the words and however many steps, it does so at a node that stands as a
/// mismatch in `stop_places`, or has a cause that is named: `Cause` says by the kind of a node which these are. Of nodes that go by the
/// type at a place, or where a pointer leads (Fetch, Update, Assign, Decay, Member, Upcast), and of steps without a frame, it says nothing.
/// An operand that hasn't the form of its type, an object without an instance, a statement that waits for nothing and a function that can't
/// be entered are what no run should have; that none has them isn't said here (C11 6.5p7, 7.16, 7.24).
pub fn mismatches_listed()
    ensures { MismatchesListed }
{}
