//! The stops of linked programs' runs.
ghost use Rattle.listed_stops.specs.Listed.{BadCallsListed};

/// Where a run of a linked program stops with BadCall, whatever the words and however many steps, it does so at a node that stands as a bad
/// call in `stop_places`; or what the call there calls is a number (C11 6.5.2.2p9, 7.22.3, 7.22.4.2, 7.22.5).
pub fn bad_calls_listed()
    ensures { BadCallsListed }
{}
