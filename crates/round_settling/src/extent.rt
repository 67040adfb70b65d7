//! In which words of a row anything is done of it.
ghost use Rattle.std.specs.Prelude.{◌≡◌, ◌⊎◌, ℕ, ◌<◌, ◌≤◌, Some, length, slice_get, slice_set};
ghost use Rattle.round_settling.specs.Extents.{IsOutside, IsWidened};

/// Words of a row beside which nothing is done of it: those from number `first` on and below `end`.
#[derive(Clone, Copy)]
pub struct Extent {
    /// The number of the first word.
    pub first: usize,
    /// The number behind the last word.
    pub end: usize,
}

/// The extent of a row of which nothing is done.
pub const NOWHERE: Extent = Extent {
    first: usize::MAX,
    end: 0,
};

/// The extent of a number.
fn extent_at(extents: &[Extent], at: usize) -> Extent
    requires { at < length extents.now }
    ensures { slice_get extents.now at ≡ Some result }
{
    extents[at]
}

/// Puts an extent in place of that of a number.
fn put_extent(extents: &mut Vec<Extent>, at: usize, extent: Extent)
    requires { at < length extents.old.items }
    ensures { extents.new.items ≡ slice_set extents.old.items at extent }
{
    extents[at] = extent;
}

/// The words of an extent, those from one number on and below another, and all between them.
fn with_words(extent: Extent, first: usize, end: usize) -> Extent
    ensures old { (result.first ≤ extent.first) × (extent.end ≤ result.end) }
    ensures new { (result.first ≤ first) × (end ≤ result.end) }
{
    Extent {
        first: if first < extent.first {
            first
        } else {
            extent.first
        },
        end: if extent.end < end { end } else { extent.end },
    }
}

/// Takes the words from one number on and below another into the extent of a row, where it has one.
pub(crate) fn widen_extent(extents: &mut Vec<Extent>, row: u32, first: usize, end: usize)
    ensures { IsWidened extents.old.items extents.new.items row first end }
{
    let at = row as usize;
    if at >= extents.len() {
        return;
    }
    let held = extent_at(extents.as_slice(), at);
    put_extent(extents, at, with_words(held, first, end));
}

/// Words of a row of so many words beside which nothing is done of it: all, where the row has no extent.
pub(crate) fn done_words(extents: &[Extent], row: u32, width: usize) -> Extent
    ensures range { (result.first ≤ width) × (result.end ≤ width) }
    ensures beside { (k : ℕ) → k < width → (k < result.first) ⊎ (result.end ≤ k) → IsOutside extents.now row k }
{
    let at = row as usize;
    if at >= extents.len() {
        return Extent {
            first: 0,
            end: width,
        };
    }
    let held = extent_at(extents, at);
    Extent {
        first: held.first.min(width),
        end: held.end.min(width),
    }
}
