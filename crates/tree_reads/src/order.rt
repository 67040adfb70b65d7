// Lists of children in the order of their numbers.
ghost use Rattle.std.specs.Prelude.{◌≡◌, ◌<◌, ◌≤◌, ◌-◌, true, length, slice_index};
ghost use Rattle.tree_reads.specs.Order.{ascends, AllAscend};

use crate::syntax::Syntax;

// Whether each number is above the one before.
pub(crate) fn is_ascending(list: &[u32]) -> bool
    ensures { result ≡ ascends list.now }
{
    for i in 1..list.len() {
        if list[i - 1] >= list[i] {
            return false;
        }
    }
    true
}

/// The place in an ascending list of the first number that isn't below a bound: the length where there is none. It takes the logarithm of
/// the length.
pub fn first_from(list: &[u32], bound: u32) -> usize
    ensures within { result ≤ length list.now }
    ensures below { ascends list.now ≡ true → 0 < result → slice_index list.now (result - 1) < bound }
    ensures above { ascends list.now ≡ true → result < length list.now → bound ≤ slice_index list.now result }
{
    let mut low = 0;
    let mut high = list.len();
    while low < high {
        let middle = low + (high - low) / 2;
        if list[middle] < bound {
            low = middle + 1;
        } else {
            high = middle;
        }
    }
    low
}

impl<'a> Syntax<'a> {
    /// Whether the children of each node ascend, as in each tree that was read from a text.
    pub fn is_ordered(&self) -> bool
        ensures { result ≡ true → AllAscend self.now.tree.now.nodes.items }
    {
        self.ordered
    }
}
