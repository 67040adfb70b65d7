// Pairs in order, each once.
ghost use Rattle.std.specs.Prelude.{◌↔◌, ℕ, Contains};
ghost use Rattle.call_graph.specs.Order.{IsInOrder};

/// Puts pairs in order, and keeps each once.
pub(crate) fn put_in_order(pairs: &mut Vec<(u32, u32)>)
    ensures ordered { IsInOrder pairs.new.items }
    ensures same { (pair : ℕ × ℕ) → Contains pairs.new.items pair ↔ Contains pairs.old.items pair }
{
    pairs.sort_unstable();
    pairs.dedup();
}
