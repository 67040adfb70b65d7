// Sizes, alignments and numbers of nodes, as far as they count.

ghost use Rattle.std.specs.Prelude.{◌≡◌, ℕ, ◌+◌, ◌-◌, ◌*◌, ◌/◌, ◌^◌, ◌<◌, ◌≤◌, List, map, All, length};
ghost use Rattle.c_types.specs.Layout.{Extent, round_up, beside, above, padded, placed};
ghost use Rattle.c_types.specs.Bounds.{bounds};
ghost use Rattle.c_types.specs.Bounds.{cap};

/// A size, an alignment and a number of nodes; 2^63 stands for more.
#[derive(Clone, Copy, Debug, PartialEq, Eq)]
pub struct Bounds {
    pub size: u64,
    pub align: u64,
    pub nodes: u64,
}

// A number of 128 bits, at most 2^63.
fn capped(n: u128) -> u64
    ensures { result ≡ cap n }
{
    if n < 1 << 63 { n as u64 } else { 1 << 63 }
}

/// A sum, at most 2^63.
pub fn capped_sum(a: u64, b: u64) -> u64
    ensures { result ≡ cap (a + b) }
{
    capped(u128::from(a) + u128::from(b))
}

// A size, up to the next multiple of an alignment.
fn rounded_up(size: u64, align: u64) -> u128
    ensures value { result ≡ round_up size align }
    ensures within { result < 2 ^ 65 }
{
    let step = u128::from(align.max(1));
    (u128::from(size) + (step - 1)) / step * step
}

/// One member more behind those so far.
pub fn beside(so_far: Bounds, member: Bounds) -> Bounds
    ensures { (s m : Extent) → so_far ≡ bounds s → member ≡ bounds m → result ≡ bounds (beside s m) }
{
    Bounds {
        size: capped(rounded_up(so_far.size, member.align) + u128::from(member.size)),
        align: so_far.align.max(member.align),
        nodes: capped(u128::from(so_far.nodes) + u128::from(member.nodes)),
    }
}

/// One member more over those so far.
pub fn above(so_far: Bounds, member: Bounds) -> Bounds
    ensures { (s m : Extent) → so_far ≡ bounds s → member ≡ bounds m → result ≡ bounds (above s m) }
{
    let align = so_far.align.max(member.align);
    Bounds {
        size: so_far.size.max(member.size),
        align,
        nodes: so_far.nodes,
    }
}

/// The bounds up to the next multiple of their alignment.
pub fn padded(b: Bounds) -> Bounds
    ensures { (e : Extent) → b ≡ bounds e → result ≡ bounds (padded e) }
{
    Bounds {
        size: capped(rounded_up(b.size, b.align)),
        align: b.align,
        nodes: b.nodes,
    }
}
