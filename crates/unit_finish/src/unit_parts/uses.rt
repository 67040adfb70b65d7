// The least place at which each entity is named.
#![tactic(auto)]

ghost use Rattle.std.specs.Prelude.{◌≡◌, ◌<◌, None, length, get_or, IfOk, ℕ};
ghost use Rattle.unit_finish.specs.unit_parts.Uses as spec;
ghost use Rattle.unit_finish.specs.unit_parts.Uses.{least_use};

use core_tree::node::{Node, NodeKind};
use pta_base::Place;
use std::alloc::{AllocError, Global};

// The entity that a kind uses by its name.
fn used_by(kind: &NodeKind) -> Option<u32>
    ensures { result ≡ spec.used_by kind.now }
{
    match kind {
        NodeKind::Named(e) | NodeKind::FunctionName(e) => Some(*e),
        _ => None,
    }
}

// Whether a place stands before another one, by unit, line and column.
fn is_before(p: &Place, q: &Place) -> bool
    ensures { result ≡ spec.is_before p.now q.now }
{
    p.unit < q.unit
        || (p.unit == q.unit && (p.line < q.line || (p.line == q.line && p.column < q.column)))
}

// The earlier of two places.
fn earlier(so_far: Option<Place>, place: Place) -> Option<Place>
    ensures { result ≡ spec.earlier so_far place }
{
    match so_far {
        None => Some(place),
        Some(p) => if is_before(&place, &p) {
            Some(place)
        } else {
            Some(p)
        },
    }
}

/// The least place of the uses of each of the first so many entities among nodes.
pub fn uses_of(
    alloc: Global,
    count: usize,
    nodes: &[Node],
) -> Result<Vec<Option<Place>>, AllocError>
    ensures long { IfOk result (λ uses. length uses.items ≡ count) }
    ensures least { IfOk result (λ uses. (e : ℕ) → e < count → get_or uses.items e None ≡ least_use None e nodes.now) }
{
    let mut uses = vec![in alloc; None; count]?;
    for node in nodes {
        if let Some(e) = used_by(&node.kind) {
            let e = e as usize;
            if e < uses.len() {
                uses[e] = earlier(uses[e], node.place);
            }
        }
    }
    Ok(uses)
}
