// The leaves that stand at places.
ghost use Rattle.std.specs.Prelude.{◌≡◌, ◌&&◌};
ghost use Rattle.core_nodes.specs.passed.c_senses.Tree as tree;
ghost use Rattle.core_nodes.specs.passed.c_senses.Constants.{leaf_of_place, same_place};
ghost use Rattle.tree_reads.specs.Sources.{source_read};

use pta_base::Place;
use tree_reads::{Syntax, is_leaf, place_of};

// Whether two places are one.
fn same_place(p: Place, q: Place) -> bool
    ensures { result ≡ same_place p q }
{
    p.unit == q.unit && (p.line == q.line && p.column == q.column)
}

// Whether a node is a leaf whose token stands at a place.
fn is_leaf_at(syntax: &Syntax, node: u32, place: Place) -> bool
    ensures { let s = source_read syntax.now in result ≡ (tree.is_leaf s node && same_place (tree.place_at s node) place) }
{
    is_leaf(syntax, node) && same_place(place_of(syntax, node), place)
}

/// The first leaf whose token stands at a place, or `at` where none does.
pub fn leaf_of_place(syntax: &Syntax, at: u32, place: Place) -> u32
    ensures { result ≡ leaf_of_place (source_read syntax.now) at place }
{
    for i in 0..syntax.tree.nodes.len() {
        if is_leaf_at(syntax, i as u32, place) {
            return i as u32;
        }
    }
    at
}
