// The rows of a unit's nodes up to one of them.
ghost use Rattle.std.specs.Prelude.{◌≡◌, ◌<◌, ◌+◌, length, IfOk, IfErr};
ghost use Rattle.c_lexer.specs.Cut.{IsTokens};
ghost use Rattle.c_literals.specs.Laws.{AreBytes};
ghost use Rattle.c_parser.specs.c_units.Units.{IsUnit};
ghost use Rattle.c_scope.specs.Resolves.{IsBound};
ghost use Rattle.c_senses.specs.Names.{source_of, numbered};
ghost use Rattle.parsed_tree_laws.specs.sense_laws.Senses.{ChildrenFirst};
ghost use Rattle.tree_reads.specs.Sources.{number_in};
ghost use Rattle.unit_walk.specs.Ground.{source_ground};
ghost use Rattle.unit_walk.specs.Walked.{AreDense};
ghost use Rattle.unit_walk.specs.Stopping.{RefusedEarly};
ghost use Rattle.c_check.specs.Reached.{IsReached};

use c_grammar::Tree;
use c_lexer::Tokens;
use c_scope::Bound;
use core_nodes::CheckFault;
use std::alloc::Global;
use unit_walk::{Walked, walk_to};

// That the bytes of a text are below 256: it does nothing, and its contract is the fact.
fn are_bytes(text: &[u8])
    ensures { AreBytes text.now }
{}

/// What the rows of a unit's nodes give up to a node, and that one's; or the first of them that doesn't fit. Its source is the unit's, with
/// the numbers of its tags. A node of the number 2^32 - 1 counts as want of memory.
pub(crate) fn reach<'a>(
    alloc: Global,
    tokens: &'a Tokens<'a>,
    tree: &'a Tree,
    bound: &Bound,
    node: u32,
) -> Result<Walked<'a>, CheckFault>
    requires tokens { IsTokens tokens.now.text.now tokens.now.list.items }
    requires read { IsUnit tokens.now tree.now.unit tree.now }
    requires bound { IsBound tokens.now tree.now bound.now }
    requires first { ChildrenFirst (source_of tokens.now tree.now) }
    requires node { node < length tree.now.nodes.items }
    ensures reached { IfOk result (IsReached bound.now node) }
    ensures source { IfOk result (λ w.
        source_ground w.ground bound.now ≡ numbered (number_in w.ground.numbered.syntax.tag_numbers) (source_of tokens.now tree.now)) }
    ensures dense { IfOk result (λ w. AreDense (source_ground w.ground bound.now)) }
    ensures refused { IfErr result (RefusedEarly (source_of tokens.now tree.now) (node + 1)) }
{
    are_bytes(tokens.text);
    let Some(end) = node.checked_add(1) else {
        return Err(CheckFault::OutOfMemory);
    };
    match walk_to(alloc, tokens, tree, bound, end) {
        Ok(walked) => Ok(walked),
        Err(fault) => Err(fault),
    }
}
