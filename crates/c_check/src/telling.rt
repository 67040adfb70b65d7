// Whether the caller of a check has told all.
ghost use Rattle.std.specs.Prelude.{◌≡◌, ◌<◌, true, ℕ, List, length, IfOk, IsOkUnless, MatchBool};
ghost use Rattle.c_lexer.specs.Cut.{IsTokens};
ghost use Rattle.c_scope.specs.Resolves.{IsBound};
ghost use Rattle.c_senses.specs.Names.{source_of};
ghost use Rattle.c_parser.specs.c_units.Units.{IsUnit};
ghost use Rattle.c_tags.specs.tag_numbers.Known.{AreTags};
ghost use Rattle.parsed_tree_laws.specs.sense_laws.Senses.{ChildrenFirst};
ghost use Rattle.tree_reads.specs.Sources.{source_read, source_in};
ghost use Rattle.unit_walk.specs.Ground.{source_ground};
ghost use Rattle.carried_trees.specs.carried_types.Told.{AreMarks};
ghost use Rattle.c_check.specs.declared.known_tags.known.Meaning.{Meaning as MeaningSpec};
ghost use Rattle.c_check.specs.known_tags.Given.{AreGiven};
ghost use Rattle.c_check.specs.Expressed.{IsUnknown};
ghost use Rattle.c_check.specs.Reached.{IsReached};
ghost use Rattle.c_check.specs.Told.{AreMarked, IsTold, IsUntold, NoneUnknown};

use crate::known_tags::{
    Given, Known, Meaning, ToldTags, given_of, known_types, nodes_under, told_tags,
};
use crate::reaching::reach;
use c_grammar::Tree;
use c_lexer::Tokens;
use c_results::node_at;
use c_scope::Bound;
use c_tags::tag_numbers::{Numbered, meanings};
use carried_trees::is_tree_told;
use core_nodes::CheckFault;
use core_tree::node::Unit;
use std::alloc::Global;
use unit_walk::Walked;

// The marks and flags of the tags of a unit, by their types in another one.
fn marked_tags(
    alloc: Global,
    unit: &Unit,
    bound: &Bound,
    numbered: &Numbered,
    given: &Given,
    node: u32,
) -> Result<ToldTags, CheckFault>
    requires bound { IsBound numbered.now.syntax.tokens.now numbered.now.syntax.tree.now bound.now }
    requires tags { AreTags (source_in numbered.now.syntax bound.now.uses.items) numbered.now.tags }
    requires node { node < length numbered.now.syntax.tree.now.nodes.items }
    requires first { ChildrenFirst (source_read numbered.now.syntax) }
    ensures marks { IfOk result (λ told. AreMarks told.marks.items) }
    ensures marked { IfOk result (λ told. (list : List (ℕ × MeaningSpec)) →
        AreGiven given.now list →
        AreMarked (source_in numbered.now.syntax bound.now.uses.items) node list unit.now told.marks.items told.incomplete.items) }
    ensures memory { IsOkUnless result CheckFault.OutOfMemory }
{
    // (What every table keeps is told by its count.)
    let _count = unit.types.type_count();
    let Ok(declaring) = meanings(alloc, bound) else {
        return Err(CheckFault::OutOfMemory);
    };
    let known = known_types(alloc, &unit.types, numbered, &declaring, given)?;
    let flags = nodes_under(alloc, &numbered.syntax, node)?;
    told_tags(
        alloc,
        &unit.types,
        numbered,
        &declaring,
        given,
        flags.as_slice(),
        known.as_slice(),
    )
}

// Whether all that the tree of a node names is told, if the node stands for a tree: false exactly where something is missing.
fn tells(
    alloc: Global,
    unit: &Unit,
    bound: &Bound,
    list: &[(u32, Meaning)],
    walked: &mut Walked,
    node: u32,
) -> Result<bool, CheckFault>
    requires reached { IsReached bound.now node walked.old }
    ensures told { let s = source_ground walked.old.ground bound.now in
        IfOk result (λ told. MatchBool told (NoneUnknown s node list.now unit.now) (IsUnknown s node list.now unit.now)) }
    ensures memory { IsOkUnless result CheckFault.OutOfMemory }
{
    let Some(top) = node_at(&walked.results, node) else {
        return Ok(true);
    };
    let given = given_of(alloc, list)?;
    let tags = marked_tags(alloc, unit, bound, &walked.ground.numbered, &given, node)?;
    is_tree_told(
        alloc,
        &mut walked.unit,
        top,
        &given.entities,
        tags.marks.as_slice(),
        tags.incomplete.as_slice(),
    )
}

// A unit whose rows are refused before the node has nothing to tell.
fn without_row(fault: CheckFault) -> Result<bool, CheckFault>
    ensures told { IfOk result (λ told. told ≡ true) }
    ensures row { IfOk result (λ told. fault ≡ CheckFault.OutOfMemory → ⊥) }
    ensures memory { IsOkUnless result CheckFault.OutOfMemory }
{
    match fault {
        CheckFault::OutOfMemory => Err(CheckFault::OutOfMemory),
        CheckFault::BadOperand(_) => Ok(true),
        CheckFault::Unsupported(_, _) => Ok(true),
    }
}

/// Whether a call of `check_expression` may be made: false exactly where something that the expression's tree names is missing in `known`
/// (`IsUntold`). The tree's entities are paired there with entities, the tags in its types, which it doesn't declare itself, with tags of
/// which the unit has a type, and so are the tags in the types of members of each of these tags that has no members in the unit yet. Also
/// false where the node is no expression and lists objects, as a block. A unit whose rows are refused up to the node has nothing to tell,
/// and nor has a node that stands for no tree. Only memory may want.
///
/// A call takes the time of a walk over the unit's nodes up to the expression.
pub fn is_told(
    alloc: Global,
    tokens: &Tokens,
    tree: &Tree,
    bound: &Bound,
    node: u32,
    known: &Known,
    unit: &Unit,
) -> Result<bool, CheckFault>
    requires tokens { IsTokens tokens.now.text.now tokens.now.list.items }
    requires read { IsUnit tokens.now tree.now.unit tree.now }
    requires bound { IsBound tokens.now tree.now bound.now }
    requires first { ChildrenFirst (source_of tokens.now tree.now) }
    requires node { node < length tree.now.nodes.items }
    ensures told { let s = source_of tokens.now tree.now in
        IfOk result (λ told.
        MatchBool told (IsTold s node known.now.list.items unit.now) (IsUntold s node known.now.list.items unit.now)) }
    ensures memory { IsOkUnless result CheckFault.OutOfMemory }
{
    match reach(alloc, tokens, tree, bound, node) {
        Ok(mut walked) => tells(alloc, unit, bound, known.list.as_slice(), &mut walked, node),
        Err(fault) => without_row(fault),
    }
}
