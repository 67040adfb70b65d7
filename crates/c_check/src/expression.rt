// Whole expressions, by their nodes.
ghost use Rattle.std.specs.Prelude.{◌≡◌, ◌<◌, ◌+◌, ◌++◌, ℕ, List, Some, length, slice_index};
ghost use Rattle.std.specs.Prelude.{IfOk, IfErr, OnOk, OnErr, IsOkUnless};
ghost use Rattle.c_lexer.specs.Cut.{IsTokens};
ghost use Rattle.c_scope.specs.Resolves.{IsBound};
ghost use Rattle.c_results.specs.Parts.{core_in};
ghost use Rattle.c_results.specs.Standing.{senses_made};
ghost use Rattle.c_senses.specs.Names.{source_of};
ghost use Rattle.c_senses.specs.Sense.{sense_in};
ghost use Rattle.c_parser.specs.c_units.Units.{IsUnit};
ghost use Rattle.refusal_laws.specs.Refusals.{IsOtherFault};
ghost use Rattle.core_tree.specs.declared.node.Unit.{Unit as UnitSpec};
ghost use Rattle.core_nodes.specs.Standing.{IsReady, core_at};
ghost use Rattle.core_nodes.specs.kept_nodes.Keeps.{AllUnder};
ghost use Rattle.parsed_tree_laws.specs.sense_laws.Senses.{ChildrenFirst};
ghost use Rattle.tree_reads.specs.Sources.{source_read, source_in};
ghost use Rattle.unit_walk.specs.Ground.{source_ground, nodes_ground};
ghost use Rattle.carried_trees.specs.carried_types.Terms.{AreTagIds};
ghost use Rattle.carried_trees.specs.Extends.{Extends, SameParts};
ghost use Rattle.c_check.specs.declared.known_tags.known.Meaning.{Meaning as MeaningSpec};
ghost use Rattle.c_check.specs.known_tags.Given.{AreGiven};
ghost use Rattle.c_check.specs.known_tags.Values.{own_values};
ghost use Rattle.c_check.specs.Expressed.{Answers, AreOwn, AreOwnNames, Grows, IsAnswer, IsCarried};
ghost use Rattle.c_check.specs.Reached.{IsReached};
ghost use Rattle.c_check.specs.Told.{IsTold, NoneUnknown};

use crate::known_tags::{
    Given, Known, Meaning, OwnTags, given_of, known_types, nodes_under, own_types, own_values,
};
use crate::literal_entities::push_entities;
use crate::reaching::reach;
use c_grammar::Tree;
use c_lexer::Tokens;
use c_results::node_at;
use c_scope::Bound;
use c_tags::tag_numbers::{Numbered, meanings};
use carried_trees::carry_whole;
use core_nodes::CheckFault;
use core_tree::node::Unit;
use refusal_laws::laws::rows_are_built;
use std::alloc::Global;
use unit_walk::Walked;

/// A tree that was carried into a unit: its node there, and what is known more of declarations.
#[derive(Drop)]
pub(crate) struct CarriedTree {
    node: u32,
    pairs: Vec<(u32, Meaning)>,
}

// The numbers in a unit of the types of the tags of another, by what is known of their first declarations; the tags that an expression
// itself declares are new ones.
fn own_tags(
    alloc: Global,
    unit: &mut Unit,
    bound: &Bound,
    numbered: &Numbered,
    given: &Given,
    node: u32,
) -> Result<OwnTags, CheckFault>
    requires ready { IsReady unit.old }
    requires bound { IsBound numbered.now.syntax.tokens.now numbered.now.syntax.tree.now bound.now }
    requires node { node < length numbered.now.syntax.tree.now.nodes.items }
    requires first { ChildrenFirst (source_read numbered.now.syntax) }
    ensures ready { IsReady unit.new }
    ensures extends { Extends unit.old unit.new }
    ensures parts { SameParts unit.old unit.new }
    ensures nodes { unit.new.nodes.items ≡ unit.old.nodes.items }
    ensures within { IfOk result (λ tags. AreTagIds tags.ids.items unit.new.types) }
    ensures numbers { IfOk result (λ tags. unit.new.types.tags ≡ unit.old.types.tags + length tags.pairs.items) }
    ensures own { IfOk result (λ tags. (list : List (ℕ × MeaningSpec)) →
        AreGiven given.now list →
        AreOwn (source_in numbered.now.syntax bound.now.uses.items) (slice_index numbered.now.tags.firsts.items) node list
        numbered.now.tags.count unit.old.types unit.new.types tags.ids.items tags.pairs.items) }
    ensures memory { IsOkUnless result CheckFault.OutOfMemory }
{
    let Ok(declaring) = meanings(alloc, bound) else {
        return Err(CheckFault::OutOfMemory);
    };
    let known = known_types(alloc, &unit.types, numbered, &declaring, given)?;
    let flags = nodes_under(alloc, &numbered.syntax, node)?;
    own_types(
        alloc,
        unit,
        numbered,
        &declaring,
        given,
        flags.as_slice(),
        known.as_slice(),
    )
}

// Puts pairs behind those of a list, which stays as it was where memory wants.
fn append(list: &mut Vec<(u32, Meaning)>, pairs: &[(u32, Meaning)]) -> Result<(), CheckFault>
    ensures ok { OnOk result (list.new.items ≡ list.old.items ++ pairs.now) }
    ensures err { OnErr result (list.new.items ≡ list.old.items) }
    ensures memory { IsOkUnless result CheckFault.OutOfMemory }
{
    let before = list.len();
    for pair in pairs {
        match list.push(*pair) {
            Ok(()) => {}
            Err(_) => {
                list.truncate(before);
                return Err(CheckFault::OutOfMemory);
            }
        }
    }
    Ok(())
}

// Puts the enumerators that the expression itself declares behind other pairs.
fn add_values(
    alloc: Global,
    walked: &Walked,
    given: &Given,
    node: u32,
    pairs: &mut Vec<(u32, Meaning)>,
) -> Result<(), CheckFault>
    requires node { node < nodes_ground walked.now.ground }
    requires first { ChildrenFirst (source_read walked.now.ground.numbered.syntax) }
    ensures added { OnOk result ((u : UnitSpec) (list : List (ℕ × MeaningSpec)) →
        AreGiven given.now list →
        pairs.new.items ≡ pairs.old.items ++ own_values (source_read walked.now.ground.numbered.syntax)
        (sense_in (senses_made u walked.now.results)) node list node) }
    ensures memory { IsOkUnless result CheckFault.OutOfMemory }
{
    let syntax = &walked.ground.numbered.syntax;
    let flags = nodes_under(alloc, syntax, node)?;
    let values = own_values(
        alloc,
        syntax,
        &walked.results,
        given,
        flags.as_slice(),
        node,
    )?;
    append(pairs, values.as_slice())
}

// The same as `own_tags`, with the enumerators that the expression itself declares behind the pairs of its tags.
fn own_names(
    alloc: Global,
    unit: &mut Unit,
    bound: &Bound,
    walked: &Walked,
    given: &Given,
    node: u32,
) -> Result<OwnTags, CheckFault>
    requires ready { IsReady unit.old }
    requires bound { IsBound walked.now.ground.numbered.syntax.tokens.now walked.now.ground.numbered.syntax.tree.now bound.now }
    requires node { node < nodes_ground walked.now.ground }
    requires first { ChildrenFirst (source_read walked.now.ground.numbered.syntax) }
    ensures ready { IsReady unit.new }
    ensures extends { Extends unit.old unit.new }
    ensures parts { SameParts unit.old unit.new }
    ensures nodes { unit.new.nodes.items ≡ unit.old.nodes.items }
    ensures within { IfOk result (λ tags. AreTagIds tags.ids.items unit.new.types) }
    ensures own { IfOk result (λ tags. (u : UnitSpec) (list : List (ℕ × MeaningSpec)) →
        AreGiven given.now list →
        AreOwnNames (source_ground walked.now.ground bound.now) (sense_in (senses_made u walked.now.results))
        (slice_index walked.now.ground.numbered.tags.firsts.items) node list walked.now.ground.numbered.tags.count
        unit.old.types unit.new.types tags.ids.items tags.pairs.items) }
    ensures memory { IsOkUnless result CheckFault.OutOfMemory }
{
    let mut own = own_tags(alloc, unit, bound, &walked.ground.numbered, given, node)?;
    add_values(alloc, walked, given, node, &mut own.pairs)?;
    Ok(own)
}

// The tree of a core node of a walk, carried into a unit, where nothing that it names is missing. Only memory may want.
fn carried_tree(
    alloc: Global,
    unit: &mut Unit,
    bound: &Bound,
    list: &[(u32, Meaning)],
    owner: Option<u32>,
    walked: &mut Walked,
    top: u32,
    node: u32,
) -> Result<CarriedTree, CheckFault>
    requires ready { IsReady unit.old }
    requires reached { IsReached bound.now node walked.old }
    requires core { core_in (sense_in (senses_made walked.old.unit walked.old.results) node) ≡ Some (core_at walked.old.unit top) }
    requires top { top < length walked.old.unit.nodes.items }
    requires told { NoneUnknown (source_ground walked.old.ground bound.now) node list.now unit.old }
    ensures ready { IsReady unit.new }
    ensures grows { Grows unit.old unit.new }
    ensures within { IfOk result (λ tree. tree.node < length unit.new.nodes.items) }
    ensures only { IfOk result (λ tree. AllUnder unit.new (length unit.old.nodes.items) tree.node) }
    ensures answer { let s = source_ground walked.old.ground bound.now in
        IfOk result (λ tree. IsCarried s node list.now (list.now ++ tree.pairs.items) owner unit.old unit.new tree.node) }
    ensures memory { IsOkUnless result CheckFault.OutOfMemory }
{
    let given = given_of(alloc, list)?;
    let own = own_names(alloc, unit, bound, walked, &given, node)?;
    let found = carry_whole(
        alloc,
        unit,
        &mut walked.unit,
        top,
        &given.entities,
        own.ids.as_slice(),
    )?;
    let Some(tree) = found else { unreachable!() };
    push_entities(
        alloc,
        &mut unit.entities,
        &walked.ground.numbered.syntax,
        &walked.results,
        owner,
        unit.nodes.as_slice(),
        tree.literals.as_slice(),
    )?;
    Ok(CarriedTree {
        node: tree.node,
        pairs: own.pairs,
    })
}

// The tree that an expression's node stands for, carried into a unit.
fn carried(
    alloc: Global,
    unit: &mut Unit,
    bound: &Bound,
    list: &mut Vec<(u32, Meaning)>,
    owner: Option<u32>,
    walked: &mut Walked,
    node: u32,
) -> Result<u32, CheckFault>
    requires ready { IsReady unit.old }
    requires reached { IsReached bound.now node walked.old }
    requires told { NoneUnknown (source_ground walked.old.ground bound.now) node list.old.items unit.old }
    ensures ready { IsReady unit.new }
    ensures grows { Grows unit.old unit.new }
    ensures within { IfOk result (λ i. i < length unit.new.nodes.items) }
    ensures only { IfOk result (λ i. AllUnder unit.new (length unit.old.nodes.items) i) }
    ensures kept { OnErr result (list.new.items ≡ list.old.items) }
    ensures answer { let s = source_ground walked.old.ground bound.now in
        Answers s node list.old.items list.new.items owner unit.old unit.new result }
{
    let Some(top) = node_at(&walked.results, node) else {
        return Err(CheckFault::BadOperand(node));
    };
    match carried_tree(
        alloc,
        unit,
        bound,
        list.as_slice(),
        owner,
        walked,
        top,
        node,
    ) {
        Ok(tree) => {
            append(list, tree.pairs.as_slice())?;
            Ok(tree.node)
        }
        Err(fault) => Err(fault),
    }
}

/// The core node of an expression (C11 6.5), by the expression's syntax node, where its tokens and its tree are those of a text that is
/// read and whose names are bound. `known` pairs the node of each declaration that stands before the expression, as names are bound to it,
/// with what it is in the unit: an object's or a function's entity, and a tag's number, of which the unit has a type; its `owner` is the
/// entity of the function whose body the expression stands in.
///
/// The rows of the unit's nodes are made in their order, up to the expression's own: what the unit declares before the expression, and in
/// it, is what they say. `BadOperand` and `Unsupported` hold the first node that its row refuses, and the kind of the refusal. A node that
/// stands for no core tree, as a type name, is `BadOperand`.
///
/// A tag that the expression itself declares, as in `(struct{int i;}*)v`, is one whose first specifier stands under the expression's node,
/// and of whose declaration nothing is known. Such tags get the next numbers of the unit, in the order of their first specifiers, and
/// `known` gains the pair of each, in that order, and behind these the enumerators under the expression's node, by the leaves of their
/// names, of which nothing is known, with their values. A tag that has members at the expression's end, and none in the unit, has them in
/// the unit afterwards.
///
/// Each compound literal in the expression's tree (C11 6.5.2.5) makes an object, which is the next entity of the unit, in the order of
/// their nodes: without a name, at its opening parenthesis, with the type that its node has, of local linkage, and with its `Initialise`
/// as its body. Within a function it lives with its block, and `owner` owns it; elsewhere it lives for the whole run, and none does.
///
/// The caller has told all (`is_told`): each entity that the tree itself names is known, and each tag in its types that is declared
/// elsewhere, and no tag gets a member whose type has a tag that isn't known. What is only looked at on the way, as in the operand of
/// `sizeof`, may be any. Nor does the tree list objects, as that of a block does. So each refusal is that of a row, and none is `NotBuilt`.
///
/// All that stood in the unit goes on standing, and of the nodes and entities that were added none is left but those of the expression's
/// tree. Want of memory, a node of the number 2^32 - 1, and a unit of 2^32 nodes or entities are `OutOfMemory`. After a refusal `known` is
/// as it was, and the unit is only fit to be dropped.
///
/// A call takes the time of a walk over the unit's nodes up to the expression.
pub fn check_expression(
    alloc: Global,
    tokens: &Tokens,
    tree: &Tree,
    bound: &Bound,
    node: u32,
    known: &mut Known,
    unit: &mut Unit,
) -> Result<u32, CheckFault>
    requires tokens { IsTokens tokens.now.text.now tokens.now.list.items }
    requires read { IsUnit tokens.now tree.now.unit tree.now }
    requires bound { IsBound tokens.now tree.now bound.now }
    requires first { ChildrenFirst (source_of tokens.now tree.now) }
    requires ready { IsReady unit.old }
    requires node { node < length tree.now.nodes.items }
    requires told { IsTold (source_of tokens.now tree.now) node known.old.list.items unit.old }
    ensures ready { IsReady unit.new }
    ensures grows { Grows unit.old unit.new }
    ensures within { IfOk result (λ i. i < length unit.new.nodes.items) }
    ensures only { IfOk result (λ i. AllUnder unit.new (length unit.old.nodes.items) i) }
    ensures owner { known.new.owner ≡ known.old.owner }
    ensures kept { OnErr result (known.new.list.items ≡ known.old.list.items) }
    ensures answer { let s = source_of tokens.now tree.now in
        IsAnswer s node known.old.list.items known.new.list.items known.old.owner unit.old unit.new result }

    // No refusal is of the kind `NotBuilt`.
    ensures built { IfErr result IsOtherFault }
{
    rows_are_built();
    match reach(alloc, tokens, tree, bound, node) {
        Ok(mut walked) => {
            let owner = known.owner;
            carried(
                alloc,
                unit,
                bound,
                &mut known.list,
                owner,
                &mut walked,
                node,
            )
        }
        Err(fault) => Err(fault),
    }
}
