// A unit of the source, from its tokens and its tree.
ghost use Rattle.std.specs.Prelude.{◌≡◌, ◌≤◌, ℕ, List, [], length, IfOk, IfSome, IsOkUnless, MatchResult};
ghost use Rattle.core_tree.specs.declared.node.Unit.{Unit as UnitSpec};
ghost use Rattle.core_nodes.specs.declared.fault.CheckFault.TheVariants.{OutOfMemory};
ghost use Rattle.core_nodes.specs.Once.{HasOnce};
ghost use Rattle.core_nodes.specs.Standing.{IsReady};
ghost use Rattle.c_lexer.specs.Cut.{IsTokens};
ghost use Rattle.c_scope.specs.Resolves.{IsBound};
ghost use Rattle.c_senses.specs.Names.{source_of, numbered};
ghost use Rattle.name_uses.specs.passed.expression_rows.Readable.{IsReadable};
ghost use Rattle.parsed_tree_laws.specs.family_laws.Families.{Families};
ghost use Rattle.limit_laws.specs.Limits.{AlwaysLimited};
ghost use Rattle.parsed_tree_laws.specs.sense_laws.Senses.{ChildrenFirst};
ghost use Rattle.struct_rows.specs.Built.{HasTagTypes};
ghost use Rattle.c_tags.specs.tag_numbers.Known.{AreTags};
ghost use Rattle.c_tags.specs.tag_numbers.Ordered.{AreInOrder};
ghost use Rattle.tree_reads.specs.Sources.{source_in, number_in};
ghost use Rattle.unit_walk.specs.unit_rows.Standing.{Stand};
ghost use Rattle.unit_walk.specs.Ground.{IsGround, source_ground, nodes_ground};
ghost use Rattle.unit_walk.specs.Walked.{IsWalked, RefusedIn};
ghost use Rattle.unit_walk.specs.Stopping.{IsWalkedTo, RefusedEarly};

use crate::nodes::walk_nodes;
use crate::unit_choices::name_kinds;
use crate::unit_rows::Known;
use c_grammar::Tree;
use c_lexer::Tokens;
use c_meanings::Names;
use c_results::Results;
use c_scope::Bound;
use c_tags::tag_numbers::{Numbered, number_tags};
use core_nodes::CheckFault;
use core_tree::node::Unit;
use name_chains::symbol_lists::SymbolLists;
use name_uses::name_sayings::open_names;
use pta_base::Text;
use statement_rows::NameKinds;
use std::alloc::Global;
use struct_rows::tag_types::open_types;
use tree_reads::Syntax;

/// What is known of a unit before its rows, and owned.
#[derive(Drop)]
pub struct Ground<'a> {
    pub numbered: Numbered<'a>,
    pub names: Names,
    pub lists: SymbolLists,
    pub kinds: NameKinds,
}

/// What each node of a unit stands for: what is known of the unit, its types and core nodes, in which an entity is known by the leaf of
/// its name, and what was made for each syntax node.
#[derive(Drop)]
pub struct Walked<'a> {
    pub ground: Ground<'a>,
    pub unit: Unit,
    pub results: Results,
}

// What is known of a unit before its rows. Only memory may want: names of a text are spelled in ASCII, and declared at nodes.
fn ground_of<'a>(
    alloc: Global,
    tokens: &'a Tokens<'a>,
    tree: &'a Tree,
    bound: &Bound,
) -> Result<Ground<'a>, CheckFault>
    requires tokens { IsTokens tokens.now.text.now tokens.now.list.items }
    requires bound { IsBound tokens.now tree.now bound.now }
    requires first { ChildrenFirst (source_of tokens.now tree.now) }
    ensures tokens { IfOk result (λ g. g.numbered.syntax.tokens.now ≡ tokens.now) }
    ensures tree { IfOk result (λ g. g.numbered.syntax.tree.now ≡ tree.now) }
    ensures ground { (u : UnitSpec) → IfOk result (λ g. IsGround g bound.now) }
    ensures ordered { IfOk result (λ g. AreInOrder (source_ground g bound.now)) }
    ensures memory { IsOkUnless result OutOfMemory }
{
    let Ok(syntax) = Syntax::new(alloc, tokens, tree) else {
        return Err(CheckFault::OutOfMemory);
    };
    let Ok(numbered) = number_tags(alloc, syntax, bound) else {
        return Err(CheckFault::OutOfMemory);
    };
    let (names, lists) = match open_names(alloc, &numbered.syntax, bound) {
        Ok(both) => both,
        Err(fault) => return Err(fault),
    };
    let kinds = match name_kinds(alloc, &numbered.syntax, bound) {
        Ok(kinds) => kinds,
        Err(fault) => return Err(fault),
    };
    Ok(Ground {
        numbered,
        names,
        lists,
        kinds,
    })
}

// A unit with the types of its structures and unions and with nothing else in it, not even a name.
fn open_unit(alloc: Global, numbered: &Numbered) -> Result<Unit, CheckFault>
    ensures ready { IfOk result IsReady }
    ensures open { IfOk result (λ unit. unit.types.completed ≡ []) }
    ensures once { IfOk result (λ unit. HasOnce unit.types) }
    ensures count { IfOk result (λ unit. unit.types.tags ≡ numbered.now.tags.count) }
    ensures tags { (uses : List (ℕ × ℕ)) →
        let s = source_in numbered.now.syntax uses in
        AreTags s numbered.now.tags → IfOk result (λ unit. HasTagTypes s unit.types) }
    ensures entities { IfOk result (λ unit. unit.entities.items ≡ []) }
    ensures memory { IsOkUnless result OutOfMemory }
{
    let Ok(types) = open_types(alloc, numbered) else {
        return Err(CheckFault::OutOfMemory);
    };

    // That the table has a count says that its types were made by its own functions.
    let _count = types.type_count();
    Ok(Unit {
        name: Text::of(String::new(alloc)),
        types,
        tags: Vec::new(alloc),
        nodes: Vec::new(alloc),
        entities: Vec::new(alloc),
    })
}

/// What each of the first so many nodes of a unit stands for (C11 6.5 to 6.9), where its tokens and its tree are those of a text that is
/// read (its constants and strings can be read, its tree is of families, and what its rows make is within the limits as long as they fit)
/// and whose names are bound; the unit has no name yet. It is refused as the first of these nodes is whose row doesn't fit. Beside that
/// only memory may want. Tags have the numbers of the order of their first specifiers in the whole unit.
pub fn walk_to<'a>(
    alloc: Global,
    tokens: &'a Tokens<'a>,
    tree: &'a Tree,
    bound: &Bound,
    end: u32,
) -> Result<Walked<'a>, CheckFault>
    requires tokens { IsTokens tokens.now.text.now tokens.now.list.items }
    requires bound { IsBound tokens.now tree.now bound.now }
    requires first { ChildrenFirst (source_of tokens.now tree.now) }
    requires readable { (at : ℕ) → IsReadable (source_of tokens.now tree.now) at }
    requires families { Families (source_of tokens.now tree.now) }
    requires limits { (tag_number : ℕ → ℕ) → AlwaysLimited (numbered tag_number (source_of tokens.now tree.now)) }
    requires end { end ≤ length tree.now.nodes.items }
    ensures ground { IfOk result (λ w. IsGround w.ground bound.now) }
    ensures tokens { IfOk result (λ w. w.ground.numbered.syntax.tokens.now ≡ tokens.now) }
    ensures tree { IfOk result (λ w. w.ground.numbered.syntax.tree.now ≡ tree.now) }
    ensures source { IfOk result (λ w.
        source_ground w.ground bound.now
        ≡ numbered (number_in w.ground.numbered.syntax.tag_numbers) (source_of tokens.now tree.now)) }
    ensures ordered { IfOk result (λ w. AreInOrder (source_ground w.ground bound.now)) }
    ensures stand { IfOk result (λ w. Stand (nodes_ground w.ground) w.unit w.results) }
    ensures types { IfOk result (λ w. HasTagTypes (source_ground w.ground bound.now) w.unit.types) }
    ensures once { IfOk result (λ w. HasOnce w.unit.types) }
    ensures walked { MatchResult result
        (λ w. IsWalkedTo (source_ground w.ground bound.now) end w.unit w.results)
        (RefusedEarly (source_of tokens.now tree.now) end) }
{
    let ground = match ground_of(alloc, tokens, tree, bound) {
        Ok(ground) => ground,
        Err(fault) => return Err(fault),
    };
    let mut unit = match open_unit(alloc, &ground.numbered) {
        Ok(unit) => unit,
        Err(fault) => return Err(fault),
    };
    let known = Known {
        numbered: &ground.numbered,
        bound,
        names: &ground.names,
        lists: &ground.lists,
        kinds: &ground.kinds,
    };
    match walk_nodes(alloc, &mut unit, &known, end) {
        Ok(results) => Ok(Walked {
            ground,
            unit,
            results,
        }),
        Err(fault) => Err(fault),
    }
}

// How many nodes a tree has, where there are fewer than 2^32.
fn node_count(tree: &Tree) -> Option<u32>
    ensures { IfSome result (λ n. n ≡ length tree.now.nodes.items) }
{
    if tree.nodes.len() > u32::MAX as usize {
        return None;
    }
    Some(tree.nodes.len() as u32)
}

/// What each node of a unit stands for (C11 6.5 to 6.9), where its tokens and its tree are those of a text that is read (its constants
/// and strings can be read, its tree is of families, and what its rows make is within the limits as long as they fit) and whose names are
/// bound; the unit has no name yet. It is refused as the first node is whose row doesn't fit. Beside that only memory may want, or there
/// are 2^32 nodes. Tags have the numbers of the order of their first specifiers.
pub fn walk<'a>(
    alloc: Global,
    tokens: &'a Tokens<'a>,
    tree: &'a Tree,
    bound: &Bound,
) -> Result<Walked<'a>, CheckFault>
    requires tokens { IsTokens tokens.now.text.now tokens.now.list.items }
    requires bound { IsBound tokens.now tree.now bound.now }
    requires first { ChildrenFirst (source_of tokens.now tree.now) }
    requires readable { (at : ℕ) → IsReadable (source_of tokens.now tree.now) at }
    requires families { Families (source_of tokens.now tree.now) }
    requires limits { (tag_number : ℕ → ℕ) → AlwaysLimited (numbered tag_number (source_of tokens.now tree.now)) }
    ensures ground { IfOk result (λ w. IsGround w.ground bound.now) }
    ensures tokens { IfOk result (λ w. w.ground.numbered.syntax.tokens.now ≡ tokens.now) }
    ensures tree { IfOk result (λ w. w.ground.numbered.syntax.tree.now ≡ tree.now) }
    ensures source { IfOk result (λ w.
        source_ground w.ground bound.now
        ≡ numbered (number_in w.ground.numbered.syntax.tag_numbers) (source_of tokens.now tree.now)) }
    ensures ordered { IfOk result (λ w. AreInOrder (source_ground w.ground bound.now)) }
    ensures stand { IfOk result (λ w. Stand (nodes_ground w.ground) w.unit w.results) }
    ensures types { IfOk result (λ w. HasTagTypes (source_ground w.ground bound.now) w.unit.types) }
    ensures once { IfOk result (λ w. HasOnce w.unit.types) }
    ensures walked { MatchResult result
        (λ w. IsWalked (source_ground w.ground bound.now) w.unit w.results)
        (RefusedIn (source_of tokens.now tree.now)) }
{
    let Some(end) = node_count(tree) else {
        return Err(CheckFault::OutOfMemory);
    };
    match walk_to(alloc, tokens, tree, bound, end) {
        Ok(walked) => Ok(walked),
        Err(fault) => Err(fault),
    }
}
