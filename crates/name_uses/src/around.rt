// What is looked up around a node of an expression.
ghost use Rattle.std.specs.Prelude.{◌≡◌, ◌<◌, ℕ, List, All, None, length, get_or, drop, option_map, IfOk};
ghost use Rattle.std.specs.Option.{option_copied};
ghost use Rattle.core_tree.specs.declared.node.Unit.{Unit as UnitSpec};
ghost use Rattle.core_nodes.specs.Standing.{core_at, IsReady, Builds};
ghost use Rattle.c_results.specs.Standing.{senses_made, IsWithin};
ghost use Rattle.c_senses.specs.Tree.{spelling_at, production_at, children_at};
ghost use Rattle.c_senses.specs.World.{World};
ghost use Rattle.c_senses.specs.Sense.{sense_in};
ghost use Rattle.c_senses.specs.Entities as entities;
ghost use Rattle.expression_rows.specs.c_rows.Named.{NameFits, IsNamedWithin};
ghost use Rattle.expression_rows.specs.c_rows.Lists.{FurtherFits, NamesLast, LeafFits, named_leaf};
ghost use Rattle.tree_reads.specs.Sources.{source_in};
ghost use Rattle.c_meanings.specs.Known.{AreNames, AreNamed, ArePaired};
ghost use Rattle.c_meanings.specs.Linkages.{AreLinkages};
ghost use Rattle.c_meanings.specs.Meanings.{meaning_seen};
ghost use Rattle.name_places.specs.Named.{IsNamedIn};
ghost use Rattle.expression_rows.specs.Fitting.{IdentifierFits, FirstFits, FitsAround};
ghost use Rattle.name_uses.specs.Around.{IsWorldAt};
ghost use Rattle.name_uses.specs.Built.{is_strange, alone_is_strange, first_is_strange, names_strangely};
ghost use Rattle.name_uses.specs.Looked.{Looked};

use crate::named::named_of;
use crate::uses::{further_of, may_call};
use c_grammar::productions::{POST, PRIMARY};
use c_lexer::TokenKind;
use c_meanings::{Linkages, Meaning, Names, meaning_at};
use c_results::{Results, node_at};
use core_nodes::CheckFault;
use core_tree::node::Unit;
use expression_rows::{Around, ListParts, Named, list_parts, name_of};
use name_places::own_name;
use pta_base::Kind;
use std::alloc::Global;
use tree_reads::{Syntax, children_of, kind_of, production_of};

// Around a node that is no name and no call nothing is looked up.
fn nothing<'a>(may_call: bool) -> Around<'a>
    ensures within { (u : UnitSpec) → IsNamedWithin u result.first }
    ensures calls { result.may_call ≡ may_call }
{
    Around {
        first: Named::NoValue,
        may_call,
        own_name: None,
        further: None,
    }
}

// The variadic function whose last parameter a core node names.
fn further_at(
    unit: &Unit,
    syntax: &Syntax,
    names: &Names,
    results: &Results,
    node: u32,
) -> Option<u32>
    requires ready { IsReady unit.now }
    requires results { All (IsWithin unit.now) results.now }
    requires named { All (IsNamedIn (length syntax.now.tree.now.nodes.items)) results.now }
    requires names { AreNamed syntax.now results.now names.now }
    requires node { node < length unit.now.nodes.items }
    ensures { (w : World) (uses : List (ℕ × ℕ)) →
        let s = source_in syntax.now uses in
        let sense = sense_in (senses_made unit.now results.now) in
        ((v : World) (leaf : ℕ) → w.further leaf ≡ entities.further_of v s sense leaf) →
        LeafFits w (named_leaf (core_at unit.now node)) result }
{
    match name_of(unit, node) {
        Some(leaf) => further_of(names, syntax, results, leaf),
        None => None,
    }
}

// The variadic function whose last parameter a syntax node names.
fn further_second(
    unit: &Unit,
    syntax: &Syntax,
    names: &Names,
    results: &Results,
    second: u32,
) -> Option<u32>
    requires ready { IsReady unit.now }
    requires results { All (IsWithin unit.now) results.now }
    requires named { All (IsNamedIn (length syntax.now.tree.now.nodes.items)) results.now }
    requires names { AreNamed syntax.now results.now names.now }
    ensures { (w : World) (uses : List (ℕ × ℕ)) →
        let s = source_in syntax.now uses in
        let sense = sense_in (senses_made unit.now results.now) in
        ((v : World) (leaf : ℕ) → w.further leaf ≡ entities.further_of v s sense leaf) →
        NamesLast w (sense second) result }
{
    match node_at(results, second) {
        Some(node) => further_at(unit, syntax, names, results, node),
        None => None,
    }
}

// The variadic function whose last parameter an operation on lists names as its second part, by the nodes behind its name.
fn further_named(
    unit: &Unit,
    syntax: &Syntax,
    names: &Names,
    results: &Results,
    rest: &[u32],
) -> Option<u32>
    requires ready { IsReady unit.now }
    requires results { All (IsWithin unit.now) results.now }
    requires named { All (IsNamedIn (length syntax.now.tree.now.nodes.items)) results.now }
    requires names { AreNamed syntax.now results.now names.now }
    ensures { (w : World) (uses : List (ℕ × ℕ)) →
        let s = source_in syntax.now uses in
        let sense = sense_in (senses_made unit.now results.now) in
        ((v : World) (leaf : ℕ) → w.further leaf ≡ entities.further_of v s sense leaf) →
        FurtherFits w s sense rest.now result }
{
    match list_parts(syntax, rest) {
        ListParts::Two(_, second) => further_second(unit, syntax, names, results, second),
        ListParts::One(_) => None,
        ListParts::Other => None,
    }
}

// How the function around a node is named, where what is named there means nothing that is declared.
fn own_name_unless<'a>(
    syntax: &Syntax<'a>,
    results: &Results,
    at: u32,
    meaning: Option<Meaning>,
) -> Option<&'a [u8]>
    requires at { at < length syntax.now.tree.now.nodes.items }
    ensures own { (u v : UnitSpec) (uses : List (ℕ × ℕ)) →
        let s = source_in syntax.now uses in
        meaning_seen v meaning ≡ None →
        option_copied result
        ≡ option_map (spelling_at s) (entities.function_around s (sense_in (senses_made u results.now)) at) }
{
    match meaning {
        None => own_name(syntax, results, at),
        Some(_) => None,
    }
}

// What is looked up for a name.
fn around_name<'a>(
    alloc: Global,
    unit: &mut Unit,
    syntax: &Syntax<'a>,
    names: &Names,
    results: &Results,
    linkages: &mut Linkages,
    at: u32,
    leaf: u32,
) -> Result<Around<'a>, CheckFault>
    requires ready { IsReady unit.old }
    requires results { All (IsWithin unit.old) results.now }
    requires named { All (IsNamedIn (length syntax.now.tree.now.nodes.items)) results.now }
    requires names { AreNames syntax.now unit.old results.now names.now }
    requires linkages { AreLinkages syntax.now results.now names.now linkages.old }
    requires at { at < length syntax.now.tree.now.nodes.items }
    ensures linkages { AreLinkages syntax.now results.now names.now linkages.new }
    ensures ready { IsReady unit.new }
    ensures builds { Builds unit.old unit.new }
    ensures within { IfOk result (λ around. IsNamedWithin unit.new around.first) }
    ensures looked { (w : World) (uses : List (ℕ × ℕ)) →
        let s = source_in syntax.now uses in
        ArePaired names.now uses →
        IsWorldAt w s (sense_in (senses_made unit.old results.now)) at →
        Looked (λ around. NameFits w unit.new around.first (option_copied around.own_name) (w.meaning leaf))
        (is_strange (length s.nodes) (w.meaning leaf)) at result }
{
    let Ok(meaning) = meaning_at(alloc, unit, syntax, names, results, linkages, leaf) else {
        return Err(CheckFault::OutOfMemory);
    };
    let own_name = own_name_unless(syntax, results, at, meaning);
    match named_of(names, syntax, results, at, meaning) {
        Some(first) => Ok(Around {
            first,
            may_call: false,
            own_name,
            further: None,
        }),
        None => Err(CheckFault::Unsupported(Kind::NotBuilt, at)),
    }
}

// What is looked up for a name alone, or for an operation on lists.
fn around_identifier<'a>(
    alloc: Global,
    unit: &mut Unit,
    syntax: &Syntax<'a>,
    names: &Names,
    results: &Results,
    linkages: &mut Linkages,
    at: u32,
    children: &[u32],
) -> Result<Around<'a>, CheckFault>
    requires ready { IsReady unit.old }
    requires results { All (IsWithin unit.old) results.now }
    requires named { All (IsNamedIn (length syntax.now.tree.now.nodes.items)) results.now }
    requires names { AreNames syntax.now unit.old results.now names.now }
    requires linkages { AreLinkages syntax.now results.now names.now linkages.old }
    requires at { at < length syntax.now.tree.now.nodes.items }
    requires some { 0 < length children.now }
    ensures linkages { AreLinkages syntax.now results.now names.now linkages.new }
    ensures ready { IsReady unit.new }
    ensures builds { Builds unit.old unit.new }
    ensures within { IfOk result (λ around. IsNamedWithin unit.new around.first) }
    ensures looked { (w : World) (uses : List (ℕ × ℕ)) →
        let s = source_in syntax.now uses in
        let first = get_or children.now 0 0 in
        ArePaired names.now uses →
        IsWorldAt w s (sense_in (senses_made unit.old results.now)) at →
        Looked (IdentifierFits w unit.new s (sense_in (senses_made unit.new results.now)) first (drop 1 children.now))
        (alone_is_strange w s first (drop 1 children.now)) at result }
{
    if children.len() < 2 {
        return around_name(
            alloc,
            unit,
            syntax,
            names,
            results,
            linkages,
            at,
            children[0],
        );
    }
    let (_, rest) = children.split_at(1);
    Ok(Around {
        first: Named::NoValue,
        may_call: false,
        own_name: None,
        further: further_named(unit, syntax, names, results, rest),
    })
}

// What is looked up for a primary: for an identifier what it means.
fn around_primary<'a>(
    alloc: Global,
    unit: &mut Unit,
    syntax: &Syntax<'a>,
    names: &Names,
    results: &Results,
    linkages: &mut Linkages,
    at: u32,
    children: &[u32],
) -> Result<Around<'a>, CheckFault>
    requires ready { IsReady unit.old }
    requires results { All (IsWithin unit.old) results.now }
    requires named { All (IsNamedIn (length syntax.now.tree.now.nodes.items)) results.now }
    requires names { AreNames syntax.now unit.old results.now names.now }
    requires linkages { AreLinkages syntax.now results.now names.now linkages.old }
    requires at { at < length syntax.now.tree.now.nodes.items }
    ensures linkages { AreLinkages syntax.now results.now names.now linkages.new }
    ensures ready { IsReady unit.new }
    ensures builds { Builds unit.old unit.new }
    ensures within { IfOk result (λ around. IsNamedWithin unit.new around.first) }
    ensures looked { (w : World) (uses : List (ℕ × ℕ)) →
        let s = source_in syntax.now uses in
        ArePaired names.now uses →
        IsWorldAt w s (sense_in (senses_made unit.old results.now)) at →
        Looked (FirstFits w unit.new s (sense_in (senses_made unit.new results.now)) children.now)
        (first_is_strange w s children.now) at result }
{
    if children.is_empty() {
        return Ok(nothing(false));
    }
    let first = children[0];
    match kind_of(syntax, first) {
        TokenKind::Identifier => around_identifier(
            alloc, unit, syntax, names, results, linkages, at, children,
        ),
        TokenKind::Keyword(_) | TokenKind::Punctuator(_) | TokenKind::Integer => {
            Ok(nothing(false))
        }
        TokenKind::Floating | TokenKind::Character | TokenKind::Text | TokenKind::End => {
            Ok(nothing(false))
        }
    }
}

/// What is looked up around a node of an expression before its row: for a primary that is an identifier what it means there (C11
/// 6.5.1) and, where it means nothing that is declared, how the function around it is named (6.4.2.2); for what stands behind an
/// operand whether a function may be called (6.5.2.2, 6.7.9p4). `NotBuilt` at the node where the identifier means a number that int
/// doesn't hold, or an object that no node of the tree declares: no declaration makes a name mean that. Only memory may want beside
/// that. It takes as long as the nesting around the node is deep.
pub fn around_of<'a>(
    alloc: Global,
    unit: &mut Unit,
    syntax: &Syntax<'a>,
    names: &Names,
    results: &Results,
    linkages: &mut Linkages,
    at: u32,
) -> Result<Around<'a>, CheckFault>
    requires ready { IsReady unit.old }
    requires results { All (IsWithin unit.old) results.now }
    requires named { All (IsNamedIn (length syntax.now.tree.now.nodes.items)) results.now }
    requires names { AreNames syntax.now unit.old results.now names.now }
    requires linkages { AreLinkages syntax.now results.now names.now linkages.old }
    requires at { at < length syntax.now.tree.now.nodes.items }
    ensures linkages { AreLinkages syntax.now results.now names.now linkages.new }
    ensures ready { IsReady unit.new }
    ensures builds { Builds unit.old unit.new }
    ensures within { IfOk result (λ around. IsNamedWithin unit.new around.first) }
    ensures looked { (w : World) (uses : List (ℕ × ℕ)) →
        let s = source_in syntax.now uses in
        ArePaired names.now uses →
        IsWorldAt w s (sense_in (senses_made unit.old results.now)) at →
        let sense = sense_in (senses_made unit.new results.now) in
        Looked (FitsAround w unit.new s sense (production_at s at) (children_at s at))
        (names_strangely w s (production_at s at) (children_at s at)) at result }
{
    let production = production_of(syntax, at);
    if production == PRIMARY {
        let children = children_of(syntax, at);
        return around_primary(alloc, unit, syntax, names, results, linkages, at, children);
    }
    if production == POST {
        return Ok(nothing(may_call(syntax, results, at)));
    }
    Ok(nothing(false))
}
