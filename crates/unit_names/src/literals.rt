// What is declared at compound literals (C11 6.5.2.5).
ghost use Rattle.std.specs.Prelude.{◌≡◌, ◌<◌, ℕ, List, All, length, map, option_map, IfOk, IfSome, IsOkUnless};
ghost use Rattle.core_tree.specs.declared.node.Unit.{Unit as UnitSpec};
ghost use Rattle.c_senses.specs.Entities as spec;
ghost use Rattle.c_senses.specs.Right as right;
ghost use Rattle.c_senses.specs.Sense.{sense_in};
ghost use Rattle.parsed_tree_laws.specs.sense_laws.Senses.{ChildrenFirst};
ghost use Rattle.c_results.specs.Standing.{senses_made};
ghost use Rattle.tree_reads.specs.Sources.{source_read, source_in};
ghost use Rattle.name_places.specs.Named.{IsNamedIn};
ghost use Rattle.c_meanings.specs.Known.{AreNamed};
ghost use Rattle.unit_finish.specs.unit_parts.Renamed as renamed;
ghost use Rattle.unit_finish.specs.Walked.{literal_entry};

use c_meanings::{Names, entity_of};
use c_results::Results;
use core_nodes::CheckFault;
use core_tree::node::{Linkage, Node, Storage};
use name_places::function_around;
use pta_base::Text;
use std::alloc::Global;
use tree_reads::{Syntax, place_of};
use unit_finish::unit_parts::{Declared, LiteralAt, literals_in};

// The function in whose definition a leaf stands, by the leaf of its name; none where it isn't a node of the tree.
fn function_over(syntax: &Syntax, results: &Results, leaf: u32) -> Option<u32>
    requires first { ChildrenFirst (source_read syntax.now) }
    ensures name { (u : UnitSpec) →
        result ≡ spec.function_around (source_read syntax.now) (sense_in (senses_made u results.now)) leaf }
    ensures within { (count : ℕ) → All (IsNamedIn count) results.now → IfSome result (λ leaf. leaf < count) }
{
    if leaf as usize >= syntax.tree.nodes.len() {
        return None;
    }
    function_around(syntax, results, leaf)
}

// The storage of a compound literal (C11 6.5.2.5p5): within a function that of its block.
fn literal_storage(syntax: &Syntax, results: &Results, leaf: u32) -> Storage
    requires { ChildrenFirst (source_read syntax.now) }
    ensures { (u : UnitSpec) (uses : List (ℕ × ℕ)) →
        result ≡ right.literal_storage (source_in syntax.now uses) (senses_made u results.now) leaf }
{
    match function_over(syntax, results, leaf) {
        Some(_) => Storage::Automatic,
        None => Storage::Static,
    }
}

// The function that owns a compound literal, by the leaf of its entity; None outside of functions.
fn literal_owner(names: &Names, syntax: &Syntax, results: &Results, leaf: u32) -> Option<u32>
    requires names { AreNamed syntax.now results.now names.now }
    requires named { All (IsNamedIn (length syntax.now.tree.now.nodes.items)) results.now }
    requires first { ChildrenFirst (source_read syntax.now) }
    ensures { (u : UnitSpec) (uses : List (ℕ × ℕ)) →
        let s = source_in syntax.now uses in
        let sense = sense_in (senses_made u results.now) in
        result ≡ option_map (spec.entity_of s sense) (spec.function_around s sense leaf) }
{
    match function_over(syntax, results, leaf) {
        Some(name) => Some(entity_of(names, syntax, results, name)),
        None => None,
    }
}

// What is declared at a compound literal.
fn literal_entry(
    alloc: Global,
    names: &Names,
    syntax: &Syntax,
    results: &Results,
    literal: LiteralAt,
) -> Result<Declared, CheckFault>
    requires names { AreNamed syntax.now results.now names.now }
    requires named { All (IsNamedIn (length syntax.now.tree.now.nodes.items)) results.now }
    requires first { ChildrenFirst (source_read syntax.now) }
    ensures entry { (u : UnitSpec) (uses : List (ℕ × ℕ)) →
        IfOk result (λ x. x ≡ literal_entry (source_in syntax.now uses) (senses_made u results.now) literal) }
    ensures memory { IsOkUnless result CheckFault.OutOfMemory }
{
    let name = Text::copy_of(alloc, "")?;
    Ok(Declared {
        leaf: literal.leaf,
        name,
        place: place_of(syntax, literal.leaf),
        ty: literal.ty,
        linkage: Linkage::Local,
        storage: literal_storage(syntax, results, literal.leaf),
        owner: literal_owner(names, syntax, results, literal.leaf),
        body: literal.body,
    })
}

/// What is declared at some compound literals, in order (C11 6.5.2.5): each an object without a name, of the literal's type, with its
/// place for the whole run outside of functions and with its block within one, which owns it. Only memory may want.
pub fn literal_entries(
    alloc: Global,
    names: &Names,
    syntax: &Syntax,
    results: &Results,
    literals: &[LiteralAt],
) -> Result<Vec<Declared>, CheckFault>
    requires names { AreNamed syntax.now results.now names.now }
    requires named { All (IsNamedIn (length syntax.now.tree.now.nodes.items)) results.now }
    requires first { ChildrenFirst (source_read syntax.now) }
    ensures entries { (u : UnitSpec) (uses : List (ℕ × ℕ)) →
        IfOk result (λ list. list.items ≡ map (literal_entry (source_in syntax.now uses) (senses_made u results.now)) literals.now) }
    ensures memory { IsOkUnless result CheckFault.OutOfMemory }
{
    let mut list = Vec::new(alloc);
    for literal in literals {
        let entry = literal_entry(alloc, names, syntax, results, *literal)?;
        list.push(entry)?;
    }
    Ok(list)
}

/// What is declared at the compound literals among some nodes, in order. Only memory may want.
pub fn declared_literals(
    alloc: Global,
    names: &Names,
    syntax: &Syntax,
    results: &Results,
    nodes: &[Node],
) -> Result<Vec<Declared>, CheckFault>
    requires names { AreNamed syntax.now results.now names.now }
    requires named { All (IsNamedIn (length syntax.now.tree.now.nodes.items)) results.now }
    requires first { ChildrenFirst (source_read syntax.now) }
    ensures entries { (u : UnitSpec) (uses : List (ℕ × ℕ)) →
        IfOk result (λ list.
        list.items ≡ map (literal_entry (source_in syntax.now uses) (senses_made u results.now)) (renamed.literals_in nodes.now)) }
    ensures memory { IsOkUnless result CheckFault.OutOfMemory }
{
    let literals = literals_in(alloc, nodes)?;
    literal_entries(alloc, names, syntax, results, literals.as_slice())
}
