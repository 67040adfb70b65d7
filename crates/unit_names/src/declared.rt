// What the leaf of a name declares (C11 6.7, 6.9).
ghost use Rattle.std.specs.Prelude.{◌≡◌, ◌<◌, ◌==◌, true, ℕ, List, All, length, IfOk, IfSome, IsOkUnless};
ghost use Rattle.std.specs.Option.{option_map};
ghost use Rattle.c_types.specs.Table.{type_of};
ghost use Rattle.core_tree.specs.declared.node.Unit.{Unit as UnitSpec};
ghost use Rattle.core_nodes.specs.Standing.{IsReady, Builds};
ghost use Rattle.c_senses.specs.Tree.{spelling_at};
ghost use Rattle.c_senses.specs.Sense.{sense_in};
ghost use Rattle.c_senses.specs.Entities as spec;
ghost use Rattle.c_senses.specs.Right as right;
ghost use Rattle.c_results.specs.declared.made.Made.{Made as MadeSpec};
ghost use Rattle.c_results.specs.Standing.{senses_made, IsWithin};
ghost use Rattle.tree_reads.specs.declared.syntax.Syntax.{Syntax as SyntaxSpec};
ghost use Rattle.tree_reads.specs.Sources.{source_read, source_in};
ghost use Rattle.name_places.specs.Named.{IsNamedIn};
ghost use Rattle.name_chains.specs.symbol_lists.Lists.{AreOf};
ghost use Rattle.c_meanings.specs.Known.{AreNamed};
ghost use Rattle.unit_finish.specs.Walked.{declared_seen};
ghost use Rattle.unit_names.specs.Entries.{IsDeclaredIn};
ghost use Rattle.unit_names.specs.Firsts.{AreFirsts, is_declared_there, may_declare};
ghost use Rattle.unit_names.specs.Asked.{AreAsked};

use crate::bodies::body_at;
use crate::choosing::representative;
use crate::firsts::{Firsts, first_of, no_firsts};
use crate::owners::owner_at;
use crate::storages::storage_at;
use crate::types::entity_type;
use c_meanings::{Linkages, Names, internal_kept, is_linked, is_typedef};
use c_results::Results;
use c_types::term::TypeId;
use core_nodes::CheckFault;
use core_tree::node::{Linkage, Unit};
use name_chains::symbol_lists::SymbolLists;
use name_places::{is_declaring, stands_in_declaration};
use pta_base::Text;
use std::alloc::Global;
use std::str::from_utf8;
use tree_reads::{Syntax, place_of, spelling_of};
use unit_finish::unit_parts::Declared;

/// What is kept while the names of a unit are gone through: of the linkage of names, and by which declarations internal ones are known.
#[derive(Drop)]
pub(crate) struct Asked {
    pub(crate) linkages: Linkages,
    pub(crate) firsts: Firsts,
}

impl Asked {
    /// What is kept before the first name. Only memory may want.
    pub(crate) fn new(alloc: Global, names: &Names) -> Result<Asked, CheckFault>
        ensures asked { (syntax : SyntaxSpec) (results : List MadeSpec) → IfOk result (AreAsked syntax results names.now) }
        ensures memory { IsOkUnless result CheckFault.OutOfMemory }
    {
        let linkages = Linkages::new(alloc, names)?;
        Ok(Asked {
            linkages,
            firsts: no_firsts(alloc),
        })
    }
}

// Whether a leaf stands in a declaration and is no typedef name.
fn is_declared_there(names: &Names, syntax: &Syntax, results: &Results, leaf: u32) -> bool
    requires names { AreNamed syntax.now results.now names.now }
    requires leaf { leaf < length syntax.now.tree.now.nodes.items }
    ensures { (u : UnitSpec) (uses : List (ℕ × ℕ)) →
        result ≡ is_declared_there (source_in syntax.now uses) (senses_made u results.now) leaf }
{
    stands_in_declaration(syntax, results, leaf) && !is_typedef(names, syntax, leaf)
}

/// Whether a leaf may declare an object or a function: it is the name of a declarator, in a declaration or as a parameter of a definition,
/// and no typedef name (C11 6.7, 6.9).
pub(crate) fn may_declare(names: &Names, syntax: &Syntax, results: &Results, leaf: u32) -> bool
    requires names { AreNamed syntax.now results.now names.now }
    requires leaf { leaf < length syntax.now.tree.now.nodes.items }
    ensures { (u : UnitSpec) (uses : List (ℕ × ℕ)) →
        result ≡ may_declare (source_in syntax.now uses) (senses_made u results.now) leaf }
{
    is_declaring(syntax, results, leaf) && is_declared_there(names, syntax, results, leaf)
}

// Whether a leaf is the one by which its entity is known: of the declarations of an internal name the first (C11 6.2.2p2).
fn is_known_here(
    names: &Names,
    syntax: &Syntax,
    results: &Results,
    firsts: &mut Firsts,
    internal: bool,
    leaf: u32,
) -> Result<bool, CheckFault>
    requires names { AreNamed syntax.now results.now names.now }
    requires firsts { AreFirsts syntax.now results.now firsts.old }
    requires internal { (u : UnitSpec) (uses : List (ℕ × ℕ)) →
        internal ≡ spec.is_internal (source_in syntax.now uses) (sense_in (senses_made u results.now)) leaf }
    requires leaf { leaf < length syntax.now.tree.now.nodes.items }
    ensures firsts { IfOk result (λ known. AreFirsts syntax.now results.now firsts.new) }
    ensures known { IfOk result (λ known. (u : UnitSpec) (uses : List (ℕ × ℕ)) →
        known ≡ (spec.entity_of (source_in syntax.now uses) (sense_in (senses_made u results.now)) leaf == leaf)) }
    ensures memory { IsOkUnless result CheckFault.OutOfMemory }
{
    if !internal {
        return Ok(true);
    }
    let first = first_of(names, syntax, results, firsts, leaf)?;
    Ok(first == leaf)
}

// The linkage of a name, by whether it is internal.
fn linkage_by(
    names: &Names,
    syntax: &Syntax,
    results: &Results,
    internal: bool,
    leaf: u32,
) -> Linkage
    requires names { AreNamed syntax.now results.now names.now }
    requires internal { (u : UnitSpec) (uses : List (ℕ × ℕ)) →
        internal ≡ spec.is_internal (source_in syntax.now uses) (sense_in (senses_made u results.now)) leaf }
    ensures { (u : UnitSpec) (uses : List (ℕ × ℕ)) →
        result ≡ spec.linkage_of (source_in syntax.now uses) (sense_in (senses_made u results.now)) leaf }
{
    if internal {
        Linkage::Internal
    } else if is_linked(names, syntax, leaf) {
        Linkage::External
    } else {
        Linkage::Local
    }
}

// The name of a leaf. One that is no text counts as want of memory: names are letters of ASCII.
fn name_of(alloc: Global, syntax: &Syntax, leaf: u32) -> Result<Text, CheckFault>
    ensures name { IfOk result (λ name. name ≡ spelling_at (source_read syntax.now) leaf) }
    ensures memory { IsOkUnless result CheckFault.OutOfMemory }
{
    match from_utf8(spelling_of(syntax, leaf)) {
        Ok(text) => Ok(Text::copy_of(alloc, text)?),
        Err(_) => Err(CheckFault::OutOfMemory),
    }
}

// What a leaf declares, with its type.
fn declared_as(
    alloc: Global,
    names: &Names,
    lists: &SymbolLists,
    syntax: &Syntax,
    results: &Results,
    internal: bool,
    leaf: u32,
    ty: TypeId,
) -> Result<Declared, CheckFault>
    requires named { All (IsNamedIn (length syntax.now.tree.now.nodes.items)) results.now }
    requires names { AreNamed syntax.now results.now names.now }
    requires lists { AreOf (source_read syntax.now).declared.ordinary lists.now }
    requires internal { (u : UnitSpec) (uses : List (ℕ × ℕ)) →
        internal ≡ spec.is_internal (source_in syntax.now uses) (sense_in (senses_made u results.now)) leaf }
    requires leaf { leaf < length syntax.now.tree.now.nodes.items }
    ensures seen { (u : UnitSpec) (uses : List (ℕ × ℕ)) →
        IfOk result (λ x.
        declared_seen u x ≡ right.declared_as (source_in syntax.now uses) (senses_made u results.now) leaf (type_of u.types ty.0)) }
    ensures leaf { IfOk result (λ x. x.leaf ≡ leaf) }
    ensures within { (u : UnitSpec) → All (IsWithin u) results.now → ty.0 < length u.types.terms → IfOk result (IsDeclaredIn u) }
    ensures memory { IsOkUnless result CheckFault.OutOfMemory }
{
    let at = representative(alloc, names, lists, syntax, results, internal, leaf)?;
    let name = name_of(alloc, syntax, leaf)?;
    let linkage = linkage_by(names, syntax, results, internal, leaf);
    Ok(Declared {
        leaf,
        name,
        place: place_of(syntax, at),
        ty,
        linkage,
        storage: storage_at(names, syntax, results, internal, leaf, at),
        owner: owner_at(names, syntax, results, linkage, leaf),
        body: body_at(syntax, results, at),
    })
}

/// What a leaf that may declare something declares as the name of an object or a function: its name and linkage, the type that its
/// declarations give, its storage, the function that owns it, and its body (C11 6.2.2, 6.2.4, 6.2.7, 6.9); None where it declares none,
/// where another declaration of an internal name stands before it, and where no type is made. The types that are asked for may be added to
/// the unit. `asked` is what is kept of the names before. Only memory may want; a name that is no text counts as that too.
pub(crate) fn declared_at(
    alloc: Global,
    unit: &mut Unit,
    names: &Names,
    lists: &SymbolLists,
    syntax: &Syntax,
    results: &Results,
    asked: &mut Asked,
    leaf: u32,
) -> Result<Option<Declared>, CheckFault>
    requires ready { IsReady unit.old }
    requires results { All (IsWithin unit.old) results.now }
    requires named { All (IsNamedIn (length syntax.now.tree.now.nodes.items)) results.now }
    requires names { AreNamed syntax.now results.now names.now }
    requires lists { AreOf (source_read syntax.now).declared.ordinary lists.now }
    requires asked { AreAsked syntax.now results.now names.now asked.old }
    requires leaf { leaf < length syntax.now.tree.now.nodes.items }
    requires may { (u : UnitSpec) (uses : List (ℕ × ℕ)) →
        may_declare (source_in syntax.now uses) (senses_made u results.now) leaf ≡ true }
    ensures asked { IfOk result (λ found. AreAsked syntax.now results.now names.now asked.new) }
    ensures ready { IsReady unit.new }
    ensures builds { Builds unit.old unit.new }
    ensures declared { IfOk result (λ found. (uses : List (ℕ × ℕ)) →
        option_map (declared_seen unit.new) found
        ≡ right.declared_name (source_in syntax.now uses) (senses_made unit.old results.now) leaf) }
    ensures leaf { IfOk result (λ found. IfSome found (λ x. x.leaf ≡ leaf)) }
    ensures within { IfOk result (λ found. IfSome found (IsDeclaredIn unit.new)) }
    ensures memory { IsOkUnless result CheckFault.OutOfMemory }
{
    let internal = internal_kept(names, syntax, results, &mut asked.linkages, leaf);
    let known = is_known_here(names, syntax, results, &mut asked.firsts, internal, leaf)?;
    if !known {
        return Ok(None);
    }
    let Some(ty) = entity_type(alloc, unit, names, lists, syntax, results, internal, leaf)? else {
        return Ok(None);
    };
    let declared = declared_as(alloc, names, lists, syntax, results, internal, leaf, ty)?;
    Ok(Some(declared))
}
