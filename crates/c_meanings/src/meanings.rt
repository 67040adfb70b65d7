// What names mean.
ghost use Rattle.std.specs.Prelude.{◌≡◌, ◌<◌, ℕ, List, All, length, IfOk, IfSome, IsOkUnless, Some, option_map};
ghost use Rattle.c_types.specs.Table.{type_of};
ghost use Rattle.c_senses.specs.World.{TypeName};
ghost use Rattle.c_senses.specs.Sense.{Sense, sense_in};
ghost use Rattle.c_senses.specs.Tree.{Source};
ghost use Rattle.c_senses.specs.Entities as spec;
ghost use Rattle.core_tree.specs.declared.node.Unit.{Unit as UnitSpec};
ghost use Rattle.core_nodes.specs.Standing.{IsReady, Builds};
ghost use Rattle.c_results.specs.Standing.{senses_made, IsWithin};
ghost use Rattle.tree_reads.specs.Sources.{source_in};
ghost use Rattle.c_entities.specs.remembered_names.Steps.{type_by};
ghost use Rattle.c_entities.specs.remembered_names.Remembering.{IsRemembered, named};
ghost use Rattle.c_meanings.specs.Known.{AreChained, AreNamed, AreNames, ArePaired};
ghost use Rattle.c_meanings.specs.Linkages.{AreLinkages};
ghost use Rattle.c_meanings.specs.Meanings.{meaning_seen, IsMeaningWithin, IsMeantBy};
ghost use Rattle.c_senses.specs.Names.{linked_before, ordinary_at};

use crate::earlier::{entity_kept, typing_thinned};
use crate::kept::Linkages;
use crate::names::{Names, is_typedef, link_at};
use crate::storage::has_initialiser;
use crate::types::{is_open, type_thinned};
use c_entities::own_type;
use c_entities::remembered_names::{Remembered, found_at, remember, steps_of, type_made};
use c_grammar::productions::ENUMERATOR;
use c_results::{Results, value_at};
use c_types::table::TypeTable;
use c_types::term::{Term, TypeId};
use core_nodes::CheckFault;
use core_tree::node::Unit;
use name_chains::linked_link;
use std::alloc::Global;
use tree_reads::{Syntax, is_a};

/// What a name means (C11 6.2.3, 6.5.1): an object or a function, by the leaf of its entity and with its type; a type; or an
/// enumerator's value.
#[derive(Clone, Copy, Debug, PartialEq, Eq)]
pub enum Meaning {
    Object { entity: u32, ty: TypeId },
    Function { entity: u32, ty: TypeId },
    TypeName(TypeId),
    Value(i128),
}

// Whether an array that waits for its initialiser to give it a length has one by the declarations before it.
fn has_earlier_length(
    alloc: Global,
    unit: &mut Unit,
    syntax: &Syntax,
    names: &Names,
    results: &Results,
    linkages: &mut Linkages,
    leaf: u32,
) -> Result<bool, CheckFault>
    requires ready { IsReady unit.old }
    requires results { All (IsWithin unit.old) results.now }
    requires names { AreNames syntax.now unit.old results.now names.now }
    requires linkages { AreLinkages syntax.now results.now names.now linkages.old }
    requires leaf { leaf < length syntax.now.tree.now.nodes.items }
    ensures linkages { AreLinkages syntax.now results.now names.now linkages.new }
    ensures ready { IsReady unit.new }
    ensures builds { Builds unit.old unit.new }
    ensures made { IfOk result (λ b. (uses : List (ℕ × ℕ)) →
        b ≡ spec.has_earlier_length (source_in syntax.now uses) (sense_in (senses_made unit.old results.now)) leaf) }
    ensures memory { IsOkUnless result CheckFault.OutOfMemory }
{
    if !has_initialiser(syntax, leaf) {
        return Ok(false);
    }
    let behind = type_thinned(alloc, unit, syntax, names, results, linkages, leaf)?;
    if is_open(&unit.types, behind) {
        return Ok(false);
    }
    let own = own_type(alloc, unit, syntax, results, leaf)?;
    Ok(is_open(&unit.types, own))
}

// The latest declaration that is seen where a name is declared, or else that leaf.
fn last_seen(names: &Names, syntax: &Syntax, leaf: u32) -> u32
    requires names { AreChained syntax.now names.now }
    requires leaf { leaf < length syntax.now.tree.now.nodes.items }
    ensures last { (uses : List (ℕ × ℕ)) (sense : ℕ → Sense) →
        let s = source_in syntax.now uses in
        result ≡ spec.last_of s sense leaf (linked_before s (ordinary_at s leaf)) }
    ensures within { result < length syntax.now.tree.now.nodes.items }
{
    match linked_link(&names.chains, leaf) {
        Some(link) => link_at(names, link).declared.node,
        None => leaf,
    }
}

// The declaration by whose entity a name is known: its own, but for an array that waits for its initialiser to give it a length
// and has one by the declarations before it, the last one of these (C11 6.2.1p7, 6.7.9p22).
fn named_by(
    alloc: Global,
    unit: &mut Unit,
    syntax: &Syntax,
    names: &Names,
    results: &Results,
    linkages: &mut Linkages,
    leaf: u32,
) -> Result<u32, CheckFault>
    requires ready { IsReady unit.old }
    requires results { All (IsWithin unit.old) results.now }
    requires names { AreNames syntax.now unit.old results.now names.now }
    requires linkages { AreLinkages syntax.now results.now names.now linkages.old }
    requires leaf { leaf < length syntax.now.tree.now.nodes.items }
    ensures linkages { AreLinkages syntax.now results.now names.now linkages.new }
    ensures ready { IsReady unit.new }
    ensures builds { Builds unit.old unit.new }
    ensures made { IfOk result (λ n. (uses : List (ℕ × ℕ)) →
        n ≡ spec.named_by (source_in syntax.now uses) (sense_in (senses_made unit.old results.now)) leaf) }
    ensures within { IfOk result (λ n. n < length syntax.now.tree.now.nodes.items) }
    ensures memory { IsOkUnless result CheckFault.OutOfMemory }
{
    let earlier = has_earlier_length(alloc, unit, syntax, names, results, linkages, leaf)?;
    if earlier {
        Ok(last_seen(names, syntax, leaf))
    } else {
        Ok(leaf)
    }
}

// An object or a function of a type.
fn object_or_function(types: &TypeTable, entity: u32, ty: TypeId) -> Meaning
    requires { ty.0 < length types.now.terms }
    ensures gives { (u : UnitSpec) (s : Source) (sense : ℕ → Sense) → u.types ≡ types.now →
        meaning_seen u (Some result) ≡ Some (spec.object_or_function s sense entity (type_of types.now ty.0)) }
    ensures within { (u : UnitSpec) → u.types ≡ types.now → IsMeaningWithin u (Some result) }
{
    match types.term(ty) {
        Term::Function { .. } => Meaning::Function { entity, ty },
        _ => Meaning::Object { entity, ty },
    }
}

// What the declaration of a typedef name makes it mean.
fn type_named(
    alloc: Global,
    unit: &mut Unit,
    syntax: &Syntax,
    results: &Results,
    leaf: u32,
) -> Result<Option<Meaning>, CheckFault>
    requires ready { IsReady unit.old }
    requires results { All (IsWithin unit.old) results.now }
    requires leaf { leaf < length syntax.now.tree.now.nodes.items }
    ensures ready { IsReady unit.new }
    ensures builds { Builds unit.old unit.new }
    ensures made { IfOk result (λ m. (uses : List (ℕ × ℕ)) →
        meaning_seen unit.new m
        ≡ option_map TypeName (spec.own_type (source_in syntax.now uses) (sense_in (senses_made unit.old results.now)) leaf)) }
    ensures within { IfOk result (IsMeaningWithin unit.new) }
    ensures memory { IsOkUnless result CheckFault.OutOfMemory }
{
    match own_type(alloc, unit, syntax, results, leaf)? {
        Some(ty) => Ok(Some(Meaning::TypeName(ty))),
        None => Ok(None),
    }
}

// What the declaration of an object or a function makes its name mean.
fn entity_named(
    alloc: Global,
    unit: &mut Unit,
    syntax: &Syntax,
    names: &Names,
    results: &Results,
    linkages: &mut Linkages,
    leaf: u32,
) -> Result<Option<Meaning>, CheckFault>
    requires ready { IsReady unit.old }
    requires results { All (IsWithin unit.old) results.now }
    requires names { AreNames syntax.now unit.old results.now names.now }
    requires linkages { AreLinkages syntax.now results.now names.now linkages.old }
    requires leaf { leaf < length syntax.now.tree.now.nodes.items }
    ensures linkages { AreLinkages syntax.now results.now names.now linkages.new }
    ensures ready { IsReady unit.new }
    ensures builds { Builds unit.old unit.new }
    ensures made { IfOk result (λ m. (uses : List (ℕ × ℕ)) →
        let s = source_in syntax.now uses in
        let sense = sense_in (senses_made unit.old results.now) in
        meaning_seen unit.new m
        ≡ option_map (spec.object_or_function s sense (spec.entity_of s sense (spec.named_by s sense leaf)))
        (spec.type_behind s sense leaf)) }
    ensures within { IfOk result (IsMeaningWithin unit.new) }
    ensures memory { IsOkUnless result CheckFault.OutOfMemory }
{
    let named = named_by(alloc, unit, syntax, names, results, linkages, leaf)?;
    let entity = entity_kept(alloc, names, syntax, results, linkages, named)?;
    let found = type_thinned(alloc, unit, syntax, names, results, linkages, leaf)?;
    match found {
        Some(ty) => Ok(Some(object_or_function(&unit.types, entity.leaf, ty))),
        None => Ok(None),
    }
}

// What the declarator of a leaf makes its name mean (C11 6.2.7, 6.7.8); None where that has no type yet. It is looked up in all that has
// been made. Only memory may want.
fn looked_up(
    alloc: Global,
    unit: &mut Unit,
    syntax: &Syntax,
    names: &Names,
    results: &Results,
    linkages: &mut Linkages,
    leaf: u32,
) -> Result<Option<Meaning>, CheckFault>
    requires ready { IsReady unit.old }
    requires results { All (IsWithin unit.old) results.now }
    requires names { AreNames syntax.now unit.old results.now names.now }
    requires linkages { AreLinkages syntax.now results.now names.now linkages.old }
    requires leaf { leaf < length syntax.now.tree.now.nodes.items }
    ensures linkages { AreLinkages syntax.now results.now names.now linkages.new }
    ensures ready { IsReady unit.new }
    ensures builds { Builds unit.old unit.new }
    ensures made { IfOk result (λ m. (uses : List (ℕ × ℕ)) →
        meaning_seen unit.new m
        ≡ spec.declared_meaning (source_in syntax.now uses) (sense_in (senses_made unit.old results.now)) leaf) }
    ensures within { IfOk result (IsMeaningWithin unit.new) }
    ensures memory { IsOkUnless result CheckFault.OutOfMemory }
{
    if is_typedef(names, syntax, leaf) {
        type_named(alloc, unit, syntax, results, leaf)
    } else {
        entity_named(alloc, unit, syntax, names, results, linkages, leaf)
    }
}

// The declaration whose own type gives a name its meaning for sure, whatever more is made: that of the name itself, or the only one before
// it that gives a type. None where there are more, and where that isn't known.
fn meant_by(
    alloc: Global,
    syntax: &Syntax,
    names: &Names,
    results: &Results,
    linkages: &mut Linkages,
    is_type: bool,
    leaf: u32,
) -> Result<Option<u32>, CheckFault>
    requires names { AreNamed syntax.now results.now names.now }
    requires linkages { AreLinkages syntax.now results.now names.now linkages.old }
    requires is_type { (uses : List (ℕ × ℕ)) (sense : ℕ → Sense) → is_type ≡ spec.is_typedef (source_in syntax.now uses) sense leaf }
    requires leaf { leaf < length syntax.now.tree.now.nodes.items }
    ensures linkages { AreLinkages syntax.now results.now names.now linkages.new }
    ensures meant { IfOk result (λ found. IfSome found (IsMeantBy syntax.now results.now is_type leaf)) }
    ensures within { IfOk result (λ found. IfSome found (λ by. by < length syntax.now.tree.now.nodes.items)) }
    ensures memory { IsOkUnless result CheckFault.OutOfMemory }
{
    if is_type {
        return Ok(Some(leaf));
    }
    let Some(list) = typing_thinned(alloc, names, syntax, results, linkages, leaf)? else {
        return Ok(None);
    };
    if list.len() != 1 {
        return Ok(None);
    }
    let by = list[0].node;
    if by == leaf {
        return Ok(Some(by));
    }
    if has_initialiser(syntax, leaf) {
        return Ok(None);
    }
    Ok(Some(by))
}

// What can be remembered of a declaration; None where what it means isn't sure yet, or takes more than one look. Only memory may want.
fn to_remember(
    alloc: Global,
    unit: &mut Unit,
    syntax: &Syntax,
    names: &Names,
    results: &Results,
    linkages: &mut Linkages,
    leaf: u32,
) -> Result<Option<Remembered>, CheckFault>
    requires ready { IsReady unit.old }
    requires results { All (IsWithin unit.old) results.now }
    requires names { AreNames syntax.now unit.old results.now names.now }
    requires linkages { AreLinkages syntax.now results.now names.now linkages.old }
    requires leaf { leaf < length syntax.now.tree.now.nodes.items }
    ensures linkages { AreLinkages syntax.now results.now names.now linkages.new }
    ensures ready { IsReady unit.new }
    ensures builds { Builds unit.old unit.new }
    ensures leaf { IfOk result (λ found. IfSome found (λ e. e.leaf ≡ leaf)) }
    ensures right { IfOk result (λ found. IfSome found (IsRemembered syntax.now results.now)) }
    ensures typed { IfOk result (λ found. IfSome found (λ e.
        type_by unit.new results.now e.steps.base e.steps.declarator ≡ Some (type_of unit.new.types e.ty.0))) }
    ensures within { IfOk result (λ found. IfSome found (λ e. e.ty.0 < length unit.new.types.terms)) }
    ensures memory { IsOkUnless result CheckFault.OutOfMemory }
{
    let is_type = is_typedef(names, syntax, leaf);
    let Some(by) = meant_by(alloc, syntax, names, results, linkages, is_type, leaf)? else {
        return Ok(None);
    };
    let Some(steps) = steps_of(syntax, results, by) else {
        return Ok(None);
    };
    let kept = entity_kept(alloc, names, syntax, results, linkages, leaf)?;
    if !kept.stays {
        return Ok(None);
    }
    let Some(ty) = type_made(alloc, unit, results, steps)? else {
        return Ok(None);
    };
    Ok(Some(Remembered {
        leaf,
        entity: kept.leaf,
        ty,
        steps,
        is_type,
    }))
}

// What a declaration makes its name mean, by what is remembered of it.
fn meaning_by(types: &TypeTable, found: Remembered) -> Meaning
    requires { found.ty.0 < length types.now.terms }
    ensures gives { (u : UnitSpec) (s : Source) (sense : ℕ → Sense) → u.types ≡ types.now →
        meaning_seen u (Some result) ≡ Some (named s sense found.is_type found.entity (type_of types.now found.ty.0)) }
    ensures within { (u : UnitSpec) → u.types ≡ types.now → IsMeaningWithin u (Some result) }
{
    if found.is_type {
        Meaning::TypeName(found.ty)
    } else {
        object_or_function(types, found.entity, found.ty)
    }
}

// The same, remembered for the uses after this one, where it is for sure.
fn first_meaning(
    alloc: Global,
    unit: &mut Unit,
    syntax: &Syntax,
    names: &Names,
    results: &Results,
    linkages: &mut Linkages,
    leaf: u32,
) -> Result<Option<Meaning>, CheckFault>
    requires ready { IsReady unit.old }
    requires results { All (IsWithin unit.old) results.now }
    requires names { AreNames syntax.now unit.old results.now names.now }
    requires linkages { AreLinkages syntax.now results.now names.now linkages.old }
    requires leaf { leaf < length syntax.now.tree.now.nodes.items }
    ensures linkages { AreLinkages syntax.now results.now names.now linkages.new }
    ensures ready { IsReady unit.new }
    ensures builds { Builds unit.old unit.new }
    ensures made { IfOk result (λ m. (uses : List (ℕ × ℕ)) →
        meaning_seen unit.new m
        ≡ spec.declared_meaning (source_in syntax.now uses) (sense_in (senses_made unit.old results.now)) leaf) }
    ensures within { IfOk result (IsMeaningWithin unit.new) }
    ensures memory { IsOkUnless result CheckFault.OutOfMemory }
{
    match to_remember(alloc, unit, syntax, names, results, linkages, leaf)? {
        Some(found) => {
            remember(&mut linkages.memory, found);
            Ok(Some(meaning_by(&unit.types, found)))
        }
        None => looked_up(alloc, unit, syntax, names, results, linkages, leaf),
    }
}

// What the declarator of a leaf makes its name mean (C11 6.2.7, 6.7.8), by what is remembered of it; None where that has no type yet. Only
// memory may want. The contract says what it means and that what is kept stays right, and nothing of how often a declaration is looked at.
fn declared_meaning(
    alloc: Global,
    unit: &mut Unit,
    syntax: &Syntax,
    names: &Names,
    results: &Results,
    linkages: &mut Linkages,
    leaf: u32,
) -> Result<Option<Meaning>, CheckFault>
    requires ready { IsReady unit.old }
    requires results { All (IsWithin unit.old) results.now }
    requires names { AreNames syntax.now unit.old results.now names.now }
    requires linkages { AreLinkages syntax.now results.now names.now linkages.old }
    requires leaf { leaf < length syntax.now.tree.now.nodes.items }
    ensures linkages { AreLinkages syntax.now results.now names.now linkages.new }
    ensures ready { IsReady unit.new }
    ensures builds { Builds unit.old unit.new }
    ensures made { IfOk result (λ m. (uses : List (ℕ × ℕ)) →
        meaning_seen unit.new m
        ≡ spec.declared_meaning (source_in syntax.now uses) (sense_in (senses_made unit.old results.now)) leaf) }
    ensures within { IfOk result (IsMeaningWithin unit.new) }
    ensures memory { IsOkUnless result CheckFault.OutOfMemory }
{
    match found_at(&unit.types, results, linkages.memory.as_slice(), leaf) {
        Some(found) => Ok(Some(meaning_by(&unit.types, found))),
        None => first_meaning(alloc, unit, syntax, names, results, linkages, leaf),
    }
}

// The value of an enumerator, by its node.
fn enumerated(results: &Results, node: u32) -> Option<Meaning>
    ensures gives { (u : UnitSpec) (s : Source) →
        meaning_seen u result ≡ spec.enumerated s (sense_in (senses_made u results.now)) node }
    ensures within { (u : UnitSpec) → IsMeaningWithin u result }
{
    match value_at(results, node) {
        Some(value) => Some(Meaning::Value(value)),
        None => None,
    }
}

// What the declaration that a leaf makes makes its name mean (C11 6.2.3, 6.7.2.2p3). Only memory may want.
fn meaning_of(
    alloc: Global,
    unit: &mut Unit,
    syntax: &Syntax,
    names: &Names,
    results: &Results,
    linkages: &mut Linkages,
    leaf: u32,
) -> Result<Option<Meaning>, CheckFault>
    requires ready { IsReady unit.old }
    requires results { All (IsWithin unit.old) results.now }
    requires names { AreNames syntax.now unit.old results.now names.now }
    requires linkages { AreLinkages syntax.now results.now names.now linkages.old }
    requires leaf { leaf < length syntax.now.tree.now.nodes.items }
    ensures linkages { AreLinkages syntax.now results.now names.now linkages.new }
    ensures ready { IsReady unit.new }
    ensures builds { Builds unit.old unit.new }
    ensures made { IfOk result (λ m. (uses : List (ℕ × ℕ)) →
        meaning_seen unit.new m
        ≡ spec.meaning_of (source_in syntax.now uses) (sense_in (senses_made unit.old results.now)) leaf) }
    ensures within { IfOk result (IsMeaningWithin unit.new) }
    ensures memory { IsOkUnless result CheckFault.OutOfMemory }
{
    let Some(parent) = syntax.parent_of(leaf) else {
        return Ok(None);
    };
    if is_a(syntax, ENUMERATOR, parent) {
        return Ok(enumerated(results, parent));
    }
    declared_meaning(alloc, unit, syntax, names, results, linkages, leaf)
}

/// What the use of a name means, by its leaf (C11 6.2.1, 6.5.1): what the declaration means that it is paired with; None where it is
/// paired with none. Only memory may want.
pub fn meaning_at(
    alloc: Global,
    unit: &mut Unit,
    syntax: &Syntax,
    names: &Names,
    results: &Results,
    linkages: &mut Linkages,
    leaf: u32,
) -> Result<Option<Meaning>, CheckFault>
    requires ready { IsReady unit.old }
    requires results { All (IsWithin unit.old) results.now }
    requires names { AreNames syntax.now unit.old results.now names.now }
    requires linkages { AreLinkages syntax.now results.now names.now linkages.old }
    ensures linkages { AreLinkages syntax.now results.now names.now linkages.new }
    ensures ready { IsReady unit.new }
    ensures builds { Builds unit.old unit.new }
    ensures made { IfOk result (λ m. (uses : List (ℕ × ℕ)) →
        ArePaired names.now uses →
        meaning_seen unit.new m
        ≡ spec.meaning_at (source_in syntax.now uses) (sense_in (senses_made unit.old results.now)) leaf) }
    ensures within { IfOk result (IsMeaningWithin unit.new) }
    ensures memory { IsOkUnless result CheckFault.OutOfMemory }
{
    match names.uses.get(leaf) {
        Some(declaring) => meaning_of(alloc, unit, syntax, names, results, linkages, declaring),
        None => Ok(None),
    }
}
