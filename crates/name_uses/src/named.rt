// What a meaning is as the rows are told it (C11 6.5.1).
ghost use Rattle.std.specs.Prelude.{◌≡◌, ◌<◌, ℕ, List, All, length, IfSome, Some};
ghost use Rattle.core_tree.specs.declared.node.Unit.{Unit as UnitSpec};
ghost use Rattle.c_senses.specs.World.{World};
ghost use Rattle.c_senses.specs.Sense.{sense_in};
ghost use Rattle.c_results.specs.Standing.{senses_made};
ghost use Rattle.expression_rows.specs.c_rows.Named.{IsNamedWithin};
ghost use Rattle.tree_reads.specs.Sources.{source_in};
ghost use Rattle.c_meanings.specs.Known.{AreChained};
ghost use Rattle.c_meanings.specs.declared.meanings.Meaning.TheVariants.{Object, Value};
ghost use Rattle.c_meanings.specs.Meanings.{meaning_seen, IsMeaningWithin};
ghost use Rattle.name_places.specs.Named.{IsNamedIn};
ghost use Rattle.name_uses.specs.Around.{may_name_at};
ghost use Rattle.name_uses.specs.Built as spec;
ghost use Rattle.name_uses.specs.Looked.{NamedUnless};

use crate::uses::may_name;
use c_meanings::{Meaning, Names};
use c_results::Results;
use c_types::term::TypeId;
use expression_rows::Named;
use tree_reads::Syntax;

// Whether int holds a number (C11 6.7.2.2p2).
fn is_int(value: i128) -> bool
    ensures { result ≡ spec.is_int value }
{
    -2147483648 <= value && value <= 2147483647
}

// The number of an enumerator, if it is an int.
fn number_named(value: i128) -> Option<Named>
    ensures within { (u : UnitSpec) → IfSome result (IsNamedWithin u) }
    ensures named { (w : World) (u : UnitSpec) (count : ℕ) →
        NamedUnless w u count (meaning_seen u (Some (Value value))) result }
{
    if is_int(value) {
        Some(Named::Value(value))
    } else {
        None
    }
}

// The name of an object, if a node of the tree declares it.
fn object_named(
    names: &Names,
    syntax: &Syntax,
    results: &Results,
    node: u32,
    entity: u32,
    ty: TypeId,
) -> Option<Named>
    requires names { AreChained syntax.now names.now }
    requires results { All (IsNamedIn (length syntax.now.tree.now.nodes.items)) results.now }
    requires node { node < length syntax.now.tree.now.nodes.items }
    ensures within { (u : UnitSpec) → ty.0 < length u.types.terms → IfSome result (IsNamedWithin u) }
    ensures named { (w : World) (u v : UnitSpec) (uses : List (ℕ × ℕ)) →
        let s = source_in syntax.now uses in
        ((e : ℕ) → w.may_name e ≡ may_name_at s (sense_in (senses_made v results.now)) node e) →
        NamedUnless w u (length s.nodes) (meaning_seen u (Some (Object entity ty))) result }
{
    if entity as usize >= syntax.tree.nodes.len() {
        return None;
    }
    let allowed = may_name(names, syntax, results, node, entity);
    Some(Named::Object {
        entity,
        ty,
        allowed,
    })
}

// What a declaration makes a name mean, as the row of a primary is told it.
fn named_as(
    names: &Names,
    syntax: &Syntax,
    results: &Results,
    node: u32,
    meaning: Meaning,
) -> Option<Named>
    requires names { AreChained syntax.now names.now }
    requires results { All (IsNamedIn (length syntax.now.tree.now.nodes.items)) results.now }
    requires node { node < length syntax.now.tree.now.nodes.items }
    ensures within { (u : UnitSpec) → IsMeaningWithin u (Some meaning) → IfSome result (IsNamedWithin u) }
    ensures named { (w : World) (u v : UnitSpec) (uses : List (ℕ × ℕ)) →
        let s = source_in syntax.now uses in
        ((e : ℕ) → w.may_name e ≡ may_name_at s (sense_in (senses_made v results.now)) node e) →
        NamedUnless w u (length s.nodes) (meaning_seen u (Some meaning)) result }
{
    match meaning {
        Meaning::Object { entity, ty } => object_named(names, syntax, results, node, entity, ty),
        Meaning::Function { entity, ty } => Some(Named::Function { entity, ty }),
        Meaning::TypeName(_) => Some(Named::NoValue),
        Meaning::Value(value) => number_named(value),
    }
}

/// A meaning as the row of a primary is told it, at a node (C11 6.5.1): an object with whether it may be named there. None for what no
/// declaration makes a name mean: a number that int doesn't hold (6.7.2.2p2), or an object that no node of the tree declares.
pub fn named_of(
    names: &Names,
    syntax: &Syntax,
    results: &Results,
    node: u32,
    meaning: Option<Meaning>,
) -> Option<Named>
    requires names { AreChained syntax.now names.now }
    requires results { All (IsNamedIn (length syntax.now.tree.now.nodes.items)) results.now }
    requires node { node < length syntax.now.tree.now.nodes.items }
    ensures within { (u : UnitSpec) → IsMeaningWithin u meaning → IfSome result (IsNamedWithin u) }
    ensures named { (w : World) (u v : UnitSpec) (uses : List (ℕ × ℕ)) →
        let s = source_in syntax.now uses in
        ((e : ℕ) → w.may_name e ≡ may_name_at s (sense_in (senses_made v results.now)) node e) →
        NamedUnless w u (length s.nodes) (meaning_seen u meaning) result }
{
    match meaning {
        None => Some(Named::Undeclared),
        Some(meant) => named_as(names, syntax, results, node, meant),
    }
}
