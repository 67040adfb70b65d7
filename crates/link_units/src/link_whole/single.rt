//! The entities of the program that units are (C11 5.1.1.2, 6.2.2).

ghost use Rattle.std.specs.Prelude.{◌≡◌, ◌<◌, ◌^◌, ℕ, Some, MatchResult, IfOk, length, slice_get};
ghost use Rattle.core_tree.specs.declared.node.Unit.{Unit as UnitSpec};
ghost use Rattle.core_tree.specs.Range.{InRange};
ghost use Rattle.core_tree.specs.Typed.{trees_of};
ghost use Rattle.link_names.specs.Names.{AreNames};
ghost use Rattle.link_names.specs.Said.{IsFaultUnless};
ghost use Rattle.link_names.specs.Scene.{IsScene, joined_of};
ghost use Rattle.unit_link.specs.Linked.{LinksBadlyAt};
ghost use Rattle.unit_link.specs.Needs.{AreLinkable};
ghost use Rattle.unit_link.specs.link_program.Ready.{AreReady};
ghost use Rattle.unit_link.specs.link_program.Rows.{AreEntityNumbers};
ghost use Rattle.link_units.specs.link_entities.Row.{AreLinked};
ghost use Rattle.unit_link.specs.link_program.Checked.{joined_by};
ghost use Rattle.unit_link.specs.link_program.Merging.{AreMerged};
ghost use Rattle.link_units.specs.link_whole.Entities.{AreEntitiesOf};

use crate::link_entities::entities::{Linking, linked_entities};
use crate::link_entities::uses::first_uses;
use crate::link_makers::makers::makers_of;
use c_types::table::TypeTable;
use core_tree::{Entity, Unit};
use link_model::link_types::starts::starts;
use link_names::{LinkFault, Names, Scene};
use pta_base::{OutOfMemory, Text};
use std::alloc::Global;
use unit_link::link_program::checked::checked;
use unit_link::link_program::counts::{entity_counts, node_counts};
use unit_link::link_program::numbers::{EntityNumbers, entity_numbers};

// The program's entities.
fn entities_in(
    alloc: Global,
    scene: &Scene<'_>,
    names: &Names,
    numbers: &EntityNumbers,
) -> Result<Vec<Entity>, OutOfMemory>
    requires scene { IsScene scene.now }
    requires ready { AreReady scene.now.types.now }
    requires ranges { (u : ℕ) (x : UnitSpec) → slice_get scene.now.units.now u ≡ Some x → InRange (trees_of x) }
    requires names { AreNames (joined_of scene.now) scene.now.declared.now names.now }
    requires numbers { AreEntityNumbers scene.now.units.now numbers.now }
    ensures few { IfOk result (λ _. (u : ℕ) (x : UnitSpec) → slice_get scene.now.units.now u ≡ Some x → length x.nodes.items < 2 ^ 32) }
    ensures linked { let n = numbers.now in
        IfOk result (λ list. AreLinked (joined_of scene.now) scene.now.declared.now n (length n.leaders.items) list.items) }
{
    let counts = node_counts(alloc, scene.units)?;
    let node_starts = starts(alloc, counts.as_slice())?;
    let makers = makers_of(alloc, scene, names.firsts.as_slice())?;
    let uses = first_uses(alloc, scene, names.firsts.as_slice())?;
    let linking = Linking {
        scene,
        numbers,
        names,
        makers: makers.as_slice(),
        uses: uses.as_slice(),
        node_starts: node_starts.as_slice(),
    };
    linked_entities(alloc, &linking)
}

/// The entities of the program that units are whose types stand in one table, and their numbers, or the first fault: of the
/// declarations in order of unit and place, then the first use of a name that nothing defines, then the want of `main`, or
/// where entries are named of the first name that isn't one.
pub fn entities_of(
    alloc: Global,
    units: &[Unit],
    types: &TypeTable,
    type_starts: &[u32],
    entries: &[Text],
) -> Result<(Vec<Entity>, EntityNumbers), LinkFault>
    requires linkable { AreLinkable units.now }
    requires merged { AreMerged units.now type_starts.now types.now }
    requires ready { AreReady types.now }
    requires few { length units.now < 2 ^ 32 }
    ensures { MatchResult result
        (λ made. AreEntitiesOf entries.now (joined_by units.now types.now type_starts.now) made.0.items made.1)
        (λ fault.
        IsFaultUnless fault (LinksBadlyAt entries.now units.now fault)) }
{
    let (declared, names) = checked(alloc, units, types, type_starts, entries)?;
    let _types = types.type_count();
    let _entities = entity_counts(alloc, units)?;
    let numbers = entity_numbers(alloc, units)?;
    let scene = Scene {
        units,
        types,
        type_starts,
        declared: declared.as_slice(),
    };
    let entities = entities_in(alloc, &scene, &names, &numbers)?;
    Ok((entities, numbers))
}
