//! The program's entities: one for each external name, and one for every other entity of each unit (C11 6.2.2, 6.9.2).

ghost use Rattle.std.specs.Prelude.{◌≡◌, ◌<◌, ◌+◌, ◌^◌, ◌≤◌, ℕ, Some, IfOk, OnOk, IfSome, length, slice_get};
ghost use Rattle.link_model.specs.Units.{item};
ghost use Rattle.c_types.specs.Table.{type_of};
ghost use Rattle.core_tree.specs.declared.node.Entity.{Entity as EntitySpec};
ghost use Rattle.link_names.specs.Externals.{IsExternal, IsDeclaration, entity_at, entities_if, item_of, type_in};
ghost use Rattle.link_names.specs.Together.{maker_of, type_made};
ghost use Rattle.link_names.specs.Scene.{joined_of};
ghost use Rattle.unit_link.specs.Linked.{IsMovedEntity, IsLinkedName, IsLinkedOther};
ghost use Rattle.link_units.specs.link_entities.Row.{AreLinked, IsLinkedAs, numbers_of, place_of};
ghost use Rattle.unit_link.specs.Places.{node_place};
ghost use Rattle.link_units.specs.link_entities.Linking.{IsLinking, HasNode};

use crate::link_entities::types::linked_type;
use c_types::term::TypeId;
use core_tree::Entity;
use link_names::Names;
use link_names::declared::{Declared, Scene, entity_of, is_external};
use link_names::defined::is_placed;
use link_names::firsts::find_name;
use link_names::scene::{declared_type, type_of_entity};
use pta_base::{OutOfMemory, Place, Text};
use std::alloc::Global;
use unit_link::link_program::numbers::EntityNumbers;

/// What is known of units that are linked: their types and declarations, the numbers of their entities, what is said of each external name,
/// what makes it, where it is used first, and where each unit's nodes start.
#[derive(Clone, Copy)]
pub struct Linking<'a> {
    pub scene: &'a Scene<'a>,
    pub numbers: &'a EntityNumbers,
    pub names: &'a Names,
    pub makers: &'a [Declared],
    pub uses: &'a [Option<Place>],
    pub node_starts: &'a [u32],
}

// The number in the program of an entity of a unit.
fn number_of(linking: &Linking<'_>, unit: u32, entity: u32) -> u32
    requires linking { IsLinking linking.now }
    requires there { (x : EntitySpec) × (entity_at linking.now.scene.now.units.now (item unit entity) ≡ Some x) }
    ensures { result ≡ numbers_of linking.now.numbers.now unit entity }
{
    let numbers = linking.numbers;
    let start = numbers.starts[unit as usize];
    let _end = numbers.starts[unit as usize + 1];
    numbers.numbers[start as usize + entity as usize]
}

// The place in the program of a node of a unit.
fn node_of(linking: &Linking<'_>, unit: u32, node: u32) -> u32
    requires linking { IsLinking linking.now }
    requires there { HasNode linking.now.scene.now.units.now unit node }
    ensures { result ≡ node_place linking.now.scene.now.units.now unit node }
{
    let start = linking.node_starts[unit as usize];
    let _end = linking.node_starts[unit as usize + 1];
    start + node
}

// An entity of a unit as the program has it, with that type and that first use.
fn moved(
    alloc: Global,
    linking: &Linking<'_>,
    unit: u32,
    entity: &Entity,
    ty: TypeId,
    used: Option<Place>,
) -> Result<Entity, OutOfMemory>
    requires linking { IsLinking linking.now }
    requires there { (number : ℕ) × (entity_at linking.now.scene.now.units.now (item unit number) ≡ Some entity.now) }
    ensures moved { IfOk result (IsMovedEntity linking.now.scene.now.units.now (numbers_of linking.now.numbers.now) unit entity.now) }
    ensures ty { IfOk result (λ e. e.ty ≡ ty) }
    ensures used { IfOk result (λ e. e.used ≡ used) }
{
    let owner = match entity.owner {
        Some(owner) => Some(number_of(linking, unit, owner)),
        None => None,
    };
    let body = match entity.body {
        Some(body) => Some(node_of(linking, unit, body)),
        None => None,
    };
    Ok(Entity {
        name: Text::copy_of(alloc, entity.name.as_str())?,
        unit: entity.unit,
        place: entity.place,
        ty,
        linkage: entity.linkage,
        storage: entity.storage,
        owner,
        body,
        used,
    })
}

// What an external name's object or function is in the program.
fn linked_name(
    alloc: Global,
    linking: &Linking<'_>,
    unit: u32,
    number: u32,
    entity: &Entity,
) -> Result<Entity, OutOfMemory>
    requires linking { IsLinking linking.now }
    requires there { entity_at linking.now.scene.now.units.now (item unit number) ≡ Some entity.now }
    requires external { IsExternal entity.now }
    ensures within { IfOk result (λ e. e.ty.0 < length linking.now.scene.now.types.now.terms) }
    ensures name { let s = linking.now.scene.now in
        IfOk result (IsLinkedName (joined_of s) s.declared.now (numbers_of linking.now.numbers.now) entity.now.name) }
{
    let scene = linking.scene;
    let Some(first) = find_name(&linking.names.by_name, entity.name.as_str()) else {
        unreachable!()
    };
    let maker = linking.makers[first as usize];
    let Some(together) = linking.names.said[first as usize].ty else {
        unreachable!()
    };
    let made = entity_of(scene.units, maker);
    let own = declared_type(scene, maker);
    let body = made.body.is_some();
    let defined = is_placed(scene.types, own, made);
    let ty = linked_type(scene.types, body, defined, own, together)?;
    moved(
        alloc,
        linking,
        maker.unit,
        made,
        ty,
        linking.uses[first as usize],
    )
}

// What an entity of a unit is in the program.
fn linked_as(
    alloc: Global,
    linking: &Linking<'_>,
    unit: u32,
    number: u32,
    entity: &Entity,
) -> Result<Entity, OutOfMemory>
    requires linking { IsLinking linking.now }
    requires there { entity_at linking.now.scene.now.units.now (item unit number) ≡ Some entity.now }
    ensures { let s = linking.now.scene.now in
        IfOk result (IsLinkedAs (joined_of s) s.declared.now (numbers_of linking.now.numbers.now) (item unit number) entity.now) }
{
    if is_external(entity) {
        return linked_name(alloc, linking, unit, number, entity);
    }
    let ty = type_of_entity(linking.scene, unit, number, entity);
    moved(alloc, linking, unit, entity, ty, entity.used)
}

// Adds what an entity of a unit is in the program, where it is the first that is one with it.
fn add_entity(
    alloc: Global,
    linking: &Linking<'_>,
    list: &mut Vec<Entity>,
    unit: u32,
    number: u32,
    entity: &Entity,
) -> Result<(), OutOfMemory>
    requires linking { IsLinking linking.now }
    requires there { entity_at linking.now.scene.now.units.now (item unit number) ≡ Some entity.now }
    requires linked { let s = linking.now.scene.now in let n = linking.now.numbers.now in
        AreLinked (joined_of s) s.declared.now n (place_of n (item unit number)) list.old.items }
    ensures { let s = linking.now.scene.now in let n = linking.now.numbers.now in
        OnOk result (AreLinked (joined_of s) s.declared.now n (place_of n (item unit number) + 1) list.new.items) }
{
    let start = linking.numbers.starts[unit as usize];
    let _end = linking.numbers.starts[unit as usize + 1];
    let place = start + number;
    if linking.numbers.leaders[place as usize] == place {
        let linked = linked_as(alloc, linking, unit, number, entity)?;
        list.push(linked)?;
    }
    Ok(())
}

// Adds what a unit's entities are in the program.
fn add_entities(
    alloc: Global,
    linking: &Linking<'_>,
    list: &mut Vec<Entity>,
    unit: u32,
    entities: &[Entity],
) -> Result<(), OutOfMemory>
    requires linking { IsLinking linking.now }
    requires unit { unit < length linking.now.scene.now.units.now }
    requires all { entities.now ≡ entities_if (slice_get linking.now.scene.now.units.now unit) }
    requires linked { let s = linking.now.scene.now in let n = linking.now.numbers.now in
        AreLinked (joined_of s) s.declared.now n (place_of n (item unit 0)) list.old.items }
    ensures { let s = linking.now.scene.now in let n = linking.now.numbers.now in
        OnOk result (AreLinked (joined_of s) s.declared.now n (place_of n (item (unit + 1) 0)) list.new.items) }
{
    for (number, entity) in entities.iter().enumerate() {
        add_entity(alloc, linking, list, unit, number as u32, entity)?;
    }
    Ok(())
}

/// The program's entities, in the order of the first of those that are one: each external name's object or function has the name, place
/// and body of the declaration that makes it, the type that all its declarations give together, and their first use; every other entity
/// is as it was, but for the numbers of its owner and its body. Only memory may want.
pub fn linked_entities(alloc: Global, linking: &Linking<'_>) -> Result<Vec<Entity>, OutOfMemory>
    requires { IsLinking linking.now }
    ensures { let s = linking.now.scene.now in let n = linking.now.numbers.now in
        IfOk result (λ list. AreLinked (joined_of s) s.declared.now n (length n.leaders.items) list.items) }
{
    let mut list = Vec::new(alloc);
    for (unit, x) in linking.scene.units.iter().enumerate() {
        add_entities(
            alloc,
            linking,
            &mut list,
            unit as u32,
            x.entities.as_slice(),
        )?;
    }
    Ok(list)
}
