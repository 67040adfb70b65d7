// What the steps of a run are over.

ghost use Rattle.std.specs.Prelude.{◌≡◌, ℕ, ◌<◌, ◌^◌, [], ◌∷◌, ◌++◌, List, IfOk, OnOk, length, map, slice_get};
ghost use Rattle.std.specs.List.{range_with_len};
ghost use Rattle.c_types.specs.declared.key.ObjectKey.{ObjectKey};
ghost use Rattle.c_types.specs.Table.{Table};
ghost use Rattle.core_tree.specs.declared.node.Node.{Node};
ghost use Rattle.core_tree.specs.Typed.{CoreTrees};
ghost use Rattle.obj_space.specs.View.{view_of};
ghost use Rattle.row_numbers.specs.Functions.{keys_in, in_order};
ghost use Rattle.ref_cells.specs.Places.{IsKnown};
ghost use Rattle.ref_frames.specs.Running.{element_type, element_in, entity_of, owner_in};
ghost use Rattle.ref_frames.specs.Made.{IsRunning, AreParameters, ArePutIn, seen};

use c_types::key::ObjectKey;
use c_types::term::{OutOfMemory, TypeId};
use core_tree::Entity;
use core_tree::trees::Trees;
use obj_space::{Content, Space};
use pta_base::Listing;
use row_numbers::functions::{Role, keys_in, objects_at, present};
use std::alloc::Global;

/// A program with its locations, the parameters of each of its functions by its entity, the type of characters, and the
/// entities at which it is entered from outside, none where it begins at main.
#[derive(Clone, Copy)]
pub struct Running<'a> {
    pub alloc: Global,
    pub trees: Trees<'a>,
    pub space: &'a Space,
    pub parameters: &'a [Listing<u32>],
    pub characters: TypeId,
    pub entries: &'a [u32],
}

// The entity that a key is.
fn entity_of(key: ObjectKey) -> Option<u32>
    ensures { result ≡ entity_of key }
{
    match key {
        ObjectKey::Entity(e) => Some(e),
        ObjectKey::Text(_) | ObjectKey::Call(_) | ObjectKey::Library(_) => None,
        ObjectKey::Star(_) | ObjectKey::Function(_) | ObjectKey::Varargs(_) => None,
        ObjectKey::Outside => None,
    }
}

// The function that owns what a key is.
fn owner_of(entities: &[Entity], e: u32) -> Option<u32>
    ensures { result ≡ owner_in (slice_get entities.now e) }
{
    match entities.get(e as usize) {
        Some(entity) => entity.owner,
        None => None,
    }
}

// One parameter more, in the list of the function that owns it.
fn put(
    entities: &[Entity],
    key: ObjectKey,
    lists: &mut Vec<Listing<u32>>,
) -> Result<(), OutOfMemory>
    ensures put { (keys : List ObjectKey) →
        ArePutIn entities.now keys lists.old.items →
        OnOk result (ArePutIn entities.now (keys ++ key ∷ []) lists.new.items) }
    ensures many { OnOk result (length lists.new.items ≡ length lists.old.items) }
{
    let Some(e) = entity_of(key) else {
        return Ok(());
    };
    let Some(f) = owner_of(entities, e) else {
        return Ok(());
    };
    if (f as usize) < lists.len() {
        lists[f as usize].push(e)?;
    }
    Ok(())
}

// So many empty lists.
fn empty_lists(alloc: Global, count: usize) -> Result<Vec<Listing<u32>>, OutOfMemory>
    ensures { IfOk result (λ lists. lists.items ≡ map {B = List ℕ} (λ k. []) (range_with_len 0 count)) }
{
    let lists = (0..count).map(|_| Listing::new(alloc)).collect(alloc)?;
    Ok(lists)
}

// All parameters in the order of their locations.
fn all_parameters(
    alloc: Global,
    entities: &[Entity],
    space: &Space,
) -> Result<Vec<ObjectKey>, OutOfMemory>
    ensures keys { IfOk result (λ keys. keys.items ≡
        in_order (view_of space.now) (keys_in Role.Parameter entities.now) (view_of space.now).count) }
    ensures few { IfOk result (λ keys. length entities.now < 2 ^ 32) }
{
    if entities.len() > u32::MAX as usize {
        return Err(OutOfMemory);
    }
    let Ok(keys) = keys_in(alloc, Role::Parameter, entities) else {
        return Err(OutOfMemory);
    };
    let Ok(at) = objects_at(alloc, space, keys.as_slice()) else {
        return Err(OutOfMemory);
    };
    match present(alloc, at.as_slice()) {
        Ok(all) => Ok(all),
        Err(_) => Err(OutOfMemory),
    }
}

/// The parameters of each function in the order of their locations, by the function's entity.
pub fn parameters_of(
    alloc: Global,
    entities: &[Entity],
    space: &Space,
) -> Result<Vec<Listing<u32>>, OutOfMemory>
    ensures { (types : Table) (nodes : List Node) → IfOk result (λ lists.
        let u : CoreTrees = record { types = types; nodes = nodes; entities = entities.now } in
        AreParameters u (view_of space.now) lists.items) }
{
    let all = all_parameters(alloc, entities, space)?;
    let mut lists = empty_lists(alloc, entities.len())?;
    for key in &all {
        put(entities, *key, &mut lists)?;
    }
    Ok(lists)
}

// The type of the elements of an object of that content, where it is fixed.
fn element_in(characters: TypeId, content: &Content) -> Option<TypeId>
    ensures { result ≡ element_in characters content.now }
{
    match content {
        Content::Elements(id) => Some(*id),
        Content::Scalars(_) => Some(characters),
        Content::Function | Content::Blob | Content::Scalar(_) | Content::Typed(_) => None,
    }
}

/// The type of the elements of an object that a call makes, where it is fixed.
pub fn element_type(running: &Running<'_>, key: ObjectKey) -> Option<TypeId>
    requires { IsRunning running.now }
    ensures value { result ≡ element_type (seen running.now) key }
    ensures known { IsKnown (length running.now.trees.types.now.terms) result }
{
    match running.space.first(key) {
        Some(l) => element_in(running.characters, &running.space.location(l).content),
        None => None,
    }
}
