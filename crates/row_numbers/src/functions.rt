// The functions and parameters of a program in the order of their locations.

ghost use Rattle.std.specs.Prelude.{◌≡◌, ℕ, ◌+◌, ◌<◌, ◌^◌, ◌∷◌, [], ◌++◌, List, Option, None, IfOk, length, map, slice_get};
ghost use Rattle.std.specs.List.{filter_map, range_with_len};
ghost use Rattle.c_types.specs.declared.key.ObjectKey.{ObjectKey};
ghost use Rattle.core_tree.specs.Typed.{trees_in};
ghost use Rattle.obj_space.specs.View.{view_of};
ghost use Rattle.row_numbers.specs.Functions.{plays, key_if, keys_in, objects_at, in_order, function_keys, functions_of, functions_below};

use c_types::key::ObjectKey;
use core_tree::{Entity, Linkage, Program, Storage};
use obj_space::Space;
use pta_base::OutOfMemory;
use std::alloc::Global;

/// What an entity may be in a program: a function with a body, a parameter, or the function that starts it.
#[derive(Clone, Copy, Debug, PartialEq, Eq)]
pub enum Role {
    Defined,
    Parameter,
    Main,
}

/// Whether an entity has a role.
pub fn plays(role: Role, entity: &Entity) -> bool
    ensures { result ≡ plays role entity.now }
{
    match role {
        Role::Defined => matches!(entity.storage, Storage::FunctionBody),
        Role::Parameter => matches!(entity.storage, Storage::Parameter),
        Role::Main => {
            matches!(entity.storage, Storage::FunctionBody)
                && matches!(entity.linkage, Linkage::External)
                && entity.name.as_str() == "main"
        }
    }
}

// The key of an entity that has the role.
fn key_if(role: Role, e: usize, entity: &Entity) -> Option<ObjectKey>
    requires { e < 2 ^ 32 }
    ensures { result ≡ key_if role e entity.now }
{
    if plays(role, entity) {
        Some(ObjectKey::Entity(e as u32))
    } else {
        None
    }
}

/// The entities in a role, in order.
pub fn keys_in(
    alloc: Global,
    role: Role,
    entities: &[Entity],
) -> Result<Vec<ObjectKey>, OutOfMemory>
    requires { length entities.now < 2 ^ 32 }
    ensures { IfOk result (λ keys. keys.items ≡ keys_in role entities.now) }
{
    let keys = entities
        .iter()
        .enumerate()
        .filter_map(|(e, entity)| key_if(role, e, entity))
        .collect(alloc)?;
    Ok(keys)
}

/// The functions with a body, and those of the library.
pub fn function_keys(alloc: Global, program: &Program) -> Result<Vec<ObjectKey>, OutOfMemory>
    requires { length program.now.entities.items < 2 ^ 32 }
    ensures { IfOk result (λ keys. keys.items ≡ function_keys (trees_in program.now)) }
{
    let mut keys = keys_in(alloc, Role::Defined, program.entities.as_slice())?;
    let library = library_keys(alloc)?;
    keys.extend_from_slice(library.as_slice())?;
    Ok(keys)
}

// The functions of the library.
fn library_keys(alloc: Global) -> Result<Vec<ObjectKey>, OutOfMemory>
    ensures { IfOk result (λ keys. keys.items ≡ map (λ k. ObjectKey.Function k) (range_with_len 0 55)) }
{
    let keys = (0..55).map(|k| ObjectKey::Function(k)).collect(alloc)?;
    Ok(keys)
}

// One key more, which is put where its object begins, unless another one begins there.
fn put(space: &Space, key: ObjectKey, at: &mut Vec<Option<ObjectKey>>)
    requires { length at.old.items ≡ (view_of space.now).count }
    ensures { (keys : List ObjectKey) →
        at.old.items ≡ objects_at (view_of space.now) keys (view_of space.now).count →
        at.new.items ≡ objects_at (view_of space.now) (keys ++ key ∷ []) (view_of space.now).count }
{
    if let Some(l) = space.first(key) {
        if at[l as usize].is_none() {
            at[l as usize] = Some(key);
        }
    }
}

/// Which of these objects begins at each location.
pub fn objects_at(
    alloc: Global,
    space: &Space,
    keys: &[ObjectKey],
) -> Result<Vec<Option<ObjectKey>>, OutOfMemory>
    ensures { IfOk result (λ at. at.items ≡ objects_at (view_of space.now) keys.now (view_of space.now).count) }
{
    let mut at = nothing_at(alloc, space.count())?;
    for key in keys {
        put(space, *key, &mut at);
    }
    Ok(at)
}

// Nothing at each location.
fn nothing_at(alloc: Global, count: u32) -> Result<Vec<Option<ObjectKey>>, OutOfMemory>
    ensures { IfOk result (λ at. at.items ≡ map {B = Option ObjectKey} (λ l. None) (range_with_len 0 count)) }
{
    let at = (0..count).map(|_| None).collect(alloc)?;
    Ok(at)
}

/// These objects in order.
pub fn present(alloc: Global, at: &[Option<ObjectKey>]) -> Result<Vec<ObjectKey>, OutOfMemory>
    ensures { IfOk result (λ keys. keys.items ≡ filter_map (λ found. found) at.now) }
{
    let keys = at.iter().filter_map(|found| *found).collect(alloc)?;
    Ok(keys)
}
