// The objects that a program's names stand for.

ghost use Rattle.std.specs.Prelude.{◌≡◌, ℕ, All, IfSome, ◌<◌, ◌^◌, slice_get, length};
ghost use Rattle.core_tree.specs.Typed.{trees_in};
ghost use Rattle.obj_space.specs.View.{view_of};
ghost use Rattle.row_numbers.specs.Objects.{is_open, library_number, library_key, entity_key, location_of, is_library, library_id};

use c_types::key::ObjectKey;
use c_types::term::TypeId;
use core_tree::{Entity, Linkage, Program, Storage};
use lib_summaries::summary;
use obj_space::Space;

// Whether a name is of external linkage and only declared.
fn is_open(linkage: Linkage, storage: Storage) -> bool
    ensures { result ≡ is_open linkage storage }
{
    matches!(linkage, Linkage::External) && matches!(storage, Storage::Declared)
}

/// The number of the library name that an entity is.
pub fn library_number(entity: &Entity) -> Option<u32>
    ensures { result ≡ library_number entity.now }
{
    if !is_open(entity.linkage, entity.storage) {
        return None;
    }
    match summary(entity.name.as_str()) {
        Some(found) => Some(found.number),
        None => None,
    }
}

// The object of a library name.
fn library_key(number: u32) -> ObjectKey
    ensures { result ≡ library_key number }
{
    if number < 55 {
        ObjectKey::Function(number)
    } else {
        ObjectKey::Library(number - 52)
    }
}

/// The object that an entity is.
pub fn entity_key(entities: &[Entity], e: u32) -> ObjectKey
    ensures { result ≡ entity_key e (slice_get entities.now e) }
{
    if e as usize >= entities.len() {
        return ObjectKey::Entity(e);
    }
    match library_number(&entities[e as usize]) {
        Some(number) => library_key(number),
        None => ObjectKey::Entity(e),
    }
}

/// The first location of an entity's object.
pub fn location_of(program: &Program, space: &Space, e: u32) -> u32
    ensures { result ≡ location_of (trees_in program.now) (view_of space.now) e }
{
    space
        .first(entity_key(program.entities.as_slice(), e))
        .unwrap_or(0)
}

// Whether an entity is the library name of that number.
fn is_library(number: u32, entity: &Entity) -> bool
    ensures { result ≡ is_library number entity.now }
{
    match library_number(entity) {
        Some(found) => found == number,
        None => false,
    }
}

/// The declared type of a library name.
pub fn library_id(number: u32, entities: &[Entity]) -> Option<TypeId>
    ensures value { result ≡ library_id number entities.now }
    ensures known { (n : ℕ) → All (λ entity. entity.ty.0 < n) entities.now → IfSome result (λ id. id.0 < n) }
{
    match entities.iter().find(|entity| is_library(number, entity)) {
        Some(entity) => Some(entity.ty),
        None => None,
    }
}
