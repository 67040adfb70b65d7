// The parameters of each function.

ghost use Rattle.std.specs.Prelude.{◌≡◌, ℕ, ◌+◌, ◌<◌, ◌==◌, ◌^◌, [], ◌∷◌, ◌++◌, IfOk, OnOk, length, if◌then◌else◌, filter};
ghost use Rattle.core_tree.specs.Typed.{trees_in};
ghost use Rattle.obj_space.specs.View.{view_of};
ghost use Rattle.row_numbers.specs.Functions.{is_owned_by, entity_in, all_parameters};
ghost use Rattle.constraints.specs.Owned.{listed, owner_in, HasRoom, AreOwned};

use c_types::key::ObjectKey;
use core_tree::Program;
use obj_space::Space;
use pta_base::OutOfMemory;
use row_numbers::functions::{Role, keys_in, objects_at, present};
use std::alloc::Global;

/// For each function, by its entity, the list of its parameters. An entity past the end has the empty list.
#[derive(Drop)]
pub(crate) struct Owned {
    pub(crate) lists: Vec<Vec<ObjectKey>>,
    alloc: Global,
}

impl Owned {
    // Empty lists for all functions.
    fn new(alloc: Global) -> Owned
        ensures { result.lists.items ≡ [] }
    {
        Owned {
            lists: Vec::new(alloc),
            alloc,
        }
    }

    // Makes lists for all entities up to this one. No list changes.
    fn reach(&mut self, f: u32) -> Result<(), OutOfMemory>
        ensures same { (other : ℕ) → listed self.new.lists.items other ≡ listed self.old.lists.items other }
        ensures there { OnOk result (f < length self.new.lists.items) }
    {
        for _ in self.lists.len()..f as usize + 1 {
            self.lists.push(Vec::new(self.alloc))?;
        }
        Ok(())
    }

    // Makes room for one parameter more at the end of a function's list. No list changes.
    fn reserve(&mut self, f: u32) -> Result<(), OutOfMemory>
        ensures same { (other : ℕ) → listed self.new.lists.items other ≡ listed self.old.lists.items other }
        ensures there { OnOk result (f < length self.new.lists.items) }
        ensures room { OnOk result (HasRoom self.new.lists.items f) }
    {
        self.reach(f)?;
        self.lists[f as usize].reserve(1)?;
        Ok(())
    }

    // Adds a parameter at the end of a function's list, where there is room for it.
    fn push_reserved(&mut self, f: u32, key: ObjectKey)
        requires there { f < length self.old.lists.items }
        requires room { HasRoom self.old.lists.items f }
        ensures { (other : ℕ) → listed self.new.lists.items other
            ≡ listed self.old.lists.items other ++ (if f == other then key ∷ [] else []) }
    {
        self.lists[f as usize].push_reserved(key);
    }

    // Adds a parameter at the end of a function's list.
    fn push(&mut self, f: u32, key: ObjectKey) -> Result<(), OutOfMemory>
        ensures { OnOk result ((other : ℕ) → listed self.new.lists.items other
            ≡ listed self.old.lists.items other ++ (if f == other then key ∷ [] else [])) }
    {
        self.reserve(f)?;
        self.push_reserved(f, key);
        Ok(())
    }

    // Adds a parameter to its owner's list, if it has an owner.
    fn give(&mut self, program: &Program, key: ObjectKey) -> Result<(), OutOfMemory>
        ensures { OnOk result ((other : ℕ) → listed self.new.lists.items other
            ≡ listed self.old.lists.items other ++ (if is_owned_by other (entity_in (trees_in program.now) key) then key ∷ [] else [])) }
    {
        match owner_of(program, key) {
            Some(f) => self.push(f, key),
            None => Ok(()),
        }
    }

    /// The parameters of a function.
    pub(crate) fn of(&self, f: u32) -> &[ObjectKey]
        ensures { result.now ≡ listed self.now.lists.items f }
    {
        match self.lists.get(f as usize) {
            Some(list) => list.as_slice(),
            None => &[],
        }
    }
}

// The function that owns a parameter.
fn owner_of(program: &Program, key: ObjectKey) -> Option<u32>
    ensures { result ≡ owner_in (trees_in program.now) key }
{
    match key {
        ObjectKey::Entity(e) => program.entities.as_slice().get(e as usize)?.owner,
        ObjectKey::Function(_) | ObjectKey::Text(_) | ObjectKey::Call(_) => None,
        ObjectKey::Library(_) | ObjectKey::Star(_) => None,
        ObjectKey::Varargs(_) | ObjectKey::Outside => None,
    }
}

// These parameters by their owners.
fn group(alloc: Global, program: &Program, keys: &[ObjectKey]) -> Result<Owned, OutOfMemory>
    ensures { IfOk result (λ owned. (f : ℕ) → listed owned.lists.items f
        ≡ filter (λ key. is_owned_by f (entity_in (trees_in program.now) key)) keys.now) }
{
    let mut owned = Owned::new(alloc);
    for key in keys {
        owned.give(program, *key)?;
    }
    Ok(owned)
}

/// The parameters of each function in the order of their locations (C11 6.9.1p9).
pub(crate) fn owned_parameters(
    alloc: Global,
    program: &Program,
    space: &Space,
) -> Result<Owned, OutOfMemory>
    requires { length program.now.entities.items < 2 ^ 32 }
    ensures { IfOk result (λ owned. AreOwned (trees_in program.now) (view_of space.now) owned.lists.items) }
{
    let keys = keys_in(alloc, Role::Parameter, program.entities.as_slice())?;
    let at = objects_at(alloc, space, keys.as_slice())?;
    let all = present(alloc, at.as_slice())?;
    group(alloc, program, all.as_slice())
}
