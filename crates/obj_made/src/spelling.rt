// How objects and functions are named.

ghost use Rattle.std.specs.Prelude.{◌≡◌, ◌++◌, ◌+◌, ℕ, ◌<◌, ◌^◌, List, Option, IfOk, OnOk, IsTrue, codes, length, string_bytes};
ghost use Rattle.std.specs.Fmt.{decimal};
ghost use Rattle.obj_made.specs.Spelling as spec;
ghost use Rattle.obj_made.specs.Spelling.{local_key, locals_of, stands_twice, several, known, Says};
ghost use Rattle.obj_made.specs.Spelling.{dotted};
ghost use Rattle.std.specs.Option.{option_copied, option_map, unwrap_or};
ghost use Rattle.std.specs.Prelude.{if◌then◌else◌, [], ◌∷◌, Some, None, MatchOption, slice_get, take};

use core_tree::{Entity, Linkage};
use pta_base::{OutOfMemory, Place, Text};
use std::alloc::Global;
use std::collections::BTreeMap;

/// The locals of functions by function and name, and whether there are two of one name.
pub type Locals = BTreeMap<Vec<u32>, bool>;

// The name of a unit.
fn unit_name(units: &[Text], unit: u32) -> &str
    ensures { result.now ≡ spec.unit_name units.now unit }
{
    match units.get(unit as usize) {
        Some(name) => name.as_str(),
        None => "",
    }
}

/// What an unnamed object of that kind is called by its place.
pub fn placed_name(
    alloc: Global,
    units: &[Text],
    kind: &str,
    place: Place,
) -> Result<Text, OutOfMemory>
    ensures { IfOk result (λ name. name ≡ spec.placed_name units.now kind.now place) }
{
    let unit = unit_name(units, place.unit);
    let line = place.line;
    let column = place.column;
    Ok(Text::of(format!(in alloc; "{kind}@{unit}:{line}:{column}")?))
}

// A name with linkage: of an internal one the unit stands before it.
fn linked_name(alloc: Global, units: &[Text], entity: &Entity) -> Result<Text, OutOfMemory>
    ensures { IfOk result (λ name. name ≡ spec.linked_name units.now entity.now) }
{
    let name = entity.name.as_str();
    match entity.linkage {
        Linkage::Internal => {
            let unit = unit_name(units, entity.unit);
            Ok(Text::of(format!(in alloc; "{unit}:{name}")?))
        }
        Linkage::External | Linkage::Local => Ok(Text::copy_of(alloc, name)?),
    }
}

/// The name of what a variadic function is passed past its parameters.
pub fn varargs_name(alloc: Global, units: &[Text], function: &Entity) -> Result<Text, OutOfMemory>
    ensures { IfOk result (λ name. name ≡ spec.varargs_name units.now function.now) }
{
    let owner = linked_name(alloc, units, function)?;
    let whole = owner.as_str();
    Ok(Text::of(format!(in alloc; "{whole}/...")?))
}

// The name of a local's function.
fn owner_name(
    alloc: Global,
    units: &[Text],
    entities: &[Entity],
    owner: Option<u32>,
) -> Result<Text, OutOfMemory>
    ensures { IfOk result (λ name. name ≡ spec.owner_name units.now entities.now owner) }
{
    let function = match owner {
        Some(f) => entities.get(f as usize),
        None => None,
    };
    match function {
        Some(function) => linked_name(alloc, units, function),
        None => Ok(Text::copy_of(alloc, "")?),
    }
}

/// The name of a member: that of the whole, a dot, and the member's name or position.
pub fn member_name(
    alloc: Global,
    whole: &str,
    position: usize,
    name: Option<&str>,
) -> Result<Text, OutOfMemory>
    ensures { IfOk result (λ text. text ≡ whole.now ++ dotted position (option_copied name.entry)) }
{
    match name {
        Some(name) => Ok(Text::of(format!(in alloc; "{whole}.{name}")?)),
        None => Ok(Text::of(format!(in alloc; "{whole}.#{position}")?)),
    }
}

// The function and name of a local, as one list.
fn local_key(alloc: Global, entity: &Entity) -> Result<Option<Vec<u32>>, OutOfMemory>
    ensures { IfOk result (λ key. option_map (λ k. k.items) key ≡ spec.local_key entity.now) }
{
    match entity.linkage {
        Linkage::Local => match entity.owner {
            Some(f) => Ok(Some(key_of(alloc, f, entity.name.as_str())?)),
            None => Ok(None),
        },
        Linkage::External | Linkage::Internal => Ok(None),
    }
}

// A number and the bytes of a name.
fn key_of(alloc: Global, first: u32, name: &str) -> Result<Vec<u32>, OutOfMemory>
    ensures { IfOk result (λ key. key.items ≡ first ∷ name.now) }
{
    let mut key = Vec::new(alloc);
    key.push(first)?;
    for byte in name.as_bytes() {
        key.push(u32::from(*byte))?;
    }
    Ok(key)
}

// One local more.
fn count_local(alloc: Global, locals: &mut Locals, entity: &Entity) -> Result<(), OutOfMemory>
    ensures { OnOk result ((key : List ℕ) (n : ℕ) → known locals.old key ≡ several n →
        known locals.new key ≡ several (if spec.is_key key (spec.local_key entity.now) then n + 1 else n)) }
{
    if let Some(key) = local_key(alloc, entity)? {
        let there = locals.contains_key(key.as_slice());
        locals.insert(key, there)?;
    }
    Ok(())
}

/// The locals of functions by function and name.
pub fn count_locals(alloc: Global, entities: &[Entity]) -> Result<Locals, OutOfMemory>
    ensures { IfOk result (λ locals. Says locals entities.now) }
{
    let mut locals = BTreeMap::new(alloc);
    for entity in entities {
        count_local(alloc, &mut locals, entity)?;
    }
    Ok(locals)
}

// Whether another local of the function has the name too.
fn stands_twice(alloc: Global, locals: &Locals, entity: &Entity) -> Result<bool, OutOfMemory>
    ensures { IfOk result (λ twice. (entities : List _) → Says locals.now entities → twice ≡ spec.stands_twice entities entity.now) }
{
    match local_key(alloc, entity)? {
        Some(key) => Ok(locals.get(key.as_slice()).copied().unwrap_or(false)),
        None => Ok(false),
    }
}

// The name of a local.
fn local_name(
    alloc: Global,
    units: &[Text],
    entities: &[Entity],
    locals: &Locals,
    entity: &Entity,
) -> Result<Text, OutOfMemory>
    requires { Says locals.now entities.now }
    ensures { IfOk result (λ name. name ≡ spec.local_name units.now entities.now entity.now) }
{
    let owner = owner_name(alloc, units, entities, entity.owner)?;
    let whole = owner.as_str();
    let name = entity.name.as_str();
    if stands_twice(alloc, locals, entity)? {
        let line = entity.place.line;
        let column = entity.place.column;
        Ok(Text::of(format!(in alloc; "{whole}/{name}@{line}:{column}")?))
    } else {
        Ok(Text::of(format!(in alloc; "{whole}/{name}")?))
    }
}

/// The name of an entity, which may be a compound literal's.
pub fn entity_name(
    alloc: Global,
    units: &[Text],
    entities: &[Entity],
    locals: &Locals,
    literal: bool,
    entity: &Entity,
) -> Result<Text, OutOfMemory>
    requires { Says locals.now entities.now }
    ensures { IfOk result (λ name. name ≡ spec.entity_name units.now entities.now literal entity.now) }
{
    if literal {
        return placed_name(alloc, units, "lit", entity.place);
    }
    match entity.linkage {
        Linkage::Local => local_name(alloc, units, entities, locals, entity),
        Linkage::External | Linkage::Internal => linked_name(alloc, units, entity),
    }
}
