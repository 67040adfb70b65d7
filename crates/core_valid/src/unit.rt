// The tests of units and programs.

ghost use Rattle.std.specs.Prelude.{◌≡◌, ℕ, ◌<◌, ◌↔◌, Option, Some, IsTrue, All, length};
ghost use Rattle.c_types.specs.Table.{type_of};
ghost use Rattle.type_rules.specs.Kinds.{IsEntryType};
ghost use Rattle.core_tree.specs.declared.node.Linkage.TheVariants.{External};
ghost use Rattle.core_tree.specs.declared.node.Storage.TheVariants.{FunctionBody};
ghost use Rattle.core_tree.specs.Typed.{trees_of, trees_in};
ghost use Rattle.core_tree.specs.Valid.{OnlyKey, KeyedOnce, Keyed, ValidUnit, ValidProgram, EachNode, EachEntity, InRange};
ghost use Rattle.core_tree.specs.Valid.{IsSigned, HasLength, InUnits};
ghost use Rattle.core_tree.specs.Linkages.{Linkages};
ghost use Rattle.core_tree.specs.Seen.{core_of};
ghost use Rattle.core_valid.specs.Each.{Checked, EntityLinked, EntitiesLinked, NodesLinked, IsEntered, EntriesLinked, Linked};

use crate::linkages::linkages;
use crate::valid::checked;
use c_types::table::TypeTable;
use core_tree::node::{Entity, Linkage, Node, Program, Storage, Unit};
use core_tree::trees::Trees;
use pta_base::Text;
use type_rules::kinds::{is_entry_type, lacks_length};
use type_rules::sizes::has_signature;

// Whether a tag has that key.
fn is_key(other: &Option<Text>, key: &Text) -> bool
    ensures { IsTrue result ↔ (other.now ≡ Some key.now) }
{
    match other {
        Some(text) => text.as_str() == key.as_str(),
        None => false,
    }
}

// Whether no other tag has that key.
fn only_key(keys: &[Option<Text>], i: usize, key: &Text) -> bool
    ensures { IsTrue result ↔ OnlyKey keys.now i key.now }
{
    keys.iter()
        .enumerate()
        .all(|(j, other)| !is_key(other, key) || i == j)
}

// Whether no other tag has the key of a tag, if it has one.
fn keyed_once(keys: &[Option<Text>], i: usize, key: &Option<Text>) -> bool
    ensures { IsTrue result ↔ KeyedOnce keys.now i key.now }
{
    match key {
        Some(text) => only_key(keys, i, text),
        None => true,
    }
}

// Whether there is a key or none for each tag, and no key twice.
fn keyed(tags: u32, keys: &[Option<Text>]) -> bool
    ensures { IsTrue result ↔ Keyed tags keys.now }
{
    keys.len() == tags as usize
        && keys
            .iter()
            .enumerate()
            .all(|(i, key)| keyed_once(keys, i, key))
}

// Whether all holds of a unit that is asked of units and programs alike.
fn unit_checked(unit: &Unit) -> bool
    ensures { IsTrue result ↔ Checked (trees_of unit.now) }
{
    let trees = Trees {
        types: &unit.types,
        nodes: unit.nodes.as_slice(),
        entities: unit.entities.as_slice(),
    };
    checked(&trees)
}

// Whether a unit has a key or none for each of its tags, and no key twice.
fn unit_keyed(unit: &Unit) -> bool
    ensures { IsTrue result ↔ Keyed unit.now.types.tags unit.now.tags.items }
{
    keyed(unit.types.tag_count(), unit.tags.as_slice())
}

// Whether the linkages of a unit are what they may be.
fn unit_linkages(unit: &Unit) -> bool
    requires { InRange (trees_of unit.now) }
    ensures { IsTrue result ↔ Linkages (trees_of unit.now) }
{
    let trees = Trees {
        types: &unit.types,
        nodes: unit.nodes.as_slice(),
        entities: unit.entities.as_slice(),
    };
    linkages(&trees)
}

// Whether all holds of a unit that is asked of units alone.
fn unit_alone(unit: &Unit) -> bool
    requires { InRange (trees_of unit.now) }
    ensures { IsTrue result
        ↔ (Keyed unit.now.types.tags unit.now.tags.items × Linkages (trees_of unit.now)) }
{
    unit_keyed(unit) && unit_linkages(unit)
}

/// Whether a unit is valid: each node stands over its children in the row of its kind, each type, node and entity that is
/// named is in range, and each node and entity stands where it may (C11 6.5 to 6.9). So that valid units link to valid
/// programs, what a literal makes, an automatic object and a parameter have no linkage, and a use of an entity with
/// external linkage has the type of some external declaration of that name in the unit (C11 6.2.2, 6.2.7). It takes no
/// memory, and looks at each node once for each other one, or more often: it is for contracts and tests.
pub fn valid_unit(unit: &Unit) -> bool
    ensures { IsTrue result ↔ ValidUnit unit.now }
{
    unit_checked(unit) && unit_alone(unit)
}

// Whether all holds of a program that is asked of units and programs alike.
fn program_checked(program: &Program) -> bool
    ensures { IsTrue result ↔ Checked (trees_in program.now) }
{
    let trees = Trees {
        types: &program.types,
        nodes: program.nodes.as_slice(),
        entities: program.entities.as_slice(),
    };
    checked(&trees)
}

// Whether an entity is what one of a linked program may be.
fn entity_linked(program: &Program, entity: &Entity) -> bool
    requires { entity.now.ty.0 < length program.now.types.terms }
    ensures { IsTrue result ↔ EntityLinked (trees_in program.now) (length program.now.names.items) entity.now }
{
    (!matches!(entity.storage, Storage::FunctionBody) || has_signature(&program.types, entity.ty))
        && (!matches!(entity.storage, Storage::Static | Storage::Automatic)
            || !lacks_length(&program.types, entity.ty))
        && (entity.unit as usize) < program.names.len()
        && (entity.place.unit as usize) < program.names.len()
}

// Whether each entity is what one of a linked program may be.
fn entities_linked(program: &Program) -> bool
    requires { All (λ entity. entity.ty.0 < length program.now.types.terms) program.now.entities.items }
    ensures { IsTrue result ↔ EntitiesLinked (trees_in program.now) (length program.now.names.items) }
{
    program
        .entities
        .iter()
        .all(|entity| entity_linked(program, entity))
}

// Whether the place of each node is in a unit of the program.
fn nodes_linked(program: &Program) -> bool
    ensures { IsTrue result ↔ NodesLinked (trees_in program.now) (length program.now.names.items) }
{
    program
        .nodes
        .iter()
        .all(|node| (node.place.unit as usize) < program.names.len())
}

// Whether a program may be entered at an entity: a function of external linkage with a body, of integers and pointers.
fn is_entry(types: &TypeTable, entity: &Entity) -> bool
    requires { entity.now.ty.0 < length types.now.terms }
    ensures { IsTrue result
        ↔ ((entity.now.linkage ≡ External) × (entity.now.storage ≡ FunctionBody)
        × IsEntryType (type_of types.now entity.now.ty.0)) }
{
    matches!(entity.linkage, Linkage::External)
        && matches!(entity.storage, Storage::FunctionBody)
        && is_entry_type(types, entity.ty)
}

// Whether that number is of an entity at which a program may be entered.
fn is_entry_at(program: &Program, e: u32) -> bool
    requires { All (λ entity. entity.ty.0 < length program.now.types.terms) program.now.entities.items }
    ensures { IsTrue result ↔ IsEntered (trees_in program.now) e }
{
    match program.entities.get(e as usize) {
        Some(entity) => is_entry(&program.types, entity),
        None => false,
    }
}

// Whether a program may be entered at each of its entries.
fn entries_linked(program: &Program) -> bool
    requires { All (λ entity. entity.ty.0 < length program.now.types.terms) program.now.entities.items }
    ensures { IsTrue result ↔ EntriesLinked (trees_in program.now) program.now.entries.items }
{
    program.entries.iter().all(|e| is_entry_at(program, *e))
}

// Whether all holds that is asked of a linked program alone.
fn program_linked(program: &Program) -> bool
    requires { All (λ entity. entity.ty.0 < length program.now.types.terms) program.now.entities.items }
    ensures { IsTrue result
        ↔ Linked (trees_in program.now) (length program.now.names.items) program.now.entries.items }
{
    entities_linked(program) && nodes_linked(program) && entries_linked(program)
}

/// Whether a linked program is valid: what is asked of a unit; for each function with a body and without parameters, the
/// table has its type with the list `(void)`; no object that has its place lacks a length; the unit of each entity and
/// place is one of the program's; and each entry is a function of external linkage with a body, of integers and pointers
/// alone. It takes no memory; like `valid_unit` it is for contracts and tests.
pub fn valid_program(program: &Program) -> bool
    ensures { IsTrue result ↔ ValidProgram program.now }
{
    program_checked(program) && program_linked(program)
}
