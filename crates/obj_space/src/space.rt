// The locations of a program, by number, by name and by object.

ghost use Rattle.std.specs.Prelude.{◌≡◌, ℕ, ◌+◌, ◌<◌, ◌^◌, ◌++◌, [], Bool, None, Some, IfOk, IfSome, OnOk, MatchOption};
ghost use Rattle.std.specs.Prelude.{length, map, slice_get};
ghost use Rattle.std.specs.List.{flat_map};
ghost use Rattle.obj_made.specs.Made.{objects_in};
ghost use Rattle.obj_space.specs.Objects.{library_part};
ghost use Rattle.obj_space.specs.Spots.{HasWholes, ReachesParts};
ghost use Rattle.obj_space.specs.Space.{AreTyped, HasTrees, locations_of, locations_in};

use crate::firsts::{Firsts, first_of, index_firsts};
use crate::library::{
    takes_arguments, write_functions, write_library, write_one, write_outside, write_stars,
};
use crate::location::Location;
use crate::names::{NameIndex, index_names};
use crate::parts::{Whole, write_parts};
use crate::spots::node_in;
use c_types::key::ObjectKey;
use c_types::table::TypeTable;
use c_types::term::PathStep;
use core_tree::Program;
use obj_made::made::{Made, made_objects};
use obj_made::marks::{called, named, starred};
use obj_made::object::{Content, Object};
use pta_base::OutOfMemory;
use std::alloc::Global;
use std::marker::Model;

// Writes the locations of an object.
fn write_object(
    alloc: Global,
    types: &TypeTable,
    object: Object,
    out: &mut Vec<Location>,
) -> Result<(), OutOfMemory>
    ensures { OnOk result (out.new.items ≡ out.old.items ++ locations_of types.now object) }
{
    let key = object.key;
    let content = object.content;
    match content {
        Content::Function => write_one(object, 5, false, out),
        Content::Blob => write_one(object, 5, true, out),
        Content::Scalar(number) | Content::Scalars(number) => write_one(object, number, false, out),
        Content::Typed(id) | Content::Elements(id) => write_parts(
            alloc,
            types,
            Whole { key, content },
            object.name,
            id,
            out,
        ),
    }
}

// Writes the locations of what tokens make.
fn write_made(
    alloc: Global,
    types: &TypeTable,
    mut made: Made,
    out: &mut Vec<Location>,
) -> Result<(), OutOfMemory>
    ensures { OnOk result (out.new.items ≡ out.old.items ++ flat_map (locations_of types.now) (objects_in made.entries)) }
{
    while let Some((_, object)) = made.pop_first() {
        write_object(alloc, types, object, out)?;
    }
    Ok(())
}

// Writes the library's objects, and what lies outside.
fn write_library_objects(
    alloc: Global,
    program: &Program,
    out: &mut Vec<Location>,
) -> Result<(), OutOfMemory>
    ensures { OnOk result (out.new.items ≡ out.old.items ++ flat_map (locations_of program.now.types) (library_part program.now)) }
{
    let entities = program.entities.as_slice();
    let nodes = program.nodes.as_slice();
    let marks = named(alloc, entities, nodes)?;
    write_functions(alloc, marks.as_slice(), out)?;
    write_library(alloc, marks.as_slice(), takes_arguments(program), out)?;
    let direct = called(alloc, nodes)?;
    let stars = starred(alloc, entities, nodes, direct.as_slice())?;
    write_stars(alloc, stars.as_slice(), out)?;
    write_outside(alloc, program.entries.as_slice(), out)?;
    Ok(())
}

// The locations of a program.
fn locations(alloc: Global, program: &Program) -> Result<Vec<Location>, OutOfMemory>
    ensures { IfOk result (λ list. list.items ≡ locations_in program.now) }
{
    let mut out = Vec::new(alloc);
    let made = made_objects(alloc, program)?;
    write_made(alloc, &program.types, made, &mut out)?;
    write_library_objects(alloc, program, &mut out)?;
    Ok(out)
}

/// The locations of a program, which contracts see as the list of them.
#[derive(Drop)]
pub struct Space {
    locations: Vec<Location>,
    by_name: NameIndex,
    by_object: Firsts,
}

impl Model for Space {
    ghost use Rattle.std.specs.Prelude.{List};
    ghost use Rattle.obj_space.specs.declared.location.Location.{Location};
    ghost use Rattle.obj_space.specs.Found.{IsSpace};

    ghost Value = { List Location };

    ghost view = { λ s. s.locations.items };

    ghost invariant = { IsSpace };
}

impl Space {
    ghost use Rattle.obj_space.specs.declared.location.Location.{Location};
    ghost use Rattle.obj_space.specs.Found.{HasName, NotNamed, IsFirst, NoObject};
    ghost use Rattle.obj_space.specs.View.{view_of};
    ghost use Rattle.obj_space.specs.Spots.{IsSpot, spot_by};

    // The space of these locations.
    fn of(alloc: Global, locations: Vec<Location>) -> Result<Space, OutOfMemory>
        ensures { IfOk result (λ space. space ≡ locations.items) }
    {
        if locations.len() >= u32::MAX as usize {
            return Err(OutOfMemory);
        }
        let by_name = index_names(alloc, locations.as_slice())?;
        let by_object = index_firsts(alloc, locations.as_slice())?;
        Ok(Space {
            locations,
            by_name,
            by_object,
        })
    }

    /// The number of locations. They are the numbers below it.
    pub fn count(&self) -> u32
        ensures { result ≡ length self.now }
    {
        self.locations.len() as u32
    }

    /// What is known of a location.
    pub fn location(&self, location: u32) -> &Location
        requires { location < length self.now }
        ensures { slice_get self.now location ≡ Some result.now }
    {
        &self.locations[location as usize]
    }

    /// The name of a location.
    pub fn name(&self, location: u32) -> &str
        requires { location < length self.now }
        ensures { HasName self.now location result.now }
    {
        self.location(location).name.as_str()
    }

    /// A location with that name; None exactly where there is none.
    pub fn find(&self, name: &str) -> Option<u32>
        ensures { MatchOption result (NotNamed self.now name.now) (λ l. HasName self.now l name.now) }
    {
        self.by_name.find(name.as_bytes())
    }

    /// Whether all that lies under a location is that location alone, as in a union or a blob.
    pub fn collapsed(&self, location: u32) -> bool
        requires { location < length self.now }
        ensures fact { (l : Location) → slice_get self.now location ≡ Some l → result ≡ l.collapsed }
        ensures view { result ≡ (view_of self.now).collapsed location }
    {
        self.location(location).collapsed
    }

    /// The number of a location's type: 0 to 3 for integers of 1, 2, 4 and 8 bytes, 4 for pointers, 5 for blobs and
    /// functions, 6 for floating types, 7 for the variadic list, and 8 plus its tag for a structure or union.
    pub fn node_type(&self, location: u32) -> u32
        requires { location < length self.now }
        ensures fact { (l : Location) → slice_get self.now location ≡ Some l → result ≡ l.ty }
        ensures view { result ≡ (view_of self.now).node_type location }
    {
        self.location(location).ty
    }

    /// The first location of an object; None exactly where the program has no such object.
    pub fn first(&self, key: ObjectKey) -> Option<u32>
        ensures found { MatchOption result (NoObject self.now key) (λ l. IsFirst self.now key l) }
        ensures value { result ≡ (view_of self.now).first key }
        ensures within { IfSome result (λ l. l < (view_of self.now).count) }
    {
        first_of(&self.by_object, key)
    }

    /// The location of the part of an object at the end of a path, with the types of the program. Indices are forgotten,
    /// and what lies under a collapsed node has that node. None exactly where there is no such object or the path leaves
    /// its tree, and past numbers of 32 bits, which no location has.
    pub fn spot(&self, types: &TypeTable, key: ObjectKey, path: &[PathStep]) -> Option<u32>
        ensures { IsSpot self.now types.now key path.now result }
    {
        match self.first(key) {
            Some(first) => {
                if first < self.count() {
                    self.spot_from(types, first, path)
                } else {
                    None
                }
            }
            None => None,
        }
    }

    // The location at the end of a path from the first location of an object.
    fn spot_from(&self, types: &TypeTable, first: u32, path: &[PathStep]) -> Option<u32>
        requires { first < length self.now }
        ensures { (l : Location) → slice_get self.now first ≡ Some l → result ≡ spot_by types.now first l path.now }
    {
        match node_in(types, self.location(first).content, path) {
            Some(node) => first.checked_add(node),
            None => None,
        }
    }
}

/// The locations of a program: each object with a node of its tree, in the order of objects and nodes.
pub fn objects(alloc: Global, program: &Program) -> Result<Space, OutOfMemory>
    ensures locations { IfOk result (λ space. space ≡ locations_in program.now) }

    // Each type number is below 8, or 8 and one of the tags.
    ensures types { IfOk result (λ space. AreTyped program.now.types space) }

    // Behind each structure stand the nodes of its tree, so part `i` of location `l` is location `l + i`.
    ensures trees { IfOk result (λ space. HasTrees program.now.types space) }

    // An object that is made of a type has that type's nodes from its first location on.
    ensures wholes { IfOk result (λ space. HasWholes program.now.types space) }

    // The node at the end of a path, counted from an object's first location, is the location of the part there.
    ensures parts { IfOk result (λ space. ReachesParts program.now.types space) }
{
    // What every table keeps is told by its count.
    let _count = program.types.type_count();
    let list = locations(alloc, program)?;
    let space = Space::of(alloc, list)?;
    Ok(space)
}
