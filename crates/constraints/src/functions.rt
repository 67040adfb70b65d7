// What is known of functions.

ghost use Rattle.std.specs.Prelude.{◌≡◌, ℕ, ◌+◌, ◌<◌, ◌≤◌, ◌^◌, ◌++◌, IfOk, IfSome, OnOk, All, List, length, map, filter};
ghost use Rattle.std.specs.Prelude.{unwrap_or, slice_get, Some};
ghost use Rattle.c_types.specs.Table.{type_of};
ghost use Rattle.c_types.specs.declared.key.ObjectKey.{ObjectKey};
ghost use Rattle.core_tree.specs.Typed.{trees_in};
ghost use Rattle.core_tree.specs.Range.{InRange};
ghost use Rattle.obj_space.specs.View.{view_of};
ghost use Rattle.row_numbers.specs.Kept.{nodes_of};
ghost use Rattle.row_numbers.specs.Kept.{row_list};
ghost use Rattle.constraints.specs.Owned.{AreOwned};
ghost use Rattle.row_numbers.specs.Setting.{none_row, result_nodes, takes_further};
ghost use Rattle.row_numbers.specs.Frame.{IsNumbered};
ghost use Rattle.row_numbers.specs.Functions.{key_type};
ghost use Rattle.row_numbers.specs.Results.{AreResults};
ghost use Rattle.normal_form.specs.Facts.{further_rows, cell_list, parameter_rows, parameters_by, effects_by, library_by};
ghost use Rattle.normal_form.specs.Facts.{IsFunctionFact, AreFunctions};

use crate::owned::Owned;
use c_types::key::ObjectKey;
use c_types::table::TypeTable;
use c_types::term::TypeId;
use call_sites::signatures::called_signature;
use core_tree::Program;
use lib_summaries::effects;
use obj_space::Space;
use pta_base::{Effect, Listing, OutOfMemory};
use row_numbers::kept::{has_row, node_count, row_list};
use row_numbers::numbering::{key_id, result_id, takes_further};
use row_numbers::results::Results;
use sol_model::Function;
use std::alloc::Global;

// The row of the location of each kept node.
fn cell_list(
    alloc: Global,
    types: &TypeTable,
    id: TypeId,
    first: u32,
    none: u32,
) -> Result<Listing<u32>, OutOfMemory>
    requires id { id.0 < length types.now.terms }
    requires first { first ≤ 2 ^ 24 }
    ensures { IfOk result (λ list. list ≡ cell_list none first (nodes_of types.now (type_of types.now id.0))) }
{
    let mut list = Listing::new(alloc);
    for node in 0..node_count(types, id) {
        if has_row(types, id, node) {
            list.push(first + node)?;
        } else {
            list.push(none)?;
        }
    }
    Ok(list)
}

/// The rows of a parameter.
pub(crate) fn parameter_rows(
    alloc: Global,
    program: &Program,
    space: &Space,
    key: ObjectKey,
    none: u32,
) -> Result<Listing<u32>, OutOfMemory>
    requires types { All (λ entity. entity.ty.0 < length program.now.types.terms) program.now.entities.items }
    requires none { none ≡ none_row (trees_in program.now) (view_of space.now) }
    requires small { (view_of space.now).count ≤ 2 ^ 24 }
    ensures { IfOk result (λ list. list ≡ parameter_rows (trees_in program.now) (view_of space.now) key) }
{
    let first = space.first(key).unwrap_or(0);
    match key_id(program, key) {
        Some(id) => cell_list(alloc, &program.types, id, first, none),
        None => Ok(Listing::new(alloc)),
    }
}

// The rows of each of these parameters.
fn all_parameter_rows(
    alloc: Global,
    program: &Program,
    space: &Space,
    parameters: &[ObjectKey],
    none: u32,
) -> Result<Listing<Listing<u32>>, OutOfMemory>
    requires types { All (λ entity. entity.ty.0 < length program.now.types.terms) program.now.entities.items }
    requires none { none ≡ none_row (trees_in program.now) (view_of space.now) }
    requires small { (view_of space.now).count ≤ 2 ^ 24 }
    ensures { IfOk result (λ lists. lists ≡ map (parameter_rows (trees_in program.now) (view_of space.now)) parameters.now) }
{
    let mut lists = Listing::new(alloc);
    for key in parameters {
        lists.push(parameter_rows(alloc, program, space, *key, none)?)?;
    }
    Ok(lists)
}

// Whether the type of a function is variadic.
fn takes_further_by(program: &Program, f: u32) -> bool
    requires { All (λ entity. entity.ty.0 < length program.now.types.terms) program.now.entities.items }
    ensures { result ≡ takes_further (key_type (trees_in program.now) (ObjectKey.Entity f)) }
{
    match key_id(program, ObjectKey::Entity(f)) {
        Some(id) => takes_further(&program.types, id),
        None => false,
    }
}

// The row of all arguments past the parameters of a variadic function.
fn push_further(
    alloc: Global,
    program: &Program,
    space: &Space,
    f: u32,
    lists: &mut Listing<Listing<u32>>,
) -> Result<(), OutOfMemory>
    requires { All (λ entity. entity.ty.0 < length program.now.types.terms) program.now.entities.items }
    ensures { OnOk result (lists.new ≡ lists.old ++ further_rows (trees_in program.now) (view_of space.now) f) }
{
    if !takes_further_by(program, f) {
        return Ok(());
    }
    let mut rest = Listing::new(alloc);
    rest.push(space.first(ObjectKey::Varargs(f)).unwrap_or(0))?;
    lists.push(rest)?;
    Ok(())
}

// What a function of the library does to sets.
fn effects_by(alloc: Global, key: ObjectKey) -> Result<Listing<Effect>, OutOfMemory>
    ensures { IfOk result (λ list. list ≡ effects_by key) }
{
    match key {
        ObjectKey::Function(k) => Ok(Listing::of(Vec::from_slice(alloc, effects(k))?)),
        ObjectKey::Entity(_) | ObjectKey::Text(_) | ObjectKey::Call(_) => Ok(Listing::new(alloc)),
        ObjectKey::Library(_) | ObjectKey::Star(_) => Ok(Listing::new(alloc)),
        ObjectKey::Varargs(_) | ObjectKey::Outside => Ok(Listing::new(alloc)),
    }
}

// The number of a function of the library.
fn library_by(key: ObjectKey) -> Option<u32>
    ensures { result ≡ library_by key }
{
    match key {
        ObjectKey::Function(k) => Some(k),
        ObjectKey::Entity(_) | ObjectKey::Text(_) | ObjectKey::Call(_) => None,
        ObjectKey::Library(_) | ObjectKey::Star(_) => None,
        ObjectKey::Varargs(_) | ObjectKey::Outside => None,
    }
}

/// The rows of a function's result.
pub(crate) fn result_list(
    alloc: Global,
    program: &Program,
    key: ObjectKey,
    first: u32,
    none: u32,
) -> Result<Listing<u32>, OutOfMemory>
    requires types { All (λ entity. entity.ty.0 < length program.now.types.terms) program.now.entities.items }
    requires first { first ≤ 2 ^ 24 }
    ensures { IfOk result (λ list. list ≡ row_list none first (result_nodes (trees_in program.now) key)) }
{
    match result_id(&program.types, key_id(program, key)) {
        Some(id) => row_list(alloc, &program.types, id, first, none),
        None => Ok(Listing::new(alloc)),
    }
}

// The rows of the parameters of a function that the program defines; one of the library has none.
fn parameters_by(
    alloc: Global,
    program: &Program,
    space: &Space,
    key: ObjectKey,
    owned: &Owned,
    none: u32,
) -> Result<Listing<Listing<u32>>, OutOfMemory>
    requires types { All (λ entity. entity.ty.0 < length program.now.types.terms) program.now.entities.items }
    requires none { none ≡ none_row (trees_in program.now) (view_of space.now) }
    requires small { (view_of space.now).count ≤ 2 ^ 24 }
    requires owned { AreOwned (trees_in program.now) (view_of space.now) owned.now.lists.items }
    ensures { IfOk result (λ lists. lists ≡ parameters_by (trees_in program.now) (view_of space.now) key) }
{
    match key {
        ObjectKey::Entity(f) => {
            let mut lists = all_parameter_rows(alloc, program, space, owned.of(f), none)?;
            push_further(alloc, program, space, f, &mut lists)?;
            Ok(lists)
        }
        ObjectKey::Function(_) | ObjectKey::Text(_) | ObjectKey::Call(_) => Ok(Listing::new(alloc)),
        ObjectKey::Library(_) | ObjectKey::Star(_) => Ok(Listing::new(alloc)),
        ObjectKey::Varargs(_) | ObjectKey::Outside => Ok(Listing::new(alloc)),
    }
}

// The function of a number.
fn function_fact(
    alloc: Global,
    program: &Program,
    space: &Space,
    results: &Results,
    owned: &Owned,
    number: u32,
) -> Result<Function, OutOfMemory>
    requires range { InRange (trees_in program.now) }
    requires numbered { IsNumbered program.now }
    requires results { AreResults (trees_in program.now) (view_of space.now) results.now }
    requires owned { AreOwned (trees_in program.now) (view_of space.now) owned.now.lists.items }
    requires number { number < length results.now.functions.items }
    ensures { IfOk result (λ function. (key : ObjectKey) × (slice_get results.now.functions.items number ≡ Some key)
        × IsFunctionFact (trees_in program.now) (view_of space.now) number key function) }
{
    let key = results.functions[number as usize];
    let first = results.starts[number as usize];
    Ok(Function {
        location: space.first(key).unwrap_or(0),
        signature: called_signature(alloc, &program.types, key_id(program, key))?,
        parameters: parameters_by(alloc, program, space, key, owned, results.none)?,
        result: result_list(alloc, program, key, first, results.none)?,
        library: library_by(key),
        effects: effects_by(alloc, key)?,
    })
}

/// What is known of each function.
pub(crate) fn function_facts(
    alloc: Global,
    program: &Program,
    space: &Space,
    results: &Results,
    owned: &Owned,
) -> Result<Listing<Function>, OutOfMemory>
    requires range { InRange (trees_in program.now) }
    requires numbered { IsNumbered program.now }
    requires results { AreResults (trees_in program.now) (view_of space.now) results.now }
    requires owned { AreOwned (trees_in program.now) (view_of space.now) owned.now.lists.items }
    ensures { IfOk result (λ functions. AreFunctions (trees_in program.now) (view_of space.now) functions) }
{
    let mut functions = Listing::new(alloc);
    for number in 0..results.functions.as_slice().len() {
        functions.push(function_fact(alloc, program, space, results, owned, number as u32)?)?;
    }
    Ok(functions)
}
