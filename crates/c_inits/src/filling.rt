//! What an initialiser initialises of an object, in order (C11 6.7.9).

ghost use Rattle.std.specs.Prelude.{◌≡◌, ◌<◌, suc, min, nat_lt, ◌++◌, ◌∷◌, [], List, map, length, IfOk, IfSome, OnOk};
ghost use Rattle.std.specs.Prelude.{MatchOption, All, None, Some};
ghost use Rattle.c_types.specs.Table.{type_of};
ghost use Rattle.c_inits.specs.Shapes.{Path};
ghost use Rattle.c_inits.specs.Initial.{Action, acts_under, characters, filled, of_value, text_size, initial, listed, only_text};
ghost use Rattle.c_inits.specs.Tables.{type_shape, HasShape};
ghost use Rattle.c_inits.specs.Items.{action_of};
ghost use Rattle.c_inits.specs.Filling.{Gives, whole_put, elements_in};

use crate::cursor::{Expression, element_count, fits_whole};
use crate::items::{InitAction, InitItem};
use c_types::table::TypeTable;
use c_types::term::{OutOfMemory, PathStep, Term, TypeId};
use std::alloc::Global;

fn push_step(path: &mut Vec<PathStep>, step: PathStep) -> Result<(), OutOfMemory>
    ensures { OnOk result (path.new.items ≡ path.old.items ++ step ∷ []) }
{
    match path.push(step) {
        Ok(()) => Ok(()),
        Err(_) => Err(OutOfMemory),
    }
}

fn push_action(actions: &mut Vec<InitAction>, action: InitAction) -> Result<(), OutOfMemory>
    ensures { OnOk result (actions.new.items ≡ actions.old.items ++ action ∷ []) }
{
    match actions.push(action) {
        Ok(()) => Ok(()),
        Err(_) => Err(OutOfMemory),
    }
}

/// A path of its own.
fn copied(alloc: Global, path: &[PathStep]) -> Result<Vec<PathStep>, OutOfMemory>
    ensures { IfOk result (λ copy. copy.items ≡ path.now) }
{
    let mut copy = Vec::new(alloc);
    for step in path {
        push_step(&mut copy, *step)?;
    }
    Ok(copy)
}

/// Puts the characters of a string, from the first on, into the elements of an array (C11 6.7.9p14).
fn put_characters(
    alloc: Global,
    path: &[PathStep],
    node: u32,
    count: u64,
    actions: &mut Vec<InitAction>,
) -> Result<(), OutOfMemory>
    ensures { OnOk result
        (map action_of actions.new.items ≡ map action_of actions.old.items ++ map (acts_under path.now) (characters node 0 count)) }
{
    for k in 0..count {
        let mut element = copied(alloc, path)?;
        push_step(&mut element, PathStep::Index(k))?;
        let item = InitItem {
            path: element,
            node,
            character: Some(k),
        };
        push_action(actions, InitAction::Puts(item))?;
    }
    Ok(())
}

/// The size of a string with its closing zero, as its type says.
fn size_of_text(types: &TypeTable, id: TypeId) -> u64
    requires { id.0 < length types.now.terms }
    ensures { result ≡ text_size (type_of types.now id.0) }
{
    match types.term(id) {
        Term::Array {
            length: Some(size),
            ..
        } => *size,
        _ => 0,
    }
}

/// Whether a string has no room, but for its closing zero, in that many elements.
fn is_too_long(size: u64, count: u64) -> bool
    ensures { result ≡ nat_lt (suc count) size }
{
    size > count && size - count > 1
}

/// The number of a string's bytes that are put into that many elements.
fn put_count(size: u64, count: u64) -> u64
    ensures { result ≡ min size count }
{
    if size < count { size } else { count }
}

/// Puts a string into an array of so many characters, or gives its node where it is too long.
fn put_text(
    alloc: Global,
    path: &[PathStep],
    node: u32,
    size: u64,
    count: u64,
    actions: &mut Vec<InitAction>,
) -> Result<Option<u32>, OutOfMemory>
    ensures { IfOk result (λ bad.
        Gives (filled node size count) path.now (map action_of actions.old.items) (map action_of actions.new.items) bad) }
{
    if is_too_long(size, count) {
        return Ok(Some(node));
    }
    put_characters(alloc, path, node, put_count(size, count), actions)?;
    Ok(None)
}

/// Puts an expression at a path.
fn put_whole(
    alloc: Global,
    path: &[PathStep],
    node: u32,
    actions: &mut Vec<InitAction>,
) -> Result<(), OutOfMemory>
    ensures { OnOk result
        (map action_of actions.new.items ≡ map action_of actions.old.items ++ map (acts_under path.now) (whole_put node)) }
{
    let own = copied(alloc, path)?;
    let item = InitItem {
        path: own,
        node,
        character: None,
    };
    push_action(actions, InitAction::Puts(item))?;
    Ok(())
}

/// Puts an expression into an object that it is to initialise as a whole, or gives its node where it doesn't (C11 6.7.9p11, p13,
/// p14): a string that is longer than its array, but for the closing zero, and an expression of another type.
pub fn put_value(
    alloc: Global,
    types: &TypeTable,
    limit: u64,
    id: TypeId,
    path: &[PathStep],
    node: u32,
    value: Expression,
    actions: &mut Vec<InitAction>,
) -> Result<Option<u32>, OutOfMemory>
    requires known { id.0 < length types.now.terms }
    requires shaped { HasShape types.now limit id.0 }
    requires value { value.ty.0 < length types.now.terms }
    ensures { let outcome = of_value (type_shape types.now limit id.0) node (type_of types.now value.ty.0) value.text in
        IfOk result (λ bad.
        Gives outcome path.now (map action_of actions.old.items) (map action_of actions.new.items) bad) }
{
    if !fits_whole(types, limit, id, value) {
        return Ok(Some(node));
    }
    match length_in(types, limit, id) {
        Some(count) => {
            let size = size_of_text(types, value.ty);
            let bad = put_text(alloc, path, node, size, count, actions)?;
            Ok(bad)
        }
        None => {
            put_whole(alloc, path, node, actions)?;
            Ok(None)
        }
    }
}

/// The number of elements, where the object is an array.
fn length_in(types: &TypeTable, limit: u64, id: TypeId) -> Option<u64>
    requires known { id.0 < length types.now.terms }
    requires shaped { HasShape types.now limit id.0 }
    ensures { result ≡ elements_in (type_shape types.now limit id.0) }
{
    match types.term(id) {
        Term::Array { length, .. } => Some(element_count(*length, limit)),
        _ => None,
    }
}
