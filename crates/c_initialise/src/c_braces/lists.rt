//! Braced lists (C11 6.7.9p17 to p20).

ghost use Rattle.std.specs.Prelude.{◌≡◌, ◌&&◌, not, is_some, ◌<◌, ◌++◌, ◌∷◌, [], true, false, List, map, length};
ghost use Rattle.std.specs.Prelude.{slice_get, IfOk, IfSome, OnOk, MatchOption, All, None, Some};
ghost use Rattle.c_types.specs.Table.{type_of};
ghost use Rattle.c_inits.specs.Shapes.{Path};
ghost use Rattle.c_inits.specs.Initial.{Outcome, initial, listed, only_text, or_text, of_value, is_scalar, starts};
ghost use Rattle.c_inits.specs.Tables.{type_shape, HasShape};
ghost use Rattle.c_inits.specs.Cursor.{Stands, path_of};
ghost use Rattle.c_inits.specs.Designated.{designator_of};
ghost use Rattle.c_inits.specs.Items.{action_of};
ghost use Rattle.c_inits.specs.Places.{before_of};
ghost use Rattle.c_initialise.specs.c_braces.Tree.{AreInits, init_at, items_over, head_node, head_value, only_in, ItemsBefore};
ghost use Rattle.c_initialise.specs.declared.c_braces.tree.InitNode.{InitNode};
ghost use Rattle.c_inits.specs.Filling.{Gives};
ghost use Rattle.c_initialise.specs.c_braces.Given.{ItemGives};

use crate::c_braces::paths::{copied, extended, push_action};
use crate::c_braces::tree::{InitEntry, InitNode};
use c_inits::cursor::{Expression, Frame, fits_whole};
use c_inits::filling::put_value;
use c_inits::items::InitAction;
use c_inits::places::{is_scalar_type, place_item};
use c_types::table::TypeTable;
use c_types::term::{OutOfMemory, PathStep, TypeId};
use std::alloc::Global;

/// The syntax node of an initialiser.
pub(in crate::c_braces) fn node_at(inits: &[InitNode], at: u32) -> u32
    requires { at < length inits.now }
    ensures { (n : InitNode) → slice_get inits.now at ≡ Some n → result ≡ head_node n }
{
    match &inits[at as usize] {
        InitNode::Value { node, .. } => *node,
        InitNode::Braces { node, .. } => *node,
    }
}

/// The expression that an initialiser is; None for a braced list.
fn value_at(inits: &[InitNode], at: u32) -> Option<Expression>
    requires { at < length inits.now }
    ensures { (n : InitNode) → slice_get inits.now at ≡ Some n → result ≡ head_value n }
{
    match &inits[at as usize] {
        InitNode::Value { value, .. } => Some(*value),
        InitNode::Braces { .. } => None,
    }
}

/// The string that alone and without designators is the item of a list, with its node.
fn only_string(inits: &[InitNode], items: &[InitEntry]) -> Option<(u32, Expression)>
    requires items { All (λ e. e.init < length inits.now) items.now }
    ensures { only_in inits.now items.now ≡ result }
{
    if items.len() != 1 || items[0].designators.len() != 0 {
        return None;
    }
    match &inits[items[0].init as usize] {
        InitNode::Value { node, value } => {
            if value.text {
                Some((*node, *value))
            } else {
                None
            }
        }
        InitNode::Braces { .. } => None,
    }
}

/// The string that fills an object within braces, with its node (C11 6.7.9p14).
fn filling_string(
    types: &TypeTable,
    limit: u64,
    inits: &[InitNode],
    items: &[InitEntry],
    id: TypeId,
) -> Option<(u32, Expression)>
    requires known { id.0 < length types.now.terms }
    requires shaped { HasShape types.now limit id.0 }
    requires inits { AreInits types.now inits.now }
    requires items { All (λ e. e.init < length inits.now) items.now }
    ensures { let t = type_shape types.now limit id.0 in
        let string = only_text (items_over (init_at types.now inits.now) items.now) in
        (list : Outcome) →
        MatchOption result
        (or_text t string list ≡ list)
        (λ p. (p.1.ty.0 < length types.now.terms)
        × (or_text t string list ≡ of_value t p.0 (type_of types.now p.1.ty.0) p.1.text)) }
{
    match only_string(inits, items) {
        Some(string) => {
            if !fits_whole(types, limit, id, string.1) {
                return None;
            }
            if is_scalar_type(types, limit, id) {
                return None;
            }
            Some(string)
        }
        None => None,
    }
}

/// Whether braces would stand within the braces of a scalar (C11 6.7.9p11).
fn is_out_of_place(types: &TypeTable, limit: u64, id: TypeId, value: Option<Expression>) -> bool
    requires known { id.0 < length types.now.terms }
    requires shaped { HasShape types.now limit id.0 }
    ensures { result ≡ (not (is_some value) && is_scalar (type_shape types.now limit id.0)) }
{
    match value {
        Some(_) => false,
        None => is_scalar_type(types, limit, id),
    }
}

/// What a walk over initialisers reads: the types, the number of elements that an array without a length may have, and the
/// initialisers, each behind those within it.
#[derive(Clone, Copy, Drop)]
pub struct Walk<'a> {
    pub types: &'a TypeTable,
    pub limit: u64,
    pub inits: &'a [InitNode],
}

/// Puts what the initialiser in a position of the list initialises of an object of that type, behind the other actions and with the
/// object's path before each path; or gives the first node, in text order, that has no place: that of the designator that names
/// nothing, or of the initialiser that finds no place or whose braces don't fit (C11 6.7.9p6 to p20). After a node, or for want of
/// memory, the actions are of no use. An initialiser stands behind those within it, and the calls nest as deep as its braces: the
/// parser takes 256 levels of them.
#[cycle(filling)]
pub fn fill(
    alloc: Global,
    walk: &Walk,
    at: u32,
    id: TypeId,
    path: &[PathStep],
    actions: &mut Vec<InitAction>,
) -> Result<Option<u32>, OutOfMemory>
    requires known { id.0 < length walk.now.types.now.terms }
    requires shaped { HasShape walk.now.types.now walk.now.limit id.0 }
    requires inits { AreInits walk.now.types.now walk.now.inits.now }
    requires at { at < length walk.now.inits.now }
    ensures { let w = walk.now in
        let outcome = initial (type_shape w.types.now w.limit id.0) (init_at w.types.now w.inits.now at) in
        IfOk result (λ bad.
        Gives outcome path.now (map action_of actions.old.items) (map action_of actions.new.items) bad) }
{
    match &walk.inits[at as usize] {
        InitNode::Value { node, value } => {
            let bad = put_value(
                alloc, walk.types, walk.limit, id, path, *node, *value, actions,
            )?;
            Ok(bad)
        }
        InitNode::Braces { items, .. } => match filling_string(
            walk.types,
            walk.limit,
            walk.inits,
            items.as_slice(),
            id,
        ) {
            Some(string) => {
                let bad = put_value(
                    alloc, walk.types, walk.limit, id, path, string.0, string.1, actions,
                )?;
                Ok(bad)
            }
            None => {
                let bad = fill_list(alloc, walk, at, items.as_slice(), id, path, actions)?;
                Ok(bad)
            }
        },
    }
}

/// The same for the items of a braced list, which stand before a position.
#[cycle(filling)]
fn fill_list(
    alloc: Global,
    walk: &Walk,
    at: u32,
    items: &[InitEntry],
    id: TypeId,
    path: &[PathStep],
    actions: &mut Vec<InitAction>,
) -> Result<Option<u32>, OutOfMemory>
    requires known { id.0 < length walk.now.types.now.terms }
    requires shaped { HasShape walk.now.types.now walk.now.limit id.0 }
    requires inits { AreInits walk.now.types.now walk.now.inits.now }
    requires at { at < length walk.now.inits.now }
    requires items { ItemsBefore at items.now }
    ensures { let t = type_shape walk.now.types.now walk.now.limit id.0 in
        let outcome = listed t None (items_over (init_at walk.now.types.now walk.now.inits.now) items.now) in
        IfOk result (λ bad.
        Gives outcome path.now (map action_of actions.old.items) (map action_of actions.new.items) bad) }
{
    let mut frames = Vec::new(alloc);
    let mut started = false;
    for entry in items {
        match fill_item(alloc, walk, entry, id, path, started, &mut frames, actions)? {
            Some(bad) => return Ok(Some(bad)),
            None => started = true,
        }
    }
    Ok(None)
}

/// The same for one item, behind the place of the item before, where there is one.
#[cycle(filling)]
fn fill_item(
    alloc: Global,
    walk: &Walk,
    entry: &InitEntry,
    id: TypeId,
    path: &[PathStep],
    started: bool,
    frames: &mut Vec<Frame>,
    actions: &mut Vec<InitAction>,
) -> Result<Option<u32>, OutOfMemory>
    requires known { id.0 < length walk.now.types.now.terms }
    requires shaped { HasShape walk.now.types.now walk.now.limit id.0 }
    requires inits { AreInits walk.now.types.now walk.now.inits.now }
    requires entry { entry.now.init < length walk.now.inits.now }
    requires stands { let w = walk.now in Stands w.types.now w.limit (type_shape w.types.now w.limit id.0) frames.old.items }
    requires fresh { started ≡ false → frames.old.items ≡ [] }
    ensures item { let t = type_shape walk.now.types.now walk.now.limit id.0 in
        let start = starts t (before_of started (path_of frames.old.items)) (map designator_of entry.now.designators.items) in
        let init = init_at walk.now.types.now walk.now.inits.now entry.now.init in
        IfOk result (λ bad.
        ItemGives t start init (path_of frames.new.items) path.now (map action_of actions.old.items)
        (map action_of actions.new.items) bad) }
    ensures stands { let w = walk.now in
        OnOk result (Stands w.types.now w.limit (type_shape w.types.now w.limit id.0) frames.new.items) }
{
    let node = node_at(walk.inits, entry.init);
    let value = value_at(walk.inits, entry.init);
    match place_item(
        walk.types,
        walk.limit,
        id,
        frames,
        started,
        entry.designators.as_slice(),
        node,
        value,
    )? {
        Err(bad) => Ok(Some(bad)),
        Ok(here) => {
            if is_out_of_place(walk.types, walk.limit, id, value) {
                return Ok(Some(node));
            }
            let whole = extended(alloc, path, frames.as_slice())?;
            let cleared = copied(alloc, whole.as_slice())?;
            push_action(actions, InitAction::Clears(cleared))?;
            let bad = fill(alloc, walk, entry.init, here, whole.as_slice(), actions)?;
            Ok(bad)
        }
    }
}
