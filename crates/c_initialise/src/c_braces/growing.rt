//! Lists of initialisers that grow at their end.

ghost use Rattle.std.specs.Prelude.{◌≡◌, ◌<◌, ◌++◌, ◌∷◌, [], length, IfOk, OnOk};
ghost use Rattle.c_types.specs.Table.{type_of};
ghost use Rattle.c_inits.specs.Syntax.{Value, Braces};
ghost use Rattle.c_initialise.specs.c_braces.Tree.{AreInits, ItemsBefore, Grows, init_at, items_over};

use crate::c_braces::tree::{InitEntry, InitNode};
use c_inits::cursor::Expression;
use c_types::table::TypeTable;
use c_types::term::OutOfMemory;

/// Puts an initialiser behind the others, and gives its position; one of 2^32 or more counts as want of memory.
fn push_init(inits: &mut Vec<InitNode>, init: InitNode) -> Result<u32, OutOfMemory>
    ensures at { IfOk result (λ at. at ≡ length inits.old.items) }
    ensures list { OnOk result (inits.new.items ≡ inits.old.items ++ init ∷ []) }
{
    let Ok(at) = u32::try_from(inits.len()) else {
        return Err(OutOfMemory);
    };
    match inits.push(init) {
        Ok(()) => Ok(at),
        Err(_) => Err(OutOfMemory),
    }
}

/// Puts an expression behind the other initialisers, and gives its position; one of 2^32 or more counts as want of memory.
pub fn push_value(
    types: &TypeTable,
    inits: &mut Vec<InitNode>,
    node: u32,
    value: Expression,
) -> Result<u32, OutOfMemory>
    requires value { value.ty.0 < length types.now.terms }
    requires inits { AreInits types.now inits.old.items }
    ensures at { IfOk result (λ at. at < length inits.new.items) }
    ensures init { IfOk result (λ at.
        init_at types.now inits.new.items at ≡ Value node (type_of types.now value.ty.0) value.text) }
    ensures grows { OnOk result (Grows types.now inits.old.items inits.new.items) }
{
    let at = push_init(inits, InitNode::Value { node, value })?;
    Ok(at)
}

/// Puts a braced list behind the initialisers of its items, and gives its position; one of 2^32 or more counts as want of memory.
pub fn push_braces(
    types: &TypeTable,
    inits: &mut Vec<InitNode>,
    node: u32,
    items: Vec<InitEntry>,
) -> Result<u32, OutOfMemory>
    requires items { ItemsBefore (length inits.old.items) items.items }
    requires inits { AreInits types.now inits.old.items }
    ensures at { IfOk result (λ at. at < length inits.new.items) }
    ensures init { IfOk result (λ at.
        init_at types.now inits.new.items at ≡ Braces node (items_over (init_at types.now inits.old.items) items.items)) }
    ensures grows { OnOk result (Grows types.now inits.old.items inits.new.items) }
{
    let at = push_init(inits, InitNode::Braces { node, items })?;
    Ok(at)
}
