//! What the initialiser of a tree gives an object (C11 6.7.9, 6.5.2.5).

ghost use Rattle.std.specs.Prelude.{◌≡◌, ◌<◌, Some, length, slice_get, IfOk};
ghost use Rattle.c_grammar.specs.Productions.{p_init, p_items};
ghost use Rattle.c_inits.specs.Syntax.{Init, Items, Braces};
ghost use Rattle.c_inits.specs.View.{init_at as init_seen, items_at as items_seen};
ghost use Rattle.c_initialise.specs.Facts.{AreKnown, told};
ghost use Rattle.c_initialise.specs.Nodes.{production_of};
ghost use Rattle.c_initialise.specs.Read.{Answers};

use crate::c_braces::growing::push_braces;
use crate::c_braces::items::{Initialised, initialise};
use crate::c_braces::lists::Walk;
use crate::facts::Source;
use crate::reading::{read_init, read_items};
use c_types::term::{OutOfMemory, TypeId};
use std::alloc::Global;

/// What the initialiser that a node is gives an object of a type: its items in order, without those that a later item replaces, and
/// for an array without a length its length; or the first node, in text order, that has no place, which is the whole initialiser
/// where the type has no shape. `limit` is the number of elements that an array without a length may have. An error comes for want of
/// memory alone; 2^32 initialisers or more count as that.
pub fn initialise_node(
    alloc: Global,
    source: &Source,
    limit: u64,
    node: u32,
    id: TypeId,
) -> Result<Result<Initialised, u32>, OutOfMemory>
    requires known { AreKnown source.now }
    requires node { production_of (slice_get source.now.syntax.now.tree.now.nodes.items node) ≡ p_init }
    requires object { id.0 < length source.now.unit.now.types.terms }
    ensures { let s = told source.now in
        IfOk result (λ answer. (init : Init)
        × (init_seen s source.now.syntax.now.tree.now.nodes.items node ≡ Some init)
        × Answers source.now.unit.now.types limit id.0 init answer) }
{
    let mut inits = Vec::new(alloc);
    let at = read_init(alloc, source, node, &mut inits)?;
    let walk = Walk {
        types: &source.unit.types,
        limit,
        inits: inits.as_slice(),
    };
    let answer = initialise(alloc, &walk, at, id)?;
    Ok(answer)
}

/// The same for the braced list of a compound literal (C11 6.5.2.5): the list's items, with its opening brace for the node of the
/// whole.
pub fn initialise_literal(
    alloc: Global,
    source: &Source,
    limit: u64,
    list: u32,
    brace: u32,
    id: TypeId,
) -> Result<Result<Initialised, u32>, OutOfMemory>
    requires known { AreKnown source.now }
    requires list { production_of (slice_get source.now.syntax.now.tree.now.nodes.items list) ≡ p_items }
    requires object { id.0 < length source.now.unit.now.types.terms }
    ensures { let s = told source.now in
        IfOk result (λ answer. (items : Items)
        × (items_seen s source.now.syntax.now.tree.now.nodes.items list ≡ Some items)
        × Answers source.now.unit.now.types limit id.0 (Braces brace items) answer) }
{
    let mut inits = Vec::new(alloc);
    let entries = read_items(alloc, source, list, &mut inits)?;
    let at = push_braces(&source.unit.types, &mut inits, brace, entries)?;
    let walk = Walk {
        types: &source.unit.types,
        limit,
        inits: inits.as_slice(),
    };
    let answer = initialise(alloc, &walk, at, id)?;
    Ok(answer)
}
