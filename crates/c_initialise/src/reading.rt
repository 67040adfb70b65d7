//! The initialisers of a tree (C11 6.7.9p1), each behind those within it.

ghost use Rattle.std.specs.Prelude.{◌≡◌, ◌<◌, ◌++◌, ◌∷◌, [], Some, length, slice_get, map, List, IfOk, OnOk};
ghost use Rattle.c_grammar.specs.Productions.{p_init, p_items, p_item};
ghost use Rattle.c_inits.specs.View.{AnInit, AList, all_designators};
ghost use Rattle.c_inits.specs.Designated.{designator_of};
ghost use Rattle.c_initialise.specs.c_braces.Tree.{AreInits, ItemsBefore, Grows, init_at, items_over};
ghost use Rattle.c_initialise.specs.Facts.{AreKnown, told};
ghost use Rattle.c_initialise.specs.Nodes.{production_of, children_of};
ghost use Rattle.c_initialise.specs.Read.{part_at, before, IsItem};

use crate::c_braces::growing::{push_braces, push_value};
use crate::c_braces::tree::{InitEntry, InitNode};
use crate::facts::{Source, designator_at, expression_at};
use crate::nodes::{child_before, is_child};
use c_grammar::productions::{DESIGNATOR, INIT, ITEM, ITEMS};
use c_inits::designators::Designator;
use c_types::term::OutOfMemory;
use std::alloc::Global;
use tree_reads::children_of;

fn push_designator(
    designators: &mut Vec<Designator>,
    designator: Designator,
) -> Result<(), OutOfMemory>
    ensures { OnOk result (designators.new.items ≡ designators.old.items ++ designator ∷ []) }
{
    match designators.push(designator) {
        Ok(()) => Ok(()),
        Err(_) => Err(OutOfMemory),
    }
}

fn push_entry(entries: &mut Vec<InitEntry>, entry: InitEntry) -> Result<(), OutOfMemory>
    ensures { OnOk result (entries.new.items ≡ entries.old.items ++ entry ∷ []) }
{
    match entries.push(entry) {
        Ok(()) => Ok(()),
        Err(_) => Err(OutOfMemory),
    }
}

/// The designators of an item.
fn designators_of(alloc: Global, source: &Source, item: u32) -> Result<Vec<Designator>, OutOfMemory>
    ensures { let s = told source.now in
        let part = part_at s source.now.syntax.now.tree.now.nodes.items in
        IfOk result (λ list.
        map designator_of list.items
        ≡ all_designators (before item part) (children_of (slice_get source.now.syntax.now.tree.now.nodes.items item))) }
{
    let mut designators = Vec::new(alloc);
    for child in children_of(source.syntax, item) {
        if is_child(source.syntax, DESIGNATOR, item, *child) {
            let designator = designator_at(alloc, source, *child)?;
            push_designator(&mut designators, designator)?;
        }
    }
    Ok(designators)
}

/// Puts the initialiser that a node is behind the others, with those within it before it, and gives its position. One of 2^32 or more
/// counts as want of memory. Each node is below its parent, and the calls nest as deep as braces: the parser takes 256 levels of them.
#[cycle(reading)]
pub fn read_init(
    alloc: Global,
    source: &Source,
    node: u32,
    inits: &mut Vec<InitNode>,
) -> Result<u32, OutOfMemory>
    requires known { AreKnown source.now }
    requires inits { AreInits source.now.unit.now.types inits.old.items }
    requires node { production_of (slice_get source.now.syntax.now.tree.now.nodes.items node) ≡ p_init }
    ensures at { IfOk result (λ at. at < length inits.new.items) }
    ensures init { let s = told source.now in
        IfOk result
        (λ at. part_at s source.now.syntax.now.tree.now.nodes.items node
        ≡ AnInit (init_at source.now.unit.now.types inits.new.items at)) }
    ensures grows { OnOk result (Grows source.now.unit.now.types inits.old.items inits.new.items) }
{
    match child_before(source.syntax, ITEMS, node) {
        Some(list) => {
            let entries = read_items(alloc, source, list, inits)?;
            let at = push_braces(&source.unit.types, inits, node, entries)?;
            Ok(at)
        }
        None => {
            let value = expression_at(source, node);
            let at = push_value(&source.unit.types, inits, node, value)?;
            Ok(at)
        }
    }
}

/// Puts the initialisers of a list's items behind the others, and gives the items.
#[cycle(reading)]
pub fn read_items(
    alloc: Global,
    source: &Source,
    list: u32,
    inits: &mut Vec<InitNode>,
) -> Result<Vec<InitEntry>, OutOfMemory>
    requires known { AreKnown source.now }
    requires inits { AreInits source.now.unit.now.types inits.old.items }
    requires list { production_of (slice_get source.now.syntax.now.tree.now.nodes.items list) ≡ p_items }
    ensures within { IfOk result (λ entries. ItemsBefore (length inits.new.items) entries.items) }
    ensures items { let s = told source.now in
        IfOk result (λ entries.
        part_at s source.now.syntax.now.tree.now.nodes.items list
        ≡ AList (items_over (init_at source.now.unit.now.types inits.new.items) entries.items)) }
    ensures grows { OnOk result (Grows source.now.unit.now.types inits.old.items inits.new.items) }
{
    let mut entries = Vec::new(alloc);
    for child in children_of(source.syntax, list) {
        if is_child(source.syntax, ITEM, list, *child) {
            match read_item(alloc, source, *child, inits)? {
                Some(entry) => push_entry(&mut entries, entry)?,
                None => {}
            }
        }
    }
    Ok(entries)
}

/// The same for an item; None where it has no initialiser, which no parsed tree has.
#[cycle(reading)]
fn read_item(
    alloc: Global,
    source: &Source,
    item: u32,
    inits: &mut Vec<InitNode>,
) -> Result<Option<InitEntry>, OutOfMemory>
    requires known { AreKnown source.now }
    requires inits { AreInits source.now.unit.now.types inits.old.items }
    requires item { production_of (slice_get source.now.syntax.now.tree.now.nodes.items item) ≡ p_item }
    ensures item { let s = told source.now in
        IfOk result
        (λ entry. IsItem source.now.unit.now.types inits.new.items
        (part_at s source.now.syntax.now.tree.now.nodes.items item) entry) }
    ensures grows { OnOk result (Grows source.now.unit.now.types inits.old.items inits.new.items) }
{
    match child_before(source.syntax, INIT, item) {
        Some(child) => {
            let designators = designators_of(alloc, source, item)?;
            let init = read_init(alloc, source, child, inits)?;
            Ok(Some(InitEntry { designators, init }))
        }
        None => Ok(None),
    }
}
