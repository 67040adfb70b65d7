//! What the rest of the unit says of the nodes of an initialiser.

ghost use Rattle.std.specs.Prelude.{◌≡◌, ◌<◌, ℕ, length, IfOk};
ghost use Rattle.c_types.specs.Table.{type_of};
ghost use Rattle.c_consts.specs.Core.{kind_of};
ghost use Rattle.c_inits.specs.Designated.{designator_of};
ghost use Rattle.c_inits.specs.View.{index_or_name};
ghost use Rattle.c_senses.specs.Tree.{Source as TreeSource};
ghost use Rattle.c_senses.specs.Sense.{Sense};
ghost use Rattle.c_senses.specs.Initialised.{is_text_kind, name_behind_dot};
ghost use Rattle.core_nodes.specs.Standing.{core_at, IsReady};
ghost use Rattle.tree_reads.specs.Sources.{source_read};
ghost use Rattle.c_initialise.specs.Facts.{AreKnown, no_world, told, index_told};

use c_grammar::productions::ASSIGNMENT;
use c_inits::cursor::Expression;
use c_inits::designators::Designator;
use c_results::{Results, node_at, value_at};
use c_types::term::{Name, OutOfMemory, TypeId};
use core_nodes::reads::{kind_of_node, type_of_node};
use core_tree::node::{NodeKind, Unit};
use std::alloc::Global;
use std::str::from_utf8;
use tree_reads::{Syntax, Test, child_of, children_of, first_where, spelling_of};

/// The value of a negative index: no array has so many elements.
const PAST_EVERY_ARRAY: u128 = 18446744073709551616;

/// A unit's tree with what was made for its nodes, and the type void, which is one of the unit's.
#[derive(Clone, Copy, Drop)]
pub struct Source<'a> {
    pub unit: &'a Unit,
    pub syntax: &'a Syntax<'a>,
    pub results: &'a Results,
    pub void: TypeId,
}

/// Whether a core node is a string.
fn is_text(unit: &Unit, node: u32) -> bool
    requires ready { IsReady unit.now }
    requires node { node < length unit.now.nodes.items }
    ensures { (s : TreeSource) (sense : ℕ → Sense) →
        result ≡ is_text_kind no_world s sense (kind_of (core_at unit.now node)) }
{
    match kind_of_node(unit, node) {
        NodeKind::Text(_) => true,
        _ => false,
    }
}

/// The expression that an initialiser is; one of void, where none was made.
pub(crate) fn expression_at(source: &Source, node: u32) -> Expression
    requires known { AreKnown source.now }
    ensures known { result.ty.0 < length source.now.unit.now.types.terms }
    ensures ty { type_of source.now.unit.now.types result.ty.0 ≡ (told source.now).type_at node }
    ensures text { result.text ≡ (told source.now).is_text node }
{
    let nothing = Expression {
        ty: source.void,
        text: false,
    };
    let Some(child) = child_of(source.syntax, ASSIGNMENT, node) else {
        return nothing;
    };
    match node_at(source.results, child) {
        Some(made) => Expression {
            ty: type_of_node(source.unit, made),
            text: is_text(source.unit, made),
        },
        None => nothing,
    }
}

/// A name of some bytes. What is no text counts as want of memory: names are letters of ASCII.
fn name_of(alloc: Global, bytes: &[u8]) -> Result<Name, OutOfMemory>
    ensures { IfOk result (λ name. name ≡ bytes.now) }
{
    match from_utf8(bytes) {
        Ok(text) => match String::from_str(alloc, text) {
            Ok(copy) => Ok(Name::from_text(copy)),
            Err(_) => Err(OutOfMemory),
        },
        Err(_) => Err(OutOfMemory),
    }
}

/// The name behind the dot of a designator; it has no letters where there is none.
fn name_at(alloc: Global, syntax: &Syntax, node: u32) -> Result<Name, OutOfMemory>
    ensures { (sense : ℕ → Sense) →
        IfOk result (λ name. name ≡ name_behind_dot no_world (source_read syntax.now) sense node) }
{
    match first_where(syntax, Test::Name, children_of(syntax, node)) {
        Some(leaf) => name_of(alloc, spelling_of(syntax, leaf)),
        None => name_of(alloc, &[]),
    }
}

/// An index as a number from 0 on.
fn index_of(value: i128) -> u128
    ensures { result ≡ index_told value }
{
    if value < 0 {
        PAST_EVERY_ARRAY
    } else {
        value as u128
    }
}

/// A designator: that of an index, where a value was made for it, or else of the name behind its dot.
pub(crate) fn designator_at(
    alloc: Global,
    source: &Source,
    node: u32,
) -> Result<Designator, OutOfMemory>
    ensures { let s = told source.now in IfOk result (λ d. designator_of d ≡ index_or_name s node (s.index_at node)) }
{
    match value_at(source.results, node) {
        Some(value) => Ok(Designator::Index {
            node,
            index: index_of(value),
        }),
        None => {
            let name = name_at(alloc, source.syntax, node)?;
            Ok(Designator::Name { node, name })
        }
    }
}
