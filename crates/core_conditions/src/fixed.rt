// Which values an initialiser of a static object may hold (C11 6.6).

ghost use Rattle.std.specs.Prelude.{◌≡◌, ℕ, ◌<◌, ◌≤◌, ◌↔◌, false, if◌then◌else◌, IsTrue, IfSome, All, length};
ghost use Rattle.c_types.specs.Table.{type_of};
ghost use Rattle.core_tree.specs.Seen.{core_of};
ghost use Rattle.core_tree.specs.Range.{InRange, named_by, entity_at};
ghost use Rattle.core_tree.specs.Valid.{FixedNumber, FixedPlace, FixedPointer, IsFixed, IsStaticEntity, LivesForTheRun, HoldsFixed};
ghost use Rattle.core_conditions.specs.Fixed.{NumberStep, PlaceStep, PointerStep, NumberSays, number_rank, PartSays, part_rank};

use crate::bodies::is_local;
use core_tree::node::{Node, NodeKind, Storage};
use core_tree::trees::Trees;
use type_rules::kinds::{is_integer, is_pointer};

// What is left to be told of a number: nothing, or whether the first node that it stands over is fixed.
#[derive(Clone, Copy)]
enum NumberLeft {
    Told(bool),
    Below(u32),
}

// Whether a node is a fixed number. It goes down the first operands, along which a long sum is deep, and calls itself for the others.
#[cycle(number)]
fn fixed_number(trees: &Trees<'_>, n: u32) -> bool
    requires range { InRange (core_of trees.now) }
    requires node { n < length trees.now.nodes.now }
    ensures { IsTrue result ↔ FixedNumber (core_of trees.now) n }
{
    let mut at = n;
    'down: loop {
        match number_step(trees, at, &trees.nodes[at as usize]) {
            NumberLeft::Told(told) => return told,
            NumberLeft::Below(below) => at = below,
        }
    }
}

// What is left of a node that is a number, or an operator, a choice or a conversion to an integer over fixed numbers.
#[cycle(number)]
fn number_step(trees: &Trees<'_>, n: u32, node: &Node) -> NumberLeft
    requires range { InRange (core_of trees.now) }
    requires at { n < length trees.now.nodes.now }
    requires ty { node.now.ty.0 < length trees.now.types.now.terms }
    requires children { All (λ c. c < n) node.now.children }
    ensures says { NumberSays (core_of trees.now) result
        ↔ NumberStep (core_of trees.now) (type_of trees.now.types.now node.now.ty.0) node.now.kind node.now.children }
    ensures before { number_rank result ≤ n }
{
    match &node.kind {
        NodeKind::Number(_) => NumberLeft::Told(true),
        NodeKind::Arith(_) | NodeKind::Choose | NodeKind::Convert => {
            if is_integer(trees.types, node.ty) {
                operands(trees, n, node.children.as_slice())
            } else {
                NumberLeft::Told(false)
            }
        }
        _ => NumberLeft::Told(false),
    }
}

// What is left of these nodes, which come before that one and are all to be fixed numbers, once those past the first are told.
#[cycle(number)]
fn operands(trees: &Trees<'_>, n: u32, children: &[u32]) -> NumberLeft
    requires range { InRange (core_of trees.now) }
    requires node { n < length trees.now.nodes.now }
    requires children { All (λ c. c < n) children.now }
    ensures says { NumberSays (core_of trees.now) result ↔ All (λ c. FixedNumber (core_of trees.now) c) children.now }
    ensures before { number_rank result ≤ n }
{
    match children {
        [] => NumberLeft::Told(true),
        [first, rest @ ..] => {
            if fixed_numbers(trees, n, rest) {
                NumberLeft::Below(*first)
            } else {
                NumberLeft::Told(false)
            }
        }
    }
}

// Whether each of these nodes, which come before that one, is a fixed number.
#[cycle(number)]
fn fixed_numbers(trees: &Trees<'_>, n: u32, children: &[u32]) -> bool
    requires range { InRange (core_of trees.now) }
    requires node { n < length trees.now.nodes.now }
    requires children { All (λ c. c < n) children.now }
    ensures { IsTrue result ↔ All (λ c. FixedNumber (core_of trees.now) c) children.now }
{
    for c in children {
        if !fixed_number(trees, *c) {
            return false;
        }
    }
    true
}

// Whether a named entity is no automatic object and no parameter.
fn is_static(trees: &Trees<'_>, e: u32) -> bool
    requires { e < length trees.now.entities.now }
    ensures { IsTrue result ↔ IsStaticEntity (core_of trees.now) e }
{
    !is_local(trees.entities[e as usize].storage)
}

// What is left to be told of a place or a pointer: nothing, or whether the node that it stands over is a fixed place or pointer.
#[derive(Clone, Copy)]
enum Part {
    Told(bool),
    Place(u32),
    Pointer(u32),
}

// What is left of a node that is a text, a function, an object that lives for the whole run, or stands over a fixed part.
fn place_step(trees: &Trees<'_>, n: u32, node: &Node) -> Part
    requires children { All (λ c. c < n) node.now.children }
    requires entity { IfSome (named_by node.now.kind) (λ e. e < length trees.now.entities.now) }
    ensures says { PartSays (core_of trees.now) result ↔ PlaceStep (core_of trees.now) node.now.kind node.now.children }
    ensures before { part_rank result ≤ n }
{
    let children = node.children.as_slice();
    match &node.kind {
        NodeKind::Text(_) | NodeKind::FunctionName(_) => Part::Told(children.is_empty()),
        NodeKind::Named(e) => Part::Told(children.is_empty() && is_static(trees, *e)),
        NodeKind::Literal(e) => Part::Told(children.len() == 1 && is_static(trees, *e)),
        NodeKind::Member(_) => match children {
            [p] => Part::Place(*p),
            _ => Part::Told(false),
        },
        NodeKind::Deref => match children {
            [v] => Part::Pointer(*v),
            _ => Part::Told(false),
        },
        _ => Part::Told(false),
    }
}

// What is left of a node that is null, or stands over a fixed place, or over a fixed pointer.
fn pointer_step(trees: &Trees<'_>, n: u32, node: &Node) -> Part
    requires range { InRange (core_of trees.now) }
    requires at { n < length trees.now.nodes.now }
    requires ty { node.now.ty.0 < length trees.now.types.now.terms }
    requires children { All (λ c. c < n) node.now.children }
    ensures says { PartSays (core_of trees.now) result
        ↔ PointerStep (core_of trees.now) (type_of trees.now.types.now node.now.ty.0) node.now.kind node.now.children }
    ensures before { part_rank result ≤ n }
{
    let children = node.children.as_slice();
    match &node.kind {
        NodeKind::NullValue => Part::Told(children.is_empty()),
        NodeKind::AddressOf | NodeKind::Decay => match children {
            [p] => Part::Place(*p),
            _ => Part::Told(false),
        },
        NodeKind::Upcast => match children {
            [v] => Part::Pointer(*v),
            _ => Part::Told(false),
        },
        NodeKind::Convert => match children {
            [v] => pointer_if(is_pointer(trees.types, node.ty), *v),
            _ => Part::Told(false),
        },
        NodeKind::PointerAdd { .. } => match children {
            [v, i] => pointer_if(fixed_number(trees, *i), *v),
            _ => Part::Told(false),
        },
        _ => Part::Told(false),
    }
}

// What is left of a pointer over a fixed one, if a further thing holds.
fn pointer_if(holds: bool, v: u32) -> Part
    ensures { result ≡ (if holds then Part.Pointer v else Part.Told false) }
{
    if holds {
        Part::Pointer(v)
    } else {
        Part::Told(false)
    }
}

// What is left of a place or a pointer, one node further down.
fn part_below(trees: &Trees<'_>, part: Part) -> Part
    requires range { InRange (core_of trees.now) }
    requires part { part_rank part ≤ length trees.now.nodes.now }
    ensures says { PartSays (core_of trees.now) result ↔ PartSays (core_of trees.now) part }
    ensures lower { 0 < part_rank part → part_rank result < part_rank part }
    ensures before { part_rank result ≤ length trees.now.nodes.now }
{
    match part {
        Part::Told(_) => part,
        Part::Place(p) => place_step(trees, p, &trees.nodes[p as usize]),
        Part::Pointer(v) => pointer_step(trees, v, &trees.nodes[v as usize]),
    }
}

// Whether a node is a fixed pointer.
fn fixed_pointer(trees: &Trees<'_>, n: u32) -> bool
    requires range { InRange (core_of trees.now) }
    requires node { n < length trees.now.nodes.now }
    ensures { IsTrue result ↔ FixedPointer (core_of trees.now) n }
{
    let mut part = Part::Pointer(n);
    'down: loop {
        match part {
            Part::Told(told) => return told,
            Part::Place(_) | Part::Pointer(_) => part = part_below(trees, part),
        }
    }
}

// Whether a node is a fixed number or a fixed pointer.
fn is_fixed(trees: &Trees<'_>, n: u32) -> bool
    requires range { InRange (core_of trees.now) }
    requires node { n < length trees.now.nodes.now }
    ensures { IsTrue result ↔ IsFixed (core_of trees.now) n }
{
    fixed_number(trees, n) || fixed_pointer(trees, n)
}

// Whether an entity lives for the whole run.
fn lives_for_the_run(trees: &Trees<'_>, e: u32) -> bool
    requires { e < length trees.now.entities.now }
    ensures { IsTrue result ↔ LivesForTheRun (entity_at (core_of trees.now) e) }
{
    matches!(trees.entities[e as usize].storage, Storage::Static)
}

/// Whether a node, if it is the initialiser of an object that lives for the whole run, holds fixed values alone.
pub fn holds_fixed(trees: &Trees<'_>, node: &Node) -> bool
    requires range { InRange (core_of trees.now) }
    requires children { All (λ c. c < length trees.now.nodes.now) node.now.children }
    requires entity { IfSome (named_by node.now.kind) (λ e. e < length trees.now.entities.now) }
    ensures { IsTrue result ↔ HoldsFixed (core_of trees.now) node.now.kind node.now.children }
{
    match &node.kind {
        NodeKind::Initialise { entity, .. } => {
            !lives_for_the_run(trees, *entity)
                || node.children.as_slice().iter().all(|c| is_fixed(trees, *c))
        }
        _ => true,
    }
}
