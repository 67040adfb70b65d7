// The parts of a call.

ghost use Rattle.std.specs.Prelude.{◌≡◌, ℕ, ◌+◌, ◌<◌, ◌^◌, ◌∷◌, [], ◌++◌, IfOk, OnOk, All, List, length, slice_get, map, filter, Some};
ghost use Rattle.std.specs.List.{filter_map, enumerate_from, list_any};
ghost use Rattle.std.specs.Option.{option_and_then, option_map};
ghost use Rattle.c_types.specs.Table.{type_of};
ghost use Rattle.core_tree.specs.Typed.{trees_in};
ghost use Rattle.obj_space.specs.View.{view_of};
ghost use Rattle.pta_base.specs.declared.effect.Effect.{Effect};
ghost use Rattle.lib_summaries.specs.Table.{effects_of};
ghost use Rattle.row_numbers.specs.Objects.{library_number};
ghost use Rattle.row_numbers.specs.Setting.{value_rows, rest_row};
ghost use Rattle.call_sites.specs.Calls.{variadic_count, argument_rows, is_call, head_of, rest_of, name_of, name_at};
ghost use Rattle.call_sites.specs.Calls.{under_decay, decayed_at, named_callee, named_library, is_giving, is_giver};
ghost use Rattle.call_sites.specs.Calls.{library_of, giver_in, givers_in, is_named, object_by, fresh_by, fresh_in};
ghost use Rattle.call_sites.specs.Calls.{caller_by};
ghost use Rattle.row_numbers.specs.Frame.{IsFrame, IsNodeIn, setting_in};

use c_types::key::ObjectKey;
use c_types::table::TypeTable;
use c_types::term::{Form, Term, TypeId};
use core_tree::{Entity, Node, NodeKind};
use lib_summaries::effects;
use obj_space::Space;
use pta_base::{Effect, Listing, OutOfMemory};
use row_numbers::frame::{Frame, type_at};
use row_numbers::kept::row_list;
use row_numbers::objects::library_number;
use std::alloc::Global;

/// Whether a node is a call.
pub fn is_call(kind: &NodeKind) -> bool
    ensures { result ≡ is_call kind.now }
{
    matches!(kind, NodeKind::CallNode)
}

/// The callee of a call.
pub(crate) fn head_of(children: &[u32]) -> u32
    ensures value { result ≡ head_of children.now }
    ensures within { (n : ℕ) → All (λ child. child < n) children.now → 0 < n → result < n }
{
    match children {
        [] => 0,
        [callee, ..] => *callee,
    }
}

/// The arguments of a call.
pub(crate) fn rest_of(children: &[u32]) -> &[u32]
    ensures value { result.now ≡ rest_of children.now }
    ensures within { (n : ℕ) → All (λ child. child < n) children.now → All (λ child. child < n) result.now }
{
    match children {
        [] => &[],
        [_, arguments @ ..] => arguments,
    }
}

// The function whose name a node is.
fn name_of(kind: &NodeKind) -> Option<u32>
    ensures { result ≡ name_of kind.now }
{
    match kind {
        NodeKind::FunctionName(e) => Some(*e),
        _ => None,
    }
}

fn name_at(nodes: &[Node], n: u32) -> Option<u32>
    ensures { result ≡ name_at nodes.now n }
{
    if n as usize >= nodes.len() {
        return None;
    }
    name_of(&nodes[n as usize].kind)
}

// What a Decay stands over.
fn under_decay(kind: &NodeKind, children: &[u32]) -> Option<u32>
    ensures { result ≡ under_decay kind.now children.now }
{
    match kind {
        NodeKind::Decay => match children {
            [p] => Some(*p),
            _ => None,
        },
        _ => None,
    }
}

fn decayed_at(nodes: &[Node], n: u32) -> Option<u32>
    ensures { result ≡ decayed_at nodes.now n }
{
    if n as usize >= nodes.len() {
        return None;
    }
    let node = &nodes[n as usize];
    under_decay(&node.kind, node.children.as_slice())
}

/// The function that a call names.
pub(crate) fn named_callee(nodes: &[Node], children: &[u32]) -> Option<u32>
    ensures { result ≡ option_and_then (name_at nodes.now) (decayed_at nodes.now (head_of children.now)) }
{
    match decayed_at(nodes, head_of(children)) {
        Some(p) => name_at(nodes, p),
        None => None,
    }
}

/// The number of the library name that an entity is.
pub(crate) fn library_at(entities: &[Entity], e: Option<u32>) -> Option<u32>
    ensures { result ≡ option_and_then (λ e. option_and_then library_number (slice_get entities.now e)) e }
{
    match e {
        Some(e) => {
            if e as usize >= entities.len() {
                return None;
            }
            library_number(&entities[e as usize])
        }
        None => None,
    }
}

/// The number of the function around a node.
pub(crate) fn caller(frame: &Frame<'_>, n: u32) -> u32
    requires frame { IsFrame frame.now }
    requires node { n < length frame.now.program.now.nodes.items }
    ensures { result ≡ caller_by (setting_in frame.now) (slice_get (setting_in frame.now).owners n) }
{
    match frame.owner_at(n) {
        Some(f) => frame.number_of(f),
        None => 0,
    }
}

/// A row for each node of a value.
pub(crate) fn value_rows(
    alloc: Global,
    frame: &Frame<'_>,
    n: u32,
) -> Result<Listing<u32>, OutOfMemory>
    requires frame { IsFrame frame.now }
    requires node { n < length frame.now.program.now.nodes.items }
    ensures { IfOk result (λ list. list ≡ value_rows (setting_in frame.now).trees (setting_in frame.now).space n) }
{
    row_list(
        alloc,
        &frame.program.types,
        type_at(frame, n),
        frame.row(n),
        frame.numbering.none,
    )
}

/// The rows of each of these values.
pub(crate) fn all_rows(
    alloc: Global,
    frame: &Frame<'_>,
    values: &[u32],
) -> Result<Listing<Listing<u32>>, OutOfMemory>
    requires frame { IsFrame frame.now }
    requires values { All (IsNodeIn frame.now) values.now }
    ensures { IfOk result (λ lists. lists ≡ map (value_rows (setting_in frame.now).trees (setting_in frame.now).space) values.now) }
{
    let mut lists = Listing::new(alloc);
    for value in values {
        lists.push(value_rows(alloc, frame, *value)?)?;
    }
    Ok(lists)
}

/// How many parameters a pointer to a variadic function has; None exactly where a type is no such pointer.
pub fn variadic_count(types: &TypeTable, pointer: TypeId) -> Option<usize>
    requires { pointer.0 < length types.now.terms }
    ensures { result ≡ variadic_count (type_of types.now pointer.0) }
{
    match types.term(pointer) {
        Term::Pointer(to) => match types.term(*to) {
            Term::Function {
                parameters,
                form,
                ..
            } => match form {
                Form::Variadic => Some(parameters.as_slice().len()),
                Form::Fixed | Form::Unspecified => None,
            },
            _ => None,
        },
        _ => None,
    }
}

// The row of all arguments past the parameters, as those of one argument.
fn push_rest(
    alloc: Global,
    frame: &Frame<'_>,
    n: u32,
    lists: &mut Listing<Listing<u32>>,
) -> Result<(), OutOfMemory>
    requires frame { IsFrame frame.now }
    requires node { n < length frame.now.program.now.nodes.items }
    ensures { OnOk result (lists.new ≡ lists.old ++ (rest_row (setting_in frame.now).trees (setting_in frame.now).space n ∷ []) ∷ []) }
{
    let mut rest = Listing::new(alloc);
    rest.push(frame.rest_row(n))?;
    lists.push(rest)?;
    Ok(())
}

/// The rows of the arguments of a call: those of each, and where the callee is variadic one for all past the parameters.
pub(crate) fn argument_rows(
    alloc: Global,
    frame: &Frame<'_>,
    n: u32,
    callee: u32,
    arguments: &[u32],
) -> Result<Listing<Listing<u32>>, OutOfMemory>
    requires frame { IsFrame frame.now }
    requires node { n < length frame.now.program.now.nodes.items }
    requires callee { callee < length frame.now.program.now.nodes.items }
    requires arguments { All (IsNodeIn frame.now) arguments.now }
    ensures { IfOk result (λ lists. lists
        ≡ argument_rows (setting_in frame.now).trees (setting_in frame.now).space n callee arguments.now) }
{
    match variadic_count(&frame.program.types, type_at(frame, callee)) {
        Some(count) => {
            let own = &arguments[..count.min(arguments.len())];
            let mut lists = all_rows(alloc, frame, own)?;
            push_rest(alloc, frame, n, &mut lists)?;
            Ok(lists)
        }
        None => all_rows(alloc, frame, arguments),
    }
}

// Whether an effect gives an object.
fn is_giving(effect: Effect) -> bool
    ensures { result ≡ is_giving effect }
{
    matches!(effect, Effect::GivesNew | Effect::GivesObject(_))
}

// Whether one of some effects gives an object.
fn some_gives(effects: &[Effect]) -> bool
    ensures { result ≡ list_any is_giving effects.now }
{
    effects.iter().any(|effect| is_giving(*effect))
}

// Whether a function of the library gives an object.
fn is_giver(key: ObjectKey) -> bool
    ensures { result ≡ is_giver key }
{
    match key {
        ObjectKey::Function(k) => some_gives(effects(k)),
        ObjectKey::Entity(_) | ObjectKey::Text(_) | ObjectKey::Call(_) => false,
        ObjectKey::Library(_) | ObjectKey::Star(_) => false,
        ObjectKey::Varargs(_) | ObjectKey::Outside => false,
    }
}

// The number of a function of the library.
fn library_of(key: ObjectKey) -> u32
    ensures { result ≡ library_of key }
{
    match key {
        ObjectKey::Function(k) => k,
        ObjectKey::Entity(_) | ObjectKey::Text(_) | ObjectKey::Call(_) => 0,
        ObjectKey::Library(_) | ObjectKey::Star(_) => 0,
        ObjectKey::Varargs(_) | ObjectKey::Outside => 0,
    }
}

// A function that gives an object, with its number.
fn giver_in(number: usize, key: ObjectKey) -> Option<(u32, u32)>
    requires { number < 2 ^ 32 }
    ensures { result ≡ giver_in number key }
{
    if is_giver(key) {
        Some((number as u32, library_of(key)))
    } else {
        None
    }
}

/// The functions that give objects: the number of each in the program, and in the library.
pub fn givers(alloc: Global, functions: &[ObjectKey]) -> Result<Vec<(u32, u32)>, OutOfMemory>
    requires { length functions.now < 2 ^ 32 }
    ensures { IfOk result (λ list. list.items ≡ givers_in functions.now) }
{
    let list = functions
        .iter()
        .enumerate()
        .filter_map(|(number, key)| giver_in(number, *key))
        .collect(alloc)?;
    Ok(list)
}

// Whether a call names the library function.
fn is_named(named: Option<u32>, k: u32) -> bool
    ensures { result ≡ is_named named k }
{
    match named {
        Some(number) => number == k,
        None => false,
    }
}

// The object that a call gets from a function with those effects.
fn object_by(space: &Space, n: u32, named: Option<u32>, k: u32, effects: &[Effect]) -> Option<u32>
    ensures { result ≡ object_by (view_of space.now) n named k effects.now }
{
    match effects {
        [] => None,
        [effect, rest @ ..] => match effect {
            Effect::GivesNew => {
                if is_named(named, k) {
                    space.first(ObjectKey::Call(n))
                } else {
                    space.first(ObjectKey::Star(k))
                }
            }
            Effect::GivesObject(object) => space.first(ObjectKey::Library(u32::from(*object))),
            Effect::Nothing | Effect::GivesArgument(_) | Effect::Copies(_, _) => object_by(
                space, n, named, k, rest,
            ),
            Effect::StoresInto(_, _) | Effect::CallsBack(_, _) => object_by(
                space, n, named, k, rest,
            ),
        },
    }
}

// What a call gets from one function.
fn fresh_by(space: &Space, n: u32, named: Option<u32>, giver: (u32, u32)) -> Option<(u32, u32)>
    ensures { result ≡ fresh_by (view_of space.now) n named giver }
{
    match object_by(space, n, named, giver.1, effects(giver.1)) {
        Some(location) => Some((giver.0, location)),
        None => None,
    }
}

/// What a call gets from each function.
pub(crate) fn fresh(
    alloc: Global,
    space: &Space,
    n: u32,
    named: Option<u32>,
    givers: &[(u32, u32)],
) -> Result<Vec<(u32, u32)>, OutOfMemory>
    ensures { IfOk result (λ list. list.items ≡ fresh_in (view_of space.now) n named givers.now) }
{
    let list = givers
        .iter()
        .filter_map(|giver| fresh_by(space, n, named, *giver))
        .collect(alloc)?;
    Ok(list)
}
