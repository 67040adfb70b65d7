// What each kind of node demands.

ghost use Rattle.std.specs.Prelude.{◌≡◌, ℕ, ◌+◌, ◌<◌, ◌≤◌, ◌^◌, ◌++◌, ◌∷◌, [], Some, OnOk, All, length, slice_get};
ghost use Rattle.c_types.specs.Table.{type_of};
ghost use Rattle.core_tree.specs.declared.node.Node.{Node};
ghost use Rattle.core_tree.specs.declared.node.NodeKind.{NodeKind};
ghost use Rattle.std.specs.List.{flat_map};
ghost use Rattle.row_numbers.specs.Numbers.{type_number};
ghost use Rattle.row_numbers.specs.Kept.{nodes_of};
ghost use Rattle.normal_form.specs.Each.{made_for, IsSmall};
ghost use Rattle.row_numbers.specs.Setting.{Setting};
ghost use Rattle.normal_form.specs.Assignments.{is_pointer, pointed, named_row, text_row, passed_row, moved_row};
ghost use Rattle.normal_form.specs.Assignments.{convert_row, member_row, upcast_row, fetch_row, update_row, assign_row};
ghost use Rattle.normal_form.specs.Assignments.{choose_row, sequence_row, member_of_value_row, is_union_type, part_first};
ghost use Rattle.normal_form.specs.Assignments.{returned_by, return_row, varargs_row, next_arg_row, gathered_row};
ghost use Rattle.normal_form.specs.Assignments.{call_row};
ghost use Rattle.row_numbers.specs.Frame.{IsFrame, IsNodeIn, setting_in};

use crate::each::{Each, push_each};
use crate::normal::Assignment;
use c_types::key::ObjectKey;
use c_types::table::TypeTable;
use c_types::term::{Class, Term, TypeId};
use call_sites::calls::variadic_count;
use pta_base::{Listing, OutOfMemory};
use row_numbers::frame::{Frame, type_at};
use row_numbers::kept::{kept_before, kept_nodes};
use row_numbers::numbering::{key_id, result_id};
use row_numbers::numbers::type_number;
use row_numbers::objects::location_of;
use std::alloc::Global;

// One assignment more.
fn push_one(assignment: Assignment, out: &mut Listing<Assignment>) -> Result<(), OutOfMemory>
    ensures { OnOk result (out.new ≡ out.old ++ assignment ∷ []) }
{
    out.push(assignment)?;
    Ok(())
}

/// An assignment for each kept node of a type.
pub(crate) fn push_kept(
    alloc: Global,
    types: &TypeTable,
    ty: TypeId,
    each: Each,
    out: &mut Listing<Assignment>,
) -> Result<(), OutOfMemory>
    requires ty { ty.0 < length types.now.terms }
    requires small { IsSmall each }
    ensures { OnOk result (out.new ≡ out.old ++ made_for each (nodes_of types.now (type_of types.now ty.0))) }
{
    let kept = kept_nodes(alloc, types, ty)?;
    push_each(kept.as_slice(), each, out)?;
    Ok(())
}

/// A name (C11 6.5.1p2), or a compound literal (6.5.2.5).
pub(crate) fn named(
    frame: &Frame<'_>,
    n: u32,
    e: u32,
    out: &mut Listing<Assignment>,
) -> Result<(), OutOfMemory>
    requires frame { IsFrame frame.now }
    requires node { n < length frame.now.program.now.nodes.items }
    ensures { OnOk result (out.new ≡ out.old ++ named_row (setting_in frame.now) n e) }
{
    push_one(
        Assignment::Address {
            to: frame.row(n),
            location: location_of(frame.program, frame.space, e),
        },
        out,
    )
}

/// A string literal (C11 6.4.5, 6.5.1p4).
pub(crate) fn text(
    frame: &Frame<'_>,
    n: u32,
    out: &mut Listing<Assignment>,
) -> Result<(), OutOfMemory>
    requires frame { IsFrame frame.now }
    requires node { n < length frame.now.program.now.nodes.items }
    ensures { OnOk result (out.new ≡ out.old ++ text_row (setting_in frame.now) n) }
{
    push_one(
        Assignment::Address {
            to: frame.row(n),
            location: frame.space.first(ObjectKey::Text(n)).unwrap_or(0),
        },
        out,
    )
}

/// The list of what a function is passed past its parameters (C11 7.16.1.4).
pub(crate) fn further(
    frame: &Frame<'_>,
    n: u32,
    e: u32,
    out: &mut Listing<Assignment>,
) -> Result<(), OutOfMemory>
    requires frame { IsFrame frame.now }
    requires node { n < length frame.now.program.now.nodes.items }
    ensures { OnOk result (out.new ≡ out.old ++ varargs_row (setting_in frame.now) n e) }
{
    push_one(
        Assignment::Address {
            to: frame.row(n),
            location: frame.space.first(ObjectKey::Varargs(e)).unwrap_or(0),
        },
        out,
    )
}

// What a list may be, and what the next argument of it is.
fn next_of(
    alloc: Global,
    frame: &Frame<'_>,
    n: u32,
    ty: TypeId,
    p: u32,
    out: &mut Listing<Assignment>,
) -> Result<(), OutOfMemory>
    requires frame { IsFrame frame.now }
    requires takes { (node : Node) × (slice_get frame.now.program.now.nodes.items n ≡ Some node) × (node.kind ≡ NodeKind.NextArg) }
    requires ty { ty.0 < length frame.now.program.now.types.terms }
    requires place { p < length frame.now.program.now.nodes.items }
    ensures { OnOk result (out.new
        ≡ out.old ++ next_arg_row (setting_in frame.now) n (type_of frame.now.program.now.types ty.0) (p ∷ [])) }
{
    let list = frame.list_row(n);
    push_one(
        Assignment::Load {
            to: list,
            pointer: frame.row(p),
            ty: 7,
            sub: 0,
        },
        out,
    )?;
    let each = Each::Loads {
        to: frame.row(n),
        pointer: list,
        ty: type_number(&frame.program.types, ty),
    };
    push_kept(alloc, &frame.program.types, ty, each, out)
}

/// The next argument of a list (C11 7.16.1.1).
pub(crate) fn next_arg(
    alloc: Global,
    frame: &Frame<'_>,
    n: u32,
    ty: TypeId,
    children: &[u32],
    out: &mut Listing<Assignment>,
) -> Result<(), OutOfMemory>
    requires frame { IsFrame frame.now }
    requires takes { (node : Node) × (slice_get frame.now.program.now.nodes.items n ≡ Some node) × (node.kind ≡ NodeKind.NextArg) }
    requires ty { ty.0 < length frame.now.program.now.types.terms }
    requires children { All (IsNodeIn frame.now) children.now }
    ensures { OnOk result (out.new
        ≡ out.old ++ next_arg_row (setting_in frame.now) n (type_of frame.now.program.now.types ty.0) children.now) }
{
    match children {
        [p] => next_of(alloc, frame, n, ty, *p, out),
        _ => Ok(()),
    }
}

// All rows of an argument go into one.
fn gathered(
    alloc: Global,
    frame: &Frame<'_>,
    n: u32,
    v: u32,
    out: &mut Listing<Assignment>,
) -> Result<(), OutOfMemory>
    requires frame { IsFrame frame.now }
    requires node { n < length frame.now.program.now.nodes.items }
    requires value { v < length frame.now.program.now.nodes.items }
    ensures { OnOk result (out.new ≡ out.old ++ gathered_row (setting_in frame.now) n v) }
{
    let each = Each::Gathers {
        location: frame.rest_row(n),
        from: frame.row(v),
    };
    push_kept(alloc, &frame.program.types, type_at(frame, v), each, out)
}

// All rows of these arguments go into one.
fn gathered_all(
    alloc: Global,
    frame: &Frame<'_>,
    n: u32,
    values: &[u32],
    out: &mut Listing<Assignment>,
) -> Result<(), OutOfMemory>
    requires frame { IsFrame frame.now }
    requires node { n < length frame.now.program.now.nodes.items }
    requires values { All (IsNodeIn frame.now) values.now }
    ensures { OnOk result (out.new ≡ out.old ++ flat_map (gathered_row (setting_in frame.now) n) values.now) }
{
    for v in values {
        gathered(alloc, frame, n, *v, out)?;
    }
    Ok(())
}

/// A call of a variadic function (C11 6.5.2.2p7): what is passed past the parameters is in one row.
pub(crate) fn passed_further(
    alloc: Global,
    frame: &Frame<'_>,
    n: u32,
    children: &[u32],
    out: &mut Listing<Assignment>,
) -> Result<(), OutOfMemory>
    requires frame { IsFrame frame.now }
    requires node { n < length frame.now.program.now.nodes.items }
    requires children { All (IsNodeIn frame.now) children.now }
    ensures { OnOk result (out.new ≡ out.old ++ call_row (setting_in frame.now) n children.now) }
{
    match children {
        [callee, arguments @ ..] => {
            match variadic_count(&frame.program.types, type_at(frame, *callee)) {
                Some(count) => {
                    let more = &arguments[count.min(arguments.len())..];
                    gathered_all(alloc, frame, n, more, out)
                }
                None => Ok(()),
            }
        }
        [] => Ok(()),
    }
}

// A node that has what another one has.
fn copied(
    frame: &Frame<'_>,
    n: u32,
    v: u32,
    out: &mut Listing<Assignment>,
) -> Result<(), OutOfMemory>
    requires frame { IsFrame frame.now }
    requires node { n < length frame.now.program.now.nodes.items }
    requires value { v < length frame.now.program.now.nodes.items }
    ensures { OnOk result (out.new ≡ out.old ++ passed_row (setting_in frame.now) n (v ∷ [])) }
{
    push_one(
        Assignment::Copy {
            to: frame.row(n),
            from: frame.row(v),
        },
        out,
    )
}

/// What is pointed to and an address (C11 6.5.3.2), and a place that decays (6.3.2.1p3, p4).
pub(crate) fn passed(
    frame: &Frame<'_>,
    n: u32,
    children: &[u32],
    out: &mut Listing<Assignment>,
) -> Result<(), OutOfMemory>
    requires frame { IsFrame frame.now }
    requires node { n < length frame.now.program.now.nodes.items }
    requires children { All (IsNodeIn frame.now) children.now }
    ensures { OnOk result (out.new ≡ out.old ++ passed_row (setting_in frame.now) n children.now) }
{
    match children {
        [v] => copied(frame, n, *v, out),
        _ => Ok(()),
    }
}

/// A pointer that is moved (C11 6.5.6p8).
pub(crate) fn moved(
    frame: &Frame<'_>,
    n: u32,
    children: &[u32],
    out: &mut Listing<Assignment>,
) -> Result<(), OutOfMemory>
    requires frame { IsFrame frame.now }
    requires node { n < length frame.now.program.now.nodes.items }
    requires children { All (IsNodeIn frame.now) children.now }
    ensures { OnOk result (out.new ≡ out.old ++ moved_row (setting_in frame.now) n children.now) }
{
    match children {
        [v, _] => copied(frame, n, *v, out),
        _ => Ok(()),
    }
}

// Whether a type is a pointer.
fn is_pointer(types: &TypeTable, id: TypeId) -> bool
    requires { id.0 < length types.now.terms }
    ensures { result ≡ is_pointer (type_of types.now id.0) }
{
    match types.class_of(id) {
        Class::Pointer => true,
        Class::Integer(_) | Class::Structure | Class::Union | Class::Array => false,
        Class::Function | Class::Floating | Class::VaList | Class::Void => false,
    }
}

/// A conversion (C11 6.3.2.3): only one of a pointer to a pointer demands something.
pub(crate) fn converted(
    frame: &Frame<'_>,
    n: u32,
    ty: TypeId,
    children: &[u32],
    out: &mut Listing<Assignment>,
) -> Result<(), OutOfMemory>
    requires frame { IsFrame frame.now }
    requires node { n < length frame.now.program.now.nodes.items }
    requires ty { ty.0 < length frame.now.program.now.types.terms }
    requires children { All (IsNodeIn frame.now) children.now }
    ensures { OnOk result
        (out.new ≡ out.old ++ convert_row (setting_in frame.now) n (type_of frame.now.program.now.types ty.0) children.now) }
{
    match children {
        [v] => {
            let types = &frame.program.types;
            if is_pointer(types, ty) && is_pointer(types, type_at(frame, *v)) {
                copied(frame, n, *v, out)
            } else {
                Ok(())
            }
        }
        _ => Ok(()),
    }
}

/// A member of a place (C11 6.5.2.3).
pub(crate) fn member(
    frame: &Frame<'_>,
    n: u32,
    member: u32,
    children: &[u32],
    out: &mut Listing<Assignment>,
) -> Result<(), OutOfMemory>
    requires frame { IsFrame frame.now }
    requires node { n < length frame.now.program.now.nodes.items }
    requires children { All (IsNodeIn frame.now) children.now }
    ensures { OnOk result (out.new ≡ out.old ++ member_row (setting_in frame.now) n member children.now) }
{
    match children {
        [p] => push_one(
            Assignment::Field {
                to: frame.row(n),
                from: frame.row(*p),
                ty: type_number(&frame.program.types, type_at(frame, *p)),
                member,
            },
            out,
        ),
        _ => Ok(()),
    }
}

// The number of the type that a pointer points to.
fn pointed_number(types: &TypeTable, id: TypeId) -> u32
    requires id { id.0 < length types.now.terms }
    requires tags { types.now.tags + 8 < 2 ^ 32 }
    ensures { result ≡ type_number (pointed (type_of types.now id.0)) }
{
    match types.term(id) {
        Term::Pointer(to) => type_number(types, *to),
        Term::Void | Term::Bool | Term::Integer { .. } | Term::Floating | Term::VaList => 5,
        Term::Array { .. } | Term::Function { .. } | Term::Structure(_) | Term::Union(_) => 5,
    }
}

/// A pointer to a structure as one to its first member (C11 6.7.2.1p15).
pub(crate) fn upcast(
    frame: &Frame<'_>,
    n: u32,
    children: &[u32],
    out: &mut Listing<Assignment>,
) -> Result<(), OutOfMemory>
    requires frame { IsFrame frame.now }
    requires node { n < length frame.now.program.now.nodes.items }
    requires children { All (IsNodeIn frame.now) children.now }
    ensures { OnOk result (out.new ≡ out.old ++ upcast_row (setting_in frame.now) n children.now) }
{
    match children {
        [v] => push_one(
            Assignment::Field {
                to: frame.row(n),
                from: frame.row(*v),
                ty: pointed_number(&frame.program.types, type_at(frame, *v)),
                member: 0,
            },
            out,
        ),
        _ => Ok(()),
    }
}

// The value of a place.
fn loaded(
    alloc: Global,
    frame: &Frame<'_>,
    n: u32,
    ty: TypeId,
    p: u32,
    out: &mut Listing<Assignment>,
) -> Result<(), OutOfMemory>
    requires frame { IsFrame frame.now }
    requires node { n < length frame.now.program.now.nodes.items }
    requires ty { ty.0 < length frame.now.program.now.types.terms }
    requires place { p < length frame.now.program.now.nodes.items }
    ensures { OnOk result (out.new ≡ out.old ++ fetch_row (setting_in frame.now) n (type_of frame.now.program.now.types ty.0) (p ∷ [])) }
{
    let types = &frame.program.types;
    let each = Each::Loads {
        to: frame.row(n),
        pointer: frame.row(p),
        ty: type_number(types, ty),
    };
    push_kept(alloc, types, ty, each, out)
}

/// A place that is read (C11 6.3.2.1p2).
pub(crate) fn fetched(
    alloc: Global,
    frame: &Frame<'_>,
    n: u32,
    ty: TypeId,
    children: &[u32],
    out: &mut Listing<Assignment>,
) -> Result<(), OutOfMemory>
    requires frame { IsFrame frame.now }
    requires node { n < length frame.now.program.now.nodes.items }
    requires ty { ty.0 < length frame.now.program.now.types.terms }
    requires children { All (IsNodeIn frame.now) children.now }
    ensures { OnOk result
        (out.new ≡ out.old ++ fetch_row (setting_in frame.now) n (type_of frame.now.program.now.types ty.0) children.now) }
{
    match children {
        [p] => loaded(alloc, frame, n, ty, *p, out),
        _ => Ok(()),
    }
}

/// A place that is read and written (C11 6.5.2.4, 6.5.3.1, 6.5.16.2).
pub(crate) fn updated(
    alloc: Global,
    frame: &Frame<'_>,
    n: u32,
    ty: TypeId,
    children: &[u32],
    out: &mut Listing<Assignment>,
) -> Result<(), OutOfMemory>
    requires frame { IsFrame frame.now }
    requires node { n < length frame.now.program.now.nodes.items }
    requires ty { ty.0 < length frame.now.program.now.types.terms }
    requires children { All (IsNodeIn frame.now) children.now }
    ensures { OnOk result
        (out.new ≡ out.old ++ update_row (setting_in frame.now) n (type_of frame.now.program.now.types ty.0) children.now) }
{
    match children {
        [p, _] => loaded(alloc, frame, n, ty, *p, out),
        _ => Ok(()),
    }
}

// A value of a type that has what another one of it has.
fn taken(
    alloc: Global,
    frame: &Frame<'_>,
    n: u32,
    ty: TypeId,
    v: u32,
    out: &mut Listing<Assignment>,
) -> Result<(), OutOfMemory>
    requires frame { IsFrame frame.now }
    requires node { n < length frame.now.program.now.nodes.items }
    requires ty { ty.0 < length frame.now.program.now.types.terms }
    requires value { v < length frame.now.program.now.nodes.items }
    ensures { OnOk result
        (out.new ≡ out.old ++ sequence_row (setting_in frame.now) n (type_of frame.now.program.now.types ty.0) (v ∷ v ∷ [])) }
{
    let each = Each::Copies {
        to: frame.row(n),
        from: frame.row(v),
    };
    push_kept(alloc, &frame.program.types, ty, each, out)
}

/// An assignment (C11 6.5.16.1): its place gets the value, and it is the value.
pub(crate) fn assigned(
    alloc: Global,
    frame: &Frame<'_>,
    n: u32,
    ty: TypeId,
    children: &[u32],
    out: &mut Listing<Assignment>,
) -> Result<(), OutOfMemory>
    requires frame { IsFrame frame.now }
    requires node { n < length frame.now.program.now.nodes.items }
    requires ty { ty.0 < length frame.now.program.now.types.terms }
    requires children { All (IsNodeIn frame.now) children.now }
    ensures { OnOk result
        (out.new ≡ out.old ++ assign_row (setting_in frame.now) n (type_of frame.now.program.now.types ty.0) children.now) }
{
    match children {
        [p, v] => {
            let types = &frame.program.types;
            let pointer = frame.row(*p);
            let value = frame.row(*v);
            let each = Each::Stores {
                pointer,
                from: value,
                ty: type_number(types, ty),
            };
            push_kept(alloc, types, ty, each, out)?;
            taken(alloc, frame, n, ty, *v, out)
        }
        _ => Ok(()),
    }
}

/// One value of two (C11 6.5.15).
pub(crate) fn chosen(
    alloc: Global,
    frame: &Frame<'_>,
    n: u32,
    ty: TypeId,
    children: &[u32],
    out: &mut Listing<Assignment>,
) -> Result<(), OutOfMemory>
    requires frame { IsFrame frame.now }
    requires node { n < length frame.now.program.now.nodes.items }
    requires ty { ty.0 < length frame.now.program.now.types.terms }
    requires children { All (IsNodeIn frame.now) children.now }
    ensures { OnOk result
        (out.new ≡ out.old ++ choose_row (setting_in frame.now) n (type_of frame.now.program.now.types ty.0) children.now) }
{
    match children {
        [_, a, b] => {
            taken(alloc, frame, n, ty, *a, out)?;
            taken(alloc, frame, n, ty, *b, out)
        }
        _ => Ok(()),
    }
}

/// The second value of two (C11 6.5.17).
pub(crate) fn in_sequence(
    alloc: Global,
    frame: &Frame<'_>,
    n: u32,
    ty: TypeId,
    children: &[u32],
    out: &mut Listing<Assignment>,
) -> Result<(), OutOfMemory>
    requires frame { IsFrame frame.now }
    requires node { n < length frame.now.program.now.nodes.items }
    requires ty { ty.0 < length frame.now.program.now.types.terms }
    requires children { All (IsNodeIn frame.now) children.now }
    ensures { OnOk result
        (out.new ≡ out.old ++ sequence_row (setting_in frame.now) n (type_of frame.now.program.now.types ty.0) children.now) }
{
    match children {
        [_, b] => taken(alloc, frame, n, ty, *b, out),
        _ => Ok(()),
    }
}

/// Whether a type is a union.
pub(crate) fn is_union(types: &TypeTable, id: TypeId) -> bool
    requires { id.0 < length types.now.terms }
    ensures { result ≡ is_union_type (type_of types.now id.0) }
{
    match types.class_of(id) {
        Class::Union => true,
        Class::Integer(_) | Class::Structure | Class::Pointer | Class::Array => false,
        Class::Function | Class::Floating | Class::VaList | Class::Void => false,
    }
}

// A member of a value: where the rows of its nodes begin.
fn part_first(types: &TypeTable, whole: TypeId, first: u32, member: u32) -> u32
    requires whole { whole.0 < length types.now.terms }
    requires first { first ≤ 2 ^ 24 }
    ensures value { result ≡ part_first types.now (type_of types.now whole.0) first member }
    ensures small { result ≤ 2 ^ 25 }
{
    let position = types.field_node(whole, member).unwrap_or(0);
    first + kept_before(types, whole, position)
}

/// A member of a value (C11 6.5.2.3p3).
pub(crate) fn member_of_value(
    alloc: Global,
    frame: &Frame<'_>,
    n: u32,
    member: u32,
    ty: TypeId,
    children: &[u32],
    out: &mut Listing<Assignment>,
) -> Result<(), OutOfMemory>
    requires frame { IsFrame frame.now }
    requires node { n < length frame.now.program.now.nodes.items }
    requires ty { ty.0 < length frame.now.program.now.types.terms }
    requires children { All (IsNodeIn frame.now) children.now }
    ensures { OnOk result
        (out.new
        ≡ out.old
        ++ member_of_value_row (setting_in frame.now) n member (type_of frame.now.program.now.types ty.0) children.now) }
{
    match children {
        [v] => {
            let types = &frame.program.types;
            let whole = type_at(frame, *v);
            let to = frame.row(n);
            let from = frame.row(*v);
            let each = if is_union(types, whole) {
                Each::Spreads { to, from }
            } else {
                Each::Copies {
                    to,
                    from: part_first(types, whole, from, member),
                }
            };
            push_kept(alloc, types, ty, each, out)
        }
        _ => Ok(()),
    }
}

// The result of a function has a value.
fn returned_by(
    alloc: Global,
    frame: &Frame<'_>,
    f: u32,
    v: u32,
    out: &mut Listing<Assignment>,
) -> Result<(), OutOfMemory>
    requires frame { IsFrame frame.now }
    requires value { v < length frame.now.program.now.nodes.items }
    ensures { OnOk result (out.new ≡ out.old ++ returned_by (setting_in frame.now) (Some (Some f)) v) }
{
    let types = &frame.program.types;
    let Some(given) = result_id(types, key_id(frame.program, ObjectKey::Entity(f))) else {
        return Ok(());
    };
    let each = Each::Copies {
        to: frame.result_row(frame.number_of(f)),
        from: frame.row(v),
    };
    push_kept(alloc, types, given, each, out)
}

/// A return (C11 6.8.6.4p3).
pub(crate) fn returned(
    alloc: Global,
    frame: &Frame<'_>,
    n: u32,
    children: &[u32],
    out: &mut Listing<Assignment>,
) -> Result<(), OutOfMemory>
    requires frame { IsFrame frame.now }
    requires node { n < length frame.now.program.now.nodes.items }
    requires children { All (IsNodeIn frame.now) children.now }
    ensures { OnOk result (out.new ≡ out.old ++ return_row (setting_in frame.now) n children.now) }
{
    match children {
        [v] => match frame.owner_at(n) {
            Some(f) => returned_by(alloc, frame, f, *v, out),
            None => Ok(()),
        },
        _ => Ok(()),
    }
}
