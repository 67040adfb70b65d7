// What each node demands.

ghost use Rattle.std.specs.Prelude.{◌≡◌, ℕ, ◌<◌, ◌^◌, ◌++◌, OnOk, IfOk, All, Some, length, slice_get};
ghost use Rattle.c_types.specs.Table.{type_of};
ghost use Rattle.core_tree.specs.declared.node.Node.{Node};
ghost use Rattle.normal_form.specs.Assignments.{place_of_kind, value_of_kind, statement_of_kind, row_of_kind};
ghost use Rattle.normal_form.specs.Spots.{KindSpotted};
ghost use Rattle.row_numbers.specs.Frame.{IsFrame, IsNodeIn, setting_in};

use crate::initial::initialised;
use crate::normal::Assignment;
use crate::rows::{
    assigned, chosen, converted, fetched, further, in_sequence, member, member_of_value, moved,
    named, next_arg, passed, passed_further, returned, text, upcast, updated,
};
use c_types::term::TypeId;
use core_tree::NodeKind;
use pta_base::{Listing, OutOfMemory};
use row_numbers::frame::Frame;
use std::alloc::Global;

// What a place demands.
fn place(
    frame: &Frame<'_>,
    n: u32,
    kind: &NodeKind,
    children: &[u32],
    out: &mut Listing<Assignment>,
) -> Result<(), OutOfMemory>
    requires frame { IsFrame frame.now }
    requires node { n < length frame.now.program.now.nodes.items }
    requires children { All (IsNodeIn frame.now) children.now }
    ensures { OnOk result (out.new ≡ out.old ++ place_of_kind (setting_in frame.now) n kind.now children.now) }
{
    match kind {
        NodeKind::Named(e) | NodeKind::Literal(e) | NodeKind::FunctionName(e) => named(
            frame, n, *e, out,
        ),
        NodeKind::Text(_) => text(frame, n, out),
        NodeKind::Deref => passed(frame, n, children, out),
        NodeKind::Member(k) => member(frame, n, *k, children, out),
        _ => Ok(()),
    }
}

// What a value demands.
fn value(
    alloc: Global,
    frame: &Frame<'_>,
    n: u32,
    kind: &NodeKind,
    ty: TypeId,
    children: &[u32],
    out: &mut Listing<Assignment>,
) -> Result<(), OutOfMemory>
    requires frame { IsFrame frame.now }
    requires node { n < length frame.now.program.now.nodes.items }
    requires named { (node : Node) × (slice_get frame.now.program.now.nodes.items n ≡ Some node) × (node.kind ≡ kind.now) }
    requires ty { ty.0 < length frame.now.program.now.types.terms }
    requires children { All (IsNodeIn frame.now) children.now }
    ensures { OnOk result
        (out.new
        ≡ out.old ++ value_of_kind (setting_in frame.now) n kind.now (type_of frame.now.program.now.types ty.0) children.now) }
{
    match kind {
        NodeKind::Fetch => fetched(alloc, frame, n, ty, children, out),
        NodeKind::AddressOf | NodeKind::Decay => passed(frame, n, children, out),
        NodeKind::PointerAdd { .. } => moved(frame, n, children, out),
        NodeKind::Convert => converted(frame, n, ty, children, out),
        NodeKind::Upcast => upcast(frame, n, children, out),
        NodeKind::Assign => assigned(alloc, frame, n, ty, children, out),
        NodeKind::Update { .. } => updated(alloc, frame, n, ty, children, out),
        NodeKind::Choose => chosen(alloc, frame, n, ty, children, out),
        NodeKind::Sequence => in_sequence(alloc, frame, n, ty, children, out),
        NodeKind::MemberOfValue(k) => member_of_value(alloc, frame, n, *k, ty, children, out),
        NodeKind::CallNode => passed_further(alloc, frame, n, children, out),
        NodeKind::VarArgs(e) => further(frame, n, *e, out),
        NodeKind::NextArg => next_arg(alloc, frame, n, ty, children, out),
        _ => Ok(()),
    }
}

// What a statement demands.
fn statement(
    alloc: Global,
    frame: &Frame<'_>,
    n: u32,
    kind: &NodeKind,
    children: &[u32],
    out: &mut Listing<Assignment>,
) -> Result<(), OutOfMemory>
    requires frame { IsFrame frame.now }
    requires node { n < length frame.now.program.now.nodes.items }
    requires children { All (IsNodeIn frame.now) children.now }
    requires spotted { KindSpotted (setting_in frame.now).trees (setting_in frame.now).space kind.now children.now }
    ensures { OnOk result (out.new ≡ out.old ++ statement_of_kind (setting_in frame.now) n kind.now children.now) }
{
    match kind {
        NodeKind::Return => returned(alloc, frame, n, children, out),
        NodeKind::Initialise { entity, paths } => initialised(
            alloc,
            frame,
            *entity,
            paths.as_slice(),
            children,
            out,
        ),
        _ => Ok(()),
    }
}

/// What a node demands.
pub(crate) fn demanded(
    alloc: Global,
    frame: &Frame<'_>,
    n: u32,
    kind: &NodeKind,
    ty: TypeId,
    children: &[u32],
    out: &mut Listing<Assignment>,
) -> Result<(), OutOfMemory>
    requires frame { IsFrame frame.now }
    requires node { n < length frame.now.program.now.nodes.items }
    requires named { (node : Node) × (slice_get frame.now.program.now.nodes.items n ≡ Some node) × (node.kind ≡ kind.now) }
    requires ty { ty.0 < length frame.now.program.now.types.terms }
    requires children { All (IsNodeIn frame.now) children.now }
    requires spotted { KindSpotted (setting_in frame.now).trees (setting_in frame.now).space kind.now children.now }
    ensures { OnOk result
        (out.new
        ≡ out.old ++ row_of_kind (setting_in frame.now) n kind.now (type_of frame.now.program.now.types ty.0) children.now) }
{
    place(frame, n, kind, children, out)?;
    value(alloc, frame, n, kind, ty, children, out)?;
    statement(alloc, frame, n, kind, children, out)
}
