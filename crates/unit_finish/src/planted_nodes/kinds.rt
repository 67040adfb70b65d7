// Copies of what nodes are.
#![tactic(auto)]

ghost use Rattle.std.specs.Prelude.{◌≡◌, IfOk};
ghost use Rattle.unit_finish.specs.planted_nodes.Kinds.{IsBare, IsPlain};

use c_types::term::PathStep;
use core_tree::held::{HeldList, HeldText, Number};
use core_tree::node::NodeKind;
use pta_base::{Listing, Text};
use std::alloc::{AllocError, Global};

// A copy of some numbers.
fn copied_numbers(alloc: Global, numbers: &[u32]) -> Result<HeldList<u32>, AllocError>
    ensures { IfOk result (λ copy. copy ≡ numbers.now) }
{
    let mut copy = Vec::new(alloc);
    for number in numbers {
        copy.push(*number)?;
    }
    HeldList::of(alloc, copy)
}

// A copy of some bytes.
fn copied_bytes(alloc: Global, bytes: &[u8]) -> Result<HeldList<u8>, AllocError>
    ensures { IfOk result (λ copy. copy ≡ bytes.now) }
{
    let mut copy = Vec::new(alloc);
    for byte in bytes {
        copy.push(*byte)?;
    }
    HeldList::of(alloc, copy)
}

// A copy of a path.
fn copied_path(alloc: Global, path: &[PathStep]) -> Result<Listing<PathStep>, AllocError>
    ensures { IfOk result (λ copy. copy ≡ path.now) }
{
    let mut copy = Listing::new(alloc);
    for step in path {
        copy.push(*step)?;
    }
    Ok(copy)
}

// A copy of some paths.
fn copied_paths(
    alloc: Global,
    paths: &[Listing<PathStep>],
) -> Result<HeldList<Listing<PathStep>>, AllocError>
    ensures { IfOk result (λ copy. copy ≡ paths.now) }
{
    let mut copy = Vec::new(alloc);
    for path in paths {
        copy.push(copied_path(alloc, path.as_slice())?)?;
    }
    HeldList::of(alloc, copy)
}

// A copy of a text.
fn copied_text(alloc: Global, text: &str) -> Result<HeldText, AllocError>
    ensures { IfOk result (λ copy. copy ≡ text.now) }
{
    HeldText::of(alloc, Text::copy_of(alloc, text)?)
}

// A copy of what a node is that holds nothing.
fn bare(kind: &NodeKind) -> NodeKind
    ensures { IsBare kind.now → result ≡ kind.now }
{
    match kind {
        NodeKind::Deref => NodeKind::Deref,
        NodeKind::NullValue => NodeKind::NullValue,
        NodeKind::Fetch => NodeKind::Fetch,
        NodeKind::AddressOf => NodeKind::AddressOf,
        NodeKind::Decay => NodeKind::Decay,
        NodeKind::Convert => NodeKind::Convert,
        NodeKind::Upcast => NodeKind::Upcast,
        NodeKind::Assign => NodeKind::Assign,
        NodeKind::Choose => NodeKind::Choose,
        NodeKind::Sequence => NodeKind::Sequence,
        NodeKind::CallNode => NodeKind::CallNode,
        NodeKind::Expression => NodeKind::Expression,
        NodeKind::If => NodeKind::If,
        NodeKind::While => NodeKind::While,
        NodeKind::DoWhile => NodeKind::DoWhile,
        NodeKind::Switch => NodeKind::Switch,
        NodeKind::Default => NodeKind::Default,
        NodeKind::Break => NodeKind::Break,
        NodeKind::Continue => NodeKind::Continue,
        NodeKind::Return => NodeKind::Return,
        NodeKind::NextArg => NodeKind::NextArg,
        _ => NodeKind::Skip,
    }
}

// A copy of what a node is that holds no list.
fn plain(kind: &NodeKind) -> NodeKind
    ensures { IsPlain kind.now → result ≡ kind.now }
{
    match kind {
        NodeKind::Named(entity) => NodeKind::Named(*entity),
        NodeKind::Literal(entity) => NodeKind::Literal(*entity),
        NodeKind::FunctionName(entity) => NodeKind::FunctionName(*entity),
        NodeKind::VarArgs(entity) => NodeKind::VarArgs(*entity),
        NodeKind::Member(member) => NodeKind::Member(*member),
        NodeKind::MemberOfValue(member) => NodeKind::MemberOfValue(*member),
        NodeKind::Number(number) => NodeKind::Number(Number::of(number.get())),
        NodeKind::Case(number) => NodeKind::Case(Number::of(number.get())),
        NodeKind::Arith(op) => NodeKind::Arith(*op),
        NodeKind::PointerAdd { minus } => NodeKind::PointerAdd { minus: *minus },
        NodeKind::Update { op, post } => NodeKind::Update {
            op: *op,
            post: *post,
        },
        other => bare(other),
    }
}

/// A copy of what a node is.
pub(in crate::planted_nodes) fn copied_kind(
    alloc: Global,
    kind: &NodeKind,
) -> Result<NodeKind, AllocError>
    ensures { IfOk result (λ copy. copy ≡ kind.now) }
{
    match kind {
        NodeKind::Text(bytes) => Ok(NodeKind::Text(copied_bytes(alloc, bytes.as_slice())?)),
        NodeKind::Block(entities) => Ok(NodeKind::Block(copied_numbers(
            alloc,
            entities.as_slice(),
        )?)),
        NodeKind::For {
            entities,
            condition,
            after,
        } => Ok(NodeKind::For {
            entities: copied_numbers(alloc, entities.as_slice())?,
            condition: *condition,
            after: *after,
        }),
        NodeKind::Label(name) => Ok(NodeKind::Label(copied_text(alloc, name.as_str())?)),
        NodeKind::Goto(name) => Ok(NodeKind::Goto(copied_text(alloc, name.as_str())?)),
        NodeKind::Initialise { entity, paths } => Ok(NodeKind::Initialise {
            entity: *entity,
            paths: copied_paths(alloc, paths.as_slice())?,
        }),
        other => Ok(plain(other)),
    }
}
