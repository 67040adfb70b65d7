// Core nodes as trees: `eq:i(a:i 1:i)` compares. A type stands where the nodes below don't decide it, and a column where it is asked for.

use crate::page::Page;
use crate::types::write_type;
use c_types::term::PathStep;
use core_tree::node::{Node, NodeKind, Op, Unit};
use std::alloc::Global;

// How many pieces the text of a tree may have.
const PIECES: usize = 10_000;

// What is left to be written of a tree.
#[derive(Clone, Copy)]
enum Piece<'a> {
    Words(&'static str),
    Path(&'a [PathStep]),
    Node(u32),
}

/// A unit whose nodes are written, with or without their columns.
#[derive(Clone, Copy)]
pub(crate) struct Shown<'a> {
    pub(crate) alloc: Global,
    pub(crate) unit: &'a Unit,
    pub(crate) placed: bool,
}

// The name of an operator.
fn op_name(op: Op) -> &'static str {
    match op {
        Op::Multiply => "mul",
        Op::Divide => "div",
        Op::Remainder => "rem",
        Op::Plus => "plus",
        Op::Minus => "minus",
        Op::ShiftLeft => "shl",
        Op::ShiftRight => "shr",
        Op::Less => "lt",
        Op::Greater => "gt",
        Op::LessEqual => "le",
        Op::GreaterEqual => "ge",
        Op::Equal => "eq",
        Op::NotEqual => "ne",
        Op::And => "and",
        Op::Xor => "xor",
        Op::Or => "or",
        Op::Complement => "compl",
        Op::Not => "not",
    }
}

// Whether another entity has the name of one.
fn is_shared(unit: &Unit, entity: u32) -> bool {
    let Some(this) = unit.entities.get(entity as usize) else {
        return false;
    };
    for (other, that) in unit.entities.iter().enumerate() {
        if other != entity as usize && that.name.as_str() == this.name.as_str() {
            return true;
        }
    }
    false
}

/// Adds an entity by its name, and by its column too where another one has the name.
pub(crate) fn write_entity(shown: Shown<'_>, out: &mut Page, entity: u32) {
    let Some(this) = shown.unit.entities.get(entity as usize) else {
        out.lacks = true;
        return;
    };
    out.say(this.name.as_str());
    if is_shared(shown.unit, entity) {
        out.say("#");
        out.number(i128::from(this.place.column));
    }
}

// Entities within brackets.
fn write_entities(shown: Shown<'_>, out: &mut Page, entities: &[u32]) {
    out.say("[");
    for (at, entity) in entities.iter().enumerate() {
        out.say(if at > 0 { "," } else { "" });
        write_entity(shown, out, *entity);
    }
    out.say("]");
}

// One byte of a string literal.
fn write_byte(out: &mut Page, byte: u8) {
    if out.text.push(byte as char).is_err() {
        out.lacks = true;
    }
}

// The bytes of a string literal.
fn write_bytes(out: &mut Page, bytes: &[u8]) {
    out.say("'");
    for byte in bytes {
        write_byte(out, *byte);
    }
    out.say("'");
}

// A step from an object to a part of it.
fn write_step(out: &mut Page, step: PathStep) {
    match step {
        PathStep::Index(index) => {
            out.say("[");
            out.number(i128::from(index));
            out.say("]");
        }
        PathStep::Member(member) => {
            out.say(".");
            out.number(i128::from(member));
        }
    }
}

// A path from an object to a part of it.
fn write_path(out: &mut Page, path: &[PathStep]) {
    for step in path {
        write_step(out, *step);
    }
    out.say("=");
}

// An update by its operator, and by whether it gives the old value.
fn write_update(out: &mut Page, op: Op, post: bool) {
    out.say(if post { "post " } else { "update " });
    out.say(op_name(op));
}

// A `for` with its entities, and with letters for its condition and for what is done after its body.
fn write_for(shown: Shown<'_>, out: &mut Page, entities: &[u32], condition: bool, after: bool) {
    write_entities(shown, out, entities);
    out.say(if condition { "c" } else { "" });
    out.say(if after { "a" } else { "" });
}

// The word of a node.
fn word_of(kind: &NodeKind) -> &'static str {
    match kind {
        NodeKind::Literal(_) => "lit ",
        NodeKind::Deref => "deref",
        NodeKind::Member(_) => ".",
        NodeKind::NullValue => "null",
        NodeKind::Fetch => "get",
        NodeKind::AddressOf => "addr",
        NodeKind::Decay => "decay",
        NodeKind::Convert => "conv",
        NodeKind::Upcast => "up",
        NodeKind::Assign => "set",
        NodeKind::Choose => "choose",
        NodeKind::Sequence => "then",
        NodeKind::CallNode => "call",
        NodeKind::MemberOfValue(_) => "!",
        NodeKind::VarArgs(_) => "further ",
        NodeKind::NextArg => "next",
        NodeKind::Expression => "expr",
        NodeKind::Block(_) => "block",
        NodeKind::If => "if",
        NodeKind::While => "while",
        NodeKind::DoWhile => "do",
        NodeKind::For { .. } => "for",
        NodeKind::Switch => "switch",
        NodeKind::Case(_) => "case ",
        NodeKind::Default => "default",
        NodeKind::Label(_) => "label ",
        NodeKind::Goto(_) => "goto ",
        NodeKind::Break => "break",
        NodeKind::Continue => "continue",
        NodeKind::Return => "return",
        NodeKind::Initialise { .. } => "init ",
        NodeKind::Skip => "skip",
        _ => "",
    }
}

// What belongs to a node.
fn write_own(shown: Shown<'_>, out: &mut Page, kind: &NodeKind) {
    match kind {
        NodeKind::Named(entity)
        | NodeKind::FunctionName(entity)
        | NodeKind::Literal(entity)
        | NodeKind::VarArgs(entity)
        | NodeKind::Initialise { entity, .. } => write_entity(shown, out, *entity),
        NodeKind::Text(bytes) => write_bytes(out, bytes.as_slice()),
        NodeKind::Member(member) | NodeKind::MemberOfValue(member) => {
            out.number(i128::from(*member));
        }
        NodeKind::Number(number) | NodeKind::Case(number) => out.number(number.get()),
        NodeKind::PointerAdd { minus } => out.say(if *minus { "back" } else { "move" }),
        NodeKind::Update { op, post } => write_update(out, *op, *post),
        NodeKind::Arith(op) => out.say(op_name(*op)),
        NodeKind::Block(entities) => write_entities(shown, out, entities.as_slice()),
        NodeKind::For {
            entities,
            condition,
            after,
        } => write_for(shown, out, entities.as_slice(), *condition, *after),
        NodeKind::Label(name) | NodeKind::Goto(name) => out.say(name.as_str()),
        _ => {}
    }
}

// Whether a node's type isn't decided by the nodes below it and by its kind.
fn is_typed(kind: &NodeKind) -> bool {
    matches!(
        kind,
        NodeKind::Named(_)
            | NodeKind::FunctionName(_)
            | NodeKind::Literal(_)
            | NodeKind::Number(_)
            | NodeKind::NullValue
            | NodeKind::Convert
            | NodeKind::Choose
            | NodeKind::Arith(_)
            | NodeKind::CallNode
            | NodeKind::NextArg
    )
}

// The path of an initialiser's value, by the place of the value.
fn path_at<'a>(kind: &'a NodeKind, at: usize) -> Option<&'a [PathStep]> {
    match kind {
        NodeKind::Initialise { paths, .. } => match paths.as_slice().get(at) {
            Some(path) => Some(path.as_slice()),
            None => None,
        },
        _ => None,
    }
}

// One piece more that is left, to be written before the others.
fn leave<'a>(out: &mut Page, left: &mut Vec<Piece<'a>>, piece: Piece<'a>) {
    if left.push(piece).is_err() {
        out.lacks = true;
    }
}

// The pieces of one of the nodes under a node, with the path of an initialiser's value.
fn push_child<'a>(
    out: &mut Page,
    left: &mut Vec<Piece<'a>>,
    node: &'a Node,
    at: usize,
    child: u32,
) {
    leave(out, left, Piece::Node(child));
    if let Some(path) = path_at(&node.kind, at) {
        leave(out, left, Piece::Path(path));
    }
    leave(out, left, Piece::Words(if at > 0 { " " } else { "(" }));
}

// The pieces of what stands under a node.
fn push_children<'a>(out: &mut Page, left: &mut Vec<Piece<'a>>, node: &'a Node) {
    let children = node.children.as_slice();
    if children.is_empty() {
        return;
    }
    leave(out, left, Piece::Words(")"));
    for done in 0..children.len() {
        let at = children.len() - 1 - done;
        push_child(out, left, node, at, children[at]);
    }
}

// A node without what stands under it.
fn write_head(shown: Shown<'_>, out: &mut Page, node: &Node) {
    out.say(word_of(&node.kind));
    write_own(shown, out, &node.kind);
    if is_typed(&node.kind) {
        out.say(":");
        write_type(shown.alloc, out, shown.unit, node.ty);
    }
    if shown.placed {
        out.say("@");
        out.number(i128::from(node.place.column));
    }
}

// A node by its number; what stands under it is left.
fn write_node<'a>(shown: Shown<'a>, out: &mut Page, left: &mut Vec<Piece<'a>>, number: u32) {
    match shown.unit.nodes.get(number as usize) {
        Some(node) => {
            write_head(shown, out, node);
            push_children(out, left, node);
        }
        None => out.lacks = true,
    }
}

/// Adds the tree of a core node to a text.
pub(crate) fn write_tree(shown: Shown<'_>, out: &mut Page, root: u32) {
    let mut left = Vec::new(shown.alloc);
    leave(out, &mut left, Piece::Node(root));
    for _piece in 0..PIECES {
        match left.pop() {
            Some(Piece::Words(words)) => out.say(words),
            Some(Piece::Path(path)) => write_path(out, path),
            Some(Piece::Node(number)) => write_node(shown, out, &mut left, number),
            None => return,
        }
    }
    out.lacks = true;
}
