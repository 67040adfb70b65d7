// What a node is to the steps of a frame.

ghost use Rattle.std.specs.Prelude.{◌≡◌, take};
ghost use Rattle.ref_blocks.specs.Loops.{after_at};
ghost use Rattle.ref_statements.specs.Forms.{form_of, goto_name, opens, first_only, awaited, branches, part_after, part_before};

use core_tree::NodeKind;
use ref_blocks::loops::loop_of;

/// Which statement a node is, or how it takes its operands as an expression: `Value` in any order, `Sequence` in theirs,
/// `Choose` one of two after a condition. `Plain` is a statement that does nothing more once its operands are there, `Label`
/// one that is done as the statement behind it, and `Compound` is a Block (C11 6.8).
#[derive(Clone, Copy, Debug, PartialEq, Eq)]
pub enum Form {
    Value,
    Sequence,
    Choose,
    Initialise,
    Plain,
    Label,
    Compound,
    If,
    While,
    DoWhile,
    For { condition: bool, after: bool },
    Switch,
    Break,
    Continue,
    Goto,
    Return,
}

/// What a node of a kind is.
pub fn form_of(kind: &NodeKind) -> Form
    ensures { result ≡ form_of kind.now }
{
    match kind {
        NodeKind::Choose => Form::Choose,
        NodeKind::Sequence => Form::Sequence,
        NodeKind::Expression | NodeKind::Skip => Form::Plain,
        NodeKind::Initialise { .. } => Form::Initialise,
        NodeKind::Case(_) | NodeKind::Default | NodeKind::Label(_) => Form::Label,
        NodeKind::Block(_) => Form::Compound,
        NodeKind::If => Form::If,
        NodeKind::While => Form::While,
        NodeKind::DoWhile => Form::DoWhile,
        NodeKind::For {
            condition,
            after,
            ..
        } => Form::For {
            condition: *condition,
            after: *after,
        },
        NodeKind::Switch => Form::Switch,
        NodeKind::Break => Form::Break,
        NodeKind::Continue => Form::Continue,
        NodeKind::Goto(_) => Form::Goto,
        NodeKind::Return => Form::Return,
        _ => Form::Value,
    }
}

/// The label to which a goto goes, no name for other kinds.
pub fn goto_name(kind: &NodeKind) -> &str
    ensures { result.now ≡ goto_name kind.now }
{
    match kind {
        NodeKind::Goto(name) => name.as_str(),
        _ => "",
    }
}

/// Whether a statement is a block.
pub fn opens(form: Form) -> bool
    ensures { result ≡ opens form }
{
    match form {
        Form::Compound | Form::If | Form::While | Form::DoWhile => true,
        Form::For { .. } | Form::Switch => true,
        _ => false,
    }
}

// The first of these, if there is one.
fn first_only(children: &[u32]) -> &[u32]
    ensures { result.now ≡ first_only children.now }
{
    match children {
        [_, ..] => &children[..1],
        [] => children,
    }
}

// The first statements of a For, and its condition.
fn before_body(after: bool, children: &[u32]) -> &[u32]
    ensures { result.now ≡ take (after_at after children.now) children.now }
{
    let body_at = children.len().saturating_sub(1);
    if after {
        let after_at = body_at.saturating_sub(1);
        &children[..after_at]
    } else {
        &children[..body_at]
    }
}

/// What a statement waits for when it is begun.
pub fn awaited(form: Form, children: &[u32]) -> &[u32]
    ensures { result.now ≡ awaited form children.now }
{
    match form {
        Form::If | Form::While | Form::Switch => first_only(children),
        Form::For { after, .. } => before_body(after, children),
        _ => children,
    }
}

/// The two branches that are left to a Choose.
pub fn branches(form: Form, operands: &[u32]) -> Option<(u32, u32)>
    ensures { result ≡ branches form operands.now }
{
    match form {
        Form::Choose => match operands {
            [a, b] => Some((*a, *b)),
            _ => None,
        },
        _ => None,
    }
}

// The body of a For, where what it does after a turn is taken next.
fn part_after(after: &[u32], body: &[u32], next: u32) -> Option<u32>
    ensures { result ≡ part_after after.now body.now next }
{
    let [v] = after else {
        return None;
    };
    let [part] = body else {
        return None;
    };
    if *v == next { Some(*part) } else { None }
}

/// The body that a statement leaves before it takes that operand: that of a `do`, or of a For, after a turn.
pub fn part_before(form: Form, children: &[u32], next: u32) -> Option<u32>
    ensures { result ≡ part_before form children.now next }
{
    match form {
        Form::DoWhile => match children {
            [part, _] => Some(*part),
            _ => None,
        },
        Form::For { condition, after } => {
            let parts = loop_of(condition, after, children);
            part_after(parts.after, parts.body, next)
        }
        _ => None,
    }
}
