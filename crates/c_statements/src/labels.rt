// Labels and jumps to them, and defaults (C11 6.8.1, 6.8.6.1).
ghost use Rattle.std.specs.Prelude.{◌≡◌, ◌<◌, ◌++◌, ℕ, List, length, true, All, IfOk, OnOk};
ghost use Rattle.core_tree.specs.declared.node.NodeKind.TheVariants.{Goto};
ghost use Rattle.c_senses.specs.Tree.{is_name, spelling_at};
ghost use Rattle.c_senses.specs.World.{World};
ghost use Rattle.c_senses.specs.Sense.{Sense, sense_in};
ghost use Rattle.c_senses.specs.Statements as spec;
ghost use Rattle.core_nodes.specs.Standing.{IsReady, Builds, Made as CoreMade};
ghost use Rattle.c_results.specs.Standing.{senses_made, IsWithin};
ghost use Rattle.tree_reads.specs.Sources.{source_in};
ghost use Rattle.c_statements.specs.Labels.{IsAscii, AreDefaults};

use crate::parts::{body, void_type};
use c_results::Results;
use core_nodes::CheckFault;
use core_nodes::trees::{push_leaf, push_over};
use core_tree::held::HeldText;
use core_tree::node::{NodeKind, Unit};
use pta_base::Text;
use std::alloc::{AllocError, Global};
use tree_reads::leaf_maps::LeafMap;
use tree_reads::{Above, Syntax, Test, first_where, nearest_above, place_of, spelling_of};

// A text of bytes that are below 128.
fn text_of(alloc: Global, bytes: &[u8]) -> Result<Text, AllocError>
    ensures { IfOk result (λ text. IsAscii bytes.now → text ≡ bytes.now) }
{
    let mut string = String::new(alloc);
    for byte in bytes {
        string.push(*byte as char)?;
    }
    Ok(Text::of(string))
}

/// The row of a goto (C11 6.8.6.1): a jump to the label that it names; that the function has the label, name resolution says.
/// It is `operand` at `at` where no name is in it. The name's bytes are below 128, as those of every identifier.
pub fn goto_row(
    alloc: Global,
    unit: &mut Unit,
    syntax: &Syntax,
    at: u32,
    children: &[u32],
) -> Result<u32, CheckFault>
    requires ready { IsReady unit.old }
    ensures ready { IsReady unit.new }
    ensures builds { Builds unit.old unit.new }
    ensures within { IfOk result (λ i. i < length unit.new.nodes.items) }
    ensures made { (w : World) (uses : List (ℕ × ℕ)) (sense : ℕ → Sense) →
        let s = source_in syntax.now uses in
        ((name : ℕ) → is_name s name ≡ true → IsAscii (spelling_at s name)) →
        CoreMade unit.new result (spec.goto_row w s sense at children.now) }
{
    let Some(name) = first_where(syntax, Test::Name, children) else {
        return Err(CheckFault::BadOperand(at));
    };
    let label = HeldText::of(alloc, text_of(alloc, spelling_of(syntax, name))?)?;
    let ty = match void_type(unit) {
        Ok(ty) => ty,
        Err(_) => return Err(CheckFault::OutOfMemory),
    };
    push_leaf(alloc, unit, NodeKind::Goto(label), place_of(syntax, at), ty)
}

/// The row of a statement behind a label (C11 6.8.1), over that statement, which is `operand` at `at` where there is none. The
/// label's bytes are below 128, as those of every identifier.
pub fn labelled_row(
    alloc: Global,
    unit: &mut Unit,
    syntax: &Syntax,
    results: &Results,
    at: u32,
    name: u32,
    children: &[u32],
) -> Result<u32, CheckFault>
    requires ready { IsReady unit.old }
    requires results { All (IsWithin unit.old) results.now }
    ensures ready { IsReady unit.new }
    ensures builds { Builds unit.old unit.new }
    ensures within { IfOk result (λ i. i < length unit.new.nodes.items) }
    ensures made { (w : World) (uses : List (ℕ × ℕ)) →
        let s = source_in syntax.now uses in
        let sense = sense_in (senses_made unit.old results.now) in
        IsAscii (spelling_at s name) → CoreMade unit.new result (spec.labelled w s sense at name children.now) }
{
    let inner = match body(unit, syntax, results, at, children) {
        Ok(node) => node,
        Err(fault) => return Err(fault),
    };
    let label = HeldText::of(alloc, text_of(alloc, spelling_of(syntax, name))?)?;
    let ty = match void_type(unit) {
        Ok(ty) => ty,
        Err(_) => return Err(CheckFault::OutOfMemory),
    };
    push_over(
        alloc,
        unit,
        NodeKind::Label(label),
        place_of(syntax, at),
        ty,
        inner,
    )
}

/// The row of a default (C11 6.8.4.2p2, p3), over its statement. It is `operand` at `at` where no switch is around it, where
/// that switch has another one before it, and where it has no statement. `defaults` has the switches that have one before it.
pub fn default_row(
    alloc: Global,
    unit: &mut Unit,
    syntax: &Syntax,
    results: &Results,
    defaults: &LeafMap,
    at: u32,
    children: &[u32],
) -> Result<u32, CheckFault>
    requires ready { IsReady unit.old }
    requires results { All (IsWithin unit.old) results.now }
    requires at { at < length syntax.now.tree.now.nodes.items }
    ensures ready { IsReady unit.new }
    ensures builds { Builds unit.old unit.new }
    ensures within { IfOk result (λ i. i < length unit.new.nodes.items) }
    ensures made { (w : World) (uses : List (ℕ × ℕ)) →
        let s = source_in syntax.now uses in
        let sense = sense_in (senses_made unit.old results.now) in
        AreDefaults w s sense at defaults.now → CoreMade unit.new result (spec.default_row w s sense at children.now) }
{
    let Some(switch) = nearest_above(syntax, Above::Switch, at) else {
        return Err(CheckFault::BadOperand(at));
    };
    if defaults.get(switch).is_some() {
        return Err(CheckFault::BadOperand(at));
    }
    let inner = match body(unit, syntax, results, at, children) {
        Ok(node) => node,
        Err(fault) => return Err(fault),
    };
    let ty = match void_type(unit) {
        Ok(ty) => ty,
        Err(_) => return Err(CheckFault::OutOfMemory),
    };
    push_over(
        alloc,
        unit,
        NodeKind::Default,
        place_of(syntax, at),
        ty,
        inner,
    )
}
