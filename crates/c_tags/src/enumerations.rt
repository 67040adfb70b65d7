// Enumerators.
ghost use Rattle.std.specs.Prelude.{◌≡◌, true, ◌<◌, ◌&&◌, ◌+ℤ◌, nat_lt, length, All, ℕ, List, pos, IfOk};
ghost use Rattle.core_tree.specs.declared.node.Unit.{Unit as UnitSpec};
ghost use Rattle.c_grammar.specs.Productions.{p_enumerator};
ghost use Rattle.c_senses.specs.Sense.{Sense, sense_in};
ghost use Rattle.c_senses.specs.World.{World};
ghost use Rattle.c_senses.specs.Tree as tree;
ghost use Rattle.c_senses.specs.Tree.{Source};
ghost use Rattle.c_senses.specs.Tags as spec;
ghost use Rattle.core_nodes.specs.Standing.{IsReady, Knows};
ghost use Rattle.c_results.specs.Standing.{senses_made, IsWithin, Rowed};
ghost use Rattle.tree_reads.specs.Order.{ascends};
ghost use Rattle.tree_reads.specs.Sources.{source_read, source_in};
ghost use Rattle.c_conversions.specs.constant_values.Constants.{HasConstants};

use c_conversions::constant_values::constant_in;
use c_grammar::productions::{CONDITIONAL, ENUMERATOR};
use c_results::{Made, Number, Results, value_at};
use core_nodes::CheckFault;
use core_tree::node::Unit;
use tree_reads::{Syntax, child_of, children_of, first_from, is_a};

// Whether a node is an enumerator before another node.
fn is_before(syntax: &Syntax, at: u32, node: u32) -> bool
    ensures { let s = source_read syntax.now in result ≡ (tree.is_a s p_enumerator node && nat_lt node at) }
{
    if node >= at {
        return false;
    }
    is_a(syntax, ENUMERATOR, node)
}

// The last enumerator of a list that stands before a node, looked for from the end.
fn last_before(syntax: &Syntax, at: u32, list: &[u32]) -> Option<u32>
    ensures { let s = source_read syntax.now in
        result ≡ tree.last_where (λ c. tree.is_a s p_enumerator c && nat_lt c at) list.now }
{
    let mut left = list.len();
    while left > 0 {
        left -= 1;
        if is_before(syntax, at, list[left]) {
            return Some(list[left]);
        }
    }
    None
}

// The same for an ascending list: none of it stands before the node from the node's own place on.
fn last_in_order(syntax: &Syntax, at: u32, list: &[u32]) -> Option<u32>
    requires { ascends list.now ≡ true }
    ensures { let s = source_read syntax.now in
        result ≡ tree.last_where (λ c. tree.is_a s p_enumerator c && nat_lt c at) list.now }
{
    last_before(syntax, at, &list[..first_from(list, at)])
}

// The last enumerator among the children of a node that stands before another node.
fn last_among(syntax: &Syntax, at: u32, parent: u32) -> Option<u32>
    ensures { let s = source_read syntax.now in
        result ≡ tree.last_where (λ c. tree.is_a s p_enumerator c && nat_lt c at) (tree.children_at s parent) }
{
    let list = children_of(syntax, parent);
    if syntax.is_ordered() {
        last_in_order(syntax, at, list)
    } else {
        last_before(syntax, at, list)
    }
}

// The enumerator before one in its list.
fn before_enumerator(syntax: &Syntax, at: u32) -> Option<u32>
    requires { at < length syntax.now.tree.now.nodes.items }
    ensures { (w : World) (sense : ℕ → Sense) → result ≡ spec.before_enumerator w (source_read syntax.now) sense at }
{
    match syntax.parent_of(at) {
        Some(list) => last_among(syntax, at, list),
        None => None,
    }
}

// The value from which an enumerator counts on: that of the one before, or -1.
fn value_before(results: &Results, before: Option<u32>) -> i128
    ensures { (u : UnitSpec) (w : World) (s : Source) →
        result ≡ spec.value_before w s (sense_in (senses_made u results.now)) before }
{
    let Some(node) = before else {
        return -1;
    };
    match value_at(results, node) {
        Some(value) => value,
        None => 0,
    }
}

// Whether a value is in the range of int.
fn is_int(value: i128) -> bool
    ensures { (w : World) (s : Source) (sense : ℕ → Sense) → result ≡ spec.is_int w s sense value }
{
    -2147483648 <= value && value <= 2147483647
}

// An enumerator of a value, at its name.
fn enumerator_of(leaf: u32, value: i128) -> Result<Made, CheckFault>
    ensures row { (u : UnitSpec) (w : World) (s : Source) (sense : ℕ → Sense) (at : ℕ) →
        Rowed u result (spec.enumerator_of w s sense at leaf value) }
    ensures within { (u : UnitSpec) → IfOk result (IsWithin u) }
{
    if is_int(value) {
        Ok(Made::Value(Number::of(value)))
    } else {
        Err(CheckFault::BadOperand(leaf))
    }
}

// An enumerator that counts on from a value, at its name.
fn counted_on(leaf: u32, before: i128) -> Result<Made, CheckFault>
    ensures row { (u : UnitSpec) (w : World) (s : Source) (sense : ℕ → Sense) (at : ℕ) →
        Rowed u result (spec.enumerator_of w s sense at leaf (before +ℤ pos 1)) }
    ensures within { (u : UnitSpec) → IfOk result (IsWithin u) }
{
    if before > 2147483646 {
        return Err(CheckFault::BadOperand(leaf));
    }
    enumerator_of(leaf, before + 1)
}

// The row of an enumerator by its name and its expression, if it has one.
fn enumerator_named(
    unit: &Unit,
    syntax: &Syntax,
    results: &Results,
    at: u32,
    leaf: u32,
    expression: Option<u32>,
) -> Result<Made, CheckFault>
    requires ready { IsReady unit.now }
    requires results { All (IsWithin unit.now) results.now }
    requires rows { All (HasConstants unit.now) results.now }
    requires at { at < length syntax.now.tree.now.nodes.items }
    ensures within { IfOk result (IsWithin unit.now) }
    ensures row { (w : World) (uses : List (ℕ × ℕ)) →
        Knows w unit.now →
        Rowed unit.now result
        (spec.enumerator_named w (source_in syntax.now uses) (sense_in (senses_made unit.now results.now)) at leaf expression) }
{
    let Some(expression) = expression else {
        return counted_on(leaf, value_before(results, before_enumerator(syntax, at)));
    };
    match constant_in(unit, syntax, results, at, expression) {
        Ok(value) => enumerator_of(leaf, value),
        Err(fault) => Err(fault),
    }
}

/// The row of an enumerator (C11 6.7.2.2): its value is that of its expression, or one more than that of the enumerator before
/// it, and 0 for the first. It is refused as `operand` at its name where its value isn't in the range of int, and by the
/// expression's own refusal where that is no integer constant.
pub fn enumerator_row(
    unit: &Unit,
    syntax: &Syntax,
    results: &Results,
    at: u32,
    children: &[u32],
) -> Result<Made, CheckFault>
    requires ready { IsReady unit.now }
    requires results { All (IsWithin unit.now) results.now }
    requires rows { All (HasConstants unit.now) results.now }
    requires at { at < length syntax.now.tree.now.nodes.items }
    ensures within { IfOk result (IsWithin unit.now) }
    ensures row { (w : World) (uses : List (ℕ × ℕ)) →
        Knows w unit.now →
        Rowed unit.now result
        (spec.enumerator_row w (source_in syntax.now uses) (sense_in (senses_made unit.now results.now)) at children.now) }
{
    if children.is_empty() {
        return Err(CheckFault::BadOperand(at));
    }
    let leaf = children[0];
    let expression = child_of(syntax, CONDITIONAL, at);
    enumerator_named(unit, syntax, results, at, leaf, expression)
}
