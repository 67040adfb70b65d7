// Static assertions and alignments.
ghost use Rattle.std.specs.Prelude.{◌≡◌, ◌<◌, length, All, ℕ, List, Some, None, pos, true, false, IfOk};
ghost use Rattle.std.specs.Ordering.{int_eq};
ghost use Rattle.c_senses.specs.Sense.{sense_in};
ghost use Rattle.c_senses.specs.World.{World};
ghost use Rattle.c_senses.specs.Statements as statements;
ghost use Rattle.c_senses.specs.Specifiers as spec;
ghost use Rattle.core_nodes.specs.Standing.{IsReady, Knows};
ghost use Rattle.c_results.specs.Standing.{senses_made, IsWithin, Rowed};
ghost use Rattle.tree_reads.specs.Sources.{source_in};
ghost use Rattle.c_conversions.specs.constant_values.Constants.{HasConstants};
ghost use Rattle.c_senses.specs.Tree.{last_where, is_leaf};
ghost use Rattle.tree_reads.specs.Sources.{source_read};
ghost use Rattle.std.specs.Prelude.{not};

use c_conversions::constant_values::constant_in;
use c_grammar::productions::CONDITIONAL;
use c_results::{Made, Results, type_at};
use core_nodes::CheckFault;
use core_nodes::sorts::has_size;
use core_tree::node::Unit;
use tree_reads::{Syntax, child_of, is_leaf};

// Whether a number is 0.
fn is_zero(value: i128) -> bool
    ensures { result ≡ int_eq value (pos 0) }
{
    value == 0
}

/// The row of a static assertion (C11 6.7.10): its expression is an integer constant other than 0, or `operand`.
pub fn assert_row(
    unit: &Unit,
    syntax: &Syntax,
    results: &Results,
    at: u32,
) -> Result<Made, CheckFault>
    requires ready { IsReady unit.now }
    requires results { All (IsWithin unit.now) results.now }
    requires rows { All (HasConstants unit.now) results.now }
    ensures within { IfOk result (IsWithin unit.now) }
    ensures row { (w : World) (uses : List (ℕ × ℕ)) →
        Knows w unit.now →
        Rowed unit.now result
        (statements.assert_row w (source_in syntax.now uses) (sense_in (senses_made unit.now results.now)) at) }
{
    let Some(expression) = child_of(syntax, CONDITIONAL, at) else {
        return Err(CheckFault::BadOperand(at));
    };
    match constant_in(unit, syntax, results, at, expression) {
        Ok(value) => {
            if is_zero(value) {
                Err(CheckFault::BadOperand(at))
            } else {
                Ok(Made::Nothing)
            }
        }
        Err(fault) => Err(fault),
    }
}

// The last node of a list that is no leaf.
fn last_inner(syntax: &Syntax, list: &[u32]) -> Option<u32>
    ensures { let s = source_read syntax.now in result ≡ last_where (λ c. not (is_leaf s c)) list.now }
{
    let mut last = None;
    for node in list {
        if !is_leaf(syntax, *node) {
            last = Some(*node);
        }
    }
    last
}

/// The row of an alignment specifier (C11 6.7.5): its type is complete, or its expression an integer constant. It has no
/// other effect.
pub fn align_specifier(
    unit: &Unit,
    syntax: &Syntax,
    results: &Results,
    at: u32,
    children: &[u32],
) -> Result<Made, CheckFault>
    requires ready { IsReady unit.now }
    requires results { All (IsWithin unit.now) results.now }
    requires rows { All (HasConstants unit.now) results.now }
    ensures within { IfOk result (IsWithin unit.now) }
    ensures row { (w : World) (uses : List (ℕ × ℕ)) →
        Knows w unit.now →
        Rowed unit.now result
        (spec.align_specifier w (source_in syntax.now uses) (sense_in (senses_made unit.now results.now)) at children.now) }
{
    let Some(operand) = last_inner(syntax, children) else {
        return Err(CheckFault::BadOperand(at));
    };
    match type_at(results, operand) {
        Some(ty) => {
            if has_size(unit, ty) {
                Ok(Made::Nothing)
            } else {
                Err(CheckFault::BadOperand(at))
            }
        }
        None => match constant_in(unit, syntax, results, at, operand) {
            Ok(_) => Ok(Made::Nothing),
            Err(fault) => Err(fault),
        },
    }
}
