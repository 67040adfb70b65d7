// The unit of a text, or its first refusal.
ghost use Rattle.std.specs.Prelude.{MatchResult, IfOk, IfErr};
ghost use Rattle.c_lexer.specs.Cut.{IsTokens};
ghost use Rattle.c_parser.specs.c_units.Units.{IsUnit};
ghost use Rattle.c_scope.specs.Resolves.{IsBound};
ghost use Rattle.core_nodes.specs.Once.{HasOnce};
ghost use Rattle.c_senses.specs.Names.{source_of};
ghost use Rattle.parsed_tree_laws.specs.sense_laws.Senses.{ChildrenFirst};
ghost use Rattle.c_lower.specs.unit_lowering.PassedOn.{RefusedIn};
ghost use Rattle.c_lower.specs.unit_lowering.Lowered.{IsLowered};
ghost use Rattle.refusal_laws.specs.Refusals.{IsOtherFault};

use crate::unit_lowering::lower;
use c_grammar::Tree;
use c_lexer::Tokens;
use c_scope::Bound;
use core_nodes::CheckFault;
use core_tree::node::Unit;
use pta_base::Text;
use std::alloc::Global;

/// The unit that a text stands for, where its tokens and its tree are those of a text whose names are bound, and each node stands behind
/// its children. The text is refused only at its first node, in order, whose row doesn't fit: `BadOperand` and `Unsupported` hold the
/// kind and the node that the row names, and never the kind `NotBuilt` or `VariadicDefinition`. Where the rows of all nodes fit, only
/// memory may want: of what they stand for a valid unit is made always (`valid_unit_laws::lowered_laws`). Tags have the numbers of the
/// order of their first specifiers (C11 6.7.2.3).
pub fn lower_unit(
    alloc: Global,
    tokens: &Tokens,
    tree: &Tree,
    bound: &Bound,
    name: Text,
) -> Result<Unit, CheckFault>
    requires tokens { IsTokens tokens.now.text.now tokens.now.list.items }
    requires read { IsUnit tokens.now tree.now.unit tree.now }
    requires bound { IsBound tokens.now tree.now bound.now }
    requires first { ChildrenFirst (source_of tokens.now tree.now) }
    ensures lowered { MatchResult result (IsLowered (source_of tokens.now tree.now) name) (RefusedIn (source_of tokens.now tree.now)) }
    ensures built { IfErr result IsOtherFault }

    // No type stands twice in the unit.
    ensures once { IfOk result (λ unit. HasOnce unit.types) }
{
    lower(alloc, tokens, tree, bound, name)
}
