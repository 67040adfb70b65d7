// The refusals of texts for their rows.
ghost use Rattle.std.specs.Prelude.{◌≡◌, IfOk};
ghost use Rattle.pta_base.specs.declared.kind.Kind.TheVariants.{Operand};
ghost use Rattle.text_units.specs.Lowered.{kind_refusal};
ghost use Rattle.text_units.specs.Faults.{fault_of, IsKindRefusal};

use crate::alone::not_accepted;
use crate::fault::UnitsFault;
use crate::places::place_text;
use c_grammar::Tree;
use c_lexer::Tokens;
use c_statements::own_place;
use core_nodes::CheckFault;
use pta_base::{Kind, OutOfMemory};
use std::alloc::Global;
use tree_reads::Syntax;

/// The refusal of a construct that isn't accepted, at the own token of a node.
fn kind_refusal(
    alloc: Global,
    name: &str,
    tokens: &Tokens,
    tree: &Tree,
    kind: Kind,
    node: u32,
) -> Result<UnitsFault, OutOfMemory>
    ensures { IfOk result (λ fault. fault ≡ fault_of (kind_refusal name.now tokens.now tree.now kind node)) }
{
    let syntax = Syntax::new(alloc, tokens, tree)?;
    let place = own_place(&syntax, node);
    let text = place_text(alloc, name, u64::from(place.line), u64::from(place.column))?;
    let fault = not_accepted(text, kind)?;
    Ok(fault)
}

/// The refusal for the fault of a node.
pub(crate) fn row_refusal(
    alloc: Global,
    name: &str,
    tokens: &Tokens,
    tree: &Tree,
    fault: CheckFault,
) -> Result<UnitsFault, OutOfMemory>
    ensures { IfOk result (IsKindRefusal name.now tokens.now tree.now fault) }
{
    match fault {
        CheckFault::BadOperand(node) => kind_refusal(
            alloc,
            name,
            tokens,
            tree,
            Kind::Operand,
            node,
        ),
        CheckFault::Unsupported(kind, node) => kind_refusal(alloc, name, tokens, tree, kind, node),
        CheckFault::OutOfMemory => Ok(UnitsFault::Memory),
    }
}
