// The cases and the defaults before a node (C11 6.8.4.2p3), from node to node.
ghost use Rattle.std.specs.Prelude.{◌≡◌, ◌<◌, ◌+◌, ◌++◌, ◌∷◌, [], ℕ, List, length, All, OnOk, IsOkUnless};
ghost use Rattle.c_senses.specs.Tree.{Source};
ghost use Rattle.c_senses.specs.World.{World};
ghost use Rattle.c_senses.specs.Sense.{Sense, sense_in};
ghost use Rattle.core_nodes.specs.Standing.{IsReady};
ghost use Rattle.c_results.specs.Standing.{senses_made, IsWithin};
ghost use Rattle.tree_reads.specs.Sources.{source_in};
ghost use Rattle.statement_rows.specs.Told.{AreSpelled, IsTold};

use c_results::Results;
use c_statements::Choices;
use core_nodes::CheckFault;
use core_tree::node::Unit;
use std::alloc::Global;
use tree_reads::Syntax;

/// What is told before the first node of a unit whose names are spelled in ASCII: no cases and no defaults.
pub fn no_choices(alloc: Global) -> Choices
    ensures { (w : World) (s : Source) (sense : ℕ → Sense) → AreSpelled s → IsTold w s sense 0 result }
{
    Choices::new(alloc)
}

/// Takes in node `at`, once its row is the last of `results`: where the cases and the defaults before it were told, they are told with it
/// too, whatever the two worlds are. Only memory may want, and the choices are of no use then.
pub fn note(
    choices: &mut Choices,
    unit: &Unit,
    syntax: &Syntax,
    results: &Results,
    at: u32,
) -> Result<(), CheckFault>
    requires ready { IsReady unit.now }
    requires results { All (IsWithin unit.now) results.now }
    requires at { at < length syntax.now.tree.now.nodes.items }
    ensures told { (before after : World) (uses : List (ℕ × ℕ)) (senses : List Sense) (x : Sense) →
        let s = source_in syntax.now uses in
        senses_made unit.now results.now ≡ senses ++ x ∷ [] →
        length senses ≡ at →
        IsTold before s (sense_in senses) at choices.old →
        OnOk result (IsTold after s (sense_in (senses ++ x ∷ [])) (at + 1) choices.new) }
    ensures memory { IsOkUnless result CheckFault.OutOfMemory }
{
    choices.note(unit, syntax, results, at)?;
    Ok(())
}
