// What is known of a unit's names before its rows.
ghost use Rattle.std.specs.Prelude.{◌≡◌, ◌<◌, ℕ, [], All, true, false, IfOk, IsOkUnless};
ghost use Rattle.core_tree.specs.declared.node.Unit.{Unit as UnitSpec};
ghost use Rattle.c_scope.specs.Resolves.{IsBound};
ghost use Rattle.c_senses.specs.Tree.{Source};
ghost use Rattle.c_senses.specs.World.{World};
ghost use Rattle.c_senses.specs.Sense.{Sense};
ghost use Rattle.c_tags.specs.tag_numbers.Known.{AreTags};
ghost use Rattle.c_meanings.specs.Known.{AreLeaves, AreNames, ArePaired};
ghost use Rattle.c_named.specs.Completed.{AreCompleted};
ghost use Rattle.name_uses.specs.name_sayings.Listed.{AreListed};
ghost use Rattle.name_uses.specs.name_sayings.Opening.{OpensOrNot};

use c_meanings::{Names, names_of_unit};
use c_scope::{Bound, Declared};
use c_tags::tag_numbers::Tags;
use core_nodes::CheckFault;
use name_chains::symbol_lists::SymbolLists;
use pta_base::Kind;
use std::alloc::Global;
use tree_reads::Syntax;

// Whether each of some declarations is one of so many nodes.
fn all_below(count: usize, declarations: &[Declared]) -> bool
    ensures all { result ≡ true → All (λ d. d.node < count) declarations.now }
    ensures some { result ≡ false → All (λ d. d.node < count) declarations.now → ⊥ }
{
    for declared in declarations {
        if declared.node as usize >= count {
            return false;
        }
    }
    true
}

// Whether each use is paired with one of so many nodes.
fn pairs_below(count: usize, pairs: &[(u32, u32)]) -> bool
    ensures all { result ≡ true → All (λ p. p.1 < count) pairs.now }
    ensures some { result ≡ false → All (λ p. p.1 < count) pairs.now → ⊥ }
{
    for pair in pairs {
        if pair.1 as usize >= count {
            return false;
        }
    }
    true
}

// Whether each name is declared at a node, and each use is paired with one.
fn are_leaves(syntax: &Syntax, bound: &Bound) -> bool
    ensures all { result ≡ true → AreLeaves syntax.now bound.now }
    ensures some { result ≡ false → AreLeaves syntax.now bound.now → ⊥ }
{
    let count = syntax.tree.nodes.len();
    all_below(count, bound.names.as_slice()) && pairs_below(count, bound.uses.as_slice())
}

// The lists of the declarations of a bound unit by their symbols.
fn lists_of_unit(alloc: Global, syntax: &Syntax, bound: &Bound) -> Result<SymbolLists, CheckFault>
    requires bound { IsBound syntax.now.tokens.now syntax.now.tree.now bound.now }
    requires leaves { AreLeaves syntax.now bound.now }
    ensures lists { IfOk result (AreListed syntax.now) }
    ensures memory { IsOkUnless result CheckFault.OutOfMemory }
{
    match SymbolLists::new(alloc, bound.names.as_slice()) {
        Ok(lists) => Ok(lists),
        Err(_) => Err(CheckFault::OutOfMemory),
    }
}

/// The declarations of a bound unit with those that are seen at each, and by their symbols. Besides want of memory it may answer
/// `NotBuilt` at node 0, where a name is declared, or a use paired, past the tree's nodes.
pub fn open_names(
    alloc: Global,
    syntax: &Syntax,
    bound: &Bound,
) -> Result<(Names, SymbolLists), CheckFault>
    requires { IsBound syntax.now.tokens.now syntax.now.tree.now bound.now }
    ensures names { (u : UnitSpec) → IfOk result (λ n. AreNames syntax.now u [] n.0) }
    ensures lists { IfOk result (λ n. AreListed syntax.now n.1) }
    ensures uses { IfOk result (λ n. ArePaired n.0 bound.now.uses.items) }
    ensures faults { OpensOrNot syntax.now bound.now result }
{
    if !are_leaves(syntax, bound) {
        return Err(CheckFault::Unsupported(Kind::NotBuilt, 0));
    }
    let Ok(names) = names_of_unit(alloc, syntax, bound) else {
        return Err(CheckFault::OutOfMemory);
    };
    let lists = lists_of_unit(alloc, syntax, bound)?;
    Ok((names, lists))
}

/// Which tags a specifier with a list of members completes somewhere in the unit, by their numbers (C11 6.9.2p3).
pub fn completed_flags(tags: &Tags) -> &[bool]
    ensures { (w : World) (s : Source) (sense : ℕ → Sense) → AreTags s tags.now → AreCompleted w s sense result.now }
{
    tags.completed.as_slice()
}
