// Numbers in the order of the first specifiers.
ghost use Rattle.std.specs.Prelude.{◌≡◌, ◌<◌, ◌+◌, ℕ, List, true, length, IfOk, OnOk};
ghost use Rattle.c_grammar.specs.Productions.{p_struct};
ghost use Rattle.c_senses.specs.Tree as tree;
ghost use Rattle.c_senses.specs.Tree.{Source};
ghost use Rattle.c_senses.specs.Tags as spec;
ghost use Rattle.tree_reads.specs.Sources.{source_in};
ghost use Rattle.tree_reads.specs.node_roles.Roles.{AreRoles};
ghost use Rattle.c_tags.specs.tag_numbers.Firsts.{Declares};
ghost use Rattle.c_tags.specs.tag_numbers.Numbers.{AreNumbers};

use crate::tag_numbers::declaring::{Declaring, tag_declared};
use crate::tag_numbers::specifiers::next_specifier;
use pta_base::OutOfMemory;
use std::alloc::Global;
use tree_reads::Syntax;
use tree_reads::leaf_maps::LeafMap;
use tree_reads::node_roles::{Role, is_structure_at};

/// Numbers by the node of a tag's first declaration, and the first specifier of each number.
#[derive(Drop)]
pub(in crate::tag_numbers) struct Numbering {
    pub(in crate::tag_numbers) numbers: LeafMap,
    pub(in crate::tag_numbers) firsts: Vec<u32>,
}

// The tag of a specifier gets the next number, if it has none yet.
fn number_one(numbering: &mut Numbering, node: u32, declared: u32) -> Result<(), OutOfMemory>
    ensures { OnOk result ((s : Source) →
        AreNumbers s numbering.old node →
        tree.is_a s p_struct node ≡ true →
        spec.tag_declared s node ≡ declared → declared < length s.nodes → AreNumbers s numbering.new (node + 1)) }
{
    if let Some(_number) = numbering.numbers.get(declared) {
        return Ok(());
    }
    let number = numbering.firsts.as_slice().len();
    if number > u32::MAX as usize {
        return Err(OutOfMemory);
    }
    numbering.numbers.add(declared, number as u32)?;
    numbering.firsts.push(node)?;
    Ok(())
}

// What one more node adds to the numbers.
fn number_node(
    numbering: &mut Numbering,
    syntax: &Syntax,
    roles: &[Role],
    declaring: &Declaring,
    node: u32,
) -> Result<(), OutOfMemory>
    ensures { OnOk result ((uses : List (ℕ × ℕ)) →
        let s = source_in syntax.now uses in
        AreRoles s roles.now → Declares s declaring.now → AreNumbers s numbering.old node → AreNumbers s numbering.new (node + 1)) }
{
    if !is_structure_at(roles, node) {
        return Ok(());
    }
    let declared = tag_declared(syntax, declaring, node);
    if declared as usize >= syntax.tree.nodes.len() {
        return Err(OutOfMemory);
    }
    number_one(numbering, node, declared)?;
    Ok(())
}

/// Numbers for the structures and unions of a tree, in the order of their first specifiers, by what each node is. A tag that is known by a
/// node past the tree, which no bound unit has, counts as want of memory.
pub(in crate::tag_numbers) fn number_all(
    alloc: Global,
    syntax: &Syntax,
    roles: &[Role],
    declaring: &Declaring,
) -> Result<Numbering, OutOfMemory>
    ensures { IfOk result (λ n. (uses : List (ℕ × ℕ)) →
        let s = source_in syntax.now uses in AreRoles s roles.now → Declares s declaring.now → AreNumbers s n (length s.nodes)) }
{
    let mut numbering = Numbering {
        numbers: LeafMap::new(alloc),
        firsts: Vec::new(alloc),
    };
    if syntax.tree.nodes.len() > u32::MAX as usize {
        return Err(OutOfMemory);
    }
    let count = syntax.tree.nodes.len() as u32;
    let mut node = next_specifier(roles, 0, count);
    while node < count {
        number_node(&mut numbering, syntax, roles, declaring, node)?;
        node = next_specifier(roles, node + 1, count);
    }
    Ok(numbering)
}
