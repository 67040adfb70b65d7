// The nodes of a syntax tree under one.
ghost use Rattle.std.specs.Prelude.{◌≡◌, ◌<◌, ℕ, false, length, get_or, IfOk, IsOkUnless};
ghost use Rattle.c_senses.specs.Tree as tree;
ghost use Rattle.parsed_tree_laws.specs.sense_laws.Senses.{ChildrenFirst};
ghost use Rattle.tree_reads.specs.Sources.{source_read};
ghost use Rattle.c_check.specs.known_tags.Own.{AreUnder};
ghost use Rattle.c_check.specs.known_tags.Own as spec;

use core_nodes::CheckFault;
use std::alloc::Global;
use tree_reads::Syntax;

// Whether a node stands under another one, by which of the nodes between do.
fn is_under(syntax: &Syntax, flags: &[bool], top: u32, node: u32) -> bool
    requires node { node < length syntax.now.tree.now.nodes.items }
    requires long { length flags.now ≡ top }
    ensures { result ≡ spec.by_parent top flags.now (tree.parent_of (source_read syntax.now) node) }
{
    match syntax.parent_of(node) {
        Some(parent) => parent == top || (parent < top && flags[parent as usize]),
        None => false,
    }
}

/// Which nodes of a syntax tree stand under one: flags for those of smaller numbers. Only memory may want. It takes the time of a look at
/// each of them.
pub fn nodes_under(alloc: Global, syntax: &Syntax, top: u32) -> Result<Vec<bool>, CheckFault>
    requires top { top < length syntax.now.tree.now.nodes.items }
    requires first { ChildrenFirst (source_read syntax.now) }
    ensures under { IfOk result (λ flags. AreUnder (source_read syntax.now) top flags.items) }
    ensures memory { IsOkUnless result CheckFault.OutOfMemory }
{
    let mut flags = vec![in alloc; false; top as usize]?;
    let mut left = top;
    while left > 0 {
        left -= 1;
        let flag = is_under(syntax, flags.as_slice(), top, left);
        flags[left as usize] = flag;
    }
    Ok(flags)
}
