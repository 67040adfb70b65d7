// Which nodes stand in a block or a parameter list.
#![tactic(auto)]

ghost use Rattle.std.specs.Prelude.{◌≡◌, ◌<◌, ◌^◌, ◌+◌, ℕ, List, length, IfOk};
ghost use Rattle.c_senses.specs.Keys as keys;
ghost use Rattle.c_senses.specs.Sense.{Sense};
ghost use Rattle.tree_reads.specs.Sources.{source_in, source_read};
ghost use Rattle.tree_reads.specs.node_roles.Roles.{AreRoles};
ghost use Rattle.unit_keys.specs.Placed.{ParentsBehind, AreInner};

use std::alloc::{AllocError, Global};
use tree_reads::Syntax;
use tree_reads::node_roles::{Role, is_boundary_at};

// Whether a node stands in a block or a parameter list, by what each node is, and by what is known of all nodes behind it, the last one
// first.
fn is_inner(syntax: &Syntax, roles: &[Role], flags: &[bool], node: u32) -> bool
    requires behind { ParentsBehind (source_read syntax.now) }
    requires node { node + length flags.now + 1 ≡ length syntax.now.tree.now.nodes.items }
    ensures { (uses : List (ℕ × ℕ)) (sense : ℕ → Sense) →
        let s = source_in syntax.now uses in
        AreRoles s roles.now → AreInner s sense flags.now (length flags.now) → result ≡ keys.is_inner s sense node }
{
    let Some(parent) = syntax.parent_of(node) else {
        return false;
    };
    if is_boundary_at(roles, parent) {
        return true;
    }
    flags[syntax.tree.nodes.len() - 1 - parent as usize]
}

/// For each node, the last one first, whether it stands in a block or a parameter list, by what each node is. It takes time linear in the
/// nodes, and reads no node but its parent's number.
pub fn inner_flags(alloc: Global, syntax: &Syntax, roles: &[Role]) -> Result<Vec<bool>, AllocError>
    requires count { length syntax.now.tree.now.nodes.items < 2 ^ 32 }
    requires behind { ParentsBehind (source_read syntax.now) }
    ensures { IfOk result (λ flags. (uses : List (ℕ × ℕ)) (sense : ℕ → Sense) →
        let s = source_in syntax.now uses in AreRoles s roles.now → AreInner s sense flags.items (length s.nodes)) }
{
    let mut flags = Vec::with_capacity(alloc, syntax.tree.nodes.len())?;
    let mut left = syntax.tree.nodes.len() as u32;
    while left > 0 {
        left -= 1;
        flags.push(is_inner(syntax, roles, flags.as_slice(), left))?;
    }
    Ok(flags)
}
