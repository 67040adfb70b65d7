// What each node is.
#![tactic(auto)]

ghost use Rattle.std.specs.Prelude.{◌≡◌, ◌||◌, ℕ, List, get_or, IfOk};
ghost use Rattle.c_grammar.specs.Productions.{p_struct, p_enum, p_member};
ghost use Rattle.c_senses.specs.Tree as tree;
ghost use Rattle.c_senses.specs.Tree.{Source};
ghost use Rattle.tree_reads.specs.Sources.{source_in};
ghost use Rattle.tree_reads.specs.declared.node_roles.roles.Role.TheVariants.{Other};
ghost use Rattle.tree_reads.specs.node_roles.Roles as spec;
ghost use Rattle.tree_reads.specs.node_roles.Roles.{AreRoles, role_at};

use crate::{Syntax, Test, any_where, children_of, production_of};
use c_grammar::productions::{BLOCK, ENUM, MEMBER, STRUCT, SUFFIX};
use pta_base::OutOfMemory;
use std::alloc::Global;

const LEFT_PARENTHESIS: u8 = 2;

/// What a node is to the tags of a unit: the specifier of a structure or union, that of an enumeration (C11 6.7.2.1, 6.7.2.2), a
/// declaration of members, a block or a parameter list, or none of these.
#[derive(Clone, Copy, Debug, PartialEq, Eq)]
pub enum Role {
    Structure,
    Enumeration,
    Member,
    Boundary,
    Other,
}

// Whether a node of a production is a block or a parameter list.
fn is_boundary(syntax: &Syntax, production: u32, node: u32) -> bool
    ensures { (uses : List (ℕ × ℕ)) →
        let s = source_in syntax.now uses in
        tree.production_at s node ≡ production → result ≡ spec.is_boundary s node }
{
    production == BLOCK
        || (production == SUFFIX
            && any_where(
                syntax,
                Test::Sign(LEFT_PARENTHESIS),
                children_of(syntax, node),
            ))
}

// What a node is.
fn role_of(syntax: &Syntax, node: u32) -> Role
    ensures { (uses : List (ℕ × ℕ)) → result ≡ role_at (source_in syntax.now uses) node }
{
    let production = production_of(syntax, node);
    if production == STRUCT {
        Role::Structure
    } else if production == ENUM {
        Role::Enumeration
    } else if production == MEMBER {
        Role::Member
    } else if is_boundary(syntax, production, node) {
        Role::Boundary
    } else {
        Role::Other
    }
}

/// What each node of a tree is, in one byte a node and one pass over the nodes. Only memory may want, or there are 2^32 nodes.
pub fn roles_of(alloc: Global, syntax: &Syntax) -> Result<Vec<Role>, OutOfMemory>
    ensures { IfOk result (λ roles. (uses : List (ℕ × ℕ)) → AreRoles (source_in syntax.now uses) roles.items) }
{
    if syntax.tree.nodes.len() > u32::MAX as usize {
        return Err(OutOfMemory);
    }
    let mut roles = Vec::with_capacity(alloc, syntax.tree.nodes.len())?;
    for node in 0..syntax.tree.nodes.len() as u32 {
        roles.push(role_of(syntax, node))?;
    }
    Ok(roles)
}

// What a node is, by what is known of each.
fn known_at(roles: &[Role], node: u32) -> Role
    ensures { result ≡ get_or roles.now node Other }
{
    match roles.get(node as usize) {
        Some(role) => *role,
        None => Role::Other,
    }
}

/// Whether a node is the specifier of a structure or union, by what is known of each node.
pub fn is_structure_at(roles: &[Role], node: u32) -> bool
    ensures { (s : Source) → AreRoles s roles.now → result ≡ tree.is_a s p_struct node }
{
    match known_at(roles, node) {
        Role::Structure => true,
        Role::Enumeration | Role::Member | Role::Boundary | Role::Other => false,
    }
}

/// Whether a node is the specifier of a structure, a union or an enumeration, by what is known of each node.
pub fn is_specifier_at(roles: &[Role], node: u32) -> bool
    ensures { (s : Source) →
        AreRoles s roles.now → result ≡ (tree.is_a s p_struct node || tree.is_a s p_enum node) }
{
    match known_at(roles, node) {
        Role::Structure | Role::Enumeration => true,
        Role::Member | Role::Boundary | Role::Other => false,
    }
}

/// Whether a node is a declaration of members, by what is known of each node.
pub fn is_member_at(roles: &[Role], node: u32) -> bool
    ensures { (s : Source) → AreRoles s roles.now → result ≡ tree.is_a s p_member node }
{
    match known_at(roles, node) {
        Role::Member => true,
        Role::Structure | Role::Enumeration | Role::Boundary | Role::Other => false,
    }
}

/// Whether a node is a block or a parameter list, by what is known of each node.
pub fn is_boundary_at(roles: &[Role], node: u32) -> bool
    ensures { (s : Source) → AreRoles s roles.now → result ≡ spec.is_boundary s node }
{
    match known_at(roles, node) {
        Role::Boundary => true,
        Role::Structure | Role::Enumeration | Role::Member | Role::Other => false,
    }
}
