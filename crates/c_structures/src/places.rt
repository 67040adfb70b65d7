// Where members stand.
ghost use Rattle.std.specs.Prelude.{◌≡◌, ◌<◌, ◌&&◌, ◌==◌, ℕ, length, Some, None, is_none, if◌then◌else◌};
ghost use Rattle.c_grammar.specs.Productions.{p_struct, p_field};
ghost use Rattle.c_senses.specs.World.{World};
ghost use Rattle.c_senses.specs.Tree as tree;
ghost use Rattle.c_senses.specs.Sense.{Sense};
ghost use Rattle.c_senses.specs.Tags as spec;
ghost use Rattle.tree_reads.specs.Sources.{source_read};
ghost use Rattle.c_structures.specs.Members.{last_declaration};

use c_grammar::productions::{FIELD, SPECS, STRUCT};
use tree_reads::{Syntax, Test, any_where, child_of, children_of, first_where, is_a, last_where};

const WORD_UNION: u8 = 29;

// The first node of a list under which a specifier of a structure or union stands.
fn first_holding(syntax: &Syntax, list: &[u32]) -> Option<u32>
    ensures { let s = source_read syntax.now in
        result ≡ tree.first_where (λ t. tree.any_where (tree.is_a s p_struct) (tree.children_at s t)) list.now }
{
    for node in list {
        if any_where(syntax, Test::IsA(STRUCT), children_of(syntax, *node)) {
            return Some(*node);
        }
    }
    None
}

/// The leaf of the tag of a specifier, if it has one.
pub fn tag_leaf(syntax: &Syntax, node: u32) -> Option<u32>
    ensures { result ≡ spec.tag_leaf (source_read syntax.now) node }
{
    first_where(syntax, Test::Name, children_of(syntax, node))
}

// Whether a node is the specifier of a structure or union without a tag.
fn is_untagged(syntax: &Syntax, node: u32) -> bool
    ensures { let s = source_read syntax.now in result ≡ (tree.is_a s p_struct node && is_none (spec.tag_leaf s node)) }
{
    is_a(syntax, STRUCT, node) && tag_leaf(syntax, node).is_none()
}

// The first specifier of a structure or union without a tag.
fn first_untagged(syntax: &Syntax, list: &[u32]) -> Option<u32>
    ensures { let s = source_read syntax.now in
        result ≡ tree.first_where (λ c. tree.is_a s p_struct c && is_none (spec.tag_leaf s c)) list.now }
{
    for node in list {
        if is_untagged(syntax, *node) {
            return Some(*node);
        }
    }
    None
}

/// The specifier of a structure or union without a tag among specifiers.
pub fn untagged_in(syntax: &Syntax, specs: u32) -> Option<u32>
    ensures { (w : World) (sense : ℕ → Sense) → result ≡ spec.untagged_in w (source_read syntax.now) sense specs }
{
    match first_holding(syntax, children_of(syntax, specs)) {
        Some(holder) => first_untagged(syntax, children_of(syntax, holder)),
        None => None,
    }
}

// Whether a specifier is one of a union.
fn is_union(syntax: &Syntax, node: u32) -> bool
    ensures { result ≡ spec.is_union (source_read syntax.now) node }
{
    any_where(syntax, Test::Word(WORD_UNION), children_of(syntax, node))
}

/// Whether a declaration of members stands in a union's list.
pub fn is_in_union(syntax: &Syntax, member: u32) -> bool
    requires { member < length syntax.now.tree.now.nodes.items }
    ensures { (w : World) (sense : ℕ → Sense) → result ≡ spec.is_in_union w (source_read syntax.now) sense member }
{
    let Some(list) = syntax.parent_of(member) else {
        return false;
    };
    match syntax.parent_of(list) {
        Some(specifier) => is_union(syntax, specifier),
        None => false,
    }
}

/// Whether a field stands in a union's list.
pub fn in_union(syntax: &Syntax, field: u32) -> bool
    requires { field < length syntax.now.tree.now.nodes.items }
    ensures { (w : World) (sense : ℕ → Sense) → result ≡ spec.in_union w (source_read syntax.now) sense field }
{
    match syntax.parent_of(field) {
        Some(member) => is_in_union(syntax, member),
        None => false,
    }
}

// Whether a structure or union without a tag is among specifiers, if there are some.
fn has_untagged(syntax: &Syntax, specs: Option<u32>) -> bool
    ensures { (w : World) (sense : ℕ → Sense) → result ≡ spec.has_untagged w (source_read syntax.now) sense specs }
{
    match specs {
        Some(specs) => untagged_in(syntax, specs).is_some(),
        None => false,
    }
}

// Whether a declaration of members declares one.
fn declares_members(syntax: &Syntax, member: u32) -> bool
    ensures { (w : World) (sense : ℕ → Sense) → result ≡ spec.declares_members w (source_read syntax.now) sense member }
{
    child_of(syntax, FIELD, member).is_some()
        || has_untagged(syntax, child_of(syntax, SPECS, member))
}

// The node, if it is a declaration that declares a member, or the one before.
fn later(syntax: &Syntax, node: u32, before: Option<u32>) -> Option<u32>
    ensures { (w : World) (sense : ℕ → Sense) →
        let s = source_read syntax.now in
        result ≡ tree.last_or (if spec.declares_members w s sense node then Some node else None) before }
{
    if declares_members(syntax, node) {
        Some(node)
    } else {
        before
    }
}

// The last declaration of a list that declares a member.
fn last_declaring(syntax: &Syntax, list: &[u32]) -> Option<u32>
    ensures { (w : World) (sense : ℕ → Sense) →
        let s = source_read syntax.now in result ≡ tree.last_where (spec.declares_members w s sense) list.now }
{
    let mut last = None;
    for node in list {
        last = later(syntax, *node, last);
    }
    last
}

// Whether a declaration is the last one of its list that declares a member.
fn is_last_declaring(syntax: &Syntax, member: u32) -> bool
    requires { member < length syntax.now.tree.now.nodes.items }
    ensures { (w : World) (sense : ℕ → Sense) →
        result ≡ last_declaration w (source_read syntax.now) sense (tree.parent_of (source_read syntax.now) member) member }
{
    let Some(list) = syntax.parent_of(member) else {
        return false;
    };
    match last_declaring(syntax, children_of(syntax, list)) {
        Some(last) => last == member,
        None => false,
    }
}

// Whether a field is the last one of its declaration.
fn is_last_of_declaration(syntax: &Syntax, member: u32, field: u32) -> bool
    ensures { (w : World) (sense : ℕ → Sense) →
        let s = source_read syntax.now in result ≡ spec.is_last_in w s sense (tree.is_a s p_field) member field }
{
    match last_where(syntax, Test::IsA(FIELD), children_of(syntax, member)) {
        Some(last) => last == field,
        None => false,
    }
}

/// Whether a field is the last one of its list, with no declaration of a member behind its own.
pub fn is_last_field(syntax: &Syntax, field: u32) -> bool
    requires { field < length syntax.now.tree.now.nodes.items }
    ensures { (w : World) (sense : ℕ → Sense) → result ≡ spec.is_last_field w (source_read syntax.now) sense field }
{
    match syntax.parent_of(field) {
        Some(member) => {
            is_last_of_declaration(syntax, member, field) && is_last_declaring(syntax, member)
        }
        None => false,
    }
}
