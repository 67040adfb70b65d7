// The initialisers of declarators.
ghost use Rattle.std.specs.Prelude.{◌≡◌, ◌<◌, ℕ, length, None, true, if◌then◌else◌};
ghost use Rattle.c_grammar.specs.Productions.{p_rest};
ghost use Rattle.core_nodes.specs.passed.c_senses.Tree.{is_a, children_at};
ghost use Rattle.core_nodes.specs.passed.c_senses.Sense.{Sense};
ghost use Rattle.core_nodes.specs.passed.c_senses.Entities as spec;
ghost use Rattle.tree_reads.specs.Order.{ascends};
ghost use Rattle.tree_reads.specs.Sources.{source_read};

use c_grammar::productions::{ASM_NAME, REST};
use tree_reads::{Above, Syntax, children_of, first_from, has_sign, is_a, nearest_above};

const SIGN_ASSIGN: u8 = 34;

// The initialiser at the head of some nodes, behind its equals sign.
fn initialiser_in(syntax: &Syntax, list: &[u32]) -> Option<u32>
    ensures { (sense : ℕ → Sense) → result ≡ spec.initialiser_in (source_read syntax.now) sense list.now }
{
    if list.len() < 2 {
        return None;
    }
    if has_sign(syntax, SIGN_ASSIGN, list[0]) {
        Some(list[1])
    } else {
        None
    }
}

// What stands behind a node among some nodes.
fn behind(node: u32, list: &[u32]) -> &[u32]
    ensures { result.now ≡ spec.behind node list.now }
{
    for at in 0..list.len() {
        if list[at] == node {
            return &list[at + 1..];
        }
    }
    &list[list.len()..]
}

// The same for an ascending list.
fn behind_in_order(node: u32, list: &[u32]) -> &[u32]
    requires { ascends list.now ≡ true }
    ensures { result.now ≡ spec.behind node list.now }
{
    let at = first_from(list, node);
    if at < list.len() && list[at] == node {
        return &list[at + 1..];
    }
    &list[list.len()..]
}

// What stands behind a node among the children of another one.
fn behind_among<'a>(syntax: &Syntax<'a>, parent: u32, node: u32) -> &'a [u32]
    ensures { result.now ≡ spec.behind node (children_at (source_read syntax.now) parent) }
{
    let list = children_of(syntax, parent);
    if syntax.is_ordered() {
        behind_in_order(node, list)
    } else {
        behind(node, list)
    }
}

// The nodes without an assembler name at their head.
fn without_asm<'a>(syntax: &Syntax, list: &'a [u32]) -> &'a [u32]
    ensures { (sense : ℕ → Sense) → result.now ≡ spec.without_asm (source_read syntax.now) sense list.now }
{
    if list.is_empty() {
        return list;
    }
    if is_a(syntax, ASM_NAME, list[0]) {
        &list[1..]
    } else {
        list
    }
}

// The initialiser that the rest of a declaration begins with, if a node is one.
fn rest_initialiser(syntax: &Syntax, node: u32) -> Option<u32>
    ensures { (sense : ℕ → Sense) →
        let s = source_read syntax.now in
        result ≡ (if is_a s p_rest node then spec.initialiser_in s sense (children_at s node) else None) }
{
    if is_a(syntax, REST, node) {
        initialiser_in(syntax, children_of(syntax, node))
    } else {
        None
    }
}

// The initialiser at the head of the rest of a declaration, where that stands first.
fn in_rest(syntax: &Syntax, list: &[u32]) -> Option<u32>
    ensures { (sense : ℕ → Sense) → result ≡ spec.in_rest (source_read syntax.now) sense list.now }
{
    if list.is_empty() {
        return None;
    }
    rest_initialiser(syntax, list[0])
}

// The initialiser of a declarator, by the node in which it stands.
fn initialiser_within(syntax: &Syntax, parent: u32, declarator: u32) -> Option<u32>
    ensures { (sense : ℕ → Sense) →
        let s = source_read syntax.now in
        let list = spec.without_asm s sense (spec.behind declarator (children_at s parent)) in
        result ≡ (if is_a s p_rest parent then spec.initialiser_in s sense list else spec.in_rest s sense list) }
{
    let list = without_asm(syntax, behind_among(syntax, parent, declarator));
    if is_a(syntax, REST, parent) {
        initialiser_in(syntax, list)
    } else {
        in_rest(syntax, list)
    }
}

/// The initialiser of a declarator (C11 6.7.9): it stands behind it, or begins the rest of its declaration.
pub fn initialiser_of(syntax: &Syntax, declarator: u32) -> Option<u32>
    requires { declarator < length syntax.now.tree.now.nodes.items }
    ensures { (sense : ℕ → Sense) → result ≡ spec.initialiser_of (source_read syntax.now) sense declarator }
{
    let parent = syntax.parent_of(declarator)?;
    initialiser_within(syntax, parent, declarator)
}

/// The initialiser of a name, by its leaf.
pub fn initialiser_for(syntax: &Syntax, leaf: u32) -> Option<u32>
    requires { leaf < length syntax.now.tree.now.nodes.items }
    ensures { (sense : ℕ → Sense) → result ≡ spec.initialiser_for (source_read syntax.now) sense leaf }
{
    let declarator = nearest_above(syntax, Above::Outermost, leaf)?;
    initialiser_of(syntax, declarator)
}
