// Reads of lists of nodes.
ghost use Rattle.std.specs.Prelude.{◌≡◌, List, ℕ, length};
ghost use Rattle.c_senses.specs.Tree as spec;
ghost use Rattle.tree_reads.specs.Sources.{source_read, test_seen};

use crate::reads::{children_of, has_sign, has_word, is_a, is_leaf, is_name};
use crate::syntax::Syntax;

/// What a node of a list is asked: whether it is of a production, the leaf of a punctuator, a keyword or an identifier, or no
/// leaf.
#[derive(Clone, Copy, Debug, PartialEq, Eq)]
pub enum Test {
    IsA(u32),
    Sign(u8),
    Word(u8),
    Name,
    Inner,
}

// Whether a node passes a test.
fn passes(syntax: &Syntax, test: Test, node: u32) -> bool
    ensures { result ≡ test_seen (source_read syntax.now) test node }
{
    match test {
        Test::IsA(production) => is_a(syntax, production, node),
        Test::Sign(sign) => has_sign(syntax, sign, node),
        Test::Word(word) => has_word(syntax, word, node),
        Test::Name => is_name(syntax, node),
        Test::Inner => !is_leaf(syntax, node),
    }
}

/// The first node of a list that passes a test.
pub fn first_where(syntax: &Syntax, test: Test, list: &[u32]) -> Option<u32>
    ensures { result ≡ spec.first_where (test_seen (source_read syntax.now) test) list.now }
{
    for node in list {
        if passes(syntax, test, *node) {
            return Some(*node);
        }
    }
    None
}

/// Whether a node of a list passes a test.
pub fn any_where(syntax: &Syntax, test: Test, list: &[u32]) -> bool
    ensures { result ≡ spec.any_where (test_seen (source_read syntax.now) test) list.now }
{
    for node in list {
        if passes(syntax, test, *node) {
            return true;
        }
    }
    false
}

/// How many nodes of a list pass a test.
pub fn count_where(syntax: &Syntax, test: Test, list: &[u32]) -> usize
    ensures { result ≡ length (spec.all_where (test_seen (source_read syntax.now) test) list.now) }
{
    let mut count = 0;
    for node in list {
        if passes(syntax, test, *node) {
            count += 1;
        }
    }
    count
}

/// The first child of a node that is of a production.
pub fn child_of(syntax: &Syntax, production: u32, node: u32) -> Option<u32>
    ensures { result ≡ spec.child_of (source_read syntax.now) production node }
{
    first_where(syntax, Test::IsA(production), children_of(syntax, node))
}

/// The last node of a list that passes a test.
pub fn last_where(syntax: &Syntax, test: Test, list: &[u32]) -> Option<u32>
    ensures { result ≡ spec.last_where (test_seen (source_read syntax.now) test) list.now }
{
    let mut found = None;
    for node in list {
        if passes(syntax, test, *node) {
            found = Some(*node);
        }
    }
    found
}
