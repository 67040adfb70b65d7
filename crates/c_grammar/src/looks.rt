//! The tests of the grammar on the next tokens.
ghost use Rattle.c_grammar.specs.Fits as test;
ghost use Rattle.c_grammar.specs.First.{can_be_empty as can_be_empty_by_table};
ghost use Rattle.c_grammar.specs.Notes.{noted};
ghost use Rattle.c_grammar.specs.Refusals as refuse;
ghost use Rattle.c_grammar.specs.Tree as tree;
ghost use Rattle.std.specs.List.{list_any, list_all};
ghost use Rattle.std.specs.Prelude.{count_by, ◌==◌, ◌≡◌, ◌<◌, ◌≤◌, ◌^◌, ◌∷◌, length, nat_le, Some, None, if◌then◌else◌};

use crate::firsts::{DECLARATIONS, FIRSTS, TYPES};
use crate::notes::{Notes, Shape};
use crate::productions::*;
use crate::terminals::*;
use crate::words::*;
use pta_base::Kind;

/// Whether a set of terminals has one.
#[tactic(auto, unfolding(crate::specs::Fits::has))]
fn has(set: u128, terminal: u32) -> bool
    ensures { result ≡ test.has set terminal }
{
    terminal < 128 && (set >> terminal) % 2 == 1
}

/// Whether a production begins with a terminal.
#[tactic(auto, unfolding(crate::specs::Fits::begins))]
fn begins(production: u32, terminal: u32) -> bool
    ensures { result ≡ test.begins production terminal }
{
    production < 258 && has(FIRSTS[production as usize], terminal)
}

#[tactic(auto, unfolding(crate::specs::Fits::starts_type))]
fn starts_type(terminal: u32) -> bool
    ensures { result ≡ test.starts_type terminal }
{
    has(TYPES, terminal)
}

#[tactic(auto, unfolding(crate::specs::Fits::starts_declaration))]
fn starts_declaration(terminal: u32) -> bool
    ensures { result ≡ test.starts_declaration terminal }
{
    has(DECLARATIONS, terminal)
}

/// How often a word stands in a list.
fn times(word: u32, words: &[u32]) -> usize
    ensures is { result ≡ count_by (λ w. w == word) words.now }
    ensures within { result ≤ length words.now }
{
    words.iter().filter(|w| **w == word).count()
}

/// Whether a word stands at least as often in a list as in others with one more.
#[tactic(auto, using(crate::proofs::Combines::times_is))]
fn has_room(w: u32, word: u32, words: &[u32], list: &[u32]) -> bool
    requires { length words.now < 2 ^ 63 }
    ensures { result ≡ nat_le (test.times w (word ∷ words.now)) (test.times w list.now) }
{
    let others = times(w, words);
    let all = if word == w { others + 1 } else { others };
    all <= times(w, list)
}

/// Whether each word of a list has room in another, with one more word beside them.
fn all_have_room(word: u32, words: &[u32], list: &[u32]) -> bool
    requires { length words.now < 2 ^ 63 }
    ensures { result ≡ list_all (λ w. nat_le (test.times w (word ∷ words.now)) (test.times w list.now)) words.now }
{
    words.iter().all(|w| has_room(*w, word, words, list))
}

/// Whether a word and others are part of a list.
fn is_part_of(word: u32, words: &[u32], list: &[u32]) -> bool
    requires { length words.now < 2 ^ 63 }
    ensures { result ≡ test.is_part_of (word ∷ words.now) list.now }
{
    if !has_room(word, word, words, list) {
        return false;
    }
    all_have_room(word, words, list)
}

/// Whether a word and others are part of one of the lists.
fn any_has_room(word: u32, words: &[u32], lists: &[&[u32]]) -> bool
    requires { length words.now < 2 ^ 63 }
    ensures { result ≡ list_any (λ list. test.is_part_of (word ∷ words.now) list.now) lists.now }
{
    lists.iter().any(|list| is_part_of(word, words, list))
}

/// Whether a type word goes on after others.
fn combines(words: &[u32], word: u32) -> bool
    ensures { result ≡ test.combines words.now word }
{
    any_has_room(word, words, &TYPE_WORDS)
}

/// Whether a token is a further specifier behind a type word.
fn is_specifier(first: u32, words: &[u32]) -> bool
    ensures { result ≡ test.is_specifier first words.now }
{
    begins(EARLY, first)
        || first == TYPEOF_NAME
        || (begins(MORE_TYPE, first) && combines(words, first))
}

/// Whether a declarator has made a function of its name.
fn is_function(shape: Shape) -> bool
    ensures { result ≡ test.is_function shape }
{
    match shape {
        Shape::Function => true,
        Shape::Nameless | Shape::Bare | Shape::Listed | Shape::Other => false,
    }
}

/// Whether the production is taken where it is an alternative or may be repeated, by the terminals of the next two tokens and
/// by what the production around it has noted.
#[tactic(auto, unfolding(crate::specs::Fits::fits))]
pub fn fits(production: u32, first: u32, second: u32, notes: &Notes) -> bool
    ensures { result ≡ test.fits production first second (noted notes.now) }
{
    match production {
        INNER_ABSTRACT | INNER_EITHER => {
            first == LEFT_PARENTHESIS && second != RIGHT_PARENTHESIS && !starts_type(second)
        }
        TYPED_CAST | TYPED_SIZE => first == LEFT_PARENTHESIS && starts_type(second),
        BLOCK_DECLARATION => starts_declaration(first) && second != COLON,
        LABEL => takes_name(LABEL, first) && second == COLON,
        MORE_ENUMERATORS | MORE_ITEMS | MORE_PARAMETERS => {
            first == COMMA && second != RIGHT_BRACE && second != ELLIPSIS
        }
        ANY_LENGTH => first == ASTERISK && second == RIGHT_BRACKET,
        BODY => first == LEFT_BRACE && is_function(notes.shape),
        LATER => is_specifier(first, &notes.words),
        _ => begins(production, first),
    }
}

/// Whether a production can take no token.
#[tactic(auto, unfolding(crate::specs::First::can_be_empty))]
fn can_be_empty(production: u32) -> bool
    ensures { result ≡ can_be_empty_by_table production }
{
    match production {
        ABSTRACT | EITHER | ITEMS | NOTHING_AT_ALL | EITHER_1 | ARRAY_LENGTH => true,
        _ => false,
    }
}

/// The alternative that is taken: the first one whose test fits, where the last one also fits if it can be empty.
#[tactic(auto, unfolding(crate::specs::Fits::chosen))]
pub fn chosen(one: u32, other: u32, first: u32, second: u32, notes: &Notes) -> Option<u32>
    ensures { result ≡ test.chosen one other first second (noted notes.now) }
{
    if fits(one, first, second, notes) {
        return Some(one);
    }
    if fits(other, first, second, notes) || can_be_empty(other) {
        return Some(other);
    }
    None
}

/// The kind under which a primary expression is refused where it begins.
fn refused_primary(first: u32, second: u32) -> Option<Kind>
    ensures { result ≡ refuse.refused_primary first second }
{
    if first == FLOATING {
        Some(Kind::Floating)
    } else if first == WORD_GENERIC {
        Some(Kind::Generic)
    } else if first == BUILTIN_NAME || first == BUILTIN_TYPE {
        Some(Kind::Builtin)
    } else if first == LEFT_PARENTHESIS && second == LEFT_BRACE {
        Some(Kind::StatementExpression)
    } else {
        None
    }
}

/// A kind where a condition holds.
fn kind_where(refused: bool, kind: Kind) -> Option<Kind>
    ensures { result ≡ (if refused then Some kind else None) }
{
    if refused { Some(kind) } else { None }
}

/// The kind under which a production is refused where it opens, by the terminals of the next two tokens.
#[tactic(auto, unfolding(crate::specs::Refusals::refusal))]
pub fn refusal(production: u32, first: u32, second: u32) -> Option<Kind>
    ensures { result ≡ refuse.refusal production first second }
{
    match production {
        PRIMARY => refused_primary(first, second),
        CAST => kind_where(first == BOTH, Kind::LabelAddress),
        STATEMENT | EXTERNAL => kind_where(first == WORD_ASM, Kind::Asm),
        TYPE => kind_where(first == TYPEOF_NAME, Kind::Typeof),
        RANGE_END | CASE_END => kind_where(first == ELLIPSIS, Kind::Range),
        PARAMETER => kind_where(
            first == PLAIN_NAME
                || first == BUILTIN_NAME
                || (LIST_PAIR <= first && first <= LIST_END),
            Kind::OldParameters,
        ),
        _ => None,
    }
}

/// The kind under which a token that doesn't fit is refused, wherever it stands.
#[tactic(auto, unfolding(crate::specs::Refusals::refused_token))]
pub fn refused_token(first: u32) -> Option<Kind>
    ensures { result ≡ refuse.refused_token first }
{
    match first {
        WORD_COMPLEX | WORD_IMAGINARY => Some(Kind::Complex),
        WORD_ATOMIC => Some(Kind::Atomic),
        WORD_GENERIC => Some(Kind::Generic),
        WORD_THREAD_LOCAL | THREAD_WORD => Some(Kind::ThreadLocal),
        WIDE_LITERAL => Some(Kind::Wide),
        LONG_CHARACTER => Some(Kind::Character),
        WIDE_INTEGER => Some(Kind::WideInteger),
        _ => None,
    }
}

/// Whether a production has a node of its own.
#[tactic(auto, unfolding(crate::specs::Tree::makes_node))]
pub fn makes_node(production: u32) -> bool
    ensures { result ≡ tree.makes_node production }
{
    production < NODES
}

/// How much a production adds to the nesting.
#[tactic(auto, unfolding(crate::specs::Tree::nests))]
pub fn nests(production: u32) -> u32
    ensures is { result ≡ tree.nests production }
    ensures few { result ≤ 1 }
{
    match production {
        STATEMENT
        | ASSIGNMENT
        | CONDITIONAL
        | CAST
        | DECLARATOR
        | ABSTRACT
        | EITHER
        | STRUCT
        | INIT => 1,
        _ => 0,
    }
}
