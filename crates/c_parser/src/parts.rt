//! Parts of rows that make no node, and are read at once: a choice alone is the production that is chosen in the end, and a token
//! alone and nothing need not be opened.
ghost use Rattle.c_grammar.specs.Notes.{noted};
ghost use Rattle.c_grammar.specs.Table.{item_of};
ghost use Rattle.c_parser.specs.Parts.{IsPart, Forks, IsWord, IsReadAs};
ghost use Rattle.std.specs.Prelude.{◌≡◌, true, None, IfSome};

use c_grammar::looks::{chosen, makes_node, nests, refusal};
use c_grammar::notes::Notes;
use c_grammar::terminals::takes;
use c_grammar::{Item, item};

/// The most constructs that may be open at a token.
const MOST_NESTED: u32 = 256;

/// No choice leads through as many others.
const MOST_FORKS: u32 = 32;

/// Whether a production makes no node, and is opened without a fault, by the terminals of the next two tokens, within `depth` open
/// constructs.
fn is_part(production: u32, first: u32, second: u32, depth: u32) -> bool
    ensures { result ≡ true → IsPart production first second depth }
{
    !makes_node(production)
        && (nests(production) == 0
            && (refusal(production, first, second).is_none() && depth <= MOST_NESTED))
}

/// The alternatives of a row that has a choice alone.
fn fork(production: u32) -> Option<(u32, u32)>
    ensures { IfSome result (λ pair. Forks production pair.0 pair.1) }
{
    let Some(Item::Choice(one, other)) = item(production, 0) else {
        return None;
    };
    match item(production, 1) {
        None => Some((one, other)),
        Some(_) => None,
    }
}

/// The production that is read where one is used: the one that is chosen in the end, where the row has a choice alone, or none where
/// no alternative fits.
pub(crate) fn passed(used: u32, first: u32, second: u32, depth: u32, notes: &Notes) -> Option<u32>
    ensures { IsReadAs used first second depth (noted notes.now) result }
{
    let mut production = used;
    'forks: for _ in 0..MOST_FORKS {
        if !is_part(production, first, second, depth) {
            return Some(production);
        }
        let Some(pair) = fork(production) else {
            return Some(production);
        };
        match chosen(pair.0, pair.1, first, second, notes) {
            Some(next) => production = next,
            None => return None,
        }
    }
    Some(production)
}

/// Whether a part of a row has one token alone, which is the next one.
pub(crate) fn is_word(production: u32, first: u32, second: u32, depth: u32) -> bool
    ensures { result ≡ true → IsPart production first second depth × IsWord production first }
{
    is_part(production, first, second, depth) && takes_alone(production, first)
}

/// Whether a row has one token alone, which is the next one.
fn takes_alone(production: u32, first: u32) -> bool
    ensures { result ≡ true → IsWord production first }
{
    let Some(Item::Token(kind)) = item(production, 0) else {
        return false;
    };
    takes(production, kind, first) && item(production, 1).is_none()
}

/// Whether a part of a row has nothing to read.
pub(crate) fn is_nothing(production: u32, first: u32, second: u32, depth: u32) -> bool
    ensures { result ≡ true → IsPart production first second depth × (item_of production 0 ≡ None) }
{
    is_part(production, first, second, depth) && item(production, 0).is_none()
}
