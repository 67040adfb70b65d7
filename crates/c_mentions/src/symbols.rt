//! Symbols: a name is known by the first token that spells it.
ghost use Rattle.c_mentions.specs.Symbols as spec;
ghost use Rattle.c_mentions.specs.Symbols.{Numbers};
ghost use Rattle.c_mentions.specs.Recent.{Recalls, Recent};
ghost use Rattle.c_grammar.specs.Terminals.{spelled};
ghost use Rattle.std.specs.Prelude.{◌≡◌, ◌<◌, ◌^◌, ℕ, List, Option, Some, length, replicate, slice_get, IfOk, IfSome, OnOk};

use crate::syntax::is_identifier;
use c_grammar::terminals::spelled;
use c_lexer::Token;
use pta_base::OutOfMemory;
use std::alloc::Global;
use std::collections::BTreeMap;

/// How many names that were numbered lately are kept, one a place.
const RECENT_NAMES: u32 = 1024;

/// The first token of each spelling.
type Firsts = BTreeMap<Vec<u8>, u32>;

/// The first token that spells a name.
fn first_of(firsts: &Firsts, name: &[u8]) -> Option<u32>
    ensures { result ≡ spec.known firsts.now name.now }
{
    firsts.get(name).copied()
}

/// The symbol of an identifier behind those that are numbered, which is numbered too.
fn number(alloc: Global, firsts: &mut Firsts, name: &[u8], token: u32) -> Result<u32, OutOfMemory>
    ensures symbol { IfOk result (λ symbol. symbol ≡ spec.first_or (spec.known firsts.old name.now) token) }
    ensures known { OnOk result ((other : List ℕ) → spec.known firsts.new other ≡ spec.known_after (spec.known firsts.old) name.now token other) }
{
    match first_of(firsts, name) {
        Some(first) => Ok(first),
        None => {
            let mut key = Vec::new(alloc);
            key.extend_from_slice(name)?;
            firsts.insert(key, token)?;
            Ok(token)
        }
    }
}

/// The place of a name among those that were numbered last.
fn place_of_name(name: &[u8]) -> usize
    ensures { result < 1024 }
{
    let mut sum = 0u32;
    for byte in name {
        sum = sum.wrapping_mul(31).wrapping_add(u32::from(*byte));
    }
    (sum % RECENT_NAMES) as usize
}

/// No names that were numbered lately.
fn none_recent(alloc: Global) -> Result<Vec<(u32, u32)>, OutOfMemory>
    ensures { IfOk result (λ recent. recent.items ≡ replicate 1024 (4294967295, 0)) }
{
    let mut recent = Vec::new(alloc);
    recent.resize(RECENT_NAMES as usize, (u32::MAX, 0))?;
    Ok(recent)
}

/// The symbol of a name, where it is the one that was numbered last at its place.
fn recalled(
    text: &[u8],
    tokens: &[Token],
    recent: &[(u32, u32)],
    place: usize,
    name: &[u8],
) -> Option<u32>
    requires { place < length recent.now }
    ensures { (firsts : List ℕ → Option ℕ)
        → Recalls text.now tokens.now firsts recent.now
        → IfSome result (λ symbol. firsts name.now ≡ Some symbol) }
{
    let (token, symbol) = recent[place];
    match tokens.get(token as usize) {
        Some(here) => {
            if spelled(text, *here) == name {
                Some(symbol)
            } else {
                None
            }
        }
        None => None,
    }
}

/// The symbol of a token that is an identifier, behind those that are numbered: as its name was numbered lately, or else by its name
/// among all.
fn number_name(
    alloc: Global,
    firsts: &mut Firsts,
    recent: &mut Vec<(u32, u32)>,
    text: &[u8],
    tokens: &[Token],
    here: Token,
    token: u32,
) -> Result<u32, OutOfMemory>
    requires here { slice_get tokens.now token ≡ Some here }
    requires recent { Recent text.now tokens.now (spec.known firsts.old) recent.old.items }
    ensures symbol { IfOk result (λ symbol. symbol ≡ spec.first_or (spec.known firsts.old (spelled text.now here)) token) }
    ensures known { OnOk result
        ((other : List ℕ)
        → spec.known firsts.new other ≡ spec.known_after (spec.known firsts.old) (spelled text.now here) token other) }
    ensures recent { OnOk result (Recent text.now tokens.now (spec.known firsts.new) recent.new.items) }
{
    let name = spelled(text, here);
    let place = place_of_name(name);
    match recalled(text, tokens, recent.as_slice(), place, name) {
        Some(symbol) => Ok(symbol),
        None => {
            let symbol = number(alloc, firsts, name, token)?;
            recent[place] = (token, symbol);
            Ok(symbol)
        }
    }
}

/// The symbol of a token behind those that are numbered; an identifier is numbered too.
fn number_token(
    alloc: Global,
    firsts: &mut Firsts,
    recent: &mut Vec<(u32, u32)>,
    text: &[u8],
    tokens: &[Token],
    here: Token,
    token: u32,
) -> Result<u32, OutOfMemory>
    requires here { slice_get tokens.now token ≡ Some here }
    requires recent { Recent text.now tokens.now (spec.known firsts.old) recent.old.items }
    ensures symbol { IfOk result (λ symbol. symbol ≡ spec.numbered text.now (spec.known firsts.old) here token) }
    ensures known { OnOk result
        ((other : List ℕ) → spec.known firsts.new other ≡ spec.known_with text.now (spec.known firsts.old) here token other) }
    ensures recent { OnOk result (Recent text.now tokens.now (spec.known firsts.new) recent.new.items) }
{
    if is_identifier(here.kind) {
        number_name(alloc, firsts, recent, text, tokens, here, token)
    } else {
        Ok(token)
    }
}

/// The symbol of each token: of an identifier the number of the first identifier that is spelled so, and of any other token
/// its own number.
pub fn symbols(alloc: Global, text: &[u8], tokens: &[Token]) -> Result<Vec<u32>, OutOfMemory>
    requires { length tokens.now < 2 ^ 32 }
    ensures { IfOk result (λ symbols. Numbers text.now tokens.now symbols.items) }
{
    let mut firsts = BTreeMap::new(alloc);
    let mut recent = none_recent(alloc)?;
    let mut symbols = Vec::new(alloc);
    for (token, here) in tokens.iter().enumerate() {
        let number = number_token(
            alloc,
            &mut firsts,
            &mut recent,
            text,
            tokens,
            *here,
            token as u32,
        )?;
        symbols.push(number)?;
    }
    Ok(symbols)
}
