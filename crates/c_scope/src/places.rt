//! The declarations of names by scope and symbol.
ghost use Rattle.c_scope.specs.Known.{clashes, innermost, those_at};
ghost use Rattle.c_scope.specs.Places as spec;
ghost use Rattle.c_scope.specs.Places.{Says, found_of};
ghost use Rattle.c_mentions.specs.Settings.{IsChain};
ghost use Rattle.std.specs.Prelude.{◌≡◌, ◌∷◌, [], ◌++◌, ℕ, List, IfOk, slice_get};
ghost use Rattle.std.specs.List.{list_any};

use crate::kinds::{Declared, Kind};
use c_mentions::settings::Scope;
use pta_base::OutOfMemory;
use std::collections::BTreeMap;

/// The declarations of one name in one scope: the node of the latest, whether that declares a function or a function's type,
/// and what all of them are to a further one: `Plain` where two of them differ.
#[derive(Clone, Copy)]
pub(crate) struct Entry {
    pub(crate) node: u32,
    pub(crate) kind: Kind,
    pub(crate) is_function: bool,
}

/// The declarations by the number of the scope and the symbol.
pub(crate) type Places = BTreeMap<(u32, u32), Entry>;

/// The declaration that a use means.
#[derive(Clone, Copy)]
pub(crate) struct Found {
    pub(crate) node: u32,
    pub(crate) is_function: bool,
}

/// Whether two declarations of a name in a scope may stand side by side.
fn agree(one: Kind, other: Kind) -> bool
    ensures { result ≡ spec.agrees one other }
{
    match one {
        Kind::Linked => match other {
            Kind::Linked => true,
            _ => false,
        },
        Kind::Typedef => match other {
            Kind::Typedef => true,
            _ => false,
        },
        Kind::Plain => false,
    }
}

/// What two declarations together are to a further one.
fn merged(one: Kind, other: Kind) -> Kind
    ensures { result ≡ spec.merged one other }
{
    match one {
        Kind::Linked => match other {
            Kind::Linked => Kind::Linked,
            _ => Kind::Plain,
        },
        Kind::Typedef => match other {
            Kind::Typedef => Kind::Typedef,
            _ => Kind::Plain,
        },
        Kind::Plain => Kind::Plain,
    }
}

/// The declarations of a name in a scope with one more.
fn joined(before: Option<Entry>, entry: Entry) -> Entry
    ensures { result ≡ spec.joined before entry }
{
    match before {
        None => entry,
        Some(before) => Entry {
            node: entry.node,
            kind: merged(before.kind, entry.kind),
            is_function: entry.is_function,
        },
    }
}

/// Whether a declaration of a kind may not stand beside those before it.
fn clash(before: Option<Entry>, kind: Kind) -> bool
    ensures { result ≡ spec.clash before kind }
{
    match before {
        None => false,
        Some(before) => !agree(before.kind, kind),
    }
}

/// The declarations of a symbol in a scope.
fn entry_at(places: &Places, scope: u32, symbol: u32) -> Option<Entry>
    ensures { result ≡ spec.entry_at places.now scope symbol }
{
    places.get(&(scope, symbol)).copied()
}

/// Puts the declarations of a symbol in a scope.
fn put(places: &mut Places, scope: u32, symbol: u32, entry: Entry) -> Result<(), OutOfMemory>
    ensures { IfOk result
        (λ done. (other sign : ℕ)
        → spec.entry_at places.new other sign ≡ spec.entry_after places.old scope symbol entry other sign) }
{
    places.insert((scope, symbol), entry)?;
    Ok(())
}

/// The declaration of a symbol in a scope.
pub(crate) fn declared_by(scope: u32, symbol: u32, entry: Entry) -> Declared
    ensures { result ≡ spec.declared_at scope symbol entry }
{
    Declared {
        node: entry.node,
        symbol,
        scope,
        kind: entry.kind,
        is_function: entry.is_function,
    }
}

/// Declares a symbol in a scope, and answers whether the declaration may not stand beside those before it there.
pub(crate) fn declare(
    places: &mut Places,
    scope: u32,
    symbol: u32,
    entry: Entry,
) -> Result<bool, OutOfMemory>
    ensures says { IfOk result
        (λ clash. (ds : List Declared) → Says places.old ds → Says places.new (ds ++ spec.declared_at scope symbol entry ∷ [])) }
    ensures clash { IfOk result
        (λ clash. (ds : List Declared) → Says places.old ds → clash ≡ list_any (clashes entry.kind) (those_at scope symbol ds)) }
{
    let before = entry_at(places, scope, symbol);
    put(places, scope, symbol, joined(before, entry))?;
    Ok(clash(before, entry.kind))
}

/// What an entry says to a use.
fn seen(entry: Entry) -> Found
    ensures { result ≡ spec.seen entry }
{
    Found {
        node: entry.node,
        is_function: entry.is_function,
    }
}

/// A scope by its place in the list of scopes.
pub(crate) fn scope_at(scopes: &[Scope], place: u32) -> Option<Scope>
    ensures { result ≡ slice_get scopes.now place }
{
    scopes.get(place as usize).copied()
}

/// The innermost declaration of a symbol, from a scope outwards.
pub(crate) fn meaning(places: &Places, scopes: &[Scope], scope: u32, symbol: u32) -> Option<Found>
    ensures { (chain : List ℕ) (ds : List Declared)
        → IsChain scopes.now scope chain
        → Says places.now ds
        → result ≡ found_of (innermost chain symbol ds) }
{
    let mut place = scope;
    while let Some(here) = scope_at(scopes, place) {
        if let Some(entry) = entry_at(places, here.number, symbol) {
            return Some(seen(entry));
        }
        if here.outer >= place {
            return None;
        }
        place = here.outer;
    }
    None
}
