// What is seen where a name is declared, by its leaf.
ghost use Rattle.std.specs.Prelude.{◌≡◌, ℕ};
ghost use Rattle.c_senses.specs.Tree.{Source};
ghost use Rattle.c_senses.specs.Names as names;
ghost use Rattle.name_chains.specs.Links.{listed, IsLinkOf};
ghost use Rattle.name_chains.specs.Seen as spec;
ghost use Rattle.name_chains.specs.Seen.{AreChainsOf};

use crate::building::{NameChains, Seen};
use c_scope::Declared;

/// What is seen at the first declaration of a leaf.
fn seen_at(chains: &NameChains, leaf: u32) -> Option<Seen>
    ensures { result ≡ spec.seen_at chains.now leaf }
{
    match chains.positions.get(leaf) {
        Some(position) => chains.seen.get(position as usize).copied(),
        None => None,
    }
}

/// The declaration of an ordinary name that a leaf makes.
pub fn declared_at(chains: &NameChains, leaf: u32) -> Option<Declared>
    ensures { (s : Source) (n : ℕ) → AreChainsOf n s chains.now → result ≡ names.ordinary_at s leaf }
{
    match seen_at(chains, leaf) {
        Some(seen) => Some(seen.declared),
        None => None,
    }
}

/// The declarations with linkage that are seen where a name is declared (C11 6.2.2p4), by their last link among `links`.
pub fn linked_link(chains: &NameChains, leaf: u32) -> Option<u32>
    ensures link { (s : Source) (n : ℕ) → AreChainsOf n s chains.now → IsLinkOf chains.now.links.items result }
    ensures list { (s : Source) (n : ℕ) → AreChainsOf n s chains.now →
        listed chains.now.links.items result ≡ names.linked_before s (names.ordinary_at s leaf) }
{
    match seen_at(chains, leaf) {
        Some(seen) => seen.linked,
        None => None,
    }
}

/// The declarations that together give a declared name its type (C11 6.2.7p4), by their last link among `links`.
pub fn typing_link(chains: &NameChains, leaf: u32) -> Option<u32>
    ensures link { (s : Source) (n : ℕ) → AreChainsOf n s chains.now → IsLinkOf chains.now.links.items result }
    ensures list { (s : Source) (n : ℕ) → AreChainsOf n s chains.now →
        listed chains.now.links.items result ≡ names.typing_declarations s (names.ordinary_at s leaf) }
{
    match seen_at(chains, leaf) {
        Some(seen) => seen.typing,
        None => None,
    }
}

/// The earlier declarations of a name in its scope, by their last link among `own`.
pub fn in_scope_link(chains: &NameChains, leaf: u32) -> Option<u32>
    ensures link { (s : Source) (n : ℕ) → AreChainsOf n s chains.now → IsLinkOf chains.now.own.items result }
    ensures list { (s : Source) (n : ℕ) → AreChainsOf n s chains.now →
        listed chains.now.own.items result ≡ names.before_in_scope s (names.ordinary_at s leaf) }
{
    match seen_at(chains, leaf) {
        Some(seen) => seen.in_scope,
        None => None,
    }
}
