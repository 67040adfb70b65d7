// The scopes around a node.
ghost use Rattle.std.specs.Prelude.{◌≡◌, ℕ, List, IfOk, slice_get};
ghost use Rattle.c_lexer.specs.declared.Token.{Token};
ghost use Rattle.c_grammar.specs.Reads.{Node};
ghost use Rattle.c_mentions.specs.Settings.{AreSettings, IsChain};
ghost use Rattle.name_chains.specs.Seen.{scopes_of};

use c_mentions::settings::{Scope, Setting, Settings};
use pta_base::OutOfMemory;
use std::alloc::Global;

/// A scope by its place in the list of scopes.
fn scope_at(scopes: &[Scope], place: u32) -> Option<Scope>
    ensures { result ≡ slice_get scopes.now place }
{
    scopes.get(place as usize).copied()
}

/// The numbers of the scopes from a place of the list of scopes outwards.
fn scopes_from(alloc: Global, scopes: &[Scope], place: u32) -> Result<Vec<u32>, OutOfMemory>
    ensures { IfOk result (λ v. (chain : List ℕ) → IsChain scopes.now place chain → v.items ≡ chain) }
{
    let mut list = Vec::new(alloc);
    let mut at = place;
    while let Some(here) = scope_at(scopes, at) {
        list.push(here.number)?;
        if here.outer >= at {
            return Ok(list);
        }
        at = here.outer;
    }
    Ok(list)
}

/// The setting of a node.
fn setting_at(settings: &Settings, leaf: u32) -> Option<Setting>
    ensures { result ≡ slice_get settings.now.list leaf }
{
    settings.list.get(leaf as usize)
}

/// The numbers of the scopes around a leaf, the innermost first; none around what is no node.
pub(crate) fn scopes_at(
    alloc: Global,
    settings: &Settings,
    leaf: u32,
) -> Result<Vec<u32>, OutOfMemory>
    ensures { IfOk result (λ v. (tokens : List Token) (nodes : List Node) →
        AreSettings tokens nodes settings.now → v.items ≡ scopes_of tokens nodes leaf) }
{
    match setting_at(settings, leaf) {
        Some(setting) => scopes_from(alloc, settings.scopes.as_slice(), setting.scope),
        None => Ok(Vec::new(alloc)),
    }
}
