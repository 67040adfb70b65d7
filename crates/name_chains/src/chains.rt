// The declarations of each name in each scope.
ghost use Rattle.std.specs.Prelude.{◌≡◌, ◌==◌, ◌&&◌, ◌++◌, ◌∷◌, [], ◌<◌, ℕ, List, Some, IfOk, IfSome, true, drop, if◌then◌else◌};
ghost use Rattle.c_scope.specs.declared.kinds.Declared.{Declared as DeclaredSpec};
ghost use Rattle.c_scope.specs.Known.{those_at};
ghost use Rattle.c_senses.specs.Names as names;
ghost use Rattle.name_chains.specs.declared.links.Link.{Link as LinkSpec};
ghost use Rattle.name_chains.specs.Links.{listed, IsLinkOf, AreBackward, Adds, Grows, HaveLeaves, TypedBy};
ghost use Rattle.name_chains.specs.Chains as spec;
ghost use Rattle.name_chains.specs.Chains.{ChainIs, ChainSays, JoinedIs, IsJoined, JoinedSays, AreWithin, Says};

use crate::links::{Link, Links, list_of, push_all, push_link};
use c_scope::{Declared, Kind};
use pta_base::OutOfMemory;
use std::alloc::Global;
use std::collections::BTreeMap;

/// The list of the declarations of one name in one scope, behind a list of those of the scopes around.
#[derive(Clone, Copy)]
pub(crate) struct Joined {
    pub(crate) base: Option<u32>,
    pub(crate) last: Option<u32>,
}

/// The declarations of one name in one scope: the list of them, and where all have linkage that list behind another.
#[derive(Clone, Copy)]
pub(crate) struct Chain {
    pub(crate) own: Option<u32>,
    pub(crate) joined: Option<Joined>,
}

/// The declarations by the number of the scope and the symbol.
pub(crate) type Chains = BTreeMap<(u32, u32), Chain>;

/// The declarations of a symbol in a scope.
fn chain_at(chains: &Chains, scope: u32, symbol: u32) -> Option<Chain>
    ensures { result ≡ spec.chain_at chains.now scope symbol }
{
    chains.get(&(scope, symbol)).copied()
}

/// Puts the declarations of a symbol in a scope.
fn put(chains: &mut Chains, scope: u32, symbol: u32, chain: Chain) -> Result<(), OutOfMemory>
    ensures { IfOk result (λ done. (other sign : ℕ) →
        spec.chain_at chains.new other sign
        ≡ (if (scope == other) && (symbol == sign) then Some chain else spec.chain_at chains.old other sign)) }
{
    chains.insert((scope, symbol), chain)?;
    Ok(())
}

/// Whether a declaration has linkage.
pub(crate) fn has_linkage(declared: Declared) -> bool
    ensures { result ≡ names.has_linkage declared }
{
    match declared.kind {
        Kind::Linked => true,
        Kind::Typedef | Kind::Plain => false,
    }
}

/// Whether two lists have one last link.
fn is_same(one: Option<u32>, other: Option<u32>) -> bool
    ensures { result ≡ true → one ≡ other }
{
    match one {
        None => other.is_none(),
        Some(link) => match other {
            None => false,
            Some(second) => link == second,
        },
    }
}

/// The declarations of a name in a scope behind those of the scopes around; none where one has no linkage.
fn with_outer(
    alloc: Global,
    own: &[Link],
    links: &mut Links,
    chain: Option<Chain>,
    outer: Option<u32>,
) -> Result<Option<u32>, OutOfMemory>
    requires own { AreBackward own.now }
    requires links { AreBackward links.old.items }
    requires chain { ChainIs own.now links.old.items chain }
    requires outer { IsLinkOf links.old.items outer }
    ensures grows { Grows own.now links.old.items links.new.items }
    ensures last { IfOk result (IsLinkOf links.new.items) }
    ensures list { IfOk result (λ last. (those : List DeclaredSpec) →
        ChainSays own.now links.old.items chain those →
        listed links.new.items last ≡ names.with_outer those (listed links.old.items outer)) }
{
    let Some(chain) = chain else {
        return Ok(outer);
    };
    let Some(joined) = chain.joined else {
        return Ok(None);
    };
    if is_same(joined.base, outer) {
        return Ok(joined.last);
    }
    let list = list_of(alloc, own, chain.own)?;
    push_all(links, outer, list.as_slice())
}

/// The declarations of a name with linkage that are seen in some scopes, the innermost of which comes first.
pub(crate) fn linked_along(
    alloc: Global,
    own: &[Link],
    links: &mut Links,
    chains: &Chains,
    scopes: &[u32],
    symbol: u32,
) -> Result<Option<u32>, OutOfMemory>
    requires own { AreBackward own.now }
    requires links { AreBackward links.old.items }
    requires within { AreWithin own.now links.old.items chains.now }
    ensures grows { Grows own.now links.old.items links.new.items }
    ensures last { IfOk result (IsLinkOf links.new.items) }
    ensures list { IfOk result (λ last. (ds : List DeclaredSpec) →
        Says own.now links.old.items chains.now ds →
        listed links.new.items last ≡ names.linked_along scopes.now symbol ds) }
{
    let mut outer = None;
    let mut at = scopes.len();
    while at > 0 {
        at -= 1;
        let chain = chain_at(chains, scopes[at], symbol);
        outer = with_outer(alloc, own, links, chain, outer)?;
    }
    Ok(outer)
}

/// A list of declarations behind others with one more: the list `typing` where it stands behind `linked`.
fn joined_more(
    links: &mut Links,
    joined: Joined,
    declared: Declared,
    linked: Option<u32>,
    typing: Option<u32>,
) -> Result<Joined, OutOfMemory>
    requires links { AreBackward links.old.items }
    requires joined { JoinedIs links.old.items (Some joined) }
    requires typing { IsLinkOf links.old.items typing }
    ensures adds { Adds links.old.items links.new.items }
    ensures leaves { (n : ℕ) → HaveLeaves n links.old.items → declared.node < n → HaveLeaves n links.new.items }
    ensures joined { IfOk result (λ j. JoinedIs links.new.items (Some j)) }
    ensures list { IfOk result (λ j. (those : List DeclaredSpec) →
        names.has_linkage declared ≡ true →
        TypedBy links.old.items declared linked typing →
        IsJoined links.old.items joined those →
        IsJoined links.new.items j (those ++ declared ∷ [])) }
{
    let last = if is_same(joined.last, linked) {
        typing
    } else {
        push_link(links, joined.last, declared)?
    };
    Ok(Joined {
        base: joined.base,
        last,
    })
}

/// The list of the declarations of a name in a scope behind others, with one more.
fn joined_with(
    links: &mut Links,
    before: Option<Chain>,
    declared: Declared,
    linked: Option<u32>,
    typing: Option<u32>,
) -> Result<Option<Joined>, OutOfMemory>
    requires links { AreBackward links.old.items }
    requires before { IfSome before (λ chain. JoinedIs links.old.items chain.joined) }
    requires linked { IsLinkOf links.old.items linked }
    requires typing { IsLinkOf links.old.items typing }
    ensures adds { Adds links.old.items links.new.items }
    ensures leaves { (n : ℕ) → HaveLeaves n links.old.items → declared.node < n → HaveLeaves n links.new.items }
    ensures joined { IfOk result (JoinedIs links.new.items) }
    ensures list { IfOk result (λ joined. (own : List LinkSpec) (those : List DeclaredSpec) →
        (names.has_linkage declared ≡ true → TypedBy links.old.items declared linked typing) →
        ChainSays own links.old.items before those →
        JoinedSays links.new.items joined (those ++ declared ∷ [])) }
{
    if !has_linkage(declared) {
        return Ok(None);
    }
    let Some(chain) = before else {
        return Ok(Some(Joined {
            base: linked,
            last: typing,
        }));
    };
    let Some(joined) = chain.joined else {
        return Ok(None);
    };
    let more = joined_more(links, joined, declared, linked, typing)?;
    Ok(Some(more))
}

/// The last link of the declarations of a name in a scope.
pub(crate) fn own_of(before: Option<Chain>) -> Option<u32>
    ensures { result ≡ spec.own_of before }
{
    match before {
        None => None,
        Some(chain) => chain.own,
    }
}

/// Takes in a declaration, where the lists of those that are seen there, without it and with it, end with `linked` and `typing`.
/// Answers the list of those before it in its scope.
pub(crate) fn take_in(
    own: &mut Links,
    links: &mut Links,
    chains: &mut Chains,
    declared: Declared,
    linked: Option<u32>,
    typing: Option<u32>,
) -> Result<Option<u32>, OutOfMemory>
    requires own { AreBackward own.old.items }
    requires links { AreBackward links.old.items }
    requires within { AreWithin own.old.items links.old.items chains.old }
    requires linked { IsLinkOf links.old.items linked }
    requires typing { IsLinkOf links.old.items typing }
    ensures own { Adds own.old.items own.new.items }
    ensures links { Adds links.old.items links.new.items }
    ensures own_leaves { (n : ℕ) → HaveLeaves n own.old.items → declared.node < n → HaveLeaves n own.new.items }
    ensures leaves { (n : ℕ) → HaveLeaves n links.old.items → declared.node < n → HaveLeaves n links.new.items }
    ensures within { IfOk result (λ before. AreWithin own.new.items links.new.items chains.new) }
    ensures before { IfOk result (IsLinkOf own.new.items) }
    ensures list { IfOk result (λ before. (ds : List DeclaredSpec) →
        Says own.old.items links.old.items chains.old ds →
        listed own.new.items before ≡ those_at declared.scope declared.symbol ds) }
    ensures says { IfOk result (λ before. (ds : List DeclaredSpec) →
        (names.has_linkage declared ≡ true → TypedBy links.old.items declared linked typing) →
        Says own.old.items links.old.items chains.old ds →
        Says own.new.items links.new.items chains.new (ds ++ declared ∷ [])) }
{
    let before = chain_at(chains, declared.scope, declared.symbol);
    let joined = joined_with(links, before, declared, linked, typing)?;
    let here = own_of(before);
    let last = push_link(own, here, declared)?;
    let chain = Chain { own: last, joined };
    put(chains, declared.scope, declared.symbol, chain)?;
    Ok(here)
}
