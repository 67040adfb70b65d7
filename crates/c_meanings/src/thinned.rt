// Lists of declarations without those that give their name no more than those before them: a round of declarations that is made again.
ghost use Rattle.std.specs.Prelude.{◌≡◌, ◌<◌, ◌++◌, ◌∷◌, [], ◌⊎◌, ℕ, Bool, List, All, length, get_or, slice_get, Some};
ghost use Rattle.std.specs.Prelude.{None, true, false, IfOk, IfSome, IsOkUnless};
ghost use Rattle.core_nodes.specs.declared.fault.CheckFault.TheVariants.{OutOfMemory};
ghost use Rattle.core_tree.specs.declared.node.Unit.{Unit as UnitSpec};
ghost use Rattle.c_senses.specs.Sense.{sense_in};
ghost use Rattle.c_results.specs.Standing.{senses_made};
ghost use Rattle.tree_reads.specs.Sources.{source_in};
ghost use Rattle.c_results.specs.declared.made.Made.{Made as MadeSpec};
ghost use Rattle.tree_reads.specs.declared.syntax.Syntax.{Syntax as SyntaxSpec};
ghost use Rattle.name_chains.specs.declared.links.Link.{Link as LinkSpec};
ghost use Rattle.name_chains.specs.Links.{listed, IsLinkOf, AreBackward, Adds, HaveLeaves};
ghost use Rattle.c_meanings.specs.declared.thinned.End.{End as EndSpec};
ghost use Rattle.c_meanings.specs.Known.{nodes_in};
ghost use Rattle.c_meanings.specs.Thinned.{IsRound, IsThin, GoesOn, StaysWanted, StaysThin, one_if, AreEnds, AreThinned, IsEndOf};

use crate::alike::is_alike;
use c_results::Results;
use c_scope::Declared;
use core_nodes::CheckFault;
use name_chains::{Link, Links, list_of};
use std::alloc::Global;
use tree_reads::Syntax;

// How many declarations a round may have that is looked for.
const LONGEST_ROUND: u32 = 8;

/// The end of a list that has been thinned, by its last link.
#[derive(Clone, Copy)]
pub(crate) struct End {
    pub(crate) last: Option<u32>,
}

/// The lists that end with some links, each without the declarations that give their name no more than those before them, as far as they
/// are known.
#[derive(Drop)]
pub(crate) struct Thinned {
    pub(crate) links: Links,
    pub(crate) ends: Vec<Option<End>>,
}

impl Thinned {
    /// So many lists of which none is known. Only memory may want.
    pub(crate) fn new(alloc: Global, count: usize) -> Result<Thinned, CheckFault>
        ensures thinned { (syntax : SyntaxSpec) (results : List MadeSpec) (internal : Bool) (links : List LinkSpec) →
            length links ≡ count → IfOk result (AreThinned syntax results internal links) }
        ensures memory { IsOkUnless result OutOfMemory }
    {
        let Ok(ends) = vec![in alloc; None; count] else {
            return Err(CheckFault::OutOfMemory);
        };
        Ok(Thinned {
            links: Vec::new(alloc),
            ends,
        })
    }
}

// Whether a list with a declaration more ends with a round made again: what stands behind a link of it is, declaration for declaration,
// like what ends with that link.
fn is_round(
    syntax: &Syntax,
    results: &Results,
    links: &[Link],
    last: Option<u32>,
    kept: u32,
    declared: Declared,
) -> bool
    requires last { IsLinkOf links.now last }
    requires kept { kept < length links.now }
    requires backward { AreBackward links.now }
    requires leaves { HaveLeaves (nodes_in syntax.now) links.now }
    requires declared { declared.node < nodes_in syntax.now }
    ensures { result ≡ true → IsRound syntax.now results.now (listed links.now last) (listed links.now (Some kept)) declared }
{
    let end = links[kept as usize];
    if !is_alike(syntax, results, end.declared.node, declared.node) {
        return false;
    }
    let mut one = end.before;
    let mut other = last;
    while let Some(there) = other {
        if there == kept {
            return true;
        }
        let Some(here) = one else {
            return false;
        };
        let first = links[here as usize];
        let second = links[there as usize];
        if !is_alike(syntax, results, first.declared.node, second.declared.node) {
            return false;
        }
        one = first.before;
        other = second.before;
    }
    false
}

// The link without whose followers a list with a declaration more gives the same, since they make a round again; None where none of the
// last few is one.
fn round_end(
    syntax: &Syntax,
    results: &Results,
    links: &[Link],
    last: Option<u32>,
    declared: Declared,
) -> Option<u32>
    requires last { IsLinkOf links.now last }
    requires backward { AreBackward links.now }
    requires leaves { HaveLeaves (nodes_in syntax.now) links.now }
    requires declared { declared.node < nodes_in syntax.now }
    ensures link { IfSome result (λ kept. kept < length links.now) }
    ensures round { IfSome result (λ kept. IsRound syntax.now results.now (listed links.now last) (listed links.now (Some kept)) declared) }
{
    let mut at = last;
    for _ in 0..LONGEST_ROUND {
        let Some(kept) = at else {
            return None;
        };
        if is_round(syntax, results, links, last, kept, declared) {
            return Some(kept);
        }
        at = links[kept as usize].before;
    }
    None
}

// A list with a declaration more, by its last link. More links than there are numbers count as want of memory.
fn push_link(
    links: &mut Links,
    last: Option<u32>,
    declared: Declared,
) -> Result<Option<u32>, CheckFault>
    requires last { IsLinkOf links.old.items last }
    requires backward { AreBackward links.old.items }
    ensures adds { Adds links.old.items links.new.items }
    ensures leaves { (n : ℕ) → HaveLeaves n links.old.items → declared.node < n → HaveLeaves n links.new.items }
    ensures last { IfOk result (IsLinkOf links.new.items) }
    ensures list { IfOk result (λ end. listed links.new.items end ≡ listed links.old.items last ++ declared ∷ []) }
    ensures memory { IsOkUnless result OutOfMemory }
{
    if links.len() >= u32::MAX as usize {
        return Err(CheckFault::OutOfMemory);
    }
    let end = links.len() as u32;
    links.push(Link {
        before: last,
        declared,
    })?;
    Ok(Some(end))
}

// A thinned list with a declaration more, if it is wanted, by its last link.
fn thinned_with(
    syntax: &Syntax,
    results: &Results,
    links: &mut Links,
    last: Option<u32>,
    declared: Declared,
    wanted: bool,
) -> Result<Option<u32>, CheckFault>
    requires last { IsLinkOf links.old.items last }
    requires backward { AreBackward links.old.items }
    requires leaves { HaveLeaves (nodes_in syntax.now) links.old.items }
    requires declared { declared.node < nodes_in syntax.now }
    ensures adds { Adds links.old.items links.new.items }
    ensures leaves { HaveLeaves (nodes_in syntax.now) links.new.items }
    ensures last { IfOk result (IsLinkOf links.new.items) }
    ensures thin { IfOk result (λ end.
        GoesOn syntax.now results.now (listed links.old.items last) (one_if wanted declared) (listed links.new.items end)) }
    ensures memory { IsOkUnless result OutOfMemory }
{
    if !wanted {
        return Ok(last);
    }
    if let Some(kept) = round_end(syntax, results, links.as_slice(), last, declared) {
        return Ok(Some(kept));
    }
    push_link(links, last, declared)
}

// The end that is kept for a list, by its last link; None where none is kept yet.
fn end_at(ends: &[Option<End>], last: Option<u32>) -> Option<End>
    requires { IfSome last (λ place. place < length ends.now) }
    ensures { IfSome result (IsEndOf ends.now last) }
{
    match last {
        Some(place) => ends[place as usize],
        None => Some(End { last: None }),
    }
}

// Keeps the end of a list.
fn keep_end(ends: &mut Vec<Option<End>>, place: u32, last: Option<u32>)
    requires { place < length ends.old.items }
    ensures long { length ends.new.items ≡ length ends.old.items }
    ensures each { (other : ℕ) (e : EndSpec) →
        get_or ends.new.items other None ≡ Some e →
        (get_or ends.old.items other None ≡ Some e) ⊎ ((other ≡ place) × (e.last ≡ last)) }
{
    ends[place as usize] = Some(End { last });
}

/// Thins the list that ends with a link, where the list before it is known. `wanted` says whether the declaration of the link is to be in
/// it. Only memory may want.
pub(crate) fn thin(
    syntax: &Syntax,
    results: &Results,
    thinned: &mut Thinned,
    links: &[Link],
    place: u32,
    wanted: bool,
) -> Result<(), CheckFault>
    requires many { length thinned.old.ends.items ≡ length links.now }
    requires shape { AreEnds (nodes_in syntax.now) thinned.old }
    requires backward { AreBackward links.now }
    requires leaves { HaveLeaves (nodes_in syntax.now) links.now }
    requires place { place < length links.now }
    ensures thinned { (internal : Bool) →
        ((link : LinkSpec) → slice_get links.now place ≡ Some link
        → StaysWanted syntax.now results.now internal link.declared.node wanted) →
        AreThinned syntax.now results.now internal links.now thinned.old →
        AreThinned syntax.now results.now internal links.now thinned.new }
    ensures memory { IsOkUnless result OutOfMemory }
{
    let link = links[place as usize];
    let Some(before) = end_at(thinned.ends.as_slice(), link.before) else {
        return Ok(());
    };
    let declared = link.declared;
    let last = thinned_with(
        syntax,
        results,
        &mut thinned.links,
        before.last,
        declared,
        wanted,
    )?;
    keep_end(&mut thinned.ends, place, last);
    Ok(())
}

/// The links of a list, by its last one, for which no end is kept, from that one back to one for which an end is. Only memory may want.
pub(crate) fn unknown_in(
    alloc: Global,
    thinned: &Thinned,
    links: &[Link],
    last: Option<u32>,
) -> Result<Vec<u32>, CheckFault>
    requires many { length thinned.now.ends.items ≡ length links.now }
    requires backward { AreBackward links.now }
    requires last { IsLinkOf links.now last }
    ensures within { IfOk result (λ list. All (λ place. place < length links.now) list.items) }
    ensures memory { IsOkUnless result OutOfMemory }
{
    let mut list = Vec::new(alloc);
    let mut at = last;
    while let Some(place) = at {
        if thinned.ends[place as usize].is_some() {
            return Ok(list);
        }
        list.push(place)?;
        at = links[place as usize].before;
    }
    Ok(list)
}

/// The thinned list of a list, by its last link; None where it isn't known. Only memory may want.
pub(crate) fn thinned_list(
    alloc: Global,
    syntax: &Syntax,
    thinned: &Thinned,
    last: Option<u32>,
) -> Result<Option<Vec<Declared>>, CheckFault>
    requires shape { AreEnds (nodes_in syntax.now) thinned.now }
    requires last { IfSome last (λ place. place < length thinned.now.ends.items) }
    ensures list { IfOk result (λ found. IfSome found (λ v. (results : List MadeSpec) (internal : Bool) (links : List LinkSpec) →
        AreThinned syntax.now results internal links thinned.now →
        StaysThin syntax.now results internal (listed links last) v.items)) }
    ensures leaves { IfOk result (λ found. IfSome found (λ v. All (λ d. d.node < nodes_in syntax.now) v.items)) }
    ensures memory { IsOkUnless result OutOfMemory }
{
    let Some(end) = end_at(thinned.ends.as_slice(), last) else {
        return Ok(None);
    };
    match list_of(alloc, thinned.links.as_slice(), end.last) {
        Ok(list) => Ok(Some(list)),
        Err(_) => Err(CheckFault::OutOfMemory),
    }
}

// Thins some lists, by their last links, the last of these first, as far as those before them are known.
fn thin_all(
    syntax: &Syntax,
    results: &Results,
    thinned: &mut Thinned,
    links: &[Link],
    places: &[u32],
) -> Result<(), CheckFault>
    requires thinned { AreThinned syntax.now results.now false links.now thinned.old }
    requires backward { AreBackward links.now }
    requires leaves { HaveLeaves (nodes_in syntax.now) links.now }
    requires places { All (λ place. place < length links.now) places.now }
    ensures thinned { AreThinned syntax.now results.now false links.now thinned.new }
    ensures memory { IsOkUnless result OutOfMemory }
{
    let count = places.len();
    for i in 0..count {
        thin(syntax, results, thinned, links, places[count - 1 - i], true)?;
    }
    Ok(())
}

/// The thinned list of a list, by its last link, with all lists before it. Only memory may want. The contract says that the list is thin,
/// whatever more is made, and that what is kept stays right, and nothing of how often a declaration is looked at.
pub(crate) fn thinned_now(
    alloc: Global,
    syntax: &Syntax,
    results: &Results,
    thinned: &mut Thinned,
    links: &[Link],
    last: Option<u32>,
) -> Result<Option<Vec<Declared>>, CheckFault>
    requires thinned { AreThinned syntax.now results.now false links.now thinned.old }
    requires backward { AreBackward links.now }
    requires leaves { HaveLeaves (nodes_in syntax.now) links.now }
    requires last { IsLinkOf links.now last }
    ensures thinned { AreThinned syntax.now results.now false links.now thinned.new }
    ensures list { IfOk result (λ found. IfSome found (λ v. StaysThin syntax.now results.now false (listed links.now last) v.items)) }
    ensures leaves { IfOk result (λ found. IfSome found (λ v. All (λ d. d.node < nodes_in syntax.now) v.items)) }
    ensures memory { IsOkUnless result OutOfMemory }
{
    let places = unknown_in(alloc, thinned, links, last)?;
    thin_all(syntax, results, thinned, links, places.as_slice())?;
    thinned_list(alloc, syntax, thinned, last)
}
