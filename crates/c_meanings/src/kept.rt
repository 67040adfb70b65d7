// What is kept of the linkage of earlier declarations while more is made.
ghost use Rattle.std.specs.Prelude.{◌≡◌, ◌<◌, ◌&&◌, ◌||◌, ◌⊎◌, ℕ, Bool, List, length, get_or, slice_get, Option, Some};
ghost use Rattle.std.specs.Prelude.{None, true, IfOk, IfSome, IsOkUnless};
ghost use Rattle.core_tree.specs.declared.node.Unit.{Unit as UnitSpec};
ghost use Rattle.core_nodes.specs.declared.fault.CheckFault.TheVariants.{OutOfMemory};
ghost use Rattle.c_results.specs.declared.made.Made.{Made as MadeSpec};
ghost use Rattle.c_results.specs.Standing.{senses_made};
ghost use Rattle.c_senses.specs.Sense.{Sense, sense_in};
ghost use Rattle.c_senses.specs.World.{World};
ghost use Rattle.c_senses.specs.Names as senses;
ghost use Rattle.c_senses.specs.Entities as spec;
ghost use Rattle.tree_reads.specs.declared.syntax.Syntax.{Syntax as SyntaxSpec};
ghost use Rattle.tree_reads.specs.Sources.{source_read, source_in};
ghost use Rattle.name_chains.specs.Links.{listed, IsLinkOf};
ghost use Rattle.c_meanings.specs.Known.{AreNamed};
ghost use Rattle.c_meanings.specs.Statics.{some_static};
ghost use Rattle.c_meanings.specs.Linkages.{AreLinkages, AreBelow, StaysStatic, StaysInternal, StaysOne, internal_with};
ghost use Rattle.c_meanings.specs.Later.{later};

use crate::linkage::takes_over;
use crate::names::{Names, is_linked, link_at};
use crate::statics::{has_static, is_static_at_file, nothing_seen};
use crate::thinned::Thinned;
use c_declarators::specs_of;
use c_entities::remembered_names::{Memory, nothing_remembered};
use c_results::Results;
use core_nodes::CheckFault;
use name_chains::{Link, in_scope_link, linked_link};
use std::alloc::Global;
use tree_reads::{Above, Syntax, nearest_above};

/// What is kept of earlier declarations (C11 6.2.2), by the last links of their lists: whether one of those that are seen where a name is
/// declared is `static` at file scope, and whether all those in a scope give their name internal linkage, or none does; and the lists of
/// those in a scope, of those that together give a type, and of those of a symbol that give it internal linkage, without those that give
/// their name no more than those before them; and what uses of some declared names mean.
#[derive(Drop)]
pub struct Linkages {
    pub(crate) statics: Vec<Option<bool>>,
    pub(crate) scopes: Vec<Option<bool>>,
    pub(crate) own: Thinned,
    pub(crate) typing: Thinned,
    pub(crate) internal: Thinned,
    pub(crate) memory: Memory,
}

// An answer, and whether it stays whatever more is made.
#[derive(Clone, Copy)]
pub(crate) struct Kept {
    pub(crate) flag: bool,
    pub(crate) stays: bool,
}

// So many answers of which none is known.
fn unknown(alloc: Global, count: usize) -> Result<Vec<Option<bool>>, CheckFault>
    ensures long { IfOk result (λ flags. length flags.items ≡ count) }
    ensures none { IfOk result (λ flags. (place : ℕ) (b : Bool) → get_or flags.items place None ≡ Some b → ⊥) }
    ensures memory { IsOkUnless result OutOfMemory }
{
    match vec![in alloc; None; count] {
        Ok(flags) => Ok(flags),
        Err(_) => Err(CheckFault::OutOfMemory),
    }
}

impl Linkages {
    /// What is kept before the first question. Only memory may want.
    pub fn new(alloc: Global, names: &Names) -> Result<Linkages, CheckFault>
        ensures linkages { (syntax : SyntaxSpec) (results : List MadeSpec) → IfOk result (AreLinkages syntax results names.now) }
        ensures memory { IsOkUnless result OutOfMemory }
    {
        let statics = unknown(alloc, names.chains.links.len())?;
        let scopes = unknown(alloc, names.chains.own.len())?;
        let own = Thinned::new(alloc, names.chains.own.len())?;
        let typing = Thinned::new(alloc, names.chains.links.len())?;
        let internal = Thinned::new(alloc, names.symbols.len())?;
        let memory = nothing_remembered(alloc)?;
        Ok(Linkages {
            statics,
            scopes,
            own,
            typing,
            internal,
            memory,
        })
    }
}

// The answer that is kept at a place.
fn kept_at(flags: &[Option<bool>], place: u32) -> Option<bool>
    requires { place < length flags.now }
    ensures { result ≡ get_or flags.now place None }
{
    flags[place as usize]
}

/// A link of the lists of declarations in a scope.
pub(crate) fn own_link_at(names: &Names, place: u32) -> Link
    requires { place < length names.now.chains.own.items }
    ensures { slice_get names.now.chains.own.items place ≡ Some result }
{
    names.chains.own[place as usize]
}

// Whether the specifiers of a declaration have been made.
fn is_settled(syntax: &Syntax, results: &Results, leaf: u32) -> bool
    requires { leaf < length syntax.now.tree.now.nodes.items }
    ensures { result ≡ true → AreBelow (source_read syntax.now) (length results.now) leaf }
{
    let Some(declarator) = nearest_above(syntax, Above::Outermost, leaf) else {
        return false;
    };
    let Some(specifiers) = specs_of(syntax, declarator) else {
        return false;
    };
    (specifiers as usize) < results.len()
}

// Whether a declaration is `static` at file scope.
fn static_here(syntax: &Syntax, results: &Results, leaf: u32) -> Kept
    requires { leaf < length syntax.now.tree.now.nodes.items }
    ensures now { (u : UnitSpec) (uses : List (ℕ × ℕ)) →
        result.flag ≡ spec.is_static_at_file (source_in syntax.now uses) (sense_in (senses_made u results.now)) leaf }
    ensures stays { result.stays ≡ true → (u : UnitSpec) (uses : List (ℕ × ℕ)) (more : List MadeSpec) →
        result.flag ≡ spec.is_static_at_file (source_in syntax.now uses) (later u results.now more) leaf }
{
    Kept {
        flag: is_static_at_file(syntax, results, leaf),
        stays: is_settled(syntax, results, leaf),
    }
}

// One of two.
fn either(one: Kept, other: Kept) -> Kept
    ensures flag { result.flag ≡ (one.flag || other.flag) }
    ensures stays { result.stays ≡ (one.stays && other.stays) }
{
    Kept {
        flag: one.flag || other.flag,
        stays: one.stays && other.stays,
    }
}

// Whether one of a list of declarations is `static` at file scope, by what is kept, or else by the whole list.
fn static_before(
    names: &Names,
    syntax: &Syntax,
    results: &Results,
    linkages: &Linkages,
    last: Option<u32>,
) -> Kept
    requires names { AreNamed syntax.now results.now names.now }
    requires linkages { AreLinkages syntax.now results.now names.now linkages.now }
    requires last { IsLinkOf names.now.chains.links.items last }
    ensures now { (u : UnitSpec) (uses : List (ℕ × ℕ)) →
        result.flag
        ≡ some_static (source_in syntax.now uses) (sense_in (senses_made u results.now)) (listed names.now.chains.links.items last) }
    ensures stays { result.stays ≡ true → StaysStatic syntax.now results.now (listed names.now.chains.links.items last) result.flag }
{
    let Some(place) = last else {
        return Kept {
            flag: false,
            stays: true,
        };
    };
    match kept_at(linkages.statics.as_slice(), place) {
        Some(flag) => Kept { flag, stays: true },
        None => Kept {
            flag: has_static(names, syntax, results, nothing_seen(), last),
            stays: false,
        },
    }
}

// Keeps an answer that stays.
fn keep(flags: &mut Vec<Option<bool>>, place: u32, kept: Kept)
    requires { place < length flags.old.items }
    ensures long { length flags.new.items ≡ length flags.old.items }
    ensures each { (other : ℕ) (b : Bool) →
        get_or flags.new.items other None ≡ Some b →
        (get_or flags.old.items other None ≡ Some b) ⊎ ((other ≡ place) × (kept.flag ≡ b) × (kept.stays ≡ true)) }
{
    if kept.stays {
        flags[place as usize] = Some(kept.flag);
    }
}

// Whether one of a list of declarations is `static` at file scope. It is kept.
fn static_at(
    names: &Names,
    syntax: &Syntax,
    results: &Results,
    linkages: &mut Linkages,
    last: Option<u32>,
) -> Kept
    requires names { AreNamed syntax.now results.now names.now }
    requires linkages { AreLinkages syntax.now results.now names.now linkages.old }
    requires last { IsLinkOf names.now.chains.links.items last }
    ensures linkages { AreLinkages syntax.now results.now names.now linkages.new }
    ensures now { (u : UnitSpec) (uses : List (ℕ × ℕ)) →
        result.flag
        ≡ some_static (source_in syntax.now uses) (sense_in (senses_made u results.now)) (listed names.now.chains.links.items last) }
    ensures stays { result.stays ≡ true → StaysStatic syntax.now results.now (listed names.now.chains.links.items last) result.flag }
{
    let Some(place) = last else {
        return Kept {
            flag: false,
            stays: true,
        };
    };
    if let Some(flag) = kept_at(linkages.statics.as_slice(), place) {
        return Kept { flag, stays: true };
    }
    let link = link_at(names, place);
    let before = static_before(names, syntax, results, linkages, link.before);
    let here = static_here(syntax, results, link.declared.node);
    let kept = either(before, here);
    keep(&mut linkages.statics, place, kept);
    kept
}

// Whether a leaf declares a name, which has linkage, with internal linkage, by whether a declaration that is seen there is `static` at file
// scope.
fn internal_with(names: &Names, syntax: &Syntax, results: &Results, seen: bool, leaf: u32) -> bool
    requires names { AreNamed syntax.now results.now names.now }
    requires leaf { leaf < length syntax.now.tree.now.nodes.items }
    requires linked { (uses : List (ℕ × ℕ)) (sense : ℕ → Sense) → spec.is_linked (source_in syntax.now uses) sense leaf ≡ true }
    ensures { (u : UnitSpec) (uses : List (ℕ × ℕ)) →
        result ≡ internal_with (source_in syntax.now uses) (sense_in (senses_made u results.now)) seen leaf }
{
    is_static_at_file(syntax, results, leaf) || (seen && takes_over(names, syntax, results, leaf))
}

/// Whether a leaf declares a name with internal linkage, and whether that stays so whatever more is made.
pub(crate) fn internal_asked(
    names: &Names,
    syntax: &Syntax,
    results: &Results,
    linkages: &mut Linkages,
    leaf: u32,
) -> Kept
    requires names { AreNamed syntax.now results.now names.now }
    requires linkages { AreLinkages syntax.now results.now names.now linkages.old }
    requires leaf { leaf < length syntax.now.tree.now.nodes.items }
    ensures linkages { AreLinkages syntax.now results.now names.now linkages.new }
    ensures now { (u : UnitSpec) (uses : List (ℕ × ℕ)) →
        result.flag ≡ spec.is_internal (source_in syntax.now uses) (sense_in (senses_made u results.now)) leaf }
    ensures stays { result.stays ≡ true → StaysInternal syntax.now results.now leaf result.flag }
{
    if !is_linked(names, syntax, leaf) {
        return Kept {
            flag: false,
            stays: true,
        };
    }
    let last = linked_link(&names.chains, leaf);
    let seen = static_at(names, syntax, results, linkages, last);
    let settled = is_settled(syntax, results, leaf);
    Kept {
        flag: internal_with(names, syntax, results, seen.flag, leaf),
        stays: seen.stays && settled,
    }
}

/// Whether a leaf declares a name with internal linkage (C11 6.2.2p3 to p5), with what is kept. The contract says that the answer is
/// right and that what is kept stays so, and nothing of how often a declaration is looked at.
pub fn internal_kept(
    names: &Names,
    syntax: &Syntax,
    results: &Results,
    linkages: &mut Linkages,
    leaf: u32,
) -> bool
    requires names { AreNamed syntax.now results.now names.now }
    requires linkages { AreLinkages syntax.now results.now names.now linkages.old }
    requires leaf { leaf < length syntax.now.tree.now.nodes.items }
    ensures linkages { AreLinkages syntax.now results.now names.now linkages.new }
    ensures internal { (u : UnitSpec) (uses : List (ℕ × ℕ)) →
        result ≡ spec.is_internal (source_in syntax.now uses) (sense_in (senses_made u results.now)) leaf }
{
    internal_asked(names, syntax, results, linkages, leaf).flag
}

// Whether two flags are one.
fn is_flag(found: Option<bool>, flag: bool) -> bool
    ensures { result ≡ true → found ≡ Some flag }
{
    match found {
        Some(known) => known == flag,
        None => false,
    }
}

// Whether it is known of a list of declarations in a scope that all of them give their name internal linkage, or that none does.
fn is_one_before(linkages: &Linkages, last: Option<u32>, flag: bool) -> bool
    requires { IfSome last (λ place. place < length linkages.now.scopes.items) }
    ensures { result ≡ true → IfSome last (λ place. get_or linkages.now.scopes.items place None ≡ Some flag) }
{
    match last {
        Some(place) => is_flag(kept_at(linkages.scopes.as_slice(), place), flag),
        None => true,
    }
}

// Whether all of a list of declarations in a scope give their name internal linkage, or none does; None where it isn't known. It is kept.
fn one_at(
    names: &Names,
    syntax: &Syntax,
    results: &Results,
    linkages: &mut Linkages,
    place: u32,
) -> Option<bool>
    requires names { AreNamed syntax.now results.now names.now }
    requires linkages { AreLinkages syntax.now results.now names.now linkages.old }
    requires place { place < length names.now.chains.own.items }
    ensures linkages { AreLinkages syntax.now results.now names.now linkages.new }
    ensures one { IfSome result (StaysOne syntax.now results.now (listed names.now.chains.own.items (Some place))) }
{
    if let Some(flag) = kept_at(linkages.scopes.as_slice(), place) {
        return Some(flag);
    }
    let link = own_link_at(names, place);
    let here = internal_asked(names, syntax, results, linkages, link.declared.node);
    if !here.stays || !is_one_before(linkages, link.before, here.flag) {
        return None;
    }
    keep(&mut linkages.scopes, place, here);
    Some(here.flag)
}

/// Whether the declarations before one in its scope all have a linkage, internal or not (C11 6.2.2p7); None where that isn't known. Asked
/// of the declarations of a name one after another, in order, it is known as long as it is so.
pub fn same_internal_kept(
    names: &Names,
    syntax: &Syntax,
    results: &Results,
    linkages: &mut Linkages,
    internal: bool,
    leaf: u32,
) -> Option<bool>
    requires names { AreNamed syntax.now results.now names.now }
    requires linkages { AreLinkages syntax.now results.now names.now linkages.old }
    ensures linkages { AreLinkages syntax.now results.now names.now linkages.new }
    ensures same { IfSome result (λ b. (u : UnitSpec) (w : World) (uses : List (ℕ × ℕ)) →
        let s = source_in syntax.now uses in
        b ≡ spec.same_internal w s (sense_in (senses_made u results.now)) internal (senses.before_in_scope s (senses.ordinary_at s leaf))) }
{
    let Some(place) = in_scope_link(&names.chains, leaf) else {
        return Some(true);
    };
    match one_at(names, syntax, results, linkages, place) {
        Some(flag) => Some(flag == internal),
        None => None,
    }
}
