// Whether the declarations that are seen where a name is declared are `static` at file scope.
ghost use Rattle.std.specs.Prelude.{◌≡◌, ◌<◌, ℕ, List, length, Some, true};
ghost use Rattle.core_tree.specs.declared.node.Unit.{Unit as UnitSpec};
ghost use Rattle.c_results.specs.declared.made.Made.{Made as MadeSpec};
ghost use Rattle.c_senses.specs.Sense.{sense_in};
ghost use Rattle.c_senses.specs.Entities as spec;
ghost use Rattle.c_results.specs.Standing.{senses_made};
ghost use Rattle.tree_reads.specs.declared.syntax.Syntax.{Syntax as SyntaxSpec};
ghost use Rattle.tree_reads.specs.Sources.{source_in};
ghost use Rattle.name_chains.specs.Links.{listed, IsLinkOf};
ghost use Rattle.c_meanings.specs.declared.names.Names.{Names as NamesSpec};
ghost use Rattle.c_meanings.specs.Known.{AreChained};
ghost use Rattle.c_meanings.specs.Internal.{sees_static};
ghost use Rattle.c_meanings.specs.Statics.{some_static, IsStaticSeen, IsFront};

use crate::names::{Names, link_at};
use crate::storage::WORD_STATIC;
use c_entities::{has_storage, is_at_file};
use c_results::Results;
use name_chains::linked_link;
use tree_reads::Syntax;

/// What is known of a list of declarations, by its last link: whether one of them is `static` at file scope.
#[derive(Clone, Copy, Debug)]
pub struct StaticSeen {
    pub(crate) last: Option<u32>,
    pub(crate) is_static: bool,
}

/// What is known before the first question: of no declarations none is `static`.
pub fn nothing_seen() -> StaticSeen
    ensures { (syntax : SyntaxSpec) (results : List MadeSpec) (names : NamesSpec) → IsStaticSeen syntax results names result }
{
    StaticSeen {
        last: None,
        is_static: false,
    }
}

// Whether what is known is known of the list that ends with a link.
fn is_known(seen: StaticSeen, place: u32) -> bool
    ensures { result ≡ true → seen.last ≡ Some place }
{
    match seen.last {
        Some(known) => known == place,
        None => false,
    }
}

/// Whether a name is declared `static` at file scope (C11 6.2.2p3).
pub(crate) fn is_static_at_file(syntax: &Syntax, results: &Results, leaf: u32) -> bool
    requires { leaf < length syntax.now.tree.now.nodes.items }
    ensures { (u : UnitSpec) (uses : List (ℕ × ℕ)) →
        result ≡ spec.is_static_at_file (source_in syntax.now uses) (sense_in (senses_made u results.now)) leaf }
{
    has_storage(syntax, results, WORD_STATIC, leaf) && is_at_file(syntax, leaf)
}

/// Whether one of a list of declarations is `static` at file scope. It goes from the last one back to a list of which that is known.
pub(crate) fn has_static(
    names: &Names,
    syntax: &Syntax,
    results: &Results,
    seen: StaticSeen,
    last: Option<u32>,
) -> bool
    requires names { AreChained syntax.now names.now }
    requires seen { IsStaticSeen syntax.now results.now names.now seen }
    requires last { IsLinkOf names.now.chains.links.items last }
    ensures { (u : UnitSpec) (uses : List (ℕ × ℕ)) →
        result ≡ some_static (source_in syntax.now uses) (sense_in (senses_made u results.now)) (listed names.now.chains.links.items last) }
{
    let mut at = last;
    while let Some(place) = at {
        if is_known(seen, place) {
            return seen.is_static;
        }
        let link = link_at(names, place);
        if is_static_at_file(syntax, results, link.declared.node) {
            return true;
        }
        at = link.before;
    }
    false
}

// Whether two lists have one last link.
fn is_same(one: Option<u32>, other: Option<u32>) -> bool
    ensures { result ≡ true → one ≡ other }
{
    match one {
        None => other.is_none(),
        Some(link) => match other {
            None => false,
            Some(second) => link == second,
        },
    }
}

// Whether a list is the front, without its last declaration, of one that is known to have no such declaration.
fn is_front(names: &Names, seen: StaticSeen, last: Option<u32>) -> bool
    requires { IsLinkOf names.now.chains.links.items seen.last }
    ensures { result ≡ true → IsFront names.now.chains.links.items seen last }
{
    match seen.last {
        Some(known) => !seen.is_static && is_same(link_at(names, known).before, last),
        None => false,
    }
}

// Whether one of a list of declarations is `static` at file scope, by what is known of another list.
fn some_static(
    names: &Names,
    syntax: &Syntax,
    results: &Results,
    seen: StaticSeen,
    last: Option<u32>,
) -> bool
    requires names { AreChained syntax.now names.now }
    requires seen { IsStaticSeen syntax.now results.now names.now seen }
    requires last { IsLinkOf names.now.chains.links.items last }
    ensures { (u : UnitSpec) (uses : List (ℕ × ℕ)) →
        result ≡ some_static (source_in syntax.now uses) (sense_in (senses_made u results.now)) (listed names.now.chains.links.items last) }
{
    if is_front(names, seen, last) {
        return false;
    }
    has_static(names, syntax, results, seen, last)
}

/// Whether one of the declarations that are seen where a name is declared is `static` at file scope. What is known of them is kept for
/// the next question.
pub(crate) fn sees_static(
    names: &Names,
    syntax: &Syntax,
    results: &Results,
    seen: &mut StaticSeen,
    leaf: u32,
) -> bool
    requires names { AreChained syntax.now names.now }
    requires seen { IsStaticSeen syntax.now results.now names.now seen.old }
    ensures seen { IsStaticSeen syntax.now results.now names.now seen.new }
    ensures some { (u : UnitSpec) (uses : List (ℕ × ℕ)) →
        result ≡ sees_static (source_in syntax.now uses) (sense_in (senses_made u results.now)) leaf }
{
    let last = linked_link(&names.chains, leaf);
    let is_static = some_static(names, syntax, results, *seen, last);
    *seen = StaticSeen { last, is_static };
    is_static
}
