// What is known of each specifier's tag.
ghost use Rattle.std.specs.Prelude.{◌≡◌, ◌<◌, ◌+◌, ◌==◌, ◌&&◌, ◌||◌, not, ℕ, List, Some, None, true, false, length};
ghost use Rattle.std.specs.Prelude.{get_or, slice_get, IfOk, OnOk};
ghost use Rattle.c_grammar.specs.Productions.{p_struct, p_members};
ghost use Rattle.c_senses.specs.Tree as tree;
ghost use Rattle.c_senses.specs.Tree.{Source};
ghost use Rattle.c_senses.specs.World.{same_length};
ghost use Rattle.c_senses.specs.Tags as spec;
ghost use Rattle.c_tags.specs.Seen.{IsSeen};
ghost use Rattle.tree_reads.specs.Sources.{source_in};
ghost use Rattle.tree_reads.specs.node_roles.Roles.{AreRoles};
ghost use Rattle.c_tags.specs.tag_numbers.Firsts.{Declares};
ghost use Rattle.c_tags.specs.tag_numbers.Numbers.{ListedBefore};
ghost use Rattle.c_tags.specs.tag_numbers.Numbers.{AreSeen, MarkedBefore, completes, seen_in};
ghost use Rattle.tree_reads.specs.leaf_maps.Numbers.{number_at};

use crate::SeenTag;
use crate::tag_numbers::declaring::{Declaring, tag_declared};
use crate::tag_numbers::specifiers::next_specifier;
use c_grammar::productions::{ENUMERATORS, MEMBERS};
use pta_base::OutOfMemory;
use std::alloc::Global;
use tree_reads::leaf_maps::LeafMap;
use tree_reads::node_roles::{Role, is_specifier_at, is_structure_at};
use tree_reads::{Syntax, child_of, is_leaf, word_of};

/// What is known of the tags of specifiers: the number of each by its node, and those that may not stand. All other nodes take no memory.
#[derive(Drop)]
pub(in crate::tag_numbers) struct SeenTags {
    pub(in crate::tag_numbers) numbers: LeafMap,
    pub(in crate::tag_numbers) unfit: LeafMap,
}

impl SeenTags {
    /// What is known of the tag of a specifier.
    pub(in crate::tag_numbers) fn get(&self, node: u32) -> SeenTag
        ensures { result ≡ seen_in self.now node }
    {
        SeenTag {
            number: self.numbers.get(node).unwrap_or(0),
            fits: self.unfit.get(node).is_none(),
        }
    }
}

// Whether a specifier has a list of members or enumerators.
fn has_list(syntax: &Syntax, node: u32) -> bool
    ensures { (uses : List (ℕ × ℕ)) → result ≡ spec.has_list (source_in syntax.now uses) node }
{
    child_of(syntax, MEMBERS, node).is_some() || child_of(syntax, ENUMERATORS, node).is_some()
}

// The specifier that declares a tag first.
fn declaring_specifier(syntax: &Syntax, tag: u32) -> Option<u32>
    requires { tag < length syntax.now.tree.now.nodes.items }
    ensures { (uses : List (ℕ × ℕ)) → result ≡ spec.declaring_specifier (source_in syntax.now uses) tag }
{
    if is_leaf(syntax, tag) {
        syntax.parent_of(tag)
    } else {
        Some(tag)
    }
}

// The keyword with which a tag is declared first.
fn keyword_of(syntax: &Syntax, tag: u32) -> Option<u8>
    requires { tag < length syntax.now.tree.now.nodes.items }
    ensures { (uses : List (ℕ × ℕ)) → result ≡ spec.keyword_of (source_in syntax.now uses) tag }
{
    match declaring_specifier(syntax, tag) {
        Some(specifier) => word_of(syntax, specifier),
        None => None,
    }
}

// Whether two keywords are one.
fn same_word(a: Option<u8>, b: Option<u8>) -> bool
    ensures { result ≡ same_length a b }
{
    match a {
        Some(a) => match b {
            Some(b) => a == b,
            None => false,
        },
        None => b.is_none(),
    }
}

/// A flag of a list, which is not set past its end.
pub(in crate::tag_numbers) fn flag_at(flags: &[bool], number: u32) -> bool
    ensures { result ≡ get_or flags.now number false }
{
    match flags.get(number as usize) {
        Some(flag) => *flag,
        None => false,
    }
}

// Whether a specifier has a list where its tag has had one.
fn is_listed_again(syntax: &Syntax, listed: &[bool], node: u32, declared: u32) -> bool
    ensures { (uses : List (ℕ × ℕ)) →
        let s = source_in syntax.now uses in
        spec.tag_declared s node ≡ declared →
        ListedBefore s node listed.now → result ≡ (spec.has_list s node && spec.is_listed_before s node) }
{
    has_list(syntax, node) && flag_at(listed, declared)
}

// Whether a specifier's keyword isn't that with which its tag is declared first.
fn has_other_keyword(syntax: &Syntax, node: u32, declared: u32) -> bool
    requires { declared < length syntax.now.tree.now.nodes.items }
    ensures { (uses : List (ℕ × ℕ)) →
        let s = source_in syntax.now uses in
        spec.tag_declared s node ≡ declared → result ≡ spec.has_other_keyword s node }
{
    !same_word(keyword_of(syntax, declared), word_of(syntax, node))
}

// Whether a specifier may stand.
fn tag_fits(syntax: &Syntax, listed: &[bool], node: u32, declared: u32) -> bool
    requires { declared < length syntax.now.tree.now.nodes.items }
    ensures { (uses : List (ℕ × ℕ)) →
        let s = source_in syntax.now uses in
        spec.tag_declared s node ≡ declared → ListedBefore s node listed.now → result ≡ spec.tag_fits s node }
{
    !(is_listed_again(syntax, listed, node, declared) || has_other_keyword(syntax, node, declared))
}

// What is known of the tag of a specifier, by the node of the tag's first declaration and the tags that have had a list.
fn seen_tag(syntax: &Syntax, listed: &[bool], node: u32, declared: u32) -> SeenTag
    requires { declared < length syntax.now.tree.now.nodes.items }
    ensures { (uses : List (ℕ × ℕ)) →
        let s = source_in syntax.now uses in
        spec.tag_declared s node ≡ declared → ListedBefore s node listed.now → IsSeen s node result }
{
    SeenTag {
        number: syntax.tag_number(declared),
        fits: tag_fits(syntax, listed, node, declared),
    }
}

// Marks a number in a list of flags, if that is asked.
fn mark_if(flags: &mut Vec<bool>, number: usize, asked: bool)
    requires { number < length flags.old.items }
    ensures long { length flags.new.items ≡ length flags.old.items }
    ensures marked { (n : ℕ) →
        get_or flags.new.items n false ≡ (get_or flags.old.items n false || (asked && number == n)) }
{
    if asked {
        flags[number] = true;
    }
}

// What is known of the tag of one more node, if it is a specifier.
fn see_node(
    syntax: &Syntax,
    roles: &[Role],
    declaring: &Declaring,
    listed: &mut Vec<bool>,
    node: u32,
) -> Result<SeenTag, OutOfMemory>
    requires { length listed.old.items ≡ length syntax.now.tree.now.nodes.items }
    ensures long { OnOk result (length listed.new.items ≡ length listed.old.items) }
    ensures seen { IfOk result (λ tag. (uses : List (ℕ × ℕ)) →
        let s = source_in syntax.now uses in
        AreRoles s roles.now →
        Declares s declaring.now →
        ListedBefore s node listed.old.items → spec.is_tag_specifier s node ≡ true → IsSeen s node tag) }
    ensures listed { OnOk result ((uses : List (ℕ × ℕ)) →
        let s = source_in syntax.now uses in
        AreRoles s roles.now →
        Declares s declaring.now → ListedBefore s node listed.old.items → ListedBefore s (node + 1) listed.new.items) }
{
    if !is_specifier_at(roles, node) {
        return Ok(SeenTag {
            number: 0,
            fits: false,
        });
    }
    let declared = tag_declared(syntax, declaring, node);
    if declared as usize >= listed.as_slice().len() {
        return Err(OutOfMemory);
    }
    let tag = seen_tag(syntax, listed.as_slice(), node, declared);
    mark_if(listed, declared as usize, has_list(syntax, node));
    Ok(tag)
}

// Adds what is known of the tag of one node more.
fn add_seen(seen: &mut SeenTags, node: u32, tag: SeenTag) -> Result<(), OutOfMemory>
    ensures here { OnOk result (
        number_at seen.old.numbers node ≡ None → number_at seen.old.unfit node ≡ None → seen_in seen.new node ≡ tag) }
    ensures others { OnOk result ((q : ℕ) →
        (node ≡ q → ⊥) → number_at seen.new.numbers q ≡ number_at seen.old.numbers q) }
    ensures fitting { OnOk result ((q : ℕ) →
        (node ≡ q → ⊥) → number_at seen.new.unfit q ≡ number_at seen.old.unfit q) }
{
    seen.numbers.add(node, tag.number)?;
    if !tag.fits {
        seen.unfit.add(node, 0)?;
    }
    Ok(())
}

// Keeps what is known of the tag of one node more, if it is a specifier.
fn keep_seen(
    roles: &[Role],
    seen: &mut SeenTags,
    node: u32,
    tag: SeenTag,
) -> Result<(), OutOfMemory>
    ensures { OnOk result ((s : Source) →
        AreRoles s roles.now →
        AreSeen s seen.old node →
        (spec.is_tag_specifier s node ≡ true → IsSeen s node tag) → AreSeen s seen.new (node + 1)) }
{
    if !is_specifier_at(roles, node) {
        return Ok(());
    }
    add_seen(seen, node, tag)?;
    Ok(())
}

/// What is known of each specifier's tag, by what each node is. A tag that is known by a node past the tree, which no bound unit has,
/// counts as want of memory.
pub(in crate::tag_numbers) fn seen_tags(
    alloc: Global,
    syntax: &Syntax,
    roles: &[Role],
    declaring: &Declaring,
) -> Result<SeenTags, OutOfMemory>
    ensures { IfOk result (λ seen. (uses : List (ℕ × ℕ)) →
        let s = source_in syntax.now uses in AreRoles s roles.now → Declares s declaring.now → AreSeen s seen (length s.nodes)) }
{
    let count = syntax.tree.nodes.len();
    if count > u32::MAX as usize {
        return Err(OutOfMemory);
    }
    let mut listed: Vec<bool> = vec![in alloc; false; count]?;
    let mut seen = SeenTags {
        numbers: LeafMap::new(alloc),
        unfit: LeafMap::new(alloc),
    };
    let end = count as u32;
    let mut node = next_specifier(roles, 0, end);
    while node < end {
        let tag = see_node(syntax, roles, declaring, &mut listed, node)?;
        keep_seen(roles, &mut seen, node, tag)?;
        node = next_specifier(roles, node + 1, end);
    }
    Ok(seen)
}

// Whether a node is a specifier of a structure or union with a list of members.
fn completes(syntax: &Syntax, roles: &[Role], node: u32) -> bool
    ensures { (uses : List (ℕ × ℕ)) →
        let s = source_in syntax.now uses in AreRoles s roles.now → result ≡ completes s node }
{
    is_structure_at(roles, node) && child_of(syntax, MEMBERS, node).is_some()
}

// Marks the tag of one more node, if it is a specifier with a list of members.
fn mark_node(
    syntax: &Syntax,
    roles: &[Role],
    declaring: &Declaring,
    flags: &mut Vec<bool>,
    node: u32,
) -> Result<(), OutOfMemory>
    ensures { OnOk result ((uses : List (ℕ × ℕ)) →
        let s = source_in syntax.now uses in
        AreRoles s roles.now →
        Declares s declaring.now → MarkedBefore s node flags.old.items → MarkedBefore s (node + 1) flags.new.items) }
{
    if !completes(syntax, roles, node) {
        return Ok(());
    }
    let number = syntax.tag_number(tag_declared(syntax, declaring, node));
    if number as usize >= flags.as_slice().len() {
        return Err(OutOfMemory);
    }
    mark_if(flags, number as usize, true);
    Ok(())
}

/// Which of so many tags have a list of members somewhere, by what each node is.
pub(in crate::tag_numbers) fn completed_tags(
    alloc: Global,
    syntax: &Syntax,
    roles: &[Role],
    declaring: &Declaring,
    count: usize,
) -> Result<Vec<bool>, OutOfMemory>
    ensures { IfOk result (λ flags. (uses : List (ℕ × ℕ)) →
        let s = source_in syntax.now uses in AreRoles s roles.now
        → Declares s declaring.now
        → MarkedBefore s (length s.nodes) flags.items) }
{
    if syntax.tree.nodes.len() > u32::MAX as usize {
        return Err(OutOfMemory);
    }
    let end = syntax.tree.nodes.len() as u32;
    let mut flags: Vec<bool> = vec![in alloc; false; count]?;
    let mut node = next_specifier(roles, 0, end);
    while node < end {
        mark_node(syntax, roles, declaring, &mut flags, node)?;
        node = next_specifier(roles, node + 1, end);
    }
    Ok(flags)
}
