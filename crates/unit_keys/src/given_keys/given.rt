// Which tags get keys.
#![tactic(auto)]

ghost use Rattle.std.specs.Prelude.{◌≡◌, ◌<◌, ◌+◌, ◌^◌, ◌||◌, true, ℕ, List, length, IfOk, IfSome, OnOk};
ghost use Rattle.std.specs.Option.{option_copied};
ghost use Rattle.core_tree.specs.declared.node.Unit.{Unit as UnitSpec};
ghost use Rattle.c_scope.specs.Resolves.{IsBound};
ghost use Rattle.c_senses.specs.Tags as tags;
ghost use Rattle.c_senses.specs.Right as right;
ghost use Rattle.c_senses.specs.Right.{KeysRight};
ghost use Rattle.c_senses.specs.Sense.{Sense, sense_in};
ghost use Rattle.c_results.specs.Standing.{senses_made};
ghost use Rattle.parsed_tree_laws.specs.sense_laws.Senses.{ChildrenFirst};
ghost use Rattle.tree_reads.specs.Sources.{source_in, source_read};
ghost use Rattle.tree_reads.specs.node_roles.Roles.{AreRoles};
ghost use Rattle.c_tags.specs.tag_numbers.Known.{AreTags};
ghost use Rattle.unit_keys.specs.Words as words;
ghost use Rattle.unit_keys.specs.given_keys.Flags.{AreFlags};
ghost use Rattle.unit_keys.specs.given_keys.Kept.{AreKeys};
ghost use Rattle.unit_keys.specs.given_keys.Given.{AreBelow, AreGiven, GotKeys, is_key, untaken};

use crate::given_keys::declaring::meanings;
use crate::given_keys::flags::tag_flags;
use crate::given_keys::kept::KeptKeys;
use crate::given_keys::placed::{Known, keys_of_specifiers};
use crate::{Words, add_word, free_names, has_word, inner_flags, is_specifier, positions_of};
use c_results::Results;
use c_scope::Bound;
use c_tags::tag_numbers::Numbered;
use pta_base::{OutOfMemory, Text};
use std::alloc::Global;
use std::collections::BTreeMap;
use tree_reads::node_roles::{Role, roles_of};
use tree_reads::{Syntax, is_leaf};

// The specifier that declares a tag.
fn declaring_specifier(syntax: &Syntax, tag: u32) -> Option<u32>
    requires { tag < length syntax.now.tree.now.nodes.items }
    ensures declares { (uses : List (ℕ × ℕ)) → result ≡ tags.declaring_specifier (source_in syntax.now uses) tag }
    ensures within { IfSome result (λ i. i < length syntax.now.tree.now.nodes.items) }
{
    if is_leaf(syntax, tag) {
        syntax.parent_of(tag)
    } else {
        Some(tag)
    }
}

// The key of a tag, by those of all specifiers. Tags are declared by specifiers; if one weren't, that would count as want of memory.
fn key_of_tag<'a>(
    syntax: &Syntax,
    keys: &'a KeptKeys,
    tag: u32,
) -> Result<Option<&'a Text>, OutOfMemory>
    requires { tag < length syntax.now.tree.now.nodes.items }
    ensures { IfOk result (λ key. (uses : List (ℕ × ℕ)) (sense : ℕ → Sense) →
        let s = source_in syntax.now uses in AreKeys s sense keys.now 0 → option_copied key ≡ right.key_of_tag s sense tag) }
{
    let Some(node) = declaring_specifier(syntax, tag) else {
        return Ok(None);
    };
    if !is_specifier(syntax, node) {
        return Err(OutOfMemory);
    }
    Ok(keys.get(node))
}

// The key that a tag gets: its own, where no tag before has it. From then on it is given.
fn give(
    alloc: Global,
    given: &mut Words,
    key: Option<&Text>,
    tag: u32,
) -> Result<Option<Text>, OutOfMemory>
    ensures key { IfOk result (λ own. own ≡ untaken (words.has_word given.old) (option_copied key.entry)) }
    ensures given { OnOk result ((other : List ℕ) →
        words.has_word given.new other ≡ (is_key (option_copied key.entry) other || words.has_word given.old other)) }
{
    let Some(key) = key else {
        return Ok(None);
    };
    let text = key.as_str();
    let there = has_word(given, text.as_bytes());
    add_word(alloc, given, text.as_bytes(), tag)?;
    if there {
        return Ok(None);
    }
    let own = Text::copy_of(alloc, text)?;
    Ok(Some(own))
}

// Gives its key to one more node, if a tag is known by it.
fn give_at(
    alloc: Global,
    syntax: &Syntax,
    keys: &KeptKeys,
    list: &mut Vec<Option<Text>>,
    given: &mut Words,
    tag: u32,
) -> Result<(), OutOfMemory>
    requires { tag < length syntax.now.tree.now.nodes.items }
    ensures long { OnOk result (length list.new.items ≡ length list.old.items) }
    ensures given { OnOk result ((uses : List (ℕ × ℕ)) (sense : ℕ → Sense) →
        let s = source_in syntax.now uses in
        right.is_tag s tag ≡ true →
        AreBelow s (length list.old.items) →
        AreKeys s sense keys.now 0 →
        AreGiven s sense list.old.items given.old tag → AreGiven s sense list.new.items given.new (tag + 1)) }
{
    let own = key_of_tag(syntax, keys, tag)?;
    let key = give(alloc, given, own, tag)?;
    let number = syntax.tag_number(tag) as usize;
    if number < list.len() {
        list[number] = key;
    }
    Ok(())
}

// No keys yet.
fn no_keys(alloc: Global, count: u32) -> Result<Vec<Option<Text>>, OutOfMemory>
    ensures { IfOk result (λ keys. length keys.items ≡ count) }
{
    let mut keys = Vec::new(alloc);
    for _tag in 0..count {
        keys.push(None)?;
    }
    Ok(keys)
}

// The keys that so many tags get, by the keys of all specifiers, and the nodes by which tags are known.
fn given_keys(
    alloc: Global,
    syntax: &Syntax,
    keys: &KeptKeys,
    flags: &[bool],
    count: u32,
) -> Result<Vec<Option<Text>>, OutOfMemory>
    requires nodes { length syntax.now.tree.now.nodes.items < 2 ^ 32 }
    requires flags { length flags.now ≡ length syntax.now.tree.now.nodes.items }
    ensures long { IfOk result (λ list. length list.items ≡ count) }
    ensures given { IfOk result (λ list. (uses : List (ℕ × ℕ)) (sense : ℕ → Sense) →
        let s = source_in syntax.now uses in
        AreFlags s flags.now → AreBelow s count → AreKeys s sense keys.now 0 → GotKeys s sense list.items (length s.nodes)) }
{
    let mut given = BTreeMap::new(alloc);
    let mut list = no_keys(alloc, count)?;
    for node in 0..syntax.tree.nodes.len() as u32 {
        if flags[node as usize] {
            give_at(alloc, syntax, keys, &mut list, &mut given, node)?;
        }
    }
    Ok(list)
}

// The key of each specifier, by what each node is. It is known of each node whether it stands in a block; if it weren't, that would count
// as want of memory.
fn all_keys(
    alloc: Global,
    syntax: &Syntax,
    roles: &[Role],
    results: &Results,
) -> Result<KeptKeys, OutOfMemory>
    requires count { length syntax.now.tree.now.nodes.items < 2 ^ 32 }
    requires first { ChildrenFirst (source_read syntax.now) }
    ensures { IfOk result (λ list. (u : UnitSpec) (uses : List (ℕ × ℕ)) →
        let s = source_in syntax.now uses in AreRoles s roles.now → AreKeys s (sense_in (senses_made u results.now)) list 0) }
{
    let inner = inner_flags(alloc, syntax, roles)?;
    let free = free_names(alloc, syntax, roles, results)?;
    let positions = positions_of(alloc, syntax, roles, results)?;
    if inner.len() != syntax.tree.nodes.len() {
        return Err(OutOfMemory);
    }
    let known = Known {
        roles,
        inner: inner.as_slice(),
        free: &free,
        positions: &positions,
    };
    let list = keys_of_specifiers(alloc, syntax, results, known)?;
    Ok(list)
}

/// The keys of the tags of a unit, one or none for each number: a tag has the key that its declaring specifier's place decides, where
/// no tag that is declared earlier has the same (C11 6.2.7p1). `bound` is what the unit's names mean, and `results` what is made for its
/// nodes. It takes time for the nodes, the text of names and the text of keys alone, but for ordered look-ups. Only memory may want.
pub fn keys_of(
    alloc: Global,
    numbered: &Numbered,
    bound: &Bound,
    results: &Results,
) -> Result<Vec<Option<Text>>, OutOfMemory>
    requires bound { IsBound numbered.now.syntax.tokens.now numbered.now.syntax.tree.now bound.now }
    requires tags { AreTags (source_in numbered.now.syntax bound.now.uses.items) numbered.now.tags }
    requires first { ChildrenFirst (source_read numbered.now.syntax) }
    ensures count { IfOk result (λ keys. length keys.items ≡ numbered.now.tags.count) }
    ensures right { IfOk result (λ keys. (u : UnitSpec) →
        KeysRight (source_in numbered.now.syntax bound.now.uses.items) (sense_in (senses_made u results.now)) keys.items) }
{
    let syntax = &numbered.syntax;
    if syntax.tree.nodes.len() > u32::MAX as usize {
        return Err(OutOfMemory);
    }
    let declaring = meanings(alloc, bound)?;
    let roles = roles_of(alloc, syntax)?;
    let flags = tag_flags(alloc, syntax, roles.as_slice(), &declaring)?;
    let keys = all_keys(alloc, syntax, roles.as_slice(), results)?;
    let list = given_keys(alloc, syntax, &keys, flags.as_slice(), numbered.tags.count)?;
    Ok(list)
}
