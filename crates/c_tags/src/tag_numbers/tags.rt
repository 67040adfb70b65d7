// Numbers for the tags of a unit.
ghost use Rattle.std.specs.Prelude.{◌≡◌, ℕ, List, true, IfOk};
ghost use Rattle.c_senses.specs.Tree.{Source};
ghost use Rattle.c_senses.specs.World.{World};
ghost use Rattle.c_senses.specs.Sense.{Sense};
ghost use Rattle.c_senses.specs.Tags as spec;
ghost use Rattle.c_senses.specs.Entities as entities;
ghost use Rattle.c_scope.specs.Resolves.{IsBound};
ghost use Rattle.c_tags.specs.Seen.{IsSeen};
ghost use Rattle.tree_reads.specs.Sources.{source_in};
ghost use Rattle.tree_reads.specs.node_roles.Roles.{AreRoles};
ghost use Rattle.c_tags.specs.tag_numbers.Known.{AreTagNumbers, AreTags};
ghost use Rattle.c_tags.specs.tag_numbers.Firsts.{Declares};
ghost use Rattle.c_tags.specs.tag_numbers.Ordered.{AreInOrder};

use crate::SeenTag;
use crate::tag_numbers::declaring::{Declaring, meanings};
use crate::tag_numbers::numbers::number_all;
use crate::tag_numbers::seen::{SeenTags, completed_tags, flag_at, seen_tags};
use c_scope::Bound;
use pta_base::OutOfMemory;
use std::alloc::Global;
use tree_reads::node_roles::{Role, roles_of};
use tree_reads::{Syntax, TagNumbers};

/// What is known of the tags of a unit before its rows: how many structures and unions there are, whose numbers are those below that
/// count; what is known of each specifier's tag; which tags have a list of members somewhere in the unit, by number; and the
/// first specifier of each tag, by number.
#[derive(Drop)]
pub struct Tags {
    pub count: u32,
    pub(in crate::tag_numbers) seen: SeenTags,
    pub completed: Vec<bool>,
    pub firsts: Vec<u32>,
}

/// A unit's tokens and tree with the numbers of its tags, and what is known of the tags.
#[derive(Drop)]
pub struct Numbered<'a> {
    pub syntax: Syntax<'a>,
    pub tags: Tags,
}

impl Tags {
    /// What is known of the tag of a specifier.
    pub fn seen_at(&self, node: u32) -> SeenTag
        ensures { (s : Source) → AreTags s self.now → spec.is_tag_specifier s node ≡ true → IsSeen s node result }
    {
        self.seen.get(node)
    }

    /// Whether a tag has a list of members somewhere in the unit (C11 6.9.2p3).
    pub fn is_completed_somewhere(&self, tag: u32) -> bool
        ensures { (s : Source) (w : World) (sense : ℕ → Sense) →
            AreTags s self.now → result ≡ entities.is_completed_somewhere w s sense tag }
    {
        flag_at(self.completed.as_slice(), tag)
    }
}

// The tokens and the tree with the numbers of the tags, and the first specifier of each number.
fn with_numbers<'a>(
    alloc: Global,
    syntax: Syntax<'a>,
    roles: &[Role],
    declaring: &Declaring,
) -> Result<(Syntax<'a>, Vec<u32>), OutOfMemory>
    ensures tokens { IfOk result (λ n. n.0.tokens.now ≡ syntax.entry.tokens.now) }
    ensures tree { IfOk result (λ n. n.0.tree.now ≡ syntax.entry.tree.now) }
    ensures numbers { IfOk result (λ n. (uses : List (ℕ × ℕ)) →
        let s = source_in n.0 uses in AreRoles s roles.now → Declares s declaring.now → AreTagNumbers s n.1.items) }
{
    let nodes = syntax.tree.nodes.as_slice().len();
    if nodes > u32::MAX as usize {
        return Err(OutOfMemory);
    }
    let numbering = number_all(alloc, &syntax, roles, declaring)?;
    let tag_numbers = TagNumbers {
        numbers: numbering.numbers,
        count: nodes as u32,
    };
    Ok((syntax.with_tag_numbers(tag_numbers), numbering.firsts))
}

// What is known of the tags, by the first specifier of each number.
fn tags_by(
    alloc: Global,
    syntax: &Syntax,
    roles: &[Role],
    declaring: &Declaring,
    firsts: Vec<u32>,
) -> Result<Tags, OutOfMemory>
    ensures { IfOk result (λ t. (uses : List (ℕ × ℕ)) →
        let s = source_in syntax.now uses in AreRoles s roles.now → Declares s declaring.now → AreTagNumbers s firsts.items → AreTags s t) }
{
    let count = firsts.as_slice().len();
    if count > u32::MAX as usize {
        return Err(OutOfMemory);
    }
    let seen = seen_tags(alloc, syntax, roles, declaring)?;
    let completed = completed_tags(alloc, syntax, roles, declaring, count)?;
    Ok(Tags {
        count: count as u32,
        seen,
        completed,
        firsts,
    })
}

/// Numbers the structures and unions of a unit in the order of their first specifiers (C11 6.7.2.3), and tells what is known of each
/// specifier's tag. Only memory may want.
pub fn number_tags<'a>(
    alloc: Global,
    syntax: Syntax<'a>,
    bound: &Bound,
) -> Result<Numbered<'a>, OutOfMemory>
    requires { IsBound syntax.tokens.now syntax.tree.now bound.now }
    ensures tokens { IfOk result (λ n. n.syntax.tokens.now ≡ syntax.entry.tokens.now) }
    ensures tree { IfOk result (λ n. n.syntax.tree.now ≡ syntax.entry.tree.now) }
    ensures tags { IfOk result (λ n. AreTags (source_in n.syntax bound.now.uses.items) n.tags) }
    ensures ordered { IfOk result (λ n. AreInOrder (source_in n.syntax bound.now.uses.items)) }
{
    let declaring = meanings(alloc, bound)?;
    let roles = roles_of(alloc, &syntax)?;
    let (syntax, firsts) = with_numbers(alloc, syntax, roles.as_slice(), &declaring)?;
    let tags = tags_by(alloc, &syntax, roles.as_slice(), &declaring, firsts)?;
    Ok(Numbered { syntax, tags })
}
