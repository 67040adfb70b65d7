// Lists of declarations that share their beginnings.
ghost use Rattle.std.specs.Prelude.{◌≡◌, ◌++◌, ◌∷◌, [], ◌<◌, ℕ, All, length, IfOk};
ghost use Rattle.name_chains.specs.Links.{listed, IsLinkOf, AreBackward, Adds, HaveLeaves};

use c_scope::Declared;
use pta_base::OutOfMemory;
use std::alloc::Global;

/// A declaration at the end of a list, and the link before it.
#[derive(Clone, Copy, Debug, PartialEq, Eq)]
pub struct Link {
    /// The last link of the list without this declaration; None where it is the first.
    pub before: Option<u32>,
    /// The declaration.
    pub declared: Declared,
}

/// Links of lists, each behind those that it goes to.
pub type Links = Vec<Link>;

/// A list with a declaration more, by its last link. More links than there are numbers count as want of memory.
pub(crate) fn push_link(
    links: &mut Links,
    before: Option<u32>,
    declared: Declared,
) -> Result<Option<u32>, OutOfMemory>
    requires before { IsLinkOf links.old.items before }
    requires backward { AreBackward links.old.items }
    ensures adds { Adds links.old.items links.new.items }
    ensures leaves { (n : ℕ) → HaveLeaves n links.old.items → declared.node < n → HaveLeaves n links.new.items }
    ensures last { IfOk result (IsLinkOf links.new.items) }
    ensures list { IfOk result (λ last. listed links.new.items last ≡ listed links.old.items before ++ declared ∷ []) }
{
    if links.len() >= u32::MAX as usize {
        return Err(OutOfMemory);
    }
    let last = links.len() as u32;
    links.push(Link { before, declared })?;
    Ok(Some(last))
}

/// A list with some declarations more, by its last link.
pub(crate) fn push_all(
    links: &mut Links,
    before: Option<u32>,
    list: &[Declared],
) -> Result<Option<u32>, OutOfMemory>
    requires before { IsLinkOf links.old.items before }
    requires backward { AreBackward links.old.items }
    ensures adds { Adds links.old.items links.new.items }
    ensures leaves { (n : ℕ) → HaveLeaves n links.old.items → All (λ d. d.node < n) list.now → HaveLeaves n links.new.items }
    ensures last { IfOk result (IsLinkOf links.new.items) }
    ensures list { IfOk result (λ last. listed links.new.items last ≡ listed links.old.items before ++ list.now) }
{
    let mut last = before;
    for declared in list {
        last = push_link(links, last, *declared)?;
    }
    Ok(last)
}

/// The declarations of a list, by its last link.
pub fn list_of(
    alloc: Global,
    links: &[Link],
    last: Option<u32>,
) -> Result<Vec<Declared>, OutOfMemory>
    requires last { IsLinkOf links.now last }
    requires backward { AreBackward links.now }
    ensures list { IfOk result (λ v. v.items ≡ listed links.now last) }
    ensures leaves { IfOk result (λ v. (n : ℕ) → HaveLeaves n links.now → All (λ d. d.node < n) v.items) }
{
    let mut list = Vec::new(alloc);
    let mut at = last;
    while let Some(place) = at {
        let link = links[place as usize];
        list.push(link.declared)?;
        at = link.before;
    }
    list.reverse();
    Ok(list)
}
