// Lists of members that are being gone through.
ghost use Rattle.std.specs.Prelude.{◌≡◌, ◌<◌, ◌++◌, ℕ, List, Some, length, IfOk, IfSome};
ghost use Rattle.core_tree.specs.declared.node.Unit.{Unit as UnitSpec};
ghost use Rattle.c_senses.specs.World.{World};
ghost use Rattle.c_senses.specs.Sense.{sense_in};
ghost use Rattle.c_senses.specs.Tree.{children_at};
ghost use Rattle.c_results.specs.Standing.{senses_made};
ghost use Rattle.c_results.specs.declared.made.Made.{Made as MadeSpec};
ghost use Rattle.tree_reads.specs.declared.syntax.Syntax.{Syntax as SyntaxSpec};
ghost use Rattle.tree_reads.specs.Sources.{source_read, source_in};
ghost use Rattle.c_structures.specs.Before.{Covers, SaysEarlier, ascends, parts_before};
ghost use Rattle.c_structures.specs.Listed.{IsOpen, AreLists};

use crate::before::{Cursor, MembersBefore, advanced, is_ascending, start};
use c_results::Results;
use core_nodes::CheckFault;
use std::alloc::Global;
use tree_reads::{Syntax, children_of};

/// A list of members, with the names of those before its next field.
#[derive(Drop)]
pub struct OpenList {
    pub(crate) list: u32,
    pub(crate) before: MembersBefore,
}

/// What is kept of the lists of members that are being gone through, so that each field costs about as much as its name. The lists that
/// stand around another come before it.
#[derive(Drop)]
pub struct MemberLists {
    pub(crate) open: Vec<OpenList>,
}

impl MemberLists {
    /// Nothing is kept.
    pub fn new(alloc: Global) -> MemberLists
        ensures { (syntax : SyntaxSpec) (results : List MadeSpec) → AreLists syntax results result }
    {
        MemberLists {
            open: Vec::new(alloc),
        }
    }

    // What is kept of a list, which is no longer kept, nor is what is kept of lists before it in the tree's order.
    fn take(&mut self, list: u32) -> Option<OpenList>
        ensures lists { (syntax : SyntaxSpec) (results : List MadeSpec) → AreLists syntax results self.old → AreLists syntax results self.new }
        ensures open { (syntax : SyntaxSpec) (results : List MadeSpec) →
            AreLists syntax results self.old → IfSome result (λ o. IsOpen syntax results list o.before) }
    {
        while let Some(last) = self.open.pop() {
            if last.list == list {
                return Some(last);
            }
            if last.list > list {
                let _ = self.open.push(last);
                return None;
            }
        }
        None
    }
}

// Nothing of a list has been gone through, nor of one of its declarations; none where their nodes don't ascend.
fn opened(alloc: Global, syntax: &Syntax, list: u32, member: u32) -> Option<MembersBefore>
    ensures member { IfSome result (λ b. b.member ≡ member) }
    ensures open { (results : List MadeSpec) → IfSome result (IsOpen syntax.now results list) }
{
    if is_ascending(children_of(syntax, list)) && is_ascending(children_of(syntax, member)) {
        Some(MembersBefore {
            whole: start(alloc),
            member,
            part: start(alloc),
        })
    } else {
        None
    }
}

// What is kept of a list, for the fields of a declaration; none where its nodes don't ascend.
fn at_member(
    alloc: Global,
    syntax: &Syntax,
    before: MembersBefore,
    list: u32,
    member: u32,
) -> Option<MembersBefore>
    ensures member { IfSome result (λ b. b.member ≡ member) }
    ensures open { (results : List MadeSpec) →
        IsOpen syntax.now results list before → IfSome result (IsOpen syntax.now results list) }
{
    let MembersBefore {
        whole,
        member: last,
        part,
    } = before;
    if last == member {
        return Some(MembersBefore {
            whole,
            member,
            part,
        });
    }
    if !is_ascending(children_of(syntax, member)) {
        return None;
    }
    Some(MembersBefore {
        whole,
        member,
        part: start(alloc),
    })
}

/// What is kept of a list, with the members of all nodes before a field. Only memory may want.
pub(crate) fn moved(
    alloc: Global,
    syntax: &Syntax,
    results: &Results,
    before: MembersBefore,
    list: u32,
    at: u32,
) -> Result<MembersBefore, CheckFault>
    ensures open { IfOk result (λ b. IsOpen syntax.now results.now list before → IsOpen syntax.now results.now list b) }
    ensures earlier { IfOk result (λ b.
        IsOpen syntax.now results.now list before →
        (u : UnitSpec) (w : World) (uses : List (ℕ × ℕ)) →
        let s = source_in syntax.now uses in
        let sense = sense_in (senses_made u results.now) in
        SaysEarlier b
        (parts_before w s sense (Some list) before.member ++ parts_before w s sense (Some before.member) at)) }
{
    let MembersBefore {
        whole,
        member,
        part,
    } = before;
    let whole = advanced(alloc, whole, results, children_of(syntax, list), member)?;
    let part = advanced(alloc, part, results, children_of(syntax, member), at)?;
    Ok(MembersBefore {
        whole,
        member,
        part,
    })
}

impl MemberLists {
    /// What is kept of a list, or begun of it, for the fields of a declaration.
    pub(crate) fn found(
        &mut self,
        alloc: Global,
        syntax: &Syntax,
        list: u32,
        member: u32,
    ) -> Option<MembersBefore>
        ensures lists { (results : List MadeSpec) → AreLists syntax.now results self.old → AreLists syntax.now results self.new }
        ensures member { IfSome result (λ b. b.member ≡ member) }
        ensures open { (results : List MadeSpec) →
            AreLists syntax.now results self.old → IfSome result (IsOpen syntax.now results list) }
    {
        match self.take(list) {
            Some(kept) => {
                let OpenList { list: _, before } = kept;
                at_member(alloc, syntax, before, list, member)
            }
            None => opened(alloc, syntax, list, member),
        }
    }

    /// Keeps what is known of a list. It isn't kept where memory wants.
    pub(crate) fn keep(&mut self, list: u32, before: MembersBefore) -> bool
        ensures { (syntax : SyntaxSpec) (results : List MadeSpec) →
            IsOpen syntax results list before → AreLists syntax results self.old → AreLists syntax results self.new }
    {
        self.open.push(OpenList { list, before }).is_ok()
    }
}
