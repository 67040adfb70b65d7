//! Classes of nodes that their kids tell apart, split by split: only classes are looked at of which some node's kid changed
//! its class.

ghost use Rattle.std.specs.Prelude.{◌≡◌, ◌<◌, ◌^◌, ℕ, All, IfOk, IsTrue, OnOk, length, slice_index};
ghost use Rattle.link_merge.specs.Parted.{lists_of, AreNodes, AreParted, MembersUpTo};

use crate::members::{add_node, empty_lists, members_of};
use crate::split::split;
use pta_base::OutOfMemory;
use std::alloc::Global;
use std::collections::VecDeque;

/// The classes that are to be looked at, in the order in which they were touched, and which ones these are.
#[derive(Drop)]
struct Touched {
    queue: VecDeque<u32>,
    marked: Vec<bool>,
}

impl Touched {
    // Puts a class behind those that are to be looked at, where it isn't among them.
    fn touch(&mut self, class: u32) -> Result<(), OutOfMemory> {
        let at = class as usize;
        if at < self.marked.len() && !self.marked[at] {
            self.marked[at] = true;
            self.queue.push_back(class)?;
        }
        Ok(())
    }

    // Touches the classes of a list.
    fn touch_all(&mut self, classes: &[u32]) -> Result<(), OutOfMemory> {
        for class in classes {
            self.touch(*class)?;
        }
        Ok(())
    }

    // Touches the classes of the nodes that have one of these nodes as a kid.
    fn touch_users(&mut self, users: &[Vec<u32>], nodes: &[u32]) -> Result<(), OutOfMemory> {
        for node in nodes {
            if let Some(list) = users.get(*node as usize) {
                self.touch_all(list.as_slice())?;
            }
        }
        Ok(())
    }

    // Takes the next class that is to be looked at.
    fn next(&mut self) -> Option<u32> {
        let class = self.queue.pop_front()?;
        if (class as usize) < self.marked.len() {
            self.marked[class as usize] = false;
        }
        Some(class)
    }
}

// No class is to be looked at, of so many nodes.
fn untouched(alloc: Global, count: usize) -> Result<Touched, OutOfMemory> {
    Ok(Touched {
        queue: VecDeque::new(alloc),
        marked: vec![in alloc; false; count]?,
    })
}

// Notes for each of the kids of a node the class in which the node begins.
fn add_users(users: &mut Vec<Vec<u32>>, kids: &[u32], class: u32) -> Result<(), OutOfMemory> {
    for kid in kids {
        let at = *kid as usize;
        if at < users.len() {
            add_node(users, at, class)?;
        }
    }
    Ok(())
}

// For each node the classes in which the nodes begin that have it as a kid.
fn users_of(alloc: Global, first: &[u32], kids: &[Vec<u32>]) -> Result<Vec<Vec<u32>>, OutOfMemory>
    requires { length kids.now ≡ length first.now }
{
    let mut users = empty_lists(alloc, first.len())?;
    for (here, class) in first.iter().enumerate() {
        add_users(&mut users, kids[here].as_slice(), *class)?;
    }
    Ok(users)
}

// Whether all numbers of a list are below a bound.
fn all_below(list: &[u32], count: usize) -> bool
    ensures { IsTrue result → All (λ c. c < count) list.now }
{
    list.iter().all(|c| (*c as usize) < count)
}

// Whether all numbers of all lists are below a bound.
fn are_nodes(lists: &[Vec<u32>], count: usize) -> bool
    ensures { IsTrue result → AreNodes (lists_of lists.now) count }
{
    for list in lists {
        if !all_below(list.as_slice(), count) {
            return false;
        }
    }
    true
}

// Looks at the nodes that begin in a class. The nodes that change their class.
fn look_at(
    alloc: Global,
    class: &mut Vec<u32>,
    first: &[u32],
    kids: &[Vec<u32>],
    members: &[Vec<u32>],
    which: u32,
) -> Result<Vec<u32>, OutOfMemory>
    requires few { length first.now < 2 ^ 32 }
    requires many { length kids.now ≡ length first.now }
    requires kids { AreNodes (lists_of kids.now) (length first.now) }
    requires members { MembersUpTo first.now (lists_of members.now) (length first.now) }
    requires parted { AreParted first.now (lists_of kids.now) class.old.items }
    ensures { OnOk result (AreParted first.now (lists_of kids.now) class.new.items) }
{
    let at = which as usize;
    if at >= members.len() {
        return Ok(Vec::new(alloc));
    }
    let list = members[at].as_slice();
    if list.len() < 2 || list.len() > u32::MAX as usize {
        return Ok(Vec::new(alloc));
    }
    let changed = split(alloc, class, kids, list)?;
    Ok(changed)
}

/// Classes of nodes, given the class in which each one begins, each node's kids, and the nodes that begin in another class
/// than before. From these on, each class of which some node's kid changed its class is told apart by the classes of its
/// nodes' kids: a class costs the number of its nodes and their kids each time that it is looked at, and a node changes its
/// class at most as often as there are other nodes that begin in the same class.
pub fn parted(
    alloc: Global,
    first: &[u32],
    kids: &[Vec<u32>],
    changed: &[u32],
) -> Result<Vec<u32>, OutOfMemory>
    requires few { length first.now < 2 ^ 32 }
    requires within { All (λ l. l < length first.now) first.now }
    requires itself { (x : ℕ) → x < length first.now → slice_index first.now (slice_index first.now x) ≡ slice_index first.now x }
    requires many { length kids.now ≡ length first.now }
    ensures { IfOk result (λ class. AreParted first.now (lists_of kids.now) class.items) }
{
    let mut class = Vec::from_slice(alloc, first)?;
    if !are_nodes(kids, first.len()) {
        return Ok(class);
    }
    let members = members_of(alloc, first)?;
    let users = users_of(alloc, first, kids)?;
    let mut touched = untouched(alloc, first.len())?;
    touched.touch_users(users.as_slice(), changed)?;
    for _ in 0..u64::MAX {
        let Some(which) = touched.next() else {
            return Ok(class);
        };
        let now = look_at(alloc, &mut class, first, kids, members.as_slice(), which)?;
        touched.touch_users(users.as_slice(), now.as_slice())?;
    }
    Ok(class)
}
