// Members and nodes of a type.

ghost use Rattle.std.specs.Prelude.{◌≡◌, ℕ, ◌-◌, ◌<◌, ◌≤◌, if◌then◌else◌, [], None, Some, IsTrue, List, Option};
ghost use Rattle.std.specs.Prelude.{MatchOption, All, length, slice_get, slice_index};
ghost use Rattle.std.specs.List.Sorted.{IsNonDecreasingBy};
ghost use Rattle.c_types.specs.Trees.{Ctype, grow, tree_at, grown};
ghost use Rattle.c_types.specs.Table.{extent_in, members_in, node_of};
ghost use Rattle.c_types.specs.Parts.{field_in, unless_flexible, within_32};
ghost use Rattle.c_types.specs.Inside.{AreEntries, AreRight, IsLayoutOf, IsPlain, LiesIn, member_place, table_of, terms_of};

use crate::table::{Entry, TagLayout};
use crate::term::{MemberTerm, Term, TypeId};

/// The position of a member's node.
pub(crate) fn field_at(
    entries: &[Entry],
    tags: &[Option<u32>],
    completed: &[TagLayout],
    id: TypeId,
    member: u32,
) -> Option<u32>
    requires right { AreRight entries.now tags.now completed.now }
    requires id { id.0 < length entries.now }
    ensures { let table = table_of entries.now tags.now completed.now in
        result ≡ within_32 (field_in table (tree_at (grown [] (terms_of entries.now)) id.0) member) }
{
    match &entries[id.0 as usize].term {
        Term::Structure(tag) => match layout_for(entries, tags, completed, *tag) {
            Some(layout) => structure_field(entries, layout, member),
            None => None,
        },
        Term::Union(tag) => match layout_for(entries, tags, completed, *tag) {
            Some(layout) => union_field(entries, layout, member),
            None => None,
        },
        _ => None,
    }
}

// What is kept of a complete tag.
fn layout_for<'a>(
    entries: &[Entry],
    tags: &[Option<u32>],
    completed: &'a [TagLayout],
    tag: u32,
) -> Option<&'a TagLayout>
    requires right { AreRight entries.now tags.now completed.now }
    requires tag { tag < length tags.now }
    ensures { let table = table_of entries.now tags.now completed.now in
        MatchOption result (members_in table tag ≡ None) (λ layout. IsLayoutOf table tag layout.now) }
{
    match tags[tag as usize] {
        Some(k) => Some(&completed[k as usize]),
        None => None,
    }
}

// The position of a member's node in a structure.
fn structure_field(entries: &[Entry], layout: &TagLayout, member: u32) -> Option<u32>
    requires entries { (tags : ℕ) × AreEntries entries.now tags }
    requires members { All (λ m. m.ty.0 < length entries.now) layout.now.members.items }
    requires positions { length layout.now.positions.items ≡ length layout.now.members.items }
    ensures { result ≡ within_32
        (member_place (grown [] (terms_of entries.now)) layout.now.members.items member
        (slice_index layout.now.positions.items member)) }
{
    if has_node(entries, layout.members.as_slice(), member) {
        narrowed(layout.positions[member as usize])
    } else {
        None
    }
}

// The position of a member's node in a union.
fn union_field(entries: &[Entry], layout: &TagLayout, member: u32) -> Option<u32>
    requires entries { (tags : ℕ) × AreEntries entries.now tags }
    requires members { All (λ m. m.ty.0 < length entries.now) layout.now.members.items }
    ensures { result ≡ within_32 (member_place (grown [] (terms_of entries.now)) layout.now.members.items member 0) }
{
    if has_node(entries, layout.members.as_slice(), member) {
        Some(0)
    } else {
        None
    }
}

// Whether there is such a member, with a node.
fn has_node(entries: &[Entry], members: &[MemberTerm], member: u32) -> bool
    requires entries { (tags : ℕ) × AreEntries entries.now tags }
    requires members { All (λ m. m.ty.0 < length entries.now) members.now }
    ensures within { IsTrue result → member < length members.now }
    ensures place { (n : ℕ) →
        member_place (grown [] (terms_of entries.now)) members.now member n ≡ (if result then Some n else None) }
{
    let k = member as usize;
    k < members.len() && !is_flexible(entries, members[k].ty)
}

// Whether a type is an array without a length.
fn is_flexible(entries: &[Entry], id: TypeId) -> bool
    requires entries { (tags : ℕ) × AreEntries entries.now tags }
    requires id { id.0 < length entries.now }
    ensures { (n : ℕ) →
        unless_flexible (tree_at (grown [] (terms_of entries.now)) id.0) n ≡ (if result then None else Some n) }
{
    lacks_length(&entries[id.0 as usize].term)
}

// Whether a term is an array without a length.
fn lacks_length(term: &Term) -> bool
    ensures { (trees : List Ctype) (n : ℕ) → unless_flexible (grow trees term.now) n ≡ (if result then None else Some n) }
{
    match term {
        Term::Array { length: None, .. } => true,
        Term::Array {
            length: Some(_),
            ..
        } => false,
        Term::Void | Term::Bool | Term::Floating | Term::VaList => false,
        Term::Integer { .. } | Term::Function { .. } => false,
        Term::Pointer(_) | Term::Structure(_) | Term::Union(_) => false,
    }
}

// A number of 32 bits.
fn narrowed(n: u64) -> Option<u32>
    ensures { result ≡ within_32 (Some n) }
{
    if n < 1 << 32 { Some(n as u32) } else { None }
}

/// The type of a node.
pub(crate) fn node_below(
    entries: &[Entry],
    tags: &[Option<u32>],
    completed: &[TagLayout],
    id: TypeId,
    node: u32,
) -> TypeId
    requires right { AreRight entries.now tags.now completed.now }
    requires id { id.0 < length entries.now }
    requires inside { let table = table_of entries.now tags.now completed.now in
        (x : Ctype) × (node_of (extent_in table (tree_at (grown [] (terms_of entries.now)) id.0)) node ≡ Some x) }
    ensures known { result.0 < length entries.now }
    ensures node { let table = table_of entries.now tags.now completed.now in
        let types = grown [] (terms_of entries.now) in
        node_of (extent_in table (tree_at types id.0)) node ≡ Some (tree_at types result.0) }
{
    let mut whole = entries[id.0 as usize].element;
    let mut rest = node;
    while rest > 0 {
        let (part, start) = part_at(entries, tags, completed, whole, rest);
        whole = part;
        rest -= start;
    }
    TypeId(whole)
}

// The member of a structure in which a node lies, arrays taken off, and where its nodes start.
fn part_at(
    entries: &[Entry],
    tags: &[Option<u32>],
    completed: &[TagLayout],
    whole: u32,
    node: u32,
) -> (u32, u32)
    requires right { AreRight entries.now tags.now completed.now }
    requires whole { whole < length entries.now }
    requires plain { IsPlain (tree_at (grown [] (terms_of entries.now)) whole) }
    requires deep { 0 < node }
    requires inside { let table = table_of entries.now tags.now completed.now in
        (x : Ctype) × (node_of (extent_in table (tree_at (grown [] (terms_of entries.now)) whole)) node ≡ Some x) }
    ensures part { result.0 < length entries.now }
    ensures plain { IsPlain (tree_at (grown [] (terms_of entries.now)) result.0) }
    ensures start { 0 < result.1 }
    ensures before { result.1 ≤ node }
    ensures node { let table = table_of entries.now tags.now completed.now in
        let types = grown [] (terms_of entries.now) in
        node_of (extent_in table (tree_at types whole)) node
        ≡ node_of (extent_in table (tree_at types result.0)) (node - result.1) }
{
    match &entries[whole as usize].term {
        Term::Structure(tag) => match layout_for(entries, tags, completed, *tag) {
            Some(layout) => member_at(
                entries,
                layout.members.as_slice(),
                layout.positions.as_slice(),
                node,
            ),
            None => unreachable!(),
        },
        _ => unreachable!(),
    }
}

// The member in which a node lies, arrays taken off, and where its nodes start.
fn member_at(entries: &[Entry], members: &[MemberTerm], positions: &[u64], node: u32) -> (u32, u32)
    requires entries { (tags : ℕ) × AreEntries entries.now tags }
    requires members { All (λ m. m.ty.0 < length entries.now) members.now }
    requires positions { length positions.now ≡ length members.now }
    requires ordered { IsNonDecreasingBy (λ (p : ℕ). p) positions.now }
    requires first { slice_index positions.now 0 ≤ node }
    requires some { 0 < length positions.now }
    ensures { (k : ℕ) × LiesIn (grown [] (terms_of entries.now)) members.now positions.now node k result.0 result.1 }
{
    let member = starts_up_to(positions, u64::from(node)) - 1;
    let start = positions[member];
    let part = entries[members[member].ty.0 as usize].element;
    (part, start as u32)
}

// How many positions are at most that number.
fn starts_up_to(positions: &[u64], node: u64) -> usize
    requires { IsNonDecreasingBy (λ (p : ℕ). p) positions.now }
    ensures within { result ≤ length positions.now }
    ensures below { (k : ℕ) → k < result → slice_index positions.now k ≤ node }
    ensures above { (k : ℕ) → result ≤ k → k < length positions.now → node < slice_index positions.now k }
{
    positions.partition_point(|p| *p <= node)
}
