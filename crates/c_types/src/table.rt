// The table of a unit's types.

ghost use Rattle.std.specs.Prelude.{◌≡◌, ℕ, ◌+◌, ◌-◌, ◌*◌, ◌^◌, ◌<◌, ◌≤◌, ◌↔◌, ◌⊎◌, ◌++◌, ◌∷◌, [], None, Some, IsTrue};
ghost use Rattle.std.specs.Prelude.{IfOk, IfSome, IfNone, List, Option, OnErr, OnOk, MatchResult, MatchOption, All};
ghost use Rattle.std.specs.Prelude.{length, map, slice_get, slice_index};
ghost use Rattle.std.specs.Option.{option_map};
ghost use Rattle.c_types.specs.Table.{types_of, type_of, IsAfter, HasTag, NotArray, IsFirstOf, IsNowhere, look_in};
ghost use Rattle.c_types.specs.Table.{extent_in, align_within, size_below, nodes_within, node_of, extents_in, members_in};
ghost use Rattle.c_types.specs.Made.{AreNamed, IsFresh, IsMade, IsSized, KeepsApart, StandsAsStructure, StandsAsUnion, AreMembers};
ghost use Rattle.c_types.specs.Parts.{class_of_type, head_type, first_member_of, field_in, within_32};
ghost use Rattle.c_types.specs.declared.table.Entry.{Entry};
ghost use Rattle.c_types.specs.declared.term.MemberTerm.{MemberTerm};
ghost use Rattle.c_types.specs.Trees.{Ctype, grow, grown, tree_at, trees_at};
ghost use Rattle.c_types.specs.Layout.{Extent, extent_of, element_extent, member_extent, flexible, structure_of, union_of};
ghost use Rattle.c_types.specs.Bounds.{cap, bounds, bounds_or, bounds_times};
ghost use Rattle.c_types.specs.Index.{number_at};
ghost use Rattle.c_types.specs.Keys.{firsts_of, key_of, form_number, length_key, sign_number, IsIndex};
ghost use Rattle.c_types.specs.Inside.{AreEntries, IsEntry, IsNext, AreRight, table_of, terms_of, element_of, count_of};
ghost use Rattle.c_types.specs.Inside.{capped, times, starts};

use crate::index::KeyIndex;
use crate::layout::{Bounds, above, beside, capped_sum, padded};
use crate::parts::{field_at, node_below};
use crate::term::{Class, Form, MemberTerm, OutOfMemory, Term, TypeId};
use std::alloc::Global;
use std::marker::Model;

/// A term, and what is known of it once and for all.
#[derive(Drop)]
pub(crate) struct Entry {
    pub(crate) term: Term,
    /// The type with arrays taken off.
    pub(crate) element: u32,
    /// The number of its elements, where all lengths are known, at most 2^63.
    count: Option<u64>,
    /// The first term that is the same type.
    first: u32,
}

/// A tag's members, and what they take as a structure and as a union.
#[derive(Drop)]
pub(crate) struct TagLayout {
    tag: u32,
    pub(crate) members: Vec<MemberTerm>,
    structure: Bounds,
    union: Bounds,
    /// Where the members' nodes stand in the structure's tree, each at most 2^63.
    pub(crate) positions: Vec<u64>,
}

/// The types of a unit (C11 6.2.5): terms by number, and the members of structures and unions by tag. Sizes and node
/// counts stand beside each term and tag, so the questions about a type are answered from a few reads.
///
/// A size is in bytes: 1 for `char` and `_Bool`, 2, 4 and 8 for the other integers, 8 for pointers and variadic lists,
/// 16 for every floating type. A scalar is aligned to its size, and a structure to its most aligned member. A bit-field
/// takes a whole cell of its declared type.
///
/// A type's nodes are a tree in preorder. A scalar is one node, a structure is a node followed by its members' trees,
/// a union is one node whatever it holds, and an array has its element's tree and no node of its own. A flexible array
/// member counts for the alignment alone.
#[derive(Drop)]
pub struct TypeTable {
    alloc: Global,
    entries: Vec<Entry>,
    /// The first entry of each type, by its key.
    index: KeyIndex,
    /// The place of each tag among the completed ones.
    tags: Vec<Option<u32>>,
    completed: Vec<TagLayout>,
}

impl Model for TypeTable {
    ghost use Rattle.c_types.specs.Table.{Table};

    ghost Value = { Table };

    ghost use Rattle.c_types.specs.Inside.{seen, IsTable};

    ghost view = { seen };

    ghost invariant = { IsTable };
}

impl TypeTable {
    /// The table without types and tags.
    pub fn new(alloc: Global) -> TypeTable
        ensures { result ≡ record { terms = []; tags = 0; completed = [] } }
    {
        TypeTable {
            alloc,
            entries: Vec::new(alloc),
            index: KeyIndex::new(alloc),
            tags: Vec::new(alloc),
            completed: Vec::new(alloc),
        }
    }

    /// The number of tags. Tags are the numbers below it.
    pub fn tag_count(&self) -> u32
        ensures { result ≡ self.now.tags }
    {
        self.tags.len() as u32
    }

    /// A new tag, incomplete, for a structure or a union. Want of memory leaves the table unchanged.
    pub fn tag(&mut self) -> Result<u32, OutOfMemory>
        ensures tag { IfOk result (λ tag. tag ≡ self.old.tags) }
        ensures ok { OnOk result (self.new ≡ record self.old { tags = self.old.tags + 1 }) }
        ensures err { OnErr result (self.new ≡ self.old) }

        // No term names the new tag yet.
        ensures fresh { IfOk result (λ tag. IsFresh self.old tag) }
    {
        if self.tags.len() >= u32::MAX as usize {
            return Err(OutOfMemory);
        }
        let tag = self.tags.len() as u32;
        match self.tags.push(None) {
            Ok(()) => Ok(tag),
            Err(_) => Err(OutOfMemory),
        }
    }

    /// How many tags are complete.
    pub fn completed_count(&self) -> u32
        ensures { result ≡ length self.now.completed }
    {
        self.completed.len() as u32
    }

    /// The tag that was completed in that position, from 0 in the order of `complete`.
    pub fn completed_tag(&self, position: u32) -> u32
        requires { position < length self.now.completed }
        ensures { (members : List MemberTerm)
            × (slice_get self.now.completed position ≡ Some (record { tag = result; members = members })) }
    {
        self.completed[position as usize].tag
    }

    /// The number of types. Ids are the numbers below it. What every table keeps is told here: sizes of integers, tags
    /// of one keyword, members that were complete before their tag was, and that each tag is laid out from its members as
    /// they are in this table.
    pub fn type_count(&self) -> u32
        ensures count { result ≡ length self.now.terms }
        ensures made { IsMade self.now }
        ensures named { AreNamed self.now }
    {
        self.entries.len() as u32
    }

    /// The term that was added under an id.
    pub fn term(&self, id: TypeId) -> &Term
        requires { id.0 < length self.now.terms }
        ensures value { slice_get self.now.terms id.0 ≡ Some result.now }

        // The type under the id is that term over the types before it.
        ensures tree { type_of self.now id.0 ≡ grow (types_of self.now) result.now }
        ensures types { IsAfter id.0 result.now }
        ensures tags { HasTag self.now.tags result.now }
    {
        &self.entries[id.0 as usize].term
    }

    /// Whether two ids name one type (C11 6.2.7, without qualifiers): the same form over the same types, with the same
    /// lengths, parameters and tags.
    pub fn same(&self, a: TypeId, b: TypeId) -> bool
        requires left { a.0 < length self.now.terms }
        requires right { b.0 < length self.now.terms }
        ensures { IsTrue result ↔ (type_of self.now a.0 ≡ type_of self.now b.0) }
    {
        same_in(&self.entries, a, b)
    }

    /// The first id of the same type.
    pub fn first_same(&self, id: TypeId) -> TypeId
        requires { id.0 < length self.now.terms }
        ensures { IsFirstOf self.now (type_of self.now id.0) result.0 }
    {
        first_in(&self.entries, id)
    }

    /// The first id of the type that a term over the table's types is; None exactly where the table has no such type.
    pub fn find(&self, term: &Term) -> Result<Option<TypeId>, OutOfMemory>
        requires { IsAfter (length self.now.terms) term.now }
        ensures { IfOk result (λ found.
            MatchOption found (IsNowhere self.now (grow (types_of self.now) term.now))
            (λ id. IsFirstOf self.now (grow (types_of self.now) term.now) id.0)) }
    {
        let found = found_in(self.alloc, &self.entries, &self.index, term)?;
        Ok(found)
    }

    /// The members of a tag in order; None exactly where it isn't complete.
    pub fn members(&self, tag: u32) -> Option<&[MemberTerm]>
        requires { tag < self.now.tags }
        ensures list { MatchOption result (members_in self.now tag ≡ None) (λ m. members_in self.now tag ≡ Some m.now) }

        // Their types are the table's.
        ensures types { IfSome result (λ m. All (λ member. member.ty.0 < length self.now.terms) m.now) }
    {
        match self.tags[tag as usize] {
            Some(k) => Some(self.completed[k as usize].members.as_slice()),
            None => None,
        }
    }

    /// Gives a tag its members (C11 6.7.2.1). Want of memory leaves the table unchanged.
    pub fn complete(&mut self, tag: u32, members: Vec<MemberTerm>) -> Result<(), OutOfMemory>
        requires tag { tag < self.old.tags }
        requires incomplete { members_in self.old tag ≡ None }
        requires stands { StandsAsStructure self.old.terms tag ⊎ StandsAsUnion self.old.terms tag }
        requires members { AreMembers self.old tag members.items }
        ensures ok { OnOk result
            (self.new ≡ record self.old {
              completed = self.old.completed ++ record { tag = tag; members = members.items } ∷ [];
            }) }
        ensures err { OnErr result (self.new ≡ self.old) }

        // Every extent that there was stays.
        ensures kept { (t : Ctype) (e : Extent) → extent_in self.old t ≡ Some e → extent_in self.new t ≡ Some e }
    {
        self.complete_tag(tag, members)?;
        Ok(())
    }

    fn complete_tag(&mut self, tag: u32, members: Vec<MemberTerm>) -> Result<(), OutOfMemory>
        requires tag { tag < self.old.tags }
        requires incomplete { members_in self.old tag ≡ None }
        requires stands { StandsAsStructure self.old.terms tag ⊎ StandsAsUnion self.old.terms tag }
        requires members { AreMembers self.old tag members.items }
        ensures ok { OnOk result
            (self.new ≡ record self.old {
              completed = self.old.completed ++ record { tag = tag; members = members.items } ∷ [];
            }) }
        ensures err { OnErr result (self.new ≡ self.old) }
        ensures made { IsMade self.old }
    {
        if self.completed.len() >= u32::MAX as usize {
            return Err(OutOfMemory);
        }
        let place = self.completed.len() as u32;
        let (structure, union) = layout_of(
            &self.entries,
            &self.tags,
            &self.completed,
            members.as_slice(),
        );
        let positions = positions_of(
            self.alloc,
            &self.entries,
            &self.tags,
            &self.completed,
            members.as_slice(),
        )?;
        let layout = TagLayout {
            tag,
            members,
            structure,
            union,
            positions,
        };
        match self.completed.push(layout) {
            Ok(()) => {
                self.tags[tag as usize] = Some(place);
                Ok(())
            }
            Err(_) => Err(OutOfMemory),
        }
    }

    /// The size of a type in bytes (C11 6.5.3.4); None exactly for void, function and incomplete types and sizes of 2^63
    /// or more. It takes no memory, as the calls below.
    pub fn size_of(&self, id: TypeId) -> Option<u64>
        requires { id.0 < length self.now.terms }
        ensures { result ≡ size_below (extent_in self.now (type_of self.now id.0)) }
    {
        match bounds_at(&self.entries, &self.tags, &self.completed, id) {
            Some(b) => { if b.size < 1 << 63 { Some(b.size) } else { None } }
            None => None,
        }
    }

    /// The alignment of a type in bytes (C11 6.2.8), of an array that of its element; None exactly for void, function and incomplete types.
    pub fn align_of(&self, id: TypeId) -> Option<u64>
        requires { id.0 < length self.now.terms }
        ensures { result ≡ align_within (extent_in self.now (type_of self.now id.0)) }
    {
        match bounds_at(&self.entries, &self.tags, &self.completed, id) {
            Some(b) => Some(b.align),
            None => None,
        }
    }

    /// The number of nodes of a type; None exactly for void, function and incomplete types and trees of over 2^24 nodes.
    pub fn nodes(&self, id: TypeId) -> Option<u32>
        requires { id.0 < length self.now.terms }
        ensures { result ≡ nodes_within (extent_in self.now (type_of self.now id.0)) }
    {
        match bounds_at(&self.entries, &self.tags, &self.completed, id) {
            Some(b) => {
                if b.nodes <= 1 << 24 {
                    Some(b.nodes as u32)
                } else {
                    None
                }
            }
            None => None,
        }
    }

    /// The class of a type.
    pub fn class_of(&self, id: TypeId) -> Class
        requires { id.0 < length self.now.terms }
        ensures { result ≡ class_of_type (type_of self.now id.0) }
    {
        class_of_term(self.term(id))
    }

    /// The type of a structure's first member; None exactly for what isn't a complete structure with a member.
    pub fn first_member(&self, id: TypeId) -> Option<TypeId>
        requires { id.0 < length self.now.terms }
        ensures { result ≡ first_member_of self.now (type_of self.now id.0) }
    {
        match self.term(id) {
            Term::Structure(tag) => match self.members(*tag) {
                Some(members) => first_type(members),
                None => None,
            },
            _ => None,
        }
    }

    /// The position of a member's node in its structure, and 0 in a union; None exactly where the type isn't a complete
    /// structure or union, has no such member, or the member is a flexible array, and at a position of 2^32 or more,
    /// which only a structure has that `nodes` refuses.
    pub fn field_node(&self, id: TypeId, member: u32) -> Option<u32>
        requires { id.0 < length self.now.terms }
        ensures { result ≡ within_32 (field_in self.now (type_of self.now id.0) member) }
    {
        field_at(&self.entries, &self.tags, &self.completed, id, member)
    }

    /// The type of a node of a type, arrays taken off; None exactly past the tree.
    pub fn sub_node(&self, id: TypeId, node: u32) -> Option<TypeId>
        requires { id.0 < length self.now.terms }
        ensures known { IfSome result (λ part. part.0 < length self.now.terms) }
        ensures node { option_map (λ part. type_of self.now part.0) result
            ≡ node_of (extent_in self.now (type_of self.now id.0)) node }
    {
        let bounds = bounds_at(&self.entries, &self.tags, &self.completed, id)?;
        if u64::from(node) < bounds.nodes {
            Some(node_below(&self.entries, &self.tags, &self.completed, id, node))
        } else {
            None
        }
    }

    /// Adds a term, whatever terms there are already, and gives its id. Its types and tag must be the table's, a tag
    /// stands with one keyword alone, and an integer has the size 1, 2, 4 or 8. Want of memory leaves the table
    /// unchanged.
    pub fn add(&mut self, term: Term) -> Result<TypeId, OutOfMemory>
        requires types { IsAfter (length self.old.terms) term }
        requires tags { HasTag self.old.tags term }
        requires sized { IsSized term }
        requires apart { KeepsApart self.old.terms term }
        ensures id { IfOk result (λ id. id.0 ≡ length self.old.terms) }
        ensures ok { OnOk result (self.new ≡ record self.old { terms = self.old.terms ++ term ∷ [] }) }
        ensures err { OnErr result (self.new ≡ self.old) }

        // What follows for the types: the new one is its term's, and the others stay.
        ensures tree { IfOk result (λ id. type_of self.new id.0 ≡ grow (types_of self.old) term) }
        ensures kept { (i : ℕ) → i < length self.old.terms → type_of self.new i ≡ type_of self.old i }
        ensures extents { (t : Ctype) → extent_in self.new t ≡ extent_in self.old t }
    {
        let id = self.add_term(term)?;
        Ok(id)
    }

    fn add_term(&mut self, term: Term) -> Result<TypeId, OutOfMemory>
        requires types { IsAfter (length self.old.terms) term }
        requires tags { HasTag self.old.tags term }
        requires sized { IsSized term }
        requires apart { KeepsApart self.old.terms term }
        ensures id { IfOk result (λ id. id.0 ≡ length self.old.terms) }
        ensures ok { OnOk result (self.new ≡ record self.old { terms = self.old.terms ++ term ∷ [] }) }
        ensures err { OnErr result (self.new ≡ self.old) }
        ensures extents { OnOk result ((t : Ctype) → extent_in self.new t ≡ extent_in self.old t) }
    {
        if self.entries.len() >= u32::MAX as usize {
            return Err(OutOfMemory);
        }
        let id = self.entries.len() as u32;
        let key = key_for(self.alloc, &self.entries, &term)?;
        let entry = new_entry(&self.entries, &self.index, key.as_slice(), term);
        if entry.first == id {
            push_first(&mut self.entries, &mut self.index, key, entry)?;
        } else {
            push_entry(&mut self.entries, entry)?;
        }
        Ok(TypeId(id))
    }
}

// One entry more.
fn push_entry(entries: &mut Vec<Entry>, entry: Entry) -> Result<(), OutOfMemory>
    ensures ok { OnOk result (entries.new.items ≡ entries.old.items ++ entry ∷ []) }
    ensures err { OnErr result (entries.new.items ≡ entries.old.items) }
{
    match entries.push(entry) {
        Ok(()) => Ok(()),
        Err(_) => Err(OutOfMemory),
    }
}

// One entry more, the first of its type.
fn push_first(
    entries: &mut Vec<Entry>,
    index: &mut KeyIndex,
    key: Vec<u64>,
    entry: Entry,
) -> Result<(), OutOfMemory>
    requires room { length entries.old.items < 2 ^ 32 - 1 }
    ensures ok { OnOk result (entries.new.items ≡ entries.old.items ++ entry ∷ []) }
    ensures here { OnOk result (number_at index.new key.items ≡ Some (length entries.old.items)) }
    ensures others { OnOk result ((q : List ℕ) → (key.items ≡ q → ⊥) → number_at index.new q ≡ number_at index.old q) }
    ensures err { OnErr result (entries.new.items ≡ entries.old.items) }
    ensures unchanged { OnErr result ((q : List ℕ) → number_at index.new q ≡ number_at index.old q) }
{
    let place = entries.len() as u32;
    push_entry(entries, entry)?;
    match index.insert(key, place) {
        Ok(()) => Ok(()),
        Err(fault) => {
            entries.truncate(place as usize);
            Err(fault)
        }
    }
}

// The class of a term.
fn class_of_term(term: &Term) -> Class
    ensures { (trees : List Ctype) → result ≡ class_of_type (grow trees term.now) }
{
    match term {
        Term::Void => Class::Void,
        Term::Bool => Class::Integer(1),
        Term::Integer { size, .. } => Class::Integer(*size),
        Term::Floating => Class::Floating,
        Term::VaList => Class::VaList,
        Term::Pointer(_) => Class::Pointer,
        Term::Array { .. } => Class::Array,
        Term::Function { .. } => Class::Function,
        Term::Structure(_) => Class::Structure,
        Term::Union(_) => Class::Union,
    }
}

// The type of the first member.
fn first_type(members: &[MemberTerm]) -> Option<TypeId>
    ensures { result ≡ head_type members.now }
{
    match members.first() {
        Some(member) => Some(member.ty),
        None => None,
    }
}

// The key of a term over the types before it.
fn key_for(alloc: Global, entries: &[Entry], term: &Term) -> Result<Vec<u64>, OutOfMemory>
    requires types { IsAfter (length entries.now) term.now }
    ensures { IfOk result (λ key. key.items ≡ key_of (firsts_of entries.now) term.now) }
{
    match term {
        Term::Void => numbers(alloc, &[0]),
        Term::Bool => numbers(alloc, &[1]),
        Term::Integer { size, rank, signed } => {
            numbers(
                alloc,
                &[2, u64::from(*size), u64::from(*rank), u64::from(*signed)],
            )
        }
        Term::Floating => numbers(alloc, &[3]),
        Term::VaList => numbers(alloc, &[4]),
        Term::Pointer(to) => numbers(alloc, &[5, first_number(entries, *to)]),
        Term::Array { of, length: None } => numbers(alloc, &[6, first_number(entries, *of)]),
        Term::Array {
            of,
            length: Some(length),
        } => numbers(alloc, &[6, first_number(entries, *of), *length]),
        Term::Function {
            result,
            parameters,
            form,
        } => function_key(alloc, entries, *result, parameters.as_slice(), *form),
        Term::Structure(tag) => numbers(alloc, &[8, u64::from(*tag)]),
        Term::Union(tag) => numbers(alloc, &[9, u64::from(*tag)]),
    }
}

// These numbers as a list.
fn numbers(alloc: Global, items: &[u64]) -> Result<Vec<u64>, OutOfMemory>
    ensures { IfOk result (λ list. list.items ≡ items.now) }
{
    let list = Vec::from_slice(alloc, items)?;
    Ok(list)
}

// One number more.
fn push_number(list: &mut Vec<u64>, number: u64) -> Result<(), OutOfMemory>
    ensures { OnOk result (list.new.items ≡ list.old.items ++ number ∷ []) }
{
    match list.push(number) {
        Ok(()) => Ok(()),
        Err(_) => Err(OutOfMemory),
    }
}

// The first type that is the same.
fn first_number(entries: &[Entry], id: TypeId) -> u64
    requires { id.0 < length entries.now }
    ensures { result ≡ slice_index (firsts_of entries.now) id.0 }
{
    u64::from(entries[id.0 as usize].first)
}

// The key of a function type.
fn function_key(
    alloc: Global,
    entries: &[Entry],
    result_type: TypeId,
    parameters: &[TypeId],
    form: Form,
) -> Result<Vec<u64>, OutOfMemory>
    requires head { result_type.0 < length entries.now }
    requires types { All (λ id. id.0 < length entries.now) parameters.now }
    ensures { IfOk result (λ key.
        key.items
        ≡ 7 ∷ form_number form ∷ slice_index (firsts_of entries.now) result_type.0
        ∷ map (λ id. slice_index (firsts_of entries.now) id.0) parameters.now) }
{
    let mut key = numbers(
        alloc,
        &[7, form_code(form), first_number(entries, result_type)],
    )?;
    for parameter in parameters {
        push_number(&mut key, first_number(entries, *parameter))?;
    }
    Ok(key)
}

// The number of a form.
fn form_code(form: Form) -> u64
    ensures { result ≡ form_number form }
{
    match form {
        Form::Fixed => 0,
        Form::Variadic => 1,
        Form::Unspecified => 2,
    }
}

// The entry of a term that is the next to be added.
fn new_entry(entries: &[Entry], index: &KeyIndex, key: &[u64], term: Term) -> Entry
    requires entries { (tags : ℕ) × AreEntries entries.now tags }
    requires index { IsIndex entries.now index.now }
    requires key { key.now ≡ key_of (firsts_of entries.now) term }
    requires types { IsAfter (length entries.now) term }
    requires room { length entries.now < 2 ^ 32 - 1 }
    ensures term { result.term ≡ term }
    ensures next { IsNext entries.now result }
    ensures known { result.first < length entries.now → number_at index.now key.now ≡ Some result.first }
    ensures unseen { result.first ≡ length entries.now → number_at index.now key.now ≡ None }
{
    let first = first_of(entries, index, key, &term);
    let (element, count) = arrays_off(entries, &term);
    Entry {
        term,
        element,
        count,
        first,
    }
}

// The element of a term with arrays taken off, and the number of its elements.
fn arrays_off(entries: &[Entry], term: &Term) -> (u32, Option<u64>)
    requires entries { (tags : ℕ) × AreEntries entries.now tags }
    requires types { IsAfter (length entries.now) term.now }
    requires room { length entries.now < 2 ^ 32 - 1 }
    ensures element { let types = grown [] (terms_of entries.now) in
        let all = types ++ grow types term.now ∷ [] in tree_at all result.0 ≡ element_of (grow types term.now) }
    ensures element_before { result.0 ≤ length entries.now }
    ensures count { let types = grown [] (terms_of entries.now) in result.1 ≡ capped (count_of (grow types term.now)) }
{
    match term {
        Term::Array { of, length } => {
            let inner = &entries[of.0 as usize];
            (inner.element, times_count(*length, inner.count))
        }
        _ => (entries.len() as u32, Some(1)),
    }
}

// The first entry that is the same type as a term, or the place of the next entry.
fn first_of(entries: &[Entry], index: &KeyIndex, key: &[u64], term: &Term) -> u32
    requires entries { (tags : ℕ) × AreEntries entries.now tags }
    requires index { IsIndex entries.now index.now }
    requires key { key.now ≡ key_of (firsts_of entries.now) term.now }
    requires types { IsAfter (length entries.now) term.now }
    requires room { length entries.now < 2 ^ 32 - 1 }
    ensures before { result ≤ length entries.now }
    ensures same { let types = grown [] (terms_of entries.now) in
        result < length entries.now → tree_at types result ≡ grow types term.now }
    ensures least { let types = grown [] (terms_of entries.now) in
        (j : ℕ) → j < result → tree_at types j ≡ grow types term.now → ⊥ }
    ensures known { result < length entries.now → number_at index.now key.now ≡ Some result }
    ensures unseen { result ≡ length entries.now → number_at index.now key.now ≡ None }
{
    match index.find(key) {
        Some(found) => found,
        None => entries.len() as u32,
    }
}

// A length times a count, at most 2^63.
fn times_count(length: Option<u64>, count: Option<u64>) -> Option<u64>
    ensures { (n : Option ℕ) → count ≡ capped n → result ≡ capped (times length n) }
{
    match (length, count) {
        (Some(n), Some(m)) => Some(times_capped(n, m)),
        _ => None,
    }
}

// A product, at most 2^63.
fn times_capped(a: u64, b: u64) -> u64
    ensures { result ≡ cap (a * b) }
{
    let product = u128::from(a) * u128::from(b);
    if product < 1 << 63 {
        product as u64
    } else {
        1 << 63
    }
}

// Whether two ids name one type.
fn same_in(entries: &[Entry], a: TypeId, b: TypeId) -> bool
    requires entries { (tags : ℕ) × AreEntries entries.now tags }
    requires left { a.0 < length entries.now }
    requires right { b.0 < length entries.now }
    ensures { let types = grown [] (terms_of entries.now) in IsTrue result ↔ (tree_at types a.0 ≡ tree_at types b.0) }
{
    entries[a.0 as usize].first == entries[b.0 as usize].first
}

// The first id of the same type.
fn first_in(entries: &[Entry], id: TypeId) -> TypeId
    requires entries { (tags : ℕ) × AreEntries entries.now tags }
    requires id { id.0 < length entries.now }
    ensures known { result.0 < length entries.now }
    ensures same { let types = grown [] (terms_of entries.now) in tree_at types result.0 ≡ tree_at types id.0 }
    ensures least { let types = grown [] (terms_of entries.now) in
        (j : ℕ) → j < result.0 → tree_at types j ≡ tree_at types id.0 → ⊥ }
{
    TypeId(entries[id.0 as usize].first)
}

// The first id of the type of a term.
fn found_in(
    alloc: Global,
    entries: &[Entry],
    index: &KeyIndex,
    term: &Term,
) -> Result<Option<TypeId>, OutOfMemory>
    requires entries { (tags : ℕ) × AreEntries entries.now tags }
    requires index { IsIndex entries.now index.now }
    requires types { IsAfter (length entries.now) term.now }
    ensures found { IfOk result (λ found. IfSome found (λ id. id.0 < length entries.now)) }
    ensures same { let types = grown [] (terms_of entries.now) in
        IfOk result (λ found. IfSome found (λ id. tree_at types id.0 ≡ grow types term.now)) }
    ensures least { let types = grown [] (terms_of entries.now) in
        IfOk result (λ found. IfSome found (λ id. (j : ℕ) → j < id.0 → tree_at types j ≡ grow types term.now → ⊥)) }
    ensures nowhere { let types = grown [] (terms_of entries.now) in
        IfOk result (λ found. IfNone found ((j : ℕ) → j < length entries.now → tree_at types j ≡ grow types term.now → ⊥)) }
{
    if entries.len() >= u32::MAX as usize {
        return Err(OutOfMemory);
    }
    let key = key_for(alloc, entries, term)?;
    let first = first_of(entries, index, key.as_slice(), term);
    if (first as usize) < entries.len() {
        Ok(Some(TypeId(first)))
    } else {
        Ok(None)
    }
}

// What a term that is no array takes.
fn plain_bounds(
    entries: &[Entry],
    tags: &[Option<u32>],
    completed: &[TagLayout],
    term: &Term,
) -> Option<Bounds>
    requires right { AreRight entries.now tags.now completed.now }
    requires plain { NotArray term.now }
    requires tag { HasTag (length tags.now) term.now }
    ensures { (trees : List Ctype) →
        result ≡ bounds_or (extent_of (look_in (table_of entries.now tags.now completed.now)) (grow trees term.now)) }
{
    match term {
        Term::Void => None,
        Term::Bool => Some(scalar_bounds(1)),
        Term::Integer { size, .. } => Some(scalar_bounds(*size)),
        Term::Floating => Some(scalar_bounds(16)),
        Term::VaList => Some(scalar_bounds(8)),
        Term::Pointer(_) => Some(scalar_bounds(8)),
        Term::Array { .. } => None,
        Term::Function { .. } => None,
        Term::Structure(tag) => match tags[*tag as usize] {
            Some(k) => Some(completed[k as usize].structure),
            None => None,
        },
        Term::Union(tag) => match tags[*tag as usize] {
            Some(k) => Some(completed[k as usize].union),
            None => None,
        },
    }
}

// What a scalar takes.
fn scalar_bounds(size: u8) -> Bounds
    ensures { (t : Ctype) → result ≡ bounds (record { size = size; align = size; nodes = t ∷ [] }) }
{
    Bounds {
        size: u64::from(size),
        align: u64::from(size),
        nodes: 1,
    }
}

// What a type takes, whatever it is.
fn bounds_at(
    entries: &[Entry],
    tags: &[Option<u32>],
    completed: &[TagLayout],
    id: TypeId,
) -> Option<Bounds>
    requires right { AreRight entries.now tags.now completed.now }
    requires id { id.0 < length entries.now }
    ensures { let table = table_of entries.now tags.now completed.now in
        result ≡ bounds_or (extent_of (look_in table) (tree_at (grown [] (terms_of entries.now)) id.0)) }
{
    let element = entries[id.0 as usize].element;
    let count = entries[id.0 as usize].count;
    let base = plain_bounds(entries, tags, completed, &entries[element as usize].term);
    times_bounds(count, base)
}

// The bounds of so many.
fn times_bounds(count: Option<u64>, base: Option<Bounds>) -> Option<Bounds>
    ensures { result ≡ bounds_times count base }
{
    match (count, base) {
        (Some(n), Some(b)) => Some(Bounds {
            size: times_capped(n, b.size),
            ..b
        }),
        _ => None,
    }
}

// An array's element as a flexible member.
fn flexible_bounds(element: Option<Bounds>) -> Bounds
    ensures { (e : Option Extent) → element ≡ bounds_or e → result ≡ bounds (flexible e) }
{
    match element {
        Some(b) => Bounds {
            size: 0,
            align: b.align,
            nodes: 0,
        },
        None => Bounds {
            size: 0,
            align: 1,
            nodes: 0,
        },
    }
}

// What a member takes.
fn member_bounds(
    entries: &[Entry],
    tags: &[Option<u32>],
    completed: &[TagLayout],
    id: TypeId,
) -> Bounds
    requires right { AreRight entries.now tags.now completed.now }
    requires id { id.0 < length entries.now }
    ensures { let look = look_in (table_of entries.now tags.now completed.now) in
        result ≡ bounds (member_extent look (tree_at (grown [] (terms_of entries.now)) id.0)) }
{
    match bounds_at(entries, tags, completed, id) {
        Some(b) => b,
        None => flexible_bounds(element_bounds(entries, tags, completed, id)),
    }
}

// What an array's element takes.
fn element_bounds(
    entries: &[Entry],
    tags: &[Option<u32>],
    completed: &[TagLayout],
    id: TypeId,
) -> Option<Bounds>
    requires right { AreRight entries.now tags.now completed.now }
    requires id { id.0 < length entries.now }
    ensures { let look = look_in (table_of entries.now tags.now completed.now) in
        result ≡ bounds_or (element_extent look (tree_at (grown [] (terms_of entries.now)) id.0)) }
{
    match &entries[id.0 as usize].term {
        Term::Array { of, .. } => bounds_at(entries, tags, completed, *of),
        _ => None,
    }
}

// What members take together, as a structure and as a union.
fn layout_of(
    entries: &[Entry],
    tags: &[Option<u32>],
    completed: &[TagLayout],
    members: &[MemberTerm],
) -> (Bounds, Bounds)
    requires right { AreRight entries.now tags.now completed.now }
    requires members { All (λ m. m.ty.0 < length entries.now) members.now }
    ensures structure { (t : Ctype) →
        result.0 ≡ bounds (structure_of t (extents_in (table_of entries.now tags.now completed.now) members.now)) }
    ensures union { (t : Ctype) →
        result.1 ≡ bounds (union_of t (extents_in (table_of entries.now tags.now completed.now) members.now)) }
{
    let mut beside_all = Bounds {
        size: 0,
        align: 1,
        nodes: 1,
    };
    let mut above_all = beside_all;
    for m in members {
        let b = member_bounds(entries, tags, completed, m.ty);
        beside_all = beside(beside_all, b);
        above_all = above(above_all, b);
    }
    (padded(beside_all), padded(above_all))
}

// Where the members' nodes stand in a structure.
fn positions_of(
    alloc: Global,
    entries: &[Entry],
    tags: &[Option<u32>],
    completed: &[TagLayout],
    members: &[MemberTerm],
) -> Result<Vec<u64>, OutOfMemory>
    requires right { AreRight entries.now tags.now completed.now }
    requires members { All (λ m. m.ty.0 < length entries.now) members.now }
    ensures { IfOk result (λ list.
        list.items ≡ starts 1 (extents_in (table_of entries.now tags.now completed.now) members.now)) }
{
    let mut list = Vec::new(alloc);
    let mut next = 1;
    for m in members {
        push_number(&mut list, next)?;
        next = capped_sum(next, member_bounds(entries, tags, completed, m.ty).nodes);
    }
    Ok(list)
}
