//! The sub-object that a designator names (C11 6.7.9p6, p7; 6.7.2.1p13).

ghost use Rattle.std.specs.Prelude.{◌≡◌, ◌<◌, ◌^◌, ◌∷◌, ◌++◌, ℕ, List, [], length, IfOk, IfSome, IfNone, OnOk};
ghost use Rattle.std.specs.Prelude.{MatchOption, MatchResult, None, Some, map};
ghost use Rattle.c_inits.specs.Shapes.{Path};
ghost use Rattle.c_inits.specs.Initial.{has_name, own, in_unnamed, named, element, designated, described, Found, Missing};
ghost use Rattle.c_inits.specs.Tables.{type_shape, HasShape, fields_from, tag_fields, AreComplete};
ghost use Rattle.c_inits.specs.Cursor.{Stands, IsAt, path_of};
ghost use Rattle.c_inits.specs.Designated.{IsStep, IsElement, LeadsTo, HasFields, designator_of, node_of};

use crate::cursor::{Frame, element_count, is_filled, push_frame};
use c_types::table::TypeTable;
use c_types::term::{MemberTerm, Name, OutOfMemory, PathStep, Term, TypeId};

/// A designator (C11 6.7.9p6, p7) with its syntax node: an index, or the name of a member. An index that is negative is passed as
/// 2^64 or more, which no array has.
#[derive(Drop)]
pub enum Designator {
    Index { node: u32, index: u128 },
    Name { node: u32, name: Name },
}

/// Whether a member has that name.
fn is_named(member: &MemberTerm, name: &[u8]) -> bool
    ensures { result ≡ has_name member.now.name name.now }
{
    match &member.name {
        Some(own) => own.as_str().as_bytes() == name,
        None => false,
    }
}

/// The step to the member in that position; 2^32 or more counts as want of memory.
fn member_step(position: usize) -> Result<PathStep, OutOfMemory>
    ensures { IfOk result (λ step. step ≡ PathStep.Member position) }
{
    match u32::try_from(position) {
        Ok(number) => Ok(PathStep::Member(number)),
        Err(_) => Err(OutOfMemory),
    }
}

/// The first member of that name that can be initialised; a position of 2^32 or more counts as want of memory.
fn own_member(
    types: &TypeTable,
    limit: u64,
    members: &[MemberTerm],
    name: &[u8],
) -> Result<Option<(PathStep, TypeId)>, OutOfMemory>
    requires complete { AreComplete types.now members.now }
    ensures { let fields = fields_from types.now 0 members.now in
        let place = own fields name.now in
        IfOk result (λ found. MatchOption found (place ≡ None) (λ p. IsStep types.now limit fields place p.0 p.1.0)) }
{
    for k in 0..members.len() {
        let member = &members[k];
        if is_named(member, name) && is_filled(types, member) {
            let step = member_step(k)?;
            return Ok(Some((step, member.ty)));
        }
    }
    Ok(None)
}

/// Goes to the member of a name in an object that is a structure or union: among its own names first, then in its unnamed members,
/// each one whole before the next. None where there is no such member, and then the place is what it was.
#[cycle(names)]
pub fn find_member(
    types: &TypeTable,
    limit: u64,
    root: TypeId,
    frames: &mut Vec<Frame>,
    id: TypeId,
    name: &[u8],
) -> Result<Option<TypeId>, OutOfMemory>
    requires stands { Stands types.now limit (type_shape types.now limit root.0) frames.old.items }
    requires at { IsAt types.now limit (type_shape types.now limit root.0) (path_of frames.old.items) id.0 }
    ensures place { let place = named (type_shape types.now limit id.0) name.now in
        IfOk result (λ found. MatchOption found
        ((place ≡ None) × (frames.new.items ≡ frames.old.items))
        (λ next. LeadsTo types.now limit place (path_of frames.old.items) (path_of frames.new.items) next.0)) }
    ensures at { let whole = type_shape types.now limit root.0 in
        IfOk result (λ found. IfSome found (λ next. IsAt types.now limit whole (path_of frames.new.items) next.0)) }
    ensures stands { OnOk result (Stands types.now limit (type_shape types.now limit root.0) frames.new.items) }
{
    let _count = types.type_count();
    match types.term(id) {
        Term::Structure(tag) => {
            let found = find_in_tag(types, limit, root, frames, id, *tag, name)?;
            Ok(found)
        }
        Term::Union(tag) => {
            let found = find_in_tag(types, limit, root, frames, id, *tag, name)?;
            Ok(found)
        }
        _ => Ok(None),
    }
}

/// The same in an object of that tag.
#[cycle(names)]
fn find_in_tag(
    types: &TypeTable,
    limit: u64,
    root: TypeId,
    frames: &mut Vec<Frame>,
    id: TypeId,
    tag: u32,
    name: &[u8],
) -> Result<Option<TypeId>, OutOfMemory>
    requires stands { Stands types.now limit (type_shape types.now limit root.0) frames.old.items }
    requires at { IsAt types.now limit (type_shape types.now limit root.0) (path_of frames.old.items) id.0 }
    requires tag { tag < types.now.tags }
    requires fields { HasFields (type_shape types.now limit id.0) (tag_fields types.now 0 tag) }
    ensures place { let place = named (type_shape types.now limit id.0) name.now in
        IfOk result (λ found. MatchOption found
        ((place ≡ None) × (frames.new.items ≡ frames.old.items))
        (λ next. LeadsTo types.now limit place (path_of frames.old.items) (path_of frames.new.items) next.0)) }
    ensures at { let whole = type_shape types.now limit root.0 in
        IfOk result (λ found. IfSome found (λ next. IsAt types.now limit whole (path_of frames.new.items) next.0)) }
    ensures stands { OnOk result (Stands types.now limit (type_shape types.now limit root.0) frames.new.items) }
{
    let _count = types.type_count();
    let Some(members) = types.members(tag) else {
        return Ok(None);
    };
    match own_member(types, limit, members, name)? {
        Some((step, next)) => {
            push_frame(frames, Frame { owner: id, step })?;
            Ok(Some(next))
        }
        None => {
            let found = find_in_unnamed(types, limit, root, frames, id, members, name)?;
            Ok(found)
        }
    }
}

/// The same in the unnamed members of an object.
#[cycle(names)]
fn find_in_unnamed(
    types: &TypeTable,
    limit: u64,
    root: TypeId,
    frames: &mut Vec<Frame>,
    id: TypeId,
    members: &[MemberTerm],
    name: &[u8],
) -> Result<Option<TypeId>, OutOfMemory>
    requires stands { Stands types.now limit (type_shape types.now limit root.0) frames.old.items }
    requires at { IsAt types.now limit (type_shape types.now limit root.0) (path_of frames.old.items) id.0 }
    requires complete { AreComplete types.now members.now }
    requires fields { HasFields (type_shape types.now limit id.0) (fields_from types.now 0 members.now) }
    ensures place { let place = in_unnamed (fields_from types.now 0 members.now) name.now in
        IfOk result (λ found. MatchOption found
        ((place ≡ None) × (frames.new.items ≡ frames.old.items))
        (λ next. LeadsTo types.now limit place (path_of frames.old.items) (path_of frames.new.items) next.0)) }
    ensures at { let whole = type_shape types.now limit root.0 in
        IfOk result (λ found. IfSome found (λ next. IsAt types.now limit whole (path_of frames.new.items) next.0)) }
    ensures stands { OnOk result (Stands types.now limit (type_shape types.now limit root.0) frames.new.items) }
{
    let depth = frames.len();
    for k in 0..members.len() {
        let member = &members[k];
        if member.name.is_none() && is_filled(types, member) {
            let step = member_step(k)?;
            push_frame(frames, Frame { owner: id, step })?;
            if let Some(next) = find_member(types, limit, root, frames, member.ty, name)? {
                return Ok(Some(next));
            }
            frames.truncate(depth);
        }
    }
    Ok(None)
}

/// Goes to the element of an index in an object that is an array; None where there is none, and then the place is what it was.
fn find_element(
    types: &TypeTable,
    limit: u64,
    root: TypeId,
    frames: &mut Vec<Frame>,
    id: TypeId,
    index: u128,
) -> Result<Option<TypeId>, OutOfMemory>
    requires stands { Stands types.now limit (type_shape types.now limit root.0) frames.old.items }
    requires at { IsAt types.now limit (type_shape types.now limit root.0) (path_of frames.old.items) id.0 }
    ensures place { let place = element (type_shape types.now limit id.0) index in
        IfOk result (λ found. MatchOption found
        ((place ≡ None) × (frames.new.items ≡ frames.old.items))
        (λ next. LeadsTo types.now limit place (path_of frames.old.items) (path_of frames.new.items) next.0)) }
    ensures at { let whole = type_shape types.now limit root.0 in
        IfOk result (λ found. IfSome found (λ next. IsAt types.now limit whole (path_of frames.new.items) next.0)) }
    ensures stands { OnOk result (Stands types.now limit (type_shape types.now limit root.0) frames.new.items) }
{
    match element_at(types, limit, id, index) {
        Some(next) => {
            let step = PathStep::Index(index as u64);
            push_frame(frames, Frame { owner: id, step })?;
            Ok(Some(next))
        }
        None => Ok(None),
    }
}

/// The type of the element of an index, where the object is an array that has it.
fn element_at(types: &TypeTable, limit: u64, id: TypeId, index: u128) -> Option<TypeId>
    requires known { id.0 < length types.now.terms }
    requires shaped { HasShape types.now limit id.0 }
    ensures below { IfSome result (λ next. index < 2 ^ 64) }
    ensures element { MatchOption result
        (element (type_shape types.now limit id.0) index ≡ None)
        (λ next. IsElement types.now limit id.0 index next.0) }
{
    match types.term(id) {
        Term::Array { of, length } => {
            let count = element_count(*length, limit);
            if index < count as u128 {
                Some(*of)
            } else {
                None
            }
        }
        _ => None,
    }
}

/// Goes to the sub-object that one designator names in an object; None where there is none, and then the place is what it was.
fn find_designated(
    types: &TypeTable,
    limit: u64,
    root: TypeId,
    frames: &mut Vec<Frame>,
    id: TypeId,
    designator: &Designator,
) -> Result<Option<TypeId>, OutOfMemory>
    requires stands { Stands types.now limit (type_shape types.now limit root.0) frames.old.items }
    requires at { IsAt types.now limit (type_shape types.now limit root.0) (path_of frames.old.items) id.0 }
    ensures place { let place = designated (type_shape types.now limit id.0) (designator_of designator.now) in
        IfOk result (λ found. MatchOption found
        ((place ≡ None) × (frames.new.items ≡ frames.old.items))
        (λ next. LeadsTo types.now limit place (path_of frames.old.items) (path_of frames.new.items) next.0)) }
    ensures at { let whole = type_shape types.now limit root.0 in
        IfOk result (λ found. IfSome found (λ next. IsAt types.now limit whole (path_of frames.new.items) next.0)) }
    ensures stands { OnOk result (Stands types.now limit (type_shape types.now limit root.0) frames.new.items) }
{
    match designator {
        Designator::Index { index, .. } => {
            let found = find_element(types, limit, root, frames, id, *index)?;
            Ok(found)
        }
        Designator::Name { name, .. } => {
            let found = find_member(types, limit, root, frames, id, name.as_str().as_bytes())?;
            Ok(found)
        }
    }
}

/// The syntax node of a designator.
fn designator_node(designator: &Designator) -> u32
    ensures { result ≡ node_of designator.now }
{
    match designator {
        Designator::Index { node, .. } => *node,
        Designator::Name { node, .. } => *node,
    }
}

/// Goes from a whole object to the sub-object that designators describe (C11 6.7.9p6, p7, p17), or gives the node of the first
/// designator that names nothing.
pub fn go_to(
    types: &TypeTable,
    limit: u64,
    root: TypeId,
    frames: &mut Vec<Frame>,
    designators: &[Designator],
) -> Result<Result<TypeId, u32>, OutOfMemory>
    requires known { root.0 < length types.now.terms }
    requires shaped { HasShape types.now limit root.0 }
    ensures place { let whole = type_shape types.now limit root.0 in
        let place = described whole (map designator_of designators.now) in
        IfOk result (λ found. MatchResult found
        (λ id. (place ≡ Found (path_of frames.new.items)) × IsAt types.now limit whole (path_of frames.new.items) id.0)
        (λ node. place ≡ Missing node)) }
    ensures stands { OnOk result (Stands types.now limit (type_shape types.now limit root.0) frames.new.items) }
{
    frames.clear();
    let mut here = root;
    for designator in designators {
        match find_designated(types, limit, root, frames, here, designator)? {
            Some(next) => here = next,
            None => return Ok(Err(designator_node(designator))),
        }
    }
    Ok(Ok(here))
}
