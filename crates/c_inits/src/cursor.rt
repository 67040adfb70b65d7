//! A place within an object, which goes on in order (C11 6.7.9p17, p20).

ghost use Rattle.std.specs.Prelude.{◌≡◌, ◌<◌, ◌≤◌, ◌+◌, ◌∷◌, ◌++◌, ℕ, List, [], map, length, IfOk, IfSome, OnOk};
ghost use Rattle.std.specs.Prelude.{MatchOption, IsSome, None, Some};
ghost use Rattle.c_types.specs.Made.{IsMade};
ghost use Rattle.c_types.specs.Table.{type_of};
ghost use Rattle.c_inits.specs.Shapes.{Shape, Path, from, behind};
ghost use Rattle.c_inits.specs.Initial.{is_character, same_tag, fits, first_fit};
ghost use Rattle.c_inits.specs.Parts.{shape_at, first_part, first_field, next_part};
ghost use Rattle.c_inits.specs.Tables.{HasShape, type_shape, fields_from, IsFilled, AreComplete, IsMemberType, fillable};
ghost use Rattle.c_inits.specs.Tables.{lacks_length, elements_of, tag_fields, tagged};
ghost use Rattle.c_inits.specs.Cursor.{Stands, IsPart, IsAt, path_of, sub_object};

use c_types::table::TypeTable;
use c_types::term::{MemberTerm, OutOfMemory, PathStep, Term, TypeId};

/// A step, and the type that it is a step of.
#[derive(Clone, Copy)]
pub struct Frame {
    pub owner: TypeId,
    pub step: PathStep,
}

/// Whether a type is an array without a length.
fn is_flexible(types: &TypeTable, id: TypeId) -> bool
    requires { id.0 < length types.now.terms }
    ensures { result ≡ lacks_length (type_of types.now id.0) }
{
    match types.term(id) {
        Term::Array { length: None, .. } => true,
        Term::Array {
            length: Some(_),
            ..
        } => false,
        Term::Void | Term::Bool | Term::Floating | Term::VaList => false,
        Term::Integer { .. } | Term::Function { .. } => false,
        Term::Pointer(_) | Term::Structure(_) | Term::Union(_) => false,
    }
}

/// Whether a member can be initialised: it is no unnamed bit-field and no flexible array (C11 6.7.9p9).
pub(crate) fn is_filled(types: &TypeTable, member: &MemberTerm) -> bool
    requires known { member.now.ty.0 < length types.now.terms }
    requires complete { IsMemberType (fillable types.now) (type_of types.now member.now.ty.0) }
    ensures { IsFilled types.now member.now result }
{
    if member.name.is_none() && member.bits.is_some() {
        return false;
    }
    !is_flexible(types, member.ty)
}

/// The first member that can be initialised, from a position on; a position of 2^32 or more counts as want of memory.
fn member_from(
    types: &TypeTable,
    limit: u64,
    members: &[MemberTerm],
    from: usize,
) -> Result<Option<(PathStep, TypeId)>, OutOfMemory>
    requires complete { AreComplete types.now members.now }
    ensures { IfOk result (λ found. MatchOption found
        (first_field (fields_from types.now from members.now) ≡ None)
        (λ p. IsPart types.now limit (first_field (fields_from types.now from members.now)) p.0 p.1.0)) }
{
    for k in from..members.len() {
        let member = &members[k];
        if is_filled(types, member) {
            return match u32::try_from(k) {
                Ok(number) => Ok(Some((PathStep::Member(number), member.ty))),
                Err(_) => Err(OutOfMemory),
            };
        }
    }
    Ok(None)
}

/// The number of elements of an array.
pub(crate) fn element_count(length: Option<u64>, limit: u64) -> u64
    ensures { result ≡ elements_of limit length }
{
    match length {
        Some(n) => n,
        None => limit,
    }
}

/// The first member of a tag that can be initialised, from a position on.
fn member_of(
    types: &TypeTable,
    limit: u64,
    tag: u32,
    from: usize,
) -> Result<Option<(PathStep, TypeId)>, OutOfMemory>
    requires { tag < types.now.tags }
    ensures { IfOk result (λ found. MatchOption found
        (first_field (tag_fields types.now from tag) ≡ None)
        (λ p. IsPart types.now limit (first_field (tag_fields types.now from tag)) p.0 p.1.0)) }
{
    let _count = types.type_count();
    match types.members(tag) {
        Some(members) => member_from(types, limit, members, from),
        None => Ok(None),
    }
}

/// The first part of an object: its first element or member, with the type of that. A member of position 2^32 or more counts as
/// want of memory.
pub fn first_step(
    types: &TypeTable,
    limit: u64,
    id: TypeId,
) -> Result<Option<(PathStep, TypeId)>, OutOfMemory>
    requires known { id.0 < length types.now.terms }
    requires shaped { HasShape types.now limit id.0 }
    ensures { IfOk result (λ found. MatchOption found
        (first_part (type_shape types.now limit id.0) ≡ None)
        (λ p. IsPart types.now limit (first_part (type_shape types.now limit id.0)) p.0 p.1.0)) }
{
    let _count = types.type_count();
    match types.term(id) {
        Term::Array { of, length } => {
            if element_count(*length, limit) > 0 {
                Ok(Some((PathStep::Index(0), *of)))
            } else {
                Ok(None)
            }
        }
        Term::Structure(tag) => member_of(types, limit, *tag, 0),
        Term::Union(tag) => member_of(types, limit, *tag, 0),
        _ => Ok(None),
    }
}

/// The part behind another one: the next element, or the next member of a structure.
pub fn next_step(
    types: &TypeTable,
    limit: u64,
    owner: TypeId,
    step: PathStep,
) -> Result<Option<(PathStep, TypeId)>, OutOfMemory>
    requires known { owner.0 < length types.now.terms }
    requires shaped { HasShape types.now limit owner.0 }
    requires step { IsSome (shape_at (type_shape types.now limit owner.0) (step ∷ [])) }
    ensures { IfOk result (λ found. MatchOption found
        (next_part (type_shape types.now limit owner.0) step ≡ None)
        (λ p. IsPart types.now limit (next_part (type_shape types.now limit owner.0) step) p.0 p.1.0)) }
{
    let _count = types.type_count();
    match (types.term(owner), step) {
        (Term::Array { of, length }, PathStep::Index(k)) => {
            let count = element_count(*length, limit);
            if count > 0 && k < count - 1 {
                Ok(Some((PathStep::Index(k + 1), *of)))
            } else {
                Ok(None)
            }
        }
        (Term::Structure(tag), PathStep::Member(k)) => member_of(
            types,
            limit,
            *tag,
            k as usize + 1,
        ),
        _ => Ok(None),
    }
}

/// Goes on to the next sub-object behind the present one, in order; None where nothing is behind it.
pub fn advance(
    types: &TypeTable,
    limit: u64,
    root: TypeId,
    frames: &mut Vec<Frame>,
) -> Result<Option<TypeId>, OutOfMemory>
    requires stands { Stands types.now limit (type_shape types.now limit root.0) frames.old.items }
    ensures next { let whole = type_shape types.now limit root.0 in
        IfOk result (λ found. MatchOption found
        (behind whole (path_of frames.old.items) ≡ [])
        (λ id. behind whole (path_of frames.old.items) ≡ from whole (path_of frames.new.items))) }
    ensures at { let whole = type_shape types.now limit root.0 in
        IfOk result (λ found. IfSome found (λ id. IsAt types.now limit whole (path_of frames.new.items) id.0)) }
    ensures stands { OnOk result (Stands types.now limit (type_shape types.now limit root.0) frames.new.items) }
{
    let _count = types.type_count();
    while frames.len() > 0 {
        let last = frames.len() - 1;
        let frame = frames[last];
        match next_step(types, limit, frame.owner, frame.step)? {
            Some((step, id)) => {
                frames[last] = Frame {
                    owner: frame.owner,
                    step,
                };
                return Ok(Some(id));
            }
            None => frames.truncate(last),
        }
    }
    Ok(None)
}

pub(crate) fn push_frame(frames: &mut Vec<Frame>, frame: Frame) -> Result<(), OutOfMemory>
    ensures { OnOk result (frames.new.items ≡ frames.old.items ++ frame ∷ []) }
{
    match frames.push(frame) {
        Ok(()) => Ok(()),
        Err(_) => Err(OutOfMemory),
    }
}

/// Goes on to the next sub-object in order, which may be in the present one; None where the present one is the last.
pub fn step_on(
    types: &TypeTable,
    limit: u64,
    root: TypeId,
    frames: &mut Vec<Frame>,
    id: TypeId,
) -> Result<Option<TypeId>, OutOfMemory>
    requires stands { Stands types.now limit (type_shape types.now limit root.0) frames.old.items }
    requires at { IsAt types.now limit (type_shape types.now limit root.0) (path_of frames.old.items) id.0 }
    ensures next { let whole = type_shape types.now limit root.0 in
        let here = sub_object types.now limit (path_of frames.old.items) id.0 in
        IfOk result (λ found. MatchOption found
        (from whole (path_of frames.old.items) ≡ here ∷ [])
        (λ next. from whole (path_of frames.old.items) ≡ here ∷ from whole (path_of frames.new.items))) }
    ensures at { let whole = type_shape types.now limit root.0 in
        IfOk result (λ found. IfSome found (λ next. IsAt types.now limit whole (path_of frames.new.items) next.0)) }
    ensures stands { OnOk result (Stands types.now limit (type_shape types.now limit root.0) frames.new.items) }
{
    match first_step(types, limit, id)? {
        Some((step, next)) => {
            push_frame(frames, Frame { owner: id, step })?;
            Ok(Some(next))
        }
        None => {
            let found = advance(types, limit, root, frames)?;
            Ok(found)
        }
    }
}

/// An expression that initialises: its type, and whether it is a string literal.
#[derive(Clone, Copy)]
pub struct Expression {
    pub ty: TypeId,
    pub text: bool,
}

/// Whether a type is a character type: an integer of size 1.
fn is_character_type(types: &TypeTable, limit: u64, id: TypeId) -> bool
    requires known { id.0 < length types.now.terms }
    requires shaped { HasShape types.now limit id.0 }
    ensures { result ≡ is_character (type_shape types.now limit id.0) }
{
    match types.term(id) {
        Term::Integer { size, .. } => *size == 1,
        _ => false,
    }
}

/// Whether a type is the structure or union of that tag.
fn has_tag(types: &TypeTable, id: TypeId, tag: u32, is_union: bool) -> bool
    requires { id.0 < length types.now.terms }
    ensures { result ≡ same_tag (type_of types.now id.0) (tagged is_union tag) }
{
    match types.term(id) {
        Term::Structure(own) => !is_union && *own == tag,
        Term::Union(own) => is_union && *own == tag,
        _ => false,
    }
}

/// Whether an expression initialises an object as a whole: any expression a scalar, one of its own type a structure or union, and
/// a string an array of characters (C11 6.7.9p11, p13, p14).
pub fn fits_whole(types: &TypeTable, limit: u64, id: TypeId, value: Expression) -> bool
    requires known { id.0 < length types.now.terms }
    requires shaped { HasShape types.now limit id.0 }
    requires value { value.ty.0 < length types.now.terms }
    ensures { result ≡ fits (type_of types.now value.ty.0) value.text (type_shape types.now limit id.0) }
{
    match types.term(id) {
        Term::Array { of, .. } => value.text && is_character_type(types, limit, *of),
        Term::Structure(tag) => has_tag(types, value.ty, *tag, false),
        Term::Union(tag) => has_tag(types, value.ty, *tag, true),
        _ => true,
    }
}

/// Goes on to the first sub-object that an expression initialises, the present one or one that follows it (C11 6.7.9p13, p20);
/// None where it initialises none of them.
pub fn settle(
    types: &TypeTable,
    limit: u64,
    root: TypeId,
    frames: &mut Vec<Frame>,
    id: TypeId,
    value: Expression,
) -> Result<Option<TypeId>, OutOfMemory>
    requires stands { Stands types.now limit (type_shape types.now limit root.0) frames.old.items }
    requires at { IsAt types.now limit (type_shape types.now limit root.0) (path_of frames.old.items) id.0 }
    requires value { value.ty.0 < length types.now.terms }
    ensures place { let whole = type_shape types.now limit root.0 in
        let place = first_fit (type_of types.now value.ty.0) value.text (from whole (path_of frames.old.items)) in
        IfOk result (λ found. MatchOption found (place ≡ None)
        (λ here. place ≡ Some (sub_object types.now limit (path_of frames.new.items) here.0))) }
    ensures at { let whole = type_shape types.now limit root.0 in
        IfOk result (λ found. IfSome found (λ here. IsAt types.now limit whole (path_of frames.new.items) here.0)) }
    ensures stands { OnOk result (Stands types.now limit (type_shape types.now limit root.0) frames.new.items) }
{
    let mut here = id;
    'onward: while !fits_whole(types, limit, here, value) {
        match step_on(types, limit, root, frames, here)? {
            Some(next) => here = next,
            None => return Ok(None),
        }
    }
    Ok(Some(here))
}
