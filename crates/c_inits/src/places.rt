//! The place of an item of a braced list (C11 6.7.9p17 to p20).

ghost use Rattle.std.specs.Prelude.{◌≡◌, ◌<◌, ◌⊎◌, Bool, true, false, [], map, length, IfOk, IfSome, OnOk, MatchOption};
ghost use Rattle.std.specs.Prelude.{MatchResult, None, Some};
ghost use Rattle.c_inits.specs.Shapes.{from};
ghost use Rattle.c_inits.specs.Initial.{is_scalar, next, starts, At, Nothing};
ghost use Rattle.c_inits.specs.Tables.{type_shape, HasShape};
ghost use Rattle.c_inits.specs.Cursor.{Stands, IsAt, path_of, sub_object};
ghost use Rattle.c_inits.specs.Designated.{designator_of};
ghost use Rattle.c_inits.specs.Places.{before_of, placing, OnPlace, NoWhere};

use crate::cursor::{Expression, Frame, advance, settle, step_on};
use crate::designators::{Designator, go_to};
use c_types::table::TypeTable;
use c_types::term::{OutOfMemory, Term, TypeId};

/// Whether an object of a type has no parts because it is a scalar.
pub fn is_scalar_type(types: &TypeTable, limit: u64, id: TypeId) -> bool
    requires known { id.0 < length types.now.terms }
    requires shaped { HasShape types.now limit id.0 }
    ensures { result ≡ is_scalar (type_shape types.now limit id.0) }
{
    match types.term(id) {
        Term::Array { .. } | Term::Structure(_) | Term::Union(_) => false,
        Term::Void | Term::Bool | Term::Integer { .. } | Term::Floating => true,
        Term::VaList | Term::Pointer(_) | Term::Function { .. } => true,
    }
}

/// Goes to where the search of an item without designators begins: behind the place of the item before, or at the first part of the
/// object; None where nothing is left.
fn go_on(
    types: &TypeTable,
    limit: u64,
    root: TypeId,
    frames: &mut Vec<Frame>,
    started: bool,
) -> Result<Option<TypeId>, OutOfMemory>
    requires known { root.0 < length types.now.terms }
    requires shaped { HasShape types.now limit root.0 }
    requires stands { Stands types.now limit (type_shape types.now limit root.0) frames.old.items }
    requires fresh { started ≡ false → frames.old.items ≡ [] }
    ensures next { let whole = type_shape types.now limit root.0 in
        let left = next whole (before_of started (path_of frames.old.items)) in
        IfOk result (λ found. MatchOption found (left ≡ []) (λ id. left ≡ from whole (path_of frames.new.items))) }
    ensures at { let whole = type_shape types.now limit root.0 in
        IfOk result (λ found. IfSome found (λ id. IsAt types.now limit whole (path_of frames.new.items) id.0)) }
    ensures stands { OnOk result (Stands types.now limit (type_shape types.now limit root.0) frames.new.items) }
{
    if started {
        let found = advance(types, limit, root, frames)?;
        return Ok(found);
    }
    if is_scalar_type(types, limit, root) {
        return Ok(Some(root));
    }
    let found = step_on(types, limit, root, frames, root)?;
    Ok(found)
}

/// Goes to where the search of an item begins, or gives the node that has no place: that of the first designator that names nothing,
/// or the item's initialiser.
fn begin_item(
    types: &TypeTable,
    limit: u64,
    root: TypeId,
    frames: &mut Vec<Frame>,
    started: bool,
    designators: &[Designator],
    node: u32,
) -> Result<Result<TypeId, u32>, OutOfMemory>
    requires known { root.0 < length types.now.terms }
    requires shaped { HasShape types.now limit root.0 }
    requires stands { Stands types.now limit (type_shape types.now limit root.0) frames.old.items }
    requires fresh { started ≡ false → frames.old.items ≡ [] }
    ensures start { let whole = type_shape types.now limit root.0 in
        let start = starts whole (before_of started (path_of frames.old.items)) (map designator_of designators.now) in
        IfOk result (λ found. MatchResult found
        (λ id. (start ≡ At (from whole (path_of frames.new.items))) × IsAt types.now limit whole (path_of frames.new.items) id.0)
        (λ bad. (start ≡ Nothing bad) ⊎ ((start ≡ At []) × (bad ≡ node)))) }
    ensures stands { OnOk result (Stands types.now limit (type_shape types.now limit root.0) frames.new.items) }
{
    if designators.is_empty() {
        let found = go_on(types, limit, root, frames, started)?;
        match found {
            Some(id) => Ok(Ok(id)),
            None => Ok(Err(node)),
        }
    } else {
        let found = go_to(types, limit, root, frames, designators)?;
        Ok(found)
    }
}

/// Goes to the place of an item (C11 6.7.9p13, p17, p20): a braced list takes the first sub-object, an expression the first that it
/// initialises. Or gives the node that has no place.
pub fn place_item(
    types: &TypeTable,
    limit: u64,
    root: TypeId,
    frames: &mut Vec<Frame>,
    started: bool,
    designators: &[Designator],
    node: u32,
    value: Option<Expression>,
) -> Result<Result<TypeId, u32>, OutOfMemory>
    requires known { root.0 < length types.now.terms }
    requires shaped { HasShape types.now limit root.0 }
    requires value { IfSome value (λ e. e.ty.0 < length types.now.terms) }
    requires stands { Stands types.now limit (type_shape types.now limit root.0) frames.old.items }
    requires fresh { started ≡ false → frames.old.items ≡ [] }
    ensures place { let whole = type_shape types.now limit root.0 in
        let start = starts whole (before_of started (path_of frames.old.items)) (map designator_of designators.now) in
        let place = placing types.now node value start in
        IfOk result (λ found. MatchResult found
        (λ id. (place ≡ OnPlace (sub_object types.now limit (path_of frames.new.items) id.0))
        × IsAt types.now limit whole (path_of frames.new.items) id.0)
        (λ bad. place ≡ NoWhere bad)) }
    ensures stands { OnOk result (Stands types.now limit (type_shape types.now limit root.0) frames.new.items) }
{
    let start = begin_item(types, limit, root, frames, started, designators, node)?;
    match (start, value) {
        (Err(bad), _) => Ok(Err(bad)),
        (Ok(id), None) => Ok(Ok(id)),
        (Ok(id), Some(e)) => {
            let found = settle(types, limit, root, frames, id, e)?;
            match found {
                Some(here) => Ok(Ok(here)),
                None => Ok(Err(node)),
            }
        }
    }
}
