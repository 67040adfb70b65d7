// All cells of a value.

ghost use Rattle.std.specs.Prelude.{◌≡◌, ◌+◌, ◌<◌, ◌∷◌, [], ◌++◌, List, IfOk, IfSome, OnOk, All, length, map, drop, slice_get};
ghost use Rattle.std.specs.Option.{option_map};
ghost use Rattle.c_types.specs.Table.{type_of};
ghost use Rattle.c_types.specs.Trees.{Ctype, grow};
ghost use Rattle.ref_cells.specs.Cells.{CellList, seen, joined, under};
ghost use Rattle.ref_cells.specs.Order.{IsOrdered};
ghost use Rattle.ref_cells.specs.Values.{zero_cell, listed, member_step, blank, cell_in, active, elements, members_from};
ghost use Rattle.ref_cells.specs.Values.{one_member, filled_by, filled_to, filled};

use crate::cells::{Cell, Path, copy_path, push_entry};
use crate::order::under;
use c_types::table::TypeTable;
use c_types::term::{MemberTerm, OutOfMemory, PathStep, Term, TypeId};
use std::alloc::Global;

/// What cells are filled with: the types, and whether a cell that isn't listed is zero.
#[derive(Clone, Copy)]
pub struct Filling<'a> {
    pub alloc: Global,
    pub types: &'a TypeTable,
    pub marked: bool,
}

// Zero in a scalar.
fn zero_cell(term: &Term) -> Cell
    ensures { (trees : List Ctype) → result ≡ zero_cell (grow trees term.now) }
{
    match term {
        Term::Pointer(_) | Term::VaList => Cell::Null,
        Term::Void | Term::Bool | Term::Floating => Cell::Number(0),
        Term::Integer { .. } | Term::Function { .. } => Cell::Number(0),
        Term::Array { .. } | Term::Structure(_) | Term::Union(_) => Cell::Number(0),
    }
}

/// What a scalar holds of which these cells are listed.
pub fn cell_in(
    filling: &Filling<'_>,
    ty: TypeId,
    cells: &[(Path, Cell)],
) -> Result<Cell, OutOfMemory>
    requires { ty.0 < length filling.now.types.now.terms }
    ensures { IfOk result (λ cell. cell ≡ cell_in filling.now.marked (type_of filling.now.types.now ty.0) cells.now) }
{
    match cells {
        [entry, ..] => entry.1.copy(filling.alloc),
        [] => {
            if filling.marked {
                Ok(zero_cell(filling.types.term(ty)))
            } else {
                Ok(Cell::Unset)
            }
        }
    }
}

// The member that a path goes to at a depth.
fn member_step(path: &[PathStep], depth: usize) -> u32
    ensures { result ≡ member_step (drop depth path.now) }
{
    match path.get(depth) {
        Some(PathStep::Member(k)) => *k,
        _ => 0,
    }
}

/// The active member of a union of which these cells are listed.
pub fn active(cells: &[(Path, Cell)], depth: usize) -> u32
    ensures { result ≡ active (seen depth cells.now) }
{
    match cells {
        [entry, ..] => member_step(entry.0.as_slice(), depth),
        [] => 0,
    }
}

// The path of a part, and the cells under it.
fn enter<'a>(
    cells: &'a [(Path, Cell)],
    depth: usize,
    step: PathStep,
    front: &mut Vec<PathStep>,
) -> Result<(&'a [(Path, Cell)], usize), OutOfMemory>
    requires { IsOrdered (seen depth cells.now) }
    ensures front { OnOk result (front.new.items ≡ front.old.items ++ step ∷ []) }
    ensures cells { IfOk result (λ part. seen part.1 part.0.now ≡ under step (seen depth cells.now)) }
    ensures ordered { IfOk result (λ part. IsOrdered (seen part.1 part.0.now)) }
{
    let deeper = depth.checked_add(1).ok_or(OutOfMemory)?;
    match front.push(step) {
        Ok(()) => Ok((under(cells, depth, step), deeper)),
        Err(_) => Err(OutOfMemory),
    }
}

// The cell of a scalar.
fn fill_scalar(
    filling: &Filling<'_>,
    ty: TypeId,
    cells: &[(Path, Cell)],
    front: &[PathStep],
    out: &mut Vec<(Path, Cell)>,
) -> Result<(), OutOfMemory>
    requires { ty.0 < length filling.now.types.now.terms }
    ensures { OnOk result
        (out.new.items
        ≡ out.old.items
        ++ (front.now, cell_in filling.now.marked (type_of filling.now.types.now ty.0) cells.now) ∷ []) }
{
    let cell = cell_in(filling, ty, cells)?;
    let path = copy_path(filling.alloc, front)?;
    push_entry(out, path, cell)
}

// The cells of a value of a type, within so many structures and unions.
#[cycle(fill)]
fn fill(
    filling: &Filling<'_>,
    levels: u64,
    ty: TypeId,
    cells: &[(Path, Cell)],
    depth: usize,
    front: &mut Vec<PathStep>,
    out: &mut Vec<(Path, Cell)>,
) -> Result<(), OutOfMemory>
    requires ty { ty.0 < length filling.now.types.now.terms }
    requires ordered { IsOrdered (seen depth cells.now) }
    ensures cells { let table = filling.now.types.now in
        let below = filled_to table filling.now.marked levels in
        OnOk result
        (out.new.items
        ≡ out.old.items
        ++ joined front.old.items (filled_by table filling.now.marked below (type_of table ty.0) (seen depth cells.now))) }
    ensures front { OnOk result (front.new.items ≡ front.old.items) }
{
    match filling.types.term(ty) {
        Term::Void | Term::Function { .. } => Ok(()),
        Term::Array {
            of: _,
            length: None,
        } => Ok(()),
        Term::Array {
            of,
            length: Some(n),
        } => fill_elements(filling, levels, *of, *n, cells, depth, front, out),
        Term::Structure(tag) => match filling.types.members(*tag) {
            Some(members) => fill_members(filling, levels, members, cells, depth, front, out),
            None => Ok(()),
        },
        Term::Union(tag) => match filling.types.members(*tag) {
            Some(members) => fill_active(filling, levels, members, cells, depth, front, out),
            None => Ok(()),
        },
        _ => fill_scalar(filling, ty, cells, front.as_slice(), out),
    }
}

// The cells of the elements of an array.
#[cycle(fill)]
fn fill_elements(
    filling: &Filling<'_>,
    levels: u64,
    of: TypeId,
    n: u64,
    cells: &[(Path, Cell)],
    depth: usize,
    front: &mut Vec<PathStep>,
    out: &mut Vec<(Path, Cell)>,
) -> Result<(), OutOfMemory>
    requires ty { of.0 < length filling.now.types.now.terms }
    requires ordered { IsOrdered (seen depth cells.now) }
    ensures cells { let table = filling.now.types.now in
        let below = filled_to table filling.now.marked levels in
        let element = filled_by table filling.now.marked below (type_of table of.0) in
        OnOk result
        (out.new.items ≡ out.old.items ++ joined front.old.items (elements element n (seen depth cells.now))) }
    ensures front { OnOk result (front.new.items ≡ front.old.items) }
{
    let steps = front.len();
    for i in 0..n {
        let (part, deeper) = enter(cells, depth, PathStep::Index(i), front)?;
        fill(filling, levels, of, part, deeper, front, out)?;
        front.truncate(steps);
    }
    Ok(())
}

// The cells of the members of a structure.
#[cycle(fill)]
fn fill_members(
    filling: &Filling<'_>,
    levels: u64,
    members: &[MemberTerm],
    cells: &[(Path, Cell)],
    depth: usize,
    front: &mut Vec<PathStep>,
    out: &mut Vec<(Path, Cell)>,
) -> Result<(), OutOfMemory>
    requires members { All (λ m. m.ty.0 < length filling.now.types.now.terms) members.now }
    requires ordered { IsOrdered (seen depth cells.now) }
    ensures cells { let table = filling.now.types.now in
        let below = filled_to table filling.now.marked levels in
        let types = map (λ m. type_of table m.ty.0) members.now in
        OnOk result
        (out.new.items ≡ out.old.items ++ joined front.old.items (members_from below 0 types (seen depth cells.now))) }
    ensures front { OnOk result (front.new.items ≡ front.old.items) }
{
    let steps = front.len();
    for k in 0..members.len() {
        let step = member_number(k)?;
        let (part, deeper) = enter(cells, depth, PathStep::Member(step), front)?;
        fill_below(filling, levels, members[k].ty, part, deeper, front, out)?;
        front.truncate(steps);
    }
    Ok(())
}

// The place of a part of which no cells were put out.
fn list_place(
    alloc: Global,
    start: usize,
    front: &[PathStep],
    out: &mut Vec<(Path, Cell)>,
) -> Result<(), OutOfMemory>
    ensures { (before cells : CellList) →
        length before ≡ start
        → out.old.items ≡ before ++ joined front.now cells
        → OnOk result (out.new.items ≡ before ++ joined front.now (listed cells)) }
{
    if out.len() > start {
        return Ok(());
    }
    let path = copy_path(alloc, front)?;
    push_entry(out, path, Cell::Unset)
}

// The cells of the active member of a union.
#[cycle(fill)]
fn fill_active(
    filling: &Filling<'_>,
    levels: u64,
    members: &[MemberTerm],
    cells: &[(Path, Cell)],
    depth: usize,
    front: &mut Vec<PathStep>,
    out: &mut Vec<(Path, Cell)>,
) -> Result<(), OutOfMemory>
    requires members { All (λ m. m.ty.0 < length filling.now.types.now.terms) members.now }
    requires ordered { IsOrdered (seen depth cells.now) }
    ensures cells { let table = filling.now.types.now in
        let below = filled_to table filling.now.marked levels in
        let types = map (λ m. type_of table m.ty.0) members.now in
        let k = active (seen depth cells.now) in
        OnOk result
        (out.new.items
        ≡ out.old.items ++ joined front.old.items (one_member below k (slice_get types k) (seen depth cells.now))) }
    ensures front { OnOk result (front.new.items ≡ front.old.items) }
{
    let k = active(cells, depth);
    match type_at(filling.types, members, k) {
        Some(ty) => {
            let steps = front.len();
            let (part, deeper) = enter(cells, depth, PathStep::Member(k), front)?;
            let start = out.len();
            fill_below(filling, levels, ty, part, deeper, front, out)?;
            list_place(filling.alloc, start, front.as_slice(), out)?;
            front.truncate(steps);
            Ok(())
        }
        None => Ok(()),
    }
}

// The cells of a member.
#[cycle(fill)]
fn fill_below(
    filling: &Filling<'_>,
    levels: u64,
    ty: TypeId,
    cells: &[(Path, Cell)],
    depth: usize,
    front: &mut Vec<PathStep>,
    out: &mut Vec<(Path, Cell)>,
) -> Result<(), OutOfMemory>
    requires ty { ty.0 < length filling.now.types.now.terms }
    requires ordered { IsOrdered (seen depth cells.now) }
    ensures cells { let table = filling.now.types.now in
        let below = filled_to table filling.now.marked levels in
        OnOk result
        (out.new.items ≡ out.old.items ++ joined front.old.items (below (type_of table ty.0) (seen depth cells.now))) }
    ensures front { OnOk result (front.new.items ≡ front.old.items) }
{
    if levels == 0 {
        return Ok(());
    }
    fill(filling, levels - 1, ty, cells, depth, front, out)
}

// The type of a member.
fn type_at(types: &TypeTable, members: &[MemberTerm], k: u32) -> Option<TypeId>
    requires { All (λ m. m.ty.0 < length types.now.terms) members.now }
    ensures value { option_map (λ id. type_of types.now id.0) result
        ≡ slice_get (map (λ m. type_of types.now m.ty.0) members.now) k }
    ensures known { IfSome result (λ id. id.0 < length types.now.terms) }
{
    match members.get(k as usize) {
        Some(member) => Some(member.ty),
        None => None,
    }
}

// A member's number.
fn member_number(k: usize) -> Result<u32, OutOfMemory>
    ensures { IfOk result (λ n. n ≡ k) }
{
    if k > u32::MAX as usize {
        Err(OutOfMemory)
    } else {
        Ok(k as u32)
    }
}

/// All cells of a value of a type, of which these are listed.
#[tactic(auto, unfolding(crate::specs::Values::filled))]
pub fn filled(
    filling: &Filling<'_>,
    ty: TypeId,
    cells: &[(Path, Cell)],
    depth: usize,
) -> Result<Vec<(Path, Cell)>, OutOfMemory>
    requires ty { ty.0 < length filling.now.types.now.terms }
    requires ordered { IsOrdered (seen depth cells.now) }
    ensures ordered { IfOk result (λ list. IsOrdered list.items) }
    ensures cells { let table = filling.now.types.now in
        IfOk result (λ list.
        list.items ≡ filled table filling.now.marked (type_of table ty.0) (seen depth cells.now)) }
{
    let mut front = Vec::new(filling.alloc);
    let mut out = Vec::new(filling.alloc);
    let levels = u64::from(filling.types.tag_count());
    fill(filling, levels, ty, cells, depth, &mut front, &mut out)?;
    Ok(out)
}

/// The cells of the first so many elements of an array, of which these are listed.
#[tactic(auto, unfolding(crate::specs::Values::filled))]
pub fn filled_elements(
    filling: &Filling<'_>,
    of: TypeId,
    n: u64,
    cells: &[(Path, Cell)],
) -> Result<Vec<(Path, Cell)>, OutOfMemory>
    requires ty { of.0 < length filling.now.types.now.terms }
    requires ordered { IsOrdered cells.now }
    ensures ordered { IfOk result (λ list. IsOrdered list.items) }
    ensures cells { let table = filling.now.types.now in
        IfOk result (λ list.
        list.items ≡ elements (filled table filling.now.marked (type_of table of.0)) n cells.now) }
{
    let mut front = Vec::new(filling.alloc);
    let mut out = Vec::new(filling.alloc);
    let levels = u64::from(filling.types.tag_count());
    fill_elements(filling, levels, of, n, cells, 0, &mut front, &mut out)?;
    Ok(out)
}
