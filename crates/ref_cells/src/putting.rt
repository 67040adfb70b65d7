// Cells of a value put under a path of others.

ghost use Rattle.std.specs.Prelude.{◌≡◌, ◌+◌, ◌≤◌, ◌<◌, ◌^◌, ◌++◌, Bool, IfSome, IfOk, OnOk, OnErr, length, take, drop};
ghost use Rattle.std.specs.Option.{option_map};
ghost use Rattle.c_types.specs.Table.{type_of};
ghost use Rattle.ref_cells.specs.Cells.{CellList, seen, joined};
ghost use Rattle.ref_cells.specs.Order.{IsOrdered};
ghost use Rattle.ref_cells.specs.Wholes.{shape_in, IsOver};
ghost use Rattle.ref_cells.specs.Values.{goes_on, listed};
ghost use Rattle.ref_cells.specs.Puts.{lost, put, replaced};

use crate::cells::{Cell, Cells, Path, copy_entries, push_entry};
use crate::fill::{Filling, active, filled};
use crate::order::{part_under, replace};
use crate::wholes::{Whole, one, part_in};
use c_types::table::TypeTable;
use c_types::term::{OutOfMemory, PathStep, Term, TypeId};
use pta_base::Listing;
use std::alloc::Global;

/// Whether a step doesn't go into a member of a union that isn't active.
pub fn goes_on(
    types: &TypeTable,
    whole: Option<Whole>,
    step: PathStep,
    cells: &[(Path, Cell)],
    depth: usize,
) -> bool
    requires { IfSome whole (IsOver (length types.now.terms)) }
    ensures { result ≡ goes_on (shape_in types.now whole) step (seen depth cells.now) }
{
    match whole {
        Some(Whole::One(id)) => match types.term(id) {
            Term::Union(_) => match step {
                PathStep::Member(k) => active(cells, depth) == k,
                PathStep::Index(_) => true,
            },
            _ => true,
        },
        Some(Whole::Many(_, _)) => true,
        None => true,
    }
}

// Where cells change: from one place of the list to another, after so many steps of a path, and the type there.
#[derive(Clone, Copy)]
struct Scope {
    steps: usize,
    from: usize,
    to: usize,
    whole: Option<Whole>,
}

// The cells that a write changes: those under the path, or all of the outermost union on the way whose active member is
// another one.
fn find_scope(
    types: &TypeTable,
    whole: Option<Whole>,
    path: &[PathStep],
    cells: &[(Path, Cell)],
    depth: usize,
) -> Scope
    requires whole { IfSome whole (IsOver (length types.now.terms)) }
    requires ordered { IsOrdered (seen depth cells.now) }
    requires fits { depth + length path.now < 2 ^ 64 }
    ensures put { (marked : Bool) (value : CellList) →
        put types.now marked (shape_in types.now whole) path.now value (seen depth cells.now)
        ≡ seen depth (take result.from cells.now)
        ++ joined (take result.steps path.now)
        (replaced types.now marked (shape_in types.now result.whole) (drop result.steps path.now) value)
        ++ seen depth (drop result.to cells.now) }
    ensures order { result.from ≤ result.to }
    ensures within { result.to ≤ length cells.now }
    ensures steps { result.steps ≤ length path.now }
    ensures known { IfSome result.whole (IsOver (length types.now.terms)) }
{
    match path {
        [] => all_of(whole, cells),
        [step, rest @ ..] => {
            if goes_on(types, whole, *step, cells, depth) {
                let (start, part) = part_under(cells, depth, *step);
                let part_type = one(part_in(types, whole, *step));
                let inner = find_scope(types, part_type, rest, part, depth + 1);
                Scope {
                    steps: inner.steps + 1,
                    from: start + inner.from,
                    to: start + inner.to,
                    whole: inner.whole,
                }
            } else {
                all_of(whole, cells)
            }
        }
    }
}

// All cells of a list.
fn all_of(whole: Option<Whole>, cells: &[(Path, Cell)]) -> Scope
    ensures steps { result.steps ≡ 0 }
    ensures from { result.from ≡ 0 }
    ensures to { result.to ≡ length cells.now }
    ensures whole { result.whole ≡ whole }
{
    Scope {
        steps: 0,
        from: 0,
        to: cells.len(),
        whole,
    }
}

// What is listed of a member that becomes active.
fn lost(filling: &Filling<'_>, part: Option<TypeId>) -> Result<Vec<(Path, Cell)>, OutOfMemory>
    requires { IfSome part (λ id. id.0 < length filling.now.types.now.terms) }
    ensures cells { let table = filling.now.types.now in
        IfOk result (λ list.
        list.items ≡ lost table filling.now.marked (option_map (λ id. type_of table id.0) part)) }
    ensures ordered { IfOk result (λ list. IsOrdered list.items) }
{
    let unset = Filling {
        alloc: filling.alloc,
        types: filling.types,
        marked: false,
    };
    match part {
        Some(id) => {
            if filling.marked {
                filled(&unset, id, &[], 0)
            } else {
                Ok(Vec::new(filling.alloc))
            }
        }
        None => Ok(Vec::new(filling.alloc)),
    }
}

// Cells seen from before a path.
fn join(
    alloc: Global,
    front: &[PathStep],
    cells: &[(Path, Cell)],
) -> Result<Vec<(Path, Cell)>, OutOfMemory>
    ensures { IfOk result (λ list. list.items ≡ joined front.now cells.now) }
{
    let mut list = Vec::new(alloc);
    for entry in cells {
        let path = join_path(alloc, front, entry.0.as_slice())?;
        let cell = entry.1.copy(alloc)?;
        push_entry(&mut list, path, cell)?;
    }
    Ok(list)
}

// One path after another.
fn join_path(alloc: Global, front: &[PathStep], rest: &[PathStep]) -> Result<Path, OutOfMemory>
    ensures { IfOk result (λ path. path ≡ front.now ++ rest.now) }
{
    let mut steps = Vec::from_slice(alloc, front)?;
    steps.extend_from_slice(rest)?;
    Ok(Listing::of(steps))
}

/// Puts the cells of a value under a path. Want of memory leaves the list as it was.
#[cycle(put)]
pub fn put(
    filling: &Filling<'_>,
    whole: Option<Whole>,
    path: &[PathStep],
    value: &[(Path, Cell)],
    list: &mut Vec<(Path, Cell)>,
) -> Result<(), OutOfMemory>
    requires whole { IfSome whole (IsOver (length filling.now.types.now.terms)) }
    requires ordered { IsOrdered list.old.items }
    ensures ok { let table = filling.now.types.now in
        OnOk result
        (list.new.items ≡ put table filling.now.marked (shape_in table whole) path.now value.now list.old.items) }
    ensures err { OnErr result (list.new.items ≡ list.old.items) }
{
    let at = find_scope(filling.types, whole, path, list.as_slice(), 0);
    let inside = put_below(filling, at.whole, &path[at.steps..], value)?;
    let inside = join(filling.alloc, &path[..at.steps], inside.as_slice())?;
    replace(list, at.from, at.to, inside)
}

// What is listed of a value: its cells, or its own place where it has none.
fn listed(alloc: Global, value: &[(Path, Cell)]) -> Result<Vec<(Path, Cell)>, OutOfMemory>
    ensures { IfOk result (λ list. list.items ≡ listed value.now) }
{
    match value {
        [] => {
            let mut list = Vec::new(alloc);
            push_entry(&mut list, Listing::new(alloc), Cell::Unset)?;
            Ok(list)
        }
        [_, ..] => copy_entries(alloc, value),
    }
}

// What stands there after a write.
#[cycle(put)]
fn put_below(
    filling: &Filling<'_>,
    whole: Option<Whole>,
    path: &[PathStep],
    value: &[(Path, Cell)],
) -> Result<Vec<(Path, Cell)>, OutOfMemory>
    requires { IfSome whole (IsOver (length filling.now.types.now.terms)) }
    ensures { let table = filling.now.types.now in
        IfOk result (λ list.
        list.items ≡ replaced table filling.now.marked (shape_in table whole) path.now value.now) }
{
    match path {
        [] => listed(filling.alloc, value),
        [step, rest @ ..] => {
            let part = part_in(filling.types, whole, *step);
            let mut list = lost(filling, part)?;
            put(filling, one(part), rest, value, &mut list)?;
            join(filling.alloc, &[*step], list.as_slice())
        }
    }
}

impl Cells {
    /// Puts the cells of a value under a path. Want of memory leaves the cells as they were.
    pub fn put(
        &mut self,
        filling: &Filling<'_>,
        whole: Option<Whole>,
        path: &[PathStep],
        value: &Cells,
    ) -> Result<(), OutOfMemory>
        requires { IfSome whole (IsOver (length filling.now.types.now.terms)) }
        ensures ok { let table = filling.now.types.now in
            OnOk result (self.new ≡ put table filling.now.marked (shape_in table whole) path.now value.now self.old) }
        ensures err { OnErr result (self.new ≡ self.old) }
    {
        put(filling, whole, path, value.as_slice(), &mut self.list)?;
        Ok(())
    }
}
