// The elements from a place on.

ghost use Rattle.std.specs.Prelude.{◌≡◌, ℕ, ◌<◌, ◌∷◌, [], ◌++◌, Some, IfOk, IfSome, length};
ghost use Rattle.std.specs.Option.{option_map};
ghost use Rattle.ref_cells.specs.Answers.{Gives};
ghost use Rattle.ref_cells.specs.Wholes.{IsOver};
ghost use Rattle.ref_cells.specs.Places.{IsKnown, AreKnown};
ghost use Rattle.ref_elements.specs.Runs.{whole_id, part_id, count_in, alone, indexed, behind_step, last_index, run_from};
ghost use Rattle.ref_elements.specs.Runs.{element_path, element_at, found_as, found_at};

use c_types::table::TypeTable;
use c_types::term::{OutOfMemory, PathStep, Term, TypeId};
use pta_base::Listing;
use ref_cells::cells::{Cell, MemFault, Path, Reason, copy_path};
use ref_cells::instance::Instance;
use ref_cells::wholes::{Whole, elements_of, is_allocated, is_out};
use ref_mem::memory::Memory;
use std::alloc::Global;
use type_rules::members::member_at;

/// The elements from a place on: an array's from an index on, or the one that is the place. `room` is how many there are:
/// none past an array's end, behind a place that is past, and where an index on the way is out of its array.
#[derive(Drop)]
pub struct Run {
    pub front: Path,
    pub first: Option<u64>,
    pub room: u64,
    pub of: TypeId,
}

/// The elements at a place, and the number of their instance.
#[derive(Drop)]
pub struct Found {
    pub number: u32,
    pub run: Run,
}

// The whole of an instance of a type.
fn whole_id(types: &TypeTable, inst: &Instance, id: TypeId) -> Whole
    requires { id.0 < length types.now.terms }
    ensures whole { result ≡ whole_id types.now inst.now id }
    ensures known { IsOver (length types.now.terms) result }
{
    if is_allocated(inst.key) {
        Whole::Many(id, elements_of(types, inst.key, id, inst.bytes))
    } else {
        Whole::One(id)
    }
}

// The type of a part of a type.
fn part_of_term(types: &TypeTable, id: TypeId, step: PathStep) -> Option<TypeId>
    requires { id.0 < length types.now.terms }
    ensures part { result ≡ part_id types.now (Whole.One id) step }
    ensures known { IfSome result (λ part. part.0 < length types.now.terms) }
{
    match types.term(id) {
        Term::Array {
            of,
            length: Some(_),
        } => match step {
            PathStep::Index(_) => Some(*of),
            PathStep::Member(_) => None,
        },
        Term::Structure(_) | Term::Union(_) => match step {
            PathStep::Index(_) => None,
            PathStep::Member(k) => match member_at(types, id, k) {
                Some(member) => Some(member.ty),
                None => None,
            },
        },
        _ => None,
    }
}

// The type of a part, whatever the index.
fn part_id(types: &TypeTable, whole: Whole, step: PathStep) -> Option<TypeId>
    requires { IsOver (length types.now.terms) whole }
    ensures part { result ≡ part_id types.now whole step }
    ensures known { IfSome result (λ part. part.0 < length types.now.terms) }
{
    match whole {
        Whole::Many(id, _) => match step {
            PathStep::Index(_) => Some(id),
            PathStep::Member(_) => None,
        },
        Whole::One(id) => part_of_term(types, id, step),
    }
}

// How many elements an array has.
fn count_in(types: &TypeTable, whole: Whole) -> Option<u64>
    requires { IsOver (length types.now.terms) whole }
    ensures { result ≡ count_in types.now whole }
{
    match whole {
        Whole::Many(_, n) => Some(n),
        Whole::One(id) => match types.term(id) {
            Term::Array { length, .. } => *length,
            _ => None,
        },
    }
}

// The place itself.
fn alone(alloc: Global, whole: Whole, past: bool) -> Option<Run>
    ensures run { result ≡ alone whole past }
    ensures known { (n : ℕ) → IsOver n whole → IfSome result (λ run. run.of.0 < n) }
{
    match whole {
        Whole::One(id) => Some(Run {
            front: Listing::new(alloc),
            first: None,
            room: if past { 0 } else { 1 },
            of: id,
        }),
        Whole::Many(_, _) => None,
    }
}

// The elements of an array from an index on.
fn indexed(alloc: Global, past: bool, i: u64, count: Option<u64>, id: Option<TypeId>) -> Option<Run>
    ensures run { result ≡ indexed past i count id }
    ensures known { (n : ℕ) → IfSome id (λ part. part.0 < n) → IfSome result (λ run. run.of.0 < n) }
{
    match (count, id) {
        (Some(n), Some(of)) => Some(Run {
            front: Listing::new(alloc),
            first: Some(i),
            room: if past { 0 } else { n.saturating_sub(i) },
            of,
        }),
        _ => None,
    }
}

// A path with one step more in front.
fn step_before(alloc: Global, step: PathStep, path: &[PathStep]) -> Result<Path, OutOfMemory>
    ensures { IfOk result (λ q. q ≡ step ∷ path.now) }
{
    let mut steps = Vec::from_slice(alloc, &[step])?;
    steps.extend_from_slice(path)?;
    Ok(Listing::of(steps))
}

// The same seen from before a step.
fn behind_step(alloc: Global, step: PathStep, out: bool, run: Run) -> Result<Run, OutOfMemory>
    ensures run { IfOk result (λ r. Some r ≡ behind_step step out (Some run)) }
    ensures of { IfOk result (λ r. r.of ≡ run.of) }
{
    let front = step_before(alloc, step, run.front.as_slice())?;
    Ok(Run {
        front,
        first: run.first,
        room: if out { 0 } else { run.room },
        of: run.of,
    })
}

fn behind(
    alloc: Global,
    step: PathStep,
    out: bool,
    run: Option<Run>,
) -> Result<Option<Run>, OutOfMemory>
    ensures run { IfOk result (λ r. r ≡ behind_step step out run) }
    ensures of { (n : ℕ) → IfSome run (λ r. r.of.0 < n) → IfOk result (λ r. IfSome r (λ run. run.of.0 < n)) }
{
    match run {
        Some(run) => {
            let run = behind_step(alloc, step, out, run)?;
            Ok(Some(run))
        }
        None => Ok(None),
    }
}

// An index that is a path's last step.
fn last_index(step: PathStep, rest: &[PathStep]) -> Option<u64>
    ensures { result ≡ last_index step rest.now }
{
    match step {
        PathStep::Index(i) => match rest {
            [] => Some(i),
            [_, ..] => None,
        },
        PathStep::Member(_) => None,
    }
}

fn one(part: Option<TypeId>) -> Option<Whole>
    ensures shape { result ≡ option_map Whole.One part }
    ensures known { (n : ℕ) → IfSome part (λ id. id.0 < n) → IfSome result (IsOver n) }
{
    match part {
        Some(id) => Some(Whole::One(id)),
        None => None,
    }
}

// The elements from the end of a path on.
fn run_from(
    alloc: Global,
    types: &TypeTable,
    whole: Option<Whole>,
    path: &[PathStep],
    past: bool,
) -> Result<Option<Run>, OutOfMemory>
    requires { IfSome whole (IsOver (length types.now.terms)) }
    ensures run { IfOk result (λ r. r ≡ run_from types.now whole path.now past) }
    ensures known { IfOk result (λ r. IfSome r (λ run. run.of.0 < length types.now.terms)) }
{
    match whole {
        None => Ok(None),
        Some(found) => match path {
            [] => Ok(alone(alloc, found, past)),
            [step, rest @ ..] => match last_index(*step, rest) {
                Some(i) => {
                    let id = part_id(types, found, PathStep::Index(i));
                    Ok(indexed(alloc, past, i, count_in(types, found), id))
                }
                None => {
                    let out = is_out(types, found, *step);
                    let part = one(part_id(types, found, *step));
                    let run = run_from(alloc, types, part, rest, past)?;
                    behind(alloc, *step, out, run)
                }
            },
        },
    }
}

/// The elements at a path of an instance of that type; Mismatch where there is no type or the path leaves it.
pub fn found_as(
    alloc: Global,
    types: &TypeTable,
    number: u32,
    inst: &Instance,
    path: &[PathStep],
    past: bool,
    ty: Option<TypeId>,
) -> Result<Found, MemFault>
    requires { IsKnown (length types.now.terms) ty }
    ensures found { Gives (λ f. f) result (found_as types.now number inst.now path.now past ty) }
    ensures number { IfOk result (λ f. f.number ≡ number) }
    ensures known { IfOk result (λ f. f.run.of.0 < length types.now.terms) }
{
    match ty {
        Some(id) => {
            let whole = whole_id(types, inst, id);
            match run_from(alloc, types, Some(whole), path, past)? {
                Some(run) => Ok(Found { number, run }),
                None => Err(MemFault::Stop(Reason::Mismatch)),
            }
        }
        None => Err(MemFault::Stop(Reason::Mismatch)),
    }
}

/// The elements at a place of an instance that has a type. Null, a function, an ended instance and an untyped one stop it
/// as they stop a read.
pub fn found_at(
    alloc: Global,
    memory: &Memory,
    types: &TypeTable,
    place: &Cell,
) -> Result<Found, MemFault>
    requires { AreKnown (length types.now.terms) memory.now }
    ensures found { Gives (λ f. f) result (found_at types.now memory.now place.now) }
    ensures within { IfOk result (λ f. f.number < length memory.now) }
    ensures known { IfOk result (λ f. f.run.of.0 < length types.now.terms) }
{
    match place {
        Cell::Null => Err(MemFault::Stop(Reason::NullUse)),
        Cell::Pointer {
            instance,
            path,
            past,
        } => match memory.instances().get(*instance as usize) {
            Some(inst) => {
                if inst.live {
                    found_as(
                        alloc,
                        types,
                        *instance,
                        inst,
                        path.as_slice(),
                        *past,
                        inst.ty,
                    )
                } else {
                    Err(MemFault::Stop(Reason::DeadUse))
                }
            }
            None => Err(MemFault::Stop(Reason::Mismatch)),
        },
        Cell::Unset | Cell::Number(_) | Cell::Function(_) => Err(MemFault::Stop(Reason::Mismatch)),
    }
}

fn push_step(steps: &mut Vec<PathStep>, step: PathStep) -> Result<(), OutOfMemory>
    ensures { IfOk result (λ _. steps.new.items ≡ steps.old.items ++ step ∷ []) }
{
    match steps.push(step) {
        Ok(()) => Ok(()),
        Err(_) => Err(OutOfMemory),
    }
}

/// The path of the element so many further on.
pub fn element_path(alloc: Global, run: &Run, k: u64) -> Result<Path, OutOfMemory>
    ensures { IfOk result (λ path. path ≡ element_path run.now k) }
{
    match run.first {
        None => copy_path(alloc, run.front.as_slice()),
        Some(i) => {
            let index = i.checked_add(k).ok_or(OutOfMemory)?;
            let mut steps = Vec::from_slice(alloc, run.front.as_slice())?;
            push_step(&mut steps, PathStep::Index(index))?;
            Ok(Listing::of(steps))
        }
    }
}

/// A pointer to an element.
pub fn element_at(alloc: Global, found: &Found, k: u64) -> Result<Cell, OutOfMemory>
    ensures { IfOk result (λ cell. cell ≡ element_at found.now k) }
{
    let path = element_path(alloc, &found.run, k)?;
    Ok(Cell::Pointer {
        instance: found.number,
        path,
        past: false,
    })
}
