// A program that is entered from outside, by functions whose arguments a word chooses.

ghost use Rattle.std.specs.Prelude.{◌≡◌, ◌+◌, ◌%◌, ◌^◌, ◌<◌, [], ◌∷◌, ◌++◌, List, IfOk, OnOk, OnErr, get_or, length, map, pos, take};
ghost use Rattle.c_types.specs.declared.key.ObjectKey.{ObjectKey};
ghost use Rattle.c_types.specs.declared.term.TypeId.{TypeId};
ghost use Rattle.c_types.specs.Trees.{PointerTo};
ghost use Rattle.c_types.specs.Table.{Table, type_of};
ghost use Rattle.core_tree.specs.Range.{InRange};
ghost use Rattle.core_tree.specs.Seen.{core_of};
ghost use Rattle.ref_cells.specs.Answers.{Gives};
ghost use Rattle.ref_cells.specs.declared.cells.Cell.{Cell};
ghost use Rattle.ref_cells.specs.declared.cells.Cell.TheVariants.{Null, Number};
ghost use Rattle.ref_cells.specs.Numbers.{converted};
ghost use Rattle.ref_state.specs.ref_types.Types.{library_ids};
ghost use Rattle.ref_frames.specs.Made.{IsRunning, seen};
ghost use Rattle.ref_frames.specs.OnTop.{only};
ghost use Rattle.ref_start.specs.Handed.{ArePlaces, AreRead, cells_for};
ghost use Rattle.ref_start.specs.Entries.{bytes_outside, outside_object, with_argument, with_object, with_new};
ghost use Rattle.ref_start.specs.Entries.{with_pointer, given_as, given_one, given_all, given_with, entered_given};
ghost use Rattle.ref_start.specs.Entries.{enters_entry, ends, enters_one, starts};

use crate::begin::{begin, main_entry, with_objects};
use crate::handed::{HandedPlaces, count_at, keep_place, kept_cell, no_places, read_on};
use crate::objects::element_of;
use c_types::key::ObjectKey;
use c_types::table::TypeTable;
use c_types::term::{OutOfMemory, Term, TypeId};
use core_tree::trees::Trees;
use pta_base::Listing;
use ref_cells::cells::{Cell, Cells, MemFault, Reason, Value};
use ref_cells::instance::Instance;
use ref_cells::numbers::converted;
use ref_frames::entering::{Activation, enter, entered};
use ref_frames::leaving::finish;
use ref_frames::running::Running;
use ref_state::lists::push;
use ref_state::ref_types::LibraryTypes;
use ref_state::state::State;
use ref_values::memory::pointee;
use std::alloc::Global;
use std::mem;

// How many bytes a new object has that isn't made with its type.
const BYTES: u64 = 64;

/// What an entry is given: new objects outside, what is handed over with it, each under its type, with the places that are kept of
/// it, and its arguments.
#[derive(Drop)]
pub struct Handing {
    pub fresh: Listing<Instance>,
    pub handed: Listing<(TypeId, Cell)>,
    pub kept: HandedPlaces,
    pub arguments: Listing<Value>,
}

/// What an entry's arguments are chosen by: what was handed over before, with the places that are kept of it, how many instances
/// there are, and a number h.
#[derive(Clone, Copy)]
pub struct Offer<'a> {
    pub handed: &'a [(TypeId, Cell)],
    pub kept: &'a HandedPlaces,
    pub count: usize,
    pub h: u64,
}

// How many bytes a new object outside has.
fn bytes_outside(ty: Option<TypeId>) -> u64
    ensures { result ≡ bytes_outside ty }
{
    match ty {
        Some(_) => 0,
        None => BYTES,
    }
}

// A new object outside: one element of a type, or 64 bytes without a type.
fn outside_object(alloc: Global, ty: Option<TypeId>) -> Instance
    ensures { result ≡ outside_object ty }
{
    Instance {
        key: ObjectKey::Outside,
        live: true,
        ty,
        bytes: bytes_outside(ty),
        zero: true,
        cells: Cells::none(alloc),
    }
}

// One argument more.
fn put_argument(alloc: Global, made: &mut Handing, cell: Cell) -> Result<(), OutOfMemory>
    ensures given { (before : List (TypeId × Cell)) →
        OnOk result (given_with before made.new ≡ with_argument (given_with before made.old) cell) }
    ensures own { (table : Table) → ArePlaces table made.old.handed made.old.kept →
        OnOk result (ArePlaces table made.new.handed made.new.kept) }
{
    made.arguments.push(Value::one(alloc, cell)?)?;
    Ok(())
}

// How many there are of two kinds.
fn sum_of(a: usize, b: usize) -> Result<usize, OutOfMemory>
    ensures sum { IfOk result (λ sum. sum ≡ a + b) }
    ensures small { IfOk result (λ sum. sum < 2 ^ 33) }
{
    if a > u32::MAX as usize || b > u32::MAX as usize {
        Err(OutOfMemory)
    } else {
        Ok(a + b)
    }
}

// The number of the next new object, in a memory of so many instances before it.
fn next_number(count: usize, made: &Handing) -> Result<u32, OutOfMemory>
    ensures { IfOk result (λ number. number ≡ count + length made.now.fresh) }
{
    let number = sum_of(count, made.fresh.len())?;
    if number > u32::MAX as usize {
        Err(OutOfMemory)
    } else {
        Ok(number as u32)
    }
}

// A new object, of that number, and a pointer to its start as an argument, which is handed over under its type.
fn put_object(
    alloc: Global,
    types: &TypeTable,
    number: u32,
    ty: TypeId,
    to: Option<TypeId>,
    made: &mut Handing,
) -> Result<(), OutOfMemory>
    ensures given { (before : List (TypeId × Cell)) →
        OnOk result (given_with before made.new ≡ with_object number ty to (given_with before made.old)) }
    ensures own { ArePlaces types.now made.old.handed made.old.kept →
        OnOk result (ArePlaces types.now made.new.handed made.new.kept) }
{
    made.fresh.push(outside_object(alloc, to))?;
    made.handed.push((ty, element_of(alloc, number, 0)?))?;
    keep_place(&mut made.kept, types, ty)?;
    put_argument(alloc, made, element_of(alloc, number, 0)?)
}

// A pointer to a new object as an argument; null where it would be a function.
fn put_new(
    alloc: Global,
    types: &TypeTable,
    number: u32,
    ty: TypeId,
    to: TypeId,
    made: &mut Handing,
) -> Result<(), OutOfMemory>
    requires ty { ty.0 < length types.now.terms }
    requires to { to.0 < length types.now.terms }
    ensures given { (before : List (TypeId × Cell)) → OnOk result (given_with before made.new
        ≡ with_new types.now number ty (type_of types.now to.0) (given_with before made.old)) }
    ensures own { ArePlaces types.now made.old.handed made.old.kept →
        OnOk result (ArePlaces types.now made.new.handed made.new.kept) }
{
    match types.term(to) {
        Term::Function { .. } => put_argument(alloc, made, Cell::Null),
        Term::Void | Term::Bool | Term::Floating | Term::VaList | Term::Integer { .. } => {
            put_object(alloc, types, number, ty, pointee(types, ty), made)
        }
        Term::Pointer(_) | Term::Array { .. } | Term::Structure(_) | Term::Union(_) => {
            put_object(alloc, types, number, ty, pointee(types, ty), made)
        }
    }
}

// The k-th pointer that was handed over under a type, before a step and in it.
fn handed_at(
    alloc: Global,
    types: &TypeTable,
    offer: &Offer<'_>,
    made: &Handing,
    ty: TypeId,
    to: TypeId,
    k: usize,
) -> Result<Cell, OutOfMemory>
    requires ty { ty.0 < length types.now.terms }
    requires pointer { type_of types.now ty.0 ≡ PointerTo (type_of types.now to.0) }
    requires before { ArePlaces types.now offer.now.handed.now offer.now.kept.now }
    requires own { ArePlaces types.now made.now.handed made.now.kept }
    requires k { k < length (cells_for types.now ty.0 offer.now.handed.now made.now.handed) }
    ensures { IfOk result (λ cell. cell ≡ get_or (cells_for types.now ty.0 offer.now.handed.now made.now.handed) k Null) }
{
    let first = types.first_same(ty);
    let before = count_at(offer.kept, first);
    if k < before {
        kept_cell(alloc, offer.handed, offer.kept, first, k)
    } else {
        kept_cell(alloc, made.handed.as_slice(), &made.kept, first, k - before)
    }
}

// A pointer as an argument, by a choice: null, a new one, or one of those that were handed over under its type.
fn put_pointer(
    alloc: Global,
    types: &TypeTable,
    offer: &Offer<'_>,
    ty: TypeId,
    to: TypeId,
    choice: u64,
    made: &mut Handing,
) -> Result<(), OutOfMemory>
    requires ty { ty.0 < length types.now.terms }
    requires to { to.0 < length types.now.terms }
    requires pointer { type_of types.now ty.0 ≡ PointerTo (type_of types.now to.0) }
    requires before { ArePlaces types.now offer.now.handed.now offer.now.kept.now }
    requires own { ArePlaces types.now made.old.handed made.old.kept }
    requires choice { choice < length (cells_for types.now ty.0 offer.now.handed.now made.old.handed) + 2 }
    ensures given { OnOk result (given_with offer.now.handed.now made.new
        ≡ with_pointer types.now (offer.now.count + length made.old.fresh) ty (type_of types.now to.0)
        (cells_for types.now ty.0 offer.now.handed.now made.old.handed) choice (given_with offer.now.handed.now made.old)) }
    ensures own { OnOk result (ArePlaces types.now made.new.handed made.new.kept) }
{
    if choice == 0 {
        put_argument(alloc, made, Cell::Null)
    } else if choice == 1 {
        let number = next_number(offer.count, made)?;
        put_new(alloc, types, number, ty, to, made)
    } else {
        let cell = handed_at(alloc, types, offer, made, ty, to, (choice - 2) as usize)?;
        put_argument(alloc, made, cell)
    }
}

// One of two more choices than there are pointers that were handed over under a type, before a step and in it.
fn choice_of(
    types: &TypeTable,
    offer: &Offer<'_>,
    made: &Handing,
    ty: TypeId,
    to: TypeId,
) -> Result<u64, OutOfMemory>
    requires ty { ty.0 < length types.now.terms }
    requires pointer { type_of types.now ty.0 ≡ PointerTo (type_of types.now to.0) }
    requires before { ArePlaces types.now offer.now.handed.now offer.now.kept.now }
    requires own { ArePlaces types.now made.now.handed made.now.kept }
    ensures value { IfOk result (λ choice. choice
        ≡ offer.now.h % (length (cells_for types.now ty.0 offer.now.handed.now made.now.handed) + 2)) }
    ensures below { IfOk result (λ choice. choice
        < length (cells_for types.now ty.0 offer.now.handed.now made.now.handed) + 2) }
{
    let first = types.first_same(ty);
    let cells = sum_of(count_at(offer.kept, first), count_at(&made.kept, first))?;
    Ok(offer.h % (cells as u64 + 2))
}

// The number h as one of a type.
fn number_as(types: &TypeTable, ty: TypeId, h: u64) -> Cell
    requires { ty.0 < length types.now.terms }
    ensures { result ≡ Number (converted (type_of types.now ty.0) (pos h)) }
{
    let n = converted(types, ty, i128::from(h));
    Cell::Number(n)
}

// An argument of a type: a pointer that the number h chooses, else h as a number of the type.
fn put_as(
    alloc: Global,
    types: &TypeTable,
    offer: &Offer<'_>,
    ty: TypeId,
    made: &mut Handing,
) -> Result<(), OutOfMemory>
    requires ty { ty.0 < length types.now.terms }
    requires before { ArePlaces types.now offer.now.handed.now offer.now.kept.now }
    requires own { ArePlaces types.now made.old.handed made.old.kept }
    ensures given { OnOk result (given_with offer.now.handed.now made.new
        ≡ given_as types.now offer.now.count offer.now.h ty (type_of types.now ty.0) (given_with offer.now.handed.now made.old)) }
    ensures own { OnOk result (ArePlaces types.now made.new.handed made.new.kept) }
{
    let h = offer.h;
    match types.term(ty) {
        Term::Pointer(to) => {
            let to = *to;
            let choice = choice_of(types, offer, made, ty, to)?;
            put_pointer(alloc, types, offer, ty, to, choice, made)
        }
        Term::Void | Term::Bool | Term::Floating => put_argument(
            alloc,
            made,
            number_as(types, ty, h),
        ),
        Term::VaList | Term::Integer { .. } => put_argument(alloc, made, number_as(types, ty, h)),
        Term::Function { .. } | Term::Array { .. } => put_argument(
            alloc,
            made,
            number_as(types, ty, h),
        ),
        Term::Structure(_) | Term::Union(_) => put_argument(alloc, made, number_as(types, ty, h)),
    }
}

// The argument of a parameter.
fn put_one(
    alloc: Global,
    trees: &Trees<'_>,
    offer: &Offer<'_>,
    e: u32,
    made: &mut Handing,
) -> Result<(), OutOfMemory>
    requires range { InRange (core_of trees.now) }
    requires before { ArePlaces trees.now.types.now offer.now.handed.now offer.now.kept.now }
    requires own { ArePlaces trees.now.types.now made.old.handed made.old.kept }
    ensures given { OnOk result (given_with offer.now.handed.now made.new
        ≡ given_one (core_of trees.now) offer.now.count offer.now.h (given_with offer.now.handed.now made.old) (ObjectKey.Entity e)) }
    ensures own { OnOk result (ArePlaces trees.now.types.now made.new.handed made.new.kept) }
{
    match trees.entities.get(e as usize) {
        Some(entity) => put_as(alloc, trees.types, offer, entity.ty, made),
        None => Ok(()),
    }
}

// The arguments of these parameters.
fn given_all(
    alloc: Global,
    trees: &Trees<'_>,
    offer: &Offer<'_>,
    parameters: &[u32],
) -> Result<Handing, OutOfMemory>
    requires range { InRange (core_of trees.now) }
    requires before { ArePlaces trees.now.types.now offer.now.handed.now offer.now.kept.now }
    ensures { IfOk result (λ made. given_with offer.now.handed.now made ≡ given_all (core_of trees.now) offer.now.count offer.now.h
        (record { fresh = []; handed = offer.now.handed.now; arguments = [] }) (map ObjectKey.Entity parameters.now)) }
{
    let mut made = Handing {
        fresh: Listing::new(alloc),
        handed: Listing::new(alloc),
        kept: no_places(alloc),
        arguments: Listing::new(alloc),
    };
    for e in parameters {
        put_one(alloc, trees, offer, *e, &mut made)?;
    }
    Ok(made)
}

// The arguments of these parameters by the number h, in a memory of so many instances. It reads what was handed over since the
// last time that an entry was entered.
fn given_by(
    running: &Running<'_>,
    kept: &mut HandedPlaces,
    handed: &[(TypeId, Cell)],
    count: usize,
    h: u64,
    parameters: &[u32],
) -> Result<Handing, OutOfMemory>
    requires running { IsRunning running.now }
    requires kept { AreRead running.now.trees.types.now handed.now kept.old }
    ensures made { IfOk result (λ made. given_with handed.now made ≡ given_all (core_of running.now.trees) count h
        (record { fresh = []; handed = handed.now; arguments = [] }) (map ObjectKey.Entity parameters.now)) }
    ensures kept { AreRead running.now.trees.types.now handed.now kept.new }
{
    read_on(kept, running.trees.types, handed)?;
    let offer = Offer {
        handed,
        kept,
        count,
        h,
    };
    given_all(running.alloc, &running.trees, &offer, parameters)
}

// More is handed over. At `Err` nothing has changed.
fn hand_over(
    alloc: Global,
    list: &mut Listing<(TypeId, Cell)>,
    more: Listing<(TypeId, Cell)>,
) -> Result<(), OutOfMemory>
    ensures ok { OnOk result (list.new ≡ list.old ++ more) }
    ensures err { OnErr result (list.new ≡ list.old) }
{
    let mut more = more.into_vec();
    let mut all = mem::replace(list, Listing::new(alloc)).into_vec();
    let done = all.append(&mut more);
    *list = Listing::of(all);
    match done {
        Ok(()) => Ok(()),
        Err(_) => Err(OutOfMemory),
    }
}

// So many stay handed over. It takes no memory.
fn take_back(alloc: Global, list: &mut Listing<(TypeId, Cell)>, count: usize)
    ensures { list.new ≡ take count list.old }
{
    let mut all = mem::replace(list, Listing::new(alloc)).into_vec();
    all.truncate(count);
    *list = Listing::of(all);
}

// A function is entered, and more is handed over. It gives the pointers that its parameters hold. At `Err` nothing has changed.
fn enter_handing(
    alloc: Global,
    state: &mut State,
    made: Activation,
    handed: Listing<(TypeId, Cell)>,
) -> Result<Listing<(Cell, Cell)>, OutOfMemory>
    ensures stores { IfOk result (λ stores. stores ≡ made.stores) }
    ensures ok { OnOk result (state.new ≡ record state.old {
      memory = state.old.memory ++ made.fresh;
      frames = made.frame ∷ state.old.frames;
      handed = state.old.handed ++ handed;
    }) }
    ensures err { OnErr result (state.new ≡ state.old) }
{
    let before = state.handed.len();
    hand_over(alloc, &mut state.handed, handed)?;
    match enter(&mut state.memory, &mut state.frames, made) {
        Ok(stores) => Ok(stores),
        Err(_) => {
            take_back(alloc, &mut state.handed, before);
            Err(OutOfMemory)
        }
    }
}

// A function is entered with what it is given. It gives the pointers that its parameters hold. At `Err` nothing has changed.
fn enter_given(
    running: &Running<'_>,
    state: &mut State,
    e: u32,
    given: Handing,
) -> Result<Listing<(Cell, Cell)>, MemFault>
    requires { IsRunning running.now }
    ensures row { Gives (λ stores. record state.new { notes = only stores }) result
        (entered_given (seen running.now) state.old e (given_with state.old.handed given)) }
    ensures err { OnErr result (state.new ≡ state.old) }
{
    let count = sum_of(state.memory.instances().len(), given.fresh.len())?;
    let Handing {
        fresh,
        handed,
        kept: _kept,
        arguments,
    } = given;
    let made = entered(running, count, main_entry(e), arguments.as_slice())?;
    let made = with_objects(made, fresh.into_vec())?;
    let stores = enter_handing(running.alloc, state, made, handed)?;
    Ok(stores)
}

// An entry is entered, with arguments by the number h. At `Err` nothing has changed, but that more may have been read of what was
// handed over.
fn enters_entry(
    running: &Running<'_>,
    kept: &mut HandedPlaces,
    state: &mut State,
    e: u32,
    h: u64,
) -> Result<Listing<(Cell, Cell)>, MemFault>
    requires running { IsRunning running.now }
    requires kept { AreRead running.now.trees.types.now state.old.handed kept.old }
    ensures row { Gives (λ stores. record state.new { notes = only stores }) result
        (enters_entry (seen running.now) state.old e h) }
    ensures err { OnErr result (state.new ≡ state.old) }
    ensures kept { AreRead running.now.trees.types.now state.old.handed kept.new }
{
    let count = state.memory.instances().len();
    let Some(parameters) = running.parameters.get(e as usize) else {
        return Err(MemFault::Stop(Reason::Mismatch));
    };
    let given = given_by(
        running,
        kept,
        state.handed.as_slice(),
        count,
        h,
        parameters.as_slice(),
    )?;
    enter_given(running, state, e, given)
}

// One of the entries is entered, or the program ends, as the word says. At `Err` nothing has changed, but that more may have been
// read of what was handed over.
fn enters_one(
    running: &Running<'_>,
    kept: &mut HandedPlaces,
    state: &mut State,
    word: u64,
) -> Result<Listing<(Cell, Cell)>, MemFault>
    requires running { IsRunning running.now }
    requires kept { AreRead running.now.trees.types.now state.old.handed kept.old }
    ensures row { Gives (λ stores. record state.new { notes = only stores }) result
        (enters_one (seen running.now) state.old running.now.entries.now word) }
    ensures err { OnErr result (state.new ≡ state.old) }
    ensures kept { AreRead running.now.trees.types.now state.old.handed kept.new }
{
    let count = running.entries.len() as u64;
    if count > u32::MAX as u64 {
        return Err(MemFault::OutOfMemory);
    }
    match running.entries.get((word % (count + 1)) as usize) {
        Some(e) => enters_entry(running, kept, state, *e, word / (count + 1)),
        None => {
            finish(running.alloc, state, 0, false);
            Ok(Listing::new(running.alloc))
        }
    }
}

/// A step without a frame, of a program that isn't at its end: it begins at main, or, where it has entries, one of them is
/// entered with arguments that the word chooses, or it ends with the status 0. It gives the pointers that an entry's parameters
/// hold. A program without main and entries is Mismatch. At `Err` nothing has changed. What is kept of the pointers that were
/// handed over stays right for what was handed over before the step; a step that enters an entry first reads what was handed over
/// since, and looks at no other of them than it chooses.
#[tactic(auto, unfolding(crate::specs::Entries::starts))]
pub fn starts(
    running: &Running<'_>,
    types: LibraryTypes,
    kept: &mut HandedPlaces,
    state: &mut State,
    word: u64,
) -> Result<Listing<(Cell, Cell)>, MemFault>
    requires running { IsRunning running.now }
    requires types { types ≡ library_ids running.now.characters.0 }
    requires kept { AreRead running.now.trees.types.now state.old.handed kept.old }
    ensures row { Gives (λ stores. record state.new { notes = only stores }) result (starts (seen running.now) state.old word) }
    ensures err { OnErr result (state.new ≡ state.old) }
    ensures kept { AreRead running.now.trees.types.now state.old.handed kept.new }
{
    match running.entries {
        [] => {
            begin(running, types, state, word)?;
            Ok(Listing::new(running.alloc))
        }
        [_, ..] => enters_one(running, kept, state, word),
    }
}
