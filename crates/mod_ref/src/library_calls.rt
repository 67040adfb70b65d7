//! What calls of the library read and write.
ghost use Rattle.std.specs.Prelude.{◌≡◌, ◌↔◌, ◌<◌, ℕ, All, IsSome, IsTrue, OnOk, MatchOption, Contains, length, slice_get};
ghost use Rattle.sol_model.specs.declared.system.Function.{Function};
ghost use Rattle.sol_model.specs.Families.{members};
ghost use Rattle.sol_model.specs.Systems.{IsValid, IsCallValid, IsLocation, IsRow};
ghost use Rattle.obj_space.specs.View.{view_of};
ghost use Rattle.mod_ref.specs.Direct.{CallTouches, CallsTouch, IsClassTable, IsInArguments, IsMade};
ghost use Rattle.mod_ref.specs.Gains.{Gains, HasRowsFor, In, IsLibraryAt, IsMadeAt};
ghost use Rattle.mod_ref.specs.Ground.{IsGround, setting_in};
ghost use Rattle.mod_ref.specs.Places.{IsReachedBy, IsUnder};

use crate::access::{Access, is_write};
use crate::ground::Ground;
use crate::inserting::{insert, insert_by, insert_under};
use crate::spreading::either;
use c_types::key::ObjectKey;
use call_graph::row_members::members_of;
use pta_base::OutOfMemory;
use sol_model::locations::location_fact;
use sol_model::sites::{call_at, function_at, row_at, rows_at};
use sol_model::{CallSite, Rows, System};
use std::alloc::Global;

/// Whether a function is one of the library, of the signature of the call.
fn is_library(system: &System, call: &CallSite, number: u32) -> bool
    requires valid { IsValid system.now }
    requires number { number < length system.now.functions }
    ensures { (function : Function) → slice_get system.now.functions number ≡ Some function →
        IsTrue result ↔ ((function.signature ≡ call.now.signature) × IsSome function.library) }
{
    let function = function_at(system, number as usize);
    function.signature == call.signature && function.library.is_some()
}

/// The number of the library function at a location, where there is one of the signature of the call.
fn library_at(system: &System, call: &CallSite, location: u32) -> Option<u32>
    requires valid { IsValid system.now }
    requires location { IsLocation system.now location }
    ensures { MatchOption result ((number : ℕ) (function : Function) → IsLibraryAt system.now call.now location number function → ⊥)
        (λ number. (function : Function) × IsLibraryAt system.now call.now location number function) }
{
    let Some(number) = location_fact(system, location).function else {
        return None;
    };
    if is_library(system, call, number) {
        Some(number)
    } else {
        None
    }
}

/// Adds what the locations of the rows of an argument lead to.
fn insert_rows(
    alloc: Global,
    ground: &Ground<'_>,
    list: &[u32],
    touched: &mut Rows,
    row: u32,
) -> Result<(), OutOfMemory>
    requires ground { IsGround ground.now }
    requires list { All (IsRow ground.now.system.now) list.now }
    requires rows { HasRowsFor ground.now.system.now touched.old }
    requires row { row < length ground.now.system.now.functions }
    ensures gains { OnOk result (Gains touched.old touched.new (In row (λ location.
        (from : ℕ) × Contains list.now from × IsReachedBy ground.now.system.now (members ground.now.rows.now) None from location))) }
    ensures rows { HasRowsFor ground.now.system.now touched.new }
{
    for i in 0..list.len() {
        let from = row_at(ground.system, list, i);
        insert_by(alloc, ground.system, ground.rows, touched, row, None, from)?;
    }
    Ok(())
}

/// Adds what the arguments of a call lead to.
fn insert_arguments(
    alloc: Global,
    ground: &Ground<'_>,
    call: &CallSite,
    touched: &mut Rows,
    row: u32,
) -> Result<(), OutOfMemory>
    requires ground { IsGround ground.now }
    requires call { IsCallValid ground.now.system.now call.now }
    requires rows { HasRowsFor ground.now.system.now touched.old }
    requires row { row < length ground.now.system.now.functions }
    ensures gains { OnOk result
        (Gains touched.old touched.new (In row (IsInArguments ground.now.system.now (members ground.now.rows.now) call.now))) }
    ensures rows { HasRowsFor ground.now.system.now touched.new }
{
    let arguments = call.arguments.as_slice();
    for i in 0..arguments.len() {
        let list = rows_at(ground.system, arguments, i);
        insert_rows(alloc, ground, list, touched, row)?;
    }
    Ok(())
}

/// Adds the nodes of an object that a call gets, where it is from the library function of this number.
fn insert_pair(system: &System, pair: (u32, u32), number: u32, touched: &mut Rows, row: u32)
    requires valid { IsValid system.now }
    requires object { IsLocation system.now pair.1 }
    requires rows { HasRowsFor system.now touched.old }
    requires row { row < length system.now.functions }
    ensures gains { Gains touched.old touched.new (In row (λ location. (pair.0 ≡ number) × IsUnder system.now pair.1 location)) }
    ensures rows { HasRowsFor system.now touched.new }
{
    if pair.0 == number {
        insert_under(system, touched, row, pair.1);
    }
}

/// Adds the nodes of the object that a call gets from the library function of this number.
fn insert_fresh(system: &System, call: &CallSite, number: u32, touched: &mut Rows, row: u32)
    requires valid { IsValid system.now }
    requires call { IsCallValid system.now call.now }
    requires rows { HasRowsFor system.now touched.old }
    requires row { row < length system.now.functions }
    ensures gains { Gains touched.old touched.new (In row (λ location.
        (object : ℕ) × Contains call.now.fresh (number, object) × IsUnder system.now object location)) }
    ensures rows { HasRowsFor system.now touched.new }
{
    let fresh = call.fresh.as_slice();
    for i in 0..fresh.len() {
        insert_pair(system, fresh[i], number, touched, row);
    }
}

/// Adds the table of the classes of characters, where the library function with this number among the library's names makes it.
fn insert_table(ground: &Ground<'_>, library: Option<u32>, touched: &mut Rows, row: u32)
    requires ground { IsGround ground.now }
    requires rows { HasRowsFor ground.now.system.now touched.old }
    requires row { row < length ground.now.system.now.functions }
    ensures gains { Gains touched.old touched.new (In row (IsClassTable (view_of ground.now.space.now) library)) }
    ensures rows { HasRowsFor ground.now.system.now touched.new }
{
    if library != Some(53) {
        return;
    }
    if let Some(table) = ground.space.first(ObjectKey::Library(8)) {
        insert(ground.system, touched, row, table);
    }
}

/// Adds what a call is given by the library function of this number.
fn insert_made(ground: &Ground<'_>, call: &CallSite, number: u32, touched: &mut Rows, row: u32)
    requires ground { IsGround ground.now }
    requires call { IsCallValid ground.now.system.now call.now }
    requires number { number < length ground.now.system.now.functions }
    requires rows { HasRowsFor ground.now.system.now touched.old }
    requires row { row < length ground.now.system.now.functions }
    ensures gains { (function : Function) → slice_get ground.now.system.now.functions number ≡ Some function →
        Gains touched.old touched.new (In row (IsMade (view_of ground.now.space.now) ground.now.system.now call.now number function)) }
    ensures rows { HasRowsFor ground.now.system.now touched.new }
{
    insert_fresh(ground.system, call, number, touched, row);
    let function = function_at(ground.system, number as usize);
    insert_table(ground, function.library, touched, row);
}

/// Adds what a call is given by the library function at a location, where writes are asked for. Whether there is one.
fn insert_at(
    ground: &Ground<'_>,
    access: Access,
    call: &CallSite,
    location: u32,
    touched: &mut Rows,
    row: u32,
) -> bool
    requires ground { IsGround ground.now }
    requires call { IsCallValid ground.now.system.now call.now }
    requires location { IsLocation ground.now.system.now location }
    requires rows { HasRowsFor ground.now.system.now touched.old }
    requires row { row < length ground.now.system.now.functions }
    ensures found { IsTrue result ↔ ((number : ℕ) × (function : Function) × IsLibraryAt ground.now.system.now call.now location number function) }
    ensures gains { Gains touched.old touched.new
        (In row (IsMadeAt (view_of ground.now.space.now) ground.now.system.now access call.now location)) }
    ensures rows { HasRowsFor ground.now.system.now touched.new }
{
    let Some(number) = library_at(ground.system, call, location) else {
        return false;
    };
    if is_write(access) {
        insert_made(ground, call, number, touched, row);
    }
    true
}

/// Adds what a call is given by the library functions at these locations, where writes are asked for. Whether there is one.
fn add_made(
    ground: &Ground<'_>,
    access: Access,
    call: &CallSite,
    held: &[u32],
    touched: &mut Rows,
    row: u32,
) -> bool
    requires ground { IsGround ground.now }
    requires call { IsCallValid ground.now.system.now call.now }
    requires held { All (IsLocation ground.now.system.now) held.now }
    requires rows { HasRowsFor ground.now.system.now touched.old }
    requires row { row < length ground.now.system.now.functions }
    ensures found { IsTrue result
        ↔ ((at : ℕ) × Contains held.now at
        × ((number : ℕ) × (function : Function) × IsLibraryAt ground.now.system.now call.now at number function)) }
    ensures gains { Gains touched.old touched.new (In row (λ location. (at : ℕ) × Contains held.now at
        × IsMadeAt (view_of ground.now.space.now) ground.now.system.now access call.now at location)) }
    ensures rows { HasRowsFor ground.now.system.now touched.new }
{
    let mut found = false;
    for i in 0..held.len() {
        let one = insert_at(ground, access, call, held[i], touched, row);
        found = either(found, one);
    }
    found
}

/// Adds what a call of the library reads or writes, to the row of the function that has it.
fn add_call(
    alloc: Global,
    ground: &Ground<'_>,
    access: Access,
    call: &CallSite,
    touched: &mut Rows,
) -> Result<(), OutOfMemory>
    requires ground { IsGround ground.now }
    requires call { IsCallValid ground.now.system.now call.now }
    requires rows { HasRowsFor ground.now.system.now touched.old }
    ensures gains { OnOk result (Gains touched.old touched.new (In call.now.caller
        (CallTouches (view_of ground.now.space.now) ground.now.system.now (members ground.now.rows.now) access call.now))) }
    ensures rows { HasRowsFor ground.now.system.now touched.new }
{
    let held = members_of(alloc, ground.system, ground.rows, call.callee)?;
    let found = add_made(ground, access, call, held.as_slice(), touched, call.caller);
    if !found {
        return Ok(());
    }
    insert_arguments(alloc, ground, call, touched, call.caller)?;
    Ok(())
}

/// Adds what all calls of the library read or write, to the rows of the functions that have them.
pub(crate) fn add_calls(
    alloc: Global,
    ground: &Ground<'_>,
    access: Access,
    touched: &mut Rows,
) -> Result<(), OutOfMemory>
    requires ground { IsGround ground.now }
    requires rows { HasRowsFor ground.now.system.now touched.old }
    ensures gains { OnOk result
        (Gains touched.old touched.new
        (CallsTouch (setting_in ground.now) ground.now.system.now (members ground.now.rows.now) access)) }
    ensures rows { HasRowsFor ground.now.system.now touched.new }
{
    for i in 0..ground.system.calls.len() {
        add_call(alloc, ground, access, call_at(ground.system, i), touched)?;
    }
    Ok(())
}
