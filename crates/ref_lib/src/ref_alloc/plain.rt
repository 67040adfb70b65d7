// The functions that look at no object.

ghost use Rattle.std.specs.Prelude.{◌≡◌, ◌<◌, IfOk, Ok, true, length, List};
ghost use Rattle.c_types.specs.Trees.{IntegerType};
ghost use Rattle.ref_cells.specs.Numbers.{converted};
ghost use Rattle.c_types.specs.Table.{type_of};
ghost use Rattle.ref_cells.specs.Answers.{Gives};
ghost use Rattle.ref_cells.specs.declared.instance.Instance.{Instance};
ghost use Rattle.ref_elements.specs.Arguments.{argument};
ghost use Rattle.ref_lib.specs.ref_alloc.Plain.{is_in, is_between, upper_of, lower_of, number_row, byte_row, class_row};
ghost use Rattle.ref_lib.specs.ref_alloc.Plain.{upper_row, lower_row, keep_row, exit_row, abort_row};

use c_types::table::TypeTable;
use c_types::term::{OutOfMemory, TypeId};
use ref_cells::cells::{Cell, MemFault, Reason, Value};
use ref_elements::arguments::{argument, number};
use ref_elements::outcome::{LibOutcome, Next, gives, goes, number_value};
use std::alloc::Global;

/// A class of characters (C11 7.4.1).
#[derive(Clone, Copy)]
pub enum Class {
    Alpha,
    Digit,
    Alnum,
    Space,
    Upper,
    Lower,
}

fn is_between(low: u8, high: u8, n: i128) -> bool
    ensures { result ≡ is_between low high n }
{
    i128::from(low) <= n && n <= i128::from(high)
}

fn is_in(class: Class, n: i128) -> bool
    ensures { result ≡ is_in class n }
{
    match class {
        Class::Upper => is_between(65, 90, n),
        Class::Lower => is_between(97, 122, n),
        Class::Digit => is_between(48, 57, n),
        Class::Space => n == 32 || is_between(9, 13, n),
        Class::Alpha => is_between(65, 90, n) || is_between(97, 122, n),
        Class::Alnum => is_between(65, 90, n) || is_between(97, 122, n) || is_between(48, 57, n),
    }
}

/// The word's low bits in the result's type.
pub fn number_row(
    alloc: Global,
    types: &TypeTable,
    result_type: TypeId,
    word: u64,
) -> Result<LibOutcome, OutOfMemory>
    requires { result_type.0 < length types.now.terms }
    ensures { IfOk result (λ o.
        (memory : List Instance) →
        number_row memory (type_of types.now result_type.0) word ≡ Ok (record { memory = memory; outcome = o })) }
{
    let value = number_value(alloc, types, result_type, i128::from(word))?;
    Ok(gives(alloc, value))
}

/// -1 for the word 0, else its low 8 bits.
pub fn byte_row(
    alloc: Global,
    types: &TypeTable,
    result_type: TypeId,
    word: u64,
) -> Result<LibOutcome, OutOfMemory>
    requires { result_type.0 < length types.now.terms }
    ensures { IfOk result (λ o.
        (memory : List Instance) →
        byte_row memory (type_of types.now result_type.0) word ≡ Ok (record { memory = memory; outcome = o })) }
{
    let byte = if word == 0 {
        -1
    } else {
        i128::from(word % 256)
    };
    let value = number_value(alloc, types, result_type, byte)?;
    Ok(gives(alloc, value))
}

/// Whether the argument is in a class.
pub fn class_row(
    alloc: Global,
    types: &TypeTable,
    result_type: TypeId,
    class: Class,
    arguments: &[Value],
) -> Result<LibOutcome, OutOfMemory>
    requires { result_type.0 < length types.now.terms }
    ensures { IfOk result (λ o.
        (memory : List Instance) →
        class_row class memory (type_of types.now result_type.0) (argument arguments.now 0)
        ≡ Ok (record { memory = memory; outcome = o })) }
{
    let n = if is_in(class, number(arguments, 0)) {
        1
    } else {
        0
    };
    let value = number_value(alloc, types, result_type, n)?;
    Ok(gives(alloc, value))
}

fn upper_of(n: i128) -> i128
    ensures { result ≡ upper_of n }
{
    if is_between(97, 122, n) { n - 32 } else { n }
}

fn lower_of(n: i128) -> i128
    ensures { result ≡ lower_of n }
{
    if is_between(65, 90, n) { n + 32 } else { n }
}

/// The capital of the argument.
pub fn upper_row(
    alloc: Global,
    types: &TypeTable,
    result_type: TypeId,
    arguments: &[Value],
) -> Result<LibOutcome, OutOfMemory>
    requires { result_type.0 < length types.now.terms }
    ensures { IfOk result (λ o.
        (memory : List Instance) →
        upper_row memory (type_of types.now result_type.0) (argument arguments.now 0)
        ≡ Ok (record { memory = memory; outcome = o })) }
{
    let value = number_value(alloc, types, result_type, upper_of(number(arguments, 0)))?;
    Ok(gives(alloc, value))
}

/// The small letter of the argument.
pub fn lower_row(
    alloc: Global,
    types: &TypeTable,
    result_type: TypeId,
    arguments: &[Value],
) -> Result<LibOutcome, OutOfMemory>
    requires { result_type.0 < length types.now.terms }
    ensures { IfOk result (λ o.
        (memory : List Instance) →
        lower_row memory (type_of types.now result_type.0) (argument arguments.now 0)
        ≡ Ok (record { memory = memory; outcome = o })) }
{
    let value = number_value(alloc, types, result_type, lower_of(number(arguments, 0)))?;
    Ok(gives(alloc, value))
}

/// Keeps a function for the end of the program.
pub fn keep_row(
    alloc: Global,
    types: &TypeTable,
    result_type: TypeId,
    arguments: &[Value],
) -> Result<LibOutcome, MemFault>
    requires { result_type.0 < length types.now.terms }
    ensures { (memory : List Instance) →
        Gives (λ o. record { memory = memory; outcome = o }) result
        (keep_row memory (type_of types.now result_type.0) (argument arguments.now 0)) }
{
    match argument(arguments, 0) {
        Some(Cell::Null) => Err(MemFault::Stop(Reason::NullUse)),
        Some(Cell::Function(key)) => {
            let value = number_value(alloc, types, result_type, 0)?;
            Ok(goes(alloc, value, Next::Keeps(Cell::Function(*key))))
        }
        _ => Err(MemFault::Stop(Reason::BadCall)),
    }
}

/// Ends the program with the argument.
pub fn exit_row(alloc: Global, arguments: &[Value]) -> LibOutcome
    ensures { (memory : List Instance) →
        exit_row memory (argument arguments.now 0) ≡ Ok (record { memory = memory; outcome = result }) }
{
    let next = Next::Ends {
        status: int_of(number(arguments, 0)),
        at_once: false,
    };
    goes(alloc, Value::none(alloc), next)
}

// A number as an `int`.
fn int_of(n: i128) -> i32
    ensures { result ≡ converted (IntegerType 4 4 true) n }
{
    let low = n.rem_euclid(4294967296);
    if low < 2147483648 {
        low as i32
    } else {
        (low - 4294967296) as i32
    }
}

/// Ends the program at once.
pub fn abort_row(alloc: Global) -> LibOutcome
    ensures { (memory : List Instance) → abort_row memory ≡ Ok (record { memory = memory; outcome = result }) }
{
    let next = Next::Ends {
        status: 134,
        at_once: true,
    };
    goes(alloc, Value::none(alloc), next)
}
