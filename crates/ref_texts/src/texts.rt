// The functions that read and write characters.

ghost use Rattle.std.specs.Prelude.{◌≡◌, ◌<◌, false, IfOk, OnErr, length};
ghost use Rattle.c_types.specs.Table.{type_of};
ghost use Rattle.ref_cells.specs.Answers.{Gives};
ghost use Rattle.ref_cells.specs.Places.{AreKnown};
ghost use Rattle.ref_elements.specs.Arguments.{argument};
ghost use Rattle.ref_elements.specs.Outcomes.{gives, start_value};
ghost use Rattle.ref_elements.specs.Objects.{with_new};
ghost use Rattle.ref_texts.specs.Texts.{length_row, compare_row, compare_part_row, copy_text_row, add_text_row};
ghost use Rattle.ref_texts.specs.Texts.{copy_part_row, duplicated, duplicate_row, print_row, print_part_row, line_row};
ghost use Rattle.ref_texts.specs.Texts.{block_row, block_of, blocks_in};

use crate::reading::{compared_at, compared_part, part_at, text_at};
use crate::writing::{close, text_cells, text_of, text_part, writes, writes_padded};
use c_types::key::ObjectKey;
use c_types::table::TypeTable;
use c_types::term::{OutOfMemory, TypeId};
use ref_cells::cells::{Cells, MemFault, Value};
use ref_elements::arguments::{count, scalar};
use ref_elements::objects::{is_odd, next_number};
use ref_elements::outcome::{LibOutcome, gives, null_value, number_value, start_value};
use ref_mem::memory::Memory;
use std::alloc::Global;

/// `strlen`: the number of characters before the zero (C11 7.24.6.3).
pub fn length_row(
    alloc: Global,
    memory: &Memory,
    types: &TypeTable,
    result_type: TypeId,
    arguments: &[Value],
) -> Result<LibOutcome, MemFault>
    requires memory { AreKnown (length types.now.terms) memory.now }
    requires ty { result_type.0 < length types.now.terms }
    ensures { Gives (λ o. record { memory = memory.now; outcome = o }) result
        (length_row types.now memory.now (type_of types.now result_type.0) (argument arguments.now 0)) }
{
    let place = scalar(alloc, arguments, 0)?;
    let text = text_at(alloc, memory, types, &place)?;
    let n = text.len() as u64;
    let value = number_value(alloc, types, result_type, i128::from(n))?;
    Ok(gives(alloc, value))
}

/// `strcmp`: -1, 0 or 1 by the first unsigned characters that differ (C11 7.24.4.2).
pub fn compare_row(
    alloc: Global,
    memory: &Memory,
    types: &TypeTable,
    result_type: TypeId,
    arguments: &[Value],
) -> Result<LibOutcome, MemFault>
    requires memory { AreKnown (length types.now.terms) memory.now }
    requires ty { result_type.0 < length types.now.terms }
    ensures { Gives (λ o. record { memory = memory.now; outcome = o }) result
        (compare_row types.now memory.now (type_of types.now result_type.0) (argument arguments.now 0) (argument arguments.now 1)) }
{
    let left = scalar(alloc, arguments, 0)?;
    let right = scalar(alloc, arguments, 1)?;
    let n = compared_at(alloc, memory, types, &left, &right)?;
    let value = number_value(alloc, types, result_type, n)?;
    Ok(gives(alloc, value))
}

/// `strncmp`: the same over so many characters (C11 7.24.4.4).
pub fn compare_part_row(
    alloc: Global,
    memory: &Memory,
    types: &TypeTable,
    result_type: TypeId,
    arguments: &[Value],
) -> Result<LibOutcome, MemFault>
    requires memory { AreKnown (length types.now.terms) memory.now }
    requires ty { result_type.0 < length types.now.terms }
    ensures { Gives (λ o. record { memory = memory.now; outcome = o }) result
        (compare_part_row types.now memory.now (type_of types.now result_type.0) (argument arguments.now 0) (argument arguments.now 1)
        (argument arguments.now 2)) }
{
    let left = scalar(alloc, arguments, 0)?;
    let right = scalar(alloc, arguments, 1)?;
    let n = compared_part(alloc, memory, types, &left, &right, count(arguments, 2))?;
    let value = number_value(alloc, types, result_type, n)?;
    Ok(gives(alloc, value))
}

/// `strcpy`: the second argument's text with its zero at the first (C11 7.24.2.3). A refusal leaves the memory as it was.
pub fn copy_text_row(
    alloc: Global,
    memory: &mut Memory,
    types: &TypeTable,
    arguments: &[Value],
) -> Result<LibOutcome, MemFault>
    requires { AreKnown (length types.now.terms) memory.old }
    ensures value { Gives (λ o. record { memory = memory.new; outcome = o }) result
        (copy_text_row types.now memory.old (argument arguments.now 0) (argument arguments.now 1)) }
    ensures err { OnErr result (memory.new ≡ memory.old) }
{
    let place = scalar(alloc, arguments, 0)?;
    let from = scalar(alloc, arguments, 1)?;
    let mut text = text_at(alloc, memory, types, &from)?;
    close(&mut text)?;
    let value = Value::one(alloc, place.copy(alloc)?)?;
    writes(alloc, memory, types, &place, 0, text.as_slice(), value)
}

/// `strcat`: the same from the first argument's zero on (C11 7.24.3.1). A refusal leaves the memory as it was.
pub fn add_text_row(
    alloc: Global,
    memory: &mut Memory,
    types: &TypeTable,
    arguments: &[Value],
) -> Result<LibOutcome, MemFault>
    requires { AreKnown (length types.now.terms) memory.old }
    ensures value { Gives (λ o. record { memory = memory.new; outcome = o }) result
        (add_text_row types.now memory.old (argument arguments.now 0) (argument arguments.now 1)) }
    ensures err { OnErr result (memory.new ≡ memory.old) }
{
    let place = scalar(alloc, arguments, 0)?;
    let from = scalar(alloc, arguments, 1)?;
    let front = text_at(alloc, memory, types, &place)?;
    let mut text = text_at(alloc, memory, types, &from)?;
    close(&mut text)?;
    let value = Value::one(alloc, place.copy(alloc)?)?;
    let k = front.len() as u64;
    writes(alloc, memory, types, &place, k, text.as_slice(), value)
}

/// `strncpy`: so many characters, zeros behind the text (C11 7.24.2.4). A refusal leaves the memory as it was.
pub fn copy_part_row(
    alloc: Global,
    memory: &mut Memory,
    types: &TypeTable,
    arguments: &[Value],
) -> Result<LibOutcome, MemFault>
    requires { AreKnown (length types.now.terms) memory.old }
    ensures value { Gives (λ o. record { memory = memory.new; outcome = o }) result
        (copy_part_row types.now memory.old (argument arguments.now 0) (argument arguments.now 1) (argument arguments.now 2)) }
    ensures err { OnErr result (memory.new ≡ memory.old) }
{
    let place = scalar(alloc, arguments, 0)?;
    let from = scalar(alloc, arguments, 1)?;
    let n = count(arguments, 2);
    let text = part_at(alloc, memory, types, &from, n)?;
    let value = Value::one(alloc, place.copy(alloc)?)?;
    writes_padded(alloc, memory, types, &place, n, text.as_slice(), value)
}

// A new object with these cells.
fn hold(
    alloc: Global,
    memory: &mut Memory,
    fresh: (ObjectKey, Option<TypeId>),
    bytes: u64,
    cells: Cells,
) -> Result<LibOutcome, MemFault>
    ensures value { Gives (λ o. record { memory = memory.new; outcome = o }) result
        (gives (with_new memory.old fresh.0 fresh.1 bytes false cells) (start_value (length memory.old))) }
    ensures err { OnErr result (memory.new ≡ memory.old) }
{
    let value = start_value(alloc, next_number(memory)?)?;
    memory.make_with(fresh.0, fresh.1, bytes, cells)?;
    Ok(gives(alloc, value))
}

// A new object that holds a text.
fn duplicate(
    alloc: Global,
    memory: &mut Memory,
    types: &TypeTable,
    fresh: (ObjectKey, Option<TypeId>),
    arguments: &[Value],
) -> Result<LibOutcome, MemFault>
    requires { AreKnown (length types.now.terms) memory.old }
    ensures value { Gives (λ o. record { memory = memory.new; outcome = o }) result
        (duplicated types.now memory.old fresh.0 fresh.1 (argument arguments.now 0)) }
    ensures err { OnErr result (memory.new ≡ memory.old) }
{
    let from = scalar(alloc, arguments, 0)?;
    let mut text = text_at(alloc, memory, types, &from)?;
    let length = text.len() as u64;
    let bytes = length.checked_add(1).ok_or(OutOfMemory)?;
    close(&mut text)?;
    let cells = text_cells(alloc, text.as_slice())?;
    hold(alloc, memory, fresh, bytes, cells)
}

/// `strdup`: a new object with the argument's text, or null for an odd word. A refusal leaves the memory as it was.
pub fn duplicate_row(
    alloc: Global,
    memory: &mut Memory,
    types: &TypeTable,
    fresh: (ObjectKey, Option<TypeId>),
    word: u64,
    arguments: &[Value],
) -> Result<LibOutcome, MemFault>
    requires { AreKnown (length types.now.terms) memory.old }
    ensures value { Gives (λ o. record { memory = memory.new; outcome = o }) result
        (duplicate_row types.now memory.old fresh.0 fresh.1 word (argument arguments.now 0)) }
    ensures err { OnErr result (memory.new ≡ memory.old) }
{
    if is_odd(word) {
        let value = null_value(alloc)?;
        return Ok(gives(alloc, value));
    }
    duplicate(alloc, memory, types, fresh, arguments)
}

/// `sprintf`: the word's text at the first argument, and its number (C11 7.21.6.6). A refusal leaves the memory as it was.
pub fn print_row(
    alloc: Global,
    memory: &mut Memory,
    types: &TypeTable,
    result_type: TypeId,
    word: u64,
    arguments: &[Value],
) -> Result<LibOutcome, MemFault>
    requires memory { AreKnown (length types.now.terms) memory.old }
    requires ty { result_type.0 < length types.now.terms }
    ensures value { Gives (λ o. record { memory = memory.new; outcome = o }) result
        (print_row types.now memory.old (type_of types.now result_type.0) word (argument arguments.now 0)) }
    ensures err { OnErr result (memory.new ≡ memory.old) }
{
    let place = scalar(alloc, arguments, 0)?;
    let mut text = text_of(alloc, word)?;
    close(&mut text)?;
    let value = number_value(alloc, types, result_type, i128::from(word))?;
    writes(alloc, memory, types, &place, 0, text.as_slice(), value)
}

/// `snprintf`: the same of less characters than the second argument says, none where it is 0 (C11 7.21.6.5). A refusal leaves
/// the memory as it was.
pub fn print_part_row(
    alloc: Global,
    memory: &mut Memory,
    types: &TypeTable,
    result_type: TypeId,
    word: u64,
    arguments: &[Value],
) -> Result<LibOutcome, MemFault>
    requires memory { AreKnown (length types.now.terms) memory.old }
    requires ty { result_type.0 < length types.now.terms }
    ensures value { Gives (λ o. record { memory = memory.new; outcome = o }) result
        (print_part_row types.now memory.old (type_of types.now result_type.0) word (argument arguments.now 0) (argument arguments.now 1)) }
    ensures err { OnErr result (memory.new ≡ memory.old) }
{
    let n = count(arguments, 1);
    let value = number_value(alloc, types, result_type, i128::from(word))?;
    if n == 0 {
        return Ok(gives(alloc, value));
    }
    let place = scalar(alloc, arguments, 0)?;
    let mut text = text_part(alloc, word, n - 1)?;
    close(&mut text)?;
    writes(alloc, memory, types, &place, 0, text.as_slice(), value)
}

/// `fgets`: null for the word 0, else its text of less characters than the second argument says (of none where that is 0) at
/// the first, which it gives (C11 7.21.7.2). A refusal leaves the memory as it was.
pub fn line_row(
    alloc: Global,
    memory: &mut Memory,
    types: &TypeTable,
    word: u64,
    arguments: &[Value],
) -> Result<LibOutcome, MemFault>
    requires { AreKnown (length types.now.terms) memory.old }
    ensures value { Gives (λ o. record { memory = memory.new; outcome = o }) result
        (line_row types.now memory.old word (argument arguments.now 0) (argument arguments.now 1)) }
    ensures err { OnErr result (memory.new ≡ memory.old) }
{
    if word == 0 {
        let value = null_value(alloc)?;
        return Ok(gives(alloc, value));
    }
    let place = scalar(alloc, arguments, 0)?;
    let mut text = text_part(alloc, word, count(arguments, 1).saturating_sub(1))?;
    close(&mut text)?;
    let value = Value::one(alloc, place.copy(alloc)?)?;
    writes(alloc, memory, types, &place, 0, text.as_slice(), value)
}

// The word's text without its zero, at most so many elements of a size.
fn block_of(alloc: Global, word: u64, size: u64, n: u64) -> Result<Vec<i128>, OutOfMemory>
    ensures { IfOk result (λ text. text.items ≡ block_of word size n) }
{
    text_part(alloc, word, size.wrapping_mul(n))
}

// How many elements of a size a text is.
fn blocks_in(size: u64, text: &[i128]) -> u64
    ensures { result ≡ blocks_in size text.now }
{
    let n = text.len() as u64;
    if size == 0 { 0 } else { n / size }
}

/// `fread`: the word's text without its zero, at most so many elements, at the first argument; gives how many elements it is
/// (C11 7.21.8.1). A refusal leaves the memory as it was.
pub fn block_row(
    alloc: Global,
    memory: &mut Memory,
    types: &TypeTable,
    result_type: TypeId,
    word: u64,
    arguments: &[Value],
) -> Result<LibOutcome, MemFault>
    requires memory { AreKnown (length types.now.terms) memory.old }
    requires ty { result_type.0 < length types.now.terms }
    ensures value { Gives (λ o. record { memory = memory.new; outcome = o }) result
        (block_row types.now memory.old (type_of types.now result_type.0) word (argument arguments.now 0) (argument arguments.now 1)
        (argument arguments.now 2)) }
    ensures err { OnErr result (memory.new ≡ memory.old) }
{
    let place = scalar(alloc, arguments, 0)?;
    let size = count(arguments, 1);
    let text = block_of(alloc, word, size, count(arguments, 2))?;
    let n = blocks_in(size, text.as_slice());
    let value = number_value(alloc, types, result_type, i128::from(n))?;
    writes(alloc, memory, types, &place, 0, text.as_slice(), value)
}
