// The library's functions.

ghost use Rattle.std.specs.Prelude.{◌≡◌, ◌<◌, List, OnErr, length};
ghost use Rattle.c_types.specs.Table.{type_of};
ghost use Rattle.ref_cells.specs.Answers.{Gives};
ghost use Rattle.ref_cells.specs.Places.{IsKnown, AreKnown};
ghost use Rattle.ref_cells.specs.declared.instance.Instance.{Instance};
ghost use Rattle.ref_lib.specs.Effects.{makes, moves, spells, answers, row_effect, effect};

use crate::ref_alloc::allocation::{
    calloc_row, ctype_row, free_row, malloc_row, object_row, perhaps_row, place_row, realloc_row,
};
use crate::ref_alloc::plain::{
    abort_row, byte_row, class_row, exit_row, keep_row, lower_row, number_row, upper_row,
};
use crate::rows::{Elements, Making, Plain, Row, Texts, row_of};
use c_types::key::ObjectKey;
use c_types::table::TypeTable;
use c_types::term::TypeId;
use ref_cells::cells::{MemFault, Reason, Value};
use ref_copies::copies::copy_row;
use ref_copies::sets::set_row;
use ref_copies::turns::{find_row, search_row, sort_row, strtol_row};
use ref_elements::outcome::LibOutcome;
use ref_mem::memory::Memory;
use ref_texts::texts::{
    add_text_row, block_row, compare_part_row, compare_row, copy_part_row, copy_text_row,
    duplicate_row, length_row, line_row, print_part_row, print_row,
};
use std::alloc::Global;

// The effect of a row that makes objects, ends them or names one of the library's.
fn makes(
    alloc: Global,
    memory: &mut Memory,
    types: &TypeTable,
    row: Making,
    fresh: (ObjectKey, Option<TypeId>),
    arguments: &[Value],
    word: u64,
) -> Result<LibOutcome, MemFault>
    requires memory { AreKnown (length types.now.terms) memory.old }
    requires fixed { IsKnown (length types.now.terms) fresh.1 }
    ensures value { Gives (λ o. record { memory = memory.new; outcome = o }) result
        (makes types.now memory.old row fresh.0 fresh.1 arguments.now word) }
    ensures err { OnErr result (memory.new ≡ memory.old) }
{
    match row {
        Making::Malloc => malloc_row(alloc, memory, types, fresh.0, word, arguments),
        Making::Calloc => calloc_row(alloc, memory, types, fresh.0, word, arguments),
        Making::Realloc => realloc_row(alloc, memory, types, fresh, word, arguments),
        Making::Free => free_row(alloc, memory, arguments),
        Making::Perhaps(position) => perhaps_row(alloc, memory, position, word),
        Making::Object(position) => object_row(alloc, memory, position),
        Making::Place(position) => place_row(alloc, memory, position),
        Making::Classes => ctype_row(alloc, memory, types, word),
    }
}

// The effect of a row over whole elements.
fn moves(
    alloc: Global,
    memory: &mut Memory,
    types: &TypeTable,
    row: Elements,
    result_type: TypeId,
    arguments: &[Value],
    word: u64,
) -> Result<LibOutcome, MemFault>
    requires memory { AreKnown (length types.now.terms) memory.old }
    requires ty { result_type.0 < length types.now.terms }
    ensures value { Gives (λ o. record { memory = memory.new; outcome = o }) result
        (moves types.now memory.old row (type_of types.now result_type.0) arguments.now word) }
    ensures err { OnErr result (memory.new ≡ memory.old) }
{
    match row {
        Elements::CopyBytes => copy_row(alloc, memory, types, arguments),
        Elements::SetBytes => set_row(alloc, memory, types, arguments),
        Elements::Search => search_row(alloc, memory, types, word, arguments),
        Elements::Strtol => strtol_row(alloc, memory, types, result_type, word, arguments),
        Elements::Sort => sort_row(alloc, memory, types, word, arguments),
        Elements::Find => find_row(alloc, memory, types, word, arguments),
    }
}

// The effect of a row over characters.
fn spells(
    alloc: Global,
    memory: &mut Memory,
    types: &TypeTable,
    row: Texts,
    fresh: (ObjectKey, Option<TypeId>),
    result_type: TypeId,
    arguments: &[Value],
    word: u64,
) -> Result<LibOutcome, MemFault>
    requires memory { AreKnown (length types.now.terms) memory.old }
    requires ty { result_type.0 < length types.now.terms }
    ensures value { Gives (λ o. record { memory = memory.new; outcome = o }) result
        (spells types.now memory.old row fresh.0 fresh.1 (type_of types.now result_type.0) arguments.now word) }
    ensures err { OnErr result (memory.new ≡ memory.old) }
{
    match row {
        Texts::Length => length_row(alloc, memory, types, result_type, arguments),
        Texts::Compare => compare_row(alloc, memory, types, result_type, arguments),
        Texts::ComparePart => compare_part_row(alloc, memory, types, result_type, arguments),
        Texts::CopyText => copy_text_row(alloc, memory, types, arguments),
        Texts::AddText => add_text_row(alloc, memory, types, arguments),
        Texts::CopyPart => copy_part_row(alloc, memory, types, arguments),
        Texts::Duplicate => duplicate_row(alloc, memory, types, fresh, word, arguments),
        Texts::Print => print_row(alloc, memory, types, result_type, word, arguments),
        Texts::PrintPart => print_part_row(alloc, memory, types, result_type, word, arguments),
        Texts::Line => line_row(alloc, memory, types, word, arguments),
        Texts::Block => block_row(alloc, memory, types, result_type, word, arguments),
    }
}

// The effect of a row that looks at no object.
fn answers(
    alloc: Global,
    types: &TypeTable,
    row: Plain,
    result_type: TypeId,
    arguments: &[Value],
    word: u64,
) -> Result<LibOutcome, MemFault>
    requires { result_type.0 < length types.now.terms }
    ensures { (memory : List Instance) →
        Gives (λ o. record { memory = memory; outcome = o }) result
        (answers memory row (type_of types.now result_type.0) arguments.now word) }
{
    match row {
        Plain::AnyNumber => Ok(number_row(alloc, types, result_type, word)?),
        Plain::Byte => Ok(byte_row(alloc, types, result_type, word)?),
        Plain::InClass(class) => Ok(class_row(alloc, types, result_type, class, arguments)?),
        Plain::ToUpper => Ok(upper_row(alloc, types, result_type, arguments)?),
        Plain::ToLower => Ok(lower_row(alloc, types, result_type, arguments)?),
        Plain::Keep => keep_row(alloc, types, result_type, arguments),
        Plain::Exit => Ok(exit_row(alloc, arguments)),
        Plain::Abort => Ok(abort_row(alloc)),
    }
}

// The effect of a row, where there is one.
fn row_effect(
    alloc: Global,
    memory: &mut Memory,
    types: &TypeTable,
    row: Option<Row>,
    fresh: (ObjectKey, Option<TypeId>),
    result_type: TypeId,
    arguments: &[Value],
    word: u64,
) -> Result<LibOutcome, MemFault>
    requires memory { AreKnown (length types.now.terms) memory.old }
    requires fixed { IsKnown (length types.now.terms) fresh.1 }
    requires ty { result_type.0 < length types.now.terms }
    ensures value { Gives (λ o. record { memory = memory.new; outcome = o }) result
        (row_effect types.now memory.old row fresh.0 fresh.1 (type_of types.now result_type.0) arguments.now word) }
    ensures err { OnErr result (memory.new ≡ memory.old) }
{
    match row {
        Some(Row::Makes(row)) => makes(alloc, memory, types, row, fresh, arguments, word),
        Some(Row::Moves(row)) => moves(alloc, memory, types, row, result_type, arguments, word),
        Some(Row::Writes(row)) => spells(
            alloc,
            memory,
            types,
            row,
            fresh,
            result_type,
            arguments,
            word,
        ),
        Some(Row::Answers(row)) => answers(alloc, types, row, result_type, arguments, word),
        None => Err(MemFault::Stop(Reason::Mismatch)),
    }
}

/// What the library function of that number does: `fresh` is the object that the call makes, with its element type where
/// that is fixed; `result_type` is the type of the function's result; `word` is the step's choice. After a reason to stop and
/// after want of memory the memory is as it was. The number of no function is Mismatch.
#[tactic(auto, unfolding(crate::specs::Effects::effect))]
pub fn effect(
    alloc: Global,
    memory: &mut Memory,
    types: &TypeTable,
    function: u32,
    fresh: (ObjectKey, Option<TypeId>),
    result_type: TypeId,
    arguments: &[Value],
    word: u64,
) -> Result<LibOutcome, MemFault>
    requires memory { AreKnown (length types.now.terms) memory.old }
    requires fixed { IsKnown (length types.now.terms) fresh.1 }
    requires ty { result_type.0 < length types.now.terms }
    ensures value { Gives (λ o. record { memory = memory.new; outcome = o }) result
        (effect types.now memory.old function fresh.0 fresh.1 result_type arguments.now word) }
    ensures err { OnErr result (memory.new ≡ memory.old) }
{
    let row = row_of(function);
    row_effect(
        alloc,
        memory,
        types,
        row,
        fresh,
        result_type,
        arguments,
        word,
    )
}
