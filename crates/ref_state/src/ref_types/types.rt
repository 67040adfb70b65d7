// The types of a machine: those of its program, and behind them those of the library's objects, which the program's table
// needn't have.

ghost use Rattle.std.specs.Prelude.{◌≡◌, ℕ, ◌+◌, ◌<◌, [], ◌∷◌, true, IfOk, OnOk, length};
ghost use Rattle.c_types.specs.Trees.{Ctype};
ghost use Rattle.c_types.specs.Table.{type_of, extent_in};
ghost use Rattle.ref_state.specs.ref_types.Types.{id, character_terms, class_terms, pointer_terms, library_terms, types_with, library_ids};
ghost use Rattle.ref_state.specs.ref_types.Longer.{IsLonger};

use crate::ref_types::copies::copy_types;
use c_types::table::TypeTable;
use c_types::term::{OutOfMemory, Term, TypeId};
use std::alloc::Global;

/// The types of the library's objects: `char`, 8 of them, 64 of them, 384 `unsigned short`, `char *`, 9 of them (as `argv` points
/// to: C11 5.1.2.2.1), and `int`.
#[derive(Clone, Copy)]
pub struct LibraryTypes {
    pub character: TypeId,
    pub argument: TypeId,
    pub text: TypeId,
    pub classes: TypeId,
    pub pointer: TypeId,
    pub arguments: TypeId,
    pub number: TypeId,
}

// The array of so many elements of a type.
fn array_of(of: TypeId, length: u64) -> Term
    ensures { result ≡ Term.Array of (Some length) }
{
    Term::Array {
        of,
        length: Some(length),
    }
}

// `char`, and 8 and 64 of them.
fn add_characters(table: &mut TypeTable) -> Result<(TypeId, TypeId, TypeId), OutOfMemory>
    ensures longer { OnOk result (IsLonger table.old (character_terms (length table.old.terms)) table.new) }
    ensures ids { IfOk result (λ ids. let n = length table.old.terms in ids ≡ (id n, id (n + 1), id (n + 2))) }
{
    let character = table.add(Term::Integer {
        size: 1,
        rank: 1,
        signed: true,
    })?;
    let argument = table.add(array_of(character, 8))?;
    let text = table.add(array_of(character, 64))?;
    Ok((character, argument, text))
}

// `unsigned short`, and 384 of them.
fn add_classes(table: &mut TypeTable) -> Result<TypeId, OutOfMemory>
    ensures longer { OnOk result (IsLonger table.old (class_terms (length table.old.terms)) table.new) }
    ensures id { IfOk result (λ classes. classes ≡ id (length table.old.terms + 1)) }
{
    let short = table.add(Term::Integer {
        size: 2,
        rank: 3,
        signed: false,
    })?;
    let classes = table.add(array_of(short, 384))?;
    Ok(classes)
}

// `char *`, and 9 of them.
fn add_pointers(table: &mut TypeTable, character: TypeId) -> Result<(TypeId, TypeId), OutOfMemory>
    requires { character.0 < length table.old.terms }
    ensures longer { OnOk result (IsLonger table.old (pointer_terms character.0 (length table.old.terms)) table.new) }
    ensures ids { IfOk result (λ ids. let n = length table.old.terms in ids ≡ (id n, id (n + 1))) }
{
    let pointer = table.add(Term::Pointer(character))?;
    let arguments = table.add(array_of(pointer, 9))?;
    Ok((pointer, arguments))
}

// `int`.
fn add_number(table: &mut TypeTable) -> Result<TypeId, OutOfMemory>
    ensures longer { OnOk result (IsLonger table.old (Term.Integer 4 4 true ∷ []) table.new) }
    ensures id { IfOk result (λ number. number ≡ id (length table.old.terms)) }
{
    let number = table.add(Term::Integer {
        size: 4,
        rank: 4,
        signed: true,
    })?;
    Ok(number)
}

// Adds the types of the library's objects.
fn add_library_types(table: &mut TypeTable) -> Result<LibraryTypes, OutOfMemory>
    ensures longer { OnOk result (IsLonger table.old (library_terms (length table.old.terms)) table.new) }
    ensures ids { IfOk result (λ ids. ids ≡ library_ids (length table.old.terms)) }
{
    let (character, argument, text) = add_characters(table)?;
    let classes = add_classes(table)?;
    let (pointer, arguments) = add_pointers(table, character)?;
    let number = add_number(table)?;
    Ok(LibraryTypes {
        character,
        argument,
        text,
        classes,
        pointer,
        arguments,
        number,
    })
}

/// A program's types with those of the library's objects behind them, and the numbers of these. What a number of the program
/// names, and what a type takes, is the same in both tables.
pub fn with_library_types(
    alloc: Global,
    types: &TypeTable,
) -> Result<(TypeTable, LibraryTypes), OutOfMemory>
    ensures table { IfOk result (λ made. made.0 ≡ types_with types.now) }
    ensures ids { IfOk result (λ made. made.1 ≡ library_ids (length types.now.terms)) }
    ensures kept { IfOk result (λ made.
        (i : ℕ) → i < length types.now.terms → type_of made.0 i ≡ type_of types.now i) }
    ensures extents { IfOk result (λ made. (t : Ctype) → extent_in made.0 t ≡ extent_in types.now t) }
{
    let mut table = copy_types(alloc, types)?;
    let ids = add_library_types(&mut table)?;
    Ok((table, ids))
}
