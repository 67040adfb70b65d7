// The numbers by which functions and calls of one type are told.

ghost use Rattle.std.specs.Prelude.{◌≡◌, ℕ, ◌+◌, ◌<◌, ◌^◌, ◌↔◌, IsTrue, IfOk, IfSome, MatchOption, All, List, length};
ghost use Rattle.c_types.specs.Table.{type_of, types_of, IsAfter, IsFirstOf, IsNowhere};
ghost use Rattle.c_types.specs.Trees.{Ctype, NoTypes, FunctionFrom, VoidType, grow, tree_at, trees_at};
ghost use Rattle.type_rules.specs.Kinds.{int};
ghost use Rattle.call_sites.specs.Signatures.{comparison, at_end, two_pointers, void_pointer, IsOther, IsSignature};
ghost use Rattle.call_sites.specs.Signatures.{called_type, calling_type};
ghost use Rattle.row_numbers.specs.Functions.{type_or_void};

use c_types::table::TypeTable;
use c_types::term::{Form, Term, TypeId, TypeList};
use pta_base::OutOfMemory;
use std::alloc::Global;
use type_rules::kinds::is_void;

// Whether a type is int.
fn is_int(types: &TypeTable, id: TypeId) -> bool
    requires { id.0 < length types.now.terms }
    ensures { IsTrue result ↔ (type_of types.now id.0 ≡ int) }
{
    match types.term(id) {
        Term::Integer { size, rank, signed } => *size == 4 && *rank == 4 && *signed,
        Term::Void | Term::Bool | Term::Floating | Term::VaList | Term::Pointer(_) => false,
        Term::Array { .. } | Term::Function { .. } | Term::Structure(_) | Term::Union(_) => false,
    }
}

// Whether a type is a pointer to void.
fn is_void_pointer(types: &TypeTable, id: TypeId) -> bool
    requires { id.0 < length types.now.terms }
    ensures { IsTrue result ↔ (type_of types.now id.0 ≡ void_pointer) }
{
    match types.term(id) {
        Term::Pointer(to) => is_void(types, *to),
        Term::Void | Term::Bool | Term::Floating | Term::VaList | Term::Integer { .. } => false,
        Term::Array { .. } | Term::Function { .. } | Term::Structure(_) | Term::Union(_) => false,
    }
}

// Whether a list of parameters is that of a comparison.
fn are_void_pointers(types: &TypeTable, parameters: &[TypeId]) -> bool
    requires { All (λ id. id.0 < length types.now.terms) parameters.now }
    ensures { IsTrue result ↔ (trees_at (types_of types.now) parameters.now ≡ two_pointers) }
{
    match parameters {
        [a, b] => is_void_pointer(types, *a) && is_void_pointer(types, *b),
        _ => false,
    }
}

// Whether a function type is that of a comparison.
fn is_comparison(types: &TypeTable, given: TypeId, parameters: &[TypeId], form: Form) -> bool
    requires given { given.0 < length types.now.terms }
    requires parameters { All (λ id. id.0 < length types.now.terms) parameters.now }
    ensures { IsTrue result ↔ (FunctionFrom (type_of types.now given.0) (trees_at (types_of types.now) parameters.now) form ≡ comparison) }
{
    is_fixed(form) && is_int(types, given) && are_void_pointers(types, parameters)
}

// Whether a parameter list says how many there are.
fn is_fixed(form: Form) -> bool
    ensures { IsTrue result ↔ (form ≡ Form.Fixed) }
{
    matches!(form, Form::Fixed)
}

// Whether there are no parameters.
fn are_none(parameters: &[TypeId]) -> bool
    ensures { (trees : List Ctype) → IsTrue result ↔ (trees_at trees parameters.now ≡ NoTypes) }
{
    match parameters {
        [] => true,
        [_, ..] => false,
    }
}

// Whether a function type is that of what is called at the end.
fn is_at_end(types: &TypeTable, given: TypeId, parameters: &[TypeId], form: Form) -> bool
    requires given { given.0 < length types.now.terms }
    ensures { IsTrue result ↔ (FunctionFrom (type_of types.now given.0) (trees_at (types_of types.now) parameters.now) form ≡ at_end) }
{
    is_fixed(form) && is_void(types, given) && are_none(parameters)
}

// A function type over these types.
fn function_term(
    alloc: Global,
    given: TypeId,
    parameters: &[TypeId],
    form: Form,
) -> Result<Term, OutOfMemory>
    ensures { IfOk result (λ term. term ≡ Term.Function given parameters.now form) }
{
    let list = Vec::from_slice(alloc, parameters)?;
    Ok(Term::Function {
        result: given,
        parameters: TypeList::from_items(list),
        form,
    })
}

// The first id of a term's type.
fn found(types: &TypeTable, term: &Term) -> Result<Option<TypeId>, OutOfMemory>
    requires { IsAfter (length types.now.terms) term.now }
    ensures { IfOk result (λ found.
        MatchOption found (IsNowhere types.now (grow (types_of types.now) term.now))
        (λ id. IsFirstOf types.now (grow (types_of types.now) term.now) id.0)) }
{
    match types.find(term) {
        Ok(found) => Ok(found),
        Err(_) => Err(OutOfMemory),
    }
}

/// The signature of a function type.
pub(crate) fn function_signature(
    alloc: Global,
    types: &TypeTable,
    given: TypeId,
    parameters: &[TypeId],
    form: Form,
) -> Result<u32, OutOfMemory>
    requires given { given.0 < length types.now.terms }
    requires parameters { All (λ id. id.0 < length types.now.terms) parameters.now }
    requires room { length types.now.terms + 2 < 2 ^ 32 }
    ensures { IfOk result (λ signature.
        IsSignature types.now (FunctionFrom (type_of types.now given.0) (trees_at (types_of types.now) parameters.now) form) signature) }
{
    if is_comparison(types, given, parameters, form) {
        return Ok(0);
    }
    if is_at_end(types, given, parameters, form) {
        return Ok(1);
    }
    let term = function_term(alloc, given, parameters, form)?;
    match found(types, &term)? {
        Some(id) => Ok(2 + id.0),
        None => Ok(u32::MAX),
    }
}

// The signature of a term that is no function type.
fn other_signature(types: &TypeTable, term: &Term) -> Result<u32, OutOfMemory>
    requires after { IsAfter (length types.now.terms) term.now }
    requires other { IsOther (grow (types_of types.now) term.now) }
    requires room { length types.now.terms + 2 < 2 ^ 32 }
    ensures { IfOk result (λ signature. IsSignature types.now (grow (types_of types.now) term.now) signature) }
{
    match found(types, term)? {
        Some(id) => Ok(2 + id.0),
        None => Ok(u32::MAX),
    }
}

/// The signature by which a function of that type is called.
pub fn called_signature(
    alloc: Global,
    types: &TypeTable,
    id: Option<TypeId>,
) -> Result<u32, OutOfMemory>
    requires id { IfSome id (λ id. id.0 < length types.now.terms) }
    requires room { length types.now.terms + 2 < 2 ^ 32 }
    ensures { IfOk result (λ signature. IsSignature types.now (called_type (type_or_void types.now id)) signature) }
{
    let Some(id) = id else {
        return other_signature(types, &Term::Void);
    };
    match types.term(id) {
        Term::Function {
            result,
            form: Form::Unspecified,
            ..
        } => function_signature(alloc, types, *result, &[], Form::Fixed),
        Term::Function {
            result,
            parameters,
            form,
        } => function_signature(alloc, types, *result, parameters.as_slice(), *form),
        term => other_signature(types, term),
    }
}

/// The signature by which a pointer of that type calls with such arguments.
pub fn calling_signature(
    alloc: Global,
    types: &TypeTable,
    pointer: TypeId,
    arguments: &[TypeId],
) -> Result<u32, OutOfMemory>
    requires pointer { pointer.0 < length types.now.terms }
    requires arguments { All (λ id. id.0 < length types.now.terms) arguments.now }
    requires room { length types.now.terms + 2 < 2 ^ 32 }
    ensures { IfOk result (λ signature.
        IsSignature types.now (calling_type (type_of types.now pointer.0) (trees_at (types_of types.now) arguments.now)) signature) }
{
    let Term::Pointer(to) = types.term(pointer) else {
        return other_signature(types, &Term::Void);
    };
    match types.term(*to) {
        Term::Function {
            result,
            form: Form::Unspecified,
            ..
        } => function_signature(alloc, types, *result, arguments, Form::Fixed),
        Term::Function {
            result,
            parameters,
            form,
        } => function_signature(alloc, types, *result, parameters.as_slice(), *form),
        term => other_signature(types, term),
    }
}
