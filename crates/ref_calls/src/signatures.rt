// Which functions a call reaches: those of its own type (C11 6.5.2.2p9).

ghost use Rattle.std.specs.Prelude.{◌≡◌, ◌<◌, ◌==◌, ◌&&◌, ◌∷◌, List, false, All, IfSome, MatchOption, length};
ghost use Rattle.c_types.specs.Keys.{form_number};
ghost use Rattle.c_types.specs.Trees.{Ctype, VoidType, PointerTo, NoTypes, trees_at};
ghost use Rattle.c_types.specs.Table.{type_of, types_of};
ghost use Rattle.core_tree.specs.Range.{InRange};
ghost use Rattle.core_tree.specs.Seen.{core_of};
ghost use Rattle.call_sites.specs.Signatures.{called_type, calling_type, comparison, at_end, void_pointer, two_pointers};
ghost use Rattle.type_rules.specs.Kinds.{int};
ghost use Rattle.call_sites.specs.Calls.{ids_of};
ghost use Rattle.ref_elements.specs.Types.{same_type, same_types};
ghost use Rattle.ref_calls.specs.Signatures.{type_by, AreTypes, IsSignatureOf};
ghost use Rattle.ref_calls.specs.Calls.{is_function};

use c_types::table::TypeTable;
use c_types::term::{Form, Term, TypeId};
use core_tree::trees::Trees;
use ref_elements::parts::same_type;

/// A function's type as it is called: its result, its parameters and the form of their list. One that is defined with `()`
/// has no parameters.
#[derive(Clone, Copy)]
pub struct Signature<'a> {
    pub result: TypeId,
    pub parameters: &'a [TypeId],
    pub form: Form,
}

/// The signature by which a function of a type is called; None exactly where the type is no function's.
pub fn called(types: &TypeTable, ty: TypeId) -> Option<Signature<'_>>
    requires { ty.0 < length types.now.terms }
    ensures { MatchOption result (is_function (called_type (type_of types.now ty.0)) ≡ false)
        (IsSignatureOf types.now (called_type (type_of types.now ty.0))) }
{
    match types.term(ty) {
        Term::Function {
            result,
            parameters,
            form,
        } => match form {
            Form::Unspecified => Some(Signature {
                result: *result,
                parameters: &[],
                form: Form::Fixed,
            }),
            Form::Fixed | Form::Variadic => Some(Signature {
                result: *result,
                parameters: parameters.as_slice(),
                form: *form,
            }),
        },
        Term::Void | Term::Bool | Term::Floating | Term::VaList | Term::Integer { .. } => None,
        Term::Array { .. } | Term::Pointer(_) | Term::Structure(_) | Term::Union(_) => None,
    }
}

// The number of a form.
fn form_code(form: Form) -> u64
    ensures { result ≡ form_number form }
{
    match form {
        Form::Fixed => 0,
        Form::Variadic => 1,
        Form::Unspecified => 2,
    }
}

// Whether two forms are one.
fn same_form(a: Form, b: Form) -> bool
    ensures { result ≡ (form_number a == form_number b) }
{
    form_code(a) == form_code(b)
}

// Whether two lists are of the same types.
fn same_list(types: &TypeTable, a: &[TypeId], b: &[TypeId]) -> bool
    requires left { AreTypes types.now a.now }
    requires right { AreTypes types.now b.now }
    ensures { result ≡ same_types (trees_at (types_of types.now) a.now) (trees_at (types_of types.now) b.now) }
{
    for i in 0..a.len() {
        if i >= b.len() {
            return false;
        }
        if !same_type(types, a[i], b[i]) {
            return false;
        }
    }
    a.len() == b.len()
}

// Whether values are of the types of a list.
fn same_values(trees: &Trees<'_>, parameters: &[TypeId], values: &[u32]) -> bool
    requires range { InRange (core_of trees.now) }
    requires parameters { AreTypes trees.now.types.now parameters.now }
    requires values { All (λ v. v < length trees.now.nodes.now) values.now }
    ensures { result ≡ same_types (trees_at (types_of trees.now.types.now) parameters.now)
        (trees_at (types_of trees.now.types.now) (ids_of trees.now.nodes.now values.now)) }
{
    for i in 0..parameters.len() {
        if i >= values.len() {
            return false;
        }
        let ty = trees.nodes[values[i] as usize].ty;
        if !same_type(trees.types, parameters[i], ty) {
            return false;
        }
    }
    parameters.len() == values.len()
}

/// Whether a call through a pointer of a type with such arguments is of that signature.
pub fn fits(trees: &Trees<'_>, of: Signature<'_>, pointer: TypeId, arguments: &[u32]) -> bool
    requires range { InRange (core_of trees.now) }
    requires of { AreTypes trees.now.types.now (of.result ∷ of.parameters.now) }
    requires pointer { pointer.0 < length trees.now.types.now.terms }
    requires arguments { All (λ v. v < length trees.now.nodes.now) arguments.now }
    ensures { result ≡ same_type (type_by trees.now.types.now of.entry)
        (calling_type (type_of trees.now.types.now pointer.0)
        (trees_at (types_of trees.now.types.now) (ids_of trees.now.nodes.now arguments.now))) }
{
    match trees.types.term(pointer) {
        Term::Pointer(to) => fits_function(trees, of, *to, arguments),
        Term::Void | Term::Bool | Term::Floating | Term::VaList | Term::Integer { .. } => false,
        Term::Array { .. } | Term::Function { .. } | Term::Structure(_) | Term::Union(_) => false,
    }
}

// Whether a call through a pointer to a type with such arguments is of that signature.
fn fits_function(trees: &Trees<'_>, of: Signature<'_>, to: TypeId, arguments: &[u32]) -> bool
    requires range { InRange (core_of trees.now) }
    requires of { AreTypes trees.now.types.now (of.result ∷ of.parameters.now) }
    requires to { to.0 < length trees.now.types.now.terms }
    requires arguments { All (λ v. v < length trees.now.nodes.now) arguments.now }
    ensures { result ≡ same_type (type_by trees.now.types.now of.entry)
        (calling_type (PointerTo (type_of trees.now.types.now to.0))
        (trees_at (types_of trees.now.types.now) (ids_of trees.now.nodes.now arguments.now))) }
{
    let types = trees.types;
    match types.term(to) {
        Term::Function {
            result,
            parameters,
            form,
        } => {
            if !same_type(types, of.result, *result) {
                return false;
            }
            match form {
                Form::Unspecified => fits_values(trees, of, arguments),
                Form::Fixed | Form::Variadic => {
                    fits_list(types, of, parameters.as_slice(), *form)
                }
            }
        }
        Term::Void | Term::Bool | Term::Floating | Term::VaList | Term::Integer { .. } => false,
        Term::Array { .. } | Term::Pointer(_) | Term::Structure(_) | Term::Union(_) => false,
    }
}

// Whether a signature has parameters of the types of these values, and no further ones.
fn fits_values(trees: &Trees<'_>, of: Signature<'_>, values: &[u32]) -> bool
    requires range { InRange (core_of trees.now) }
    requires of { AreTypes trees.now.types.now of.parameters.now }
    requires values { All (λ v. v < length trees.now.nodes.now) values.now }
    ensures { result ≡ (same_types (trees_at (types_of trees.now.types.now) of.entry.parameters.now)
        (trees_at (types_of trees.now.types.now) (ids_of trees.now.nodes.now values.now))
        && form_number of.entry.form == form_number Form.Fixed) }
{
    if same_values(trees, of.parameters, values) {
        same_form(of.form, Form::Fixed)
    } else {
        false
    }
}

// Whether a signature has parameters of these types, in a list of that form.
fn fits_list(types: &TypeTable, of: Signature<'_>, parameters: &[TypeId], form: Form) -> bool
    requires of { AreTypes types.now of.parameters.now }
    requires parameters { AreTypes types.now parameters.now }
    ensures { result ≡ (same_types (trees_at (types_of types.now) of.entry.parameters.now)
        (trees_at (types_of types.now) parameters.now)
        && form_number of.entry.form == form_number form) }
{
    if same_list(types, of.parameters, parameters) {
        same_form(of.form, form)
    } else {
        false
    }
}

// Whether a type is void.
fn is_void(types: &TypeTable, ty: TypeId) -> bool
    requires { ty.0 < length types.now.terms }
    ensures { result ≡ same_type (type_of types.now ty.0) VoidType }
{
    match types.term(ty) {
        Term::Void => true,
        Term::Bool | Term::Floating | Term::VaList | Term::Integer { .. } | Term::Pointer(_) =>
            false,
        Term::Array { .. } | Term::Function { .. } | Term::Structure(_) | Term::Union(_) => false,
    }
}

// Whether a type is a pointer to void.
fn is_void_pointer(types: &TypeTable, ty: TypeId) -> bool
    requires { ty.0 < length types.now.terms }
    ensures { result ≡ same_type (type_of types.now ty.0) void_pointer }
{
    match types.term(ty) {
        Term::Pointer(to) => is_void(types, *to),
        Term::Void | Term::Bool | Term::Floating | Term::VaList | Term::Integer { .. } => false,
        Term::Array { .. } | Term::Function { .. } | Term::Structure(_) | Term::Union(_) => false,
    }
}

// Whether a type is int.
fn is_int(types: &TypeTable, ty: TypeId) -> bool
    requires { ty.0 < length types.now.terms }
    ensures { result ≡ same_type (type_of types.now ty.0) int }
{
    match types.term(ty) {
        Term::Integer { size, rank, signed } => *size == 4 && *rank == 4 && *signed,
        Term::Void | Term::Bool | Term::Floating | Term::VaList | Term::Pointer(_) => false,
        Term::Array { .. } | Term::Function { .. } | Term::Structure(_) | Term::Union(_) => false,
    }
}

// Whether a list is of two pointers to void.
fn are_two_pointers(types: &TypeTable, parameters: &[TypeId]) -> bool
    requires { AreTypes types.now parameters.now }
    ensures { result ≡ same_types (trees_at (types_of types.now) parameters.now) two_pointers }
{
    match parameters {
        [a, b] => is_void_pointer(types, *a) && is_void_pointer(types, *b),
        [] => false,
        [_] => false,
        [_, _, _, ..] => false,
    }
}

/// Whether a signature is that of a comparison: `int (const void *, const void *)`.
pub fn is_comparison(types: &TypeTable, of: Signature<'_>) -> bool
    requires { AreTypes types.now (of.result ∷ of.parameters.now) }
    ensures { result ≡ same_type (type_by types.now of.entry) comparison }
{
    if is_int(types, of.result) && are_two_pointers(types, of.parameters) {
        same_form(of.form, Form::Fixed)
    } else {
        false
    }
}

// Whether there are no parameters.
fn are_none(parameters: &[TypeId]) -> bool
    ensures { (trees : List Ctype) → result ≡ same_types (trees_at trees parameters.now) NoTypes }
{
    match parameters {
        [] => true,
        [_, ..] => false,
    }
}

/// Whether a signature is that of what is called at the end: `void (void)`.
pub fn is_at_end(types: &TypeTable, of: Signature<'_>) -> bool
    requires { AreTypes types.now (of.result ∷ of.parameters.now) }
    ensures { result ≡ same_type (type_by types.now of.entry) at_end }
{
    if is_void(types, of.result) && are_none(of.parameters) {
        same_form(of.form, Form::Fixed)
    } else {
        false
    }
}
