// The signatures of functions that are defined with `()` (C11 6.7.6.3p14).

ghost use Rattle.std.specs.Prelude.{◌≡◌, ◌<◌, ◌≤◌, ℕ, MatchOption, OnOk, length};
ghost use Rattle.c_types.specs.Trees.{Ctype, NoTypes, FunctionFrom};
ghost use Rattle.c_types.specs.declared.term.Form.TheVariants.{Fixed};
ghost use Rattle.c_types.specs.Table.{type_of};
ghost use Rattle.type_rules.specs.Sizes.{HasSignature};
ghost use Rattle.unit_link.specs.Signed.{IsUnsigned};

use c_types::table::TypeTable;
use c_types::term::{Form, Term, TypeId, TypeList};
use pta_base::OutOfMemory;
use std::alloc::Global;

// The result of a function type without parameters whose list isn't `(void)`.
fn unsigned_result(types: &TypeTable, ty: TypeId) -> Option<TypeId>
    requires { ty.0 < length types.now.terms }
    ensures { MatchOption result (HasSignature types.now (type_of types.now ty.0)) (λ given.
        IsUnsigned types.now given.0 (type_of types.now ty.0)) }
{
    match types.term(ty) {
        Term::Function {
            result: given,
            parameters,
            form,
        } => match parameters.as_slice() {
            [] => match form {
                Form::Fixed => None,
                Form::Variadic | Form::Unspecified => Some(*given),
            },
            [_, ..] => None,
        },
        _ => None,
    }
}

/// Adds, for a function type without parameters, the type with the list `(void)`, where it isn't that type itself.
pub fn add_signature(alloc: Global, types: &mut TypeTable, ty: TypeId) -> Result<(), OutOfMemory>
    requires { ty.0 < length types.old.terms }
    ensures signed { OnOk result (HasSignature types.new (type_of types.new ty.0)) }
    ensures more { OnOk result ((i : ℕ) → i < length types.old.terms → i < length types.new.terms) }
    ensures kept { OnOk result ((i : ℕ) → i < length types.old.terms → type_of types.new i ≡ type_of types.old i) }
    ensures added { OnOk result ((i : ℕ) → length types.old.terms ≤ i → i < length types.new.terms
        → (given : Ctype) × (type_of types.new i ≡ FunctionFrom given NoTypes Fixed)) }
    ensures tags { OnOk result (types.new.tags ≡ types.old.tags) }
    ensures completed { OnOk result (types.new.completed ≡ types.old.completed) }
{
    match unsigned_result(types, ty) {
        Some(given) => {
            let term = Term::Function {
                result: given,
                parameters: TypeList::from_items(Vec::new(alloc)),
                form: Form::Fixed,
            };
            match types.add(term) {
                Ok(_) => Ok(()),
                Err(_) => Err(OutOfMemory),
            }
        }
        None => Ok(()),
    }
}
