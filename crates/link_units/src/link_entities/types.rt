//! The type of an external name's object or function (C11 6.2.7p3, 6.9.2p5).

ghost use Rattle.std.specs.Prelude.{◌≡◌, ◌<◌, IfOk, length};
ghost use Rattle.c_types.specs.Table.{type_of};
ghost use Rattle.type_rules.specs.Sizes as sizes;
ghost use Rattle.link_names.specs.Together as spec;
ghost use Rattle.unit_link.specs.link_program.Ready.{AreReady};

use c_types::table::TypeTable;
use c_types::term::{Term, TypeId};
use link_names::entry::kept_type;
use pta_base::OutOfMemory;

// A type of a table, where an array without a length counts as one of one element.
fn with_one(types: &TypeTable, ty: TypeId) -> Result<TypeId, OutOfMemory>
    requires ready { AreReady types.now }
    requires ty { ty.0 < length types.now.terms }
    ensures within { IfOk result (λ id. id.0 < length types.now.terms) }
    ensures type_is { IfOk result (λ id. type_of types.now id.0 ≡ sizes.with_one (type_of types.now ty.0)) }
{
    match types.term(ty) {
        Term::Array { of, length: None } => {
            let one = Term::Array {
                of: *of,
                length: Some(1),
            };
            match types.find(&one) {
                Ok(Some(found)) => Ok(found),
                Ok(None) => unreachable!(),
                Err(_) => Err(OutOfMemory),
            }
        }
        _ => Ok(ty),
    }
}

/// The type of a name's object or function by its own type and the type that all declarations give together: a function that is
/// defined with `()` keeps that, and an object that is defined without a length has one element. Only memory may want.
pub fn linked_type(
    types: &TypeTable,
    body: bool,
    defined: bool,
    own: TypeId,
    together: TypeId,
) -> Result<TypeId, OutOfMemory>
    requires ready { AreReady types.now }
    requires own { own.0 < length types.now.terms }
    requires together { together.0 < length types.now.terms }
    ensures within { IfOk result (λ id. id.0 < length types.now.terms) }
    ensures type_is { IfOk result
        (λ id. type_of types.now id.0 ≡ spec.linked_type body defined (type_of types.now own.0) (type_of types.now together.0)) }
{
    let kept = kept_type(types, body, own, together);
    if defined {
        with_one(types, kept)
    } else {
        Ok(kept)
    }
}
