// Signatures and places by hand.

use c_types::table::TypeTable;
use c_types::term::{Form, OutOfMemory, Term, TypeId, TypeList};
use std::alloc::Global;
use std::test::Fail;
use unit_link::nodes::further;
use unit_link::signatures::add_signature;

// `int` and `int ()`.
fn types_of(alloc: Global) -> Result<TypeTable, OutOfMemory> {
    let mut types = TypeTable::new(alloc);
    let int = types.add(Term::Integer {
        size: 4,
        rank: 4,
        signed: true,
    })?;
    types.add(Term::Function {
        result: int,
        parameters: TypeList::from_items(Vec::new(alloc)),
        form: Form::Unspecified,
    })?;
    Ok(types)
}

#[test]
fn signature(rt: HostRuntime) -> Result<(), Fail> {
    let mut types = types_of(rt.alloc())?;
    if types.type_count() == 2 {
        add_signature(rt.alloc(), &mut types, TypeId(1))?;
    }
    if types.type_count() == 3 {
        match types.term(TypeId(2)) {
            Term::Function { result, form, .. } => {
                assert!(rt; result.0 == 0 && *form == Form::Fixed);
            }
            _ => assert!(rt; false),
        }
    } else {
        assert!(rt; false);
    }
    Ok(())
}

#[test]
fn places(rt: HostRuntime) -> Result<(), Fail> {
    let list = further(rt.alloc(), [0, 3, 5].as_slice(), 7)?;
    assert!(rt; list.as_slice() == [7, 10, 12].as_slice());
    Ok(())
}
