// Results that are read by number and kind.
use c_results::{
    BoxedList, Derivation, Made, Results, copied_at, declarator_at, node_at, parameter_at, type_at,
};
use c_types::term::{Form, TypeId, TypeList};
use std::alloc::Global;
use std::test::Fail;

// A function over one parameter.
fn returning(alloc: Global) -> Result<Derivation, Fail> {
    let mut types = Vec::new(alloc);
    types.push(TypeId(7))?;
    Ok(Derivation::Returning {
        parameters: TypeList::from_items(types),
        form: Form::Fixed,
    })
}

// The declarator of that function.
fn declarator(alloc: Global) -> Result<Made, Fail> {
    let mut derivations = Vec::new(alloc);
    derivations.push(returning(alloc)?)?;
    Ok(Made::Declarator {
        name: Some(5),
        derivations: BoxedList::of(alloc, derivations)?,
    })
}

// The results of three nodes: a type, the declarator, and its parameter.
fn three(alloc: Global) -> Result<Results, Fail> {
    let mut results = Results::new(alloc);
    results.push(Made::Typed(TypeId(3)))?;
    results.push(declarator(alloc)?)?;
    results.push(Made::Parameter {
        name: None,
        ty: TypeId(7),
    })?;
    Ok(results)
}

// A result is read as what it is, and past the end nothing is.
#[test]
fn read_by_kind(rt: HostRuntime) -> Result<(), Fail> {
    let results = three(rt.alloc())?;
    let list = &results;
    let reads = [
        type_at(list, 0) == Some(TypeId(3)),
        type_at(list, 1).is_none(),
        type_at(list, 3).is_none(),
        node_at(list, 0).is_none(),
        parameter_at(list, 2) == Some((None, TypeId(7))),
    ];
    for (at, holds) in reads.iter().enumerate() {
        assert!(rt; *holds, "read {at}");
    }
    Ok(())
}

// Whether the first result is a declarator of that name with so many derivations.
fn is_declarator(list: &Results, wanted: u32, count: usize) -> bool {
    match declarator_at(list, 0) {
        Some((name, derivations)) => name == Some(wanted) && derivations.len() == count,
        None => false,
    }
}

// A copy of a declarator has its name and its derivations.
#[test]
fn copied_declarator(rt: HostRuntime) -> Result<(), Fail> {
    let results = three(rt.alloc())?;
    let copy = copied_at(rt.alloc(), &results, 1)?;
    let mut list = Results::new(rt.alloc());
    list.push(copy)?;
    assert!(rt; is_declarator(&list, 5, 1));
    Ok(())
}
