//! Programs of one unit, and systems that are reported of them: entities, a line each of the name, what it is, its line and its column.
use crate::reading::{number, word};
use c_types::table::TypeTable;
use c_types::term::{Form, Term, TypeId, TypeList};
use core_tree::{Entity, Linkage, Program, Storage};
use obj_space::{Space, objects};
use pta_base::{Place, Text};
use std::alloc::Global;
use std::test::Fail;

/// The types `int`, `int *` and `int (void)`.
fn types_of(alloc: Global) -> Result<(TypeTable, [TypeId; 3]), Fail> {
    let mut table = TypeTable::new(alloc);
    let int = table.add(Term::Integer {
        size: 4,
        rank: 4,
        signed: true,
    })?;
    let pointer = table.add(Term::Pointer(int))?;
    let function = table.add(Term::Function {
        result: int,
        parameters: TypeList::from_items(Vec::new(alloc)),
        form: Form::Fixed,
    })?;
    Ok((table, [int, pointer, function]))
}

/// The entity of a line; a sort that isn't known is a function's.
fn entity(alloc: Global, ids: &[TypeId; 3], line: &str) -> Result<Entity, Fail> {
    let (ty, storage) = match word(line, 1) {
        "int" => (ids[0], Storage::Static),
        "pointer" => (ids[1], Storage::Static),
        _ => (ids[2], Storage::FunctionBody),
    };
    Ok(Entity {
        name: Text::copy_of(alloc, word(line, 0))?,
        unit: 0,
        place: Place {
            unit: 0,
            line: number(line, 2),
            column: number(line, 3),
        },
        ty,
        linkage: Linkage::External,
        storage,
        owner: None,
        body: None,
        used: None,
    })
}

/// The objects of the program of these entities, whose one unit is `a.i`.
pub(crate) fn space_of(alloc: Global, lines: &str) -> Result<Space, Fail> {
    let (types, ids) = types_of(alloc)?;
    let mut entities = Vec::new(alloc);
    for line in lines.split('\n') {
        entities.push(entity(alloc, &ids, line)?)?;
    }
    let program = Program {
        names: vec![in alloc; Text::copy_of(alloc, "a.i")?]?,
        types,
        nodes: Vec::new(alloc),
        entities,
        entries: Vec::new(alloc),
    };
    Ok(objects(alloc, &program)?)
}
