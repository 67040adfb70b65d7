//! Labels and units by hand.

use c_types::table::TypeTable;
use c_types::term::TypeId;
use core_tree::{Entity, Linkage, Storage, Unit};
use pta_base::{OutOfMemory, Place, Text};
use std::alloc::Global;
use std::test::Fail;
use unit_link::link_program::labels::leaders_alike;
use unit_link::link_program::numbers::entity_numbers;

// A label, or none for an empty word.
fn label(alloc: Global, word: &str) -> Result<Option<Text>, OutOfMemory> {
    if word.is_empty() {
        Ok(None)
    } else {
        let text = Text::copy_of(alloc, word)?;
        Ok(Some(text))
    }
}

#[test]
fn labels(rt: HostRuntime) -> Result<(), Fail> {
    let mut list = Vec::new(rt.alloc());
    for word in ["a", "", "b", "a", "b", ""] {
        list.push(label(rt.alloc(), word)?)?;
    }
    if list.len() > 6 {
        assert!(rt; false);
    } else {
        let leaders = leaders_alike(rt.alloc(), list.as_slice())?;
        assert!(rt; leaders.as_slice() == [0, 1, 2, 0, 2, 5].as_slice());
    }
    Ok(())
}

// `int s;` or `static int s;` at file scope.
fn object(alloc: Global, name: &str, linkage: Linkage) -> Result<Entity, OutOfMemory> {
    Ok(Entity {
        name: Text::copy_of(alloc, name)?,
        unit: 0,
        place: Place {
            unit: 0,
            line: 1,
            column: 1,
        },
        ty: TypeId(0),
        linkage,
        storage: Storage::Static,
        owner: None,
        body: None,
        used: None,
    })
}

// A unit of such objects; those whose names begin with s are static.
fn unit_of(alloc: Global, names: &[&str]) -> Result<Unit, OutOfMemory> {
    let mut entities = Vec::new(alloc);
    for name in names {
        let linkage = if name.starts_with("s") {
            Linkage::Internal
        } else {
            Linkage::External
        };
        entities.push(object(alloc, name, linkage)?)?;
    }
    Ok(Unit {
        name: Text::copy_of(alloc, "u")?,
        types: TypeTable::new(alloc),
        tags: Vec::new(alloc),
        nodes: Vec::new(alloc),
        entities,
    })
}

#[test]
fn numbers(rt: HostRuntime) -> Result<(), Fail> {
    let mut units = Vec::new(rt.alloc());
    units.push(unit_of(rt.alloc(), ["s", "f", "g"].as_slice())?)?;
    units.push(unit_of(rt.alloc(), ["f", "s", "g", "t"].as_slice())?)?;
    let found = entity_numbers(rt.alloc(), units.as_slice())?;
    assert!(rt; found.starts.as_slice() == [0, 3, 7].as_slice());
    assert!(rt; found.numbers.as_slice() == [0, 1, 2, 1, 3, 2, 4].as_slice());
    assert!(rt; found.count == 5);
    Ok(())
}
