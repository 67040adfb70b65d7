// Worked calls of the kinds in memory, and each call that takes memory.
use crate::calls::{is_failed, reads, taken};
use pta_base::{Kind, Listing, MemorySink, MemoryUnits, Text, Units};
use std::test::Fail;

/// Whether a read over `int ` gives two bytes, and leaves the other two.
fn reads_over<U: Units>(units: &mut U, name: &str, at: u64) -> bool {
    let mut buf = *b"int ";
    match units.read(name, at, &mut buf) {
        Ok(count) => count == 2 && buf.as_slice() == b"x;t ".as_slice(),
        Err(_) => false,
    }
}

#[test]
fn a_listed_read_fails_alone(rt: HostRuntime) -> Result<(), Fail> {
    let text = b"int x;".to_vec(rt.alloc())?;
    let name = "a.i".to_string(rt.alloc())?;
    let texts = vec![in rt.alloc(); (name, text)]?;
    let mut units = MemoryUnits::new(texts, vec![in rt.alloc(); 1u64]?);
    let read = reads(&mut units, "a.i", 0, b"int ")
        && is_failed(&mut units, "a.i", 4)
        && reads_over(&mut units, "a.i", 4)
        && reads(&mut units, "a.i", 9, b"")
        && is_failed(&mut units, "b.i", 0);
    assert!(rt; read);
    Ok(())
}

#[test]
fn a_sink_takes_what_it_has_room_for(rt: HostRuntime) -> Result<(), Fail> {
    let failing = vec![in rt.alloc(); 1u64]?;
    let mut sink = MemorySink::new(rt.alloc(), 5, failing)?;
    let all = taken(&mut sink, b"pta") == 3
        && taken(&mut sink, b"end") == 0
        && taken(&mut sink, b"end") == 2
        && taken(&mut sink, b"d") == 0
        && sink.written() == b"ptaen".as_slice();
    assert!(rt; all);
    Ok(())
}

#[test]
fn lists_and_texts_hold_what_they_got(rt: HostRuntime) -> Result<(), Fail> {
    let mut list = Listing::new(rt.alloc());
    list.push(7u32)?;
    list.set(0, 8);
    assert!(rt; list.as_slice() == [8].as_slice());
    let text = Text::copy_of(rt.alloc(), "push/w")?;
    assert!(rt; text.as_str() == "push/w");
    assert!(rt; Kind::NumberToPointer.name() == "number-to-pointer");
    Ok(())
}
