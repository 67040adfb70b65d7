// Files that are read as units, and a stream that is written as a sink.
use crate::calls::{is_failed, reads, taken};
use pta_base::{FileUnits, StreamSink};
use std::alloc::AllocGlobal;
use std::env::{self, Env};
use std::path::PathBuf;
use std::rt::Files;
use std::test::Fail;
use std::{fs, io};

/// The path of a file for one test.
fn path_of<R: Env + AllocGlobal>(rt: &R, name: &str) -> io::Result<PathBuf> {
    Ok(env::temp_dir(rt)?.join(rt.alloc(), name)?)
}

/// Whether a file is read from each place on, and can't be read once it is removed.
fn is_read<R: Files + AllocGlobal>(rt: &R, path: &str) -> io::Result<bool> {
    fs::write(rt, path, "int x;")?;
    let mut units = FileUnits::new(rt);
    let read = reads(&mut units, path, 0, b"int ")
        && reads(&mut units, path, 4, b"x;")
        && reads(&mut units, path, 6, b"");
    fs::remove_file(rt, path)?;
    let mut anew = FileUnits::new(rt);
    Ok(read && is_failed(&mut anew, path, 0))
}

/// Whether the open file is read on, though another one has its name by now; another place is sought, and another name
/// opened.
fn is_read_on<R: Files + AllocGlobal>(rt: &R, path: &str, other: &str) -> io::Result<bool> {
    fs::write(rt, path, "int x;")?;
    fs::write(rt, other, "char")?;
    let mut units = FileUnits::new(rt);
    let before = reads(&mut units, path, 0, b"int ");
    fs::remove_file(rt, path)?;
    fs::write(rt, path, "long y;")?;
    let after = reads(&mut units, path, 4, b"x;")
        && reads(&mut units, path, 1, b"nt x")
        && reads(&mut units, other, 2, b"ar")
        && reads(&mut units, path, 4, b" y;");
    fs::remove_file(rt, path)?;
    fs::remove_file(rt, other)?;
    Ok(before && after)
}

/// Whether a stream to a file takes two pieces, which then stand there.
fn is_written<R: Files + AllocGlobal>(rt: &R, path: &str) -> io::Result<bool> {
    let mut sink = StreamSink::new(fs::create(rt, path)?);
    let all = taken(&mut sink, b"pta 1\n") == 6 && taken(&mut sink, b"end\n") == 4;
    let written = fs::read(rt, path)?;
    fs::remove_file(rt, path)?;
    Ok(all && written.as_slice() == b"pta 1\nend\n".as_slice())
}

#[test]
fn files_are_read_and_written(rt: HostRuntime) -> Result<(), Fail> {
    let path = path_of(&rt, "pta_base_units.i")?;
    assert!(rt; is_read(&rt, path.as_str())?);
    let other = path_of(&rt, "pta_base_other.i")?;
    assert!(rt; is_read_on(&rt, path.as_str(), other.as_str())?);
    assert!(rt; is_written(&rt, path.as_str())?);
    Ok(())
}
