// Reads of two units that fail, each in turn, and writes of a report.
use crate::calls::{Case, OpenGate, is_answered};
use crate::rows::ROWS;
use crate::several::SEVERAL;
use crate::tests::case_of;
use pta_base::OutOfMemory;
use std::alloc::Global;
use std::sync::Wait;
use std::thread::Threads;

/// More than a call of these rows reads or writes.
const MOST: u64 = 4096;

/// The first of the rows.
fn first_row() -> &'static str {
    SEVERAL.split("~\n").next().unwrap_or("")
}

/// The row of a list of nodes, for one worker.
fn list_row() -> &'static str {
    for row in ROWS.split("~\n") {
        if row.starts_with("--workers 1 list.i`") {
            return row;
        }
    }
    ""
}

/// The first read from that number on that isn't told as this fault where it fails.
fn reads_from<R: Threads + Wait + Sync>(
    rt: &R,
    alloc: Global,
    said: &Case<'_>,
    first: u64,
    fault: &str,
) -> Result<u64, OutOfMemory> {
    for read in first..MOST {
        let case = Case {
            read: Some(read),
            status: 7,
            out: "",
            err: fault,
            ..*said
        };
        if !is_answered(rt, alloc, &case, &OpenGate)? {
            return Ok(read);
        }
    }
    Ok(MOST)
}

#[test]
fn each_read_fails_in_turn(rt: HostRuntime) -> Result<(), OutOfMemory> {
    for step in [0usize, 1] {
        let said = case_of(first_row(), step);
        let second = reads_from(&rt, rt.alloc(), &said, 0, "source fault a.i\n")?;
        let last = reads_from(&rt, rt.alloc(), &said, second, "source fault b.i\n")?;
        let case = Case {
            read: Some(last),
            ..said
        };
        let whole = is_answered(&rt, rt.alloc(), &case, &OpenGate)?;
        assert!(rt;
            whole && 0 < second && second < last,
            "{step}: {second} {last} {whole}"
        );
    }
    Ok(())
}

/// Whether each write of one byte of a report fails in turn, with what stands before it written.
fn writes_fail<R: Threads + Wait + Sync>(
    rt: &R,
    alloc: Global,
    said: &Case<'_>,
) -> Result<bool, OutOfMemory> {
    let mut shown = String::new(alloc);
    for (write, c) in said.out.chars().enumerate() {
        let case = Case {
            write: Some(write as u64),
            status: 8,
            out: shown.as_str(),
            err: "sink fault\n",
            ..*said
        };
        if !is_answered(rt, alloc, &case, &OpenGate)? {
            return Ok(false);
        }
        shown.push(c)?;
    }
    Ok(true)
}

#[test]
fn each_write_fails_in_turn(rt: HostRuntime) -> Result<(), OutOfMemory> {
    let said = case_of(list_row(), 1);
    let case = Case {
        write: Some(said.out.len() as u64),
        ..said
    };
    let failing = writes_fail(&rt, rt.alloc(), &said)?;
    let whole = is_answered(&rt, rt.alloc(), &case, &OpenGate)?;
    assert!(rt;
        failing && whole && said.out.len() > 380,
        "{failing} {whole}"
    );
    Ok(())
}
