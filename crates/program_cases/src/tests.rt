// Worked rows, whole and with reads and writes of one byte.
use crate::calls::{Case, OpenGate, ROOM, is_answered};
use crate::effects::EFFECTS;
use crate::entries::ENTRIES;
use crate::generated::GENERATED;
use crate::machine_runs::MACHINE_RUNS;
use crate::outside::OUTSIDE;
use crate::rows::ROWS;
use crate::runs::RUNS;
use crate::scripts::SCRIPTS;
use crate::several::SEVERAL;
use crate::stops::STOPS;
use pta_base::OutOfMemory;
use std::alloc::Global;
use std::sync::Wait;
use std::thread::Threads;

/// What a row says, where a read or a write takes so many bytes at the most, if the row doesn't say it.
pub(crate) fn case_of(row: &str, step: usize) -> Case<'_> {
    let mut fields = row.split('`');
    let words = fields.next().unwrap_or("");
    let names = fields.next().unwrap_or("");
    let status = fields.next().unwrap_or("");
    Case {
        words,
        names,
        status: status.parse().unwrap_or(255),
        texts: fields.next().unwrap_or(""),
        out: fields.next().unwrap_or(""),
        err: fields.next().unwrap_or(""),
        read: fields.next().unwrap_or("").parse().ok(),
        write: fields.next().unwrap_or("").parse().ok(),
        step: fields.next().unwrap_or("").parse().unwrap_or(step),
        room: fields.next().unwrap_or("").parse().unwrap_or(ROOM),
    }
}

/// The rows of that name.
fn rows_of(name: &str) -> &'static str {
    match name {
        "rows" => ROWS,
        "several" => SEVERAL,
        "scripts" => SCRIPTS,
        "outside" => OUTSIDE,
        "runs" => RUNS,
        "generated" => GENERATED,
        "effects" => EFFECTS,
        "stops" => STOPS,
        "machine" => MACHINE_RUNS,
        "entries" => ENTRIES,
        _ => "",
    }
}

/// The words with so many workers, where a number is given and the words don't begin with others.
fn with_workers(alloc: Global, words: &str, workers: &str) -> Result<String, OutOfMemory> {
    let mut text = String::new(alloc);
    if !workers.is_empty() && !words.starts_with("--workers") {
        text.push_str("--workers ")?;
        text.push_str(workers)?;
        text.push_str(" ")?;
    }
    text.push_str(words)?;
    Ok(text)
}

/// The number of the first row, counted from 0, that a call with so many workers doesn't answer as the row says.
fn first_wrong<R: Threads + Wait + Sync>(
    rt: &R,
    alloc: Global,
    rows: &str,
    step: usize,
    workers: &str,
) -> Result<Option<usize>, OutOfMemory> {
    for (at, row) in rows.split("~\n").enumerate() {
        let said = case_of(row, step);
        let words = with_workers(alloc, said.words, workers)?;
        let case = Case {
            words: words.as_str(),
            ..said
        };
        if !is_answered(rt, alloc, &case, &OpenGate)? {
            return Ok(Some(at));
        }
    }
    Ok(None)
}

/// Rows by their name, how many bytes a read or a write takes at the most (0 for all), and the number of workers, where one is given.
const PASSES: &str = "rows 0
several 0
scripts 0
outside 0
runs 0
generated 0
effects 0
stops 0
machine 0
entries 0
rows 1
several 1
scripts 1
runs 1
entries 1
rows 0 2
rows 0 64
several 0 1
several 0 2
several 0 4
several 0 64
runs 0 4
stops 0 4
entries 0 4";

#[test]
fn worked_rows(rt: HostRuntime) -> Result<(), OutOfMemory> {
    for pass in PASSES.split('\n') {
        let mut fields = pass.split(' ');
        let rows = rows_of(fields.next().unwrap_or(""));
        let step = fields.next().unwrap_or("").parse().unwrap_or(0);
        let workers = fields.next().unwrap_or("");
        let wrong = first_wrong(&rt, rt.alloc(), rows, step, workers)?;
        assert!(rt; wrong.is_none(), "{pass}: {wrong:?}");
    }
    Ok(())
}
