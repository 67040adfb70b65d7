// Reads the units that the words name, and writes the report of their program, or the answers to a script of questions on it, the text of a
// run of it, or the summary of a generated program.
#![tactic(auto)]

use pta_base::{FileUnits, Gate, StreamSink};
use report_cli::analyse;
use std::env;
use std::io::ErrorKind;
use std::process::ExitCode;
use std::rt::{Env, HostRuntime};

const OUT_OF_MEMORY: u8 = 9;

const NO_WORDS: u8 = 13;

/// A gate that stands open.
struct OpenGate;

impl Gate for OpenGate {
    fn pass(&self, _worker: u32, _turn: u32) {}
}

/// The words without the program's name; at `Err` the status.
fn words<R: Env + AllocGlobal>(rt: &R) -> Result<Vec<String>, u8> {
    let mut list = Vec::new(rt.alloc());
    let all = match env::args(rt) {
        Ok(all) => all,
        Err(error) if error.kind() == ErrorKind::OutOfMemory => return Err(OUT_OF_MEMORY),
        Err(_) => return Err(NO_WORDS),
    };
    for word in all.skip(1) {
        if list.push(word).is_err() {
            return Err(OUT_OF_MEMORY);
        }
    }
    Ok(list)
}

fn main(rt: HostRuntime) -> ExitCode {
    let list = match words(&rt) {
        Ok(list) => list,
        Err(status) => return ExitCode::from(status),
    };
    let mut units = FileUnits::new(&rt);
    let mut err = StreamSink::new(rt.stderr());
    let mut out = StreamSink::new(rt.stdout());
    let mut kept = None;
    let status = analyse(
        &rt,
        rt.alloc(),
        list.as_slice(),
        &mut units,
        &mut out,
        &mut err,
        &OpenGate,
        &mut kept,
    );
    ExitCode::from(status)
}
