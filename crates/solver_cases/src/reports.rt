//! The reports of three programs as lines and as JSON, what a sink gets that fails, and names that come twice. The JSON was made of the
//! lines by Python's `json`, with the keys sorted and no spaces.
use crate::programs::space_of;
use crate::reading::{number, system_of, word};
use call_graph::system_check::is_valid;
use obj_space::Space;
use obj_space::name_tests::names_differ;
use pta_base::MemorySink;
use sol_model::{System, plain_solve};
use std::alloc::Global;
use std::test::Fail;
use unit_report::report_json::{json_report, print_json};
use unit_report::report_text::{PrintFault, print, report};

/// Programs, each with its entities, its system, and its report as lines and as JSON. In the last one a call of another signature stands
/// before the other in the text, and f calls itself by its name.
const REPORTED: &str = "x int 1 5
p pointer 1 8
main function 1 15`one pointer
# int x,*p; int main(void){p=&x;return 0;}
rows 4
locations int pointer f0
address 3 0
copy 3 1
function 2 2`pta 1
set p: x
end
`{\"calls\":[],\"edges\":[],\"report\":2,\"sets\":[{\"members\":[\"x\"],\"name\":\"p\"}]}
~
f function 2 6
g function 2 20
t pointer 3 4
main function 5 5
i int 5 24`call through a table
# F *t[2]={f}; void f(void){t[1]=g;} void g(void){} int main(void){for(int i=0;i<2;i++) t[i](); return 0;}
rows 9
locations f0 f1 pointer f2 int
address 5 0
copy 5 2
address 6 1
copy 6 2
address 7 2
load 7 8 pointer
function 0 1
function 1 1
function 3 2
site 2 8 1 at 6 5`pta 1
set t: f g
call a.i:6:5: f g
edge main f
edge main g
end
`{\"calls\":[{\"place\":\"a.i:6:5\",\"targets\":[\"f\",\"g\"]}],\
\"edges\":[[\"main\",\"f\"],[\"main\",\"g\"]],\"report\":2,\"sets\":[{\"members\":[\"f\",\"g\"],\"name\":\"t\"}]}
~
f function 2 6
g function 2 20
t pointer 3 4
main function 5 5
i int 5 24`in order of place
rows 9
locations f0 f1 pointer f2 int
address 5 0
copy 5 2
address 6 1
copy 6 2
address 7 2
load 7 8 pointer
function 0 1
function 1 1
function 3 2
site 2 8 1 at 6 5
direct 0 5 1 at 4 15
site 2 8 0 at 4 30`pta 1
set t: f g
call a.i:4:30:
call a.i:6:5: f g
edge f f
edge main f
edge main g
end
`{\"calls\":[{\"place\":\"a.i:4:30\",\"targets\":[]},\
{\"place\":\"a.i:6:5\",\"targets\":[\"f\",\"g\"]}],\"edges\":[[\"f\",\"f\"],[\"main\",\"f\"],[\"main\",\"g\"]],\
\"report\":2,\"sets\":[{\"members\":[\"f\",\"g\"],\"name\":\"t\"}]}
";

/// The name of the only unit.
fn names(alloc: Global) -> Result<Vec<String>, Fail> {
    let name = "a.i".to_string(alloc)?;
    Ok(vec![in alloc; name]?)
}

/// Whether the reports of a system's least solution are those wanted.
fn are_told(
    alloc: Global,
    space: &Space,
    system: &System,
    lines: &str,
    wanted: &str,
) -> Result<bool, Fail> {
    if !is_valid(system) || space.count() as usize != system.locations.len() {
        return Ok(false);
    }
    let rows = plain_solve(alloc, system)?;
    let names = names(alloc)?;
    let text = report(alloc, space, &names, system, &rows)?;
    let json = json_report(alloc, space, &names, system, &rows)?;
    Ok(text.as_slice() == lines.as_bytes() && json.as_slice() == wanted.as_bytes())
}

/// Whether the reports of a program are those of its text.
fn is_reported(alloc: Global, program: &str) -> Result<bool, Fail> {
    let mut fields = program.split('`');
    let space = space_of(alloc, fields.next().unwrap_or(""))?;
    let system = system_of(alloc, fields.next().unwrap_or(""))?;
    let lines = fields.next().unwrap_or("");
    let json = fields.next().unwrap_or("");
    are_told(alloc, &space, &system, lines, json)
}

#[test]
fn reports(rt: HostRuntime) -> Result<(), Fail> {
    for program in REPORTED.split("~\n") {
        let reported = is_reported(rt.alloc(), program)?;
        assert!(rt; reported, "{program}");
    }
    Ok(())
}

/// How the report of a system's least solution is printed into a sink, as JSON or as lines; want of memory where the system doesn't fit.
fn print_into(
    alloc: Global,
    space: &Space,
    system: &System,
    json: bool,
    sink: &mut MemorySink,
) -> Result<Result<(), PrintFault>, Fail> {
    if !is_valid(system) || space.count() as usize != system.locations.len() {
        return Ok(Err(PrintFault::OutOfMemory));
    }
    let rows = plain_solve(alloc, system)?;
    let names = names(alloc)?;
    if json {
        Ok(print_json(alloc, space, &names, system, &rows, sink))
    } else {
        Ok(print(alloc, space, &names, system, &rows, sink))
    }
}

/// Reports of the first program: as JSON or as lines, the sink's room, the write that fails if one does, the answer, and what is written.
const PRINTED: &str = "lines 100`all`pta 1
set p: x
end
~
json 100`all`{\"calls\":[],\"edges\":[],\"report\":2,\"sets\":[{\"members\":[\"x\"],\"name\":\"p\"}]}
~
lines 100 0`sink`~
lines 9`sink`pta 1
set~
json 9`sink`{\"calls\":";

/// A sink with the room of a row, of which the write fails that it names.
fn sink_of(alloc: Global, head: &str) -> Result<MemorySink, Fail> {
    let mut failing = Vec::new(alloc);
    if let Ok(write) = word(head, 2).parse::<u64>() {
        failing.push(write)?;
    }
    Ok(MemorySink::new(alloc, number(head, 1) as usize, failing)?)
}

/// Whether a sink gets what a row says, and the printer answers so.
fn is_printed(alloc: Global, row: &str) -> Result<bool, Fail> {
    let mut program = REPORTED.split('`');
    let space = space_of(alloc, program.next().unwrap_or(""))?;
    let system = system_of(alloc, program.next().unwrap_or(""))?;
    let mut fields = row.split('`');
    let head = fields.next().unwrap_or("");
    let mut sink = sink_of(alloc, head)?;
    let answer = print_into(alloc, &space, &system, word(head, 0) == "json", &mut sink)?;
    let wanted = match fields.next().unwrap_or("") {
        "all" => Ok(()),
        _ => Err(PrintFault::Sink),
    };
    let written = fields.next().unwrap_or("");
    Ok(answer == wanted && sink.written() == written.as_bytes())
}

#[test]
fn printed_into_sinks(rt: HostRuntime) -> Result<(), Fail> {
    for row in PRINTED.split("~\n") {
        let printed = is_printed(rt.alloc(), row)?;
        assert!(rt; printed, "{row}");
    }
    Ok(())
}

/// Entities, and whether the names of their objects differ. No text gives two objects of one name.
const NAMED: &str = "yes`x int 1 5
p pointer 1 8
main function 1 15~
no`x int 1 5
y int 1 7
x pointer 2 5";

#[test]
fn one_name_twice(rt: HostRuntime) -> Result<(), Fail> {
    for row in NAMED.split("~\n") {
        let mut fields = row.split('`');
        let differ = fields.next().unwrap_or("");
        let space = space_of(rt.alloc(), fields.next().unwrap_or(""))?;
        let found = names_differ(rt.alloc(), &space)?;
        assert!(rt; found == (differ == "yes"), "{row}");
    }
    Ok(())
}
