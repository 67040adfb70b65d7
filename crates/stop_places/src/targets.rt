// What calls reach.

ghost use Rattle.std.specs.Prelude.{◌≡◌, ℕ, IfOk, Some, length, map};
ghost use Rattle.std.specs.List.{list_any};
ghost use Rattle.std.specs.Str.{bytes_eq};
ghost use Rattle.sol_model.specs.Families.{members};
ghost use Rattle.sol_model.specs.Systems.{IsValid, Fits, IsCallValid};
ghost use Rattle.stop_places.specs.Targets.{walkers, enders};
ghost use Rattle.stop_places.specs.Found.{found_by, found_at, function_number, is_named, joined, AreJudged, IsJudged, EachJudged};

use call_graph::row_members::members_of;
use lib_summaries::name_at;
use pta_base::OutOfMemory;
use sol_model::sites::call_at;
use sol_model::{CallSite, Rows, System};
use std::alloc::Global;

/// What a location is to the calls of a signature: no function of it, a function of the program's own, or one of the
/// library, by its number.
#[derive(Clone, Copy)]
pub(crate) enum Found {
    Stranger,
    Own,
    Library(u32),
}

/// What was found of a call: whether it may call a library function, one that goes through what its arguments point to by
/// type, and one that ends an instance or calls back, or what isn't a function of its type.
#[derive(Clone, Copy)]
pub(crate) struct Judged {
    pub(crate) library: bool,
    pub(crate) mismatch: bool,
    pub(crate) bad: bool,
}

static WALKERS: [&str; 22] = [
    "realloc", "memcpy", "memmove", "memset", "strcpy", "strcat", "strncpy", "strchr", "strrchr",
    "strstr", "memchr", "strtol", "qsort", "bsearch", "strlen", "strcmp", "strncmp", "strdup",
    "sprintf", "snprintf", "fgets", "fread",
];

static ENDERS: [&str; 5] = ["free", "realloc", "qsort", "bsearch", "atexit"];

// Whether one of these names is that name.
fn is_among(names: &[&str], name: &str) -> bool
    ensures { result ≡ list_any (λ other. bytes_eq other.now name.now) names.now }
{
    names.iter().any(|other| *other == name)
}

// Whether the library function of a number has one of these names.
fn is_named(names: &[&str], k: u32) -> bool
    ensures { result ≡ is_named (map (λ name. name.now) names.now) k }
{
    match name_at(k) {
        Some(name) => is_among(names, name),
        None => false,
    }
}

// Whether the library function of a number goes through what its arguments point to by type.
fn is_walker(k: u32) -> bool
    ensures { result ≡ is_named walkers k }
{
    is_named(&WALKERS, k)
}

// Whether the library function of a number ends an instance or calls back.
fn is_ender(k: u32) -> bool
    ensures { result ≡ is_named enders k }
{
    is_named(&ENDERS, k)
}

// A function of the program, or of the library.
fn found_by(library: Option<u32>) -> Found
    ensures { result ≡ found_by library }
{
    match library {
        None => Found::Own,
        Some(k) => Found::Library(k),
    }
}

// The function of a number, as one of a signature.
fn found_in(system: &System, signature: u32, number: u32) -> Found
    ensures { (location : ℕ) → function_number system.now location ≡ Some number →
        result ≡ found_at system.now signature location }
{
    match system.functions.as_slice().get(number as usize) {
        Some(function) => {
            if function.signature == signature {
                found_by(function.library)
            } else {
                Found::Stranger
            }
        }
        None => Found::Stranger,
    }
}

// What a location is to the calls of a signature.
fn found_at(system: &System, signature: u32, location: u32) -> Found
    ensures { result ≡ found_at system.now signature location }
{
    match system.locations.as_slice().get(location as usize) {
        Some(fact) => match fact.function {
            Some(number) => found_in(system, signature, number),
            None => Found::Stranger,
        },
        None => Found::Stranger,
    }
}

// What was found so far, with one location more.
fn with(judged: Judged, found: Found) -> Judged
    ensures { result ≡ joined judged found }
{
    match found {
        Found::Stranger => Judged {
            bad: true,
            ..judged
        },
        Found::Own => judged,
        Found::Library(k) => Judged {
            library: true,
            mismatch: judged.mismatch || is_walker(k),
            bad: judged.bad || is_ender(k),
        },
    }
}

// What locations are to the calls of a signature, each looked at once.
fn judge(system: &System, signature: u32, locations: &[u32]) -> Judged
    ensures { AreJudged system.now signature locations.now result }
{
    let mut judged = Judged {
        library: false,
        mismatch: false,
        bad: false,
    };
    for location in locations {
        judged = with(judged, found_at(system, signature, *location));
    }
    judged
}

// What is found of a call.
fn judged_call(
    alloc: Global,
    system: &System,
    rows: &Rows,
    call: &CallSite,
) -> Result<Judged, OutOfMemory>
    requires valid { IsValid system.now }
    requires fits { Fits system.now rows.now }
    requires call { IsCallValid system.now call.now }
    ensures { IfOk result (IsJudged system.now (members rows.now) call.now) }
{
    let held = members_of(alloc, system, rows, call.callee)?;
    Ok(judge(system, call.signature, held.as_slice()))
}

/// What is found of each call, in order. The row of each is gone through once.
pub(crate) fn judged_calls(
    alloc: Global,
    system: &System,
    rows: &Rows,
) -> Result<Vec<Judged>, OutOfMemory>
    requires valid { IsValid system.now }
    requires fits { Fits system.now rows.now }
    ensures { IfOk result (λ list. EachJudged system.now (members rows.now) (length system.now.calls) list.items) }
{
    let mut list = Vec::new(alloc);
    for number in 0..system.calls.len() {
        let one = judged_call(alloc, system, rows, call_at(system, number))?;
        list.push(one)?;
    }
    Ok(list)
}
