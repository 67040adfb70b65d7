//! Systems out of their texts.

use crate::systems::SYSTEMS;
use pta_base::{Effect, Listing, OutOfMemory, Place};
use sol_model::{CallSite, Constraint, Function, LocationFact, System, TypeFact};
use std::alloc::Global;

// The type numbers of pointers, of functions and objects without a known type, and of a structure of two pointers, which has a node for
// the whole and one for each of them.
const POINTER: u32 = 4;

const UNKNOWN: u32 = 5;

const PAIR: u32 = 8;

/// The word at a place of a line; the empty one where there are fewer.
pub(crate) fn word<'a>(line: &'a str, at: usize) -> &'a str {
    line.split(' ').nth(at).unwrap_or("")
}

/// The number at a place of a line, and where none stands there one that no system has.
pub(crate) fn number(line: &str, at: usize) -> u32 {
    word(line, at).parse().unwrap_or(u32::MAX)
}

/// The name of a system.
pub(crate) fn name<'a>(text: &'a str) -> &'a str {
    text.split('\n').next().unwrap_or("")
}

/// The line of a text that begins with this word; the empty one where there is none.
pub(crate) fn line_of<'a>(text: &'a str, key: &str) -> &'a str {
    for line in text.split('\n').skip(1) {
        if word(line, 0) == key {
            return line;
        }
    }
    ""
}

/// The system of that name among those that were worked out.
pub(crate) fn worked(wanted: &str) -> &'static str {
    for text in SYSTEMS.split("\n\n") {
        if name(text) == wanted {
            return text;
        }
    }
    ""
}

/// The rows that a line names behind a word, up to its next word.
fn rows_behind(alloc: Global, line: &str, key: &str) -> Result<Listing<u32>, OutOfMemory> {
    let mut rows = Listing::new(alloc);
    let mut is_there = false;
    for it in line.split(' ') {
        match it.parse::<u32>() {
            Ok(row) if is_there => rows.push(row)?,
            Ok(_) => {}
            Err(_) => is_there = it == key,
        }
    }
    Ok(rows)
}

/// The parameters or arguments that a line names behind a word, of one row each.
fn values_behind(alloc: Global, line: &str) -> Result<Listing<Listing<u32>>, OutOfMemory> {
    let mut values = Listing::new(alloc);
    for row in rows_behind(alloc, line, "takes")?.as_slice() {
        let mut rows = Listing::new(alloc);
        rows.push(*row)?;
        values.push(rows)?;
    }
    Ok(values)
}

/// The number at a place of an effect's text.
fn argument(text: &str, at: usize) -> u8 {
    word(text, at).parse().unwrap_or(0)
}

/// The effect that a text tells, as `copy 1 2`; another text gives the argument number 0, which there isn't.
fn effect(text: &str) -> Effect {
    let (first, second, third) = (argument(text, 1), argument(text, 2), argument(text, 3));
    match word(text, 0) {
        "nothing" => Effect::Nothing,
        "give-argument" => Effect::GivesArgument(first),
        "give-new" => Effect::GivesNew,
        "give-object" => Effect::GivesObject(first),
        "copy" => Effect::Copies(first, second),
        "store" => Effect::StoresInto(first, second),
        "call-back" if second == 0 => Effect::CallsBack(first, None),
        "call-back" => Effect::CallsBack(first, Some((second, third))),
        _ => Effect::GivesArgument(0),
    }
}

/// What the function of a line does to sets.
fn effects(alloc: Global, line: &str) -> Result<Listing<Effect>, OutOfMemory> {
    let mut effects = Listing::new(alloc);
    for text in line.split(" does ").skip(1) {
        effects.push(effect(text))?;
    }
    Ok(effects)
}

/// The functions and locations of the objects that the call of a line gets.
fn fresh(alloc: Global, line: &str) -> Result<Listing<(u32, u32)>, OutOfMemory> {
    let mut fresh = Listing::new(alloc);
    for text in line.split(" makes ").skip(1) {
        fresh.push((number(text, 0), number(text, 1)))?;
    }
    Ok(fresh)
}

/// Where the call of a line stands in the only unit.
fn place(line: &str) -> Place {
    match line.split_once(" at ") {
        Some((_, text)) => Place {
            unit: 0,
            line: number(text, 0),
            column: number(text, 1),
        },
        None => Place {
            unit: 0,
            line: 1,
            column: 1,
        },
    }
}

/// The number of a type.
fn type_number(word: &str) -> u32 {
    match word {
        "int" => 2,
        "pointer" => POINTER,
        "pair" => PAIR,
        "blob" => UNKNOWN,
        _ => u32::MAX,
    }
}

/// What is known of the location that a word tells.
fn location(word: &str) -> LocationFact {
    match word.strip_prefix('f') {
        Some(number) => LocationFact {
            collapsed: false,
            ty: UNKNOWN,
            function: Some(number.parse().unwrap_or(u32::MAX)),
        },
        None => LocationFact {
            collapsed: word == "blob",
            ty: type_number(word),
            function: None,
        },
    }
}

/// The constraint that a line tells; any other line gives one of rows that no system has.
fn constraint(line: &str) -> Constraint {
    let (first, second) = (number(line, 1), number(line, 2));
    match word(line, 0) {
        "address" => Constraint::Address {
            row: first,
            location: second,
        },
        "load" => Constraint::Load {
            pointer: first,
            to: second,
            ty: type_number(word(line, 3)),
            sub: 0,
        },
        "store" => Constraint::Store {
            pointer: first,
            from: second,
            ty: POINTER,
            sub: 0,
        },
        "member" => Constraint::Field {
            from: first,
            to: second,
            ty: PAIR,
            member: number(line, 3),
        },
        "contents" => Constraint::Contents {
            to: first,
            from: second,
        },
        "call" => Constraint::Call { call: first },
        "copy" => Constraint::Copy {
            from: first,
            to: second,
        },
        _ => Constraint::Copy {
            from: u32::MAX,
            to: u32::MAX,
        },
    }
}

fn add_locations(system: &mut System, line: &str) -> Result<(), OutOfMemory> {
    for it in line.split(' ').skip(1) {
        system.locations.push(location(it))?;
    }
    Ok(())
}

fn add_function(alloc: Global, system: &mut System, line: &str) -> Result<(), OutOfMemory> {
    let parameters = values_behind(alloc, line)?;
    let result = rows_behind(alloc, line, "gives")?;
    let effects = effects(alloc, line)?;
    let is_plain = effects.as_slice().is_empty();
    system.functions.push(Function {
        location: number(line, 1),
        signature: number(line, 2),
        parameters,
        result,
        library: if is_plain { None } else { Some(0) },
        effects,
    })?;
    Ok(())
}

fn add_site(alloc: Global, system: &mut System, line: &str) -> Result<(), OutOfMemory> {
    let arguments = values_behind(alloc, line)?;
    let result = rows_behind(alloc, line, "gives")?;
    let fresh = fresh(alloc, line)?;
    system.calls.push(CallSite {
        caller: number(line, 1),
        callee: number(line, 2),
        signature: number(line, 3),
        direct: word(line, 0) == "direct",
        place: place(line),
        arguments,
        result,
        fresh,
    })?;
    Ok(())
}

/// Adds what a line tells of the system.
fn add_line(alloc: Global, system: &mut System, line: &str) -> Result<(), OutOfMemory> {
    match word(line, 0) {
        "rows" => system.rows = number(line, 1),
        "locations" => add_locations(system, line)?,
        "function" => add_function(alloc, system, line)?,
        "site" | "direct" => add_site(alloc, system, line)?,
        "#" | "sets" | "edge" | "left" => {}
        _ => system.constraints.push(constraint(line))?,
    }
    Ok(())
}

/// The eight plain types, and the structure of two pointers.
pub(crate) fn types(alloc: Global) -> Result<Listing<TypeFact>, OutOfMemory> {
    let mut types = Listing::new(alloc);
    for _ in 0u32..8 {
        types.push(TypeFact {
            nodes: 1,
            members: Listing::new(alloc),
        })?;
    }
    let mut members = Listing::new(alloc);
    members.push(1u32)?;
    members.push(2u32)?;
    types.push(TypeFact { nodes: 3, members })?;
    Ok(types)
}

/// The system of a text. Want of memory is the one error.
pub(crate) fn system_of(alloc: Global, text: &str) -> Result<System, OutOfMemory> {
    let types = types(alloc)?;
    let mut system = System {
        rows: 0,
        locations: Listing::new(alloc),
        types,
        constraints: Listing::new(alloc),
        calls: Listing::new(alloc),
        functions: Listing::new(alloc),
    };
    for line in text.split('\n').skip(1) {
        add_line(alloc, &mut system, line)?;
    }
    Ok(system)
}

/// The first least sets of a text's system.
pub(crate) fn sets_of(alloc: Global, text: &str) -> Result<Vec<u64>, OutOfMemory> {
    let mut sets = Vec::new(alloc);
    for it in line_of(text, "sets").split(' ').skip(1) {
        sets.push(it.parse::<u64>().unwrap_or(u64::MAX))?;
    }
    Ok(sets)
}

/// The edges of the call graph of a text's system.
pub(crate) fn edges_of(alloc: Global, text: &str) -> Result<Vec<(u32, u32)>, OutOfMemory> {
    let mut edges = Vec::new(alloc);
    for line in text.split('\n').skip(1) {
        if word(line, 0) == "edge" {
            edges.push((number(line, 1), number(line, 2)))?;
        }
    }
    Ok(edges)
}
